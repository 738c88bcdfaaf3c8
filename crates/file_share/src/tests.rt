ghost use Rattle.std.specs.Prelude.{◌≡◌, ◌<◌, ◌≤◌, true, false, length, IfOk};
ghost use Rattle.plain_file.specs.File.{max_file, reach};
ghost use Rattle.file_share.specs.Known.{IsBack, IsIdle};
ghost use Rattle.file_share.specs.Turns.{HasOf};

use crate::boards::SharedFiles;
use crate::marks::EntryMark;
use crate::table::{FilePass, FileTable};
use plain_file::{
    Answer, Applied, Blob, BoardRefusal, Body, Entry, First, Leased, List, Memory, Op, apply_as,
};
use std::alloc::Global;
use std::process::Abort;
use std::sync::Wait;
use std::test::Fail;
use std::thread::{Threads, join};

// Applies one operation in a turn of its own.
fn act<R: Wait>(
    rt: &R,
    alloc: Global,
    table: &FileTable,
    pass: &mut FilePass,
    file: usize,
    op: Op,
) -> Result<Applied, BoardRefusal>
    requires table { (pass.old.table ≡ table.now) × (file < table.now.slots) }
    requires idle { IsIdle pass.old.view }
    requires fits { reach op ≤ max_file }
    ensures { IsBack pass.old pass.new }
{
    pass.sound();
    pass.enter(rt, table, file);
    let result = pass.apply(alloc, table, file, op);
    pass.leave(table, file);
    result
}

// Writes two bytes at offset 0, so many times in turns of their own.
#[tactic(auto, unfolding(plain_file::specs::File::reach))]
fn write_all<R: Wait>(
    rt: &R,
    alloc: Global,
    table: &FileTable,
    mut pass: FilePass,
    file: usize,
    count: u32,
) -> (FilePass, bool)
    requires table { (pass.table ≡ table.now) × (file < table.now.slots) }
    requires idle { IsIdle pass.view }
    ensures { IsBack pass result.0 }
{
    for _ in 0..count {
        let Ok(bytes) = Blob::copy_of(alloc, b"ab") else {
            return (pass, false);
        };
        let op = Op::Write { off: 0, bytes };
        if act(rt, alloc, table, &mut pass, file, op).is_err() {
            return (pass, false);
        }
    }
    (pass, true)
}

// Two threads at once, each with a pass and a file.
fn write_both<R: Threads + Wait + Sync>(
    rt: &R,
    alloc: Global,
    table: &FileTable,
    one: FilePass,
    other: FilePass,
    files: (usize, usize),
    count: u32,
) -> ((FilePass, bool), (FilePass, bool))
    requires table { (one.table ≡ table.now) × (other.table ≡ table.now) × (files.0 < table.now.slots) × (files.1 < table.now.slots) }
    requires idle { IsIdle one.view × IsIdle other.view }
    ensures { IsBack one result.0.0 × IsBack other result.1.0 }
{
    join(
        rt,
        || -> (FilePass, bool)
            requires { (one.table ≡ table.now) × (files.0 < table.now.slots) × IsIdle one.view }
            ensures { IsBack one result.0 }
        { write_all(rt, alloc, table, one, files.0, count) },
        || -> (FilePass, bool)
            requires { (other.table ≡ table.now) × (files.1 < table.now.slots) × IsIdle other.view }
            ensures { IsBack other result.0 }
        { write_all(rt, alloc, table, other, files.1, count) },
    )
}

// How many entries of a history are of this guest.
fn count_of(history: &[Entry], guest: u32) -> usize {
    history.iter().filter(|entry| entry.guest == guest).count()
}

fn check_counts(
    rt: &impl Abort,
    body: &Body,
    guests: (u32, u32),
    each: usize,
    all: usize,
) -> Result<(), Fail> {
    let history = body.history().as_slice();
    assert_eq!(rt; history.len(), all);
    assert_eq!(rt; count_of(history, guests.0), each);
    assert_eq!(rt; count_of(history, guests.1), each);
    Ok(())
}

// Each guest's entries of a file are as many as it made, and their marks are read before the table is closed.
#[test]
fn two_guests_write_one_file(rt: HostRuntime) -> Result<(), Fail> {
    let alloc = rt.alloc();
    let mut firsts = List::new(alloc);
    firsts.push(First { size: 1, fill: 7 })?;
    let (table, mut first) = FileTable::new(alloc, &firsts, 0)?;
    let one = table.split(&mut first, 0);
    let other = table.split(&mut first, 1);
    let (a, b) = write_both(&rt, alloc, &table, one, other, (0, 0), 50);
    assert!(rt; a.1 && b.1);
    table.join(&mut first, b.0);
    table.join(&mut first, a.0);
    let read = table.marks(&rt, alloc, &mut first, 0)?;
    assert_eq!(rt; read.size, 2);
    let marks = read.marks.as_slice();
    assert_eq!(rt; marks.len(), 100);
    let closed = table.close(first);
    let body = closed.body(0);
    for (entry, mark) in body.history().as_slice().iter().zip(marks.iter()) {
        let wanted = EntryMark {
            guest: entry.guest,
            call: entry.call,
            way: entry.way,
        };
        assert_eq!(rt; *mark, wanted);
    }
    check_counts(&rt, body, (0, 1), 50, 100)
}

// The same of two threads, whose passes are dropped then.
fn have_written<R: Threads + Wait + Sync>(
    rt: &R,
    alloc: Global,
    table: &FileTable,
    one: FilePass,
    other: FilePass,
    files: (usize, usize),
) -> bool
    requires table { (one.table ≡ table.now) × (other.table ≡ table.now) × (files.0 < table.now.slots) × (files.1 < table.now.slots) }
    requires idle { IsIdle one.view × IsIdle other.view }
{
    let (a, b) = write_both(rt, alloc, table, one, other, files, 1000);
    a.1 && b.1
}

// A file's history, made again on a file of its own, gives the file's bytes.
#[tactic(auto, unfolding(plain_file::specs::File::reach))]
fn check_replay(rt: &impl Abort, alloc: Global, body: &Body) -> Result<(), Fail> {
    let mut again = Body::new(alloc, First { size: 1, fill: 7 })?;
    for entry in body.history().as_slice() {
        let bytes = Blob::copy_of(alloc, b"ab")?;
        let op = Op::Write { off: 0, bytes };
        assert!(rt; entry.op == op);
        let entry = Entry {
            guest: entry.guest,
            call: entry.call,
            op,
            way: entry.way,
        };
        again.apply(alloc, entry)?;
    }
    let mut wanted = [0; 4];
    let mut found = [0; 4];
    assert_eq!(rt;
        again.read_into(0, &mut wanted),
        body.read_into(0, &mut found)
    );
    assert_eq!(rt; wanted, found);
    Ok(())
}

// Looks at a file in a turn.
fn check_file(
    rt: &(impl Abort + Wait),
    alloc: Global,
    table: &FileTable,
    pass: &mut FilePass,
    file: usize,
    guests: (u32, u32),
) -> Result<(), Fail>
    requires table { (pass.old.table ≡ table.now) × (file < table.now.slots) }
    requires idle { IsIdle pass.old.view }
    ensures { IfOk result (λ _. IsBack pass.old pass.new) }
{
    pass.sound();
    pass.enter(rt, table, file);
    check_counts(rt, pass.body(file), guests, 1000, 2000)?;
    check_replay(rt, alloc, pass.body(file))?;
    pass.leave(table, file);
    Ok(())
}

// Of eight guests, two write each file.
#[test]
fn eight_guests_write_four_files(rt: HostRuntime) -> Result<(), Fail> {
    let alloc = rt.alloc();
    let mut firsts = List::new(alloc);
    firsts.push(First { size: 1, fill: 7 })?;
    firsts.push(First { size: 1, fill: 7 })?;
    firsts.push(First { size: 1, fill: 7 })?;
    firsts.push(First { size: 1, fill: 7 })?;
    let (table, mut first) = FileTable::new(alloc, &firsts, 0)?;
    let a = table.split(&mut first, 0);
    let b = table.split(&mut first, 1);
    let c = table.split(&mut first, 2);
    let d = table.split(&mut first, 3);
    let e = table.split(&mut first, 4);
    let f = table.split(&mut first, 5);
    let g = table.split(&mut first, 6);
    let h = table.split(&mut first, 7);
    let (low, high) = join(
        &rt,
        || -> (bool, bool)
            requires { (a.table ≡ table) × (b.table ≡ table) × (c.table ≡ table) × (d.table ≡ table) × (table.slots ≡ 4) × IsIdle a.view × IsIdle b.view × IsIdle c.view × IsIdle d.view }
        {
            join(
                &rt,
                || -> bool
                    requires { (a.table ≡ table) × (b.table ≡ table) × (table.slots ≡ 4) × IsIdle a.view × IsIdle b.view }
                { have_written(&rt, alloc, &table, a, b, (0, 1)) },
                || -> bool
                    requires { (c.table ≡ table) × (d.table ≡ table) × (table.slots ≡ 4) × IsIdle c.view × IsIdle d.view }
                { have_written(&rt, alloc, &table, c, d, (2, 3)) },
            )
        },
        || -> (bool, bool)
            requires { (e.table ≡ table) × (f.table ≡ table) × (g.table ≡ table) × (h.table ≡ table) × (table.slots ≡ 4) × IsIdle e.view × IsIdle f.view × IsIdle g.view × IsIdle h.view }
        {
            join(
                &rt,
                || -> bool
                    requires { (e.table ≡ table) × (f.table ≡ table) × (table.slots ≡ 4) × IsIdle e.view × IsIdle f.view }
                { have_written(&rt, alloc, &table, e, f, (0, 1)) },
                || -> bool
                    requires { (g.table ≡ table) × (h.table ≡ table) × (table.slots ≡ 4) × IsIdle g.view × IsIdle h.view }
                { have_written(&rt, alloc, &table, g, h, (2, 3)) },
            )
        },
    );
    assert!(rt; low.0 && low.1 && high.0 && high.1);
    check_file(&rt, alloc, &table, &mut first, 0, (0, 4))?;
    check_file(&rt, alloc, &table, &mut first, 1, (1, 5))?;
    check_file(&rt, alloc, &table, &mut first, 2, (2, 6))?;
    check_file(&rt, alloc, &table, &mut first, 3, (3, 7))
}

// A file can't be made smaller without its bar, and what a guest wrote is what it reads next.
#[test]
#[tactic(auto, unfolding(plain_file::specs::File::reach))]
fn shared_files_are_a_board(rt: HostRuntime) -> Result<(), Fail> {
    let alloc = rt.alloc();
    let mut firsts = List::new(alloc);
    firsts.push(First { size: 4, fill: 7 })?;
    let (table, mut first) = FileTable::new(alloc, &firsts, 0)?;
    let mut board = SharedFiles::new(&table, table.split(&mut first, 0));
    let refused = apply_as(&rt, alloc, &mut board, 0, Op::Truncate { size: 3 });
    assert_eq!(rt; refused, Err(BoardRefusal::Unbarred { size: 4 }));
    let answer = Answer::Size(4);
    let done = apply_as(&rt, alloc, &mut board, 0, Op::Truncate { size: 4 });
    assert_eq!(rt; done, Ok(Applied { place: 0, answer }));
    let bytes = Blob::copy_of(alloc, b"ab")?;
    apply_as(&rt, alloc, &mut board, 0, Op::Write { off: 3, bytes })?;
    let answer = Answer::Bytes(Blob::copy_of(alloc, b"\x07\x07\x07ab")?);
    let read = apply_as(&rt, alloc, &mut board, 0, Op::Read { off: 0, len: 9 });
    assert_eq!(rt; read, Ok(Applied { place: 2, answer }));
    Ok(())
}

// ---- leases and bars

// Looks at a file's size in a turn under a lease.
fn look<R: Abort + Wait>(rt: &R, table: &FileTable, pass: &mut FilePass, file: usize)
    requires { HasOf table.now pass.old.view.guest file false 0 false pass.old }
    ensures { HasOf table.now pass.old.view.guest file false 0 false pass.new }
{
    let noted = pass.lease(rt, table, file);
    pass.enter(rt, table, file);
    let size = pass.size_now(table, file);
    pass.leave(table, file);
    pass.unlease(table, file);
    assert!(rt; size >= noted);
}

fn look_often<R: Abort + Wait>(
    rt: &R,
    table: &FileTable,
    mut pass: FilePass,
    file: usize,
    rounds: u32,
) -> FilePass
    requires { HasOf table.now pass.view.guest file false 0 false pass }
    ensures { HasOf table.now pass.view.guest file false 0 false result }
{
    for _ in 0..rounds {
        look(rt, table, &mut pass, file);
    }
    pass
}

// Takes the bar on a file, as soon as nobody has a lease there.
fn take_bar<R: Abort + Wait>(rt: &R, table: &FileTable, pass: &mut FilePass, file: usize)
    requires { HasOf table.now pass.old.view.guest file false 0 false pass.old }
    ensures { HasOf table.now pass.old.view.guest file false 0 true pass.new }
{
    for _ in rt.forever() {
        match pass.bar(rt, table, file) {
            Ok(()) => return,
            Err(leased) => assert!(rt; leased.count > 0),
        }
    }
    unreachable!()
}

// Gives a file another size, under the bar.
#[tactic(auto, unfolding(plain_file::specs::File::reach))]
fn resize<R: Abort + Wait>(
    rt: &R,
    alloc: Global,
    table: &FileTable,
    pass: &mut FilePass,
    file: usize,
    size: u64,
) -> Result<Applied, BoardRefusal>
    requires idle { HasOf table.now pass.old.view.guest file false 0 false pass.old }
    requires fits { size ≤ max_file }
    ensures { HasOf table.now pass.old.view.guest file false 0 false pass.new }
{
    take_bar(rt, table, pass, file);
    pass.enter(rt, table, file);
    let result = pass.apply(alloc, table, file, Op::Truncate { size });
    pass.leave(table, file);
    pass.unbar(table, file);
    result
}

// Makes a file shorter and longer by turns.
fn resize_often<R: Abort + Wait>(
    rt: &R,
    alloc: Global,
    table: &FileTable,
    mut pass: FilePass,
    file: usize,
    rounds: u32,
) -> (FilePass, bool)
    requires { HasOf table.now pass.view.guest file false 0 false pass }
    ensures { HasOf table.now pass.view.guest file false 0 false result.0 }
{
    for round in 0..rounds {
        let size = if round % 2 == 0 { 3 } else { 9 };
        if resize(rt, alloc, table, &mut pass, file, size).is_err() {
            return (pass, false);
        }
    }
    (pass, true)
}

// One guest makes a file shorter, while another sees under leases that it doesn't.
#[test]
fn no_file_shrinks_under_a_lease(rt: HostRuntime) -> Result<(), Fail> {
    let alloc = rt.alloc();
    let mut firsts = List::new(alloc);
    firsts.push(First { size: 9, fill: 7 })?;
    let (table, mut first) = FileTable::new(alloc, &firsts, 2)?;
    let one = table.split(&mut first, 0);
    let other = table.split(&mut first, 1);
    one.sound();
    other.sound();
    let (one, other) = join(
        &rt,
        || -> FilePass
            requires { HasOf table one.view.guest 0 false 0 false one }
            ensures { HasOf table one.view.guest 0 false 0 false result }
        { look_often(&rt, &table, one, 0, 10_000) },
        || -> (FilePass, bool)
            requires { HasOf table other.view.guest 0 false 0 false other }
            ensures { HasOf table other.view.guest 0 false 0 false result.0 }
        { resize_often(&rt, alloc, &table, other, 0, 10_000) },
    );
    assert!(rt; other.1);
    table.join(&mut first, other.0);
    table.join(&mut first, one);
    let closed = table.close(first);
    let body = closed.body(0);
    assert_eq!(rt; body.size(), 9);
    let history = body.history().as_slice();
    assert_eq!(rt; history.len(), 10_000);
    assert_eq!(rt; count_of(history, 1), 10_000);
    Ok(())
}

// Takes so many leases on a file of one byte.
fn lease_often<R: Abort + Wait>(
    rt: &R,
    table: &FileTable,
    pass: &mut FilePass,
    file: usize,
    count: u32,
)
    requires none { HasOf table.now pass.old.view.guest file false 0 false pass.old }
    requires few { count ≤ 64 }
    ensures { HasOf table.now pass.old.view.guest file false count false pass.new }
{
    for _ in 0..count {
        let size = pass.lease(rt, table, file);
        assert_eq!(rt; size, 1);
    }
}

// Gives so many leases back.
fn unlease_often(table: &FileTable, pass: &mut FilePass, file: usize, count: u32)
    requires { HasOf table.now pass.old.view.guest file false count false pass.old }
    ensures { HasOf table.now pass.old.view.guest file false 0 false pass.new }
{
    for _ in 0..count {
        pass.unlease(table, file);
    }
}

// A bar is refused where so many leases are.
fn refuse_bar<R: Abort + Wait>(
    rt: &R,
    table: &FileTable,
    pass: &mut FilePass,
    file: usize,
    count: u32,
)
    requires { HasOf table.now pass.old.view.guest file false 0 false pass.old }
    ensures { HasOf table.now pass.old.view.guest file false 0 false pass.new }
{
    match pass.bar(rt, table, file) {
        Ok(()) => panic!(rt; "the bar was taken"),
        Err(leased) => assert_eq!(rt; leased, Leased { count }),
    }
}

// A bar is refused until the last of as many leases as a guest may have is given back.
#[test]
fn a_guest_has_all_its_leases(rt: HostRuntime) -> Result<(), Fail> {
    let alloc = rt.alloc();
    let mut firsts = List::new(alloc);
    firsts.push(First { size: 1, fill: 7 })?;
    let (table, mut first) = FileTable::new(alloc, &firsts, 2)?;
    let mut one = table.split(&mut first, 0);
    let mut other = table.split(&mut first, 1);
    one.sound();
    other.sound();
    lease_often(&rt, &table, &mut one, 0, 64);
    refuse_bar(&rt, &table, &mut other, 0, 64);
    unlease_often(&table, &mut one, 0, 64);
    assert_eq!(rt; other.bar(&rt, &table, 0), Ok(()));
    Ok(())
}

// ---- passes that come and go

// Passes come back in another order than they went, and one goes when others are back. Each entry is there once.
#[test]
fn passes_come_back_in_any_order(rt: HostRuntime) -> Result<(), Fail> {
    let alloc = rt.alloc();
    let mut firsts = List::new(alloc);
    firsts.push(First { size: 1, fill: 7 })?;
    let (table, mut first) = FileTable::new(alloc, &firsts, 0)?;
    let a = table.split(&mut first, 0);
    let b = table.split(&mut first, 1);
    let c = table.split(&mut first, 2);
    let b = write_all(&rt, alloc, &table, b, 0, 1);
    let a = write_all(&rt, alloc, &table, a, 0, 1);
    let c = write_all(&rt, alloc, &table, c, 0, 1);
    assert!(rt; a.1 && b.1 && c.1);
    table.join(&mut first, c.0);
    table.join(&mut first, a.0);
    let d = table.split(&mut first, 3);
    let d = write_all(&rt, alloc, &table, d, 0, 1);
    assert!(rt; d.1);
    table.join(&mut first, d.0);
    table.join(&mut first, b.0);
    let closed = table.close(first);
    let history = closed.body(0).history().as_slice();
    let guests = [1, 0, 2, 3];
    assert_eq!(rt; history.len(), guests.len());
    for (entry, guest) in history.iter().zip(guests.iter()) {
        assert_eq!(rt; entry.guest, *guest);
    }
    Ok(())
}
