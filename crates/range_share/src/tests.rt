ghost use Rattle.std.specs.Prelude.{◌≡◌, ◌<◌, ◌≤◌, Some, None, true, sum};
ghost use Rattle.page_map.specs.Window.{max_chunks};
ghost use Rattle.range_tree.specs.Ranges.{max_pins, range_count, with_pin};
ghost use Rattle.seats.specs.Views.{MayGive, guests};
ghost use Rattle.range_share.specs.Table.{IsIdle};
ghost use Rattle.range_share.specs.Known.{TookIn, child_pass, parent_pass};
ghost use Rattle.range_share.specs.Boards.{board_of};
ghost use Rattle.range_share.specs.Turns.{Has, IsSame};

use crate::boards::SeatMap;
use crate::table::{RangePass, RangeTable};
use page_map::{LogEntry, MAX_CHUNKS, MapBoard, Mode, Placed, RANGE_SIZE, RangeWord, Span, Target};
use range_tree::RangeBoard;
use std::process::Abort;
use std::sync::Wait;
use std::test::Fail;
use std::thread::{Threads, join_mut};

// ---- steps

// What a guest does, with what is to come of it.
#[derive(Clone, Copy, Debug)]
enum Step {
    // Takes the tree of a file.
    Enter(u32),
    Leave,
    // A range, and what its take answers.
    Take(u32, Result<(), RangeWord>),
    // Takes one of the first two ranges, as soon as it may.
    TakeAny,
    // Takes the range where a chunk is placed.
    TakeOf(u32),
    // Maps the moved range to a chunk and places it there; and the place of the entry, where it is known.
    Settle(u32, Mode, Option<u64>),
    // Maps a placed chunk for writing, and upgrades it.
    Upgrade(u32),
    // Unmaps the moved range.
    Clear,
    // The moved range is free.
    Free,
    // Pins the range of a placed chunk. All pins of a guest are on one range.
    Pin(u32),
    Unpin,
    // A span, and whether it may be set.
    MaySet(Span, bool),
    // A place in the window and a length, and whether it may be cleared.
    MayClear(u64, u64, bool),
    // The range that is moved.
    Moved(Option<u32>),
    // A chunk, and where it is placed.
    Find(u32, Option<Placed>),
    LogLen(u64),
    // A range, and its word.
    Look(u32, RangeWord),
    // A range whose word has pins.
    LookPinned(u32),
    // A range, and its noted word.
    Looked(u32, Option<RangeWord>),
    Forget,
    // A range, and what it is mapped to.
    Aim(u32, Option<Target>),
}

// Steps, and how often all of them are made.
type Part = (u32, &'static [Step]);

// A guest's board, and what it has in hand: the tree of a file, and so many pins on a range.
#[derive(Drop)]
struct Guest<'a> {
    board: SeatMap<'a>,
    tree: Option<u32>,
    range: u32,
    pins: u32,
    ghost has: { Has (board_of board.pass) tree range pins },
}

// Maps a range to a chunk of a file.
fn map<R: Abort, B: RangeBoard>(rt: &R, board: &mut B, range: u32, to: Target)
    requires chunk { to.chunk < max_chunks }
    ensures near { range < range_count (B.map board.old) }
    ensures over { (B.map board.new).over ≡ (B.map board.old).over }
    ensures hands { (B.map board.new).hands ≡ (B.map board.old).hands }
    ensures ranges { (B.map board.new).ranges ≡ (B.map board.old).ranges }
{
    let span = Span {
        node: to.file as u64 + 2,
        foffset: to.chunk as u64 * RANGE_SIZE,
        moffset: range as u64 * RANGE_SIZE,
        len: RANGE_SIZE,
        mode: to.mode,
    };
    let count = board.ranges();
    assert!(rt; range < count);
    assert!(rt; board.may_set(&span));
    board.set(&span);
}

// Takes one of the first two ranges, as soon as it may.
#[tactic(auto, unfolding(range_tree::specs::Ranges::Takes))]
fn take_any<R: Wait, B: RangeBoard>(rt: &R, board: &mut B)
    requires count { 2 ≤ range_count (B.map board.old) }
    requires may { (B.map board.old).ranges.may_take ≡ true }
    requires free { (B.map board.old).hands.moves ≡ None }
    ensures same { IsSame (B.map board.old) (B.map board.new) }
    ensures tree { (B.map board.new).hands.tree ≡ (B.map board.old).hands.tree }
    ensures pins { (B.map board.new).hands.pins ≡ (B.map board.old).hands.pins }
{
    let mut range = 0;
    for _ in rt.forever() {
        if board.take(range).is_ok() {
            return;
        }
        range = 1 - range;
    }
    unreachable!()
}

// Places a chunk of a file in the moved range.
#[tactic(auto, unfolding(range_tree::specs::Ranges::Settles))]
fn settle<R: Abort, B: RangeBoard>(rt: &R, board: &mut B, to: Target) -> u64
    requires chunk { to.chunk < max_chunks }
    requires tree { (B.map board.old).hands.tree ≡ Some to.file }
    ensures same { IsSame (B.map board.old) (B.map board.new) }
    ensures tree { (B.map board.new).hands.tree ≡ Some to.file }
    ensures pins { (B.map board.new).hands.pins ≡ (B.map board.old).hands.pins }
{
    let Some(range) = board.moved() else {
        panic!(rt; "no range is moved");
    };
    map(rt, board, range, to);
    assert!(rt; board.find(to.chunk).is_none());
    board.sound_ranges();
    let target = board.target(range);
    assert!(rt; target == Some(to));
    match board.settle_mapped(to.chunk, to.mode) {
        Ok(place) => place,
        Err(_) => panic!(rt; "no memory"),
    }
}

// Maps a placed chunk of a file for writing, and upgrades it.
fn upgrade<R: Abort, B: RangeBoard>(rt: &R, board: &mut B, file: u32, chunk: u32)
    requires chunk { chunk < max_chunks }
    requires tree { (B.map board.old).hands.tree ≡ Some file }
    ensures same { IsSame (B.map board.old) (B.map board.new) }
    ensures hands { (B.map board.new).hands ≡ (B.map board.old).hands }
{
    let Some(placed) = board.find(chunk) else {
        panic!(rt; "the chunk isn't placed");
    };
    let Mode::R = placed.mode else {
        panic!(rt; "the chunk may be written");
    };
    let wanted = Target {
        file,
        chunk,
        mode: Mode::W,
    };
    map(rt, board, placed.range, wanted);
    board.sound_ranges();
    let target = board.target(placed.range);
    assert!(rt; target == Some(wanted));
    board.upgrade(chunk);
}

// Pins the range of a placed chunk, and tells it.
fn pin<R: Abort, B: RangeBoard>(rt: &R, board: &mut B, file: u32, chunk: u32) -> u32
    requires tree { (B.map board.old).hands.tree ≡ Some file }
    requires may { (B.map board.old).ranges.may_take ≡ true }
    requires few { sum (B.map board.old).hands.pins < max_pins }
    ensures near { result < range_count (B.map board.old) }
    ensures pinned { B.map board.new ≡ with_pin (B.map board.old) result }
{
    board.sound_ranges();
    let Some(placed) = board.find(chunk) else {
        panic!(rt; "the chunk isn't placed");
    };
    let count = board.ranges();
    assert!(rt; placed.range < count);
    board.pin(placed.range);
    placed.range
}

// Makes a step.
#[tactic(auto, unfolding(range_tree::specs::Ranges::Takes))]
fn make<R: Abort + Wait>(rt: &R, guest: &mut Guest, step: &Step)
    ensures { IsSame (board_of guest.old.board.pass) (board_of guest.new.board.pass) }
{
    let count = guest.board.ranges();
    match *step {
        Step::Enter(file) => {
            assert!(rt;
                guest.tree.is_none() && file < guest.board.table.files(),
                "{step:?}"
            );
            guest.board.pass.sound();
            guest.board.enter(rt, file);
            guest.tree = Some(file);
        }
        Step::Leave => {
            assert!(rt; guest.tree.is_some(), "{step:?}");
            guest.board.leave();
            guest.tree = None;
        }
        Step::Take(range, wanted) => {
            assert!(rt; range < count && guest.board.moved().is_none(), "{step:?}");
            let taken = guest.board.take(range);
            assert!(rt; taken == wanted, "{step:?}");
        }
        Step::TakeAny => {
            assert!(rt; count >= 2 && guest.board.moved().is_none(), "{step:?}");
            take_any(rt, &mut guest.board);
        }
        Step::TakeOf(chunk) => {
            assert!(rt;
                guest.tree.is_some() && guest.board.moved().is_none(),
                "{step:?}"
            );
            let Some(placed) = guest.board.find(chunk) else {
                panic!(rt; "the chunk isn't placed: {step:?}");
            };
            assert!(rt; placed.range < count, "{step:?}");
            assert!(rt; guest.board.take(placed.range).is_ok(), "{step:?}");
        }
        Step::Settle(chunk, mode, wanted) => {
            let Some(file) = guest.tree else {
                panic!(rt; "no tree is had: {step:?}");
            };
            assert!(rt; chunk < MAX_CHUNKS, "{step:?}");
            let place = settle(rt, &mut guest.board, Target { file, chunk, mode });
            assert!(rt; wanted.is_none() || wanted == Some(place), "{step:?}");
        }
        Step::Upgrade(chunk) => {
            let Some(file) = guest.tree else {
                panic!(rt; "no tree is had: {step:?}");
            };
            assert!(rt; chunk < MAX_CHUNKS, "{step:?}");
            upgrade(rt, &mut guest.board, file, chunk);
        }
        Step::Clear => {
            let Some(range) = guest.board.moved() else {
                panic!(rt; "no range is moved: {step:?}");
            };
            let moffset = range as u64 * RANGE_SIZE;
            assert!(rt;
                range < count && guest.board.may_clear(moffset, RANGE_SIZE),
                "{step:?}"
            );
            guest.board.clear(moffset, RANGE_SIZE);
        }
        Step::Free => {
            assert!(rt; guest.board.moved().is_some(), "{step:?}");
            guest.board.settle_free();
        }
        Step::Pin(chunk) => {
            let Some(file) = guest.tree else {
                panic!(rt; "no tree is had: {step:?}");
            };
            assert!(rt; guest.pins < 64, "{step:?}");
            let range = pin(rt, &mut guest.board, file, chunk);
            assert!(rt; guest.pins == 0 || range == guest.range, "{step:?}");
            guest.range = range;
            guest.pins += 1;
        }
        Step::Unpin => {
            assert!(rt; guest.pins > 0, "{step:?}");
            guest.board.unpin(guest.range);
            guest.pins -= 1;
        }
        Step::MaySet(ref span, wanted) => assert!(rt;
            guest.board.may_set(span) == wanted,
            "{step:?}"
        ),
        Step::MayClear(moffset, len, wanted) => {
            assert!(rt; guest.board.may_clear(moffset, len) == wanted, "{step:?}");
        }
        Step::Moved(wanted) => assert!(rt; guest.board.moved() == wanted, "{step:?}"),
        Step::Find(chunk, wanted) => {
            assert!(rt; guest.tree.is_some(), "{step:?}");
            assert!(rt; guest.board.find(chunk) == wanted, "{step:?}");
        }
        Step::LogLen(wanted) => {
            assert!(rt; guest.tree.is_some(), "{step:?}");
            assert!(rt; guest.board.log_len() == wanted, "{step:?}");
        }
        Step::Look(range, wanted) => {
            assert!(rt; range < count, "{step:?}");
            assert!(rt; guest.board.look(range) == wanted, "{step:?}");
        }
        Step::LookPinned(range) => {
            assert!(rt; range < count, "{step:?}");
            let word = guest.board.look(range);
            assert!(rt;
                matches!(word, RangeWord::Mapped { pins, .. } if pins > 0),
                "{step:?}"
            );
        }
        Step::Looked(range, wanted) => {
            assert!(rt; range < count, "{step:?}");
            assert!(rt; guest.board.looked(range) == wanted, "{step:?}");
        }
        Step::Forget => guest.board.forget_looks(),
        Step::Aim(range, wanted) => {
            assert!(rt; range < count, "{step:?}");
            assert!(rt; guest.board.target(range) == wanted, "{step:?}");
        }
    }
}

// Makes all steps of each part as often as it says.
fn play<R: Abort + Wait>(rt: &R, guest: &mut Guest, parts: &[(u32, &[Step])])
    ensures { IsSame (board_of guest.old.board.pass) (board_of guest.new.board.pass) }
{
    for (times, steps) in parts {
        for _ in 0..*times {
            for step in *steps {
                make(rt, guest, step);
            }
        }
    }
}

// A guest with a pass of its own.
fn seated<'a>(table: &'a RangeTable, first: &mut RangePass, number: u32) -> Guest<'a>
    requires table { first.old.table ≡ table.now }
    requires may { number < first.old.view.mine.movers }
    requires number { (number < guests) × MayGive first.old.view number }
    ensures kept { first.new ≡ parent_pass first.old number }
    ensures given { result.board.pass ≡ child_pass first.old number }
{
    Guest {
        board: SeatMap::new(table, table.split(first, number)),
        tree: None,
        range: 0,
        pins: 0,
    }
}

// Gives back the pass of a guest that has nothing in hand.
fn end(rt: &impl Abort, guest: Guest) -> RangePass
    ensures pass { result ≡ guest.entry.board.pass }
    ensures idle { IsIdle result.view.mine }
{
    assert!(rt; guest.tree.is_none());
    assert!(rt; guest.pins == 0);
    assert!(rt; guest.board.moved().is_none());
    guest.board.pass.sound();
    let Guest { board, .. } = guest;
    let SeatMap { table: _, pass } = board;
    pass
}

// Two guests at once.
fn both<R: Abort + Threads + Wait + Sync>(
    rt: &R,
    one: &mut Guest,
    other: &mut Guest,
    parts: &[Part],
    others: &[Part],
)
    ensures one { IsSame (board_of one.old.board.pass) (board_of one.new.board.pass) }
    ensures other { IsSame (board_of other.old.board.pass) (board_of other.new.board.pass) }
{
    join_mut(
        rt,
        &mut || play(rt, one, parts),
        &mut || play(rt, other, others),
    );
}

// ---- what may be set and cleared, and a range's whole way

const WHOLE: Span = Span {
    node: 2,
    foffset: 3 * RANGE_SIZE,
    moffset: RANGE_SIZE,
    len: RANGE_SIZE,
    mode: Mode::R,
};

const UPPER: Span = Span {
    node: 2,
    foffset: 3 * RANGE_SIZE + RANGE_SIZE / 2,
    moffset: RANGE_SIZE + RANGE_SIZE / 2,
    len: RANGE_SIZE / 2,
    mode: Mode::R,
};

const PLACED: Placed = Placed {
    range: 1,
    mode: Mode::R,
    entry: 0,
};

const UPGRADED: Placed = Placed {
    range: 1,
    mode: Mode::W,
    entry: 0,
};

const PINNED: RangeWord = RangeWord::Mapped {
    file: 0,
    chunk: 3,
    mode: Mode::W,
    pins: 1,
};

const WHOLE_WAY: &[Part] = &[(
    1,
    &[
        Step::Enter(0),
        Step::MaySet(WHOLE, false),
        Step::Take(1, Ok(())),
        Step::Moved(Some(1)),
        Step::MaySet(WHOLE, true),
        Step::MayClear(RANGE_SIZE, RANGE_SIZE, true),
        Step::MaySet(UPPER, false),
        Step::MayClear(RANGE_SIZE + RANGE_SIZE / 2, RANGE_SIZE / 2, false),
        Step::Settle(3, Mode::R, Some(0)),
        Step::MaySet(WHOLE, false),
        Step::Find(3, Some(PLACED)),
        Step::LogLen(1),
        Step::Upgrade(3),
        Step::Find(3, Some(UPGRADED)),
        Step::Pin(3),
        Step::Look(1, PINNED),
        Step::Take(1, Err(PINNED)),
        Step::Unpin,
        Step::Looked(1, Some(PINNED)),
        Step::Forget,
        Step::Looked(1, None),
        Step::Take(1, Ok(())),
        Step::Clear,
        Step::Aim(1, None),
        Step::Free,
        Step::Look(1, RangeWord::Free),
        Step::LogLen(3),
        Step::Leave,
    ],
)];

// The first pass copies the log once the guest's pass is in.
#[test]
fn a_seat_is_a_board(rt: HostRuntime) -> Result<(), Fail> {
    let (table, mut first) = RangeTable::new(rt.alloc(), 3, 1, 1)?;
    let mut guest = seated(&table, &mut first, 0);
    play(&rt, &mut guest, WHOLE_WAY);
    let pass = end(&rt, guest);
    table.join(&mut first, pass);
    let log = table.log_of(&rt, rt.alloc(), &mut first, 0)?;
    let wanted = [
        LogEntry::Place {
            chunk: 3,
            range: 1,
            mode: Mode::R,
        },
        LogEntry::Upgrade { range: 1 },
        LogEntry::Remove { range: 1 },
    ];
    assert_eq!(rt; log.as_slice(), wanted.as_slice());
    Ok(())
}

// ---- many files

// A chunk of each of 16 files is placed, in a range of its own.
#[test]
fn a_table_of_many_ranges_and_files(rt: HostRuntime) -> Result<(), Fail> {
    let (table, mut first) = RangeTable::new(rt.alloc(), 256, 16, 1)?;
    let mut guest = seated(&table, &mut first, 0);
    for file in 0..16 {
        make(&rt, &mut guest, &Step::Enter(file));
        make(&rt, &mut guest, &Step::Take(17 * file, Ok(())));
        make(&rt, &mut guest, &Step::Settle(31 - file, Mode::W, Some(0)));
        make(&rt, &mut guest, &Step::Leave);
    }
    let pass = end(&rt, guest);
    table.join(&mut first, pass);
    let closed = table.close(first);
    for file in 0..16 {
        let log = closed.tree(file as usize).log();
        let chunk = 31 - file;
        let range = 17 * file;
        let mode = Mode::W;
        let wanted = [LogEntry::Place { chunk, range, mode }];
        assert_eq!(rt; log, wanted.as_slice());
    }
    Ok(())
}

// ---- two guests at once

// Places a chunk of a file in one of the first two ranges, and takes it away again.
const TURNS_0: &[Part] = &[(
    10_000,
    &[
        Step::Enter(0),
        Step::TakeAny,
        Step::Settle(5, Mode::R, None),
        Step::Leave,
        Step::Enter(0),
        Step::TakeOf(5),
        Step::Free,
        Step::Leave,
    ],
)];

const TURNS_1: &[Part] = &[(
    10_000,
    &[
        Step::Enter(1),
        Step::TakeAny,
        Step::Settle(6, Mode::R, None),
        Step::Leave,
        Step::Enter(1),
        Step::TakeOf(6),
        Step::Free,
        Step::Leave,
    ],
)];

// Each file's log has a placement and a removal for each turn of its guest, one after the other.
#[test]
fn two_guests_take_two_ranges(rt: HostRuntime) -> Result<(), Fail> {
    let (table, mut first) = RangeTable::new(rt.alloc(), 2, 2, 2)?;
    let mut one = seated(&table, &mut first, 0);
    let mut other = seated(&table, &mut first, 1);
    both(&rt, &mut one, &mut other, TURNS_0, TURNS_1);
    let one = end(&rt, one);
    let other = end(&rt, other);
    table.join(&mut first, other);
    table.join(&mut first, one);
    let closed = table.close(first);
    let logs = [closed.tree(0).log(), closed.tree(1).log()];
    for log in logs {
        assert_eq!(rt; log.len(), 20_000);
        for (at, entry) in log.iter().enumerate() {
            assert_eq!(rt; matches!(entry, LogEntry::Remove { .. }), at % 2 == 1);
        }
    }
    Ok(())
}

// ---- four guests at once

const SHARED: Target = Target {
    file: 0,
    chunk: 7,
    mode: Mode::R,
};

// The word of the range while so many pins stand.
const FULL: RangeWord = RangeWord::Mapped {
    file: 0,
    chunk: 7,
    mode: Mode::R,
    pins: 256,
};

const BARE: RangeWord = RangeWord::Mapped {
    file: 0,
    chunk: 7,
    mode: Mode::R,
    pins: 0,
};

const PLACES: &[Part] = &[(
    1,
    &[
        Step::Enter(0),
        Step::Take(1, Ok(())),
        Step::Settle(7, Mode::R, Some(0)),
        Step::Leave,
    ],
)];

// Each pin is looked at without the tree and given back. Then as many are made as a guest may have.
const PINS: &[Part] = &[
    (
        64,
        &[
            Step::Enter(0),
            Step::Pin(7),
            Step::Leave,
            Step::LookPinned(1),
            Step::Aim(1, Some(SHARED)),
            Step::Unpin,
        ],
    ),
    (64, &[Step::Enter(0), Step::Pin(7), Step::Leave]),
];

const REFUSED: &[Part] = &[(
    1,
    &[
        Step::Look(1, FULL),
        Step::Enter(0),
        Step::Take(1, Err(FULL)),
        Step::Moved(None),
        Step::Leave,
        Step::Looked(1, Some(FULL)),
    ],
)];

const UNPINS: &[Part] = &[(64, &[Step::Unpin])];

const TAKES: &[Part] = &[(
    1,
    &[
        Step::Look(1, BARE),
        Step::Enter(0),
        Step::Take(1, Ok(())),
        Step::Moved(Some(1)),
        Step::LogLen(2),
        Step::Free,
        Step::Leave,
    ],
)];

// All their pins stand in the range's word at once, and nobody takes the range before the last is given back.
#[test]
fn four_guests_pin_one_range(rt: HostRuntime) -> Result<(), Fail> {
    let (table, mut first) = RangeTable::new(rt.alloc(), 2, 1, 5)?;
    let mut owner = seated(&table, &mut first, 4);
    play(&rt, &mut owner, PLACES);
    let mut a = seated(&table, &mut first, 0);
    let mut b = seated(&table, &mut first, 1);
    let mut c = seated(&table, &mut first, 2);
    let mut d = seated(&table, &mut first, 3);
    join_mut(
        &rt,
        &mut || both(&rt, &mut a, &mut b, PINS, PINS),
        &mut || both(&rt, &mut c, &mut d, PINS, PINS),
    );
    play(&rt, &mut owner, REFUSED);
    play(&rt, &mut a, UNPINS);
    play(&rt, &mut b, UNPINS);
    play(&rt, &mut c, UNPINS);
    play(&rt, &mut d, UNPINS);
    play(&rt, &mut owner, TAKES);
    Ok(())
}
