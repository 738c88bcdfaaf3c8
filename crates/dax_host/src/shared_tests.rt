//! A wire to a daemon that stays as it is, over a board whose file others use too.
ghost use Rattle.std.specs.Prelude.{◌≡◌, length, IfOk, None};
ghost use Rattle.guest_wire.specs.Wires.{boards, CanShare};

use crate::host::HostWire;
use crate::host_tests::{A, started};
use crate::shared_boards::TurnFile;
use daemon_core::Daemon;
use guest_wire::{Driver, WireRefusal};
use page_map::{Mode, PageMap};
use plain_file::{Blob, Entry, First, Memory, Op, Way};
use std::alloc::Global;
use std::sync::Wait;
use std::test::Fail;

fn read_a<R: Wait>(
    rt: &R,
    alloc: Global,
    daemon: &Daemon,
    files: &mut TurnFile,
    map: &mut PageMap,
) -> Result<Blob, WireRefusal>
    requires { CanShare daemon.now (boards files.old map.old) }
    ensures { CanShare daemon.now (boards files.new map.new) }
{
    let mut client = Driver::new(HostWire::new(alloc, daemon)?);
    client.read(rt, alloc, A, 0, 9, files, map)
}

fn size_of_a<R: Wait>(
    rt: &R,
    alloc: Global,
    daemon: &Daemon,
    files: &mut TurnFile,
    map: &mut PageMap,
) -> Result<u64, WireRefusal>
    requires { CanShare daemon.now (boards files.old map.old) }
    ensures { CanShare daemon.now (boards files.new map.new) }
{
    let mut client = Driver::new(HostWire::new(alloc, daemon)?);
    let out = client.getattr(rt, alloc, A, files, map)?;
    Ok(out.attr.size)
}

fn cut_a<R: Wait>(
    rt: &R,
    alloc: Global,
    daemon: &Daemon,
    files: &mut TurnFile,
    map: &mut PageMap,
) -> Result<u64, WireRefusal>
    requires { CanShare daemon.now (boards files.old map.old) }
    ensures { CanShare daemon.now (boards files.new map.new) }
{
    let mut client = Driver::new(HostWire::new(alloc, daemon)?);
    let out = client.setattr_size(rt, alloc, A, 1, files, map)?;
    Ok(out.attr.size)
}

fn map_a<R: Wait>(
    rt: &R,
    alloc: Global,
    daemon: &Daemon,
    files: &mut TurnFile,
    map: &mut PageMap,
) -> Result<(), WireRefusal>
    requires { CanShare daemon.now (boards files.old map.old) }
    ensures { CanShare daemon.now (boards files.new map.new) }
{
    let mut client = Driver::new(HostWire::new(alloc, daemon)?);
    client.setup(rt, alloc, 2, 0, 0, Mode::R, files, map)
}

// An operation of guest 1.
fn of_other(op: Op) -> Entry
    ensures guest { result.guest ≡ 1 }
    ensures op { result.op ≡ op }
{
    Entry {
        guest: 1,
        call: 0,
        op,
        way: Way::Req,
    }
}

// The board of guest 3, on which guest 1 writes "hello" and then cuts it to four bytes.
#[tactic(auto, unfolding(plain_file::specs::File::reach))]
fn others_file(alloc: Global) -> Result<TurnFile, Memory>
    ensures files { IfOk result (λ b. length b.files ≡ 1) }
    ensures free { IfOk result (λ b. b.hands.turn ≡ None) }
{
    let bytes = Blob::copy_of(alloc, b"hello")?;
    let mut files = TurnFile::new(alloc, 3, First { size: 0, fill: 0 })?;
    files.add(of_other(Op::Truncate { size: 4 }))?;
    files.add(of_other(Op::Write { off: 0, bytes }))?;
    Ok(files)
}

fn guest_at(files: &TurnFile, at: usize) -> Option<u32> {
    match files.history().get(at) {
        Some(entry) => Some(entry.guest),
        None => None,
    }
}

// What others did comes before each request that names a file, and not before one that names none, as it
// has no turn. Without a bar the size doesn't fall.
#[test]
fn others_come_between(rt: HostRuntime) -> Result<(), Fail> {
    let alloc = rt.alloc();
    let (daemon, _files, _map) = started(alloc)?;
    let mut files = others_file(alloc)?;
    let mut map = PageMap::new(alloc, 512)?;
    let bytes = Blob::copy_of(alloc, b"hell")?;
    assert_eq!(rt; map_a(&rt, alloc, &daemon, &mut files, &mut map), Ok(()));
    assert_eq!(rt; guest_at(&files, 0), None);
    assert_eq!(rt;
        read_a(&rt, alloc, &daemon, &mut files, &mut map),
        Ok(bytes)
    );
    assert_eq!(rt; size_of_a(&rt, alloc, &daemon, &mut files, &mut map), Ok(4));
    assert_eq!(rt;
        cut_a(&rt, alloc, &daemon, &mut files, &mut map),
        Err(WireRefusal::Errno { number: 16 })
    );
    assert_eq!(rt; guest_at(&files, 0), Some(1));
    assert_eq!(rt; guest_at(&files, 1), Some(1));
    assert_eq!(rt; guest_at(&files, 2), Some(3));
    Ok(())
}
