ghost use Rattle.std.specs.Prelude.{◌≤◌};
ghost use Rattle.plain_file.specs.File.{max_file};

use super::*;
use page_map::{Mode, Target};
use plain_file::{Blob, Entry, First, List, Memory, Op, Way};
use std::alloc::Global;
use std::process::Abort;
use std::test::Fail;

// A core of two ranges, two guests, and two files of so many zeros.
fn two_guests(alloc: Global, size: u64) -> Result<Core, Memory>
    requires { size ≤ max_file }
{
    let mut firsts = List::new(alloc);
    firsts.push(First { size, fill: 0 })?;
    firsts.push(First { size, fill: 0 })?;
    Core::new(alloc, 2, &firsts, 2)
}

fn check(
    rt: &impl Abort,
    core: &mut Core,
    guest: u32,
    event: Event,
    allowed: bool,
) -> Result<(), Memory> {
    let done = core.step(guest, &event)?;
    assert_eq!(rt; done, allowed);
    Ok(())
}

fn cut(guest: u32, size: u64) -> Event {
    Event::SetSize {
        entry: Entry {
            guest,
            call: 0,
            op: Op::Truncate { size },
            way: Way::Req,
        },
    }
}

// Guest 0 writes one byte at this place.
fn put_at(alloc: Global, off: u64) -> Result<Event, Memory> {
    let bytes = Blob::copy_of(alloc, b"a")?;
    Ok(Event::SetSize {
        entry: Entry {
            guest: 0,
            call: 0,
            op: Op::Write { off, bytes },
            way: Way::Req,
        },
    })
}

fn map(range: u32, file: u32, chunk: u32, mode: Mode) -> Event {
    let to = Some(Target { file, chunk, mode });
    Event::SetMap { range, to }
}

fn settle(chunk: u32, mode: Mode) -> Event {
    Event::SettleMapped { chunk, mode }
}

// Guest 0 does this 64 times, and no more.
fn check_most(rt: &impl Abort, core: &mut Core, event: &Event) -> Result<(), Memory> {
    for _time in 0..64 {
        assert!(rt; core.step(0, event)?);
    }
    assert!(rt; !core.step(0, event)?);
    Ok(())
}

#[test]
fn refuses_turns(rt: HostRuntime) -> Result<(), Fail> {
    let mut core = two_guests(rt.alloc(), 4)?;
    check(&rt, &mut core, 0, Event::TakeTurn { file: 2 }, false)?;
    check(&rt, &mut core, 2, Event::TakeTurn { file: 0 }, false)?;
    check(&rt, &mut core, 0, Event::GiveTurn, false)?;
    check(&rt, &mut core, 0, Event::TakeTurn { file: 0 }, true)?;
    check(&rt, &mut core, 1, Event::TakeTurn { file: 0 }, false)?;
    check(&rt, &mut core, 0, Event::TakeTurn { file: 1 }, false)?;
    check(&rt, &mut core, 1, cut(1, 4), false)?;
    check(&rt, &mut core, 0, cut(1, 4), false)?;
    check(&rt, &mut core, 0, cut(0, 67_108_865), false)?;
    let behind = put_at(rt.alloc(), 67_108_864)?;
    check(&rt, &mut core, 0, behind, false)?;
    check(&rt, &mut core, 0, cut(0, 3), false)?;
    check(&rt, &mut core, 0, cut(0, 4), true)?;
    check(&rt, &mut core, 0, cut(0, 4), false)?;
    check(&rt, &mut core, 1, Event::GiveTurn, false)?;
    check(&rt, &mut core, 0, Event::GiveTurn, true)?;
    Ok(())
}

#[test]
fn refuses_leases_and_bars(rt: HostRuntime) -> Result<(), Fail> {
    let mut core = two_guests(rt.alloc(), 4)?;
    check(&rt, &mut core, 0, Event::Lease { file: 2 }, false)?;
    check(&rt, &mut core, 0, Event::NoteSize { file: 2 }, false)?;
    check(&rt, &mut core, 0, Event::Unlease { file: 0 }, false)?;
    check(&rt, &mut core, 0, Event::Unbar { file: 0 }, false)?;
    check(&rt, &mut core, 0, Event::Lease { file: 0 }, true)?;
    check(&rt, &mut core, 0, Event::NoteSize { file: 0 }, true)?;
    check(&rt, &mut core, 1, Event::Unlease { file: 0 }, false)?;
    check(&rt, &mut core, 1, Event::Bar { file: 0 }, false)?;
    check(&rt, &mut core, 0, Event::Unlease { file: 0 }, true)?;
    check(&rt, &mut core, 1, Event::Bar { file: 0 }, true)?;
    check(&rt, &mut core, 0, Event::Bar { file: 0 }, false)?;
    check(&rt, &mut core, 1, Event::Bar { file: 1 }, false)?;
    check(&rt, &mut core, 0, Event::Lease { file: 0 }, false)?;
    check(&rt, &mut core, 0, Event::Unbar { file: 0 }, false)?;
    check(&rt, &mut core, 1, Event::TakeTurn { file: 0 }, true)?;
    check(&rt, &mut core, 1, cut(1, 3), true)?;
    check(&rt, &mut core, 1, Event::Unbar { file: 0 }, true)?;
    Ok(())
}

#[test]
fn refuses_trees_and_ranges(rt: HostRuntime) -> Result<(), Fail> {
    let mut core = two_guests(rt.alloc(), 4)?;
    check(&rt, &mut core, 0, Event::Enter { file: 2 }, false)?;
    check(&rt, &mut core, 0, Event::Look { range: 2 }, false)?;
    check(&rt, &mut core, 0, Event::Take { range: 2 }, false)?;
    check(&rt, &mut core, 0, Event::Leave, false)?;
    check(&rt, &mut core, 0, Event::SettleFree, false)?;
    check(&rt, &mut core, 0, map(0, 0, 0, Mode::R), false)?;
    check(&rt, &mut core, 0, Event::Take { range: 0 }, true)?;
    check(&rt, &mut core, 0, Event::Take { range: 1 }, false)?;
    check(&rt, &mut core, 1, Event::Take { range: 0 }, false)?;
    check(&rt, &mut core, 1, map(0, 0, 0, Mode::R), false)?;
    check(&rt, &mut core, 0, map(0, 2, 0, Mode::R), false)?;
    check(&rt, &mut core, 0, map(0, 0, 32, Mode::R), false)?;
    check(&rt, &mut core, 0, map(0, 0, 0, Mode::R), true)?;
    check(&rt, &mut core, 0, settle(0, Mode::R), false)?;
    check(&rt, &mut core, 0, Event::Enter { file: 0 }, true)?;
    check(&rt, &mut core, 1, Event::Enter { file: 0 }, false)?;
    check(&rt, &mut core, 0, Event::Enter { file: 1 }, false)?;
    check(&rt, &mut core, 0, settle(1, Mode::R), false)?;
    check(&rt, &mut core, 0, settle(0, Mode::W), false)?;
    check(&rt, &mut core, 0, settle(0, Mode::R), true)?;
    check(&rt, &mut core, 1, Event::Take { range: 0 }, false)?;
    check(&rt, &mut core, 0, Event::Take { range: 1 }, true)?;
    check(&rt, &mut core, 0, map(1, 0, 0, Mode::R), true)?;
    check(&rt, &mut core, 0, settle(0, Mode::R), false)?;
    check(&rt, &mut core, 0, map(1, 1, 0, Mode::R), true)?;
    check(&rt, &mut core, 0, settle(0, Mode::R), false)?;
    check(&rt, &mut core, 0, Event::SettleFree, true)?;
    check(&rt, &mut core, 0, Event::Leave, true)?;
    check(&rt, &mut core, 1, Event::Take { range: 0 }, false)?;
    check(&rt, &mut core, 1, Event::Enter { file: 1 }, true)?;
    check(&rt, &mut core, 1, Event::Take { range: 0 }, false)?;
    Ok(())
}

// Guest 0 has the tree of file 0, and range 0 for its chunk 0.
fn placed(rt: &impl Abort, core: &mut Core) -> Result<(), Memory> {
    check(rt, core, 0, Event::Take { range: 0 }, true)?;
    check(rt, core, 0, map(0, 0, 0, Mode::R), true)?;
    check(rt, core, 0, Event::Enter { file: 0 }, true)?;
    check(rt, core, 0, settle(0, Mode::R), true)
}

#[test]
fn refuses_a_lease_and_a_pin_too_many(rt: HostRuntime) -> Result<(), Fail> {
    let mut core = two_guests(rt.alloc(), 4)?;
    check_most(&rt, &mut core, &Event::Lease { file: 0 })?;
    check(&rt, &mut core, 0, Event::Lease { file: 1 }, true)?;
    check(&rt, &mut core, 1, Event::Lease { file: 0 }, true)?;
    placed(&rt, &mut core)?;
    check_most(&rt, &mut core, &Event::Pin { range: 0 })?;
    check(&rt, &mut core, 0, Event::Unpin { range: 0 }, true)?;
    check(&rt, &mut core, 0, Event::Pin { range: 0 }, true)?;
    Ok(())
}

#[test]
fn refuses_pins_and_upgrades(rt: HostRuntime) -> Result<(), Fail> {
    let mut core = two_guests(rt.alloc(), 4)?;
    placed(&rt, &mut core)?;
    check(&rt, &mut core, 0, settle(1, Mode::R), false)?;
    check(&rt, &mut core, 0, Event::Pin { range: 1 }, false)?;
    check(&rt, &mut core, 1, Event::Pin { range: 0 }, false)?;
    check(&rt, &mut core, 0, Event::Unpin { range: 0 }, false)?;
    check(&rt, &mut core, 0, Event::Upgrade { range: 0 }, false)?;
    check(&rt, &mut core, 0, map(0, 0, 0, Mode::R), false)?;
    check(&rt, &mut core, 0, map(0, 0, 1, Mode::W), false)?;
    check(&rt, &mut core, 0, map(0, 0, 0, Mode::W), true)?;
    check(&rt, &mut core, 1, Event::Upgrade { range: 0 }, false)?;
    check(&rt, &mut core, 0, Event::Upgrade { range: 0 }, true)?;
    check(&rt, &mut core, 0, Event::Upgrade { range: 0 }, false)?;
    check(&rt, &mut core, 0, Event::Pin { range: 0 }, true)?;
    check(&rt, &mut core, 1, Event::Unpin { range: 0 }, false)?;
    check(&rt, &mut core, 0, Event::Take { range: 0 }, false)?;
    check(&rt, &mut core, 0, Event::Unpin { range: 0 }, true)?;
    check(&rt, &mut core, 0, Event::Take { range: 0 }, true)?;
    Ok(())
}
