ghost use Rattle.std.specs.Prelude.{◌≤◌, IfOk};
ghost use Rattle.plain_file.specs.File.{max_file};
ghost use Rattle.dax_core.specs.Examples.{IsSmall};

use super::*;
use page_map::{LogEntry, Mode, RangeWord, Target};
use plain_file::{Entry, First, List, Memory, Op, Through, Way};
use std::alloc::Global;
use std::test::Fail;

// One guest's reading of a byte at the front of a chunk, whose placement stands at an entry of the log.
#[derive(Clone, Copy)]
struct Reading {
    call: u32,
    chunk: u32,
    range: u32,
    entry: u64,
    upto: u64,
}

fn reading_of(chunk: u32, range: u32, entry: u64, upto: u64) -> Reading {
    Reading {
        call: chunk,
        chunk,
        range,
        entry,
        upto,
    }
}

fn push(events: &mut List<GuestEvent>, event: Event) -> Result<(), Memory> {
    events.push(GuestEvent { guest: 0, event })
}

// The range, which the guest moves, is settled at the chunk for reading.
fn push_settling(events: &mut List<GuestEvent>, reading: &Reading) -> Result<(), Memory> {
    let Reading { chunk, range, .. } = *reading;
    let to = Some(Target {
        file: 0,
        chunk,
        mode: Mode::R,
    });
    push(events, Event::SetMap { range, to })?;
    let mode = Mode::R;
    push(events, Event::SettleMapped { chunk, mode })
}

// The byte is read in a turn.
fn push_turn(events: &mut List<GuestEvent>, reading: &Reading) -> Result<(), Memory> {
    let through = Through {
        entry: reading.entry,
        upto: reading.upto,
    };
    let entry = Entry {
        guest: 0,
        call: reading.call,
        op: Op::Read {
            off: reading.chunk as u64 * 2_097_152,
            len: 1,
        },
        way: Way::Via(through, None),
    };
    push(events, Event::TakeTurn { file: 0 })?;
    push(events, Event::SetSize { entry })?;
    push(events, Event::GiveTurn)
}

// The range is pinned under the tree, which is given back, and unpinned when the byte is read.
fn push_use(events: &mut List<GuestEvent>, reading: &Reading) -> Result<(), Memory> {
    let range = reading.range;
    push(events, Event::Pin { range })?;
    push(events, Event::Leave)?;
    push_turn(events, reading)?;
    push(events, Event::Unpin { range })
}

fn push_reading(events: &mut List<GuestEvent>, reading: &Reading) -> Result<(), Memory> {
    let range = reading.range;
    push(events, Event::Enter { file: 0 })?;
    push(events, Event::Take { range })?;
    push_settling(events, reading)?;
    push_use(events, reading)
}

fn place(chunk: u32, range: u32) -> LogEntry {
    LogEntry::Place {
        chunk,
        range,
        mode: Mode::R,
    }
}

// A core of two ranges, one guest, and one file of so many zeros.
fn small_core(alloc: Global, size: u64) -> Result<Core, Memory>
    requires { size ≤ max_file }
    ensures { IfOk result IsSmall }
{
    let mut firsts = List::new(alloc);
    firsts.push(First { size, fill: 0 })?;
    Core::new(alloc, 2, &firsts, 1)
}

#[test]
fn runs_a_schedule_of_one_read(rt: HostRuntime) -> Result<(), Fail> {
    let mut core = small_core(rt.alloc(), 1)?;
    let mut events = List::new(rt.alloc());
    let reading = reading_of(0, 0, 0, 1);
    push(&mut events, Event::Enter { file: 0 })?;
    push(&mut events, Event::Leave)?;
    push(&mut events, Event::Look { range: 0 })?;
    push(&mut events, Event::Take { range: 0 })?;
    push(&mut events, Event::Enter { file: 0 })?;
    push_settling(&mut events, &reading)?;
    push_use(&mut events, &reading)?;
    assert_eq!(&rt; core.run_all(&events)?, 13);
    assert!(&rt; !core.step(0, &Event::Unpin { range: 0 })?);
    let mapped = RangeWord::Mapped {
        file: 0,
        chunk: 0,
        mode: Mode::R,
        pins: 0,
    };
    assert_eq!(&rt; core.word(0), mapped);
    assert_eq!(&rt; core.history(0).len(), 1);
    assert!(&rt; core.tree(0).log() == &[place(0, 0)][..]);
    Ok(())
}

// Three chunks are read through two ranges: the first one's range is taken for the third.
#[test]
fn runs_a_schedule_that_reclaims(rt: HostRuntime) -> Result<(), Fail> {
    let mut core = small_core(rt.alloc(), 6_291_456)?;
    let mut events = List::new(rt.alloc());
    let readings = [
        reading_of(0, 0, 0, 1),
        reading_of(1, 1, 1, 2),
        reading_of(2, 0, 3, 4),
    ];
    for reading in &readings {
        push_reading(&mut events, reading)?;
    }
    assert_eq!(&rt; core.run_all(&events)?, 30);
    let log = [
        place(0, 0),
        place(1, 1),
        LogEntry::Remove { range: 0 },
        place(2, 0),
    ];
    assert!(&rt; core.tree(0).log() == &log[..]);
    assert_eq!(&rt; core.history(0).len(), 3);
    let mapped = RangeWord::Mapped {
        file: 0,
        chunk: 2,
        mode: Mode::R,
        pins: 0,
    };
    assert_eq!(&rt; core.word(0), mapped);
    Ok(())
}
