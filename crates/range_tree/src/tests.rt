ghost use Rattle.std.specs.Prelude.{◌≡◌, ◌<◌, None, IfSome, IsSome};
ghost use Rattle.page_map.specs.Logs.{placed_at, slot_in};
ghost use Rattle.page_map.specs.Window.{max_chunks};
ghost use Rattle.range_tree.specs.Trees.{IsReading, max_ranges};

use super::*;
use page_map::Mode;
use std::process::Abort;
use std::test::Fail;

fn place(chunk: u32, range: u32, mode: Mode) -> LogEntry {
    LogEntry::Place { chunk, range, mode }
}

#[test]
fn tells_the_first_unsound_entry(rt: HostRuntime) -> Result<(), Fail> {
    let upgrade = LogEntry::Upgrade { range: 1 };
    let remove = LogEntry::Remove { range: 1 };
    let read = place(31, 1, Mode::R);
    let table = [
        ([read, upgrade, remove], None),
        ([read, remove, read], None),
        ([place(32, 1, Mode::R), upgrade, remove], Some(0)),
        ([place(0, 2, Mode::R), upgrade, remove], Some(0)),
        ([read, place(31, 0, Mode::R), remove], Some(1)),
        ([read, place(30, 1, Mode::R), remove], Some(1)),
        ([read, upgrade, upgrade], Some(2)),
        ([place(0, 1, Mode::W), upgrade, remove], Some(1)),
        ([remove, read, upgrade], Some(0)),
        ([read, remove, remove], Some(2)),
    ];
    for (log, place) in &table {
        assert_eq!(&rt; first_unsound(rt.alloc(), 2, log)?, *place);
    }
    Ok(())
}

// Asserts that what is placed may be read and not written.
#[tactic(auto, unfolding(page_map::specs::Logs::is_writable))]
fn check_reading(rt: &impl Abort, placed: &Placed)
    ensures { IsReading placed.now }
{
    assert!(rt; matches!(placed.mode, Mode::R));
}

#[test]
fn places_and_tells(rt: HostRuntime) -> Result<(), Fail> {
    let mut tree = Tree::new(rt.alloc());
    assert!(&rt; tree.find(3).is_none() && !tree.is_used(1));
    assert_eq!(&rt; tree.place(3, 1, Mode::R)?, 0);
    assert!(&rt; tree.find(4).is_none() && !tree.is_used(0));
    assert_eq!(&rt; tree.place(4, 0, Mode::W)?, 1);
    let Some(placed) = tree.find(3) else {
        panic!(&rt; "chunk 3 isn't placed");
    };
    check_reading(&rt, &placed);
    tree.upgrade(3);
    let raised = Placed {
        range: 1,
        mode: Mode::W,
        entry: 0,
    };
    assert_eq!(&rt; tree.find(3), Some(raised));
    assert!(&rt; tree.find(4).is_some());
    tree.remove(4);
    assert_eq!(&rt; tree.find(4), None);
    assert!(&rt; tree.is_used(1) && !tree.is_used(0));
    let log = [
        place(3, 1, Mode::R),
        place(4, 0, Mode::W),
        LogEntry::Upgrade { range: 1 },
        LogEntry::Remove { range: 0 },
    ];
    assert!(&rt; tree.log() == &log[..]);
    Ok(())
}

#[test]
fn tells_what_is_live(rt: HostRuntime) -> Result<(), Fail> {
    let log = [
        place(3, 1, Mode::R),
        place(4, 4_294_967_295, Mode::W),
        LogEntry::Upgrade { range: 1 },
        LogEntry::Remove { range: 1 },
        place(3, 1, Mode::R),
    ];
    // The chunk, the entry, the log's length, and whether it may be read and written there.
    let table = [
        (3, 0, 0, false, false),
        (3, 0, 1, true, false),
        (3, 0, 2, true, false),
        (3, 0, 3, true, true),
        (3, 0, 4, false, false),
        (4, 0, 2, false, false),
        (4, 1, 5, true, true),
        (3, 2, 3, false, false),
        (3, 4, 5, true, false),
        (3, 4, 6, false, false),
        (3, 5, 5, false, false),
    ];
    let lives = Lives::new(rt.alloc(), &log)?;
    for (chunk, entry, upto, reads, writes) in &table {
        assert_eq!(&rt; lives.is_live(false, *chunk, *entry, *upto), *reads);
        assert_eq!(&rt; lives.is_live(true, *chunk, *entry, *upto), *writes);
    }
    Ok(())
}
