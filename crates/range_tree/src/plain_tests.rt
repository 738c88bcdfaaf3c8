ghost use Rattle.std.specs.Prelude.{◌≡◌, ◌<◌, Some, None, OnOk, sum, true};
ghost use Rattle.range_tree.specs.Trees.{IsReading};
ghost use Rattle.range_tree.specs.Ranges.{range_count, pins_on, max_pins};
ghost use Rattle.page_map.specs.Window.{max_chunks};

use super::*;
use page_map::{MapBoard, Mode, RANGE_SIZE, Span};
use plain_file::Memory;
use std::process::Abort;
use std::test::Fail;

// The ranges' words, as a look shows them.
fn words(rt: &impl Abort, board: &mut PlainRanges) -> [RangeWord; 2]
    ensures hands { board.new.hands ≡ board.old.hands }
    ensures may { board.new.ranges.may_take ≡ board.old.ranges.may_take }
    ensures logs { board.new.ranges.logs ≡ board.old.ranges.logs }
{
    assert!(rt; board.ranges() == 2);
    [board.look(0), board.look(1)]
}

// Maps a range to a chunk of file 0.
fn map(rt: &impl Abort, board: &mut PlainRanges, range: u32, chunk: u32, mode: Mode)
    requires chunk { chunk < max_chunks }
    ensures range { range < range_count board.old }
    ensures hands { board.new.hands ≡ board.old.hands }
    ensures ranges { board.new.ranges ≡ board.old.ranges }
{
    let span = Span {
        node: 2,
        foffset: chunk as u64 * RANGE_SIZE,
        moffset: range as u64 * RANGE_SIZE,
        len: RANGE_SIZE,
        mode,
    };
    let count = board.ranges();
    assert!(rt; range < count);
    assert!(rt; board.may_set(&span));
    board.set(&span);
}

// Takes a range that may be taken.
#[tactic(auto, unfolding(crate::specs::Ranges::Takes))]
fn take(rt: &impl Abort, board: &mut PlainRanges, range: u32)
    requires may { board.old.ranges.may_take ≡ true }
    requires free { board.old.hands.moves ≡ None }
    ensures tree { board.new.hands.tree ≡ board.old.hands.tree }
    ensures pins { board.new.hands.pins ≡ board.old.hands.pins }
    ensures may { board.new.ranges.may_take ≡ true }
    ensures moves { board.new.hands.moves ≡ Some range }
{
    assert!(rt; range < board.ranges());
    let taken = board.take(range);
    assert!(rt; taken.is_ok());
}

// Places a chunk of file 0 in the moved range.
#[tactic(auto, unfolding(crate::specs::Ranges::Settles))]
fn settle(rt: &impl Abort, board: &mut PlainRanges, chunk: u32, mode: Mode) -> Result<u64, Memory>
    requires chunk { chunk < max_chunks }
    requires tree { board.old.hands.tree ≡ Some 0 }
    ensures tree { OnOk result (board.new.hands.tree ≡ Some 0) }
    ensures pins { OnOk result (board.new.hands.pins ≡ board.old.hands.pins) }
    ensures may { OnOk result (board.new.ranges.may_take ≡ board.old.ranges.may_take) }
    ensures moves { OnOk result (board.new.hands.moves ≡ None) }
{
    let Some(range) = board.moved() else {
        panic!(rt; "no range is moved");
    };
    map(rt, board, range, chunk, mode);
    assert!(rt; board.find(chunk).is_none());
    board.sound_ranges();
    let target = board.target(range);
    assert!(rt;
        target
            == Some(Target {
                file: 0,
                chunk,
                mode
            })
    );
    match board.settle_mapped(chunk, mode) {
        Ok(place) => Ok(place),
        Err(e) => Err(e),
    }
}

// Asserts that what is placed may be read and not written.
#[tactic(auto, unfolding(page_map::specs::Logs::is_writable))]
fn check_reading(rt: &impl Abort, placed: &Placed)
    ensures { IsReading placed.now }
{
    assert!(rt; matches!(placed.mode, Mode::R));
}

// Asserts what a range is mapped to.
fn check_target(rt: &impl Abort, target: Option<Target>, wanted: Target)
    ensures { target ≡ Some wanted }
{
    assert!(rt; target == Some(wanted));
}

// Maps a placed chunk of file 0 for writing, and upgrades it.
fn upgrade(rt: &impl Abort, board: &mut PlainRanges, chunk: u32)
    requires chunk { chunk < max_chunks }
    requires tree { board.old.hands.tree ≡ Some 0 }
    ensures hands { board.new.hands ≡ board.old.hands }
    ensures may { board.new.ranges.may_take ≡ board.old.ranges.may_take }
{
    let Some(placed) = board.find(chunk) else {
        panic!(rt; "the chunk isn't placed");
    };
    check_reading(rt, &placed);
    map(rt, board, placed.range, chunk, Mode::W);
    board.sound_ranges();
    let target = board.target(placed.range);
    let wanted = Target {
        file: 0,
        chunk,
        mode: Mode::W,
    };
    check_target(rt, target, wanted);
    board.upgrade(chunk);
}

// Pins the range of a placed chunk, and tells it.
fn pin(rt: &impl Abort, board: &mut PlainRanges, chunk: u32) -> u32
    requires tree { board.old.hands.tree ≡ Some 0 }
    requires may { board.old.ranges.may_take ≡ true }
    requires few { sum board.old.hands.pins < max_pins }
    ensures range { result < range_count board.new }
    ensures pinned { 0 < pins_on board.new result }
    ensures may { board.new.ranges.may_take ≡ true }
    ensures moves { board.new.hands.moves ≡ board.old.hands.moves }
{
    board.sound_ranges();
    let Some(placed) = board.find(chunk) else {
        panic!(rt; "the chunk isn't placed");
    };
    let count = board.ranges();
    assert!(rt; placed.range < count);
    board.pin(placed.range);
    placed.range
}

// A range isn't taken.
#[tactic(auto, unfolding(crate::specs::Ranges::Takes))]
fn refuses(rt: &impl Abort, board: &mut PlainRanges, range: u32)
    requires range { range < range_count board.old }
    requires may { board.old.ranges.may_take ≡ true }
    requires free { board.old.hands.moves ≡ None }
    ensures hands { board.new.hands ≡ board.old.hands }
    ensures may { board.new.ranges.may_take ≡ true }
{
    match board.take(range) {
        Ok(()) => panic!(rt; "a pinned range was taken"),
        Err(_) => {}
    }
}

#[test]
fn takes_and_frees(rt: HostRuntime) -> Result<(), Fail> {
    let mut board = PlainRanges::new(rt.alloc(), 2, 1, 7)?;
    let free = [RangeWord::Free, RangeWord::Free];
    assert!(&rt; words(&rt, &mut board) == free);
    take(&rt, &mut board, 1);
    let moving = [RangeWord::Free, RangeWord::Moving { guest: 7 }];
    assert!(&rt; words(&rt, &mut board) == moving && board.moved() == Some(1));
    board.forget_looks();
    assert!(&rt; board.ranges() == 2);
    assert!(&rt; board.looked(0) == None && board.target(1) == None);
    Ok(())
}

#[test]
fn places_pins_and_upgrades(rt: HostRuntime) -> Result<(), Fail> {
    let mut board = PlainRanges::new(rt.alloc(), 2, 1, 7)?;
    board.enter(&rt, 0);
    take(&rt, &mut board, 1);
    assert_eq!(&rt; settle(&rt, &mut board, 3, Mode::R)?, 0);
    let mapped = RangeWord::Mapped {
        file: 0,
        chunk: 3,
        mode: Mode::R,
        pins: 0,
    };
    assert!(&rt; words(&rt, &mut board) == [RangeWord::Free, mapped]);
    upgrade(&rt, &mut board, 3);
    take(&rt, &mut board, 1);
    assert_eq!(&rt; settle(&rt, &mut board, 4, Mode::W)?, 3);
    assert_eq!(&rt; board.log_len(), 4);
    let pinned = pin(&rt, &mut board, 4);
    refuses(&rt, &mut board, pinned);
    board.unpin(pinned);
    take(&rt, &mut board, pinned);
    board.settle_free();
    assert!(&rt; words(&rt, &mut board) == [RangeWord::Free, RangeWord::Free]);
    Ok(())
}
