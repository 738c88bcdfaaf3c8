ghost use Rattle.std.specs.Prelude.{◌≡◌, ◌+◌, ◌-◌, ◌^◌, ◌<◌, ◌≤◌, min, OnOk};
ghost use Rattle.plain_file.specs.Counts.{Rose};
ghost use Rattle.page_map.specs.Board.{MapView};
ghost use Rattle.range_tree.specs.Ranges.{range_count};
ghost use Rattle.guest_dax.specs.Stands.{stand};
ghost use Rattle.guest_io.specs.Holds.{LeavesRest};
ghost use Rattle.guest_run.specs.Working.{IsIdle};

use guest_dax::DaxRefusal;
use guest_io::Guest;
use guest_wire::Wire;
use plain_file::{FileTurns, Memory};
use range_tree::RangeBoard;
use std::alloc::Global;
use std::sync::Wait;

/// Makes so many turns of the background, one after another: each looks at all ranges, and frees one where few of
/// them are free. It is for a guest that makes no calls of its own, beside those that do. It enters nothing into
/// a file.
///
/// The board's count of sweeps rises by one in each turn, up to its last value. `Memory` comes where an allocation
/// was refused; then some of the turns were made. It waits as a call's turn of a file's ranges does.
pub fn background<T: Wait, W, F: FileTurns, R: RangeBoard>(
    rt: &T,
    alloc: Global,
    guest: &mut Guest<W, F, R>,
    turns: u32,
) -> Result<(), Memory>
where
    W: Wire<F, R>,
    requires idle { IsIdle (stand (W.wire guest.old.dax.driver.wire) (F.board guest.old.dax.files) (R.map guest.old.dax.ranges)) guest.old.dax.refs guest.old.holds }
    requires ranges { 0 < range_count (R.map guest.old.dax.ranges) }
    ensures idle { IsIdle (stand (W.wire guest.new.dax.driver.wire) (F.board guest.new.dax.files) (R.map guest.new.dax.ranges)) guest.new.dax.refs guest.new.holds }
    ensures rest { LeavesRest (stand (W.wire guest.old.dax.driver.wire) (F.board guest.old.dax.files) (R.map guest.old.dax.ranges)) (stand (W.wire guest.new.dax.driver.wire) (F.board guest.new.dax.files) (R.map guest.new.dax.ranges)) }
    ensures files { F.board guest.new.dax.files ≡ F.board guest.old.dax.files }
    ensures sweeps { OnOk result (min ((R.map guest.old.dax.ranges).ranges.sweeps + turns) (2 ^ 64 - 1) ≤ (R.map guest.new.dax.ranges).ranges.sweeps) }
    ensures refs { guest.new.dax.refs ≡ guest.old.dax.refs }
{
    for _time in 0..turns {
        turn(rt, alloc, guest)?;
    }
    Ok(())
}

// One turn.
fn turn<T: Wait, W, F: FileTurns, R: RangeBoard>(
    rt: &T,
    alloc: Global,
    guest: &mut Guest<W, F, R>,
) -> Result<(), Memory>
where
    W: Wire<F, R>,
    requires idle { IsIdle (stand (W.wire guest.old.dax.driver.wire) (F.board guest.old.dax.files) (R.map guest.old.dax.ranges)) guest.old.dax.refs guest.old.holds }
    requires ranges { 0 < range_count (R.map guest.old.dax.ranges) }
    ensures idle { IsIdle (stand (W.wire guest.new.dax.driver.wire) (F.board guest.new.dax.files) (R.map guest.new.dax.ranges)) guest.new.dax.refs guest.new.holds }
    ensures rest { LeavesRest (stand (W.wire guest.old.dax.driver.wire) (F.board guest.old.dax.files) (R.map guest.old.dax.ranges)) (stand (W.wire guest.new.dax.driver.wire) (F.board guest.new.dax.files) (R.map guest.new.dax.ranges)) }
    ensures files { F.board guest.new.dax.files ≡ F.board guest.old.dax.files }
    ensures sweeps { Rose (R.map guest.old.dax.ranges).ranges.sweeps (R.map guest.new.dax.ranges).ranges.sweeps }
    ensures refs { guest.new.dax.refs ≡ guest.old.dax.refs }
{
    match guest.dax.background_turn(rt, alloc) {
        Ok(()) => Ok(()),
        Err(DaxRefusal::Memory) => Err(Memory),
        Err(_) => unreachable!(),
    }
}
