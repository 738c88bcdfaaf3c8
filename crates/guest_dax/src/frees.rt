ghost use Rattle.std.specs.Prelude.{◌≡◌, ◌<◌, ◌≤◌, ◌-◌, ◌^◌, ℕ, true, false, None, IfOk, IfErr, length};
ghost use Rattle.page_map.specs.Board.{Hands, MapView};
ghost use Rattle.range_tree.specs.Ranges.{range_count};
ghost use Rattle.guest_dax.specs.Stands.{stand, Stands, Keeps};
ghost use Rattle.guest_dax.specs.Looks.{NoLooks};
ghost use Rattle.guest_dax.specs.Reclaims.{Walks};
ghost use Rattle.guest_dax.specs.Freeing.{Tried, IsFreed, FreesAt, FreesIn, FreesOne, Reclaims};
ghost use Rattle.guest_dax.specs.Causes.{IsCause, IsUnmapped};

use crate::acquires::forget;
use crate::attempts::{Attempt, refused, take_mapped};
use crate::dax::Dax;
use crate::refusals::DaxRefusal;
use guest_wire::Wire;
use page_map::RangeWord;
use plain_file::FileBoard;
use range_tree::RangeBoard;
use std::alloc::Global;
use std::sync::Wait;

// Looks at a range, and takes it where it is seen mapped without pins. None: it was seen free.
fn try_mapped<T: Wait, R: RangeBoard>(rt: &T, ranges: &mut R, range: u32) -> Option<Attempt>
    requires range { range < range_count (R.map ranges.old) }
    requires may { (R.map ranges.old).ranges.may_take ≡ true }
    requires moves { (R.map ranges.old).hands.moves ≡ None }
    requires tree { (R.map ranges.old).hands.tree ≡ None }
    ensures { Tried (R.map ranges.old) range result (R.map ranges.new) }
{
    ranges.sound_ranges();
    let word = ranges.look(range);
    match word {
        RangeWord::Free => None,
        RangeWord::Mapped { file, pins: 0, .. } => Some(take_mapped(rt, ranges, file, range)),
        _ => Some(refused(&word)),
    }
}

impl<W, F: FileBoard, R: RangeBoard> Dax<W, F, R>
where
    W: Wire<F, R>,
{
    // Frees a range that is mapped without pins, or shows why not. One that its take found free is settled
    // free, and looked at again.
    fn free_at<T: Wait>(&mut self, rt: &T, alloc: Global, range: u32) -> Result<bool, DaxRefusal>
        requires stands { Stands (stand (W.wire self.old.driver.wire) (F.board self.old.files) (R.map self.old.ranges)) self.old.refs }
        requires range { range < range_count (R.map self.old.ranges) }
        requires tree { (R.map self.old.ranges).hands.tree ≡ None }
        requires moves { (R.map self.old.ranges).hands.moves ≡ None }
        ensures walks { Walks (stand (W.wire self.old.driver.wire) (F.board self.old.files) (R.map self.old.ranges)) (stand (W.wire self.new.driver.wire) (F.board self.new.files) (R.map self.new.ranges)) }
        ensures frees { FreesAt (stand (W.wire self.old.driver.wire) (F.board self.old.files) (R.map self.old.ranges)) range result (stand (W.wire self.new.driver.wire) (F.board self.new.files) (R.map self.new.ranges)) }
        ensures cause { IfErr result (λ e. IsCause W.wire W.gives self.old.driver.wire self.old.driver.unique e self.new.driver.wire self.new.driver.unique) }
        ensures removed { IfOk result (λ freed. freed ≡ true → (f : IsFreed (R.map self.old.ranges) (R.map self.new.ranges)) × IsUnmapped W.wire W.gives self.old.driver.wire self.old.driver.unique f.range self.new.driver.wire self.new.driver.unique) }
        ensures quiet { IfOk result (λ freed. freed ≡ false → self.new.driver ≡ self.old.driver) }
        ensures refs { self.new.refs ≡ self.old.refs }
    {
        for _ in rt.forever() {
            match try_mapped(rt, &mut self.ranges, range) {
                None => return Ok(false),
                Some(Attempt::Blocked) => return Ok(false),
                Some(Attempt::Took) => self.ranges.settle_free(),
                Some(Attempt::Removed { file }) => {
                    self.unmap(rt, alloc, file, range)?;
                    self.ranges.settle_free();
                    self.cursor = range.saturating_add(1);
                    return Ok(true);
                }
                Some(Attempt::Again) => {}
            }
        }
        unreachable!()
    }

    // The same for the ranges from one to below another.
    fn free_walk<T: Wait>(
        &mut self,
        rt: &T,
        alloc: Global,
        from: u32,
        to: u32,
    ) -> Result<bool, DaxRefusal>
        requires stands { Stands (stand (W.wire self.old.driver.wire) (F.board self.old.files) (R.map self.old.ranges)) self.old.refs }
        requires from { from ≤ to }
        requires to { to ≤ range_count (R.map self.old.ranges) }
        requires tree { (R.map self.old.ranges).hands.tree ≡ None }
        requires moves { (R.map self.old.ranges).hands.moves ≡ None }
        ensures walks { Walks (stand (W.wire self.old.driver.wire) (F.board self.old.files) (R.map self.old.ranges)) (stand (W.wire self.new.driver.wire) (F.board self.new.files) (R.map self.new.ranges)) }
        ensures frees { FreesIn (stand (W.wire self.old.driver.wire) (F.board self.old.files) (R.map self.old.ranges)) from to result (stand (W.wire self.new.driver.wire) (F.board self.new.files) (R.map self.new.ranges)) }
        ensures cause { IfErr result (λ e. IsCause W.wire W.gives self.old.driver.wire self.old.driver.unique e self.new.driver.wire self.new.driver.unique) }
        ensures removed { IfOk result (λ freed. freed ≡ true → (f : IsFreed (R.map self.old.ranges) (R.map self.new.ranges)) × IsUnmapped W.wire W.gives self.old.driver.wire self.old.driver.unique f.range self.new.driver.wire self.new.driver.unique) }
        ensures quiet { IfOk result (λ freed. freed ≡ false → self.new.driver ≡ self.old.driver) }
        ensures refs { self.new.refs ≡ self.old.refs }
    {
        for range in from..to {
            if self.free_at(rt, alloc, range)? {
                return Ok(true);
            }
        }
        Ok(false)
    }

    // Goes over all ranges once from the cursor, with wrap.
    fn free_round<T: Wait>(&mut self, rt: &T, alloc: Global) -> Result<bool, DaxRefusal>
        requires stands { Stands (stand (W.wire self.old.driver.wire) (F.board self.old.files) (R.map self.old.ranges)) self.old.refs }
        requires tree { (R.map self.old.ranges).hands.tree ≡ None }
        requires moves { (R.map self.old.ranges).hands.moves ≡ None }
        ensures walks { Walks (stand (W.wire self.old.driver.wire) (F.board self.old.files) (R.map self.old.ranges)) (stand (W.wire self.new.driver.wire) (F.board self.new.files) (R.map self.new.ranges)) }
        ensures round { FreesOne (stand (W.wire self.old.driver.wire) (F.board self.old.files) (R.map self.old.ranges)) result (stand (W.wire self.new.driver.wire) (F.board self.new.files) (R.map self.new.ranges)) }
        ensures cause { IfErr result (λ e. IsCause W.wire W.gives self.old.driver.wire self.old.driver.unique e self.new.driver.wire self.new.driver.unique) }
        ensures removed { IfOk result (λ freed. freed ≡ true → (f : IsFreed (R.map self.old.ranges) (R.map self.new.ranges)) × IsUnmapped W.wire W.gives self.old.driver.wire self.old.driver.unique f.range self.new.driver.wire self.new.driver.unique) }
        ensures quiet { IfOk result (λ freed. freed ≡ false → self.new.driver ≡ self.old.driver) }
        ensures refs { self.new.refs ≡ self.old.refs }
    {
        let count = self.ranges.ranges();
        let start = self.cursor.min(count);
        if self.free_walk(rt, alloc, start, count)? {
            return Ok(true);
        }
        self.free_walk(rt, alloc, 0, start)
    }

    /// Frees one range that is mapped without pins, by REMOVEMAPPING: what is seen of its file's log ends
    /// with its removal then. `false` comes exactly where it took none: one look per range is noted then, each of which shows
    /// a range that is free, moving by another guest, or pinned. After every other answer no look is noted.
    ///
    /// # Errors
    ///
    /// As [`acquire`](Dax::acquire), but for `Busy`.
    pub fn reclaim_one<T: Wait>(&mut self, rt: &T, alloc: Global) -> Result<bool, DaxRefusal>
        requires stands { Stands (stand (W.wire self.old.driver.wire) (F.board self.old.files) (R.map self.old.ranges)) self.old.refs }
        requires tree { (R.map self.old.ranges).hands.tree ≡ None }
        requires moves { (R.map self.old.ranges).hands.moves ≡ None }
        requires looks { NoLooks (R.map self.old.ranges) }
        ensures keeps { Keeps (stand (W.wire self.old.driver.wire) (F.board self.old.files) (R.map self.old.ranges)) (stand (W.wire self.new.driver.wire) (F.board self.new.files) (R.map self.new.ranges)) }
        ensures reclaims { Reclaims (stand (W.wire self.old.driver.wire) (F.board self.old.files) (R.map self.old.ranges)) result (stand (W.wire self.new.driver.wire) (F.board self.new.files) (R.map self.new.ranges)) }
        ensures rounds { (R.map self.new.ranges).ranges.rounds ≡ (R.map self.old.ranges).ranges.rounds }
        ensures later { (R.map self.old.ranges).ranges.sweeps ≤ 2 ^ 64 - 1 → (R.map self.old.ranges).ranges.sweeps ≤ (R.map self.new.ranges).ranges.sweeps }
        ensures cause { IfErr result (λ e. IsCause W.wire W.gives self.old.driver.wire self.old.driver.unique e self.new.driver.wire self.new.driver.unique) }
        ensures removed { IfOk result (λ freed. freed ≡ true → (f : IsFreed (R.map self.old.ranges) (R.map self.new.ranges)) × IsUnmapped W.wire W.gives self.old.driver.wire self.old.driver.unique f.range self.new.driver.wire self.new.driver.unique) }
        ensures quiet { IfOk result (λ freed. freed ≡ false → self.new.driver ≡ self.old.driver) }
        ensures refs { self.new.refs ≡ self.old.refs }
    {
        match self.free_round(rt, alloc) {
            Ok(false) => Ok(false),
            Ok(true) => {
                forget(&mut self.ranges);
                Ok(true)
            }
            Err(refusal) => {
                forget(&mut self.ranges);
                Err(refusal)
            }
        }
    }
}
