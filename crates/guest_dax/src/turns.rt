ghost use Rattle.std.specs.Prelude.{◌≡◌, ◌<◌, ◌≤◌, ◌+◌, ◌-◌, ◌^◌, ℕ, true, false, None, IfErr, length};
ghost use Rattle.plain_file.specs.Counts.{Rose};
ghost use Rattle.page_map.specs.Board.{MapView};
ghost use Rattle.range_tree.specs.Ranges.{range_count};
ghost use Rattle.guest_dax.specs.Stands.{stand, Stands, Keeps};
ghost use Rattle.guest_dax.specs.Looks.{NoLooks};
ghost use Rattle.guest_dax.specs.Turning.{is_free, IsCounting, Sweeps, FreesOrNone, Turns};
ghost use Rattle.guest_dax.specs.Causes.{IsCause};

use crate::dax::Dax;
use crate::refusals::DaxRefusal;
use guest_wire::Wire;
use page_map::RangeWord;
use plain_file::FileBoard;
use range_tree::RangeBoard;
use std::alloc::Global;
use std::sync::Wait;

// One more where the word says that the range is free.
#[tactic(auto, unfolding(crate::specs::Turning::is_free))]
fn count_in(free: u32, word: &RangeWord) -> u32
    requires { free < 256 }
    ensures one { is_free word.now ≡ true → result ≡ free + 1 }
    ensures none { is_free word.now ≡ false → result ≡ free }
{
    match word {
        RangeWord::Free => free + 1,
        _ => free,
    }
}

// Looks at each range once, and counts those that are free.
fn count_free<R: RangeBoard>(ranges: &mut R) -> u32
    ensures { IsCounting (R.map ranges.old) (R.map ranges.new) (range_count (R.map ranges.old)) result }
{
    ranges.sound_ranges();
    let count = ranges.ranges();
    let mut free = 0;
    for range in 0..count {
        let word = ranges.look(range);
        free = count_in(free, &word);
    }
    free
}

// Looks at each range once, counts those that are free, and forgets the looks.
fn sweep<R: RangeBoard>(ranges: &mut R) -> u32
    requires { 0 < range_count (R.map ranges.old) }
    ensures sweeps { Sweeps (R.map ranges.old) result (R.map ranges.new) }
    ensures few { result ≤ range_count (R.map ranges.old) }
{
    ranges.sound_ranges();
    let free = count_free(ranges);
    ranges.forget_looks();
    free
}

impl<W, F: FileBoard, R: RangeBoard> Dax<W, F, R>
where
    W: Wire<F, R>,
{
    // Frees one range, where one can be, and forgets the looks.
    fn free_one<T: Wait>(&mut self, rt: &T, alloc: Global) -> Result<(), DaxRefusal>
        requires stands { Stands (stand (W.wire self.old.driver.wire) (F.board self.old.files) (R.map self.old.ranges)) self.old.refs }
        requires tree { (R.map self.old.ranges).hands.tree ≡ None }
        requires moves { (R.map self.old.ranges).hands.moves ≡ None }
        requires looks { NoLooks (R.map self.old.ranges) }
        ensures keeps { Keeps (stand (W.wire self.old.driver.wire) (F.board self.old.files) (R.map self.old.ranges)) (stand (W.wire self.new.driver.wire) (F.board self.new.files) (R.map self.new.ranges)) }
        ensures frees { FreesOrNone (stand (W.wire self.old.driver.wire) (F.board self.old.files) (R.map self.old.ranges)) result (stand (W.wire self.new.driver.wire) (F.board self.new.files) (R.map self.new.ranges)) }
        ensures later { (R.map self.old.ranges).ranges.sweeps ≤ 2 ^ 64 - 1 → (R.map self.old.ranges).ranges.sweeps ≤ (R.map self.new.ranges).ranges.sweeps }
        ensures cause { IfErr result (λ e. IsCause W.wire W.gives self.old.driver.wire self.old.driver.unique e self.new.driver.wire self.new.driver.unique) }
        ensures refs { self.new.refs ≡ self.old.refs }
    {
        self.ranges.sound_ranges();
        match self.reclaim_one(rt, alloc) {
            Ok(_) => {
                self.ranges.sound_ranges();
                self.ranges.forget_looks();
                Ok(())
            }
            Err(refusal) => Err(refusal),
        }
    }

    /// A turn of the background: looks at each range once and forgets the looks; where five times the number
    /// of those seen free is less than the number of ranges, it frees one as
    /// [`reclaim_one`](Dax::reclaim_one) does it. All ranges were looked at then, so `sweeps` rose, or
    /// stands at its last value. No look is noted afterwards.
    ///
    /// # Errors
    ///
    /// As [`reclaim_one`](Dax::reclaim_one).
    pub fn background_turn<T: Wait>(&mut self, rt: &T, alloc: Global) -> Result<(), DaxRefusal>
        requires stands { Stands (stand (W.wire self.old.driver.wire) (F.board self.old.files) (R.map self.old.ranges)) self.old.refs }
        requires ranges { 0 < range_count (R.map self.old.ranges) }
        requires tree { (R.map self.old.ranges).hands.tree ≡ None }
        requires moves { (R.map self.old.ranges).hands.moves ≡ None }
        requires looks { NoLooks (R.map self.old.ranges) }
        ensures keeps { Keeps (stand (W.wire self.old.driver.wire) (F.board self.old.files) (R.map self.old.ranges)) (stand (W.wire self.new.driver.wire) (F.board self.new.files) (R.map self.new.ranges)) }
        ensures turns { Turns (stand (W.wire self.old.driver.wire) (F.board self.old.files) (R.map self.old.ranges)) result (stand (W.wire self.new.driver.wire) (F.board self.new.files) (R.map self.new.ranges)) }
        ensures rose { Rose (R.map self.old.ranges).ranges.sweeps (R.map self.new.ranges).ranges.sweeps }
        ensures cause { IfErr result (λ e. IsCause W.wire W.gives self.old.driver.wire self.old.driver.unique e self.new.driver.wire self.new.driver.unique) }
        ensures refs { self.new.refs ≡ self.old.refs }
    {
        self.ranges.sound_ranges();
        let free = sweep(&mut self.ranges);
        let count = self.ranges.ranges();
        if free * 5 >= count {
            return Ok(());
        }
        self.free_one(rt, alloc)
    }
}
