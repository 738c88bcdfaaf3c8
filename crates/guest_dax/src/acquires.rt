ghost use Rattle.std.specs.Prelude.{◌≡◌, ◌<◌, ◌≤◌, ℕ, true, false, None, IfOk, IfErr, OnOk, ◌++◌};
ghost use Rattle.page_map.specs.Board.{Hands, MapView};
ghost use Rattle.range_tree.specs.Ranges.{range_count, moved_of};
ghost use Rattle.guest_dax.specs.Stands.{stand, Stands, Keeps, KeepsMap};
ghost use Rattle.guest_dax.specs.Looks.{SomeUnblocked, NoLooks, looks_from, look_of};
ghost use Rattle.guest_dax.specs.Reclaims.{Walks, Goes, ComesAt, FirstRound, SecondRound, Forgets, IsBusy, Acquires};
ghost use Rattle.guest_dax.specs.Causes.{IsCause, IsUnmappedOrFree};

use crate::attempts::{Attempt, try_free, try_range};
use crate::dax::Dax;
use crate::refusals::DaxRefusal;
use guest_wire::Wire;
use page_map::{Look, RangeWord};
use plain_file::{FileBoard, List, Memory};
use range_tree::RangeBoard;
use std::alloc::Global;
use std::sync::Wait;

// Looks at the ranges from 0 upward, and takes the first that is free.
fn first_round<R: RangeBoard>(ranges: &mut R) -> bool
    requires may { (R.map ranges.old).ranges.may_take ≡ true }
    requires moves { (R.map ranges.old).hands.moves ≡ None }
    requires tree { (R.map ranges.old).hands.tree ≡ None }
    ensures { FirstRound (R.map ranges.old) result (R.map ranges.new) }
{
    let count = ranges.ranges();
    for range in 0..count {
        if let Attempt::Took = try_free(ranges, range) {
            return true;
        }
    }
    false
}

// No look is noted any more.
pub(crate) fn forget<R: RangeBoard>(ranges: &mut R)
    requires { SomeUnblocked (R.map ranges.old) }
    ensures { Forgets (R.map ranges.old) (R.map ranges.new) }
{
    ranges.sound_ranges();
    ranges.forget_looks();
}

// Adds the look at a range, where one is noted.
#[tactic(auto, unfolding(crate::specs::Looks::look_of))]
fn add_look(looks: &mut List<Look>, range: u32, word: Option<RangeWord>) -> Result<(), Memory>
    ensures { OnOk result (looks.new ≡ looks.old ++ look_of range word) }
{
    if let Some(word) = word {
        looks.push(Look { range, word })?;
    }
    Ok(())
}

// The noted looks in order of ranges.
fn noted_looks<R: RangeBoard>(alloc: Global, ranges: &R) -> Result<List<Look>, Memory>
    ensures { IfOk result (λ looks. looks ≡ looks_from 0 (R.map ranges.now).ranges.looks) }
{
    ranges.sound_ranges();
    let count = ranges.ranges();
    let mut looks = List::new(alloc);
    for range in 0..count {
        add_look(&mut looks, range, ranges.looked(range))?;
    }
    Ok(looks)
}

impl<W, F: FileBoard, R: RangeBoard> Dax<W, F, R>
where
    W: Wire<F, R>,
{
    // Takes a range that is free, or mapped without pins, or shows why not.
    fn reclaim_at<T: Wait>(&mut self, rt: &T, alloc: Global, range: u32) -> Result<bool, DaxRefusal>
        requires stands { Stands (stand (W.wire self.old.driver.wire) (F.board self.old.files) (R.map self.old.ranges)) self.old.refs }
        requires range { range < range_count (R.map self.old.ranges) }
        requires tree { (R.map self.old.ranges).hands.tree ≡ None }
        requires moves { (R.map self.old.ranges).hands.moves ≡ None }
        ensures walks { Walks (stand (W.wire self.old.driver.wire) (F.board self.old.files) (R.map self.old.ranges)) (stand (W.wire self.new.driver.wire) (F.board self.new.files) (R.map self.new.ranges)) }
        ensures comes { ComesAt (stand (W.wire self.old.driver.wire) (F.board self.old.files) (R.map self.old.ranges)) range result (stand (W.wire self.new.driver.wire) (F.board self.new.files) (R.map self.new.ranges)) }
        ensures cause { IfErr result (λ e. IsCause W.wire W.gives self.old.driver.wire self.old.driver.unique e self.new.driver.wire self.new.driver.unique) }
        ensures removed { IfOk result (λ took. took ≡ true → IsUnmappedOrFree W.wire W.gives self.old.driver.wire self.old.driver.unique (moved_of (R.map self.new.ranges)) self.new.driver.wire self.new.driver.unique) }
        ensures quiet { IfOk result (λ took. took ≡ false → self.new.driver ≡ self.old.driver) }
        ensures refs { self.new.refs ≡ self.old.refs }
    {
        for _ in rt.forever() {
            match try_range(rt, &mut self.ranges, range) {
                Attempt::Took => return Ok(true),
                Attempt::Removed { file } => {
                    self.unmap(rt, alloc, file, range)?;
                    self.cursor = range.saturating_add(1);
                    return Ok(true);
                }
                Attempt::Blocked => return Ok(false),
                Attempt::Again => {}
            }
        }
        unreachable!()
    }

    // The same for the ranges from one to below another.
    fn walk<T: Wait>(
        &mut self,
        rt: &T,
        alloc: Global,
        from: u32,
        to: u32,
    ) -> Result<bool, DaxRefusal>
        requires stands { Stands (stand (W.wire self.old.driver.wire) (F.board self.old.files) (R.map self.old.ranges)) self.old.refs }
        requires from { from ≤ to }
        requires to { to ≤ range_count (R.map self.old.ranges) }
        requires tree { (R.map self.old.ranges).hands.tree ≡ None }
        requires moves { (R.map self.old.ranges).hands.moves ≡ None }
        ensures walks { Walks (stand (W.wire self.old.driver.wire) (F.board self.old.files) (R.map self.old.ranges)) (stand (W.wire self.new.driver.wire) (F.board self.new.files) (R.map self.new.ranges)) }
        ensures goes { Goes (stand (W.wire self.old.driver.wire) (F.board self.old.files) (R.map self.old.ranges)) from to result (stand (W.wire self.new.driver.wire) (F.board self.new.files) (R.map self.new.ranges)) }
        ensures cause { IfErr result (λ e. IsCause W.wire W.gives self.old.driver.wire self.old.driver.unique e self.new.driver.wire self.new.driver.unique) }
        ensures removed { IfOk result (λ took. took ≡ true → IsUnmappedOrFree W.wire W.gives self.old.driver.wire self.old.driver.unique (moved_of (R.map self.new.ranges)) self.new.driver.wire self.new.driver.unique) }
        ensures quiet { IfOk result (λ took. took ≡ false → self.new.driver ≡ self.old.driver) }
        ensures refs { self.new.refs ≡ self.old.refs }
    {
        for range in from..to {
            if self.reclaim_at(rt, alloc, range)? {
                return Ok(true);
            }
        }
        Ok(false)
    }

    // Goes over all ranges once from the cursor, with wrap.
    fn second_round<T: Wait>(&mut self, rt: &T, alloc: Global) -> Result<bool, DaxRefusal>
        requires stands { Stands (stand (W.wire self.old.driver.wire) (F.board self.old.files) (R.map self.old.ranges)) self.old.refs }
        requires tree { (R.map self.old.ranges).hands.tree ≡ None }
        requires moves { (R.map self.old.ranges).hands.moves ≡ None }
        ensures walks { Walks (stand (W.wire self.old.driver.wire) (F.board self.old.files) (R.map self.old.ranges)) (stand (W.wire self.new.driver.wire) (F.board self.new.files) (R.map self.new.ranges)) }
        ensures round { SecondRound (stand (W.wire self.old.driver.wire) (F.board self.old.files) (R.map self.old.ranges)) result (stand (W.wire self.new.driver.wire) (F.board self.new.files) (R.map self.new.ranges)) }
        ensures cause { IfErr result (λ e. IsCause W.wire W.gives self.old.driver.wire self.old.driver.unique e self.new.driver.wire self.new.driver.unique) }
        ensures removed { IfOk result (λ took. took ≡ true → IsUnmappedOrFree W.wire W.gives self.old.driver.wire self.old.driver.unique (moved_of (R.map self.new.ranges)) self.new.driver.wire self.new.driver.unique) }
        ensures quiet { IfOk result (λ took. took ≡ false → self.new.driver ≡ self.old.driver) }
        ensures refs { self.new.refs ≡ self.old.refs }
    {
        let count = self.ranges.ranges();
        let start = self.cursor.min(count);
        if self.walk(rt, alloc, start, count)? {
            return Ok(true);
        }
        self.walk(rt, alloc, 0, start)
    }

    /// Moves one range that this board has no pin on: one that is free, or else one that is mapped without
    /// pins. A range that was mapped is unmapped by REMOVEMAPPING, the one request that this may send. No
    /// look is noted afterwards, but after `Busy`.
    ///
    /// # Errors
    ///
    /// `Busy` comes where it took none, with one look per range in order of ranges: each shows a range that
    /// is moving by another guest, or pinned, and was noted with the pins that the board had there before.
    /// `Errno`, `BadReply` and `WireFault` come by what came of the one request, and never over an honest
    /// wire. `Memory` comes where an allocation was refused. After each no range is moved.
    pub fn acquire<T: Wait>(&mut self, rt: &T, alloc: Global) -> Result<(), DaxRefusal>
        requires stands { Stands (stand (W.wire self.old.driver.wire) (F.board self.old.files) (R.map self.old.ranges)) self.old.refs }
        requires ranges { 0 < range_count (R.map self.old.ranges) }
        requires tree { (R.map self.old.ranges).hands.tree ≡ None }
        requires moves { (R.map self.old.ranges).hands.moves ≡ None }
        requires looks { NoLooks (R.map self.old.ranges) }
        ensures keeps { Keeps (stand (W.wire self.old.driver.wire) (F.board self.old.files) (R.map self.old.ranges)) (stand (W.wire self.new.driver.wire) (F.board self.new.files) (R.map self.new.ranges)) }
        ensures acquires { Acquires (stand (W.wire self.old.driver.wire) (F.board self.old.files) (R.map self.old.ranges)) result (stand (W.wire self.new.driver.wire) (F.board self.new.files) (R.map self.new.ranges)) }
        ensures cause { IfErr result (λ e. IsCause W.wire W.gives self.old.driver.wire self.old.driver.unique e self.new.driver.wire self.new.driver.unique) }
        ensures removed { IfOk result (λ u. IsUnmappedOrFree W.wire W.gives self.old.driver.wire self.old.driver.unique (moved_of (R.map self.new.ranges)) self.new.driver.wire self.new.driver.unique) }
        ensures refs { self.new.refs ≡ self.old.refs }
    {
        if first_round(&mut self.ranges) {
            forget(&mut self.ranges);
            return Ok(());
        }
        match self.second_round(rt, alloc) {
            Ok(true) => {
                forget(&mut self.ranges);
                Ok(())
            }
            Ok(false) => Err(self.busy(alloc)),
            Err(refusal) => {
                forget(&mut self.ranges);
                Err(refusal)
            }
        }
    }

    // What is answered where each range is moving or pinned. For want of memory nothing is noted.
    fn busy(&mut self, alloc: Global) -> DaxRefusal
        ensures busy { IsBusy (R.map self.old.ranges) result (R.map self.new.ranges) }
        ensures keeps { KeepsMap (R.map self.old.ranges) (R.map self.new.ranges) }
        ensures driver { self.new.driver ≡ self.old.driver }
        ensures files { self.new.files ≡ self.old.files }
        ensures refs { self.new.refs ≡ self.old.refs }
    {
        match noted_looks(alloc, &self.ranges) {
            Ok(looked) => DaxRefusal::Busy { looked },
            Err(_) => {
                self.ranges.forget_looks();
                DaxRefusal::Memory
            }
        }
    }
}
