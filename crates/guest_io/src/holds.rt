ghost use Rattle.std.specs.Prelude.{◌≡◌, ◌<◌, ◌≤◌, ◌+◌, ℕ, true, false, None, Some, length, sum, IfSome};
ghost use Rattle.plain_file.specs.File.{max_file, reach};
ghost use Rattle.plain_file.specs.Limits.{max_transfer};
ghost use Rattle.page_map.specs.Board.{log_at};
ghost use Rattle.page_map.specs.Window.{range_size};
ghost use Rattle.page_map.specs.declared.pages.Mode.TheVariants as modes;
ghost use Rattle.range_tree.specs.Ranges.{range_count};
ghost use Rattle.guest_dax.specs.Stands.{stand};
ghost use Rattle.guest_dax.specs.Looks.{NoLooks};
ghost use Rattle.guest_io.specs.Requests.{IsHome};
ghost use Rattle.guest_io.specs.Ways.{IsPlacedFor};
ghost use Rattle.guest_io.specs.Going.{LeavesAll, KeepsRounds, KeepsRefusals};
ghost use Rattle.guest_io.specs.Holds.{max_holds, granted_at, count_of, HasHolds, LeavesRest, SameEntries, AsksHold, GoesHeld, AccessesHold, ReleasesHold, loads, stores};

use crate::calls::{Done, Held, Refusal};
use crate::chunks::refusal_of_dax;
use crate::direct::apply_direct;
use crate::guest::{Granted, Guest, MAX_HOLDS};
use crate::slots::end_of;
use guest_dax::Dax;
use guest_wire::Wire;
use page_map::Mode;
use plain_file::{Blob, FileTurns, Op, Way};
use range_tree::RangeBoard;
use std::alloc::Global;
use std::sync::Wait;

impl<W, F: FileTurns, R: RangeBoard> Guest<W, F, R>
where
    W: Wire<F, R>,
{
    /// Asks for a hold on a chunk of a file: a lease of the file, whose size is noted, and a pin on the chunk,
    /// which is placed where it isn't yet. It gets the next hold number, also where it is refused. Where the
    /// chunk is placed with a mode that is enough, and no other board moves ranges, nothing is sent.
    ///
    /// There are ranges, the chunk is below 32, and fewer than 32 holds were asked for. Nothing is pinned and
    /// leased but what the holds have, and no bar is had. It waits while another guest has the bar on the file.
    ///
    /// # Errors
    ///
    /// `Busy` comes where the chunk wasn't placed and no range could be taken for it; its looks stay noted,
    /// and the caller forgets them. `Errno`, `BadReply` and `WireFault` never come over an honest wire.
    /// `Memory` comes where an allocation was refused. After each as much is pinned, leased, barred, had and
    /// moved as before.
    pub fn hold<T: Wait>(
        &mut self,
        rt: &T,
        alloc: Global,
        file: u32,
        chunk: u32,
        mode: Mode,
    ) -> Result<Held, Refusal>
        requires home { IsHome (stand (W.wire self.old.dax.driver.wire) (F.board self.old.dax.files) (R.map self.old.dax.ranges)) self.old.dax.refs }
        requires holds { HasHolds (stand (W.wire self.old.dax.driver.wire) (F.board self.old.dax.files) (R.map self.old.dax.ranges)) self.old.holds }
        requires few { self.old.holds.asked < max_holds }
        requires file { file < length self.old.dax.refs }
        requires chunk { chunk < 32 }
        requires ranges { 0 < range_count (R.map self.old.dax.ranges) }
        requires tree { (R.map self.old.dax.ranges).hands.tree ≡ None }
        requires moves { (R.map self.old.dax.ranges).hands.moves ≡ None }
        requires looks { NoLooks (R.map self.old.dax.ranges) }
        requires may { (F.board self.old.dax.files).may_lease ≡ true }
        requires bar { (F.board self.old.dax.files).hands.bar ≡ None }
        ensures home { IsHome (stand (W.wire self.new.dax.driver.wire) (F.board self.new.dax.files) (R.map self.new.dax.ranges)) self.new.dax.refs }
        ensures holds { HasHolds (stand (W.wire self.new.dax.driver.wire) (F.board self.new.dax.files) (R.map self.new.dax.ranges)) self.new.holds }
        ensures rest { LeavesRest (stand (W.wire self.old.dax.driver.wire) (F.board self.old.dax.files) (R.map self.old.dax.ranges)) (stand (W.wire self.new.dax.driver.wire) (F.board self.new.dax.files) (R.map self.new.dax.ranges)) }
        ensures entries { (W.wire self.old.dax.driver.wire).honest ≡ true → SameEntries (F.board self.old.dax.files) (F.board self.new.dax.files) }
        ensures asks { AsksHold (stand (W.wire self.old.dax.driver.wire) (F.board self.old.dax.files) (R.map self.old.dax.ranges)) self.old.holds file chunk mode result (stand (W.wire self.new.dax.driver.wire) (F.board self.new.dax.files) (R.map self.new.dax.ranges)) self.new.holds }
        ensures rounds { KeepsRounds (R.map self.old.dax.ranges) result (R.map self.new.dax.ranges) }
        ensures refusals { KeepsRefusals (F.board self.old.dax.files) (F.board self.new.dax.files) }
        ensures quiet { (R.map self.old.dax.ranges).ranges.others ≡ false → IsPlacedFor (log_at (R.map self.old.dax.ranges) file) chunk mode → self.new.dax.driver ≡ self.old.dax.driver }
        ensures refs { self.new.dax.refs ≡ self.old.dax.refs }
    {
        self.dax.files.sound(file);
        let noted = self.dax.files.lease(rt, file);
        match self.get_chunk(rt, alloc, file, chunk, mode) {
            Ok(pinned) => {
                let end = end_of(chunk, noted);
                self.holds.grant(Granted {
                    file,
                    chunk,
                    mode,
                    pinned,
                    end,
                });
                Ok(Held {
                    end,
                    through: pinned.through,
                })
            }
            Err(refusal) => {
                self.dax.files.unlease(file);
                self.holds.refuse();
                Err(refusal_of_dax(refusal))
            }
        }
    }

    // Applies an operation to the file that a hold's range shows, with the way through the hold's pair.
    fn go_held<T: Wait>(
        &mut self,
        rt: &T,
        alloc: Global,
        call: u32,
        granted: Granted,
        op: Op,
    ) -> Result<Done, Refusal>
        requires home { IsHome (stand (W.wire self.old.dax.driver.wire) (F.board self.old.dax.files) (R.map self.old.dax.ranges)) self.old.dax.refs }
        requires holds { HasHolds (stand (W.wire self.old.dax.driver.wire) (F.board self.old.dax.files) (R.map self.old.dax.ranges)) self.old.holds }
        requires granted { (n : ℕ) × (granted_at self.old.holds n ≡ Some granted) }
        requires fits { reach op ≤ max_file }
        ensures home { IsHome (stand (W.wire self.new.dax.driver.wire) (F.board self.new.dax.files) (R.map self.new.dax.ranges)) self.new.dax.refs }
        ensures leaves { LeavesAll (stand (W.wire self.old.dax.driver.wire) (F.board self.old.dax.files) (R.map self.old.dax.ranges)) (stand (W.wire self.new.dax.driver.wire) (F.board self.new.dax.files) (R.map self.new.dax.ranges)) }
        ensures held { HasHolds (stand (W.wire self.new.dax.driver.wire) (F.board self.new.dax.files) (R.map self.new.dax.ranges)) self.new.holds }
        ensures looks { NoLooks (R.map self.old.dax.ranges) → NoLooks (R.map self.new.dax.ranges) }
        ensures logs { (R.map self.new.dax.ranges).ranges.logs ≡ (R.map self.old.dax.ranges).ranges.logs }
        ensures goes { GoesHeld (F.board self.old.dax.files) granted call op result (F.board self.new.dax.files) }
        ensures rounds { (R.map self.new.dax.ranges).ranges.rounds ≡ (R.map self.old.dax.ranges).ranges.rounds }
        ensures refusals { KeepsRefusals (F.board self.old.dax.files) (F.board self.new.dax.files) }
        ensures driver { self.new.dax.driver ≡ self.old.dax.driver }
        ensures refs { self.new.dax.refs ≡ self.old.dax.refs }
        ensures holds { self.new.holds ≡ self.old.holds }
    {
        let target = self.dax.ranges.target(granted.pinned.range).unwrap();
        let way = Way::Via(granted.pinned.through, None);
        match apply_direct(rt, alloc, &mut self.dax.files, target.file, call, way, op) {
            Ok(done) => Ok(done),
            Err(_) => Err(Refusal::Memory),
        }
    }

    /// Reads `len` bytes through a hold, from the byte `off` of its chunk on. Its entry has the way `Via` with
    /// the hold's pair alone. Nothing is sent.
    ///
    /// `len` is from 1 to 1 MiB, and the access ends at most at the chunk's end.
    ///
    /// # Errors
    ///
    /// `NoHold` comes exactly where the hold wasn't granted or is released, and else `Past` exactly where the
    /// access ends above the hold's end: nothing has changed. `Memory` comes where an allocation was refused,
    /// and no entry was made.
    pub fn load<T: Wait>(
        &mut self,
        rt: &T,
        alloc: Global,
        call: u32,
        hold: u32,
        off: u64,
        len: u32,
    ) -> Result<Done, Refusal>
        requires home { IsHome (stand (W.wire self.old.dax.driver.wire) (F.board self.old.dax.files) (R.map self.old.dax.ranges)) self.old.dax.refs }
        requires holds { HasHolds (stand (W.wire self.old.dax.driver.wire) (F.board self.old.dax.files) (R.map self.old.dax.ranges)) self.old.holds }
        requires some { 0 < len }
        requires most { len ≤ max_transfer }
        requires end { off + len ≤ range_size }
        ensures home { IsHome (stand (W.wire self.new.dax.driver.wire) (F.board self.new.dax.files) (R.map self.new.dax.ranges)) self.new.dax.refs }
        ensures leaves { LeavesAll (stand (W.wire self.old.dax.driver.wire) (F.board self.old.dax.files) (R.map self.old.dax.ranges)) (stand (W.wire self.new.dax.driver.wire) (F.board self.new.dax.files) (R.map self.new.dax.ranges)) }
        ensures held { HasHolds (stand (W.wire self.new.dax.driver.wire) (F.board self.new.dax.files) (R.map self.new.dax.ranges)) self.new.holds }
        ensures looks { NoLooks (R.map self.old.dax.ranges) → NoLooks (R.map self.new.dax.ranges) }
        ensures logs { (R.map self.new.dax.ranges).ranges.logs ≡ (R.map self.old.dax.ranges).ranges.logs }
        ensures accesses { AccessesHold (stand (W.wire self.old.dax.driver.wire) (F.board self.old.dax.files) (R.map self.old.dax.ranges)) self.old.holds call hold off len (loads len) result (stand (W.wire self.new.dax.driver.wire) (F.board self.new.dax.files) (R.map self.new.dax.ranges)) }
        ensures rounds { (R.map self.new.dax.ranges).ranges.rounds ≡ (R.map self.old.dax.ranges).ranges.rounds }
        ensures refusals { KeepsRefusals (F.board self.old.dax.files) (F.board self.new.dax.files) }
        ensures driver { self.new.dax.driver ≡ self.old.dax.driver }
        ensures refs { self.new.dax.refs ≡ self.old.dax.refs }
        ensures holds { self.new.holds ≡ self.old.holds }
    {
        match self.holds.find(hold, off, len as u64) {
            Ok(granted) => {
                let op = Op::Read {
                    off: granted.start() + off,
                    len: len as u64,
                };
                self.go_held(rt, alloc, call, granted, op)
            }
            Err(refusal) => Err(refusal),
        }
    }

    /// Writes these bytes through a hold that was granted for writing, from the byte `off` of its chunk on. Its
    /// entry has the way `Via` with the hold's pair alone. Nothing is sent.
    ///
    /// There are from 1 byte to 1 MiB of them, and the access ends at most at the chunk's end.
    ///
    /// # Errors
    ///
    /// As [`load`](Guest::load).
    pub fn store<T: Wait>(
        &mut self,
        rt: &T,
        alloc: Global,
        call: u32,
        hold: u32,
        off: u64,
        bytes: &[u8],
    ) -> Result<Done, Refusal>
        requires home { IsHome (stand (W.wire self.old.dax.driver.wire) (F.board self.old.dax.files) (R.map self.old.dax.ranges)) self.old.dax.refs }
        requires holds { HasHolds (stand (W.wire self.old.dax.driver.wire) (F.board self.old.dax.files) (R.map self.old.dax.ranges)) self.old.holds }
        requires written { IfSome (granted_at self.old.holds hold) (λ g. g.mode ≡ modes.W) }
        requires some { 0 < length bytes.now }
        requires most { length bytes.now ≤ max_transfer }
        requires end { off + length bytes.now ≤ range_size }
        ensures home { IsHome (stand (W.wire self.new.dax.driver.wire) (F.board self.new.dax.files) (R.map self.new.dax.ranges)) self.new.dax.refs }
        ensures leaves { LeavesAll (stand (W.wire self.old.dax.driver.wire) (F.board self.old.dax.files) (R.map self.old.dax.ranges)) (stand (W.wire self.new.dax.driver.wire) (F.board self.new.dax.files) (R.map self.new.dax.ranges)) }
        ensures held { HasHolds (stand (W.wire self.new.dax.driver.wire) (F.board self.new.dax.files) (R.map self.new.dax.ranges)) self.new.holds }
        ensures looks { NoLooks (R.map self.old.dax.ranges) → NoLooks (R.map self.new.dax.ranges) }
        ensures logs { (R.map self.new.dax.ranges).ranges.logs ≡ (R.map self.old.dax.ranges).ranges.logs }
        ensures accesses { AccessesHold (stand (W.wire self.old.dax.driver.wire) (F.board self.old.dax.files) (R.map self.old.dax.ranges)) self.old.holds call hold off (length bytes.now) (stores bytes.now) result (stand (W.wire self.new.dax.driver.wire) (F.board self.new.dax.files) (R.map self.new.dax.ranges)) }
        ensures rounds { (R.map self.new.dax.ranges).ranges.rounds ≡ (R.map self.old.dax.ranges).ranges.rounds }
        ensures refusals { KeepsRefusals (F.board self.old.dax.files) (F.board self.new.dax.files) }
        ensures driver { self.new.dax.driver ≡ self.old.dax.driver }
        ensures refs { self.new.dax.refs ≡ self.old.dax.refs }
        ensures holds { self.new.holds ≡ self.old.holds }
    {
        match self.holds.find(hold, off, bytes.len() as u64) {
            Ok(granted) => match Blob::copy_of(alloc, bytes) {
                Ok(bytes) => {
                    let op = Op::Write {
                        off: granted.start() + off,
                        bytes,
                    };
                    self.go_held(rt, alloc, call, granted, op)
                }
                Err(_) => Err(Refusal::Memory),
            },
            Err(refusal) => Err(refusal),
        }
    }

    /// Gives a hold back: its pin, then its lease. Nothing is sent, and it never waits.
    ///
    /// # Errors
    ///
    /// `NoHold` comes exactly where the hold wasn't granted or is released already: nothing has changed.
    pub fn release(&mut self, hold: u32) -> Result<(), Refusal>
        requires home { IsHome (stand (W.wire self.old.dax.driver.wire) (F.board self.old.dax.files) (R.map self.old.dax.ranges)) self.old.dax.refs }
        requires holds { HasHolds (stand (W.wire self.old.dax.driver.wire) (F.board self.old.dax.files) (R.map self.old.dax.ranges)) self.old.holds }
        ensures home { IsHome (stand (W.wire self.new.dax.driver.wire) (F.board self.new.dax.files) (R.map self.new.dax.ranges)) self.new.dax.refs }
        ensures holds { HasHolds (stand (W.wire self.new.dax.driver.wire) (F.board self.new.dax.files) (R.map self.new.dax.ranges)) self.new.holds }
        ensures rest { LeavesRest (stand (W.wire self.old.dax.driver.wire) (F.board self.old.dax.files) (R.map self.old.dax.ranges)) (stand (W.wire self.new.dax.driver.wire) (F.board self.new.dax.files) (R.map self.new.dax.ranges)) }
        ensures entries { SameEntries (F.board self.old.dax.files) (F.board self.new.dax.files) }
        ensures looks { NoLooks (R.map self.old.dax.ranges) → NoLooks (R.map self.new.dax.ranges) }
        ensures logs { (R.map self.new.dax.ranges).ranges.logs ≡ (R.map self.old.dax.ranges).ranges.logs }
        ensures releases { ReleasesHold (stand (W.wire self.old.dax.driver.wire) (F.board self.old.dax.files) (R.map self.old.dax.ranges)) self.old.holds hold result (stand (W.wire self.new.dax.driver.wire) (F.board self.new.dax.files) (R.map self.new.dax.ranges)) self.new.holds }
        ensures rounds { (R.map self.new.dax.ranges).ranges.rounds ≡ (R.map self.old.dax.ranges).ranges.rounds }
        ensures sweeps { (R.map self.new.dax.ranges).ranges.sweeps ≡ (R.map self.old.dax.ranges).ranges.sweeps }
        ensures refusals { KeepsRefusals (F.board self.old.dax.files) (F.board self.new.dax.files) }
        ensures driver { self.new.dax.driver ≡ self.old.dax.driver }
        ensures refs { self.new.dax.refs ≡ self.old.dax.refs }
    {
        match self.holds.granted(hold) {
            None => Err(Refusal::NoHold { hold }),
            Some(granted) => {
                self.holds.take_out(hold);
                self.dax.ranges.unpin(granted.pinned.range);
                self.dax.files.unlease(granted.file);
                Ok(())
            }
        }
    }

    // Gives back every hold that is still granted, the first one first.
    fn release_all(&mut self)
        requires home { IsHome (stand (W.wire self.old.dax.driver.wire) (F.board self.old.dax.files) (R.map self.old.dax.ranges)) self.old.dax.refs }
        requires holds { HasHolds (stand (W.wire self.old.dax.driver.wire) (F.board self.old.dax.files) (R.map self.old.dax.ranges)) self.old.holds }
        ensures home { IsHome (stand (W.wire self.new.dax.driver.wire) (F.board self.new.dax.files) (R.map self.new.dax.ranges)) self.new.dax.refs }
        ensures holds { HasHolds (stand (W.wire self.new.dax.driver.wire) (F.board self.new.dax.files) (R.map self.new.dax.ranges)) self.new.holds }
        ensures none { count_of self.new.holds.slots ≡ 0 }
        ensures rest { LeavesRest (stand (W.wire self.old.dax.driver.wire) (F.board self.old.dax.files) (R.map self.old.dax.ranges)) (stand (W.wire self.new.dax.driver.wire) (F.board self.new.dax.files) (R.map self.new.dax.ranges)) }
        ensures entries { SameEntries (F.board self.old.dax.files) (F.board self.new.dax.files) }
        ensures looks { NoLooks (R.map self.old.dax.ranges) → NoLooks (R.map self.new.dax.ranges) }
        ensures logs { (R.map self.new.dax.ranges).ranges.logs ≡ (R.map self.old.dax.ranges).ranges.logs }
        ensures rounds { (R.map self.new.dax.ranges).ranges.rounds ≡ (R.map self.old.dax.ranges).ranges.rounds }
        ensures sweeps { (R.map self.new.dax.ranges).ranges.sweeps ≡ (R.map self.old.dax.ranges).ranges.sweeps }
        ensures refusals { KeepsRefusals (F.board self.old.dax.files) (F.board self.new.dax.files) }
        ensures driver { self.new.dax.driver ≡ self.old.dax.driver }
        ensures refs { self.new.dax.refs ≡ self.old.dax.refs }
    {
        for hold in 0..MAX_HOLDS {
            let _released = self.release(hold);
        }
    }

    /// Gives back every hold that is still granted, the first one first, and then its ranges. Nothing is sent.
    pub fn finish(self) -> Dax<W, F, R>
        requires home { IsHome (stand (W.wire self.dax.driver.wire) (F.board self.dax.files) (R.map self.dax.ranges)) self.dax.refs }
        requires holds { HasHolds (stand (W.wire self.dax.driver.wire) (F.board self.dax.files) (R.map self.dax.ranges)) self.holds }
        ensures home { IsHome (stand (W.wire result.driver.wire) (F.board result.files) (R.map result.ranges)) result.refs }
        ensures rest { LeavesRest (stand (W.wire self.dax.driver.wire) (F.board self.dax.files) (R.map self.dax.ranges)) (stand (W.wire result.driver.wire) (F.board result.files) (R.map result.ranges)) }
        ensures entries { SameEntries (F.board self.dax.files) (F.board result.files) }
        ensures looks { NoLooks (R.map self.dax.ranges) → NoLooks (R.map result.ranges) }
        ensures logs { (R.map result.ranges).ranges.logs ≡ (R.map self.dax.ranges).ranges.logs }
        ensures rounds { (R.map result.ranges).ranges.rounds ≡ (R.map self.dax.ranges).ranges.rounds }
        ensures sweeps { (R.map result.ranges).ranges.sweeps ≡ (R.map self.dax.ranges).ranges.sweeps }
        ensures refusals { KeepsRefusals (F.board self.dax.files) (F.board result.files) }
        ensures pins { sum (R.map result.ranges).hands.pins ≡ 0 }
        ensures leases { sum (F.board result.files).hands.leases ≡ 0 }
        ensures driver { result.driver ≡ self.dax.driver }
        ensures refs { result.refs ≡ self.dax.refs }
    {
        let mut guest = self;
        guest.release_all();
        let Guest { dax, holds: _holds } = guest;
        dax
    }
}
