ghost use Rattle.std.specs.Prelude.{◌≡◌, ◌<◌, ◌≤◌, ◌+◌, false, None, length, sum};
ghost use Rattle.plain_file.specs.File.{max_file};
ghost use Rattle.plain_file.specs.Limits.{max_transfer};
ghost use Rattle.page_map.specs.declared.pages.Mode.TheVariants as modes;
ghost use Rattle.page_map.specs.Board.{log_at};
ghost use Rattle.range_tree.specs.Ranges.{range_count, max_pins};
ghost use Rattle.guest_dax.specs.Stands.{stand};
ghost use Rattle.guest_dax.specs.Looks.{NoLooks};
ghost use Rattle.guest_io.specs.Requests.{IsHome};
ghost use Rattle.guest_io.specs.Ways.{ArePlaced};
ghost use Rattle.guest_io.specs.Going.{LeavesAll, Reads, KeepsRounds, KeepsRefusals};

use crate::calls::{Done, Refusal};
use crate::guest::Guest;
use guest_wire::Wire;
use page_map::Mode;
use plain_file::{FileTurns, Op};
use range_tree::RangeBoard;
use std::alloc::Global;
use std::sync::Wait;

impl<W, F: FileTurns, R: RangeBoard> Guest<W, F, R>
where
    W: Wire<F, R>,
{
    /// Reads `len` bytes of a file from the byte `off` on, as far as the file goes.
    ///
    /// Without ranges it is a request, READ, and its entry has the way `Req`. With ranges it is done through
    /// the window, and no READ is sent: each chunk of the interval is pinned, those behind the file's end
    /// too, and placed where it isn't yet; the read is applied to the file that the pinned ranges show, with
    /// the way `Via`; and the pins are given back. Where each chunk is placed, and no other board moves
    /// ranges, nothing is sent.
    ///
    /// `len` is from 1 to 1 MiB, and the interval ends at most at 64 MiB. Two pins more must be allowed.
    ///
    /// # Errors
    ///
    /// `Busy` comes where a chunk wasn't placed and no range could be taken for it; its looks stay noted,
    /// and the caller forgets them. `Errno`, `BadReply` and `WireFault` never come over an honest wire.
    /// `Memory` comes where an allocation was refused: over an honest wire the call's entry was made, or
    /// nothing. After each as much is pinned, leased, barred, had and moved as before.
    pub fn read<T: Wait>(
        &mut self,
        rt: &T,
        alloc: Global,
        call: u32,
        file: u32,
        off: u64,
        len: u32,
    ) -> Result<Done, Refusal>
        requires home { IsHome (stand (W.wire self.old.dax.driver.wire) (F.board self.old.dax.files) (R.map self.old.dax.ranges)) self.old.dax.refs }
        requires file { file < length self.old.dax.refs }
        requires some { 0 < len }
        requires most { len ≤ max_transfer }
        requires end { off + len ≤ max_file }
        requires tree { (R.map self.old.dax.ranges).hands.tree ≡ None }
        requires moves { (R.map self.old.dax.ranges).hands.moves ≡ None }
        requires few { sum (R.map self.old.dax.ranges).hands.pins + 1 < max_pins }
        requires looks { NoLooks (R.map self.old.dax.ranges) }
        ensures home { IsHome (stand (W.wire self.new.dax.driver.wire) (F.board self.new.dax.files) (R.map self.new.dax.ranges)) self.new.dax.refs }
        ensures leaves { LeavesAll (stand (W.wire self.old.dax.driver.wire) (F.board self.old.dax.files) (R.map self.old.dax.ranges)) (stand (W.wire self.new.dax.driver.wire) (F.board self.new.dax.files) (R.map self.new.dax.ranges)) }
        ensures reads { Reads (stand (W.wire self.old.dax.driver.wire) (F.board self.old.dax.files) (R.map self.old.dax.ranges)) file call off len result (stand (W.wire self.new.dax.driver.wire) (F.board self.new.dax.files) (R.map self.new.dax.ranges)) }
        ensures rounds { KeepsRounds (R.map self.old.dax.ranges) result (R.map self.new.dax.ranges) }
        ensures refusals { KeepsRefusals (F.board self.old.dax.files) (F.board self.new.dax.files) }
        ensures quiet { 0 < range_count (R.map self.old.dax.ranges) → (R.map self.old.dax.ranges).ranges.others ≡ false → ArePlaced (log_at (R.map self.old.dax.ranges) file) off len modes.R → self.new.dax.driver ≡ self.old.dax.driver }
        ensures refs { self.new.dax.refs ≡ self.old.dax.refs }
        ensures holds { self.new.holds ≡ self.old.holds }
    {
        let count = self.dax.ranges.ranges();
        if count == 0 {
            return self.send_read(rt, alloc, call, file, off, len);
        }
        let len = len as u64;
        let op = Op::Read { off, len };
        self.through_window(rt, alloc, call, file, off, len, Mode::R, op)
    }
}
