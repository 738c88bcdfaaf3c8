ghost use Rattle.std.specs.Prelude.{◌≡◌, ◌<◌, ◌≤◌, ◌+◌, true, false, None, length, sum};
ghost use Rattle.plain_file.specs.File.{max_file};
ghost use Rattle.plain_file.specs.Limits.{max_transfer};
ghost use Rattle.plain_file.specs.Board.{file_at, size_of};
ghost use Rattle.plain_file.specs.declared.operations.Op.TheVariants as ops;
ghost use Rattle.page_map.specs.declared.pages.Mode.TheVariants as modes;
ghost use Rattle.page_map.specs.Board.{log_at};
ghost use Rattle.range_tree.specs.Ranges.{range_count, max_pins};
ghost use Rattle.guest_dax.specs.Stands.{stand};
ghost use Rattle.guest_dax.specs.Looks.{NoLooks};
ghost use Rattle.guest_io.specs.Requests.{IsHome};
ghost use Rattle.guest_io.specs.Ways.{ArePlaced};
ghost use Rattle.guest_io.specs.Windows.{GoesThrough};
ghost use Rattle.guest_io.specs.Going.{LeavesAll, Writes, KeepsRounds, KeepsRefusals};

use crate::calls::{Done, Refusal};
use crate::guest::Guest;
use guest_wire::Wire;
use page_map::Mode;
use plain_file::{Blob, FileTurns, Op, Way};
use range_tree::RangeBoard;
use std::alloc::Global;
use std::sync::Wait;

impl<W, F: FileTurns, R: RangeBoard> Guest<W, F, R>
where
    W: Wire<F, R>,
{
    // Writes to a file through the window, of bytes that are copied once.
    fn write_through<T: Wait>(
        &mut self,
        rt: &T,
        alloc: Global,
        call: u32,
        file: u32,
        off: u64,
        bytes: &[u8],
    ) -> Result<Done, Refusal>
        requires home { IsHome (stand (W.wire self.old.dax.driver.wire) (F.board self.old.dax.files) (R.map self.old.dax.ranges)) self.old.dax.refs }
        requires file { file < length self.old.dax.refs }
        requires some { 0 < length bytes.now }
        requires most { length bytes.now ≤ max_transfer }
        requires end { off + length bytes.now ≤ max_file }
        requires ranges { 0 < range_count (R.map self.old.dax.ranges) }
        requires tree { (R.map self.old.dax.ranges).hands.tree ≡ None }
        requires moves { (R.map self.old.dax.ranges).hands.moves ≡ None }
        requires few { sum (R.map self.old.dax.ranges).hands.pins + 1 < max_pins }
        requires looks { NoLooks (R.map self.old.dax.ranges) }
        ensures home { IsHome (stand (W.wire self.new.dax.driver.wire) (F.board self.new.dax.files) (R.map self.new.dax.ranges)) self.new.dax.refs }
        ensures leaves { LeavesAll (stand (W.wire self.old.dax.driver.wire) (F.board self.old.dax.files) (R.map self.old.dax.ranges)) (stand (W.wire self.new.dax.driver.wire) (F.board self.new.dax.files) (R.map self.new.dax.ranges)) }
        ensures goes { GoesThrough (stand (W.wire self.old.dax.driver.wire) (F.board self.old.dax.files) (R.map self.old.dax.ranges)) file call (ops.Write off bytes.now) off (length bytes.now) modes.W result (stand (W.wire self.new.dax.driver.wire) (F.board self.new.dax.files) (R.map self.new.dax.ranges)) }
        ensures rounds { KeepsRounds (R.map self.old.dax.ranges) result (R.map self.new.dax.ranges) }
        ensures refusals { KeepsRefusals (F.board self.old.dax.files) (F.board self.new.dax.files) }
        ensures quiet { (R.map self.old.dax.ranges).ranges.others ≡ false → ArePlaced (log_at (R.map self.old.dax.ranges) file) off (length bytes.now) modes.W → self.new.dax.driver ≡ self.old.dax.driver }
        ensures refs { self.new.dax.refs ≡ self.old.dax.refs }
        ensures holds { self.new.holds ≡ self.old.holds }
    {
        let len = bytes.len() as u64;
        match Blob::copy_of(alloc, bytes) {
            Ok(bytes) => {
                let op = Op::Write { off, bytes };
                self.through_window(rt, alloc, call, file, off, len, Mode::W, op)
            }
            Err(_) => Err(Refusal::Memory),
        }
    }

    // Writes to a file under a lease: through the window where the write ends at most at the noted size,
    // else by a request, which goes without the lease.
    fn write_leased<T: Wait>(
        &mut self,
        rt: &T,
        alloc: Global,
        call: u32,
        file: u32,
        off: u64,
        bytes: &[u8],
    ) -> Result<Done, Refusal>
        requires home { IsHome (stand (W.wire self.old.dax.driver.wire) (F.board self.old.dax.files) (R.map self.old.dax.ranges)) self.old.dax.refs }
        requires file { file < length self.old.dax.refs }
        requires some { 0 < length bytes.now }
        requires most { length bytes.now ≤ max_transfer }
        requires end { off + length bytes.now ≤ max_file }
        requires ranges { 0 < range_count (R.map self.old.dax.ranges) }
        requires tree { (R.map self.old.dax.ranges).hands.tree ≡ None }
        requires moves { (R.map self.old.dax.ranges).hands.moves ≡ None }
        requires few { sum (R.map self.old.dax.ranges).hands.pins + 1 < max_pins }
        requires looks { NoLooks (R.map self.old.dax.ranges) }
        requires may { (F.board self.old.dax.files).may_lease ≡ true }
        requires bar { (F.board self.old.dax.files).hands.bar ≡ None }
        requires leases { sum (F.board self.old.dax.files).hands.leases < 64 }
        ensures home { IsHome (stand (W.wire self.new.dax.driver.wire) (F.board self.new.dax.files) (R.map self.new.dax.ranges)) self.new.dax.refs }
        ensures leaves { LeavesAll (stand (W.wire self.old.dax.driver.wire) (F.board self.old.dax.files) (R.map self.old.dax.ranges)) (stand (W.wire self.new.dax.driver.wire) (F.board self.new.dax.files) (R.map self.new.dax.ranges)) }
        ensures writes { Writes (stand (W.wire self.old.dax.driver.wire) (F.board self.old.dax.files) (R.map self.old.dax.ranges)) file call off bytes.now result (stand (W.wire self.new.dax.driver.wire) (F.board self.new.dax.files) (R.map self.new.dax.ranges)) }
        ensures rounds { KeepsRounds (R.map self.old.dax.ranges) result (R.map self.new.dax.ranges) }
        ensures refusals { KeepsRefusals (F.board self.old.dax.files) (F.board self.new.dax.files) }
        ensures quiet { (R.map self.old.dax.ranges).ranges.others ≡ false → (F.board self.old.dax.files).plain ≡ true → off + length bytes.now ≤ size_of (file_at (F.board self.old.dax.files) file) → ArePlaced (log_at (R.map self.old.dax.ranges) file) off (length bytes.now) modes.W → self.new.dax.driver ≡ self.old.dax.driver }
        ensures refs { self.new.dax.refs ≡ self.old.dax.refs }
        ensures holds { self.new.holds ≡ self.old.holds }
    {
        self.dax.files.sound(file);
        let seen = self.dax.files.lease(rt, file);
        let end = off + bytes.len() as u64;
        if end > seen {
            self.dax.files.unlease(file);
            let way = Way::ReqSaw(seen);
            return self.send_write(rt, alloc, call, file, off, bytes, way);
        }
        let written = self.write_through(rt, alloc, call, file, off, bytes);
        self.dax.files.unlease(file);
        written
    }

    /// Writes these bytes to a file from the byte `off` on.
    ///
    /// Without ranges it is a request, WRITE, and its entry has the way `Req`. With ranges the file is
    /// leased first, and its size noted. A write that ends above that size is a request with the way
    /// `ReqSaw` of the size, for which the lease is given back. Any other goes through the window, and no
    /// WRITE is sent: each chunk of the interval is pinned, and placed for writing where it isn't yet; the
    /// write is applied to the file that the pinned ranges show, with the way `Via`; the pins and the lease
    /// are given back. Where each chunk is placed for writing, the board of files is a plain one, the write
    /// ends at most at the file's size, and no other board moves ranges, nothing is sent.
    ///
    /// There are from 1 byte to 1 MiB of them, and the interval ends at most at 64 MiB. Two pins more and
    /// one lease more must be allowed, where there are ranges, and no bar is had.
    ///
    /// # Errors
    ///
    /// As [`read`](Guest::read).
    pub fn write<T: Wait>(
        &mut self,
        rt: &T,
        alloc: Global,
        call: u32,
        file: u32,
        off: u64,
        bytes: &[u8],
    ) -> Result<Done, Refusal>
        requires home { IsHome (stand (W.wire self.old.dax.driver.wire) (F.board self.old.dax.files) (R.map self.old.dax.ranges)) self.old.dax.refs }
        requires file { file < length self.old.dax.refs }
        requires some { 0 < length bytes.now }
        requires most { length bytes.now ≤ max_transfer }
        requires end { off + length bytes.now ≤ max_file }
        requires tree { (R.map self.old.dax.ranges).hands.tree ≡ None }
        requires moves { (R.map self.old.dax.ranges).hands.moves ≡ None }
        requires few { sum (R.map self.old.dax.ranges).hands.pins + 1 < max_pins }
        requires looks { NoLooks (R.map self.old.dax.ranges) }
        requires may { 0 < range_count (R.map self.old.dax.ranges) → (F.board self.old.dax.files).may_lease ≡ true }
        requires bar { (F.board self.old.dax.files).hands.bar ≡ None }
        requires leases { sum (F.board self.old.dax.files).hands.leases < 64 }
        ensures home { IsHome (stand (W.wire self.new.dax.driver.wire) (F.board self.new.dax.files) (R.map self.new.dax.ranges)) self.new.dax.refs }
        ensures leaves { LeavesAll (stand (W.wire self.old.dax.driver.wire) (F.board self.old.dax.files) (R.map self.old.dax.ranges)) (stand (W.wire self.new.dax.driver.wire) (F.board self.new.dax.files) (R.map self.new.dax.ranges)) }
        ensures writes { Writes (stand (W.wire self.old.dax.driver.wire) (F.board self.old.dax.files) (R.map self.old.dax.ranges)) file call off bytes.now result (stand (W.wire self.new.dax.driver.wire) (F.board self.new.dax.files) (R.map self.new.dax.ranges)) }
        ensures rounds { KeepsRounds (R.map self.old.dax.ranges) result (R.map self.new.dax.ranges) }
        ensures refusals { KeepsRefusals (F.board self.old.dax.files) (F.board self.new.dax.files) }
        ensures quiet { 0 < range_count (R.map self.old.dax.ranges) → (R.map self.old.dax.ranges).ranges.others ≡ false → (F.board self.old.dax.files).plain ≡ true → off + length bytes.now ≤ size_of (file_at (F.board self.old.dax.files) file) → ArePlaced (log_at (R.map self.old.dax.ranges) file) off (length bytes.now) modes.W → self.new.dax.driver ≡ self.old.dax.driver }
        ensures refs { self.new.dax.refs ≡ self.old.dax.refs }
        ensures holds { self.new.holds ≡ self.old.holds }
    {
        let count = self.dax.ranges.ranges();
        if count == 0 {
            return self.send_write(rt, alloc, call, file, off, bytes, Way::Req);
        }
        self.write_leased(rt, alloc, call, file, off, bytes)
    }
}
