ghost use Rattle.std.specs.Prelude.{◌≡◌, ◌<◌, ◌≤◌, None, Some, length};
ghost use Rattle.plain_file.specs.File.{max_file};
ghost use Rattle.plain_file.specs.declared.operations.Op.TheVariants as ops;
ghost use Rattle.plain_file.specs.declared.operations.Way.TheVariants as ways;
ghost use Rattle.guest_wire.specs.Keeps.{KeepsPages};
ghost use Rattle.guest_dax.specs.Stands.{stand};
ghost use Rattle.guest_io.specs.Requests.{IsHome, SendsRest, Sends};
ghost use Rattle.guest_io.specs.Truncates.{Truncates, CountsRefusal};
ghost use Rattle.guest_io.specs.Going.{LeavesAll, KeepsRounds};

use crate::calls::{Done, Refusal};
use crate::guest::Guest;
use crate::requests::{enter_reply, ref_of, refusal_of};
use fuse_codec::Reply;
use guest_wire::Wire;
use plain_file::{FileTurns, Way};
use range_tree::RangeBoard;
use std::alloc::Global;
use std::sync::Wait;

impl<W, F: FileTurns, R: RangeBoard> Guest<W, F, R>
where
    W: Wire<F, R>,
{
    // Truncates a file, on which the bar is had, by a request: SETATTR.
    fn send_truncate<T: Wait>(
        &mut self,
        rt: &T,
        alloc: Global,
        call: u32,
        file: u32,
        size: u64,
    ) -> Result<Done, Refusal>
        requires home { IsHome (stand (W.wire self.old.dax.driver.wire) (F.board self.old.dax.files) (R.map self.old.dax.ranges)) self.old.dax.refs }
        requires file { file < length self.old.dax.refs }
        requires size { size ≤ max_file }
        requires bar { (F.board self.old.dax.files).hands.bar ≡ Some file }
        ensures home { IsHome (stand (W.wire self.new.dax.driver.wire) (F.board self.new.dax.files) (R.map self.new.dax.ranges)) self.new.dax.refs }
        ensures rest { SendsRest (stand (W.wire self.old.dax.driver.wire) (F.board self.old.dax.files) (R.map self.old.dax.ranges)) call ways.Req (stand (W.wire self.new.dax.driver.wire) (F.board self.new.dax.files) (R.map self.new.dax.ranges)) }
        ensures sends { Sends (stand (W.wire self.old.dax.driver.wire) (F.board self.old.dax.files) (R.map self.old.dax.ranges)) file call (ops.Truncate size) ways.Req result (stand (W.wire self.new.dax.driver.wire) (F.board self.new.dax.files) (R.map self.new.dax.ranges)) }
        ensures refs { self.new.dax.refs ≡ self.old.dax.refs }
        ensures holds { self.new.holds ≡ self.old.holds }
    {
        let at = ref_of(&self.dax.refs, file);
        self.dax.files.sound(file);
        let before = self.dax.files.own_last(file);
        self.dax.files.mark(call, Way::Req);
        let sent = self.dax.driver.setattr_size(
            rt,
            alloc,
            at,
            size,
            &mut self.dax.files,
            &mut self.dax.ranges,
        );
        self.dax.files.sound(file);
        match sent {
            Ok(out) => {
                let unique = self.dax.driver.unique;
                let reply = Reply::Attr(out);
                enter_reply(alloc, &self.dax.files, file, before, unique, reply)
            }
            Err(refusal) => Err(refusal_of(refusal)),
        }
    }

    /// Sets the size of a file, lower or higher, in bytes, at most 64 MiB: the bar on the file is taken, which
    /// no lease outlasts, then it is a request, SETATTR, whose entry has the way `Req`, and the bar is given
    /// back. No bar is had before. It waits while another guest has the bar.
    ///
    /// # Errors
    ///
    /// `Leased` comes exactly where leases were seen on the file, the guest's own holds among them, and tells
    /// how many; nothing was sent then. `Errno`, `BadReply` and `WireFault` never come over an honest wire.
    /// `BadReply` comes also where the request succeeded and the board has no new entry in the file: its bytes
    /// are those of the reply. `Memory` comes where an allocation was refused: over an honest wire the call's
    /// entry was made, or nothing. After each as much is pinned, leased, barred, had and moved as before.
    pub fn truncate<T: Wait>(
        &mut self,
        rt: &T,
        alloc: Global,
        call: u32,
        file: u32,
        size: u64,
    ) -> Result<Done, Refusal>
        requires home { IsHome (stand (W.wire self.old.dax.driver.wire) (F.board self.old.dax.files) (R.map self.old.dax.ranges)) self.old.dax.refs }
        requires file { file < length self.old.dax.refs }
        requires size { size ≤ max_file }
        requires bar { (F.board self.old.dax.files).hands.bar ≡ None }
        ensures home { IsHome (stand (W.wire self.new.dax.driver.wire) (F.board self.new.dax.files) (R.map self.new.dax.ranges)) self.new.dax.refs }
        ensures leaves { LeavesAll (stand (W.wire self.old.dax.driver.wire) (F.board self.old.dax.files) (R.map self.old.dax.ranges)) (stand (W.wire self.new.dax.driver.wire) (F.board self.new.dax.files) (R.map self.new.dax.ranges)) }
        ensures map { KeepsPages (R.map self.old.dax.ranges) (R.map self.new.dax.ranges) }
        ensures truncates { Truncates (stand (W.wire self.old.dax.driver.wire) (F.board self.old.dax.files) (R.map self.old.dax.ranges)) file call size result (stand (W.wire self.new.dax.driver.wire) (F.board self.new.dax.files) (R.map self.new.dax.ranges)) }
        ensures rounds { KeepsRounds (R.map self.old.dax.ranges) result (R.map self.new.dax.ranges) }
        ensures refusals { CountsRefusal (F.board self.old.dax.files) result (F.board self.new.dax.files) }
        ensures refs { self.new.dax.refs ≡ self.old.dax.refs }
        ensures holds { self.new.holds ≡ self.old.holds }
    {
        match self.dax.break_file(rt, file) {
            Ok(()) => {}
            Err(leased) => return Err(Refusal::Leased {
                count: leased.count,
            }),
        }
        let sent = self.send_truncate(rt, alloc, call, file, size);
        self.dax.files.unbar(file);
        sent
    }
}
