ghost use Rattle.std.specs.Prelude.{◌≡◌, ◌<◌, ◌≤◌, ◌+◌, ℕ, true, Some, length};
ghost use Rattle.plain_file.specs.File.{max_file};
ghost use Rattle.plain_file.specs.Limits.{max_transfer};
ghost use Rattle.plain_file.specs.Board.{file_at};
ghost use Rattle.plain_file.specs.declared.operations.Op.TheVariants as ops;
ghost use Rattle.plain_file.specs.declared.operations.Way.TheVariants as ways;
ghost use Rattle.fuse_codec.specs.Replies.{is_reply};
ghost use Rattle.guest_dax.specs.Stands.{stand, ref_at};
ghost use Rattle.guest_io.specs.Requests.{IsHome, IsEntered, IsNotDone, answer_in, SendsRest, Sends, IsRefusalOf};
ghost use Rattle.guest_io.specs.Going.{LeavesAll, KeepsRounds, KeepsRefusals};

use crate::calls::{Done, Refusal};
use crate::guest::Guest;
use fuse_codec::{Reply, encode_reply};
use fuse_wire::WriteOut;
use guest_wire::{FileRef, Wire, WireRefusal};
use plain_file::{Answer, FileBoard, FileTurns, List, Op, Way};
use range_tree::RangeBoard;
use std::alloc::Global;
use std::sync::Wait;

// The reference to a file.
pub(crate) fn ref_of(refs: &List<FileRef>, file: u32) -> FileRef
    requires { file < length refs.now }
    ensures { result ≡ ref_at refs.now file }
{
    refs.as_slice()[file as usize]
}

// The refusal of a request as one of this crate.
pub(crate) fn refusal_of(refusal: WireRefusal) -> Refusal
    ensures { IsRefusalOf refusal result }
{
    match refusal {
        WireRefusal::Errno { number } => Refusal::Errno { number },
        WireRefusal::BadReply { bytes } => Refusal::BadReply { bytes },
        WireRefusal::WireFault => Refusal::WireFault,
        WireRefusal::Memory => Refusal::Memory,
    }
}

// What a reply says of its operation.
#[tactic(auto, unfolding(crate::specs::Requests::answer_in))]
fn answer_in(reply: Reply) -> Answer
    ensures { result ≡ answer_in reply }
{
    match reply {
        Reply::Bytes(bytes) => Answer::Bytes(bytes),
        Reply::Wrote(out) => Answer::Wrote(out.size as u64),
        Reply::Attr(out) => Answer::Size(out.attr.size),
        _ => Answer::Size(0),
    }
}

// What is answered where a request succeeded and nothing was done.
fn not_done(alloc: Global, unique: u64, reply: &Reply) -> Refusal
    requires { is_reply reply.now ≡ true }
    ensures { IsNotDone unique reply.now result }
{
    match encode_reply(alloc, reply, unique) {
        Ok(bytes) => Refusal::BadReply { bytes },
        Err(_) => Refusal::Memory,
    }
}

// What a reply comes to: done, where the file has a new entry of the board; else its bytes.
pub(crate) fn enter_reply<F: FileBoard>(
    alloc: Global,
    files: &F,
    file: u32,
    before: Option<u64>,
    unique: u64,
    reply: Reply,
) -> Result<Done, Refusal>
    requires file { file < length (F.board files.now).files }
    requires good { is_reply reply ≡ true }
    ensures { IsEntered (file_at (F.board files.now) file).own before unique reply result }
{
    if let Some(place) = files.own_last(file) {
        if before != Some(place) {
            return Ok(Done {
                place,
                answer: answer_in(reply),
            });
        }
    }
    Err(not_done(alloc, unique, &reply))
}

impl<W, F: FileTurns, R: RangeBoard> Guest<W, F, R>
where
    W: Wire<F, R>,
{
    /// The size of a file, by a request: GETATTR. Its entry has the way `Req`.
    ///
    /// # Errors
    ///
    /// `Errno`, `BadReply` and `WireFault` never come over an honest wire. `BadReply` comes also where the
    /// request succeeded and the board has no new entry in the file: its bytes are those of the reply. `Memory`
    /// comes where an allocation was refused: over an honest wire the call's entry was made, or nothing. After
    /// each as much is pinned, leased, barred, had and moved as before.
    pub fn size<T: Wait>(
        &mut self,
        rt: &T,
        alloc: Global,
        call: u32,
        file: u32,
    ) -> Result<Done, Refusal>
        requires home { IsHome (stand (W.wire self.old.dax.driver.wire) (F.board self.old.dax.files) (R.map self.old.dax.ranges)) self.old.dax.refs }
        requires file { file < length self.old.dax.refs }
        ensures home { IsHome (stand (W.wire self.new.dax.driver.wire) (F.board self.new.dax.files) (R.map self.new.dax.ranges)) self.new.dax.refs }
        ensures rest { SendsRest (stand (W.wire self.old.dax.driver.wire) (F.board self.old.dax.files) (R.map self.old.dax.ranges)) call ways.Req (stand (W.wire self.new.dax.driver.wire) (F.board self.new.dax.files) (R.map self.new.dax.ranges)) }
        ensures sends { Sends (stand (W.wire self.old.dax.driver.wire) (F.board self.old.dax.files) (R.map self.old.dax.ranges)) file call ops.Size ways.Req result (stand (W.wire self.new.dax.driver.wire) (F.board self.new.dax.files) (R.map self.new.dax.ranges)) }
        ensures leaves { LeavesAll (stand (W.wire self.old.dax.driver.wire) (F.board self.old.dax.files) (R.map self.old.dax.ranges)) (stand (W.wire self.new.dax.driver.wire) (F.board self.new.dax.files) (R.map self.new.dax.ranges)) }
        ensures rounds { KeepsRounds (R.map self.old.dax.ranges) result (R.map self.new.dax.ranges) }
        ensures refusals { KeepsRefusals (F.board self.old.dax.files) (F.board self.new.dax.files) }
        ensures refs { self.new.dax.refs ≡ self.old.dax.refs }
        ensures holds { self.new.holds ≡ self.old.holds }
    {
        let at = ref_of(&self.dax.refs, file);
        self.dax.files.sound(file);
        let before = self.dax.files.own_last(file);
        self.dax.files.mark(call, Way::Req);
        let sent = self
            .dax
            .driver
            .getattr(rt, alloc, at, &mut self.dax.files, &mut self.dax.ranges);
        self.dax.files.sound(file);
        match sent {
            Ok(out) => {
                let unique = self.dax.driver.unique;
                enter_reply(
                    alloc,
                    &self.dax.files,
                    file,
                    before,
                    unique,
                    Reply::Attr(out),
                )
            },
            Err(refusal) => Err(refusal_of(refusal)),
        }
    }

    // Reads a file by a request: READ.
    pub(crate) fn send_read<T: Wait>(
        &mut self,
        rt: &T,
        alloc: Global,
        call: u32,
        file: u32,
        off: u64,
        len: u32,
    ) -> Result<Done, Refusal>
        requires home { IsHome (stand (W.wire self.old.dax.driver.wire) (F.board self.old.dax.files) (R.map self.old.dax.ranges)) self.old.dax.refs }
        requires file { file < length self.old.dax.refs }
        requires some { 0 < len }
        requires most { len ≤ max_transfer }
        ensures home { IsHome (stand (W.wire self.new.dax.driver.wire) (F.board self.new.dax.files) (R.map self.new.dax.ranges)) self.new.dax.refs }
        ensures rest { SendsRest (stand (W.wire self.old.dax.driver.wire) (F.board self.old.dax.files) (R.map self.old.dax.ranges)) call ways.Req (stand (W.wire self.new.dax.driver.wire) (F.board self.new.dax.files) (R.map self.new.dax.ranges)) }
        ensures sends { Sends (stand (W.wire self.old.dax.driver.wire) (F.board self.old.dax.files) (R.map self.old.dax.ranges)) file call (ops.Read off len) ways.Req result (stand (W.wire self.new.dax.driver.wire) (F.board self.new.dax.files) (R.map self.new.dax.ranges)) }
        ensures refs { self.new.dax.refs ≡ self.old.dax.refs }
        ensures holds { self.new.holds ≡ self.old.holds }
    {
        let at = ref_of(&self.dax.refs, file);
        self.dax.files.sound(file);
        let before = self.dax.files.own_last(file);
        self.dax.files.mark(call, Way::Req);
        let sent = self.dax.driver.read(
            rt,
            alloc,
            at,
            off,
            len,
            &mut self.dax.files,
            &mut self.dax.ranges,
        );
        self.dax.files.sound(file);
        match sent {
            Ok(bytes) => {
                let unique = self.dax.driver.unique;
                let reply = Reply::Bytes(bytes);
                enter_reply(alloc, &self.dax.files, file, before, unique, reply)
            }
            Err(refusal) => Err(refusal_of(refusal)),
        }
    }

    // Writes to a file by a request: WRITE, with this way.
    pub(crate) fn send_write<T: Wait>(
        &mut self,
        rt: &T,
        alloc: Global,
        call: u32,
        file: u32,
        off: u64,
        bytes: &[u8],
        way: Way,
    ) -> Result<Done, Refusal>
        requires home { IsHome (stand (W.wire self.old.dax.driver.wire) (F.board self.old.dax.files) (R.map self.old.dax.ranges)) self.old.dax.refs }
        requires file { file < length self.old.dax.refs }
        requires some { 0 < length bytes.now }
        requires most { length bytes.now ≤ max_transfer }
        requires end { off + length bytes.now ≤ max_file }
        ensures home { IsHome (stand (W.wire self.new.dax.driver.wire) (F.board self.new.dax.files) (R.map self.new.dax.ranges)) self.new.dax.refs }
        ensures rest { SendsRest (stand (W.wire self.old.dax.driver.wire) (F.board self.old.dax.files) (R.map self.old.dax.ranges)) call way (stand (W.wire self.new.dax.driver.wire) (F.board self.new.dax.files) (R.map self.new.dax.ranges)) }
        ensures sends { Sends (stand (W.wire self.old.dax.driver.wire) (F.board self.old.dax.files) (R.map self.old.dax.ranges)) file call (ops.Write off bytes.now) way result (stand (W.wire self.new.dax.driver.wire) (F.board self.new.dax.files) (R.map self.new.dax.ranges)) }
        ensures refs { self.new.dax.refs ≡ self.old.dax.refs }
        ensures holds { self.new.holds ≡ self.old.holds }
    {
        let at = ref_of(&self.dax.refs, file);
        self.dax.files.sound(file);
        let before = self.dax.files.own_last(file);
        self.dax.files.mark(call, way);
        let sent = self.dax.driver.write(
            rt,
            alloc,
            at,
            off,
            bytes,
            &mut self.dax.files,
            &mut self.dax.ranges,
        );
        self.dax.files.sound(file);
        match sent {
            Ok(count) => {
                let unique = self.dax.driver.unique;
                let reply = Reply::Wrote(WriteOut { size: count });
                enter_reply(alloc, &self.dax.files, file, before, unique, reply)
            }
            Err(refusal) => Err(refusal_of(refusal)),
        }
    }
}
