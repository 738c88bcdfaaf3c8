ghost use Rattle.std.specs.Prelude.{◌≡◌, ◌<◌, ◌≤◌, ◌^◌, ℕ, length, true, Result, Ok, IsSome, IfOk, Some};
ghost use Rattle.plain_file.specs.Limits.{max_part};
ghost use Rattle.fuse_codec.specs.Grammar.{kind_of, is_bounded};
ghost use Rattle.fuse_codec.specs.Opcodes.{reply_form};
ghost use Rattle.fuse_codec.specs.Replies.{answered, form_of, HasForm};
ghost use Rattle.fuse_codec.specs.ReplyReading.{reply_of, GivesReply};
ghost use Rattle.fuse_codec.specs.Reading.{message_of};
ghost use Rattle.fuse_codec.specs.declared.errors.BadReply.{BadReply};
ghost use Rattle.fuse_codec.specs.declared.messages.Message.{Message};
ghost use Rattle.fuse_codec.specs.declared.opcodes.ReplyForm.{ReplyForm};
ghost use Rattle.fuse_codec.specs.declared.replies.Reply.{Reply};
ghost use Rattle.fuse_device.specs.Steps.{wanted_room};
ghost use Rattle.guest_wire.specs.Wires.{boards, CanSubmit, KeepsWire};
ghost use Rattle.guest_wire.specs.Keeps.{KeepsBoards};
ghost use Rattle.guest_wire.specs.Requests.{next_number, head, message, CanAsk};
ghost use Rattle.guest_wire.specs.Answers.{Answers, SaysItself, IsSpelled, JudgesOrNot, IsSuccessOrErrno, heard_as, numbered};

use crate::wires::{Wire, WireError, WireRefusal};
use fuse_codec::{BadReply, Head, Message, Opcode, Reply, Request, decode_reply, encode_request};
use fuse_device::wanted_room;
use page_map::MapBoard;
use plain_file::{Blob, FileBoard, Memory};
use std::alloc::Global;
use std::sync::Wait;

/// An open file: a node and the number of a handle of it.
#[derive(Clone, Copy, Debug, PartialEq, Eq)]
pub struct FileRef {
    /// The file's node.
    pub node: u64,
    /// The handle's number.
    pub fh: u64,
}

/// The client. Each call sends one request with the next number, from 1 on and after the last u64 from 1
/// again, which is used up whatever is answered. The request is sent once, whatever comes of it, and
/// only where memory for its bytes was refused not at all. What a call answers is told by what came of
/// the request, which is what the wire gives for it. A call waits where its wire does.
///
/// Where the wire is honest, the boards serve the request. Over a wire to the whole daemon that is what
/// `Daemon::serve` asks for: each made file is on the board, ready, and the map has as many pages as the
/// daemon. Over one to a daemon that stays as it is, no file has to be ready, but no turn is had. Over an
/// honest wire the bytes, the daemon and the boards afterwards are the daemon's step at the request.
/// Whatever is answered, boards keep what [`Wire::submit`] keeps.
///
/// # Errors
///
/// A call answers a value exactly where the bytes received are a success of the request's form with its
/// number, within the room that the request's reply wants. Of [`WireRefusal`], `Errno` comes exactly
/// where they are an error's reply with its number, within the room; `BadReply` exactly where they
/// don't decode, have another number, or are more than the room, and never over an honest wire.
/// `WireFault` comes only where the wire's count of faults rose or stands at its last value, and never
/// over an honest wire. `Memory` comes where an allocation was refused: the request may have been
/// carried out, over an honest wire as the device's step or not at all.
#[derive(Debug, Drop)]
pub struct Driver<W> {
    /// What carries the requests.
    pub wire: W,
    /// The number of the last request, 0 before the first.
    pub unique: u64,
}

impl<W> Driver<W> {
    /// A client that sent nothing yet.
    pub fn new(wire: W) -> Driver<W>
        ensures { result ≡ record { wire = wire; unique = 0 } }
    {
        Driver { wire, unique: 0 }
    }

    // The next request's number.
    pub(crate) fn next_unique(&mut self) -> u64
        ensures value { result ≡ next_number self.old.unique }
        ensures kept { self.new ≡ record self.old { unique = result } }
    {
        self.unique = if self.unique == u64::MAX {
            1
        } else {
            self.unique + 1
        };
        self.unique
    }

    // Sends one message, and judges the bytes that were received for it.
    pub(crate) fn ask<R: Wait, F: FileBoard, M: MapBoard>(
        &mut self,
        rt: &R,
        alloc: Global,
        unique: u64,
        node: u64,
        body: Request,
        files: &mut F,
        map: &mut M,
    ) -> Result<Reply, WireRefusal>
    where
        W: Wire<F, M>,
        requires bounded { is_bounded body ≡ true }
        requires answered { IsSome (answered (reply_form (kind_of body))) }
        requires room { wanted_room body ≤ max_part }
        requires boards { CanAsk (W.wire self.old.wire) (boards (F.board files.old) (M.map map.old)) body }
        ensures answer { Answers W.wire W.gives SaysItself self.old.wire (boards (F.board files.old) (M.map map.old)) (message unique node body) result self.new.wire (boards (F.board files.new) (M.map map.new)) }
        ensures form { IfOk result (λ reply. form_of reply ≡ Some (reply_form (kind_of body))) }
        ensures number { self.new.unique ≡ self.old.unique }
        ensures wire { KeepsWire (W.wire self.old.wire) (W.wire self.new.wire) }
        ensures boards { KeepsBoards (boards (F.board files.old) (M.map map.old)) (boards (F.board files.new) (M.map map.new)) }
    {
        let head = head_of(unique, node);
        let message = Message { head, body };
        let request = spell(alloc, &message)?;
        self.send(rt, alloc, &request, files, map)
    }

    // Sends a message's bytes, and judges those that were received for it.
    pub(crate) fn send<R: Wait, F: FileBoard, M: MapBoard>(
        &mut self,
        rt: &R,
        alloc: Global,
        request: &Spelled,
        files: &mut F,
        map: &mut M,
    ) -> Result<Reply, WireRefusal>
    where
        W: Wire<F, M>,
        requires answered { IsSome (answered (reply_form request.now.opcode)) }
        requires readable { length request.now.bytes ≤ max_part }
        requires room { request.now.room ≤ max_part }
        requires boards { CanSubmit (W.wire self.old.wire) (boards (F.board files.old) (M.map map.old)) request.now.bytes }
        ensures answer { (m : Message) → IsSpelled m request.now → Answers W.wire W.gives SaysItself self.old.wire (boards (F.board files.old) (M.map map.old)) m result self.new.wire (boards (F.board files.new) (M.map map.new)) }
        ensures form { IfOk result (λ reply. form_of reply ≡ Some (reply_form request.now.opcode)) }
        ensures number { self.new.unique ≡ self.old.unique }
        ensures wire { KeepsWire (W.wire self.old.wire) (W.wire self.new.wire) }
        ensures boards { KeepsBoards (boards (F.board files.old) (M.map map.old)) (boards (F.board files.new) (M.map map.new)) }
    {
        let bytes = request.bytes.as_slice();
        match self.wire.submit(rt, alloc, bytes, request.room, files, map) {
            Ok(bytes) => hear(alloc, request, bytes),
            Err(WireError::Fault) => Err(WireRefusal::WireFault),
            Err(WireError::Memory) => Err(WireRefusal::Memory),
        }
    }
}

// A message as it is sent: its bytes, and what its reply is known by.
#[derive(Debug, Drop)]
pub(crate) struct Spelled {
    pub unique: u64,
    pub opcode: Opcode,
    pub room: u32,
    pub bytes: Blob,
}

// The head of a request from nobody in particular.
pub(crate) fn head_of(unique: u64, node: u64) -> Head
    ensures { result ≡ head unique node }
{
    Head {
        unique,
        nodeid: node,
        uid: 0,
        gid: 0,
        pid: 0,
    }
}

// A message as it is sent.
fn spell(alloc: Global, message: &Message) -> Result<Spelled, Memory>
    requires bounded { is_bounded message.now.body ≡ true }
    requires room { wanted_room message.now.body ≤ max_part }
    ensures spelled { IfOk result (λ s. IsSpelled message.now s) }
    ensures again { IfOk result (λ s. message_of s.bytes ≡ Ok message.now) }
{
    let bytes = encode_request(alloc, message)?;
    Ok(Spelled {
        unique: message.head.unique,
        opcode: message.body.opcode(),
        room: wanted_room(&message.body) as u32,
        bytes,
    })
}

// What bytes say to a request: a success, or why they are none.
#[tactic(auto, unfolding(crate::specs::Answers::heard_as))]
fn hear(alloc: Global, request: &Spelled, bytes: Blob) -> Result<Reply, WireRefusal>
    requires answered { IsSome (answered (reply_form request.now.opcode)) }
    ensures heard { JudgesOrNot (heard_as request.now.unique request.now.opcode request.now.room bytes) bytes result }
    ensures form { IfOk result (λ reply. form_of reply ≡ Some (reply_form request.now.opcode)) }
{
    if bytes.len() > request.room as usize {
        return Err(WireRefusal::BadReply { bytes });
    }
    let decoded = decode(alloc, request.opcode, bytes.as_slice());
    judge(request.unique, decoded, bytes)
}

// The reply to an operation that bytes are.
fn decode(alloc: Global, opcode: Opcode, bytes: &[u8]) -> Result<(u64, Reply), BadReply>
    requires answered { IsSome (answered (reply_form opcode)) }
    requires small { length bytes.now < 2 ^ 32 }
    ensures read { GivesReply result (reply_of (reply_form opcode) bytes.now) }
    ensures form { IfOk result (λ answer. HasForm (reply_form opcode) answer.1) }
{
    decode_reply(alloc, opcode.number(), bytes)
}

// Takes a reply to the request of this number, which the bytes were decoded to.
#[tactic(auto, unfolding(crate::specs::Answers::numbered))]
fn judge(
    unique: u64,
    decoded: Result<(u64, Reply), BadReply>,
    bytes: Blob,
) -> Result<Reply, WireRefusal>
    ensures judged { (read : Result (ℕ × Reply) BadReply) → GivesReply decoded read → JudgesOrNot (numbered unique read) bytes result }
    ensures form { (form : ReplyForm) → IfOk decoded (λ answer. HasForm form answer.1) → IfOk result (λ reply. form_of reply ≡ Some form) }
{
    match decoded {
        Ok((number, reply)) => {
            if number != unique {
                return Err(WireRefusal::BadReply { bytes });
            }
            success_of(reply)
        }
        Err(BadReply::Memory) => Err(WireRefusal::Memory),
        Err(
            BadReply::Short | BadReply::Length { .. } | BadReply::ErrorCode { .. } | BadReply::Body,
        ) => Err(WireRefusal::BadReply { bytes }),
    }
}

// A success, or the error's number.
#[tactic(auto, unfolding(fuse_codec::specs::Replies::form_of))]
fn success_of(reply: Reply) -> Result<Reply, WireRefusal>
    ensures value { IsSuccessOrErrno reply result }
    ensures success { IfOk result (λ r. IsSome (form_of r)) }
{
    match reply {
        Reply::Error { number } => Err(WireRefusal::Errno { number }),
        reply => Ok(reply),
    }
}
