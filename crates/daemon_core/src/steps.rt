ghost use Rattle.std.specs.Prelude.{◌≡◌, ◌≤◌, ◌++◌, length, true, IfOk, OnOk, OnErr};
ghost use Rattle.plain_file.specs.Limits.{max_part};
ghost use Rattle.fuse_codec.specs.Grammar.{is_bounded};
ghost use Rattle.fuse_codec.specs.Reading.{message_of};
ghost use Rattle.fuse_device.specs.Steps.{wanted_room, judged_message, forgot, replied, device_step};
ghost use Rattle.fuse_device.specs.Promises.{Gives, IsWithin, CanServe, CanStep, world};

use crate::daemon::Daemon;
use fuse_codec::{BadRequest, Message, Reply, decode_request, put_reply};
use fuse_device::{
    Plan, Refused, is_forget_chain, is_init, plan_chain, put_error, reserve_reply, wanted_room,
};
use fuse_wire::Errno;
use page_map::MapBoard;
use plain_file::{Blob, FileBoard, Memory};
use std::alloc::Global;

impl Daemon {
    // Judges the session and the room for the reply, then serves the request, and appends the bytes that answer it.
    // They have their place before anything is done.
    #[tactic(auto, using(fuse_codec::proofs::CleanReplies::reply_bound), unfolding(fuse_device::specs::Steps::reply_to, fuse_device::specs::Steps::judged_message))]
    fn answer_message<F: FileBoard, M: MapBoard>(
        &mut self,
        alloc: Global,
        message: Message,
        room: u32,
        files: &mut F,
        map: &mut M,
        out: &mut Vec<u8>,
    ) -> Result<(), Memory>
        requires bounded { is_bounded message.body ≡ true }
        requires boards { CanServe self.old (F.board files.old) (M.map map.old) message.body }
        ensures reply { OnOk result (out.new.items ≡ out.old.items ++ (replied message.head.unique (judged_message (world self.old (F.board files.old) (M.map map.old)) room message)).1) }
        ensures step { OnOk result (world self.new (F.board files.new) (M.map map.new) ≡ (replied message.head.unique (judged_message (world self.old (F.board files.old) (M.map map.old)) room message)).0) }
        ensures memory { OnErr result (world self.new (F.board files.new) (M.map map.new) ≡ world self.old (F.board files.old) (M.map map.old)) }
        ensures same { OnErr result (out.new.items ≡ out.old.items) }
    {
        let unique = message.head.unique;
        reserve_reply(out, &message.body)?;
        if !self.is_started() && !is_init(&message.body) {
            put_error(out, Errno::EIO, unique);
            return Ok(());
        }
        if (room as u64) < wanted_room(&message.body) {
            put_error(out, Errno::EINVAL, unique);
            return Ok(());
        }
        let served = self.serve(alloc, message, files, map);
        match &served {
            Ok(reply) => {
                put_reply(out, reply, unique);
                Ok(())
            }
            Err(Refused::Errno(error)) => {
                put_error(out, *error, unique);
                Ok(())
            }
            Err(Refused::Memory) => Err(Memory),
        }
    }

    // Carries out what has no reply.
    #[tactic(auto, using(fuse_device::proofs::Decoded::decoded_bounded))]
    fn forget_chain<F: FileBoard, M: MapBoard>(
        &mut self,
        alloc: Global,
        readable: &[u8],
        files: &mut F,
        map: &mut M,
    ) -> Result<(), Memory>
        requires within { length readable.now ≤ max_part }
        requires boards { CanStep self.old (F.board files.old) (M.map map.old) readable.now }
        ensures ok { OnOk result (world self.new (F.board files.new) (M.map map.new) ≡ forgot (world self.old (F.board files.old) (M.map map.old)) (message_of readable.now)) }
        ensures err { OnErr result (world self.new (F.board files.new) (M.map map.new) ≡ world self.old (F.board files.old) (M.map map.old)) }
    {
        match decode_request(alloc, readable) {
            Ok(message) => match self.serve(alloc, message, files, map) {
                Err(Refused::Memory) => Err(Memory),
                Ok(_) | Err(Refused::Errno(_)) => Ok(()),
            },
            Err(BadRequest::Memory) => Err(Memory),
            Err(_) => Ok(()),
        }
    }

    /// Serves one chain of a virtio-fs queue. `readable` is its readable part, of at most `MAX_PART`
    /// bytes, and `room` is how many bytes its writable part has. The answer goes into the writable
    /// part from its front; no bytes mean that nothing is written.
    ///
    /// The first of these that is true decides:
    ///
    /// 1. `readable` is shorter than 40 bytes: no bytes, and nothing is done.
    /// 2. The opcode is FORGET (2) or BATCH_FORGET (42): no bytes. It is carried out where it is well
    ///    formed and the session is started.
    /// 3. `room` is below 16: no bytes, and nothing is done.
    /// 4. `len` of the header differs from the length of `readable`: `EINVAL`.
    /// 5. `total_extlen` isn't 0: `EINVAL`.
    /// 6. No operation has the opcode: `ENOSYS`.
    /// 7. The body isn't one of the operation's grammar: `EINVAL`.
    /// 8. The session isn't started, and the request isn't an INIT: `EIO`.
    /// 9. `room` is less than `Request::room` says: `EINVAL`.
    /// 10. One of the request's own checks fails: its error, as [`serve`](Daemon::serve) gives it.
    ///
    /// Otherwise the request is carried out, and the bytes are its reply. An error is a
    /// `fuse_out_header` alone, with the negative number; nothing has changed then. Both have the
    /// request's `unique`.
    ///
    /// The bytes are appended to `out`; what stood there before stays.
    ///
    /// Where the bytes are a request, the conditions of [`serve`](Daemon::serve) on the files and the
    /// map hold. `Memory` comes only from a refused allocation. Room for the reply is had before
    /// anything is done, so nothing has changed then, the bytes of `out` neither.
    #[tactic(auto, using(fuse_device::proofs::Planning::device_step_planned, fuse_device::proofs::Planning::device_step_forgot), unfolding(fuse_device::specs::Plans::whole_plan_step))]
    pub fn serve_chain_into<F: FileBoard, M: MapBoard>(
        &mut self,
        alloc: Global,
        readable: &[u8],
        room: u32,
        files: &mut F,
        map: &mut M,
        out: &mut Vec<u8>,
    ) -> Result<(), Memory>
        requires within { length readable.now ≤ max_part }
        requires boards { CanStep self.old (F.board files.old) (M.map map.old) readable.now }
        ensures reply { OnOk result (out.new.items ≡ out.old.items ++ (device_step (world self.old (F.board files.old) (M.map map.old)) readable.now room).1) }
        ensures step { OnOk result (world self.new (F.board files.new) (M.map map.new) ≡ (device_step (world self.old (F.board files.old) (M.map map.old)) readable.now room).0) }
        ensures memory { OnErr result (world self.new (F.board files.new) (M.map map.new) ≡ world self.old (F.board files.old) (M.map map.old)) }
        ensures same { OnErr result (out.new.items ≡ out.old.items) }
    {
        if is_forget_chain(readable) {
            self.forget_chain(alloc, readable, files, map)?;
            return Ok(());
        }
        match plan_chain(alloc, readable, room)? {
            Plan::Silent => Ok(()),
            Plan::Refuse { error, unique } => {
                out.reserve(16)?;
                put_error(out, error, unique);
                Ok(())
            }
            Plan::Carry(message) => self.answer_message(alloc, message, room, files, map, out),
        }
    }

    /// Serves one chain of a virtio-fs queue as [`serve_chain_into`](Daemon::serve_chain_into) does, and
    /// gives the bytes in a buffer of their own.
    ///
    /// `Memory` comes only from a refused allocation, and nothing has changed then.
    pub fn serve_chain<F: FileBoard, M: MapBoard>(
        &mut self,
        alloc: Global,
        readable: &[u8],
        room: u32,
        files: &mut F,
        map: &mut M,
    ) -> Result<Blob, Memory>
        requires within { length readable.now ≤ max_part }
        requires boards { CanStep self.old (F.board files.old) (M.map map.old) readable.now }
        ensures reply { IfOk result (λ b. b ≡ (device_step (world self.old (F.board files.old) (M.map map.old)) readable.now room).1) }
        ensures step { OnOk result (world self.new (F.board files.new) (M.map map.new) ≡ (device_step (world self.old (F.board files.old) (M.map map.old)) readable.now room).0) }
        ensures memory { OnErr result (world self.new (F.board files.new) (M.map map.new) ≡ world self.old (F.board files.old) (M.map map.old)) }
    {
        let mut out = Vec::new(alloc);
        self.serve_chain_into(alloc, readable, room, files, map, &mut out)?;
        Ok(Blob::from_vec(out))
    }
}
