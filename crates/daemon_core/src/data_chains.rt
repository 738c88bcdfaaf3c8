ghost use Rattle.std.specs.Prelude.{◌≡◌, ◌≤◌, length, true, IfOk, OnOk, OnErr};
ghost use Rattle.plain_file.specs.Limits.{max_part};
ghost use Rattle.fuse_codec.specs.Grammar.{is_bounded};
ghost use Rattle.fuse_device.specs.Steps.{wanted_room, replied};
ghost use Rattle.fuse_device.specs.DataSteps.{data_answered, data_judged_message, data_step, CanServeData, CanStepData};
ghost use Rattle.fuse_device.specs.Plans.{IsBoundedPlan, CanServePlan, plan_step};
ghost use Rattle.fuse_device.specs.Promises.{Gives, IsWithin, Steps, world};

use crate::daemon::Daemon;
use fuse_codec::{Message, Reply, Request, put_reply};
use fuse_device::{Plan, Refused, is_data, plan_chain, put_error, refusal, wanted_room, with_room};
use fuse_wire::Errno;
use page_map::MapBoard;
use plain_file::{Blob, FileBoard, Memory};
use std::alloc::Global;

impl Daemon {
    // A request for a file's bytes or attributes or for the window, once the session is started.
    #[tactic(auto, unfolding(fuse_device::specs::Requests::answered, fuse_device::specs::DataSteps::is_data, fuse_device::specs::DataSteps::is_on_file, fuse_codec::specs::Grammar::is_bounded, fuse_codec::specs::Grammar::kind_of, fuse_codec::specs::Grammar::asked, fuse_codec::specs::Grammar::form_room, fuse_codec::specs::Opcodes::reply_form))]
    pub(crate) fn answer_data<F: FileBoard, M: MapBoard>(
        &self,
        alloc: Global,
        node: u64,
        body: Request,
        files: &mut F,
        map: &mut M,
    ) -> Result<Reply, Refused>
        requires bounded { is_bounded body ≡ true }
        requires boards { CanServeData self.now (F.board files.old) (M.map map.old) node body }
        ensures answer { Gives (world self.now (F.board files.old) (M.map map.old)) (data_answered (world self.now (F.board files.old) (M.map map.old)) node body) result (world self.now (F.board files.new) (M.map map.new)) }
        ensures room { IfOk result (λ reply. IsWithin (wanted_room body) reply) }
        ensures files { length (F.board files.new).files ≡ length (F.board files.old).files }
        ensures pages { length (M.map map.new).table ≡ length (M.map map.old).table }
    {
        match body {
            Request::Getattr(r) => self.getattr(alloc, node, &r, files),
            Request::Setattr(r) => self.setattr(alloc, node, &r, files),
            Request::Read(r) => self.read(alloc, node, &r, files),
            Request::Write { head, bytes } => self.write(alloc, node, &head, bytes, files),
            Request::Fsync(r) => self.sync(node, r.fh),
            Request::Flush(r) => self.sync(node, r.fh),
            Request::Setup(r) => self.setup(node, &r, map),
            Request::Remove { ones } => self.remove(ones.as_slice(), map),
            _ => Err(Refused::Errno(Errno::ENOSYS)),
        }
    }

    // Judges the operation, the session and the room for the reply, then serves the request.
    #[tactic(auto, unfolding(fuse_device::specs::DataSteps::is_data, fuse_device::specs::DataSteps::data_judged_message, fuse_device::specs::Requests::is_init, fuse_device::specs::Requests::served, fuse_device::specs::Steps::judged_message))]
    fn judge_data<F: FileBoard, M: MapBoard>(
        &self,
        alloc: Global,
        message: Message,
        room: u32,
        files: &mut F,
        map: &mut M,
    ) -> Result<Reply, Refused>
        requires bounded { is_bounded message.body ≡ true }
        requires boards { CanServeData self.now (F.board files.old) (M.map map.old) message.head.nodeid message.body }
        ensures answer { Gives (world self.now (F.board files.old) (M.map map.old)) (data_judged_message (world self.now (F.board files.old) (M.map map.old)) room message) result (world self.now (F.board files.new) (M.map map.new)) }
        ensures room { IfOk result (λ reply. IsWithin (wanted_room message.body) reply) }
    {
        let Message { head, body } = message;
        if !is_data(&body) {
            return Err(Refused::Errno(Errno::ENOSYS));
        }
        if !self.is_started() {
            return Err(Refused::Errno(Errno::EIO));
        }
        if (room as u64) < wanted_room(&body) {
            return Err(Refused::Errno(Errno::EINVAL));
        }
        self.answer_data(alloc, head.nodeid, body, files, map)
    }

    // The bytes that answer a request. They have their place before anything is done.
    #[tactic(auto, using(fuse_codec::proofs::CleanReplies::reply_bound), unfolding(fuse_device::specs::Steps::reply_to))]
    fn answer_data_message<F: FileBoard, M: MapBoard>(
        &self,
        alloc: Global,
        message: Message,
        room: u32,
        files: &mut F,
        map: &mut M,
    ) -> Result<Blob, Memory>
        requires bounded { is_bounded message.body ≡ true }
        requires boards { CanServeData self.now (F.board files.old) (M.map map.old) message.head.nodeid message.body }
        ensures { Steps (world self.now (F.board files.old) (M.map map.old)) (replied message.head.unique (data_judged_message (world self.now (F.board files.old) (M.map map.old)) room message)) result (world self.now (F.board files.new) (M.map map.new)) }
    {
        let unique = message.head.unique;
        let mut out = with_room(alloc, &message.body)?;
        match self.judge_data(alloc, message, room, files, map) {
            Ok(reply) => put_reply(&mut out, &reply, unique),
            Err(Refused::Errno(error)) => put_error(&mut out, error, unique),
            Err(Refused::Memory) => return Err(Memory),
        }
        Ok(Blob::from_vec(out))
    }

    /// Serves the plan of a chain as a daemon that several queues share and that stays as it is: with
    /// the plan that [`plan_chain`](fuse_device::plan_chain) makes of a readable part and this room,
    /// it is [`serve_chain_data`](Daemon::serve_chain_data) of that part and room.
    ///
    /// The plan's message, where it has one, is one that bytes can say, as `plan_chain` gives it. Each
    /// made file is on the board of files, and the map has as many pages as the daemon. The file that
    /// [`plan_file`](Daemon::plan_file) gives is ready, if it gives one; no other one has to be.
    ///
    /// `Memory` comes only from a refused allocation, and nothing has changed then.
    #[tactic(auto, using(fuse_device::proofs::Planning::plan_serves), unfolding(fuse_device::specs::Plans::plan_step))]
    pub fn serve_plan<F: FileBoard, M: MapBoard>(
        &self,
        alloc: Global,
        plan: Plan,
        room: u32,
        files: &mut F,
        map: &mut M,
    ) -> Result<Blob, Memory>
        requires bounded { IsBoundedPlan plan }
        requires boards { CanServePlan self.now (F.board files.old) (M.map map.old) plan }
        ensures reply { IfOk result (λ b. b ≡ (plan_step (world self.now (F.board files.old) (M.map map.old)) plan room).1) }
        ensures step { OnOk result (world self.now (F.board files.new) (M.map map.new) ≡ (plan_step (world self.now (F.board files.old) (M.map map.old)) plan room).0) }
        ensures memory { OnErr result (world self.now (F.board files.new) (M.map map.new) ≡ world self.now (F.board files.old) (M.map map.old)) }
    {
        match plan {
            Plan::Silent => Ok(Blob::new(alloc)),
            Plan::Refuse { error, unique } => refusal(alloc, error, unique),
            Plan::Carry(message) => self.answer_data_message(alloc, message, room, files, map),
        }
    }

    /// Serves one chain of a virtio-fs queue as a daemon that several queues share and that stays as it
    /// is: [`serve_chain`](Daemon::serve_chain) for READ, WRITE, GETATTR, SETATTR, FSYNC, FLUSH,
    /// SETUPMAPPING and REMOVEMAPPING. `readable` is the readable part of at most `MAX_PART` bytes, and
    /// `room` is how many bytes the writable part has.
    ///
    /// Every other operation that has a reply is answered `ENOSYS`, where its body is well formed; this
    /// comes before the session and the room for its reply are looked at. FORGET and BATCH_FORGET do
    /// nothing and are answered no bytes. What is no request is refused as ever.
    ///
    /// Each made file is on the board of files, and the map has as many pages as the daemon. The file
    /// that [`named_file`](Daemon::named_file) gives for the same bytes is ready, if it gives one; no
    /// other one has to be.
    ///
    /// `Memory` comes only from a refused allocation, and nothing has changed then.
    #[tactic(auto, using(fuse_device::proofs::Planning::data_step_planned, fuse_device::proofs::Planning::step_serves_plan))]
    pub fn serve_chain_data<F: FileBoard, M: MapBoard>(
        &self,
        alloc: Global,
        readable: &[u8],
        room: u32,
        files: &mut F,
        map: &mut M,
    ) -> Result<Blob, Memory>
        requires within { length readable.now ≤ max_part }
        requires boards { CanStepData self.now (F.board files.old) (M.map map.old) readable.now }
        ensures reply { IfOk result (λ b. b ≡ (data_step (world self.now (F.board files.old) (M.map map.old)) readable.now room).1) }
        ensures step { OnOk result (world self.now (F.board files.new) (M.map map.new) ≡ (data_step (world self.now (F.board files.old) (M.map map.old)) readable.now room).0) }
        ensures memory { OnErr result (world self.now (F.board files.new) (M.map map.new) ≡ world self.now (F.board files.old) (M.map map.old)) }
    {
        let plan = plan_chain(alloc, readable, room)?;
        self.serve_plan(alloc, plan, room, files, map)
    }
}
