ghost use Rattle.std.specs.Prelude.{◌≡◌, IfOk};
ghost use Rattle.page_map.specs.Board.{MapView};
ghost use Rattle.plain_file.specs.Board.{BoardView};
ghost use Rattle.fuse_device.specs.Requests.{init};
ghost use Rattle.fuse_device.specs.Promises.{Gives, IsWithin, world};

use crate::daemon::Daemon;
use fuse_codec::Reply;
use fuse_device::{Refused, init_out, session_flags};
use fuse_wire::{Errno, InitIn};

impl Daemon {
    // INIT.
    #[tactic(auto, using(fuse_codec::proofs::CleanReplies::body_sizes), unfolding(fuse_device::specs::Requests::init, fuse_codec::specs::Replies::reply_parts, fuse_codec::specs::Replies::is_reply))]
    pub(crate) fn init(&mut self, r: &InitIn) -> Result<Reply, Refused>
        ensures answer { (files : BoardView) (map : MapView) → Gives (world self.old files map) (init (world self.old files map) r.now) result (world self.new files map) }
        ensures room { IfOk result (λ reply. IsWithin 80 reply) }
    {
        if r.major != 7 || r.minor < 31 {
            return Err(Refused::Errno(Errno::EPROTO));
        }
        let flags = session_flags(self.pages(), r);
        self.begin();
        Ok(Reply::Init(init_out(flags, r)))
    }
}
