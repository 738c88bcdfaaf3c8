ghost use Rattle.std.specs.Prelude.{◌≡◌, true, IfOk};
ghost use Rattle.page_map.specs.Board.{MapView};
ghost use Rattle.plain_file.specs.Board.{BoardView};
ghost use Rattle.fuse_device.specs.Checks.{may_open};
ghost use Rattle.fuse_device.specs.Requests.{opens, closes, open_file, open_dir, release, release_dir, sync, fallocate};
ghost use Rattle.fuse_device.specs.Promises.{Gives, IsWithin, world};

use crate::daemon::Daemon;
use fuse_codec::Reply;
use fuse_device::Refused;
use fuse_wire::Errno;

impl Daemon {
    // A new handle of a node.
    #[tactic(auto, using(fuse_codec::proofs::CleanReplies::body_sizes), unfolding(fuse_codec::specs::Replies::reply_parts, fuse_codec::specs::Replies::is_reply))]
    fn opens(&mut self, node: u64) -> Result<Reply, Refused>
        requires open { may_open self.old ≡ true }
        ensures answer { (files : BoardView) (map : MapView) → Gives (world self.old files map) (opens (world self.old files map) node) result (world self.new files map) }
        ensures room { IfOk result (λ reply. IsWithin 32 reply) }
    {
        let opened = self.open(node)?;
        Ok(Reply::Opened(opened))
    }

    // OPEN.
    #[tactic(auto, unfolding(fuse_device::specs::Requests::open_file))]
    pub(crate) fn open_file(&mut self, node: u64) -> Result<Reply, Refused>
        ensures answer { (files : BoardView) (map : MapView) → Gives (world self.old files map) (open_file (world self.old files map) node) result (world self.new files map) }
        ensures room { IfOk result (λ reply. IsWithin 32 reply) }
    {
        if !self.is_known(node) {
            return Err(Refused::Errno(Errno::ENOENT));
        }
        if node == 1 {
            return Err(Refused::Errno(Errno::EISDIR));
        }
        if !self.may_open() {
            return Err(Refused::Errno(Errno::EMFILE));
        }
        self.opens(node)
    }

    // OPENDIR.
    #[tactic(auto, unfolding(fuse_device::specs::Requests::open_dir))]
    pub(crate) fn open_dir(&mut self, node: u64) -> Result<Reply, Refused>
        ensures answer { (files : BoardView) (map : MapView) → Gives (world self.old files map) (open_dir (world self.old files map) node) result (world self.new files map) }
        ensures room { IfOk result (λ reply. IsWithin 32 reply) }
    {
        if !self.is_known(node) {
            return Err(Refused::Errno(Errno::ENOENT));
        }
        if node != 1 {
            return Err(Refused::Errno(Errno::ENOTDIR));
        }
        if !self.may_open() {
            return Err(Refused::Errno(Errno::EMFILE));
        }
        self.opens(node)
    }

    // A handle of a known node is closed.
    #[tactic(auto, unfolding(fuse_codec::specs::Replies::reply_parts, fuse_codec::specs::Replies::is_reply))]
    fn closes(&mut self, fh: u64) -> Result<Reply, Refused>
        ensures answer { (files : BoardView) (map : MapView) → Gives (world self.old files map) (closes (world self.old files map) fh) result (world self.new files map) }
        ensures room { IfOk result (λ reply. IsWithin 16 reply) }
    {
        self.close(fh);
        Ok(Reply::Done)
    }

    // RELEASE.
    #[tactic(auto, unfolding(fuse_device::specs::Requests::release))]
    pub(crate) fn release(&mut self, node: u64, fh: u64) -> Result<Reply, Refused>
        ensures answer { (files : BoardView) (map : MapView) → Gives (world self.old files map) (release (world self.old files map) node fh) result (world self.new files map) }
        ensures room { IfOk result (λ reply. IsWithin 16 reply) }
    {
        if !self.is_known(node) {
            return Err(Refused::Errno(Errno::ENOENT));
        }
        if node == 1 {
            return Err(Refused::Errno(Errno::EISDIR));
        }
        if !self.is_handle(fh, node) {
            return Err(Refused::Errno(Errno::EBADF));
        }
        self.closes(fh)
    }

    // RELEASEDIR.
    #[tactic(auto, unfolding(fuse_device::specs::Requests::release_dir))]
    pub(crate) fn release_dir(&mut self, node: u64, fh: u64) -> Result<Reply, Refused>
        ensures answer { (files : BoardView) (map : MapView) → Gives (world self.old files map) (release_dir (world self.old files map) node fh) result (world self.new files map) }
        ensures room { IfOk result (λ reply. IsWithin 16 reply) }
    {
        if !self.is_known(node) {
            return Err(Refused::Errno(Errno::ENOENT));
        }
        if node != 1 {
            return Err(Refused::Errno(Errno::ENOTDIR));
        }
        if !self.is_handle(fh, node) {
            return Err(Refused::Errno(Errno::EBADF));
        }
        self.closes(fh)
    }

    // FSYNC and FLUSH.
    #[tactic(auto, unfolding(fuse_device::specs::Requests::sync, fuse_codec::specs::Replies::reply_parts, fuse_codec::specs::Replies::is_reply))]
    pub(crate) fn sync(&self, node: u64, fh: u64) -> Result<Reply, Refused>
        ensures answer { (files : BoardView) (map : MapView) → Gives (world self.now files map) (sync (world self.now files map) node fh) result (world self.now files map) }
        ensures room { IfOk result (λ reply. IsWithin 16 reply) }
    {
        if !self.is_known(node) {
            return Err(Refused::Errno(Errno::ENOENT));
        }
        if node == 1 {
            return Err(Refused::Errno(Errno::EISDIR));
        }
        if !self.is_handle(fh, node) {
            return Err(Refused::Errno(Errno::EBADF));
        }
        Ok(Reply::Done)
    }

    // FALLOCATE is always refused.
    #[tactic(auto, unfolding(fuse_device::specs::Requests::fallocate))]
    pub(crate) fn fallocate(&self, node: u64, fh: u64) -> Result<Reply, Refused>
        ensures answer { (files : BoardView) (map : MapView) → Gives (world self.now files map) (fallocate (world self.now files map) node fh) result (world self.now files map) }
        ensures room { IfOk result (λ reply. IsWithin 16 reply) }
    {
        if !self.is_known(node) {
            return Err(Refused::Errno(Errno::ENOENT));
        }
        if node == 1 {
            return Err(Refused::Errno(Errno::EISDIR));
        }
        if !self.is_handle(fh, node) {
            return Err(Refused::Errno(Errno::EBADF));
        }
        Err(Refused::Errno(Errno::EOPNOTSUPP))
    }
}
