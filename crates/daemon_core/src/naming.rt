ghost use Rattle.std.specs.Prelude.{◌≡◌, ◌<◌, length, true, IfOk, IfSome};
ghost use Rattle.page_map.specs.Board.{MapView};
ghost use Rattle.plain_file.specs.Board.{BoardView, IsReady, file_at, size_of, noted};
ghost use Rattle.fuse_device.specs.Checks.{may_open};
ghost use Rattle.fuse_device.specs.Entries.{entry_of};
ghost use Rattle.fuse_device.specs.Requests.{found, lookup, unlinked, unlink, opens_entry, makes_entry, created, create, forget, batch_forget};
ghost use Rattle.fuse_device.specs.Promises.{Gives, IsWithin, HasFiles, HasNext, world};

use crate::daemon::Daemon;
use fuse_codec::Reply;
use fuse_device::{Refused, has_flag, is_dots};
use fuse_wire::{CreateIn, EntryOut, Errno, ForgetOne};
use plain_file::{FileBoard, MAX_FILES, Name};

// O_EXCL: the file must not be there.
const EXCLUSIVE: u32 = 0o200;

impl Daemon {
    // A file's entry, of the size that the board sees.
    #[tactic(auto, using(crate::proofs::Noting::noted_length), unfolding(fuse_device::specs::State::is_made))]
    fn entry_of<F: FileBoard>(&self, i: usize, files: &mut F) -> EntryOut
        requires made { i < length self.now.made }
        requires there { i < length (F.board files.old).files }
        requires ready { IsReady (F.board files.old) i }
        ensures value { result ≡ entry_of self.now (F.board files.old) i }
        ensures noted { F.board files.new ≡ noted (F.board files.old) i (size_of (file_at (F.board files.old) i)) }
        ensures files { length (F.board files.new).files ≡ length (F.board files.old).files }
    {
        let number = self.number_of(i);
        let size = files.size_now(number);
        let node = number as u64 + 2;
        EntryOut {
            nodeid: node,
            generation: 0,
            entry_valid: 0,
            attr_valid: 0,
            entry_valid_nsec: 0,
            attr_valid_nsec: 0,
            attr: self.file_attr(node, size),
        }
    }

    // The file that was looked up, if there is one.
    #[tactic(auto, using(fuse_codec::proofs::CleanReplies::body_sizes), unfolding(fuse_codec::specs::Replies::reply_parts, fuse_codec::specs::Replies::is_reply))]
    fn found<F: FileBoard>(&mut self, i: Option<usize>, files: &mut F) -> Result<Reply, Refused>
        requires made { IfSome i (λ n. n < length self.old.made) }
        requires files { HasFiles self.old (F.board files.old) }
        ensures answer { (map : MapView) → Gives (world self.old (F.board files.old) map) (found i (world self.old (F.board files.old) map)) result (world self.new (F.board files.new) map) }
        ensures room { IfOk result (λ reply. IsWithin 144 reply) }
        ensures files { length (F.board files.new).files ≡ length (F.board files.old).files }
    {
        let Some(i) = i else {
            return Err(Refused::Errno(Errno::ENOENT));
        };
        let entry = self.entry_of(i, files);
        self.count_up(i);
        Ok(Reply::Entry(entry))
    }

    // LOOKUP.
    #[tactic(auto, unfolding(fuse_device::specs::Requests::lookup))]
    pub(crate) fn lookup<F: FileBoard>(
        &mut self,
        node: u64,
        name: &[u8],
        files: &mut F,
    ) -> Result<Reply, Refused>
        requires files { HasFiles self.old (F.board files.old) }
        ensures answer { (map : MapView) → Gives (world self.old (F.board files.old) map) (lookup (world self.old (F.board files.old) map) node name.now) result (world self.new (F.board files.new) map) }
        ensures room { IfOk result (λ reply. IsWithin 144 reply) }
        ensures files { length (F.board files.new).files ≡ length (F.board files.old).files }
    {
        if !self.is_known(node) {
            return Err(Refused::Errno(Errno::ENOENT));
        }
        if node != 1 {
            return Err(Refused::Errno(Errno::ENOTDIR));
        }
        let i = self.named(name);
        self.found(i, files)
    }

    // The file whose name is taken away, if there is one.
    #[tactic(auto, unfolding(fuse_codec::specs::Replies::reply_parts, fuse_codec::specs::Replies::is_reply))]
    fn unlinked(&mut self, i: Option<usize>) -> Result<Reply, Refused>
        requires made { IfSome i (λ n. n < length self.old.made) }
        ensures answer { (files : BoardView) (map : MapView) → Gives (world self.old files map) (unlinked i (world self.old files map)) result (world self.new files map) }
        ensures room { IfOk result (λ reply. IsWithin 16 reply) }
    {
        let Some(i) = i else {
            return Err(Refused::Errno(Errno::ENOENT));
        };
        self.unname(i);
        Ok(Reply::Done)
    }

    // UNLINK.
    #[tactic(auto, unfolding(fuse_device::specs::Requests::unlink))]
    pub(crate) fn unlink(&mut self, node: u64, name: &[u8]) -> Result<Reply, Refused>
        ensures answer { (files : BoardView) (map : MapView) → Gives (world self.old files map) (unlink (world self.old files map) node name.now) result (world self.new files map) }
        ensures room { IfOk result (λ reply. IsWithin 16 reply) }
    {
        if !self.is_known(node) {
            return Err(Refused::Errno(Errno::ENOENT));
        }
        if node != 1 {
            return Err(Refused::Errno(Errno::ENOTDIR));
        }
        let i = self.named(name);
        self.unlinked(i)
    }

    // A file's entry and a new handle of it. The handle comes first: a size that was seen stays noted.
    #[tactic(auto, using(fuse_codec::proofs::CleanReplies::body_sizes), unfolding(fuse_device::specs::Entries::file_attr, fuse_codec::specs::Replies::reply_parts, fuse_codec::specs::Replies::is_reply))]
    fn opens_entry<F: FileBoard>(&mut self, i: usize, files: &mut F) -> Result<Reply, Refused>
        requires made { i < length self.old.made }
        requires files { HasFiles self.old (F.board files.old) }
        requires open { may_open self.old ≡ true }
        ensures answer { (map : MapView) → Gives (world self.old (F.board files.old) map) (opens_entry (world self.old (F.board files.old) map) i) result (world self.new (F.board files.new) map) }
        ensures room { IfOk result (λ reply. IsWithin 160 reply) }
        ensures files { length (F.board files.new).files ≡ length (F.board files.old).files }
    {
        let opened = self.open(self.number_of(i) as u64 + 2)?;
        let entry = self.entry_of(i, files);
        self.count_up(i);
        Ok(Reply::Created { entry, opened })
    }

    // The next file is made, under this name.
    #[tactic(auto, using(fuse_codec::proofs::CleanReplies::body_sizes), unfolding(fuse_device::specs::Entries::file_attr, fuse_codec::specs::Replies::reply_parts, fuse_codec::specs::Replies::is_reply))]
    fn makes_entry<F: FileBoard>(&mut self, name: Name, files: &mut F) -> Result<Reply, Refused>
        requires few { length self.old.made < 16 }
        requires next { HasNext self.old (F.board files.old) }
        requires open { may_open self.old ≡ true }
        ensures answer { (map : MapView) → Gives (world self.old (F.board files.old) map) (makes_entry (world self.old (F.board files.old) map) name) result (world self.new (F.board files.new) map) }
        ensures room { IfOk result (λ reply. IsWithin 160 reply) }
        ensures files { length (F.board files.new).files ≡ length (F.board files.old).files }
    {
        let i = self.made().len();
        let opened = self.make(name)?;
        let entry = self.entry_of(i, files);
        self.count_up(i);
        Ok(Reply::Created { entry, opened })
    }

    // The file that is there, or a new one.
    fn created<F: FileBoard>(
        &mut self,
        found: Option<usize>,
        exclusive: bool,
        name: Name,
        files: &mut F,
    ) -> Result<Reply, Refused>
        requires made { IfSome found (λ n. n < length self.old.made) }
        requires files { HasFiles self.old (F.board files.old) }
        requires next { HasNext self.old (F.board files.old) }
        ensures answer { (map : MapView) → Gives (world self.old (F.board files.old) map) (created found exclusive (world self.old (F.board files.old) map) name) result (world self.new (F.board files.new) map) }
        ensures room { IfOk result (λ reply. IsWithin 160 reply) }
        ensures files { length (F.board files.new).files ≡ length (F.board files.old).files }
    {
        match found {
            Some(i) => {
                if exclusive {
                    return Err(Refused::Errno(Errno::EEXIST));
                }
                if !self.may_open() {
                    return Err(Refused::Errno(Errno::EMFILE));
                }
                self.opens_entry(i, files)
            }
            None => {
                if self.made().len() >= MAX_FILES as usize {
                    return Err(Refused::Errno(Errno::ENOSPC));
                }
                if !self.may_open() {
                    return Err(Refused::Errno(Errno::EMFILE));
                }
                self.makes_entry(name, files)
            }
        }
    }

    // CREATE.
    #[tactic(auto, unfolding(fuse_device::specs::Requests::create))]
    pub(crate) fn create<F: FileBoard>(
        &mut self,
        node: u64,
        r: &CreateIn,
        name: Name,
        files: &mut F,
    ) -> Result<Reply, Refused>
        requires files { HasFiles self.old (F.board files.old) }
        requires next { HasNext self.old (F.board files.old) }
        ensures answer { (map : MapView) → Gives (world self.old (F.board files.old) map) (create (world self.old (F.board files.old) map) node r.now name) result (world self.new (F.board files.new) map) }
        ensures room { IfOk result (λ reply. IsWithin 160 reply) }
        ensures files { length (F.board files.new).files ≡ length (F.board files.old).files }
    {
        if !self.is_known(node) {
            return Err(Refused::Errno(Errno::ENOENT));
        }
        if node != 1 {
            return Err(Refused::Errno(Errno::ENOTDIR));
        }
        if is_dots(name.as_slice()) {
            return Err(Refused::Errno(Errno::EINVAL));
        }
        let found = self.named(name.as_slice());
        self.created(found, has_flag(r.flags, EXCLUSIVE), name, files)
    }

    // FORGET.
    #[tactic(auto, unfolding(fuse_device::specs::Requests::forget, fuse_codec::specs::Replies::reply_parts, fuse_codec::specs::Replies::is_reply))]
    pub(crate) fn forget(&mut self, node: u64, nlookup: u64) -> Result<Reply, Refused>
        ensures answer { (files : BoardView) (map : MapView) → Gives (world self.old files map) (forget (world self.old files map) node nlookup) result (world self.new files map) }
        ensures room { IfOk result (λ reply. IsWithin 16 reply) }
    {
        self.give_back(node, nlookup);
        Ok(Reply::Done)
    }

    // BATCH_FORGET.
    #[tactic(auto, unfolding(fuse_device::specs::Requests::batch_forget, fuse_codec::specs::Replies::reply_parts, fuse_codec::specs::Replies::is_reply))]
    pub(crate) fn batch_forget(&mut self, ones: &[ForgetOne]) -> Result<Reply, Refused>
        ensures answer { (files : BoardView) (map : MapView) → Gives (world self.old files map) (batch_forget (world self.old files map) ones.now) result (world self.new files map) }
        ensures room { IfOk result (λ reply. IsWithin 16 reply) }
    {
        self.give_back_each(ones);
        Ok(Reply::Done)
    }
}
