//! Opening and closing of files and directories, and what is asked of an open file.

ghost use Rattle.std.specs.Prelude.{◌≡◌, ◌≢◌, ◌↔◌, Some, length, IfSome, IsNone};
ghost use Rattle.fuse_wire.specs.Layout.{AreSpelled, FitsParts, clean};
ghost use Rattle.fuse_wire.specs.Opens.{open_in, open_in_of, open_out, open_out_of, create_in, create_in_of, release_in, release_in_of, flush_in, flush_in_of, fsync_in, fsync_in_of, fallocate_in, fallocate_in_of};
ghost use Rattle.fuse_wire.specs.declared.opens.OpenIn.{OpenIn};
ghost use Rattle.fuse_wire.specs.declared.opens.OpenOut.{OpenOut};
ghost use Rattle.fuse_wire.specs.declared.opens.CreateIn.{CreateIn};
ghost use Rattle.fuse_wire.specs.declared.opens.ReleaseIn.{ReleaseIn};
ghost use Rattle.fuse_wire.specs.declared.opens.FlushIn.{FlushIn};
ghost use Rattle.fuse_wire.specs.declared.opens.FsyncIn.{FsyncIn};
ghost use Rattle.fuse_wire.specs.declared.opens.FallocateIn.{FallocateIn};

#[cfg(test)]
mod tests;

use crate::fields::{put_fields, take_fields};

/// The bit of [`CreateIn::flags`] that refuses a file that is there already: `O_EXCL` of Linux uapi
/// `asm-generic/fcntl.h`.
pub const O_EXCL: u32 = 0x80;

macro_rules! open_in_fields {
    ($with:ident, $($place:tt)*) => {
        $with!($($place)*;
            flags: u32 at 0..4,
            open_flags: u32 at 4..8,
        )
    };
}

/// The body of FUSE_OPEN and FUSE_OPENDIR: `struct fuse_open_in` of Linux uapi `fuse.h`, protocol
/// 7.38.
#[derive(Clone, Copy, Debug, PartialEq, Eq)]
pub struct OpenIn {
    /// The flags to open with, as `open(2)` takes them.
    pub flags: u32,
    /// FUSE_OPEN_KILL_SUIDGID (1).
    pub open_flags: u32,
}

impl OpenIn {
    /// The size of a FUSE_OPEN's body, in bytes.
    pub const SIZE: usize = 8;

    /// Reads a record from its bytes: `None` exactly where there aren't 8 of them.
    #[tactic(auto, using(crate::proofs::Laws::spelled, crate::proofs::Laws::placed, crate::proofs::Laws::spelled_len), unfolding(crate::specs::Opens::open_in_of, crate::specs::Opens::open_in))]
    pub fn read(bytes: &[u8]) -> Option<OpenIn>
        ensures exact { result ≡ open_in_of bytes.now }
        ensures found { IfSome result (λ r. AreSpelled (open_in r) bytes.now) }
        ensures only { (r : OpenIn) → AreSpelled (open_in r) bytes.now → result ≡ Some r }
        ensures none { IsNone result ↔ (length bytes.now ≢ 8) }
    {
        if bytes.len() != OpenIn::SIZE {
            return None;
        }
        Some(open_in_fields!(take_fields, OpenIn, bytes))
    }

    /// The record's bytes.
    #[tactic(auto, using(crate::proofs::OpenLaws::open_in_again), unfolding(crate::specs::Opens::open_in, crate::specs::Layout::FitsParts))]
    pub fn put(&self) -> [u8; OpenIn::SIZE]
        ensures clean { result ≡ clean (open_in self.now) }
        ensures fits { FitsParts (open_in self.now) }
        ensures again { open_in_of result ≡ Some self.now }
    {
        let mut out = [0; OpenIn::SIZE];
        open_in_fields!(put_fields, self, out);
        out
    }
}

macro_rules! open_out_fields {
    ($with:ident, $($place:tt)*) => {
        $with!($($place)*;
            fh: u64 at 0..8,
            open_flags: u32 at 8..12,
        )
    };
}

/// The body of the replies to FUSE_OPEN and FUSE_OPENDIR, and the end of the body of FUSE_CREATE's:
/// `struct fuse_open_out` of Linux uapi `fuse.h`, protocol 7.38.
///
/// Four bytes of padding end it. They are ignored when read, and 0 when written.
#[derive(Clone, Copy, Debug, PartialEq, Eq)]
pub struct OpenOut {
    /// The open handle.
    pub fh: u64,
    /// How the guest is to keep the file, as FOPEN_DIRECT_IO (1) and FOPEN_KEEP_CACHE (2).
    pub open_flags: u32,
}

impl OpenOut {
    /// The size of the body of a FUSE_OPEN's reply, in bytes.
    pub const SIZE: usize = 16;

    /// Reads a record from its bytes: `None` exactly where there aren't 16 of them.
    /// Padding may be of any value.
    #[tactic(auto, using(crate::proofs::Laws::spelled, crate::proofs::Laws::placed, crate::proofs::Laws::spelled_len), unfolding(crate::specs::Opens::open_out_of, crate::specs::Opens::open_out))]
    pub fn read(bytes: &[u8]) -> Option<OpenOut>
        ensures exact { result ≡ open_out_of bytes.now }
        ensures found { IfSome result (λ r. AreSpelled (open_out r) bytes.now) }
        ensures only { (r : OpenOut) → AreSpelled (open_out r) bytes.now → result ≡ Some r }
        ensures none { IsNone result ↔ (length bytes.now ≢ 16) }
    {
        if bytes.len() != OpenOut::SIZE {
            return None;
        }
        Some(open_out_fields!(take_fields, OpenOut, bytes))
    }

    /// The record's bytes, with padding 0.
    #[tactic(auto, using(crate::proofs::OpenLaws::open_out_again), unfolding(crate::specs::Opens::open_out, crate::specs::Layout::FitsParts))]
    pub fn put(&self) -> [u8; OpenOut::SIZE]
        ensures clean { result ≡ clean (open_out self.now) }
        ensures fits { FitsParts (open_out self.now) }
        ensures again { open_out_of result ≡ Some self.now }
    {
        let mut out = [0; OpenOut::SIZE];
        open_out_fields!(put_fields, self, out);
        out
    }
}

macro_rules! create_in_fields {
    ($with:ident, $($place:tt)*) => {
        $with!($($place)*;
            flags: u32 at 0..4,
            mode: u32 at 4..8,
            umask: u32 at 8..12,
            open_flags: u32 at 12..16,
        )
    };
}

/// The front of FUSE_CREATE's body, which the name follows: `struct fuse_create_in` of Linux uapi
/// `fuse.h`, protocol 7.38.
#[derive(Clone, Copy, Debug, PartialEq, Eq)]
pub struct CreateIn {
    /// The flags to open with, as `open(2)` takes them, [`O_EXCL`] among them.
    pub flags: u32,
    /// The kind and the permissions of a new file, as `stat(2)` has them.
    pub mode: u32,
    /// The permissions that a new file is not to have.
    pub umask: u32,
    /// FUSE_OPEN_KILL_SUIDGID (1).
    pub open_flags: u32,
}

impl CreateIn {
    /// The size of the front of a FUSE_CREATE's body, in bytes.
    pub const SIZE: usize = 16;

    /// Reads a record from its bytes: `None` exactly where there aren't 16 of them.
    #[tactic(auto, using(crate::proofs::Laws::spelled, crate::proofs::Laws::placed, crate::proofs::Laws::spelled_len), unfolding(crate::specs::Opens::create_in_of, crate::specs::Opens::create_in))]
    pub fn read(bytes: &[u8]) -> Option<CreateIn>
        ensures exact { result ≡ create_in_of bytes.now }
        ensures found { IfSome result (λ r. AreSpelled (create_in r) bytes.now) }
        ensures only { (r : CreateIn) → AreSpelled (create_in r) bytes.now → result ≡ Some r }
        ensures none { IsNone result ↔ (length bytes.now ≢ 16) }
    {
        if bytes.len() != CreateIn::SIZE {
            return None;
        }
        Some(create_in_fields!(take_fields, CreateIn, bytes))
    }

    /// The record's bytes.
    #[tactic(auto, using(crate::proofs::OpenLaws::create_in_again), unfolding(crate::specs::Opens::create_in, crate::specs::Layout::FitsParts))]
    pub fn put(&self) -> [u8; CreateIn::SIZE]
        ensures clean { result ≡ clean (create_in self.now) }
        ensures fits { FitsParts (create_in self.now) }
        ensures again { create_in_of result ≡ Some self.now }
    {
        let mut out = [0; CreateIn::SIZE];
        create_in_fields!(put_fields, self, out);
        out
    }
}

macro_rules! release_in_fields {
    ($with:ident, $($place:tt)*) => {
        $with!($($place)*;
            fh: u64 at 0..8,
            flags: u32 at 8..12,
            release_flags: u32 at 12..16,
            lock_owner: u64 at 16..24,
        )
    };
}

/// The body of FUSE_RELEASE and FUSE_RELEASEDIR: `struct fuse_release_in` of Linux uapi `fuse.h`,
/// protocol 7.38.
#[derive(Clone, Copy, Debug, PartialEq, Eq)]
pub struct ReleaseIn {
    /// The open handle, which is closed.
    pub fh: u64,
    /// The flags that the file was opened with, as `open(2)` takes them.
    pub flags: u32,
    /// FUSE_RELEASE_FLUSH (1) and FUSE_RELEASE_FLOCK_UNLOCK (2).
    pub release_flags: u32,
    /// The owner of the file's locks.
    pub lock_owner: u64,
}

impl ReleaseIn {
    /// The size of a FUSE_RELEASE's body, in bytes.
    pub const SIZE: usize = 24;

    /// Reads a record from its bytes: `None` exactly where there aren't 24 of them.
    #[tactic(auto, using(crate::proofs::Laws::spelled, crate::proofs::Laws::placed, crate::proofs::Laws::spelled_len), unfolding(crate::specs::Opens::release_in_of, crate::specs::Opens::release_in))]
    pub fn read(bytes: &[u8]) -> Option<ReleaseIn>
        ensures exact { result ≡ release_in_of bytes.now }
        ensures found { IfSome result (λ r. AreSpelled (release_in r) bytes.now) }
        ensures only { (r : ReleaseIn) → AreSpelled (release_in r) bytes.now → result ≡ Some r }
        ensures none { IsNone result ↔ (length bytes.now ≢ 24) }
    {
        if bytes.len() != ReleaseIn::SIZE {
            return None;
        }
        Some(release_in_fields!(take_fields, ReleaseIn, bytes))
    }

    /// The record's bytes.
    #[tactic(auto, using(crate::proofs::OpenLaws::release_in_again), unfolding(crate::specs::Opens::release_in, crate::specs::Layout::FitsParts))]
    pub fn put(&self) -> [u8; ReleaseIn::SIZE]
        ensures clean { result ≡ clean (release_in self.now) }
        ensures fits { FitsParts (release_in self.now) }
        ensures again { release_in_of result ≡ Some self.now }
    {
        let mut out = [0; ReleaseIn::SIZE];
        release_in_fields!(put_fields, self, out);
        out
    }
}

macro_rules! flush_in_fields {
    ($with:ident, $($place:tt)*) => {
        $with!($($place)*;
            fh: u64 at 0..8,
            lock_owner: u64 at 16..24,
        )
    };
}

/// The body of FUSE_FLUSH: `struct fuse_flush_in` of Linux uapi `fuse.h`, protocol 7.38.
///
/// Eight bytes after `fh` have no field. They are ignored when read, and 0 when written.
#[derive(Clone, Copy, Debug, PartialEq, Eq)]
pub struct FlushIn {
    /// The open handle.
    pub fh: u64,
    /// The owner of the file's locks.
    pub lock_owner: u64,
}

impl FlushIn {
    /// The size of a FUSE_FLUSH's body, in bytes.
    pub const SIZE: usize = 24;

    /// Reads a record from its bytes: `None` exactly where there aren't 24 of them.
    /// Bytes without a field may be of any value.
    #[tactic(auto, using(crate::proofs::Laws::spelled, crate::proofs::Laws::placed, crate::proofs::Laws::spelled_len), unfolding(crate::specs::Opens::flush_in_of, crate::specs::Opens::flush_in))]
    pub fn read(bytes: &[u8]) -> Option<FlushIn>
        ensures exact { result ≡ flush_in_of bytes.now }
        ensures found { IfSome result (λ r. AreSpelled (flush_in r) bytes.now) }
        ensures only { (r : FlushIn) → AreSpelled (flush_in r) bytes.now → result ≡ Some r }
        ensures none { IsNone result ↔ (length bytes.now ≢ 24) }
    {
        if bytes.len() != FlushIn::SIZE {
            return None;
        }
        Some(flush_in_fields!(take_fields, FlushIn, bytes))
    }

    /// The record's bytes, with 0 where no field stands.
    #[tactic(auto, using(crate::proofs::OpenLaws::flush_in_again), unfolding(crate::specs::Opens::flush_in, crate::specs::Layout::FitsParts))]
    pub fn put(&self) -> [u8; FlushIn::SIZE]
        ensures clean { result ≡ clean (flush_in self.now) }
        ensures fits { FitsParts (flush_in self.now) }
        ensures again { flush_in_of result ≡ Some self.now }
    {
        let mut out = [0; FlushIn::SIZE];
        flush_in_fields!(put_fields, self, out);
        out
    }
}

macro_rules! fsync_in_fields {
    ($with:ident, $($place:tt)*) => {
        $with!($($place)*;
            fh: u64 at 0..8,
            fsync_flags: u32 at 8..12,
        )
    };
}

/// The body of FUSE_FSYNC: `struct fuse_fsync_in` of Linux uapi `fuse.h`, protocol 7.38.
///
/// Four bytes of padding end it. They are ignored when read, and 0 when written.
#[derive(Clone, Copy, Debug, PartialEq, Eq)]
pub struct FsyncIn {
    /// The open handle.
    pub fh: u64,
    /// FUSE_FSYNC_FDATASYNC (1) where the attributes need not be kept.
    pub fsync_flags: u32,
}

impl FsyncIn {
    /// The size of a FUSE_FSYNC's body, in bytes.
    pub const SIZE: usize = 16;

    /// Reads a record from its bytes: `None` exactly where there aren't 16 of them.
    /// Padding may be of any value.
    #[tactic(auto, using(crate::proofs::Laws::spelled, crate::proofs::Laws::placed, crate::proofs::Laws::spelled_len), unfolding(crate::specs::Opens::fsync_in_of, crate::specs::Opens::fsync_in))]
    pub fn read(bytes: &[u8]) -> Option<FsyncIn>
        ensures exact { result ≡ fsync_in_of bytes.now }
        ensures found { IfSome result (λ r. AreSpelled (fsync_in r) bytes.now) }
        ensures only { (r : FsyncIn) → AreSpelled (fsync_in r) bytes.now → result ≡ Some r }
        ensures none { IsNone result ↔ (length bytes.now ≢ 16) }
    {
        if bytes.len() != FsyncIn::SIZE {
            return None;
        }
        Some(fsync_in_fields!(take_fields, FsyncIn, bytes))
    }

    /// The record's bytes, with padding 0.
    #[tactic(auto, using(crate::proofs::OpenLaws::fsync_in_again), unfolding(crate::specs::Opens::fsync_in, crate::specs::Layout::FitsParts))]
    pub fn put(&self) -> [u8; FsyncIn::SIZE]
        ensures clean { result ≡ clean (fsync_in self.now) }
        ensures fits { FitsParts (fsync_in self.now) }
        ensures again { fsync_in_of result ≡ Some self.now }
    {
        let mut out = [0; FsyncIn::SIZE];
        fsync_in_fields!(put_fields, self, out);
        out
    }
}

macro_rules! fallocate_in_fields {
    ($with:ident, $($place:tt)*) => {
        $with!($($place)*;
            fh: u64 at 0..8,
            offset: u64 at 8..16,
            length: u64 at 16..24,
            mode: u32 at 24..28,
        )
    };
}

/// The body of FUSE_FALLOCATE: `struct fuse_fallocate_in` of Linux uapi `fuse.h`, protocol 7.38.
///
/// Four bytes of padding end it. They are ignored when read, and 0 when written.
#[derive(Clone, Copy, Debug, PartialEq, Eq)]
pub struct FallocateIn {
    /// The open handle.
    pub fh: u64,
    /// The first byte of the file that is to have room.
    pub offset: u64,
    /// How many bytes are to have room.
    pub length: u64,
    /// What is to be done, as `fallocate(2)` takes it.
    pub mode: u32,
}

impl FallocateIn {
    /// The size of a FUSE_FALLOCATE's body, in bytes.
    pub const SIZE: usize = 32;

    /// Reads a record from its bytes: `None` exactly where there aren't 32 of them.
    /// Padding may be of any value.
    #[tactic(auto, using(crate::proofs::Laws::spelled, crate::proofs::Laws::placed, crate::proofs::Laws::spelled_len), unfolding(crate::specs::Opens::fallocate_in_of, crate::specs::Opens::fallocate_in))]
    pub fn read(bytes: &[u8]) -> Option<FallocateIn>
        ensures exact { result ≡ fallocate_in_of bytes.now }
        ensures found { IfSome result (λ r. AreSpelled (fallocate_in r) bytes.now) }
        ensures only { (r : FallocateIn) → AreSpelled (fallocate_in r) bytes.now → result ≡ Some r }
        ensures none { IsNone result ↔ (length bytes.now ≢ 32) }
    {
        if bytes.len() != FallocateIn::SIZE {
            return None;
        }
        Some(fallocate_in_fields!(take_fields, FallocateIn, bytes))
    }

    /// The record's bytes, with padding 0.
    #[tactic(auto, using(crate::proofs::OpenLaws::fallocate_in_again), unfolding(crate::specs::Opens::fallocate_in, crate::specs::Layout::FitsParts))]
    pub fn put(&self) -> [u8; FallocateIn::SIZE]
        ensures clean { result ≡ clean (fallocate_in self.now) }
        ensures fits { FitsParts (fallocate_in self.now) }
        ensures again { fallocate_in_of result ≡ Some self.now }
    {
        let mut out = [0; FallocateIn::SIZE];
        fallocate_in_fields!(put_fields, self, out);
        out
    }
}
