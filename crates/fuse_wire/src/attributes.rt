//! Attributes of nodes, and the requests and replies that carry them.

ghost use Rattle.std.specs.Prelude.{◌≡◌, ◌≢◌, ◌↔◌, ◌≤◌, ◌+◌, drop, Some, length, IfSome, IsNone};
ghost use Rattle.fuse_wire.specs.Layout.{AreSpelled, FitsParts, clean};
ghost use Rattle.fuse_wire.specs.Attributes.{attr_rec, attr_rec_of, attr_out, attr_out_of, entry_out, entry_out_of, getattr_in, getattr_in_of, setattr_in, setattr_in_of, attr_rec_at};
ghost use Rattle.fuse_wire.specs.declared.attributes.AttrRec.{AttrRec};
ghost use Rattle.fuse_wire.specs.declared.attributes.AttrOut.{AttrOut};
ghost use Rattle.fuse_wire.specs.declared.attributes.EntryOut.{EntryOut};
ghost use Rattle.fuse_wire.specs.declared.attributes.GetattrIn.{GetattrIn};
ghost use Rattle.fuse_wire.specs.declared.attributes.SetattrIn.{SetattrIn};

#[cfg(test)]
mod tests;

use crate::fields::{put_fields, take_fields};

/// The bit of [`GetattrIn::getattr_flags`] that says that `fh` counts: `FUSE_GETATTR_FH` of Linux uapi
/// `fuse.h`, protocol 7.38.
pub const FUSE_GETATTR_FH: u32 = 1;

/// The bit of [`SetattrIn::valid`] that says that `size` counts: `FATTR_SIZE` of Linux uapi `fuse.h`,
/// protocol 7.38.
pub const FATTR_SIZE: u32 = 1 << 3;

/// The bit of [`SetattrIn::valid`] that says that `fh` counts: `FATTR_FH` of Linux uapi `fuse.h`,
/// protocol 7.38.
pub const FATTR_FH: u32 = 1 << 6;

macro_rules! attr_rec_fields {
    ($with:ident, $($place:tt)*) => {
        $with!($($place)*;
            ino: u64 at 0..8,
            size: u64 at 8..16,
            blocks: u64 at 16..24,
            atime: u64 at 24..32,
            mtime: u64 at 32..40,
            ctime: u64 at 40..48,
            atimensec: u32 at 48..52,
            mtimensec: u32 at 52..56,
            ctimensec: u32 at 56..60,
            mode: u32 at 60..64,
            nlink: u32 at 64..68,
            uid: u32 at 68..72,
            gid: u32 at 72..76,
            rdev: u32 at 76..80,
            blksize: u32 at 80..84,
            flags: u32 at 84..88,
        )
    };
}

/// The attributes of a node: `struct fuse_attr` of Linux uapi `fuse.h`, protocol 7.38.
#[derive(Clone, Copy, Debug, PartialEq, Eq)]
pub struct AttrRec {
    /// The number of the node, as `stat(2)` shows it.
    pub ino: u64,
    /// The size of the file, in bytes.
    pub size: u64,
    /// The room that the file takes, in units of 512 bytes.
    pub blocks: u64,
    /// When it was last read, in seconds since 1970.
    pub atime: u64,
    /// When its bytes last changed, in seconds since 1970.
    pub mtime: u64,
    /// When its attributes last changed, in seconds since 1970.
    pub ctime: u64,
    /// The nanoseconds beyond `atime`.
    pub atimensec: u32,
    /// The nanoseconds beyond `mtime`.
    pub mtimensec: u32,
    /// The nanoseconds beyond `ctime`.
    pub ctimensec: u32,
    /// Its kind and its permissions, as `stat(2)` has them: 33188, in octal 100644, is a plain file
    /// that its user may write and all may read.
    pub mode: u32,
    /// How many names it has.
    pub nlink: u32,
    /// The user that it belongs to.
    pub uid: u32,
    /// The group that it belongs to.
    pub gid: u32,
    /// The device that a special file stands for.
    pub rdev: u32,
    /// The block size that suits it, in bytes.
    pub blksize: u32,
    /// FUSE_ATTR_SUBMOUNT (1) and FUSE_ATTR_DAX (2).
    pub flags: u32,
}

impl AttrRec {
    /// The size of the attributes, in bytes.
    pub const SIZE: usize = 88;

    /// Reads a record from its bytes: `None` exactly where there aren't 88 of them.
    #[tactic(auto, using(crate::proofs::AttributeLaws::attr_rec_len), unfolding(crate::specs::Attributes::attr_rec_of))]
    pub fn read(bytes: &[u8]) -> Option<AttrRec>
        ensures exact { result ≡ attr_rec_of bytes.now }
        ensures found { IfSome result (λ r. AreSpelled (attr_rec r) bytes.now) }
        ensures only { (r : AttrRec) → AreSpelled (attr_rec r) bytes.now → result ≡ Some r }
        ensures none { IsNone result ↔ (length bytes.now ≢ 88) }
    {
        if bytes.len() != AttrRec::SIZE {
            return None;
        }
        Some(attributes_in(bytes))
    }

    /// The record's bytes.
    #[tactic(auto, using(crate::proofs::AttributeLaws::attr_rec_again))]
    pub fn put(&self) -> [u8; AttrRec::SIZE]
        ensures clean { result ≡ clean (attr_rec self.now) }
        ensures fits { FitsParts (attr_rec self.now) }
        ensures again { attr_rec_of result ≡ Some self.now }
    {
        self.spelling()
    }

    // What `put` gives. The law that it is read again stands on these two clauses alone.
    #[tactic(auto, unfolding(crate::specs::Attributes::attr_rec, crate::specs::Layout::FitsParts))]
    fn spelling(&self) -> [u8; AttrRec::SIZE]
        ensures clean { result ≡ clean (attr_rec self.now) }
        ensures fits { FitsParts (attr_rec self.now) }
    {
        let mut out = [0; AttrRec::SIZE];
        attr_rec_fields!(put_fields, self, out);
        out
    }
}

// The attributes at the front of bytes.
fn attributes_in(bytes: &[u8]) -> AttrRec
    requires { 88 ≤ length bytes.now }
    ensures { result ≡ attr_rec_at bytes.now }
{
    attr_rec_fields!(take_fields, AttrRec, bytes)
}

// The attributes whose bytes begin at offset `at`.
pub(crate) fn attributes_at(bytes: &[u8], at: usize) -> AttrRec
    requires { at + 88 ≤ length bytes.now }
    ensures { result ≡ attr_rec_at (drop at bytes.now) }
{
    attributes_in(&bytes[at..])
}

macro_rules! attr_out_fields {
    ($with:ident, $($place:tt)*) => {
        $with!($($place)*;
            attr_valid: u64 at 0..8,
            attr_valid_nsec: u32 at 8..12,
            attr: AttrRec at 16..104,
        )
    };
}

/// The body of the replies to FUSE_GETATTR and FUSE_SETATTR: `struct fuse_attr_out` of Linux uapi
/// `fuse.h`, protocol 7.38.
///
/// Four bytes of padding stand before `attr`. They are ignored when read, and 0 when written.
#[derive(Clone, Copy, Debug, PartialEq, Eq)]
pub struct AttrOut {
    /// How long the attributes may be kept, in whole seconds.
    pub attr_valid: u64,
    /// The nanoseconds beyond `attr_valid`.
    pub attr_valid_nsec: u32,
    /// The attributes.
    pub attr: AttrRec,
}

impl AttrOut {
    /// The size of the body of a FUSE_GETATTR's reply, in bytes.
    pub const SIZE: usize = 104;

    /// Reads a record from its bytes: `None` exactly where there aren't 104 of them.
    /// Padding may be of any value.
    #[tactic(auto, using(crate::proofs::AttributeLaws::attr_out_len), unfolding(crate::specs::Attributes::attr_out_of))]
    pub fn read(bytes: &[u8]) -> Option<AttrOut>
        ensures exact { result ≡ attr_out_of bytes.now }
        ensures found { IfSome result (λ r. AreSpelled (attr_out r) bytes.now) }
        ensures only { (r : AttrOut) → AreSpelled (attr_out r) bytes.now → result ≡ Some r }
        ensures none { IsNone result ↔ (length bytes.now ≢ 104) }
    {
        if bytes.len() != AttrOut::SIZE {
            return None;
        }
        Some(attr_out_fields!(take_fields, AttrOut, bytes))
    }

    /// The record's bytes, with padding 0.
    #[tactic(auto, using(crate::proofs::AttributeLaws::attr_out_again))]
    pub fn put(&self) -> [u8; AttrOut::SIZE]
        ensures clean { result ≡ clean (attr_out self.now) }
        ensures fits { FitsParts (attr_out self.now) }
        ensures again { attr_out_of result ≡ Some self.now }
    {
        self.spelling()
    }

    // What `put` gives. The law that it is read again stands on these two clauses alone.
    #[tactic(auto, unfolding(crate::specs::Attributes::attr_out, crate::specs::Layout::FitsParts))]
    fn spelling(&self) -> [u8; AttrOut::SIZE]
        ensures clean { result ≡ clean (attr_out self.now) }
        ensures fits { FitsParts (attr_out self.now) }
    {
        let mut out = [0; AttrOut::SIZE];
        attr_out_fields!(put_fields, self, out);
        out
    }
}

macro_rules! entry_out_fields {
    ($with:ident, $($place:tt)*) => {
        $with!($($place)*;
            nodeid: u64 at 0..8,
            generation: u64 at 8..16,
            entry_valid: u64 at 16..24,
            attr_valid: u64 at 24..32,
            entry_valid_nsec: u32 at 32..36,
            attr_valid_nsec: u32 at 36..40,
            attr: AttrRec at 40..128,
        )
    };
}

/// The body of FUSE_LOOKUP's reply, and the front of the body of FUSE_CREATE's: `struct
/// fuse_entry_out` of Linux uapi `fuse.h`, protocol 7.38.
#[derive(Clone, Copy, Debug, PartialEq, Eq)]
pub struct EntryOut {
    /// The node that has the name.
    pub nodeid: u64,
    /// With `nodeid` it names the file, also after the number is used again.
    pub generation: u64,
    /// How long the name may be kept, in whole seconds.
    pub entry_valid: u64,
    /// How long the attributes may be kept, in whole seconds.
    pub attr_valid: u64,
    /// The nanoseconds beyond `entry_valid`.
    pub entry_valid_nsec: u32,
    /// The nanoseconds beyond `attr_valid`.
    pub attr_valid_nsec: u32,
    /// The attributes.
    pub attr: AttrRec,
}

impl EntryOut {
    /// The size of the body of a FUSE_LOOKUP's reply, in bytes.
    pub const SIZE: usize = 128;

    /// Reads a record from its bytes: `None` exactly where there aren't 128 of them.
    #[tactic(auto, using(crate::proofs::AttributeLaws::entry_out_len), unfolding(crate::specs::Attributes::entry_out_of))]
    pub fn read(bytes: &[u8]) -> Option<EntryOut>
        ensures exact { result ≡ entry_out_of bytes.now }
        ensures found { IfSome result (λ r. AreSpelled (entry_out r) bytes.now) }
        ensures only { (r : EntryOut) → AreSpelled (entry_out r) bytes.now → result ≡ Some r }
        ensures none { IsNone result ↔ (length bytes.now ≢ 128) }
    {
        if bytes.len() != EntryOut::SIZE {
            return None;
        }
        Some(entry_out_fields!(take_fields, EntryOut, bytes))
    }

    /// The record's bytes.
    #[tactic(auto, using(crate::proofs::AttributeLaws::entry_out_again))]
    pub fn put(&self) -> [u8; EntryOut::SIZE]
        ensures clean { result ≡ clean (entry_out self.now) }
        ensures fits { FitsParts (entry_out self.now) }
        ensures again { entry_out_of result ≡ Some self.now }
    {
        self.spelling()
    }

    // What `put` gives. The law that it is read again stands on these two clauses alone.
    #[tactic(auto, unfolding(crate::specs::Attributes::entry_out, crate::specs::Layout::FitsParts))]
    fn spelling(&self) -> [u8; EntryOut::SIZE]
        ensures clean { result ≡ clean (entry_out self.now) }
        ensures fits { FitsParts (entry_out self.now) }
    {
        let mut out = [0; EntryOut::SIZE];
        entry_out_fields!(put_fields, self, out);
        out
    }
}

macro_rules! getattr_in_fields {
    ($with:ident, $($place:tt)*) => {
        $with!($($place)*;
            getattr_flags: u32 at 0..4,
            fh: u64 at 8..16,
        )
    };
}

/// The body of FUSE_GETATTR: `struct fuse_getattr_in` of Linux uapi `fuse.h`, protocol 7.38.
///
/// Four bytes of padding stand before `fh`. They are ignored when read, and 0 when written.
#[derive(Clone, Copy, Debug, PartialEq, Eq)]
pub struct GetattrIn {
    /// [`FUSE_GETATTR_FH`] where `fh` counts.
    pub getattr_flags: u32,
    /// The open handle.
    pub fh: u64,
}

impl GetattrIn {
    /// The size of a FUSE_GETATTR's body, in bytes.
    pub const SIZE: usize = 16;

    /// Reads a record from its bytes: `None` exactly where there aren't 16 of them.
    /// Padding may be of any value.
    #[tactic(auto, using(crate::proofs::Laws::spelled, crate::proofs::Laws::placed, crate::proofs::Laws::spelled_len), unfolding(crate::specs::Attributes::getattr_in_of, crate::specs::Attributes::getattr_in))]
    pub fn read(bytes: &[u8]) -> Option<GetattrIn>
        ensures exact { result ≡ getattr_in_of bytes.now }
        ensures found { IfSome result (λ r. AreSpelled (getattr_in r) bytes.now) }
        ensures only { (r : GetattrIn) → AreSpelled (getattr_in r) bytes.now → result ≡ Some r }
        ensures none { IsNone result ↔ (length bytes.now ≢ 16) }
    {
        if bytes.len() != GetattrIn::SIZE {
            return None;
        }
        Some(getattr_in_fields!(take_fields, GetattrIn, bytes))
    }

    /// The record's bytes, with padding 0.
    #[tactic(auto, using(crate::proofs::AttributeLaws::getattr_in_again), unfolding(crate::specs::Attributes::getattr_in, crate::specs::Layout::FitsParts))]
    pub fn put(&self) -> [u8; GetattrIn::SIZE]
        ensures clean { result ≡ clean (getattr_in self.now) }
        ensures fits { FitsParts (getattr_in self.now) }
        ensures again { getattr_in_of result ≡ Some self.now }
    {
        let mut out = [0; GetattrIn::SIZE];
        getattr_in_fields!(put_fields, self, out);
        out
    }
}

macro_rules! setattr_in_fields {
    ($with:ident, $($place:tt)*) => {
        $with!($($place)*;
            valid: u32 at 0..4,
            fh: u64 at 8..16,
            size: u64 at 16..24,
            lock_owner: u64 at 24..32,
            atime: u64 at 32..40,
            mtime: u64 at 40..48,
            ctime: u64 at 48..56,
            atimensec: u32 at 56..60,
            mtimensec: u32 at 60..64,
            ctimensec: u32 at 64..68,
            mode: u32 at 68..72,
            uid: u32 at 76..80,
            gid: u32 at 80..84,
        )
    };
}

/// The body of FUSE_SETATTR: `struct fuse_setattr_in` of Linux uapi `fuse.h`, protocol 7.38.
///
/// Four bytes after `valid`, four after `mode` and the last four have no field. They are ignored
/// when read, and 0 when written.
#[derive(Clone, Copy, Debug, PartialEq, Eq)]
pub struct SetattrIn {
    /// Which of the fields count, as [`FATTR_SIZE`] and [`FATTR_FH`].
    pub valid: u32,
    /// The open handle.
    pub fh: u64,
    /// The new size of the file, in bytes.
    pub size: u64,
    /// The owner of the file's locks.
    pub lock_owner: u64,
    /// When it was last read, in seconds since 1970.
    pub atime: u64,
    /// When its bytes last changed, in seconds since 1970.
    pub mtime: u64,
    /// When its attributes last changed, in seconds since 1970.
    pub ctime: u64,
    /// The nanoseconds beyond `atime`.
    pub atimensec: u32,
    /// The nanoseconds beyond `mtime`.
    pub mtimensec: u32,
    /// The nanoseconds beyond `ctime`.
    pub ctimensec: u32,
    /// The new kind and permissions, as `stat(2)` has them.
    pub mode: u32,
    /// The new user.
    pub uid: u32,
    /// The new group.
    pub gid: u32,
}

impl SetattrIn {
    /// The size of a FUSE_SETATTR's body, in bytes.
    pub const SIZE: usize = 88;

    /// Reads a record from its bytes: `None` exactly where there aren't 88 of them.
    /// Bytes without a field may be of any value.
    #[tactic(auto, using(crate::proofs::AttributeLaws::setattr_in_len), unfolding(crate::specs::Attributes::setattr_in_of))]
    pub fn read(bytes: &[u8]) -> Option<SetattrIn>
        ensures exact { result ≡ setattr_in_of bytes.now }
        ensures found { IfSome result (λ r. AreSpelled (setattr_in r) bytes.now) }
        ensures only { (r : SetattrIn) → AreSpelled (setattr_in r) bytes.now → result ≡ Some r }
        ensures none { IsNone result ↔ (length bytes.now ≢ 88) }
    {
        if bytes.len() != SetattrIn::SIZE {
            return None;
        }
        Some(setattr_in_fields!(take_fields, SetattrIn, bytes))
    }

    /// The record's bytes, with 0 where no field stands.
    #[tactic(auto, using(crate::proofs::AttributeLaws::setattr_in_again))]
    pub fn put(&self) -> [u8; SetattrIn::SIZE]
        ensures clean { result ≡ clean (setattr_in self.now) }
        ensures fits { FitsParts (setattr_in self.now) }
        ensures again { setattr_in_of result ≡ Some self.now }
    {
        self.spelling()
    }

    // What `put` gives. The law that it is read again stands on these two clauses alone.
    #[tactic(auto, unfolding(crate::specs::Attributes::setattr_in, crate::specs::Layout::FitsParts))]
    fn spelling(&self) -> [u8; SetattrIn::SIZE]
        ensures clean { result ≡ clean (setattr_in self.now) }
        ensures fits { FitsParts (setattr_in self.now) }
    {
        let mut out = [0; SetattrIn::SIZE];
        setattr_in_fields!(put_fields, self, out);
        out
    }
}
