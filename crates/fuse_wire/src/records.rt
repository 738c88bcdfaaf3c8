ghost use Rattle.std.specs.Prelude.{◌≡◌, ◌≢◌, ◌↔◌, Some, length, take, IfSome, IsNone};
ghost use Rattle.fuse_wire.specs.Layout.{AreSpelled, FitsParts, clean};
ghost use Rattle.fuse_wire.specs.Records.{in_header, in_header_of, out_header, out_header_of, read_in, read_in_of, write_in, write_in_of, write_out, write_out_of};
ghost use Rattle.fuse_wire.specs.declared.records.OutHeader.{OutHeader};
ghost use Rattle.fuse_wire.specs.declared.records.InHeader.{InHeader};
ghost use Rattle.fuse_wire.specs.declared.records.ReadIn.{ReadIn};
ghost use Rattle.fuse_wire.specs.declared.records.WriteIn.{WriteIn};
ghost use Rattle.fuse_wire.specs.declared.records.WriteOut.{WriteOut};

use crate::fields::{put_fields, take_fields};

macro_rules! in_header_fields {
    ($with:ident, $($place:tt)*) => {
        $with!($($place)*;
            len: u32 at 0..4,
            opcode: u32 at 4..8,
            unique: u64 at 8..16,
            nodeid: u64 at 16..24,
            uid: u32 at 24..28,
            gid: u32 at 28..32,
            pid: u32 at 32..36,
            total_extlen: u16 at 36..38,
        )
    };
}

/// The header of each request: `struct fuse_in_header` of Linux uapi `fuse.h`, protocol 7.38.
///
/// Two bytes of padding end it. They are ignored when read, and 0 when written.
#[derive(Clone, Copy, Debug, PartialEq, Eq)]
pub struct InHeader {
    /// The bytes of the whole request, this header included.
    pub len: u32,
    /// The number of the operation, as 15 for FUSE_READ.
    pub opcode: u32,
    /// The request's own number, which its reply repeats.
    pub unique: u64,
    /// The node that the request is about. 1 is the root directory.
    pub nodeid: u64,
    /// The user of the process that asks.
    pub uid: u32,
    /// The group of the process that asks.
    pub gid: u32,
    /// The process that asks.
    pub pid: u32,
    /// The length of the extensions after the body, in units of 8 bytes.
    pub total_extlen: u16,
}

impl InHeader {
    /// The size of a request's header, in bytes.
    pub const SIZE: usize = 40;

    /// Reads a record from its bytes: `None` exactly where there aren't 40 of them.
    /// Padding may be of any value.
    #[tactic(auto, using(crate::proofs::Laws::spelled, crate::proofs::Laws::placed, crate::proofs::Laws::spelled_len), unfolding(crate::specs::Records::in_header_of, crate::specs::Records::in_header))]
    pub fn read(bytes: &[u8]) -> Option<InHeader>
        ensures exact { result ≡ in_header_of bytes.now }
        ensures found { IfSome result (λ r. AreSpelled (in_header r) bytes.now) }
        ensures only { (r : InHeader) → AreSpelled (in_header r) bytes.now → result ≡ Some r }
        ensures none { IsNone result ↔ (length bytes.now ≢ 40) }
    {
        if bytes.len() != InHeader::SIZE {
            return None;
        }
        Some(in_header_fields!(take_fields, InHeader, bytes))
    }

    /// The record's bytes, with padding 0.
    #[tactic(auto, using(crate::proofs::RecordLaws::in_header_again), unfolding(crate::specs::Records::in_header, crate::specs::Layout::FitsParts))]
    pub fn put(&self) -> [u8; InHeader::SIZE]
        ensures clean { result ≡ clean (in_header self.now) }
        ensures fits { FitsParts (in_header self.now) }
        ensures again { in_header_of result ≡ Some self.now }
    {
        let mut out = [0; InHeader::SIZE];
        in_header_fields!(put_fields, self, out);
        out
    }
}

macro_rules! out_header_fields {
    ($with:ident, $($place:tt)*) => {
        $with!($($place)*;
            len: u32 at 0..4,
            error: i32 at 4..8,
            unique: u64 at 8..16,
        )
    };
}

/// The header of each reply: `struct fuse_out_header` of Linux uapi `fuse.h`, protocol 7.38.
#[derive(Clone, Copy, Debug, PartialEq, Eq)]
pub struct OutHeader {
    /// The bytes of the whole reply, this header included.
    pub len: u32,
    /// 0 after a success, and else the negative number of an [`Errno`](crate::Errno), as -22 for EINVAL.
    pub error: i32,
    /// The number of the request that is answered.
    pub unique: u64,
}

impl OutHeader {
    /// The size of a reply's header, in bytes.
    pub const SIZE: usize = 16;

    /// Reads a record from its bytes: `None` exactly where there aren't 16 of them.
    #[tactic(auto, using(crate::proofs::Laws::spelled, crate::proofs::Laws::placed, crate::proofs::Laws::spelled_len), unfolding(crate::specs::Records::out_header_of, crate::specs::Records::out_header))]
    pub fn read(bytes: &[u8]) -> Option<OutHeader>
        ensures exact { result ≡ out_header_of bytes.now }
        ensures found { IfSome result (λ r. AreSpelled (out_header r) bytes.now) }
        ensures only { (r : OutHeader) → AreSpelled (out_header r) bytes.now → result ≡ Some r }
        ensures none { IsNone result ↔ (length bytes.now ≢ 16) }
    {
        if bytes.len() != OutHeader::SIZE {
            return None;
        }
        Some(out_header_fields!(take_fields, OutHeader, bytes))
    }

    /// The record's bytes.
    #[tactic(auto, using(crate::proofs::RecordLaws::out_header_again), unfolding(crate::specs::Records::out_header, crate::specs::Layout::FitsParts))]
    pub fn put(&self) -> [u8; OutHeader::SIZE]
        ensures clean { result ≡ clean (out_header self.now) }
        ensures fits { FitsParts (out_header self.now) }
        ensures again { out_header_of result ≡ Some self.now }
    {
        let mut out = [0; OutHeader::SIZE];
        out_header_fields!(put_fields, self, out);
        out
    }
}

macro_rules! read_in_fields {
    ($with:ident, $($place:tt)*) => {
        $with!($($place)*;
            fh: u64 at 0..8,
            offset: u64 at 8..16,
            size: u32 at 16..20,
            read_flags: u32 at 20..24,
            lock_owner: u64 at 24..32,
            flags: u32 at 32..36,
        )
    };
}

/// The body of FUSE_READ and FUSE_READDIR: `struct fuse_read_in` of Linux uapi `fuse.h`, protocol 7.38.
///
/// Four bytes of padding end it. They are ignored when read, and 0 when written.
#[derive(Clone, Copy, Debug, PartialEq, Eq)]
pub struct ReadIn {
    /// The open handle, as OPEN, CREATE or OPENDIR gave it.
    pub fh: u64,
    /// Where to read: a byte of the file, or the number of entries of the directory to pass over.
    pub offset: u64,
    /// How many bytes are wanted at most.
    pub size: u32,
    /// FUSE_READ_LOCKOWNER (2) where `lock_owner` counts.
    pub read_flags: u32,
    /// The owner of the file's locks.
    pub lock_owner: u64,
    /// The flags that the file was opened with, as `open(2)` takes them.
    pub flags: u32,
}

impl ReadIn {
    /// The size of a FUSE_READ's body, in bytes.
    pub const SIZE: usize = 40;

    /// Reads a record from its bytes: `None` exactly where there aren't 40 of them.
    /// Padding may be of any value.
    #[tactic(auto, using(crate::proofs::Laws::spelled, crate::proofs::Laws::placed, crate::proofs::Laws::spelled_len), unfolding(crate::specs::Records::read_in_of, crate::specs::Records::read_in))]
    pub fn read(bytes: &[u8]) -> Option<ReadIn>
        ensures exact { result ≡ read_in_of bytes.now }
        ensures found { IfSome result (λ r. AreSpelled (read_in r) bytes.now) }
        ensures only { (r : ReadIn) → AreSpelled (read_in r) bytes.now → result ≡ Some r }
        ensures none { IsNone result ↔ (length bytes.now ≢ 40) }
    {
        if bytes.len() != ReadIn::SIZE {
            return None;
        }
        Some(read_in_fields!(take_fields, ReadIn, bytes))
    }

    /// The record's bytes, with padding 0.
    #[tactic(auto, using(crate::proofs::RecordLaws::read_in_again), unfolding(crate::specs::Records::read_in, crate::specs::Layout::FitsParts))]
    pub fn put(&self) -> [u8; ReadIn::SIZE]
        ensures clean { result ≡ clean (read_in self.now) }
        ensures fits { FitsParts (read_in self.now) }
        ensures again { read_in_of result ≡ Some self.now }
    {
        let mut out = [0; ReadIn::SIZE];
        read_in_fields!(put_fields, self, out);
        out
    }
}

macro_rules! write_in_fields {
    ($with:ident, $($place:tt)*) => {
        $with!($($place)*;
            fh: u64 at 0..8,
            offset: u64 at 8..16,
            size: u32 at 16..20,
            write_flags: u32 at 20..24,
            lock_owner: u64 at 24..32,
            flags: u32 at 32..36,
        )
    };
}

/// The front of FUSE_WRITE's body, which the bytes to be written follow:
/// `struct fuse_write_in` of Linux uapi `fuse.h`, protocol 7.38.
///
/// Four bytes of padding end it. They are ignored when read, and 0 when written.
#[derive(Clone, Copy, Debug, PartialEq, Eq)]
pub struct WriteIn {
    /// The open handle, as OPEN or CREATE gave it.
    pub fh: u64,
    /// The byte of the file where the written ones begin.
    pub offset: u64,
    /// How many bytes are to be written.
    pub size: u32,
    /// FUSE_WRITE_CACHE (1), FUSE_WRITE_LOCKOWNER (2) and FUSE_WRITE_KILL_SUIDGID (4).
    pub write_flags: u32,
    /// The owner of the file's locks.
    pub lock_owner: u64,
    /// The flags that the file was opened with, as `open(2)` takes them.
    pub flags: u32,
}

impl WriteIn {
    /// The size of the front of a FUSE_WRITE's body, in bytes.
    pub const SIZE: usize = 40;

    /// Reads a record from its bytes: `None` exactly where there aren't 40 of them.
    /// Padding may be of any value.
    #[tactic(auto, using(crate::proofs::Laws::spelled, crate::proofs::Laws::placed, crate::proofs::Laws::spelled_len), unfolding(crate::specs::Records::write_in_of, crate::specs::Records::write_in))]
    pub fn read(bytes: &[u8]) -> Option<WriteIn>
        ensures exact { result ≡ write_in_of bytes.now }
        ensures found { IfSome result (λ r. AreSpelled (write_in r) bytes.now) }
        ensures only { (r : WriteIn) → AreSpelled (write_in r) bytes.now → result ≡ Some r }
        ensures none { IsNone result ↔ (length bytes.now ≢ 40) }
    {
        if bytes.len() != WriteIn::SIZE {
            return None;
        }
        Some(write_in_fields!(take_fields, WriteIn, bytes))
    }

    /// The record's bytes, with padding 0.
    #[tactic(auto, using(crate::proofs::RecordLaws::write_in_again), unfolding(crate::specs::Records::write_in, crate::specs::Layout::FitsParts))]
    pub fn put(&self) -> [u8; WriteIn::SIZE]
        ensures clean { result ≡ clean (write_in self.now) }
        ensures fits { FitsParts (write_in self.now) }
        ensures again { write_in_of result ≡ Some self.now }
    {
        let mut out = [0; WriteIn::SIZE];
        write_in_fields!(put_fields, self, out);
        out
    }
}

macro_rules! write_out_fields {
    ($with:ident, $($place:tt)*) => {
        $with!($($place)*;
            size: u32 at 0..4,
        )
    };
}

/// The body of FUSE_WRITE's reply: `struct fuse_write_out` of Linux uapi `fuse.h`, protocol 7.38.
///
/// Four bytes of padding end it. They are ignored when read, and 0 when written.
#[derive(Clone, Copy, Debug, PartialEq, Eq)]
pub struct WriteOut {
    /// How many bytes were written.
    pub size: u32,
}

impl WriteOut {
    /// The size of the body of a FUSE_WRITE's reply, in bytes.
    pub const SIZE: usize = 8;

    /// Reads a record from its bytes: `None` exactly where there aren't 8 of them.
    /// Padding may be of any value.
    #[tactic(auto, using(crate::proofs::Laws::spelled, crate::proofs::Laws::placed, crate::proofs::Laws::spelled_len), unfolding(crate::specs::Records::write_out_of, crate::specs::Records::write_out))]
    pub fn read(bytes: &[u8]) -> Option<WriteOut>
        ensures exact { result ≡ write_out_of bytes.now }
        ensures found { IfSome result (λ r. AreSpelled (write_out r) bytes.now) }
        ensures only { (r : WriteOut) → AreSpelled (write_out r) bytes.now → result ≡ Some r }
        ensures none { IsNone result ↔ (length bytes.now ≢ 8) }
    {
        if bytes.len() != WriteOut::SIZE {
            return None;
        }
        Some(write_out_fields!(take_fields, WriteOut, bytes))
    }

    /// The record's bytes, with padding 0.
    #[tactic(auto, using(crate::proofs::RecordLaws::write_out_again), unfolding(crate::specs::Records::write_out, crate::specs::Layout::FitsParts))]
    pub fn put(&self) -> [u8; WriteOut::SIZE]
        ensures clean { result ≡ clean (write_out self.now) }
        ensures fits { FitsParts (write_out self.now) }
        ensures again { write_out_of result ≡ Some self.now }
    {
        let mut out = [0; WriteOut::SIZE];
        write_out_fields!(put_fields, self, out);
        out
    }
}
