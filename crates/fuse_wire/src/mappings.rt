//! Mappings of files into the window of direct access (DAX).

ghost use Rattle.std.specs.Prelude.{◌≡◌, ◌≢◌, ◌↔◌, Some, length, IfSome, IsNone};
ghost use Rattle.fuse_wire.specs.Layout.{AreSpelled, FitsParts, clean};
ghost use Rattle.fuse_wire.specs.Mappings.{setup_in, setup_in_of, remove_one, remove_one_of};
ghost use Rattle.fuse_wire.specs.declared.mappings.SetupIn.{SetupIn};
ghost use Rattle.fuse_wire.specs.declared.mappings.RemoveOne.{RemoveOne};

#[cfg(test)]
mod tests;

use crate::fields::{put_fields, take_fields};

/// The bit of [`SetupIn::flags`] for a mapping that may be written:
/// `FUSE_SETUPMAPPING_FLAG_WRITE` of Linux uapi `fuse.h`, protocol 7.38.
pub const FUSE_SETUPMAPPING_FLAG_WRITE: u64 = 1;

/// The bit of [`SetupIn::flags`] for a mapping that may be read:
/// `FUSE_SETUPMAPPING_FLAG_READ` of Linux uapi `fuse.h`, protocol 7.38.
pub const FUSE_SETUPMAPPING_FLAG_READ: u64 = 2;

macro_rules! setup_in_fields {
    ($with:ident, $($place:tt)*) => {
        $with!($($place)*;
            fh: u64 at 0..8,
            foffset: u64 at 8..16,
            len: u64 at 16..24,
            flags: u64 at 24..32,
            moffset: u64 at 32..40,
        )
    };
}

/// The body of FUSE_SETUPMAPPING: `struct fuse_setupmapping_in` of Linux uapi `fuse.h`, protocol
/// 7.38.
#[derive(Clone, Copy, Debug, PartialEq, Eq)]
pub struct SetupIn {
    /// The open handle, or 2^64 - 1 for none.
    pub fh: u64,
    /// The first byte of the file that is mapped.
    pub foffset: u64,
    /// How many bytes are mapped.
    pub len: u64,
    /// [`FUSE_SETUPMAPPING_FLAG_WRITE`] and [`FUSE_SETUPMAPPING_FLAG_READ`].
    pub flags: u64,
    /// The first byte of the window that is set.
    pub moffset: u64,
}

impl SetupIn {
    /// The size of a FUSE_SETUPMAPPING's body, in bytes.
    pub const SIZE: usize = 40;

    /// Reads a record from its bytes: `None` exactly where there aren't 40 of them.
    #[tactic(auto, using(crate::proofs::Laws::spelled, crate::proofs::Laws::placed, crate::proofs::Laws::spelled_len), unfolding(crate::specs::Mappings::setup_in_of, crate::specs::Mappings::setup_in))]
    pub fn read(bytes: &[u8]) -> Option<SetupIn>
        ensures exact { result ≡ setup_in_of bytes.now }
        ensures found { IfSome result (λ r. AreSpelled (setup_in r) bytes.now) }
        ensures only { (r : SetupIn) → AreSpelled (setup_in r) bytes.now → result ≡ Some r }
        ensures none { IsNone result ↔ (length bytes.now ≢ 40) }
    {
        if bytes.len() != SetupIn::SIZE {
            return None;
        }
        Some(setup_in_fields!(take_fields, SetupIn, bytes))
    }

    /// The record's bytes.
    #[tactic(auto, using(crate::proofs::MappingLaws::setup_in_again), unfolding(crate::specs::Mappings::setup_in, crate::specs::Layout::FitsParts))]
    pub fn put(&self) -> [u8; SetupIn::SIZE]
        ensures clean { result ≡ clean (setup_in self.now) }
        ensures fits { FitsParts (setup_in self.now) }
        ensures again { setup_in_of result ≡ Some self.now }
    {
        let mut out = [0; SetupIn::SIZE];
        setup_in_fields!(put_fields, self, out);
        out
    }
}

macro_rules! remove_one_fields {
    ($with:ident, $($place:tt)*) => {
        $with!($($place)*;
            moffset: u64 at 0..8,
            len: u64 at 8..16,
        )
    };
}

/// An interval in the body of FUSE_REMOVEMAPPING: `struct fuse_removemapping_one` of Linux uapi
/// `fuse.h`, protocol 7.38.
#[derive(Clone, Copy, Debug, PartialEq, Eq)]
pub struct RemoveOne {
    /// The first byte of the window that is cleared.
    pub moffset: u64,
    /// How many bytes of the window are cleared.
    pub len: u64,
}

impl RemoveOne {
    /// The size of an interval in a FUSE_REMOVEMAPPING's body, in bytes.
    pub const SIZE: usize = 16;

    /// Reads a record from its bytes: `None` exactly where there aren't 16 of them.
    #[tactic(auto, using(crate::proofs::Laws::spelled, crate::proofs::Laws::placed, crate::proofs::Laws::spelled_len), unfolding(crate::specs::Mappings::remove_one_of, crate::specs::Mappings::remove_one))]
    pub fn read(bytes: &[u8]) -> Option<RemoveOne>
        ensures exact { result ≡ remove_one_of bytes.now }
        ensures found { IfSome result (λ r. AreSpelled (remove_one r) bytes.now) }
        ensures only { (r : RemoveOne) → AreSpelled (remove_one r) bytes.now → result ≡ Some r }
        ensures none { IsNone result ↔ (length bytes.now ≢ 16) }
    {
        if bytes.len() != RemoveOne::SIZE {
            return None;
        }
        Some(remove_one_fields!(take_fields, RemoveOne, bytes))
    }

    /// The record's bytes.
    #[tactic(auto, using(crate::proofs::MappingLaws::remove_one_again), unfolding(crate::specs::Mappings::remove_one, crate::specs::Layout::FitsParts))]
    pub fn put(&self) -> [u8; RemoveOne::SIZE]
        ensures clean { result ≡ clean (remove_one self.now) }
        ensures fits { FitsParts (remove_one self.now) }
        ensures again { remove_one_of result ≡ Some self.now }
    {
        let mut out = [0; RemoveOne::SIZE];
        remove_one_fields!(put_fields, self, out);
        out
    }
}
