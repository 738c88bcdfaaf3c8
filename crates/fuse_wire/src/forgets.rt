//! Lookups that the guest gives back.

ghost use Rattle.std.specs.Prelude.{◌≡◌, ◌≢◌, ◌↔◌, Some, length, IfSome, IsNone};
ghost use Rattle.fuse_wire.specs.Layout.{AreSpelled, FitsParts, clean};
ghost use Rattle.fuse_wire.specs.Forgets.{forget_in, forget_in_of, forget_one, forget_one_of};
ghost use Rattle.fuse_wire.specs.declared.forgets.ForgetIn.{ForgetIn};
ghost use Rattle.fuse_wire.specs.declared.forgets.ForgetOne.{ForgetOne};

#[cfg(test)]
mod tests;

use crate::fields::{put_fields, take_fields};

macro_rules! forget_in_fields {
    ($with:ident, $($place:tt)*) => {
        $with!($($place)*;
            nlookup: u64 at 0..8,
        )
    };
}

/// The body of FUSE_FORGET: `struct fuse_forget_in` of Linux uapi `fuse.h`, protocol 7.38.
#[derive(Clone, Copy, Debug, PartialEq, Eq)]
pub struct ForgetIn {
    /// How many lookups of the node are given back.
    pub nlookup: u64,
}

impl ForgetIn {
    /// The size of a FUSE_FORGET's body, in bytes.
    pub const SIZE: usize = 8;

    /// Reads a record from its bytes: `None` exactly where there aren't 8 of them.
    #[tactic(auto, using(crate::proofs::Laws::spelled, crate::proofs::Laws::placed, crate::proofs::Laws::spelled_len), unfolding(crate::specs::Forgets::forget_in_of, crate::specs::Forgets::forget_in))]
    pub fn read(bytes: &[u8]) -> Option<ForgetIn>
        ensures exact { result ≡ forget_in_of bytes.now }
        ensures found { IfSome result (λ r. AreSpelled (forget_in r) bytes.now) }
        ensures only { (r : ForgetIn) → AreSpelled (forget_in r) bytes.now → result ≡ Some r }
        ensures none { IsNone result ↔ (length bytes.now ≢ 8) }
    {
        if bytes.len() != ForgetIn::SIZE {
            return None;
        }
        Some(forget_in_fields!(take_fields, ForgetIn, bytes))
    }

    /// The record's bytes.
    #[tactic(auto, using(crate::proofs::ForgetLaws::forget_in_again), unfolding(crate::specs::Forgets::forget_in, crate::specs::Layout::FitsParts))]
    pub fn put(&self) -> [u8; ForgetIn::SIZE]
        ensures clean { result ≡ clean (forget_in self.now) }
        ensures fits { FitsParts (forget_in self.now) }
        ensures again { forget_in_of result ≡ Some self.now }
    {
        let mut out = [0; ForgetIn::SIZE];
        forget_in_fields!(put_fields, self, out);
        out
    }
}

macro_rules! forget_one_fields {
    ($with:ident, $($place:tt)*) => {
        $with!($($place)*;
            nodeid: u64 at 0..8,
            nlookup: u64 at 8..16,
        )
    };
}

/// A node in the body of FUSE_BATCH_FORGET: `struct fuse_forget_one` of Linux uapi `fuse.h`,
/// protocol 7.38.
#[derive(Clone, Copy, Debug, PartialEq, Eq)]
pub struct ForgetOne {
    /// The node.
    pub nodeid: u64,
    /// How many lookups of the node are given back.
    pub nlookup: u64,
}

impl ForgetOne {
    /// The size of a node in a FUSE_BATCH_FORGET's body, in bytes.
    pub const SIZE: usize = 16;

    /// Reads a record from its bytes: `None` exactly where there aren't 16 of them.
    #[tactic(auto, using(crate::proofs::Laws::spelled, crate::proofs::Laws::placed, crate::proofs::Laws::spelled_len), unfolding(crate::specs::Forgets::forget_one_of, crate::specs::Forgets::forget_one))]
    pub fn read(bytes: &[u8]) -> Option<ForgetOne>
        ensures exact { result ≡ forget_one_of bytes.now }
        ensures found { IfSome result (λ r. AreSpelled (forget_one r) bytes.now) }
        ensures only { (r : ForgetOne) → AreSpelled (forget_one r) bytes.now → result ≡ Some r }
        ensures none { IsNone result ↔ (length bytes.now ≢ 16) }
    {
        if bytes.len() != ForgetOne::SIZE {
            return None;
        }
        Some(forget_one_fields!(take_fields, ForgetOne, bytes))
    }

    /// The record's bytes.
    #[tactic(auto, using(crate::proofs::ForgetLaws::forget_one_again), unfolding(crate::specs::Forgets::forget_one, crate::specs::Layout::FitsParts))]
    pub fn put(&self) -> [u8; ForgetOne::SIZE]
        ensures clean { result ≡ clean (forget_one self.now) }
        ensures fits { FitsParts (forget_one self.now) }
        ensures again { forget_one_of result ≡ Some self.now }
    {
        let mut out = [0; ForgetOne::SIZE];
        forget_one_fields!(put_fields, self, out);
        out
    }
}
