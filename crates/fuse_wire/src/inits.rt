//! The beginning of a session.

ghost use Rattle.std.specs.Prelude.{◌≡◌, ◌≢◌, ◌↔◌, ◌≤◌, ◌-◌, take, drop, replicate, Some, length, IfSome, IsNone};
ghost use Rattle.fuse_wire.specs.Layout.{AreSpelled, FitsParts, clean, parts_len};
ghost use Rattle.fuse_wire.specs.Inits.{init_out, init_out_of, init_in, init_in_of};
ghost use Rattle.fuse_wire.specs.declared.inits.InitOut.{InitOut};
ghost use Rattle.fuse_wire.specs.declared.inits.InitIn.{InitIn};

#[cfg(test)]
mod tests;

use crate::fields::{put_fields, take_fields};
use crate::numbers::{u32_at, u32_bytes};

/// The bit of [`InitIn::flags`] and [`InitOut::flags`] that says that `map_alignment` counts:
/// `FUSE_MAP_ALIGNMENT` of Linux uapi `fuse.h`, protocol 7.38.
pub const FUSE_MAP_ALIGNMENT: u32 = 1 << 26;

macro_rules! init_in_fields {
    ($with:ident, $($place:tt)*) => {
        $with!($($place)*;
            major: u32 at 0..4,
            minor: u32 at 4..8,
            max_readahead: u32 at 8..12,
            flags: u32 at 12..16,
        )
    };
}

/// The body of FUSE_INIT: `struct fuse_init_in` of Linux uapi `fuse.h`, protocol 7.38.
///
/// It has two lengths. Up to protocol 7.35 it ends with `flags`, after 16 bytes. Since then it goes
/// on with `flags2` and eleven unused words, and has 64 bytes. The unused words are ignored when
/// read, and 0 when written.
#[derive(Clone, Copy, Debug, PartialEq, Eq)]
pub struct InitIn {
    /// The major version of the protocol, 7.
    pub major: u32,
    /// The minor version of the protocol that the guest speaks.
    pub minor: u32,
    /// How many bytes the guest would read ahead at most.
    pub max_readahead: u32,
    /// What the guest can do, [`FUSE_MAP_ALIGNMENT`] among it.
    pub flags: u32,
    /// Bits 32 and above of the flags, in the longer form alone.
    pub flags2: Option<u32>,
}

impl InitIn {
    /// The size of the longer form, in bytes.
    pub const SIZE: usize = 64;

    /// The size of the shorter form, in bytes.
    pub const SHORT_SIZE: usize = 16;

    /// Reads a record from its bytes: `None` exactly where there are neither 16 of them nor 64.
    /// `flags2` is `Some` exactly for the 64. Unused words may be of any value.
    #[tactic(auto, using(crate::proofs::Laws::spelled, crate::proofs::Laws::placed, crate::proofs::Laws::spelled_len), unfolding(crate::specs::Inits::init_in_of, crate::specs::Inits::init_in))]
    pub fn read(bytes: &[u8]) -> Option<InitIn>
        ensures exact { result ≡ init_in_of bytes.now }
        ensures found { IfSome result (λ r. AreSpelled (init_in r) bytes.now) }
        ensures only { (r : InitIn) → AreSpelled (init_in r) bytes.now → result ≡ Some r }
        ensures none { IsNone result ↔ ((length bytes.now ≢ 16) × (length bytes.now ≢ 64)) }
    {
        let flags2 = match bytes.len() {
            InitIn::SHORT_SIZE => None,
            InitIn::SIZE => Some(u32_at(bytes, 16)),
            _ => return None,
        };
        Some(init_in_fields!(take_fields, InitIn, bytes with flags2))
    }

    /// Writes the record's bytes at the front of `out`, with unused words 0, and zeros after them.
    /// The answer says how many they are: 64 where there is a `flags2`, and else 16.
    #[tactic(auto, using(crate::proofs::InitLaws::init_in_again), unfolding(crate::specs::Inits::init_in, crate::specs::Layout::FitsParts))]
    pub fn put(&self, out: &mut [u8; 64]) -> usize
        ensures len { result ≡ parts_len (init_in self.now) }
        ensures within { result ≤ 64 }
        ensures clean { take result out.new ≡ clean (init_in self.now) }
        ensures rest { drop result out.new ≡ replicate (64 - result) 0 }
        ensures fits { FitsParts (init_in self.now) }
        ensures again { init_in_of (take result out.new) ≡ Some self.now }
    {
        *out = [0; InitIn::SIZE];
        init_in_fields!(put_fields, self, out);
        match self.flags2 {
            None => InitIn::SHORT_SIZE,
            Some(flags2) => {
                out[16..20].copy_from_slice(&u32_bytes(flags2));
                InitIn::SIZE
            }
        }
    }
}

macro_rules! init_out_fields {
    ($with:ident, $($place:tt)*) => {
        $with!($($place)*;
            major: u32 at 0..4,
            minor: u32 at 4..8,
            max_readahead: u32 at 8..12,
            flags: u32 at 12..16,
            max_background: u16 at 16..18,
            congestion_threshold: u16 at 18..20,
            max_write: u32 at 20..24,
            time_gran: u32 at 24..28,
            max_pages: u16 at 28..30,
            map_alignment: u16 at 30..32,
            flags2: u32 at 32..36,
        )
    };
}

/// The body of FUSE_INIT's reply: `struct fuse_init_out` of Linux uapi `fuse.h`, protocol 7.38.
///
/// Seven unused words end it. They are ignored when read, and 0 when written.
#[derive(Clone, Copy, Debug, PartialEq, Eq)]
pub struct InitOut {
    /// The major version of the protocol, 7.
    pub major: u32,
    /// The minor version of the protocol that the daemon speaks.
    pub minor: u32,
    /// How many bytes may be read ahead at most.
    pub max_readahead: u32,
    /// What the daemon can do and the guest asked for, [`FUSE_MAP_ALIGNMENT`] among it.
    pub flags: u32,
    /// How many requests may wait in the background at most.
    pub max_background: u16,
    /// From how many such requests on the guest is to hold back.
    pub congestion_threshold: u16,
    /// How many bytes a FUSE_WRITE may have at most.
    pub max_write: u32,
    /// The step of times, in nanoseconds.
    pub time_gran: u32,
    /// How many pages a request may have at most, where FUSE_MAX_PAGES is among `flags`.
    pub max_pages: u16,
    /// The binary logarithm of what offsets of mappings are multiples of, in bytes: 12 for 4096.
    pub map_alignment: u16,
    /// Bits 32 and above of the flags.
    pub flags2: u32,
}

impl InitOut {
    /// The size of the body of a FUSE_INIT's reply, in bytes.
    pub const SIZE: usize = 64;

    /// Reads a record from its bytes: `None` exactly where there aren't 64 of them.
    /// Bytes without a field may be of any value.
    #[tactic(auto, using(crate::proofs::InitLaws::init_out_len), unfolding(crate::specs::Inits::init_out_of))]
    pub fn read(bytes: &[u8]) -> Option<InitOut>
        ensures exact { result ≡ init_out_of bytes.now }
        ensures found { IfSome result (λ r. AreSpelled (init_out r) bytes.now) }
        ensures only { (r : InitOut) → AreSpelled (init_out r) bytes.now → result ≡ Some r }
        ensures none { IsNone result ↔ (length bytes.now ≢ 64) }
    {
        if bytes.len() != InitOut::SIZE {
            return None;
        }
        Some(init_out_fields!(take_fields, InitOut, bytes))
    }

    /// The record's bytes, with 0 where no field stands.
    #[tactic(auto, using(crate::proofs::InitLaws::init_out_again))]
    pub fn put(&self) -> [u8; InitOut::SIZE]
        ensures clean { result ≡ clean (init_out self.now) }
        ensures fits { FitsParts (init_out self.now) }
        ensures again { init_out_of result ≡ Some self.now }
    {
        self.spelling()
    }

    // What `put` gives. The law that it is read again stands on these two clauses alone.
    #[tactic(auto, unfolding(crate::specs::Inits::init_out, crate::specs::Layout::FitsParts))]
    fn spelling(&self) -> [u8; InitOut::SIZE]
        ensures clean { result ≡ clean (init_out self.now) }
        ensures fits { FitsParts (init_out self.now) }
    {
        let mut out = [0; InitOut::SIZE];
        init_out_fields!(put_fields, self, out);
        out
    }
}
