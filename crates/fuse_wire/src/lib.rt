//! The records of FUSE requests and replies as bytes, after Linux uapi `fuse.h`, protocol 7.38.
//!
//! Each record is a struct with the fields of its `struct` there, without the padding. `read` takes
//! it from exactly its bytes, and `put` gives its bytes. All numbers are little-endian, whatever
//! machine this runs on. Padding is ignored when read, and 0 when written.
//!
//! What a record is on the wire stands in `specs/`: `Layout` says what it is that bytes spell a list
//! of parts. `Records`, `Attributes`, `Opens`, `Inits`, `Forgets` and `Mappings` give each record's
//! parts and the same record by its offsets. `Errno` gives the numbers of the errors.
//!
//! The crates above stand on two laws of `proofs/`. `RecordLaws` and the laws of each further topic
//! have one `IsRecord` a record: what is read is spelled, and what is spelled is read. For
//! [`InitIn`], which has two lengths, `init_in_found` and `init_in_read` of `InitLaws` say so.
//! `clean_spells` of `Laws` says that what `put` gives is a spelling.
#![tactic(auto)]

mod attributes;
mod errno;
mod fields;
mod forgets;
mod inits;
mod mappings;
mod numbers;
mod opens;
mod records;
#[cfg(test)]
mod tests;

pub use attributes::{
    AttrOut, AttrRec, EntryOut, FATTR_FH, FATTR_SIZE, FUSE_GETATTR_FH, GetattrIn, SetattrIn,
};
pub use errno::Errno;
pub use forgets::{ForgetIn, ForgetOne};
pub use inits::{FUSE_MAP_ALIGNMENT, InitIn, InitOut};
pub use mappings::{FUSE_SETUPMAPPING_FLAG_READ, FUSE_SETUPMAPPING_FLAG_WRITE, RemoveOne, SetupIn};
pub use numbers::{i32_at, i32_bytes, u16_at, u16_bytes, u32_at, u32_bytes, u64_at, u64_bytes};
pub use opens::{CreateIn, FallocateIn, FlushIn, FsyncIn, O_EXCL, OpenIn, OpenOut, ReleaseIn};
pub use records::{InHeader, OutHeader, ReadIn, WriteIn, WriteOut};
