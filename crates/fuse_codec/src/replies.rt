use fuse_wire::{AttrOut, EntryOut, InitOut, OpenOut, WriteOut};
use plain_file::{Blob, Name};

/// What a request is answered.
#[derive(Debug, Drop, PartialEq, Eq)]
pub enum Reply {
    /// The request was refused.
    Error {
        /// The error's number: from 1 to 4095, as 22 for EINVAL. On the wire it is negative.
        number: i32,
    },
    /// LOOKUP.
    Entry(EntryOut),
    /// GETATTR and SETATTR.
    Attr(AttrOut),
    /// OPEN and OPENDIR.
    Opened(OpenOut),
    /// CREATE.
    Created {
        /// The file that was made, or that was there.
        entry: EntryOut,
        /// Its new open handle.
        opened: OpenOut,
    },
    /// READ and READDIR: at most 1,048,576 bytes.
    Bytes(Blob),
    /// WRITE.
    Wrote(WriteOut),
    /// INIT.
    Init(InitOut),
    /// All operations whose success has no body.
    Done,
}

/// An entry of a directory: `struct fuse_dirent` of Linux uapi `fuse.h`, protocol 7.38, with its name.
///
/// On the wire it has 24 bytes and the name, then bytes 0 up to the next multiple of 8.
#[derive(Debug, Drop, PartialEq, Eq)]
pub struct Dirent {
    /// The node of the entry.
    pub ino: u64,
    /// Where the entries after this one begin, as READDIR's `offset` names it.
    pub off: u64,
    /// The entry's kind, as the type bits of a mode shifted right by 12: 8 for a regular file.
    pub kind: u32,
    /// The entry's name.
    pub name: Name,
}
