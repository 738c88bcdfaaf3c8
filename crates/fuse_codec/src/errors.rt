ghost use Rattle.std.specs.Prelude.{◌≡◌};

use plain_file::Memory;
use thiserror::Error;

/// Why bytes are no request: the first reason, in this order.
#[derive(Clone, Copy, Debug, PartialEq, Eq, Error)]
pub enum BadRequest {
    /// There are fewer than the 40 bytes of a header.
    #[error("fewer bytes than a header has")]
    Short,
    /// The header's `len` isn't the number of bytes.
    #[error("the header says {said} bytes, there are {had}")]
    Length {
        /// What the header says.
        said: u32,
        /// How many bytes there are.
        had: u32,
    },
    /// The header announces extensions, which the profile hasn't.
    #[error("extensions of {n} times 8 bytes")]
    Extended {
        /// The header's `total_extlen`.
        n: u16,
    },
    /// No operation of the profile has the header's `opcode`.
    #[error("no operation has the number {n}")]
    Opcode {
        /// The header's `opcode`.
        n: u32,
    },
    /// What follows the header isn't what the operation's grammar says.
    #[error("the body isn't one of operation {opcode}")]
    Body {
        /// The header's `opcode`.
        opcode: u32,
    },
    /// Memory for the request was refused. No other reason holds then.
    #[error("out of memory")]
    Memory,
}

impl From<Memory> for BadRequest {
    ghost use Rattle.fuse_codec.specs.declared.errors.BadRequest.TheVariants as bad_requests;

    ghost from_gives = { λ _ e. e ≡ bad_requests.Memory };

    fn from(_: Memory) -> BadRequest {
        BadRequest::Memory
    }
}

/// Why bytes are no reply: the first reason, in this order.
#[derive(Clone, Copy, Debug, PartialEq, Eq, Error)]
pub enum BadReply {
    /// There are fewer than the 16 bytes of a header.
    #[error("fewer bytes than a header has")]
    Short,
    /// The header's `len` isn't the number of bytes.
    #[error("the header says {said} bytes, there are {had}")]
    Length {
        /// What the header says.
        said: u32,
        /// How many bytes there are.
        had: u32,
    },
    /// The header's `error` is above 0 or below -4095.
    #[error("no error has the number {n}")]
    ErrorCode {
        /// The header's `error`.
        n: i32,
    },
    /// An error has a body, or a success's body isn't of the operation's form.
    #[error("the body isn't one of the operation's replies")]
    Body,
    /// Memory for the reply was refused. No other reason holds then.
    #[error("out of memory")]
    Memory,
}

impl From<Memory> for BadReply {
    ghost use Rattle.fuse_codec.specs.declared.errors.BadReply.TheVariants as bad_replies;

    ghost from_gives = { λ _ e. e ≡ bad_replies.Memory };

    fn from(_: Memory) -> BadReply {
        BadReply::Memory
    }
}

/// Why bytes aren't whole directory entries.
#[derive(Clone, Copy, Debug, PartialEq, Eq, Error)]
pub enum BadDirents {
    /// An entry isn't whole.
    #[error("the entry at byte {at} isn't whole")]
    Cut {
        /// The offset at which the first entry that isn't whole begins, in bytes.
        at: u64,
    },
    /// Memory for the entries was refused.
    #[error("out of memory")]
    Memory,
}

impl From<Memory> for BadDirents {
    ghost use Rattle.fuse_codec.specs.declared.errors.BadDirents.TheVariants as bad_dirents;

    ghost from_gives = { λ _ e. e ≡ bad_dirents.Memory };

    fn from(_: Memory) -> BadDirents {
        BadDirents::Memory
    }
}
