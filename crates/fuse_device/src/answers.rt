ghost use Rattle.std.specs.Prelude.{◌≡◌};
ghost use Rattle.fuse_device.specs.Entries.{session_flags, init_out_with, attr_with, dir_attr, attr_out_of};
ghost use Rattle.fuse_device.specs.Requests.{size_in, bytes_reply};

use fuse_codec::Reply;
use fuse_wire::{AttrOut, AttrRec, FUSE_MAP_ALIGNMENT, InitIn, InitOut};
use plain_file::{Answer, List, MAX_TRANSFER};
use std::alloc::Global;

/// The flags that a session has: direct access (bit 26) where it is asked for and the window has pages.
pub fn session_flags(pages: u32, r: &InitIn) -> u32
    ensures { result ≡ session_flags pages r.now }
{
    if pages == 0 {
        0
    } else {
        r.flags & FUSE_MAP_ALIGNMENT
    }
}

/// What a session with these flags is told.
pub fn init_out(flags: u32, r: &InitIn) -> InitOut
    ensures { result ≡ init_out_with flags r.now }
{
    InitOut {
        major: 7,
        minor: 31,
        max_readahead: r.max_readahead,
        flags,
        max_background: 16,
        congestion_threshold: 12,
        max_write: MAX_TRANSFER,
        time_gran: 1,
        max_pages: 0,
        map_alignment: if flags == 0 { 0 } else { 12 },
        flags2: 0,
    }
}

/// The attributes of a node, with this size in bytes, mode and number of links.
pub fn attr_with(node: u64, size: u64, mode: u32, nlink: u32) -> AttrRec
    ensures { result ≡ attr_with node size mode nlink }
{
    AttrRec {
        ino: node,
        size,
        blocks: size.div_ceil(512),
        atime: 0,
        mtime: 0,
        ctime: 0,
        atimensec: 0,
        mtimensec: 0,
        ctimensec: 0,
        mode,
        nlink,
        uid: 0,
        gid: 0,
        rdev: 0,
        blksize: 4096,
        flags: 0,
    }
}

/// The attributes of the directory.
#[tactic(auto, unfolding(crate::specs::Entries::dir_attr))]
pub fn dir_attr() -> AttrRec
    ensures { result ≡ dir_attr }
{
    attr_with(1, 0, 0o40755, 2)
}

/// Attributes that are good for no time.
pub fn attr_out_of(attr: AttrRec) -> AttrOut
    ensures { result ≡ attr_out_of attr }
{
    AttrOut {
        attr_valid: 0,
        attr_valid_nsec: 0,
        attr,
    }
}

/// The size that an operation on a file answered; 0 where it answered none.
#[tactic(auto, unfolding(crate::specs::Requests::size_in))]
pub fn size_in(answer: &Answer) -> u64
    ensures { result ≡ size_in answer.now }
{
    match answer {
        Answer::Size(n) => *n,
        Answer::Bytes(_) | Answer::Wrote(_) => 0,
    }
}

/// The reply to a read: the bytes that it answered; none where it answered none.
#[tactic(auto, unfolding(crate::specs::Requests::bytes_reply))]
pub fn bytes_reply(alloc: Global, answer: Answer) -> Reply
    ensures { result ≡ bytes_reply answer }
{
    match answer {
        Answer::Bytes(bytes) => Reply::Bytes(bytes),
        Answer::Wrote(_) | Answer::Size(_) => Reply::Bytes(List::new(alloc)),
    }
}
