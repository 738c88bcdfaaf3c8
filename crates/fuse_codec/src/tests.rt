use super::*;
use fuse_wire::{ForgetOne, RemoveOne, WriteIn};
use plain_file::{List, Memory};
use std::alloc::{AllocError, Global};
use std::process::Abort;
use std::test::Fail;
use test_bytes::{bytes_around, bytes_of};

mod bodies;
mod dirents;
mod replies;

// The header of most requests below from `unique` on, up to its padding, and how it is shown.
const HEAD: &str = "0102030405060708 0200000000000000 e8030000 64000000 92100000 0000";

const HEAD_TEXT: &str =
    "Head { unique: 578437695752307201, nodeid: 2, uid: 1000, gid: 100, pid: 4242 }";

// `len` and `opcode`, then the body with zeros for padding, the body with other padding, the room that
// the reply wants, and how the body is shown.
type Row = (
    &'static str,
    &'static str,
    &'static str,
    Option<u64>,
    &'static str,
);

const REQUESTS: [Row; 23] = [
    (
        "2b000000 01000000",
        "6162 00",
        "6162 00",
        Some(144),
        "Lookup { name: Name { bytes: List { items: [97, 98] } } }",
    ),
    (
        "2b000000 0a000000",
        "6630 00",
        "6630 00",
        Some(16),
        "Unlink { name: Name { bytes: List { items: [102, 48] } } }",
    ),
    (
        "3c000000 23000000",
        "c1000000 a4010000 12000000 02000000 6e6577 00",
        "c1000000 a4010000 12000000 02000000 6e6577 00",
        Some(160),
        "Create { head: CreateIn { flags: 193, mode: 420, umask: 18, open_flags: 2 }, name: Name { bytes: List { items: [110, 101, 119] } } }",
    ),
    (
        "38000000 03000000",
        "01000000 00000000 0900000000000000",
        "01000000 010000ff 0900000000000000",
        Some(120),
        "Getattr(GetattrIn { getattr_flags: 1, fh: 9 })",
    ),
    (
        "80000000 04000000",
        "48000000 00000000 0100000000000000 0200000000000000 0300000000000000 0400000000000000 0500000000000000 0600000000000000 07000000 08000000 09000000 0a000000 00000000 0b000000 0c000000 00000000",
        "48000000 ff000001 0100000000000000 0200000000000000 0300000000000000 0400000000000000 0500000000000000 0600000000000000 07000000 08000000 09000000 0a000000 02000002 0b000000 0c000000 03000003",
        Some(120),
        "Setattr(SetattrIn { valid: 72, fh: 1, size: 2, lock_owner: 3, atime: 4, mtime: 5, ctime: 6, atimensec: 7, mtimensec: 8, ctimensec: 9, mode: 10, uid: 11, gid: 12 })",
    ),
    (
        "30000000 0e000000",
        "02800000 01000000",
        "02800000 01000000",
        Some(32),
        "OpenFile(OpenIn { flags: 32770, open_flags: 1 })",
    ),
    (
        "30000000 1b000000",
        "02800000 01000000",
        "02800000 01000000",
        Some(32),
        "OpenDir(OpenIn { flags: 32770, open_flags: 1 })",
    ),
    (
        "40000000 12000000",
        "0500000000000000 02000000 01000000 0600000000000000",
        "0500000000000000 02000000 01000000 0600000000000000",
        Some(16),
        "Release(ReleaseIn { fh: 5, flags: 2, release_flags: 1, lock_owner: 6 })",
    ),
    (
        "40000000 1d000000",
        "0500000000000000 02000000 01000000 0600000000000000",
        "0500000000000000 02000000 01000000 0600000000000000",
        Some(16),
        "ReleaseDir(ReleaseIn { fh: 5, flags: 2, release_flags: 1, lock_owner: 6 })",
    ),
    (
        "50000000 0f000000",
        "0700000000000000 0000200000000000 09000000 02000000 0102000000000000 00800000 00000000",
        "0700000000000000 0000200000000000 09000000 02000000 0102000000000000 00800000 010000ff",
        Some(25),
        "Read(ReadIn { fh: 7, offset: 2097152, size: 9, read_flags: 2, lock_owner: 513, flags: 32768 })",
    ),
    (
        "50000000 1c000000",
        "0700000000000000 0000200000000000 09000000 02000000 0102000000000000 00800000 00000000",
        "0700000000000000 0000200000000000 09000000 02000000 0102000000000000 00800000 010000ff",
        Some(25),
        "ReadDir(ReadIn { fh: 7, offset: 2097152, size: 9, read_flags: 2, lock_owner: 513, flags: 32768 })",
    ),
    (
        "53000000 10000000",
        "0300000000000000 0807060504030201 03000000 01000000 5500000000000000 04000000 00000000 616263",
        "0300000000000000 0807060504030201 03000000 01000000 5500000000000000 04000000 ff000001 616263",
        Some(24),
        "Write { head: WriteIn { fh: 3, offset: 72623859790382856, size: 3, write_flags: 1, lock_owner: 85, flags: 4 }, bytes: List { items: [97, 98, 99] } }",
    ),
    (
        "38000000 14000000",
        "0500000000000000 01000000 00000000",
        "0500000000000000 01000000 01020304",
        Some(16),
        "Fsync(FsyncIn { fh: 5, fsync_flags: 1 })",
    ),
    (
        "40000000 19000000",
        "0500000000000000 00000000 00000000 0600000000000000",
        "0500000000000000 01000002 03000004 0600000000000000",
        Some(16),
        "Flush(FlushIn { fh: 5, lock_owner: 6 })",
    ),
    (
        "48000000 2b000000",
        "0500000000000000 0600000000000000 0700000000000000 03000000 00000000",
        "0500000000000000 0600000000000000 0700000000000000 03000000 01000001",
        Some(16),
        "Fallocate(FallocateIn { fh: 5, offset: 6, length: 7, mode: 3 })",
    ),
    (
        "38000000 1a000000",
        "07000000 1f000000 00000200 00000004",
        "07000000 1f000000 00000200 00000004",
        Some(80),
        "Init(InitIn { major: 7, minor: 31, max_readahead: 131072, flags: 67108864, flags2: None })",
    ),
    (
        "68000000 1a000000",
        "07000000 1f000000 00000200 00000004 05000000 0000000000000000 0000000000000000 0000000000000000 0000000000000000 0000000000000000 00000000",
        "07000000 1f000000 00000200 00000004 05000000 0100000000000000 0000000000000000 0000000000000000 0000000000000000 0000000000000000 000000ff",
        Some(80),
        "Init(InitIn { major: 7, minor: 31, max_readahead: 131072, flags: 67108864, flags2: Some(5) })",
    ),
    ("28000000 26000000", "", "", Some(16), "Destroy"),
    (
        "30000000 02000000",
        "0302000000000000",
        "0302000000000000",
        None,
        "Forget { nlookup: 515 }",
    ),
    (
        "30000000 2a000000",
        "00000000 00000000",
        "00000000 01000001",
        None,
        "BatchForget { ones: List { items: [] } }",
    ),
    (
        "50000000 2a000000",
        "02000000 00000000 0200000000000000 0100000000000000 0300000000000000 0001000000000000",
        "02000000 ffffffff 0200000000000000 0100000000000000 0300000000000000 0001000000000000",
        None,
        "BatchForget { ones: List { items: [ForgetOne { nodeid: 2, nlookup: 1 }, ForgetOne { nodeid: 3, nlookup: 256 }] } }",
    ),
    (
        "3c000000 31000000",
        "01000000 0000200000000000 0000200000000000",
        "01000000 0000200000000000 0000200000000000",
        Some(16),
        "Remove { ones: List { items: [RemoveOne { moffset: 2097152, len: 2097152 }] } }",
    ),
    (
        "50000000 30000000",
        "0500000000000000 0400000000000000 0300000000000000 0200000000000000 0100000000000000",
        "0500000000000000 0400000000000000 0300000000000000 0200000000000000 0100000000000000",
        Some(16),
        "Setup(SetupIn { fh: 5, foffset: 4, len: 3, flags: 2, moffset: 1 })",
    ),
];

fn decoded(rt: &impl Abort, alloc: Global, bytes: &[u8]) -> Result<Message, BadRequest> {
    assert!(rt; bytes.len() <= MAX_PART as usize);
    decode_request(alloc, bytes)
}

// What bytes are decoded as, or the reason against them.
fn said(rt: &impl Abort, alloc: Global, bytes: &[u8]) -> Result<String, Fail> {
    match decoded(rt, alloc, bytes) {
        Ok(message) => Ok(format!(in alloc; "{message:?}")?),
        Err(bad) => Ok(format!(in alloc; "{bad}")?),
    }
}

fn gathered(rt: &impl Abort, alloc: Global, bytes: &[u8]) -> Result<Gather, Memory> {
    let mut gather = Gather::new(alloc);
    for piece in bytes.chunks(1) {
        assert!(rt; gather.bytes().len() + piece.len() <= MAX_PART as usize);
        gather.push(piece)?;
    }
    Ok(gather)
}

// Asserts what bytes are decoded as, in one piece and in pieces of one byte.
fn check_said(rt: &impl Abort, alloc: Global, bytes: &[u8], wanted: &str) -> Result<(), Fail> {
    assert_eq!(rt; said(rt, alloc, bytes)?.as_str(), wanted);
    let gather = gathered(rt, alloc, bytes)?;
    assert_eq!(rt; said(rt, alloc, gather.bytes())?.as_str(), wanted);
    Ok(())
}

// Asserts that a message has these bytes, also where a WRITE's are borrowed.
fn check_bytes(
    rt: &impl Abort,
    alloc: Global,
    message: &Message,
    wanted: &[u8],
) -> Result<(), Fail> {
    assert!(rt; message.fits());
    assert!(rt; encode_request(alloc, message)?.as_slice() == wanted);
    if let Request::Write { head, bytes } = &message.body {
        assert!(rt; head.size as usize == bytes.len() && bytes.len() <= MAX_TRANSFER as usize);
        let written = encode_write(alloc, &message.head, head, bytes.as_slice())?;
        assert!(rt; written.as_slice() == wanted);
    }
    Ok(())
}

// Asserts that a request has these bytes both ways, and that other padding is passed over.
fn check_request(rt: &impl Abort, alloc: Global, row: Row) -> Result<(), Fail> {
    let (front, clean, dirty, room, shown) = row;
    let text = format!(in alloc; "Message {{ head: {HEAD_TEXT}, body: {shown} }}")?;
    let bytes = bytes_of(
        alloc,
        format!(in alloc; "{front} {HEAD} 0000 {clean}")?.as_str(),
    )?;
    check_said(rt, alloc, &bytes, text.as_str())?;
    match decoded(rt, alloc, &bytes) {
        Ok(message) => {
            assert!(rt; message.body.room() == room);
            check_bytes(rt, alloc, &message, &bytes)?;
        }
        Err(bad) => panic!(rt; "{bad}"),
    }
    let bytes = bytes_of(
        alloc,
        format!(in alloc; "{front} {HEAD} aabb {dirty}")?.as_str(),
    )?;
    check_said(rt, alloc, &bytes, text.as_str())
}

#[test]
fn requests_both_ways(rt: HostRuntime) -> Result<(), Fail> {
    for row in REQUESTS {
        check_request(&rt, rt.alloc(), row)?;
    }
    Ok(())
}

// A mapping of the second 2 MiB of a file at 4 MiB of the window, by node alone.
const MAPPING: &str =
    "50000000 30000000 0700000000000000 0200000000000000 00000000 00000000 00000000 00000000 ffffffffffffffff 0000200000000000 0000200000000000 0300000000000000 0000400000000000";

const MAPPING_TEXT: &str =
    "Message { head: Head { unique: 7, nodeid: 2, uid: 0, gid: 0, pid: 0 }, body: Setup(SetupIn { fh: 18446744073709551615, foffset: 2097152, len: 2097152, flags: 3, moffset: 4194304 }) }";

#[test]
fn behind_other_bytes(rt: HostRuntime) -> Result<(), Fail> {
    let alloc = rt.alloc();
    let bytes = bytes_of(alloc, MAPPING)?;
    check_said(&rt, alloc, &bytes, MAPPING_TEXT)?;
    let message = decoded(&rt, alloc, &bytes)?;
    let mut out = bytes_of(alloc, "6265666f7265")?;
    assert!(rt; message.fits());
    put_request(&mut out, &message)?;
    assert!(rt; out.starts_with(b"before") && out.ends_with(&bytes) && out.len() == 86);
    let mut gather = gathered(&rt, alloc, b"abcde")?;
    gather.push(b"")?;
    assert!(rt; gather.bytes() == b"abcde".as_slice());
    gather.clear();
    assert!(rt; gather.bytes().is_empty());
    gather.push(b"f")?;
    assert!(rt; gather.bytes() == b"f".as_slice());
    Ok(())
}

#[test]
fn opcodes(rt: HostRuntime) {
    let rows: [(Opcode, u32, &str, Option<u64>); 21] = [
        (Opcode::Lookup, 1, "lookup", Some(144)),
        (Opcode::Forget, 2, "forget", None),
        (Opcode::Getattr, 3, "getattr", Some(120)),
        (Opcode::Setattr, 4, "setattr", Some(120)),
        (Opcode::Unlink, 10, "unlink", Some(16)),
        (Opcode::OpenFile, 14, "open", Some(32)),
        (Opcode::Read, 15, "read", Some(25)),
        (Opcode::Write, 16, "write", Some(24)),
        (Opcode::Release, 18, "release", Some(16)),
        (Opcode::Fsync, 20, "fsync", Some(16)),
        (Opcode::Flush, 25, "flush", Some(16)),
        (Opcode::Init, 26, "init", Some(80)),
        (Opcode::OpenDir, 27, "opendir", Some(32)),
        (Opcode::ReadDir, 28, "readdir", Some(25)),
        (Opcode::ReleaseDir, 29, "releasedir", Some(16)),
        (Opcode::Create, 35, "create", Some(160)),
        (Opcode::Destroy, 38, "destroy", Some(16)),
        (Opcode::BatchForget, 42, "batch_forget", None),
        (Opcode::Fallocate, 43, "fallocate", Some(16)),
        (Opcode::Setup, 48, "setupmapping", Some(16)),
        (Opcode::Remove, 49, "removemapping", Some(16)),
    ];
    for (opcode, number, text, room) in rows {
        assert!(rt; opcode.number() == number && Opcode::of(number) == Some(opcode));
        assert!(rt; opcode.text() == text && opcode.reply_form().room(9) == room);
    }
    for number in [0, 5, 17, 50, 4294967295] {
        assert!(rt; Opcode::of(number).is_none());
    }
    no_prefix_requests();
    no_prefix_replies();
    fitting_is_the_longest_prefix();
}
