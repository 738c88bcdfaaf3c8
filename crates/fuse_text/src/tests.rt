use super::*;
use fuse_codec::{BadRequest, MAX_PART, Reply, answer_form, decode_reply, decode_request};
use std::alloc::Global;
use std::process::Abort;
use std::test::Fail;
use test_bytes::bytes_of;

// The bytes of a request and its line. The users and processes of the header stand in no line.
const REQUESTS: [(&str, &str); 25] = [
    (
        "2a000000 01000000 0200000000000000 0100000000000000 e8030000 64000000 92100000 0000 0000 6100",
        "lookup unique=2 node=1 name=61",
    ),
    (
        "2d000000 0a000000 0300000000000000 0100000000000000 e8030000 64000000 92100000 0000 0000 4f20ff0100",
        "unlink unique=3 node=1 name=4f20ff01",
    ),
    (
        "40000000 23000000 0400000000000000 0100000000000000 e8030000 64000000 92100000 0000 0000 c2000000 a4810000 12000000 01000000 6e65772e74787400",
        "create unique=4 node=1 flags=194 mode=33188 umask=18 open_flags=1 name=6e65772e747874",
    ),
    (
        "30000000 0e000000 0500000000000000 0200000000000000 e8030000 64000000 92100000 0000 0000 02800000 01000000",
        "open unique=5 node=2 flags=32770 open_flags=1",
    ),
    (
        "30000000 1b000000 0600000000000000 0100000000000000 e8030000 64000000 92100000 0000 0000 02800000 01000000",
        "opendir unique=6 node=1 flags=32770 open_flags=1",
    ),
    (
        "40000000 12000000 0700000000000000 0200000000000000 e8030000 64000000 92100000 0000 0000 0900000000000000 02800000 02000000 4d00000000000000",
        "release unique=7 node=2 fh=9 flags=32770 release_flags=2 lock_owner=77",
    ),
    (
        "40000000 1d000000 0800000000000000 0100000000000000 e8030000 64000000 92100000 0000 0000 0900000000000000 02800000 02000000 4d00000000000000",
        "releasedir unique=8 node=1 fh=9 flags=32770 release_flags=2 lock_owner=77",
    ),
    (
        "38000000 14000000 0900000000000000 0200000000000000 e8030000 64000000 92100000 0000 0000 0900000000000000 01000000 00000000",
        "fsync unique=9 node=2 fh=9 fsync_flags=1",
    ),
    (
        "40000000 19000000 0a00000000000000 0200000000000000 e8030000 64000000 92100000 0000 0000 0900000000000000 00000000 00000000 4d00000000000000",
        "flush unique=10 node=2 fh=9 lock_owner=77",
    ),
    (
        "50000000 0f000000 0b00000000000000 0200000000000000 e8030000 64000000 92100000 0000 0000 0900000000000000 0000000400000000 00100000 02000000 4d00000000000000 00800000 00000000",
        "read unique=11 node=2 fh=9 offset=67108864 size=4096 read_flags=2 lock_owner=77 flags=32768",
    ),
    (
        "50000000 1c000000 0c00000000000000 0100000000000000 e8030000 64000000 92100000 0000 0000 0900000000000000 0000000400000000 00100000 02000000 4d00000000000000 00800000 00000000",
        "readdir unique=12 node=1 fh=9 offset=67108864 size=4096 read_flags=2 lock_owner=77 flags=32768",
    ),
    (
        "54000000 10000000 0d00000000000000 0200000000000000 e8030000 64000000 92100000 0000 0000 0900000000000000 ffffffffffffffff 04000000 04000000 4d00000000000000 01800000 00000000 000fa0ff",
        "write unique=13 node=2 fh=9 offset=18446744073709551615 size=4 write_flags=4 lock_owner=77 flags=32769 bytes=000fa0ff",
    ),
    (
        "50000000 10000000 0e00000000000000 0200000000000000 e8030000 64000000 92100000 0000 0000 0000000000000000 0000000000000000 00000000 00000000 0000000000000000 00000000 00000000",
        "write unique=14 node=2 fh=0 offset=0 size=0 write_flags=0 lock_owner=0 flags=0 bytes=",
    ),
    (
        "48000000 2b000000 0f00000000000000 0200000000000000 e8030000 64000000 92100000 0000 0000 0900000000000000 0010000000000000 0020000000000000 03000000 00000000",
        "fallocate unique=15 node=2 fh=9 offset=4096 length=8192 mode=3",
    ),
    (
        "38000000 03000000 1000000000000000 0200000000000000 e8030000 64000000 92100000 0000 0000 01000000 00000000 0900000000000000",
        "getattr unique=16 node=2 getattr_flags=1 fh=9",
    ),
    (
        "80000000 04000000 1100000000000000 0200000000000000 e8030000 64000000 92100000 0000 0000 48000000 00000000 0900000000000000 0010000000000000 4d00000000000000 0b00000000000000 0c00000000000000 0d00000000000000 15000000 16000000 17000000 a4810000 00000000 e9030000 65000000 00000000",
        "setattr unique=17 node=2 valid=72 fh=9 size=4096 lock_owner=77 atime=11 mtime=12 ctime=13 atimensec=21 mtimensec=22 ctimensec=23 mode=33188 uid=1001 gid=101",
    ),
    (
        "38000000 1a000000 0100000000000000 0000000000000000 e8030000 64000000 92100000 0000 0000 07000000 1f000000 00000200 00000004",
        "init unique=1 node=0 major=7 minor=31 max_readahead=131072 flags=67108864",
    ),
    (
        "68000000 1a000000 0100000000000000 0000000000000000 e8030000 64000000 92100000 0000 0000 07000000 1f000000 00000200 00000004 00000000 00000000 00000000 00000000 00000000 00000000 00000000 00000000 00000000 00000000 00000000 00000000",
        "init unique=1 node=0 major=7 minor=31 max_readahead=131072 flags=67108864 flags2=0",
    ),
    (
        "28000000 26000000 ffffffffffffffff 0000000000000000 e8030000 64000000 92100000 0000 0000",
        "destroy unique=18446744073709551615 node=0",
    ),
    (
        "30000000 02000000 1200000000000000 0200000000000000 e8030000 64000000 92100000 0000 0000 ffffffffffffffff",
        "forget unique=18 node=2 nlookup=18446744073709551615",
    ),
    (
        "50000000 2a000000 1300000000000000 0000000000000000 e8030000 64000000 92100000 0000 0000 02000000 00000000 0200000000000000 0100000000000000 ffffffffffffffff 0300000000000000",
        "batch_forget unique=19 node=0 count=2 nodeid=2 nlookup=1 nodeid=18446744073709551615 nlookup=3",
    ),
    (
        "30000000 2a000000 1400000000000000 0000000000000000 e8030000 64000000 92100000 0000 0000 00000000 00000000",
        "batch_forget unique=20 node=0 count=0",
    ),
    (
        "50000000 30000000 0700000000000000 0200000000000000 e8030000 64000000 92100000 0000 0000 ffffffffffffffff 0000200000000000 0000200000000000 0300000000000000 0000400000000000",
        "setupmapping unique=7 node=2 fh=18446744073709551615 foffset=2097152 len=2097152 flags=3 moffset=4194304",
    ),
    (
        "4c000000 31000000 1500000000000000 0200000000000000 e8030000 64000000 92100000 0000 0000 02000000 0000400000000000 0000200000000000 0000000000000000 0010000000000000",
        "removemapping unique=21 node=2 count=2 moffset=4194304 len=2097152 moffset=0 len=4096",
    ),
    (
        "2c000000 31000000 1600000000000000 0200000000000000 e8030000 64000000 92100000 0000 0000 00000000",
        "removemapping unique=22 node=2 count=0",
    ),
];

// A request's operation, the bytes of a reply to it, and their line.
const REPLIES: [(u32, &str, &str); 12] = [
    (18, "10000000 00000000 0700000000000000", "ok unique=7"),
    (
        38,
        "10000000 00000000 ffffffffffffffff",
        "ok unique=18446744073709551615",
    ),
    (
        48,
        "10000000 eaffffff 0700000000000000",
        "error=22 unique=7",
    ),
    (
        15,
        "10000000 01f0ffff 0800000000000000",
        "error=4095 unique=8",
    ),
    (
        14,
        "20000000 00000000 0b00000000000000 0300000000000000 02000000 00000000",
        "ok unique=11 fh=3 open_flags=2",
    ),
    (
        16,
        "18000000 00000000 0c00000000000000 00100000 00000000",
        "ok unique=12 size=4096",
    ),
    (
        15,
        "14000000 00000000 0d00000000000000 000fa0ff",
        "ok unique=13 bytes=000fa0ff",
    ),
    (
        28,
        "10000000 00000000 0e00000000000000",
        "ok unique=14 bytes=",
    ),
    (
        26,
        "50000000 00000000 0100000000000000 07000000 1f000000 00000200 00000004 1000 0c00 00001000 01000000 0000 0c00 00000000 00000000 00000000 00000000 00000000 00000000 00000000 00000000",
        "ok unique=1 major=7 minor=31 max_readahead=131072 flags=67108864 max_background=16 congestion_threshold=12 max_write=1048576 time_gran=1 max_pages=0 map_alignment=12 flags2=0",
    ),
    (
        3,
        "78000000 00000000 0f00000000000000 2900000000000000 2a000000 00000000 0200000000000000 0104000000000000 0300000000000000 0b00000000000000 0c00000000000000 0d00000000000000 15000000 16000000 17000000 a4810000 01000000 e9030000 65000000 1f000000 00100000 20000000",
        "ok unique=15 attr_valid=41 attr_valid_nsec=42 ino=2 size=1025 blocks=3 atime=11 mtime=12 ctime=13 atimensec=21 mtimensec=22 ctimensec=23 mode=33188 nlink=1 uid=1001 gid=101 rdev=31 blksize=4096 flags=32",
    ),
    (
        1,
        "90000000 00000000 1000000000000000 0200000000000000 3300000000000000 3400000000000000 3500000000000000 36000000 37000000 0200000000000000 0104000000000000 0300000000000000 0b00000000000000 0c00000000000000 0d00000000000000 15000000 16000000 17000000 a4810000 01000000 e9030000 65000000 1f000000 00100000 20000000",
        "ok unique=16 nodeid=2 generation=51 entry_valid=52 attr_valid=53 entry_valid_nsec=54 attr_valid_nsec=55 ino=2 size=1025 blocks=3 atime=11 mtime=12 ctime=13 atimensec=21 mtimensec=22 ctimensec=23 mode=33188 nlink=1 uid=1001 gid=101 rdev=31 blksize=4096 flags=32",
    ),
    (
        35,
        "a0000000 00000000 1100000000000000 0200000000000000 3300000000000000 3400000000000000 3500000000000000 36000000 37000000 0200000000000000 0104000000000000 0300000000000000 0b00000000000000 0c00000000000000 0d00000000000000 15000000 16000000 17000000 a4810000 01000000 e9030000 65000000 1f000000 00100000 20000000 0300000000000000 02000000 00000000",
        "ok unique=17 nodeid=2 generation=51 entry_valid=52 attr_valid=53 entry_valid_nsec=54 attr_valid_nsec=55 ino=2 size=1025 blocks=3 atime=11 mtime=12 ctime=13 atimensec=21 mtimensec=22 ctimensec=23 mode=33188 nlink=1 uid=1001 gid=101 rdev=31 blksize=4096 flags=32 fh=3 open_flags=2",
    ),
];

fn check_request(rt: &impl Abort, alloc: Global, text: &str, want: &str) -> Result<(), Fail> {
    let bytes = bytes_of(alloc, text)?;
    assert!(rt; bytes.len() <= MAX_PART as usize);
    let message = decode_request(alloc, &bytes)?;
    let mut out = Vec::new(alloc);
    put_line(&mut out, &message)?;
    let line = line_of(alloc, &message)?;
    assert_eq!(rt;
        (out.as_slice(), line.as_slice()),
        (want.as_bytes(), want.as_bytes())
    );
    Ok(())
}

#[test]
fn requests(rt: HostRuntime) -> Result<(), Fail> {
    for (bytes, want) in REQUESTS {
        check_request(&rt, rt.alloc(), bytes, want)?;
    }
    Ok(())
}

fn check_reply(
    rt: &impl Abort,
    alloc: Global,
    unique: u64,
    reply: &Reply,
    want: &str,
) -> Result<(), Fail> {
    let mut out = Vec::new(alloc);
    put_reply_line(&mut out, reply, unique)?;
    let line = line_of_reply(alloc, reply, unique)?;
    assert_eq!(rt;
        (out.as_slice(), line.as_slice()),
        (want.as_bytes(), want.as_bytes())
    );
    Ok(())
}

fn check_reply_bytes(
    rt: &impl Abort,
    alloc: Global,
    opcode: u32,
    text: &str,
    want: &str,
) -> Result<(), Fail> {
    let bytes = bytes_of(alloc, text)?;
    assert!(rt; answer_form(opcode).is_some() && bytes.len() <= MAX_PART as usize);
    let (unique, reply) = decode_reply(alloc, opcode, &bytes)?;
    check_reply(rt, alloc, unique, &reply, want)
}

#[test]
fn replies(rt: HostRuntime) -> Result<(), Fail> {
    for (opcode, bytes, want) in REPLIES {
        check_reply_bytes(&rt, rt.alloc(), opcode, bytes, want)?;
    }
    // No error's numbers: what the printing makes of them.
    for (unique, number, want) in [
        (9, 0, "error=0 unique=9"),
        (10, -2147483648, "error=-2147483648 unique=10"),
    ] {
        check_reply(&rt, rt.alloc(), unique, &Reply::Error { number }, want)?;
    }
    Ok(())
}

fn check_bad(rt: &impl Abort, alloc: Global, bad: BadRequest, want: &str) -> Result<(), Fail> {
    assert!(rt; bad != BadRequest::Memory);
    let mut out = Vec::new(alloc);
    put_bad_line(&mut out, &bad)?;
    let line = line_of_bad(alloc, &bad)?;
    assert_eq!(rt;
        (out.as_slice(), line.as_slice()),
        (want.as_bytes(), want.as_bytes())
    );
    Ok(())
}

#[test]
fn bad_requests(rt: HostRuntime) -> Result<(), Fail> {
    for (bad, want) in [
        (BadRequest::Short, "bad short"),
        (
            BadRequest::Length { said: 41, had: 40 },
            "bad length said=41 had=40",
        ),
        (BadRequest::Extended { n: 65535 }, "bad extended n=65535"),
        (BadRequest::Opcode { n: 17 }, "bad opcode n=17"),
        (BadRequest::Body { opcode: 49 }, "bad body opcode=49"),
    ] {
        check_bad(&rt, rt.alloc(), bad, want)?;
    }
    Ok(())
}

// The last field has more bytes than a whole WRITE, and nothing of what stood before is lost.
#[test]
fn fields_of_other_lines(rt: HostRuntime) -> Result<(), Fail> {
    let bytes = vec![in rt.alloc(); 0xa5; 1048577]?;
    let mut out = Vec::from_slice(rt.alloc(), b"store")?;
    put_field(&mut out, "moffset", 0)?;
    put_field(&mut out, "len", 18446744073709551615)?;
    put_hex_field(&mut out, "bytes", &[0xcc, 0, 0x7f])?;
    put_hex_field(&mut out, "more", &[])?;
    put_hex_field(&mut out, "most", bytes.as_slice())?;
    let want = b"store moffset=0 len=18446744073709551615 bytes=cc007f more= most=a5a5";
    assert!(rt; out.starts_with(want) && out.len() == want.len() - 4 + 2 * 1048577);
    assert!(rt;
        out[want.len() - 4..]
            .iter()
            .all(|&digit| digit == b'a' || digit == b'5')
    );
    Ok(())
}
