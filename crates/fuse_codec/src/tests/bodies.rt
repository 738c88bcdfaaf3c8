use super::*;

// `unique` to `pid` of the headers below.
const FROM_1: &str = "0100000000000000 0000000000000000 00000000 00000000 00000000";

// `len` and `opcode`, then `total_extlen` and the padding with the body, and the reason.
const REFUSED: [(&str, &str, &str); 17] = [
    // 39 bytes, also where they say that they are more, and of no operation
    (
        "27000000 1a000000",
        "000000",
        "fewer bytes than a header has",
    ),
    (
        "28000000 11000000",
        "010000",
        "fewer bytes than a header has",
    ),
    // 40 bytes that say that they are 41, 39, none, and 2^32 - 1
    (
        "29000000 1a000000",
        "0000 0000",
        "the header says 41 bytes, there are 40",
    ),
    (
        "27000000 1a000000",
        "0000 0000",
        "the header says 39 bytes, there are 40",
    ),
    (
        "00000000 26000000",
        "0000 0000",
        "the header says 0 bytes, there are 40",
    ),
    (
        "ffffffff 26000000",
        "0000 0000",
        "the header says 4294967295 bytes, there are 40",
    ),
    // 41 bytes that say that they are 40, of no operation and with extensions
    (
        "28000000 11000000",
        "0100 0000 78",
        "the header says 40 bytes, there are 41",
    ),
    // extensions
    (
        "28000000 26000000",
        "0100 0000",
        "extensions of 1 times 8 bytes",
    ),
    (
        "28000000 26000000",
        "0001 0000",
        "extensions of 256 times 8 bytes",
    ),
    (
        "29000000 11000000",
        "ffff 0000 78",
        "extensions of 65535 times 8 bytes",
    ),
    // no operation
    (
        "28000000 11000000",
        "0000 0000",
        "no operation has the number 17",
    ),
    (
        "28000000 00000000",
        "0000 0000",
        "no operation has the number 0",
    ),
    (
        "29000000 05000000",
        "0000 0000 78",
        "no operation has the number 5",
    ),
    (
        "28000000 ffffffff",
        "0000 0000",
        "no operation has the number 4294967295",
    ),
    (
        "28000000 26010000",
        "0000 0000",
        "no operation has the number 294",
    ),
    // a body where there is none, and none where there is one
    (
        "29000000 26000000",
        "0000 0000 78",
        "the body isn't one of operation 38",
    ),
    (
        "28000000 0f000000",
        "0000 0000",
        "the body isn't one of operation 15",
    ),
];

#[test]
fn refusals(rt: HostRuntime) -> Result<(), Fail> {
    let alloc = rt.alloc();
    for (front, end, wanted) in REFUSED {
        let bytes = bytes_of(alloc, format!(in alloc; "{front} {FROM_1} {end}")?.as_str())?;
        check_said(&rt, alloc, &bytes, wanted)?;
    }
    check_said(&rt, alloc, b"", "fewer bytes than a header has")?;
    assert_eq!(rt;
        format!(in alloc; "{}", BadRequest::Memory)?.as_str(),
        "out of memory"
    );
    Ok(())
}

// Asserts whether an operation has the body of some bytes, so many bytes `x` and some more bytes. One
// that it has is encoded to the same again.
fn check_body(
    rt: &impl Abort,
    alloc: Global,
    opcode: u32,
    body: (&str, usize, &str),
    is_one: bool,
) -> Result<(), Fail> {
    let (front, count, back) = body;
    let text = format!(in alloc; "00000000 {opcode:02x}000000 {HEAD} 0000 {front}")?;
    let mut bytes = bytes_around(alloc, text.as_str(), count, back)?;
    assert!(rt; 40 <= bytes.len() && bytes.len() < 4_294_967_296);
    let len = bytes.len() as u32;
    bytes[..4].copy_from_slice(&len.to_le_bytes());
    match decoded(rt, alloc, &bytes) {
        Ok(message) => {
            assert!(rt; is_one, "{opcode} {front} {count} {back}");
            check_bytes(rt, alloc, &message, &bytes)
        }
        Err(bad) => {
            assert!(rt;
                !is_one && bad == BadRequest::Body { opcode },
                "{front} {count} {back}"
            );
            Ok(())
        }
    }
}

// The bytes where a body has a name, and whether they are one with its byte 0.
const NAMES: [(&str, usize, &str, bool); 11] = [
    ("", 0, "", false),
    ("", 0, "00", false),
    ("", 1, "00", true),
    ("", 255, "00", true),
    ("", 256, "00", false),
    ("", 256, "", false),
    ("", 1, "", false),
    ("", 1, "0000", false),
    ("61 00", 1, "00", false),
    ("61 2f", 1, "00", false),
    ("", 1, "00 62", false),
];

// A REMOVEMAPPING with its number of intervals, a WRITE with its `size` and a BATCH_FORGET with its number
// of pairs, each with how many bytes follow, and whether they are as many. 65,789 is 0x100fd.
const COUNTED: [(u32, &str, usize, bool); 33] = [
    (49, "00000000", 0, true),
    (49, "00000000", 16, false),
    (49, "01000000", 16, true),
    (49, "01000000", 15, false),
    (49, "01000000", 17, false),
    (49, "02000000", 16, false),
    (49, "00010000", 4096, true),
    (49, "00010000", 4112, false),
    (49, "01010000", 4112, false),
    (49, "01010000", 4096, false),
    (49, "ffffffff", 0, false),
    (49, "00000001", 0, false),
    (49, "000000", 0, false),
    (
        16,
        "0000000000000000 0000000000000000 00000000 00000000 0000000000000000 00000000 00000000",
        0,
        true,
    ),
    (
        16,
        "0000000000000000 0000000000000000 01000000 00000000 0000000000000000 00000000 00000000",
        0,
        false,
    ),
    (
        16,
        "0000000000000000 0000000000000000 00000000 00000000 0000000000000000 00000000 00000000",
        1,
        false,
    ),
    (
        16,
        "0000000000000000 0000000000000000 01000000 00000000 0000000000000000 00000000 00000000",
        1,
        true,
    ),
    (
        16,
        "0000000000000000 0000000000000000 02000000 00000000 0000000000000000 00000000 00000000",
        1,
        false,
    ),
    (
        16,
        "0000000000000000 0000000000000000 00001000 00000000 0000000000000000 00000000 00000000",
        1048576,
        true,
    ),
    (
        16,
        "0000000000000000 0000000000000000 00001000 00000000 0000000000000000 00000000 00000000",
        1048575,
        false,
    ),
    (
        16,
        "0000000000000000 0000000000000000 00001000 00000000 0000000000000000 00000000 00000000",
        1048577,
        false,
    ),
    (
        16,
        "0000000000000000 0000000000000000 01001000 00000000 0000000000000000 00000000 00000000",
        1048577,
        false,
    ),
    (
        16,
        "0000000000000000 0000000000000000 ffffffff 00000000 0000000000000000 00000000 00000000",
        3,
        false,
    ),
    (42, "00000000 00000000", 0, true),
    (42, "00000000 00000000", 16, false),
    (42, "01000000 00000000", 16, true),
    (42, "01000000 00000000", 15, false),
    (42, "02000000 00000000", 16, false),
    (42, "01000000 00000000", 32, false),
    (42, "01000010 00000000", 16, false),
    (42, "fd000100 00000000", 1052624, true),
    (42, "fe000100 00000000", 1052624, false),
    (42, "fc000100 00000000", 1052624, false),
];

// The operation, and how many bytes its record has: one fewer and one more are none.
const RECORDS: [(u32, usize); 15] = [
    (2, 8),
    (3, 16),
    (4, 88),
    (14, 8),
    (15, 40),
    (18, 24),
    (20, 16),
    (25, 24),
    (26, 16),
    (26, 64),
    (27, 8),
    (28, 40),
    (29, 24),
    (43, 32),
    (48, 40),
];

#[test]
fn bodies_at_their_bounds(rt: HostRuntime) -> Result<(), Fail> {
    let alloc = rt.alloc();
    for (front, count, back, is_name) in NAMES {
        check_body(&rt, alloc, 1, (front, count, back), is_name)?;
        check_body(&rt, alloc, 10, (front, count, back), is_name)?;
        let made = format!(in alloc; "c1000000 a4010000 12000000 00000000 {front}")?;
        check_body(&rt, alloc, 35, (made.as_str(), count, back), is_name)?;
    }
    for (opcode, front, count, is_one) in COUNTED {
        check_body(&rt, alloc, opcode, (front, count, ""), is_one)?;
    }
    for (opcode, size) in RECORDS {
        check_body(&rt, alloc, opcode, ("", size.wrapping_sub(1), ""), false)?;
        check_body(&rt, alloc, opcode, ("", size.wrapping_add(1), ""), false)?;
    }
    Ok(())
}

// A WRITE that says `size` and has so many bytes, or so many pairs or intervals.
fn body_of(alloc: Global, opcode: u32, size: u32, count: usize) -> Result<Request, AllocError> {
    match opcode {
        16 => {
            let head = WriteIn {
                fh: 1,
                offset: 2,
                size,
                write_flags: 0,
                lock_owner: 0,
                flags: 0,
            };
            let bytes = List::from_vec(Vec::from_elem(alloc, 7, count)?);
            Ok(Request::Write { head, bytes })
        }
        42 => {
            let one = ForgetOne {
                nodeid: 2,
                nlookup: 1,
            };
            let ones = List::from_vec(Vec::from_elem(alloc, one, count)?);
            Ok(Request::BatchForget { ones })
        }
        _ => {
            let one = RemoveOne { moffset: 0, len: 1 };
            let ones = List::from_vec(Vec::from_elem(alloc, one, count)?);
            Ok(Request::Remove { ones })
        }
    }
}

#[test]
fn messages_that_fit(rt: HostRuntime) -> Result<(), Fail> {
    let rows = [
        (16, 0, 0, true),
        (16, 3, 3, true),
        (16, 3, 2, false),
        (16, 3, 4, false),
        (16, 1048576, 1048576, true),
        (16, 1048577, 1048577, false),
        (42, 0, 0, true),
        (42, 0, 65789, true),
        (42, 0, 65790, false),
        (49, 0, 0, true),
        (49, 0, 256, true),
        (49, 0, 257, false),
        (49, 0, 100000, false),
    ];
    for (opcode, size, count, fits) in rows {
        let body = body_of(rt.alloc(), opcode, size, count)?;
        let head = Head {
            unique: 1,
            nodeid: 2,
            uid: 0,
            gid: 0,
            pid: 0,
        };
        assert!(rt;
            Message { head, body }.fits() == fits,
            "{opcode} {size} {count}"
        );
    }
    Ok(())
}
