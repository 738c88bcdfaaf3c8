use super::*;
use fuse_wire::WriteOut;

// A reply with the number 7 to each of some operations: its bytes, the same with other padding, how it is
// shown, and whether a byte less or more is no reply to them.
#[derive(Clone, Copy)]
struct Form {
    opcodes: &'static [u32],
    bytes: &'static str,
    dirty: &'static str,
    shown: &'static str,
    is_alone: bool,
}

const FORMS: [Form; 14] = [
    Form {
        opcodes: &[1],
        bytes: "90000000 00000000 0700000000000000 0200000000000000 0300000000000000 0400000000000000 0500000000000000 06000000 07000000 0200000000000000 0500000000000000 0100000000000000 0000000000000000 0000000000000000 0000000000000000 00000000 00000000 00000000 a4810000 01000000 00000000 00000000 00000000 00100000 00000000",
        dirty: "90000000 00000000 0700000000000000 0200000000000000 0300000000000000 0400000000000000 0500000000000000 06000000 07000000 0200000000000000 0500000000000000 0100000000000000 0000000000000000 0000000000000000 0000000000000000 00000000 00000000 00000000 a4810000 01000000 00000000 00000000 00000000 00100000 00000000",
        shown: "Entry(EntryOut { nodeid: 2, generation: 3, entry_valid: 4, attr_valid: 5, entry_valid_nsec: 6, attr_valid_nsec: 7, attr: AttrRec { ino: 2, size: 5, blocks: 1, atime: 0, mtime: 0, ctime: 0, atimensec: 0, mtimensec: 0, ctimensec: 0, mode: 33188, nlink: 1, uid: 0, gid: 0, rdev: 0, blksize: 4096, flags: 0 } })",
        is_alone: true,
    },
    Form {
        opcodes: &[3, 4],
        bytes: "78000000 00000000 0700000000000000 0800000000000000 09000000 00000000 0200000000000000 0500000000000000 0100000000000000 0000000000000000 0000000000000000 0000000000000000 00000000 00000000 00000000 a4810000 01000000 00000000 00000000 00000000 00100000 00000000",
        dirty: "78000000 00000000 0700000000000000 0800000000000000 09000000 ffffffff 0200000000000000 0500000000000000 0100000000000000 0000000000000000 0000000000000000 0000000000000000 00000000 00000000 00000000 a4810000 01000000 00000000 00000000 00000000 00100000 00000000",
        shown: "Attr(AttrOut { attr_valid: 8, attr_valid_nsec: 9, attr: AttrRec { ino: 2, size: 5, blocks: 1, atime: 0, mtime: 0, ctime: 0, atimensec: 0, mtimensec: 0, ctimensec: 0, mode: 33188, nlink: 1, uid: 0, gid: 0, rdev: 0, blksize: 4096, flags: 0 } })",
        is_alone: true,
    },
    Form {
        opcodes: &[14, 27],
        bytes: "20000000 00000000 0700000000000000 0201000000000000 02000000 00000000",
        dirty: "20000000 00000000 0700000000000000 0201000000000000 02000000 ffffffff",
        shown: "Opened(OpenOut { fh: 258, open_flags: 2 })",
        is_alone: true,
    },
    Form {
        opcodes: &[35],
        bytes: "a0000000 00000000 0700000000000000 0200000000000000 0300000000000000 0400000000000000 0500000000000000 06000000 07000000 0200000000000000 0500000000000000 0100000000000000 0000000000000000 0000000000000000 0000000000000000 00000000 00000000 00000000 a4810000 01000000 00000000 00000000 00000000 00100000 00000000 0201000000000000 02000000 00000000",
        dirty: "a0000000 00000000 0700000000000000 0200000000000000 0300000000000000 0400000000000000 0500000000000000 06000000 07000000 0200000000000000 0500000000000000 0100000000000000 0000000000000000 0000000000000000 0000000000000000 00000000 00000000 00000000 a4810000 01000000 00000000 00000000 00000000 00100000 00000000 0201000000000000 02000000 ffffffff",
        shown: "Created { entry: EntryOut { nodeid: 2, generation: 3, entry_valid: 4, attr_valid: 5, entry_valid_nsec: 6, attr_valid_nsec: 7, attr: AttrRec { ino: 2, size: 5, blocks: 1, atime: 0, mtime: 0, ctime: 0, atimensec: 0, mtimensec: 0, ctimensec: 0, mode: 33188, nlink: 1, uid: 0, gid: 0, rdev: 0, blksize: 4096, flags: 0 } }, opened: OpenOut { fh: 258, open_flags: 2 } }",
        is_alone: true,
    },
    Form {
        opcodes: &[26],
        bytes: "50000000 00000000 0700000000000000 07000000 1f000000 00000200 00000004 1000 0c00 00001000 01000000 0000 0c00 05000000 00000000 00000000 00000000 00000000 00000000 00000000 00000000",
        dirty: "50000000 00000000 0700000000000000 07000000 1f000000 00000200 00000004 1000 0c00 00001000 01000000 0000 0c00 05000000 ffffffff ffffffff ffffffff ffffffff ffffffff ffffffff ffffffff",
        shown: "Init(InitOut { major: 7, minor: 31, max_readahead: 131072, flags: 67108864, max_background: 16, congestion_threshold: 12, max_write: 1048576, time_gran: 1, max_pages: 0, map_alignment: 12, flags2: 5 })",
        is_alone: true,
    },
    Form {
        opcodes: &[16],
        bytes: "18000000 00000000 0700000000000000 00100000 00000000",
        dirty: "18000000 00000000 0700000000000000 00100000 ffffffff",
        shown: "Wrote(WriteOut { size: 4096 })",
        is_alone: true,
    },
    Form {
        opcodes: &[10, 18, 20, 25, 29, 38, 43, 48, 49],
        bytes: "10000000 00000000 0700000000000000",
        dirty: "10000000 00000000 0700000000000000",
        shown: "Done",
        is_alone: true,
    },
    Form {
        opcodes: &[
            1, 3, 4, 10, 14, 15, 16, 18, 20, 25, 26, 27, 28, 29, 35, 38, 43, 48, 49,
        ],
        bytes: "10000000 01f0ffff 0700000000000000",
        dirty: "10000000 01f0ffff 0700000000000000",
        shown: "Error { number: 4095 }",
        is_alone: true,
    },
    Form {
        opcodes: &[15],
        bytes: "10000000 ffffffff 0700000000000000",
        dirty: "10000000 ffffffff 0700000000000000",
        shown: "Error { number: 1 }",
        is_alone: true,
    },
    Form {
        opcodes: &[15],
        bytes: "10000000 fbffffff 0700000000000000",
        dirty: "10000000 fbffffff 0700000000000000",
        shown: "Error { number: 5 }",
        is_alone: true,
    },
    Form {
        opcodes: &[15],
        bytes: "10000000 eaffffff 0700000000000000",
        dirty: "10000000 eaffffff 0700000000000000",
        shown: "Error { number: 22 }",
        is_alone: true,
    },
    Form {
        opcodes: &[15],
        bytes: "11000000 00000000 0700000000000000 61",
        dirty: "11000000 00000000 0700000000000000 61",
        shown: "Bytes(List { items: [97] })",
        is_alone: false,
    },
    Form {
        opcodes: &[15, 28],
        bytes: "12000000 00000000 0700000000000000 6100",
        dirty: "12000000 00000000 0700000000000000 6100",
        shown: "Bytes(List { items: [97, 0] })",
        is_alone: false,
    },
    Form {
        opcodes: &[15],
        bytes: "12000000 00000000 0700000000000000 6162",
        dirty: "12000000 00000000 0700000000000000 6162",
        shown: "Bytes(List { items: [97, 98] })",
        is_alone: false,
    },
];

// Asserts what bytes are decoded as, with the number first, or the reason against them.
fn check_answer(
    rt: &impl Abort,
    alloc: Global,
    opcode: u32,
    bytes: &[u8],
    wanted: &str,
) -> Result<(), Fail> {
    assert!(rt; answer_form(opcode).is_some() && bytes.len() < 4_294_967_296);
    let said = match decode_reply(alloc, opcode, bytes) {
        Ok((unique, reply)) => format!(in alloc; "{unique} {reply:?}")?,
        Err(bad) => format!(in alloc; "{bad}")?,
    };
    assert_eq!(rt; said.as_str(), wanted, "at {opcode}");
    Ok(())
}

// Asserts that the reply that bytes are has these bytes.
pub(super) fn check_encoded(
    rt: &impl Abort,
    alloc: Global,
    opcode: u32,
    bytes: &[u8],
) -> Result<(), Fail> {
    assert!(rt; answer_form(opcode).is_some() && bytes.len() < 4_294_967_296);
    let (unique, reply) = decode_reply(alloc, opcode, bytes)?;
    assert!(rt; reply.fits());
    assert!(rt; encode_reply(alloc, &reply, unique)?.as_slice() == bytes);
    Ok(())
}

// A byte less or more, which the header says, is another form's body or none's.
fn check_lengths(rt: &impl Abort, alloc: Global, opcode: u32, bytes: &[u8]) -> Result<(), Fail> {
    let mut longer = Vec::from_slice(alloc, bytes)?;
    longer.push(0)?;
    for had in [bytes.len().saturating_sub(1), longer.len()] {
        if 16 <= had && had <= longer.len() && had < 256 {
            longer[0] = had as u8;
            let wanted = "the body isn't one of the operation's replies";
            check_answer(rt, alloc, opcode, &longer[..had], wanted)?;
        }
    }
    Ok(())
}

fn check_form(rt: &impl Abort, alloc: Global, form: Form) -> Result<(), Fail> {
    let shown = format!(in alloc; "7 {}", form.shown)?;
    let bytes = bytes_of(alloc, form.bytes)?;
    let dirty = bytes_of(alloc, form.dirty)?;
    for opcode in form.opcodes.iter().copied() {
        check_answer(rt, alloc, opcode, &bytes, shown.as_str())?;
        check_answer(rt, alloc, opcode, &dirty, shown.as_str())?;
        check_encoded(rt, alloc, opcode, &bytes)?;
        if form.is_alone {
            check_lengths(rt, alloc, opcode, &bytes)?;
        }
    }
    Ok(())
}

#[test]
fn replies_both_ways(rt: HostRuntime) -> Result<(), Fail> {
    for form in FORMS {
        check_form(&rt, rt.alloc(), form)?;
    }
    Ok(())
}

// The operation, how many bytes there are, the first of them, behind which there are bytes 0, and the
// reason.
const REFUSED: [(u32, usize, &str, &str); 19] = [
    (
        15,
        0,
        "10000000 00000000 0100000000000000",
        "fewer bytes than a header has",
    ),
    (
        15,
        15,
        "0f000000 00000000 0100000000000000",
        "fewer bytes than a header has",
    ),
    (
        15,
        15,
        "10000000 05000000 0100000000000000",
        "fewer bytes than a header has",
    ),
    (
        15,
        16,
        "11000000 00000000 0100000000000000",
        "the header says 17 bytes, there are 16",
    ),
    (
        15,
        16,
        "0f000000 00000000 0100000000000000",
        "the header says 15 bytes, there are 16",
    ),
    (
        15,
        17,
        "10000000 00000000 0100000000000000",
        "the header says 16 bytes, there are 17",
    ),
    (
        15,
        16,
        "ffffffff 00000000 0100000000000000",
        "the header says 4294967295 bytes, there are 16",
    ),
    (
        15,
        16,
        "00000000 05000000 0100000000000000",
        "the header says 0 bytes, there are 16",
    ),
    (
        15,
        16,
        "10000000 05000000 0100000000000000",
        "no error has the number 5",
    ),
    (
        15,
        16,
        "10000000 01000000 0100000000000000",
        "no error has the number 1",
    ),
    (
        15,
        16,
        "10000000 00f0ffff 0100000000000000",
        "no error has the number -4096",
    ),
    (
        15,
        16,
        "10000000 00000080 0100000000000000",
        "no error has the number -2147483648",
    ),
    (
        15,
        16,
        "10000000 ffffff7f 0100000000000000",
        "no error has the number 2147483647",
    ),
    (
        15,
        17,
        "11000000 00f0ffff 0100000000000000",
        "no error has the number -4096",
    ),
    (
        38,
        17,
        "11000000 05000000 0100000000000000",
        "no error has the number 5",
    ),
    (
        15,
        17,
        "11000000 fbffffff 0100000000000000",
        "the body isn't one of the operation's replies",
    ),
    (
        1,
        144,
        "90000000 ffffffff 0100000000000000",
        "the body isn't one of the operation's replies",
    ),
    (
        48,
        17,
        "11000000 00000000 0100000000000000",
        "the body isn't one of the operation's replies",
    ),
    (
        35,
        144,
        "90000000 00000000 0100000000000000",
        "the body isn't one of the operation's replies",
    ),
];

#[test]
fn reasons_in_their_order(rt: HostRuntime) -> Result<(), Fail> {
    let alloc = rt.alloc();
    for (opcode, had, head, reason) in REFUSED {
        let mut bytes = bytes_of(alloc, head)?;
        bytes.resize(had, 0)?;
        check_answer(&rt, alloc, opcode, &bytes, reason)?;
    }
    Ok(())
}

// So many bytes `x`, which are a READDIR's reply with this header, or too many for one.
fn check_text(
    rt: &impl Abort,
    alloc: Global,
    len: usize,
    header: &str,
    fits: bool,
) -> Result<(), Fail> {
    let bytes = bytes_around(alloc, header, len, "")?;
    if fits {
        return check_encoded(rt, alloc, 28, &bytes);
    }
    let text = List::from_vec(Vec::from_elem(alloc, b'x', len)?);
    assert!(rt; !Reply::Bytes(text).fits());
    let wanted = "the body isn't one of the operation's replies";
    check_answer(rt, alloc, 28, &bytes, wanted)?;
    check_answer(rt, alloc, 15, &bytes, wanted)
}

#[test]
fn which_replies_fit(rt: HostRuntime) -> Result<(), Fail> {
    let numbers = [
        (1, true),
        (4095, true),
        (0, false),
        (4096, false),
        (-1, false),
        (i32::MIN, false),
        (i32::MAX, false),
    ];
    for (number, fits) in numbers {
        assert!(rt; Reply::Error { number }.fits() == fits, "at {number}");
    }
    for opcode in [0, 2, 5, 13, 39, 42, 50, u32::MAX] {
        assert!(rt; answer_form(opcode).is_none(), "at {opcode}");
    }
    assert!(rt; answer_form(48) == Some(ReplyForm::Done) && Reply::Done.fits());
    let texts = [
        (0, "10000000 00000000 0100000000000000", true),
        (1, "11000000 00000000 0100000000000000", true),
        (240, "00010000 00000000 0100000000000000", true),
        (1048576, "10001000 00000000 0100000000000000", true),
        (1048577, "11001000 00000000 0100000000000000", false),
    ];
    for (len, header, fits) in texts {
        check_text(&rt, rt.alloc(), len, header, fits)?;
    }
    Ok(())
}

// Behind bytes that are there, into room for one reply or one entry and no more.
#[test]
fn into_room(rt: HostRuntime) -> Result<(), Fail> {
    let alloc = rt.alloc();
    let reply = Reply::Wrote(WriteOut { size: 3 });
    let mut out = Vec::with_capacity(alloc, 26)?;
    out.extend_from_slice(b"ab")?;
    assert!(rt; reply.fits() && out.len() + reply.len() <= out.capacity());
    put_reply(&mut out, &reply, u64::MAX);
    let want = "6162 18000000 00000000 ffffffffffffffff 03000000 00000000";
    assert!(rt; out == bytes_of(alloc, want)?);
    let bytes = bytes_of(alloc, dirents::ENTRIES)?;
    let names = read_dirents(alloc, &bytes)?;
    let mut out = Vec::with_capacity(alloc, 72)?;
    out.extend_from_slice(&bytes[..32.min(bytes.len())])?;
    let Some(second) = names.get(1) else {
        panic!(rt; "no entry")
    };
    assert!(rt; out.len() + second.len() <= out.capacity());
    put_dirent(&mut out, second);
    assert!(rt; out == bytes);
    Ok(())
}
