use super::*;

// The entries "a" of node 2 and "file-two!" of node 3, with seven bytes of filler each, and how they are
// shown.
pub(super) const ENTRIES: &str =
    "0200000000000000 0100000000000000 01000000 08000000 61 00000000000000 0300000000000000 0200000000000000 09000000 08000000 66696c652d74776f21 00000000000000";

// The same with other filler.
const DIRTY: &str =
    "0200000000000000 0100000000000000 01000000 08000000 61 ffffffffffffff 0300000000000000 0200000000000000 09000000 08000000 66696c652d74776f21 00000000000001";

const SHOWN: &str =
    "List { items: [Dirent { ino: 2, off: 1, kind: 8, name: Name { bytes: List { items: [97] } } }, Dirent { ino: 3, off: 2, kind: 8, name: Name { bytes: List { items: [102, 105, 108, 101, 45, 116, 119, 111, 33] } } }] }";

#[test]
fn the_longest_prefix_of_entries(rt: HostRuntime) -> Result<(), Fail> {
    let alloc = rt.alloc();
    let bytes = bytes_of(alloc, ENTRIES)?;
    let names = read_dirents(alloc, &bytes)?;
    assert_eq!(rt; format!(in alloc; "{names:?}")?.as_str(), SHOWN);
    // The size that is asked for, and how many bytes are given.
    let rows = [
        (0, 0),
        (31, 0),
        (32, 32),
        (65, 32),
        (71, 32),
        (72, 72),
        (73, 72),
        (u32::MAX, 72),
    ];
    for (size, given) in rows {
        let put = put_dirents(alloc, &names, size)?;
        assert!(rt;
            put.len() == given && bytes.starts_with(put.as_slice()),
            "at {size}"
        );
    }
    assert!(rt; put_dirents(alloc, &List::new(alloc), 4096)?.is_empty());
    // the answer of READDIR
    let answer = format!(in alloc; "58000000 00000000 0100000000000000 {ENTRIES}")?;
    replies::check_encoded(&rt, alloc, 28, &bytes_of(alloc, answer.as_str())?)
}

// How many bytes of the entries are read, each length from 0 to 72: as many entries as they are, or where
// the first begins that isn't whole.
fn check_cut(rt: &impl Abort, alloc: Global, bytes: &[u8], clean: &[u8]) -> Result<(), Fail> {
    let len = bytes.len();
    let is_whole = len == 0 || len == 32 || len == 72;
    match read_dirents(alloc, bytes) {
        Ok(read) => {
            assert!(rt; is_whole, "at {len}");
            assert!(rt;
                put_dirents(alloc, &read, 4096)?.as_slice() == clean,
                "at {len}"
            );
        }
        Err(bad) => {
            let at = if len < 32 { 0 } else { 32 };
            assert!(rt; !is_whole && bad == BadDirents::Cut { at }, "at {len}");
        }
    }
    Ok(())
}

#[test]
fn entries_cut_at_each_byte(rt: HostRuntime) -> Result<(), Fail> {
    let alloc = rt.alloc();
    let (clean, dirty) = (bytes_of(alloc, ENTRIES)?, bytes_of(alloc, DIRTY)?);
    assert!(rt; clean.len() == 72 && dirty.len() == 72);
    for len in 0..73 {
        check_cut(&rt, alloc, &clean[..len], &clean[..len])?;
        check_cut(&rt, alloc, &dirty[..len], &clean[..len])?;
    }
    Ok(())
}

// Behind an entry that is whole, what an entry says of its name's length, the name's first bytes, and how
// many bytes `x` follow with its filler, and whether it is one.
const NAMES: [(&str, &str, usize, &str, bool); 11] = [
    ("01000000", "", 1, "00000000000000", true),
    ("08000000", "", 8, "", true),
    ("ff000000", "", 255, "00", true),
    ("02000000", "2e2e", 0, "000000000000", true),
    ("03000000", "ff0180", 0, "0000000000", true),
    ("00000000", "", 0, "", false),
    ("00010000", "", 256, "", false),
    ("03000000", "782f78", 0, "0000000000", false),
    ("03000000", "787800", 0, "0000000000", false),
    ("09010000", "", 256, "", false),
    ("ffffffff", "", 255, "00", false),
];

#[test]
fn names_of_entries(rt: HostRuntime) -> Result<(), Fail> {
    let alloc = rt.alloc();
    for (namelen, front, count, back, is_whole) in NAMES {
        let front = format!(in alloc;
            "0200000000000000 0100000000000000 01000000 08000000 61 00000000000000 0300000000000000 0200000000000000 {namelen} 08000000 {front}"
        )?;
        let bytes = bytes_around(alloc, front.as_str(), count, back)?;
        match read_dirents(alloc, &bytes) {
            Ok(read) => {
                assert!(rt; is_whole && read.len() == 2, "at {namelen}");
                let written = put_dirents(alloc, &read, 4096)?;
                assert!(rt; written.as_slice() == bytes.as_slice(), "at {namelen}");
            }
            Err(bad) => assert!(rt;
                !is_whole && bad == BadDirents::Cut { at: 32 },
                "at {namelen}"
            ),
        }
    }
    Ok(())
}
