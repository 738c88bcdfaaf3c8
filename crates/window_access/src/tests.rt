ghost use Rattle.std.specs.Prelude.{◌≤◌, length, IfOk, IsTrue};
ghost use Rattle.page_map.specs.Board.{is_whole};
ghost use Rattle.window_access.specs.Access.{CanAccess};

use super::*;
use page_map::{MapBoard, Mode, PageMap, Span};
use plain_file::{FileBoard, First, List, Memory, PlainFiles};
use std::alloc::{AllocError, Global};
use std::process::Abort;
use std::test::Fail;
use test_bytes::bytes_of;

#[derive(Clone, Copy, Debug)]
enum Step {
    // A file's number, the place in it and the place in the window, the length, and the mode.
    Set(u32, u64, u64, u64, Mode),
    // A place in the window and the length.
    Clear(u64, u64),
    // A place, a length, and the bytes that are loaded.
    Load(u64, u32, &'static str),
    // A place, a length, and why nothing is loaded.
    NoLoad(u64, u32, WindowRefusal),
    // A place, and the bytes that are stored.
    Store(u64, &'static str),
    // A place, bytes, and why they aren't stored.
    NoStore(u64, &'static str, WindowRefusal),
    // A file's number, and how many entries it has.
    Entries(u32, usize),
}

const SCRIPTS: [&[Step]; 7] = [
    OVERLAP,
    READING_ALONE,
    THREE_MAPPINGS,
    PAST_THE_END,
    ORDER_OF_REFUSALS,
    PAST_THE_WINDOW,
    THE_SAME_PAGE_TWICE,
];

// The mapping that was made later is seen, and the one below it isn't seen again.
const OVERLAP: &[Step] = &[
    Step::Set(0, 0, 0, 8_192, Mode::W),
    Step::Set(1, 0, 4_096, 4_096, Mode::W),
    Step::Load(4_094, 4, "aaaabbbb"),
    Step::Store(0, "cc"),
    Step::Load(0, 2, "ccaa"),
    Step::Store(4_095, "0102"),
    Step::Load(4_094, 4, "aa0102bb"),
    Step::Clear(4_096, 4_096),
    Step::NoLoad(4_094, 4, WindowRefusal::Unmapped { at: 4_096 }),
    Step::Load(4_094, 2, "aa01"),
    Step::Entries(0, 2),
    Step::Entries(1, 1),
];

// A mapping for reading alone refuses a store, and all of it.
const READING_ALONE: &[Step] = &[
    Step::Set(0, 0, 0, 4_096, Mode::R),
    Step::NoStore(0, "cc", WindowRefusal::ReadOnly { at: 0 }),
    Step::Set(0, 4_096, 0, 4_096, Mode::W),
    Step::Set(1, 0, 4_096, 4_096, Mode::R),
    Step::NoStore(4_094, "01020304", WindowRefusal::ReadOnly { at: 4_096 }),
    Step::Load(4_094, 4, "aaaabbbb"),
    Step::Entries(0, 0),
    Step::Entries(1, 0),
];

// Three mappings of two files, the middle one of a file's later page.
const THREE_MAPPINGS: &[Step] = &[
    Step::Set(1, 4_096, 8_192, 4_096, Mode::W),
    Step::Store(8_192, "07"),
    Step::Set(0, 0, 4_096, 4_096, Mode::R),
    Step::Set(0, 4_096, 12_288, 4_096, Mode::R),
    Step::Load(8_190, 4_100, "aaaa07 bb*4095 aaaa"),
];

// Past a file's end nothing is loaded or stored.
const PAST_THE_END: &[Step] = &[
    Step::Set(2, 0, 8_192, 12_288, Mode::W),
    Step::NoLoad(13_189, 4, WindowRefusal::PastEnd { at: 13_192 }),
    Step::NoStore(13_189, "01020304", WindowRefusal::PastEnd { at: 13_192 }),
    Step::NoLoad(13_191, 4, WindowRefusal::PastEnd { at: 13_192 }),
    Step::NoStore(13_191, "01020304", WindowRefusal::PastEnd { at: 13_192 }),
    Step::NoLoad(13_192, 4, WindowRefusal::PastEnd { at: 13_192 }),
    Step::NoStore(13_192, "01020304", WindowRefusal::PastEnd { at: 13_192 }),
    Step::NoLoad(16_384, 4, WindowRefusal::PastEnd { at: 16_384 }),
    Step::NoStore(16_384, "01020304", WindowRefusal::PastEnd { at: 16_384 }),
    Step::NoLoad(20_476, 4, WindowRefusal::PastEnd { at: 20_476 }),
    Step::NoStore(20_476, "01020304", WindowRefusal::PastEnd { at: 20_476 }),
    Step::Load(13_188, 4, "dddddddd"),
    Step::Entries(2, 0),
];

// What isn't mapped comes before what can't be written, and that before what lies past an end.
const ORDER_OF_REFUSALS: &[Step] = &[
    Step::Set(2, 0, 0, 8_192, Mode::W),
    Step::NoLoad(4_999, 3_193, WindowRefusal::PastEnd { at: 5_000 }),
    Step::NoLoad(4_999, 3_194, WindowRefusal::Unmapped { at: 8_192 }),
    Step::Set(0, 0, 8_192, 4_096, Mode::R),
    Step::NoStore(8_191, "0102", WindowRefusal::ReadOnly { at: 8_192 }),
    Step::NoLoad(8_191, 2, WindowRefusal::PastEnd { at: 8_191 }),
    Step::Entries(2, 0),
];

// Past the window nothing is mapped, and no bytes are loaded and stored everywhere.
const PAST_THE_WINDOW: &[Step] = &[
    Step::Set(0, 0, 4_190_208, 4_096, Mode::W),
    Step::NoLoad(4_194_303, 2, WindowRefusal::Unmapped { at: 4_194_304 }),
    Step::NoStore(4_194_303, "0102", WindowRefusal::Unmapped { at: 4_194_304 }),
    Step::Load(4_194_303, 1, "aa"),
    Step::NoLoad(
        u64::MAX,
        1_048_576,
        WindowRefusal::Unmapped { at: u64::MAX },
    ),
    Step::NoStore(u64::MAX, "0102", WindowRefusal::Unmapped { at: u64::MAX }),
    Step::Load(u64::MAX, 0, ""),
    Step::Store(u64::MAX, ""),
    Step::Load(0, 0, ""),
    Step::Store(0, ""),
    Step::Entries(0, 0),
];

// The later of two pieces in one page of a file stands.
const THE_SAME_PAGE_TWICE: &[Step] = &[
    Step::Set(0, 0, 0, 4_096, Mode::W),
    Step::Set(0, 0, 4_096, 4_096, Mode::W),
    Step::Store(0, "02 01*4096 03 01*4094"),
    Step::Load(0, 3, "010301"),
    Step::Load(4_096, 3, "010301"),
    Step::Entries(0, 2),
];

// A file of 8,192 bytes aa, one of 8,192 bytes bb and one of 5,000 bytes dd, and a window of 1,024 pages.
fn boards(alloc: Global) -> Result<(PlainFiles, PageMap), Memory>
    ensures { IfOk result (λ r. CanAccess r.0 r.1) }
{
    let mut firsts = List::new(alloc);
    firsts.push(First {
        size: 8_192,
        fill: 0xaa,
    })?;
    firsts.push(First {
        size: 8_192,
        fill: 0xbb,
    })?;
    firsts.push(First {
        size: 5_000,
        fill: 0xdd,
    })?;
    Ok((
        PlainFiles::new(alloc, 0, &firsts)?,
        PageMap::new(alloc, 1_024)?,
    ))
}

// Asserts that an interval has a page, consists of whole pages and ends within the window.
#[tactic(auto, unfolding(page_map::specs::Board::is_whole))]
fn check_whole(rt: &impl Abort, map: &PageMap, moffset: u64, len: u64)
    ensures { IsTrue (is_whole (length map.now.table) moffset len) }
{
    let window = 4096 * u64::from(map.pages());
    assert!(rt; moffset % 4096 == 0 && len % 4096 == 0 && len > 0);
    assert!(rt; moffset <= window && len <= window - moffset);
}

// Maps a part of the file of this number.
fn set(
    rt: &impl Abort,
    files: &PlainFiles,
    map: &mut PageMap,
    file: u32,
    offsets: (u64, u64),
    len: u64,
    mode: Mode,
)
    requires { CanAccess files.now map.old }
    ensures { CanAccess files.now map.new }
{
    let (foffset, moffset) = offsets;
    let node = u64::from(file) + 2;
    let span = Span {
        node,
        foffset,
        moffset,
        len,
        mode,
    };
    assert!(rt; file < files.count());
    check_whole(rt, map, moffset, len);
    assert!(rt; map.may_set(&span));
    assert!(rt; foffset % 4096 == 0 && foffset <= 1_048_576 && len <= 1_048_576);
    map.set(&span);
}

// Unmaps pages.
fn clear(rt: &impl Abort, files: &PlainFiles, map: &mut PageMap, moffset: u64, len: u64)
    requires { CanAccess files.now map.old }
    ensures { CanAccess files.now map.new }
{
    let _ = files;
    check_whole(rt, map, moffset, len);
    assert!(rt; map.may_clear(moffset, len));
    map.clear(moffset, len);
}

// Bytes in hexadecimal; `bb*3` is bb three times.
fn put_part(alloc: Global, out: &mut Vec<u8>, part: &str) -> Result<(), AllocError> {
    let (digits, times) = match part.split_once('*') {
        Some((digits, times)) => (digits, times.parse().unwrap_or(0u32)),
        None => (part, 1),
    };
    let bytes = bytes_of(alloc, digits)?;
    for _ in 0..times {
        out.extend_from_slice(&bytes)?;
    }
    Ok(())
}

fn parts_of(alloc: Global, text: &str) -> Result<Vec<u8>, AllocError> {
    let mut out = Vec::new(alloc);
    for part in text.split(' ') {
        put_part(alloc, &mut out, part)?;
    }
    Ok(out)
}

// Whether a load answers this.
fn loads<F: FileBoard>(
    rt: &impl Abort,
    alloc: Global,
    files: &mut F,
    map: &PageMap,
    moffset: u64,
    len: u32,
    answer: Result<&str, WindowRefusal>,
) -> Result<bool, Memory>
    requires { CanAccess (F.board files.old) map.now }
    ensures { CanAccess (F.board files.new) map.now }
{
    assert!(rt; len <= 1_048_576);
    match (load_window(alloc, files, map, moffset, len), answer) {
        (Ok(bytes), Ok(text)) => Ok(bytes.as_slice() == parts_of(alloc, text)?.as_slice()),
        (Err(refusal), Err(due)) => Ok(refusal == due),
        _ => Ok(false),
    }
}

// Whether a store answers this.
#[tactic(auto, using(crate::proofs::Names::can_access_after_store))]
fn stores<F: FileBoard>(
    rt: &impl Abort,
    alloc: Global,
    files: &mut F,
    map: &PageMap,
    moffset: u64,
    text: &str,
    answer: Result<(), WindowRefusal>,
) -> Result<bool, Memory>
    requires { CanAccess (F.board files.old) map.now }
    ensures { CanAccess (F.board files.new) map.now }
{
    let bytes = parts_of(alloc, text)?;
    assert!(rt; bytes.len() <= 1_048_576);
    Ok(store_window(alloc, files, map, moffset, &bytes) == answer)
}

fn has_entries(rt: &impl Abort, files: &PlainFiles, file: u32, entries: usize) -> bool {
    assert!(rt; file < files.count());
    files.history(file).len() == entries
}

// Does a step, and tells whether it is answered so.
fn is_so(
    rt: &impl Abort,
    alloc: Global,
    files: &mut PlainFiles,
    map: &mut PageMap,
    step: Step,
) -> Result<bool, Memory>
    requires { CanAccess files.old map.old }
    ensures { CanAccess files.new map.new }
{
    match step {
        Step::Set(file, foffset, moffset, len, mode) => {
            set(rt, files, map, file, (foffset, moffset), len, mode);
            Ok(true)
        }
        Step::Clear(moffset, len) => {
            clear(rt, files, map, moffset, len);
            Ok(true)
        }
        Step::Load(moffset, len, text) => loads(rt, alloc, files, map, moffset, len, Ok(text)),
        Step::NoLoad(moffset, len, due) => loads(rt, alloc, files, map, moffset, len, Err(due)),
        Step::Store(moffset, text) => stores(rt, alloc, files, map, moffset, text, Ok(())),
        Step::NoStore(moffset, text, due) => {
            stores(rt, alloc, files, map, moffset, text, Err(due))
        }
        Step::Entries(file, entries) => Ok(has_entries(rt, files, file, entries)),
    }
}

// The first step that is answered otherwise.
fn odd_in(rt: &impl Abort, alloc: Global, script: &[Step]) -> Result<Option<Step>, Memory> {
    let (mut files, mut map) = boards(alloc)?;
    for step in script {
        if !is_so(rt, alloc, &mut files, &mut map, *step)? {
            return Ok(Some(*step));
        }
    }
    Ok(None)
}

#[test]
fn scripts(rt: HostRuntime) -> Result<(), Fail> {
    for script in SCRIPTS {
        let odd = odd_in(&rt, rt.alloc(), script)?;
        assert!(rt; odd.is_none(), "{odd:?}");
    }
    Ok(())
}
