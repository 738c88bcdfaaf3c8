ghost use Rattle.std.specs.Prelude.{◌≡◌, ◌*◌, true, false, length, IfSome, IfOk};
ghost use Rattle.plain_file.specs.Plain.{new_board};
ghost use Rattle.page_map.specs.Plain.{range_pages};
ghost use Rattle.fuse_device.specs.State.{new_state};
ghost use Rattle.range_tree.specs.Plain.{new_ranges};
ghost use Rattle.guest_io.specs.Holds.{no_holds};
ghost use Rattle.daxrun.specs.Carried.{names_of, AreFiles, AreRanges, IsPlayable};
ghost use Rattle.daxrun.specs.Session.{IsOpenAt, firsts_of};

use crate::run_tests::{FOUR, RECLAIM, UPGRADE};
use crate::sessions::{
    daemon_of, end_session, firsts_of, open_session, opening_board, start_session,
};
use dax_host::{HostWire, SoloWire};
use dax_script::{FileLine, Script, parse};
use fuse_wire::InHeader;
use guest_dax::Dax;
use guest_io::Guest;
use guest_run::{OpenGate, worker};
use guest_threads::{Tables, open_tables};
use guest_wire::{Driver, FileRef, KeepWire, Wire};
use page_map::{MapBoard, Mode, PAGES_OF_RANGE, PageMap, RANGE_SIZE, Span};
use plain_file::{Blob, List, Memory, PlainFiles};
use range_share::SeatMap;
use range_tree::{PlainRanges, RangeBoard};
use std::alloc::Global;
use std::process::Abort;
use std::sync::Wait;
use std::test::Fail;

// The script of a text.
fn script_in(alloc: Global, text: &[u8]) -> Option<Script>
    ensures { IfSome result IsPlayable }
{
    let Ok(script) = parse(alloc, text) else {
        return None;
    };
    Some(script)
}

// The requests that open and close the session of a script have these opcodes.
fn session_by<R: Wait + Abort, W>(
    rt: &R,
    alloc: Global,
    script: &Script,
    client: Driver<KeepWire<W>>,
    opcodes: &[u32],
) -> Result<(), Memory>
where
    W: Wire<PlainFiles, PageMap> + Drop,
    requires playable { IsPlayable script.now }
    requires honest { (W.wire client.wire.inner).honest ≡ true }
    requires whole { (W.wire client.wire.inner).stays ≡ false }
    requires new { (W.wire client.wire.inner).state ≡ new_state (range_pages * script.now.ranges) (names_of script.now.files) }
{
    let mut files = opening_board(alloc)?;
    let mut map = PageMap::new(alloc, PAGES_OF_RANGE * script.ranges)?;
    let lines = script.files.as_slice();
    let (client, opened) = start_session(rt, alloc, client, lines, &mut files, &mut map)?;
    let client = end_session(rt, alloc, client, opened.as_slice(), &mut files, &mut map);
    check_headers(rt, client.wire.requests().as_slice(), opcodes);
    Ok(())
}

// The requests of the calls of a script's first guest, over boards of its own, have these opcodes.
fn calls_by<R: Wait + Abort, W>(
    rt: &R,
    alloc: Global,
    script: &Script,
    client: Driver<KeepWire<W>>,
    opened: Vec<FileRef>,
    opcodes: &[u32],
) -> Result<(), Memory>
where
    W: Wire<PlainFiles, PlainRanges> + Drop,
    requires playable { IsPlayable script.now }
    requires count { length opened.items ≡ length script.now.files }
    requires honest { (W.wire client.wire.inner).honest ≡ true }
    requires whole { (W.wire client.wire.inner).stays ≡ false }
    requires opened { IsOpenAt script.now.files script.now.ranges opened.items (W.wire client.wire.inner).state }
{
    let lines = script.files.as_slice();
    let mut guest = guest_of(alloc, lines, script.ranges, client, opened)?;
    let [calls, ..] = script.guests.as_slice() else {
        panic!(rt; "no guest")
    };
    let _lines = worker(rt, alloc, &mut guest, calls.as_slice(), 0, &OpenGate)?;
    let (client, _files, _ranges) = guest.finish().into_parts();
    check_headers(rt, client.wire.requests().as_slice(), opcodes);
    Ok(())
}

// Guest 0 with these open files, and with ranges of which none was taken.
fn guest_of<W>(
    alloc: Global,
    lines: &[FileLine],
    ranges: u32,
    client: Driver<W>,
    opened: Vec<FileRef>,
) -> Result<Guest<W, PlainFiles, PlainRanges>, Memory>
where
    W: Drop,
    requires files { AreFiles lines.now }
    requires ranges { AreRanges ranges }
    ensures driver { IfOk result (λ g. g.dax.driver ≡ client) }
    ensures files { IfOk result (λ g. g.dax.files ≡ new_board 0 (firsts_of lines.now)) }
    ensures ranges { IfOk result (λ g. g.dax.ranges ≡ new_ranges ranges (length lines.now) 0) }
    ensures refs { IfOk result (λ g. g.dax.refs ≡ opened.items) }
    ensures holds { IfOk result (λ g. g.holds ≡ no_holds) }
{
    let firsts = firsts_of(alloc, lines)?;
    let board = PlainFiles::new(alloc, 0, &firsts)?;
    let ranges = PlainRanges::new(alloc, ranges, lines.len() as u32, 0)?;
    let refs = List::from_vec(opened);
    Ok(Guest::new(Dax::new(client, board, ranges, refs)))
}

// Each request has its number, from 1 on, and its opcode.
fn check_headers(rt: &impl Abort, requests: &[Blob], opcodes: &[u32]) {
    assert_eq!(rt; requests.len(), opcodes.len());
    let mut number = 1;
    for (request, opcode) in requests.iter().zip(opcodes) {
        let Some(header) = request
            .as_slice()
            .get(..InHeader::SIZE)
            .and_then(InHeader::read)
        else {
            panic!(rt; "no header")
        };
        assert_eq!(rt; (header.unique, header.opcode), (number, *opcode));
        number = number.wrapping_add(1);
    }
}

// A session of two files: INIT; LOOKUP and OPEN of each; RELEASE of each; DESTROY.
#[test]
fn opens_and_closes(rt: HostRuntime) -> Result<(), Fail> {
    let alloc = rt.alloc();
    let Some(script) = script_in(alloc, FOUR.as_bytes()) else {
        panic!(&rt; "no script")
    };
    let solo = SoloWire::new(alloc, daemon_of(alloc, &script)?)?;
    let client = Driver::new(KeepWire::new(alloc, solo));
    let opcodes = [26, 1, 14, 1, 14, 18, 18, 38];
    session_by(&rt, alloc, &script, client, &opcodes)?;
    Ok(())
}

// Without ranges each call is one request: GETATTR, WRITE or READ. With ranges reads and writes send none but
// those of the window, SETUPMAPPING and REMOVEMAPPING, and a write that ends above the file's size is a WRITE.
#[test]
fn sends_what_calls_need(rt: HostRuntime) -> Result<(), Fail> {
    let alloc = rt.alloc();
    for (text, opcodes) in [
        (FOUR, [3, 16, 16, 15, 15, 3, 3].as_slice()),
        (RECLAIM, [48, 48, 49, 48].as_slice()),
        (UPGRADE, [48, 48].as_slice()),
        (
            "ranges 2\nfile a 0\nguest\nwrite a 0 61\nread a 0 1\nread a 0 9\nwrite a 0 62\nsize a\n",
            [16, 48, 48, 3].as_slice(),
        ),
    ] {
        let Some(script) = script_in(alloc, text.as_bytes()) else {
            panic!(&rt; "no script")
        };
        let daemon = daemon_of(alloc, &script)?;
        let lines = script.files.as_slice();
        let (daemon, opened) = open_session(&rt, alloc, lines, script.ranges, daemon)?;
        let wire = KeepWire::new(alloc, SoloWire::new(alloc, daemon)?);
        calls_by(&rt, alloc, &script, Driver::new(wire), opened, opcodes)?;
    }
    Ok(())
}

// SETUPMAPPING of the lower half of range 0 to the file of node 2, opened as handle 1, for reading.
const HALF: &[u8] =
    b"\x50\0\0\0\x30\0\0\0\x01\0\0\0\0\0\0\0\x02\0\0\0\0\0\0\0\0\0\0\0\0\0\0\0\0\0\0\0\0\0\0\0\x01\0\0\0\0\0\0\0\0\0\0\0\0\0\0\0\0\0\x10\0\0\0\0\0\x02\0\0\0\0\0\0\0\0\0\0\0\0\0\0\0";

// EBUSY.
const BUSY: &[u8] = b"\x10\0\0\0\xf0\xff\xff\xff\x01\0\0\0\0\0\0\0";

// A guest that moves a range may map the whole of it, and its wire refuses to map a half: the map word stays as it was.
#[test]
fn half_a_range_is_not_mapped(rt: HostRuntime) -> Result<(), Fail> {
    let alloc = rt.alloc();
    let Some(script) = script_in(alloc, UPGRADE.as_bytes()) else {
        panic!(&rt; "no script")
    };
    let count = script.ranges;
    let lines = script.files.as_slice();
    let guests = script.guests.as_slice();
    let members = guests.len();
    if count == 0 {
        panic!(&rt; "no ranges")
    }
    if members == 0 {
        panic!(&rt; "no guest")
    }
    let daemon = daemon_of(alloc, &script)?;
    let (daemon, opened) = open_session(&rt, alloc, lines, count, daemon)?;
    let handles = opened.as_slice();
    let firsts = firsts_of(alloc, lines)?;
    let tables = open_tables(alloc, &firsts, count, guests, 0)?;
    let Tables {
        ranges,
        mut range_pass,
        ..
    } = tables;
    let mut files = opening_board(alloc)?;
    let pass = ranges.split(&mut range_pass, 0);
    let mut map = SeatMap::new(&ranges, pass);
    let Ok(()) = map.take(0) else {
        panic!(&rt; "the range isn't free")
    };
    let mut wire = HostWire::new(alloc, &daemon)?;
    let Ok(answer) = wire.submit(&rt, alloc, HALF, 16, &mut files, &mut map) else {
        panic!(&rt; "no answer")
    };
    assert_eq!(rt; answer.as_slice(), BUSY);
    assert_eq!(rt; map.target(0), None);
    let whole = Span {
        node: 2,
        foffset: 0,
        moffset: 0,
        len: RANGE_SIZE,
        mode: Mode::R,
    };
    assert!(rt; map.may_set(&whole));
    assert_eq!(rt; handles.len(), 1);
    Ok(())
}
