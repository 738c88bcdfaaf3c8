ghost use Rattle.std.specs.Prelude.{◌≡◌, ◌≢◌, ◌<◌, ◌≤◌, [], Err, length};
ghost use Rattle.page_map.specs.Window.{max_chunks};
ghost use Rattle.plain_file.specs.Limits.{max_part};
ghost use Rattle.range_tree.specs.Trees.{max_ranges};
ghost use Rattle.range_tree.specs.Ranges.{pins_in};
ghost use Rattle.guest_wire.specs.Fakes.{fake_wire};
ghost use Rattle.guest_wire.specs.Keeps.{KeepsPages};
ghost use Rattle.guest_wire.specs.declared.wires.WireError.TheVariants as errors;

use super::*;
use fuse_codec::{Message, Reply, Request, decode_request, encode_reply};
use fuse_wire::SetupIn;
use guest_wire::{Driver, FileRef, Wire, WireError};
use page_map::{MapBoard, Mode, RANGE_SIZE, RangeWord, Span};
use plain_file::{Blob, First, List, Memory, PlainFiles};
use range_tree::{PlainRanges, RangeBoard};
use std::alloc::Global;
use std::marker::Model;
use std::ops::Range;
use std::process::Abort;
use std::sync::Wait;
use std::test::Fail;

// What a wire does with a request.
#[derive(Clone, Copy, Debug)]
enum Manner {
    // Sets or clears the window as it is asked, and answers a success.
    Serves,
    // Answers these bytes.
    Says(&'static [u8]),
    Fails,
}

// A request that a wire served: the node, the chunk and the range, and the mapping's flags.
#[derive(Clone, Copy, Debug, Drop, PartialEq, Eq)]
enum Sent {
    Setup(u64, u64, u64, u64),
    Remove(u64, u64),
    Other,
}

// A wire that isn't honest, over a window that it sets and clears itself.
#[derive(Drop)]
struct TestWire {
    manner: Manner,
    sent: Vec<Sent>,
    faults: u64,
}

// What the flags of a mapping allow.
fn mode_of(flags: u64) -> Mode {
    if flags == 3 { Mode::W } else { Mode::R }
}

// Maps a range to a chunk of a file, where the board lets it.
fn set(map: &mut PlainRanges, node: u64, chunk: u32, range: u32, mode: Mode)
    requires { chunk < max_chunks }
    ensures { KeepsPages map.old map.new }
{
    let span = Span {
        node,
        foffset: chunk as u64 * RANGE_SIZE,
        moffset: range as u64 * RANGE_SIZE,
        len: RANGE_SIZE,
        mode,
    };
    let count = map.ranges();
    if range >= count {
        return;
    }
    if map.may_set(&span) {
        map.set(&span);
    }
}

// Clears a range, where the board lets it.
fn clear(map: &mut PlainRanges, range: u32)
    ensures { KeepsPages map.old map.new }
{
    let moffset = range as u64 * RANGE_SIZE;
    let count = map.ranges();
    if range >= count {
        return;
    }
    if map.may_clear(moffset, RANGE_SIZE) {
        map.clear(moffset, RANGE_SIZE);
    }
}

// Does to the window what SETUPMAPPING asks for, of a whole chunk and a whole range.
fn setup(map: &mut PlainRanges, node: u64, asked: &SetupIn) -> Sent
    ensures { KeepsPages map.old map.new }
{
    let chunk = asked.foffset / RANGE_SIZE;
    let range = asked.moffset / RANGE_SIZE;
    if chunk < 32 && range < 256 {
        set(map, node, chunk as u32, range as u32, mode_of(asked.flags));
    }
    Sent::Setup(node, chunk, range, asked.flags)
}

// Does to the window what REMOVEMAPPING asks for, of a whole range.
fn remove(map: &mut PlainRanges, node: u64, moffset: u64) -> Sent
    ensures { KeepsPages map.old map.new }
{
    let range = moffset / RANGE_SIZE;
    if range < 256 {
        clear(map, range as u32);
    }
    Sent::Remove(node, range)
}

// Does to the window what is asked for.
fn obey(map: &mut PlainRanges, message: &Message) -> Sent
    ensures { KeepsPages map.old map.new }
{
    let node = message.head.nodeid;
    match &message.body {
        Request::Setup(asked) => setup(map, node, asked),
        Request::Remove { ones } => match ones.get(0) {
            Some(one) => remove(map, node, one.moffset),
            None => Sent::Other,
        },
        _ => Sent::Other,
    }
}

impl TestWire {
    fn serve(
        &mut self,
        alloc: Global,
        readable: &[u8],
        map: &mut PlainRanges,
    ) -> Result<Blob, WireError>
        requires { length readable.now ≤ max_part }
        ensures fault { result ≢ Err errors.Fault }
        ensures faults { self.new.faults ≡ self.old.faults }
        ensures pages { KeepsPages map.old map.new }
    {
        let Ok(message) = decode_request(alloc, readable) else {
            return Err(WireError::Memory);
        };
        let sent = obey(map, &message);
        if self.sent.push(sent).is_err() {
            return Err(WireError::Memory);
        }
        answer(alloc, message.head.unique)
    }
}

// The reply of a success without a body.
#[tactic(auto, unfolding(fuse_codec::specs::Replies::is_reply))]
fn answer(alloc: Global, unique: u64) -> Result<Blob, WireError>
    ensures { result ≢ Err errors.Fault }
{
    match encode_reply(alloc, &Reply::Done, unique) {
        Ok(bytes) => Ok(bytes),
        Err(_) => Err(WireError::Memory),
    }
}

impl Wire<PlainFiles, PlainRanges> for TestWire {
    ghost wire = { λ w. fake_wire (record { left = []; faults = w.faults }) };

    ghost gives = { λ before old sent result after new. Unit {0} };

    fn submit<T: Wait>(
        &mut self,
        rt: &T,
        alloc: Global,
        readable: &[u8],
        room: u32,
        files: &mut PlainFiles,
        map: &mut PlainRanges,
    ) -> Result<Blob, WireError> {
        match self.manner {
            Manner::Serves => self.serve(alloc, readable, map),
            Manner::Says(bytes) => match Blob::copy_of(alloc, bytes) {
                Ok(bytes) => Ok(bytes),
                Err(_) => Err(WireError::Memory),
            },
            Manner::Fails => {
                self.faults = self.faults.saturating_add(1);
                Err(WireError::Fault)
            }
        }
    }
}

// A step of a script. Files, chunks and ranges are numbered from 0.
#[derive(Clone, Copy, Debug)]
enum Step {
    // What the wire does from here on.
    Told(Manner),
    Acquire,
    // A file, a chunk and a mode.
    Place(u32, u32, Mode),
    Pin(u32, u32, Mode),
    // Gives a pin on a range back.
    Unpin(u32),
    Reclaim,
    Turn,
    // Shows the word of a range.
    Look(u32),
    // Shows what the wire served since the last such step.
    Sent,
}

// A guest of number 7 over a wire of the tests. No tree is had between its steps.
#[derive(Drop)]
struct Guest {
    dax: Dax<TestWire, PlainFiles, PlainRanges>,
    // how many pins it has
    pins: u32,
}

impl Model for Guest {
    ghost use Rattle.std.specs.Prelude.{ℕ, ◌≡◌, false, [], None, sum};
    ghost use Rattle.guest_wire.specs.Fakes.{fake_wire};
    ghost use Rattle.guest_dax.specs.Stands.{stand, Stands};

    ghost Value = { ℕ };

    ghost view = { λ g. g.pins };

    ghost invariant = { λ g. Stands (stand (fake_wire (record { left = []; faults = g.dax.driver.wire.faults })) g.dax.files g.dax.ranges) g.dax.refs
        × (g.dax.ranges.hands.tree ≡ None) × (g.dax.ranges.ranges.others ≡ false) × (sum g.dax.ranges.hands.pins ≡ g.pins) };
}

const FILES: [First; 8] = [First { size: 0, fill: 0 }; 8];

const REFS: [FileRef; 8] = [
    FileRef { node: 2, fh: 1 },
    FileRef { node: 3, fh: 2 },
    FileRef { node: 4, fh: 3 },
    FileRef { node: 5, fh: 4 },
    FileRef { node: 6, fh: 5 },
    FileRef { node: 7, fh: 6 },
    FileRef { node: 8, fh: 7 },
    FileRef { node: 9, fh: 8 },
];

impl Guest {
    // A guest with so many ranges, and with 8 files.
    fn new(alloc: Global, ranges: u32) -> Result<Guest, Memory>
        requires { ranges ≤ max_ranges }
    {
        let firsts = List::from_vec(Vec::from_slice(alloc, &FILES)?);
        let refs = List::from_vec(Vec::from_slice(alloc, &REFS)?);
        let files = PlainFiles::new(alloc, 7, &firsts)?;
        let ranges = PlainRanges::new(alloc, ranges, 8, 7)?;
        let wire = TestWire {
            manner: Manner::Serves,
            sent: Vec::new(alloc),
            faults: 0,
        };
        Ok(Guest {
            dax: Dax::new(Driver::new(wire), files, ranges, refs),
            pins: 0,
        })
    }

    fn acquire<T: Wait + Abort>(&mut self, rt: &T, alloc: Global) -> Result<(), DaxRefusal> {
        self.dax.ranges.forget_looks();
        assert!(rt; self.dax.ranges.ranges() > 0);
        assert!(rt; self.dax.ranges.moved().is_none());
        self.dax.acquire(rt, alloc)
    }

    fn place<T: Wait + Abort>(
        &mut self,
        rt: &T,
        alloc: Global,
        file: u32,
        chunk: u32,
        mode: Mode,
    ) -> Result<Pinned, DaxRefusal> {
        assert!(rt; (file as usize) < self.dax.refs.len());
        assert!(rt; chunk < 32 && self.pins < 64);
        assert!(rt; self.dax.ranges.moved().is_some());
        match self.dax.place(rt, alloc, file, chunk, mode) {
            Ok(pinned) => {
                self.pins += 1;
                Ok(pinned)
            }
            Err(refusal) => Err(refusal),
        }
    }

    fn pin<T: Wait + Abort>(
        &mut self,
        rt: &T,
        alloc: Global,
        file: u32,
        chunk: u32,
        mode: Mode,
    ) -> Result<Option<Pinned>, DaxRefusal> {
        assert!(rt; (file as usize) < self.dax.refs.len());
        assert!(rt; chunk < 32 && self.pins < 64);
        match self.dax.pin_chunk(rt, alloc, file, chunk, mode) {
            Ok(Some(pinned)) => {
                self.pins += 1;
                Ok(Some(pinned))
            }
            Ok(None) => Ok(None),
            Err(refusal) => Err(refusal),
        }
    }

    fn unpin<T: Wait + Abort>(&mut self, rt: &T, range: u32) {
        assert!(rt; range < self.dax.ranges.ranges());
        let word = self.dax.ranges.look(range);
        let pins = pins_of(word);
        assert!(rt; pins > 0 && self.pins > 0);
        self.dax.ranges.unpin(range);
        self.pins -= 1;
    }

    fn look<T: Wait + Abort>(&mut self, rt: &T, range: u32) -> RangeWord {
        assert!(rt; range < self.dax.ranges.ranges());
        self.dax.ranges.look(range)
    }

    fn reclaim<T: Wait + Abort>(&mut self, rt: &T, alloc: Global) -> Result<bool, DaxRefusal> {
        self.dax.ranges.forget_looks();
        assert!(rt; self.dax.ranges.moved().is_none());
        self.dax.reclaim_one(rt, alloc)
    }

    fn turn<T: Wait + Abort>(&mut self, rt: &T, alloc: Global) -> Result<(), DaxRefusal> {
        self.dax.ranges.forget_looks();
        assert!(rt; self.dax.ranges.ranges() > 0);
        assert!(rt; self.dax.ranges.moved().is_none());
        self.dax.background_turn(rt, alloc)
    }

    fn moved(&self) -> Option<u32> {
        self.dax.ranges.moved()
    }

    // What the wire does from here on.
    fn tell(&mut self, manner: Manner) {
        self.dax.driver.wire.manner = manner;
    }

    // The requests that the wire served since the last such call.
    fn sent(&mut self, alloc: Global) -> Vec<Sent> {
        let wire = &mut self.dax.driver.wire;
        std::mem::replace(&mut wire.sent, Vec::new(alloc))
    }
}

// A pin, as a transcript writes it.
fn shown(alloc: Global, pinned: Pinned) -> Result<String, Fail> {
    let Pinned { range, through } = pinned;
    Ok(format!(in alloc; "{range} via {} {}", through.entry, through.upto)?)
}

#[tactic(auto, unfolding(range_tree::specs::Ranges::pins_in))]
fn pins_of(word: RangeWord) -> u32
    ensures { result ≡ pins_in word }
{
    match word {
        RangeWord::Mapped { pins, .. } => pins,
        _ => 0,
    }
}

// Makes a step, and shows what came of it.
fn make<T: Wait + Abort>(
    rt: &T,
    alloc: Global,
    guest: &mut Guest,
    step: Step,
) -> Result<String, Fail> {
    Ok(match step {
        Step::Told(manner) => {
            guest.tell(manner);
            String::new(alloc)
        }
        Step::Acquire => {
            let answer = guest.acquire(rt, alloc);
            format!(in alloc; "{answer:?} {:?}", guest.moved())?
        }
        Step::Place(file, chunk, mode) => match guest.place(rt, alloc, file, chunk, mode) {
            Ok(pinned) => shown(alloc, pinned)?,
            Err(refusal) => format!(in alloc; "{refusal:?}")?,
        },
        Step::Pin(file, chunk, mode) => match guest.pin(rt, alloc, file, chunk, mode) {
            Ok(Some(pinned)) => shown(alloc, pinned)?,
            other => format!(in alloc; "{other:?}")?,
        },
        Step::Unpin(range) => {
            guest.unpin(rt, range);
            String::new(alloc)
        }
        Step::Reclaim => format!(in alloc; "{:?}", guest.reclaim(rt, alloc))?,
        Step::Turn => format!(in alloc; "{:?}", guest.turn(rt, alloc))?,
        Step::Look(range) => format!(in alloc; "{:?}", guest.look(rt, range))?,
        Step::Sent => format!(in alloc; "{:?}", guest.sent(alloc))?,
    })
}

fn run<T: Wait + Abort>(
    rt: &T,
    alloc: Global,
    guest: &mut Guest,
    script: &[(Step, &str)],
) -> Result<(), Fail> {
    for (step, wanted) in script {
        let shown = make(rt, alloc, guest, *step)?;
        assert_eq!(rt; shown.as_str(), *wanted, "{step:?}");
    }
    Ok(())
}

// Places so many chunks from this one on, each without a pin.
fn fill<T: Wait + Abort>(rt: &T, alloc: Global, guest: &mut Guest, chunks: Range<u32>) {
    for chunk in chunks {
        let taken = guest.acquire(rt, alloc);
        assert!(rt; taken.is_ok());
        let placed = guest.place(rt, alloc, chunk / 32, chunk % 32, Mode::R);
        assert!(rt; placed.is_ok());
        guest.unpin(rt, chunk);
    }
    guest.sent(alloc);
}

// Ranges are taken in their order while one is free, and then from behind the one that was reclaimed last.
const RECLAIMS: &[(Step, &str)] = &[
    (Step::Acquire, "Ok(()) Some(0)"),
    (Step::Look(0), "Moving { guest: 7 }"),
    (Step::Place(0, 0, Mode::R), "0 via 0 1"),
    (Step::Unpin(0), ""),
    (Step::Acquire, "Ok(()) Some(1)"),
    (Step::Place(0, 1, Mode::R), "1 via 1 2"),
    (Step::Unpin(1), ""),
    (Step::Acquire, "Ok(()) Some(0)"),
    (Step::Place(0, 2, Mode::R), "0 via 3 4"),
    (Step::Unpin(0), ""),
    (
        Step::Sent,
        "[Setup(2, 0, 0, 2), Setup(2, 1, 1, 2), Remove(2, 0), Setup(2, 2, 0, 2)]",
    ),
    (Step::Acquire, "Ok(()) Some(1)"),
    (Step::Place(0, 0, Mode::W), "1 via 5 6"),
    (Step::Unpin(1), ""),
    (Step::Acquire, "Ok(()) Some(0)"),
    (Step::Place(0, 1, Mode::R), "0 via 7 8"),
    (Step::Pin(0, 0, Mode::R), "1 via 5 8"),
    (Step::Unpin(0), ""),
    (Step::Acquire, "Ok(()) Some(0)"),
    (Step::Place(0, 2, Mode::W), "0 via 9 10"),
    (
        Step::Sent,
        "[Remove(2, 1), Setup(2, 0, 1, 3), Remove(2, 0), Setup(2, 1, 0, 2), Remove(2, 0), Setup(2, 2, 0, 3)]",
    ),
    (
        Step::Acquire,
        "Err(Busy { looked: List { items: [Look { range: 0, word: Mapped { file: 0, chunk: 2, mode: W, pins: 1 } }, Look { range: 1, word: Mapped { file: 0, chunk: 0, mode: W, pins: 1 } }] } }) None",
    ),
    (Step::Reclaim, "Ok(false)"),
    (Step::Sent, "[]"),
];

#[test]
fn takes_ranges(rt: HostRuntime) -> Result<(), Fail> {
    let alloc = rt.alloc();
    let mut guest = Guest::new(alloc, 2)?;
    run(&rt, alloc, &mut guest, RECLAIMS)
}

// Replies of an error, of another request, and of a success, whose requests have the numbers 1 to 3.
const REFUSED: Manner = Manner::Says(&[16, 0, 0, 0, 251, 255, 255, 255, 1, 0, 0, 0, 0, 0, 0, 0]);

const OTHERS: Manner = Manner::Says(&[16, 0, 0, 0, 0, 0, 0, 0, 1, 0, 0, 0, 0, 0, 0, 0]);

const NOT_DONE: Manner = Manner::Says(&[16, 0, 0, 0, 0, 0, 0, 0, 3, 0, 0, 0, 0, 0, 0, 0]);

const REFUSED_LATER: Manner = Manner::Says(&[
    16, 0, 0, 0, 251, 255, 255, 255, 7, 0, 0, 0, 0, 0, 0, 0,
]);

const REFUSED_AGAIN: Manner = Manner::Says(&[
    16, 0, 0, 0, 234, 255, 255, 255, 8, 0, 0, 0, 0, 0, 0, 0,
]);

const REFUSALS: &[(Step, &str)] = &[
    (Step::Acquire, "Ok(()) Some(0)"),
    (Step::Told(REFUSED), ""),
    (Step::Place(0, 0, Mode::R), "Errno { number: 5 }"),
    (Step::Look(0), "Free"),
    (Step::Acquire, "Ok(()) Some(0)"),
    (Step::Told(OTHERS), ""),
    (
        Step::Place(0, 0, Mode::R),
        "BadReply { bytes: List { items: [16, 0, 0, 0, 0, 0, 0, 0, 1, 0, 0, 0, 0, 0, 0, 0] } }",
    ),
    (Step::Look(0), "Free"),
    (Step::Acquire, "Ok(()) Some(0)"),
    (Step::Told(NOT_DONE), ""),
    (
        Step::Place(0, 0, Mode::R),
        "BadReply { bytes: List { items: [16, 0, 0, 0, 0, 0, 0, 0, 3, 0, 0, 0, 0, 0, 0, 0] } }",
    ),
    (Step::Look(0), "Free"),
    (Step::Acquire, "Ok(()) Some(0)"),
    (Step::Told(Manner::Fails), ""),
    (Step::Place(0, 0, Mode::R), "WireFault"),
    (Step::Look(0), "Free"),
    (Step::Pin(0, 0, Mode::R), "Ok(None)"),
    (Step::Told(Manner::Serves), ""),
    (Step::Acquire, "Ok(()) Some(0)"),
    (Step::Place(0, 0, Mode::R), "0 via 0 1"),
    (Step::Acquire, "Ok(()) Some(1)"),
    (Step::Place(0, 1, Mode::R), "1 via 1 2"),
    (Step::Unpin(1), ""),
    (Step::Told(REFUSED_LATER), ""),
    (Step::Pin(0, 0, Mode::W), "Err(Errno { number: 5 })"),
    (
        Step::Look(0),
        "Mapped { file: 0, chunk: 0, mode: R, pins: 1 }",
    ),
    (Step::Told(REFUSED_AGAIN), ""),
    (Step::Acquire, "Err(Errno { number: 22 }) None"),
    (Step::Look(1), "Free"),
];

#[test]
fn refuses(rt: HostRuntime) -> Result<(), Fail> {
    let alloc = rt.alloc();
    let mut guest = Guest::new(alloc, 2)?;
    run(&rt, alloc, &mut guest, REFUSALS)
}

// A chunk that is placed for reading is made writable once, by one request.
const UPGRADES: &[(Step, &str)] = &[
    (Step::Acquire, "Ok(()) Some(0)"),
    (Step::Place(0, 0, Mode::R), "0 via 0 1"),
    (
        Step::Look(0),
        "Mapped { file: 0, chunk: 0, mode: R, pins: 1 }",
    ),
    (Step::Unpin(0), ""),
    (Step::Pin(0, 0, Mode::W), "0 via 0 2"),
    (
        Step::Look(0),
        "Mapped { file: 0, chunk: 0, mode: W, pins: 1 }",
    ),
    (Step::Pin(0, 0, Mode::R), "0 via 0 2"),
    (Step::Pin(0, 0, Mode::W), "0 via 0 2"),
    (Step::Pin(0, 1, Mode::W), "Ok(None)"),
    (Step::Acquire, "Ok(()) Some(1)"),
    (Step::Place(0, 0, Mode::W), "0 via 0 2"),
    (
        Step::Look(0),
        "Mapped { file: 0, chunk: 0, mode: W, pins: 4 }",
    ),
    (Step::Look(1), "Free"),
    (Step::Sent, "[Setup(2, 0, 0, 2), Setup(2, 0, 0, 3)]"),
];

#[test]
fn upgrades(rt: HostRuntime) -> Result<(), Fail> {
    let alloc = rt.alloc();
    let mut guest = Guest::new(alloc, 2)?;
    run(&rt, alloc, &mut guest, UPGRADES)
}

// Of 256 ranges 52 are free, whose five times are 260.
const MANY_FREE: &[(Step, &str)] = &[
    (Step::Turn, "Ok(())"),
    (Step::Sent, "[]"),
    (
        Step::Look(203),
        "Mapped { file: 6, chunk: 11, mode: R, pins: 0 }",
    ),
    (Step::Look(204), "Free"),
];

// 51 are free, whose five times are 255.
const FEW_FREE: &[(Step, &str)] = &[
    (Step::Pin(0, 0, Mode::R), "0 via 0 32"),
    (Step::Turn, "Ok(())"),
    (Step::Sent, "[Remove(2, 1)]"),
    (Step::Look(1), "Free"),
    (Step::Turn, "Ok(())"),
    (Step::Sent, "[]"),
    (Step::Unpin(0), ""),
    (Step::Reclaim, "Ok(true)"),
    (Step::Look(2), "Free"),
    (Step::Reclaim, "Ok(true)"),
    (Step::Look(3), "Free"),
    (Step::Sent, "[Remove(2, 2), Remove(2, 3)]"),
    (
        Step::Look(0),
        "Mapped { file: 0, chunk: 0, mode: R, pins: 0 }",
    ),
    (Step::Acquire, "Ok(()) Some(1)"),
];

#[test]
fn frees_ranges(rt: HostRuntime) -> Result<(), Fail> {
    let alloc = rt.alloc();
    let mut guest = Guest::new(alloc, 256)?;
    fill(&rt, alloc, &mut guest, 0..204);
    run(&rt, alloc, &mut guest, MANY_FREE)?;
    fill(&rt, alloc, &mut guest, 204..205);
    run(&rt, alloc, &mut guest, FEW_FREE)
}

const PLACED: &[(Step, &str)] = &[
    (Step::Acquire, "Ok(()) Some(0)"),
    (Step::Place(0, 31, Mode::W), "0 via 0 1"),
];

const PINNED: &[(Step, &str)] = &[(Step::Pin(0, 31, Mode::R), "0 via 0 1")];

const ALL_PINS: &[(Step, &str)] = &[
    (
        Step::Look(0),
        "Mapped { file: 0, chunk: 31, mode: W, pins: 64 }",
    ),
    (Step::Reclaim, "Ok(false)"),
];

const UNPINNED: &[(Step, &str)] = &[(Step::Unpin(0), "")];

const NO_PINS: &[(Step, &str)] = &[
    (
        Step::Look(0),
        "Mapped { file: 0, chunk: 31, mode: W, pins: 0 }",
    ),
    (Step::Reclaim, "Ok(true)"),
    (Step::Look(0), "Free"),
    (Step::Sent, "[Setup(2, 31, 0, 3), Remove(2, 0)]"),
];

// A range has 64 pins, which are given back, and then it is freed.
#[test]
fn pins_much(rt: HostRuntime) -> Result<(), Fail> {
    let alloc = rt.alloc();
    let mut guest = Guest::new(alloc, 2)?;
    let parts = [
        (PLACED, 1),
        (PINNED, 63),
        (ALL_PINS, 1),
        (UNPINNED, 64),
        (NO_PINS, 1),
    ];
    for (script, times) in parts {
        for _ in 0..times {
            run(&rt, alloc, &mut guest, script)?;
        }
    }
    Ok(())
}
