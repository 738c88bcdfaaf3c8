ghost use Rattle.std.specs.Prelude.{◌≡◌, ◌+◌, ◌≤◌, length, take, drop, replicate, Some, IfOk, OnOk};
ghost use Rattle.plain_file.specs.File.{max_file, after, answer, written, first_bytes};
ghost use Rattle.dax_script.specs.Asks.{hold_places, op_from, op_of, calls_of, call_at};
ghost use Rattle.dax_audit.specs.Rules.{line_at, op_in, same_answer};
ghost use Rattle.dax_audit.specs.Tables.{AreHolds};
ghost use Rattle.dax_audit.specs.Tables.{op_of_deed, end_of, told, deed_from, StaysWithin, sizes_from, right_on, rights_from};

use crate::picks::pick;
use crate::rules::{guest_calls, guest_holds, guest_lines};
use dax_script::{Call, Script, target_of};
use plain_file::{Answer, Memory};
use std::alloc::Global;
use transcript_text::{EntryLine, FilePart, Line, Transcript};

/// What a call does to its file.
#[derive(Clone, Copy)]
pub enum Deed<'a> {
    Read { off: u64, len: u64 },
    Write { off: u64, bytes: &'a [u8] },
    Fill { off: u64, len: u64, byte: u8 },
    Truncate { size: u64 },
    Size,
}

// The bytes of an interval that lie below the end.
fn part_of(bytes: &[u8], off: u64, len: u64) -> &[u8]
    ensures { result.now ≡ take len (drop off bytes.now) }
{
    let rest = if off < bytes.len() as u64 {
        &bytes[off as usize..]
    } else {
        &[]
    };
    if len < rest.len() as u64 {
        &rest[..len as usize]
    } else {
        rest
    }
}

// Whether an answer is the plain file's.
#[tactic(auto, unfolding(crate::specs::Tables::op_of_deed, plain_file::specs::File::answer, crate::specs::Rules::same_answer))]
fn is_answer(bytes: &[u8], deed: &Deed, told: &Answer) -> bool
    ensures { result ≡ same_answer (answer bytes.now (op_of_deed deed.now)) told.now }
{
    match (deed, told) {
        (Deed::Read { off, len }, Answer::Bytes(given)) => {
            part_of(bytes, *off, *len) == given.as_slice()
        }
        (Deed::Write { bytes, .. }, Answer::Wrote(n)) => bytes.len() as u64 == *n,
        (Deed::Fill { len, .. }, Answer::Wrote(n)) => *len == *n,
        (Deed::Truncate { size }, Answer::Size(n)) => *size == *n,
        (Deed::Size, Answer::Size(n)) => bytes.len() as u64 == *n,
        _ => false,
    }
}

fn write_at(bytes: &mut Vec<u8>, off: usize, piece: &[u8]) -> Result<(), Memory>
    requires { off + length piece.now ≤ max_file }
    ensures { OnOk result (bytes.new.items ≡ written bytes.old.items off piece.now) }
{
    if piece.is_empty() {
        return Ok(());
    }
    let end = off + piece.len();
    if bytes.len() < end {
        bytes.resize(end, 0)?;
    }
    bytes[off..end].copy_from_slice(piece);
    Ok(())
}

fn fill_at(bytes: &mut Vec<u8>, off: usize, len: usize, byte: u8) -> Result<(), Memory>
    requires { off + len ≤ max_file }
    ensures { OnOk result (bytes.new.items ≡ written bytes.old.items off (replicate len byte)) }
{
    if len == 0 {
        return Ok(());
    }
    let end = off + len;
    if bytes.len() < end {
        bytes.resize(end, 0)?;
    }
    bytes[off..end].fill(byte);
    Ok(())
}

// Does it.
#[tactic(auto, unfolding(crate::specs::Tables::op_of_deed, plain_file::specs::File::after, crate::specs::Tables::end_of))]
fn apply(bytes: &mut Vec<u8>, deed: &Deed) -> Result<(), Memory>
    requires { end_of (op_of_deed deed.now) ≤ max_file }
    ensures { OnOk result (bytes.new.items ≡ after bytes.old.items (op_of_deed deed.now)) }
{
    match deed {
        Deed::Write { off, bytes: piece } => write_at(bytes, *off as usize, piece),
        Deed::Fill { off, len, byte } => fill_at(bytes, *off as usize, *len as usize, *byte),
        Deed::Truncate { size } => {
            bytes.resize(*size as usize, 0)?;
            Ok(())
        }
        Deed::Read { .. } | Deed::Size => Ok(()),
    }
}

// What a call does whose offsets count from `start`.
#[tactic(auto, unfolding(crate::specs::Tables::op_of_deed, crate::specs::Tables::end_of, dax_script::specs::Asks::op_from))]
fn deed_at(start: u64, call: &Call) -> Deed
    requires { end_of (deed_from (op_from start call.now)) ≤ max_file }
    ensures { op_of_deed result ≡ deed_from (op_from start call.now) }
{
    match call {
        Call::Read { off, len, .. } | Call::Load { off, len, .. } => Deed::Read {
            off: start + *off,
            len: *len as u64,
        },
        Call::Write { off, bytes, .. } | Call::Store { off, bytes, .. } => Deed::Write {
            off: start + *off,
            bytes: bytes.as_slice(),
        },
        Call::Fill { off, len, byte, .. } => Deed::Fill {
            off: start + *off,
            len: *len as u64,
            byte: *byte,
        },
        Call::Truncate { size, .. } => Deed::Truncate { size: *size },
        Call::Size { .. } | Call::Hold { .. } | Call::Release { .. } => Deed::Size,
    }
}

// What the call of an entry does.
#[tactic(auto, using(crate::proofs::Replayed::op_of_target, crate::proofs::Replayed::op_of_nowhere), unfolding(crate::specs::Tables::op_of_deed, crate::specs::Tables::end_of))]
fn deed_of<'a>(script: &'a Script, holds: &[Vec<usize>], entry: &EntryLine) -> Deed<'a>
    requires holds { AreHolds script.now holds.now }
    requires within { StaysWithin script.now }
    ensures value { op_of_deed result ≡ op_in script.now entry.now }
    ensures small { end_of (op_of_deed result) ≤ max_file }
{
    let guest = entry.guest as usize;
    let calls = guest_calls(script, guest);
    let Some(call) = pick(calls, entry.call as usize) else {
        return Deed::Size;
    };
    let Some(to) = target_of(calls, guest_holds(script, holds, guest), call) else {
        return Deed::Size;
    };
    deed_at(to.start, call)
}

// Whether the line of an entry's call tells the plain file's answer.
#[tactic(auto, unfolding(crate::specs::Tables::told_by))]
fn is_right(t: &Transcript, bytes: &[u8], deed: &Deed, entry: &EntryLine) -> bool
    ensures { result ≡ told (line_at t.now entry.now.guest entry.now.call) (answer bytes.now (op_of_deed deed.now)) }
{
    let Some(numbered) = pick(guest_lines(t, entry.guest as usize), entry.call as usize) else {
        return false;
    };
    match &numbered.line {
        Line::Done { answer, .. } => is_answer(bytes, deed, answer),
        _ => false,
    }
}

/// What a file's entries make of it, one after another: the sizes before each and after the last one,
/// and of each whether its call's line tells the plain file's answer.
#[derive(Drop)]
pub struct Replay {
    pub sizes: Vec<u64>,
    pub right: Vec<bool>,
}

/// Carries out a file's entries on one buffer.
#[tactic(auto, unfolding(crate::specs::Tables::sizes_from, crate::specs::Tables::rights_from, crate::specs::Tables::right_on))]
pub fn carry_out(
    alloc: Global,
    script: &Script,
    t: &Transcript,
    holds: &[Vec<usize>],
    part: &FilePart,
) -> Result<Replay, Memory>
    requires holds { AreHolds script.now holds.now }
    requires within { StaysWithin script.now }
    requires size { part.now.first.size ≤ max_file }
    ensures sizes { IfOk result (λ r. r.sizes.items ≡ sizes_from script.now (first_bytes part.now.first) part.now.entries) }
    ensures right { IfOk result (λ r. r.right.items ≡ rights_from script.now t.now (first_bytes part.now.first) part.now.entries) }
{
    let mut bytes = vec![in alloc; part.first.fill; part.first.size as usize]?;
    let mut sizes = Vec::new(alloc);
    let mut right = Vec::new(alloc);
    for entry in part.entries.as_slice() {
        sizes.push(bytes.len() as u64)?;
        let deed = deed_of(script, holds, entry);
        right.push(is_right(t, &bytes, &deed, entry))?;
        apply(&mut bytes, &deed)?;
    }
    sizes.push(bytes.len() as u64)?;
    Ok(Replay { sizes, right })
}
