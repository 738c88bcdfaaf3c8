ghost use Rattle.std.specs.Prelude.{◌≡◌, ◌≤◌, ◌+◌, ◌-◌, ◌<◌, max, take, drop, [], ◌∷◌, ◌++◌, length, IfOk, OnOk, OnErr, vec_capacity, vec_len};
ghost use Rattle.plain_file.specs.File.{max_file, after, answer, reach, written};
ghost use Rattle.plain_file.specs.History.{new_past, whole_bytes, next_answer, grown};

use crate::lists::{Blob, List};
use crate::operations::{Answer, Applied, Entry, First, Op};
use crate::refusals::Memory;
use std::alloc::Global;
use std::marker::Model;

/// One file: its bytes in a buffer, and its history. Contracts see its first contents and its
/// history, from which its bytes follow.
///
/// An `apply` takes time in proportion to the bytes that it reads, writes, adds or cuts.
#[derive(Debug, Drop)]
pub struct Body {
    first: First,
    bytes: Vec<u8>,
    history: List<Entry>,
}

impl Model for Body {
    ghost use Rattle.plain_file.specs.History.{Past};
    ghost use Rattle.plain_file.specs.Plain.{IsBuffer};

    ghost Value = { Past };

    ghost view = { λ b. record { first = b.first; history = b.history } };

    ghost invariant = { λ b. IsBuffer (record { first = b.first; history = b.history }) b.bytes.items };
}

impl Body {
    /// A file with these first contents, of at most `MAX_FILE` bytes, and an empty history. `Memory`
    /// comes where an allocation was refused.
    pub fn new(alloc: Global, first: First) -> Result<Body, Memory>
        requires { first.size ≤ max_file }
        ensures { IfOk result (λ b. b ≡ new_past first) }
    {
        Ok(Body {
            first,
            bytes: vec![in alloc; first.fill; first.size as usize]?,
            history: List::new(alloc),
        })
    }

    /// The file's size in bytes, which is at most `MAX_FILE`.
    pub fn size(&self) -> u64
        ensures value { result ≡ length (whole_bytes self.now) }
        ensures small { result ≤ max_file }
    {
        self.bytes.len() as u64
    }

    /// The whole history, from its first entry on.
    pub fn history(&self) -> &List<Entry>
        ensures { result.now ≡ self.now.history }
    {
        &self.history
    }

    /// Copies the bytes from the offset `off` on to the front of `out`, as many as `out` takes and the
    /// file has there, and answers how many; the rest of `out` stays. None are copied from the file's
    /// end or past it.
    pub fn read_into(&self, off: u64, out: &mut [u8]) -> usize
        ensures count { result ≡ length (take (length out.old) (drop off (whole_bytes self.now))) }
        ensures bytes { out.new ≡ take (length out.old) (drop off (whole_bytes self.now)) ++ drop result out.old }
    {
        copy_part(&self.bytes, off, out)
    }

    /// Applies the entry's operation: it gets the next place of the history, which grows by the entry,
    /// and the answer is the plain file's there. A write's end and a truncation's size are at most
    /// `MAX_FILE` bytes. `Memory` comes where an allocation was refused; nothing has changed then.
    pub fn apply(&mut self, alloc: Global, entry: Entry) -> Result<Applied, Memory>
        requires { reach entry.op ≤ max_file }
        ensures answer { IfOk result (λ a. a ≡ next_answer self.old entry.op) }
        ensures ok { OnOk result (self.new ≡ grown self.old entry) }
        ensures err { OnErr result (self.new ≡ self.old) }
    {
        let reach = reach_of(&entry.op) as usize;
        make_room(&mut self.bytes, reach)?;
        let answer = answer_of(alloc, &self.bytes, &entry.op)?;
        let place = self.history.len();
        self.history.push(entry)?;
        change(&mut self.bytes, &self.history.as_slice()[place].op);
        Ok(Applied {
            place: place as u64,
            answer,
        })
    }
}

#[tactic(auto, unfolding(crate::specs::File::answer))]
fn answer_of(alloc: Global, bytes: &[u8], op: &Op) -> Result<Answer, Memory>
    ensures { IfOk result (λ a. a ≡ answer bytes.now op.now) }
{
    match op {
        Op::Read { off, len } => Ok(Answer::Bytes(Blob::copy_of(
            alloc,
            part_of(bytes, *off, *len),
        )?)),
        Op::Write { bytes, .. } => Ok(Answer::Wrote(bytes.len() as u64)),
        Op::Truncate { size } => Ok(Answer::Size(*size)),
        Op::Size => Ok(Answer::Size(bytes.len() as u64)),
    }
}

// The bytes of an interval that lie below the end.
fn part_of(bytes: &[u8], off: u64, len: u64) -> &[u8]
    ensures { result.now ≡ take len (drop off bytes.now) }
{
    let rest = if off < bytes.len() as u64 {
        &bytes[off as usize..]
    } else {
        &[]
    };
    if len < rest.len() as u64 {
        &rest[..len as usize]
    } else {
        rest
    }
}

// Copies such bytes to the front of a buffer, as many as it takes.
fn copy_part(bytes: &[u8], off: u64, out: &mut [u8]) -> usize
    ensures count { result ≡ length (take (length out.old) (drop off bytes.now)) }
    ensures bytes { out.new ≡ take (length out.old) (drop off bytes.now) ++ drop result out.old }
{
    let part = part_of(bytes, off, out.len() as u64);
    out[..part.len()].copy_from_slice(part);
    part.len()
}

// Changes the bytes, for which there is room.
#[tactic(auto, unfolding(crate::specs::File::after, crate::specs::File::reach))]
fn change(bytes: &mut Vec<u8>, op: &Op)
    requires small { reach op.now ≤ max_file }
    requires room { max (vec_len bytes.old) (reach op.now) ≤ vec_capacity bytes.old }
    ensures after { bytes.new.items ≡ after bytes.old.items op.now }
    ensures small { vec_len bytes.old ≤ max_file → vec_len bytes.new ≤ max_file }
{
    match op {
        Op::Write { off, bytes: piece } => write_at(bytes, *off as usize, piece.as_slice()),
        Op::Truncate { size } => bytes.resize(*size as usize, 0).unwrap(),
        Op::Read { .. } | Op::Size => {}
    }
}

fn write_at(bytes: &mut Vec<u8>, off: usize, piece: &[u8])
    requires small { off + length piece.now ≤ max_file }
    requires room { max (vec_len bytes.old) (off + length piece.now) ≤ vec_capacity bytes.old }
    ensures { bytes.new.items ≡ written bytes.old.items off piece.now }
{
    if piece.is_empty() {
        return;
    }
    let end = off + piece.len();
    if bytes.len() < end {
        bytes.resize(end, 0).unwrap();
    }
    bytes[off..end].copy_from_slice(piece);
}

fn make_room(bytes: &mut Vec<u8>, reach: usize) -> Result<(), Memory>
    ensures items { bytes.new.items ≡ bytes.old.items }
    ensures room { OnOk result (max (vec_len bytes.new) reach ≤ vec_capacity bytes.new) }
{
    if bytes.len() < reach {
        bytes.reserve(reach - bytes.len())?;
    }
    Ok(())
}

#[tactic(auto, unfolding(crate::specs::File::reach))]
fn reach_of(op: &Op) -> u64
    requires { reach op.now ≤ max_file }
    ensures { result ≡ reach op.now }
{
    match op {
        Op::Write { off, bytes } => *off + bytes.len() as u64,
        Op::Truncate { size } => *size,
        Op::Read { .. } | Op::Size => 0,
    }
}
