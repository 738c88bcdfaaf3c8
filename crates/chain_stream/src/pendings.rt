ghost use Rattle.std.specs.Prelude.{◌≡◌, ◌≤◌, ◌<◌, ◌+◌, ◌-◌, ◌^◌, ◌++◌, ℕ, List, [], length, drop, take, Ok, IfOk, OnErr, OnOk, IsErrOf};
ghost use Rattle.std.specs.Io.KnownBytes.{Consumes, IsAtEnd};
ghost use Rattle.plain_file.specs.Counts.{Rose};
ghost use Rattle.chain_stream.specs.Courses.{PendingView, chunk};

use plain_file::Memory;
use program_io::Source;
use std::alloc::Global;
use std::marker::Model;
use thiserror::Error;

// The most bytes that one read takes.
const CHUNK: usize = 65_536;

/// Why no bytes were read.
#[derive(Clone, Copy, Debug, PartialEq, Eq, Error)]
pub enum FillError {
    /// An allocation was refused.
    #[error("out of memory")]
    Memory,
    /// The source failed, and its count of faults rose.
    #[error("the source failed")]
    Failed,
}

/// The bytes of a stream that were read and not used yet, with their offset in the input. The memory
/// of bytes that were used is used again.
#[derive(Debug, Drop)]
pub struct Pending {
    // The bytes stand in it from `start` to `end`.
    buffer: Vec<u8>,
    start: usize,
    end: usize,
    at: u64,
}

impl Model for Pending {
    ghost use Rattle.std.specs.Prelude.{◌≤◌, drop, length, take};
    ghost use Rattle.chain_stream.specs.Courses.{PendingView};

    ghost Value = { PendingView };

    ghost view = { λ p. record { rest = drop p.start (take p.end p.buffer.items); at = p.at } };

    ghost invariant = { λ p. (p.start ≤ p.end) × (p.end ≤ length p.buffer.items) };
}

impl Pending {
    /// No bytes, at the front of the input. It takes no memory.
    pub fn new(alloc: Global) -> Pending
        ensures { result ≡ record { rest = []; at = 0 } }
    {
        Pending {
            buffer: Vec::new(alloc),
            start: 0,
            end: 0,
            at: 0,
        }
    }

    /// The bytes.
    pub fn rest(&self) -> &[u8]
        ensures { result.now ≡ self.now.rest }
    {
        self.buffer.split_at(self.end).0.split_at(self.start).1
    }

    /// The offset of the first of them in the input.
    pub fn at(&self) -> u64
        ensures { result ≡ self.now.at }
    {
        self.at
    }

    /// Takes the first `n` bytes away.
    pub fn advance(&mut self, n: usize)
        requires within { n ≤ length self.old.rest }
        requires small { self.old.at + n < 2 ^ 64 }
        ensures { self.new ≡ record { rest = drop n self.old.rest; at = self.old.at + n } }
    {
        self.start += n;
        self.at += n as u64;
    }

    /// Reads once from a source, at most 65,536 bytes, and answers how many: 0 where the source is at
    /// its end. After an error the bytes are as they were, and nothing was read.
    pub fn fill<S: Source>(&mut self, source: &mut S) -> Result<usize, FillError>
        requires { self.old.at + length self.old.rest ≤ 2 ^ 32 }
        ensures bytes { (read : List ℕ) × (self.new ≡ record self.old { rest = self.old.rest ++ read }) × Consumes (S.left source.old) (S.left source.new) read × (length read ≤ chunk) }
        ensures count { IfOk result (λ n. length self.new.rest ≡ length self.old.rest + n) }
        ensures end { result ≡ Ok 0 → IsAtEnd (S.left source.new) }
        ensures none { OnErr result (self.new ≡ self.old) }
        ensures failed { IsErrOf result FillError.Failed → Rose (S.faults source.old) (S.faults source.new) }
        ensures later { S.faults source.old ≤ S.faults source.new }
    {
        move_to_front(&mut self.buffer, self.start, self.end);
        self.end -= self.start;
        self.start = 0;
        let n = read_behind(&mut self.buffer, self.end, source)?;
        self.end += n;
        Ok(n)
    }
}

// Moves the bytes from `start` to `end` to the front.
fn move_to_front(buffer: &mut Vec<u8>, start: usize, end: usize)
    requires order { start ≤ end }
    requires within { end ≤ length buffer.old.items }
    ensures moved { take (end - start) buffer.new.items ≡ drop start (take end buffer.old.items) }
    ensures len { length buffer.new.items ≡ length buffer.old.items }
{
    if start > 0 {
        buffer.copy_within(start..end, 0);
    }
}

// Makes a buffer as long as this, where it is shorter: what stands in it stays.
fn make_room(buffer: &mut Vec<u8>, len: usize) -> Result<(), Memory>
    ensures room { OnOk result (len ≤ length buffer.new.items) }
    ensures longer { length buffer.old.items ≤ length buffer.new.items }
    ensures same { (n : ℕ) → n ≤ length buffer.old.items → take n buffer.new.items ≡ take n buffer.old.items }
{
    if buffer.len() < len {
        buffer.resize(len, 0)?;
    }
    Ok(())
}

// Reads once from a source, into a buffer behind its first `end` bytes.
fn read_behind<S: Source>(
    buffer: &mut Vec<u8>,
    end: usize,
    source: &mut S,
) -> Result<usize, FillError>
    requires within { end ≤ length buffer.old.items }
    requires small { end ≤ 2 ^ 32 }
    ensures bytes { (read : List ℕ) × (take (end + length read) buffer.new.items ≡ take end buffer.old.items ++ read)
        × Consumes (S.left source.old) (S.left source.new) read × (length read ≤ chunk) × IfOk result (λ n. n ≡ length read) × OnErr result (read ≡ []) × (end + length read ≤ length buffer.new.items) }
    ensures end { result ≡ Ok 0 → IsAtEnd (S.left source.new) }
    ensures failed { IsErrOf result FillError.Failed → Rose (S.faults source.old) (S.faults source.new) }
    ensures later { S.faults source.old ≤ S.faults source.new }
{
    if make_room(buffer, end + CHUNK).is_err() {
        return Err(FillError::Memory);
    }
    match source.read(&mut buffer[end..end + CHUNK]) {
        Ok(n) => Ok(n),
        Err(_) => Err(FillError::Failed),
    }
}
