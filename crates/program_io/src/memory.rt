ghost use Rattle.std.specs.Prelude.{◌≡◌, ◌<◌, [], ◌++◌, length, min, IsTrue, Some, IfOk, OnOk, OnErr, IsErr, is_err};
ghost use Rattle.std.specs.Io.{ReadsAtMost, WritesAtMost};
ghost use Rattle.std.specs.Io.KnownBytes.{ReadConsumes, WriteAppends};
ghost use Rattle.program_io.specs.Causes.{HasCause};
ghost use Rattle.program_io.specs.Calls.{after_call, fails_next, first_calls, part_of};

use crate::calls::Calls;
use crate::traits::{Failed, Sink, Source};
use plain_file::{Blob, List};
use std::alloc::Global;
use std::marker::Model;

/// A source over bytes in memory that fails where it was told to. It tells its bytes.
#[derive(Debug, Drop)]
pub struct MemSource {
    bytes: Blob,
    at: usize,
    calls: Calls,
}

impl Model for MemSource {
    ghost use Rattle.std.specs.Prelude.{◌≤◌, drop, length};
    ghost use Rattle.program_io.specs.Memory.{SourceView};

    ghost Value = { SourceView };

    ghost view = { λ s. record { rest = drop s.at s.bytes; calls = s.calls } };

    ghost invariant = { λ s. s.at ≤ length s.bytes };
}

impl MemSource {
    /// A source that gives these bytes, at most `piece` of them a call, or without that bound where
    /// `piece` is 0. It counts its calls from 1, and fails at those whose numbers stand in `fails`.
    pub fn new(bytes: Blob, piece: u32, fails: List<u64>) -> MemSource
        ensures left { ⟦<MemSource as Source>⟧.left result ≡ Some bytes }
        ensures faults { ⟦<MemSource as Source>⟧.faults result ≡ 0 }
        ensures calls { result.calls ≡ first_calls piece fails }
    {
        MemSource {
            bytes,
            at: 0,
            calls: Calls::new(piece, fails),
        }
    }
}

impl Source for MemSource {
    ghost left = { λ s. Some s.rest };

    ghost faults = { λ s. s.calls.faults };

    /// Fails exactly where the list of calls says so; else gives as many bytes as there are, the
    /// buffer holds and one call gives.
    fn read(&mut self, buf: &mut [u8]) -> Result<usize, Failed>
        ensures fails { is_err result ≡ fails_next self.old.calls }
        ensures calls { self.new.calls ≡ after_call self.old.calls (is_err result) }
        ensures part { IfOk result (λ n.
            n ≡ part_of self.old.calls (min (length buf.old) (length self.old.rest))) }
        ensures bound { ReadsAtMost result buf.new }
        ensures bytes { ReadConsumes (Some self.old.rest) (Some self.new.rest) result buf.new }
        ensures cause { HasCause self.old.calls.faults self.new.calls.faults result }
    {
        let failed = self.calls.fails_next();
        self.calls.end(failed);
        if failed {
            return Err(Failed);
        }
        let rest = self.bytes.as_slice().split_at(self.at).1;
        let n = self.calls.part(rest.len().min(buf.len()));
        buf[..n].copy_from_slice(rest.split_at(n).0);
        self.at += n;
        Ok(n)
    }
}

/// A sink that keeps in memory what it took, tells it, and fails where it was told to.
#[derive(Debug, Drop)]
pub struct MemSink {
    held: Blob,
    calls: Calls,
}

impl Model for MemSink {
    ghost use Rattle.program_io.specs.Memory.{SinkView};

    ghost Value = { SinkView };

    ghost view = { λ s. record { held = s.held; calls = s.calls } };
}

impl MemSink {
    /// A sink that takes at most `piece` bytes a call, or without that bound where `piece` is 0. It
    /// counts its calls from 1. It fails at those whose numbers stand in `fails`, and where it gets
    /// no memory for the piece.
    pub fn new(alloc: Global, piece: u32, fails: List<u64>) -> MemSink
        ensures taken { ⟦<MemSink as Sink>⟧.taken result ≡ Some [] }
        ensures faults { ⟦<MemSink as Sink>⟧.faults result ≡ 0 }
        ensures calls { result.calls ≡ first_calls piece fails }
    {
        MemSink {
            held: Blob::new(alloc),
            calls: Calls::new(piece, fails),
        }
    }

    /// What was taken so far.
    pub fn bytes(&self) -> &Blob
        ensures { ⟦<MemSink as Sink>⟧.taken self.now ≡ Some result.now }
    {
        &self.held
    }
}

impl Sink for MemSink {
    ghost taken = { λ s. Some s.held };

    ghost faults = { λ s. s.calls.faults };

    /// Fails where the list of calls says so, and where the piece gets no memory; else takes as
    /// many bytes as one call takes.
    fn write(&mut self, bytes: &[u8]) -> Result<usize, Failed>
        ensures fails { IsTrue (fails_next self.old.calls) → IsErr result }
        ensures calls { self.new.calls ≡ after_call self.old.calls (is_err result) }
        ensures part { IfOk result (λ n. n ≡ part_of self.old.calls (length bytes.now)) }
        ensures bound { WritesAtMost result bytes.now }
        ensures bytes { WriteAppends (Some self.old.held) (Some self.new.held) result bytes.now }
        ensures cause { HasCause self.old.calls.faults self.new.calls.faults result }
    {
        let n = self.calls.part(bytes.len());
        let failed = self.calls.fails_next()
            || self.held.extend_from_slice(bytes.split_at(n).0).is_err();
        self.calls.end(failed);
        if failed { Err(Failed) } else { Ok(n) }
    }
}
