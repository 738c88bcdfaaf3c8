ghost use Rattle.std.specs.Prelude.{◌≡◌, length, min, Some, None, Ok};
ghost use Rattle.std.specs.Io.{ReadsAtMost, WritesAtMost};
ghost use Rattle.std.specs.Io.KnownBytes.{ReadConsumes};

use crate::traits::{Failed, Sink, Source};
use plain_file::Blob;
use std::marker::Model;

/// A source over bytes in memory that tells them and never fails: its count of faults is always 0.
#[derive(Debug, Drop)]
pub struct SureSource {
    bytes: Blob,
    at: usize,
}

impl Model for SureSource {
    ghost use Rattle.std.specs.Prelude.{ℕ, List, ◌≤◌, drop, length};

    ghost Value = { List ℕ };

    ghost view = { λ s. drop s.at s.bytes };

    ghost invariant = { λ s. s.at ≤ length s.bytes };
}

impl SureSource {
    /// A source that gives these bytes.
    pub fn new(bytes: Blob) -> SureSource
        ensures left { ⟦<SureSource as Source>⟧.left result ≡ Some bytes }
        ensures faults { ⟦<SureSource as Source>⟧.faults result ≡ 0 }
    {
        SureSource { bytes, at: 0 }
    }
}

impl Source for SureSource {
    ghost left = { λ s. Some s };

    ghost faults = { λ s. 0 };

    /// Gives as many bytes as there are and the buffer holds.
    fn read(&mut self, buf: &mut [u8]) -> Result<usize, Failed>
        ensures exact { result ≡ Ok (min (length buf.old) (length self.old)) }
        ensures bound { ReadsAtMost result buf.new }
        ensures bytes { ReadConsumes (Some self.old) (Some self.new) result buf.new }
    {
        let rest = self.bytes.as_slice().split_at(self.at).1;
        let n = rest.len().min(buf.len());
        buf[..n].copy_from_slice(rest.split_at(n).0);
        self.at += n;
        Ok(n)
    }
}

/// A sink that takes every piece whole, drops it, and doesn't tell it. It never fails: its count of
/// faults is always 0.
#[derive(Debug, Drop)]
pub struct SureSink {}

impl SureSink {
    pub fn new() -> SureSink
        ensures taken { ⟦<SureSink as Sink>⟧.taken result ≡ None }
        ensures faults { ⟦<SureSink as Sink>⟧.faults result ≡ 0 }
    {
        SureSink {}
    }
}

impl Sink for SureSink {
    ghost taken = { λ s. None };

    ghost faults = { λ s. 0 };

    /// Takes the whole piece.
    fn write(&mut self, bytes: &[u8]) -> Result<usize, Failed>
        ensures whole { result ≡ Ok (length bytes.now) }
    {
        Ok(bytes.len())
    }
}
