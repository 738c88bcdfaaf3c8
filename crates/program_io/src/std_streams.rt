ghost use Rattle.std.specs.Prelude.{◌≡◌, ◌<◌, length, take, None, IfOk, is_err};
ghost use Rattle.std.specs.Io.{ReadsAtMost, WritesAtMost};
ghost use Rattle.std.specs.Io.KnownBytes.{ReadConsumes, Appends};
ghost use Rattle.program_io.specs.Causes.{HasCause, count_after};

use crate::traits::{Failed, Sink, Source};
use std::io::{Read, Write};

/// Any reader of std as a source. It tells nothing of the bytes to come, since no one can say what
/// a file, a pipe or a terminal will give. Each error of the reader, an interrupted call among
/// them, is a failure and counts as one.
#[derive(Debug, Drop)]
pub struct StdSource<R> {
    inner: R,
    faults: u64,
}

impl<R: Read> StdSource<R> {
    /// A source that reads from this reader.
    pub fn new(inner: R) -> StdSource<R>
        ensures left { ⟦<StdSource<R> as Source>⟧.left result ≡ None }
        ensures faults { ⟦<StdSource<R> as Source>⟧.faults result ≡ 0 }
        ensures inner { result.inner ≡ inner }
    {
        StdSource { inner, faults: 0 }
    }
}

impl<R: Read> Source for StdSource<R> {
    ghost left = { λ s. None };

    ghost faults = { λ s. s.faults };

    /// Makes one read of the reader, and hands on its bytes as they are.
    fn read(&mut self, buf: &mut [u8]) -> Result<usize, Failed>
        ensures bound { ReadsAtMost result buf.new }
        ensures cause { HasCause self.old.faults self.new.faults result }
        ensures counted { self.new.faults ≡ count_after self.old.faults (is_err result) }
        ensures bytes { ReadConsumes (R.remaining self.old.inner) (R.remaining self.new.inner)
            result buf.new }
    {
        match self.inner.read(buf) {
            Ok(count) => Ok(count),
            Err(_) => {
                self.faults = self.faults.saturating_add(1);
                Err(Failed)
            }
        }
    }
}

/// Any writer of std as a sink. It tells nothing of the bytes taken. It flushes the writer after
/// each write, so that whoever reads at the other end of a pipe has a piece as soon as the call
/// returns.
///
/// An error of the write or of the flush, and a write that takes nothing of a piece that isn't
/// empty, are failures, and each counts as one. After a failed flush the writer has taken bytes of
/// the piece, of which none, some or all have reached the other end, and it may deliver the others
/// later: offering the piece again could write it twice, so the caller is to stop.
#[derive(Debug, Drop)]
pub struct StdSink<W> {
    inner: W,
    faults: u64,
}

impl<W: Write> StdSink<W> {
    /// A sink that writes to this writer.
    pub fn new(inner: W) -> StdSink<W>
        ensures taken { ⟦<StdSink<W> as Sink>⟧.taken result ≡ None }
        ensures faults { ⟦<StdSink<W> as Sink>⟧.faults result ≡ 0 }
        ensures inner { result.inner ≡ inner }
    {
        StdSink { inner, faults: 0 }
    }

    fn write_and_flush(&mut self, bytes: &[u8]) -> std::io::Result<usize>
        ensures bound { WritesAtMost result bytes.now }
        ensures passed { IfOk result (λ n.
            Appends (W.contents self.old.inner) (W.contents self.new.inner) (take n bytes.now)) }
        ensures faults { self.new.faults ≡ self.old.faults }
    {
        let count = self.inner.write(bytes)?;
        self.inner.flush()?;
        Ok(count)
    }
}

impl<W: Write> Sink for StdSink<W> {
    ghost taken = { λ s. None };

    ghost faults = { λ s. s.faults };

    /// Makes one write of the writer, and flushes it.
    fn write(&mut self, bytes: &[u8]) -> Result<usize, Failed>
        ensures bound { WritesAtMost result bytes.now }
        ensures cause { HasCause self.old.faults self.new.faults result }
        ensures counted { self.new.faults ≡ count_after self.old.faults (is_err result) }
        ensures some { IfOk result (λ n. 0 < length bytes.now → 0 < n) }
        ensures passed { IfOk result (λ n.
            Appends (W.contents self.old.inner) (W.contents self.new.inner) (take n bytes.now)) }
    {
        match self.write_and_flush(bytes) {
            Ok(count) if count > 0 || bytes.is_empty() => Ok(count),
            _ => {
                self.faults = self.faults.saturating_add(1);
                Err(Failed)
            }
        }
    }
}
