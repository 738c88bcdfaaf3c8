ghost use Rattle.std.specs.Prelude.{◌≡◌, ◌<◌, ℕ, List, length, Option, IfOk};
ghost use Rattle.std.specs.Io.{ReadsAtMost, WritesAtMost};
ghost use Rattle.std.specs.Io.KnownBytes.{ReadConsumes, WriteAppends};
ghost use Rattle.plain_file.specs.Counts.{Rose};
ghost use Rattle.program_io.specs.Causes.{HasCause};

use thiserror::Error;

/// A call of a source or a sink failed. It comes only where that source's or sink's count of faults
/// rose, or stands at its last value, 2^64 - 1.
#[derive(Clone, Copy, Debug, PartialEq, Eq, Error)]
#[error("the call failed")]
pub struct Failed;

/// What bytes are read from. It means the bytes still to come, where it tells them, and a count of
/// its faults, which never falls.
pub trait Source {
    // The bytes still to come, where the source tells them.
    ghost left: { Self → Option (List ℕ) };

    // How many calls failed. The count stays at its last value.
    ghost faults: { Self → ℕ };

    /// Reads into a buffer that isn't empty. `Ok(n)` with n of 1 or more has put the next n bytes
    /// at the buffer's front, and n is at most its length; the rest of the buffer may have changed.
    /// `Ok(0)` says that no byte is left. After `Failed` no byte was taken.
    fn read(&mut self, buf: &mut [u8]) -> Result<usize, Failed>
        requires { 0 < length buf.old }
        ensures bound { ReadsAtMost result buf.new }
        ensures bytes { ReadConsumes (left self.old) (left self.new) result buf.new }
        ensures cause { HasCause (faults self.old) (faults self.new) result };
}

/// What bytes are written to. It means the bytes taken so far, where it tells them, and a count of
/// its faults, which never falls.
pub trait Sink {
    // The bytes taken, where the sink tells them.
    ghost taken: { Self → Option (List ℕ) };

    // How many calls failed. The count stays at its last value.
    ghost faults: { Self → ℕ };

    /// Offers a piece. `Ok(n)` says that its first n bytes were taken, and n is at most its length.
    /// `Ok(0)` for a piece that isn't empty is a fault too: it comes only where the count rose, and
    /// whoever gets it is to stop. After `Failed` what was taken is as before.
    fn write(&mut self, bytes: &[u8]) -> Result<usize, Failed>
        ensures bound { WritesAtMost result bytes.now }
        ensures bytes { WriteAppends (taken self.old) (taken self.new) result bytes.now }
        ensures none { IfOk result (λ n.
            n ≡ 0 → 0 < length bytes.now → Rose (faults self.old) (faults self.new)) }
        ensures cause { HasCause (faults self.old) (faults self.new) result };
}
