ghost use Rattle.std.specs.Prelude.{◌≡◌, ◌<◌, ◌≤◌, ◌+◌, length, IfOk, IfSome, OnOk, IsErrOf};
ghost use Rattle.std.specs.Io.KnownBytes.{IsAtEnd};
ghost use Rattle.plain_file.specs.Counts.{Rose};
ghost use Rattle.program_io.specs.Causes.{TakesAtMost, buffer};

use crate::traits::Source;
use plain_file::Blob;
use std::alloc::Global;
use thiserror::Error;

/// The bytes of the buffer that `read_all` reads into.
const BUFFER: usize = 4_096;

/// Why a source wasn't read whole. Part of its bytes may have been taken then.
#[derive(Clone, Copy, Debug, PartialEq, Eq, Error)]
pub enum ReadError {
    /// An allocation was refused.
    #[error("out of memory")]
    Memory,
    /// The source failed, and its count of faults rose.
    #[error("the source failed")]
    Failed,
    /// The source had more bytes than the limit.
    #[error("the source has too many bytes")]
    TooLong,
}

/// Reads a source to its end: all that it had left, which is at most `limit` bytes. Each turn takes
/// at least one byte, and at most `limit` bytes and one buffer of 4,096 are taken, whatever the
/// source gives. `TooLong` comes only where more than `limit` bytes were left, and `Failed` only
/// where the source's count of faults rose.
pub fn read_all<S: Source>(alloc: Global, source: &mut S, limit: usize) -> Result<Blob, ReadError>
    ensures all { IfOk result (λ b. IfSome (S.left source.old) (λ xs. b ≡ xs)) }
    ensures end { OnOk result (IsAtEnd (S.left source.new)) }
    ensures short { IfOk result (λ b. length b ≤ limit) }
    ensures too_long { IsErrOf result ReadError.TooLong
        → IfSome (S.left source.old) (λ xs. limit < length xs) }
    ensures failed { IsErrOf result ReadError.Failed
        → Rose (S.faults source.old) (S.faults source.new) }
    ensures later { S.faults source.old ≤ S.faults source.new }
    ensures most { TakesAtMost (limit + buffer) (S.left source.old) (S.left source.new) }
{
    let mut bytes: Vec<u8> = Vec::new(alloc);
    let mut buf = [0u8; BUFFER];
    loop {
        match source.read(&mut buf) {
            Ok(0) => return Ok(Blob::from_vec(bytes)),
            Ok(n) => {
                if n > limit - bytes.len() {
                    return Err(ReadError::TooLong);
                }
                if bytes.extend_from_slice(&buf[..n]).is_err() {
                    return Err(ReadError::Memory);
                }
            }
            Err(_) => return Err(ReadError::Failed),
        }
    }
}
