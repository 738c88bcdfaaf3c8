ghost use Rattle.std.specs.Prelude.{◌≡◌, ◌≢◌, ◌<◌, ◌+◌, ℕ, List, [], true, length, Some, IfOk, IfSome, OnOk};
ghost use Rattle.std.specs.Io.KnownBytes.{Appends, Keeps, IsAtEnd};
ghost use Rattle.plain_file.specs.Counts.{Rose};
ghost use Rattle.program_io.specs.Causes.{AppendsPart, TakesAtMost, buffer};
ghost use Rattle.program_io.specs.Runs.{IsOkOrMemory};
ghost use Rattle.program_io.specs.declared.statuses.Status.{Status};
ghost use Rattle.chain_stream.specs.Frames.{limit};
ghost use Rattle.daxwire.specs.Run.{IfFinished};
ghost use Rattle.daxwire.specs.Wholes.{due_by, too_long, IsAnswered, IsWritten};

use plain_file::{Blob, Memory};
use program_io::{ReadError, Sink, Source, Status, read_all, write_all};
use std::alloc::Global;

// The most bytes that an input has.
const LIMIT: usize = 268_435_456;

/// What answers an input that is read whole.
pub trait Answer {
    ghost use Rattle.std.specs.Prelude.{ℕ, List, Bool};
    ghost use Rattle.daxwire.specs.Wholes.{Due};

    // What is due for an input within the limit.
    ghost due: { List ℕ → Due };

    // Whether it may find what is well formed not legal.
    ghost judges: { Bool };

    /// Makes the text that is due for an input within the limit, and tells the status. After `Memory`
    /// nothing is known of the text.
    fn put_due(alloc: Global, input: Blob, out: &mut Vec<u8>) -> Result<Status, Memory>
        requires { out.old.items ≡ [] }
        ensures status { IfOk result (λ status. status ≡ (due input).status) }
        ensures text { OnOk result (out.new.items ≡ (due input).text) }
        ensures answered { IfOk result IsAnswered }
        ensures judged { IfOk result (λ status. status ≡ Status.NotLegal → judges ≡ true) };
}

// Writes a whole text, and tells the status that goes with it, or that the sink failed.
fn write_text<K: Sink>(text: &[u8], status: Status, sink: &mut K) -> Status
    requires { IsAnswered status }
    ensures written { IsWritten (record { text = text.now; status = status }) (K.taken sink.old) (K.taken sink.new) (K.faults sink.old) (K.faults sink.new) result }
    ensures judged { result ≡ Status.NotLegal → status ≡ Status.NotLegal }
{
    match write_all(sink, text) {
        Ok(()) => status,
        Err(_) => Status::WriteFault,
    }
}

// Answers an input that isn't too long.
fn answer_within<A: Answer, K: Sink>(alloc: Global, input: Blob, sink: &mut K) -> Status
    ensures written { IsWritten (A.due input) (K.taken sink.old) (K.taken sink.new) (K.faults sink.old) (K.faults sink.new) result }
    ensures judged { result ≡ Status.NotLegal → A.judges ≡ true }
{
    let mut out = Vec::new(alloc);
    match A::put_due(alloc, input, &mut out) {
        Ok(status) => write_text(&out, status, sink),
        Err(Memory) => Status::Memory,
    }
}

/// Reads an input to its end, and writes what is due for it, at the end. The statuses:
///
/// - `Ok`, `Refused` and `NotLegal`: as the answer tells; the input was read to its end, and all of the
///   text was taken.
/// - `ReadFault`: the source failed; nothing was written.
/// - `WriteFault`: the sink failed; what was taken is a front of the text due, and not all of it.
/// - `Memory`: an allocation was refused; nothing was written.
/// - `TooLong`: the source has more than 268,435,456 bytes, and `too long` was taken.
pub fn answer_whole<A: Answer, S: Source, K: Sink>(
    alloc: Global,
    source: &mut S,
    sink: &mut K,
) -> Status
    ensures finished { IfFinished result (IfSome (S.left source.old) (λ input.
        (result ≡ (due_by A.due input).status) × Appends (K.taken sink.old) (K.taken sink.new) (due_by A.due input).text)) }
    ensures ok { result ≡ Status.Ok → IsAtEnd (S.left source.new) }
    ensures read_fault { result ≡ Status.ReadFault → Rose (S.faults source.old) (S.faults source.new) × Keeps (K.taken sink.old) (K.taken sink.new) }
    ensures write_fault { result ≡ Status.WriteFault → Rose (K.faults sink.old) (K.faults sink.new)
        × IfSome (S.left source.old) (λ input. AppendsPart (K.taken sink.old) (K.taken sink.new) (due_by A.due input).text) }
    ensures memory { result ≡ Status.Memory → Keeps (K.taken sink.old) (K.taken sink.new) }
    ensures usage { result ≢ Status.Usage }
    ensures judged { result ≡ Status.NotLegal → A.judges ≡ true }
    ensures complete { (input : List ℕ) → S.left source.old ≡ Some input → (due_by A.due input).status ≡ Status.Ok
        → (Rose (S.faults source.old) (S.faults source.new) → ⊥) → (Rose (K.faults sink.old) (K.faults sink.new) → ⊥) → IsOkOrMemory result }
    ensures most { TakesAtMost (limit + buffer) (S.left source.old) (S.left source.new) }
{
    match read_all(alloc, source, LIMIT) {
        Ok(input) => answer_within::<A, K>(alloc, input, sink),
        Err(ReadError::TooLong) => write_text(b"too long\n", Status::TooLong, sink),
        Err(ReadError::Memory) => Status::Memory,
        Err(ReadError::Failed) => Status::ReadFault,
    }
}
