ghost use Rattle.std.specs.Prelude.{◌≡◌, ◌≢◌, ◌≤◌, ◌+◌, ℕ, List, None, Some, IfSome};
ghost use Rattle.std.specs.Io.KnownBytes.{Appends, IsAtEnd};
ghost use Rattle.plain_file.specs.Counts.{Rose};
ghost use Rattle.program_io.specs.Causes.{AppendsFront, AppendsPart, TakesAtMost};
ghost use Rattle.program_io.specs.Runs.{IsOkOrMemory, IsUsageOrWriteFault};
ghost use Rattle.program_io.specs.declared.statuses.Status.{Status};
ghost use Rattle.chain_stream.specs.Frames.{limit};
ghost use Rattle.chain_stream.specs.Courses.{IsCutOff, chunk};
ghost use Rattle.daxwire.specs.declared.commands.Command.{Command};
ghost use Rattle.daxwire.specs.Commands.{command_of};
ghost use Rattle.daxwire.specs.Run.{usage_line, shown, due_text, due_status, IsStopped, IfFinished};

use crate::audits::Audit;
use crate::commands::Command;
use crate::rings::RingImage;
use crate::serves::Serve;
use crate::shows::Show;
use crate::wholes::answer_whole;
use chain_stream::answer_stream;
use program_io::{Sink, Source, Status, Word, write_all};
use std::alloc::Global;

/// Runs the program. With the word `show` it reads a chain stream from the source and writes one line
/// for each frame to the sink; with the word `serve` it serves the stream and writes one output frame
/// for each frame. With the word `ring` it reads a ring image, serves the chains that it offers, and
/// writes what came of them. With the word `audit` it reads a script and a transcript, and writes whether
/// the transcript is legal. Every text goes to the sink. It returns always.
///
/// The answers to the whole frames of a stream that were read are written before more is read, and as soon
/// as a megabyte of them is due. Of the stream no more than one frame and one read of 65,536 bytes is kept,
/// whatever its length; what is served keeps its files, with their histories. An image, and a script with its
/// transcript, is read whole before anything is written. The statuses:
///
/// - `Ok`: the source was read to its end, which for a stream is behind a whole frame or the header, and
///   all answers were taken; a transcript is legal for its script.
/// - `Refused`: the input is malformed, or the image's ring has a fault, and the last line or output
///   frame, which was taken, says why.
/// - `NotLegal`: both texts are well formed, the transcript breaks a rule, and the line that says which,
///   and where, was taken.
/// - `Usage`: the words are no command, and the usage line was taken; nothing was read.
/// - `ReadFault`: the source failed; the answers to the frames that were read whole before were taken,
///   and of an image or a verdict nothing.
/// - `WriteFault`: the sink failed; what was taken is a front of the text due, and not all of it. Where the
///   words are no command, that is the usage line.
/// - `Memory`: an allocation was refused; what was taken is a front of the text due.
/// - `TooLong`: the source has more than 268,435,456 bytes, of which, in a stream, these have nothing
///   malformed. `show`, `ring` and `audit` write the last line `too long` for it, `serve` nothing.
pub fn run_wire<S: Source, K: Sink>(
    alloc: Global,
    words: &[Word],
    source: &mut S,
    sink: &mut K,
) -> Status
    ensures finished { IfFinished result (IfSome (S.left source.old) (λ input.
        (result ≡ due_status words.now input) × Appends (K.taken sink.old) (K.taken sink.new) (due_text words.now input))) }
    ensures ok { result ≡ Status.Ok → IsAtEnd (S.left source.new) }
    ensures usage { result ≡ Status.Usage → (command_of words.now ≡ None) × Appends (K.taken sink.old) (K.taken sink.new) usage_line }
    ensures read_fault { result ≡ Status.ReadFault → Rose (S.faults source.old) (S.faults source.new)
        × IsStopped (command_of words.now) (S.left source.old) (S.left source.new) (K.taken sink.old) (K.taken sink.new) }
    ensures write_fault { result ≡ Status.WriteFault → Rose (K.faults sink.old) (K.faults sink.new)
        × IfSome (S.left source.old) (λ input. AppendsPart (K.taken sink.old) (K.taken sink.new) (due_text words.now input)) }
    ensures usage_fault { result ≡ Status.WriteFault → command_of words.now ≡ None → AppendsPart (K.taken sink.old) (K.taken sink.new) usage_line }
    ensures memory { result ≡ Status.Memory → IfSome (S.left source.old) (λ input. AppendsFront (K.taken sink.old) (K.taken sink.new) (due_text words.now input)) }
    ensures judged { result ≡ Status.NotLegal → command_of words.now ≡ Some Command.Audit }
    ensures no_command { command_of words.now ≡ None → IsUsageOrWriteFault result × (source.new ≡ source.old) }
    ensures complete { (input : List ℕ) → S.left source.old ≡ Some input → due_status words.now input ≡ Status.Ok
        → (Rose (S.faults source.old) (S.faults source.new) → ⊥) → (Rose (K.faults sink.old) (K.faults sink.new) → ⊥) → IsOkOrMemory result }
    ensures most { TakesAtMost (limit + chunk) (S.left source.old) (S.left source.new) }
{
    match Command::of(words) {
        Some(Command::Show) => answer_stream::<Show, S, K>(alloc, source, sink),
        Some(Command::Serve) => answer_stream::<Serve, S, K>(alloc, source, sink),
        Some(Command::Ring) => answer_whole::<RingImage, S, K>(alloc, source, sink),
        Some(Command::Audit) => answer_whole::<Audit, S, K>(alloc, source, sink),
        None => tell_usage(sink),
    }
}

// Tells which commands there are.
fn tell_usage<K: Sink>(sink: &mut K) -> Status
    ensures usage { result ≡ Status.Usage → Appends (K.taken sink.old) (K.taken sink.new) usage_line }
    ensures fault { result ≡ Status.WriteFault → Rose (K.faults sink.old) (K.faults sink.new) × AppendsPart (K.taken sink.old) (K.taken sink.new) usage_line }
    ensures only { IsUsageOrWriteFault result }
{
    match write_all(sink, b"usage: daxwire show | serve | ring | audit\n") {
        Ok(()) => Status::Usage,
        Err(_) => Status::WriteFault,
    }
}
