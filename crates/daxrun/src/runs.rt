ghost use Rattle.std.specs.Prelude.{◌≡◌, ◌≢◌, ◌≤◌, ◌<◌, ◌+◌, ◌++◌, ℕ, List, true, false, Some, None, Ok, length, IfOk, IfSome, OnOk};
ghost use Rattle.std.specs.Io.KnownBytes.{Appends, Keeps, IsAtEnd};
ghost use Rattle.plain_file.specs.Counts.{Rose};
ghost use Rattle.program_io.specs.Causes.{AppendsPart, TakesAtMost, buffer};
ghost use Rattle.program_io.specs.Runs.{IsExpected, IsUsageOrWriteFault, IsOkOrMemory};
ghost use Rattle.program_io.specs.declared.statuses.Status.{Status};
ghost use Rattle.dax_script.specs.declared.scripts.Script.{Script};
ghost use Rattle.dax_script.specs.ScriptText.{BadLine, script_of};
ghost use Rattle.dax_audit.specs.Legal.{IsLegal};
ghost use Rattle.transcript_text.specs.TranscriptReading.{IsPrintable, transcript_of};
ghost use Rattle.daxrun.specs.Carried.{IsPlayable};
ghost use Rattle.daxrun.specs.Run.{limit, is_script_command, usage_line, refused_line, too_long_line, refusal, IsFairAlone, AreLinesDone, IsAnswerTo, IsDue, Shows, ShowsBeside, due_status, Answers};
ghost use Rattle.daxrun.specs.declared.runs.Shown.TheVariants as shows;

use crate::plays::{Played, play};
use crate::sessions::{close_session, daemon_of, firsts_of, open_session};
use dax_script::{BadScript, Script, Why, parse};
use guest_run::Gate;
use guest_threads::{Tables, open_tables};
use plain_file::{Blob, List, Memory};
use plain_text::{put, put_number};
use program_io::{ReadError, Sink, Source, Status, Word, read_all, write_all};
use std::alloc::Global;
use std::mem::forget;
use std::sync::Wait;
use std::thread::Threads;
use transcript_text::print;

// The most bytes that are read.
const LIMIT: usize = 16_777_216;

/// What a run shows beside what it writes.
#[derive(Drop)]
pub enum Shown {
    /// Nothing.
    Nothing,
    /// The script that was played, with the transcript that was written.
    Script(Played),
}

/// Runs the program: with the word `script` it reads the source to its end, runs the script that it
/// gives, and writes the transcript to the sink. Every text goes to the sink.
///
/// Whatever the input and the schedule, a run that ends with `Ok` writes one transcript in which every done call
/// stands once in its file's history, in its guest's order; every reply is the plain file's at that place; every
/// access through the window names a placement then live for that file and chunk; each busy line shows every
/// range pinned or moving, each leased line a count of leases. Without ranges each call is done. Where there is
/// one guest and no background, a truncation is refused exactly for its own holds on the file, and no range could be taken only
/// where its own holds have all of them, or all but one where a call's bytes lie in two chunks. The gate stands
/// round each call of a guest: the program's is open. A run may wait, as the gate and the guests' calls do.
///
/// `shown` has nothing before. Where the status is `Ok` it shows the script that was read, and the transcript of its
/// run, whose text was written; nothing makes such a pair but [`play`], which runs the guests. With any other status
/// it has nothing. The statuses are found in the order words, reading, text, run, writing:
///
/// - `Ok`: the source was read to its end, and the whole transcript was taken.
/// - `Refused`: the text is no script, and a line as `refused line 4 words` was taken, which says its first
///   bad line, counted from 1, and why.
/// - `Usage`: the words are no command, and the usage line was taken; nothing was read.
/// - `ReadFault`: the source failed; nothing was written.
/// - `WriteFault`: the sink failed; what was taken is a front of the text due, and not all of it.
/// - `Memory`: an allocation was refused; nothing was written.
/// - `TooLong`: the source has more than 16,777,216 bytes, and `too long` was taken.
pub fn run<R: Threads + Wait + Sync, S: Source, K: Sink, G: Gate + Sync>(
    rt: &R,
    alloc: Global,
    words: &[Word],
    source: &mut S,
    sink: &mut K,
    gate: &G,
    shown: &mut Shown,
) -> Status
    requires shown { shown.old ≡ shows.Nothing }
    ensures ok { result ≡ Status.Ok → IsAtEnd (S.left source.new)
        × ((input : List ℕ) × IfSome (S.left source.old) (λ xs. input ≡ xs)
        × ((text : List ℕ) × IsDue words.now input Status.Ok text × Appends (K.taken sink.old) (K.taken sink.new) text × Shows input text shown.new)) }
    ensures nothing { result ≢ Status.Ok → shown.new ≡ shows.Nothing }
    ensures refused { result ≡ Status.Refused → IsAtEnd (S.left source.new)
        × ((input : List ℕ) × IfSome (S.left source.old) (λ xs. input ≡ xs)
        × ((text : List ℕ) × IsDue words.now input Status.Refused text × Appends (K.taken sink.old) (K.taken sink.new) text)) }
    ensures usage { result ≡ Status.Usage → (is_script_command words.now ≡ false) × Appends (K.taken sink.old) (K.taken sink.new) usage_line }
    ensures read_fault { result ≡ Status.ReadFault → (is_script_command words.now ≡ true) × Rose (S.faults source.old) (S.faults source.new) × Keeps (K.taken sink.old) (K.taken sink.new) }
    ensures write_fault { result ≡ Status.WriteFault → Rose (K.faults sink.old) (K.faults sink.new)
        × ((input : List ℕ) × IfSome (S.left source.old) (λ xs. input ≡ xs)
        × ((status : Status) × (text : List ℕ) × IsDue words.now input status text × AppendsPart (K.taken sink.old) (K.taken sink.new) text)) }
    ensures memory { result ≡ Status.Memory → Keeps (K.taken sink.old) (K.taken sink.new) }
    ensures too_long { result ≡ Status.TooLong → (is_script_command words.now ≡ true)
        × IfSome (S.left source.old) (λ input. limit < length input) × Appends (K.taken sink.old) (K.taken sink.new) too_long_line }
    ensures legal { result ≢ Status.NotLegal }

    // Each of the other statuses comes where it is due.
    ensures due { IfSome (S.left source.old) (λ input. IsExpected (due_status words.now input) result) }
    ensures no_command { is_script_command words.now ≡ false → IsUsageOrWriteFault result × (source.new ≡ source.old) }
    ensures complete { (input : List ℕ) (s : Script) → is_script_command words.now ≡ true → S.left source.old ≡ Some input → length input ≤ limit → script_of input ≡ Ok s
        → (Rose (S.faults source.old) (S.faults source.new) → ⊥) → (Rose (K.faults sink.old) (K.faults sink.new) → ⊥) → IsOkOrMemory result }
    ensures most { TakesAtMost (limit + buffer) (S.left source.old) (S.left source.new) }
{
    if !is_script(words) {
        return match write_all(sink, b"usage: daxrun script | load N\n") {
            Ok(()) => Status::Usage,
            Err(_) => Status::WriteFault,
        };
    }
    match read_all(alloc, source, LIMIT) {
        Ok(input) => run_script(rt, alloc, input.as_slice(), sink, gate, shown),
        Err(ReadError::Failed) => Status::ReadFault,
        Err(ReadError::Memory) => Status::Memory,
        Err(ReadError::TooLong) => match write_all(sink, b"too long\n") {
            Ok(()) => Status::TooLong,
            Err(_) => Status::WriteFault,
        },
    }
}

// Whether the words are the command that reads a script.
fn is_script(words: &[Word]) -> bool
    ensures { result ≡ is_script_command words.now }
{
    match words {
        [word] => word.as_slice() == b"script".as_slice(),
        _ => false,
    }
}

// Answers an input that was read whole.
fn run_script<R: Threads + Wait + Sync, K: Sink, G: Gate + Sync>(
    rt: &R,
    alloc: Global,
    input: &[u8],
    sink: &mut K,
    gate: &G,
    shown: &mut Shown,
) -> Status
    requires shown { shown.old ≡ shows.Nothing }
    ensures { Answers input.now (K.taken sink.old) (K.taken sink.new) (K.faults sink.old) (K.faults sink.new) shown.new result }
{
    match answer_to(rt, alloc, input, gate) {
        Ok((status, text, beside)) => match write_all(sink, text.as_slice()) {
            Ok(()) => {
                *shown = beside;
                status
            }
            Err(_) => Status::WriteFault,
        },
        Err(_) => Status::Memory,
    }
}

// The text that answers an input, its status, and what is shown beside it: a transcript, or why there is none.
fn answer_to<R: Threads + Wait + Sync, G: Gate + Sync>(
    rt: &R,
    alloc: Global,
    input: &[u8],
    gate: &G,
) -> Result<(Status, Blob, Shown), Memory>
    ensures answer { IfOk result (λ a. IsAnswerTo input.now a.0 a.1) }
    ensures shows { IfOk result (λ a. ShowsBeside input.now a.0 a.1 a.2) }
{
    match parse(alloc, input) {
        Ok(script) => {
            let played = play_script(rt, alloc, script, gate)?;
            let text = print(alloc, played.transcript())?;
            Ok((Status::Ok, text, Shown::Script(played)))
        }
        Err(BadScript::Line { line, why }) => {
            let text = refused_line(alloc, line, why)?;
            Ok((Status::Refused, text, Shown::Nothing))
        }
        Err(BadScript::Memory) => Err(Memory),
    }
}

// The line that says which line of a text is no line of a script, and why.
#[tactic(auto, unfolding(plain_text::specs::Printed::joined))]
fn refused_line(alloc: Global, line: u64, why: Why) -> Result<Blob, Memory>
    ensures { IfOk result (λ text. text ≡ refused_line (record { line = line; why = why })) }
{
    let mut out = Vec::new(alloc);
    put(&mut out, b"refused line ")?;
    put_number(&mut out, line)?;
    put(&mut out, b" ")?;
    put(&mut out, why.word().as_bytes())?;
    put(&mut out, b"\n")?;
    Ok(List::from_vec(out))
}

// Plays a script against the daemon of its files and its window, and the tables of its files and ranges. A session is
// opened over a virtqueue: an INIT, and a LOOKUP and an OPEN for each file. At last each handle is given back, and the
// session ends: a RELEASE for each file, and a DESTROY.
fn play_script<R: Threads + Wait + Sync, G: Gate + Sync>(
    rt: &R,
    alloc: Global,
    script: Script,
    gate: &G,
) -> Result<Played, Memory>
    requires { IsPlayable script }
    ensures script { IfOk result (λ p. p.script ≡ script) }
    ensures legal { IfOk result (λ p. IsLegal script p.transcript) }
    ensures fair { IfOk result (λ p. IsFairAlone script p.transcript) }
    ensures done { IfOk result (λ p. AreLinesDone script p.transcript) }
    ensures printable { IfOk result (λ p. IsPrintable p.transcript) }
{
    let count = script.ranges;
    let lines = script.files.as_slice();
    let daemon = daemon_of(alloc, &script)?;
    let (daemon, opened) = open_session(rt, alloc, lines, count, daemon)?;
    let handles = opened.as_slice();
    let firsts = firsts_of(alloc, lines)?;
    let guests = script.guests.as_slice();
    let tables = open_tables(alloc, &firsts, count, guests, script.background)?;
    let Tables {
        files,
        mut file_pass,
        ranges,
        mut range_pass,
    } = tables;
    let played = play(
        rt,
        alloc,
        script,
        &daemon,
        handles,
        &files,
        &mut file_pass,
        &ranges,
        &mut range_pass,
        gate,
    );
    // The program ends with what was played, so that nobody waits for the memory of each entry.
    forget(files.close(file_pass));
    forget(ranges.close(range_pass));
    close_session(rt, alloc, handles, count, daemon)?;
    played
}
