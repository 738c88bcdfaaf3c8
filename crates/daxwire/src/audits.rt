ghost use Rattle.std.specs.Prelude.{◌≡◌, ◌++◌, ◌∷◌, codes, [], true, Err, IfOk, OnOk};
ghost use Rattle.program_io.specs.declared.statuses.Status.{Status};
ghost use Rattle.dax_script.specs.ScriptText.{script_of};
ghost use Rattle.dax_script.specs.Fits.{fits};
ghost use Rattle.dax_script.specs.Whys.{why_word};
ghost use Rattle.transcript_text.specs.TranscriptReading.{transcript_of};
ghost use Rattle.daxwire.specs.AuditText.{bad_script_line, bad_transcript_line, script_due, transcript_due, verdict_due};
ghost use Rattle.daxwire.specs.Wholes.{IsAnswered};

use crate::divides::divide;
use crate::shows::{put, put_number};
use crate::wholes::Answer;
use dax_audit::{Verdict, audit};
use dax_script::{BadScript, Script, Why};
use plain_file::{Blob, Memory};
use program_io::Status;
use std::alloc::Global;
use transcript_text::BadTranscript;

// Adds the line that refuses the script.
#[tactic(auto, unfolding(plain_text::specs::Printed::joined))]
fn put_bad_script(line: u64, why: Why, out: &mut Vec<u8>) -> Result<(), Memory>
    ensures { OnOk result (out.new.items ≡ out.old.items ++ bad_script_line (record { line = line; why = why })) }
{
    put(out, b"script line ")?;
    put_number(out, line)?;
    put_why(why, out)?;
    Ok(())
}

// Adds the reason, and the line's end.
fn put_why(why: Why, out: &mut Vec<u8>) -> Result<(), Memory>
    ensures { OnOk result (out.new.items ≡ out.old.items ++ 32 ∷ why_word why ++ codes "\n") }
{
    put(out, b" ")?;
    put(out, why.word().as_bytes())?;
    put(out, b"\n")?;
    Ok(())
}

// Adds the line that refuses the transcript.
#[tactic(auto, unfolding(plain_text::specs::Printed::joined))]
fn put_bad_transcript(line: u64, out: &mut Vec<u8>) -> Result<(), Memory>
    ensures { OnOk result (out.new.items ≡ out.old.items ++ bad_transcript_line line) }
{
    put(out, b"transcript line ")?;
    put_number(out, line)?;
    put(out, b"\n")?;
    Ok(())
}

// Adds the line of a verdict, and tells the status.
#[tactic(auto, unfolding(plain_text::specs::Printed::joined, crate::specs::AuditText::verdict_due))]
fn put_verdict(verdict: Verdict, out: &mut Vec<u8>) -> Result<Status, Memory>
    ensures text { OnOk result (out.new.items ≡ out.old.items ++ (verdict_due verdict).text) }
    ensures status { IfOk result (λ status. status ≡ (verdict_due verdict).status) }
    ensures answered { IfOk result IsAnswered }
{
    match verdict {
        Verdict::Legal => {
            put(out, b"legal\n")?;
            Ok(Status::Ok)
        }
        Verdict::Fault { rule, line } => {
            put(out, b"rule ")?;
            put_number(out, u64::from(rule))?;
            put(out, b" line ")?;
            put_number(out, line)?;
            put(out, b"\n")?;
            Ok(Status::NotLegal)
        }
    }
}

// Judges the text of a transcript by a script.
#[tactic(auto, unfolding(crate::specs::AuditText::transcript_due))]
fn judge(alloc: Global, script: &Script, text: &[u8], out: &mut Vec<u8>) -> Result<Status, Memory>
    requires empty { out.old.items ≡ [] }
    requires fits { fits script.now ≡ true }
    ensures text { OnOk result (out.new.items ≡ (transcript_due script.now (transcript_of text.now)).text) }
    ensures status { IfOk result (λ status. status ≡ (transcript_due script.now (transcript_of text.now)).status) }
    ensures answered { IfOk result IsAnswered }
{
    match transcript_text::parse(alloc, text) {
        Ok(transcript) => put_verdict(audit(alloc, script, &transcript)?, out),
        Err(BadTranscript::Line { line }) => {
            put_bad_transcript(line, out)?;
            Ok(Status::Refused)
        }
        Err(BadTranscript::Memory) => Err(Memory),
    }
}

// Judges both texts, the script first.
#[tactic(auto, unfolding(crate::specs::AuditText::script_due))]
fn judge_texts(
    alloc: Global,
    script: &[u8],
    transcript: &[u8],
    out: &mut Vec<u8>,
) -> Result<Status, Memory>
    requires { out.old.items ≡ [] }
    ensures text { OnOk result (out.new.items ≡ (script_due (script_of script.now) transcript.now).text) }
    ensures status { IfOk result (λ status. status ≡ (script_due (script_of script.now) transcript.now).status) }
    ensures answered { IfOk result IsAnswered }
{
    match dax_script::parse(alloc, script) {
        Ok(script) => judge(alloc, &script, transcript, out),
        Err(BadScript::Line { line, why }) => {
            put_bad_script(line, why, out)?;
            Ok(Status::Refused)
        }
        Err(BadScript::Memory) => Err(Memory),
    }
}

/// Answers a script, a line `---` and a transcript: whether the transcript is legal for the script.
///
/// The texts have the forms of a script and of a transcript; the first line `---` parts them. The answer is
/// one line: `legal`; `rule N line L`, which is not legal, with the first broken rule and the first line of the
/// transcript that breaks it, counted from the line behind the `---`; or what is refused: `no transcript`
/// where no line is `---`, else `script line L WHY` with the script's first bad line and its reason, else
/// `transcript line L` with the transcript's first bad line.
#[derive(Clone, Copy, Debug, PartialEq, Eq)]
pub struct Audit;

impl Answer for Audit {
    ghost use Rattle.transcript_text.specs.TranscriptReading.{transcript_of};
    ghost use Rattle.daxwire.specs.AuditText.{texts_due};

    ghost due = { texts_due };

    ghost judges = { true };

    #[tactic(auto, unfolding(crate::specs::AuditText::texts_due, crate::specs::AuditText::divided_due))]
    fn put_due(alloc: Global, input: Blob, out: &mut Vec<u8>) -> Result<Status, Memory> {
        match divide(input.as_slice()) {
            Some((script, transcript)) => judge_texts(alloc, script, transcript, out),
            None => {
                put(out, b"no transcript\n")?;
                Ok(Status::Refused)
            }
        }
    }
}
