ghost use Rattle.std.specs.Prelude.{◌≡◌, ◌↔◌, None, length};
ghost use Rattle.dax_script.specs.declared.scripts.Script.{Script};
ghost use Rattle.transcript_text.specs.declared.transcripts.Transcript.{Transcript};
ghost use Rattle.transcript_text.specs.TranscriptText.{transcript_lines};
ghost use Rattle.dax_audit.specs.Items.{items};
ghost use Rattle.dax_audit.specs.Legal.{IsLegal, fault};

/// A law of scripts and transcripts, which has nothing to run: a transcript is legal, rule by rule, exactly
/// where it has no fault.
pub fn legal_without_fault()
    ensures { (s : Script) (t : Transcript) → IsLegal s t ↔ (fault s t ≡ None) }
{}

/// A law of transcripts: a transcript has an item for each line of its text, so that the place of an item
/// is the number of a line.
pub fn items_are_lines()
    ensures { (t : Transcript) → length (transcript_lines t) ≡ length (items t) }
{}
