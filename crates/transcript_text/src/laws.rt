ghost use Rattle.std.specs.Prelude.{◌≡◌, ◌↔◌, ℕ, true, List, Ok};
ghost use Rattle.transcript_text.specs.declared.transcripts.Transcript.{Transcript};
ghost use Rattle.transcript_text.specs.Fits.{fits};
ghost use Rattle.transcript_text.specs.TranscriptText.{text_of};
ghost use Rattle.transcript_text.specs.TranscriptReading.{transcript_of, IsPrintable};

/// A law of transcripts: the text of a transcript within the bounds of the form and of its fields' types is
/// read as that transcript, so no two of them have the same text.
pub fn text_determines_transcript()
    ensures { (t : Transcript) → IsPrintable t → transcript_of (text_of t) ≡ Ok t }
{}

/// A law of transcripts: a transcript fits exactly if it is within the bounds of the form and of its fields' types,
/// and exactly if some text is that transcript.
pub fn fits_is_what_texts_give()
    ensures bounds { (t : Transcript) → (fits t ≡ true) ↔ IsPrintable t }
    ensures texts { (t : Transcript) → (fits t ≡ true) ↔ ((text : List ℕ) × (transcript_of text ≡ Ok t)) }
{}
