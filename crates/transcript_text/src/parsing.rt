ghost use Rattle.std.specs.Prelude.{◌≡◌, ◌∷◌, ◌++◌, ◌<◌, ◌+◌, ◌^◌, codes, true, false, is_some, length, option_map, if◌then◌else◌, Some, None, Ok, IfOk, IfErr, IfSome};
ghost use Rattle.std.specs.Str.{bytes_eq};
ghost use Rattle.plain_text.specs.Words.{parts, space, line_end};
ghost use Rattle.transcript_text.specs.Fits.{fits};
ghost use Rattle.transcript_text.specs.Drafts.{at_end, IsBadLine, behind, listed, is_one, IsDraft, IsCause, reading_of, parts_from, start, version};
ghost use Rattle.transcript_text.specs.TranscriptReading.{number_32, file_read, entry_read, log_read, guest_read, call_read, line_read, transcript_from, transcript_of};

use crate::drafts::{Draft, add_entry, add_line, add_log, ended, new_draft, with_file, with_guest};
use crate::reading::{entry, file, first_word, guest, log_entry, next_word, number_32, numbered};
use crate::transcripts::{BadTranscript, Transcript};
use plain_file::Memory;
use plain_text::cut;
use std::alloc::Global;

// Whether a line is that of the version.
#[tactic(auto, unfolding(crate::specs::TranscriptReading::line_read, crate::specs::TranscriptReading::version_read))]
fn is_version_line(line: &[u8]) -> bool
    ensures { line_read start (parts space line.now) ≡ (if result then Some version else None) }
{
    let (verb, more) = first_word(line);
    let Some((number, more)) = next_word(more) else {
        return false;
    };
    let None = next_word(more) else {
        return false;
    };
    verb == b"transcript".as_slice() && is_one(number)
}

fn is_one(word: &[u8]) -> bool
    ensures { result ≡ is_one (number_32 word.now) }
{
    match number_32(word) {
        Some(n) => n == 1,
        None => false,
    }
}

// The number of ranges that a line tells.
#[tactic(auto, unfolding(crate::specs::TranscriptReading::line_read, crate::specs::TranscriptReading::ranges_read))]
fn ranges_line(line: &[u8]) -> Option<u32>
    ensures { option_map parts_from result ≡ line_read version (parts space line.now) }
{
    let (verb, more) = first_word(line);
    let (number, more) = next_word(more)?;
    let None = next_word(more) else {
        return None;
    };
    if verb != b"ranges".as_slice() {
        return None;
    }
    number_32(number)
}

// A file's line.
fn file_line(alloc: Global, draft: Draft, more: Option<&[u8]>) -> Result<Option<Draft>, Memory>
    requires { IsDraft draft }
    ensures value { IfOk result (λ o. option_map reading_of o ≡ file_read draft.ranges (draft.files ++ listed draft.file) (draft.guests ++ listed draft.guest) (behind more.entry)) }
    ensures sound { IfOk result (λ o. IfSome o IsDraft) }
{
    let Some(part) = file(alloc, more)? else {
        return Ok(None);
    };
    with_file(draft, part)
}

// A line of an entry.
fn entry_line(draft: Draft, more: Option<&[u8]>) -> Result<Option<Draft>, Memory>
    requires { IsDraft draft }
    ensures value { IfOk result (λ o. option_map reading_of o ≡ entry_read draft.ranges (draft.files ++ listed draft.file) (draft.guests ++ listed draft.guest) (behind more.entry)) }
    ensures sound { IfOk result (λ o. IfSome o IsDraft) }
{
    let Some(told) = entry(more) else {
        return Ok(None);
    };
    add_entry(draft, told)
}

// A line of a log.
fn log_line(draft: Draft, more: Option<&[u8]>) -> Result<Option<Draft>, Memory>
    requires { IsDraft draft }
    ensures value { IfOk result (λ o. option_map reading_of o ≡ log_read draft.ranges (draft.files ++ listed draft.file) (draft.guests ++ listed draft.guest) (behind more.entry)) }
    ensures sound { IfOk result (λ o. IfSome o IsDraft) }
{
    let Some(told) = log_entry(more) else {
        return Ok(None);
    };
    add_log(draft, told)
}

// A guest's line.
fn guest_line(alloc: Global, draft: Draft, more: Option<&[u8]>) -> Result<Option<Draft>, Memory>
    requires { IsDraft draft }
    ensures value { IfOk result (λ o. option_map reading_of o ≡ guest_read draft.ranges (draft.files ++ listed draft.file) (draft.guests ++ listed draft.guest) (behind more.entry)) }
    ensures sound { IfOk result (λ o. IfSome o IsDraft) }
{
    let Some(part) = guest(alloc, more) else {
        return Ok(None);
    };
    let draft = with_guest(draft, part)?;
    Ok(Some(draft))
}

// A call's line.
fn call_line(
    alloc: Global,
    draft: Draft,
    verb: &[u8],
    more: Option<&[u8]>,
) -> Result<Option<Draft>, Memory>
    requires { IsDraft draft }
    ensures value { IfOk result (λ o. option_map reading_of o ≡ call_read draft.ranges (draft.files ++ listed draft.file) (draft.guests ++ listed draft.guest) (verb.now ∷ behind more.entry)) }
    ensures sound { IfOk result (λ o. IfSome o IsDraft) }
{
    let Some(told) = numbered(alloc, verb, more)? else {
        return Ok(None);
    };
    add_line(draft, told)
}

// The draft after a line, by the line's first word and what lies behind it. The word isn't `end`.
#[tactic(auto, unfolding(crate::specs::TranscriptReading::line_read))]
fn draft_line(
    alloc: Global,
    draft: Draft,
    verb: &[u8],
    more: Option<&[u8]>,
) -> Result<Option<Draft>, Memory>
    requires sound { IsDraft draft }
    requires goes_on { bytes_eq verb.now (codes "end") ≡ false }
    ensures value { IfOk result (λ o. option_map reading_of o ≡ line_read (reading_of draft) (verb.now ∷ behind more.entry)) }
    ensures sound { IfOk result (λ o. IfSome o IsDraft) }
{
    if verb == b"file".as_slice() {
        file_line(alloc, draft, more)
    } else if verb == b"entry".as_slice() {
        entry_line(draft, more)
    } else if verb == b"log".as_slice() {
        log_line(draft, more)
    } else if verb == b"guest".as_slice() {
        guest_line(alloc, draft, more)
    } else {
        call_line(alloc, draft, verb, more)
    }
}

// The draft after the `line`-th line, which isn't `end`.
fn next_line(
    alloc: Global,
    draft: Draft,
    verb: &[u8],
    more: Option<&[u8]>,
    line: u64,
) -> Result<Draft, BadTranscript>
    requires sound { IsDraft draft }
    requires goes_on { bytes_eq verb.now (codes "end") ≡ false }
    ensures value { IfOk result (λ d. line_read (reading_of draft) (verb.now ∷ behind more.entry) ≡ Some (reading_of d)) }
    ensures cause { IfErr result (λ e. IsBadLine e line (line_read (reading_of draft) (verb.now ∷ behind more.entry))) }
    ensures sound { IfOk result IsDraft }
{
    match draft_line(alloc, draft, verb, more) {
        Ok(Some(draft)) => Ok(draft),
        Ok(None) => Err(BadTranscript::Line { line }),
        Err(_) => Err(BadTranscript::Memory),
    }
}

// The transcript that a draft is at the `line`-th line, which is `end`, by what lies behind the word and
// behind the line.
#[tactic(auto, using(crate::proofs::LinesFrom::end_followed, crate::proofs::LinesFrom::end_not_last, crate::proofs::LinesFrom::end_last))]
fn end_line(
    draft: Draft,
    more: Option<&[u8]>,
    after: &[u8],
    line: u64,
) -> Result<Transcript, BadTranscript>
    requires { line + 1 < 2 ^ 64 }
    ensures value { IfOk result (λ t. at_end line (reading_of draft) (behind more.entry) after.now ≡ Ok t) }
    ensures cause { IfErr result (λ e. IsCause e (at_end line (reading_of draft) (behind more.entry) after.now)) }
{
    if more.is_some() {
        return Err(BadTranscript::Line { line });
    }
    if !after.is_empty() {
        return Err(BadTranscript::Line { line: line + 1 });
    }
    match ended(draft) {
        Ok(transcript) => Ok(transcript),
        Err(_) => Err(BadTranscript::Memory),
    }
}

// The transcript of a draft and of the rest of a text, which begins with the `line`-th line.
#[tactic(auto, using(crate::proofs::LinesFrom::from_short), unfolding(crate::specs::TranscriptReading::whole))]
fn parse_from(
    alloc: Global,
    mut draft: Draft,
    mut rest: &[u8],
    mut line: u64,
) -> Result<Transcript, BadTranscript>
    requires sound { IsDraft draft }
    requires counted { line + length rest.now < 2 ^ 64 }
    ensures value { IfOk result (λ t. transcript_from line (reading_of draft) (parts line_end rest.now) ≡ Ok t) }
    ensures cause { IfErr result (λ e. IsCause e (transcript_from line (reading_of draft) (parts line_end rest.now))) }
{
    loop {
        let (first, after) = cut(rest, b'\n');
        let Some(after) = after else {
            return Err(BadTranscript::Line { line });
        };
        let (verb, more) = first_word(first);
        if verb == b"end".as_slice() {
            return end_line(draft, more, after, line);
        }
        draft = next_line(alloc, draft, verb, more, line)?;
        line += 1;
        rest = after;
    }
}

/// The transcript that a text is, where it is one; else its first bad line, or `Memory`, which says nothing of the text.
///
/// The transcript is within the bounds of its form, so the text that [`print`](crate::print) writes of it is read as it
/// again.
#[tactic(auto, using(crate::proofs::LinesFrom::from_short), unfolding(crate::specs::TranscriptReading::transcript_of, crate::specs::TranscriptReading::whole))]
pub fn parse(alloc: Global, text: &[u8]) -> Result<Transcript, BadTranscript>
    ensures value { IfOk result (λ t. transcript_of text.now ≡ Ok t) }
    ensures cause { IfErr result (λ e. IsCause e (transcript_of text.now)) }
    ensures fits { IfOk result (λ t. fits t ≡ true) }
{
    let (first, rest) = cut(text, b'\n');
    let Some(rest) = rest else {
        return Err(BadTranscript::Line { line: 1 });
    };
    if !is_version_line(first) {
        return Err(BadTranscript::Line { line: 1 });
    }
    let (second, rest) = cut(rest, b'\n');
    let Some(rest) = rest else {
        return Err(BadTranscript::Line { line: 2 });
    };
    let Some(ranges) = ranges_line(second) else {
        return Err(BadTranscript::Line { line: 2 });
    };
    parse_from(alloc, new_draft(alloc, ranges), rest, 3)
}
