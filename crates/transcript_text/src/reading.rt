ghost use Rattle.std.specs.Prelude.{◌≡◌, ◌∷◌, [], Some, None, if◌then◌else◌, MatchOption, IfOk};
ghost use Rattle.std.specs.List.{list_all};
ghost use Rattle.plain_text.specs.Words.{parts, space};
ghost use Rattle.dax_script.specs.ScriptWords.{is_script_name, is_script_name_byte};
ghost use Rattle.transcript_text.specs.Drafts.{behind, leased_of, past_of, held_of};
ghost use Rattle.transcript_text.specs.TranscriptReading.{number_32, number_64, bytes_of, through_of, way_of, answer_of_words, is_letter, is_letters, via_of, mode_of, log_of_words, line_of_words, numbered_of, entry_of_words, file_of_words, guest_of_words};

use crate::transcripts::{EntryLine, FilePart, GuestPart, Line, Numbered};
use page_map::Mode;
use plain_file::{Answer, Blob, First, List, Memory, Name, Through, Way};
use plain_text::{cut, hex_byte, hex_bytes, number_up_to};
use range_tree::LogEntry;
use std::alloc::Global;

/// The first word of a line, and what lies behind it.
pub(crate) fn first_word(line: &[u8]) -> (&[u8], Option<&[u8]>)
    ensures { parts space line.now ≡ result.0.now ∷ behind result.1 }
{
    cut(line, b' ')
}

// The next word, and what lies behind it.
pub(crate) fn next_word(more: Option<&[u8]>) -> Option<(&[u8], Option<&[u8]>)>
    ensures { MatchOption result (behind more.entry ≡ []) (λ next. behind more.entry ≡ next.0.now ∷ behind next.1) }
{
    match more {
        Some(words) => Some(first_word(words)),
        None => None,
    }
}

// A number of 32 bits.
#[tactic(auto, unfolding(crate::specs::TranscriptReading::number_32))]
pub(crate) fn number_32(word: &[u8]) -> Option<u32>
    ensures { result ≡ number_32 word.now }
{
    let n = number_up_to(word, 4_294_967_295)?;
    Some(n as u32)
}

// A number of 64 bits.
#[tactic(auto, unfolding(crate::specs::TranscriptReading::number_64))]
pub(crate) fn number_64(word: &[u8]) -> Option<u64>
    ensures { result ≡ number_64 word.now }
{
    number_up_to(word, u64::MAX)
}

#[tactic(auto, unfolding(crate::specs::TranscriptReading::bytes_of))]
fn bytes(alloc: Global, word: &[u8]) -> Result<Option<Blob>, Memory>
    ensures { IfOk result (λ o. o ≡ bytes_of word.now) }
{
    if word == b"-".as_slice() {
        return Ok(Some(List::new(alloc)));
    }
    hex_bytes(alloc, word)
}

#[tactic(auto, unfolding(crate::specs::TranscriptReading::through_of))]
fn through(entry: &[u8], upto: &[u8]) -> Option<Through>
    ensures { result ≡ through_of entry.now upto.now }
{
    let entry = number_64(entry)?;
    let upto = number_64(upto)?;
    Some(Through { entry, upto })
}

#[tactic(auto, unfolding(crate::specs::TranscriptReading::way_of))]
fn plain_way(verb: &[u8]) -> Option<Way>
    ensures { result ≡ way_of (verb.now ∷ []) }
{
    if verb == b"req".as_slice() {
        Some(Way::Req)
    } else {
        None
    }
}

#[tactic(auto, unfolding(crate::specs::TranscriptReading::way_of))]
fn seen_way(verb: &[u8], size: &[u8]) -> Option<Way>
    ensures { result ≡ way_of (verb.now ∷ size.now ∷ []) }
{
    if verb != b"req".as_slice() {
        return None;
    }
    let size = number_64(size)?;
    Some(Way::ReqSaw(size))
}

#[tactic(auto, unfolding(crate::specs::TranscriptReading::way_of))]
fn via_one(verb: &[u8], entry: &[u8], upto: &[u8]) -> Option<Way>
    ensures { result ≡ way_of (verb.now ∷ entry.now ∷ upto.now ∷ []) }
{
    if verb != b"via".as_slice() {
        return None;
    }
    let first = through(entry, upto)?;
    Some(Way::Via(first, None))
}

#[tactic(auto, unfolding(crate::specs::TranscriptReading::way_of))]
fn via_two(verb: &[u8], entry: &[u8], upto: &[u8], next: &[u8], last: &[u8]) -> Option<Way>
    ensures { result ≡ way_of (verb.now ∷ entry.now ∷ upto.now ∷ next.now ∷ last.now ∷ []) }
{
    if verb != b"via".as_slice() {
        return None;
    }
    let first = through(entry, upto)?;
    let second = through(next, last)?;
    Some(Way::Via(first, Some(second)))
}

#[tactic(auto, unfolding(crate::specs::TranscriptReading::way_of))]
fn way(more: Option<&[u8]>) -> Option<Way>
    ensures { result ≡ way_of (behind more.entry) }
{
    let (verb, more) = next_word(more)?;
    let Some((first, more)) = next_word(more) else {
        return plain_way(verb);
    };
    let Some((second, more)) = next_word(more) else {
        return seen_way(verb, first);
    };
    let Some((third, more)) = next_word(more) else {
        return via_one(verb, first, second);
    };
    let (fourth, more) = next_word(more)?;
    let None = next_word(more) else {
        return None;
    };
    via_two(verb, first, second, third, fourth)
}

/// The entry that words tell.
#[tactic(auto, unfolding(crate::specs::TranscriptReading::entry_of_words))]
pub(crate) fn entry(more: Option<&[u8]>) -> Option<EntryLine>
    ensures { result ≡ entry_of_words (behind more.entry) }
{
    let (guest, more) = next_word(more)?;
    let (call, more) = next_word(more)?;
    let guest = number_32(guest)?;
    let call = number_32(call)?;
    let way = way(more)?;
    Some(EntryLine { guest, call, way })
}

#[tactic(auto, unfolding(crate::specs::TranscriptReading::mode_of))]
fn mode(word: &[u8]) -> Option<Mode>
    ensures { result ≡ mode_of word.now }
{
    if word == b"r".as_slice() {
        Some(Mode::R)
    } else if word == b"w".as_slice() {
        Some(Mode::W)
    } else {
        None
    }
}

#[tactic(auto, unfolding(crate::specs::TranscriptReading::log_of_words))]
fn change(verb: &[u8], range: &[u8]) -> Option<LogEntry>
    ensures { result ≡ log_of_words (verb.now ∷ range.now ∷ []) }
{
    if verb == b"upgrade".as_slice() {
        let range = number_32(range)?;
        Some(LogEntry::Upgrade { range })
    } else if verb == b"remove".as_slice() {
        let range = number_32(range)?;
        Some(LogEntry::Remove { range })
    } else {
        None
    }
}

#[tactic(auto, unfolding(crate::specs::TranscriptReading::log_of_words))]
fn placing(verb: &[u8], chunk: &[u8], within: &[u8], range: &[u8], word: &[u8]) -> Option<LogEntry>
    ensures { result ≡ log_of_words (verb.now ∷ chunk.now ∷ within.now ∷ range.now ∷ word.now ∷ []) }
{
    if verb != b"place".as_slice() || within != b"in".as_slice() {
        return None;
    }
    let chunk = number_32(chunk)?;
    let range = number_32(range)?;
    let mode = mode(word)?;
    Some(LogEntry::Place { chunk, range, mode })
}

/// The log's entry that words tell.
#[tactic(auto, unfolding(crate::specs::TranscriptReading::log_of_words))]
pub(crate) fn log_entry(more: Option<&[u8]>) -> Option<LogEntry>
    ensures { result ≡ log_of_words (behind more.entry) }
{
    let (verb, more) = next_word(more)?;
    let (first, more) = next_word(more)?;
    let Some((second, more)) = next_word(more) else {
        return change(verb, first);
    };
    let (third, more) = next_word(more)?;
    let (fourth, more) = next_word(more)?;
    let None = next_word(more) else {
        return None;
    };
    placing(verb, first, second, third, fourth)
}

#[tactic(auto, unfolding(crate::specs::TranscriptReading::answer_of_words))]
fn two_words(alloc: Global, verb: &[u8], word: &[u8]) -> Result<Option<Answer>, Memory>
    ensures { IfOk result (λ o. o ≡ answer_of_words (verb.now ∷ word.now ∷ [])) }
{
    if verb == b"bytes".as_slice() {
        Ok(bytes(alloc, word)?.map(Answer::Bytes))
    } else if verb == b"wrote".as_slice() {
        Ok(number_64(word).map(Answer::Wrote))
    } else if verb == b"size".as_slice() {
        Ok(number_64(word).map(Answer::Size))
    } else {
        Ok(None)
    }
}

#[tactic(auto, unfolding(crate::specs::TranscriptReading::answer_of_words))]
fn answer(alloc: Global, verb: &[u8], more: Option<&[u8]>) -> Result<Option<Answer>, Memory>
    ensures { IfOk result (λ o. o ≡ answer_of_words (verb.now ∷ behind more.entry)) }
{
    let Some((word, more)) = next_word(more) else {
        return Ok(None);
    };
    let None = next_word(more) else {
        return Ok(None);
    };
    two_words(alloc, verb, word)
}

#[tactic(auto, unfolding(crate::specs::TranscriptReading::via_of))]
fn via(verb: &[u8], more: Option<&[u8]>) -> Option<Through>
    ensures { result ≡ via_of (verb.now ∷ behind more.entry) }
{
    let (entry, more) = next_word(more)?;
    let (upto, more) = next_word(more)?;
    let None = next_word(more) else {
        return None;
    };
    if verb != b"via".as_slice() {
        return None;
    }
    through(entry, upto)
}

pub(crate) fn are_letters(word: &[u8]) -> bool
    ensures { result ≡ is_letters word.now }
{
    !word.is_empty() && has_letters(word)
}

fn has_letters(word: &[u8]) -> bool
    ensures { result ≡ list_all is_letter word.now }
{
    word.iter().all(|b| *b == b'p' || *b == b'm')
}

#[tactic(auto, unfolding(crate::specs::TranscriptReading::line_of_words))]
fn bare_line(verb: &[u8]) -> Option<Line>
    ensures { result ≡ line_of_words (verb.now ∷ []) }
{
    if verb == b"released".as_slice() {
        Some(Line::Released)
    } else if verb == b"nohold".as_slice() {
        Some(Line::NoHold)
    } else {
        None
    }
}

#[tactic(auto, unfolding(crate::specs::TranscriptReading::line_of_words))]
fn told_line(alloc: Global, verb: &[u8], word: &[u8]) -> Result<Option<Line>, Memory>
    ensures { IfOk result (λ o. o ≡ line_of_words (verb.now ∷ word.now ∷ [])) }
{
    if verb == b"busy".as_slice() {
        if !are_letters(word) {
            return Ok(None);
        }
        let letters = Blob::copy_of(alloc, word)?;
        return Ok(Some(Line::Busy { letters }));
    }
    if verb == b"leased".as_slice() {
        return Ok(leased(word));
    }
    if verb == b"past".as_slice() {
        return Ok(past(word));
    }
    Ok(None)
}

fn leased(word: &[u8]) -> Option<Line>
    ensures { result ≡ leased_of word.now }
{
    let count = number_32(word)?;
    Some(Line::Leased { count })
}

fn past(word: &[u8]) -> Option<Line>
    ensures { result ≡ past_of word.now }
{
    let end = number_64(word)?;
    Some(Line::Past { end })
}

#[tactic(auto, unfolding(crate::specs::TranscriptReading::line_of_words))]
fn long_line(
    alloc: Global,
    verb: &[u8],
    number: &[u8],
    word: &[u8],
    more: Option<&[u8]>,
) -> Result<Option<Line>, Memory>
    ensures { IfOk result (λ o. o ≡ line_of_words (verb.now ∷ number.now ∷ word.now ∷ behind more.entry)) }
{
    if verb == b"done".as_slice() {
        let Some(place) = number_64(number) else {
            return Ok(None);
        };
        let Some(answer) = answer(alloc, word, more)? else {
            return Ok(None);
        };
        return Ok(Some(Line::Done { place, answer }));
    }
    if verb == b"held".as_slice() {
        return Ok(held(number, word, more));
    }
    Ok(None)
}

fn held(number: &[u8], word: &[u8], more: Option<&[u8]>) -> Option<Line>
    ensures { result ≡ held_of number.now (word.now ∷ behind more.entry) }
{
    let end = number_64(number)?;
    let through = via(word, more)?;
    Some(Line::Held { end, through })
}

// What became of a call, by words.
#[tactic(auto, unfolding(crate::specs::TranscriptReading::line_of_words))]
fn line(alloc: Global, more: Option<&[u8]>) -> Result<Option<Line>, Memory>
    ensures { IfOk result (λ o. o ≡ line_of_words (behind more.entry)) }
{
    let Some((verb, more)) = next_word(more) else {
        return Ok(None);
    };
    let Some((number, more)) = next_word(more) else {
        return Ok(bare_line(verb));
    };
    let Some((word, more)) = next_word(more) else {
        return told_line(alloc, verb, number);
    };
    long_line(alloc, verb, number, word, more)
}

/// A call's line, by its words.
#[tactic(auto, unfolding(crate::specs::TranscriptReading::numbered_of))]
pub(crate) fn numbered(
    alloc: Global,
    call: &[u8],
    more: Option<&[u8]>,
) -> Result<Option<Numbered>, Memory>
    ensures { IfOk result (λ o. o ≡ numbered_of (call.now ∷ behind more.entry)) }
{
    let Some(call) = number_32(call) else {
        return Ok(None);
    };
    let Some(line) = line(alloc, more)? else {
        return Ok(None);
    };
    Ok(Some(Numbered { call, line }))
}

/// The file that words tell, without an entry so far.
#[tactic(auto, using(crate::proofs::OneByte::byte_alone), unfolding(crate::specs::TranscriptReading::file_of_words))]
pub(crate) fn file(alloc: Global, more: Option<&[u8]>) -> Result<Option<FilePart>, Memory>
    ensures { IfOk result (λ o. o ≡ file_of_words (behind more.entry)) }
{
    let Some((name, more)) = next_word(more) else {
        return Ok(None);
    };
    let Some((size, more)) = next_word(more) else {
        return Ok(None);
    };
    let Some((byte, more)) = next_word(more) else {
        return Ok(None);
    };
    let None = next_word(more) else {
        return Ok(None);
    };
    let Some(name) = name_of(alloc, name)? else {
        return Ok(None);
    };
    let Some(size) = number_64(size) else {
        return Ok(None);
    };
    let Some(fill) = hex_byte(byte) else {
        return Ok(None);
    };
    Ok(Some(FilePart {
        name,
        first: First { size, fill },
        entries: List::new(alloc),
        log: List::new(alloc),
    }))
}

fn has_name_bytes(word: &[u8]) -> bool
    ensures { result ≡ list_all is_script_name_byte word.now }
{
    word.iter()
        .all(|b| matches!(*b, b'a'..=b'z' | b'0'..=b'9' | b'_' | b'-'))
}

pub(crate) fn has_name_form(word: &[u8]) -> bool
    ensures { result ≡ is_script_name word.now }
{
    !word.is_empty() && word.len() <= 32 && has_name_bytes(word)
}

// The name that a word is, where a script may use it.
#[tactic(auto, using(crate::proofs::Named::script_name_is_name))]
fn name_of(alloc: Global, word: &[u8]) -> Result<Option<Name>, Memory>
    ensures { IfOk result (λ o. o ≡ (if is_script_name word.now then Some word.now else None)) }
{
    if !has_name_form(word) {
        return Ok(None);
    }
    Ok(Name::new(Blob::copy_of(alloc, word)?))
}

/// The guest that words tell, without a line so far.
#[tactic(auto, unfolding(crate::specs::TranscriptReading::guest_of_words))]
pub(crate) fn guest(alloc: Global, more: Option<&[u8]>) -> Option<GuestPart>
    ensures { result ≡ guest_of_words (behind more.entry) }
{
    let (guest, more) = next_word(more)?;
    let None = next_word(more) else {
        return None;
    };
    let guest = number_32(guest)?;
    Some(GuestPart {
        guest,
        lines: List::new(alloc),
    })
}
