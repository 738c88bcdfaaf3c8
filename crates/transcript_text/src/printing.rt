ghost use Rattle.std.specs.Prelude.{◌≡◌, ◌∷◌, ◌++◌, [], map, codes, decimal, IfOk, OnOk};
ghost use Rattle.std.specs.List.{flat_map};
ghost use Rattle.hex.specs.Hex.{encode_lower};
ghost use Rattle.plain_text.specs.Printed.{line, followed, after_space};
ghost use Rattle.transcript_text.specs.Parts.{file_words};
ghost use Rattle.transcript_text.specs.TranscriptText.{through_words, way_words, bytes_word, answer_words, line_words, mode_word, log_entry_words, log_words, entry_words, numbered_words, file_lines, guest_lines, text_of};

use crate::transcripts::{EntryLine, FilePart, GuestPart, Line, Numbered, Transcript};
use page_map::Mode;
use plain_file::{Answer, Blob, List, Memory, Through, Way};
use plain_text::{put, put_hex, put_number};
use range_tree::LogEntry;
use std::alloc::Global;

/// The text of a transcript.
///
/// `Memory` is its only error.
pub fn print(alloc: Global, t: &Transcript) -> Result<Blob, Memory>
    ensures { IfOk result (λ b. b ≡ text_of t.now) }
{
    let mut out = Vec::new(alloc);
    put_head(&mut out, t)?;
    put_files(&mut out, t.files.as_slice())?;
    put_guests(&mut out, t.guests.as_slice())?;
    put(&mut out, b"end\n")?;
    Ok(List::from_vec(out))
}

fn put_head(out: &mut Vec<u8>, t: &Transcript) -> Result<(), Memory>
    ensures { OnOk result (out.new.items ≡ out.old.items ++ line (codes "transcript" ∷ decimal t.now.version ∷ []) ++ line (codes "ranges" ∷ decimal t.now.ranges ∷ [])) }
{
    put_numbered_line(out, b"transcript", t.version)?;
    put_numbered_line(out, b"ranges", t.ranges)
}

// A line of a word and a number.
fn put_numbered_line(out: &mut Vec<u8>, word: &[u8], n: u32) -> Result<(), Memory>
    ensures { OnOk result (out.new.items ≡ out.old.items ++ line (word.now ∷ decimal n ∷ [])) }
{
    put(out, word)?;
    put(out, b" ")?;
    put_number(out, u64::from(n))?;
    put(out, b"\n")?;
    Ok(())
}

fn put_files(out: &mut Vec<u8>, files: &[FilePart]) -> Result<(), Memory>
    ensures { OnOk result (out.new.items ≡ out.old.items ++ flat_map line (flat_map file_lines files.now)) }
{
    for file in files {
        put_file(out, file)?;
    }
    Ok(())
}

fn put_file(out: &mut Vec<u8>, file: &FilePart) -> Result<(), Memory>
    ensures { OnOk result (out.new.items ≡ out.old.items ++ flat_map line (file_lines file.now)) }
{
    put_file_line(out, file)?;
    put_entries(out, file.entries.as_slice())?;
    put_log(out, file.log.as_slice())
}

fn put_file_line(out: &mut Vec<u8>, file: &FilePart) -> Result<(), Memory>
    ensures { OnOk result (out.new.items ≡ out.old.items ++ line (file_words file.now)) }
{
    put(out, b"file ")?;
    put(out, file.name.as_slice())?;
    put(out, b" ")?;
    put_number(out, file.first.size)?;
    put(out, b" ")?;
    put_hex(out, &[file.first.fill])?;
    put(out, b"\n")?;
    Ok(())
}

fn put_entries(out: &mut Vec<u8>, entries: &[EntryLine]) -> Result<(), Memory>
    ensures { OnOk result (out.new.items ≡ out.old.items ++ flat_map line (map entry_words entries.now)) }
{
    for entry in entries {
        put_entry(out, entry)?;
    }
    Ok(())
}

fn put_entry(out: &mut Vec<u8>, entry: &EntryLine) -> Result<(), Memory>
    ensures { OnOk result (out.new.items ≡ out.old.items ++ line (entry_words entry.now)) }
{
    put(out, b"entry ")?;
    put_number(out, u64::from(entry.guest))?;
    put(out, b" ")?;
    put_number(out, u64::from(entry.call))?;
    put_way(out, &entry.way)?;
    put(out, b"\n")?;
    Ok(())
}

#[tactic(auto, unfolding(crate::specs::TranscriptText::way_words))]
fn put_way(out: &mut Vec<u8>, way: &Way) -> Result<(), Memory>
    ensures { OnOk result (out.new.items ≡ out.old.items ++ followed (way_words way.now)) }
{
    match way {
        Way::Req => put(out, b" req"),
        Way::ReqSaw(size) => {
            put(out, b" req ")?;
            put_number(out, *size)
        }
        Way::Via(first, None) => {
            put(out, b" via")?;
            put_through(out, first)
        }
        Way::Via(first, Some(second)) => {
            put(out, b" via")?;
            put_through(out, first)?;
            put_through(out, second)
        }
    }
}

fn put_through(out: &mut Vec<u8>, through: &Through) -> Result<(), Memory>
    ensures { OnOk result (out.new.items ≡ out.old.items ++ followed (through_words through.now)) }
{
    put(out, b" ")?;
    put_number(out, through.entry)?;
    put(out, b" ")?;
    put_number(out, through.upto)
}

fn put_log(out: &mut Vec<u8>, log: &[LogEntry]) -> Result<(), Memory>
    ensures { OnOk result (out.new.items ≡ out.old.items ++ flat_map line (map log_words log.now)) }
{
    for entry in log {
        put_log_entry(out, entry)?;
    }
    Ok(())
}

fn put_log_entry(out: &mut Vec<u8>, entry: &LogEntry) -> Result<(), Memory>
    ensures { OnOk result (out.new.items ≡ out.old.items ++ line (log_words entry.now)) }
{
    put(out, b"log")?;
    put_step(out, entry)?;
    put(out, b"\n")?;
    Ok(())
}

#[tactic(auto, unfolding(crate::specs::TranscriptText::log_entry_words))]
fn put_step(out: &mut Vec<u8>, entry: &LogEntry) -> Result<(), Memory>
    ensures { OnOk result (out.new.items ≡ out.old.items ++ followed (log_entry_words entry.now)) }
{
    match entry {
        LogEntry::Place { chunk, range, mode } => {
            put(out, b" place ")?;
            put_number(out, u64::from(*chunk))?;
            put(out, b" in ")?;
            put_number(out, u64::from(*range))?;
            put_mode(out, *mode)
        }
        LogEntry::Upgrade { range } => {
            put(out, b" upgrade ")?;
            put_number(out, u64::from(*range))
        }
        LogEntry::Remove { range } => {
            put(out, b" remove ")?;
            put_number(out, u64::from(*range))
        }
    }
}

fn put_mode(out: &mut Vec<u8>, mode: Mode) -> Result<(), Memory>
    ensures { OnOk result (out.new.items ≡ out.old.items ++ after_space (mode_word mode)) }
{
    match mode {
        Mode::R => put(out, b" r"),
        Mode::W => put(out, b" w"),
    }
}

fn put_guests(out: &mut Vec<u8>, guests: &[GuestPart]) -> Result<(), Memory>
    ensures { OnOk result (out.new.items ≡ out.old.items ++ flat_map line (flat_map guest_lines guests.now)) }
{
    for guest in guests {
        put_guest(out, guest)?;
    }
    Ok(())
}

fn put_guest(out: &mut Vec<u8>, guest: &GuestPart) -> Result<(), Memory>
    ensures { OnOk result (out.new.items ≡ out.old.items ++ flat_map line (guest_lines guest.now)) }
{
    put_numbered_line(out, b"guest", guest.guest)?;
    put_lines(out, guest.lines.as_slice())
}

fn put_lines(out: &mut Vec<u8>, lines: &[Numbered]) -> Result<(), Memory>
    ensures { OnOk result (out.new.items ≡ out.old.items ++ flat_map line (map numbered_words lines.now)) }
{
    for numbered in lines {
        put_numbered(out, numbered)?;
    }
    Ok(())
}

#[tactic(auto, using(plain_text::proofs::PrintedLines::line_printed))]
fn put_numbered(out: &mut Vec<u8>, numbered: &Numbered) -> Result<(), Memory>
    ensures { OnOk result (out.new.items ≡ out.old.items ++ line (numbered_words numbered.now)) }
{
    put_number(out, u64::from(numbered.call))?;
    put_line(out, &numbered.line)?;
    put(out, b"\n")?;
    Ok(())
}

#[tactic(auto, unfolding(crate::specs::TranscriptText::line_words))]
fn put_line(out: &mut Vec<u8>, line: &Line) -> Result<(), Memory>
    ensures { OnOk result (out.new.items ≡ out.old.items ++ followed (line_words line.now)) }
{
    match line {
        Line::Done { place, answer } => {
            put(out, b" done ")?;
            put_number(out, *place)?;
            put_answer(out, answer)
        }
        Line::Held { end, through } => {
            put(out, b" held ")?;
            put_number(out, *end)?;
            put(out, b" via")?;
            put_through(out, through)
        }
        Line::Released => put(out, b" released"),
        Line::Busy { letters } => {
            put(out, b" busy ")?;
            put(out, letters.as_slice())
        }
        Line::Leased { count } => {
            put(out, b" leased ")?;
            put_number(out, u64::from(*count))
        }
        Line::NoHold => put(out, b" nohold"),
        Line::Past { end } => {
            put(out, b" past ")?;
            put_number(out, *end)
        }
    }
}

#[tactic(auto, unfolding(crate::specs::TranscriptText::answer_words))]
fn put_answer(out: &mut Vec<u8>, answer: &Answer) -> Result<(), Memory>
    ensures { OnOk result (out.new.items ≡ out.old.items ++ followed (answer_words answer.now)) }
{
    match answer {
        Answer::Bytes(bytes) => {
            put(out, b" bytes ")?;
            put_bytes(out, bytes.as_slice())
        }
        Answer::Wrote(written) => {
            put(out, b" wrote ")?;
            put_number(out, *written)
        }
        Answer::Size(size) => {
            put(out, b" size ")?;
            put_number(out, *size)
        }
    }
}

fn put_bytes(out: &mut Vec<u8>, bytes: &[u8]) -> Result<(), Memory>
    ensures { OnOk result (out.new.items ≡ out.old.items ++ bytes_word bytes.now) }
{
    if bytes.is_empty() {
        return put(out, b"-");
    }
    put_hex(out, bytes)
}
