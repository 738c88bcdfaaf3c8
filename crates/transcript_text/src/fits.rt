//! Whether a transcript is within the bounds of its form. A number is below what its type bounds, whatever it is:
//! it is read for that alone.

ghost use Rattle.std.specs.Prelude.{◌≡◌};
ghost use Rattle.std.specs.List.{list_all};
ghost use Rattle.transcript_text.specs.Fits.{answer_fits, entry_fits, file_fits, fits, fits_8, guest_fits, line_fits, log_fits, numbered_fits, through_fits, way_fits};

use crate::reading::{are_letters, has_name_form};
use crate::transcripts::{EntryLine, FilePart, GuestPart, Line, Numbered, Transcript};
use plain_file::{Answer, Through, Way};
use range_tree::LogEntry;

impl Transcript {
    /// Whether the transcript is one that some text gives
    /// ([`fits_is_what_texts_give`](crate::fits_is_what_texts_give)): its version is 1, its files' names are
    /// those that scripts may use, and each `busy` line has letters `p` and `m`, one at least. It takes no memory.
    #[tactic(auto, unfolding(crate::specs::Fits::fits))]
    pub fn fits(&self) -> bool
        ensures value { result ≡ fits self.now }
    {
        let _ranges = self.ranges;
        self.version == 1 && files_fit(self.files.as_slice()) && guests_fit(self.guests.as_slice())
    }
}

fn files_fit(files: &[FilePart]) -> bool
    ensures { result ≡ list_all file_fits files.now }
{
    files.iter().all(|file| file_fits(file))
}

fn file_fits(file: &FilePart) -> bool
    ensures { result ≡ file_fits file.now }
{
    let _size = file.first.size;
    let _fill = file.first.fill;
    has_name_form(file.name.as_slice())
        && entries_fit(file.entries.as_slice())
        && logs_fit(file.log.as_slice())
}

fn entries_fit(entries: &[EntryLine]) -> bool
    ensures { result ≡ list_all entry_fits entries.now }
{
    entries.iter().all(|entry| {
        let _guest = entry.guest;
        let _call = entry.call;
        way_fits(&entry.way)
    })
}

#[tactic(auto, unfolding(crate::specs::Fits::way_fits))]
fn way_fits(way: &Way) -> bool
    ensures { result ≡ way_fits way.now }
{
    match way {
        Way::Req => true,
        Way::ReqSaw(size) => {
            let _size = *size;
            true
        }
        Way::Via(first, None) => through_fits(first),
        Way::Via(first, Some(second)) => through_fits(first) && through_fits(second),
    }
}

fn through_fits(through: &Through) -> bool
    ensures { result ≡ through_fits through.now }
{
    let _entry = through.entry;
    let _upto = through.upto;
    true
}

fn logs_fit(log: &[LogEntry]) -> bool
    ensures { result ≡ list_all log_fits log.now }
{
    log.iter().all(|entry| log_fits(entry))
}

#[tactic(auto, unfolding(crate::specs::Fits::log_fits))]
fn log_fits(entry: &LogEntry) -> bool
    ensures { result ≡ log_fits entry.now }
{
    match entry {
        LogEntry::Place { chunk, range, .. } => {
            let _chunk = *chunk;
            let _range = *range;
            true
        }
        LogEntry::Upgrade { range } | LogEntry::Remove { range } => {
            let _range = *range;
            true
        }
    }
}

fn guests_fit(guests: &[GuestPart]) -> bool
    ensures { result ≡ list_all guest_fits guests.now }
{
    guests.iter().all(|part| {
        let _guest = part.guest;
        lines_fit(part.lines.as_slice())
    })
}

fn lines_fit(lines: &[Numbered]) -> bool
    ensures { result ≡ list_all numbered_fits lines.now }
{
    lines.iter().all(|told| {
        let _call = told.call;
        line_fits(&told.line)
    })
}

#[tactic(auto, unfolding(crate::specs::Fits::line_fits))]
fn line_fits(line: &Line) -> bool
    ensures { result ≡ line_fits line.now }
{
    match line {
        Line::Done { place, answer } => {
            let _place = *place;
            answer_fits(answer)
        }
        Line::Held { end, through } => {
            let _end = *end;
            through_fits(through)
        }
        Line::Busy { letters } => are_letters(letters.as_slice()),
        Line::Leased { count } => {
            let _count = *count;
            true
        }
        Line::Past { end } => {
            let _end = *end;
            true
        }
        Line::Released | Line::NoHold => true,
    }
}

#[tactic(auto, unfolding(crate::specs::Fits::answer_fits))]
fn answer_fits(answer: &Answer) -> bool
    ensures { result ≡ answer_fits answer.now }
{
    match answer {
        Answer::Bytes(bytes) => are_bytes(bytes.as_slice()),
        Answer::Wrote(n) | Answer::Size(n) => {
            let _n = *n;
            true
        }
    }
}

#[tactic(auto, using(crate::proofs::Bounds::below_256))]
fn are_bytes(bytes: &[u8]) -> bool
    ensures { result ≡ list_all fits_8 bytes.now }
{
    let _count = bytes.len();
    true
}
