ghost use Rattle.std.specs.Prelude.{◌≡◌, ◌+◌, ◌<◌, ◌≤◌, ◌^◌, ℕ, false, length, slice_get, Some, IfOk};
ghost use Rattle.std.specs.List.{position_from};
ghost use Rattle.transcript_text.specs.declared.transcripts.EntryLine.{EntryLine};
ghost use Rattle.transcript_text.specs.declared.transcripts.FilePart.{FilePart};
ghost use Rattle.transcript_text.specs.declared.transcripts.GuestPart.{GuestPart};
ghost use Rattle.transcript_text.specs.declared.transcripts.Numbered.{Numbered};
ghost use Rattle.dax_audit.specs.Items.{Entry, Log, Call, each_from, parts_from, file_items, guest_items, items};
ghost use Rattle.dax_audit.specs.Rows.{item_of, StandsIn};
ghost use Rattle.dax_audit.specs.Found.{found_in};
ghost use Rattle.dax_audit.specs.Rules.{entry_at, lines_of};

use range_tree::LogEntry;
use transcript_text::{EntryLine, FilePart, GuestPart, Numbered, Transcript};

/// A line of a transcript, with its places.
#[derive(Clone, Copy)]
pub enum Row<'a> {
    /// The version.
    Head,
    /// The number of ranges.
    Ranges,
    /// A file.
    File {
        file: usize,
        part: &'a FilePart,
    },
    /// An entry of a file's history.
    Entry {
        file: usize,
        place: usize,
        entry: &'a EntryLine,
    },
    /// An entry of a file's placement log.
    Log {
        file: usize,
        place: usize,
        entry: &'a LogEntry,
    },
    /// A guest.
    Guest {
        guest: usize,
        part: &'a GuestPart,
    },
    /// The line of a guest's call.
    Call {
        guest: usize,
        call: usize,
        line: &'a Numbered,
    },
    /// The last line.
    End,
}

/// A rule, which tells of each line of a transcript whether it is broken there. `ready` is what the
/// rule's tables have to be.
///
/// Rules mark `is_broken` as `inline(always)`, so that LLVM leaves the lines which a rule never looks at out of its
/// walk.
pub trait Judge {
    ghost use Rattle.std.specs.Prelude.{Bool};
    ghost use Rattle.transcript_text.specs.declared.transcripts.Transcript.{Transcript};
    ghost use Rattle.dax_audit.specs.Items.{Item};

    ghost of: { Self → Transcript };

    ghost ready: { Self → Type 0 };

    ghost breaks: { Self → Item → Bool };

    /// Whether it is broken at this line.
    fn is_broken(&self, row: Row<'_>) -> bool
        requires ready { ready self.now }
        requires there { StandsIn (of self.now) row }
        ensures { result ≡ breaks self.now (item_of row.entry) };
}

fn in_entries<J: Judge>(judge: &J, file: usize, entries: &[EntryLine], from: u64) -> Option<u64>
    requires ready { J.ready judge.now }
    requires there { (p : ℕ) (e : EntryLine) → slice_get entries.now p ≡ Some e → entry_at (J.of judge.now) file p ≡ Some e }
    requires few { from + length entries.now < 2 ^ 64 }
    ensures { result ≡ position_from (J.breaks judge.now) from (each_from (Entry file) 0 entries.now) }
{
    let mut place = 0;
    for entry in entries {
        if judge.is_broken(Row::Entry { file, place, entry }) {
            return Some(from + place as u64);
        }
        place += 1;
    }
    None
}

fn in_log<J: Judge>(judge: &J, file: usize, log: &[LogEntry], from: u64) -> Option<u64>
    requires ready { J.ready judge.now }
    requires few { from + length log.now < 2 ^ 64 }
    ensures { result ≡ position_from (J.breaks judge.now) from (each_from (Log file) 0 log.now) }
{
    let mut place = 0;
    for entry in log {
        if judge.is_broken(Row::Log { file, place, entry }) {
            return Some(from + place as u64);
        }
        place += 1;
    }
    None
}

fn in_calls<J: Judge>(judge: &J, guest: usize, lines: &[Numbered], from: u64) -> Option<u64>
    requires ready { J.ready judge.now }
    requires there { (c : ℕ) (n : Numbered) → slice_get lines.now c ≡ Some n → slice_get (lines_of (J.of judge.now) guest) c ≡ Some n }
    requires few { from + length lines.now < 2 ^ 64 }
    ensures { result ≡ position_from (J.breaks judge.now) from (each_from (Call guest) 0 lines.now) }
{
    let mut call = 0;
    for line in lines {
        if judge.is_broken(Row::Call { guest, call, line }) {
            return Some(from + call as u64);
        }
        call += 1;
    }
    None
}

#[tactic(auto, using(crate::proofs::Places::file_length, crate::proofs::Places::file_position))]
fn in_file<J: Judge>(judge: &J, file: usize, part: &FilePart, from: u64) -> Option<u64>
    requires ready { J.ready judge.now }
    requires there { slice_get (J.of judge.now).files file ≡ Some part.now }
    requires few { from + length (file_items file part.now) < 2 ^ 64 }
    ensures { result ≡ position_from (J.breaks judge.now) from (file_items file part.now) }
{
    if judge.is_broken(Row::File { file, part }) {
        return Some(from);
    }
    match in_entries(judge, file, part.entries.as_slice(), from + 1) {
        Some(line) => Some(line),
        None => in_log(
            judge,
            file,
            part.log.as_slice(),
            from + 1 + part.entries.len() as u64,
        ),
    }
}

// The line behind the files, or the first broken one as an error.
fn in_files<J: Judge>(judge: &J, files: &[FilePart], from: u64) -> Result<u64, u64>
    requires ready { J.ready judge.now }
    requires there { (J.of judge.now).files ≡ files.now }
    requires few { from + length (parts_from file_items 0 files.now) < 2 ^ 64 }
    ensures found { found_in result ≡ position_from (J.breaks judge.now) from (parts_from file_items 0 files.now) }
    ensures next { IfOk result (λ line. line ≡ from + length (parts_from file_items 0 files.now)) }
{
    let mut file = 0;
    let mut line = from;
    for part in files {
        if let Some(found) = in_file(judge, file, part, line) {
            return Err(found);
        }
        line = line + 1 + part.entries.len() as u64 + part.log.len() as u64;
        file += 1;
    }
    Ok(line)
}

#[tactic(auto, using(crate::proofs::Places::guest_length))]
fn in_guest<J: Judge>(judge: &J, guest: usize, part: &GuestPart, from: u64) -> Option<u64>
    requires ready { J.ready judge.now }
    requires there { slice_get (J.of judge.now).guests guest ≡ Some part.now }
    requires few { from + length (guest_items guest part.now) < 2 ^ 64 }
    ensures { result ≡ position_from (J.breaks judge.now) from (guest_items guest part.now) }
{
    if judge.is_broken(Row::Guest { guest, part }) {
        return Some(from);
    }
    in_calls(judge, guest, part.lines.as_slice(), from + 1)
}

// The line behind the guests, or the first broken one as an error.
fn in_guests<J: Judge>(judge: &J, guests: &[GuestPart], from: u64) -> Result<u64, u64>
    requires ready { J.ready judge.now }
    requires there { (J.of judge.now).guests ≡ guests.now }
    requires few { from + length (parts_from guest_items 0 guests.now) < 2 ^ 64 }
    ensures found { found_in result ≡ position_from (J.breaks judge.now) from (parts_from guest_items 0 guests.now) }
    ensures next { IfOk result (λ line. line ≡ from + length (parts_from guest_items 0 guests.now)) }
{
    let mut guest = 0;
    let mut line = from;
    for part in guests {
        if let Some(found) = in_guest(judge, guest, part, line) {
            return Err(found);
        }
        line = line + 1 + part.lines.len() as u64;
        guest += 1;
    }
    Ok(line)
}

/// The first line that breaks a rule, counted from 1.
#[tactic(auto, using(crate::proofs::Places::whole_head, crate::proofs::Places::whole_position, crate::proofs::Places::whole_length))]
pub fn first_broken<J: Judge>(t: &Transcript, judge: &J) -> Option<u64>
    requires ready { J.ready judge.now }
    requires of { J.of judge.now ≡ t.now }
    requires few { length (items t.now) + 1 < 2 ^ 64 }
    ensures { result ≡ position_from (J.breaks judge.now) 1 (items t.now) }
{
    if judge.is_broken(Row::Head) {
        return Some(1);
    }
    if judge.is_broken(Row::Ranges) {
        return Some(2);
    }
    let guests = match in_files(judge, t.files.as_slice(), 3) {
        Ok(line) => line,
        Err(line) => return Some(line),
    };
    let end = match in_guests(judge, t.guests.as_slice(), guests) {
        Ok(line) => line,
        Err(line) => return Some(line),
    };
    if judge.is_broken(Row::End) {
        Some(end)
    } else {
        None
    }
}
