ghost use Rattle.std.specs.Prelude.{◌≡◌, ◌++◌, ◌∷◌, [], codes, Some, option_map, IfOk, IfSome};
ghost use Rattle.transcript_text.specs.TranscriptReading.{with_entry, with_log, with_line, line_read};
ghost use Rattle.transcript_text.specs.Drafts.{IsDraft, listed, end, parts_from, reading_of, file_more, entry_more, log_more, guest_more, line_more};

use crate::transcripts::{EntryLine, FilePart, GuestPart, Numbered, Transcript};
use plain_file::{List, Memory};
use range_tree::LogEntry;
use std::alloc::Global;

/// A transcript that is read so far: its files and guests, the newest of each in hand.
#[derive(Debug, Drop)]
pub(crate) struct Draft {
    pub(crate) ranges: u32,
    pub(crate) files: List<FilePart>,
    pub(crate) file: Option<FilePart>,
    pub(crate) guests: List<GuestPart>,
    pub(crate) guest: Option<GuestPart>,
}

/// A draft of a transcript without a file.
pub(crate) fn new_draft(alloc: Global, ranges: u32) -> Draft
    ensures value { reading_of result ≡ parts_from ranges }
    ensures sound { IsDraft result }
{
    Draft {
        ranges,
        files: List::new(alloc),
        file: None,
        guests: List::new(alloc),
        guest: None,
    }
}

/// The draft with one file more; None behind the first guest.
#[tactic(auto, unfolding(crate::specs::Drafts::file_more, crate::specs::Drafts::entry_more, crate::specs::Drafts::log_more, crate::specs::Drafts::guest_more, crate::specs::Drafts::line_more))]
pub(crate) fn with_file(draft: Draft, part: FilePart) -> Result<Option<Draft>, Memory>
    requires { IsDraft draft }
    ensures value { IfOk result (λ o. option_map reading_of o ≡ file_more part (reading_of draft)) }
    ensures sound { IfOk result (λ o. IfSome o IsDraft) }
{
    let Draft {
        ranges,
        mut files,
        file,
        guests,
        guest,
    } = draft;
    let None = guest else {
        return Ok(None);
    };
    if let Some(before) = file {
        files.push(before)?;
    }
    Ok(Some(Draft {
        ranges,
        files,
        file: Some(part),
        guests,
        guest: None,
    }))
}

// The file with one entry more; None behind its log.
fn entered(part: FilePart, entry: EntryLine) -> Result<Option<FilePart>, Memory>
    ensures { IfOk result (λ o. o ≡ with_entry entry part) }
{
    let FilePart {
        name,
        first,
        mut entries,
        log,
    } = part;
    if !log.is_empty() {
        return Ok(None);
    }
    entries.push(entry)?;
    Ok(Some(FilePart {
        name,
        first,
        entries,
        log,
    }))
}

// The file with one entry of its log more.
fn logged(part: FilePart, entry: LogEntry) -> Result<FilePart, Memory>
    ensures { IfOk result (λ p. Some p ≡ with_log entry part) }
{
    let FilePart {
        name,
        first,
        entries,
        mut log,
    } = part;
    log.push(entry)?;
    Ok(FilePart {
        name,
        first,
        entries,
        log,
    })
}

// The guest with one line more.
fn lined(part: GuestPart, line: Numbered) -> Result<GuestPart, Memory>
    ensures { IfOk result (λ p. Some p ≡ with_line line part) }
{
    let GuestPart { guest, mut lines } = part;
    lines.push(line)?;
    Ok(GuestPart { guest, lines })
}

/// The draft with one entry more in its newest file; None without a file, behind its log and behind the
/// first guest.
#[tactic(auto, unfolding(crate::specs::Drafts::file_more, crate::specs::Drafts::entry_more, crate::specs::Drafts::log_more, crate::specs::Drafts::guest_more, crate::specs::Drafts::line_more))]
pub(crate) fn add_entry(draft: Draft, entry: EntryLine) -> Result<Option<Draft>, Memory>
    requires { IsDraft draft }
    ensures value { IfOk result (λ o. option_map reading_of o ≡ entry_more entry (reading_of draft)) }
    ensures sound { IfOk result (λ o. IfSome o IsDraft) }
{
    let Draft {
        ranges,
        files,
        file,
        guests,
        guest,
    } = draft;
    let None = guest else {
        return Ok(None);
    };
    let Some(before) = file else {
        return Ok(None);
    };
    let Some(part) = entered(before, entry)? else {
        return Ok(None);
    };
    Ok(Some(Draft {
        ranges,
        files,
        file: Some(part),
        guests,
        guest: None,
    }))
}

/// The draft with one entry more in its newest file's log; None without a file and behind the first guest.
#[tactic(auto, unfolding(crate::specs::Drafts::file_more, crate::specs::Drafts::entry_more, crate::specs::Drafts::log_more, crate::specs::Drafts::guest_more, crate::specs::Drafts::line_more))]
pub(crate) fn add_log(draft: Draft, entry: LogEntry) -> Result<Option<Draft>, Memory>
    requires { IsDraft draft }
    ensures value { IfOk result (λ o. option_map reading_of o ≡ log_more entry (reading_of draft)) }
    ensures sound { IfOk result (λ o. IfSome o IsDraft) }
{
    let Draft {
        ranges,
        files,
        file,
        guests,
        guest,
    } = draft;
    let None = guest else {
        return Ok(None);
    };
    let Some(before) = file else {
        return Ok(None);
    };
    let part = logged(before, entry)?;
    Ok(Some(Draft {
        ranges,
        files,
        file: Some(part),
        guests,
        guest: None,
    }))
}

/// The draft with one guest more.
#[tactic(auto, unfolding(crate::specs::Drafts::file_more, crate::specs::Drafts::entry_more, crate::specs::Drafts::log_more, crate::specs::Drafts::guest_more, crate::specs::Drafts::line_more))]
pub(crate) fn with_guest(draft: Draft, part: GuestPart) -> Result<Draft, Memory>
    requires { IsDraft draft }
    ensures value { IfOk result (λ d. Some (reading_of d) ≡ guest_more part (reading_of draft)) }
    ensures sound { IfOk result IsDraft }
{
    let Draft {
        ranges,
        files,
        file,
        mut guests,
        guest,
    } = draft;
    if let Some(before) = guest {
        guests.push(before)?;
    }
    Ok(Draft {
        ranges,
        files,
        file,
        guests,
        guest: Some(part),
    })
}

/// The draft with one line more of its newest guest; None without a guest.
#[tactic(auto, unfolding(crate::specs::Drafts::file_more, crate::specs::Drafts::entry_more, crate::specs::Drafts::log_more, crate::specs::Drafts::guest_more, crate::specs::Drafts::line_more))]
pub(crate) fn add_line(draft: Draft, line: Numbered) -> Result<Option<Draft>, Memory>
    requires { IsDraft draft }
    ensures value { IfOk result (λ o. option_map reading_of o ≡ line_more line (reading_of draft)) }
    ensures sound { IfOk result (λ o. IfSome o IsDraft) }
{
    let Draft {
        ranges,
        files,
        file,
        guests,
        guest,
    } = draft;
    let Some(before) = guest else {
        return Ok(None);
    };
    let part = lined(before, line)?;
    Ok(Some(Draft {
        ranges,
        files,
        file,
        guests,
        guest: Some(part),
    }))
}

// The parts with the one in hand.
fn gathered<T: Drop>(before: List<T>, last: Option<T>) -> Result<List<T>, Memory>
    ensures { IfOk result (λ all. all ≡ before ++ listed last) }
{
    let mut all = before;
    if let Some(part) = last {
        all.push(part)?;
    }
    Ok(all)
}

/// The transcript of a draft at its end.
#[tactic(auto, unfolding(crate::specs::TranscriptReading::line_read, crate::specs::TranscriptReading::end_read))]
pub(crate) fn ended(draft: Draft) -> Result<Transcript, Memory>
    ensures { IfOk result (λ t. Some (end t) ≡ line_read (reading_of draft) (codes "end" ∷ [])) }
{
    let Draft {
        ranges,
        files,
        file,
        guests,
        guest,
    } = draft;
    let files = gathered(files, file)?;
    let guests = gathered(guests, guest)?;
    Ok(Transcript {
        version: 1,
        ranges,
        files,
        guests,
    })
}
