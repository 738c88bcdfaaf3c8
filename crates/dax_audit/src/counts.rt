ghost use Rattle.std.specs.Prelude.{◌≡◌, ◌-◌, ◌^◌, min, length};
ghost use Rattle.dax_audit.specs.Items.{parts_from, file_items, guest_items, items};

use transcript_text::{FilePart, GuestPart, Transcript};

fn files_lines(files: &[FilePart]) -> u64
    ensures { result ≡ min (length (parts_from file_items 0 files.now)) (2 ^ 64 - 1) }
{
    let mut lines = 0u64;
    for part in files {
        let entries = part.entries.len() as u64;
        let log = part.log.len() as u64;
        lines = lines
            .saturating_add(1)
            .saturating_add(entries)
            .saturating_add(log);
    }
    lines
}

fn guests_lines(guests: &[GuestPart]) -> u64
    ensures { result ≡ min (length (parts_from guest_items 0 guests.now)) (2 ^ 64 - 1) }
{
    let mut lines = 0u64;
    for part in guests {
        lines = lines
            .saturating_add(1)
            .saturating_add(part.lines.len() as u64);
    }
    lines
}

/// How many lines a transcript's text has; 2^64 - 1 where there are as many or more.
#[tactic(auto, using(crate::proofs::Places::whole_length))]
pub fn count_lines(t: &Transcript) -> u64
    ensures { result ≡ min (length (items t.now)) (2 ^ 64 - 1) }
{
    files_lines(t.files.as_slice())
        .saturating_add(guests_lines(t.guests.as_slice()))
        .saturating_add(3)
}
