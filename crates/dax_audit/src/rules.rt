ghost use Rattle.std.specs.Prelude.{◌≡◌, ℕ, ◌<◌, true, not, length, map, slice_get, Some};
ghost use Rattle.dax_script.specs.Asks.{hold_places, target, calls_of, call_at};
ghost use Rattle.transcript_text.specs.declared.transcripts.Numbered.{Numbered};
ghost use Rattle.dax_audit.specs.Guests.{place_of, done_by};
ghost use Rattle.dax_audit.specs.Rules.{lines_of, line_at, entry_at, is_done_at, names, past_at, pasts, has_entry, is_named, has_entry_at, breaks_entries, names_line};
ghost use Rattle.dax_audit.specs.Tables.{AreHolds};

use crate::picks::pick;
use crate::walks::{Judge, Row};
use dax_script::{Call, Script, Target, target_of};
use transcript_text::{EntryLine, Line, Numbered, Transcript};

/// The place of a call that is done.
#[tactic(auto, unfolding(crate::specs::Guests::place_of))]
pub fn place_of(line: &Line) -> Option<u64>
    ensures { result ≡ place_of line.now }
{
    match line {
        Line::Done { place, .. } => Some(*place),
        _ => None,
    }
}

// Whether a guest's call is done at this place of this file.
#[tactic(auto, using(crate::proofs::Singles::done_some, crate::proofs::Singles::done_no_call, crate::proofs::Singles::done_no_line))]
fn is_done_at(
    calls: &[Call],
    holds: &[usize],
    lines: &[Numbered],
    file: usize,
    call: usize,
    place: usize,
) -> bool
    requires { holds.now ≡ hold_places 0 calls.now }
    ensures { result ≡ is_done_at calls.now lines.now file call place }
{
    let Some(asked) = pick(calls, call) else {
        return false;
    };
    let Some(line) = pick(lines, call) else {
        return false;
    };
    done_by(
        target_of(calls, holds, asked),
        place_of(&line.line),
        file,
        place as u64,
    )
}

#[tactic(auto, unfolding(crate::specs::Guests::done_by))]
fn done_by(to: Option<Target>, at: Option<u64>, file: usize, place: u64) -> bool
    ensures { result ≡ done_by to at file place }
{
    let Some(to) = to else {
        return false;
    };
    let Some(at) = at else {
        return false;
    };
    to.file as usize == file && at == place
}

// The calls of a guest, where its `hold` calls stand, and its lines; none where there is no such guest.
pub fn guest_calls(script: &Script, guest: usize) -> &[Call]
    ensures { result.now ≡ calls_of script.now guest }
{
    match script.guests.get(guest) {
        Some(calls) => calls.as_slice(),
        None => &[],
    }
}

#[tactic(auto, using(crate::proofs::Singles::holds_some, crate::proofs::Singles::holds_none))]
pub fn guest_holds<'a>(script: &Script, holds: &'a [Vec<usize>], guest: usize) -> &'a [usize]
    requires { AreHolds script.now holds.now }
    ensures { result.now ≡ hold_places 0 (calls_of script.now guest) }
{
    match pick(holds, guest) {
        Some(places) => places.as_slice(),
        None => &[],
    }
}

pub fn guest_lines(t: &Transcript, guest: usize) -> &[Numbered]
    ensures { result.now ≡ lines_of t.now guest }
{
    match t.guests.get(guest) {
        Some(part) => part.lines.as_slice(),
        None => &[],
    }
}

// Whether the entry at a place of a file is that of a call.
fn is_entry_of(t: &Transcript, file: u32, place: u64, guest: usize, call: usize) -> bool
    ensures { result ≡ names_line guest call (entry_at t.now file place) }
{
    let Some(part) = t.files.get(file as usize) else {
        return false;
    };
    match part.entries.get(place as usize) {
        Some(entry) => entry.guest as usize == guest && entry.call as usize == call,
        None => false,
    }
}

/// Rule 4: entries and lines that are done name each other.
#[derive(Drop)]
pub struct Entries<'a> {
    pub script: &'a Script,
    pub t: &'a Transcript,
    pub holds: &'a [Vec<usize>],
}

impl<'a> Judge for Entries<'a> {
    ghost use Rattle.dax_audit.specs.Rules.{breaks_entries};
    ghost use Rattle.dax_audit.specs.Tables.{AreHolds};

    ghost of = { λ j. j.t.now };

    ghost ready = { λ j. AreHolds j.script.now j.holds.now };

    ghost breaks = { λ j. breaks_entries j.script.now j.t.now };

    #[inline(always)]
    #[tactic(auto, using(crate::proofs::Singles::or_nothing), unfolding(crate::specs::Rules::breaks_call, crate::specs::Rules::breaks_entry))]
    fn is_broken(&self, row: Row<'_>) -> bool {
        match row {
            Row::Entry { file, place, entry } => !self.is_named(file, place, entry),
            Row::Call { guest, call, line } => !self.has_entry(guest, call, &line.line),
            _ => false,
        }
    }
}

impl<'a> Entries<'a> {
    // Whether the call that an entry names is done at the entry's place.
    fn is_named(&self, file: usize, place: usize, entry: &EntryLine) -> bool
        requires holds { AreHolds self.now.script.now self.now.holds.now }
        ensures { result ≡ is_named self.now.script.now self.now.t.now file place entry.now }
    {
        let guest = entry.guest as usize;
        is_done_at(
            guest_calls(self.script, guest),
            guest_holds(self.script, self.holds, guest),
            guest_lines(self.t, guest),
            file,
            entry.call as usize,
            place,
        )
    }

    // Whether a call that is done has the entry at its place.
    #[tactic(auto, using(crate::proofs::Singles::has_entry_is))]
    fn has_entry(&self, guest: usize, call: usize, line: &Line) -> bool
        requires holds { AreHolds self.now.script.now self.now.holds.now }
        ensures { result ≡ has_entry_at self.now.script.now self.now.t.now guest call line.now }
    {
        let calls = guest_calls(self.script, guest);
        let Some(asked) = pick(calls, call) else {
            return true;
        };
        let Some(place) = place_of(line) else {
            return true;
        };
        match target_of(calls, guest_holds(self.script, self.holds, guest), asked) {
            Some(to) => is_entry_of(self.t, to.file, place, guest, call),
            None => false,
        }
    }
}
