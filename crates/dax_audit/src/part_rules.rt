ghost use Rattle.std.specs.Prelude.{◌≡◌, ◌-◌, ℕ, true, length, map, slice_get, Some, IfOk};
ghost use Rattle.range_tree.specs.Logs.{unsound_at};
ghost use Rattle.dax_script.specs.Asks.{calls_of, call_at};
ghost use Rattle.dax_audit.specs.Rules.{is_line_of_file, is_file_line, lacks_lines, lines_of, is_place};

use crate::picks::pick;
use crate::rules::{guest_calls, guest_lines};
use crate::walks::{Judge, Row};
use dax_script::{FileLine, Script};
use plain_file::Memory;
use range_tree::first_unsound;
use std::alloc::Global;
use transcript_text::{FilePart, Transcript};

fn is_file_line(line: &FileLine, part: &FilePart) -> bool
    ensures { result ≡ is_file_line line.now part.now }
{
    part.name == line.name
        && part.first.size == line.first.size
        && part.first.fill == line.first.fill
}

/// Rule 1: the ranges and the files are the script's.
#[derive(Drop)]
pub struct Files<'a> {
    pub script: &'a Script,
    pub t: &'a Transcript,
}

impl<'a> Judge for Files<'a> {
    ghost use Rattle.dax_audit.specs.Rules.{breaks_files};
    ghost use Rattle.std.specs.Prelude.{⊤};

    ghost of = { λ j. j.t.now };

    ghost ready = { λ j. ⊤ };

    ghost breaks = { λ j. breaks_files j.script.now j.t.now };

    #[inline(always)]
    #[tactic(auto, unfolding(crate::specs::Rules::breaks_files))]
    fn is_broken(&self, row: Row<'_>) -> bool {
        match row {
            Row::Ranges => self.t.ranges != self.script.ranges,
            Row::File { file, part } => match self.script.files.get(file) {
                Some(line) => !is_file_line(line, part),
                None => true,
            },
            Row::Guest { .. } | Row::End => self.t.files.len() < self.script.files.len(),
            _ => false,
        }
    }
}

fn lacks_lines(script: &Script, t: &Transcript, guest: usize) -> bool
    ensures { result ≡ lacks_lines script.now t.now guest }
{
    if guest == 0 {
        return false;
    }
    guest_lines(t, guest - 1).len() < guest_calls(script, guest - 1).len()
}

/// Rule 2: the guests are the script's, each with one line a call, in order.
#[derive(Drop)]
pub struct Guests<'a> {
    pub script: &'a Script,
    pub t: &'a Transcript,
}

impl<'a> Judge for Guests<'a> {
    ghost use Rattle.dax_audit.specs.Rules.{breaks_guests};
    ghost use Rattle.std.specs.Prelude.{⊤};

    ghost of = { λ j. j.t.now };

    ghost ready = { λ j. ⊤ };

    ghost breaks = { λ j. breaks_guests j.script.now j.t.now };

    #[inline(always)]
    #[tactic(auto, unfolding(crate::specs::Rules::breaks_guests))]
    fn is_broken(&self, row: Row<'_>) -> bool {
        match row {
            Row::Guest { guest, part } => {
                let wrong = part.guest as usize != guest;
                let unknown = guest >= self.script.guests.len();
                wrong || unknown || lacks_lines(self.script, self.t, guest)
            }
            Row::Call { guest, call, line } => {
                line.call as usize != call || pick(guest_calls(self.script, guest), call).is_none()
            }
            Row::End => {
                let few = self.t.guests.len() < self.script.guests.len();
                few || lacks_lines(self.script, self.t, self.t.guests.len())
            }
            _ => false,
        }
    }
}

/// Where each file's log is unsound first.
pub fn unsound_places(alloc: Global, t: &Transcript) -> Result<Vec<Option<u64>>, Memory>
    ensures { IfOk result (λ v. v.items ≡ map (λ part. unsound_at t.now.ranges part.log) t.now.files) }
{
    let mut places = Vec::new(alloc);
    for part in t.files.as_slice() {
        places.push(first_unsound(alloc, t.ranges, part.log.as_slice())?)?;
    }
    Ok(places)
}

/// Rule 9: each log is sound.
#[derive(Drop)]
pub struct Logs<'a> {
    pub script: &'a Script,
    pub t: &'a Transcript,
    pub unsound: &'a [Option<u64>],
}

impl<'a> Judge for Logs<'a> {
    ghost use Rattle.std.specs.Prelude.{◌≡◌, map};
    ghost use Rattle.range_tree.specs.Logs.{unsound_at};
    ghost use Rattle.dax_audit.specs.Rules.{breaks_logs};

    ghost of = { λ j. j.t.now };

    ghost ready = { λ j. j.unsound.now ≡ map (λ part. unsound_at j.t.now.ranges part.log) j.t.now.files };

    ghost breaks = { λ j. breaks_logs j.script.now j.t.now };

    #[inline(always)]
    #[tactic(auto, using(crate::proofs::Singles::unsound_there, crate::proofs::Singles::unsound_nowhere), unfolding(crate::specs::Rules::breaks_logs))]
    fn is_broken(&self, row: Row<'_>) -> bool {
        match row {
            Row::Log { file, place, .. } => match pick(self.unsound, file) {
                Some(first) => is_first(*first, place),
                None => false,
            },
            _ => false,
        }
    }
}

fn is_first(first: Option<u64>, place: usize) -> bool
    ensures { result ≡ is_place place first }
{
    match first {
        Some(at) => at == place as u64,
        None => false,
    }
}
