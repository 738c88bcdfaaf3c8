ghost use Rattle.std.specs.Prelude.{◌≡◌, ◌+◌, ◌-◌, ◌^◌, ◌≤◌, ◌<◌, ℕ, List as Calls, [], length, min, slice_get, Some};
ghost use Rattle.range_tree.specs.Ranges.{range_count};
ghost use Rattle.dax_script.specs.declared.scripts.Call.{Call};
ghost use Rattle.transcript_text.specs.declared.transcripts.Numbered.{Numbered};
ghost use Rattle.guest_run.specs.Working.{IsIdle};
ghost use Rattle.guest_threads.specs.Jobs.{MayTakePart, HasWorked, HasTallied, team_of, stand_of};

use dax_host::HostWire;
use dax_script::Call;
use file_share::SharedFiles;
use guest_io::Guest;
use guest_run::{Gate, background, worker};
use plain_file::List;
use range_share::SeatMap;
use std::alloc::Global;
use std::sync::Wait;
use transcript_text::Numbered;

/// One guest's work: the guest with its passes, and its lines. Without lines it was not at work yet, or an
/// allocation was refused in it.
#[derive(Drop)]
pub struct Job<'a> {
    /// The guest, with a wire and boards of its own.
    pub guest: Guest<HostWire<'a>, SharedFiles<'a>, SeatMap<'a>>,
    /// What its calls told.
    pub lines: Option<List<Numbered>>,
}

// How many members a team has: its guests, and one more where there is a background.
pub(crate) fn members(guests: &[List<Call>], background: u32) -> u32
    requires { length guests.now ≤ 16 }
    ensures { result ≡ length (team_of background guests.now) }
{
    let count = guests.len() as u32;
    if background == 0 { count } else { count + 1 }
}

// So many turns of the background, by a member that has no calls to tell of.
fn sweep<'a, R: Wait>(rt: &R, alloc: Global, turns: u32, job: &mut Job<'a>)
    requires idle { IsIdle (stand_of job.old) job.old.guest.dax.refs job.old.guest.holds }
    requires ranges { 0 < range_count (stand_of job.old).map }
    ensures worked { (members : Calls (Calls Call)) (n : ℕ) → slice_get members n ≡ Some [] → HasWorked members n job.old job.new }
    ensures swept { (ls : Calls Numbered) → job.new.lines ≡ Some ls → min ((stand_of job.old).map.ranges.sweeps + turns) (2 ^ 64 - 1) ≤ (stand_of job.new).map.ranges.sweeps }
{
    job.lines = match background(rt, alloc, &mut job.guest, turns) {
        Ok(()) => Some(List::new(alloc)),
        Err(_) => None,
    };
}

// The work of the member of this number: the guest's calls, one after another, each through the gate, or the turns of the
// background.
pub(crate) fn work<'a, R: Wait, G: Gate>(
    rt: &R,
    alloc: Global,
    guests: &[List<Call>],
    background: u32,
    number: usize,
    job: &mut Job<'a>,
    gate: &G,
)
    requires { MayTakePart background guests.now number job.old }
    ensures worked { HasWorked (team_of background guests.now) number job.old job.new }
    ensures tallied { HasTallied background guests.now number job.old job.new }
{
    if number >= guests.len() {
        sweep(rt, alloc, background, job);
        return;
    }
    let calls = guests[number].as_slice();
    job.lines = worker(rt, alloc, &mut job.guest, calls, number as u32, gate).ok();
}
