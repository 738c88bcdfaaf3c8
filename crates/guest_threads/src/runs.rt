ghost use Rattle.std.specs.Prelude.{◌≡◌, ◌≢◌, ◌<◌, ◌≤◌, length, take, All, IfOk};
ghost use Rattle.plain_file.specs.File.{max_file};
ghost use Rattle.range_share.specs.Steps.{ranges_of};
ghost use Rattle.guest_threads.specs.Jobs.{team, team_of, IsTeam, AreCallsOf, MaySweep, AreBack, AreTallied, history_seen, log_seen, leasers_for};
ghost use Rattle.guest_threads.specs.Ran.{HasRun, AreFilesTold, AreOpened};

use crate::jobs::members;
use crate::teams::run_team;
use crate::tellings::{FileTold, tell_files};
use daemon_core::Daemon;
use dax_script::Call;
use file_share::{FilePass, FileTable};
use guest_run::Gate;
use guest_wire::FileRef;
use plain_file::{First, List, Memory};
use range_share::{RangePass, RangeTable};
use std::alloc::Global;
use std::sync::Wait;
use std::thread::Threads;
use transcript_text::GuestPart;

/// The tables of a run, and their first passes.
#[derive(Drop)]
pub struct Tables {
    /// The files that the guests share.
    pub files: FileTable,
    /// The first pass of the files.
    pub file_pass: FilePass,
    /// The ranges that the guests share.
    pub ranges: RangeTable,
    /// The first pass of the ranges.
    pub range_pass: RangePass,
}

/// What is told when all guests have made their calls.
#[derive(Drop)]
pub struct Ran {
    /// Of each file, whose its entries are, and its placement log.
    pub files: List<FileTold>,
    /// The guests' lines.
    pub parts: List<GuestPart>,
}

// How many guests may lease files: without ranges none does.
fn leasers_for(ranges: u32, guests: u32) -> u32
    ensures { result ≡ leasers_for ranges guests }
{
    if ranges == 0 { 0 } else { guests }
}

/// Opens both tables for a run of guests, at most 16, with a background of so many turns beside them: of files with
/// these first contents, at most 64, and of so many ranges, none or 2 to 256. `Memory` comes where an allocation was
/// refused.
pub fn open_tables(
    alloc: Global,
    firsts: &List<First>,
    ranges: u32,
    guests: &[List<Call>],
    background: u32,
) -> Result<Tables, Memory>
    requires few { length guests.now ≤ 16 }
    requires ranges { (ranges ≤ 256) × (ranges ≢ 1) }
    requires files { length firsts.now ≤ 64 }
    requires small { All (λ first. first.size ≤ max_file) firsts.now }
    ensures { IfOk result (AreOpened firsts.now ranges (length (team_of background guests.now))) }
{
    let count = members(guests, background);
    let leasers = leasers_for(ranges, count);
    let (files, file_pass) = FileTable::new(alloc, firsts, leasers)?;
    let width = firsts.len() as u32;
    let (window, range_pass) = RangeTable::new(alloc, ranges, width, count)?;
    Ok(Tables {
        files,
        file_pass,
        ranges: window,
        range_pass,
    })
}

// The first so many parts.
fn first_parts(parts: List<GuestPart>, count: usize) -> List<GuestPart>
    ensures { result ≡ take count parts }
{
    let mut parts = parts.into_vec();
    parts.truncate(count);
    List::from_vec(parts)
}

/// Runs guests, at most 16, side by side, each on a thread of its own, over tables that were opened for them and whose
/// first passes did nothing yet. `opened` has a reference to each file, which is open at the daemon; its session is
/// started, and its window has the ranges' pages.
///
/// Whatever the schedule, each guest's part is its run in the histories and placement logs that the first passes have
/// seen at the end: each call that is done stands in its file's history once, in the guest's
/// order, with the plain file's answer there; each access through the window names placements then live for that file
/// and chunk. The logs are sound, and each entry is that of a guest. What is told of each file is whose each entry of
/// that history is, and that log.
///
/// `background` is how many turns of the background are made beside the guests, on a thread of its own; with 0 there
/// is none. Each turn looks at all ranges, and frees one where few of them are free. It enters nothing into a file,
/// and has no part. Beside it a guest isn't alone, even where it is the only one.
///
/// The first passes keep what each guest's passes counted: as many rounds of all ranges, each pinned or moving, as
/// there are busy lines in its part, and as many refused bars on each file as leased lines. The background's, whose
/// number is that of the guests, counted at least as many sweeps of the ranges as it has turns.
///
/// The gate stands round each call, with the guests' numbers from 0 on. `Memory` comes where an allocation was
/// refused. After either answer every other pass is in, and the first ones have nothing in hand. It waits as the
/// guests' calls do.
pub fn run_guests<R: Threads + Wait + Sync, G: Gate + Sync>(
    rt: &R,
    alloc: Global,
    daemon: &Daemon,
    opened: &[FileRef],
    files: &FileTable,
    file_pass: &mut FilePass,
    ranges: &RangeTable,
    range_pass: &mut RangePass,
    guests: &[List<Call>],
    background: u32,
    gate: &G,
) -> Result<Ran, Memory>
    requires tables { (file_pass.old.table ≡ files.now) × (range_pass.old.table ≡ ranges.now) }
    requires team { IsTeam (team daemon.now opened.now file_pass.old range_pass.old (length (team_of background guests.now))) }
    requires calls { AreCallsOf (length file_pass.old.view.mine.firsts) (ranges_of range_pass.old.view) guests.now }
    requires few { length guests.now ≤ 16 }
    requires background { MaySweep background (ranges_of range_pass.old.view) }
    ensures back { AreBack (team daemon.now opened.now file_pass.old range_pass.old (length (team_of background guests.now))) file_pass.new range_pass.new }
    ensures ran { IfOk result (λ r. HasRun file_pass.old.view.mine.firsts (ranges_of range_pass.old.view) background guests.now (history_seen file_pass.new) (log_seen range_pass.new) r.parts) }
    ensures told { IfOk result (λ r. AreFilesTold (history_seen file_pass.new) (log_seen range_pass.new) (length file_pass.old.view.mine.firsts) r.files) }
    ensures tallied { IfOk result (λ r. AreTallied background guests.now file_pass.new range_pass.new r.parts) }
{
    let parts = run_team(
        rt, alloc, daemon, opened, files, file_pass, ranges, range_pass, guests, background, gate,
    )?;
    let told = tell_files(rt, alloc, files, file_pass, ranges, range_pass)?;
    Ok(Ran {
        files: told,
        parts: first_parts(parts, guests.len()),
    })
}
