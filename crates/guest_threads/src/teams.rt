ghost use Rattle.std.specs.Prelude.{◌≡◌, ◌≤◌, ◌+◌, ◌∷◌, ◌++◌, [], ℕ, List, length, Some, true, IfOk, OnOk, OnErr};
ghost use Rattle.seats.specs.Views.{IsOut};
ghost use Rattle.range_share.specs.Steps.{ranges_of};
ghost use Rattle.dax_host.specs.InTurn.{shared_wire};
ghost use Rattle.dax_host.specs.Host.{host_wire};
ghost use Rattle.transcript_text.specs.declared.transcripts.Numbered.{Numbered};
ghost use Rattle.guest_threads.specs.Jobs.{Team, team, team_of, IsTeam, AreCallsOf, AreOut, MaySweep, MayTakePart, HasWorked, MayAllTakePart, HaveRun, HasTallied, HaveTallied, AreFirst, CanJoin, JoinsOne, CanJoinAll, HasJoined, AreTold, AreSeated, AreBack, Returned, AreTallied, files_out, ranges_out};

use crate::jobs::{Job, members, work};
use daemon_core::Daemon;
use dax_host::HostWire;
use dax_script::Call;
use file_share::{FilePass, FileTable, SharedFiles};
use guest_dax::Dax;
use guest_io::Guest;
use guest_run::Gate;
use guest_wire::{Driver, FileRef};
use plain_file::{List, Memory};
use range_share::{RangePass, RangeTable, SeatMap};
use std::alloc::Global;
use std::sync::Wait;
use std::thread;
use std::thread::Threads;
use transcript_text::{GuestPart, Numbered};

// What a guest has of its own besides its passes: a client, and its references to the open files.
#[derive(Drop)]
struct Client<'a> {
    driver: Driver<HostWire<'a>>,
    refs: List<FileRef>,
}

fn client_of<'a>(
    alloc: Global,
    daemon: &'a Daemon,
    opened: &[FileRef],
) -> Result<Client<'a>, Memory>
    ensures wire { IfOk result (λ c. host_wire c.driver.wire ≡ shared_wire daemon.now) }
    ensures refs { IfOk result (λ c. c.refs ≡ opened.now) }
{
    let driver = Driver::new(HostWire::new(alloc, daemon)?);
    let refs = List::from_vec(Vec::from_slice(alloc, opened)?);
    Ok(Client { driver, refs })
}

// The jobs of the guests, with passes that are split off the first ones of both tables. It says whether there was
// memory for all of them.
fn split_all<'a>(
    alloc: Global,
    daemon: &'a Daemon,
    opened: &[FileRef],
    files: &'a FileTable,
    file_pass: &mut FilePass,
    ranges: &'a RangeTable,
    range_pass: &mut RangePass,
    count: u32,
) -> Result<(Vec<Job<'a>>, bool), Memory>
    requires tables { (file_pass.old.table ≡ files.now) × (range_pass.old.table ≡ ranges.now) }
    requires team { IsTeam (team daemon.now opened.now file_pass.old range_pass.old count) }
    ensures jobs { IfOk result (λ v. AreOut (team daemon.now opened.now file_pass.old range_pass.old count) (length v.0.items) v.0.items) }
    ensures files { IfOk result (λ v. file_pass.new ≡ files_out file_pass.old (length v.0.items)) }
    ensures ranges { IfOk result (λ v. range_pass.new ≡ ranges_out range_pass.old (length v.0.items)) }
    ensures few { IfOk result (λ v. length v.0.items ≤ count) }
    ensures all { IfOk result (λ v. v.1 ≡ true → length v.0.items ≡ count) }
    ensures kept { OnErr result ((file_pass.new ≡ file_pass.old) × (range_pass.new ≡ range_pass.old)) }
{
    let mut jobs = Vec::with_capacity(alloc, count as usize)?;
    for number in 0..count {
        let Ok(client) = client_of(alloc, daemon, opened) else {
            return Ok((jobs, false));
        };
        let Client { driver, refs } = client;
        let guest_files = files.split(file_pass, number);
        let board = SharedFiles::new(files, guest_files);
        let guest_ranges = ranges.split(range_pass, number);
        let map = SeatMap::new(ranges, guest_ranges);
        let dax = Dax::new(driver, board, map, refs);
        let guest = Guest::new(dax);
        jobs.push(Job { guest, lines: None }).unwrap();
    }
    Ok((jobs, true))
}

// All members side by side, each on a thread of its own.
fn run_all<'a, R: Threads + Wait + Sync, G: Gate + Sync>(
    rt: &R,
    alloc: Global,
    guests: &[List<Call>],
    background: u32,
    jobs: &mut [Job<'a>],
    gate: &G,
)
    requires { MayAllTakePart background guests.now jobs.old }
    ensures ran { HaveRun (team_of background guests.now) jobs.old jobs.new }
    ensures tallied { HaveTallied background guests.now jobs.old jobs.new }
{
    let threads = jobs.len().max(1);
    thread::for_each_mut(
        rt,
        jobs,
        threads,
        &|number: usize, job: &mut Job|
            requires { MayTakePart background guests.now number job.old }
            ensures { HasWorked (team_of background guests.entry.now) number job.old job.new × HasTallied background guests.entry.now number job.old job.new }
        { work(rt, alloc, guests, background, number, job, gate) },
    );
}

// Adds what a guest told. It says whether there was memory, here and before.
fn add_part(
    parts: &mut List<GuestPart>,
    guest: u32,
    lines: Option<List<Numbered>>,
    all: bool,
) -> bool
    ensures { result ≡ true → (all ≡ true) × ((ls : List Numbered) × (lines ≡ Some ls) × (parts.new ≡ parts.old ++ record { guest = guest; lines = ls } ∷ [])) }
{
    match lines {
        Some(lines) => parts.push(GuestPart { guest, lines }).is_ok() && all,
        None => false,
    }
}

// A guest gives back what it has in hand, and then its passes. It answers the guest's lines.
fn join_one<'a>(
    files: &FileTable,
    file_pass: &mut FilePass,
    ranges: &RangeTable,
    range_pass: &mut RangePass,
    job: Job<'a>,
) -> Option<List<Numbered>>
    requires tables { (file_pass.old.table ≡ files.now) × (range_pass.old.table ≡ ranges.now) }
    requires first { AreFirst file_pass.old range_pass.old }
    requires job { CanJoin file_pass.old range_pass.old job.guest.dax.files.pass.view.guest job }
    requires out { IsOut file_pass.old.view job.guest.dax.files.pass.view.guest × IsOut range_pass.old.view job.guest.dax.files.pass.view.guest }
    ensures joined { JoinsOne file_pass.old range_pass.old job.entry job.entry.guest.dax.files.pass.view.guest file_pass.new range_pass.new }
    ensures lines { result ≡ job.entry.lines }
{
    let Job { guest, lines } = job;
    let (_client, board, map) = guest.finish().into_parts();
    let SharedFiles { table: _, pass } = board;
    pass.sound();
    files.join(file_pass, pass);
    let SeatMap { table: _, pass } = map;
    pass.sound();
    ranges.join(range_pass, pass);
    lines
}

// The passes of all jobs come back, whether their guests had memory or not.
fn join_all<'a>(
    alloc: Global,
    files: &FileTable,
    file_pass: &mut FilePass,
    ranges: &RangeTable,
    range_pass: &mut RangePass,
    jobs: Vec<Job<'a>>,
) -> Result<List<GuestPart>, Memory>
    requires tables { (file_pass.old.table ≡ files.now) × (range_pass.old.table ≡ ranges.now) }
    requires first { AreFirst file_pass.old range_pass.old }
    requires jobs { CanJoinAll file_pass.old range_pass.old jobs.items }
    ensures joined { HasJoined file_pass.old range_pass.old jobs.entry.items (length jobs.entry.items) file_pass.new range_pass.new }
    ensures parts { IfOk result (AreTold jobs.entry.items) }
{
    let mut parts = List::new(alloc);
    let mut all = true;
    let mut guest = 0;
    for job in jobs {
        let lines = join_one(files, file_pass, ranges, range_pass, job);
        all = add_part(&mut parts, guest, lines, all);
        guest += 1;
    }
    if all { Ok(parts) } else { Err(Memory) }
}

// The guests run, and their passes come back.
fn run_jobs<'a, R: Threads + Wait + Sync, G: Gate + Sync>(
    rt: &R,
    alloc: Global,
    files: &FileTable,
    file_pass: &mut FilePass,
    ranges: &RangeTable,
    range_pass: &mut RangePass,
    guests: &[List<Call>],
    background: u32,
    jobs: Vec<Job<'a>>,
    gate: &G,
) -> Result<List<GuestPart>, Memory>
    requires tables { (file_pass.old.table ≡ files.now) × (range_pass.old.table ≡ ranges.now) }
    requires jobs { (t : Team) × AreSeated t (team_of background guests.now) jobs.items file_pass.old range_pass.old }
    requires background { MaySweep background (ranges_of range_pass.old.view) }
    ensures back { (t : Team) → AreSeated t (team_of background guests.now) jobs.entry.items file_pass.old range_pass.old → AreBack t file_pass.new range_pass.new }
    ensures returned { IfOk result (λ parts. (t : Team) → AreSeated t (team_of background guests.now) jobs.entry.items file_pass.old range_pass.old → Returned t (team_of background guests.now) file_pass.new range_pass.new parts) }
    ensures tallied { IfOk result (λ parts. (t : Team) → AreSeated t (team_of background guests.now) jobs.entry.items file_pass.old range_pass.old → AreTallied background guests.now file_pass.new range_pass.new parts) }
{
    let mut jobs = jobs;
    run_all(rt, alloc, guests, background, jobs.as_mut_slice(), gate);
    join_all(alloc, files, file_pass, ranges, range_pass, jobs)
}

/// Runs the guests of a team over both tables, and a background of so many turns beside them: each gets a pass of each,
/// makes its calls on a thread of its own, and gives its passes back. The background makes none, and tells no lines.
///
/// `Memory` comes where an allocation was refused; some of the calls were made then, and every pass came back.
pub(crate) fn run_team<R: Threads + Wait + Sync, G: Gate + Sync>(
    rt: &R,
    alloc: Global,
    daemon: &Daemon,
    opened: &[FileRef],
    files: &FileTable,
    file_pass: &mut FilePass,
    ranges: &RangeTable,
    range_pass: &mut RangePass,
    guests: &[List<Call>],
    background: u32,
    gate: &G,
) -> Result<List<GuestPart>, Memory>
    requires tables { (file_pass.old.table ≡ files.now) × (range_pass.old.table ≡ ranges.now) }
    requires team { IsTeam (team daemon.now opened.now file_pass.old range_pass.old (length (team_of background guests.now))) }
    requires calls { AreCallsOf (length file_pass.old.view.mine.firsts) (ranges_of range_pass.old.view) (team_of background guests.now) }
    requires few { length guests.now ≤ 16 }
    requires background { MaySweep background (ranges_of range_pass.old.view) }
    ensures back { AreBack (team daemon.now opened.now file_pass.old range_pass.old (length (team_of background guests.now))) file_pass.new range_pass.new }
    ensures returned { IfOk result (Returned (team daemon.now opened.now file_pass.old range_pass.old (length (team_of background guests.now))) (team_of background guests.now) file_pass.new range_pass.new) }
    ensures tallied { IfOk result (AreTallied background guests.now file_pass.new range_pass.new) }
{
    let count = members(guests, background);
    let (jobs, all) = split_all(
        alloc, daemon, opened, files, file_pass, ranges, range_pass, count,
    )?;
    if !all {
        let _parts = join_all(alloc, files, file_pass, ranges, range_pass, jobs);
        return Err(Memory);
    }
    run_jobs(
        rt, alloc, files, file_pass, ranges, range_pass, guests, background, jobs, gate,
    )
}
