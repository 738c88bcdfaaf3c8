ghost use Rattle.std.specs.Prelude.{◌≡◌, ℕ, List as Items, ◌<◌, ◌≤◌, true, map, length, IfOk};
ghost use Rattle.std.specs.List.{AllByRecursion};
ghost use Rattle.plain_file.specs.File.{max_file};
ghost use Rattle.plain_file.specs.declared.operations.Entry.{Entry};
ghost use Rattle.page_map.specs.declared.ranges.LogEntry.{LogEntry};
ghost use Rattle.range_share.specs.Steps.{ranges_of};
ghost use Rattle.dax_script.specs.ScriptWords.{is_script_name};
ghost use Rattle.transcript_text.specs.TranscriptReading.{IsPrintable, IsPrintableEntry, IsPrintableFile, IsPrintableLog, IsPrintableWay};
ghost use Rattle.dax_audit.specs.Legal.{IsLegal};
ghost use Rattle.guest_run.specs.Runs.{parts_from};
ghost use Rattle.guest_threads.specs.Jobs.{team, team_of, IsTeam, AreBack, AreTallied, history_seen, log_seen};
ghost use Rattle.guest_threads.specs.Ran.{AreFilesTold};
ghost use Rattle.daxrun.specs.Carried.{AreFiles, IsPlayable};
ghost use Rattle.daxrun.specs.Plays.{line_of, told_part};
ghost use Rattle.daxrun.specs.Run.{IsFairAlone, AreLinesDone};
ghost use Rattle.daxrun.specs.Session.{firsts_of};

use daemon_core::Daemon;
use dax_script::{FileLine, Script};
use file_share::{EntryMark, FilePass, FileTable};
use guest_run::Gate;
use guest_threads::{FileTold, Ran, run_guests};
use guest_wire::FileRef;
use page_map::LogEntry;
use plain_file::{First, List, Memory, Way};
use range_share::{RangePass, RangeTable};
use std::alloc::Global;
use std::marker::Model;
use std::sync::Wait;
use std::thread::Threads;
use transcript_text::{EntryLine, FilePart, Transcript};

/// A script that was played, with the transcript of its run. Only [`play`] makes one.
#[derive(Drop)]
pub struct Played {
    script: Script,
    transcript: Transcript,
}

impl Model for Played {
    ghost use Rattle.daxrun.specs.Plays.{Play};

    ghost Value = { Play };

    ghost view = { λ p. record { script = p.script; transcript = p.transcript } };
}

impl Played {
    /// The script.
    pub fn script(&self) -> &Script
        ensures { result.now ≡ self.now.script }
    {
        &self.script
    }

    /// The transcript of its run.
    pub fn transcript(&self) -> &Transcript
        ensures { result.now ≡ self.now.transcript }
    {
        &self.transcript
    }
}

/// Plays a script: its guests make their calls side by side, each on a thread of its own, and the gate stands round
/// each call; the background makes its turns beside them.
///
/// The tables were opened for the script's files, ranges, guests and background, and their first passes did nothing
/// yet. The files are open at the daemon, whose session is started. The transcript has the histories and the placement
/// logs that the first passes have seen at the end, and is legal for the script. For each guest
/// the first passes keep as many rounds of ranges, each pinned or moving, as it has busy lines, and as many refused
/// bars on each file as leased lines; and for the background as many sweeps as it has turns, or more.
///
/// `Memory` comes where an allocation was refused; some of the calls were made then. After either answer the first
/// passes have nothing in hand, and every other is in. It waits as the guests' calls do.
pub fn play<R: Threads + Wait + Sync, G: Gate + Sync>(
    rt: &R,
    alloc: Global,
    script: Script,
    daemon: &Daemon,
    opened: &[FileRef],
    files: &FileTable,
    file_pass: &mut FilePass,
    ranges: &RangeTable,
    range_pass: &mut RangePass,
    gate: &G,
) -> Result<Played, Memory>
    requires playable { IsPlayable script }
    requires tables { (file_pass.old.table ≡ files.now) × (range_pass.old.table ≡ ranges.now) }
    requires team { IsTeam (team daemon.now opened.now file_pass.old range_pass.old (length (team_of script.background script.guests))) }
    requires firsts { file_pass.old.view.mine.firsts ≡ firsts_of script.files }
    requires ranges { ranges_of range_pass.old.view ≡ script.ranges }
    ensures back { AreBack (team daemon.now opened.now file_pass.old range_pass.old (length (team_of script.background script.guests))) file_pass.new range_pass.new }
    ensures script { IfOk result (λ p. p.script ≡ script) }
    ensures files { IfOk result (λ p. p.transcript.files ≡ parts_from (history_seen file_pass.new) (log_seen range_pass.new) 0 script.files) }
    ensures legal { IfOk result (λ p. IsLegal script p.transcript) }
    ensures fair { IfOk result (λ p. IsFairAlone script p.transcript) }
    ensures done { IfOk result (λ p. AreLinesDone script p.transcript) }
    ensures tallied { IfOk result (λ p. AreTallied script.background script.guests file_pass.new range_pass.new p.transcript.guests) }
    ensures printable { IfOk result (λ p. IsPrintable p.transcript) }
{
    let lines = script.files.as_slice();
    let guests = script.guests.as_slice();
    let background = script.background;
    let ran = run_guests(
        rt, alloc, daemon, opened, files, file_pass, ranges, range_pass, guests, background, gate,
    )?;
    let Ran {
        files: told,
        parts: guests,
    } = ran;
    let parts = file_parts(alloc, lines, told)?;
    let transcript = Transcript {
        version: 1,
        ranges: script.ranges,
        files: parts,
        guests,
    };
    Ok(Played { script, transcript })
}

// What is told of the script's files: each with its history and its placement log.
fn file_parts(
    alloc: Global,
    lines: &[FileLine],
    told: List<FileTold>,
) -> Result<List<FilePart>, Memory>
    requires files { AreFiles lines.now }
    requires many { length told ≡ length lines.now }
    ensures value { IfOk result (λ parts. (h : ℕ → Items Entry) (logs : ℕ → Items LogEntry) → AreFilesTold h logs (length lines.now) told → parts ≡ parts_from h logs 0 lines.now) }
    ensures printable { IfOk result (AllByRecursion IsPrintableFile) }
{
    let mut parts = List::new(alloc);
    let mut number = 0;
    for one in told.into_vec() {
        let part = file_part(alloc, &lines[number], one)?;
        parts.push(part)?;
        number += 1;
    }
    Ok(parts)
}

fn file_part(alloc: Global, line: &FileLine, told: FileTold) -> Result<FilePart, Memory>
    requires name { is_script_name line.now.name ≡ true }
    requires size { line.now.first.size ≤ max_file }
    ensures value { IfOk result (λ part. part ≡ told_part line.now told) }
    ensures printable { IfOk result IsPrintableFile }
{
    let FileTold { marks, log } = told;
    sound_logs(log.as_slice());
    let entries = entry_lines(alloc, marks.as_slice())?;
    let name = line.name.clone()?;
    let first = line.first;
    sound_first(first);
    Ok(FilePart {
        name,
        first,
        entries,
        log,
    })
}

// What the entries of a history tell.
fn entry_lines(alloc: Global, marks: &[EntryMark]) -> Result<List<EntryLine>, Memory>
    ensures value { IfOk result (λ es. es ≡ map line_of marks.now) }
    ensures printable { IfOk result (AllByRecursion IsPrintableEntry) }
{
    let mut lines = List::from_vec(Vec::with_capacity(alloc, marks.len())?);
    for mark in marks {
        lines.push(entry_line(*mark))?;
    }
    Ok(lines)
}

fn entry_line(mark: EntryMark) -> EntryLine
    ensures value { result ≡ line_of mark }
    ensures printable { IsPrintableEntry result }
{
    let EntryMark { guest, call, way } = mark;
    sound(way);
    EntryLine { guest, call, way }
}

// Does nothing. That is how a proof knows that the numbers of all entries are within their fields.
fn sound_logs(log: &[LogEntry])
    ensures { AllByRecursion IsPrintableLog log.now }
{
    for entry in log {
        sound_log(*entry);
    }
}

// Does nothing, likewise.
#[tactic(auto, unfolding(transcript_text::specs::TranscriptReading::IsPrintableLog))]
fn sound_log(entry: LogEntry)
    ensures { IsPrintableLog entry }
{
    match entry {
        LogEntry::Place {
            chunk: _chunk,
            range: _range,
            ..
        } => {}
        LogEntry::Upgrade { range: _range } => {}
        LogEntry::Remove { range: _range } => {}
    }
}

// Does nothing, likewise.
#[tactic(auto, unfolding(transcript_text::specs::TranscriptReading::IsPrintableWay))]
fn sound(way: Way)
    ensures { IsPrintableWay way }
{
    match way {
        Way::Req => {}
        Way::ReqSaw(_size) => {}
        Way::Via(_first, None) => {}
        Way::Via(_first, Some(_second)) => {}
    }
}

// Does nothing, likewise.
fn sound_first(first: First)
    ensures { first.fill < 256 }
{}
