ghost use Rattle.std.specs.Prelude.{◌≡◌, true, ◌≤◌, ◌<◌, ◌+◌, ◌^◌, ℕ, length, map, slice_get, Some, IfOk, IfSome};
ghost use Rattle.std.specs.List.{position_from};
ghost use Rattle.plain_file.specs.File.{max_file};
ghost use Rattle.range_tree.specs.Logs.{unsound_at};
ghost use Rattle.dax_script.specs.Asks.{hold_places, calls_of};
ghost use Rattle.dax_script.specs.Fits.{fits};
ghost use Rattle.transcript_text.specs.declared.transcripts.FilePart.{FilePart};
ghost use Rattle.dax_audit.specs.Items.{items};
ghost use Rattle.dax_audit.specs.Rules.{breaks_files, breaks_guests, breaks_forms, breaks_entries, breaks_order, breaks_replies, breaks_ways, breaks_tales, breaks_logs};
ghost use Rattle.dax_audit.specs.Tables.{AreHolds};
ghost use Rattle.dax_audit.specs.Tables.{StaysWithin, AreReplays, AreLooks, AreLives, AreLooksTo, AreNamed, HaveEntries, IsSound, verdict_of};
ghost use Rattle.dax_audit.specs.Legal.{fault};

use crate::counts::count_lines;
use crate::line_rules::{Forms, Order, Replies};
use crate::looks::{Look, look_through};
use crate::part_rules::{Files, Guests, Logs, unsound_places};
use crate::replays::{Replay, carry_out};
use crate::rules::{Entries, guest_calls, guest_holds};
use crate::tales::Tales;
use crate::tests_of::{OnCalls, OnEntries};
use crate::verdicts::Verdict;
use crate::walks::first_broken;
use crate::ways::Ways;
use dax_script::{Script, hold_places};
use plain_file::Memory;
use range_tree::Lives;
use std::alloc::Global;
use transcript_text::Transcript;

fn all_holds(alloc: Global, script: &Script) -> Result<Vec<Vec<usize>>, Memory>
    ensures { IfOk result (λ v. AreHolds script.now v.items) }
{
    let mut holds = Vec::new(alloc);
    for calls in script.guests.as_slice() {
        holds.push(hold_places(alloc, calls.as_slice())?)?;
    }
    Ok(holds)
}

fn all_replays(
    alloc: Global,
    script: &Script,
    t: &Transcript,
    holds: &[Vec<usize>],
) -> Result<Vec<Replay>, Memory>
    requires holds { AreHolds script.now holds.now }
    requires within { StaysWithin script.now }
    requires small { (file : ℕ) (p : FilePart) → slice_get t.now.files file ≡ Some p → p.first.size ≤ max_file }
    ensures { IfOk result (λ v. AreReplays script.now t.now v.items) }
{
    let mut replays = Vec::new(alloc);
    for part in t.files.as_slice() {
        replays.push(carry_out(alloc, script, t, holds, part)?)?;
    }
    Ok(replays)
}

fn all_looks(
    alloc: Global,
    script: &Script,
    t: &Transcript,
    holds: &[Vec<usize>],
) -> Result<Vec<Look>, Memory>
    requires holds { AreHolds script.now holds.now }
    requires sound { IsSound script.now }
    ensures { IfOk result (λ v. AreLooks script.now t.now v.items) }
{
    let mut looks = Vec::new(alloc);
    let mut guest = 0usize;
    for part in t.guests.as_slice() {
        let look = look_through(
            alloc,
            guest_calls(script, guest),
            guest_holds(script, holds, guest),
            part.lines.as_slice(),
            script.files.len(),
        )?;
        looks.push(look)?;
        guest += 1;
    }
    Ok(looks)
}

fn all_lives(alloc: Global, t: &Transcript) -> Result<Vec<Lives<'_>>, Memory>
    ensures { IfOk result (λ v. AreLives t.now v.items) }
{
    let mut lives = Vec::new(alloc);
    for part in t.files.as_slice() {
        lives.push(Lives::new(alloc, part.log.as_slice())?)?;
    }
    Ok(lives)
}

fn rule_1(script: &Script, t: &Transcript) -> Option<u64>
    requires { length (items t.now) + 1 < 2 ^ 64 }
    ensures { result ≡ position_from (breaks_files script.now t.now) 1 (items t.now) }
{
    first_broken(t, &Files { script, t })
}

fn rule_2(script: &Script, t: &Transcript) -> Option<u64>
    requires { length (items t.now) + 1 < 2 ^ 64 }
    ensures { result ≡ position_from (breaks_guests script.now t.now) 1 (items t.now) }
{
    first_broken(t, &Guests { script, t })
}

fn rule_3(script: &Script, t: &Transcript) -> Option<u64>
    requires { length (items t.now) + 1 < 2 ^ 64 }
    ensures { result ≡ position_from (breaks_forms script.now t.now) 1 (items t.now) }
{
    first_broken(
        t,
        &OnCalls {
            test: &Forms { script, t },
        },
    )
}

fn rule_4(script: &Script, t: &Transcript, holds: &[Vec<usize>]) -> Option<u64>
    requires few { length (items t.now) + 1 < 2 ^ 64 }
    requires holds { AreHolds script.now holds.now }
    ensures { result ≡ position_from (breaks_entries script.now t.now) 1 (items t.now) }
{
    first_broken(t, &Entries { script, t, holds })
}

fn rule_5(script: &Script, t: &Transcript, holds: &[Vec<usize>], looks: &[Look]) -> Option<u64>
    requires few { length (items t.now) + 1 < 2 ^ 64 }
    requires holds { AreHolds script.now holds.now }
    requires looks { AreLooks script.now t.now looks.now }
    ensures { result ≡ position_from (breaks_order script.now t.now) 1 (items t.now) }
{
    first_broken(
        t,
        &OnCalls {
            test: &Order {
                script,
                t,
                holds,
                looks,
            },
        },
    )
}

fn rule_6(script: &Script, t: &Transcript, holds: &[Vec<usize>], replays: &[Replay]) -> Option<u64>
    requires few { length (items t.now) + 1 < 2 ^ 64 }
    requires holds { AreHolds script.now holds.now }
    requires replays { AreReplays script.now t.now replays.now }
    requires entries { HaveEntries script.now t.now }
    ensures { result ≡ position_from (breaks_replies script.now t.now) 1 (items t.now) }
{
    first_broken(
        t,
        &OnCalls {
            test: &Replies {
                script,
                t,
                holds,
                replays,
            },
        },
    )
}

fn rule_7(
    script: &Script,
    t: &Transcript,
    holds: &[Vec<usize>],
    looks: &[Look],
    replays: &[Replay],
    lives: &[Lives<'_>],
) -> Option<u64>
    requires few { length (items t.now) + 1 < 2 ^ 64 }
    requires holds { AreHolds script.now holds.now }
    requires replays { AreReplays script.now t.now replays.now }
    requires looks { AreLooks script.now t.now looks.now }
    requires named { AreNamed script.now t.now }
    requires lives { AreLives t.now lives.now }
    requires within { StaysWithin script.now }
    ensures { result ≡ position_from (breaks_ways script.now t.now) 1 (items t.now) }
{
    first_broken(
        t,
        &OnEntries {
            test: &Ways {
                script,
                t,
                holds,
                looks,
                replays,
                lives,
            },
        },
    )
}

fn rule_8(
    script: &Script,
    t: &Transcript,
    holds: &[Vec<usize>],
    looks: &[Look],
    replays: &[Replay],
    lives: &[Lives<'_>],
) -> Option<u64>
    requires few { length (items t.now) + 1 < 2 ^ 64 }
    requires holds { AreHolds script.now holds.now }
    requires replays { AreReplays script.now t.now replays.now }
    requires looks { AreLooks script.now t.now looks.now }
    requires lives { AreLives t.now lives.now }
    requires within { StaysWithin script.now }
    ensures { result ≡ position_from (breaks_tales script.now t.now) 1 (items t.now) }
{
    first_broken(
        t,
        &OnCalls {
            test: &Tales {
                script,
                t,
                holds,
                looks,
                replays,
                lives,
            },
        },
    )
}

fn rule_9(script: &Script, t: &Transcript, unsound: &[Option<u64>]) -> Option<u64>
    requires few { length (items t.now) + 1 < 2 ^ 64 }
    requires unsound { unsound.now ≡ map (λ part. unsound_at t.now.ranges part.log) t.now.files }
    ensures { result ≡ position_from (breaks_logs script.now t.now) 1 (items t.now) }
{
    first_broken(t, &Logs { script, t, unsound })
}

/// Whether a transcript is legal for a script that fits; else its first fault. `Memory` comes where an
/// allocation was refused, and where the transcript has 2^64 - 1 lines or more.
pub fn audit(alloc: Global, script: &Script, t: &Transcript) -> Result<Verdict, Memory>
    requires fits { fits script.now ≡ true }
    ensures { IfOk result (λ v. v ≡ verdict_of (fault script.now t.now)) }
{
    if count_lines(t) == u64::MAX {
        return Err(Memory);
    }
    find_fault(alloc, script, t)
}

#[tactic(auto, using(crate::proofs::Exactly::are_named, crate::proofs::Exactly::have_entries), unfolding(crate::specs::Legal::fault, crate::specs::Legal::the_rules, crate::specs::Legal::first_fault))]
fn find_fault(alloc: Global, script: &Script, t: &Transcript) -> Result<Verdict, Memory>
    requires sound { IsSound script.now }
    requires few { length (items t.now) + 1 < 2 ^ 64 }
    ensures { IfOk result (λ v. v ≡ verdict_of (fault script.now t.now)) }
{
    if let Some(line) = rule_1(script, t) {
        return Ok(Verdict::Fault { rule: 1, line });
    }
    if let Some(line) = rule_2(script, t) {
        return Ok(Verdict::Fault { rule: 2, line });
    }
    if let Some(line) = rule_3(script, t) {
        return Ok(Verdict::Fault { rule: 3, line });
    }
    let holds = all_holds(alloc, script)?;
    if let Some(line) = rule_4(script, t, &holds) {
        return Ok(Verdict::Fault { rule: 4, line });
    }
    let looks = all_looks(alloc, script, t, &holds)?;
    if let Some(line) = rule_5(script, t, &holds, &looks) {
        return Ok(Verdict::Fault { rule: 5, line });
    }
    let replays = all_replays(alloc, script, t, &holds)?;
    if let Some(line) = rule_6(script, t, &holds, &replays) {
        return Ok(Verdict::Fault { rule: 6, line });
    }
    let lives = all_lives(alloc, t)?;
    if let Some(line) = rule_7(script, t, &holds, &looks, &replays, &lives) {
        return Ok(Verdict::Fault { rule: 7, line });
    }
    if let Some(line) = rule_8(script, t, &holds, &looks, &replays, &lives) {
        return Ok(Verdict::Fault { rule: 8, line });
    }
    let unsound = unsound_places(alloc, t)?;
    if let Some(line) = rule_9(script, t, &unsound) {
        return Ok(Verdict::Fault { rule: 9, line });
    }
    Ok(Verdict::Legal)
}
