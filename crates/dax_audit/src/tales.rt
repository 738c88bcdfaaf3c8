ghost use Rattle.std.specs.Prelude.{◌≡◌, ◌≤◌, ◌<◌, ◌+◌, ◌*◌, ◌-◌, ◌==◌, ℕ, true, min, length, drop, is_some, is_none, slice_get, unwrap_or, Some, IfSome};
ghost use Rattle.plain_file.specs.File.{max_file};
ghost use Rattle.page_map.specs.Logs.{is_writable};
ghost use Rattle.dax_script.specs.Asks.{hold_places, target, hold_in, held_of, op_of, op_from, calls_of};
ghost use Rattle.dax_audit.specs.Guests.{place_on, places_on, next_place, first_place};
ghost use Rattle.dax_audit.specs.Rules.{access_end, is_within, is_past, grants, pasts, lines_of, tells_at, line_at};
ghost use Rattle.dax_audit.specs.Tables.{AreHolds};
ghost use Rattle.dax_audit.specs.Tables.{end_of, deed_from, had_by, tells_by, end_in, given_in, StaysWithin, AreReplays, AreLooks, AreLives, held_line, granted_line};

use crate::answers::{is_given_up, is_live_in, seen_of, sizes_of};
use crate::looks::Look;
use crate::picks::pick;
use crate::replays::Replay;
use crate::rules::{guest_calls, guest_holds, guest_lines, place_of};
use crate::tests_of::CallTest;
use crate::verdicts::Grant;
use crate::ways::grant_in;
use dax_script::{CHUNK, Call, Held, Script, Target, target_of};
use page_map::Mode;
use plain_file::Through;
use range_tree::Lives;
use transcript_text::{Line, Numbered, Transcript};

// What a guest has of the hold that a call uses.
#[tactic(auto, unfolding(crate::specs::Tables::had_by))]
fn had_grant(
    given: bool,
    calls: &[Call],
    holds: &[usize],
    lines: &[Numbered],
    hold: Option<u32>,
) -> Option<Grant>
    requires { holds.now ≡ hold_places 0 calls.now }
    ensures { result ≡ had_by given calls.now lines.now hold }
{
    let Some(hold) = hold else {
        return None;
    };
    if given {
        return None;
    }
    grant_in(calls, holds, lines, hold)
}

// Where the access of a load or a store ends.
#[tactic(auto, unfolding(crate::specs::Rules::access_end, crate::specs::Tables::end_of, dax_script::specs::Asks::op_from))]
fn access_end(to: Option<Target>, call: &Call) -> Option<u64>
    requires { IfSome to (λ x. end_of (deed_from (op_from x.start call.now)) ≤ max_file) }
    ensures { result ≡ access_end to call.now }
{
    let Some(to) = to else {
        return None;
    };
    match call {
        Call::Load { off, len, .. } => Some(to.start + *off + *len as u64),
        Call::Store { off, bytes, .. } => Some(to.start + *off + bytes.len() as u64),
        _ => None,
    }
}

fn is_within(had: Option<Grant>, end: Option<u64>) -> bool
    ensures { result ≡ is_within had end }
{
    let Some(grant) = had else {
        return false;
    };
    match end {
        Some(end) => end <= grant.end,
        None => true,
    }
}

fn is_past(had: Option<Grant>, end: Option<u64>, z: u64) -> bool
    ensures { result ≡ is_past had end z }
{
    let Some(grant) = had else {
        return false;
    };
    match end {
        Some(end) => grant.end == z && z < end,
        None => false,
    }
}

#[tactic(auto, unfolding(crate::specs::Tables::tells_by))]
fn tells(
    ranges: u32,
    hold: Option<u32>,
    had: Option<Grant>,
    end: Option<u64>,
    granted: bool,
    line: &Line,
) -> bool
    ensures { result ≡ tells_by ranges hold had end granted line.now }
{
    match line {
        Line::Done { .. } => hold.is_none() || is_within(had, end),
        Line::Held { .. } => granted,
        Line::Released => had.is_some(),
        Line::Busy { letters } => ranges > 0 && letters.len() as u64 == ranges as u64,
        Line::Leased { count } => *count > 0,
        Line::NoHold => had.is_none(),
        Line::Past { end: z } => is_past(had, end, *z),
    }
}

// The place that a call has in a file.
fn place_on(calls: &[Call], holds: &[usize], file: u32, call: &Call, line: &Numbered) -> Option<u64>
    requires { holds.now ≡ hold_places 0 calls.now }
    ensures { result ≡ place_on calls.now file (call.now, line.now) }
{
    let Some(to) = target_of(calls, holds, call) else {
        return None;
    };
    if to.file != file {
        return None;
    }
    place_of(&line.line)
}

// The guest's next place in a file behind a call of it.
fn next_place(
    calls: &[Call],
    holds: &[usize],
    lines: &[Numbered],
    file: u32,
    call: usize,
) -> Option<u64>
    requires holds { holds.now ≡ hold_places 0 calls.now }
    requires call { call < length calls.now }
    ensures { result ≡ next_place calls.now lines.now file call }
{
    for at in call + 1..calls.len().min(lines.len()) {
        if let Some(place) = place_on(calls, holds, file, &calls[at], &lines[at]) {
            return Some(place);
        }
    }
    None
}

// Whether the lesser of a chunk's end and one of these sizes is this one.
#[tactic(auto, unfolding(crate::specs::Tables::end_in))]
fn is_end_among(sizes: &[u64], chunk: u32, low: u128, high: usize, z: u64) -> bool
    requires { high < length sizes.now }
    ensures { result ≡ end_in sizes.now chunk z low high }
{
    if low > high as u128 {
        return false;
    }
    let end = (chunk as u64 + 1) * CHUNK;
    sizes[low as usize..=high].iter().any(|x| end.min(*x) == z)
}

#[tactic(auto, unfolding(page_map::specs::Logs::is_writable))]
fn is_written(mode: Mode) -> bool
    ensures { result ≡ is_writable mode }
{
    matches!(mode, Mode::W)
}

/// Rule 8: the answers that aren't an entry's.
#[derive(Drop)]
pub struct Tales<'a> {
    pub script: &'a Script,
    pub t: &'a Transcript,
    pub holds: &'a [Vec<usize>],
    pub looks: &'a [Look],
    pub replays: &'a [Replay],
    pub lives: &'a [Lives<'a>],
}

// The last place that a hold may have seen.
fn last_place(next: Option<u64>, last: usize) -> usize
    ensures { result ≡ min (unwrap_or next last) last }
{
    match next {
        Some(place) => {
            if place < last as u64 {
                place as usize
            } else {
                last
            }
        }
        None => last,
    }
}

impl<'a> Tales<'a> {
    // Whether a hold is granted so.
    fn is_granted(
        &self,
        guest: usize,
        call: usize,
        asked: &Call,
        end: u64,
        through: &Through,
    ) -> bool
        requires holds { AreHolds self.now.script.now self.now.holds.now }
        requires replays { AreReplays self.now.script.now self.now.t.now self.now.replays.now }
        requires looks { AreLooks self.now.script.now self.now.t.now self.now.looks.now }
        requires lives { AreLives self.now.t.now self.now.lives.now }
        requires asked { slice_get (calls_of self.now.script.now guest) call ≡ Some asked.now }
        requires line { line_at self.now.t.now guest call ≡ Some (held_line end through.now) }
        ensures { result ≡ grants (pasts self.now.script.now self.now.t.now) (calls_of self.now.script.now guest) (lines_of self.now.t.now guest) call (held_of asked.now) end through.now }
    {
        let Some(held) = asked.held() else {
            return false;
        };
        let file = held.file as usize;
        if !is_live_in(
            is_written(held.mode),
            self.lives,
            file,
            held.chunk as u64,
            through,
        ) {
            return false;
        }
        let sizes = sizes_of(self.replays, file);
        let calls = guest_calls(self.script, guest);
        let next = next_place(
            calls,
            guest_holds(self.script, self.holds, guest),
            guest_lines(self.t, guest),
            held.file,
            call,
        );
        let high = last_place(next, sizes.len() - 1);
        is_end_among(
            sizes,
            held.chunk,
            seen_of(self.looks, guest, call),
            high,
            end,
        )
    }
}

impl<'a> CallTest for Tales<'a> {
    ghost use Rattle.dax_audit.specs.Rules.{tells_at};
    ghost use Rattle.dax_audit.specs.Tables.{AreHolds};
    ghost use Rattle.dax_audit.specs.Tables.{AreReplays, AreLooks, AreLives, StaysWithin};

    ghost of = { λ j. j.t.now };

    ghost ready = { λ j. AreHolds j.script.now j.holds.now × AreReplays j.script.now j.t.now j.replays.now × AreLooks j.script.now j.t.now j.looks.now × StaysWithin j.script.now × AreLives j.t.now j.lives.now };

    ghost asks = { λ j. tells_at j.script.now j.t.now };

    fn meets(&self, guest: usize, call: usize, line: &Line) -> bool {
        let calls = guest_calls(self.script, guest);
        let Some(asked) = pick(calls, call) else {
            return true;
        };
        let holds = guest_holds(self.script, self.holds, guest);
        let hold = asked.hold();
        let given = is_given_up(self.looks, guest, call);
        let had = had_grant(given, calls, holds, guest_lines(self.t, guest), hold);
        let end = access_end(target_of(calls, holds, asked), asked);
        let granted = self.is_granted_line(guest, call, asked, line);
        tells(self.t.ranges, hold, had, end, granted, line)
    }
}

impl<'a> Tales<'a> {
    #[tactic(auto, unfolding(crate::specs::Tables::granted_line))]
    fn is_granted_line(&self, guest: usize, call: usize, asked: &Call, line: &Line) -> bool
        requires holds { AreHolds self.now.script.now self.now.holds.now }
        requires replays { AreReplays self.now.script.now self.now.t.now self.now.replays.now }
        requires looks { AreLooks self.now.script.now self.now.t.now self.now.looks.now }
        requires lives { AreLives self.now.t.now self.now.lives.now }
        requires asked { slice_get (calls_of self.now.script.now guest) call ≡ Some asked.now }
        requires line { line_at self.now.t.now guest call ≡ Some line.now }
        ensures { result ≡ granted_line (pasts self.now.script.now self.now.t.now) (calls_of self.now.script.now guest) (lines_of self.now.t.now guest) call asked.now line.now }
    {
        match line {
            Line::Held { end, through } => self.is_granted(guest, call, asked, *end, through),
            _ => false,
        }
    }
}
