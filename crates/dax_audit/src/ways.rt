ghost use Rattle.std.specs.Prelude.{◌≡◌, ◌≤◌, ◌<◌, ◌+◌, ◌*◌, ℕ, true, List, length, Some, IfSome};
ghost use Rattle.plain_file.specs.File.{max_file};
ghost use Rattle.dax_script.specs.Asks.{hold_places, held_by, op_of, chunk_size, calls_of};
ghost use Rattle.dax_audit.specs.Guests.{grant_of, grant_in};
ghost use Rattle.dax_audit.specs.Rules.{is_req, hold_way, is_one_pair, pairs_of, lines_of};
ghost use Rattle.dax_audit.specs.Tables.{AreHolds};
ghost use Rattle.dax_audit.specs.Tables.{end_of, deed_from, windowed_by, log_in, sizes_in, seen_in};

use crate::answers::{covers, is_write_way, seen_of, sizes_of};
use crate::looks::Look;
use crate::picks::pick;
use crate::replays::Replay;
use crate::rules::{guest_calls, guest_holds, guest_lines};
use crate::tests_of::EntryTest;
use crate::verdicts::Grant;
use dax_script::{CHUNK, Call, Held, Script, held_by};
use plain_file::{Through, Way};
use range_tree::Lives;
use transcript_text::{EntryLine, Line, Numbered, Transcript};

/// What a granted hold has.
#[tactic(auto, unfolding(crate::specs::Guests::grant_of))]
fn grant_of(line: &Line) -> Option<Grant>
    ensures { result ≡ grant_of line.now }
{
    match line {
        Line::Held { end, through } => Some(Grant {
            end: *end,
            through: *through,
        }),
        _ => None,
    }
}

/// What a hold was granted.
pub fn grant_in(calls: &[Call], holds: &[usize], lines: &[Numbered], hold: u32) -> Option<Grant>
    requires { holds.now ≡ hold_places 0 calls.now }
    ensures { result ≡ grant_in calls.now lines.now hold }
{
    let place = pick(holds, hold as usize)?;
    let line = pick(lines, *place)?;
    grant_of(&line.line)
}

#[tactic(auto, unfolding(crate::specs::Rules::is_req))]
fn is_req(way: &Way) -> bool
    ensures { result ≡ is_req way.now }
{
    matches!(way, Way::Req)
}

#[tactic(auto, unfolding(crate::specs::Rules::pairs_of))]
fn is_one_pair(through: &Through, way: &Way) -> bool
    ensures { result ≡ is_one_pair through.now (pairs_of way.now) }
{
    match way {
        Way::Via(k, None) => k.entry == through.entry && k.upto == through.upto,
        _ => false,
    }
}

#[tactic(auto, unfolding(crate::specs::Rules::hold_way))]
fn is_hold_way(
    write: bool,
    lives: &Lives<'_>,
    held: Option<Held>,
    grant: Option<Grant>,
    off: u64,
    len: u64,
    way: &Way,
) -> bool
    requires { IfSome held (λ h. h.chunk * chunk_size + off + len ≤ max_file) }
    ensures { result ≡ hold_way write lives.now.log.now held grant off len way.now }
{
    let Some(held) = held else {
        return false;
    };
    let Some(grant) = grant else {
        return false;
    };
    is_one_pair(&grant.through, way)
        && covers(write, lives, held.chunk as u64 * CHUNK + off, len, way)
}

// Whether a call may have come this way, where there is a window.
#[tactic(auto, unfolding(crate::specs::Tables::windowed_by, crate::specs::Tables::end_of, dax_script::specs::Asks::target, dax_script::specs::Asks::op_from))]
fn is_windowed(
    sizes: &[u64],
    lives: &Lives<'_>,
    seen: u128,
    calls: &[Call],
    holds: &[usize],
    lines: &[Numbered],
    place: usize,
    call: &Call,
    way: &Way,
) -> bool
    requires holds { holds.now ≡ hold_places 0 calls.now }
    requires within { place < length sizes.now }
    requires small { end_of (deed_from (op_of calls.now call.now)) ≤ max_file }
    ensures { result ≡ windowed_by sizes.now lives.now.log.now seen calls.now lines.now place call.now way.now }
{
    match call {
        Call::Read { off, len, .. } => covers(false, lives, *off, *len as u64, way),
        Call::Write { off, bytes, .. } => {
            is_write_way(sizes, lives, seen, place, *off, bytes.len() as u64, way)
        }
        Call::Fill { off, len, .. } => is_write_way(
            sizes,
            lives,
            seen,
            place,
            *off,
            *len as u64,
            way,
        ),
        Call::Size { .. } | Call::Truncate { .. } => is_req(way),
        Call::Load { hold, off, len } => {
            let held = held_by(calls, holds, *hold);
            let grant = grant_in(calls, holds, lines, *hold);
            is_hold_way(false, lives, held, grant, *off, *len as u64, way)
        }
        Call::Store { hold, off, bytes } => {
            let held = held_by(calls, holds, *hold);
            let grant = grant_in(calls, holds, lines, *hold);
            is_hold_way(true, lives, held, grant, *off, bytes.len() as u64, way)
        }
        Call::Hold { .. } | Call::Release { .. } => false,
    }
}

/// Rule 7: each operation came to its file as it may.
#[derive(Drop)]
pub struct Ways<'a> {
    pub script: &'a Script,
    pub t: &'a Transcript,
    pub holds: &'a [Vec<usize>],
    pub looks: &'a [Look],
    pub replays: &'a [Replay],
    pub lives: &'a [Lives<'a>],
}

impl<'a> EntryTest for Ways<'a> {
    ghost use Rattle.dax_audit.specs.Rules.{came_right};
    ghost use Rattle.dax_audit.specs.Tables.{AreHolds};
    ghost use Rattle.dax_audit.specs.Tables.{AreReplays, AreLooks, AreLives, AreNamed, StaysWithin};

    ghost of = { λ j. j.t.now };

    ghost ready = { λ j. AreHolds j.script.now j.holds.now × AreReplays j.script.now j.t.now j.replays.now × AreLooks j.script.now j.t.now j.looks.now × AreNamed j.script.now j.t.now × StaysWithin j.script.now × AreLives j.t.now j.lives.now };

    ghost asks = { λ j. came_right j.script.now j.t.now };

    fn meets(&self, file: usize, place: usize, entry: &EntryLine) -> bool {
        let guest = entry.guest as usize;
        let call = entry.call as usize;
        let calls = guest_calls(self.script, guest);
        let Some(asked) = pick(calls, call) else {
            return false;
        };
        if self.t.ranges == 0 {
            return is_req(&entry.way);
        }
        is_windowed(
            sizes_of(self.replays, file),
            &self.lives[file],
            seen_of(self.looks, guest, call),
            calls,
            guest_holds(self.script, self.holds, guest),
            guest_lines(self.t, guest),
            place,
            asked,
            &entry.way,
        )
    }
}
