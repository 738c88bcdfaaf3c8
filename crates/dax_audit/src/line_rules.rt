ghost use Rattle.std.specs.Prelude.{◌≡◌, ℕ, true, Some};
ghost use Rattle.dax_script.specs.Asks.{hold_places, target, calls_of, call_at};
ghost use Rattle.transcript_text.specs.declared.transcripts.Line.{Line};
ghost use Rattle.dax_audit.specs.Guests.{place_of};
ghost use Rattle.dax_audit.specs.Rules.{fits, answers_call, lines_of, line_at};
ghost use Rattle.dax_audit.specs.Tables.{right_in};

use crate::answers::{is_right_at, seen_of};
use crate::looks::Look;
use crate::picks::pick;
use crate::replays::Replay;
use crate::rules::{guest_calls, guest_holds, place_of};
use crate::tests_of::CallTest;
use dax_script::{Call, Script, target_of};
use plain_file::Answer;
use transcript_text::{Line, Transcript};

#[tactic(auto, unfolding(crate::specs::Rules::answers_call, crate::specs::Rules::is_reading, crate::specs::Rules::is_writing, crate::specs::Rules::is_sizing))]
fn answers_call(call: &Call, answer: &Answer) -> bool
    ensures { result ≡ answers_call call.now answer.now }
{
    match answer {
        Answer::Bytes(_) => matches!(call, Call::Read { .. } | Call::Load { .. }),
        Answer::Wrote(_) => matches!(
            call,
            Call::Write { .. } | Call::Fill { .. } | Call::Store { .. }
        ),
        Answer::Size(_) => matches!(call, Call::Size { .. } | Call::Truncate { .. }),
    }
}

#[tactic(auto, unfolding(crate::specs::Rules::fits, crate::specs::Rules::is_releasing, crate::specs::Rules::is_taking, crate::specs::Rules::is_truncating, dax_script::specs::Asks::is_hold, dax_script::specs::Asks::hold_in))]
fn fits(call: &Call, line: &Line) -> bool
    ensures { result ≡ fits call.now line.now }
{
    match line {
        Line::Done { answer, .. } => answers_call(call, answer),
        Line::Held { .. } => matches!(call, Call::Hold { .. }),
        Line::Released => matches!(call, Call::Release { .. }),
        Line::Busy { .. } => matches!(
            call,
            Call::Read { .. } | Call::Write { .. } | Call::Fill { .. } | Call::Hold { .. }
        ),
        Line::Leased { .. } => matches!(call, Call::Truncate { .. }),
        Line::NoHold => matches!(
            call,
            Call::Load { .. } | Call::Store { .. } | Call::Release { .. }
        ),
        Line::Past { .. } => matches!(call, Call::Load { .. } | Call::Store { .. }),
    }
}

/// Rule 3: each line fits its call.
#[derive(Drop)]
pub struct Forms<'a> {
    pub script: &'a Script,
    pub t: &'a Transcript,
}

impl<'a> CallTest for Forms<'a> {
    ghost use Rattle.dax_audit.specs.Rules.{fits_at};
    ghost use Rattle.std.specs.Prelude.{⊤};

    ghost of = { λ j. j.t.now };

    ghost ready = { λ j. ⊤ };

    ghost asks = { λ j. fits_at j.script.now };

    fn meets(&self, guest: usize, call: usize, line: &Line) -> bool {
        match pick(guest_calls(self.script, guest), call) {
            Some(asked) => fits(asked, line),
            None => true,
        }
    }
}

/// Rule 6: each answer is the plain file's after the entries before its place.
#[derive(Drop)]
pub struct Replies<'a> {
    pub script: &'a Script,
    pub t: &'a Transcript,
    pub holds: &'a [Vec<usize>],
    pub replays: &'a [Replay],
}

impl<'a> CallTest for Replies<'a> {
    ghost use Rattle.dax_audit.specs.Rules.{replies_right};
    ghost use Rattle.dax_audit.specs.Tables.{AreHolds};
    ghost use Rattle.dax_audit.specs.Tables.{AreReplays, HaveEntries};

    ghost of = { λ j. j.t.now };

    ghost ready = { λ j. AreHolds j.script.now j.holds.now × AreReplays j.script.now j.t.now j.replays.now × HaveEntries j.script.now j.t.now };

    ghost asks = { λ j. replies_right j.script.now j.t.now };

    #[tactic(auto, unfolding(crate::specs::Rules::replies))]
    fn meets(&self, guest: usize, call: usize, line: &Line) -> bool {
        let calls = guest_calls(self.script, guest);
        let Some(asked) = pick(calls, call) else {
            return true;
        };
        let Line::Done { place, .. } = line else {
            return true;
        };
        match target_of(calls, guest_holds(self.script, self.holds, guest), asked) {
            Some(to) => is_right_at(self.replays, to.file as usize, *place),
            None => false,
        }
    }
}

/// Rule 5: the places of one guest in one file rise in the order of its calls.
#[derive(Drop)]
pub struct Order<'a> {
    pub script: &'a Script,
    pub t: &'a Transcript,
    pub holds: &'a [Vec<usize>],
    pub looks: &'a [Look],
}

impl<'a> CallTest for Order<'a> {
    ghost use Rattle.dax_audit.specs.Rules.{rises_at};
    ghost use Rattle.dax_audit.specs.Tables.{AreHolds};
    ghost use Rattle.dax_audit.specs.Tables.{AreLooks};

    ghost of = { λ j. j.t.now };

    ghost ready = { λ j. AreHolds j.script.now j.holds.now × AreLooks j.script.now j.t.now j.looks.now };

    ghost asks = { λ j. rises_at j.script.now j.t.now };

    fn meets(&self, guest: usize, call: usize, line: &Line) -> bool {
        let calls = guest_calls(self.script, guest);
        let Some(asked) = pick(calls, call) else {
            return true;
        };
        let Some(place) = place_of(line) else {
            return true;
        };
        match target_of(calls, guest_holds(self.script, self.holds, guest), asked) {
            Some(_to) => seen_of(self.looks, guest, call) <= place as u128,
            None => false,
        }
    }
}
