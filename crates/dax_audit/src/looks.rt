ghost use Rattle.std.specs.Prelude.{◌≡◌, ◌<◌, ◌+◌, ℕ, false, zip, map, length, slice_get, slice_set, slice_index, slice_index_or, Some, IfOk, IfSome};
ghost use Rattle.std.specs.List.{range_with_len};
ghost use Rattle.dax_script.specs.declared.scripts.Call.{Call};
ghost use Rattle.dax_script.specs.declared.asks.Target.{Target};
ghost use Rattle.dax_script.specs.Asks.{hold_places, target, hold_in};
ghost use Rattle.dax_audit.specs.Guests.{seen_at, given_at, seen_now, given_now, noted, given_back, place_of, is_released, is_release, releases};

use crate::rules::place_of;
use dax_script::{Call, Target, target_of};
use plain_file::Memory;
use std::alloc::Global;
use transcript_text::{Line, Numbered};

/// What was before each call of a guest: how much of its file's history the guest had seen, and
/// whether its hold was given up.
#[derive(Drop)]
pub struct Look {
    pub seen: Vec<u128>,
    pub given: Vec<bool>,
}

#[tactic(auto, unfolding(crate::specs::Guests::seen_now))]
fn seen_now(last: &[u128], to: Option<Target>) -> u128
    requires { IfSome to (λ x. x.file < length last.now) }
    ensures { result ≡ seen_now last.now to }
{
    match to {
        Some(to) => last[to.file as usize],
        None => 0,
    }
}

#[tactic(auto, unfolding(crate::specs::Guests::given_now))]
fn given_now(released: &[bool], hold: Option<u32>) -> bool
    requires { IfSome hold (λ h. h < length released.now) }
    ensures { result ≡ given_now released.now hold }
{
    match hold {
        Some(hold) => released[hold as usize],
        None => false,
    }
}

#[tactic(auto, unfolding(crate::specs::Guests::noted))]
fn note_place(last: &mut Vec<u128>, to: Option<Target>, place: Option<u64>)
    requires { IfSome to (λ x. x.file < length last.old.items) }
    ensures { last.new.items ≡ noted last.old.items to place }
{
    let Some(to) = to else {
        return;
    };
    let Some(place) = place else {
        return;
    };
    last[to.file as usize] = place as u128 + 1;
}

#[tactic(auto, unfolding(crate::specs::Guests::given_back, crate::specs::Guests::is_released, dax_script::specs::Asks::hold_in))]
fn note_release(released: &mut Vec<bool>, call: &Call, line: &Line)
    requires { IfSome (hold_in call.now) (λ h. h < length released.old.items) }
    ensures { released.new.items ≡ given_back released.old.items call.now line.now }
{
    let Line::Released = line else {
        return;
    };
    let Call::Release { hold } = call else {
        return;
    };
    released[*hold as usize] = true;
}

/// Looks through a guest's calls and lines. Each of its calls is on one of `files` files, and on a
/// hold of the guest.
pub fn look_through(
    alloc: Global,
    calls: &[Call],
    holds: &[usize],
    lines: &[Numbered],
    files: usize,
) -> Result<Look, Memory>
    requires holds { holds.now ≡ hold_places 0 calls.now }
    requires files { (call : ℕ) (c : Call) → slice_get calls.now call ≡ Some c → IfSome (target calls.now c) (λ x. x.file < files) }
    requires given { (call : ℕ) (c : Call) → slice_get calls.now call ≡ Some c → IfSome (hold_in c) (λ h. h < length holds.now) }
    ensures seen { IfOk result (λ r. r.seen.items ≡ map (seen_at calls.now lines.now) (range_with_len 0 (length (zip calls.now lines.now)))) }
    ensures given { IfOk result (λ r. r.given.items ≡ map (given_at calls.now lines.now) (range_with_len 0 (length (zip calls.now lines.now)))) }
{
    let mut last = vec![in alloc; 0u128; files]?;
    let mut released = vec![in alloc; false; holds.len()]?;
    let mut seen = Vec::new(alloc);
    let mut given = Vec::new(alloc);
    for at in 0..calls.len().min(lines.len()) {
        let call = &calls[at];
        let line = &lines[at].line;
        let to = target_of(calls, holds, call);
        seen.push(seen_now(&last, to))?;
        given.push(given_now(&released, call.hold()))?;
        note_place(&mut last, to, place_of(line));
        note_release(&mut released, call, line);
    }
    Ok(Look { seen, given })
}
