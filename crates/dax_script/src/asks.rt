ghost use Rattle.std.specs.Prelude.{◌≡◌, IfOk, Some, option_map};
ghost use Rattle.dax_script.specs.Asks.{held_of, is_hold, hold_places, held_by, target, hold_in, chunk_of_held, whole_file};

use crate::CHUNK;
use crate::scripts::Call;
use page_map::Mode;
use plain_file::Memory;
use std::alloc::Global;

/// A chunk of a file that is held, for reading or for writing.
#[derive(Clone, Copy, Debug, PartialEq, Eq)]
pub struct Held {
    pub file: u32,
    pub chunk: u32,
    pub mode: Mode,
}

/// The file that a call is on, and where its offsets count from.
#[derive(Clone, Copy, Debug, PartialEq, Eq)]
pub struct Target {
    pub file: u32,
    pub start: u64,
}

impl Call {
    /// What a `Hold` call holds; None for another call.
    #[tactic(auto, unfolding(crate::specs::Asks::held_of))]
    pub fn held(&self) -> Option<Held>
        ensures { result ≡ held_of self.now }
    {
        match self {
            Call::Hold { file, chunk, mode } => Some(Held {
                file: *file,
                chunk: *chunk,
                mode: *mode,
            }),
            _ => None,
        }
    }

    /// Whether this is a `Hold` call.
    #[tactic(auto, unfolding(crate::specs::Asks::is_hold))]
    pub fn is_hold(&self) -> bool
        ensures { result ≡ is_hold self.now }
    {
        matches!(self, Call::Hold { .. })
    }

    /// The hold that a call uses: that of `Load`, `Store` and `Release`.
    #[tactic(auto, unfolding(crate::specs::Asks::hold_in))]
    pub fn hold(&self) -> Option<u32>
        ensures { result ≡ hold_in self.now }
    {
        match self {
            Call::Load { hold, .. } | Call::Store { hold, .. } | Call::Release { hold } => {
                Some(*hold)
            }
            _ => None,
        }
    }
}

/// Where the `Hold` calls stand among a guest's calls.
#[tactic(auto, unfolding(crate::specs::Asks::hold_places))]
pub fn hold_places(alloc: Global, calls: &[Call]) -> Result<Vec<usize>, Memory>
    ensures { IfOk result (λ v. v.items ≡ hold_places 0 calls.now) }
{
    let mut places = Vec::new(alloc);
    for (at, call) in calls.iter().enumerate() {
        if call.is_hold() {
            places.push(at)?;
        }
    }
    Ok(places)
}

/// What a hold of a guest holds, by where its `Hold` calls stand.
pub fn held_by(calls: &[Call], places: &[usize], hold: u32) -> Option<Held>
    requires { places.now ≡ hold_places 0 calls.now }
    ensures { result ≡ held_by calls.now hold }
{
    let place = places.get(hold as usize)?;
    let call = calls.get(*place)?;
    call.held()
}

fn chunk_target(held: Held) -> Target
    ensures { result ≡ chunk_of_held held }
{
    Target {
        file: held.file,
        start: held.chunk as u64 * CHUNK,
    }
}

fn held_target(calls: &[Call], places: &[usize], hold: u32) -> Option<Target>
    requires { places.now ≡ hold_places 0 calls.now }
    ensures { result ≡ option_map chunk_of_held (held_by calls.now hold) }
{
    match held_by(calls, places, hold) {
        Some(held) => Some(chunk_target(held)),
        None => None,
    }
}

fn whole_target(file: u32) -> Option<Target>
    ensures { result ≡ Some (whole_file file) }
{
    Some(Target { file, start: 0 })
}

/// What a call of a guest is on, by where the guest's `Hold` calls stand.
#[tactic(auto, unfolding(crate::specs::Asks::target))]
pub fn target_of(calls: &[Call], places: &[usize], call: &Call) -> Option<Target>
    requires { places.now ≡ hold_places 0 calls.now }
    ensures { result ≡ target calls.now call.now }
{
    match call {
        Call::Read { file, .. }
        | Call::Write { file, .. }
        | Call::Fill { file, .. }
        | Call::Size { file }
        | Call::Truncate { file, .. }
        | Call::Hold { file, .. } => whole_target(*file),
        Call::Load { hold, .. } | Call::Store { hold, .. } | Call::Release { hold } => {
            held_target(calls, places, *hold)
        }
    }
}
