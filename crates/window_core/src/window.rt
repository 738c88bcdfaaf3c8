ghost use Rattle.std.specs.Prelude.{◌≡◌, ◌≢◌, ◌≤◌, ◌<◌, ℕ, [], length, replicate, IfOk, None, Some, MatchBool, MatchOption, MatchResult};
ghost use Rattle.page_map.specs.declared.pages.Mode.TheVariants as modes;
ghost use Rattle.window_core.specs.Window.{Allowed, Did, DidTake, HasTree, InTree, IsMapped, IsNowhere, IsTarget, IsThere, IsEnter, IsLeave, IsLook, IsPin, IsSetMap, IsSettleFree, IsSettleMapped, IsTake, IsUnpin, IsUnsettled, IsUpgrade, MayRaise, MaySettle, Still, Treeless, pin_count, new_side, new_window, pins, settle_mapped, side, state, word_at};
ghost use Rattle.window_core.specs.Machine.{window_of};
ghost use Rattle.window_core.specs.Good.{IsGood, IsGuest};
ghost use Rattle.window_core.specs.declared.states.RangeState.TheVariants as ranges;

use crate::pin_row::PinRow;
use crate::side::CoreSide;
use crate::states::{Pin, RangeState};
use page_map::{MAX_CHUNKS, Mode, Placed, RangeWord, Target};
use plain_file::{Memory, Through};
use range_tree::Tree;
use std::alloc::Global;

/// The window of the core, with the trees of its files and the pins of its guests. Contracts see it
/// through `window_of` of `specs/`.
#[derive(Debug, Drop)]
pub struct CoreWindow {
    states: Vec<RangeState>,
    targets: Vec<Option<Target>>,
    sides: Vec<CoreSide>,
    pins: Vec<PinRow>,
}

// Whether the range is moved by this guest.
fn is_moved_by(state: RangeState, guest: u32) -> bool
    ensures { MatchBool result (state ≡ ranges.Moving guest) (state ≢ ranges.Moving guest) }
{
    match state {
        RangeState::Moving { guest: mover } => mover == guest,
        _ => false,
    }
}

// Where a tree has a range.
#[derive(Clone, Copy, Debug)]
struct Found {
    file: u32,
    chunk: u32,
    placed: Placed,
}

// Where a range may be settled.
#[derive(Clone, Copy, Debug)]
struct Spot {
    range: u32,
    file: u32,
}

// Whether the target is this chunk with this mode.
fn is_at(target: Target, chunk: u32, mode: Mode) -> bool
    ensures { MatchBool result ((target.chunk ≡ chunk) × (target.mode ≡ mode)) (((target.chunk ≡ chunk) × (target.mode ≡ mode)) → ⊥) }
{
    target.chunk == chunk && target.mode == mode
}

fn is_for_writing(mode: Mode) -> bool
    ensures { MatchBool result (mode ≡ modes.W) (mode ≡ modes.R) }
{
    matches!(mode, Mode::W)
}

fn new_sides(alloc: Global, files: u32, guests: u32) -> Result<Vec<CoreSide>, Memory>
    ensures { IfOk result (λ v. v.items ≡ replicate files (new_side guests)) }
{
    let mut sides = Vec::new(alloc);
    for _file in 0..files {
        sides.push(CoreSide::new(alloc, guests)?)?;
    }
    Ok(sides)
}

fn new_pins(alloc: Global, guests: u32) -> Result<Vec<PinRow>, Memory>
    ensures { IfOk result (λ v. v.items ≡ replicate guests []) }
{
    let mut pins = Vec::new(alloc);
    for _guest in 0..guests {
        pins.push(PinRow::new(alloc))?;
    }
    Ok(pins)
}

impl CoreWindow {
    /// A window of so many ranges, all of which are free, for so many files and guests. `Memory` comes where an
    /// allocation was refused.
    pub fn new(alloc: Global, ranges: u32, files: u32, guests: u32) -> Result<CoreWindow, Memory>
        ensures { IfOk result (λ w. window_of w ≡ new_window ranges files guests) }
    {
        Ok(CoreWindow {
            states: vec![in alloc; RangeState::Free; ranges as usize]?,
            targets: vec![in alloc; None; ranges as usize]?,
            sides: new_sides(alloc, files, guests)?,
            pins: new_pins(alloc, guests)?,
        })
    }

    // The file whose tree the guest has.
    fn tree_of(&self, guest: u32) -> Option<usize>
        ensures { MatchOption result (Treeless (window_of self.now) guest) (λ f. HasTree (window_of self.now) guest f) }
    {
        for file in 0..self.sides.len() {
            if self.sides[file].has_tree(guest) {
                return Some(file);
            }
        }
        None
    }

    // The range that the guest moves.
    fn moved_by(&self, guest: u32) -> Option<usize>
        ensures { MatchOption result (Still (window_of self.now) guest) (λ r. state (window_of self.now) r ≡ ranges.Moving guest) }
    {
        for range in 0..self.states.len() {
            if is_moved_by(self.states[range], guest) {
                return Some(range);
            }
        }
        None
    }

    // How many pins all guests have on a range.
    fn count(&self, range: u32) -> u32
        requires { IsGood (window_of self.now) }
        ensures { result ≡ pin_count (window_of self.now) range }
    {
        let mut total = 0;
        for guest in 0..self.pins.len() {
            total += self.pins[guest].count(range) as u32;
        }
        total
    }

    /// Takes a file's tree: nobody has it, and the guest has none.
    pub fn enter(&mut self, guest: u32, file: u32) -> bool
        requires { IsGuest guest (window_of self.old) }
        ensures { Did result (window_of self.old) guest (IsEnter file) (window_of self.new) }
    {
        let at = file as usize;
        if at >= self.sides.len() || !self.sides[at].is_free() || self.tree_of(guest).is_some() {
            return false;
        }
        self.sides[at].enter(guest);
        true
    }

    /// Gives back the tree that the guest has.
    pub fn leave(&mut self, guest: u32) -> bool
        requires { IsGuest guest (window_of self.old) }
        ensures { Did result (window_of self.old) guest IsLeave (window_of self.new) }
    {
        let Some(file) = self.tree_of(guest) else {
            return false;
        };
        self.sides[file].leave();
        true
    }
    /// Whether the window has this range, so that it can be looked at.
    pub fn has_range(&self, range: u32) -> bool
        ensures { (guest : ℕ) → Did result (window_of self.now) guest (IsLook range) (window_of self.now) }
    {
        (range as usize) < self.states.len()
    }

    /// Takes a range that is free, or that has no pin and is mapped to the file whose tree the guest has. The guest
    /// moves none.
    pub fn take(&mut self, guest: u32, range: u32) -> bool
        requires { IsGuest guest (window_of self.old) }
        ensures { Did result (window_of self.old) guest (IsTake range) (window_of self.new) }
    {
        if range as usize >= self.states.len() || self.moved_by(guest).is_some() {
            return false;
        }
        match self.states[range as usize] {
            RangeState::Free => {
                self.states[range as usize] = RangeState::Moving { guest };
                true
            }
            RangeState::Moving { .. } => false,
            RangeState::Mapped { file, chunk, .. } => self.take_mapped(guest, range, file, chunk),
        }
    }

    // Takes a range that is mapped: it goes out of the tree that has it.
    fn take_mapped(&mut self, guest: u32, range: u32, file: u32, chunk: u32) -> bool
        requires good { IsGuest guest (window_of self.old) }
        requires still { Still (window_of self.old) guest }
        requires mapped { IsMapped (window_of self.old) range file chunk }
        ensures { DidTake result (window_of self.old) guest range file chunk (window_of self.new) }
    {
        let at = file as usize;
        if !self.sides[at].has_tree(guest) || self.count(range) != 0 {
            return false;
        }
        self.sides[at].remove(guest, chunk, range);
        self.states[range as usize] = RangeState::Moving { guest };
        true
    }

    /// Settles the range that the guest moves: it is free.
    pub fn settle_free(&mut self, guest: u32) -> bool
        requires { IsGuest guest (window_of self.old) }
        ensures { Did result (window_of self.old) guest IsSettleFree (window_of self.new) }
    {
        let Some(range) = self.moved_by(guest) else {
            return false;
        };
        self.states[range] = RangeState::Free;
        true
    }

    /// Takes away the guest's oldest pin on a range.
    pub fn unpin(&mut self, guest: u32, range: u32) -> bool
        requires { IsGuest guest (window_of self.old) }
        ensures { Did result (window_of self.old) guest (IsUnpin range) (window_of self.new) }
    {
        self.pins[guest as usize].unpin(range)
    }
    // Whether the file is one of the core's, and the chunk one that a file may have.
    fn is_target(&self, to: Option<Target>) -> bool
        ensures { MatchBool result (IsTarget (window_of self.now) to) (IsTarget (window_of self.now) to → ⊥) }
    {
        match to {
            Some(target) => {
                (target.file as usize) < self.sides.len() && target.chunk < MAX_CHUNKS
            }
            None => true,
        }
    }

    // Whether the guest has the tree in which the range is placed at that target, which is for writing.
    fn is_in_tree(&self, guest: u32, range: u32, to: Option<Target>) -> bool
        requires { IsTarget (window_of self.now) to }
        ensures { MatchBool result (InTree (window_of self.now) guest range to) (InTree (window_of self.now) guest range to → ⊥) }
    {
        let Some(target) = to else {
            return false;
        };
        let side = &self.sides[target.file as usize];
        side.has_tree(guest) && is_for_writing(target.mode) && side.has_placed(target.chunk, range)
    }

    /// Sets what a range's pages are mapped to. The guest moves the range, or it has the tree in which the range is
    /// placed at that target, which is for writing.
    pub fn set_map(&mut self, guest: u32, range: u32, to: Option<Target>) -> bool
        requires { IsGuest guest (window_of self.old) }
        ensures { Did result (window_of self.old) guest (IsSetMap range to) (window_of self.new) }
    {
        let at = range as usize;
        if at >= self.states.len() || !self.is_target(to) {
            return false;
        }
        if !is_moved_by(self.states[at], guest) && !self.is_in_tree(guest, range, to) {
            return false;
        }
        self.targets[at] = to;
        true
    }

    // Where the tree that the guest has has the range.
    fn find(&self, guest: u32, range: u32) -> Option<Found>
        requires { IsGood (window_of self.now) }
        ensures { MatchOption result (IsNowhere (window_of self.now) guest range) (λ x. IsThere (window_of self.now) guest range x.file x.chunk x.placed) }
    {
        let at = range as usize;
        if at >= self.states.len() {
            return None;
        }
        let RangeState::Mapped { file, chunk, .. } = self.states[at] else {
            return None;
        };
        let side = &self.sides[file as usize];
        if !side.has_tree(guest) {
            return None;
        }
        let Some(placed) = side.find(chunk) else {
            return None;
        };
        Some(Found {
            file,
            chunk,
            placed,
        })
    }

    // Whether the guest may have one pin more.
    fn has_room(&self, guest: u32) -> bool
        requires { guest < length self.now.pins.items }
        ensures { MatchBool result (length (pins (window_of self.now) guest) < 64) (64 ≤ length (pins (window_of self.now) guest)) }
    {
        self.pins[guest as usize].len() < 64
    }

    /// Pins a range that the tree which the guest has has. The guest has fewer than 64 pins.
    pub fn pin(&mut self, guest: u32, range: u32) -> Result<bool, Memory>
        requires { IsGuest guest (window_of self.old) }
        ensures { MatchResult result (λ b. Did b (window_of self.old) guest (IsPin range) (window_of self.new)) (λ _. window_of self.new ≡ window_of self.old) }
    {
        let Some(found) = self.find(guest, range) else {
            return Ok(false);
        };
        if !self.has_room(guest) {
            return Ok(false);
        }
        let upto = self.sides[found.file as usize].tree().log().len() as u64;
        self.pins[guest as usize].push(Pin {
            range,
            file: found.file,
            chunk: found.chunk,
            mode: found.placed.mode,
            through: Through {
                entry: found.placed.entry,
                upto,
            },
        })?;
        Ok(true)
    }

    // Whether a placement with this mode, in this range, may be made one for writing.
    fn may_raise(&self, range: u32, mode: Mode) -> bool
        requires { range < length self.now.targets.items }
        ensures { MatchBool result (MayRaise (window_of self.now) range mode) (MayRaise (window_of self.now) range mode → ⊥) }
    {
        let Some(target) = self.targets[range as usize] else {
            return false;
        };
        is_for_writing(target.mode) && !is_for_writing(mode)
    }

    /// A range that the tree which the guest has has for reading may be written from here on. Its pages are mapped
    /// for writing.
    pub fn upgrade(&mut self, guest: u32, range: u32) -> bool
        requires { IsGuest guest (window_of self.old) }
        ensures { Did result (window_of self.old) guest (IsUpgrade range) (window_of self.new) }
    {
        let Some(found) = self.find(guest, range) else {
            return false;
        };
        if !self.may_raise(range, found.placed.mode) {
            return false;
        }
        self.sides[found.file as usize].upgrade(guest, found.chunk, found.placed);
        self.states[range as usize] = RangeState::Mapped {
            file: found.file,
            chunk: found.chunk,
            mode: Mode::W,
        };
        true
    }
    // Whether the range, which the guest moves, may be settled at this chunk of a file with this mode.
    fn may_settle(&self, guest: u32, target: Target) -> bool
        requires { target.file < length self.now.sides.items }
        ensures { MatchBool result (MaySettle (window_of self.now) guest target) (MaySettle (window_of self.now) guest target → ⊥) }
    {
        let side = &self.sides[target.file as usize];
        side.has_tree(guest) && side.find(target.chunk).is_none()
    }

    // The range that the guest moves, and the file at whose chunk it may be settled.
    fn find_spot(&self, guest: u32, chunk: u32, mode: Mode) -> Option<Spot>
        requires { IsGood (window_of self.now) }
        ensures { MatchOption result (IsUnsettled (window_of self.now) guest chunk mode) (λ s. Allowed (window_of self.now) guest (settle_mapped s.range s.file chunk mode)) }
    {
        let Some(range) = self.moved_by(guest) else {
            return None;
        };
        let Some(target) = self.targets[range] else {
            return None;
        };
        if !is_at(target, chunk, mode) {
            return None;
        }
        if !self.may_settle(guest, target) {
            return None;
        }
        Some(Spot {
            range: range as u32,
            file: target.file,
        })
    }

    /// Settles the range that the guest moves: its pages are mapped to this chunk, with this mode, of the file whose
    /// tree the guest has, and the tree gets the chunk, which it doesn't have.
    pub fn settle_mapped(&mut self, guest: u32, chunk: u32, mode: Mode) -> Result<bool, Memory>
        requires { IsGuest guest (window_of self.old) }
        ensures { MatchResult result (λ b. Did b (window_of self.old) guest (IsSettleMapped chunk mode) (window_of self.new)) (λ _. window_of self.new ≡ window_of self.old) }
    {
        let Some(spot) = self.find_spot(guest, chunk, mode) else {
            return Ok(false);
        };
        self.sides[spot.file as usize].place(guest, chunk, spot.range, mode)?;
        self.states[spot.range as usize] = RangeState::Mapped {
            file: spot.file,
            chunk,
            mode,
        };
        Ok(true)
    }

    /// The tree of a file.
    pub fn tree(&self, file: u32) -> &Tree
        requires { file < length (window_of self.now).sides }
        ensures { result.now ≡ (side (window_of self.now) file).log }
    {
        self.sides[file as usize].tree()
    }

    /// What a range is to everybody.
    pub fn word(&self, range: u32) -> RangeWord
        requires good { IsGood (window_of self.now) }
        requires known { range < length (window_of self.now).states }
        ensures { result ≡ word_at (window_of self.now) range }
    {
        match self.states[range as usize] {
            RangeState::Free => RangeWord::Free,
            RangeState::Moving { guest } => RangeWord::Moving { guest },
            RangeState::Mapped { file, chunk, mode } => RangeWord::Mapped {
                file,
                chunk,
                mode,
                pins: self.count(range),
            },
        }
    }
}
