ghost use Rattle.std.specs.Prelude.{◌≡◌, ◌<◌, ◌++◌, ◌∷◌, [], length, MatchBool, MatchOption, OnErr, OnOk};
ghost use Rattle.window_core.specs.Window.{IsOldest, pins_on, unpinned};

use crate::states::Pin;
use plain_file::Memory;
use std::alloc::Global;
use std::marker::Model;

// A guest's pins, the oldest first.
#[derive(Debug, Drop)]
pub(crate) struct PinRow {
    pins: Vec<Pin>,
}

impl Model for PinRow {
    ghost use Rattle.std.specs.Prelude.{List};
    ghost use Rattle.window_core.specs.declared.states.Pin.{Pin};

    ghost Value = { List Pin };

    ghost view = { λ r. r.pins.items };
}

// The place of the oldest pin on a range.
fn place_on(pins: &[Pin], range: u32) -> Option<usize>
    ensures { MatchOption result (pins_on range pins.now ≡ 0) (λ k. IsOldest range pins.now k) }
{
    for at in 0..pins.len() {
        if pins[at].range == range {
            return Some(at);
        }
    }
    None
}

impl PinRow {
    pub(crate) fn new(alloc: Global) -> PinRow
        ensures { result ≡ [] }
    {
        PinRow {
            pins: Vec::new(alloc),
        }
    }

    pub(crate) fn len(&self) -> usize
        ensures { result ≡ length self.now }
    {
        self.pins.len()
    }

    // How many pins there are on a range.
    pub(crate) fn count(&self, range: u32) -> usize
        ensures { result ≡ pins_on range self.now }
    {
        self.pins.iter().filter(|pin| pin.range == range).count()
    }

    pub(crate) fn push(&mut self, pin: Pin) -> Result<(), Memory>
        ensures ok { OnOk result (self.new ≡ self.old ++ pin ∷ []) }
        ensures err { OnErr result (self.new ≡ self.old) }
    {
        self.pins.push(pin)?;
        Ok(())
    }

    // Takes away the oldest pin on a range.
    pub(crate) fn unpin(&mut self, range: u32) -> bool
        ensures { MatchBool result ((0 < pins_on range self.old) × (self.new ≡ unpinned range self.old)) ((pins_on range self.old ≡ 0) × (self.new ≡ self.old)) }
    {
        let Some(at) = place_on(&self.pins, range) else {
            return false;
        };
        self.pins.remove(at);
        true
    }
}
