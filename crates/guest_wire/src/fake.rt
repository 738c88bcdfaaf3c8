ghost use Rattle.std.specs.Prelude.{◌≡◌};
ghost use Rattle.guest_wire.specs.Wires.{boards, HasCause, KeepsWire};
ghost use Rattle.guest_wire.specs.Keeps.{KeepsBoards};
ghost use Rattle.guest_wire.specs.Fakes.{fake_wire, taken};

use crate::wires::{Wire, WireError};
use page_map::MapBoard;
use plain_file::{Blob, FileBoard, List};
use std::alloc::Global;
use std::marker::Model;
use std::sync::Wait;

/// What a [`FakeWire`] does at one submit.
#[derive(Debug, Drop)]
pub enum WireStep {
    /// Answers these bytes.
    Bytes(Blob),
    /// Fails.
    Fail,
}

/// A wire that answers what it was told to, whatever is submitted. It isn't honest, and never changes
/// a board. Its count of faults begins with 0 and stays at the last u64.
#[derive(Debug, Drop)]
pub struct FakeWire {
    // the steps that are left, the next one last
    steps: Vec<WireStep>,
    faults: u64,
}

impl Model for FakeWire {
    ghost use Rattle.std.specs.Prelude.{reverse};
    ghost use Rattle.guest_wire.specs.Fakes.{FakeView};

    ghost Value = { FakeView };

    ghost view = { λ w. record { left = reverse w.steps.items; faults = w.faults } };
}

impl FakeWire {
    /// A wire that takes one of these steps at each submit, in their order. Where none is left it
    /// fails.
    pub fn new(steps: List<WireStep>) -> FakeWire
        ensures { result ≡ record { left = steps; faults = 0 } }
    {
        let mut steps = steps.into_vec();
        steps.reverse();
        FakeWire { steps, faults: 0 }
    }
}

impl<F: FileBoard, M: MapBoard> Wire<F, M> for FakeWire {
    ghost wire = { fake_wire };

    ghost gives = { λ before old sent result after new. ((result, after) ≡ taken before before.left) × (new ≡ old) };

    /// Takes the next step: answers its bytes, or fails. It doesn't wait.
    #[tactic(auto, unfolding(crate::specs::Fakes::taken))]
    fn submit<R: Wait>(
        &mut self,
        rt: &R,
        alloc: Global,
        readable: &[u8],
        room: u32,
        files: &mut F,
        map: &mut M,
    ) -> Result<Blob, WireError>
        ensures step { (result, self.new) ≡ taken self.old self.old.left }
        ensures files { F.board files.new ≡ F.board files.old }
        ensures map { M.map map.new ≡ M.map map.old }
        ensures given { ((result, self.new) ≡ taken self.old self.old.left)
            × (boards (F.board files.new) (M.map map.new) ≡ boards (F.board files.old) (M.map map.old)) }
        ensures fault { HasCause self.old.faults result self.new.faults }
        ensures wire { KeepsWire (fake_wire self.old) (fake_wire self.new) }
        ensures boards { KeepsBoards (boards (F.board files.old) (M.map map.old))
            (boards (F.board files.new) (M.map map.new)) }
    {
        match self.steps.pop() {
            Some(WireStep::Bytes(bytes)) => Ok(bytes),
            Some(WireStep::Fail) | None => {
                self.faults = self.faults.saturating_add(1);
                Err(WireError::Fault)
            }
        }
    }
}
