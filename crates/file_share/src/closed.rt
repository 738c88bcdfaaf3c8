ghost use Rattle.std.specs.Prelude.{◌≡◌, Some};
ghost use Rattle.plain_file.specs.History.{Past};
ghost use lib.ListN.{get_elem?};
ghost use mathlib.Core.Option.{some};

use atomic_table::Closed;
use plain_file::Body;
use std::alloc::Global;
use std::marker::Model;

/// The files of a table that was closed. No thread shares them any more.
pub struct ClosedFiles {
    pub(crate) closed: Closed<Option<Body>, Global>,
}

impl Model for ClosedFiles {
    ghost use Rattle.std.specs.Prelude.{List, Option};
    ghost use Rattle.std.specs.Slots.{slots_items, IsFull};
    ghost use Rattle.plain_file.specs.History.{Past};

    ghost Value = { List (Option Past) };

    ghost view = { λ c. slots_items c.closed.slots };

    ghost invariant = { λ c. IsFull c.closed.slots };
}

impl ClosedFiles {
    /// The contents of a file that is there, with its history.
    pub fn body(&self, file: usize) -> &Body
        requires there { (p : Past) × (get_elem? self.now file ≡ some (Some p)) }
        ensures { get_elem? self.now file ≡ some (Some result.now) }
    {
        let Some(body) = self.closed.slots.get(file) else {
            unreachable!()
        };
        body
    }
}

impl Drop for ClosedFiles {
    fn drop(self) {
        let ClosedFiles { mut closed } = self;
        let mut i = 0;
        while i < closed.slot_count() {
            drop(closed.take(i));
            i += 1;
        }
        closed.free();
    }
}
