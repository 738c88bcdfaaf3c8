ghost use Rattle.std.specs.Prelude.{◌≡◌, Some, List};
ghost use Rattle.page_map.specs.declared.ranges.LogEntry.{LogEntry};
ghost use lib.ListN.{get_elem?};
ghost use mathlib.Core.Option.{some};

use atomic_table::Closed;
use range_tree::Tree;
use std::alloc::Global;
use std::marker::Model;

/// The trees of a table that was closed. No thread shares them any more.
pub struct ClosedTrees {
    pub(crate) closed: Closed<Option<Tree>, Global>,
}

impl Model for ClosedTrees {
    ghost use Rattle.std.specs.Prelude.{List, Option};
    ghost use Rattle.std.specs.Slots.{slots_items, IsFull};
    ghost use Rattle.page_map.specs.declared.ranges.LogEntry.{LogEntry};

    ghost Value = { List (Option (List LogEntry)) };

    ghost view = { λ c. slots_items c.closed.slots };

    ghost invariant = { λ c. IsFull c.closed.slots };
}

impl ClosedTrees {
    /// The tree of a file that is there, with its log.
    pub fn tree(&self, file: usize) -> &Tree
        requires there { (log : List LogEntry) × (get_elem? self.now file ≡ some (Some log)) }
        ensures { get_elem? self.now file ≡ some (Some result.now) }
    {
        let Some(tree) = self.closed.slots.get(file) else {
            unreachable!()
        };
        tree
    }
}

impl Drop for ClosedTrees {
    fn drop(self) {
        let ClosedTrees { mut closed } = self;
        let mut i = 0;
        while i < closed.slot_count() {
            drop(closed.take(i));
            i += 1;
        }
        closed.free();
    }
}
