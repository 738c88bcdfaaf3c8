ghost use Rattle.std.specs.Prelude.{◌≡◌, ◌≢◌, ◌<◌, length, slice_set, None, Some, IfOk, MatchBool, OnErr, OnOk};
ghost use Rattle.page_map.specs.Logs.{placed_at, slot_in};
ghost use Rattle.page_map.specs.Window.{max_chunks};
ghost use Rattle.range_tree.specs.Trees.{IsReading, max_ranges, place_entry, remove_entry, upgrade_entry};
ghost use Rattle.window_core.specs.Window.{IsPlaced, entered, grown, left, new_side};

use page_map::{Mode, Placed};
use plain_file::Memory;
use range_tree::Tree;
use std::alloc::Global;
use std::marker::Model;

// One file: its tree, who has it, and how much of its log each guest has seen.
#[derive(Debug, Drop)]
pub(crate) struct CoreSide {
    holder: Option<u32>,
    tree: Tree,
    seen: Vec<u64>,
}

impl Model for CoreSide {
    ghost use Rattle.window_core.specs.Window.{Side};

    ghost Value = { Side };

    ghost view = { λ s. record { holder = s.holder; log = s.tree; seen = s.seen.items } };
}

impl CoreSide {
    pub(crate) fn new(alloc: Global, guests: u32) -> Result<CoreSide, Memory>
        ensures { IfOk result (λ s. s ≡ new_side guests) }
    {
        Ok(CoreSide {
            holder: None,
            tree: Tree::new(alloc),
            seen: vec![in alloc; 0; guests as usize]?,
        })
    }

    pub(crate) fn tree(&self) -> &Tree
        ensures { result.now ≡ self.now.log }
    {
        &self.tree
    }

    pub(crate) fn is_free(&self) -> bool
        ensures { MatchBool result (self.now.holder ≡ None) (self.now.holder ≢ None) }
    {
        self.holder.is_none()
    }

    pub(crate) fn has_tree(&self, guest: u32) -> bool
        ensures { MatchBool result (self.now.holder ≡ Some guest) (self.now.holder ≢ Some guest) }
    {
        match self.holder {
            Some(holder) => holder == guest,
            None => false,
        }
    }

    pub(crate) fn find(&self, chunk: u32) -> Option<Placed>
        ensures { result ≡ placed_at self.now.log chunk }
    {
        self.tree.find(chunk)
    }

    // Whether a chunk is placed in this range.
    pub(crate) fn has_placed(&self, chunk: u32, range: u32) -> bool
        ensures { MatchBool result (IsPlaced self.now.log chunk range) (IsPlaced self.now.log chunk range → ⊥) }
    {
        match self.tree.find(chunk) {
            Some(placed) => placed.range == range,
            None => false,
        }
    }

    pub(crate) fn enter(&mut self, guest: u32)
        requires { guest < length self.old.seen }
        ensures { self.new ≡ entered guest self.old }
    {
        self.holder = Some(guest);
        self.see(guest);
    }

    pub(crate) fn leave(&mut self)
        ensures { self.new ≡ left self.old }
    {
        self.holder = None;
    }

    // The guest sees the whole log.
    fn see(&mut self, guest: u32)
        requires { guest < length self.old.seen }
        ensures { self.new ≡ record self.old { seen = slice_set self.old.seen guest (length self.old.log) } }
    {
        self.seen[guest as usize] = self.tree.log().len() as u64;
    }

    pub(crate) fn remove(&mut self, guest: u32, chunk: u32, range: u32)
        requires guest { guest < length self.old.seen }
        requires placed { IsPlaced self.old.log chunk range }
        ensures { self.new ≡ grown guest (remove_entry range) self.old }
    {
        self.tree.remove(chunk);
        self.see(guest);
    }

    pub(crate) fn upgrade(&mut self, guest: u32, chunk: u32, placed: Placed)
        requires guest { guest < length self.old.seen }
        requires placed { placed_at self.old.log chunk ≡ Some placed }
        requires reading { IsReading placed }
        ensures { self.new ≡ grown guest (upgrade_entry placed.range) self.old }
    {
        self.tree.upgrade(chunk);
        self.see(guest);
        let _ = placed;
    }

    pub(crate) fn place(
        &mut self,
        guest: u32,
        chunk: u32,
        range: u32,
        mode: Mode,
    ) -> Result<(), Memory>
        requires guest { guest < length self.old.seen }
        requires chunk { chunk < max_chunks }
        requires range { range < max_ranges }
        requires free_chunk { placed_at self.old.log chunk ≡ None }
        requires free_range { slot_in self.old.log range ≡ None }
        ensures ok { OnOk result (self.new ≡ grown guest (place_entry chunk range mode) self.old) }
        ensures err { OnErr result (self.new ≡ self.old) }
    {
        self.tree.place(chunk, range, mode)?;
        self.see(guest);
        Ok(())
    }
}
