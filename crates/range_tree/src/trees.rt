ghost use Rattle.std.specs.Prelude.{◌≡◌, ◌<◌, ◌≤◌, ◌+◌, ℕ, vec_len, vec_capacity, [], ◌∷◌, ◌++◌, None, length, map, IfOk, IfSome, IsSome, is_some, OnOk, OnErr, IsTrue};
ghost use Rattle.std.specs.List.{list_any};
ghost use Rattle.page_map.specs.Board.{chunk_in, is_chunk_of};
ghost use Rattle.page_map.specs.Logs.{placed_at, slot_in, slots_of, sound};
ghost use Rattle.page_map.specs.Window.{max_chunks};
ghost use Rattle.range_tree.specs.Logs.{Finds};
ghost use Rattle.range_tree.specs.Trees.{KeepsSound, IsReading, max_ranges, place_entry, upgrade_entry, remove_entry};

use crate::slots::{Spot, has_span, in_range, of_chunk, remove, spot_of, upgrade};
use page_map::{LogEntry, Mode, Placed, Span};
use plain_file::Memory;
use std::alloc::Global;
use std::marker::Model;

/// The tree of a file: which of its chunks are placed, in which ranges, and the log of how they came
/// there. Contracts see it as its log, from which all follows.
///
/// Its log is sound at any time. It has room for one removal of each placed chunk and one upgrade of each
/// that is placed for reading, all together, so that only `place` takes memory. Each call takes time in
/// proportion to the 32 chunks that are placed at once at most.
#[derive(Debug, Drop)]
pub struct Tree {
    spots: Vec<Spot>,
    log: Vec<LogEntry>,
}

impl Model for Tree {
    ghost use Rattle.std.specs.Prelude.{◌+◌, ◌≤◌, List, vec_len, vec_capacity};
    ghost use Rattle.page_map.specs.declared.ranges.LogEntry.{LogEntry};
    ghost use Rattle.range_tree.specs.Trees.{Agrees, slots_in, needed};

    ghost Value = { List LogEntry };

    ghost view = { λ t. t.log.items };

    ghost invariant = { λ t. Agrees (slots_in t.spots.items) t.log.items × (vec_len t.log + needed t.spots.items ≤ vec_capacity t.log) };
}

// Adds an entry for which there is room.
fn add(log: &mut Vec<LogEntry>, entry: LogEntry)
    requires { vec_len log.old < vec_capacity log.old }
    ensures items { log.new.items ≡ log.old.items ++ entry ∷ [] }
    ensures len { vec_len log.new ≡ vec_len log.old + 1 }
    ensures capacity { vec_capacity log.old ≤ vec_capacity log.new }
{
    log.push(entry).unwrap();
}

impl Tree {
    /// A tree in which nothing was placed yet. It takes no memory.
    pub fn new(alloc: Global) -> Tree
        ensures { result ≡ [] }
    {
        Tree {
            spots: Vec::new(alloc),
            log: Vec::new(alloc),
        }
    }

    /// Where a chunk is placed: its range, what the placement allows now, and the place of its `Place` in
    /// the log, which is live at the log's end. None exactly where no `Place` of it is live there.
    #[tactic(auto, unfolding(page_map::specs::Logs::placed_at))]
    pub fn find(&self, chunk: u32) -> Option<Placed>
        ensures placed { result ≡ placed_at self.now chunk }
        ensures live { Finds self.now chunk result }
    {
        let spot = of_chunk(&self.spots, chunk)?;
        Some(Placed {
            range: spot.range,
            mode: spot.mode,
            entry: spot.entry,
        })
    }

    /// Whether a chunk is placed in this range.
    #[tactic(auto, unfolding(page_map::specs::Logs::slot_in))]
    pub fn is_used(&self, range: u32) -> bool
        ensures { result ≡ is_some (slot_in self.now range) }
    {
        in_range(&self.spots, range).is_some()
    }

    /// Whether a span of the window is the whole of a placed chunk, in its range, where the tree is that of
    /// this file.
    #[tactic(auto, using(crate::proofs::Agreeing::any_span))]
    pub fn has_span(&self, file: u32, span: &Span) -> bool
        ensures { result ≡ list_any (is_chunk_of span.now) (map (chunk_in file) (slots_of self.now)) }
    {
        has_span(&self.spots, file, span)
    }

    /// Places a chunk in a range, neither of which is placed, and answers the place of its entry in the
    /// log. The chunk is below `MAX_CHUNKS`, and the range below 256.
    ///
    /// `Memory` comes where an allocation was refused; the tree is then as it was.
    pub fn place(&mut self, chunk: u32, range: u32, mode: Mode) -> Result<u64, Memory>
        requires chunk { chunk < max_chunks }
        requires range { range < max_ranges }
        requires free_chunk { placed_at self.old chunk ≡ None }
        requires free_range { slot_in self.old range ≡ None }
        ensures entry { IfOk result (λ n. n ≡ length self.old) }
        ensures ok { OnOk result (self.new ≡ self.old ++ place_entry chunk range mode ∷ []) }
        ensures err { OnErr result (self.new ≡ self.old) }
        ensures sound { (ranges : ℕ) → range < ranges → KeepsSound ranges self.old self.new }
    {
        let entry = self.log.len() as u64;
        let room = self.spots.len().saturating_mul(2).saturating_add(3);
        self.log.reserve(room)?;
        self.spots.push(Spot {
            chunk,
            range,
            mode,
            entry,
        })?;
        add(&mut self.log, LogEntry::Place { chunk, range, mode });
        Ok(entry)
    }

    /// A placed chunk, which was placed for reading and not upgraded since, may be written from here on.
    pub fn upgrade(&mut self, chunk: u32)
        requires placed { IsSome (placed_at self.old chunk) }
        requires reading { IfSome (placed_at self.old chunk) IsReading }
        ensures log { IfSome (placed_at self.old chunk) (λ p. self.new ≡ self.old ++ upgrade_entry p.range ∷ []) }
        ensures sound { (ranges : ℕ) → KeepsSound ranges self.old self.new }
    {
        let spot = spot_of(&self.spots, chunk);
        upgrade(&mut self.spots, spot.range);
        add(&mut self.log, LogEntry::Upgrade { range: spot.range });
    }

    /// A placed chunk isn't placed any more.
    pub fn remove(&mut self, chunk: u32)
        requires { IsSome (placed_at self.old chunk) }
        ensures log { IfSome (placed_at self.old chunk) (λ p. self.new ≡ self.old ++ remove_entry p.range ∷ []) }
        ensures sound { (ranges : ℕ) → KeepsSound ranges self.old self.new }
    {
        let spot = spot_of(&self.spots, chunk);
        remove(&mut self.spots, spot.range);
        add(&mut self.log, LogEntry::Remove { range: spot.range });
    }

    /// What was done to the tree, the oldest first.
    pub fn log(&self) -> &[LogEntry]
        ensures log { result.now ≡ self.now }
        ensures sound { IsTrue (sound max_ranges self.now) }
    {
        self.log.as_slice()
    }
}
