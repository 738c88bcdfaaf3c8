ghost use Rattle.std.specs.Prelude.{◌≡◌, ◌<◌, ◌≤◌, IfOk};
ghost use Rattle.page_map.specs.Board.{known_files, log_at, is_at_chunk, is_moved};
ghost use Rattle.range_tree.specs.Trees.{max_ranges};
ghost use Rattle.range_tree.specs.Plain.{new_ranges, max_files};

use crate::slots::is_written;
use crate::trees::Tree;
use page_map::{
    LogEntry, MAX_CHUNKS, MapBoard, Mode, PAGES_OF_RANGE, RANGE_SIZE, RangeWord, Span, Target,
};
use plain_file::Memory;
use std::alloc::Global;
use std::marker::Model;

// What is placed in a range: a file's chunk, with the place of its `Place` in the file's log.
#[derive(Clone, Copy, Debug, PartialEq, Eq)]
pub(crate) struct Owner {
    pub(crate) file: u32,
    pub(crate) chunk: u32,
    pub(crate) mode: Mode,
    pub(crate) entry: u64,
}

// A noted look, with the pins that there were at it.
#[derive(Clone, Copy, Debug, PartialEq, Eq)]
pub(crate) struct Seen {
    pub(crate) word: RangeWord,
    pub(crate) own: u32,
}

/// Ranges that one guest has for itself. It may take them, nobody else may, and no call waits. It holds all
/// pages of the window, and lets be set and cleared what a board of ranges lets.
///
/// `find`, `may_set` and the calls that change a tree take time in proportion to the 32 chunks that a file
/// has placed at most, `new` and `forget_looks` to the ranges, and each other call takes the same time
/// always. `new` and `settle_mapped` alone take memory.
#[derive(Debug, Drop)]
pub struct PlainRanges {
    pub(crate) guest: u32,
    pub(crate) tree: Option<u32>,
    pub(crate) moves: Option<u32>,
    pub(crate) trees: Vec<Tree>,
    // The rest has an element per range.
    pub(crate) pins: Vec<u32>,
    pub(crate) pinned: Vec<Target>,
    pub(crate) looks: Vec<Option<Seen>>,
    pub(crate) targets: Vec<Option<Target>>,
    pub(crate) targeted: u64,
    pub(crate) sweeps: u64,
    pub(crate) rounds: u64,
    pub(crate) owners: Vec<Option<Owner>>,
    pub(crate) maps: Vec<Option<Target>>,
}

impl Model for PlainRanges {
    ghost use Rattle.page_map.specs.Board.{MapView};
    ghost use Rattle.range_tree.specs.Plain.{plain_view, all_noted, IsPlainRanges};

    ghost Value = { MapView };

    ghost view = { λ b. plain_view (record { guest = b.guest; tree = b.tree; moves = b.moves; pins = b.pins.items; logs = b.trees.items; pinned = b.pinned.items; looks = all_noted b.looks.items; targets = b.targets.items; targeted = b.targeted; sweeps = b.sweeps; rounds = b.rounds; owners = b.owners.items; maps = b.maps.items }) };

    ghost invariant = { λ b. IsPlainRanges (record { guest = b.guest; tree = b.tree; moves = b.moves; pins = b.pins.items; logs = b.trees.items; pinned = b.pinned.items; looks = all_noted b.looks.items; targets = b.targets.items; targeted = b.targeted; sweeps = b.sweeps; rounds = b.rounds; owners = b.owners.items; maps = b.maps.items }) };
}

impl PlainRanges {
    /// So many ranges, at most 256, for the guest of this number and the chunks of so many files, at most
    /// 64. All ranges are free, nothing is mapped, and the guest has nothing in hand. `Memory` comes where an
    /// allocation was refused.
    pub fn new(alloc: Global, ranges: u32, files: u32, guest: u32) -> Result<PlainRanges, Memory>
        requires ranges { ranges ≤ max_ranges }
        requires files { files ≤ max_files }
        ensures { IfOk result (λ b. b ≡ new_ranges ranges files guest) }
    {
        let mut trees = Vec::new(alloc);
        for _ in 0..files {
            trees.push(Tree::new(alloc))?;
        }
        let nothing = Target {
            file: 0,
            chunk: 0,
            mode: Mode::R,
        };
        let count = ranges as usize;
        Ok(PlainRanges {
            guest,
            tree: None,
            moves: None,
            trees,
            pins: vec![in alloc; 0; count]?,
            pinned: vec![in alloc; nothing; count]?,
            looks: vec![in alloc; None; count]?,
            targets: vec![in alloc; None; count]?,
            targeted: 0,
            sweeps: 0,
            rounds: 0,
            owners: vec![in alloc; None; count]?,
            maps: vec![in alloc; None; count]?,
        })
    }

    /// The whole placement log of a file, from its first entry on.
    pub fn log(&self, file: u32) -> &[LogEntry]
        requires { file < known_files self.now }
        ensures { result.now ≡ log_at self.now file }
    {
        self.trees[file as usize].log()
    }
}

// Whether a span begins with a chunk of one of so many files.
fn is_at_chunk(files: usize, span: &Span) -> bool
    ensures { result ≡ is_at_chunk files span.now }
{
    let known = span.node >= 2 && span.node - 2 < files as u64;
    known && span.foffset % RANGE_SIZE == 0 && span.foffset / RANGE_SIZE < MAX_CHUNKS as u64
}

// Whether an interval is the whole range that is moved.
#[tactic(auto, unfolding(page_map::specs::Board::is_moved))]
fn is_moved(moves: Option<u32>, moffset: u64, len: u64) -> bool
    ensures { result ≡ is_moved moves moffset len }
{
    match moves {
        Some(range) => moffset == range as u64 * RANGE_SIZE && len == RANGE_SIZE,
        None => false,
    }
}

impl MapBoard for PlainRanges {
    ghost map = { λ b. b };

    fn pages(&self) -> u32 {
        self.maps.len() as u32 * PAGES_OF_RANGE
    }

    #[tactic(auto, unfolding(page_map::specs::Board::may_set, page_map::specs::Board::placed_in))]
    fn may_set(&self, span: &Span) -> bool {
        if !is_at_chunk(self.trees.len(), span) {
            return false;
        }
        if is_moved(self.moves, span.moffset, span.len) {
            return true;
        }
        match self.tree {
            Some(file) => is_written(span.mode) && self.trees[file as usize].has_span(file, span),
            None => false,
        }
    }

    #[tactic(auto, unfolding(page_map::specs::Board::may_clear))]
    fn may_clear(&self, moffset: u64, len: u64) -> bool {
        is_moved(self.moves, moffset, len)
    }

    fn set(&mut self, span: &Span) {
        let map = &mut self.maps[(span.moffset / RANGE_SIZE) as usize];
        *map = Some(Target {
            file: (span.node - 2) as u32,
            chunk: (span.foffset / RANGE_SIZE) as u32,
            mode: span.mode,
        });
    }

    fn clear(&mut self, moffset: u64, _len: u64) {
        let range = (moffset / RANGE_SIZE) as usize;
        self.maps[range] = None;
    }

    fn sound(&self) {
        let _ = &self.maps;
    }
}
