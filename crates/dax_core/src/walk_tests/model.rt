//! A plain model of the core: what the table of events says, over arrays and lists, with each guest's hands in one place.

use crate::events::Event;
use page_map::{LogEntry, Mode, Placed, RangeWord, Target};
use plain_file::{Entry, MAX_FILE, Memory, Op};
use std::alloc::Global;

// How many ranges, files and guests there are.
pub(super) const RANGES: u32 = 4;

pub(super) const FILES: u32 = 2;

pub(super) const GUESTS: u32 = 3;

// A range: its word, what its pages are mapped to, and the place of its last placement in a log.
#[derive(Clone, Copy, Debug)]
pub(super) struct ModelRange {
    pub(super) word: RangeWord,
    pub(super) to: Option<Target>,
    pub(super) entry: u64,
}

const FREE: ModelRange = ModelRange {
    word: RangeWord::Free,
    to: None,
    entry: 0,
};

// What a guest has: a file's tree, a file's turn with the entry that was applied in it, a file's bar, leases on each file,
// and pins, the oldest first.
#[derive(Debug, Drop)]
pub(super) struct ModelGuest {
    pub(super) tree: Option<u32>,
    pub(super) turn: Option<u32>,
    pub(super) applied: Option<Entry>,
    pub(super) bar: Option<u32>,
    pub(super) leases: [u32; 2],
    pub(super) pins: Vec<u32>,
}

#[derive(Debug, Drop)]
pub(super) struct ModelFile {
    pub(super) size: u64,
    pub(super) history: Vec<Entry>,
    pub(super) log: Vec<LogEntry>,
}

#[derive(Debug, Drop)]
pub(super) struct Model {
    pub(super) ranges: [ModelRange; 4],
    pub(super) guests: Vec<ModelGuest>,
    pub(super) files: Vec<ModelFile>,
}

// A file's size after an operation.
pub(super) fn size_after(size: u64, op: &Op) -> u64 {
    match op {
        Op::Write { off, bytes } if bytes.len() > 0 => {
            size.max(off.wrapping_add(bytes.len() as u64))
        }
        Op::Truncate { size } => *size,
        _ => size,
    }
}

// Whether the file that an operation makes is short enough.
fn is_short(op: &Op) -> bool {
    match op {
        Op::Write { off, bytes } => off.saturating_add(bytes.len() as u64) <= MAX_FILE,
        Op::Truncate { size } => *size <= MAX_FILE,
        _ => true,
    }
}

impl ModelGuest {
    fn leases(&self, file: u32) -> u32 {
        match self.leases.get(file as usize) {
            Some(leases) => *leases,
            None => 0,
        }
    }

    // The place of the oldest pin on the range.
    pub(super) fn oldest(&self, range: u32) -> Option<usize> {
        for at in 0..self.pins.len() {
            if self.pins[at] == range {
                return Some(at);
            }
        }
        None
    }
}

impl Model {
    pub(super) fn new(alloc: Global, size: u64) -> Result<Model, Memory> {
        let mut model = Model {
            ranges: [FREE; 4],
            guests: Vec::new(alloc),
            files: Vec::new(alloc),
        };
        for _guest in 0..GUESTS {
            model.guests.push(ModelGuest {
                tree: None,
                turn: None,
                applied: None,
                bar: None,
                leases: [0; 2],
                pins: Vec::new(alloc),
            })?;
        }
        for _file in 0..FILES {
            model.files.push(ModelFile {
                size,
                history: Vec::new(alloc),
                log: Vec::new(alloc),
            })?;
        }
        Ok(model)
    }

    // ---- what is there

    // The range; one that the window doesn't have is free.
    pub(super) fn range(&self, range: u32) -> ModelRange {
        match self.ranges.get(range as usize) {
            Some(range) => *range,
            None => FREE,
        }
    }

    // Where the chunk is placed.
    pub(super) fn find(&self, file: u32, chunk: u32) -> Option<Placed> {
        for range in 0..RANGES {
            if let Some(placed) = self.placed_in(file, chunk, range) {
                return Some(placed);
            }
        }
        None
    }

    // The placement in the range, where it is that of the chunk.
    fn placed_in(&self, file: u32, chunk: u32, range: u32) -> Option<Placed> {
        let there = self.ranges.get(range as usize)?;
        match there.word {
            RangeWord::Mapped {
                file: f,
                chunk: c,
                mode,
                ..
            } if f == file && c == chunk => Some(Placed {
                range,
                mode,
                entry: there.entry,
            }),
            _ => None,
        }
    }

    // The range that the guest moves.
    pub(super) fn moved_by(&self, guest: u32) -> Option<u32> {
        for range in 0..RANGES {
            if self.range(range).word == (RangeWord::Moving { guest }) {
                return Some(range);
            }
        }
        None
    }

    // Where the range is mapped, for writing.
    pub(super) fn writing_at(&self, range: u32) -> Option<Target> {
        match self.range(range).word {
            RangeWord::Mapped { file, chunk, .. } => Some(Target {
                file,
                chunk,
                mode: Mode::W,
            }),
            _ => None,
        }
    }

    // ---- what is allowed

    fn nobody_has_tree(&self, file: u32) -> bool {
        file < FILES && self.guests.iter().all(|guest| guest.tree != Some(file))
    }

    fn nobody_has_turn(&self, file: u32) -> bool {
        file < FILES && self.guests.iter().all(|guest| guest.turn != Some(file))
    }

    fn nobody_has_bar(&self, file: u32) -> bool {
        file < FILES && self.guests.iter().all(|guest| guest.bar != Some(file))
    }

    fn nobody_leases(&self, file: u32) -> bool {
        self.guests.iter().all(|guest| guest.leases(file) == 0)
    }

    // Whether the range is placed in the tree that the guest has.
    fn is_in_tree(&self, me: &ModelGuest, range: u32) -> bool {
        match self.range(range).word {
            RangeWord::Mapped { file, .. } => range < RANGES && me.tree == Some(file),
            _ => false,
        }
    }

    fn may_take(&self, me: &ModelGuest, guest: u32, range: u32) -> bool {
        if range >= RANGES || self.moved_by(guest).is_some() {
            return false;
        }
        match self.range(range).word {
            RangeWord::Free => true,
            RangeWord::Moving { .. } => false,
            RangeWord::Mapped { file, pins, .. } => pins == 0 && me.tree == Some(file),
        }
    }

    fn may_map(&self, me: &ModelGuest, guest: u32, range: u32, to: Option<Target>) -> bool {
        let moves = range < RANGES && self.moved_by(guest) == Some(range);
        match to {
            None => moves,
            Some(Target { file, chunk, mode }) => {
                let placed = range < RANGES && self.placed_in(file, chunk, range).is_some();
                let raised = placed && me.tree == Some(file) && mode == Mode::W;
                file < FILES && chunk < 32 && (moves || raised)
            }
        }
    }

    fn may_settle(&self, me: &ModelGuest, guest: u32, chunk: u32, mode: Mode) -> bool {
        let Some(range) = self.moved_by(guest) else {
            return false;
        };
        let Some(file) = me.tree else {
            return false;
        };
        let to = Target { file, chunk, mode };
        self.range(range).to == Some(to) && self.find(file, chunk).is_none()
    }

    fn may_upgrade(&self, me: &ModelGuest, range: u32) -> bool {
        let reads = matches!(
            self.range(range).word,
            RangeWord::Mapped { mode: Mode::R, .. }
        );
        reads && self.is_in_tree(me, range) && self.range(range).to == self.writing_at(range)
    }

    fn may_set(&self, me: &ModelGuest, guest: u32, entry: &Entry) -> bool {
        let Some(at) = me.turn else {
            return false;
        };
        let Some(file) = self.files.get(at as usize) else {
            return false;
        };
        let barred = me.bar == Some(at);
        me.applied.is_none()
            && entry.guest == guest
            && is_short(&entry.op)
            && (barred || size_after(file.size, &entry.op) >= file.size)
    }

    fn allows_on_window(&self, me: &ModelGuest, guest: u32, event: &Event) -> bool {
        match event {
            Event::Enter { file } => me.tree.is_none() && self.nobody_has_tree(*file),
            Event::Leave => me.tree.is_some(),
            Event::Look { range } => *range < RANGES,
            Event::Take { range } => self.may_take(me, guest, *range),
            Event::SetMap { range, to } => self.may_map(me, guest, *range, *to),
            Event::SettleMapped { chunk, mode } => self.may_settle(me, guest, *chunk, *mode),
            Event::SettleFree => self.moved_by(guest).is_some(),
            Event::Pin { range } => self.is_in_tree(me, *range) && me.pins.len() < 64,
            Event::Unpin { range } => me.oldest(*range).is_some(),
            Event::Upgrade { range } => self.may_upgrade(me, *range),
            _ => false,
        }
    }

    fn allows_on_files(&self, me: &ModelGuest, guest: u32, event: &Event) -> bool {
        match event {
            Event::TakeTurn { file } => me.turn.is_none() && self.nobody_has_turn(*file),
            Event::SetSize { entry } => self.may_set(me, guest, entry),
            Event::GiveTurn => me.turn.is_some(),
            Event::Lease { file } => me.leases(*file) < 64 && self.nobody_has_bar(*file),
            Event::NoteSize { file } => *file < FILES,
            Event::Unlease { file } => me.leases(*file) > 0,
            Event::Bar { file } => {
                me.bar.is_none() && self.nobody_has_bar(*file) && self.nobody_leases(*file)
            }
            Event::Unbar { file } => me.bar == Some(*file),
            _ => false,
        }
    }

    // Whether the guest may do this.
    pub(super) fn allows(&self, guest: u32, event: &Event) -> bool {
        match self.guests.get(guest as usize) {
            Some(me) => {
                self.allows_on_window(me, guest, event) || self.allows_on_files(me, guest, event)
            }
            None => false,
        }
    }
}
