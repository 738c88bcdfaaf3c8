ghost use Rattle.std.specs.Prelude.{◌≡◌, ◌&&◌, vec_len, nat_lt, is_some, replicate, None, if◌then◌else◌};
ghost use Rattle.std.specs.List.{list_all};
ghost use Rattle.plain_file.specs.Counts.{more_by_one};
ghost use Rattle.range_tree.specs.Ranges.{is_takeable, is_blocked};
ghost use Rattle.range_tree.specs.Plain.{plain_word, is_seen_blocked};

use crate::boards::RangeBoard;
use crate::plain::{Owner, PlainRanges, Seen};
use page_map::{Mode, Placed, RangeWord, Target};
use plain_file::Memory;
use std::sync::Wait;

// The word of a range with so many pins, by what is placed there.
#[tactic(auto, unfolding(crate::specs::Plain::plain_word, crate::specs::Plain::word_owned))]
fn word_of(moves: Option<u32>, guest: u32, range: u32, pins: u32, owner: Option<Owner>) -> RangeWord
    ensures { result ≡ plain_word moves guest range pins owner }
{
    if moves == Some(range) {
        return RangeWord::Moving { guest };
    }
    match owner {
        None => RangeWord::Free,
        Some(o) => RangeWord::Mapped {
            file: o.file,
            chunk: o.chunk,
            mode: o.mode,
            pins,
        },
    }
}

// Whether the word lets who has this tree take the range.
#[tactic(auto, unfolding(crate::specs::Ranges::is_takeable))]
fn is_takeable(tree: Option<u32>, word: RangeWord) -> bool
    ensures { result ≡ is_takeable tree word }
{
    match word {
        RangeWord::Free => true,
        RangeWord::Moving { .. } => false,
        RangeWord::Mapped { file, pins, .. } => match tree {
            Some(t) => t == file && pins == 0,
            None => false,
        },
    }
}

#[tactic(auto, unfolding(crate::specs::Ranges::is_blocked))]
fn is_blocked(word: RangeWord) -> bool
    ensures { result ≡ is_blocked word }
{
    match word {
        RangeWord::Free => false,
        RangeWord::Moving { .. } => true,
        RangeWord::Mapped { pins, .. } => pins > 0,
    }
}

// Whether a look is noted, and is one of a blocked range.
#[tactic(auto, unfolding(crate::specs::Ranges::is_noted_blocked))]
fn is_seen_blocked(look: &Option<Seen>) -> bool
    ensures { result ≡ is_seen_blocked look.now }
{
    match look {
        Some(seen) => is_blocked(seen.word),
        None => false,
    }
}

fn all_looked(looks: &[Option<Seen>]) -> bool
    ensures { result ≡ list_all is_some looks.now }
{
    looks.iter().all(|look| look.is_some())
}

fn all_blocked(looks: &[Option<Seen>]) -> bool
    ensures { result ≡ list_all is_seen_blocked looks.now }
{
    looks.iter().all(|look| is_seen_blocked(look))
}

// A count of what was so of all ranges, where there are ranges; it goes up to the last u64.
fn counted(count: u64, ranges: usize, all: bool) -> u64
    ensures { result ≡ (if nat_lt 0 ranges && all then more_by_one count else count) }
{
    if ranges > 0 && all {
        count.saturating_add(1)
    } else {
        count
    }
}

fn clear_looks(looks: &mut Vec<Option<Seen>>)
    ensures { looks.new.items ≡ replicate (vec_len looks.old) None }
{
    looks.fill(None);
}

impl RangeBoard for PlainRanges {
    fn ranges(&self) -> u32 {
        self.pins.len() as u32
    }

    fn enter<W: Wait>(&mut self, _rt: &W, file: u32) {
        self.tree = Some(file);
    }

    fn leave(&mut self) {
        self.tree = None;
    }

    fn find(&self, chunk: u32) -> Option<Placed> {
        let Some(file) = self.tree else {
            unreachable!()
        };
        self.trees[file as usize].find(chunk)
    }

    fn log_len(&self) -> u64 {
        let Some(file) = self.tree else {
            unreachable!()
        };
        self.trees[file as usize].log().len() as u64
    }

    fn moved(&self) -> Option<u32> {
        self.moves
    }

    fn look(&mut self, range: u32) -> RangeWord {
        let own = self.pins[range as usize];
        let owner = self.owners[range as usize];
        let word = word_of(self.moves, self.guest, range, own, owner);
        self.looks[range as usize] = Some(Seen { word, own });
        word
    }

    fn looked(&self, range: u32) -> Option<RangeWord> {
        match self.looks[range as usize] {
            Some(seen) => Some(seen.word),
            None => None,
        }
    }

    fn forget_looks(&mut self) {
        let ranges = self.looks.len();
        self.sweeps = counted(self.sweeps, ranges, all_looked(&self.looks));
        self.rounds = counted(self.rounds, ranges, all_blocked(&self.looks));
        clear_looks(&mut self.looks);
    }

    fn take(&mut self, range: u32) -> Result<(), RangeWord> {
        let own = self.pins[range as usize];
        let owner = self.owners[range as usize];
        let word = word_of(self.moves, self.guest, range, own, owner);
        if !is_takeable(self.tree, word) {
            self.looks[range as usize] = Some(Seen { word, own });
            return Err(word);
        }
        let Some(o) = owner else {
            self.moves = Some(range);
            return Ok(());
        };
        self.trees[o.file as usize].remove(o.chunk);
        self.owners[range as usize] = None;
        self.moves = Some(range);
        Ok(())
    }

    fn settle_mapped(&mut self, chunk: u32, mode: Mode) -> Result<u64, Memory> {
        let (Some(file), Some(range)) = (self.tree, self.moves) else {
            unreachable!()
        };
        let entry = self.trees[file as usize].place(chunk, range, mode)?;
        self.owners[range as usize] = Some(Owner {
            file,
            chunk,
            mode,
            entry,
        });
        self.moves = None;
        Ok(entry)
    }

    fn settle_free(&mut self) {
        self.moves = None;
    }

    fn upgrade(&mut self, chunk: u32) {
        let Some(file) = self.tree else {
            unreachable!()
        };
        let Some(placed) = self.trees[file as usize].find(chunk) else {
            unreachable!()
        };
        self.trees[file as usize].upgrade(chunk);
        self.owners[placed.range as usize] = Some(Owner {
            file,
            chunk,
            mode: Mode::W,
            entry: placed.entry,
        });
    }

    fn pin(&mut self, range: u32) {
        let Some(o) = self.owners[range as usize] else {
            unreachable!()
        };
        self.pins[range as usize] += 1;
        self.pinned[range as usize] = Target {
            file: o.file,
            chunk: o.chunk,
            mode: o.mode,
        };
    }

    fn unpin(&mut self, range: u32) {
        self.pins[range as usize] -= 1;
    }

    fn target(&mut self, range: u32) -> Option<Target> {
        let target = self.maps[range as usize];
        self.targets[range as usize] = target;
        self.targeted = self.targeted.saturating_add(1);
        target
    }

    fn sound_ranges(&self) {
        let _ = &self.maps;
    }
}
