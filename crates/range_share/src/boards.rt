ghost use Rattle.std.specs.Prelude.{◌≡◌, ◌<◌};
ghost use Rattle.page_map.specs.Board.{is_at_chunk, is_moved};
ghost use Rattle.page_map.specs.Logs.{is_writable};
ghost use Rattle.range_share.specs.Boards.{board_of, PinsSeen};

use crate::table::{RangePass, RangeTable};
use page_map::{
    MAX_CHUNKS, MapBoard, Mode, PAGES_OF_RANGE, Placed, RANGE_SIZE, RangeWord, Span, Target,
};
use plain_file::Memory;
use range_tree::RangeBoard;
use std::sync::Wait;

/// A pass on a table, of a guest that may move ranges and pin them, as a board of ranges. Its calls wait where the
/// pass's do.
#[derive(Drop)]
pub struct SeatMap<'a> {
    /// The table.
    pub table: &'a RangeTable,
    /// A pass of that table.
    pub pass: RangePass,
    /// The pass is the table's.
    pub ghost own: { pass.table ≡ table.now },
    /// Its guest may move ranges.
    pub ghost may: { pass.view.guest < pass.view.mine.movers },
    /// Each of its pins was made from entries that it has seen, which allowed what the pin allows.
    pub ghost pinned: { PinsSeen pass.view },
}

// Whether a span begins with a chunk of one of so many files.
fn is_at_chunk(files: u32, span: &Span) -> bool
    ensures { result ≡ is_at_chunk files span.now }
{
    let known = span.node >= 2 && span.node - 2 < files as u64;
    known && span.foffset % RANGE_SIZE == 0 && span.foffset / RANGE_SIZE < MAX_CHUNKS as u64
}

// Whether an interval is the whole range that is moved.
#[tactic(auto, unfolding(page_map::specs::Board::is_moved))]
fn is_moved(moves: Option<u32>, moffset: u64, len: u64) -> bool
    ensures { result ≡ is_moved moves moffset len }
{
    match moves {
        Some(range) => moffset == range as u64 * RANGE_SIZE && len == RANGE_SIZE,
        None => false,
    }
}

// Whether a mode allows writing.
#[tactic(auto, unfolding(page_map::specs::Logs::is_writable))]
fn is_written(mode: Mode) -> bool
    ensures { result ≡ is_writable mode }
{
    match mode {
        Mode::R => false,
        Mode::W => true,
    }
}

impl<'a> SeatMap<'a> {
    /// A board over a table, by a pass of that table, whose guest may move ranges.
    pub fn new(table: &'a RangeTable, pass: RangePass) -> SeatMap<'a>
        requires own { pass.table ≡ table.now }
        requires may { pass.view.guest < pass.view.mine.movers }
        requires pinned { PinsSeen pass.view }
        ensures table { result.table.now ≡ table.now }
        ensures pass { result.pass ≡ pass }
    {
        SeatMap { table, pass }
    }
}

impl<'a> MapBoard for SeatMap<'a> {
    ghost map = { λ b. board_of b.pass };

    fn pages(&self) -> u32 {
        self.pass.sound();
        self.table.ranges() * PAGES_OF_RANGE
    }

    fn may_set(&self, span: &Span) -> bool {
        self.pass.sound();
        if !is_at_chunk(self.table.files(), span) {
            return false;
        }
        if is_moved(self.pass.moved(), span.moffset, span.len) {
            return true;
        }
        is_written(span.mode) && self.pass.has_span(span)
    }

    fn may_clear(&self, moffset: u64, len: u64) -> bool {
        self.pass.sound();
        is_moved(self.pass.moved(), moffset, len)
    }

    fn set(&mut self, span: &Span) {
        self.pass.sound();
        let to = Target {
            file: (span.node - 2) as u32,
            chunk: (span.foffset / RANGE_SIZE) as u32,
            mode: span.mode,
        };
        let range = (span.moffset / RANGE_SIZE) as usize;
        self.pass.set_map(self.table, range, Some(to));
    }

    fn clear(&mut self, moffset: u64, _len: u64) {
        self.pass.sound();
        let range = (moffset / RANGE_SIZE) as usize;
        self.pass.set_map(self.table, range, None);
    }

    fn sound(&self) {}
}

impl<'a> RangeBoard for SeatMap<'a> {
    fn ranges(&self) -> u32 {
        self.pass.sound();
        self.table.ranges()
    }

    fn enter<W: Wait>(&mut self, rt: &W, file: u32) {
        self.pass.sound();
        self.pass.enter(rt, self.table, file as usize);
    }

    fn leave(&mut self) {
        self.pass.sound();
        let Some(file) = self.pass.tree_file() else {
            unreachable!()
        };
        self.pass.leave(self.table, file as usize);
    }

    fn find(&self, chunk: u32) -> Option<Placed> {
        self.pass.sound();
        let Some(file) = self.pass.tree_file() else {
            unreachable!()
        };
        self.pass.tree(file as usize).find(chunk)
    }

    fn log_len(&self) -> u64 {
        self.pass.sound();
        let Some(file) = self.pass.tree_file() else {
            unreachable!()
        };
        self.pass.tree(file as usize).log().len() as u64
    }

    fn moved(&self) -> Option<u32> {
        self.pass.sound();
        self.pass.moved()
    }

    fn look(&mut self, range: u32) -> RangeWord {
        self.pass.look(self.table, range as usize)
    }

    fn looked(&self, range: u32) -> Option<RangeWord> {
        self.pass.looked(range as usize)
    }

    fn forget_looks(&mut self) {
        self.pass.forget_looks(self.table);
    }

    fn take(&mut self, range: u32) -> Result<(), RangeWord> {
        self.pass.sound();
        self.pass.take(self.table, range as usize)
    }

    fn settle_mapped(&mut self, chunk: u32, mode: Mode) -> Result<u64, Memory> {
        self.pass.sound();
        let Some(range) = self.pass.moved() else {
            unreachable!()
        };
        let Some(file) = self.pass.tree_file() else {
            unreachable!()
        };
        self.pass
            .settle_mapped(self.table, range as usize, file, chunk, mode)
    }

    fn settle_free(&mut self) {
        self.pass.sound();
        let Some(range) = self.pass.moved() else {
            unreachable!()
        };
        self.pass.settle_free(self.table, range as usize);
    }

    fn upgrade(&mut self, chunk: u32) {
        self.pass.sound();
        let Some(file) = self.pass.tree_file() else {
            unreachable!()
        };
        self.pass.upgrade(self.table, file, chunk);
    }

    fn pin(&mut self, range: u32) {
        self.pass.sound();
        self.pass.pin(self.table, range as usize);
    }

    fn unpin(&mut self, range: u32) {
        self.pass.unpin(self.table, range as usize);
    }

    fn target(&mut self, range: u32) -> Option<Target> {
        self.pass.sound();
        self.pass.target(self.table, range as usize)
    }

    fn sound_ranges(&self) {
        self.pass.sound();
    }
}
