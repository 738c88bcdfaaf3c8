ghost use Rattle.std.specs.Prelude.{◌≡◌, ◌+◌, ◌*◌, ◌<◌, ◌≤◌, ◌∷◌, ℕ, [], true, false, None, Some, IfOk, IfSome, IsTrue, is_some, length, MatchOption};
ghost use Rattle.seats.specs.Views.{AllIn, IsOut, MayGive, guests};
ghost use Rattle.page_map.specs.declared.pages.Mode.TheVariants as modes;
ghost use Rattle.page_map.specs.declared.ranges.Placed.{Placed};
ghost use Rattle.page_map.specs.Logs.{placed_at, sound};
ghost use Rattle.page_map.specs.Window.{max_chunks};
ghost use Rattle.window_core.specs.Window.{enter, leave, pins_on, set_map, settle_free, side, target_of, unpin, upgrade, word_at};
ghost use Rattle.range_share.specs.Packed.{TargetFits};
ghost use Rattle.range_share.specs.Table.{IsIdle, others_may};
ghost use Rattle.range_share.specs.Steps.{Always, AtRest, DoesSo, HasIn, IsShowing, LogsBack, MaySetIn, Stands, TellsIn, Treeless, branch_of, files_of, map_shown, may_take_in, moves_at, ranges_of, saw, take_of};
ghost use Rattle.range_share.specs.Known.{Aimed, AsSeen, Entered, HasChunk, IsDeed, IsPinNoted, IsReread, Looked, Loses, PinsOne, Settles, Sound, Takes, TookIn, child_pass, first_pass, forgetting, known, may_take_by, no_looks, parent_pass, word_in, HasSpan};

use crate::closed::ClosedTrees;
use crate::rule::{Noting, Sizes};
use crate::share::{Board, close, cut, merge, open};
use crate::steps::{
    Chair, Top, add_pin, drop_pin, look_at, note, peek_at, point, put_map, put_tree, raise,
    settle_in, settle_out, try_enter, try_take,
};
use page_map::{LogEntry, Mode, Placed, RangeWord, Span, Target};
use plain_file::{List, Memory};
use range_tree::Tree;
use std::alloc::Global;
use std::marker::{Brand, Model};
use std::sync::Wait;

/// The most ranges that a table has.
pub const MAX_RANGES: usize = 256;

/// Ranges of a window that several guests share, and the trees of the files that are placed there. Any number of
/// threads may use it at once, each with a pass.
#[derive(Drop)]
pub struct RangeTable {
    pub(crate) table: Board,
    pub(crate) sizes: Sizes,
}

impl Model for RangeTable {
    ghost use Rattle.std.specs.Prelude.{◌≡◌, ◌+◌, ◌*◌, ◌≤◌};
    ghost use Rattle.atomic_table.specs.Seated.{TableId, table_id_coded};

    ghost Value = { TableId };

    ghost coded = { table_id_coded };

    ghost view = { λ t. t.table.shared.table_id };

    ghost invariant = { λ t. (t.table.shared.table_id.words ≡ 8 * t.sizes.files + 8 * t.sizes.ranges + 8) × (t.table.shared.table_id.slots ≡ t.sizes.files) × (t.sizes.files ≤ 64) × (t.sizes.ranges ≤ 256) };
}

/// A guest's token on a table. It has the tree of the file whose tree it has.
#[derive(Drop)]
pub struct RangePass {
    seat: Chair,
    hand: Option<Tree>,
    file: usize,
    guest: u32,
    // The range that it moves.
    moves: Option<u32>,
    ranges: u32,
    files: u32,
    // Per range the newest look.
    looks: [Option<RangeWord>; MAX_RANGES],
}

impl Model for RangePass {
    ghost use Rattle.range_share.specs.Known.{Known, known, Sound};

    ghost Value = { Known };

    ghost view = { λ p. known p.seat };

    ghost invariant = { λ p. Sound p.seat p.hand p.file p.guest p.moves p.ranges p.files p.looks };
}

// A pass that did nothing yet.
fn new_pass(seat: Chair, guest: u32, sizes: Sizes) -> RangePass
    requires { Sound seat None 0 guest None sizes.ranges sizes.files no_looks }
    ensures { result ≡ known seat }
{
    RangePass {
        seat,
        hand: None,
        file: 0,
        guest,
        moves: None,
        ranges: sizes.ranges,
        files: sizes.files,
        looks: [None; MAX_RANGES],
    }
}

fn wait_enter<R: Wait>(rt: &R, top: &Top, seat: &mut Chair, file: usize, guest: u32) -> Tree
    requires at { Stands top.now.table_id seat.old × (file < top.now.table_id.slots) }
    requires guest { guest ≡ seat.old.me.0.guest }
    requires free { Treeless seat.old.me.0 × (seat.old.me.1 ≡ []) }
    ensures table { seat.new.table_id ≡ seat.old.table_id }
    ensures deed { DoesSo (enter file) seat.old.me.0.noted (λ c. result ≡ (side c.window file).log) seat.old.me.0 seat.new.me.0 × (seat.new.me.1 ≡ (file, None) ∷ []) }
    ensures alone { others_may seat.old.me.0.guest seat.old.me.0.mine.movers ≡ false → result ≡ (branch_of seat.old.me.0 file).seen }
    ensures joined { AllIn seat.old.me.0 → LogsBack seat.old.me.0.numbers file result }
{
    for _ in rt.forever() {
        if let Some(hand) = try_enter(top, seat, file, guest) {
            return hand;
        }
    }
    unreachable!()
}

impl RangePass {
    /// Does nothing. That is how a proof knows what holds of every pass: a good core shows it what it is
    /// shown; what is noted of a range that it pinned is what a pin of it has; and how many ranges and files
    /// its table has.
    pub fn sound(&self)
        ensures showing { IsShowing self.now.view }
        ensures noted { (r : ℕ) → 0 < pins_on r self.now.view.mine.shown.pins → IsPinNoted self.now.view r }
        ensures sizes { (self.now.table.words ≡ 8 * self.now.table.slots + 8 * ranges_of self.now.view + 8) × (files_of self.now.view ≡ self.now.table.slots) × (self.now.table.slots ≤ 64) × (ranges_of self.now.view ≤ 256) }
    {
        let _ = &self.guest;
    }

    /// Waits for the tree of a file, and takes it. The pass has no tree before. It then sees the whole log.
    /// Where no other guest may move ranges, it had seen all of it; where the pass is the table's first
    /// and every other is in, what each of them had seen begins it.
    pub fn enter<R: Wait>(&mut self, rt: &R, table: &RangeTable, file: usize)
        requires table { (self.old.table ≡ table.now) × (file < table.now.slots) }
        requires free { Treeless self.old.view }
        ensures { Entered file self.old self.new }
    {
        let hand = wait_enter(rt, &table.table.shared, &mut self.seat, file, self.guest);
        self.hand = Some(hand);
        self.file = file;
    }

    /// Gives back the tree of a file, which is had.
    pub fn leave(&mut self, table: &RangeTable, file: usize)
        requires table { self.old.table ≡ table.now }
        requires had { (branch_of self.old.view file).had ≡ true }
        ensures { IsDeed (leave file) self.old.view.noted Always self.old self.new }
    {
        let Some(tree) = self.hand.take() else {
            unreachable!()
        };
        put_tree(&table.table.shared, &mut self.seat, file, tree);
    }

    /// The file whose tree is had.
    pub fn tree_file(&self) -> Option<u32>
        ensures { MatchOption result (Treeless self.now.view) (λ f. (branch_of self.now.view f).had ≡ true) }
    {
        if self.hand.is_some() {
            Some(self.file as u32)
        } else {
            None
        }
    }

    /// The tree of a file, which is had.
    pub fn tree(&self, file: usize) -> &Tree
        requires { (branch_of self.now.view file).had ≡ true }
        ensures { result.now ≡ (branch_of self.now.view file).seen }
    {
        let Some(tree) = &self.hand else {
            unreachable!()
        };
        tree
    }

    /// The range that the pass moves.
    pub fn moved(&self) -> Option<u32>
        ensures { MatchOption result (AtRest self.now.view) (λ r. moves_at self.now.view r ≡ true) }
    {
        self.moves
    }

    /// The word of a range at one load, which is noted as a look.
    pub fn look(&mut self, table: &RangeTable, range: usize) -> RangeWord
        requires table { self.old.table ≡ table.now }
        requires range { range < ranges_of self.old.view }
        ensures { Looked range result self.old self.new }
    {
        let word = look_at(
            &table.table.shared,
            &mut self.seat,
            self.files as usize,
            range,
        );
        self.looks[range] = Some(word);
        word
    }

    /// The word of a range's newest look since the looks were forgotten; None where there is none.
    pub fn looked(&self, range: usize) -> Option<RangeWord>
        requires { range < ranges_of self.now.view }
        ensures { result ≡ word_in range self.now.view.noted.looks }
    {
        let looks = &self.looks;
        looks[range]
    }

    /// No look is noted from here on. Where a look of each range was noted, the pass counts a sweep, and where
    /// each of these words was moving or had pins, a round.
    pub fn forget_looks(&mut self, table: &RangeTable)
        requires { self.old.table ≡ table.now }
        ensures { self.new ≡ record self.old { view = record self.old.view { noted = forgetting (ranges_of self.old.view) self.old.view.noted } } }
    {
        forget::<Brand>(&table.table.shared, &mut self.seat);
        self.looks = [None; MAX_RANGES];
    }

    /// Takes a range: the pass moves it then, and where it was mapped, its tree loses the chunk and the log gets
    /// its `Remove`. The guest may move ranges, and the pass moves none. It makes one look, and where
    /// that word allows the take, one compare and exchange from it.
    ///
    /// `Err` comes exactly where the word that was seen last was neither free, nor mapped without pins to the
    /// file whose tree is had. It is noted as a look.
    pub fn take(&mut self, table: &RangeTable, range: usize) -> Result<(), RangeWord>
        requires table { self.old.table ≡ table.now }
        requires range { range < ranges_of self.old.view }
        requires may { self.old.view.guest < self.old.view.mine.movers }
        requires free { AtRest self.old.view }
        ensures { Takes range self.old result self.new }
    {
        let files = self.files as usize;
        let seen = peek_at(&table.table.shared, &mut self.seat, files, range);
        if !may_take(&self.hand, self.file, seen) {
            self.looks[range] = Some(seen);
            return Err(seen);
        }
        let found = try_take(
            &table.table.shared,
            &mut self.seat,
            files,
            range,
            seen,
            self.guest,
        );
        if let Some(word) = found {
            self.looks[range] = Some(word);
            return Err(word);
        }
        self.moves = Some(range as u32);
        remove(&mut self.hand, seen);
        Ok(())
    }

    /// Maps a range, or unmaps it. The pass moves it, or has the tree that has it there and maps it for
    /// writing. The guest may move ranges.
    pub fn set_map(&mut self, table: &RangeTable, range: usize, to: Option<Target>)
        requires table { self.old.table ≡ table.now }
        requires range { range < ranges_of self.old.view }
        requires may { self.old.view.guest < self.old.view.mine.movers }
        requires to { TargetFits to × IfSome to (λ t. t.file < table.now.slots) × MaySetIn self.old.view.mine range to }
        ensures { IsDeed (set_map range to) self.old.view.noted Always self.old self.new }
    {
        put_map(
            &table.table.shared,
            &mut self.seat,
            self.files as usize,
            range,
            to,
        );
    }

    /// Places a chunk of a file in the moved range, and answers the place of its entry in the file's log. The
    /// tree of the file is had, without the chunk, and the range is mapped to it with this mode.
    ///
    /// `Memory` comes where an allocation was refused; nothing has changed then.
    pub fn settle_mapped(
        &mut self,
        table: &RangeTable,
        range: usize,
        file: u32,
        chunk: u32,
        mode: Mode,
    ) -> Result<u64, Memory>
        requires table { self.old.table ≡ table.now }
        requires range { (range < ranges_of self.old.view) × (moves_at self.old.view range ≡ true) }
        requires place { (chunk < max_chunks) × (map_shown self.old.view.mine range ≡ Some (Some (target_of file chunk mode))) }
        requires had { ((branch_of self.old.view file).had ≡ true) × (placed_at (branch_of self.old.view file).seen chunk ≡ None) }
        ensures { Settles range file chunk mode self.old result self.new }
    {
        let Some(tree) = &mut self.hand else {
            unreachable!()
        };
        let place = tree.place(chunk, range as u32, mode)?;
        settle_in(
            &table.table.shared,
            &mut self.seat,
            self.files as usize,
            range,
            file,
            chunk,
            mode,
        );
        self.moves = None;
        Ok(place)
    }

    /// The moved range is free from here on.
    pub fn settle_free(&mut self, table: &RangeTable, range: usize)
        requires table { self.old.table ≡ table.now }
        requires range { (range < ranges_of self.old.view) × (moves_at self.old.view range ≡ true) }
        ensures { IsDeed (settle_free range) self.old.view.noted Always self.old self.new }
    {
        settle_out(
            &table.table.shared,
            &mut self.seat,
            self.files as usize,
            range,
        );
        self.moves = None;
    }

    /// Pins a range of the tree that is had: nobody takes it before the pin is given back. The guest may move
    /// ranges, and the pass has fewer than 64 pins. It is one step, which is never tried again.
    pub fn pin(&mut self, table: &RangeTable, range: usize)
        requires table { self.old.table ≡ table.now }
        requires range { range < ranges_of self.old.view }
        requires may { self.old.view.guest < self.old.view.mine.movers }
        requires had { (f : ℕ) × (c : ℕ) × (p : Placed) × HasIn self.old.view.mine f c p × (p.range ≡ range) }
        requires few { length self.old.view.mine.shown.pins < 64 }
        ensures { PinsOne range self.old self.new }
    {
        add_pin(
            &table.table.shared,
            &mut self.seat,
            self.files as usize,
            range,
        );
    }

    /// Gives back the pass's oldest pin on a range. It is one step, with or without the tree.
    pub fn unpin(&mut self, table: &RangeTable, range: usize)
        requires table { self.old.table ≡ table.now }
        requires range { (range < ranges_of self.old.view) × (0 < pins_on range self.old.view.mine.shown.pins) }
        ensures { IsDeed (unpin range) self.old.view.noted Always self.old self.new }
    {
        drop_pin(
            &table.table.shared,
            &mut self.seat,
            self.files as usize,
            range,
        );
    }

    /// A chunk may be written from here on, which is placed for reading in the tree of the file that is had.
    /// Its range is mapped to it for writing. The guest may move ranges.
    pub fn upgrade(&mut self, table: &RangeTable, file: u32, chunk: u32)
        requires table { self.old.table ≡ table.now }
        requires may { self.old.view.guest < self.old.view.mine.movers }
        requires had { (p : Placed) × HasIn self.old.view.mine file chunk p × (p.mode ≡ modes.R) × (map_shown self.old.view.mine p.range ≡ Some (Some (target_of file chunk modes.W))) }
        ensures { (p : Placed) → HasIn self.old.view.mine file chunk p → IsDeed (upgrade file chunk p) self.old.view.noted Always self.old self.new }
    {
        let Some(tree) = &mut self.hand else {
            unreachable!()
        };
        let Some(placed) = tree.find(chunk) else {
            unreachable!()
        };
        tree.upgrade(chunk);
        raise(
            &table.table.shared,
            &mut self.seat,
            self.files as usize,
            placed.range as usize,
        );
    }

    /// What a range is mapped to, at one load, which is noted. A pinned range is mapped to the pin's file and
    /// chunk, with a mode that allows at least the pin's; a range that the pass moves or has in its tree, to
    /// what it mapped there.
    pub fn target(&mut self, table: &RangeTable, range: usize) -> Option<Target>
        requires table { self.old.table ≡ table.now }
        requires range { range < ranges_of self.old.view }
        ensures { Aimed range result self.old self.new }
    {
        point(
            &table.table.shared,
            &mut self.seat,
            self.files as usize,
            range,
        )
    }

    /// Whether a span is the whole of a chunk in its range, where the tree of a file is had.
    pub fn has_span(&self, span: &Span) -> bool
        ensures { HasSpan self.now.view span.now result }
    {
        match &self.hand {
            Some(tree) => tree.has_span(self.file as u32, span),
            None => false,
        }
    }
}

// The range was taken from this word: the tree in hand loses its chunk.
fn remove(hand: &mut Option<Tree>, word: RangeWord)
    requires { HasChunk word hand.old }
    ensures { Loses word hand.old hand.new }
{
    if let RangeWord::Mapped { chunk, .. } = word {
        let Some(tree) = hand else { unreachable!() };
        tree.remove(chunk);
    }
}

// Whether a range that is seen so may be taken.
fn may_take(hand: &Option<Tree>, file: usize, word: RangeWord) -> bool
    ensures { result ≡ may_take_by (is_some hand.now) file word }
{
    match word {
        RangeWord::Free => true,
        RangeWord::Moving { .. } => false,
        RangeWord::Mapped {
            file: mapped,
            pins,
            ..
        } => { pins == 0 && hand.is_some() && mapped as usize == file }
    }
}

fn forget<J: Noting>(top: &Top, seat: &mut Chair)
    requires at { Stands top.now.table_id seat.old }
    requires noted { J.noted ≡ forgetting (ranges_of seat.old.me.0) seat.old.me.0.noted }
    ensures table { seat.new.table_id ≡ seat.old.table_id }
    ensures noted { seat.new.me ≡ (record seat.old.me.0 { noted = forgetting (ranges_of seat.old.me.0) seat.old.me.0.noted }, seat.old.me.1) }
{
    note::<J>(top, seat);
}

impl RangeTable {
    /// A table of so many free ranges, at most 256, of which nothing is mapped, and so many files, at most 64, of which
    /// nothing is placed; and its first pass. Guests with numbers below `movers` may move ranges and pin them.
    /// `Memory` comes where an allocation was refused.
    pub fn new(
        alloc: Global,
        ranges: u32,
        files: u32,
        movers: u32,
    ) -> Result<(RangeTable, RangePass), Memory>
        requires few { (ranges ≤ 256) × (files ≤ 64) }
        ensures count { IfOk result (λ t. t.0.slots ≡ files) }
        ensures first { IfOk result (λ t. t.1 ≡ first_pass t.0 ranges files movers) }
    {
        let sizes = Sizes {
            ranges,
            files,
            movers,
        };
        let (table, seat) = open(alloc, sizes)?;
        let pass = new_pass(seat, 32, sizes);
        Ok((RangeTable { table, sizes }, pass))
    }

    /// How many ranges there are.
    pub fn ranges(&self) -> u32
        ensures { self.now.words ≡ 8 * self.now.slots + 8 * result + 8 }
    {
        self.sizes.ranges
    }

    /// How many files there are.
    pub fn files(&self) -> u32
        ensures { result ≡ self.now.slots }
    {
        self.sizes.files
    }

    /// A pass for a guest's number that was not given yet. It has seen what this one had, which is the
    /// table's first.
    pub fn split(&self, pass: &mut RangePass, guest: u32) -> RangePass
        requires table { pass.old.table ≡ self.now }
        requires guest { (guest < guests) × MayGive pass.old.view guest }
        ensures kept { pass.new ≡ parent_pass pass.old guest }
        ensures given { result ≡ child_pass pass.old guest }
    {
        let seat = cut(&self.table.shared, &mut pass.seat, guest);
        new_pass(seat, guest, self.sizes)
    }

    /// Takes back a pass that was given out, and keeps what it knew. Neither has a tree or pins, or moves a
    /// range.
    pub fn join(&self, pass: &mut RangePass, other: RangePass)
        requires table { (pass.old.table ≡ self.now) × (other.table ≡ self.now) }
        requires free { IsIdle pass.old.view.mine × IsIdle other.view.mine }
        requires guest { IsOut pass.old.view other.view.guest }
        ensures { TookIn pass.old other pass.new }
    {
        let RangePass {
            seat,
            hand: _hand,
            file: _,
            guest: _,
            moves: _,
            ranges: _,
            files: _,
            looks: _,
        } = other;
        merge(&self.table.shared, &mut pass.seat, seat);
    }

    /// Waits for the tree of a file, copies its placement log, and gives the tree back. The pass is the table's
    /// first, with every other in and nothing in hand. The log is sound, and goes on from what the pass had seen
    /// of it; what each joined pass had seen begins it. `Memory` comes where an allocation was refused; the tree
    /// is given back then too.
    pub fn log_of<R: Wait>(
        &self,
        rt: &R,
        alloc: Global,
        pass: &mut RangePass,
        file: usize,
    ) -> Result<List<LogEntry>, Memory>
        requires table { (pass.old.table ≡ self.now) × (file < self.now.slots) }
        requires free { IsIdle pass.old.view.mine }
        requires all_in { AllIn pass.old.view }
        ensures kept { IsReread file pass.old pass.new }
        ensures joined { LogsBack pass.new.view.numbers file (branch_of pass.new.view file).seen }
        ensures sound { IsTrue (sound (ranges_of pass.new.view) (branch_of pass.new.view file).seen) }
        ensures log { IfOk result (λ log. log ≡ (branch_of pass.new.view file).seen) }
    {
        pass.sound();
        pass.enter(rt, self, file);
        pass.sound();
        let copied = Vec::from_slice(alloc, pass.tree(file).log());
        pass.leave(self, file);
        Ok(List::from_vec(copied?))
    }

    /// Ends the table. The pass is its first, with every other in and nothing in hand. The logs of the trees
    /// are sound, and begin with what it had seen.
    pub fn close(self, pass: RangePass) -> ClosedTrees
        requires table { pass.table ≡ self }
        requires free { IsIdle pass.view.mine }
        requires guest { AllIn pass.view }
        ensures count { length result ≡ self.slots }
        ensures seen { AsSeen self.slots pass.view result }
    {
        let RangePass {
            seat,
            hand: _hand,
            file: _,
            guest: _,
            moves: _,
            ranges: _,
            files: _,
            looks: _,
        } = pass;
        let RangeTable { table, sizes: _ } = self;
        ClosedTrees {
            closed: close(table, seat),
        }
    }
}
