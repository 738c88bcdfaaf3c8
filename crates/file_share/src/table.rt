ghost use Rattle.std.specs.Prelude.{◌≡◌, ◌<◌, ◌≤◌, ◌∷◌, ℕ, [], true, false, None, Some, IfOk, length, All, MatchResult};
ghost use Rattle.seats.specs.Views.{AllIn, IsOut, MayGive, guests};
ghost use Rattle.plain_file.specs.File.{max_file, reach};
ghost use Rattle.files_core.specs.Files.{clear_bar, file as file_at, lease, take_turn};
ghost use Rattle.file_share.specs.Table.{first_at, part, past_of};
ghost use Rattle.file_share.specs.Steps.{Accounted, Always, DoesAt, IfAllIn, IsAt, Never, NoTurn};
ghost use Rattle.plain_file.specs.Board.{last_of};
ghost use Rattle.file_share.specs.Places.{places_of};
ghost use Rattle.plain_file.specs.Plain.{first_mark};
ghost use Rattle.file_share.specs.Known.{Sound, known, no_last, whole_seen, Applies, AreMarksOf, AsSeen, Bars, Entered, IsBarred, IsDeed, IsIdle, IsLeased, IsReread, IsSoundPart, IsUnleased, Left, Looked, NoBar, TookIn, child_pass, entry_of, first_pass, parent_pass, past_seen};
ghost use Rattle.file_share.specs.Tries.{HasBarred};

use crate::closed::ClosedFiles;
use crate::marks::{Marks, marks_of};
use crate::share::{Board, close, cut, merge, open, opening_of};
use crate::steps::{
    Chair, Top, Tried, drop_bar, drop_lease, is_unbarred, look_size, put_size, put_turn, try_bar,
    try_lease, try_turn,
};
use plain_file::{Applied, BoardRefusal, Body, Entry, First, Leased, List, Mark, Memory, Op, Way};
use std::alloc::Global;
use std::marker::Model;
use std::sync::Wait;

/// The most files that a table has.
pub const MAX_FILES: usize = 64;

/// Files that several guests share. Any number of threads may use it at once, each with a pass.
#[derive(Drop)]
pub struct FileTable {
    pub(crate) table: Board,
    pub(crate) count: u32,
}

impl Model for FileTable {
    ghost use Rattle.std.specs.Prelude.{◌≡◌, ◌+◌, ◌*◌, ◌≤◌};
    ghost use Rattle.atomic_table.specs.Seated.{TableId, table_id_coded};

    ghost Value = { TableId };

    ghost coded = { table_id_coded };

    ghost view = { λ t. t.table.shared.table_id };

    ghost invariant = { λ t. (t.table.shared.table_id.words ≡ 16 * t.table.shared.table_id.slots + 1) × (t.table.shared.table_id.slots ≤ 64) × (t.count ≡ t.table.shared.table_id.slots) };
}

/// A guest's token on a table. It has the contents of the file whose turn it has.
#[derive(Drop)]
pub struct FilePass {
    seat: Chair,
    hand: Option<Body>,
    file: usize,
    guest: u32,
    mark: Mark,
    // The file on which it has the bar.
    bar: Option<u32>,
    // Per file the place of its newest entry.
    last: [Option<u64>; MAX_FILES],
}

impl Model for FilePass {
    ghost use Rattle.file_share.specs.Known.{Known, known, Sound};

    ghost Value = { Known };

    ghost view = { λ p. known p.seat p.mark };

    ghost invariant = { λ p. Sound p.seat p.hand p.file p.guest p.bar p.last };
}

// A pass that did nothing yet.
fn new_pass(seat: Chair, guest: u32) -> FilePass
    requires { Sound seat None 0 guest None no_last }
    ensures { result ≡ known seat first_mark }
{
    FilePass {
        seat,
        hand: None,
        file: 0,
        guest,
        mark: Mark {
            call: 0,
            way: Way::Req,
        },
        bar: None,
        last: [None; MAX_FILES],
    }
}

fn wait_turn<R: Wait>(rt: &R, top: &Top, seat: &mut Chair, file: usize, guest: u32) -> Body
    requires at { IsAt top.now.table_id seat.old file }
    requires guest { guest ≡ seat.old.me.0.guest }
    requires free { NoTurn seat.old.me.0 × (seat.old.me.1 ≡ []) }
    ensures table { seat.new.table_id ≡ seat.old.table_id }
    ensures deed { DoesAt file take_turn (λ c. result ≡ past_of (file_at c.files file)) seat.old seat.new × (seat.new.me.1 ≡ (file, None) ∷ []) }
    ensures told { Never seat.old.me.0.numbers result.history × IfAllIn seat.old.me.0 file result }
{
    for _ in rt.forever() {
        if let Some(hand) = try_turn(top, seat, file, guest) {
            return hand;
        }
    }
    unreachable!()
}

fn wait_lease<R: Wait>(rt: &R, top: &Top, seat: &mut Chair, file: usize)
    requires at { IsAt top.now.table_id seat.old file }
    requires may { seat.old.me.0.guest < seat.old.me.0.mine.leasers }
    requires few { (part seat.old.me.0 file).leases < 64 }
    ensures table { seat.new.table_id ≡ seat.old.table_id }
    ensures deed { DoesAt file lease Always seat.old seat.new × (seat.new.me.1 ≡ seat.old.me.1) }
{
    for _ in rt.forever() {
        if try_lease(top, seat, file) {
            return;
        }
    }
    unreachable!()
}

fn wait_bar<R: Wait>(
    rt: &R,
    top: &Top,
    seat: &mut Chair,
    file: usize,
    guest: u32,
) -> Result<(), Leased>
    requires at { IsAt top.now.table_id seat.old file }
    requires guest { guest ≡ seat.old.me.0.guest }
    requires free { NoBar seat.old.me.0 }
    ensures table { seat.new.table_id ≡ seat.old.table_id }
    ensures barred { HasBarred result file seat.old seat.new }
{
    for _ in rt.forever() {
        match try_bar(top, seat, file, guest) {
            Tried::Taken => return Ok(()),
            Tried::Leased { count } => return Err(Leased { count }),
            Tried::Barred => {}
        }
    }
    unreachable!()
}

impl FilePass {
    /// The entries that the pass makes from here on carry this call and way, and its guest's number. A
    /// new pass has call 0 and `Way::Req`.
    pub fn mark(&mut self, call: u32, way: Way)
        ensures { self.new ≡ record self.old { mark = record { call = call; way = way } } }
    {
        self.mark = Mark { call, way };
    }

    /// The place of the newest entry that the pass's guest made in a file; None exactly where it made
    /// none.
    pub fn own_last(&self, file: usize) -> Option<u64>
        requires { file < length self.now.view.mine.files }
        ensures { result ≡ last_of (places_of self.now.view.guest (whole_seen self.now.view file)) }
    {
        let last = &self.last;
        last[file]
    }

    /// Does nothing. That is how a proof knows what holds of every pass: it has a part for each file of its
    /// table; each size that it noted and that has an upper end is one between its ends; and while it has
    /// the turn of a file, the file's size isn't below what the pass noted under a lease.
    pub fn sound(&self)
        ensures wide { length self.now.view.mine.files ≡ self.now.table.slots }
        ensures parts { (file : ℕ) → file < length self.now.view.mine.files → IsSoundPart (first_at self.now.view file) (part self.now.view file) }
    {
        let _ = &self.guest;
    }

    /// The contents of the file whose turn the pass has.
    pub fn body(&self, file: usize) -> &Body
        requires { (part self.now.view file).turn ≡ true }
        ensures { result.now ≡ record { first = first_at self.now.view file; history = whole_seen self.now.view file } }
    {
        let Some(hand) = &self.hand else {
            unreachable!()
        };
        hand
    }

    /// Waits for the turn of a file, and takes it. The pass has no turn before. It then sees the whole
    /// history of the file, which goes on by others' entries, and whose size isn't below what the pass
    /// noted under a lease. Where the pass is the table's first and every other is in, it had seen the
    /// whole history before, and knows of each entry whose it is.
    pub fn enter<R: Wait>(&mut self, rt: &R, table: &FileTable, file: usize)
        requires table { (self.old.table ≡ table.now) × (file < table.now.slots) }
        requires free { NoTurn self.old.view }
        ensures deed { IsDeed file take_turn self.old self.new }
        ensures entered { Entered file self.old.view self.new.view }
    {
        let hand = wait_turn(rt, &table.table.shared, &mut self.seat, file, self.guest);
        self.hand = Some(hand);
        self.file = file;
    }

    /// Applies an operation to a file, in a turn in which nothing was applied. Its entry has the pass's
    /// guest and mark. It gets the next place of the history that the pass has seen, and the answer is
    /// the plain file's there. A write's end and a truncation's size are at most `MAX_FILE` bytes.
    ///
    /// `Unbarred` comes exactly where the operation lowers the file's size and the pass hasn't the bar on
    /// it, and tells the size as it is. `Memory` comes where an allocation was refused. After either
    /// nothing has changed.
    pub fn apply(
        &mut self,
        alloc: Global,
        table: &FileTable,
        file: usize,
        op: Op,
    ) -> Result<Applied, BoardRefusal>
        requires table { (self.old.table ≡ table.now) × (file < table.now.slots) }
        requires turn { ((part self.old.view file).turn ≡ true) × ((part self.old.view file).applied ≡ None) }
        requires fits { reach op ≤ max_file }
        ensures { Applies self.old file (entry_of self.old op) result self.new }
    {
        let entry = Entry {
            guest: self.guest,
            call: self.mark.call,
            op,
            way: self.mark.way,
        };
        let Some(hand) = &mut self.hand else {
            unreachable!()
        };
        let size = hand.size();
        if is_unbarred(self.bar, file, &entry.op, size) {
            return Err(BoardRefusal::Unbarred { size });
        }
        let applied = hand.apply(alloc, entry)?;
        let newest = &hand.history().as_slice()[applied.place as usize];
        let after = hand.size();
        put_size(&table.table.shared, &mut self.seat, file, newest, after);
        self.last[file] = Some(applied.place);
        Ok(applied)
    }

    /// Looks at a file's size in bytes. The pass notes it, with how much of the history it had seen. While
    /// the pass has the turn, it is the size after all that the pass has seen and what it applied.
    pub fn size_now(&mut self, table: &FileTable, file: usize) -> u64
        requires table { (self.old.table ≡ table.now) × (file < table.now.slots) }
        ensures { Looked self.old file result self.new }
    {
        look_size(&table.table.shared, &mut self.seat, file)
    }

    /// Gives back the turn of a file. What was applied in it is then the newest entry of the history.
    pub fn leave(&mut self, table: &FileTable, file: usize)
        requires table { (self.old.table ≡ table.now) × (file < table.now.slots) }
        requires turn { (part self.old.view file).turn ≡ true }
        ensures { Left self.old file self.new }
    {
        let Some(hand) = self.hand.take() else {
            unreachable!()
        };
        put_turn(&table.table.shared, &mut self.seat, file, hand);
    }

    /// Takes a lease on a file, and answers the file's size in bytes, which is noted under it. While the
    /// pass has a lease on the file, the size doesn't fall below any that was noted so. The pass's guest may
    /// lease, and it has no bar and fewer than 64 leases on the file. It waits while another has the bar.
    pub fn lease<R: Wait>(&mut self, rt: &R, table: &FileTable, file: usize) -> u64
        requires table { (self.old.table ≡ table.now) × (file < table.now.slots) }
        requires may { self.old.view.guest < self.old.view.mine.leasers }
        requires few { (part self.old.view file).leases < 64 }
        ensures { IsLeased self.old file result self.new }
    {
        wait_lease(rt, &table.table.shared, &mut self.seat, file);
        self.size_now(table, file)
    }

    /// Gives back one lease on a file, of those that are had.
    pub fn unlease(&mut self, table: &FileTable, file: usize)
        requires table { (self.old.table ≡ table.now) × (file < table.now.slots) }
        requires had { 0 < (part self.old.view file).leases }
        ensures { IsUnleased self.old file self.new }
    {
        drop_lease(&table.table.shared, &mut self.seat, file);
    }

    /// Takes the bar on a file, without which nobody lowers its size, and beside which nobody leases it.
    /// The pass has no bar before. It waits while another has the bar.
    ///
    /// `Leased` comes exactly where leases were seen on the file at the one step of the call that saw
    /// no bar of another, the pass's own among them, and tells how many; that is noted.
    pub fn bar<R: Wait>(&mut self, rt: &R, table: &FileTable, file: usize) -> Result<(), Leased>
        requires table { (self.old.table ≡ table.now) × (file < table.now.slots) }
        requires free { NoBar self.old.view }
        ensures { Bars self.old file result self.new }
    {
        wait_bar(rt, &table.table.shared, &mut self.seat, file, self.guest)?;
        self.bar = Some(file as u32);
        Ok(())
    }

    /// Gives back the bar on a file, which is had.
    pub fn unbar(&mut self, table: &FileTable, file: usize)
        requires table { (self.old.table ≡ table.now) × (file < table.now.slots) }
        requires had { (part self.old.view file).bar ≡ true }
        ensures { IsBarred self.old file clear_bar false self.new }
    {
        drop_bar(&table.table.shared, &mut self.seat, file);
        self.bar = None;
    }
}

impl FileTable {
    /// A table of files with these first contents, at most 64 of at most `MAX_FILE` bytes each, and its
    /// first pass. Each file has an empty history. Guests with numbers below `leasers` may lease.
    /// `Memory` comes where an allocation was refused.
    pub fn new(
        alloc: Global,
        firsts: &List<First>,
        leasers: u32,
    ) -> Result<(FileTable, FilePass), Memory>
        requires few { length firsts.now ≤ 64 }
        requires small { All (λ first. first.size ≤ max_file) firsts.now }
        ensures count { IfOk result (λ t. t.0.slots ≡ length firsts.now) }
        ensures first { IfOk result (λ t. t.1 ≡ first_pass t.0 firsts.now leasers) }
    {
        let opening = opening_of(alloc, firsts.as_slice(), leasers)?;
        let count = firsts.len() as u32;
        let (table, seat) = open(alloc, &opening)?;
        Ok((FileTable { table, count }, new_pass(seat, 32)))
    }

    /// How many files there are.
    pub fn count(&self) -> u32
        ensures { result ≡ self.now.slots }
    {
        self.count
    }

    /// A pass for a guest's number that was not given yet. It has seen what this one had, which is the
    /// table's first and has no turn.
    pub fn split(&self, pass: &mut FilePass, guest: u32) -> FilePass
        requires table { pass.old.table ≡ self.now }
        requires free { NoTurn pass.old.view }
        requires guest { (guest < guests) × MayGive pass.old.view guest }
        ensures kept { pass.new ≡ parent_pass pass.old guest }
        ensures given { result ≡ child_pass pass.old guest }
    {
        let seat = cut(&self.table.shared, &mut pass.seat, guest);
        new_pass(seat, guest)
    }

    /// Takes back a pass that was given out, and keeps what it knew. Neither has a turn, and the one
    /// that goes has no lease or bar. Where every number is in then, the pass has seen every history
    /// whole, and knows of each entry whose it is: those of each joined number are what its pass had
    /// seen of it, a number that nobody had has none, and each note that a joined pass left holds.
    pub fn join(&self, pass: &mut FilePass, other: FilePass)
        requires table { (pass.old.table ≡ self.now) × (other.table ≡ self.now) }
        requires free { NoTurn pass.old.view × IsIdle other.view }
        requires guest { IsOut pass.old.view other.view.guest }
        ensures { TookIn pass.old other pass.new }
    {
        let FilePass {
            seat,
            hand: _hand,
            file: _,
            guest: _,
            mark: _,
            bar: _,
            last: _,
        } = other;
        merge(&self.table.shared, &mut pass.seat, seat);
    }

    /// Waits for the turn of a file, reads whose each entry of its history is and its size, and gives the
    /// turn back. The pass is the table's first, with every other in and no turn: it had seen the whole
    /// history, and what it has seen and has in hand stays as it was. `Memory` comes where an allocation
    /// was refused; the turn is given back then too.
    pub fn marks<R: Wait>(
        &self,
        rt: &R,
        alloc: Global,
        pass: &mut FilePass,
        file: usize,
    ) -> Result<Marks, Memory>
        requires table { (pass.old.table ≡ self.now) × (file < self.now.slots) }
        requires free { NoTurn pass.old.view }
        requires all_in { AllIn pass.old.view }
        ensures kept { IsReread pass.old pass.new }
        ensures account { Accounted pass.new.view.numbers file (past_seen pass.new.view file) }
        ensures marks { IfOk result (AreMarksOf pass.new.view file) }
    {
        pass.sound();
        pass.enter(rt, self, file);
        let result = marks_of(alloc, pass.body(file));
        pass.leave(self, file);
        result
    }

    /// Ends the table. The pass is its first, with every other in and no turn, lease or bar: it has seen
    /// every history whole, and knows of each entry whose it is.
    pub fn close(self, pass: FilePass) -> ClosedFiles
        requires table { pass.table ≡ self }
        requires free { IsIdle pass.view }
        requires guest { AllIn pass.view }
        ensures count { length result ≡ self.slots }
        ensures seen { AsSeen self.slots pass.view result }
        ensures account { (f : ℕ) → f < self.slots → Accounted pass.view.numbers f (past_seen pass.view f) }
    {
        let FilePass {
            seat,
            hand: _hand,
            file: _,
            guest: _,
            mark: _,
            bar: _,
            last: _,
        } = pass;
        let FileTable { table, count: _ } = self;
        ClosedFiles {
            closed: close(table, seat),
        }
    }
}
