// Single steps on the table, each a deed on one file.
ghost use Rattle.std.specs.Prelude.{◌≡◌, ◌≢◌, ◌<◌, ◌≤◌, ◌++◌, ◌∷◌, [], true, false, None, Some, Ok, Err, MatchBool, MatchOption, ℕ, ⊤};
ghost use Rattle.plain_file.specs.Board.{is_file};
ghost use Rattle.plain_file.specs.File.{max_file, reach};
ghost use Rattle.files_core.specs.Files.{file as file_at, clear_bar, give_turn, lease, note_size, set_size, sized, take_turn, unlease, with_entry};
ghost use Rattle.files_core.specs.Good.{size_of};
ghost use Rattle.file_share.specs.Table.{first_at, part, past_of};
ghost use Rattle.file_share.specs.Steps.{Always, DoesAt, IfAllIn, IsAt, Never, NoTurn};
ghost use Rattle.file_share.specs.Known.{NoBar};
ghost use Rattle.file_share.specs.Tries.{HasTried};

use crate::rule::{
    Applying, DropBar, DropLease, Files, GiveTurn, NoteSize, Opening, SetSize, TakeTurn, TryBar,
    TryLease, View,
};
use atomic_table::{Seat, Shared};
use plain_file::{Body, Entry, Op};
use std::marker::Brand;

pub(crate) type Chair = Seat<Option<Body>, View>;

pub(crate) type Top = Shared<Option<Body>, View, Opening, Files>;

// One try to take the turn. The contents come where it was free.
pub(crate) fn try_turn(top: &Top, seat: &mut Chair, file: usize, guest: u32) -> Option<Body>
    requires at { IsAt top.now.table_id seat.old file }
    requires guest { guest ≡ seat.old.me.0.guest }
    requires free { NoTurn seat.old.me.0 × (seat.old.me.1 ≡ []) }
    ensures table { seat.new.table_id ≡ seat.old.table_id }
    ensures deed { MatchOption result (seat.new.me ≡ seat.old.me) (λ b. DoesAt file take_turn (λ c. b ≡ past_of (file_at c.files file)) seat.old seat.new × (seat.new.me.1 ≡ (file, None) ∷ [])) }
    ensures told { MatchOption result ⊤ (λ b. Never seat.old.me.0.numbers b.history × IfAllIn seat.old.me.0 file b) }
{
    if top.compare_exchange::<TakeTurn>(seat, 16 * file + 1, 0, guest as u64 + 1) == 0 {
        top.exchange(seat, file, None)
    } else {
        None
    }
}

fn put_size_of<J: Applying>(top: &Top, seat: &mut Chair, file: usize, entry: &Entry, size: u64)
    requires named { entry.now ≡ J.entry }
    requires at { IsAt top.now.table_id seat.old file }
    requires turn { ((part seat.old.me.0 file).turn ≡ true) × ((part seat.old.me.0 file).applied ≡ None) }
    requires entry { (entry.now.guest ≡ seat.old.me.0.guest) × (reach entry.now.op ≤ max_file) }
    requires size { size ≡ size_of (first_at seat.old.me.0 file) ((part seat.old.me.0 file).seen ++ entry.now ∷ []) }
    requires safe { size < size_of (first_at seat.old.me.0 file) (part seat.old.me.0 file).seen → (part seat.old.me.0 file).bar ≡ true }
    ensures table { seat.new.table_id ≡ seat.old.table_id }
    ensures deed { DoesAt file (set_size entry.now) Always seat.old seat.new × (seat.new.me.1 ≡ seat.old.me.1) }
{
    top.store::<SetSize<J>>(seat, 16 * file + 2, size);
}

// Tells the size after an entry, which is then the one that is applied in this turn.
pub(crate) fn put_size(top: &Top, seat: &mut Chair, file: usize, entry: &Entry, size: u64)
    requires at { IsAt top.now.table_id seat.old file }
    requires turn { ((part seat.old.me.0 file).turn ≡ true) × ((part seat.old.me.0 file).applied ≡ None) }
    requires entry { (entry.now.guest ≡ seat.old.me.0.guest) × (reach entry.now.op ≤ max_file) }
    requires size { size ≡ size_of (first_at seat.old.me.0 file) ((part seat.old.me.0 file).seen ++ entry.now ∷ []) }
    requires safe { size < size_of (first_at seat.old.me.0 file) (part seat.old.me.0 file).seen → (part seat.old.me.0 file).bar ≡ true }
    ensures table { seat.new.table_id ≡ seat.old.table_id }
    ensures deed { DoesAt file (set_size entry.now) Always seat.old seat.new × (seat.new.me.1 ≡ seat.old.me.1) }
{
    put_size_of::<Brand>(top, seat, file, entry, size);
}

// Whether an operation makes a file of this size smaller: only a truncation does.
#[tactic(auto, unfolding(files_core::specs::Files::sized))]
pub(crate) fn lowers(op: &Op, size: u64) -> bool
    ensures { MatchBool result (sized size op.now < size) (size ≤ sized size op.now) }
{
    match op {
        Op::Truncate { size: wanted } => *wanted < size,
        Op::Read { .. } | Op::Write { .. } | Op::Size => false,
    }
}

// Whether an operation makes a file of this size smaller, while the bar on it isn't had.
#[tactic(auto, unfolding(plain_file::specs::Board::is_file))]
pub(crate) fn is_unbarred(bar: Option<u32>, file: usize, op: &Op, size: u64) -> bool
    ensures { MatchBool result ((is_file bar file ≡ false) × (sized size op.now < size)) (sized size op.now < size → is_file bar file ≡ true) }
{
    let has_bar = match bar {
        Some(other) => other as usize == file,
        None => false,
    };
    if has_bar {
        return false;
    }
    lowers(op, size)
}

// Gives the turn back, with the contents.
pub(crate) fn put_turn(top: &Top, seat: &mut Chair, file: usize, hand: Body)
    requires at { IsAt top.now.table_id seat.old file }
    requires turn { ((part seat.old.me.0 file).turn ≡ true) × (seat.old.me.1 ≡ (file, None) ∷ []) }
    requires hand { (hand.first ≡ first_at seat.old.me.0 file) × (hand.history ≡ with_entry (part seat.old.me.0 file).seen (part seat.old.me.0 file).applied) }
    ensures table { seat.new.table_id ≡ seat.old.table_id }
    ensures deed { DoesAt file give_turn Always seat.old seat.new × (seat.new.me.1 ≡ []) }
{
    top.exchange(seat, file, Some(hand));
    top.store::<GiveTurn>(seat, 16 * file + 1, 0);
}

// Looks at the size, which the pass notes.
pub(crate) fn look_size(top: &Top, seat: &mut Chair, file: usize) -> u64
    requires at { IsAt top.now.table_id seat.old file }
    ensures table { seat.new.table_id ≡ seat.old.table_id }
    ensures deed { DoesAt file note_size (λ c. result ≡ (file_at c.files file).size) seat.old seat.new × (seat.new.me.1 ≡ seat.old.me.1) }
{
    top.load::<NoteSize>(seat, 16 * file + 2)
}

// What a try to take the bar found.
pub(crate) enum Tried {
    Taken,
    /// Another guest's bar.
    Barred,
    /// So many leases.
    Leased { count: u32 },
}

// One try to take a lease. It fails where another guest's step came between, or another guest has the bar.
pub(crate) fn try_lease(top: &Top, seat: &mut Chair, file: usize) -> bool
    requires at { IsAt top.now.table_id seat.old file }
    requires may { seat.old.me.0.guest < seat.old.me.0.mine.leasers }
    requires few { (part seat.old.me.0 file).leases < 64 }
    ensures table { seat.new.table_id ≡ seat.old.table_id }
    ensures deed { MatchBool result (DoesAt file lease Always seat.old seat.new × (seat.new.me.1 ≡ seat.old.me.1)) (seat.new.me ≡ seat.old.me) }
{
    let word = 16 * file + 3;
    let seen = top.peek(word);
    if seen >= 65536 {
        return false;
    }
    top.compare_exchange::<TryLease>(seat, word, seen, seen + 1) == seen
}

// One lease less.
pub(crate) fn drop_lease(top: &Top, seat: &mut Chair, file: usize)
    requires at { IsAt top.now.table_id seat.old file }
    requires had { 0 < (part seat.old.me.0 file).leases }
    ensures table { seat.new.table_id ≡ seat.old.table_id }
    ensures deed { DoesAt file unlease Always seat.old seat.new × (seat.new.me.1 ≡ seat.old.me.1) }
{
    top.fetch_sub::<DropLease>(seat, 16 * file + 3, 1);
}

// One try to take the bar. Where leases are seen, they are noted.
pub(crate) fn try_bar(top: &Top, seat: &mut Chair, file: usize, guest: u32) -> Tried
    requires at { IsAt top.now.table_id seat.old file }
    requires guest { guest ≡ seat.old.me.0.guest }
    requires free { NoBar seat.old.me.0 }
    ensures table { seat.new.table_id ≡ seat.old.table_id }
    ensures tried { HasTried result file seat.old seat.new }
{
    let bar = (guest as u64 + 1) * 65536;
    let found = top.compare_exchange::<TryBar>(seat, 16 * file + 3, 0, bar);
    if found == 0 {
        return Tried::Taken;
    }
    let count = (found % 65536) as u32;
    if count == 0 {
        Tried::Barred
    } else {
        Tried::Leased { count }
    }
}

// The bar is given back.
pub(crate) fn drop_bar(top: &Top, seat: &mut Chair, file: usize)
    requires at { IsAt top.now.table_id seat.old file }
    requires had { (part seat.old.me.0 file).bar ≡ true }
    ensures table { seat.new.table_id ≡ seat.old.table_id }
    ensures deed { DoesAt file clear_bar Always seat.old seat.new × (seat.new.me.1 ≡ seat.old.me.1) }
{
    top.fetch_and::<DropBar>(seat, 16 * file + 3, 65535);
}
