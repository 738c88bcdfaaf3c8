// A table is opened, passes are split and joined, and the table is closed.
ghost use Rattle.std.specs.Prelude.{◌≡◌, ℕ, ◌<◌, ◌≤◌, ◌+◌, ◌*◌, [], ◌∷◌, ◌++◌, true, Some, length, map, All, IfOk, OnOk};
ghost use Rattle.std.specs.Slots.{slots_items, slots_len, IsFull};
ghost use lib.ListN.{get_elem?};
ghost use mathlib.Core.Option.{some};
ghost use Rattle.seats.specs.Views.{AllIn, IsOut, MayGive, child, guests, joined, parent};
ghost use Rattle.plain_file.specs.File.{max_file};
ghost use Rattle.file_share.specs.Table.{Begun, Grown, just_seen, merged, opener, part};
ghost use Rattle.file_share.specs.Steps.{Accounted, Never, NoTurn};
ghost use Rattle.file_share.specs.Known.{file_words, past_seen, start_body, start_words};

use crate::rule::{Compare, Cut, Files, Merge, Opening, View};
use crate::steps::{Chair, Top};
use atomic_table::{Closed, Table};
use plain_file::{Body, First, List, Memory};
use seats::Naming;
use std::alloc::Global;
use std::marker::Brand;

pub(crate) type Board = Table<Option<Body>, View, Opening, Files, Global>;

fn push_words(words: &mut Vec<u64>, first: First) -> Result<(), Memory>
    ensures { OnOk result (words.new.items ≡ words.old.items ++ file_words first.size) }
{
    let mut file = [0; 16];
    file[1] = first.size;
    words.extend_from_slice(&file)?;
    Ok(())
}

fn words_of(alloc: Global, firsts: &[First]) -> Result<Vec<u64>, Memory>
    ensures { IfOk result (λ w. w.items ≡ 0 ∷ start_words firsts.now) }
{
    let mut words = vec![in alloc; 0; 1]?;
    for first in firsts {
        push_words(&mut words, *first)?;
    }
    Ok(words)
}

fn bodies_of(alloc: Global, firsts: &[First]) -> Result<Vec<Option<Body>>, Memory>
    requires small { All (λ first. first.size ≤ max_file) firsts.now }
    ensures { IfOk result (λ b. b.items ≡ map start_body firsts.now) }
{
    let mut bodies = Vec::new(alloc);
    for first in firsts {
        bodies.push(Some(Body::new(alloc, *first)?))?;
    }
    Ok(bodies)
}

// What a table is opened with.
pub(crate) fn opening_of(alloc: Global, firsts: &[First], leasers: u32) -> Result<Opening, Memory>
    ensures { IfOk result (λ o. (o.firsts ≡ firsts.now) × (o.leasers ≡ leasers)) }
{
    let mut copy = List::new(alloc);
    for first in firsts {
        copy.push(*first)?;
    }
    Ok(Opening {
        firsts: copy,
        leasers,
    })
}

// A table of files with these first contents, and its first seat.
pub(crate) fn open(alloc: Global, opening: &Opening) -> Result<(Board, Chair), Memory>
    requires few { length opening.now.firsts ≤ 64 }
    requires small { All (λ first. first.size ≤ max_file) opening.now.firsts }
    ensures seat { IfOk result (λ t. (t.1.table_id ≡ t.0.shared.table_id) × (t.1.me ≡ (opener opening.now.firsts opening.now.leasers, []))) }
    ensures counts { IfOk result (λ t. (t.0.shared.table_id.words ≡ 16 * length opening.now.firsts + 1) × (t.0.shared.table_id.slots ≡ length opening.now.firsts)) }
{
    let words = words_of(alloc, opening.firsts.as_slice())?;
    let bodies = bodies_of(alloc, opening.firsts.as_slice())?;
    match Table::new(alloc, words.as_slice(), bodies, opening) {
        Ok(made) => Ok(made),
        Err(_) => Err(Memory),
    }
}

fn cut_as<J: Naming>(top: &Top, seat: &mut Chair, guest: u32) -> Chair
    requires named { guest ≡ J.guest }
    requires table { (seat.old.table_id ≡ top.now.table_id) × (0 < top.now.table_id.words) }
    requires live { seat.old.me.0.live ≡ true }
    requires guest { (guest < guests) × MayGive seat.old.me.0 guest }
    ensures kept { (seat.new.table_id ≡ seat.old.table_id) × (seat.new.me ≡ (parent seat.old.me.0 guest, seat.old.me.1)) }
    ensures given { (result.table_id ≡ seat.old.table_id) × (result.me ≡ (child just_seen [] seat.old.me.0 guest, [])) }
{
    top.split_seat::<Cut<J>>(seat)
}

// A seat for a guest's number that was not given yet. It has seen what the first seat had.
pub(crate) fn cut(top: &Top, seat: &mut Chair, guest: u32) -> Chair
    requires table { (seat.old.table_id ≡ top.now.table_id) × (0 < top.now.table_id.words) }
    requires live { seat.old.me.0.live ≡ true }
    requires guest { (guest < guests) × MayGive seat.old.me.0 guest }
    ensures kept { (seat.new.table_id ≡ seat.old.table_id) × (seat.new.me ≡ (parent seat.old.me.0 guest, seat.old.me.1)) }
    ensures given { (result.table_id ≡ seat.old.table_id) × (result.me ≡ (child just_seen [] seat.old.me.0 guest, [])) }
{
    cut_as::<Brand>(top, seat, guest)
}

// Takes in a seat that was given out. What each of the two has seen begins what is seen then; no entry there is of a
// number that nobody had; and where every number is in, it is known of each entry whose it is.
pub(crate) fn merge(top: &Top, seat: &mut Chair, other: Chair)
    requires table { (seat.old.table_id ≡ top.now.table_id) × (0 < top.now.table_id.words) × (other.table_id ≡ top.now.table_id) }
    requires live { (seat.old.me.0.live ≡ true) × (other.me.0.live ≡ true) × (other.me.1 ≡ []) }
    requires free { NoTurn seat.old.me.0 × NoTurn other.me.0 }
    requires guest { IsOut seat.old.me.0 other.me.0.guest }
    ensures kept { (seat.new.table_id ≡ seat.old.table_id) × (seat.new.me ≡ (joined merged seat.old.me.0 other.me.0, seat.old.me.1)) }
    ensures begins { Grown seat.old.me.0.guest seat.old.me.0.mine seat.new.me.0.mine × Begun other.me.0.mine seat.new.me.0.mine }
    ensures never { (f : ℕ) → Never seat.new.me.0.numbers (part seat.new.me.0 f).seen }
    ensures account { AllIn seat.new.me.0 → (f : ℕ) → f < length seat.new.me.0.mine.files → Accounted seat.new.me.0.numbers f (past_seen seat.new.me.0 f) }
{
    top.join_seat::<Merge>(seat, other);
    top.load::<Compare>(seat, 0);
}

// Ends a table whose first seat has every other in. Each file's contents come back, with the history that the seat has
// seen, and of each entry it is known whose it is.
pub(crate) fn close(table: Board, seat: Chair) -> Closed<Option<Body>, Global>
    requires table { seat.table_id ≡ table.shared.table_id }
    requires live { (seat.me.0.live ≡ true) × NoTurn seat.me.0 }
    requires guest { AllIn seat.me.0 }
    ensures full { IsFull result.slots × (slots_len result.slots ≡ table.shared.table_id.slots) }
    ensures contents { (f : ℕ) → f < table.shared.table_id.slots → get_elem? (slots_items result.slots) f ≡ some (Some (past_seen seat.me.0 f)) }
    ensures account { (f : ℕ) → f < table.shared.table_id.slots → Accounted seat.me.0.numbers f (past_seen seat.me.0 f) }
{
    table.close_with(seat)
}
