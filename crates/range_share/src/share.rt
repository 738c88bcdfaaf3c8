// A table is opened, passes are split and joined, and the table is closed.
ghost use Rattle.std.specs.Prelude.{◌≡◌, ℕ, ◌<◌, ◌≤◌, ◌+◌, ◌*◌, [], ◌∷◌, true, Some, length, replicate, IfOk};
ghost use Rattle.std.specs.Slots.{slots_items, slots_len, IsFull};
ghost use Rattle.seats.specs.Views.{AllIn, IsOut, MayGive, child, guests, joined, parent};
ghost use Rattle.range_share.specs.Table.{Begun, IsIdle, blank, just_seen, merged, opener};
ghost use Rattle.range_share.specs.Steps.{IsShowing};
ghost use Rattle.range_share.specs.Known.{AsSeen};

use crate::rule::{Compare, Cut, Merge, Ranges, Sizes, View};
use crate::steps::{Chair, Top};
use atomic_table::{Closed, Table};
use plain_file::Memory;
use range_tree::Tree;
use seats::Naming;
use std::alloc::Global;
use std::marker::Brand;

pub(crate) type Board = Table<Option<Tree>, View, Sizes, Ranges, Global>;

fn empty_trees(alloc: Global, files: usize) -> Result<Vec<Option<Tree>>, Memory>
    ensures { IfOk result (λ v. v.items ≡ replicate files (Some [])) }
{
    let mut trees = Vec::new(alloc);
    for _file in 0..files {
        trees.push(Some(Tree::new(alloc)))?;
    }
    Ok(trees)
}

// A table of free ranges, and of files of which nothing is placed, and its first seat.
pub(crate) fn open(alloc: Global, sizes: Sizes) -> Result<(Board, Chair), Memory>
    requires few { (sizes.ranges ≤ 256) × (sizes.files ≤ 64) }
    ensures seat { IfOk result (λ t. (t.1.table_id ≡ t.0.shared.table_id) × (t.1.me ≡ (opener sizes.ranges sizes.files sizes.movers, []))) }
    ensures counts { IfOk result (λ t. (t.0.shared.table_id.words ≡ 8 * sizes.files + 8 * sizes.ranges + 8) × (t.0.shared.table_id.slots ≡ sizes.files)) }
{
    let files = sizes.files as usize;
    let words = vec![in alloc; 0; 8 * files + 8 * sizes.ranges as usize + 8]?;
    let trees = empty_trees(alloc, files)?;
    match Table::new(alloc, words.as_slice(), trees, &sizes) {
        Ok(made) => Ok(made),
        Err(_) => Err(Memory),
    }
}

fn cut_as<J: Naming>(top: &Top, seat: &mut Chair, guest: u32) -> Chair
    requires named { guest ≡ J.guest }
    requires table { (seat.old.table_id ≡ top.now.table_id) × (0 < top.now.table_id.words) }
    requires live { seat.old.me.0.live ≡ true }
    requires guest { (guest < guests) × MayGive seat.old.me.0 guest }
    ensures kept { (seat.new.table_id ≡ seat.old.table_id) × (seat.new.me ≡ (parent seat.old.me.0 guest, seat.old.me.1)) }
    ensures given { (result.table_id ≡ seat.old.table_id) × (result.me ≡ (child just_seen blank seat.old.me.0 guest, [])) }
{
    top.split_seat::<Cut<J>>(seat)
}

// A seat for a guest's number that was not given yet. It has seen what the first seat had.
pub(crate) fn cut(top: &Top, seat: &mut Chair, guest: u32) -> Chair
    requires table { (seat.old.table_id ≡ top.now.table_id) × (0 < top.now.table_id.words) }
    requires live { seat.old.me.0.live ≡ true }
    requires guest { (guest < guests) × MayGive seat.old.me.0 guest }
    ensures kept { (seat.new.table_id ≡ seat.old.table_id) × (seat.new.me ≡ (parent seat.old.me.0 guest, seat.old.me.1)) }
    ensures given { (result.table_id ≡ seat.old.table_id) × (result.me ≡ (child just_seen blank seat.old.me.0 guest, [])) }
    ensures showing { IsShowing result.me.0 }
{
    let mut given = cut_as::<Brand>(top, seat, guest);
    top.load::<Compare>(&mut given, 0);
    given
}

// Takes in a seat that was given out. What each of the two has seen begins what is seen then.
pub(crate) fn merge(top: &Top, seat: &mut Chair, other: Chair)
    requires table { (seat.old.table_id ≡ top.now.table_id) × (0 < top.now.table_id.words) × (other.table_id ≡ top.now.table_id) }
    requires live { (seat.old.me.0.live ≡ true) × (other.me.0.live ≡ true) × (other.me.1 ≡ []) }
    requires free { IsIdle seat.old.me.0.mine × IsIdle other.me.0.mine }
    requires guest { IsOut seat.old.me.0 other.me.0.guest }
    ensures kept { (seat.new.table_id ≡ seat.old.table_id) × (seat.new.me ≡ (joined merged seat.old.me.0 other.me.0, seat.old.me.1)) }
    ensures begins { Begun seat.old.me.0.mine seat.new.me.0.mine × Begun other.me.0.mine seat.new.me.0.mine }
    ensures showing { IsShowing seat.new.me.0 }
{
    top.join_seat::<Merge>(seat, other);
    top.load::<Compare>(seat, 0);
}

// Ends a table whose first seat has every other in. The trees come back; their logs begin with what the seat has seen.
pub(crate) fn close(table: Board, seat: Chair) -> Closed<Option<Tree>, Global>
    requires table { seat.table_id ≡ table.shared.table_id }
    requires live { (seat.me.0.live ≡ true) × IsIdle seat.me.0.mine }
    requires guest { AllIn seat.me.0 }
    ensures full { IsFull result.slots × (slots_len result.slots ≡ table.shared.table_id.slots) }
    ensures trees { AsSeen table.shared.table_id.slots seat.me.0 (slots_items result.slots) }
{
    table.close_with(seat)
}
