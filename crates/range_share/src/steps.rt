// Single steps on the table, each a deed of the pass's guest, or a load that notes something.
ghost use Rattle.std.specs.Prelude.{◌≡◌, ◌≢◌, ◌+◌, ◌*◌, ◌<◌, ◌≤◌, ◌∷◌, [], ℕ, length, true, false, Some, None, IfSome, MatchOption};
ghost use Rattle.page_map.specs.declared.pages.Mode.TheVariants as modes;
ghost use Rattle.page_map.specs.declared.ranges.Placed.{Placed};
ghost use Rattle.page_map.specs.Logs.{placed_at};
ghost use Rattle.page_map.specs.Window.{max_chunks};
ghost use Rattle.seats.specs.Views.{AllIn};
ghost use Rattle.window_core.specs.Window.{enter, leave, look, pin, pins_on, set_map, settle_free, settle_mapped, side, target as target_in, target_of, unpin, upgrade, word_at};
ghost use Rattle.range_share.specs.Packed.{TargetFits, WordFits};
ghost use Rattle.range_share.specs.Table.{Noted, others_may};
ghost use Rattle.range_share.specs.Steps.{Always, AtRest, DoesAt, DoesSo, HasIn, HeldIn, LogsBack, MaySetIn, PinnedIn, Stands, Tells, Treeless, aimed, branch_of, files_of, map_shown, may_take_in, moves_at, pinned_noted, ranges_of, saw, saw_for_take, take_of};

use crate::packing::{pack, pack_map, unpack, unpack_map};
use crate::rule::{
    AddPin, DropPin, Enter, Leave, LookAt, Note, Noting, PeekAt, Point, Raise, Ranges, SetMap,
    SettleFree, SettleMapped, Sizes, Take, View,
};
use atomic_table::{Seat, Shared};
use page_map::{Mode, RangeWord, Target};
use range_tree::Tree;

pub(crate) type Chair = Seat<Option<Tree>, View>;

pub(crate) type Top = Shared<Option<Tree>, View, Sizes, Ranges>;

// One try to take the tree of a file. It comes where it was free.
pub(crate) fn try_enter(top: &Top, seat: &mut Chair, file: usize, guest: u32) -> Option<Tree>
    requires at { Stands top.now.table_id seat.old × (file < top.now.table_id.slots) }
    requires guest { guest ≡ seat.old.me.0.guest }
    requires free { Treeless seat.old.me.0 × (seat.old.me.1 ≡ []) }
    ensures table { seat.new.table_id ≡ seat.old.table_id }
    ensures deed { MatchOption result (seat.new.me ≡ seat.old.me) (λ log. DoesSo (enter file) seat.old.me.0.noted (λ c. log ≡ (side c.window file).log) seat.old.me.0 seat.new.me.0 × (seat.new.me.1 ≡ (file, None) ∷ [])) }
    ensures alone { IfSome result (λ log. others_may seat.old.me.0.guest seat.old.me.0.mine.movers ≡ false → log ≡ (branch_of seat.old.me.0 file).seen) }
    ensures joined { IfSome result (λ log. AllIn seat.old.me.0 → LogsBack seat.old.me.0.numbers file log) }
{
    if top.compare_exchange::<Enter>(seat, 8 * file + 8, 0, guest as u64 + 1) == 0 {
        top.exchange(seat, file, None)
    } else {
        None
    }
}

// Gives the tree back.
pub(crate) fn put_tree(top: &Top, seat: &mut Chair, file: usize, hand: Tree)
    requires at { Stands top.now.table_id seat.old × (file < top.now.table_id.slots) }
    requires had { ((branch_of seat.old.me.0 file).had ≡ true) × (seat.old.me.1 ≡ (file, None) ∷ []) }
    requires hand { hand ≡ (branch_of seat.old.me.0 file).seen }
    ensures table { seat.new.table_id ≡ seat.old.table_id }
    ensures deed { DoesSo (leave file) seat.old.me.0.noted Always seat.old.me.0 seat.new.me.0 × (seat.new.me.1 ≡ []) }
{
    top.exchange(seat, file, Some(hand));
    top.store::<Leave>(seat, 8 * file + 8, 0);
}

// Looks at a range. The word is noted as a look.
pub(crate) fn look_at(top: &Top, seat: &mut Chair, files: usize, range: usize) -> RangeWord
    requires at { Stands top.now.table_id seat.old × (files ≡ top.now.table_id.slots) }
    requires range { range < ranges_of seat.old.me.0 }
    ensures table { seat.new.table_id ≡ seat.old.table_id }
    ensures tells { Tells seat.old.me.0 range result }
    ensures deed { DoesAt (look range) (saw seat.old.me.0.noted seat.old.me.0.mine range result) (λ c. result ≡ word_at c.window range) seat.old seat.new }
{
    unpack(top.load::<LookAt>(seat, 8 * files + 8 * range + 8))
}

// Looks at a range for a take. The word is noted as a look where the range may not be taken.
pub(crate) fn peek_at(top: &Top, seat: &mut Chair, files: usize, range: usize) -> RangeWord
    requires at { Stands top.now.table_id seat.old × (files ≡ top.now.table_id.slots) }
    requires range { range < ranges_of seat.old.me.0 }
    ensures table { seat.new.table_id ≡ seat.old.table_id }
    ensures tells { Tells seat.old.me.0 range result }
    ensures deed { DoesAt (look range) (saw_for_take seat.old.me.0.noted seat.old.me.0.mine range result) (λ c. result ≡ word_at c.window range) seat.old seat.new }
{
    unpack(top.load::<PeekAt>(seat, 8 * files + 8 * range + 8))
}

// One try to take a range, from a word that was seen. Where another is found, that one comes, and is noted as a look.
pub(crate) fn try_take(
    top: &Top,
    seat: &mut Chair,
    files: usize,
    range: usize,
    old: RangeWord,
    guest: u32,
) -> Option<RangeWord>
    requires at { Stands top.now.table_id seat.old × (files ≡ top.now.table_id.slots) }
    requires range { range < ranges_of seat.old.me.0 }
    requires old { WordFits old × (may_take_in seat.old.me.0.mine old ≡ true) }
    requires guest { (guest ≡ seat.old.me.0.guest) × (guest < 34) × (guest < seat.old.me.0.mine.movers) }
    requires free { AtRest seat.old.me.0 }
    ensures table { seat.new.table_id ≡ seat.old.table_id }
    ensures deed { MatchOption result (DoesAt (take_of range old) seat.old.me.0.noted (λ c. old ≡ word_at c.window range) seat.old seat.new)
        (λ w. (w ≢ old) × Tells seat.old.me.0 range w × (seat.new.me ≡ (record seat.old.me.0 { noted = saw seat.old.me.0.noted seat.old.me.0.mine range w }, seat.old.me.1))) }
{
    let found = top.compare_exchange::<Take>(
        seat,
        8 * files + 8 * range + 8,
        pack(old),
        pack(RangeWord::Moving { guest }),
    );
    if found == pack(old) {
        None
    } else {
        Some(unpack(found))
    }
}

// Maps a range.
pub(crate) fn put_map(top: &Top, seat: &mut Chair, files: usize, range: usize, to: Option<Target>)
    requires at { Stands top.now.table_id seat.old × (files ≡ top.now.table_id.slots) }
    requires range { range < ranges_of seat.old.me.0 }
    requires may { seat.old.me.0.guest < seat.old.me.0.mine.movers }
    requires to { TargetFits to × IfSome to (λ t. t.file < files) × MaySetIn seat.old.me.0.mine range to }
    ensures table { seat.new.table_id ≡ seat.old.table_id }
    ensures deed { DoesAt (set_map range to) seat.old.me.0.noted Always seat.old seat.new }
{
    top.store::<SetMap>(seat, 8 * files + 8 * range + 9, pack_map(to));
}

// Places a chunk in the moved range.
pub(crate) fn settle_in(
    top: &Top,
    seat: &mut Chair,
    files: usize,
    range: usize,
    file: u32,
    chunk: u32,
    mode: Mode,
)
    requires at { Stands top.now.table_id seat.old × (files ≡ top.now.table_id.slots) }
    requires range { (range < ranges_of seat.old.me.0) × (moves_at seat.old.me.0 range ≡ true) }
    requires place { (file < 64) × (chunk < max_chunks) × (map_shown seat.old.me.0.mine range ≡ Some (Some (target_of file chunk mode))) }
    requires tree { ((branch_of seat.old.me.0 file).had ≡ true) × (placed_at (branch_of seat.old.me.0 file).seen chunk ≡ None) }
    ensures table { seat.new.table_id ≡ seat.old.table_id }
    ensures deed { DoesAt (settle_mapped range file chunk mode) seat.old.me.0.noted Always seat.old seat.new }
{
    let word = pack(RangeWord::Mapped {
        file,
        chunk,
        mode,
        pins: 0,
    });
    top.store::<SettleMapped>(seat, 8 * files + 8 * range + 8, word);
}

// The moved range is free.
pub(crate) fn settle_out(top: &Top, seat: &mut Chair, files: usize, range: usize)
    requires at { Stands top.now.table_id seat.old × (files ≡ top.now.table_id.slots) }
    requires range { (range < ranges_of seat.old.me.0) × (moves_at seat.old.me.0 range ≡ true) }
    ensures table { seat.new.table_id ≡ seat.old.table_id }
    ensures deed { DoesAt (settle_free range) seat.old.me.0.noted Always seat.old seat.new }
{
    top.store::<SettleFree>(seat, 8 * files + 8 * range + 8, 0);
}

// One pin more on a range of the tree that is had.
pub(crate) fn add_pin(top: &Top, seat: &mut Chair, files: usize, range: usize)
    requires at { Stands top.now.table_id seat.old × (files ≡ top.now.table_id.slots) }
    requires range { range < ranges_of seat.old.me.0 }
    requires may { seat.old.me.0.guest < seat.old.me.0.mine.movers }
    requires tree { (f : ℕ) × (c : ℕ) × (p : Placed) × HasIn seat.old.me.0.mine f c p × (p.range ≡ range) }
    requires few { length seat.old.me.0.mine.shown.pins < 64 }
    ensures table { seat.new.table_id ≡ seat.old.table_id }
    ensures deed { (f c : ℕ) (p : Placed) → HasIn seat.old.me.0.mine f c p → p.range ≡ range → DoesAt (pin f c p) (pinned_noted seat.old.me.0.noted f c p) Always seat.old seat.new }
{
    top.fetch_add::<AddPin>(seat, 8 * files + 8 * range + 8, 1);
}

// One pin less.
pub(crate) fn drop_pin(top: &Top, seat: &mut Chair, files: usize, range: usize)
    requires at { Stands top.now.table_id seat.old × (files ≡ top.now.table_id.slots) }
    requires range { (range < ranges_of seat.old.me.0) × (0 < pins_on range seat.old.me.0.mine.shown.pins) }
    ensures table { seat.new.table_id ≡ seat.old.table_id }
    ensures deed { DoesAt (unpin range) seat.old.me.0.noted Always seat.old seat.new }
{
    top.fetch_sub::<DropPin>(seat, 8 * files + 8 * range + 8, 1);
}

// What is placed in a range for reading may be written.
pub(crate) fn raise(top: &Top, seat: &mut Chair, files: usize, range: usize)
    requires at { Stands top.now.table_id seat.old × (files ≡ top.now.table_id.slots) }
    requires range { range < ranges_of seat.old.me.0 }
    requires may { seat.old.me.0.guest < seat.old.me.0.mine.movers }
    requires tree { (f : ℕ) × (c : ℕ) × (p : Placed) × HasIn seat.old.me.0.mine f c p × (p.range ≡ range) × (p.mode ≡ modes.R) × (map_shown seat.old.me.0.mine range ≡ Some (Some (target_of f c modes.W))) }
    ensures table { seat.new.table_id ≡ seat.old.table_id }
    ensures deed { (f c : ℕ) (p : Placed) → HasIn seat.old.me.0.mine f c p → p.range ≡ range → DoesAt (upgrade f c p) seat.old.me.0.noted Always seat.old seat.new }
{
    top.fetch_or::<Raise>(seat, 8 * files + 8 * range + 8, 65_536);
}

// Looks at what a range is mapped to.
pub(crate) fn point(top: &Top, seat: &mut Chair, files: usize, range: usize) -> Option<Target>
    requires at { Stands top.now.table_id seat.old × (files ≡ top.now.table_id.slots) }
    requires range { range < ranges_of seat.old.me.0 }
    ensures table { seat.new.table_id ≡ seat.old.table_id }
    ensures pinned { PinnedIn seat.old.me.0.mine range result }
    ensures held { HeldIn seat.old.me.0.mine range result }
    ensures deed { DoesAt (look range) (aimed seat.old.me.0.noted range result) (λ c. result ≡ target_in c.window range) seat.old seat.new }
{
    unpack_map(top.load::<Point>(seat, 8 * files + 8 * range + 9))
}

// A load that notes something.
pub(crate) fn note<J: Noting>(top: &Top, seat: &mut Chair)
    requires at { Stands top.now.table_id seat.old }
    ensures table { seat.new.table_id ≡ seat.old.table_id }
    ensures noted { seat.new.me ≡ (record seat.old.me.0 { noted = J.noted }, seat.old.me.1) }
{
    top.load::<Note<J>>(seat, 0);
}
