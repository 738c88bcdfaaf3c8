ghost use Rattle.std.specs.Prelude.{◌≡◌, ◌<◌, true, false, None, Some, length};
ghost use Rattle.range_tree.specs.Ranges.{range_count, look_at, is_blocked, is_noted_blocked};
ghost use Rattle.guest_dax.specs.declared.attempts.Attempt.TheVariants as attempts;
ghost use Rattle.guest_dax.specs.Reclaims.{Attempted, Parts, is_removed};

use page_map::RangeWord;
use range_tree::RangeBoard;
use std::sync::Wait;

// What came of one attempt to take a range.
#[derive(Clone, Copy, Debug, PartialEq, Eq)]
pub(crate) enum Attempt {
    // It was free, and is moved now.
    Took,
    // It was taken from a file's tree, which is had now.
    Removed { file: u32 },
    // It is moving or pinned.
    Blocked,
    // Another guest was faster.
    Again,
}

// What a word says that refused a take.
#[tactic(auto, unfolding(range_tree::specs::Ranges::is_blocked, crate::specs::Reclaims::is_removed))]
pub(crate) fn refused(word: &RangeWord) -> Attempt
    ensures blocked { is_blocked word.now ≡ true → result ≡ attempts.Blocked }
    ensures again { is_blocked word.now ≡ false → result ≡ attempts.Again }
    ensures unremoved { is_removed result ≡ false }
{
    match word {
        RangeWord::Free => Attempt::Again,
        RangeWord::Moving { .. } => Attempt::Blocked,
        RangeWord::Mapped { pins, .. } => {
            if *pins > 0 {
                Attempt::Blocked
            } else {
                Attempt::Again
            }
        }
    }
}

// Takes a range whose noted look doesn't show it moving or pinned. No tree is had.
#[tactic(auto, unfolding(crate::specs::Reclaims::is_removed))]
fn take_seen<R: RangeBoard>(ranges: &mut R, range: u32) -> Attempt
    requires range { range < range_count (R.map ranges.old) }
    requires looks { length (R.map ranges.old).ranges.looks ≡ range_count (R.map ranges.old) }
    requires may { (R.map ranges.old).ranges.may_take ≡ true }
    requires moves { (R.map ranges.old).hands.moves ≡ None }
    requires seen { is_noted_blocked (look_at (R.map ranges.old) range) ≡ false }
    ensures attempted { Attempted (R.map ranges.old) range result (R.map ranges.new) }
    ensures unremoved { is_removed result ≡ false }
{
    match ranges.take(range) {
        Ok(()) => Attempt::Took,
        Err(word) => refused(&word),
    }
}

// Looks at a range, and takes it where it is seen free.
pub(crate) fn try_free<R: RangeBoard>(ranges: &mut R, range: u32) -> Attempt
    requires range { range < range_count (R.map ranges.old) }
    requires may { (R.map ranges.old).ranges.may_take ≡ true }
    requires moves { (R.map ranges.old).hands.moves ≡ None }
    ensures attempted { Attempted (R.map ranges.old) range result (R.map ranges.new) }
    ensures unremoved { is_removed result ≡ false }
{
    ranges.sound_ranges();
    match ranges.look(range) {
        RangeWord::Free => take_seen(ranges, range),
        word => refused(&word),
    }
}

// What to do with a range that was taken under a tree: where the tree had it, its log has grown.
fn part<R: RangeBoard>(ranges: &mut R, file: u32, before: u64) -> Attempt
    requires { (R.map ranges.old).hands.tree ≡ Some file }
    ensures { Parts file before (R.map ranges.old) result (R.map ranges.new) }
{
    if ranges.log_len() > before {
        return Attempt::Removed { file };
    }
    ranges.leave();
    Attempt::Took
}

// Takes a range that was seen mapped to a file, under its tree.
pub(crate) fn take_mapped<T: Wait, R: RangeBoard>(
    rt: &T,
    ranges: &mut R,
    file: u32,
    range: u32,
) -> Attempt
    requires range { range < range_count (R.map ranges.old) }
    requires file { file < length (R.map ranges.old).ranges.logs }
    requires looks { length (R.map ranges.old).ranges.looks ≡ range_count (R.map ranges.old) }
    requires may { (R.map ranges.old).ranges.may_take ≡ true }
    requires moves { (R.map ranges.old).hands.moves ≡ None }
    requires tree { (R.map ranges.old).hands.tree ≡ None }
    requires seen { is_noted_blocked (look_at (R.map ranges.old) range) ≡ false }
    ensures { Attempted (R.map ranges.old) range result (R.map ranges.new) }
{
    ranges.enter(rt, file);
    let before = ranges.log_len();
    match ranges.take(range) {
        Ok(()) => part(ranges, file, before),
        Err(word) => {
            ranges.leave();
            refused(&word)
        }
    }
}

// Looks at a range, and takes it where it is seen free or mapped without pins.
pub(crate) fn try_range<T: Wait, R: RangeBoard>(rt: &T, ranges: &mut R, range: u32) -> Attempt
    requires range { range < range_count (R.map ranges.old) }
    requires may { (R.map ranges.old).ranges.may_take ≡ true }
    requires moves { (R.map ranges.old).hands.moves ≡ None }
    requires tree { (R.map ranges.old).hands.tree ≡ None }
    ensures { Attempted (R.map ranges.old) range result (R.map ranges.new) }
{
    ranges.sound_ranges();
    let word = ranges.look(range);
    match word {
        RangeWord::Free => take_seen(ranges, range),
        RangeWord::Mapped { file, pins: 0, .. } => take_mapped(rt, ranges, file, range),
        _ => refused(&word),
    }
}
