ghost use Rattle.std.specs.Prelude.{◌≡◌, ◌<◌, true, false, None, Some, IsSome, IfErr, length, sum};
ghost use Rattle.page_map.specs.Board.{Hands, MapView, log_at};
ghost use Rattle.page_map.specs.Logs.{placed_at};
ghost use Rattle.guest_dax.specs.Pinning.{PinsFound, IsThrough, IsEnoughPlaced, Needs};

use page_map::{Mode, Placed};
use plain_file::Through;
use range_tree::RangeBoard;

/// A pinned range, and what the pin goes through.
#[derive(Clone, Copy, Debug, PartialEq, Eq)]
pub struct Pinned {
    /// The range's number.
    pub range: u32,
    /// The placement in the file's log, and how long the log was.
    pub through: Through,
}

// Pins the range of a chunk that the tree has with a mode that is enough.
pub(crate) fn pin_found<R: RangeBoard>(
    ranges: &mut R,
    file: u32,
    chunk: u32,
    mode: Mode,
) -> Option<Pinned>
    requires may { (R.map ranges.old).ranges.may_take ≡ true }
    requires tree { (R.map ranges.old).hands.tree ≡ Some file }
    requires few { sum (R.map ranges.old).hands.pins < 64 }
    requires enough { IsEnoughPlaced mode (placed_at (log_at (R.map ranges.old) file) chunk) }
    ensures { PinsFound (R.map ranges.old) file chunk mode result (R.map ranges.new) }
{
    ranges.sound_ranges();
    let upto = ranges.log_len();
    match ranges.find(chunk) {
        None => None,
        Some(placed) => {
            ranges.pin(placed.range);
            Some(Pinned {
                range: placed.range,
                through: Through {
                    entry: placed.entry,
                    upto,
                },
            })
        }
    }
}

// Pins the range of a chunk that was settled in the tree just now, with a mode that is enough.
pub(crate) fn pin_settled<R: RangeBoard>(
    ranges: &mut R,
    file: u32,
    chunk: u32,
    mode: Mode,
) -> Pinned
    requires may { (R.map ranges.old).ranges.may_take ≡ true }
    requires tree { (R.map ranges.old).hands.tree ≡ Some file }
    requires few { sum (R.map ranges.old).hands.pins < 64 }
    requires enough { IsEnoughPlaced mode (placed_at (log_at (R.map ranges.old) file) chunk) }
    requires placed { IsSome (placed_at (log_at (R.map ranges.old) file) chunk) }
    ensures pins { PinsFound (R.map ranges.old) file chunk mode (Some result) (R.map ranges.new) }
    ensures through { IsThrough (log_at (R.map ranges.old) file) chunk result }
{
    ranges.sound_ranges();
    let upto = ranges.log_len();
    let placed = ranges.find(chunk).unwrap();
    ranges.pin(placed.range);
    Pinned {
        range: placed.range,
        through: Through {
            entry: placed.entry,
            upto,
        },
    }
}

// The range of what is placed, where its mode isn't enough.
#[tactic(auto, unfolding(crate::specs::Pinning::IsEnoughPlaced, range_tree::specs::Ranges::is_enough))]
pub(crate) fn needs_upgrade(found: Option<Placed>, mode: Mode) -> Option<u32>
    ensures { Needs mode found result }
{
    match found {
        None => None,
        Some(placed) => match (placed.mode, mode) {
            (Mode::R, Mode::W) => Some(placed.range),
            _ => None,
        },
    }
}
