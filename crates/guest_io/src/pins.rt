ghost use Rattle.std.specs.Prelude.{◌≡◌, ◌<◌, ◌+◌, ◌-◌, IfSome};
ghost use Rattle.plain_file.specs.File.{max_file};
ghost use Rattle.range_tree.specs.Ranges.{range_count};
ghost use Rattle.guest_io.specs.Calls.{first_chunk};
ghost use Rattle.guest_io.specs.Chunks.{way_of, IsButTargets, CanGiveBack, IsGiven};

use guest_dax::Pinned;
use page_map::RANGE_SIZE;
use plain_file::Way;
use range_tree::RangeBoard;

// The pins of a call: one for each chunk of its interval, in order.
#[derive(Clone, Copy)]
pub(crate) struct Pins {
    pub first: Pinned,
    pub second: Option<Pinned>,
}

// The chunk of a byte of a file.
pub(crate) fn chunk_at(off: u64) -> u32
    requires { off < max_file }
    ensures is { result ≡ first_chunk off }
    ensures small { result < 32 }
{
    (off / RANGE_SIZE) as u32
}

// The way through these pins.
pub(crate) fn way_of(first: Pinned, second: Option<Pinned>) -> Way
    ensures { result ≡ way_of first second }
{
    match second {
        None => Way::Via(first.through, None),
        Some(pinned) => Way::Via(first.through, Some(pinned.through)),
    }
}

// Looks at what the second pinned range shows.
pub(crate) fn look_at_second<R: RangeBoard>(ranges: &mut R, second: Option<Pinned>)
    requires { IfSome second (λ p. p.range < range_count (R.map ranges.old)) }
    ensures { IsButTargets (R.map ranges.old) (R.map ranges.new) }
{
    match second {
        None => {}
        Some(pinned) => {
            let _target = ranges.target(pinned.range);
        }
    }
}

// Gives the pins back.
pub(crate) fn give_back<R: RangeBoard>(ranges: &mut R, first: Pinned, second: Option<Pinned>)
    requires { CanGiveBack (R.map ranges.old).hands.pins first second }
    ensures { IsGiven (R.map ranges.old) first second (R.map ranges.new) }
{
    match second {
        None => ranges.unpin(first.range),
        Some(pinned) => {
            ranges.unpin(pinned.range);
            ranges.unpin(first.range);
        }
    }
}
