ghost use Rattle.std.specs.Prelude.{◌≡◌, ◌∷◌, ◌++◌, [], length, map, filter, not, option_map, Some, IsSome};
ghost use Rattle.std.specs.List.{find, list_any};
ghost use Rattle.page_map.specs.Logs.{is_of, is_in, is_writable, upgraded};
ghost use Rattle.range_tree.specs.Trees.{slot_of, slots_in, is_span_of, raised, is_elsewhere};

use page_map::{Mode, RANGE_SIZE, Span};
use plain_file::Memory;

// A chunk in its range, with the place of its `Place` in the log.
#[derive(Clone, Copy, Debug, PartialEq, Eq)]
pub(crate) struct Spot {
    pub(crate) chunk: u32,
    pub(crate) range: u32,
    pub(crate) mode: Mode,
    pub(crate) entry: u64,
}

#[tactic(auto, unfolding(page_map::specs::Logs::is_writable))]
pub(crate) fn is_written(mode: Mode) -> bool
    ensures { result ≡ is_writable mode }
{
    matches!(mode, Mode::W)
}

// What is placed for a chunk.
pub(crate) fn of_chunk(spots: &[Spot], chunk: u32) -> Option<Spot>
    ensures { option_map slot_of result ≡ find (is_of chunk) (slots_in spots.now) }
{
    for spot in spots {
        if spot.chunk == chunk {
            return Some(*spot);
        }
    }
    None
}

// The spot of a placed chunk.
pub(crate) fn spot_of(spots: &[Spot], chunk: u32) -> Spot
    requires { IsSome (find (is_of chunk) (slots_in spots.now)) }
    ensures { Some (slot_of result) ≡ find (is_of chunk) (slots_in spots.now) }
{
    let Some(spot) = of_chunk(spots, chunk) else {
        unreachable!()
    };
    spot
}

// What is placed in a range.
pub(crate) fn in_range(spots: &[Spot], range: u32) -> Option<Spot>
    ensures { option_map slot_of result ≡ find (is_in range) (slots_in spots.now) }
{
    for spot in spots {
        if spot.range == range {
            return Some(*spot);
        }
    }
    None
}

// Whether a span is the whole of a spot's chunk, of this file, in its range.
fn is_span_of(span: &Span, file: u32, spot: &Spot) -> bool
    ensures { result ≡ is_span_of span.now file spot.now }
{
    let range = span.moffset == spot.range as u64 * RANGE_SIZE && span.len == RANGE_SIZE;
    range && file as u64 + 2 == span.node && spot.chunk as u64 * RANGE_SIZE == span.foffset
}

// Whether a span is the whole of a placed chunk of this file.
pub(crate) fn has_span(spots: &[Spot], file: u32, span: &Span) -> bool
    ensures { result ≡ list_any (is_span_of span.now file) spots.now }
{
    spots.iter().any(|spot| is_span_of(span, file, spot))
}

// The spot after an upgrade of a range.
fn raised(range: u32, spot: Spot) -> Spot
    ensures { result ≡ raised range spot }
{
    Spot {
        chunk: spot.chunk,
        range: spot.range,
        mode: if spot.range == range {
            Mode::W
        } else {
            spot.mode
        },
        entry: spot.entry,
    }
}

// What is placed in a range may be written from here on.
#[tactic(auto, using(crate::proofs::Agreeing::slots_raised))]
pub(crate) fn upgrade(spots: &mut Vec<Spot>, range: u32)
    ensures spots { spots.new.items ≡ map (raised range) spots.old.items }
    ensures slots { slots_in spots.new.items ≡ map (upgraded range) (slots_in spots.old.items) }
{
    for i in 0..spots.len() {
        spots[i] = raised(range, spots[i]);
    }
}

// Nothing is placed in a range from here on.
#[tactic(auto, using(crate::proofs::Agreeing::slots_left))]
pub(crate) fn remove(spots: &mut Vec<Spot>, range: u32)
    ensures spots { spots.new.items ≡ filter (is_elsewhere range) spots.old.items }
    ensures slots { slots_in spots.new.items ≡ filter (λ s. not (is_in range s)) (slots_in spots.old.items) }
{
    let mut kept = 0;
    for i in 0..spots.len() {
        let spot = spots[i];
        if spot.range != range {
            spots[kept] = spot;
            kept += 1;
        }
    }
    spots.truncate(kept);
}
