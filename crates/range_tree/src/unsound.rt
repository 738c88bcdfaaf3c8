ghost use Rattle.std.specs.Prelude.{◌≡◌, [], length, is_some, not, IfOk, OnOk};
ghost use Rattle.std.specs.List.{find};
ghost use Rattle.page_map.specs.Logs.{is_of, is_in, is_writable, may_follow, may_upgrade, next_slots};
ghost use Rattle.range_tree.specs.Trees.{slots_in};
ghost use Rattle.range_tree.specs.Logs.{unsound_at};

use crate::slots::{Spot, in_range, is_written, of_chunk, remove, upgrade};
use page_map::{LogEntry, MAX_CHUNKS};
use plain_file::Memory;
use std::alloc::Global;

fn has_chunk(spots: &[Spot], chunk: u32) -> bool
    ensures { result ≡ is_some (find (is_of chunk) (slots_in spots.now)) }
{
    of_chunk(spots, chunk).is_some()
}

fn has_range(spots: &[Spot], range: u32) -> bool
    ensures { result ≡ is_some (find (is_in range) (slots_in spots.now)) }
{
    in_range(spots, range).is_some()
}

// Whether what is placed in a range was placed for reading and not upgraded since.
#[tactic(auto, unfolding(page_map::specs::Logs::may_upgrade))]
fn may_upgrade(spots: &[Spot], range: u32) -> bool
    ensures { result ≡ may_upgrade (find (is_in range) (slots_in spots.now)) }
{
    match in_range(spots, range) {
        Some(spot) => !is_written(spot.mode),
        None => false,
    }
}

#[tactic(auto, unfolding(page_map::specs::Logs::may_follow))]
fn may_follow(ranges: u32, spots: &[Spot], entry: &LogEntry) -> bool
    ensures { result ≡ may_follow ranges (slots_in spots.now) entry.now }
{
    match entry {
        LogEntry::Place { chunk, range, .. } => {
            *chunk < MAX_CHUNKS
                && *range < ranges
                && !has_chunk(spots, *chunk)
                && !has_range(spots, *range)
        }
        LogEntry::Upgrade { range } => may_upgrade(spots, *range),
        LogEntry::Remove { range } => has_range(spots, *range),
    }
}

// What is placed after one entry more, of this number.
#[tactic(auto, unfolding(page_map::specs::Logs::next_slots))]
fn follow(spots: &mut Vec<Spot>, n: u64, entry: &LogEntry) -> Result<(), Memory>
    ensures { OnOk result (slots_in spots.new.items ≡ next_slots n (slots_in spots.old.items) entry.now) }
{
    match entry {
        LogEntry::Place { chunk, range, mode } => {
            spots.push(Spot {
                chunk: *chunk,
                range: *range,
                mode: *mode,
                entry: n,
            })?;
        }
        LogEntry::Upgrade { range } => upgrade(spots, *range),
        LogEntry::Remove { range } => remove(spots, *range),
    }
    Ok(())
}

/// The place, counted from 0, of the first entry of a log that may not follow those before it in a window
/// of so many ranges: a `Place` of a chunk at or above `MAX_CHUNKS`, of a range at or above `ranges`, or of
/// one that is placed; an `Upgrade` of a range that isn't placed for reading; a `Remove` of one that isn't
/// placed. None exactly where the log is sound. `Memory` comes where an allocation was refused.
///
/// It takes time in proportion to the log, and to the 32 chunks that are placed at once at most.
#[tactic(auto, unfolding(crate::specs::Logs::first_unsound))]
pub fn first_unsound(alloc: Global, ranges: u32, log: &[LogEntry]) -> Result<Option<u64>, Memory>
    ensures { IfOk result (λ o. o ≡ unsound_at ranges log.now) }
{
    let mut spots = Vec::new(alloc);
    let mut n = 0u64;
    for entry in log {
        if !may_follow(ranges, &spots, entry) {
            return Ok(Some(n));
        }
        follow(&mut spots, n, entry)?;
        n += 1;
    }
    Ok(None)
}
