ghost use Rattle.std.specs.Prelude.{◌≡◌, ℕ, true, false, length, unwrap_or, if◌then◌else◌, Some, IfOk, OnOk};
ghost use Rattle.std.specs.Ordering.{nat_cmp};
ghost use Rattle.std.specs.BTreeMap.{get};
ghost use Rattle.range_tree.specs.Logs.{is_live};
ghost use Rattle.range_tree.specs.Behind.{range_of, ended, is_number, behind, lasts_till};

use crate::slots::is_written;
use page_map::LogEntry;
use plain_file::Memory;
use std::alloc::Global;
use std::collections::BTreeMap;

/// A placement log that tells at once whether a placement is live.
///
/// Of each entry it knows where behind it its range is removed next, and where upgraded next; the log's
/// length where that doesn't happen.
#[derive(Drop)]
pub struct Lives<'a> {
    pub log: &'a [LogEntry],
    removed: Vec<usize>,
    upgraded: Vec<usize>,
    ghost removals: { removed.items ≡ behind false 0 log.now },
    ghost upgrades: { upgraded.items ≡ behind true 0 log.now },
}

#[tactic(auto, unfolding(crate::specs::Behind::range_of))]
fn range_of(entry: &LogEntry) -> u32
    ensures { result ≡ range_of entry.now }
{
    match entry {
        LogEntry::Place { range, .. } | LogEntry::Upgrade { range } | LogEntry::Remove { range } =>
            *range,
    }
}

#[tactic(auto, unfolding(crate::specs::Behind::ended))]
fn ended(up: bool, entry: &LogEntry) -> Option<u32>
    ensures { result ≡ ended up entry.now }
{
    match entry {
        LogEntry::Place { .. } => None,
        LogEntry::Upgrade { range } => if up { Some(*range) } else { None },
        LogEntry::Remove { range } => if up { None } else { Some(*range) },
    }
}

fn place_in(next: &BTreeMap<u32, usize>, range: u32, end: usize) -> usize
    ensures { result ≡ unwrap_or (get nat_cmp next.now range) end }
{
    match next.get(&range) {
        Some(place) => *place,
        None => end,
    }
}

// The places with that of one range more.
fn note_place(
    next: &mut BTreeMap<u32, usize>,
    range: Option<u32>,
    place: usize,
) -> Result<(), Memory>
    ensures { OnOk result ((q : ℕ) → get nat_cmp next.new q ≡ (if is_number q range then Some place else get nat_cmp next.old q)) }
{
    if let Some(range) = range {
        next.insert(range, place)?;
    }
    Ok(())
}

// Of each entry, where behind it its range is upgraded (`up`), or else removed.
fn places_behind(alloc: Global, up: bool, log: &[LogEntry]) -> Result<Vec<usize>, Memory>
    ensures { IfOk result (λ v. v.items ≡ behind up 0 log.now) }
{
    let mut places = vec![in alloc; 0usize; log.len()]?;
    let mut next = BTreeMap::new(alloc);
    let mut at = log.len();
    while at > 0 {
        at -= 1;
        let entry = &log[at];
        places[at] = place_in(&next, range_of(entry), log.len());
        note_place(&mut next, ended(up, entry), at)?;
    }
    Ok(places)
}

#[tactic(auto, unfolding(crate::specs::Behind::lasts_till))]
fn lasts_till(
    write: bool,
    entry: &LogEntry,
    chunk: u64,
    upto: u64,
    removed: usize,
    upgraded: usize,
) -> bool
    ensures { result ≡ lasts_till write entry.now chunk upto removed upgraded }
{
    match entry {
        LogEntry::Place { chunk: c, mode, .. } => {
            *c as u64 == chunk
                && upto <= removed as u64
                && (!write || is_written(*mode) || (upgraded as u64) < upto)
        }
        _ => false,
    }
}

impl<'a> Lives<'a> {
    /// Looks through a log, in time that goes with its length and the number of its ranges. `Memory` comes
    /// where an allocation was refused.
    pub fn new(alloc: Global, log: &'a [LogEntry]) -> Result<Lives<'a>, Memory>
        ensures { IfOk result (λ l. l.log.now ≡ log.now) }
    {
        let removed = places_behind(alloc, false, log)?;
        let upgraded = places_behind(alloc, true, log)?;
        Ok(Lives {
            log,
            removed,
            upgraded,
        })
    }

    /// Whether the entry places this chunk, and is live when the log has `upto` entries: it is one of them, and
    /// none of those behind it removes its range. To `write` it was placed for that, or one of them upgrades
    /// its range. It takes the same time for every entry.
    #[tactic(auto, using(crate::proofs::Live::live_below, crate::proofs::Live::live_long))]
    pub fn is_live(&self, write: bool, chunk: u64, entry: u64, upto: u64) -> bool
        ensures { result ≡ is_live write self.now.log.now chunk entry upto }
    {
        if entry >= upto || upto > self.log.len() as u64 {
            return false;
        }
        let at = entry as usize;
        lasts_till(
            write,
            &self.log[at],
            chunk,
            upto,
            self.removed[at],
            self.upgraded[at],
        )
    }
}
