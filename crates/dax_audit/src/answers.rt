ghost use Rattle.std.specs.Prelude.{◌≡◌, ◌≤◌, ◌<◌, ◌+◌, ◌-◌, ◌==◌, ℕ, Bool, true, List, length, take, drop, slice_get, Some};
ghost use Rattle.dax_audit.specs.Tables.{right_in, sizes_in, seen_in, given_in, fresh_in, write_by, lives_in};
ghost use Rattle.range_tree.specs.Logs.{is_live};
ghost use Rattle.dax_audit.specs.Rules.{covers, chunks, pairs_of, is_req};
ghost use Rattle.plain_file.specs.File.{max_file};

use crate::looks::Look;
use crate::picks::pick;
use crate::replays::Replay;
use dax_script::CHUNK;
use plain_file::{Through, Way};
use range_tree::Lives;

#[tactic(auto, unfolding(crate::specs::Tables::right_in))]
pub fn is_right_at(replays: &[Replay], file: usize, place: u64) -> bool
    ensures { result ≡ right_in replays.now file place }
{
    let Some(replay) = pick(replays, file) else {
        return false;
    };
    match pick(&replay.right, place as usize) {
        Some(right) => *right,
        None => false,
    }
}

#[tactic(auto, unfolding(crate::specs::Tables::sizes_in))]
pub fn sizes_of(replays: &[Replay], file: usize) -> &[u64]
    ensures { result.now ≡ sizes_in replays.now file }
{
    match pick(replays, file) {
        Some(replay) => replay.sizes.as_slice(),
        None => &[],
    }
}

/// How much of its file's history a guest had seen before a call.
#[tactic(auto, unfolding(crate::specs::Tables::seen_in))]
pub fn seen_of(looks: &[Look], guest: usize, call: usize) -> u128
    ensures { result ≡ seen_in looks.now guest call }
{
    let Some(look) = pick(looks, guest) else {
        return 0;
    };
    match pick(&look.seen, call) {
        Some(seen) => *seen,
        None => 0,
    }
}

/// Whether the hold that a call uses was given up before.
#[tactic(auto, unfolding(crate::specs::Tables::given_in))]
pub fn is_given_up(looks: &[Look], guest: usize, call: usize) -> bool
    ensures { result ≡ given_in looks.now guest call }
{
    let Some(look) = pick(looks, guest) else {
        return false;
    };
    match pick(&look.given, call) {
        Some(given) => *given,
        None => false,
    }
}

// Whether one of the sizes from the place `low` to the place `high` is this one.
#[tactic(auto, unfolding(crate::specs::Tables::fresh_in))]
pub fn is_among(sizes: &[u64], low: u128, high: u64, z: u64) -> bool
    requires { high < length sizes.now }
    ensures { result ≡ fresh_in sizes.now z low high }
{
    if low > high as u128 {
        return false;
    }
    sizes[low as usize..=high as usize].contains(&z)
}

/// Whether a placement of a file's log is live, and for `write` also writable; false where there is no such file.
#[tactic(auto, using(crate::proofs::Lived::nothing_lives), unfolding(crate::specs::Tables::lives_in))]
pub fn is_live_in(
    write: bool,
    lives: &[Lives<'_>],
    file: usize,
    chunk: u64,
    through: &Through,
) -> bool
    ensures { result ≡ is_live write (lives_in lives.now file) chunk through.now.entry through.now.upto }
{
    match pick(lives, file) {
        Some(lives) => lives.is_live(write, chunk, through.entry, through.upto),
        None => false,
    }
}

/// Whether a way names one live placement for each chunk of an interval, in order.
#[tactic(auto, unfolding(crate::specs::Rules::covers, crate::specs::Rules::chunks, crate::specs::Rules::pairs_of))]
pub fn covers(write: bool, lives: &Lives<'_>, off: u64, len: u64, way: &Way) -> bool
    requires { off + len ≤ max_file }
    ensures { result ≡ covers write lives.now.log.now (chunks off len) (pairs_of way.now) }
{
    let first = off / CHUNK;
    let last = (off + len).saturating_sub(1) / CHUNK;
    let Way::Via(k, more) = way else {
        return false;
    };
    match more {
        None => first == last && lives.is_live(write, first, k.entry, k.upto),
        Some(m) => first != last
            && lives.is_live(write, first, k.entry, k.upto)
            && lives.is_live(write, first + 1, m.entry, m.upto),
    }
}

/// Whether a write may have come this way.
#[tactic(auto, unfolding(crate::specs::Tables::write_by))]
pub fn is_write_way(
    sizes: &[u64],
    lives: &Lives<'_>,
    seen: u128,
    place: usize,
    off: u64,
    len: u64,
    way: &Way,
) -> bool
    requires within { place < length sizes.now }
    requires small { off + len ≤ max_file }
    ensures { result ≡ write_by sizes.now lives.now.log.now seen place off len way.now }
{
    match way {
        Way::Req => false,
        Way::ReqSaw(z) => *z < off + len && is_among(sizes, seen, place as u64, *z),
        Way::Via(..) => off + len <= sizes[place] && covers(true, lives, off, len, way),
    }
}
