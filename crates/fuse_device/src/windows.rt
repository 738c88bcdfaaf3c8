ghost use Rattle.std.specs.Prelude.{◌≡◌, ◌<◌, ◌*◌, length, true};
ghost use Rattle.std.specs.List.{list_all};
ghost use Rattle.page_map.specs.Board.{is_whole, may_clear};
ghost use Rattle.fuse_device.specs.State.{cleared_window, all_cleared};
ghost use Rattle.fuse_device.specs.Checks.{is_past};
ghost use Rattle.fuse_device.specs.Requests.{span_of, is_bad_setup};

use fuse_wire::{RemoveOne, SetupIn};
use page_map::{MapBoard, Mode, PAGE_SIZE, Span};
use plain_file::MAX_FILE;

/// Whether an interval of a file ends above the largest size of a file.
pub fn is_past(offset: u64, len: u64) -> bool
    ensures { result ≡ is_past offset len }
{
    offset > MAX_FILE || len > MAX_FILE - offset
}

// Whether an interval is whole pages within the window.
#[tactic(auto, unfolding(page_map::specs::Board::is_whole))]
fn is_whole(pages: u32, moffset: u64, len: u64) -> bool
    ensures { result ≡ is_whole pages moffset len }
{
    let end = PAGE_SIZE * pages as u64;
    moffset % PAGE_SIZE == 0
        && len % PAGE_SIZE == 0
        && 0 < len
        && moffset <= end
        && len <= end - moffset
}

/// Whether a SETUPMAPPING asks for neither reading nor writing, or for more than both, or its part isn't whole
/// pages of the file and of a window of so many pages.
pub fn is_bad_setup(pages: u32, r: &SetupIn) -> bool
    ensures { result ≡ is_bad_setup pages r.now }
{
    r.flags == 0 || r.flags > 3 || r.foffset % PAGE_SIZE != 0 || !is_whole(pages, r.moffset, r.len)
}

/// What a SETUPMAPPING of a node maps.
pub fn span_of(node: u64, r: &SetupIn) -> Span
    ensures { result ≡ span_of node r.now }
{
    let mode = if r.flags & 1 != 0 { Mode::W } else { Mode::R };
    Span {
        node,
        foffset: r.foffset,
        moffset: r.moffset,
        len: r.len,
        mode,
    }
}

/// Whether each interval is whole pages within a window of so many pages.
pub fn all_whole(pages: u32, ones: &[RemoveOne]) -> bool
    ensures { result ≡ list_all (λ one. is_whole pages one.moffset one.len) ones.now }
{
    ones.iter().all(|one| is_whole(pages, one.moffset, one.len))
}

/// Whether the board lets each interval be cleared.
pub fn all_clear<M: MapBoard>(map: &M, ones: &[RemoveOne]) -> bool
    ensures { result ≡ list_all (λ one. may_clear (M.map map.now) one.moffset one.len) ones.now }
{
    let mut rest = ones;
    while let [one, after @ ..] = rest {
        if !map.may_clear(one.moffset, one.len) {
            return false;
        }
        rest = after;
    }
    true
}

/// Clears intervals one after another. All are whole, and the board lets each be cleared.
pub fn clear_all<M: MapBoard>(map: &mut M, ones: &[RemoveOne])
    requires whole { list_all (λ one. is_whole (length (M.map map.old).table) one.moffset one.len) ones.now ≡ true }
    requires may { list_all (λ one. may_clear (M.map map.old) one.moffset one.len) ones.now ≡ true }
    ensures cleared { M.map map.new ≡ all_cleared (M.map map.old) ones.now }
    ensures pages { length (M.map map.new).table ≡ length (M.map map.old).table }
{
    let mut rest = ones;
    while let Some((one, after)) = rest.split_first() {
        map.clear(one.moffset, one.len);
        rest = after;
    }
}

/// Clears the whole window, where it has pages. The board lets it be cleared then.
#[tactic(auto, unfolding(page_map::specs::Board::is_whole))]
pub fn clear_window<M: MapBoard>(pages: u32, map: &mut M)
    requires pages { length (M.map map.old).table ≡ pages }
    requires may { 0 < pages → may_clear (M.map map.old) 0 (4096 * pages) ≡ true }
    ensures cleared { M.map map.new ≡ cleared_window pages (M.map map.old) }
    ensures pages { length (M.map map.new).table ≡ length (M.map map.old).table }
{
    if pages > 0 {
        map.clear(0, PAGE_SIZE * pages as u64);
    }
}
