ghost use Rattle.std.specs.Prelude.{◌≡◌, ◌+◌, ◌-◌, ◌*◌, ◌<◌, ◌≤◌, ◌/◌, ◌%◌, None, length, slice_index_or};
ghost use Rattle.page_map.specs.Board.{replaced};
ghost use Rattle.page_map.specs.Plain.{page_behind, page_at, pages_of, HasRoom, IsKept};

use crate::pages::Page;
use crate::{PAGE_SIZE, PAGES_OF_RANGE};
use std::cmp::min;

// How many pages a range has, as an index counts them.
const RANGE_PAGES: usize = PAGES_OF_RANGE as usize;

/// How the map of a window keeps a whole range of it.
#[derive(Clone, Copy, Debug, PartialEq, Eq)]
pub(crate) enum Part {
    /// Page by page: each one's entry says what it is mapped to.
    Pages,
    /// As one mapping, whatever the entries say: what its first page is mapped to, which the others
    /// follow in the file, or None where nothing is mapped in the range.
    Whole(Option<Page>),
}

// What the page so many behind a mapping's first one is mapped to.
fn behind(first: Option<Page>, pages: usize) -> Option<Page>
    requires { HasRoom first (pages + 1) }
    ensures { result ≡ page_behind first pages }
{
    match first {
        Some(p) => Some(Page {
            node: p.node,
            foffset: p.foffset + PAGE_SIZE * pages as u64,
            mode: p.mode,
        }),
        None => None,
    }
}

/// What a page of the window is mapped to.
pub(crate) fn find_page(parts: &[Part], table: &[Option<Page>], page: usize) -> Option<Page>
    requires within { page < length table.now }
    requires room { HasRoom (page_at parts.now table.now page) 1 }
    ensures { result ≡ page_at parts.now table.now page }
{
    let range = page / RANGE_PAGES;
    if range < parts.len() {
        if let Part::Whole(first) = parts[range] {
            return behind(first, page % RANGE_PAGES);
        }
    }
    table[page]
}

// Maps count entries from one on to the pages behind a mapping's first one.
fn paint(table: &mut Vec<Option<Page>>, at: usize, count: usize, first: Option<Page>)
    requires within { at + count ≤ length table.old.items }
    requires room { HasRoom first count }
    ensures { table.new.items ≡
        replaced (λ page. page_behind first (page - at)) table.old.items at count }
{
    for k in 0..count {
        table[at + k] = behind(first, k);
    }
}

// Writes the entries of a range out, where it is kept as one mapping.
fn split(parts: &mut Vec<Part>, table: &mut Vec<Option<Page>>, range: usize)
    requires { IsKept parts.old.items table.old.items }
    ensures same { pages_of parts.new.items table.new.items ≡
        pages_of parts.old.items table.old.items }
    ensures split { slice_index_or parts.new.items range Part.Pages ≡ Part.Pages }
    ensures parts { length parts.new.items ≡ length parts.old.items }
    ensures table { length table.new.items ≡ length table.old.items }
{
    if range >= parts.len() {
        return;
    }
    if let Part::Whole(first) = parts[range] {
        paint(table, range * RANGE_PAGES, RANGE_PAGES, first);
        parts[range] = Part::Pages;
    }
}

// Maps count pages of one range, from a page on, to those behind a mapping's first one.
fn map_in_range(
    parts: &mut Vec<Part>,
    table: &mut Vec<Option<Page>>,
    at: usize,
    count: usize,
    first: Option<Page>,
)
    requires kept { IsKept parts.old.items table.old.items }
    requires within { at + count ≤ length table.old.items }
    requires piece { at % 512 + count ≤ 512 }
    requires room { HasRoom first count }
    ensures pages { pages_of parts.new.items table.new.items ≡
        replaced (λ page. page_behind first (page - at))
        (pages_of parts.old.items table.old.items) at count }
    ensures parts { length parts.new.items ≡ length parts.old.items }
    ensures table { length table.new.items ≡ length table.old.items }
{
    let range = at / RANGE_PAGES;
    if count == RANGE_PAGES {
        parts[range] = Part::Whole(first);
        return;
    }
    split(parts, table, range);
    paint(table, at, count, first);
}

/// Maps `count` pages, from a page of the window on, to those behind a mapping's first one, or unmaps
/// them where that is None. What is a whole range is kept as one mapping.
pub(crate) fn map_pages(
    parts: &mut Vec<Part>,
    table: &mut Vec<Option<Page>>,
    at: usize,
    count: usize,
    first: Option<Page>,
)
    requires kept { IsKept parts.old.items table.old.items }
    requires within { at + count ≤ length table.old.items }
    requires room { HasRoom first count }
    ensures kept { IsKept parts.new.items table.new.items }
    ensures pages { pages_of parts.new.items table.new.items ≡
        replaced (λ page. page_behind first (page - at))
        (pages_of parts.old.items table.old.items) at count }
{
    let mut done = 0;
    while done < count {
        let next = at + done;
        let piece = min(count - done, RANGE_PAGES - next % RANGE_PAGES);
        map_in_range(parts, table, next, piece, behind(first, done));
        done += piece;
    }
}
