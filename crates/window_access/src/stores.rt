ghost use Rattle.std.specs.Prelude.{◌≡◌, ◌≢◌, ◌<◌, ◌≤◌, ◌+◌, ◌-◌, ◌*◌, ◌/◌, ◌%◌, ◌^◌, None, true, length, OnOk, OnErr};
ghost use Rattle.plain_file.specs.Limits.{max_transfer};
ghost use Rattle.plain_file.specs.Board.{applied};
ghost use Rattle.plain_file.specs.File.{max_file};
ghost use Rattle.plain_file.specs.declared.operations.Op.TheVariants as ops;
ghost use Rattle.page_map.specs.Board.{mapped_byte, NamesFiles};
ghost use Rattle.window_access.specs.Access.{CanAccess, IsBelow, IsMapped, IsPartlyStored, Stores, piece_at, piece_bytes, piece_start, stored, touched};

use crate::checks::{check_store, in_page};
use crate::refusals::WindowRefusal;
use page_map::{PAGE_SIZE, Page, PageMap};
use plain_file::{Blob, FileBoard, Memory, Op};
use std::alloc::Global;

/// Stores bytes in the window from the offset `moffset` on: in each page that they touch, in order, by
/// one write to its file.
///
/// The board is a plain one, and has the file of each mapped page; there are at most 1,048,576 bytes. No bytes are stored at every offset.
///
/// `Unmapped` comes exactly where one of the bytes isn't mapped or is past the window; otherwise
/// `ReadOnly` exactly where the mapping of one doesn't allow writing; otherwise `PastEnd` exactly where
/// one lies at or past its file's end; each tells the first such byte, and nothing has changed then.
/// `Memory` comes only where none of them does: the bytes in some of the pages, from the first on, are
/// stored then.
pub fn store_window<F: FileBoard>(
    alloc: Global,
    files: &mut F,
    map: &PageMap,
    moffset: u64,
    bytes: &[u8],
) -> Result<(), WindowRefusal>
    requires plain { (F.board files.old).plain ≡ true }
    requires names { NamesFiles (length (F.board files.old).files) map.now }
    requires small { length bytes.now ≤ max_transfer }
    ensures { Stores (F.board files.old) map.now moffset bytes.now result (F.board files.new) }
{
    check_store(files, map, moffset, bytes.len() as u64)?;
    store(alloc, files, map, moffset, bytes)?;
    Ok(())
}

// How many pages such bytes touch.
#[tactic(auto, unfolding(crate::specs::Access::touched))]
fn touched(moffset: u64, len: u64) -> u64
    requires { moffset + len < 2 ^ 64 }
    ensures { result ≡ touched moffset len }
{
    if len == 0 {
        return 0;
    }
    (moffset + (len - 1)) / PAGE_SIZE - moffset / PAGE_SIZE + 1
}

// Writes bytes to the file of a mapped byte, from there on.
#[tactic(auto, unfolding(plain_file::specs::File::reach))]
fn write<F: FileBoard>(
    alloc: Global,
    files: &mut F,
    map: &PageMap,
    p: &Page,
    bytes: &[u8],
) -> Result<(), Memory>
    requires can { CanAccess (F.board files.old) map.now }
    requires named { 2 ≤ p.now.node }
    requires within { p.now.node - 2 < length (F.board files.old).files }
    requires ends { p.now.foffset + length bytes.now ≤ max_file }
    ensures ok { OnOk result (F.board files.new ≡ applied (F.board files.old) (p.now.node - 2) (ops.Write p.now.foffset bytes.now)) }
    ensures can { CanAccess (F.board files.new) map.now }
    ensures err { OnErr result (F.board files.new ≡ F.board files.old) }
{
    let _map = map;
    let _count = files.count();
    let file = (p.node - 2) as u32;
    files.sound(file);
    let op = Op::Write {
        off: p.foffset,
        bytes: Blob::copy_of(alloc, bytes)?,
    };
    // A plain board refuses for want of memory alone.
    match files.apply(alloc, file, op) {
        Ok(_) => Ok(()),
        Err(_) => Err(Memory),
    }
}

// Stores bytes in one page.
fn store_piece<F: FileBoard>(
    alloc: Global,
    files: &mut F,
    map: &PageMap,
    at: u64,
    bytes: &[u8],
) -> Result<(), Memory>
    requires can { CanAccess (F.board files.old) map.now }
    requires mapped { mapped_byte map.now at ≢ None }
    requires some { 0 < length bytes.now }
    requires page { at % 4096 + length bytes.now ≤ 4096 }
    requires below { IsBelow map.now at (length bytes.now) }
    ensures ok { OnOk result (F.board files.new ≡ applied (F.board files.old) (piece_at map.now at bytes.now).file (piece_at map.now at bytes.now).op) }
    ensures can { CanAccess (F.board files.new) map.now }
    ensures err { OnErr result (F.board files.new ≡ F.board files.old) }
{
    match map.find(at) {
        Some(p) => write(alloc, files, map, &p, bytes),
        None => Ok(()),
    }
}

// Stores what of the bytes lies in a page.
fn store_in_page<F: FileBoard>(
    alloc: Global,
    files: &mut F,
    map: &PageMap,
    moffset: u64,
    bytes: &[u8],
    page: u64,
) -> Result<(), Memory>
    requires can { CanAccess (F.board files.old) map.now }
    requires mapped { IsMapped map.now moffset (length bytes.now) }
    requires below { IsBelow map.now moffset (length bytes.now) }
    requires small { moffset + length bytes.now < 2 ^ 64 }
    requires from { moffset / 4096 ≤ page }
    requires to { 4096 * page < moffset + length bytes.now }
    requires some { 0 < length bytes.now }
    ensures ok { OnOk result (F.board files.new ≡ applied (F.board files.old)
        (piece_at map.now (piece_start moffset page) (piece_bytes moffset bytes.now page)).file
        (piece_at map.now (piece_start moffset page) (piece_bytes moffset bytes.now page)).op) }
    ensures can { CanAccess (F.board files.new) map.now }
    ensures err { OnErr result (F.board files.new ≡ F.board files.old) }
{
    let start = moffset.max(PAGE_SIZE * page);
    let rest = bytes.split_at((start - moffset) as usize).1;
    let n = in_page(start, rest.len() as u64) as usize;
    store_piece(alloc, files, map, start, rest.split_at(n).0)
}

// Stores bytes that are all mapped.
fn store<F: FileBoard>(
    alloc: Global,
    files: &mut F,
    map: &PageMap,
    moffset: u64,
    bytes: &[u8],
) -> Result<(), Memory>
    requires can { CanAccess (F.board files.old) map.now }
    requires mapped { IsMapped map.now moffset (length bytes.now) }
    requires below { IsBelow map.now moffset (length bytes.now) }
    requires small { moffset + length bytes.now < 2 ^ 64 }
    ensures ok { OnOk result (F.board files.new ≡ stored (F.board files.old) map.now moffset bytes.now) }
    ensures err { OnErr result (IsPartlyStored (F.board files.old) map.now moffset bytes.now (F.board files.new)) }
{
    let first = moffset / PAGE_SIZE;
    for k in 0..touched(moffset, bytes.len() as u64) {
        store_in_page(alloc, files, map, moffset, bytes, first + k)?;
    }
    Ok(())
}
