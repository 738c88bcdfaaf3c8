ghost use Rattle.std.specs.Prelude.{◌≡◌, ◌<◌, ◌≤◌, ◌+◌, ◌%◌, ◌^◌, true, length, IfOk, OnOk};
ghost use Rattle.plain_file.specs.Limits.{max_transfer};
ghost use Rattle.window_access.specs.declared.refusals.Cause.TheVariants as causes;
ghost use Rattle.page_map.specs.Board.{NamesFiles};
ghost use Rattle.window_access.specs.Access.{CanAccess, IsGranted, Loads, LoadsInto, AreShown, loaded};

use crate::checks::{check_load, in_page};
use crate::refusals::WindowRefusal;
use page_map::PageMap;
use plain_file::{Blob, FileBoard};
use std::alloc::Global;

/// The `len` bytes of the window from the offset `moffset` on, as the files have them now. It makes no
/// entry, and changes nothing.
///
/// The board is a plain one, and has the file of each mapped page; at most 1,048,576 bytes are asked for. None are loaded at every offset.
///
/// `Unmapped` comes exactly where one of the bytes isn't mapped or is past the window; otherwise
/// `PastEnd` exactly where one lies at or past its file's end; each tells the first such byte. `Memory`
/// comes only where neither does.
pub fn load_window<F: FileBoard>(
    alloc: Global,
    files: &mut F,
    map: &PageMap,
    moffset: u64,
    len: u32,
) -> Result<Blob, WindowRefusal>
    requires plain { (F.board files.old).plain ≡ true }
    requires names { NamesFiles (length (F.board files.old).files) map.now }
    requires small { len ≤ max_transfer }
    ensures loads { Loads (F.board files.old) map.now moffset len result }
    ensures shown { IfOk result (AreShown (F.board files.old) map.now moffset len) }
    ensures same { F.board files.new ≡ F.board files.old }
{
    let mut bytes = Vec::new(alloc);
    load_window_into(files, map, moffset, len, &mut bytes)?;
    Ok(Blob::from_vec(bytes))
}

/// Loads the `len` bytes of the window from the offset `moffset` on as [`load_window`] does, and adds them at
/// the end of `out`. After an error `out` has its old bytes.
pub fn load_window_into<F: FileBoard>(
    files: &mut F,
    map: &PageMap,
    moffset: u64,
    len: u32,
    out: &mut Vec<u8>,
) -> Result<(), WindowRefusal>
    requires plain { (F.board files.old).plain ≡ true }
    requires names { NamesFiles (length (F.board files.old).files) map.now }
    requires small { len ≤ max_transfer }
    ensures loads { LoadsInto (F.board files.old) map.now moffset len out.old.items result out.new.items }
    ensures shown { OnOk result (AreShown (F.board files.old) map.now moffset len (loaded (F.board files.old) map.now moffset len)) }
    ensures same { F.board files.new ≡ F.board files.old }
{
    check_load(files, map, moffset, u64::from(len))?;
    let start = out.len();
    let Some(end) = start.checked_add(len as usize) else {
        return Err(WindowRefusal::Memory);
    };
    if out.resize(end, 0).is_err() {
        return Err(WindowRefusal::Memory);
    }
    load(files, map, moffset, &mut out.as_mut_slice()[start..]);
    Ok(())
}

// The bytes of one page, which can all be loaded.
fn load_in_page<F: FileBoard>(files: &F, map: &PageMap, at: u64, out: &mut [u8])
    requires can { CanAccess (F.board files.now) map.now }
    requires some { 0 < length out.old }
    requires page { at % 4096 + length out.old ≤ 4096 }
    requires mapped { IsGranted (F.board files.now) map.now causes.Unmapped at (length out.old) }
    requires inside { IsGranted (F.board files.now) map.now causes.PastEnd at (length out.old) }
    ensures { out.new ≡ loaded (F.board files.now) map.now at (length out.old) }
{
    if let Some(p) = map.find(at) {
        let _count = files.count();
        let file = (p.node - 2) as u32;
        files.sound(file);
        files.read_into(file, p.foffset, out);
    }
}

// The bytes from an offset of the window on, which can all be loaded.
fn load<F: FileBoard>(files: &F, map: &PageMap, moffset: u64, out: &mut [u8])
    requires can { CanAccess (F.board files.now) map.now }
    requires mapped { IsGranted (F.board files.now) map.now causes.Unmapped moffset (length out.old) }
    requires inside { IsGranted (F.board files.now) map.now causes.PastEnd moffset (length out.old) }
    requires small { moffset + length out.old < 2 ^ 64 }
    ensures { out.new ≡ loaded (F.board files.now) map.now moffset (length out.old) }
{
    let mut done = 0;
    while done < out.len() {
        let at = moffset + done as u64;
        let n = in_page(at, (out.len() - done) as u64) as usize;
        load_in_page(files, map, at, &mut out[done..done + n]);
        done += n;
    }
}
