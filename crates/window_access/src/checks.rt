ghost use Rattle.std.specs.Prelude.{◌≡◌, ◌<◌, ◌≤◌, ◌+◌, ◌-◌, ◌*◌, ◌%◌, ◌^◌, Some, None, true, min, length, OnOk, OnErr, IfErr, ℕ, nat_le, nat_lt, if◌then◌else◌};
ghost use Rattle.page_map.specs.Board.{mapped_byte};
ghost use Rattle.plain_file.specs.Board.{file_at, size_of};
ghost use Rattle.plain_file.specs.File.{max_file};
ghost use Rattle.window_access.specs.declared.refusals.Cause.TheVariants as causes;
ghost use Rattle.window_access.specs.Access.{CanAccess, IsBelow, IsGranted, IsMapped, file_of, first_failing, refusal_at, load_refusal, store_refusal, IsRefusal};

use crate::refusals::{Cause, WindowRefusal};
use page_map::{MapBoard, Mode, PAGE_SIZE, Page, PageMap};
use plain_file::FileBoard;

// How many of the bytes from an offset of the window on lie in its page.
pub(crate) fn in_page(at: u64, len: u64) -> u64
    requires { 0 < len }
    ensures value { result ≡ min len (4096 - at % 4096) }
    ensures some { 0 < result }
    ensures page { at % 4096 + result ≤ 4096 }
    ensures within { result ≤ len }
{
    len.min(PAGE_SIZE - at % PAGE_SIZE)
}

// The size of the file of a mapped byte.
fn size_of<F: FileBoard>(files: &mut F, p: &Page) -> u64
    requires plain { (F.board files.old).plain ≡ true }
    requires named { 2 ≤ p.now.node }
    requires within { p.now.node - 2 < length (F.board files.old).files }
    ensures value { result ≡ size_of (file_of (F.board files.old) p.now) }
    ensures small { result ≤ max_file }
    ensures same { F.board files.new ≡ F.board files.old }
{
    let _count = files.count();
    let file = (p.node - 2) as u32;
    files.sound(file);
    files.size_now(file)
}

// The first of these bytes of one page that lies at or past the end of its file, which has this size.
fn first_past(at: u64, len: u64, foffset: u64, size: u64) -> Option<u64>
    requires { at + len < 2 ^ 64 }
    ensures value { result ≡ if nat_le size foffset then Some at else if nat_lt (size - foffset) len then Some (at + (size - foffset)) else None }
    ensures none { result ≡ None → foffset + len ≤ size }
{
    if size <= foffset {
        Some(at)
    } else if size - foffset < len {
        Some(at + (size - foffset))
    } else {
        None
    }
}

// The first of these bytes of one page that can't be accessed, for this cause.
#[tactic(auto, unfolding(crate::specs::Access::is_against))]
fn first_in_page<F: FileBoard>(
    files: &mut F,
    map: &PageMap,
    cause: Cause,
    at: u64,
    len: u64,
) -> Option<u64>
    requires can { CanAccess (F.board files.old) map.now }
    requires some { 0 < len }
    requires page { at % 4096 + len ≤ 4096 }
    requires small { at + len < 2 ^ 64 }
    ensures value { result ≡ first_failing (F.board files.old) map.now cause at len }
    ensures below { cause ≡ causes.PastEnd → result ≡ None → IsBelow map.now at len }
    ensures same { F.board files.new ≡ F.board files.old }
{
    match map.find(at) {
        None => match cause {
            Cause::Unmapped => Some(at),
            Cause::ReadOnly | Cause::PastEnd => None,
        },
        Some(p) => match cause {
            Cause::Unmapped => None,
            Cause::ReadOnly => match p.mode {
                Mode::R => Some(at),
                Mode::W => None,
            },
            Cause::PastEnd => {
                let size = size_of(files, &p);
                first_past(at, len, p.foffset, size)
            }
        },
    }
}

// The first of these bytes that can't be accessed, for this cause.
fn first_failing<F: FileBoard>(
    files: &mut F,
    map: &PageMap,
    cause: Cause,
    moffset: u64,
    len: u64,
) -> Option<u64>
    requires can { CanAccess (F.board files.old) map.now }
    requires small { moffset + len < 2 ^ 64 }
    ensures value { result ≡ first_failing (F.board files.old) map.now cause moffset len }
    ensures below { cause ≡ causes.PastEnd → result ≡ None → IsBelow map.now moffset len }
    ensures same { F.board files.new ≡ F.board files.old }
{
    let mut at = moffset;
    let mut left = len;
    while left > 0 {
        let n = in_page(at, left);
        if let Some(found) = first_in_page(files, map, cause, at, n) {
            return Some(found);
        }
        at += n;
        left -= n;
    }
    None
}

// The first of these bytes that isn't mapped. Those past the window aren't.
fn first_unmapped<F: FileBoard>(files: &mut F, map: &PageMap, moffset: u64, len: u64) -> Option<u64>
    requires can { CanAccess (F.board files.old) map.now }
    ensures value { result ≡ first_failing (F.board files.old) map.now causes.Unmapped moffset len }
    ensures small { result ≡ None → moffset + len < 2 ^ 64 }
    ensures same { F.board files.new ≡ F.board files.old }
{
    let window = PAGE_SIZE * u64::from(map.pages());
    let inside = len.min(window.saturating_sub(moffset));
    match first_failing(files, map, Cause::Unmapped, moffset, inside) {
        Some(at) => Some(at),
        None if inside < len => Some(moffset + inside),
        None => None,
    }
}

// Refuses an access for this cause where one of its bytes can't be accessed for it.
#[tactic(auto, unfolding(crate::specs::Access::refusal_at))]
fn check<F: FileBoard>(
    files: &mut F,
    map: &PageMap,
    cause: Cause,
    moffset: u64,
    len: u64,
) -> Result<(), WindowRefusal>
    requires can { CanAccess (F.board files.old) map.now }
    requires small { moffset + len < 2 ^ 64 }
    ensures ok { OnOk result (first_failing (F.board files.old) map.now cause moffset len ≡ None) }
    ensures below { OnOk result (cause ≡ causes.PastEnd → IsBelow map.now moffset len) }
    ensures cause { IfErr result IsRefusal }
    ensures err { IfErr result (λ e. (at : ℕ) × (first_failing (F.board files.old) map.now cause moffset len ≡ Some at) × (e ≡ refusal_at cause at)) }
    ensures same { F.board files.new ≡ F.board files.old }
{
    match first_failing(files, map, cause, moffset, len) {
        Some(at) => Err(cause.at(at)),
        None => Ok(()),
    }
}

// Refuses a load where one of its bytes isn't mapped or, where all are, lies at or past its file's end.
#[tactic(auto, unfolding(crate::specs::Access::load_refusal, crate::specs::Access::refusal_at))]
pub(crate) fn check_load<F: FileBoard>(
    files: &mut F,
    map: &PageMap,
    moffset: u64,
    len: u64,
) -> Result<(), WindowRefusal>
    requires can { CanAccess (F.board files.old) map.now }
    ensures ok { OnOk result (load_refusal (F.board files.old) map.now moffset len ≡ None) }
    ensures mapped { OnOk result (IsGranted (F.board files.old) map.now causes.Unmapped moffset len) }
    ensures inside { OnOk result (IsGranted (F.board files.old) map.now causes.PastEnd moffset len) }
    ensures small { OnOk result (moffset + len < 2 ^ 64) }
    ensures err { IfErr result (λ e. load_refusal (F.board files.old) map.now moffset len ≡ Some e) }
    ensures cause { IfErr result IsRefusal }
    ensures same { F.board files.new ≡ F.board files.old }
{
    if let Some(at) = first_unmapped(files, map, moffset, len) {
        return Err(WindowRefusal::Unmapped { at });
    }
    check(files, map, Cause::PastEnd, moffset, len)?;
    Ok(())
}

// Refuses a store where one of its bytes isn't mapped or, where all are, has a mapping that doesn't allow
// writing or, where all do, lies at or past its file's end.
#[tactic(auto, unfolding(crate::specs::Access::store_refusal, crate::specs::Access::refusal_at))]
pub(crate) fn check_store<F: FileBoard>(
    files: &mut F,
    map: &PageMap,
    moffset: u64,
    len: u64,
) -> Result<(), WindowRefusal>
    requires can { CanAccess (F.board files.old) map.now }
    ensures ok { OnOk result (store_refusal (F.board files.old) map.now moffset len ≡ None) }
    ensures mapped { OnOk result (IsMapped map.now moffset len) }
    ensures below { OnOk result (IsBelow map.now moffset len) }
    ensures small { OnOk result (moffset + len < 2 ^ 64) }
    ensures err { IfErr result (λ e. store_refusal (F.board files.old) map.now moffset len ≡ Some e) }
    ensures cause { IfErr result IsRefusal }
    ensures same { F.board files.new ≡ F.board files.old }
{
    if let Some(at) = first_unmapped(files, map, moffset, len) {
        return Err(WindowRefusal::Unmapped { at });
    }
    check(files, map, Cause::ReadOnly, moffset, len)?;
    check(files, map, Cause::PastEnd, moffset, len)?;
    Ok(())
}
