ghost use Rattle.std.specs.Prelude.{◌≡◌, ◌<◌, ◌≤◌, ◌+◌, [], drop, length, position, OnOk, IfOk, IfSome};
ghost use Rattle.fuse_device.specs.Entries.{is_after, place_among, with_entry, with_entries, numbered_from};

use crate::tables::MadeFile;
use fuse_codec::Dirent;
use plain_file::Memory;
use std::alloc::Global;

// The kind of a regular file: the type bits of its mode, shifted right by 12.
const REGULAR: u32 = 8;

/// The entries of the files that were made and have a name, in byte order of their names, numbered from 1.
/// There are at most 16 files. `Memory` comes where an allocation was refused.
pub fn numbered_entries(alloc: Global, made: &[MadeFile]) -> Result<Vec<Dirent>, Memory>
    requires few { length made.now ≤ 16 }
    ensures { IfOk result (λ ds. ds.items ≡ numbered_from 1 (with_entries [] 2 made.now)) }
{
    let mut entries = with_entries(alloc, made)?;
    number(&mut entries);
    Ok(entries)
}

// The entries of files in byte order of their names, without their numbers.
fn with_entries(alloc: Global, made: &[MadeFile]) -> Result<Vec<Dirent>, Memory>
    requires few { length made.now ≤ 16 }
    ensures { IfOk result (λ ds. ds.items ≡ with_entries [] 2 made.now) }
{
    let mut entries = Vec::with_capacity(alloc, made.len())?;
    let mut node = 2;
    let mut rest = made;
    while let Some((file, after)) = rest.split_first() {
        put_entry(&mut entries, file, node)?;
        node += 1;
        rest = after;
    }
    Ok(entries)
}

// A file's entry comes to its place, where the file has a name.
fn put_entry(entries: &mut Vec<Dirent>, file: &MadeFile, node: u64) -> Result<(), Memory>
    ensures { OnOk result (entries.new.items ≡ with_entry file.now.name node entries.old.items) }
{
    let Some(name) = &file.name else {
        return Ok(());
    };
    let at = place_among(entries.as_slice(), name.as_slice());
    let entry = Dirent {
        ino: node,
        off: 0,
        kind: REGULAR,
        name: name.clone()?,
    };
    match entries.insert(at, entry) {
        Ok(()) => Ok(()),
        Err(_) => Err(Memory),
    }
}

// The place of a name among entries in byte order.
fn place_among(entries: &[Dirent], name: &[u8]) -> usize
    ensures value { result ≡ place_among entries.now name.now }
    ensures within { result ≤ length entries.now }
{
    first_after(entries, name).unwrap_or(entries.len())
}

// The first entry whose name is greater.
fn first_after(entries: &[Dirent], name: &[u8]) -> Option<usize>
    ensures value { result ≡ position (is_after name.now) entries.now }
    ensures within { IfSome result (λ i. i < length entries.now) }
{
    entries.iter().position(|d| is_after(d, name))
}

fn is_after(d: &Dirent, name: &[u8]) -> bool
    ensures { result ≡ is_after name.now d.now }
{
    name.cmp(d.name.as_slice()).is_lt()
}

// Numbers entries from 1 in their order.
#[tactic(auto, using(crate::proofs::Numbering::one_more))]
fn number(entries: &mut Vec<Dirent>)
    ensures { entries.new.items ≡ numbered_from 1 entries.old.items }
{
    for i in 0..entries.len() {
        entries[i].off = 1 + i as u64;
    }
}

/// Takes so many entries off the front, or all where there are fewer.
pub fn pass_over(entries: &mut Vec<Dirent>, count: u64)
    ensures { entries.new.items ≡ drop count entries.old.items }
{
    let mut left = count;
    while left > 0 && !entries.is_empty() {
        entries.remove(0);
        left -= 1;
    }
}
