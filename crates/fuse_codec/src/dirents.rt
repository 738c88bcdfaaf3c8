ghost use Rattle.std.specs.Prelude.{◌≡◌, ◌≤◌, ◌<◌, ◌+◌, ◌^◌, ◌++◌, ℕ, List, true, take, length, vec_capacity, IfOk, IfSome, OnErr, OnOk, IsSome, Ok, Err};
ghost use Rattle.std.specs.List.{flat_map};
ghost use Rattle.fuse_wire.specs.Layout.{FitsParts, clean};
ghost use Rattle.fuse_codec.specs.Dirents.{filler, entry_len, dirent_head, dirent_parts, SpellsDirent, SpellDirents, IsCutAt, GivesDirents, clean_dirents, dirents_len, fitting, dirent_after, first_dirent};
ghost use Rattle.fuse_codec.specs.declared.replies.Dirent.{Dirent};
ghost use Rattle.fuse_codec.specs.declared.errors.BadDirents.TheVariants as bad_dirents;

use crate::errors::BadDirents;
use crate::replies::Dirent;
use crate::reply_encoding::put_in_room;
use fuse_wire::{u32_at, u32_bytes, u64_at, u64_bytes};
use plain_file::{Blob, List, Memory, Name};
use std::alloc::Global;

// The bytes of an entry before its name.
const HEAD: usize = 24;

// How many bytes fill so many up to a multiple of 8.
fn filler(n: usize) -> usize
    ensures value { result ≡ filler n }
    ensures small { result < 8 }
{
    (8 - n % 8) % 8
}

impl Dirent {
    /// How many bytes the entry takes: its 24, its name's, and those up to the next multiple of 8.
    #[tactic(auto, unfolding(crate::specs::Dirents::entry_len, plain_file::specs::Names::is_name))]
    pub fn len(&self) -> usize
        ensures value { result ≡ entry_len (length self.now.name) }
        ensures bound { result ≤ 280 }
    {
        let n = self.name.as_slice().len();
        HEAD + n + filler(n)
    }
}

#[tactic(auto, unfolding(crate::specs::Dirents::dirent_after))]
fn dirent_after(
    alloc: Global,
    head: &[u8],
    namelen: usize,
    rest: &[u8],
) -> Result<Option<Dirent>, Memory>
    requires head { length head.now ≡ 24 }
    requires small { namelen < 2 ^ 32 }
    ensures value { IfOk result (λ o. o ≡ dirent_after head.now namelen rest.now) }
    ensures memory { OnErr result (IsSome (dirent_after head.now namelen rest.now)) }
{
    if rest.len() < namelen + filler(namelen) {
        return Ok(None);
    }
    let Some(name) = Name::copy_of(alloc, &rest[..namelen])? else {
        return Ok(None);
    };
    Ok(Some(Dirent {
        ino: u64_at(head, 0),
        off: u64_at(head, 8),
        kind: u32_at(head, 20),
        name,
    }))
}

// The whole entry at the front of bytes, where there is one.
#[tactic(auto, unfolding(crate::specs::Dirents::first_dirent))]
fn first_dirent(alloc: Global, bytes: &[u8]) -> Result<Option<Dirent>, Memory>
    ensures value { IfOk result (λ o. o ≡ first_dirent bytes.now) }
    ensures memory { OnErr result (IsSome (first_dirent bytes.now)) }
{
    if bytes.len() < HEAD {
        return Ok(None);
    }
    let (head, rest) = bytes.split_at(HEAD);
    dirent_after(alloc, head, u32_at(head, 16) as usize, rest)
}

/// The entries that the bytes spell, one after the other, as READDIR answers them.
///
/// An entry is whole where its 24 bytes, its name of 1 to 255 bytes without 0 and `/`, and any bytes
/// up to the next multiple of 8 are there. `Cut` comes exactly where the bytes aren't whole entries,
/// with the offset at which the first that isn't whole begins. `Memory` comes where an allocation
/// was refused before the end, or the first entry that isn't whole, was seen.
pub fn read_dirents(alloc: Global, bytes: &[u8]) -> Result<List<Dirent>, BadDirents>
    ensures found { IfOk result (λ ds. SpellDirents ds bytes.now) }
    ensures only { (ds : List Dirent) → SpellDirents ds bytes.now → GivesDirents result (Ok ds) }
    ensures cut { (at : ℕ) → result ≡ Err (bad_dirents.Cut at) → IsCutAt at bytes.now }
    ensures cut_only { (at : ℕ) → IsCutAt at bytes.now → GivesDirents result (Err (bad_dirents.Cut at)) }
{
    let mut ones = List::new(alloc);
    let mut rest = bytes;
    while !rest.is_empty() {
        let Some(one) = first_dirent(alloc, rest)? else {
            let at = (bytes.len() - rest.len()) as u64;
            return Err(BadDirents::Cut { at });
        };
        rest = rest.split_at(one.len()).1;
        ones.push(one)?;
    }
    Ok(ones)
}

#[tactic(auto, unfolding(crate::specs::Dirents::dirent_head, fuse_wire::specs::Layout::FitsParts))]
fn head_of(one: &Dirent) -> [u8; HEAD]
    ensures clean { result ≡ clean (dirent_head one.now) }
    ensures fits { FitsParts (dirent_head one.now) }
{
    let mut out = [0; HEAD];
    out[0..8].copy_from_slice(&u64_bytes(one.ino));
    out[8..16].copy_from_slice(&u64_bytes(one.off));
    out[16..20].copy_from_slice(&u32_bytes(one.name.as_slice().len() as u32));
    out[20..24].copy_from_slice(&u32_bytes(one.kind));
    out
}

/// Puts an entry behind the bytes of `out`, into room that is there: as many bytes as
/// [`Dirent::len`] says, with filler 0. It takes no memory and can't fail.
#[tactic(auto, unfolding(crate::specs::Dirents::entry_len))]
pub fn put_dirent(out: &mut Vec<u8>, one: &Dirent)
    requires { length out.old.items + entry_len (length one.now.name) ≤ vec_capacity out.old }
    ensures text { out.new.items ≡ out.old.items ++ clean (dirent_parts one.now) }
    ensures spelled { SpellsDirent one.now (clean (dirent_parts one.now)) }
    ensures capacity { vec_capacity out.old ≤ vec_capacity out.new }
{
    let name = one.name.as_slice();
    put_in_room(out, &head_of(one));
    put_in_room(out, name);
    put_in_room(out, &[0; 7][..filler(name.len())]);
}

// How many entries are in the longest prefix that fits, and how many bytes they take.
fn fitting(names: &[Dirent], size: usize) -> (usize, usize)
    ensures prefix { take result.0 names.now ≡ fitting size names.now }
    ensures len { result.1 ≡ dirents_len (fitting size names.now) }
    ensures within { result.0 ≤ length names.now }
{
    let mut count = 0;
    let mut used = 0;
    for one in names {
        let len = one.len();
        if size - used < len {
            return (count, used);
        }
        used += len;
        count += 1;
    }
    (count, used)
}

fn put_all(alloc: Global, names: &[Dirent], len: usize) -> Result<Vec<u8>, Memory>
    requires { dirents_len names.now ≡ len }
    ensures text { IfOk result (λ v. v.items ≡ clean_dirents names.now) }
    ensures spelled { IfOk result (λ v. SpellDirents names.now v.items) }
{
    let mut out = Vec::with_capacity(alloc, len)?;
    for one in names {
        put_dirent(&mut out, one);
    }
    Ok(out)
}

/// The bytes of the longest prefix of entries that has at most `size` bytes, with filler 0. The
/// filler counts, the last entry's too. `Memory` comes where the allocation was refused.
///
/// [`read_dirents`] gives this prefix back.
pub fn put_dirents(alloc: Global, names: &List<Dirent>, size: u32) -> Result<Blob, Memory>
    ensures clean { IfOk result (λ b. b ≡ clean_dirents (fitting size names.now)) }
    ensures within { IfOk result (λ b. length b ≤ size) }
    ensures spelled { IfOk result (λ b. SpellDirents (fitting size names.now) b) }
    ensures again { IfOk result (λ b. (ds : List Dirent) → SpellDirents ds b → ds ≡ fitting size names.now) }
{
    let names = names.as_slice();
    let (count, len) = fitting(names, size as usize);
    let out = put_all(alloc, &names[..count], len)?;
    Ok(Blob::from_vec(out))
}
