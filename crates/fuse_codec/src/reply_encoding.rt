ghost use Rattle.std.specs.Prelude.{◌≡◌, ◌≤◌, ◌+◌, ◌++◌, ℕ, List, true, length, vec_capacity, IfOk, Ok};
ghost use Rattle.fuse_wire.specs.Layout.{FitsParts, clean, parts_len};
ghost use Rattle.fuse_codec.specs.Replies.{reply_parts, error_of, is_reply, HasForm, reply_header, SpellsReply, reply_len, clean_reply};
ghost use Rattle.fuse_codec.specs.ReplyReading.{reply_of};
ghost use Rattle.fuse_codec.specs.declared.opcodes.ReplyForm.{ReplyForm};

use crate::replies::Reply;
use fuse_wire::{AttrOut, EntryOut, InitOut, OpenOut, OutHeader, WriteOut};
use plain_file::{Blob, MAX_TRANSFER, Memory};
use std::alloc::Global;

impl Reply {
    /// Whether the reply is within the grammar's bounds: an error's number is from 1 to 4095, and
    /// there are at most 1,048,576 bytes of a file or a directory.
    #[tactic(auto, unfolding(crate::specs::Replies::is_reply))]
    pub fn fits(&self) -> bool
        ensures exact { result ≡ is_reply self.now }
        ensures only { (form : ReplyForm) (unique : ℕ) (bytes : List ℕ) → SpellsReply form unique self.now bytes → result ≡ true }
    {
        match self {
            Reply::Error { number } => *number > 0 && *number <= 4095,
            Reply::Bytes(bytes) => bytes.len() <= MAX_TRANSFER as usize,
            _ => true,
        }
    }

    /// How many bytes the reply takes with its header, where it [`fits`](Reply::fits).
    #[tactic(auto, using(crate::proofs::CleanReplies::body_sizes, crate::proofs::CleanReplies::reply_bound), unfolding(crate::specs::Replies::reply_parts, crate::specs::Replies::is_reply))]
    pub fn len(&self) -> usize
        requires { is_reply self.now ≡ true }
        ensures value { result ≡ reply_len self.now }
        ensures bound { result ≤ 1048592 }
    {
        match self {
            Reply::Error { .. } | Reply::Done => 16,
            Reply::Entry(_) => 144,
            Reply::Attr(_) => 120,
            Reply::Opened(_) => 32,
            Reply::Created { .. } => 160,
            Reply::Bytes(bytes) => 16 + bytes.len(),
            Reply::Wrote(_) => 24,
            Reply::Init(_) => 80,
        }
    }

    // The number in the header's field `error`.
    #[tactic(auto, unfolding(crate::specs::Replies::error_of, crate::specs::Replies::is_reply))]
    fn error(&self) -> i32
        requires { is_reply self.now ≡ true }
        ensures { result ≡ error_of self.now }
    {
        match self {
            Reply::Error { number } => -*number,
            _ => 0,
        }
    }
}

fn reply_header(len: u32, reply: &Reply, unique: u64) -> OutHeader
    requires { is_reply reply.now ≡ true }
    ensures { result ≡ reply_header len unique reply.now }
{
    OutHeader {
        len,
        error: reply.error(),
        unique,
    }
}

/// Puts bytes into room that is there.
pub(crate) fn put_in_room(out: &mut Vec<u8>, bytes: &[u8])
    requires { length out.old.items + length bytes.now ≤ vec_capacity out.old }
    ensures text { out.new.items ≡ out.old.items ++ bytes.now }
    ensures capacity { vec_capacity out.old ≤ vec_capacity out.new }
{
    out.extend_from_slice(bytes).unwrap();
}

#[tactic(auto, using(crate::proofs::CleanReplies::body_sizes, crate::proofs::CleanReplies::body_texts, fuse_wire::proofs::Laws::FitsParts_append, fuse_wire::proofs::Laws::text_fits), unfolding(crate::specs::Replies::reply_parts, fuse_wire::specs::Layout::FitsParts))]
fn put_body(out: &mut Vec<u8>, reply: &Reply)
    requires { length out.old.items + parts_len (reply_parts reply.now) ≤ vec_capacity out.old }
    ensures text { out.new.items ≡ out.old.items ++ clean (reply_parts reply.now) }
    ensures fits { FitsParts (reply_parts reply.now) }
    ensures capacity { vec_capacity out.old ≤ vec_capacity out.new }
{
    match reply {
        Reply::Error { .. } | Reply::Done => {}
        Reply::Entry(r) => put_in_room(out, &r.put()),
        Reply::Attr(r) => put_in_room(out, &r.put()),
        Reply::Opened(r) => put_in_room(out, &r.put()),
        Reply::Created { entry, opened } => {
            put_in_room(out, &entry.put());
            put_in_room(out, &opened.put());
        }
        Reply::Bytes(bytes) => put_in_room(out, bytes.as_slice()),
        Reply::Wrote(r) => put_in_room(out, &r.put()),
        Reply::Init(r) => put_in_room(out, &r.put()),
    }
}

/// Puts a reply to the request `unique` behind the bytes of `out`, into room that is there: as many
/// bytes as [`Reply::len`] says, with padding 0. It takes no memory and can't fail, so that whoever
/// answers a request can take the room before anything is done.
#[tactic(auto, using(crate::proofs::CleanReplies::reply_bound))]
pub fn put_reply(out: &mut Vec<u8>, reply: &Reply, unique: u64)
    requires fits { is_reply reply.now ≡ true }
    requires room { length out.old.items + reply_len reply.now ≤ vec_capacity out.old }
    ensures text { out.new.items ≡ out.old.items ++ clean_reply unique reply.now }
    ensures spelled { (form : ReplyForm) → HasForm form reply.now → SpellsReply form unique reply.now (clean_reply unique reply.now) }
    ensures capacity { vec_capacity out.old ≤ vec_capacity out.new }
{
    let header = reply_header(reply.len() as u32, reply, unique);
    put_in_room(out, &header.put());
    put_body(out, reply);
}

/// The bytes of a reply to the request `unique`, with padding 0. The reply is within the grammar's
/// bounds, as [`Reply::fits`] says. `Memory` comes where the allocation was refused.
///
/// [`decode_reply`](crate::decode_reply) gives the number and the reply back, under each operation
/// that has such a reply.
pub fn encode_reply(alloc: Global, reply: &Reply, unique: u64) -> Result<Blob, Memory>
    requires { is_reply reply.now ≡ true }
    ensures clean { IfOk result (λ b. b ≡ clean_reply unique reply.now) }
    ensures spelled { IfOk result (λ b. (form : ReplyForm) → HasForm form reply.now → SpellsReply form unique reply.now b) }
    ensures again { IfOk result (λ b. (form : ReplyForm) → HasForm form reply.now → reply_of form b ≡ Ok (unique, reply.now)) }
{
    let mut out = Vec::with_capacity(alloc, reply.len())?;
    put_reply(&mut out, reply, unique);
    Ok(Blob::from_vec(out))
}
