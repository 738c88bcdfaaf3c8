ghost use Rattle.std.specs.Prelude.{◌≡◌, ◌≤◌, ◌+◌, ◌++◌, [], min, Err, length, vec_capacity, IfOk, OnOk};
ghost use Rattle.fuse_codec.specs.Replies.{clean_reply};
ghost use Rattle.fuse_device.specs.Steps.{wanted_room, reply_to};

use crate::requests::wanted_room;
use fuse_codec::{MAX_TRANSFER, Reply, Request, put_reply};
use fuse_wire::{Errno, OutHeader};
use plain_file::{Blob, Memory};
use std::alloc::Global;

// The most bytes that a reply takes with its header.
const MAX_REPLY: u64 = OutHeader::SIZE as u64 + MAX_TRANSFER as u64;

/// An empty buffer with room for a request's reply, and for an error. `Memory` comes where it was refused.
pub fn with_room(alloc: Global, body: &Request) -> Result<Vec<u8>, Memory>
    ensures empty { IfOk result (λ out. out.items ≡ []) }
    ensures reply { IfOk result (λ out. min (wanted_room body.now) 1048592 ≤ vec_capacity out) }
    ensures error { IfOk result (λ out. 16 ≤ vec_capacity out) }
{
    let most = wanted_room(body).min(MAX_REPLY);
    Ok(Vec::with_capacity(alloc, most as usize)?)
}

/// Makes room in a buffer for a request's reply, and for an error, behind what stands in it. `Memory` comes
/// where it was refused. What stands in the buffer stays in any case.
pub fn reserve_reply(out: &mut Vec<u8>, body: &Request) -> Result<(), Memory>
    ensures same { out.new.items ≡ out.old.items }
    ensures reply { OnOk result (length out.old.items + min (wanted_room body.now) 1048592 ≤ vec_capacity out.new) }
    ensures error { OnOk result (length out.old.items + 16 ≤ vec_capacity out.new) }
{
    let most = wanted_room(body).min(MAX_REPLY);
    out.reserve(most as usize)?;
    Ok(())
}

/// Puts an error behind the bytes of a buffer that has room for it, with the number of the request.
#[tactic(auto, unfolding(crate::specs::Steps::reply_to, fuse_codec::specs::Replies::reply_parts, fuse_codec::specs::Replies::is_reply))]
pub fn put_error(out: &mut Vec<u8>, error: Errno, unique: u64)
    requires { length out.old.items + 16 ≤ vec_capacity out.old }
    ensures { out.new.items ≡ out.old.items ++ clean_reply unique (reply_to (Err error)) }
{
    let reply = Reply::Error {
        number: error.number(),
    };
    put_reply(out, &reply, unique);
}

/// The bytes of an error, with the number of the request. `Memory` comes where an allocation was refused.
pub fn refusal(alloc: Global, error: Errno, unique: u64) -> Result<Blob, Memory>
    ensures { IfOk result (λ b. b ≡ clean_reply unique (reply_to (Err error))) }
{
    let mut out = Vec::with_capacity(alloc, OutHeader::SIZE)?;
    put_error(&mut out, error, unique);
    Ok(Blob::from_vec(out))
}
