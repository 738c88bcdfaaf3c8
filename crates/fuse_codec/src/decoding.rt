ghost use Rattle.std.specs.Prelude.{◌≡◌, ◌≤◌, ◌*◌, length, IfOk, OnErr, IsSome, Ok, Err};
ghost use Rattle.plain_file.specs.Limits.{max_part};
ghost use Rattle.fuse_wire.specs.Forgets.{forget_one_at};
ghost use Rattle.fuse_wire.specs.Mappings.{remove_one_at};
ghost use Rattle.fuse_codec.specs.Grammar.{Spells};
ghost use Rattle.fuse_codec.specs.Reading.{name_of, write_of, create_of, forgets_of, remove_of, records_at, body_of, message_after, message_of, Gives};
ghost use Rattle.fuse_codec.specs.declared.messages.Message.{Message};
ghost use Rattle.fuse_codec.specs.declared.errors.BadRequest.{BadRequest};
ghost use Rattle.fuse_codec.specs.declared.errors.BadRequest.TheVariants as bad_requests;

use crate::errors::BadRequest;
use crate::limits::{MAX_REMOVED, MAX_TRANSFER};
use crate::messages::{Head, Message, Request};
use crate::opcodes::Opcode;
use fuse_wire::{
    CreateIn, FallocateIn, FlushIn, ForgetIn, ForgetOne, FsyncIn, GetattrIn, InHeader, InitIn,
    OpenIn, ReadIn, ReleaseIn, RemoveOne, SetattrIn, SetupIn, WriteIn, u32_at,
};
use plain_file::{Blob, List, Memory, Name};
use std::alloc::Global;

// The name before one last byte 0.
#[tactic(auto, unfolding(crate::specs::Reading::name_of))]
fn name_of(alloc: Global, bytes: &[u8]) -> Result<Option<Name>, Memory>
    ensures value { IfOk result (λ o. o ≡ name_of bytes.now) }
    ensures memory { OnErr result (IsSome (name_of bytes.now)) }
{
    if bytes.is_empty() {
        return Ok(None);
    }
    let (front, end) = bytes.split_at(bytes.len() - 1);
    if end != [0].as_slice() {
        return Ok(None);
    }
    Name::copy_of(alloc, front)
}

// The body of a WRITE. Its bytes are copied last.
#[tactic(auto, unfolding(crate::specs::Reading::write_of, crate::specs::Reading::write_with, fuse_wire::specs::Records::write_in_of))]
fn write_of(alloc: Global, bytes: &[u8]) -> Result<Option<Request>, Memory>
    ensures value { IfOk result (λ o. o ≡ write_of bytes.now) }
    ensures memory { OnErr result (IsSome (write_of bytes.now)) }
{
    if bytes.len() < WriteIn::SIZE {
        return Ok(None);
    }
    let (front, rest) = bytes.split_at(WriteIn::SIZE);
    let Some(head) = WriteIn::read(front) else {
        return Ok(None);
    };
    if head.size as usize != rest.len() || rest.len() > MAX_TRANSFER as usize {
        return Ok(None);
    }
    let bytes = Blob::copy_of(alloc, rest)?;
    Ok(Some(Request::Write { head, bytes }))
}

// The body of a CREATE.
#[tactic(auto, unfolding(crate::specs::Reading::create_of, fuse_wire::specs::Opens::create_in_of))]
fn create_of(alloc: Global, bytes: &[u8]) -> Result<Option<Request>, Memory>
    ensures value { IfOk result (λ o. o ≡ create_of bytes.now) }
    ensures memory { OnErr result (IsSome (create_of bytes.now)) }
{
    if bytes.len() < CreateIn::SIZE {
        return Ok(None);
    }
    let (front, rest) = bytes.split_at(CreateIn::SIZE);
    let Some(head) = CreateIn::read(front) else {
        return Ok(None);
    };
    let Some(name) = name_of(alloc, rest)? else {
        return Ok(None);
    };
    Ok(Some(Request::Create { head, name }))
}

// The pairs of a BATCH_FORGET.
#[tactic(auto, unfolding(fuse_wire::specs::Forgets::forget_one_of))]
fn forgets_at(alloc: Global, count: u32, bytes: &[u8]) -> Result<List<ForgetOne>, Memory>
    requires sized { length bytes.now ≡ 16 * count }
    ensures { IfOk result (λ ones. ones ≡ records_at forget_one_at count bytes.now) }
{
    let mut ones = Vec::with_capacity(alloc, count as usize)?;
    let mut rest = bytes;
    for _ in 0..count {
        let (front, after) = rest.split_at(ForgetOne::SIZE);
        let one = ForgetOne::read(front).unwrap();
        ones.push(one)?;
        rest = after;
    }
    Ok(List::from_vec(ones))
}

// The body of a BATCH_FORGET.
#[tactic(auto, unfolding(crate::specs::Reading::forgets_of, crate::specs::Reading::forgets_with))]
fn forgets_of(alloc: Global, bytes: &[u8]) -> Result<Option<Request>, Memory>
    ensures value { IfOk result (λ o. o ≡ forgets_of bytes.now) }
    ensures memory { OnErr result (IsSome (forgets_of bytes.now)) }
{
    if bytes.len() < 8 {
        return Ok(None);
    }
    let count = u32_at(bytes, 0);
    let (_, rest) = bytes.split_at(8);
    if rest.len() != ForgetOne::SIZE * count as usize {
        return Ok(None);
    }
    let ones = forgets_at(alloc, count, rest)?;
    Ok(Some(Request::BatchForget { ones }))
}

// The intervals of a REMOVEMAPPING.
#[tactic(auto, unfolding(fuse_wire::specs::Mappings::remove_one_of))]
fn removes_at(alloc: Global, count: u32, bytes: &[u8]) -> Result<List<RemoveOne>, Memory>
    requires sized { length bytes.now ≡ 16 * count }
    ensures { IfOk result (λ ones. ones ≡ records_at remove_one_at count bytes.now) }
{
    let mut ones = Vec::with_capacity(alloc, count as usize)?;
    let mut rest = bytes;
    for _ in 0..count {
        let (front, after) = rest.split_at(RemoveOne::SIZE);
        let one = RemoveOne::read(front).unwrap();
        ones.push(one)?;
        rest = after;
    }
    Ok(List::from_vec(ones))
}

// The body of a REMOVEMAPPING.
#[tactic(auto, unfolding(crate::specs::Reading::remove_of, crate::specs::Reading::remove_with))]
fn remove_of(alloc: Global, bytes: &[u8]) -> Result<Option<Request>, Memory>
    ensures value { IfOk result (λ o. o ≡ remove_of bytes.now) }
    ensures memory { OnErr result (IsSome (remove_of bytes.now)) }
{
    if bytes.len() < 4 {
        return Ok(None);
    }
    let count = u32_at(bytes, 0);
    let (_, rest) = bytes.split_at(4);
    if count > MAX_REMOVED || rest.len() != RemoveOne::SIZE * count as usize {
        return Ok(None);
    }
    let ones = removes_at(alloc, count, rest)?;
    Ok(Some(Request::Remove { ones }))
}

// The body of an operation: `None` where the operation's grammar doesn't have it.
#[tactic(auto, unfolding(crate::specs::Reading::body_of))]
fn body_of(alloc: Global, opcode: Opcode, bytes: &[u8]) -> Result<Option<Request>, Memory>
    ensures value { IfOk result (λ o. o ≡ body_of opcode bytes.now) }
    ensures memory { OnErr result (IsSome (body_of opcode bytes.now)) }
{
    match opcode {
        Opcode::Lookup => Ok(name_of(alloc, bytes)?.map(|name| Request::Lookup { name })),
        Opcode::Forget => match ForgetIn::read(bytes) {
            Some(ForgetIn { nlookup }) => Ok(Some(Request::Forget { nlookup })),
            None => Ok(None),
        },
        Opcode::Getattr => Ok(GetattrIn::read(bytes).map(Request::Getattr)),
        Opcode::Setattr => Ok(SetattrIn::read(bytes).map(Request::Setattr)),
        Opcode::Unlink => Ok(name_of(alloc, bytes)?.map(|name| Request::Unlink { name })),
        Opcode::OpenFile => Ok(OpenIn::read(bytes).map(Request::OpenFile)),
        Opcode::Read => Ok(ReadIn::read(bytes).map(Request::Read)),
        Opcode::Write => write_of(alloc, bytes),
        Opcode::Release => Ok(ReleaseIn::read(bytes).map(Request::Release)),
        Opcode::Fsync => Ok(FsyncIn::read(bytes).map(Request::Fsync)),
        Opcode::Flush => Ok(FlushIn::read(bytes).map(Request::Flush)),
        Opcode::Init => Ok(InitIn::read(bytes).map(Request::Init)),
        Opcode::OpenDir => Ok(OpenIn::read(bytes).map(Request::OpenDir)),
        Opcode::ReadDir => Ok(ReadIn::read(bytes).map(Request::ReadDir)),
        Opcode::ReleaseDir => Ok(ReleaseIn::read(bytes).map(Request::ReleaseDir)),
        Opcode::Create => create_of(alloc, bytes),
        Opcode::Destroy if bytes.is_empty() => Ok(Some(Request::Destroy)),
        Opcode::Destroy => Ok(None),
        Opcode::BatchForget => forgets_of(alloc, bytes),
        Opcode::Fallocate => Ok(FallocateIn::read(bytes).map(Request::Fallocate)),
        Opcode::Setup => Ok(SetupIn::read(bytes).map(Request::Setup)),
        Opcode::Remove => remove_of(alloc, bytes),
    }
}

// A header and what follows it, `had` bytes in all.
#[tactic(auto, unfolding(crate::specs::Reading::message_after))]
fn message_after(
    alloc: Global,
    header: InHeader,
    had: u32,
    body: &[u8],
) -> Result<Message, BadRequest>
    ensures { Gives result (message_after header had body.now) }
{
    if header.len != had {
        return Err(BadRequest::Length {
            said: header.len,
            had,
        });
    }
    if header.total_extlen != 0 {
        return Err(BadRequest::Extended {
            n: header.total_extlen,
        });
    }
    let Some(opcode) = Opcode::of(header.opcode) else {
        return Err(BadRequest::Opcode { n: header.opcode });
    };
    let Some(body) = body_of(alloc, opcode, body)? else {
        return Err(BadRequest::Body {
            opcode: header.opcode,
        });
    };
    let head = Head {
        unique: header.unique,
        nodeid: header.nodeid,
        uid: header.uid,
        gid: header.gid,
        pid: header.pid,
    };
    Ok(Message { head, body })
}

// The request that bytes are.
#[tactic(auto, unfolding(crate::specs::Reading::message_of, fuse_wire::specs::Records::in_header_of))]
fn message_of(alloc: Global, bytes: &[u8]) -> Result<Message, BadRequest>
    requires within { length bytes.now ≤ max_part }
    ensures { Gives result (message_of bytes.now) }
{
    if bytes.len() < InHeader::SIZE {
        return Err(BadRequest::Short);
    }
    let (front, body) = bytes.split_at(InHeader::SIZE);
    let Some(header) = InHeader::read(front) else {
        return Err(BadRequest::Short);
    };
    message_after(alloc, header, bytes.len() as u32, body)
}

/// Decodes the bytes of a request: a header of 40 bytes, then the body of its operation, and nothing
/// after it. There are at most [`MAX_PART`](crate::MAX_PART) bytes. Padding may be of any value.
///
/// # Errors
///
/// The first of these that holds, and each exactly where it is the first:
/// - `Short`: under 40 bytes.
/// - `Length`: the header's `len` isn't the number of bytes.
/// - `Extended`: the header's `total_extlen` isn't 0.
/// - `Opcode`: no [`Opcode`] has the header's number.
/// - `Body`: the bytes after the header aren't a body of this operation.
///
/// `Memory` comes only where the bytes are a request, and an allocation was refused.
pub fn decode_request(alloc: Global, bytes: &[u8]) -> Result<Message, BadRequest>
    requires within { length bytes.now ≤ max_part }
    ensures exact { Gives result (message_of bytes.now) }
    ensures found { IfOk result (λ m. Spells m bytes.now) }
    ensures only { (m : Message) → Spells m bytes.now → Gives result (Ok m) }
    ensures none { (m : Message) (e : BadRequest) → result ≡ Err e → Spells m bytes.now → e ≡ bad_requests.Memory }
{
    message_of(alloc, bytes)
}
