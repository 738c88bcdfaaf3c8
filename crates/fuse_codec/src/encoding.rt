ghost use Rattle.std.specs.Prelude.{◌≡◌, ◌≤◌, ◌+◌, ◌*◌, [], ◌∷◌, ◌++◌, true, length, IfOk, OnOk, OnErr, Ok, vec_len, vec_capacity};
ghost use Rattle.std.specs.List.{flat_map};
ghost use Rattle.plain_file.specs.Limits.{max_part, max_transfer};
ghost use Rattle.fuse_wire.specs.Layout.{Bytes, FitsParts, clean, parts_len};
ghost use Rattle.fuse_wire.specs.Forgets.{forget_one};
ghost use Rattle.fuse_wire.specs.Records.{write_in};
ghost use Rattle.fuse_wire.specs.Opens.{create_in};
ghost use Rattle.fuse_wire.specs.Mappings.{remove_one};
ghost use Rattle.fuse_codec.specs.Grammar.{body_parts, named, is_bounded, header_with, write_message, clean_message, Spells};
ghost use Rattle.fuse_codec.specs.Reading.{message_of};

use crate::fitting::numbers_fit;
use crate::messages::{Head, Message, Request};
use crate::opcodes::Opcode;
use fuse_wire::{
    CreateIn, FallocateIn, FlushIn, ForgetIn, ForgetOne, FsyncIn, GetattrIn, InHeader, InitIn,
    OpenIn, ReadIn, ReleaseIn, RemoveOne, SetattrIn, SetupIn, WriteIn, u32_bytes,
};
use plain_file::{Blob, Memory};
use std::alloc::Global;

// Appends bytes that there is room for.
fn put(out: &mut Vec<u8>, bytes: &[u8])
    requires room { vec_len out.old + length bytes.now ≤ vec_capacity out.old }
    ensures text { out.new.items ≡ out.old.items ++ bytes.now }
    ensures len { vec_len out.new ≡ vec_len out.old + length bytes.now }
    ensures capacity { vec_capacity out.old ≤ vec_capacity out.new }
{
    out.extend_from_slice(bytes).unwrap();
}

// Appends the pairs of a BATCH_FORGET.
fn put_forgets(out: &mut Vec<u8>, ones: &[ForgetOne])
    requires room { vec_len out.old + 16 * length ones.now ≤ vec_capacity out.old }
    ensures text { out.new.items ≡ out.old.items ++ clean (flat_map forget_one ones.now) }
{
    for one in ones {
        put(out, &one.put());
    }
}

// Appends the intervals of a REMOVEMAPPING.
fn put_removes(out: &mut Vec<u8>, ones: &[RemoveOne])
    requires room { vec_len out.old + 16 * length ones.now ≤ vec_capacity out.old }
    ensures text { out.new.items ≡ out.old.items ++ clean (flat_map remove_one ones.now) }
{
    for one in ones {
        put(out, &one.put());
    }
}

// Appends the body of a WRITE.
#[tactic(auto, using(crate::proofs::CleanRequests::write_len, crate::proofs::CleanRequests::write_text, fuse_wire::proofs::Laws::FitsParts_append, fuse_wire::proofs::Laws::text_fits), unfolding(fuse_wire::specs::Layout::FitsParts))]
fn put_write(out: &mut Vec<u8>, head: &WriteIn, bytes: &[u8])
    requires room { vec_len out.old + length (clean (write_in head.now ++ Bytes bytes.now ∷ [])) ≤ vec_capacity out.old }
    ensures text { out.new.items ≡ out.old.items ++ clean (write_in head.now ++ Bytes bytes.now ∷ []) }
    ensures fits { FitsParts (write_in head.now ++ Bytes bytes.now ∷ []) }
{
    put(out, &head.put());
    put(out, bytes);
}

// Appends the body of a CREATE.
#[tactic(auto, using(crate::proofs::CleanRequests::create_len, crate::proofs::CleanRequests::create_text))]
fn put_create(out: &mut Vec<u8>, head: &CreateIn, name: &[u8])
    requires room { vec_len out.old + length (clean (create_in head.now ++ named name.now)) ≤ vec_capacity out.old }
    ensures text { out.new.items ≡ out.old.items ++ clean (create_in head.now ++ named name.now) }
{
    put(out, &head.put());
    put(out, name);
    put(out, &[0]);
}

// How many bytes a body has.
#[tactic(auto, using(crate::proofs::CleanRequests::parts_within, crate::proofs::CleanRequests::forgets_parts, crate::proofs::CleanRequests::removes_parts), unfolding(crate::specs::Grammar::body_parts, fuse_wire::specs::Records::read_in, fuse_wire::specs::Records::write_in, fuse_wire::specs::Attributes::getattr_in, fuse_wire::specs::Attributes::setattr_in, fuse_wire::specs::Opens::open_in, fuse_wire::specs::Opens::create_in, fuse_wire::specs::Opens::release_in, fuse_wire::specs::Opens::flush_in, fuse_wire::specs::Opens::fsync_in, fuse_wire::specs::Opens::fallocate_in, fuse_wire::specs::Inits::init_in, fuse_wire::specs::Forgets::forget_in, fuse_wire::specs::Mappings::setup_in))]
fn body_len(body: &Request) -> usize
    requires bounded { is_bounded body.now ≡ true }
    ensures value { result ≡ parts_len (body_parts body.now) }
    ensures within { 40 + result ≤ max_part }
{
    match body {
        Request::Lookup { name } | Request::Unlink { name } => name.as_slice().len() + 1,
        Request::Forget { .. } => ForgetIn::SIZE,
        Request::Getattr(_) => GetattrIn::SIZE,
        Request::Setattr(_) => SetattrIn::SIZE,
        Request::OpenFile(_) | Request::OpenDir(_) => OpenIn::SIZE,
        Request::Read(_) | Request::ReadDir(_) => ReadIn::SIZE,
        Request::Write { bytes, .. } => WriteIn::SIZE + bytes.len(),
        Request::Release(_) | Request::ReleaseDir(_) => ReleaseIn::SIZE,
        Request::Fsync(_) => FsyncIn::SIZE,
        Request::Flush(_) => FlushIn::SIZE,
        Request::Init(InitIn { flags2, .. }) => match flags2 {
            Some(_) => InitIn::SIZE,
            None => InitIn::SHORT_SIZE,
        },
        Request::Create { name, .. } => CreateIn::SIZE + name.as_slice().len() + 1,
        Request::Destroy => 0,
        Request::BatchForget { ones } => 8 + ForgetOne::SIZE * ones.len(),
        Request::Fallocate(_) => FallocateIn::SIZE,
        Request::Setup(_) => SetupIn::SIZE,
        Request::Remove { ones } => 4 + RemoveOne::SIZE * ones.len(),
    }
}

// Appends a body.
#[tactic(auto, using(crate::proofs::CleanRequests::forgets_len, crate::proofs::CleanRequests::removes_len), unfolding(crate::specs::Grammar::body_parts, crate::specs::Grammar::is_bounded))]
fn put_body(out: &mut Vec<u8>, body: &Request)
    requires bounded { is_bounded body.now ≡ true }
    requires room { vec_len out.old + length (clean (body_parts body.now)) ≤ vec_capacity out.old }
    ensures text { out.new.items ≡ out.old.items ++ clean (body_parts body.now) }
{
    match body {
        Request::Lookup { name } | Request::Unlink { name } => {
            put(out, name.as_slice());
            put(out, &[0]);
        }
        Request::Forget { nlookup } => {
            let head = ForgetIn { nlookup: *nlookup };
            put(out, &head.put());
        }
        Request::Getattr(r) => put(out, &r.put()),
        Request::Setattr(r) => put(out, &r.put()),
        Request::OpenFile(r) | Request::OpenDir(r) => put(out, &r.put()),
        Request::Read(r) | Request::ReadDir(r) => put(out, &r.put()),
        Request::Write { head, bytes } => { put_write(out, head, bytes.as_slice()) }
        Request::Release(r) | Request::ReleaseDir(r) => put(out, &r.put()),
        Request::Fsync(r) => put(out, &r.put()),
        Request::Flush(r) => put(out, &r.put()),
        Request::Init(r) => {
            let mut bytes = [0; InitIn::SIZE];
            let len = r.put(&mut bytes);
            put(out, &bytes[..len]);
        }
        Request::Create { head, name } => { put_create(out, head, name.as_slice()) }
        Request::Destroy => {}
        Request::BatchForget { ones } => {
            put(out, &u32_bytes(ones.len() as u32));
            put(out, &[0; 4]);
            put_forgets(out, ones.as_slice());
        }
        Request::Fallocate(r) => put(out, &r.put()),
        Request::Setup(r) => put(out, &r.put()),
        Request::Remove { ones } => {
            put(out, &u32_bytes(ones.len() as u32));
            put_removes(out, ones.as_slice());
        }
    }
}

// The header of a request of `len` bytes, of this operation.
pub(crate) fn header_with(len: u32, head: &Head, opcode: Opcode) -> InHeader
    ensures { result ≡ header_with len head.now opcode }
{
    InHeader {
        len,
        opcode: opcode.number(),
        unique: head.unique,
        nodeid: head.nodeid,
        uid: head.uid,
        gid: head.gid,
        pid: head.pid,
        total_extlen: 0,
    }
}

/// Appends the bytes of a request to a buffer, all or none, with zeros where any bytes may stand.
/// The message is one that [`Message::fits`] is true of. `Memory` comes where there is no room and
/// the allocation of more was refused: the buffer is then as it was.
#[tactic(auto, using(fuse_wire::proofs::Laws::clean_len))]
pub fn put_request(out: &mut Vec<u8>, message: &Message) -> Result<(), Memory>
    requires bounded { is_bounded message.now.body ≡ true }
    ensures ok { OnOk result (out.new.items ≡ out.old.items ++ clean_message message.now) }
    ensures err { OnErr result (out.new.items ≡ out.old.items) }
{
    let len = InHeader::SIZE + body_len(&message.body);
    out.reserve(len)?;
    let header = header_with(len as u32, &message.head, message.body.opcode());
    put(out, &header.put());
    put_body(out, &message.body);
    Ok(())
}

/// The bytes of a request, with zeros where any bytes may stand: the header, then the body of its
/// operation. Decoding them gives the message back. The message is one that [`Message::fits`] is
/// true of. `Memory` comes where an allocation was refused.
pub fn encode_request(alloc: Global, message: &Message) -> Result<Blob, Memory>
    requires bounded { is_bounded message.now.body ≡ true }
    ensures clean { IfOk result (λ b. b ≡ clean_message message.now) }
    ensures spelled { IfOk result (λ b. Spells message.now b) }
    ensures again { IfOk result (λ b. message_of b ≡ Ok message.now) }
{
    let len = InHeader::SIZE + body_len(&message.body);
    let mut out = Vec::with_capacity(alloc, len)?;
    put_request(&mut out, message)?;
    numbers_fit(message);
    Ok(Blob::from_vec(out))
}

/// The bytes of a WRITE of bytes that the caller keeps: those that [`encode_request`] gives for the
/// message with this head and these bytes, which decoding gives back. `write.size` is their number, at
/// most 1,048,576. `Memory` comes where the allocation was refused.
#[tactic(auto, using(crate::proofs::CleanRequests::write_len), unfolding(crate::specs::Grammar::body_parts))]
pub fn encode_write(
    alloc: Global,
    head: &Head,
    write: &WriteIn,
    bytes: &[u8],
) -> Result<Blob, Memory>
    requires size { write.now.size ≡ length bytes.now }
    requires most { length bytes.now ≤ max_transfer }
    ensures clean { IfOk result (λ b. b ≡ clean_message (write_message head.now write.now bytes.now)) }
    ensures spelled { IfOk result (λ b. Spells (write_message head.now write.now bytes.now) b) }
    ensures again { IfOk result (λ b. message_of b ≡ Ok (write_message head.now write.now bytes.now)) }
{
    let len = InHeader::SIZE + WriteIn::SIZE + bytes.len();
    let mut out = Vec::with_capacity(alloc, len)?;
    put(
        &mut out,
        &header_with(len as u32, head, Opcode::Write).put(),
    );
    put_write(&mut out, write, bytes);
    Ok(Blob::from_vec(out))
}
