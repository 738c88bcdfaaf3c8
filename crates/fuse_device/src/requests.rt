ghost use Rattle.std.specs.Prelude.{◌≡◌, ◌≤◌, is_some};
ghost use Rattle.fuse_codec.specs.Opcodes.{opcode_of};
ghost use Rattle.fuse_codec.specs.Reading.{write_of};
ghost use Rattle.fuse_device.specs.Checks.{has_flag};
ghost use Rattle.fuse_device.specs.DataSteps.{is_data, is_on_file, is_file_body, is_body_on_file};
ghost use Rattle.fuse_device.specs.Requests.{is_init, is_forget, is_dots};
ghost use Rattle.fuse_device.specs.Steps.{wanted_room};

use fuse_codec::{MAX_TRANSFER, Opcode, Request};
use fuse_wire::{GetattrIn, ReadIn, SetattrIn, WriteIn};

/// Whether a request is an INIT.
#[tactic(auto, unfolding(crate::specs::Requests::is_init))]
pub fn is_init(body: &Request) -> bool
    ensures { result ≡ is_init body.now }
{
    match body {
        Request::Init(_) => true,
        _ => false,
    }
}

/// Whether a request is a FORGET or a BATCH_FORGET, which have no reply.
#[tactic(auto, unfolding(crate::specs::Requests::is_forget))]
pub fn is_forget(body: &Request) -> bool
    ensures { result ≡ is_forget body.now }
{
    match body {
        Request::Forget { .. } | Request::BatchForget { .. } => true,
        _ => false,
    }
}

/// Whether a request is carried out by a daemon that stays as it is: READ, WRITE, GETATTR, SETATTR, FSYNC,
/// FLUSH, SETUPMAPPING and REMOVEMAPPING.
#[tactic(auto, unfolding(crate::specs::DataSteps::is_data))]
pub fn is_data(body: &Request) -> bool
    ensures { result ≡ is_data body.now }
{
    match body {
        Request::Getattr(_)
        | Request::Setattr(_)
        | Request::Read(_)
        | Request::Write { .. }
        | Request::Fsync(_)
        | Request::Flush(_)
        | Request::Setup(_)
        | Request::Remove { .. } => true,
        _ => false,
    }
}

/// Whether a request is for a file's bytes or attributes: READ, WRITE, GETATTR and SETATTR.
#[tactic(auto, unfolding(crate::specs::DataSteps::is_on_file))]
pub fn is_on_file(body: &Request) -> bool
    ensures { result ≡ is_on_file body.now }
{
    match body {
        Request::Getattr(_) | Request::Setattr(_) | Request::Read(_) | Request::Write { .. } => {
            true
        }
        _ => false,
    }
}

// Whether bytes are the body of a request for a file's bytes or attributes.
#[tactic(auto, unfolding(crate::specs::DataSteps::is_file_body))]
fn is_file_body(opcode: Opcode, body: &[u8]) -> bool
    ensures { result ≡ is_file_body opcode body.now }
{
    match opcode {
        Opcode::Getattr => GetattrIn::read(body).is_some(),
        Opcode::Setattr => SetattrIn::read(body).is_some(),
        Opcode::Read => ReadIn::read(body).is_some(),
        Opcode::Write => is_write(body),
        _ => false,
    }
}

/// Whether bytes are the body of such a request, by its operation's number.
pub fn is_body_on_file(opcode: u32, body: &[u8]) -> bool
    ensures { result ≡ is_body_on_file (opcode_of opcode) body.now }
{
    match Opcode::of(opcode) {
        Some(opcode) => is_file_body(opcode, body),
        None => false,
    }
}

// Whether bytes are the body of a WRITE.
#[tactic(auto, unfolding(fuse_codec::specs::Reading::write_of, fuse_codec::specs::Reading::write_with, fuse_wire::specs::Records::write_in_of))]
fn is_write(body: &[u8]) -> bool
    ensures { result ≡ is_some (write_of body.now) }
{
    if body.len() < WriteIn::SIZE {
        return false;
    }
    let (front, rest) = body.split_at(WriteIn::SIZE);
    let Some(head) = WriteIn::read(front) else {
        return false;
    };
    head.size as usize == rest.len() && rest.len() <= MAX_TRANSFER as usize
}

/// How many bytes the room for a reply has at least: those of a success with its header, and 16 where there
/// is no reply.
#[tactic(auto, unfolding(fuse_codec::specs::Grammar::form_room))]
pub fn wanted_room(body: &Request) -> u64
    ensures value { result ≡ wanted_room body.now }
    ensures least { 16 ≤ result }
{
    body.room().unwrap_or(16)
}

/// Whether a bit of the mask is set.
pub fn has_flag(flags: u32, mask: u32) -> bool
    ensures { result ≡ has_flag flags mask }
{
    flags & mask != 0
}

/// Whether a name is one that the directory doesn't keep: `.` or `..`.
pub fn is_dots(name: &[u8]) -> bool
    ensures { result ≡ is_dots name.now }
{
    name == b".".as_slice() || name == b"..".as_slice()
}
