ghost use Rattle.std.specs.Prelude.{◌≡◌, ◌≤◌, length, IfOk};
ghost use Rattle.plain_file.specs.Limits.{max_part};
ghost use Rattle.fuse_device.specs.Steps.{errno_of, is_forget_number, header_at};
ghost use Rattle.fuse_device.specs.Plans.{plan, is_forget_chain, IsBoundedPlan};

use fuse_codec::{BadRequest, Message, Opcode, decode_request};
use fuse_wire::{Errno, InHeader, OutHeader};
use plain_file::Memory;
use std::alloc::Global;

/// What a chain of a virtio-fs queue asks, as far as its bytes and its room tell: what the first seven
/// steps of [`plan_chain`] make of it, before anything of the device is looked at.
#[derive(Debug, Drop)]
pub enum Plan {
    /// Nothing is answered, and a daemon that stays as it is does nothing.
    Silent,
    /// The request is answered this error, and nothing else is done.
    Refuse {
        /// The error.
        error: Errno,
        /// The request's own number, which the answer repeats.
        unique: u64,
    },
    /// The request is judged by the device.
    Carry(Message),
}

/// The plan of a chain. `readable` is its readable part, of at most `MAX_PART` bytes, and `room` is how
/// many bytes its writable part has.
///
/// The first of these that is true decides:
///
/// 1. `readable` is shorter than 40 bytes: silent.
/// 2. The opcode is FORGET (2) or BATCH_FORGET (42): silent.
/// 3. `room` is below 16: silent.
/// 4. `len` of the header differs from the length of `readable`: `EINVAL`.
/// 5. `total_extlen` isn't 0: `EINVAL`.
/// 6. No operation has the opcode: `ENOSYS`.
/// 7. The body isn't one of the operation's grammar: `EINVAL`.
///
/// Otherwise the request is carried. A refusal has the request's `unique`. `Memory` comes only from a
/// refused allocation.
#[tactic(auto, using(crate::proofs::Decoded::decoded_bounded), unfolding(crate::specs::Plans::plan))]
pub fn plan_chain(alloc: Global, readable: &[u8], room: u32) -> Result<Plan, Memory>
    requires within { length readable.now ≤ max_part }
    ensures plan { IfOk result (λ p. p ≡ plan readable.now room) }
    ensures bounded { IfOk result IsBoundedPlan }
{
    if readable.len() < InHeader::SIZE {
        return Ok(Plan::Silent);
    }
    let header = header_at(readable);
    if is_forget_number(header.opcode) || (room as usize) < OutHeader::SIZE {
        return Ok(Plan::Silent);
    }
    match decode_request(alloc, readable) {
        Ok(message) => Ok(Plan::Carry(message)),
        Err(BadRequest::Memory) => Err(Memory),
        Err(bad) => Ok(Plan::Refuse {
            error: errno_of(bad),
            unique: header.unique,
        }),
    }
}

/// Whether a chain has a whole header with the number of FORGET or BATCH_FORGET, which have no reply.
pub fn is_forget_chain(readable: &[u8]) -> bool
    ensures { result ≡ is_forget_chain readable.now }
{
    readable.len() >= InHeader::SIZE && is_forget_number(header_at(readable).opcode)
}

/// The header at the front of the readable bytes, of which there are 40 at least.
#[tactic(auto, unfolding(fuse_wire::specs::Records::in_header_of))]
pub fn header_at(readable: &[u8]) -> InHeader
    requires { 40 ≤ length readable.now }
    ensures { result ≡ header_at readable.now }
{
    InHeader::read(readable.split_at(InHeader::SIZE).0).unwrap()
}

// Whether an opcode is that of a forget.
#[tactic(auto, unfolding(fuse_codec::specs::Opcodes::number))]
fn is_forget_number(opcode: u32) -> bool
    ensures { result ≡ is_forget_number opcode }
{
    opcode == Opcode::Forget.number() || opcode == Opcode::BatchForget.number()
}

// The error that answers bytes which are no request.
#[tactic(auto, unfolding(crate::specs::Steps::errno_of))]
fn errno_of(bad: BadRequest) -> Errno
    ensures { result ≡ errno_of bad }
{
    match bad {
        BadRequest::Opcode { .. } => Errno::ENOSYS,
        BadRequest::Short
        | BadRequest::Length { .. }
        | BadRequest::Extended { .. }
        | BadRequest::Body { .. }
        | BadRequest::Memory => Errno::EINVAL,
    }
}
