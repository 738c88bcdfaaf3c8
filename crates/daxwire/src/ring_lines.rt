ghost use Rattle.std.specs.Prelude.{◌≡◌, ◌≤◌, ◌<◌, ◌^◌, ◌++◌, length, codes, OnOk, IsOk, Some};
ghost use Rattle.std.specs.Fmt.{decimal};
ghost use Rattle.plain_file.specs.Limits.{max_part};
ghost use Rattle.hex.specs.Hex.{encode_lower};
ghost use Rattle.sha2.specs.Sha256.{sha256};
ghost use Rattle.fuse_codec.specs.Replies.{answer_form};
ghost use Rattle.fuse_codec.specs.Reading.{message_of};
ghost use Rattle.dax_device.specs.Answers.{IsAnswer, read_form, reply_in};
ghost use Rattle.daxwire.specs.Show.{chain_line};
ghost use Rattle.daxwire.specs.RingText.{heading, line_of_read, answer_line, lines_of, fault_name, last_line};
ghost use Rattle.vring.specs.Pieces.{total};

use crate::shows::{put, put_chain, put_number};
use fuse_codec::{BadReply, answer_form, decode_reply};
use fuse_text::put_reply_line;
use fuse_wire::InHeader;
use plain_file::Memory;
use sha2::{Digest, Sha256};
use std::alloc::Global;
use vring::{Chain, RingFault};

// FLUSH, whose replies are a header alone.
const FLUSH: u32 = 25;

// Adds the line of a chain's head and sums.
#[tactic(auto, unfolding(crate::specs::RingText::heading))]
fn put_heading(chain: &Chain, out: &mut Vec<u8>) -> Result<(), Memory>
    ensures { OnOk result (out.new.items ≡ out.old.items ++ heading chain.now) }
{
    put(out, b"chain ")?;
    put_number(out, u64::from(chain.head))?;
    put(out, b" readable ")?;
    put_number(out, chain.readable.sum())?;
    put(out, b" writable ")?;
    put_number(out, chain.writable.sum())?;
    put(out, b"\n")?;
    Ok(())
}

// The number of an operation as whose reply an answer to this one is read: the same, or where it has
// no reply one whose reply is a header alone.
#[tactic(auto, unfolding(dax_device::specs::Answers::read_form))]
fn read_as(opcode: u32) -> u32
    ensures { answer_form result ≡ Some (read_form opcode) }
{
    match answer_form(opcode) {
        Some(_) => opcode,
        None => FLUSH,
    }
}

// Adds the line of a reply to the request whose header is at the front of the readable bytes.
#[tactic(auto, unfolding(dax_device::specs::Answers::reply_in, crate::specs::RingText::line_of_read, fuse_wire::specs::Records::in_header_of))]
fn put_reply(alloc: Global, readable: &[u8], reply: &[u8], out: &mut Vec<u8>) -> Result<(), Memory>
    requires header { 40 ≤ length readable.now }
    requires small { length reply.now < 2 ^ 32 }
    requires is { IsOk (reply_in readable.now reply.now) }
    ensures { OnOk result (out.new.items ≡ out.old.items ++ line_of_read (reply_in readable.now reply.now)) }
{
    let header = InHeader::read(readable.split_at(InHeader::SIZE).0).unwrap();
    match decode_reply(alloc, read_as(header.opcode), reply) {
        Ok((unique, reply)) => put_reply_line(out, &reply, unique),
        Err(BadReply::Memory) => Err(Memory),
        Err(_) => unreachable!(),
    }
}

// Adds the line of what was answered.
#[tactic(auto, unfolding(crate::specs::RingText::answer_line))]
fn put_answer(
    alloc: Global,
    readable: &[u8],
    answer: &[u8],
    out: &mut Vec<u8>,
) -> Result<(), Memory>
    requires small { length answer.now < 2 ^ 32 }
    requires is { IsAnswer readable.now answer.now }
    ensures { OnOk result (out.new.items ≡ out.old.items ++ answer_line readable.now answer.now) }
{
    if answer.is_empty() {
        return put(out, b"no reply");
    }
    put_reply(alloc, readable, answer, out)
}

/// Adds the four lines of a chain that was served: its head and sums, the request that its readable
/// bytes are or why they are none, the reply that was answered, and how many bytes that has.
///
/// `answer` is what the device answers to the readable bytes, so it is no bytes or a reply. `Memory`
/// is the only error; nothing is known of the text then.
pub fn put_chain_lines(
    alloc: Global,
    chain: &Chain,
    readable: &[u8],
    answer: &[u8],
    out: &mut Vec<u8>,
) -> Result<(), Memory>
    requires within { length readable.now ≤ max_part }
    requires small { length answer.now < 2 ^ 32 }
    requires is { IsAnswer readable.now answer.now }
    ensures { OnOk result (out.new.items ≡ out.old.items ++ lines_of chain.now readable.now answer.now) }
{
    put_heading(chain, out)?;
    put_chain(alloc, readable, out)?;
    put(out, b"\n")?;
    put_answer(alloc, readable, answer, out)?;
    put(out, b"\nused ")?;
    put_number(out, answer.len() as u64)?;
    put(out, b"\n")?;
    Ok(())
}

#[tactic(auto, unfolding(crate::specs::RingText::fault_name))]
fn name_of(fault: RingFault) -> &'static str
    ensures { result.now ≡ fault_name fault }
{
    match fault {
        RingFault::Jump { .. } => "jump",
        RingFault::BadIndex { .. } => "index",
        RingFault::Loop => "loop",
        RingFault::Indirect { .. } => "indirect",
        RingFault::Order { .. } => "order",
        RingFault::Outside { .. } => "outside",
        RingFault::Long { .. } => "long",
    }
}

/// Adds the last line after a fault. `Memory` is the only error; nothing is known of the text then.
#[tactic(auto, unfolding(crate::specs::RingText::last_line))]
pub fn put_fault(fault: RingFault, out: &mut Vec<u8>) -> Result<(), Memory>
    ensures { OnOk result (out.new.items ≡ out.old.items ++ last_line (Err fault)) }
{
    put(out, b"fault ")?;
    put(out, name_of(fault).as_bytes())?;
    put(out, b"\n")?;
    Ok(())
}

/// Adds the last line where there was no fault: the SHA-256 digest of the memory (FIPS 180-4) in lower
/// case hexadecimal. `Memory` is the only error; nothing is known of the text then.
#[tactic(auto, unfolding(crate::specs::RingText::last_line))]
pub fn put_digest(memory: &[u8], out: &mut Vec<u8>) -> Result<(), Memory>
    ensures { OnOk result (out.new.items ≡ out.old.items ++ last_line (Ok memory.now)) }
{
    let digest = Sha256::digest(memory);
    let mut digits = [0u8; 64];
    hex::encode_to_slice(&digest, &mut digits).unwrap();
    put(out, b"memory ")?;
    put(out, &digits)?;
    put(out, b"\n")?;
    Ok(())
}
