ghost use Rattle.std.specs.Prelude.{◌≡◌, ◌≤◌, ◌++◌, length, OnOk};
ghost use Rattle.std.specs.Fmt.{decimal};
ghost use Rattle.plain_file.specs.Limits.{max_part};
ghost use Rattle.chain_stream.specs.Frames.{lead_len, IsBounded};
ghost use Rattle.daxwire.specs.Show.{chain_line, lead_line, end_line};
ghost use Rattle.fuse_codec.specs.Reading.{message_of};

use chain_stream::{End, Lead, Responder};
use fuse_codec::{BadRequest, decode_request};
use fuse_text::{put_bad_line, put_field, put_hex_field, put_line};
use itoa::Buffer;
use plain_file::Memory;
use std::alloc::Global;

/// Answers each frame with its line.
#[derive(Clone, Copy, Debug, PartialEq, Eq)]
pub struct Show;

impl Responder for Show {
    ghost use Rattle.daxwire.specs.Show.{frame_lines, end_line};

    ghost says = { λ s frames. frame_lines frames };

    ghost starting = { λ pages frames. frame_lines frames };

    ghost ending = { end_line };

    fn start(_alloc: Global, _pages: u32) -> Result<Show, Memory> {
        Ok(Show)
    }

    #[tactic(auto, unfolding(crate::specs::Show::frame_lines))]
    fn quiet_at_start() {}

    #[tactic(auto, unfolding(crate::specs::Show::frame_lines))]
    fn quiet(&self) {}

    #[tactic(auto, unfolding(crate::specs::Show::frame_lines))]
    fn answer(
        &mut self,
        alloc: Global,
        lead: Lead,
        bytes: &[u8],
        out: &mut Vec<u8>,
    ) -> Result<(), Memory> {
        put_frame(alloc, lead, bytes, out)
    }

    #[tactic(auto, unfolding(crate::specs::Show::end_line))]
    fn end(end: End, out: &mut Vec<u8>) -> Result<(), Memory> {
        match end {
            End::Ended => Ok(()),
            End::Malformed { reason, at } => {
                put(out, b"malformed ")?;
                put_number(out, u64::from(reason.number()))?;
                put(out, b" at ")?;
                put_number(out, at)?;
                put(out, b"\n")?;
                Ok(())
            }
            End::TooLong => put(out, b"too long\n"),
        }
    }
}

// Adds the line of a whole frame.
#[tactic(auto, unfolding(crate::specs::Show::lead_line, chain_stream::specs::Frames::lead_len, chain_stream::specs::Frames::IsBounded))]
fn put_frame(alloc: Global, lead: Lead, bytes: &[u8], out: &mut Vec<u8>) -> Result<(), Memory>
    requires bounded { IsBounded lead }
    requires whole { lead_len lead ≡ length bytes.now }
    ensures { OnOk result (out.new.items ≡ out.old.items ++ lead_line lead bytes.now) }
{
    match lead {
        Lead::Chain { parts, .. } => {
            put_chain(alloc, bytes.split_at(5 + 4 * parts as usize).1, out)?;
            put(out, b"\n")?;
            Ok(())
        }
        Lead::Load { moffset, len } => {
            put(out, b"load")?;
            put_field(out, "moffset", moffset)?;
            put_field(out, "len", u64::from(len))?;
            put(out, b"\n")?;
            Ok(())
        }
        Lead::Store { moffset, .. } => {
            put(out, b"store")?;
            put_field(out, "moffset", moffset)?;
            put_hex_field(out, "bytes", bytes.split_at(13).1)?;
            put(out, b"\n")?;
            Ok(())
        }
        Lead::Bad(_) | Lead::Cut | Lead::Nothing => Ok(()),
    }
}

/// Adds the line of what the readable bytes of a chain are, without its end. `Memory` is the only
/// error; nothing is known of the text then.
#[tactic(auto, unfolding(crate::specs::Show::chain_line))]
pub fn put_chain(alloc: Global, readable: &[u8], out: &mut Vec<u8>) -> Result<(), Memory>
    requires { length readable.now ≤ max_part }
    ensures { OnOk result (out.new.items ≡ out.old.items ++ chain_line (message_of readable.now)) }
{
    match decode_request(alloc, readable) {
        Ok(message) => put_line(out, &message),
        Err(BadRequest::Memory) => Err(Memory),
        Err(bad) => put_bad_line(out, &bad),
    }
}

/// Adds a number in decimal. After `Memory` nothing is known of the text.
pub fn put_number(out: &mut Vec<u8>, number: u64) -> Result<(), Memory>
    ensures { OnOk result (out.new.items ≡ out.old.items ++ decimal number) }
{
    put(out, Buffer::new().format(number).as_bytes())
}

/// Adds a text. After `Memory` nothing is known of it.
pub fn put(out: &mut Vec<u8>, text: &[u8]) -> Result<(), Memory>
    ensures { OnOk result (out.new.items ≡ out.old.items ++ text.now) }
{
    out.extend_from_slice(text)?;
    Ok(())
}
