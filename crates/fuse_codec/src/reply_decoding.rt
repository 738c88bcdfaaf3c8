ghost use Rattle.std.specs.Prelude.{◌≡◌, ◌<◌, ◌^◌, ℕ, ℤ, pos, neg_ℤ, int_le, length, IfOk, OnErr, IsSome, IsTrue, Ok, Err};
ghost use Rattle.fuse_codec.specs.Replies.{answer_form, SpellsAnswer};
ghost use Rattle.fuse_codec.specs.ReplyReading.{created_of, success_of, reply_body_of, reply_after, reply_of, GivesReply, AnswerGives};
ghost use Rattle.fuse_codec.specs.declared.replies.Reply.{Reply};
ghost use Rattle.fuse_codec.specs.declared.errors.BadReply.{BadReply};
ghost use Rattle.fuse_codec.specs.declared.errors.BadReply.TheVariants as bad_replies;

use crate::errors::BadReply;
use crate::opcodes::{Opcode, ReplyForm};
use crate::replies::Reply;
use fuse_wire::{AttrOut, EntryOut, InitOut, OpenOut, OutHeader, WriteOut};
use plain_file::{Blob, MAX_TRANSFER, Memory};
use std::alloc::Global;

#[tactic(auto, unfolding(crate::specs::ReplyReading::created_of, fuse_wire::specs::Attributes::entry_out_of))]
fn created_of(bytes: &[u8]) -> Option<Reply>
    ensures { result ≡ created_of bytes.now }
{
    if bytes.len() < EntryOut::SIZE {
        return None;
    }
    let (front, rest) = bytes.split_at(128);
    let entry = EntryOut::read(front)?;
    let opened = OpenOut::read(rest)?;
    Some(Reply::Created { entry, opened })
}

#[tactic(auto, unfolding(crate::specs::ReplyReading::success_of))]
fn success_of(alloc: Global, form: ReplyForm, bytes: &[u8]) -> Result<Option<Reply>, Memory>
    ensures value { IfOk result (λ o. o ≡ success_of form bytes.now) }
    ensures memory { OnErr result (IsSome (success_of form bytes.now)) }
{
    match form {
        ReplyForm::Entry => Ok(EntryOut::read(bytes).map(Reply::Entry)),
        ReplyForm::Attr => Ok(AttrOut::read(bytes).map(Reply::Attr)),
        ReplyForm::Opened => Ok(OpenOut::read(bytes).map(Reply::Opened)),
        ReplyForm::Created => Ok(created_of(bytes)),
        ReplyForm::Bytes if bytes.len() <= MAX_TRANSFER as usize => {
            let bytes = Blob::copy_of(alloc, bytes)?;
            Ok(Some(Reply::Bytes(bytes)))
        }
        ReplyForm::Wrote => Ok(WriteOut::read(bytes).map(Reply::Wrote)),
        ReplyForm::Init => Ok(InitOut::read(bytes).map(Reply::Init)),
        ReplyForm::Done if bytes.is_empty() => Ok(Some(Reply::Done)),
        ReplyForm::Bytes | ReplyForm::Done | ReplyForm::Unanswered => Ok(None),
    }
}

#[tactic(auto, unfolding(crate::specs::ReplyReading::reply_body_of))]
fn reply_body_of(
    alloc: Global,
    form: ReplyForm,
    error: i32,
    bytes: &[u8],
) -> Result<Option<Reply>, Memory>
    requires { IsTrue (int_le (neg_ℤ (pos 4095)) error) }
    ensures value { IfOk result (λ o. o ≡ reply_body_of form error bytes.now) }
    ensures memory { OnErr result (IsSome (reply_body_of form error bytes.now)) }
{
    if error >= 0 {
        return success_of(alloc, form, bytes);
    }
    if !bytes.is_empty() {
        return Ok(None);
    }
    Ok(Some(Reply::Error { number: -error }))
}

#[tactic(auto, unfolding(crate::specs::ReplyReading::reply_after))]
fn reply_after(
    alloc: Global,
    form: ReplyForm,
    header: OutHeader,
    had: u32,
    body: &[u8],
) -> Result<(u64, Reply), BadReply>
    ensures { GivesReply result (reply_after form header had body.now) }
{
    if header.len != had {
        return Err(BadReply::Length {
            said: header.len,
            had,
        });
    }
    if header.error > 0 || header.error < -4095 {
        return Err(BadReply::ErrorCode { n: header.error });
    }
    let Some(reply) = reply_body_of(alloc, form, header.error, body)? else {
        return Err(BadReply::Body);
    };
    Ok((header.unique, reply))
}

#[tactic(auto, unfolding(crate::specs::ReplyReading::reply_of, fuse_wire::specs::Records::out_header_of))]
fn reply_of(alloc: Global, form: ReplyForm, bytes: &[u8]) -> Result<(u64, Reply), BadReply>
    requires { length bytes.now < 2 ^ 32 }
    ensures { GivesReply result (reply_of form bytes.now) }
{
    if bytes.len() < OutHeader::SIZE {
        return Err(BadReply::Short);
    }
    let (front, body) = bytes.split_at(16);
    let Some(header) = OutHeader::read(front) else {
        return Err(BadReply::Short);
    };
    reply_after(alloc, form, header, bytes.len() as u32, body)
}

/// The form of what answers the operation of this number: `None` exactly for a number that no
/// operation has, and for FORGET and BATCH_FORGET, which have no reply.
#[tactic(auto, unfolding(crate::specs::Replies::answer_form, crate::specs::Replies::answered))]
pub fn answer_form(opcode: u32) -> Option<ReplyForm>
    ensures { result ≡ answer_form opcode }
{
    match Opcode::of(opcode)?.reply_form() {
        ReplyForm::Unanswered => None,
        form => Some(form),
    }
}

/// The reply that the bytes spell, with the number of the request that it answers.
///
/// `opcode` is that request's operation: it must have a reply, as [`answer_form`] says. The bytes are
/// checked in this order: `Short` exactly under 16 bytes, `Length` exactly where the header's `len`
/// isn't their number, `ErrorCode` exactly where the header's `error` is above 0 or below -4095, and
/// `Body` exactly where an error has a body, or a success's body isn't of the operation's form.
/// Padding may be of any value. `Memory` comes only for a reply, where the allocation was refused.
///
/// The bytes are fewer than 2^32, so that `Length` can say how many there were.
pub fn decode_reply(alloc: Global, opcode: u32, bytes: &[u8]) -> Result<(u64, Reply), BadReply>
    requires answered { IsSome (answer_form opcode) }
    requires small { length bytes.now < 2 ^ 32 }
    ensures exact { AnswerGives result opcode bytes.now }
    ensures found { IfOk result (λ a. SpellsAnswer opcode a.0 a.1 bytes.now) }
    ensures only { (unique : ℕ) (reply : Reply) → SpellsAnswer opcode unique reply bytes.now → GivesReply result (Ok (unique, reply)) }
    ensures none { (unique : ℕ) (reply : Reply) (e : BadReply) → result ≡ Err e → SpellsAnswer opcode unique reply bytes.now → e ≡ bad_replies.Memory }
{
    let form = answer_form(opcode).unwrap();
    reply_of(alloc, form, bytes)
}
