//! The lines of replies.

ghost use Rattle.std.specs.Prelude.{◌≡◌, ◌++◌, OnOk, IfOk};
ghost use Rattle.plain_text.specs.Fronts.{Begins};
ghost use Rattle.fuse_text.specs.Lines.{outcome_text, reply_text, reply_line};

use crate::fields::{put_field, put_hex_field};
use crate::records::{put_attr_out, put_entry_out, put_init_out, put_open_out, put_write_out};
use fuse_codec::Reply;
use plain_file::{Blob, List, Memory};
use plain_text::{put, put_signed};
use std::alloc::Global;

/// The line of a reply to the request with the number `unique`: `error=E unique=U` with the error's
/// positive number, or `ok unique=U` and then each field of the body in order. No line end.
///
/// A body's field is ` name=value` under its name in Linux uapi `fuse.h`, protocol 7.38, in decimal;
/// padding and unused words are left out. The fields of a record within another stand in its place
/// under their plain names, and those of CREATE's two records one after the other. The bytes of READ
/// and READDIR are ` bytes=`, in hexadecimal. A number in [`Reply::Error`] that is no error's is
/// printed as it is, one below 0 with its sign.
///
/// `Memory` is its only error.
pub fn line_of_reply(alloc: Global, reply: &Reply, unique: u64) -> Result<Blob, Memory>
    ensures { IfOk result (λ b. b ≡ reply_line unique reply.now) }
{
    let mut out = Vec::new(alloc);
    put_reply_line(&mut out, reply, unique)?;
    Ok(List::from_vec(out))
}

/// Appends the line of a reply, as [`line_of_reply`] gives it.
///
/// `Memory` is its only error. What stood in the buffer still stands at its front then; nothing is
/// promised of what stands behind it.
pub fn put_reply_line(out: &mut Vec<u8>, reply: &Reply, unique: u64) -> Result<(), Memory>
    ensures text { OnOk result (out.new.items ≡ out.old.items ++ reply_line unique reply.now) }
    ensures front { Begins out.old.items out.new.items }
{
    put_outcome(out, reply)?;
    put_field(out, "unique", unique)?;
    put_body(out, reply)?;
    Ok(())
}

#[tactic(auto, unfolding(crate::specs::Lines::outcome_text))]
fn put_outcome(out: &mut Vec<u8>, reply: &Reply) -> Result<(), Memory>
    ensures text { OnOk result (out.new.items ≡ out.old.items ++ outcome_text reply.now) }
    ensures front { Begins out.old.items out.new.items }
{
    match reply {
        Reply::Error { number } => {
            put(out, b"error=")?;
            put_signed(out, *number)?;
            Ok(())
        }
        _ => put(out, b"ok"),
    }
}

#[tactic(auto, unfolding(crate::specs::Lines::reply_text))]
fn put_body(out: &mut Vec<u8>, reply: &Reply) -> Result<(), Memory>
    ensures text { OnOk result (out.new.items ≡ out.old.items ++ reply_text reply.now) }
    ensures front { Begins out.old.items out.new.items }
{
    match reply {
        Reply::Error { .. } | Reply::Done => Ok(()),
        Reply::Entry(r) => put_entry_out(out, r),
        Reply::Attr(r) => put_attr_out(out, r),
        Reply::Opened(r) => put_open_out(out, r),
        Reply::Created { entry, opened } => {
            put_entry_out(out, entry)?;
            put_open_out(out, opened)?;
            Ok(())
        }
        Reply::Bytes(bytes) => put_hex_field(out, "bytes", bytes.as_slice()),
        Reply::Wrote(r) => put_write_out(out, r),
        Reply::Init(r) => put_init_out(out, r),
    }
}
