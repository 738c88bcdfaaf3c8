//! The lines of requests.

ghost use Rattle.std.specs.Prelude.{◌≡◌, ◌++◌, codes, OnOk, IfOk};
ghost use Rattle.std.specs.List.{flat_map};
ghost use Rattle.plain_text.specs.Fronts.{Begins};
ghost use Rattle.fuse_text.specs.FieldText.{field};
ghost use Rattle.fuse_text.specs.RecordText.{forget_one_text, remove_one_text};
ghost use Rattle.fuse_text.specs.Lines.{body_text, request_line};

use crate::fields::{put_field, put_hex_field};
use crate::records::{
    put_create_in, put_fallocate_in, put_flush_in, put_forget_one, put_fsync_in, put_getattr_in,
    put_init_in, put_open_in, put_read_in, put_release_in, put_remove_one, put_setattr_in,
    put_setup_in, put_write_in,
};
use fuse_codec::{Message, Request};
use fuse_wire::{ForgetOne, RemoveOne};
use plain_file::{Blob, List, Memory};
use plain_text::put;
use std::alloc::Global;

/// The line of a request: its operation's [`text`](fuse_codec::Opcode::text), ` unique=` and ` node=`
/// with the numbers of its header, then each field of its body in order. No line end.
///
/// A body's field is ` name=value` under its name in Linux uapi `fuse.h`, protocol 7.38, in decimal;
/// padding and unused words are left out, and so is `flags2` where an INIT is of the shorter form. A
/// name is ` name=` and a WRITE's data ` bytes=`, in hexadecimal. BATCH_FORGET and REMOVEMAPPING
/// have ` count=`, then the fields of each of their records.
///
/// `Memory` is its only error.
pub fn line_of(alloc: Global, message: &Message) -> Result<Blob, Memory>
    ensures { IfOk result (λ b. b ≡ request_line message.now) }
{
    let mut out = Vec::new(alloc);
    put_line(&mut out, message)?;
    Ok(List::from_vec(out))
}

/// Appends the line of a request, as [`line_of`] gives it.
///
/// `Memory` is its only error. What stood in the buffer still stands at its front then; nothing is
/// promised of what stands behind it.
pub fn put_line(out: &mut Vec<u8>, message: &Message) -> Result<(), Memory>
    ensures text { OnOk result (out.new.items ≡ out.old.items ++ request_line message.now) }
    ensures front { Begins out.old.items out.new.items }
{
    put(out, message.body.opcode().text().as_bytes())?;
    put_field(out, "unique", message.head.unique)?;
    put_field(out, "node", message.head.nodeid)?;
    put_body(out, &message.body)?;
    Ok(())
}

#[tactic(auto, unfolding(crate::specs::Lines::body_text))]
fn put_body(out: &mut Vec<u8>, body: &Request) -> Result<(), Memory>
    ensures text { OnOk result (out.new.items ≡ out.old.items ++ body_text body.now) }
    ensures front { Begins out.old.items out.new.items }
{
    match body {
        Request::Lookup { name } | Request::Unlink { name } => {
            put_hex_field(out, "name", name.as_slice())
        }
        Request::Forget { nlookup } => put_field(out, "nlookup", *nlookup),
        Request::Getattr(r) => put_getattr_in(out, r),
        Request::Setattr(r) => put_setattr_in(out, r),
        Request::OpenFile(r) | Request::OpenDir(r) => put_open_in(out, r),
        Request::Read(r) | Request::ReadDir(r) => put_read_in(out, r),
        Request::Write { head, bytes } => {
            put_write_in(out, head)?;
            put_hex_field(out, "bytes", bytes.as_slice())?;
            Ok(())
        }
        Request::Release(r) | Request::ReleaseDir(r) => put_release_in(out, r),
        Request::Fsync(r) => put_fsync_in(out, r),
        Request::Flush(r) => put_flush_in(out, r),
        Request::Init(r) => put_init_in(out, r),
        Request::Create { head, name } => {
            put_create_in(out, head)?;
            put_hex_field(out, "name", name.as_slice())?;
            Ok(())
        }
        Request::Destroy => Ok(()),
        Request::BatchForget { ones } => {
            put_count(out, ones.len())?;
            put_forgets(out, ones.as_slice())?;
            Ok(())
        }
        Request::Fallocate(r) => put_fallocate_in(out, r),
        Request::Setup(r) => put_setup_in(out, r),
        Request::Remove { ones } => {
            put_count(out, ones.len())?;
            put_removes(out, ones.as_slice())?;
            Ok(())
        }
    }
}

fn put_count(out: &mut Vec<u8>, count: usize) -> Result<(), Memory>
    ensures text { OnOk result (out.new.items ≡ out.old.items ++ field (codes "count") count) }
    ensures front { Begins out.old.items out.new.items }
{
    put_field(out, "count", count as u64)
}

fn put_forgets(out: &mut Vec<u8>, ones: &[ForgetOne]) -> Result<(), Memory>
    ensures text { OnOk result (out.new.items ≡ out.old.items ++ flat_map forget_one_text ones.now) }
    ensures front { Begins out.old.items out.new.items }
{
    for one in ones {
        put_forget_one(out, one)?;
    }
    Ok(())
}

fn put_removes(out: &mut Vec<u8>, ones: &[RemoveOne]) -> Result<(), Memory>
    ensures text { OnOk result (out.new.items ≡ out.old.items ++ flat_map remove_one_text ones.now) }
    ensures front { Begins out.old.items out.new.items }
{
    for one in ones {
        put_remove_one(out, one)?;
    }
    Ok(())
}
