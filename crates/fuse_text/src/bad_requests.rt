//! The lines of bytes that are no request.

ghost use Rattle.std.specs.Prelude.{◌≡◌, ◌≢◌, ◌++◌, OnOk, IfOk};
ghost use Rattle.fuse_codec.specs.declared.errors.BadRequest.TheVariants as bad_requests;
ghost use Rattle.plain_text.specs.Fronts.{Begins};
ghost use Rattle.fuse_text.specs.Lines.{bad_line};

use crate::fields::put_field;
use fuse_codec::BadRequest;
use plain_file::{Blob, List, Memory};
use plain_text::put;
use std::alloc::Global;

/// The line of a bad request: `bad short`, `bad length said=S had=H`, `bad extended n=N`,
/// `bad opcode n=N` or `bad body opcode=N`, with what [`BadRequest`] carries in decimal. No line end.
///
/// `BadRequest::Memory` says nothing of bytes and has no line. `Memory` is the only error.
pub fn line_of_bad(alloc: Global, bad: &BadRequest) -> Result<Blob, Memory>
    requires { bad.now ≢ bad_requests.Memory }
    ensures { IfOk result (λ b. b ≡ bad_line bad.now) }
{
    let mut out = Vec::new(alloc);
    put_bad_line(&mut out, bad)?;
    Ok(List::from_vec(out))
}

/// Appends the line of a bad request, as [`line_of_bad`] gives it.
///
/// `Memory` is its only error. What stood in the buffer still stands at its front then; nothing is
/// promised of what stands behind it.
#[tactic(auto, unfolding(crate::specs::Lines::bad_line))]
pub fn put_bad_line(out: &mut Vec<u8>, bad: &BadRequest) -> Result<(), Memory>
    requires { bad.now ≢ bad_requests.Memory }
    ensures text { OnOk result (out.new.items ≡ out.old.items ++ bad_line bad.now) }
    ensures front { Begins out.old.items out.new.items }
{
    match bad {
        BadRequest::Short => put(out, b"bad short"),
        BadRequest::Length { said, had } => {
            put(out, b"bad length")?;
            put_field(out, "said", u64::from(*said))?;
            put_field(out, "had", u64::from(*had))?;
            Ok(())
        }
        BadRequest::Extended { n } => {
            put(out, b"bad extended")?;
            put_field(out, "n", u64::from(*n))?;
            Ok(())
        }
        BadRequest::Opcode { n } => {
            put(out, b"bad opcode")?;
            put_field(out, "n", u64::from(*n))?;
            Ok(())
        }
        BadRequest::Body { opcode } => {
            put(out, b"bad body")?;
            put_field(out, "opcode", u64::from(*opcode))?;
            Ok(())
        }
        BadRequest::Memory => unreachable!(),
    }
}
