ghost use Rattle.std.specs.Prelude.{◌≡◌, ◌↔◌, ℕ, List, true};
ghost use Rattle.std.specs.List.{flat_map};
ghost use Rattle.fuse_wire.specs.Layout.{FitsParts};
ghost use Rattle.fuse_wire.specs.Forgets.{forget_one};
ghost use Rattle.fuse_wire.specs.Mappings.{remove_one};
ghost use Rattle.fuse_codec.specs.Grammar.{body_parts, is_bounded, clean_message, Spells};

use crate::encoding::header_with;
use crate::limits::{MAX_PART, MAX_REMOVED, MAX_TRANSFER};
use crate::messages::{Message, Request};
use fuse_wire::{ForgetIn, ForgetOne, InitIn, RemoveOne};

// The functions that end in `fit` or `fits` do nothing but look at each number, which they hand over by
// value. That is how a proof knows that it is within its field's width.

fn look(_: &[u8]) {}

fn forgets_fit(ones: &[ForgetOne])
    ensures { FitsParts (flat_map forget_one ones.now) }
{
    for one in ones {
        one.put();
    }
}

fn removes_fit(ones: &[RemoveOne])
    ensures { FitsParts (flat_map remove_one ones.now) }
{
    for one in ones {
        one.put();
    }
}

#[tactic(auto, using(fuse_wire::proofs::Laws::FitsParts_append, fuse_wire::proofs::Laws::text_fits, crate::proofs::CleanRequests::count_fits), unfolding(crate::specs::Grammar::body_parts, crate::specs::Grammar::is_bounded, fuse_wire::specs::Layout::FitsParts))]
fn body_fits(body: &Request)
    requires bounded { is_bounded body.now ≡ true }
    ensures { FitsParts (body_parts body.now) }
{
    match body {
        Request::Lookup { .. } | Request::Unlink { .. } | Request::Destroy => {}
        Request::Forget { nlookup } => look(&ForgetIn { nlookup: *nlookup }.put()),
        Request::Getattr(r) => look(&r.put()),
        Request::Setattr(r) => look(&r.put()),
        Request::OpenFile(r) | Request::OpenDir(r) => look(&r.put()),
        Request::Read(r) | Request::ReadDir(r) => look(&r.put()),
        Request::Write { head, .. } => look(&head.put()),
        Request::Release(r) | Request::ReleaseDir(r) => look(&r.put()),
        Request::Fsync(r) => look(&r.put()),
        Request::Flush(r) => look(&r.put()),
        Request::Init(r) => {
            r.put(&mut [0; InitIn::SIZE]);
        }
        Request::Create { head, .. } => look(&head.put()),
        Request::BatchForget { ones } => forgets_fit(ones.as_slice()),
        Request::Fallocate(r) => look(&r.put()),
        Request::Setup(r) => look(&r.put()),
        Request::Remove { ones } => removes_fit(ones.as_slice()),
    }
}

pub(crate) fn numbers_fit(message: &Message)
    requires bounded { is_bounded message.now.body ≡ true }
    ensures { Spells message.now (clean_message message.now) }
{
    header_with(0, &message.head, message.body.opcode()).put();
    body_fits(&message.body);
}

#[tactic(auto, unfolding(crate::specs::Grammar::is_bounded))]
fn is_bounded(body: &Request) -> bool
    ensures { result ≡ is_bounded body.now }
{
    match body {
        Request::Lookup { name } | Request::Unlink { name } | Request::Create { name, .. } => {
            !name.as_slice().is_empty()
        }
        Request::Write { head, bytes } => {
            head.size as usize == bytes.len() && bytes.len() <= MAX_TRANSFER as usize
        }
        Request::BatchForget { ones } => {
            ones.len() <= (MAX_PART as usize - 48) / ForgetOne::SIZE
        }
        Request::Remove { ones } => ones.len() <= MAX_REMOVED as usize,
        _ => true,
    }
}

impl Message {
    /// Whether the message is one that bytes can say: a WRITE's `size` is the number of its bytes,
    /// at most 1,048,576; a REMOVEMAPPING has at most 256 intervals; and a BATCH_FORGET at most
    /// 65,789 pairs, as many as a part of [`MAX_PART`](crate::MAX_PART) bytes has room for. Every
    /// other message is one.
    pub fn fits(&self) -> bool
        ensures bounded { result ≡ is_bounded self.now.body }
        ensures spelled { (result ≡ true) ↔ ((bytes : List ℕ) × Spells self.now bytes) }
    {
        if !is_bounded(&self.body) {
            return false;
        }
        numbers_fit(self);
        true
    }
}
