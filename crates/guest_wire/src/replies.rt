ghost use Rattle.std.specs.Prelude.{◌≡◌, Some};
ghost use Rattle.fuse_codec.specs.Replies.{form_of};
ghost use Rattle.fuse_codec.specs.declared.opcodes.ReplyForm.TheVariants as forms;
ghost use Rattle.fuse_codec.specs.declared.replies.Reply.TheVariants as replies;

use fuse_codec::Reply;
use fuse_wire::{AttrOut, EntryOut, InitOut, OpenOut, WriteOut};
use plain_file::Blob;

// What a reply of a known form says.

// The reply to an INIT.
#[tactic(auto, unfolding(fuse_codec::specs::Replies::form_of))]
pub(crate) fn init_in(reply: Reply) -> InitOut
    requires { form_of reply ≡ Some forms.Init }
    ensures { reply ≡ replies.Init result }
{
    match reply {
        Reply::Init(it) => it,
        _ => unreachable!(),
    }
}

// The reply to a LOOKUP.
#[tactic(auto, unfolding(fuse_codec::specs::Replies::form_of))]
pub(crate) fn entry_in(reply: Reply) -> EntryOut
    requires { form_of reply ≡ Some forms.Entry }
    ensures { reply ≡ replies.Entry result }
{
    match reply {
        Reply::Entry(it) => it,
        _ => unreachable!(),
    }
}

// The reply to a GETATTR or a SETATTR.
#[tactic(auto, unfolding(fuse_codec::specs::Replies::form_of))]
pub(crate) fn attr_in(reply: Reply) -> AttrOut
    requires { form_of reply ≡ Some forms.Attr }
    ensures { reply ≡ replies.Attr result }
{
    match reply {
        Reply::Attr(it) => it,
        _ => unreachable!(),
    }
}

// The reply to an OPEN.
#[tactic(auto, unfolding(fuse_codec::specs::Replies::form_of))]
pub(crate) fn opened_in(reply: Reply) -> OpenOut
    requires { form_of reply ≡ Some forms.Opened }
    ensures { reply ≡ replies.Opened result }
{
    match reply {
        Reply::Opened(it) => it,
        _ => unreachable!(),
    }
}

// The reply to a READ.
#[tactic(auto, unfolding(fuse_codec::specs::Replies::form_of))]
pub(crate) fn bytes_in(reply: Reply) -> Blob
    requires { form_of reply ≡ Some forms.Bytes }
    ensures { reply ≡ replies.Bytes result }
{
    match reply {
        Reply::Bytes(it) => it,
        _ => unreachable!(),
    }
}

// The reply to a WRITE.
#[tactic(auto, unfolding(fuse_codec::specs::Replies::form_of))]
pub(crate) fn wrote_in(reply: Reply) -> WriteOut
    requires { form_of reply ≡ Some forms.Wrote }
    ensures { reply ≡ replies.Wrote result }
{
    match reply {
        Reply::Wrote(it) => it,
        _ => unreachable!(),
    }
}

// A reply without a body.
#[tactic(auto, unfolding(fuse_codec::specs::Replies::form_of))]
pub(crate) fn done(reply: Reply)
    requires { form_of reply ≡ Some forms.Done }
    ensures { reply ≡ replies.Done }
{
    match reply {
        Reply::Done => {}
        _ => unreachable!(),
    }
}
