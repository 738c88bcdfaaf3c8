//! What follows from the definitions alone, stated as contracts of functions that do nothing.

ghost use Rattle.std.specs.Prelude.{◌≡◌, ◌≤◌, ℕ, List, [], ◌++◌, length};
ghost use Rattle.fuse_codec.specs.Dirents.{clean_dirents, fitting};
ghost use Rattle.fuse_codec.specs.Grammar.{Spells};
ghost use Rattle.fuse_codec.specs.Replies.{SpellsReply};
ghost use Rattle.fuse_codec.specs.declared.messages.Message.{Message};
ghost use Rattle.fuse_codec.specs.declared.opcodes.ReplyForm.{ReplyForm};
ghost use Rattle.fuse_codec.specs.declared.replies.Dirent.{Dirent};
ghost use Rattle.fuse_codec.specs.declared.replies.Reply.{Reply};

/// No spelling of a request is a proper prefix of a spelling of a request.
pub fn no_prefix_requests()
    ensures { (m n : Message) (bytes more : List ℕ) → Spells m bytes → Spells n (bytes ++ more) → more ≡ [] }
{}

/// No spelling of a reply is a proper prefix of a spelling of a reply, whatever their forms are.
pub fn no_prefix_replies()
    ensures { (f g : ReplyForm) (u v : ℕ) (m n : Reply) (bytes more : List ℕ) → SpellsReply f u m bytes → SpellsReply g v n (bytes ++ more) → more ≡ [] }
{}

/// No spelling of a request is a proper prefix of a spelling of a reply, nor the other way round.
pub fn no_prefix_across()
    ensures requests { (m : Message) (f : ReplyForm) (u : ℕ) (n : Reply) (bytes more : List ℕ) → Spells m bytes → SpellsReply f u n (bytes ++ more) → more ≡ [] }
    ensures replies { (f : ReplyForm) (u : ℕ) (m : Reply) (n : Message) (bytes more : List ℕ) → SpellsReply f u m bytes → Spells n (bytes ++ more) → more ≡ [] }
{}

/// The entries that [`put_dirents`](crate::put_dirents) writes are a prefix, their bytes are within
/// the size, and no longer prefix is.
pub fn fitting_is_the_longest_prefix()
    ensures prefix { (size : ℕ) (ds : List Dirent) → (rest : List Dirent) × (ds ≡ fitting size ds ++ rest) }
    ensures within { (size : ℕ) (ds : List Dirent) → length (clean_dirents (fitting size ds)) ≤ size }
    ensures longest { (size : ℕ) (longer more : List Dirent) → length (clean_dirents longer) ≤ size → length longer ≤ length (fitting size (longer ++ more)) }
{}
