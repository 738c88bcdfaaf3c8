ghost use Rattle.std.specs.Prelude.{◌≡◌, ◌<◌, ◌^◌};
ghost use Rattle.fuse_codec.specs.Opcodes.{number, opcode_of, text_of, reply_form};
ghost use Rattle.fuse_codec.specs.Grammar.{form_room};

// The operations: number, name, text, and what the body of a success is.
macro_rules! opcode_rows {
    ($with:ident, $value:expr) => {
        $with!($value;
            1 Lookup "lookup" Entry,
            2 Forget "forget" Unanswered,
            3 Getattr "getattr" Attr,
            4 Setattr "setattr" Attr,
            10 Unlink "unlink" Done,
            14 OpenFile "open" Opened,
            15 Read "read" Bytes,
            16 Write "write" Wrote,
            18 Release "release" Done,
            20 Fsync "fsync" Done,
            25 Flush "flush" Done,
            26 Init "init" Init,
            27 OpenDir "opendir" Opened,
            28 ReadDir "readdir" Bytes,
            29 ReleaseDir "releasedir" Done,
            35 Create "create" Created,
            38 Destroy "destroy" Done,
            42 BatchForget "batch_forget" Unanswered,
            43 Fallocate "fallocate" Done,
            48 Setup "setupmapping" Done,
            49 Remove "removemapping" Done,
        )
    };
}

macro_rules! row_number {
    ($opcode:expr; $($number:literal $name:ident $text:literal $form:ident,)*) => {
        match $opcode { $(Opcode::$name => $number,)* }
    };
}

macro_rules! row_of_number {
    ($value:expr; $($number:literal $name:ident $text:literal $form:ident,)*) => {
        match $value { $($number => Some(Opcode::$name),)* _ => None }
    };
}

macro_rules! row_text {
    ($opcode:expr; $($number:literal $name:ident $text:literal $form:ident,)*) => {
        match $opcode { $(Opcode::$name => $text,)* }
    };
}

macro_rules! row_form {
    ($opcode:expr; $($number:literal $name:ident $text:literal $form:ident,)*) => {
        match $opcode { $(Opcode::$name => ReplyForm::$form,)* }
    };
}

/// An operation of FUSE that this profile knows: `enum fuse_opcode` of Linux uapi `fuse.h`, protocol 7.38.
///
/// OPEN is `OpenFile`, SETUPMAPPING and REMOVEMAPPING are `Setup` and `Remove`.
#[derive(Clone, Copy, Debug, PartialEq, Eq)]
pub enum Opcode {
    /// Looks a name up in a directory: FUSE_LOOKUP.
    Lookup,
    /// Gives lookups of a node back, and has no reply: FUSE_FORGET.
    Forget,
    /// Asks for a node's attributes: FUSE_GETATTR.
    Getattr,
    /// Changes a node's attributes: FUSE_SETATTR.
    Setattr,
    /// Takes a file's name away: FUSE_UNLINK.
    Unlink,
    /// Opens a file: FUSE_OPEN.
    OpenFile,
    /// Reads from an open file: FUSE_READ.
    Read,
    /// Writes to an open file: FUSE_WRITE.
    Write,
    /// Closes an open file: FUSE_RELEASE.
    Release,
    /// Asks that a file be stored: FUSE_FSYNC.
    Fsync,
    /// Says that a descriptor of an open file is closed: FUSE_FLUSH.
    Flush,
    /// Begins a session: FUSE_INIT.
    Init,
    /// Opens a directory: FUSE_OPENDIR.
    OpenDir,
    /// Reads entries of an open directory: FUSE_READDIR.
    ReadDir,
    /// Closes an open directory: FUSE_RELEASEDIR.
    ReleaseDir,
    /// Makes a file where there is none of the name, and opens it: FUSE_CREATE.
    Create,
    /// Ends a session: FUSE_DESTROY.
    Destroy,
    /// Gives lookups of several nodes back, and has no reply: FUSE_BATCH_FORGET.
    BatchForget,
    /// Makes or frees room within a file: FUSE_FALLOCATE.
    Fallocate,
    /// Maps a part of a file into the window of direct access (DAX): FUSE_SETUPMAPPING.
    Setup,
    /// Unmaps parts of the window: FUSE_REMOVEMAPPING.
    Remove,
}

/// What the body of a successful reply is.
#[derive(Clone, Copy, Debug, PartialEq, Eq)]
pub enum ReplyForm {
    /// An [`EntryOut`](fuse_wire::EntryOut).
    Entry,
    /// An [`AttrOut`](fuse_wire::AttrOut).
    Attr,
    /// An [`OpenOut`](fuse_wire::OpenOut).
    Opened,
    /// An [`EntryOut`](fuse_wire::EntryOut), then an [`OpenOut`](fuse_wire::OpenOut).
    Created,
    /// Bytes of a file, or entries of a directory: at most 1,048,576 bytes.
    Bytes,
    /// A [`WriteOut`](fuse_wire::WriteOut).
    Wrote,
    /// An [`InitOut`](fuse_wire::InitOut).
    Init,
    /// Nothing.
    Done,
    /// There is no reply, neither a success nor an error.
    Unanswered,
}

impl Opcode {
    /// The operation's number, as it stands in the header of a request.
    #[tactic(auto, unfolding(crate::specs::Opcodes::number))]
    pub fn number(self) -> u32
        ensures { result ≡ number self }
    {
        opcode_rows!(row_number, self)
    }

    /// The operation of a number: `None` exactly for a number that no operation here has.
    #[tactic(auto, unfolding(crate::specs::Opcodes::opcode_of, crate::specs::Opcodes::number))]
    pub fn of(number: u32) -> Option<Opcode>
        ensures { result ≡ opcode_of number }
    {
        opcode_rows!(row_of_number, number)
    }

    /// The operation's name in lines of text: in lower case and without FUSE, as `setupmapping`.
    #[tactic(auto, unfolding(crate::specs::Opcodes::text_of))]
    pub fn text(self) -> &'static str
        ensures { result.now ≡ text_of self }
    {
        opcode_rows!(row_text, self)
    }

    /// What the body of a success is.
    #[tactic(auto, unfolding(crate::specs::Opcodes::reply_form))]
    pub fn reply_form(self) -> ReplyForm
        ensures { result ≡ reply_form self }
    {
        opcode_rows!(row_form, self)
    }
}

impl ReplyForm {
    /// The most bytes that a reply of this form has with its header, where a request asks for `asked`
    /// bytes. `None` where there is no reply.
    #[tactic(auto, unfolding(crate::specs::Grammar::form_room))]
    pub fn room(self, asked: u32) -> Option<u64>
        ensures { result ≡ form_room self asked }
    {
        let body = match self {
            ReplyForm::Entry => 128,
            ReplyForm::Attr => 104,
            ReplyForm::Opened => 16,
            ReplyForm::Created => 144,
            ReplyForm::Bytes => asked as u64,
            ReplyForm::Wrote => 8,
            ReplyForm::Init => 64,
            ReplyForm::Done => 0,
            ReplyForm::Unanswered => return None,
        };
        Some(16 + body)
    }
}
