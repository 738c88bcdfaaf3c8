ghost use Rattle.std.specs.Prelude.{◌≡◌};
ghost use Rattle.fuse_codec.specs.Grammar.{kind_of, asked, form_room, room_of};

use crate::opcodes::Opcode;
use fuse_wire::{
    CreateIn, FallocateIn, FlushIn, ForgetOne, FsyncIn, GetattrIn, InitIn, OpenIn, ReadIn,
    ReleaseIn, RemoveOne, SetattrIn, SetupIn, WriteIn,
};
use plain_file::{Blob, List, Name};

/// The header of a request without what its bytes decide themselves: their number and the operation.
#[derive(Clone, Copy, Debug, PartialEq, Eq)]
pub struct Head {
    /// The request's own number, which its reply repeats.
    pub unique: u64,
    /// The node that the request is about. 1 is the root directory.
    pub nodeid: u64,
    /// The user of the process that asks.
    pub uid: u32,
    /// The group of the process that asks.
    pub gid: u32,
    /// The process that asks.
    pub pid: u32,
}

/// The operation of a request, with its body.
#[derive(Debug, Drop)]
pub enum Request {
    /// LOOKUP.
    Lookup {
        /// The name to look up.
        name: Name,
    },
    /// FORGET.
    Forget {
        /// How many lookups are given back.
        nlookup: u64,
    },
    /// GETATTR.
    Getattr(GetattrIn),
    /// SETATTR.
    Setattr(SetattrIn),
    /// UNLINK.
    Unlink {
        /// The name to take away.
        name: Name,
    },
    /// OPEN.
    OpenFile(OpenIn),
    /// READ.
    Read(ReadIn),
    /// WRITE.
    Write {
        /// Where to write. Its `size` is the number of bytes.
        head: WriteIn,
        /// What to write: at most 1,048,576 bytes.
        bytes: Blob,
    },
    /// RELEASE.
    Release(ReleaseIn),
    /// FSYNC.
    Fsync(FsyncIn),
    /// FLUSH.
    Flush(FlushIn),
    /// INIT.
    Init(InitIn),
    /// OPENDIR.
    OpenDir(OpenIn),
    /// READDIR.
    ReadDir(ReadIn),
    /// RELEASEDIR.
    ReleaseDir(ReleaseIn),
    /// CREATE.
    Create {
        /// How to open the file.
        head: CreateIn,
        /// The file's name.
        name: Name,
    },
    /// DESTROY.
    Destroy,
    /// BATCH_FORGET.
    BatchForget {
        /// Each node with the number of lookups that are given back.
        ones: List<ForgetOne>,
    },
    /// FALLOCATE.
    Fallocate(FallocateIn),
    /// SETUPMAPPING.
    Setup(SetupIn),
    /// REMOVEMAPPING.
    Remove {
        /// The intervals of the window to unmap: at most 256.
        ones: List<RemoveOne>,
    },
}

/// A request.
#[derive(Debug, Drop)]
pub struct Message {
    /// Who asks what of which node.
    pub head: Head,
    /// The operation.
    pub body: Request,
}

impl Request {
    /// The operation that is asked for.
    #[tactic(auto, unfolding(crate::specs::Grammar::kind_of))]
    pub fn opcode(&self) -> Opcode
        ensures { result ≡ kind_of self.now }
    {
        match self {
            Request::Lookup { .. } => Opcode::Lookup,
            Request::Forget { .. } => Opcode::Forget,
            Request::Getattr(_) => Opcode::Getattr,
            Request::Setattr(_) => Opcode::Setattr,
            Request::Unlink { .. } => Opcode::Unlink,
            Request::OpenFile(_) => Opcode::OpenFile,
            Request::Read(_) => Opcode::Read,
            Request::Write { .. } => Opcode::Write,
            Request::Release(_) => Opcode::Release,
            Request::Fsync(_) => Opcode::Fsync,
            Request::Flush(_) => Opcode::Flush,
            Request::Init(_) => Opcode::Init,
            Request::OpenDir(_) => Opcode::OpenDir,
            Request::ReadDir(_) => Opcode::ReadDir,
            Request::ReleaseDir(_) => Opcode::ReleaseDir,
            Request::Create { .. } => Opcode::Create,
            Request::Destroy => Opcode::Destroy,
            Request::BatchForget { .. } => Opcode::BatchForget,
            Request::Fallocate(_) => Opcode::Fallocate,
            Request::Setup(_) => Opcode::Setup,
            Request::Remove { .. } => Opcode::Remove,
        }
    }

    // How many bytes READ and READDIR ask for.
    #[tactic(auto, unfolding(crate::specs::Grammar::asked))]
    fn asked(&self) -> u32
        ensures { result ≡ asked self.now }
    {
        match self {
            Request::Read(r) | Request::ReadDir(r) => r.size,
            _ => 0,
        }
    }

    /// How many bytes the writable part must have at least, so that each success of this request
    /// fits: the 16 of the reply's header and those of its body. `None` where there is no reply.
    pub fn room(&self) -> Option<u64>
        ensures { result ≡ room_of self.now }
    {
        self.opcode().reply_form().room(self.asked())
    }
}
