//! A wire to a daemon that stays as it is, over boards that one guest has for itself.
ghost use Rattle.std.specs.Prelude.{◌≡◌, ◌≤◌, length, IfOk};
ghost use Rattle.std.specs.List.{IsDistinct};
ghost use Rattle.std.specs.Str.{bytes_eq};
ghost use Rattle.plain_file.specs.Limits.{max_part};
ghost use Rattle.fuse_device.specs.Promises.{world};
ghost use Rattle.guest_wire.specs.Wires.{boards, CanShare};
ghost use Rattle.dax_host.specs.SharedBoards.{Begins};

use crate::host::HostWire;
use crate::tests::{done, opened, wrote};
use daemon_core::Daemon;
use fuse_codec::{Head, Message, Reply, Request};
use fuse_wire::{InitIn, OpenIn};
use guest_wire::{Driver, FileRef, Wire, WireError, WireRefusal};
use page_map::{Mode, Page, PageMap};
use plain_file::{Blob, First, List, Memory, Name, PlainFiles};
use std::alloc::Global;
use std::sync::Wait;
use std::test::Fail;

pub const A: FileRef = FileRef { node: 2, fh: 1 };

// One file's name: "a".
#[tactic(auto, using(fuse_device::proofs::Servable::one_distinct, fuse_device::proofs::Servable::none_distinct))]
fn one_name(alloc: Global) -> Result<List<Name>, Memory>
    ensures few { IfOk result (λ names. length names ≤ 1) }
    ensures different { IfOk result (λ names. IsDistinct bytes_eq names) }
{
    let mut names = List::new(alloc);
    if let Some(name) = Name::copy_of(alloc, b"a")? {
        names.push(name)?;
    }
    Ok(names)
}

fn head(node: u64) -> Head {
    Head {
        unique: 1,
        nodeid: node,
        uid: 0,
        gid: 0,
        pid: 0,
    }
}

// Starts the session.
#[tactic(auto, unfolding(fuse_codec::specs::Grammar::is_bounded, fuse_device::specs::Promises::Needs))]
fn start(alloc: Global, daemon: &mut Daemon, files: &mut PlainFiles, map: &mut PageMap) -> bool
    requires { Begins (world daemon.old files.old map.old) }
    ensures { Begins (world daemon.new files.new map.new) }
{
    let body = Request::Init(InitIn {
        major: 7,
        minor: 31,
        max_readahead: 0,
        flags: 0,
        flags2: None,
    });
    let message = Message {
        head: head(0),
        body,
    };
    daemon.serve(alloc, message, files, map).is_ok()
}

// Opens file "a".
#[tactic(auto, unfolding(fuse_codec::specs::Grammar::is_bounded, fuse_device::specs::Promises::Needs))]
fn open(alloc: Global, daemon: &mut Daemon, files: &mut PlainFiles, map: &mut PageMap) -> bool
    requires { Begins (world daemon.old files.old map.old) }
    ensures { Begins (world daemon.new files.new map.new) }
{
    let body = Request::OpenFile(OpenIn {
        flags: 2,
        open_flags: 0,
    });
    let message = Message {
        head: head(2),
        body,
    };
    daemon.serve(alloc, message, files, map).is_ok()
}

/// A daemon with a window of one range, whose file "a" is open by handle 1, and boards of its own.
pub fn started(alloc: Global) -> Result<(Daemon, PlainFiles, PageMap), Memory>
    ensures { IfOk result (λ r. Begins (world r.0 r.1 r.2)) }
{
    let names = one_name(alloc)?;
    let firsts = List::from_vec(Vec::from_slice(alloc, &[First { size: 0, fill: 0 }; 16])?);
    let mut daemon = Daemon::new(alloc, 512, &names)?;
    let mut files = PlainFiles::new(alloc, 0, &firsts)?;
    let mut map = PageMap::new(alloc, 512)?;
    start(alloc, &mut daemon, &mut files, &mut map);
    open(alloc, &mut daemon, &mut files, &mut map);
    Ok((daemon, files, map))
}

// WRITE of "hello" to file "a".
const WRITE: &[u8] =
    b"\x55\0\0\0\x10\0\0\0\x07\0\0\0\0\0\0\0\x02\0\0\0\0\0\0\0\0\0\0\0\0\0\0\0\0\0\0\0\0\0\0\0\x01\0\0\0\0\0\0\0\0\0\0\0\0\0\0\0\x05\0\0\0\0\0\0\0\0\0\0\0\0\0\0\0\0\0\0\0\0\0\0\0hello";

const WROTE: &[u8] = b"\x18\0\0\0\0\0\0\0\x07\0\0\0\0\0\0\0\x05\0\0\0\0\0\0\0";

// READ of at most nine bytes of file "a".
const READ: &[u8] =
    b"\x50\0\0\0\x0f\0\0\0\x08\0\0\0\0\0\0\0\x02\0\0\0\0\0\0\0\0\0\0\0\0\0\0\0\0\0\0\0\0\0\0\0\x01\0\0\0\0\0\0\0\0\0\0\0\0\0\0\0\x09\0\0\0\0\0\0\0\0\0\0\0\0\0\0\0\0\0\0\0\0\0\0\0";

const BYTES: &[u8] = b"\x15\0\0\0\0\0\0\0\x08\0\0\0\0\0\0\0hello";

// GETATTR of file "a".
const GETATTR: &[u8] =
    b"\x38\0\0\0\x03\0\0\0\x09\0\0\0\0\0\0\0\x02\0\0\0\0\0\0\0\0\0\0\0\0\0\0\0\0\0\0\0\0\0\0\0\0\0\0\0\0\0\0\0\0\0\0\0\0\0\0\0";

const ATTRIBUTES: &[u8] =
    b"\x78\0\0\0\0\0\0\0\x09\0\0\0\0\0\0\0\0\0\0\0\0\0\0\0\0\0\0\0\0\0\0\0\x02\0\0\0\0\0\0\0\x05\0\0\0\0\0\0\0\x01\0\0\0\0\0\0\0\0\0\0\0\0\0\0\0\0\0\0\0\0\0\0\0\0\0\0\0\0\0\0\0\0\0\0\0\0\0\0\0\0\0\0\0\xa4\x81\0\0\x01\0\0\0\0\0\0\0\0\0\0\0\0\0\0\0\0\x10\0\0\0\0\0\0";

// OPEN of file "a", which a daemon that stays as it is answers ENOSYS.
const OPEN: &[u8] =
    b"\x30\0\0\0\x0e\0\0\0\x0a\0\0\0\0\0\0\0\x02\0\0\0\0\0\0\0\0\0\0\0\0\0\0\0\0\0\0\0\0\0\0\0\x02\0\0\0\0\0\0\0";

const ENOSYS: &[u8] = b"\x10\0\0\0\xda\xff\xff\xff\x0a\0\0\0\0\0\0\0";

// What a wire of its own answers to a request.
fn answer<R: Wait>(
    rt: &R,
    alloc: Global,
    daemon: &Daemon,
    readable: &[u8],
    room: u32,
    files: &mut PlainFiles,
    map: &mut PageMap,
) -> Result<Blob, WireError>
    requires readable { length readable.now ≤ max_part }
    requires room { room ≤ max_part }
    requires boards { CanShare daemon.now (boards files.old map.old) }
    ensures { CanShare daemon.now (boards files.new map.new) }
{
    HostWire::new(alloc, daemon)?.submit(rt, alloc, readable, room, files, map)
}

// Four wires over one daemon: each brings a request's bytes to it, and the answer's back.
#[test]
fn bytes_go_through(rt: HostRuntime) -> Result<(), Fail> {
    let alloc = rt.alloc();
    let (daemon, mut files, mut map) = started(alloc)?;
    let wrote = answer(&rt, alloc, &daemon, WRITE, 24, &mut files, &mut map);
    assert_eq!(rt; wrote, Ok(Blob::copy_of(alloc, WROTE)?));
    let read = answer(&rt, alloc, &daemon, READ, 25, &mut files, &mut map);
    assert_eq!(rt; read, Ok(Blob::copy_of(alloc, BYTES)?));
    let attributes = answer(&rt, alloc, &daemon, GETATTR, 120, &mut files, &mut map);
    assert_eq!(rt; attributes, Ok(Blob::copy_of(alloc, ATTRIBUTES)?));
    let opened = answer(&rt, alloc, &daemon, OPEN, 32, &mut files, &mut map);
    assert_eq!(rt; opened, Ok(Blob::copy_of(alloc, ENOSYS)?));
    Ok(())
}

// A client over a wire to a daemon that stays as it is.
type Client<'a> = Driver<HostWire<'a>>;

// A call of the client, about file "a" and its handle.
#[derive(Drop)]
enum Call {
    Write,
    Read,
    Setup,
    Remove,
    OpenFile,
}

fn make<R: Wait>(
    rt: &R,
    alloc: Global,
    client: &mut Client,
    files: &mut PlainFiles,
    map: &mut PageMap,
    call: &Call,
) -> Result<Reply, WireRefusal>
    requires { CanShare client.old.wire.daemon.now (boards files.old map.old) }
    ensures { CanShare client.new.wire.daemon.now (boards files.new map.new) }
{
    match call {
        Call::Write => client
            .write(rt, alloc, A, 3, b"hello", files, map)
            .map(wrote),
        Call::Read => client
            .read(rt, alloc, A, 0, 1_048_576, files, map)
            .map(Reply::Bytes),
        Call::Setup => client
            .setup(rt, alloc, 2, 1, 0, Mode::W, files, map)
            .map(done),
        Call::Remove => client.remove(rt, alloc, 2, 0, files, map).map(done),
        Call::OpenFile => client.open_file(rt, alloc, 2, files, map).map(opened),
    }
}

// One wire carries several requests, and those that name no file without a turn: what each answers,
// and what byte 5 of the window is mapped to then.
#[test]
fn session(rt: HostRuntime) -> Result<(), Fail> {
    let alloc = rt.alloc();
    let (daemon, mut files, mut map) = started(alloc)?;
    let mut client = Driver::new(HostWire::new(alloc, &daemon)?);
    let bytes = Blob::copy_of(alloc, b"\0\0\0hello")?;
    let page = Some(Page {
        node: 2,
        foffset: 2_097_152 + 5,
        mode: Mode::W,
    });
    let cases = [
        (Call::Write, Ok(wrote(5)), None),
        (Call::Read, Ok(Reply::Bytes(bytes)), None),
        (Call::Setup, Ok(done(())), page),
        (Call::OpenFile, Err(WireRefusal::Errno { number: 38 }), page),
        (Call::Remove, Ok(done(())), None),
    ];
    for (call, wanted, page) in &cases {
        let answer = make(&rt, alloc, &mut client, &mut files, &mut map, call);
        assert_eq!(rt; &answer, wanted);
        assert_eq!(rt; map.find(5), *page);
    }
    Ok(())
}
