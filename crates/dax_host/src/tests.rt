ghost use Rattle.std.specs.Prelude.{◌≡◌, ◌≤◌, length, IfOk};
ghost use Rattle.std.specs.List.{IsDistinct};
ghost use Rattle.std.specs.Str.{bytes_eq};
ghost use Rattle.fuse_device.specs.Promises.{IsServable, world};

use super::*;
use daemon_core::Daemon;
use fuse_codec::Reply;
use fuse_wire::{AttrOut, AttrRec, EntryOut, InitOut, OpenOut, WriteOut};
use guest_wire::{Driver, FileRef, WireRefusal};
use page_map::{Mode, Page, PageMap};
use plain_file::{Blob, First, List, Memory, Name, PlainFiles};
use std::alloc::Global;
use std::sync::Wait;
use std::test::Fail;

// One file's name: "a".
#[tactic(auto, using(fuse_device::proofs::Servable::one_distinct, fuse_device::proofs::Servable::none_distinct))]
fn one_name(alloc: Global) -> Result<List<Name>, Memory>
    ensures few { IfOk result (λ names. length names ≤ 16) }
    ensures different { IfOk result (λ names. IsDistinct bytes_eq names) }
{
    let mut names = List::new(alloc);
    if let Some(name) = Name::copy_of(alloc, b"a")? {
        names.push(name)?;
    }
    Ok(names)
}

// A device with file "a" and a window of 2,048 pages, which are four ranges.
#[tactic(auto, using(fuse_device::proofs::Servable::servable_at_start))]
fn device(alloc: Global) -> Result<(Daemon, PlainFiles, PageMap), Memory>
    ensures { IfOk result (λ r. IsServable (world r.0 r.1 r.2)) }
{
    let firsts = List::from_vec(Vec::from_slice(alloc, &[First { size: 0, fill: 0 }; 16])?);
    let names = one_name(alloc)?;
    Ok((
        Daemon::new(alloc, 2048, &names)?,
        PlainFiles::new(alloc, 0, &firsts)?,
        PageMap::new(alloc, 2048)?,
    ))
}

// A client of a device that requests reach through a queue.
type Client = Driver<SoloWire>;

const A: FileRef = FileRef { node: 2, fh: 1 };

// A call of the client.
#[derive(Drop)]
enum Call<'a> {
    Init,
    Lookup(&'a Name),
    OpenFile,
    Write,
    Read,
    ReadClosed,
    SetattrSize,
    Getattr,
    Setup,
    Remove,
    Release,
    Destroy,
}

// Makes a call, about file "a" and its handle.
fn make<R: Wait>(
    rt: &R,
    alloc: Global,
    client: &mut Client,
    files: &mut PlainFiles,
    map: &mut PageMap,
    call: &Call,
) -> Result<Reply, WireRefusal>
    requires { IsServable (world client.old.wire.daemon files.old map.old) }
    ensures { IsServable (world client.new.wire.daemon files.new map.new) }
{
    match call {
        Call::Init => client.init(rt, alloc, true, files, map).map(Reply::Init),
        Call::Lookup(name) => client.lookup(rt, alloc, name, files, map).map(Reply::Entry),
        Call::OpenFile => client.open_file(rt, alloc, 2, files, map).map(opened),
        Call::Write => client
            .write(rt, alloc, A, 3, b"hello", files, map)
            .map(wrote),
        Call::Read => client
            .read(rt, alloc, A, 0, 1_048_576, files, map)
            .map(Reply::Bytes),
        Call::ReadClosed => client
            .read(rt, alloc, FileRef { node: 2, fh: 9 }, 0, 1, files, map)
            .map(Reply::Bytes),
        Call::SetattrSize => client
            .setattr_size(rt, alloc, A, 4, files, map)
            .map(Reply::Attr),
        Call::Getattr => client.getattr(rt, alloc, A, files, map).map(Reply::Attr),
        Call::Setup => client
            .setup(rt, alloc, 2, 1, 2, Mode::W, files, map)
            .map(done),
        Call::Remove => client.remove(rt, alloc, 2, 2, files, map).map(done),
        Call::Release => client.release(rt, alloc, A, files, map).map(done),
        Call::Destroy => client.destroy(rt, alloc, files, map).map(done),
    }
}

pub(crate) fn opened(fh: u64) -> Reply {
    Reply::Opened(OpenOut { fh, open_flags: 0 })
}

pub(crate) fn wrote(size: u32) -> Reply {
    Reply::Wrote(WriteOut { size })
}

pub(crate) fn done(_: ()) -> Reply {
    Reply::Done
}

// The attributes of file "a" with so many bytes, in so many blocks.
fn attributes(size: u64, blocks: u64) -> AttrRec {
    AttrRec {
        ino: 2,
        size,
        blocks,
        atime: 0,
        mtime: 0,
        ctime: 0,
        atimensec: 0,
        mtimensec: 0,
        ctimensec: 0,
        mode: 0o100644,
        nlink: 1,
        uid: 0,
        gid: 0,
        rdev: 0,
        blksize: 4096,
        flags: 0,
    }
}

fn four_bytes() -> Reply {
    Reply::Attr(AttrOut {
        attr_valid: 0,
        attr_valid_nsec: 0,
        attr: attributes(4, 1),
    })
}

fn entry_reply() -> Reply {
    Reply::Entry(EntryOut {
        nodeid: 2,
        generation: 0,
        entry_valid: 0,
        attr_valid: 0,
        entry_valid_nsec: 0,
        attr_valid_nsec: 0,
        attr: attributes(0, 0),
    })
}

fn init_reply() -> Reply {
    Reply::Init(InitOut {
        major: 7,
        minor: 31,
        max_readahead: 131_072,
        flags: 67_108_864,
        max_background: 16,
        congestion_threshold: 12,
        max_write: 1_048_576,
        time_gran: 1,
        max_pages: 0,
        map_alignment: 12,
        flags2: 0,
    })
}

// Each call through the queue, from before INIT to DESTROY: what it answers, and what byte 5 of range
// 2 is mapped to then.
#[test]
fn session(rt: HostRuntime) -> Result<(), Fail> {
    let alloc = rt.alloc();
    let (daemon, mut files, mut map) = device(alloc)?;
    let mut client = Driver::new(SoloWire::new(alloc, daemon)?);
    let Some(name) = Name::copy_of(alloc, b"a")? else {
        panic!(&rt; "no name")
    };
    let bytes = Blob::copy_of(alloc, b"\0\0\0hello")?;
    let page = Some(Page {
        node: 2,
        foffset: 2_097_152 + 5,
        mode: Mode::W,
    });
    let cases = [
        (Call::OpenFile, Err(WireRefusal::Errno { number: 5 }), None),
        (Call::Init, Ok(init_reply()), None),
        (Call::Lookup(&name), Ok(entry_reply()), None),
        (Call::OpenFile, Ok(opened(1)), None),
        (Call::Write, Ok(wrote(5)), None),
        (Call::Read, Ok(Reply::Bytes(bytes)), None),
        (
            Call::ReadClosed,
            Err(WireRefusal::Errno { number: 9 }),
            None,
        ),
        (Call::SetattrSize, Ok(four_bytes()), None),
        (Call::Getattr, Ok(four_bytes()), None),
        (Call::Setup, Ok(Reply::Done), page),
        (Call::Remove, Ok(Reply::Done), None),
        (Call::Setup, Ok(Reply::Done), page),
        (Call::Release, Ok(Reply::Done), page),
        (Call::Destroy, Ok(Reply::Done), None),
    ];
    for (call, wanted, page) in &cases {
        let answer = make(&rt, alloc, &mut client, &mut files, &mut map, call);
        assert_eq!(rt; &answer, wanted);
        assert_eq!(rt; map.find(4_194_304 + 5), *page);
    }
    Ok(())
}
