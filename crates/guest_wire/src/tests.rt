use super::*;
use page_map::{Mode, PageMap};
use plain_file::{Blob, List, Memory, Name, PlainFiles};
use std::alloc::Global;
use std::process::Abort;
use std::sync::Wait;
use std::test::Fail;

const A: FileRef = FileRef { node: 2, fh: 1 };

// A client whose wire fails at each request, and whose requests are kept.
type Client = Driver<KeepWire<FakeWire>>;

// A call of the client.
#[derive(Clone, Copy, Drop)]
enum Call {
    Init,
    Lookup,
    OpenFile,
    Write,
    Read,
    SetattrSize,
    Getattr,
    Setup(Mode),
    Remove,
    Release,
    Destroy,
}

const CALLS: [Call; 12] = [
    Call::Init,
    Call::Lookup,
    Call::OpenFile,
    Call::Write,
    Call::Read,
    Call::SetattrSize,
    Call::Getattr,
    Call::Setup(Mode::R),
    Call::Setup(Mode::W),
    Call::Remove,
    Call::Release,
    Call::Destroy,
];

fn failed<V: Drop>(answer: Result<V, WireRefusal>) -> bool {
    match answer {
        Err(WireRefusal::WireFault) => true,
        _ => false,
    }
}

// Makes a call, about file "a" and its handle, and tells whether the wire failed.
fn fails<R: Wait>(
    rt: &R,
    alloc: Global,
    client: &mut Client,
    name: &Name,
    files: &mut PlainFiles,
    map: &mut PageMap,
    call: Call,
) -> bool {
    match call {
        Call::Init => failed(client.init(rt, alloc, true, files, map)),
        Call::Lookup => failed(client.lookup(rt, alloc, name, files, map)),
        Call::OpenFile => failed(client.open_file(rt, alloc, 2, files, map)),
        Call::Write => failed(client.write(rt, alloc, A, 3, b"hello", files, map)),
        Call::Read => failed(client.read(rt, alloc, A, 0, 9, files, map)),
        Call::SetattrSize => failed(client.setattr_size(rt, alloc, A, 4, files, map)),
        Call::Getattr => failed(client.getattr(rt, alloc, A, files, map)),
        Call::Setup(mode) => failed(client.setup(rt, alloc, 2, 1, 2, mode, files, map)),
        Call::Remove => failed(client.remove(rt, alloc, 2, 2, files, map)),
        Call::Release => failed(client.release(rt, alloc, A, files, map)),
        Call::Destroy => failed(client.destroy(rt, alloc, files, map)),
    }
}

// Each call sends one request with the next number, whatever comes of it.
#[test]
fn sends_each_request_once(rt: HostRuntime) -> Result<(), Fail> {
    let alloc = rt.alloc();
    let Some(name) = Name::copy_of(alloc, b"a")? else {
        panic!(&rt; "no name")
    };
    let wire = FakeWire::new(List::new(alloc));
    let mut client = Driver::new(KeepWire::new(alloc, wire));
    let mut files = PlainFiles::new(alloc, 0, &List::new(alloc))?;
    let mut map = PageMap::new(alloc, 0)?;
    for call in CALLS {
        let is_failed = fails(&rt, alloc, &mut client, &name, &mut files, &mut map, call);
        assert!(rt; is_failed);
    }
    assert_eq!(rt; client.unique, 12);
    sent_by_all(&rt, client.wire.requests().as_slice());
    Ok(())
}

// The bytes of INIT, of the mapping for reading, of the unmapping and of DESTROY.
fn sent_by_all(rt: &impl Abort, requests: &[Blob]) {
    assert_eq!(rt; requests.len(), 12);
    let wanted: [(usize, &[u8]); 4] = [
        (
            0,
            &[
                56, 0, 0, 0, 26, 0, 0, 0, 1, 0, 0, 0, 0, 0, 0, 0, 0, 0, 0, 0, 0, 0, 0, 0, 0, 0, 0,
                0, 0, 0, 0, 0, 0, 0, 0, 0, 0, 0, 0, 0, 7, 0, 0, 0, 31, 0, 0, 0, 0, 0, 2, 0, 0, 0,
                0, 4,
            ],
        ),
        (
            7,
            &[
                80, 0, 0, 0, 48, 0, 0, 0, 8, 0, 0, 0, 0, 0, 0, 0, 2, 0, 0, 0, 0, 0, 0, 0, 0, 0, 0,
                0, 0, 0, 0, 0, 0, 0, 0, 0, 0, 0, 0, 0, 255, 255, 255, 255, 255, 255, 255, 255, 0,
                0, 32, 0, 0, 0, 0, 0, 0, 0, 32, 0, 0, 0, 0, 0, 2, 0, 0, 0, 0, 0, 0, 0, 0, 0, 64, 0,
                0, 0, 0, 0,
            ],
        ),
        (
            9,
            &[
                60, 0, 0, 0, 49, 0, 0, 0, 10, 0, 0, 0, 0, 0, 0, 0, 2, 0, 0, 0, 0, 0, 0, 0, 0, 0, 0,
                0, 0, 0, 0, 0, 0, 0, 0, 0, 0, 0, 0, 0, 1, 0, 0, 0, 0, 0, 64, 0, 0, 0, 0, 0, 0, 0,
                32, 0, 0, 0, 0, 0,
            ],
        ),
        (
            11,
            &[
                40, 0, 0, 0, 38, 0, 0, 0, 12, 0, 0, 0, 0, 0, 0, 0, 0, 0, 0, 0, 0, 0, 0, 0, 0, 0, 0,
                0, 0, 0, 0, 0, 0, 0, 0, 0, 0, 0, 0, 0,
            ],
        ),
    ];
    for (at, bytes) in wanted {
        match requests.get(at) {
            Some(request) => assert_eq!(rt; request.as_slice(), bytes, "request {at}"),
            None => panic!(rt; "no request {at}"),
        }
    }
}

// What comes of a request by one step of a wire.
#[derive(Clone, Copy, Debug, PartialEq, Eq)]
enum Told {
    Done,
    Errno(i32),
    Bad,
    Fault,
}

// A client over a wire of these steps; None is a failure.
fn fake(alloc: Global, steps: &[Option<&[u8]>], unique: u64) -> Result<Driver<FakeWire>, Memory> {
    let mut list = List::new(alloc);
    for step in steps {
        let step = match step {
            Some(bytes) => WireStep::Bytes(Blob::copy_of(alloc, bytes)?),
            None => WireStep::Fail,
        };
        list.push(step)?;
    }
    Ok(Driver {
        wire: FakeWire::new(list),
        unique,
    })
}

// Says what a call answered. Bad bytes are those that were received.
fn told_of<V: Drop>(
    rt: &impl Abort,
    what: &str,
    received: Option<&[u8]>,
    answer: Result<V, WireRefusal>,
) -> Result<Told, WireRefusal> {
    match answer {
        Ok(_) => Ok(Told::Done),
        Err(WireRefusal::Errno { number }) => Ok(Told::Errno(number)),
        Err(WireRefusal::BadReply { bytes }) => {
            assert_eq!(rt; Some(bytes.as_slice()), received, "{what}");
            Ok(Told::Bad)
        }
        Err(WireRefusal::WireFault) => Ok(Told::Fault),
        Err(WireRefusal::Memory) => Err(WireRefusal::Memory),
    }
}

// A wire's replies to a read of 1 byte with the number 1, whose room is 17.
#[test]
fn replies_to_a_read(rt: HostRuntime) -> Result<(), Fail> {
    let alloc = rt.alloc();
    let mut files = PlainFiles::new(alloc, 0, &List::new(alloc))?;
    let mut map = PageMap::new(alloc, 0)?;
    let cases: [(&str, Option<&[u8]>, Told); 8] = [
        (
            "a byte",
            Some(&[17, 0, 0, 0, 0, 0, 0, 0, 1, 0, 0, 0, 0, 0, 0, 0, 97]),
            Told::Done,
        ),
        (
            "an error",
            Some(&[16, 0, 0, 0, 251, 255, 255, 255, 1, 0, 0, 0, 0, 0, 0, 0]),
            Told::Errno(5),
        ),
        (
            "an error above 0",
            Some(&[16, 0, 0, 0, 5, 0, 0, 0, 1, 0, 0, 0, 0, 0, 0, 0]),
            Told::Bad,
        ),
        (
            "another number",
            Some(&[17, 0, 0, 0, 0, 0, 0, 0, 2, 0, 0, 0, 0, 0, 0, 0, 97]),
            Told::Bad,
        ),
        (
            "another length",
            Some(&[17, 0, 0, 0, 0, 0, 0, 0, 1, 0, 0, 0, 0, 0, 0, 0]),
            Told::Bad,
        ),
        (
            "15 bytes",
            Some(&[15, 0, 0, 0, 0, 0, 0, 0, 1, 0, 0, 0, 0, 0, 0]),
            Told::Bad,
        ),
        (
            "above the room",
            Some(&[18, 0, 0, 0, 0, 0, 0, 0, 1, 0, 0, 0, 0, 0, 0, 0, 97, 98]),
            Told::Bad,
        ),
        ("a failure", None, Told::Fault),
    ];
    for (what, step, wanted) in cases {
        let mut client = fake(alloc, &[step], 0)?;
        let answer = client.read(&rt, alloc, A, 0, 1, &mut files, &mut map);
        if let Ok(bytes) = &answer {
            assert_eq!(rt; bytes.as_slice(), b"a".as_slice(), "{what}");
        }
        assert_eq!(rt; told_of(&rt, what, step, answer)?, wanted, "{what}");
        assert_eq!(rt; client.unique, 1, "{what}");
    }
    Ok(())
}

// A wire's replies to a mapping and to an unmapping with the number 1, whose room is 16.
#[test]
fn replies_without_a_body(rt: HostRuntime) -> Result<(), Fail> {
    let alloc = rt.alloc();
    let mut files = PlainFiles::new(alloc, 0, &List::new(alloc))?;
    let mut map = PageMap::new(alloc, 0)?;
    let cases: [(&str, Option<&[u8]>, Told); 8] = [
        (
            "nothing",
            Some(&[16, 0, 0, 0, 0, 0, 0, 0, 1, 0, 0, 0, 0, 0, 0, 0]),
            Told::Done,
        ),
        (
            "an error",
            Some(&[16, 0, 0, 0, 251, 255, 255, 255, 1, 0, 0, 0, 0, 0, 0, 0]),
            Told::Errno(5),
        ),
        (
            "an error above 0",
            Some(&[16, 0, 0, 0, 5, 0, 0, 0, 1, 0, 0, 0, 0, 0, 0, 0]),
            Told::Bad,
        ),
        (
            "another number",
            Some(&[16, 0, 0, 0, 0, 0, 0, 0, 2, 0, 0, 0, 0, 0, 0, 0]),
            Told::Bad,
        ),
        (
            "another length",
            Some(&[17, 0, 0, 0, 0, 0, 0, 0, 1, 0, 0, 0, 0, 0, 0, 0]),
            Told::Bad,
        ),
        (
            "15 bytes",
            Some(&[15, 0, 0, 0, 0, 0, 0, 0, 1, 0, 0, 0, 0, 0, 0]),
            Told::Bad,
        ),
        (
            "above the room",
            Some(&[17, 0, 0, 0, 0, 0, 0, 0, 1, 0, 0, 0, 0, 0, 0, 0, 97]),
            Told::Bad,
        ),
        ("a failure", None, Told::Fault),
    ];
    for (what, step, wanted) in cases {
        let mut client = fake(alloc, &[step], 0)?;
        let answer = client.setup(&rt, alloc, 2, 0, 1, Mode::R, &mut files, &mut map);
        assert_eq!(rt; told_of(&rt, what, step, answer)?, wanted, "{what}");
        let mut client = fake(alloc, &[step], 0)?;
        let answer = client.remove(&rt, alloc, 2, 1, &mut files, &mut map);
        assert_eq!(rt; told_of(&rt, what, step, answer)?, wanted, "{what}");
    }
    Ok(())
}

// Numbers go on to the last u64 and then from 1 again; a wire without steps fails.
#[test]
fn numbers_begin_again(rt: HostRuntime) -> Result<(), Fail> {
    let alloc = rt.alloc();
    let mut files = PlainFiles::new(alloc, 0, &List::new(alloc))?;
    let mut map = PageMap::new(alloc, 0)?;
    let last: &[u8] = &[
        16, 0, 0, 0, 0, 0, 0, 0, 255, 255, 255, 255, 255, 255, 255, 255,
    ];
    let first: &[u8] = &[16, 0, 0, 0, 0, 0, 0, 0, 1, 0, 0, 0, 0, 0, 0, 0];
    let mut client = fake(alloc, &[Some(last), Some(first)], u64::MAX - 1)?;
    assert_eq!(rt; client.destroy(&rt, alloc, &mut files, &mut map), Ok(()));
    assert_eq!(rt; client.unique, u64::MAX);
    assert_eq!(rt; client.destroy(&rt, alloc, &mut files, &mut map), Ok(()));
    assert_eq!(rt; client.unique, 1);
    let answer = client.release(&rt, alloc, A, &mut files, &mut map);
    assert_eq!(rt; answer, Err(WireRefusal::WireFault));
    assert_eq!(rt; client.unique, 2);
    Ok(())
}
