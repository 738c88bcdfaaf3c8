use super::*;
use plain_file::{Blob, List, Memory};
use std::alloc::Global;
use std::io::{ErrorKind, Write};
use std::test::Fail;

const TEXT: &[u8] = b"transcript 1\n";

fn blob(alloc: Global, bytes: &[u8]) -> Result<Blob, Memory> {
    Blob::copy_of(alloc, bytes)
}

fn calls(alloc: Global, fails: &[u64]) -> Result<List<u64>, Memory> {
    Ok(List::from_vec(Vec::from_slice(alloc, fails)?))
}

/// What `read_all` answers over the text in memory.
fn read_text(
    alloc: Global,
    piece: u32,
    fails: &[u64],
    limit: usize,
) -> Result<Result<Blob, ReadError>, Memory> {
    let mut source = MemSource::new(blob(alloc, TEXT)?, piece, calls(alloc, fails)?);
    Ok(read_all(alloc, &mut source, limit))
}

#[test]
fn reads_all_in_any_pieces(rt: HostRuntime) -> Result<(), Fail> {
    for (piece, limit) in [(1, 100), (3, 100), (0, 100), (3, 13), (0, 13)] {
        let text = read_text(rt.alloc(), piece, &[], limit)??;
        assert_eq!(rt; text.as_slice(), TEXT, "piece {piece}");
    }
    Ok(())
}

#[test]
fn reading_fails(rt: HostRuntime) -> Result<(), Fail> {
    for (piece, fails, limit, want) in [
        (0, 1, 100, ReadError::Failed),
        (3, 1, 100, ReadError::Failed),
        (3, 2, 100, ReadError::Failed),
        (3, 6, 100, ReadError::Failed),
        (3, 7, 12, ReadError::TooLong),
        (0, 3, 12, ReadError::TooLong),
    ] {
        let result = read_text(rt.alloc(), piece, &[fails], limit)?;
        assert_eq!(rt; result.err(), Some(want), "piece {piece}, call {fails}");
    }
    Ok(())
}

#[test]
fn a_fault_takes_no_byte(rt: HostRuntime) -> Result<(), Fail> {
    let alloc = rt.alloc();
    let mut source = MemSource::new(blob(alloc, TEXT)?, 4, calls(alloc, &[2])?);
    let mut buf = [0u8; 20];
    assert_eq!(rt; source.read(&mut buf), Ok(4));
    assert_eq!(rt; source.read(&mut buf), Err(Failed));
    let rest = read_all(alloc, &mut source, 100)?;
    assert_eq!(rt; rest.as_slice(), b"script 1\n".as_slice());
    Ok(())
}

#[test]
fn writing_keeps_a_front(rt: HostRuntime) -> Result<(), Fail> {
    let alloc = rt.alloc();
    for (piece, fails, want, taken) in [
        (1, 2, Err(Failed), 1),
        (10, 2, Err(Failed), 10),
        (0, 2, Ok(()), 13),
        (0, 1, Err(Failed), 0),
        (1, 14, Ok(()), 13),
    ] {
        let mut sink = MemSink::new(alloc, piece, calls(alloc, &[fails])?);
        assert_eq!(rt;
            write_all(&mut sink, TEXT),
            want,
            "piece {piece}, call {fails}"
        );
        assert_eq!(rt;
            sink.bytes().as_slice(),
            &TEXT[..taken],
            "piece {piece}, call {fails}"
        );
    }
    Ok(())
}

#[test]
fn sure_ends_never_fail(rt: HostRuntime) -> Result<(), Fail> {
    let alloc = rt.alloc();
    let mut source = SureSource::new(blob(alloc, TEXT)?);
    let text = read_all(alloc, &mut source, 13)?;
    assert_eq!(rt; text.as_slice(), TEXT);
    assert_eq!(rt; source.read(&mut [0u8; 1]), Ok(0));
    let mut sink = SureSink::new();
    assert_eq!(rt; write_all(&mut sink, TEXT), Ok(()));
    assert_eq!(rt; sink.write(TEXT), Ok(13));
    Ok(())
}

#[test]
fn std_streams_pass_on(rt: HostRuntime) -> Result<(), Fail> {
    let alloc = rt.alloc();
    let mut source = StdSource::new(TEXT);
    let text = read_all(alloc, &mut source, 13)?;
    assert_eq!(rt; text.as_slice(), TEXT);

    let mut written: Vec<u8> = Vec::new(alloc);
    let mut sink = StdSink::new(&mut written);
    assert_eq!(rt; write_all(&mut sink, TEXT), Ok(()));
    assert_eq!(rt; written.as_slice(), TEXT);

    let mut room = [0u8; 10];
    let mut sink = StdSink::new(room.as_mut_slice());
    assert_eq!(rt; write_all(&mut sink, TEXT), Err(Failed));
    assert_eq!(rt; room.as_slice(), b"transcript".as_slice());
    Ok(())
}

/// A writer that delivers what it has at a flush alone, and may refuse that.
#[derive(Drop)]
struct Pipe {
    waiting: usize,
    delivered: usize,
    is_broken: bool,
}

impl Write for Pipe {
    fn write(&mut self, buf: &[u8]) -> std::io::Result<usize> {
        self.waiting = self.waiting.saturating_add(buf.len());
        Ok(buf.len())
    }

    fn flush(&mut self) -> std::io::Result<()> {
        if self.is_broken {
            return Err(ErrorKind::BrokenPipe.into());
        }
        self.delivered = self.waiting;
        Ok(())
    }
}

#[test]
fn std_sinks_flush(rt: HostRuntime) {
    for (is_broken, want, delivered) in [(false, Ok(13), 13), (true, Err(Failed), 0)] {
        let mut pipe = Pipe {
            waiting: 0,
            delivered: 0,
            is_broken,
        };
        let mut sink = StdSink::new(&mut pipe);
        assert_eq!(rt; sink.write(TEXT), want);
        assert_eq!(rt; pipe.delivered, delivered);
    }
}

#[test]
fn words_stand_behind_the_name(rt: HostRuntime) -> Result<(), Fail> {
    let alloc = rt.alloc();
    let mut args = Vec::new(alloc);
    for arg in ["program", "script", ""] {
        args.push(String::from_str(alloc, arg)?)?;
    }
    let words = command_words(alloc, Ok(args.into_iter()))?;
    assert_eq!(rt; words.len(), 2);
    assert_eq!(rt;
        words.get(0).map(|word| word.as_slice()),
        Some(b"script".as_slice())
    );
    assert_eq!(rt;
        words.get(1).map(|word| word.as_slice()),
        Some(b"".as_slice())
    );
    for (kind, want) in [
        (ErrorKind::InvalidData, Ok(0)),
        (ErrorKind::OutOfMemory, Err(Memory)),
    ] {
        let words = command_words(alloc, Err(kind.into()));
        assert_eq!(rt; words.map(|words| words.len()), want);
    }
    Ok(())
}

#[test]
fn statuses_have_their_numbers(rt: HostRuntime) {
    for (status, want) in [
        (Status::Ok, 0),
        (Status::Refused, 1),
        (Status::Usage, 2),
        (Status::ReadFault, 3),
        (Status::WriteFault, 4),
        (Status::Memory, 5),
        (Status::TooLong, 6),
        (Status::NotLegal, 7),
    ] {
        assert_eq!(rt; status.number(), want);
    }
}
