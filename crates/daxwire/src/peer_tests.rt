ghost use Rattle.std.specs.Prelude.{None};

use crate::runs::run_wire;
use crate::tables::{put_hex, words_of};
use plain_file::{Blob, List};
use program_io::{Failed, Sink, Source, Status, SureSink, SureSource};
use std::cell::Cell;
use std::test::Fail;

// A source that hands out one piece after another, the next one only once the answer to the one
// before was taken; else it fails.
#[derive(Drop)]
struct Asking<'a> {
    pieces: &'a [&'a [u8]],
    asked: usize,
    answered: &'a Cell<usize>,
    faults: u64,
}

impl Source for Asking<'_> {
    ghost left = { λ s. None };

    ghost faults = { λ s. s.faults };

    fn read(&mut self, buf: &mut [u8]) -> Result<usize, Failed> {
        if self.answered.get() < self.asked {
            self.faults = self.faults.saturating_add(1);
            return Err(Failed);
        }
        let Some(piece) = self.pieces.get(self.asked) else {
            return Ok(0);
        };
        self.asked = self.asked.saturating_add(1);
        let n = piece.len().min(buf.len());
        buf[..n].copy_from_slice(piece.split_at(n).0);
        Ok(n)
    }
}

// A sink that counts the pieces that it took, and knows how long the longest was.
#[derive(Drop)]
struct Counting<'a> {
    answered: &'a Cell<usize>,
    longest: usize,
}

impl Sink for Counting<'_> {
    ghost taken = { λ s. None };

    ghost faults = { λ s. 0 };

    fn write(&mut self, bytes: &[u8]) -> Result<usize, Failed> {
        self.answered.set(self.answered.get().saturating_add(1));
        self.longest = self.longest.max(bytes.len());
        Ok(bytes.len())
    }
}

// Each answer is written before the next frame is read: INIT's, those of a load and a store, and those of
// two more loads.
#[test]
fn a_peer_that_waits(rt: HostRuntime) -> Result<(), Fail> {
    let alloc = rt.alloc();
    let mut bytes = Vec::new(alloc);
    put_hex(
        &mut bytes,
        "4441585749524531 00040000 01 0100 0100 38000000 50000000 38000000 1a000000 0100000000000000 0000000000000000 00000000000000000000000000000000 07000000 1f000000 00000200 00000004 02 0000000000000000 04000000 03 0000000000000000 01000000 cc 02 0000000000000000 04000000 02 0000000000000000 04000000",
    )?;
    let (first, rest) = bytes.split_at(81.min(bytes.len()));
    let (second, rest) = rest.split_at(13.min(rest.len()));
    let (third, rest) = rest.split_at(14.min(rest.len()));
    let (fourth, fifth) = rest.split_at(13.min(rest.len()));
    let pieces = [first, second, third, fourth, fifth];
    let answered = Cell::new(0);
    let words = words_of(alloc, "serve")?;
    let mut source = Asking {
        pieces: &pieces,
        asked: 0,
        answered: &answered,
        faults: 0,
    };
    let mut sink = Counting {
        answered: &answered,
        longest: 0,
    };
    let status = run_wire(alloc, words.as_slice(), &mut source, &mut sink);
    assert_eq!(rt; status, Status::Ok);
    assert_eq!(rt; source.faults, 0);
    assert_eq!(rt; answered.get(), 5);
    Ok(())
}

// A file of 2 MiB is made and mapped; 20 loads of a megabyte that are read at once are answered one by one.
#[test]
fn a_megabyte_is_written_at_once(rt: HostRuntime) -> Result<(), Fail> {
    let alloc = rt.alloc();
    let mut stream = Vec::new(alloc);
    put_hex(
        &mut stream,
        "4441585749524531 00040000 01 0100 0100 38000000 50000000 38000000 1a000000 0100000000000000 0000000000000000 00000000 00000000 00000000 0000 0000 07000000 1f000000 00000200 00000004 01 0100 0100 3a000000 a0000000 3a000000 23000000 0200000000000000 0100000000000000 00000000 00000000 00000000 0000 0000 00000000 a4810000 00000000 00000000 6100 01 0100 0100 80000000 78000000 80000000 04000000 0600000000000000 0200000000000000 00000000 00000000 00000000 0000 0000 08000000 00000000 0000000000000000 0000200000000000 0000000000000000 0000000000000000 0000000000000000 0000000000000000 00000000 00000000 00000000 00000000 00000000 00000000 00000000 00000000 01 0100 0100 50000000 10000000 50000000 30000000 0900000000000000 0200000000000000 00000000 00000000 00000000 0000 0000 ffffffffffffffff 0000000000000000 0000200000000000 0300000000000000 0000000000000000",
    )?;
    for _ in 0..20 {
        put_hex(&mut stream, "02 0000000000000000 00001000")?;
    }
    let answered = Cell::new(0);
    let words = words_of(alloc, "serve")?;
    let mut sink = Counting {
        answered: &answered,
        longest: 0,
    };
    let mut source = SureSource::new(List::from_vec(stream));
    let status = run_wire(alloc, words.as_slice(), &mut source, &mut sink);
    assert_eq!(rt; status, Status::Ok);
    assert_eq!(rt; answered.get(), 20);
    assert!(rt; sink.longest > 1_048_576 && sink.longest < 1_050_000);
    Ok(())
}

// Words that aren't text, or empty, are no command.
#[test]
fn nothing_fails_over_sure_ends(rt: HostRuntime) -> Result<(), Fail> {
    let alloc = rt.alloc();
    for (word, status) in [
        (b"show".as_slice(), Status::Ok),
        (b"".as_slice(), Status::Usage),
        (b"\xff\xfe".as_slice(), Status::Usage),
    ] {
        let mut words = List::new(alloc);
        words.push(Blob::copy_of(alloc, word)?)?;
        let mut stream = Vec::new(alloc);
        put_hex(&mut stream, "4441585749524531 00040000 01 0000 0000")?;
        let mut source = SureSource::new(List::from_vec(stream));
        let got = run_wire(alloc, words.as_slice(), &mut source, &mut SureSink::new());
        assert_eq!(rt; got, status, "{word:?}");
    }
    Ok(())
}
