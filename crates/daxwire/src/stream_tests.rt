use crate::serve_table::SERVE;
use crate::show_table::SHOW;
use crate::tables::{Ends, SURE, put_hex, ran, run_table};
use plain_file::{Blob, List};
use program_io::Status;
use std::alloc::Global;
use std::process::Abort;
use std::test::Fail;

// The header of a window of 1,024 pages, and a load that ends at byte 25.
const HEADER_AND_LOAD: &str = "4441585749524531 00040000 02 0010000000000000 00040000";

// The same stream, and a store, a chain without parts and INIT.
const SHORT: &str =
    "4441585749524531 00040000 02 0010000000000000 00040000 03 0200000000000000 03000000 0aff00 01 0000 0000 01 0100 0100 38000000 50000000 38000000 1a000000 0100000000000000 0000000000000000 00000000000000000000000000000000 07000000 1f000000 00000200 00000004";

fn bytes_of(alloc: Global, text: &str) -> Result<Vec<u8>, Fail> {
    let mut bytes = Vec::new(alloc);
    put_hex(&mut bytes, text)?;
    Ok(bytes)
}

#[test]
fn shows_streams(rt: HostRuntime) -> Result<(), Fail> {
    let count = run_table(&rt, rt.alloc(), SHOW)?;
    assert_eq!(rt; count, 128);
    Ok(())
}

#[test]
fn serves_streams(rt: HostRuntime) -> Result<(), Fail> {
    let count = run_table(&rt, rt.alloc(), SERVE)?;
    assert_eq!(rt; count, 97);
    Ok(())
}

// Each kind of frame, cut at each of its bytes; and frames at their bounds of which a byte is missing.
#[test]
fn cut_frames(rt: HostRuntime) -> Result<(), Fail> {
    let alloc = rt.alloc();
    let told = "load moffset=4096 len=1024\nmalformed 4 at 25\n";
    for (frame, len) in [
        (
            "01 0100 0100 38000000 50000000 38000000 1a000000 0100000000000000 0000000000000000 00000000000000000000000000000000 07000000 1f000000 00000200 00000004",
            69,
        ),
        ("02 0010000000000000 00040000", 13),
        ("03 0200000000000000 03000000 0aff00", 16),
        ("01 0000 0000", 5),
        ("01 0004 0004 00", 2),
        ("01 0100 0000 00101000 00", 2),
        ("01 0000 0200 00101000 00", 1),
        ("03 0000000000000000 00001000 00", 2),
    ] {
        let mut stream = bytes_of(alloc, HEADER_AND_LOAD)?;
        put_hex(&mut stream, frame)?;
        for _off in 1..len {
            stream.pop();
            let (status, taken) = ran(alloc, "show", Blob::copy_of(alloc, &stream)?, SURE, SURE)?;
            assert_eq!(rt; status, Status::Refused, "{frame}");
            assert_eq!(rt; taken.as_slice(), told.as_bytes(), "{frame}");
        }
    }
    Ok(())
}

// Asserts that a sink which takes so many bytes a call and fails at one call has taken what the calls
// before it took.
fn check_each_call(
    rt: &impl Abort,
    alloc: Global,
    command: &str,
    piece: u32,
    calls: u64,
) -> Result<(), Fail> {
    let stream = bytes_of(alloc, SHORT)?;
    let (_, whole) = ran(alloc, command, Blob::copy_of(alloc, &stream)?, SURE, SURE)?;
    for done in 0..calls {
        let to = Ends {
            piece,
            fails: done + 1,
        };
        let (status, taken) = ran(alloc, command, Blob::copy_of(alloc, &stream)?, SURE, to)?;
        assert_eq!(rt;
            (status, taken.len() as u64),
            (Status::WriteFault, u64::from(piece).saturating_mul(done))
        );
        assert!(rt; whole.as_slice().starts_with(taken.as_slice()));
    }
    let to = Ends {
        piece,
        fails: calls.saturating_add(1),
    };
    let (status, taken) = ran(alloc, command, Blob::copy_of(alloc, &stream)?, SURE, to)?;
    assert_eq!(rt; status, Status::Ok);
    assert_eq!(rt; taken.as_slice(), whole.as_slice());
    Ok(())
}

// The lines have 140 bytes, and the answers 98.
#[test]
fn a_sink_fails_at_each_call(rt: HostRuntime) -> Result<(), Fail> {
    for (command, piece, calls) in [("show", 7, 20), ("serve", 7, 14), ("serve", 1, 98)] {
        check_each_call(&rt, rt.alloc(), command, piece, calls)?;
    }
    Ok(())
}

// A stream with 255 chains of 1,052,681 bytes each, which end at byte 268,433,667, and with these
// bytes behind them.
fn long_stream(alloc: Global, front: &str, zeros: usize, after: &str) -> Result<Vec<u8>, Fail> {
    let mut frame = bytes_of(alloc, "01 0100 0000 00101000")?;
    frame.extend_from_slice(&vec![in alloc; 0; 1_052_672]?)?;
    let mut stream = Vec::with_capacity(alloc, 268_440_000)?;
    put_hex(&mut stream, "4441585749524531 00040000")?;
    for _ in 0..255 {
        stream.extend_from_slice(&frame)?;
    }
    put_hex(&mut stream, front)?;
    stream.extend_from_slice(&vec![in alloc; 0; zeros]?)?;
    put_hex(&mut stream, after)?;
    Ok(stream)
}

// 1,789 bytes are left up to the limit: a chain with a part of 1,780 bytes ends there; a byte behind the
// limit, of which nothing is looked at; a frame that ends behind the limit, and one that the input cuts
// at the limit; the last byte up to the limit is of no kind, and there are more.
#[test]
fn streams_round_the_limit(rt: HostRuntime) -> Result<(), Fail> {
    let alloc = rt.alloc();
    for (front, zeros, after, status, last) in [
        (
            "01 0100 0000 f4060000",
            1780,
            "",
            Status::Ok,
            "bad length said=0 had=1780\n",
        ),
        (
            "01 0100 0000 f4060000",
            1780,
            "ff",
            Status::TooLong,
            "bad length said=0 had=1780\ntoo long\n",
        ),
        (
            "01 0100 0000 f5060000",
            1781,
            "",
            Status::TooLong,
            "too long\n",
        ),
        (
            "01 0100 0000 f5060000",
            1780,
            "",
            Status::Refused,
            "malformed 4 at 268433667\n",
        ),
        (
            "01 0100 0000 f3060000",
            1779,
            "ffff",
            Status::Refused,
            "bad length said=0 had=1779\nmalformed 2 at 268435455\n",
        ),
    ] {
        let stream = long_stream(alloc, front, zeros, after)?;
        let (got, taken) = ran(alloc, "show", List::from_vec(stream), SURE, SURE)?;
        assert_eq!(rt; got, status, "{last}");
        let mut told = String::new(alloc);
        for _ in 0..255 {
            told.push_str("bad length said=0 had=1052672\n")?;
        }
        told.push_str(last)?;
        assert!(rt; taken.as_slice() == told.as_bytes(), "{last}");
    }
    Ok(())
}
