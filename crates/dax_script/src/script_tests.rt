use super::*;
use plain_file::{Blob, Memory};
use std::alloc::{AllocError, Global};
use std::test::Fail;

// Texts that are no scripts, with the first bad line and its first reason.
const REFUSED: &[(&[u8], u64, Why)] = &[
    (b"ranges 1", 1, Why::Limit),
    (b"ranges 0\nfile a 0\nguest\nhold a 0 r", 4, Why::Window),
    (b"ranges 2\nfile a 0\nguest\nread b 0 1", 4, Why::File),
    (b"ranges 2\nfile a 0\nguest\nwrite a 0 6", 4, Why::Hex),
    (b"", 1, Why::Order),
    (b"\n", 2, Why::Order),
    (b"# ranges 0", 2, Why::Order),
    (b"# one\n\n   \n guest", 4, Why::Order),
    (b" # ranges 0\n", 1, Why::Order),
    (b"Ranges 0", 1, Why::Order),
    (b"ranges", 1, Why::Words),
    (b"ranges 0 0", 1, Why::Words),
    (b"ranges x", 1, Why::Number),
    (b"ranges 00", 1, Why::Number),
    (b"ranges 0\r", 1, Why::Number),
    (b"ranges\t0", 1, Why::Order),
    (b"ranges 0\0", 1, Why::Number),
    (b"ranges \xc3\xa9", 1, Why::Number),
    (b"ranges 257", 1, Why::Limit),
    (b"ranges 99999999999999999999", 1, Why::Limit),
    (b"ranges 100000000000000000000", 1, Why::Number),
    (b"ranges 0\nranges 0", 2, Why::Order),
    (b"ranges 0\nbackground 1", 2, Why::Window),
    (b"ranges 0\nbackground 65537", 2, Why::Limit),
    (b"ranges 2\nbackground 0\nbackground 0", 3, Why::Order),
    (b"ranges 2\nfile a 0\nbackground 0", 3, Why::Order),
    (b"ranges 2\nguest\nbackground 0", 3, Why::Order),
    (b"ranges 2\nbackground", 2, Why::Words),
    (b"ranges 2\nbackground -1", 2, Why::Number),
    (b"ranges 2\nfile a", 2, Why::Words),
    (b"ranges 2\nfile a 0 00 00", 2, Why::Words),
    (b"ranges 2\nfile A x", 2, Why::Name),
    (b"ranges 2\nfile a 0\nfile a x", 3, Why::Name),
    (
        b"ranges 2\nfile abcdefghijklmnopqrstuvwxyz0123456 0",
        2,
        Why::Name,
    ),
    (b"ranges 2\nfile a x zz", 2, Why::Number),
    (b"ranges 2\nfile a 67108865 zz", 2, Why::Limit),
    (b"ranges 2\nfile a 0 0", 2, Why::Byte),
    (b"ranges 2\nfile a 0 AA", 2, Why::Byte),
    (b"ranges 2\nguest\nfile a 0", 3, Why::Order),
    (b"ranges 2\nguest x", 2, Why::Words),
    (b"ranges 2\nread a 0 1", 2, Why::Order),
    (b"ranges 2\nguest\nread a 0", 3, Why::Words),
    (b"ranges 2\nguest\nreads a 0 1", 3, Why::Order),
    (b"ranges 2\nfile a 0\nguest\nread a x 0", 4, Why::Number),
    (
        b"ranges 2\nfile a 0\nguest\nread a 99999999999999999999 x",
        4,
        Why::Number,
    ),
    (
        b"ranges 2\nfile a 0\nguest\nread a 18446744073709551616 1",
        4,
        Why::Limit,
    ),
    (b"ranges 2\nfile a 0\nguest\nread a 0 0", 4, Why::Limit),
    (
        b"ranges 2\nfile a 0\nguest\nread a 0 1048577",
        4,
        Why::Limit,
    ),
    (
        b"ranges 2\nfile a 0\nguest\nread a 67108864 1",
        4,
        Why::Limit,
    ),
    (
        b"ranges 2\nfile a 0\nguest\nwrite a 67108865 6A",
        4,
        Why::Hex,
    ),
    (
        b"ranges 2\nfile a 0\nguest\nwrite a 67108864 6a",
        4,
        Why::Limit,
    ),
    (
        b"ranges 2\nfile a 0\nguest\nfill a 67108864 1 a",
        4,
        Why::Byte,
    ),
    (
        b"ranges 2\nfile a 0\nguest\nfill a 67108864 1 0a",
        4,
        Why::Limit,
    ),
    (b"ranges 2\nfile a 0\nguest\nsize b", 4, Why::File),
    (
        b"ranges 2\nfile a 0\nguest\ntruncate a 67108865",
        4,
        Why::Limit,
    ),
    (b"ranges 2\nfile a 0\nguest\nhold a 32 x", 4, Why::Limit),
    (b"ranges 2\nfile a 0\nguest\nhold a 31 x", 4, Why::Mode),
    (
        b"ranges 2\nfile a 0\nguest\nhold a 0 w\nload 1 0 1",
        5,
        Why::Hold,
    ),
    (
        b"ranges 2\nfile a 0\nguest\nhold a 0 w\nload 18446744073709551616 x x",
        5,
        Why::Hold,
    ),
    (
        b"ranges 2\nfile a 0\nguest\nhold a 0 w\nload x 0 1",
        5,
        Why::Number,
    ),
    (
        b"ranges 2\nfile a 0\nguest\nhold a 0 w\nload 0 2097152 1",
        5,
        Why::Limit,
    ),
    (
        b"ranges 2\nfile a 0\nguest\nhold a 0 r\nstore 0 0 6",
        5,
        Why::Hold,
    ),
    (
        b"ranges 2\nfile a 0\nguest\nhold a 0 w\nstore 0 0 6",
        5,
        Why::Hex,
    ),
    (
        b"ranges 2\nfile a 0\nguest\nhold a 0 w\nguest\nrelease 0",
        6,
        Why::Hold,
    ),
];

// Texts that are scripts, and what they print as.
const ACCEPTED: &[(&[u8], &[u8])] = &[
    (b"ranges 0", b"ranges 0\nbackground 0\n"),
    (
        b"# all\n ranges   256 \nbackground 65536\n\nfile a-_9 67108864\nfile b 1 ff",
        b"ranges 256\nbackground 65536\nfile a-_9 67108864 00\nfile b 1 ff\n",
    ),
    (
        b"ranges 2\nfile a 5\nguest\nhold a 31 w\nhold a 0 r\n#\nload 1 0 1048576\nstore 0 2097151 0f\nrelease 1\nguest\n",
        b"ranges 2\nbackground 0\nfile a 5 00\nguest\nhold a 31 w\nhold a 0 r\nload 1 0 1048576\nstore 0 2097151 0f\nrelease 1\nguest\n",
    ),
    (
        b"ranges 0\nfile a 5\nfile b 0 01\nguest\nread b 67108863 1\nwrite a 0 00ff\nfill a 7 1 80\nsize b\ntruncate a 67108864",
        b"ranges 0\nbackground 0\nfile a 5 00\nfile b 0 01\nguest\nread b 67108863 1\nwrite a 0 00ff\nfill a 7 1 80\nsize b\ntruncate a 67108864\n",
    ),
];

fn refusal(alloc: Global, text: &[u8]) -> Option<(u64, Why)> {
    match parse(alloc, text) {
        Err(BadScript::Line { line, why }) => Some((line, why)),
        _ => None,
    }
}

fn printed(alloc: Global, text: &[u8]) -> Result<Option<Blob>, Memory> {
    match parse(alloc, text) {
        Ok(script) if script.fits() => Ok(Some(print(alloc, &script)?)),
        _ => Ok(None),
    }
}

fn prints_as(alloc: Global, text: &[u8], want: &[u8]) -> Result<bool, Memory> {
    let Some(blob) = printed(alloc, text)? else {
        return Ok(false);
    };
    Ok(blob.as_slice() == want)
}

#[test]
fn refuses_by_the_first_reason(rt: HostRuntime) {
    for (text, line, why) in REFUSED {
        assert_eq!(rt; refusal(rt.alloc(), text), Some((*line, *why)));
    }
}

#[test]
fn prints_what_it_read(rt: HostRuntime) -> Result<(), Fail> {
    for (text, want) in ACCEPTED {
        let alloc = rt.alloc();
        assert!(rt; prints_as(alloc, text, want)? && prints_as(alloc, want, want)?);
    }
    Ok(())
}

// A text, then one line so many times, then a line more.
fn repeated(
    alloc: Global,
    head: &str,
    line: &str,
    times: usize,
    last: &str,
) -> Result<String, AllocError> {
    let lines = line.repeat(alloc, times)?;
    format!(in alloc; "{head}{lines}{last}")
}

// The line before the last one is the last that fits.
const FULL: &[(&str, &str, usize, &str, u64)] = &[
    ("ranges 2\n", "guest\n", 16, "guest\n", 18),
    (
        "ranges 2\nfile a 0\nguest\n",
        "hold a 0 r\n",
        32,
        "hold a 0 r\n",
        36,
    ),
    (
        "ranges 2\nfile a 0\nguest\n",
        "size a\n",
        65_536,
        "size a\n",
        65_540,
    ),
    (
        "ranges 2\nfile a 0\nguest\nwrite a 0 ",
        "00",
        1_048_576,
        "00",
        4,
    ),
    (
        "ranges 2\nfile a 0\nguest\n",
        "read a 0 1048576\n",
        64,
        "read a 0 1\n",
        68,
    ),
    (
        "ranges 2\nfile a 0\nfile b 0\nfile c 0\nfile d 0\nfile e 0\nfile f 0\nfile g 0\nfile h 0\n",
        "file i 0\nfile j 0\nfile k 0\nfile l 0\nfile m 0\nfile n 0\nfile o 0\nfile p 0\n",
        1,
        "file q 0\n",
        18,
    ),
];

#[test]
fn counts_have_limits(rt: HostRuntime) -> Result<(), Fail> {
    for (head, line, times, last, at) in FULL {
        let alloc = rt.alloc();
        let fits = repeated(alloc, head, line, *times, "")?;
        let over = repeated(alloc, head, line, *times, last)?;
        assert_eq!(rt;
            (
                refusal(alloc, fits.as_bytes()),
                refusal(alloc, over.as_bytes())
            ),
            (None, Some((*at, Why::Limit)))
        );
    }
    Ok(())
}
