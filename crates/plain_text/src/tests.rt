use super::*;
use plain_file::Memory;
use std::alloc::Global;
use std::test::Fail;

const NUMBERS: &[(&[u8], Option<u128>)] = &[
    (b"0", Some(0)),
    (b"10", Some(10)),
    (b"9999999999999999999", Some(9_999_999_999_999_999_999)),
    (b"18446744073709551616", Some(18_446_744_073_709_551_616)),
    (b"99999999999999999999", Some(99_999_999_999_999_999_999)),
    (b"100000000000000000000", None),
    (b"", None),
    (b"00", None),
    (b"-1", None),
    (b"1_0", None),
    (b"1234567890123456789a", None),
];

#[test]
fn numbers_are_digits(rt: HostRuntime) {
    for (word, want) in NUMBERS {
        assert_eq!(rt; number(word), *want);
    }
}

const LIMITS: &[(&[u8], u64, Option<u64>)] = &[
    (b"7", 7, Some(7)),
    (b"8", 7, None),
    (
        b"18446744073709551615",
        18_446_744_073_709_551_615,
        Some(18_446_744_073_709_551_615),
    ),
    (b"18446744073709551616", 18_446_744_073_709_551_615, None),
];

#[test]
fn numbers_have_limits(rt: HostRuntime) {
    for (word, limit, want) in LIMITS {
        assert_eq!(rt; number_up_to(word, *limit), *want);
    }
}

const HEX: &[(&[u8], Option<&[u8]>, Option<u8>)] = &[
    (b"0af9", Some(b"\x0a\xf9"), None),
    (b"ff", Some(b"\xff"), Some(255)),
    (b"", None, None),
    (b"f", None, None),
    (b"0aF9", None, None),
    (b"0g", None, None),
];

fn reads_as(alloc: Global, word: &[u8], want: Option<&[u8]>) -> Result<bool, Memory> {
    Ok(match (hex_bytes(alloc, word)?, want) {
        (Some(bytes), Some(want)) => bytes.as_slice() == want,
        (None, None) => true,
        _ => false,
    })
}

#[test]
fn bytes_are_pairs_of_digits(rt: HostRuntime) -> Result<(), Fail> {
    for (word, bytes, byte) in HEX {
        assert!(rt; reads_as(rt.alloc(), word, *bytes)? && hex_byte(word) == *byte);
    }
    Ok(())
}

// The words of a line, each with a stroke behind it.
fn put_words(out: &mut Vec<u8>, line: &[u8]) -> Result<(), Memory> {
    let mut rest = line;
    for _ in 0..9 {
        let Some((word, after)) = next_word(rest) else {
            return put(out, b"|");
        };
        put(out, word)?;
        put(out, b",")?;
        rest = after;
    }
    Ok(())
}

#[test]
fn texts_are_put_and_cut(rt: HostRuntime) -> Result<(), Fail> {
    let mut out = Vec::new(rt.alloc());
    for line in [b"  a  bc ".as_slice(), b"   ", b"", b"d"] {
        put_words(&mut out, line)?;
    }
    put_number(&mut out, 18_446_744_073_709_551_615)?;
    put_signed(&mut out, -5)?;
    put_hex(&mut out, b"\x00\x1f\xff")?;
    assert_eq!(rt;
        out.as_slice(),
        b"a,bc,|||d,|18446744073709551615-5001fff".as_slice()
    );
    let (first, rest) = cut(b"x y z", b' ');
    assert!(rt; first == b"x".as_slice() && rest == Some(b"y z".as_slice()));
    Ok(())
}
