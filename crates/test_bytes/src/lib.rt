//! Bytes of tests in one notation: hexadecimal text.
//!
//! Only tests use it. It stands on std alone, so that the tests of every crate can.
#![tactic(auto)]

use std::alloc::{AllocError, Global};

/// The bytes of hexadecimal text: two digits a byte, `0` to `9` and `a` to `f`. Spaces, line ends and
/// whatever else is no digit are passed over, also within a byte; a last digit that is alone is too.
pub fn bytes_of(alloc: Global, text: &str) -> Result<Vec<u8>, AllocError> {
    let mut out = Vec::new(alloc);
    put_bytes(&mut out, text)?;
    Ok(out)
}

/// The bytes of hexadecimal text, then so many bytes `x`, then the bytes of another text.
pub fn bytes_around(
    alloc: Global,
    front: &str,
    count: usize,
    back: &str,
) -> Result<Vec<u8>, AllocError> {
    let mut out = Vec::from_elem(alloc, b'x', count)?;
    let mut bytes = bytes_of(alloc, front)?;
    bytes.append(&mut out)?;
    put_bytes(&mut bytes, back)?;
    Ok(bytes)
}

fn put_bytes(out: &mut Vec<u8>, text: &str) -> Result<(), AllocError> {
    let mut high = None;
    for byte in text.as_bytes() {
        let Some(digit) = digit_of(*byte) else {
            continue;
        };
        match high {
            None => high = Some(digit),
            Some(upper) => {
                out.push(upper << 4 | digit)?;
                high = None;
            }
        }
    }
    Ok(())
}

fn digit_of(byte: u8) -> Option<u8> {
    match byte {
        b'0'..=b'9' => Some(byte - b'0'),
        b'a'..=b'f' => Some(byte - b'a' + 10),
        _ => None,
    }
}

#[cfg(test)]
mod tests {
    use super::*;
    use std::test::Fail;

    #[test]
    fn texts(rt: HostRuntime) -> Result<(), Fail> {
        let rows: [(&str, usize, &str, &[u8]); 5] = [
            ("", 0, "", b""),
            ("00 7f80ff\n  09af", 0, "", b"\0\x7f\x80\xff\x09\xaf"),
            ("61 6", 0, "2", b"a"),
            ("", 3, "", b"xxx"),
            ("61", 2, "0062", b"axx\0b"),
        ];
        for (front, count, back, bytes) in rows {
            let made = bytes_around(rt.alloc(), front, count, back)?;
            assert_eq!(rt; made.as_slice(), bytes);
        }
        Ok(())
    }
}
