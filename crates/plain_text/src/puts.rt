ghost use Rattle.std.specs.Prelude.{◌≡◌, ◌++◌, ◌*◌, ◌<◌, OnOk, length, slice_index};
ghost use Rattle.std.specs.Fmt.{decimal, signed_decimal};
ghost use Rattle.hex.specs.Hex.{encode_lower, lower_digits};
ghost use Rattle.plain_text.specs.Fronts.{Begins};

use itoa::Buffer;
use plain_file::Memory;

/// Appends bytes as they are.
///
/// After `Memory`, here and in the other calls of this file, what stood in the buffer still stands at
/// its front; nothing is promised of what stands behind it.
pub fn put(out: &mut Vec<u8>, bytes: &[u8]) -> Result<(), Memory>
    ensures text { OnOk result (out.new.items ≡ out.old.items ++ bytes.now) }
    ensures front { Begins out.old.items out.new.items }
{
    out.extend_from_slice(bytes)?;
    Ok(())
}

/// Appends a number, in decimal.
#[tactic(auto, using(std::proofs::lemmas::Fmt::decimal_digit))]
pub fn put_number(out: &mut Vec<u8>, n: u64) -> Result<(), Memory>
    ensures text { OnOk result (out.new.items ≡ out.old.items ++ decimal n) }
    ensures front { Begins out.old.items out.new.items }
{
    if n < 10 {
        out.push(b'0' + n as u8)?;
        return Ok(());
    }
    let mut buffer = Buffer::new();
    put(out, buffer.format(n).as_bytes())
}

/// Appends a signed number, in decimal.
pub fn put_signed(out: &mut Vec<u8>, n: i32) -> Result<(), Memory>
    ensures text { OnOk result (out.new.items ≡ out.old.items ++ signed_decimal n) }
    ensures front { Begins out.old.items out.new.items }
{
    let mut buffer = Buffer::new();
    put(out, buffer.format(n).as_bytes())
}

/// Appends two lower case hexadecimal digits for each byte.
// The digits go into the buffer's own new room, however many they are.
pub fn put_hex(out: &mut Vec<u8>, bytes: &[u8]) -> Result<(), Memory>
    ensures text { OnOk result (out.new.items ≡ out.old.items ++ encode_lower bytes.now) }
    ensures front { Begins out.old.items out.new.items }
{
    let start = out.len();
    let Some(end) = start.checked_add(2 * bytes.len()) else {
        return Err(Memory);
    };
    out.resize(end, 0)?;
    write_hex(&mut out.as_mut_slice()[start..], bytes);
    Ok(())
}

// Sums and no table, so that the compiler makes a loop over several bytes at once of it.
fn write_hex(text: &mut [u8], bytes: &[u8])
    requires { length text.old ≡ 2 * length bytes.now }
    ensures { text.new ≡ encode_lower bytes.now }
{
    for i in 0..bytes.len() {
        let byte = bytes[i];
        text[2 * i] = hex_digit(byte >> 4);
        text[2 * i + 1] = hex_digit(byte & 15);
    }
}

fn hex_digit(n: u8) -> u8
    requires { n < 16 }
    ensures { result ≡ slice_index lower_digits n }
{
    let to_letters = if n > 9 { b'a' - b'0' - 10 } else { 0 };
    n + b'0' + to_letters
}
