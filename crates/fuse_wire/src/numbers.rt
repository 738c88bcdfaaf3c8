ghost use Rattle.std.specs.Prelude.{◌≡◌, ◌≤◌, ◌<◌, ◌^◌, ◌+◌, length, take, drop, FitsSigned};
ghost use Rattle.std.specs.Int.{w16, w32, w64, from_le_bytes, to_le_bytes, cast_signed, cast_unsigned};

/// The two little-endian bytes at offset `at`, as a number.
pub fn u16_at(bytes: &[u8], at: usize) -> u16
    requires { at + 2 ≤ length bytes.now }
    ensures { result ≡ from_le_bytes w16 (take 2 (drop at bytes.now)) }
{
    let b = &bytes[at..at + 2];
    u16::from_le_bytes([b[0], b[1]])
}

/// The four little-endian bytes at offset `at`, as a number.
pub fn u32_at(bytes: &[u8], at: usize) -> u32
    requires { at + 4 ≤ length bytes.now }
    ensures { result ≡ from_le_bytes w32 (take 4 (drop at bytes.now)) }
{
    let b = &bytes[at..at + 4];
    u32::from_le_bytes([b[0], b[1], b[2], b[3]])
}

/// The eight little-endian bytes at offset `at`, as a number.
pub fn u64_at(bytes: &[u8], at: usize) -> u64
    requires { at + 8 ≤ length bytes.now }
    ensures { result ≡ from_le_bytes w64 (take 8 (drop at bytes.now)) }
{
    let b = &bytes[at..at + 8];
    u64::from_le_bytes([b[0], b[1], b[2], b[3], b[4], b[5], b[6], b[7]])
}

/// A number as two little-endian bytes.
pub fn u16_bytes(n: u16) -> [u8; 2]
    ensures bytes { result ≡ to_le_bytes w16 n }
    ensures fits { n < 2 ^ 16 }
{
    n.to_le_bytes()
}

/// A number as four little-endian bytes.
pub fn u32_bytes(n: u32) -> [u8; 4]
    ensures bytes { result ≡ to_le_bytes w32 n }
    ensures fits { n < 2 ^ 32 }
{
    n.to_le_bytes()
}

/// A number as eight little-endian bytes.
pub fn u64_bytes(n: u64) -> [u8; 8]
    ensures bytes { result ≡ to_le_bytes w64 n }
    ensures fits { n < 2 ^ 64 }
{
    n.to_le_bytes()
}

/// The four little-endian bytes at offset `at`, as a signed number in two's complement.
pub fn i32_at(bytes: &[u8], at: usize) -> i32
    requires { at + 4 ≤ length bytes.now }
    ensures { result ≡ cast_signed w32 (from_le_bytes w32 (take 4 (drop at bytes.now))) }
{
    let b = &bytes[at..at + 4];
    i32::from_le_bytes([b[0], b[1], b[2], b[3]])
}

/// A signed number as four little-endian bytes, in two's complement.
pub fn i32_bytes(n: i32) -> [u8; 4]
    ensures bytes { result ≡ to_le_bytes w32 (cast_unsigned w32 n) }
    ensures fits { FitsSigned w32 n }
{
    n.to_le_bytes()
}
