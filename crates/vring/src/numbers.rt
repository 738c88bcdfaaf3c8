ghost use Rattle.std.specs.Prelude.{◌≡◌, ◌+◌, ◌≤◌, length};
ghost use Rattle.vring.specs.Bytes.{u16_at, u32_at, u64_at, put_at};

#[tactic(auto, unfolding(crate::specs::Bytes::u16_at))]
pub(crate) fn read_u16(bytes: &[u8], at: usize) -> u16
    requires { at + 2 ≤ length bytes.now }
    ensures { result ≡ u16_at bytes.now at }
{
    let b = &bytes[at..at + 2];
    u16::from_le_bytes([b[0], b[1]])
}

#[tactic(auto, unfolding(crate::specs::Bytes::u32_at))]
pub(crate) fn read_u32(bytes: &[u8], at: usize) -> u32
    requires { at + 4 ≤ length bytes.now }
    ensures { result ≡ u32_at bytes.now at }
{
    let b = &bytes[at..at + 4];
    u32::from_le_bytes([b[0], b[1], b[2], b[3]])
}

#[tactic(auto, unfolding(crate::specs::Bytes::u64_at))]
pub(crate) fn read_u64(bytes: &[u8], at: usize) -> u64
    requires { at + 8 ≤ length bytes.now }
    ensures { result ≡ u64_at bytes.now at }
{
    let b = &bytes[at..at + 8];
    u64::from_le_bytes([b[0], b[1], b[2], b[3], b[4], b[5], b[6], b[7]])
}

// Bytes that lie in the memory are written over its own.
pub(crate) fn put(mem: &mut Vec<u8>, at: usize, bytes: &[u8])
    requires { at + length bytes.now ≤ length mem.old.items }
    ensures value { mem.new.items ≡ put_at mem.old.items at bytes.now }
    ensures len { length mem.new.items ≡ length mem.old.items }
{
    mem[at..at + bytes.len()].copy_from_slice(bytes);
}
