ghost use Rattle.std.specs.Prelude.{◌≡◌, ◌+◌, ◌≤◌, ◌==◌, length, nat_le};
ghost use Rattle.vring.specs.Bytes.{max_memory, put_at};
ghost use Rattle.vring.specs.Access.{Reads, Writes, outside_of};

use crate::faults::Outside;
use crate::numbers::put;
use plain_file::Blob;
use std::marker::Model;

/// A guest's memory: its byte at each address from 0 to below its length, which never changes.
/// Contracts see the list of the bytes.
#[derive(Debug, Drop)]
pub struct GuestMem {
    bytes: Vec<u8>,
}

impl Model for GuestMem {
    ghost use Rattle.std.specs.Prelude.{List, ℕ, ◌≤◌, length};
    ghost use Rattle.vring.specs.Bytes.{max_memory};

    ghost Value = { List ℕ };

    ghost view = { λ m. m.bytes.items };

    ghost invariant = { λ m. length m.bytes.items ≤ max_memory };
}

impl GuestMem {
    /// The memory of these bytes, which aren't copied. They are at most 16,777,216.
    pub fn new(bytes: Blob) -> GuestMem
        requires { length bytes ≤ max_memory }
        ensures { result ≡ bytes }
    {
        GuestMem {
            bytes: bytes.into_vec(),
        }
    }

    /// How many bytes there are: at most 16,777,216.
    pub fn len(&self) -> usize
        ensures value { result ≡ length self.now }
        ensures most { result ≤ max_memory }
    {
        self.bytes.len()
    }

    /// Whether there is no byte.
    pub fn is_empty(&self) -> bool
        ensures { result ≡ (length self.now == 0) }
    {
        self.bytes.is_empty()
    }

    /// The bytes in the order of their addresses.
    pub fn as_slice(&self) -> &[u8]
        ensures value { result.now ≡ self.now }
        ensures most { length self.now ≤ max_memory }
    {
        self.bytes.as_slice()
    }

    // Writes bytes that are known to lie in the memory.
    pub(crate) fn put(&mut self, at: usize, bytes: &[u8])
        requires { at + length bytes.now ≤ length self.old }
        ensures value { self.new ≡ put_at self.old at bytes.now }
        ensures len { length self.new ≡ length self.old }
    {
        put(&mut self.bytes, at, bytes);
    }

    /// Copies the bytes from address `addr` on into `out`, which they fill.
    ///
    /// `Outside` comes exactly where `addr` plus the length of `out` is above the memory's length;
    /// the sum doesn't wrap. `out` is as it was then. No bytes at the memory's end are within it.
    pub fn read(&self, addr: u64, out: &mut [u8]) -> Result<(), Outside>
        ensures { Reads self.now addr out.old result out.new }
    {
        let bytes = self.bytes.as_slice();
        if !is_within(bytes.len(), addr, out.len()) {
            return Err(outside(addr, out.len()));
        }
        let at = addr as usize;
        out.copy_from_slice(&bytes[at..at + out.len()]);
        Ok(())
    }

    /// Puts bytes at address `addr` and after it, over the memory's own.
    ///
    /// `Outside` comes exactly where `addr` plus their number is above the memory's length; the sum
    /// doesn't wrap. The memory is as it was then.
    pub fn write(&mut self, addr: u64, bytes: &[u8]) -> Result<(), Outside>
        ensures writes { Writes self.old addr bytes.now result self.new }
        ensures len { length self.new ≡ length self.old }
    {
        if !is_within(self.bytes.len(), addr, bytes.len()) {
            return Err(outside(addr, bytes.len()));
        }
        put(&mut self.bytes, addr as usize, bytes);
        Ok(())
    }
}

// Whether so many bytes from an address on lie in a memory of `memory` bytes.
pub(crate) fn is_within(memory: usize, addr: u64, len: usize) -> bool
    ensures { result ≡ nat_le (addr + len) memory }
{
    addr <= memory as u64 && len <= memory - addr as usize
}

fn outside(addr: u64, len: usize) -> Outside
    ensures { result ≡ outside_of addr len }
{
    Outside {
        addr,
        len: len.min(u32::MAX as usize) as u32,
    }
}
