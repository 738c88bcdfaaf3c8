ghost use Rattle.std.specs.Prelude.{◌≡◌, ◌+◌, ◌<◌, ◌≤◌, ◌++◌, length, All, IfOk, OnOk, OnErr};
ghost use Rattle.vring.specs.Pieces.{total, gathered, scattered, Scatters};
ghost use Rattle.vring.specs.Chain.{LiesIn, ChainLiesIn};

use crate::chains::{Chain, Piece};
use crate::faults::NoRoom;
use crate::memory::GuestMem;
use plain_file::{Blob, Memory};
use std::alloc::Global;

// Writes bytes into the pieces, in order, as far as the bytes go.
fn scatter_into(mem: &mut GuestMem, pieces: &[Piece], bytes: &[u8])
    requires { All (LiesIn (length mem.old)) pieces.now }
    ensures value { mem.new ≡ scattered mem.old pieces.now bytes.now }
    ensures len { length mem.new ≡ length mem.old }
{
    let mut rest = bytes;
    for piece in pieces {
        let len = rest.len().min(piece.len as usize);
        let (front, back) = rest.split_at(len);
        mem.put(piece.addr as usize, front);
        rest = back;
    }
}

/// Writes bytes into a chain's writable pieces, in their order, and gives how many: all of them.
/// Where pieces overlap the later write stands. What lies behind the last byte's place is left.
///
/// The chain was popped from this memory, so its pieces lie in it. `NoRoom` comes exactly where the
/// bytes are more than the pieces' sum, which it tells; the memory is as it was then.
pub fn scatter(mem: &mut GuestMem, chain: &Chain, bytes: &[u8]) -> Result<u32, NoRoom>
    requires { ChainLiesIn (length mem.old) chain.now }
    ensures scatters { Scatters mem.old chain.now.writable bytes.now result mem.new }
    ensures len { length mem.new ≡ length mem.old }
{
    let room = chain.writable.sum();
    if bytes.len() as u64 > room {
        return Err(NoRoom { room });
    }
    scatter_into(mem, chain.writable.as_slice(), bytes);
    Ok(bytes.len() as u32)
}

/// The bytes of a chain's readable pieces, one piece after another.
///
/// The chain was popped from this memory, so its pieces lie in it. `Memory` comes where the
/// allocation was refused.
pub fn gather(alloc: Global, mem: &GuestMem, chain: &Chain) -> Result<Blob, Memory>
    requires { ChainLiesIn (length mem.now) chain.now }
    ensures { IfOk result (λ b. b ≡ gathered mem.now chain.now.readable) }
{
    let mut out = Vec::new(alloc);
    gather_into(mem, chain, &mut out)?;
    Ok(Blob::from_vec(out))
}

/// Adds the bytes of a chain's readable pieces at the end of `out`, all or none. It takes no memory
/// where `out` has the room, so that one buffer serves chain after chain.
///
/// The chain was popped from this memory, so its pieces lie in it. `Memory` comes where an
/// allocation was refused; `out` has its old bytes then.
pub fn gather_into(mem: &GuestMem, chain: &Chain, out: &mut Vec<u8>) -> Result<(), Memory>
    requires { ChainLiesIn (length mem.now) chain.now }
    ensures ok { OnOk result (out.new.items ≡ out.old.items ++ gathered mem.now chain.now.readable) }
    ensures err { OnErr result (out.new.items ≡ out.old.items) }
{
    let bytes = mem.as_slice();
    let before = out.len();
    out.reserve(chain.readable.sum() as usize)?;
    for piece in chain.readable.as_slice() {
        let at = piece.addr as usize;
        if out
            .extend_from_slice(&bytes[at..at + piece.len as usize])
            .is_err()
        {
            out.truncate(before);
            return Err(Memory);
        }
    }
    Ok(())
}
