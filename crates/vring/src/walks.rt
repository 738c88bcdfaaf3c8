ghost use Rattle.std.specs.Prelude.{ℕ, true, None, Some, ◌≡◌, ◌+◌, ◌*◌, ◌^◌, ◌<◌, ◌≤◌, ◌==◌, not, [], length, OnOk, IfErr};
ghost use Rattle.vring.specs.Layout.{IsLayout};
ghost use Rattle.vring.specs.Pieces.{total};
ghost use Rattle.vring.specs.Chain.{reached, chain_of, long_of, unless};
ghost use Rattle.vring.specs.Parts.{placed, parts_of};
ghost use Rattle.vring.specs.Ring.{Fills};

use crate::MAX_PART;
use crate::chains::{Chain, Piece};
use crate::descriptors::{Descriptor, NEXT, WRITE, fault_in, read_descriptor};
use crate::faults::{PopError, RingFault};
use crate::layouts::Layout;

// Which part of a chain is too long: the readable one first.
fn fault_of_sums(readable: u64, writable: u64) -> Option<RingFault>
    ensures { result ≡ long_of readable writable }
{
    if readable > MAX_PART as u64 {
        return Some(RingFault::Long { sum: readable });
    }
    if writable > MAX_PART as u64 {
        return Some(RingFault::Long { sum: writable });
    }
    None
}

// Adds a descriptor's interval to its part of the chain.
#[tactic(auto, unfolding(crate::specs::Pieces::total))]
fn place(chain: &mut Chain, descriptor: &Descriptor) -> Result<(), PopError>
    requires readable { total chain.old.readable + descriptor.now.len < 2 ^ 64 }
    requires writable { total chain.old.writable + descriptor.now.len < 2 ^ 64 }
    ensures ok { OnOk result (parts_of chain.new ≡ placed (parts_of chain.old) descriptor.now) }
    ensures head { chain.new.head ≡ chain.old.head }
    ensures readable { OnOk result (total chain.new.readable ≤ total chain.old.readable + descriptor.now.len) }
    ensures writable { OnOk result (total chain.new.writable ≤ total chain.old.writable + descriptor.now.len) }
    ensures err { IfErr result (λ e. e ≡ PopError.Memory) }
{
    let piece = Piece {
        addr: descriptor.addr,
        len: descriptor.len,
    };
    if descriptor.flags & WRITE != 0 {
        chain.writable.push(piece)?;
    } else {
        chain.readable.push(piece)?;
    }
    Ok(())
}

// What a chain is at its end: too long, or whole.
fn finish(chain: &Chain) -> Result<(), PopError>
    ensures { Fills result chain.now (unless (long_of (total chain.now.readable) (total chain.now.writable)) (Some chain.now)) }
{
    match fault_of_sums(chain.readable.sum(), chain.writable.sum()) {
        Some(fault) => Err(PopError::Fault(fault)),
        None => Ok(()),
    }
}

// Makes `chain` the one whose first descriptor is at an index of the table.
pub(crate) fn follow(
    mem: &[u8],
    layout: &Layout,
    head: u16,
    chain: &mut Chain,
) -> Result<(), PopError>
    requires layout { IsLayout layout.now }
    requires memory { length mem.now ≡ layout.now.memory }
    requires head { head < layout.now.size }
    ensures { Fills result chain.new (chain_of mem.now layout.now head [] (reached mem.now layout.now head (layout.now.size + 1))) }
{
    chain.begin(head);
    let mut index = head;
    'walk: for _count in 0..layout.size {
        let d = read_descriptor(mem, layout, index);
        let written = !chain.writable.is_empty();
        if let Some(fault) = fault_in(mem.len(), layout.size, written, index, &d) {
            return Err(PopError::Fault(fault));
        }
        place(chain, &d)?;
        if d.flags & NEXT == 0 {
            return finish(chain);
        }
        index = d.next;
    }
    Err(PopError::Fault(RingFault::Loop))
}
