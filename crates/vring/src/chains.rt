ghost use Rattle.std.specs.Prelude.{◌≡◌, ◌+◌, ◌^◌, ◌<◌, [], ◌∷◌, ◌++◌, OnOk, OnErr, length, ◌==◌};
ghost use Rattle.vring.specs.Pieces.{total};

use smallvec::SmallVec;
use std::alloc::{AllocFailed, Global};
use std::marker::Model;

/// An interval of the memory: `len` bytes from address `addr` on.
#[derive(Clone, Copy, Debug, Default, PartialEq, Eq)]
pub struct Piece {
    /// The address of the first byte.
    pub addr: u64,
    /// The length in bytes; it may be 0.
    pub len: u32,
}

/// The pieces of one part of a chain, in their order, with the sum of their lengths. Contracts see
/// the list of the pieces. Up to eight take no memory.
#[derive(Debug, Drop)]
pub struct Pieces {
    items: SmallVec<Piece, 8>,
    sum: u64,
}

/// A chain of descriptors: one request of the driver, which the device answers.
#[derive(Debug, Drop)]
pub struct Chain {
    /// The index of the first descriptor, by which the chain is handed back.
    pub head: u16,
    /// What the device reads: the intervals of the descriptors without WRITE.
    pub readable: Pieces,
    /// What the device may write: the intervals of the descriptors with WRITE.
    pub writable: Pieces,
}

impl Model for Pieces {
    ghost use Rattle.std.specs.Prelude.{◌≡◌, List};
    ghost use Rattle.vring.specs.declared.chains.Piece.{Piece};
    ghost use Rattle.vring.specs.Pieces.{total};

    ghost Value = { List Piece };

    ghost view = { λ p. p.items.items };

    ghost invariant = { λ p. p.sum ≡ total p.items.items };
}

impl Pieces {
    /// No pieces. It takes no memory.
    #[tactic(auto, unfolding(crate::specs::Pieces::total))]
    pub fn new(alloc: Global) -> Pieces
        ensures { result ≡ [] }
    {
        Pieces {
            items: SmallVec::new(alloc),
            sum: 0,
        }
    }

    /// The pieces in their order.
    pub fn as_slice(&self) -> &[Piece]
        ensures { result.now ≡ self.now }
    {
        self.items.as_slice()
    }

    /// How many pieces there are.
    pub fn len(&self) -> usize
        ensures { result ≡ length self.now }
    {
        self.items.len()
    }

    /// Whether there is no piece.
    pub fn is_empty(&self) -> bool
        ensures { result ≡ (length self.now == 0) }
    {
        self.items.is_empty()
    }

    /// The sum of the pieces' lengths, in bytes.
    pub fn sum(&self) -> u64
        ensures { result ≡ total self.now }
    {
        self.sum
    }

    /// Takes all pieces away, and keeps the room that they had.
    #[tactic(auto, unfolding(crate::specs::Pieces::total))]
    pub fn clear(&mut self)
        ensures { self.new ≡ [] }
    {
        self.items.clear();
        self.sum = 0;
    }

    /// Adds a piece at the end. The sum stays below 2^64. After an error, which comes where an
    /// allocation was refused, the pieces are as they were.
    #[tactic(auto, unfolding(crate::specs::Pieces::total))]
    pub fn push(&mut self, piece: Piece) -> Result<(), AllocFailed<Piece>>
        requires { total self.old + piece.len < 2 ^ 64 }
        ensures ok { OnOk result (self.new ≡ self.old ++ piece ∷ []) }
        ensures err { OnErr result (self.new ≡ self.old) }
    {
        self.items.push(piece)?;
        self.sum += piece.len as u64;
        Ok(())
    }
}

impl Chain {
    /// A chain of no pieces with head 0, into which a chain can be popped. It takes no memory.
    pub fn new(alloc: Global) -> Chain
        ensures { result ≡ record { head = 0; readable = []; writable = [] } }
    {
        Chain {
            head: 0,
            readable: Pieces::new(alloc),
            writable: Pieces::new(alloc),
        }
    }

    // A chain of no pieces, with the room that it had.
    pub(crate) fn begin(&mut self, head: u16)
        ensures { self.new ≡ record { head = head; readable = []; writable = [] } }
    {
        self.head = head;
        self.readable.clear();
        self.writable.clear();
    }
}
