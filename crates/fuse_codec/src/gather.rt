ghost use Rattle.plain_file.specs.Limits.{max_part};
ghost use Rattle.std.specs.Prelude.{◌≡◌, ◌≤◌, ◌+◌, [], ◌++◌, length, OnOk, OnErr};

use plain_file::Memory;
use std::alloc::Global;
use std::marker::Model;

/// A part of a chain that comes in pieces. Contracts see the list of the bytes that came so far, one
/// piece after another: at most [`MAX_PART`](crate::MAX_PART).
#[derive(Debug, Drop)]
pub struct Gather {
    bytes: Vec<u8>,
}

impl Model for Gather {
    ghost use Rattle.std.specs.Prelude.{◌≤◌, List, ℕ, length};
    ghost use Rattle.plain_file.specs.Limits.{max_part};

    ghost Value = { List ℕ };

    ghost view = { λ it. it.bytes.items };

    ghost invariant = { λ it. length it.bytes.items ≤ max_part };
}

impl Gather {
    /// Nothing so far. It takes no memory.
    pub fn new(alloc: Global) -> Gather
        ensures { result ≡ [] }
    {
        Gather {
            bytes: Vec::new(alloc),
        }
    }

    /// Adds a piece after the ones before, all of it or nothing. The total stays within
    /// [`MAX_PART`](crate::MAX_PART). `Memory` comes where there is no room and the allocation of more was refused:
    /// the bytes are then as they were.
    pub fn push(&mut self, piece: &[u8]) -> Result<(), Memory>
        requires within { length self.old + length piece.now ≤ max_part }
        ensures ok { OnOk result (self.new ≡ self.old ++ piece.now) }
        ensures err { OnErr result (self.new ≡ self.old) }
    {
        self.bytes.extend_from_slice(piece)?;
        Ok(())
    }

    /// The pieces one after another.
    pub fn bytes(&self) -> &[u8]
        ensures value { result.now ≡ self.now }
        ensures within { length result.now ≤ max_part }
    {
        self.bytes.as_slice()
    }

    /// Forgets all bytes, and keeps their room for the next part.
    pub fn clear(&mut self)
        ensures { self.new ≡ [] }
    {
        self.bytes.clear();
    }
}
