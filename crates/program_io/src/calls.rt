ghost use Rattle.std.specs.Prelude.{◌≡◌, ◌≤◌};
ghost use Rattle.program_io.specs.Calls.{after_call, fails_next, first_calls, part_of};

use plain_file::List;

/// The calls that a source or a sink in memory has had, and what it was told of them.
#[derive(Debug, Drop)]
pub struct Calls {
    /// How many calls were made. The count stays at its last value.
    pub made: u64,
    /// The most bytes that a call gives or takes; 0 for no such bound.
    pub piece: u32,
    /// The numbers of the calls that fail, counted from 1.
    pub fails: List<u64>,
    /// How many calls failed. The count stays at its last value.
    pub faults: u64,
}

impl Calls {
    pub fn new(piece: u32, fails: List<u64>) -> Calls
        ensures { result ≡ first_calls piece fails }
    {
        Calls {
            made: 0,
            piece,
            fails,
            faults: 0,
        }
    }

    /// Whether the next call fails by the list. A call past the last u64 doesn't.
    pub fn fails_next(&self) -> bool
        ensures { result ≡ fails_next self.now }
    {
        match self.made.checked_add(1) {
            Some(number) => self.fails.as_slice().contains(&number),
            None => false,
        }
    }

    /// How many of `len` bytes one call gives or takes.
    pub fn part(&self, len: usize) -> usize
        ensures { result ≡ part_of self.now len }
    {
        if self.piece == 0 {
            len
        } else {
            len.min(self.piece as usize)
        }
    }

    /// Counts a call and, where it failed, a fault.
    pub fn end(&mut self, failed: bool)
        ensures after { self.new ≡ after_call self.old failed }
        ensures later { self.old.faults ≤ self.new.faults }
    {
        self.made = self.made.saturating_add(1);
        if failed {
            self.faults = self.faults.saturating_add(1);
        }
    }
}
