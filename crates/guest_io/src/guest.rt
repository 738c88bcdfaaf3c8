ghost use Rattle.std.specs.Prelude.{◌≡◌, None, replicate};
ghost use Rattle.guest_io.specs.Holds.{max_holds};

use guest_dax::{Dax, Pinned};
use page_map::Mode;

/// The most holds that a guest may ask for.
pub const MAX_HOLDS: u32 = 32;

/// A hold that was granted and isn't released: a pin on the range of a chunk, under a lease of its file.
#[derive(Clone, Copy, Debug, PartialEq, Eq)]
pub struct Granted {
    /// The file's number.
    pub file: u32,
    /// The chunk of the file, below 32.
    pub chunk: u32,
    /// Whether its bytes may be stored too.
    pub mode: Mode,
    /// The pinned range, and what the pin goes through.
    pub pinned: Pinned,
    /// Where its bytes end in the file.
    pub end: u64,
}

/// The holds of a guest, which are numbered from 0 in the order in which they were asked for.
#[derive(Clone, Copy)]
pub struct Holds {
    /// How many were asked for, those that were refused among them.
    pub asked: u32,
    /// Those that are granted, by their numbers.
    pub slots: [Option<Granted>; 32],
}

/// A guest: its ranges, with its client, its boards and its open files; and its holds.
#[derive(Drop)]
pub struct Guest<W, F, R> {
    /// Its ranges.
    pub dax: Dax<W, F, R>,
    /// Its holds.
    pub holds: Holds,
}

impl<W, F, R> Guest<W, F, R> {
    /// A guest with these ranges, which has asked for no hold.
    pub fn new(dax: Dax<W, F, R>) -> Guest<W, F, R>
        ensures dax { result.dax ≡ dax }
        ensures asked { result.holds.asked ≡ 0 }
        ensures slots { result.holds.slots ≡ replicate max_holds None }
    {
        Guest {
            dax,
            holds: Holds {
                asked: 0,
                slots: [None; 32],
            },
        }
    }
}
