// Whose the entries of a history are, and how they came there.
ghost use Rattle.std.specs.Prelude.{◌≡◌, map, IfOk};
ghost use Rattle.files_core.specs.Good.{size_of};
ghost use Rattle.file_share.specs.Known.{mark_of};

use plain_file::{Body, List, Memory, Way};
use std::alloc::Global;

/// Of an entry of a file's history: whose call made it, and how it came there.
#[derive(Clone, Copy, Debug, PartialEq, Eq)]
pub struct EntryMark {
    /// The number of the guest.
    pub guest: u32,
    /// The number of the call among the guest's calls, counted from 0.
    pub call: u32,
    /// The way that the entry came.
    pub way: Way,
}

/// The marks of a file's entries, in the order of its history, and the file's size after all of them.
#[derive(Drop)]
pub struct Marks {
    /// One for each entry.
    pub marks: List<EntryMark>,
    /// In bytes.
    pub size: u64,
}

// Those of a file's contents.
pub(crate) fn marks_of(alloc: Global, body: &Body) -> Result<Marks, Memory>
    ensures { IfOk result (λ m. (m.marks ≡ map mark_of body.now.history) × (m.size ≡ size_of body.now.first body.now.history)) }
{
    let mut marks = List::new(alloc);
    for entry in body.history().as_slice() {
        marks.push(EntryMark {
            guest: entry.guest,
            call: entry.call,
            way: entry.way,
        })?;
    }
    Ok(Marks {
        marks,
        size: body.size(),
    })
}
