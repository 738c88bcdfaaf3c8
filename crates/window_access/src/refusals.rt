ghost use Rattle.std.specs.Prelude.{◌≡◌};
ghost use Rattle.window_access.specs.Access.{refusal_at};

use plain_file::Memory;
use thiserror::Error;

/// Why an access to the window wasn't made. `at` is an offset in the window, in bytes. After the first
/// three nothing has changed.
#[derive(Clone, Copy, Debug, PartialEq, Eq, Error)]
pub enum WindowRefusal {
    /// The byte at `at` isn't mapped or is past the window, and it is the first one.
    #[error("nothing is mapped at {at}")]
    Unmapped {
        /// The byte's offset in the window.
        at: u64,
    },
    /// All bytes are mapped, and the one at `at` is the first whose mapping doesn't allow writing. Only
    /// a store meets it.
    #[error("the mapping at {at} is for reading alone")]
    ReadOnly {
        /// The byte's offset in the window.
        at: u64,
    },
    /// All bytes are mapped, for a store with modes for writing, and the one at `at` is the first that
    /// lies at or past its file's end.
    #[error("the file ends before {at}")]
    PastEnd {
        /// The byte's offset in the window.
        at: u64,
    },
    /// An allocation was refused.
    #[error("out of memory")]
    Memory,
}

impl From<Memory> for WindowRefusal {
    ghost use Rattle.window_access.specs.declared.refusals.WindowRefusal.TheVariants as refusals;

    ghost from_gives = { λ _ e. e ≡ refusals.Memory };

    fn from(_: Memory) -> WindowRefusal {
        WindowRefusal::Memory
    }
}

/// What stands against the access to a byte.
#[derive(Clone, Copy, Debug, PartialEq, Eq)]
pub enum Cause {
    /// It isn't mapped.
    Unmapped,
    /// Its mapping doesn't allow writing.
    ReadOnly,
    /// It lies at or past its file's end.
    PastEnd,
}

impl Cause {
    /// The answer for a byte at this offset of the window.
    #[tactic(auto, unfolding(crate::specs::Access::refusal_at))]
    pub fn at(self, at: u64) -> WindowRefusal
        ensures { result ≡ refusal_at self at }
    {
        match self {
            Cause::Unmapped => WindowRefusal::Unmapped { at },
            Cause::ReadOnly => WindowRefusal::ReadOnly { at },
            Cause::PastEnd => WindowRefusal::PastEnd { at },
        }
    }
}
