ghost use Rattle.std.specs.Prelude.{◌≡◌};

use fuse_wire::Errno;
use plain_file::Memory;
use thiserror::Error;

/// Why a request isn't carried out. Nothing has changed then.
#[derive(Clone, Copy, Debug, PartialEq, Eq, Error)]
pub enum Refused {
    /// The request is answered this error.
    #[error("the request is answered error {}", .0.number())]
    Errno(Errno),
    /// An allocation was refused.
    #[error("out of memory")]
    Memory,
}

impl From<Errno> for Refused {
    ghost use Rattle.fuse_device.specs.declared.refusals.Refused.TheVariants as refusals;

    ghost from_gives = { λ e r. r ≡ refusals.Errno e };

    fn from(error: Errno) -> Refused {
        Refused::Errno(error)
    }
}

impl From<Memory> for Refused {
    ghost use Rattle.fuse_device.specs.declared.refusals.Refused.TheVariants as refusals;

    ghost from_gives = { λ _ r. r ≡ refusals.Memory };

    fn from(_: Memory) -> Refused {
        Refused::Memory
    }
}
