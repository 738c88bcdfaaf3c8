use crate::whys::Why;
use plain_file::Memory;

// What ends the reading of a text: a line that is refused, or want of memory.
#[derive(Clone, Copy, Debug, PartialEq, Eq)]
pub(crate) enum Halt {
    Bad(Why),
    Memory,
}

impl From<Why> for Halt {
    ghost use Rattle.std.specs.Prelude.{◌≡◌};
    ghost use Rattle.dax_script.specs.declared.halts.Halt.TheVariants as halts;

    ghost from_gives = { λ why e. e ≡ halts.Bad why };

    fn from(why: Why) -> Halt {
        Halt::Bad(why)
    }
}

impl From<Memory> for Halt {
    ghost use Rattle.std.specs.Prelude.{◌≡◌};
    ghost use Rattle.dax_script.specs.declared.halts.Halt.TheVariants as halts;

    ghost from_gives = { λ _ e. e ≡ halts.Memory };

    fn from(_memory: Memory) -> Halt {
        Halt::Memory
    }
}
