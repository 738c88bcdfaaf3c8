ghost use Rattle.std.specs.Prelude.{◌≡◌};
ghost use Rattle.dax_script.specs.Whys.{why_word};

use thiserror::Error;

/// Why a line of a text isn't one of a script. A line has the first reason of these: `Order`, then
/// `Words`, then that of its first bad word from left to right, then `Limit` of a sum or a count, then
/// `Window`.
#[derive(Clone, Copy, Debug, PartialEq, Eq)]
pub enum Why {
    /// The first word is unknown, or may not stand here.
    Order,
    /// The line has too few words or too many.
    Words,
    /// The word is no number.
    Number,
    /// A number, a sum or a count is beyond its limit.
    Limit,
    /// The word is no file's name, or a file before has it.
    Name,
    /// No file has this name.
    File,
    /// The guest has no such hold, or it is for reading and the line stores.
    Hold,
    /// The word isn't a positive even number of lower case hexadecimal digits.
    Hex,
    /// The word isn't two lower case hexadecimal digits.
    Byte,
    /// The word is neither `r` nor `w`.
    Mode,
    /// A hold, or turns of the background, where there are no ranges.
    Window,
}

impl Why {
    /// The word that says it where a text is refused, as `limit`.
    #[tactic(auto, unfolding(crate::specs::Whys::why_word))]
    pub fn word(self) -> &'static str
        ensures { result.now ≡ why_word self }
    {
        match self {
            Why::Order => "order",
            Why::Words => "words",
            Why::Number => "number",
            Why::Limit => "limit",
            Why::Name => "name",
            Why::File => "file",
            Why::Hold => "hold",
            Why::Hex => "hex",
            Why::Byte => "byte",
            Why::Mode => "mode",
            Why::Window => "window",
        }
    }
}

/// Why a text gives no script.
#[derive(Clone, Copy, Debug, PartialEq, Eq, Error)]
pub enum BadScript {
    /// The first line that isn't one of a script, counted from 1, and its first reason.
    #[error("line {line} is no line of a script: {why:?}")]
    Line { line: u64, why: Why },
    /// No memory was got for the script.
    #[error("out of memory")]
    Memory,
}
