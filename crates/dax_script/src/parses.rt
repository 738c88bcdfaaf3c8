ghost use Rattle.std.specs.Prelude.{◌≡◌, ◌+◌, ◌<◌, ◌^◌, ◌∷◌, [], true, IfOk};
ghost use Rattle.dax_script.specs.Fits.{fits};
ghost use Rattle.dax_script.specs.Halts.{TurnsAt, Parses};
ghost use Rattle.dax_script.specs.ScriptText.{line_read, script_from, script_of};

use crate::halts::Halt;
use crate::readings::Reading;
use crate::scripts::Script;
use crate::whys::BadScript;
use plain_text::cut;
use std::alloc::Global;

/// The script that a text is, exactly where it has the form of scripts; else the first line that
/// hasn't, counted from 1, and that line's first reason. `Memory` comes only where an allocation was
/// refused. The script keeps the limits of scripts, so what [`print`](crate::print) writes of it reads as
/// the script again.
pub fn parse(alloc: Global, text: &[u8]) -> Result<Script, BadScript>
    ensures reads { Parses result (script_of text.now) }
    ensures fits { IfOk result (λ s. fits s ≡ true) }
{
    let mut reading = Reading::new(alloc);
    let mut line = 1;
    let mut rest = text;
    loop {
        let (first, after) = cut(rest, b'\n');
        let Some(after) = after else {
            return last_line(alloc, reading, line, first);
        };
        next_line(alloc, &mut reading, line, first)?;
        line += 1;
        rest = after;
    }
}

fn next_line(alloc: Global, reading: &mut Reading, line: u64, bytes: &[u8]) -> Result<(), BadScript>
    ensures { TurnsAt line result reading.new (line_read reading.old bytes.now) }
{
    match reading.read_line(alloc, bytes) {
        Ok(()) => Ok(()),
        Err(Halt::Bad(why)) => Err(BadScript::Line { line, why }),
        Err(Halt::Memory) => Err(BadScript::Memory),
    }
}

// The script whose last line has no line end; an empty one is none.
fn last_line(
    alloc: Global,
    mut reading: Reading,
    line: u64,
    bytes: &[u8],
) -> Result<Script, BadScript>
    requires { line + 1 < 2 ^ 64 }
    ensures { Parses result (script_from line reading (bytes.now ∷ [])) }
{
    if bytes.is_empty() {
        return reading.finish(line);
    }
    next_line(alloc, &mut reading, line, bytes)?;
    reading.finish(line + 1)
}
