//! The call of a line, by the words behind its first one.

ghost use Rattle.std.specs.Prelude.{◌<◌, ◌≤◌, ◌^◌, length};
ghost use Rattle.plain_text.specs.Words.{words_of};
ghost use Rattle.dax_script.specs.Halts.{Gives};
ghost use Rattle.dax_script.specs.ScriptText.{read_call, write_call, fill_call, size_call, truncate_call, hold_call, load_call, store_call, release_call, call_of};

use crate::counted_words::{four, one, three, two};
use crate::halts::Halt;
use crate::scripts::{Call, FileLine};
use crate::whys::Why;
use crate::word_reads::{
    between, byte, file_named, hex, hold, in_chunk, in_file, mode, moves, number, writing_hold,
};
use page_map::Mode;
use plain_file::MAX_FILE;
use std::alloc::Global;

#[tactic(auto, unfolding(crate::specs::ScriptText::read_call))]
fn read_call(files: &[FileLine], line: &[u8]) -> Result<Call, Halt>
    requires { length files.now < 2 ^ 32 }
    ensures { Gives result (read_call files.now (words_of line.now)) }
{
    let (file, off, len) = three(line)?;
    let file = file_named(files, file)?;
    let off = number(off)?;
    let len = moves(len)?;
    let off = in_file(off, len as usize)?;
    Ok(Call::Read { file, off, len })
}

#[tactic(auto, unfolding(crate::specs::ScriptText::write_call))]
fn write_call(alloc: Global, files: &[FileLine], line: &[u8]) -> Result<Call, Halt>
    requires { length files.now < 2 ^ 32 }
    ensures { Gives result (write_call files.now (words_of line.now)) }
{
    let (file, off, bytes) = three(line)?;
    let file = file_named(files, file)?;
    let off = number(off)?;
    let bytes = hex(alloc, bytes)?;
    let off = in_file(off, bytes.len())?;
    Ok(Call::Write { file, off, bytes })
}

#[tactic(auto, unfolding(crate::specs::ScriptText::fill_call))]
fn fill_call(files: &[FileLine], line: &[u8]) -> Result<Call, Halt>
    requires { length files.now < 2 ^ 32 }
    ensures { Gives result (fill_call files.now (words_of line.now)) }
{
    let (file, off, len, fill) = four(line)?;
    let file = file_named(files, file)?;
    let off = number(off)?;
    let len = moves(len)?;
    let byte = byte(fill)?;
    let off = in_file(off, len as usize)?;
    Ok(Call::Fill {
        file,
        off,
        len,
        byte,
    })
}

#[tactic(auto, unfolding(crate::specs::ScriptText::size_call))]
fn size_call(files: &[FileLine], line: &[u8]) -> Result<Call, Halt>
    requires { length files.now < 2 ^ 32 }
    ensures { Gives result (size_call files.now (words_of line.now)) }
{
    let file = one(line)?;
    let file = file_named(files, file)?;
    Ok(Call::Size { file })
}

#[tactic(auto, unfolding(crate::specs::ScriptText::truncate_call))]
fn truncate_call(files: &[FileLine], line: &[u8]) -> Result<Call, Halt>
    requires { length files.now < 2 ^ 32 }
    ensures { Gives result (truncate_call files.now (words_of line.now)) }
{
    let (file, size) = two(line)?;
    let file = file_named(files, file)?;
    let size = between(0, MAX_FILE, size)?;
    Ok(Call::Truncate { file, size })
}

// The last chunk of a file, and the most holds of a guest.
const LAST_CHUNK: u64 = 31;

const MAX_HOLDS: usize = 32;

#[tactic(auto, unfolding(crate::specs::ScriptText::hold_call))]
fn hold_call(files: &[FileLine], held: &[Mode], line: &[u8]) -> Result<Call, Halt>
    requires { length files.now < 2 ^ 32 }
    ensures { Gives result (hold_call files.now held.now (words_of line.now)) }
{
    let (file, chunk, allowed) = three(line)?;
    let file = file_named(files, file)?;
    let chunk = between(0, LAST_CHUNK, chunk)? as u32;
    let mode = mode(allowed)?;
    if held.len() >= MAX_HOLDS {
        return Err(Halt::Bad(Why::Limit));
    }
    Ok(Call::Hold { file, chunk, mode })
}

#[tactic(auto, unfolding(crate::specs::ScriptText::load_call))]
fn load_call(held: &[Mode], line: &[u8]) -> Result<Call, Halt>
    requires { length held.now < 2 ^ 32 }
    ensures { Gives result (load_call held.now (words_of line.now)) }
{
    let (place, off, len) = three(line)?;
    let hold = hold(held, place)?;
    let off = number(off)?;
    let len = moves(len)?;
    let off = in_chunk(off, len as usize)?;
    Ok(Call::Load { hold, off, len })
}

#[tactic(auto, unfolding(crate::specs::ScriptText::store_call))]
fn store_call(alloc: Global, held: &[Mode], line: &[u8]) -> Result<Call, Halt>
    requires { length held.now < 2 ^ 32 }
    ensures { Gives result (store_call held.now (words_of line.now)) }
{
    let (place, off, bytes) = three(line)?;
    let hold = writing_hold(held, place)?;
    let off = number(off)?;
    let bytes = hex(alloc, bytes)?;
    let off = in_chunk(off, bytes.len())?;
    Ok(Call::Store { hold, off, bytes })
}

#[tactic(auto, unfolding(crate::specs::ScriptText::release_call))]
fn release_call(held: &[Mode], line: &[u8]) -> Result<Call, Halt>
    requires { length held.now < 2 ^ 32 }
    ensures { Gives result (release_call held.now (words_of line.now)) }
{
    let place = one(line)?;
    let hold = hold(held, place)?;
    Ok(Call::Release { hold })
}

/// The call of a line, by its first word, the script's files and the modes of the guest's holds.
#[tactic(auto, unfolding(crate::specs::ScriptText::call_of))]
pub(crate) fn call_of(
    alloc: Global,
    files: &[FileLine],
    held: &[Mode],
    verb: &[u8],
    line: &[u8],
) -> Result<Call, Halt>
    requires few { length files.now < 2 ^ 32 }
    requires holds { length held.now < 2 ^ 32 }
    ensures { Gives result (call_of files.now held.now verb.now (words_of line.now)) }
{
    if verb == b"read".as_slice() {
        read_call(files, line)
    } else if verb == b"write".as_slice() {
        write_call(alloc, files, line)
    } else if verb == b"fill".as_slice() {
        fill_call(files, line)
    } else if verb == b"size".as_slice() {
        size_call(files, line)
    } else if verb == b"truncate".as_slice() {
        truncate_call(files, line)
    } else if verb == b"hold".as_slice() {
        hold_call(files, held, line)
    } else if verb == b"load".as_slice() {
        load_call(held, line)
    } else if verb == b"store".as_slice() {
        store_call(alloc, held, line)
    } else if verb == b"release".as_slice() {
        release_call(held, line)
    } else {
        Err(Halt::Bad(Why::Order))
    }
}
