//! The script that the lines of a text so far say, and what one line more makes of it.

ghost use Rattle.std.specs.Prelude.{◌≡◌, ◌≤◌, ◌<◌, ◌+◌, ◌^◌, ◌++◌, IfOk, IfSome, OnOk, is_none, length, vec_len, vec_capacity};
ghost use Rattle.plain_text.specs.Words.{words_of};
ghost use Rattle.dax_script.specs.Steps.{three};
ghost use Rattle.dax_script.specs.ScriptWords.{held_mode};
ghost use Rattle.dax_script.specs.Halts.{Gives, Parses, Turns};
ghost use Rattle.dax_script.specs.Totals.{modes_of};
ghost use Rattle.dax_script.specs.ScriptText.{start, guests_with, moved_by, call_added, call_line, ranges_line, background_line, zeros_file, filled_file, file_of_words, file_line, guest_line, is_first, later_line, worded_line, worded, line_read, is_comment, finished};

use crate::call_reads::call_of;
use crate::counted_words::{none, one, three, two};
use crate::halts::Halt;
use crate::scripts::{Call, FileLine, Script};
use crate::whys::{BadScript, Why};
use crate::word_reads::{between, byte, new_name, ranges_number};
use page_map::Mode;
use plain_file::{First, List, MAX_FILE, MAX_FILES, Memory};
use plain_text::next_word;
use std::alloc::Global;
use std::marker::Model;
use std::mem::replace;

// The most calls of a script, and the most bytes that they move together.
const MAX_CALLS: u64 = 65_536;

const MAX_MOVED: u64 = 67_108_864;

const MAX_GUESTS: usize = 16;

const MAX_BACKGROUND: u64 = 65_536;

// The script so far. Contracts see the definition's draft; the totals beside it spare a walk over all
// calls for each line.
#[derive(Debug, Drop)]
pub(crate) struct Reading {
    ranges: Option<u32>,
    background: Option<u32>,
    files: List<FileLine>,
    done: List<List<Call>>,
    calls: Option<List<Call>>,
    held: Vec<Mode>,
    made: u64,
    bytes: u64,
}

impl Model for Reading {
    ghost use Rattle.std.specs.Prelude.{◌≤◌, length};
    ghost use Rattle.plain_file.specs.Limits.{max_files};
    ghost use Rattle.dax_script.specs.ScriptText.{Draft};
    ghost use Rattle.dax_script.specs.Totals.{AreTotals};

    ghost Value = { Draft };

    ghost view = { λ it. record { ranges = it.ranges; background = it.background; files = it.files; done = it.done; calls = it.calls } };

    ghost invariant = { λ it. AreTotals it.done it.calls it.held.items it.made it.bytes × (length it.files ≤ max_files) };
}

impl Reading {
    pub(crate) fn new(alloc: Global) -> Reading
        ensures { result ≡ start }
    {
        Reading {
            ranges: None,
            background: None,
            files: List::new(alloc),
            done: List::new(alloc),
            calls: None,
            held: Vec::new(alloc),
            made: 0,
            bytes: 0,
        }
    }

    // A call more of the guest at hand. After `Memory` all is as it was.
    #[tactic(auto, unfolding(crate::specs::ScriptText::call_added))]
    fn add_call(&mut self, ranges: u32, call: Call) -> Result<(), Halt>
        ensures { IfSome self.old.calls (λ cs. Turns result self.new (call_added self.old ranges cs call)) }
    {
        let made = self.made + 1;
        let bytes = self.bytes.saturating_add(moved_by(&call));
        if made > MAX_CALLS || bytes > MAX_MOVED {
            return Err(Halt::Bad(Why::Limit));
        }
        if call.is_hold() && ranges == 0 {
            return Err(Halt::Bad(Why::Window));
        }
        let Some(calls) = &mut self.calls else {
            return Err(Halt::Bad(Why::Order));
        };
        let mode = held_mode(&call);
        make_room(&mut self.held, mode)?;
        calls.push(call)?;
        put_mode(&mut self.held, mode);
        self.made = made;
        self.bytes = bytes;
        Ok(())
    }

    #[tactic(auto, unfolding(crate::specs::ScriptText::call_line))]
    fn read_call_line(
        &mut self,
        alloc: Global,
        ranges: u32,
        verb: &[u8],
        line: &[u8],
    ) -> Result<(), Halt>
        ensures { Turns result self.new (call_line self.old ranges self.old.calls verb.now (words_of line.now)) }
    {
        if self.calls.is_none() {
            return Err(Halt::Bad(Why::Order));
        }
        let call = call_of(
            alloc,
            self.files.as_slice(),
            self.held.as_slice(),
            verb,
            line,
        )?;
        self.add_call(ranges, call)
    }

    #[tactic(auto, unfolding(crate::specs::ScriptText::ranges_line))]
    fn read_ranges(&mut self, line: &[u8]) -> Result<(), Halt>
        ensures { Turns result self.new (ranges_line self.old (words_of line.now)) }
    {
        let n = one(line)?;
        let n = ranges_number(n)?;
        self.ranges = Some(n);
        Ok(())
    }

    #[tactic(auto, unfolding(crate::specs::ScriptText::background_line))]
    fn read_background(&mut self, ranges: u32, line: &[u8]) -> Result<(), Halt>
        ensures { Turns result self.new (background_line self.old ranges (words_of line.now)) }
    {
        let n = one(line)?;
        let n = between(0, MAX_BACKGROUND, n)?;
        if ranges == 0 && n != 0 {
            return Err(Halt::Bad(Why::Window));
        }
        self.background = Some(n as u32);
        Ok(())
    }

    #[tactic(auto, unfolding(crate::specs::ScriptText::file_line))]
    fn read_file(&mut self, alloc: Global, line: &[u8]) -> Result<(), Halt>
        ensures { Turns result self.new (file_line self.old (words_of line.now)) }
    {
        let file = file_of_words(alloc, self.files.as_slice(), line)?;
        if self.files.len() >= MAX_FILES as usize {
            return Err(Halt::Bad(Why::Limit));
        }
        self.files.push(file)?;
        Ok(())
    }

    #[tactic(auto, using(crate::proofs::Totals::totals_guest), unfolding(crate::specs::ScriptText::guest_line))]
    fn with_guest(self, alloc: Global, line: &[u8]) -> Result<Reading, Halt>
        ensures { Gives result (guest_line self (words_of line.now)) }
    {
        none(line)?;
        let Reading {
            ranges,
            background,
            files,
            done,
            calls,
            made,
            bytes,
            ..
        } = self;
        let done = guests_with(done, calls)?;
        if done.len() >= MAX_GUESTS {
            return Err(Halt::Bad(Why::Limit));
        }
        Ok(Reading {
            ranges,
            background,
            files,
            done,
            calls: Some(List::new(alloc)),
            held: Vec::new(alloc),
            made,
            bytes,
        })
    }

    fn is_first(&self) -> bool
        ensures { result ≡ is_first self.now }
    {
        self.background.is_none() && self.files.is_empty() && self.calls.is_none()
    }

    fn has_no_guest(&self) -> bool
        ensures { result ≡ is_none self.now.calls }
    {
        self.calls.is_none()
    }

    // A new guest. After an error the reading is a new one.
    fn read_guest(&mut self, alloc: Global, line: &[u8]) -> Result<(), Halt>
        ensures { Turns result self.new (guest_line self.old (words_of line.now)) }
    {
        let reading = replace(self, Reading::new(alloc));
        *self = reading.with_guest(alloc, line)?;
        Ok(())
    }

    #[tactic(auto, unfolding(crate::specs::ScriptText::later_line))]
    fn read_later(
        &mut self,
        alloc: Global,
        ranges: u32,
        verb: &[u8],
        line: &[u8],
    ) -> Result<(), Halt>
        ensures { Turns result self.new (later_line self.old ranges verb.now (words_of line.now)) }
    {
        if verb == b"background".as_slice() {
            if !self.is_first() {
                return Err(Halt::Bad(Why::Order));
            }
            self.read_background(ranges, line)
        } else if verb == b"file".as_slice() {
            if !self.has_no_guest() {
                return Err(Halt::Bad(Why::Order));
            }
            self.read_file(alloc, line)
        } else if verb == b"guest".as_slice() {
            self.read_guest(alloc, line)
        } else {
            self.read_call_line(alloc, ranges, verb, line)
        }
    }

    #[tactic(auto, unfolding(crate::specs::ScriptText::worded_line))]
    fn read_words(&mut self, alloc: Global, verb: &[u8], line: &[u8]) -> Result<(), Halt>
        ensures { Turns result self.new (worded_line self.old self.old.ranges verb.now (words_of line.now)) }
    {
        match self.ranges {
            Some(ranges) => self.read_later(alloc, ranges, verb, line),
            None => {
                if verb != b"ranges".as_slice() {
                    return Err(Halt::Bad(Why::Order));
                }
                self.read_ranges(line)
            }
        }
    }

    // Reads a line more. A line of spaces alone and a comment change nothing.
    #[tactic(auto, unfolding(crate::specs::ScriptText::line_read, crate::specs::ScriptText::worded))]
    pub(crate) fn read_line(&mut self, alloc: Global, line: &[u8]) -> Result<(), Halt>
        ensures { Turns result self.new (line_read self.old line.now) }
    {
        if is_comment(line) {
            return Ok(());
        }
        match next_word(line) {
            None => Ok(()),
            Some((verb, rest)) => self.read_words(alloc, verb, rest),
        }
    }

    // The script of the lines, which ended before the `line`-th.
    #[tactic(auto, unfolding(crate::specs::ScriptText::finished))]
    pub(crate) fn finish(self, line: u64) -> Result<Script, BadScript>
        ensures { Parses result (finished line self self.ranges) }
    {
        let Reading {
            ranges,
            background,
            files,
            done,
            calls,
            ..
        } = self;
        let Some(ranges) = ranges else {
            return Err(BadScript::Line {
                line,
                why: Why::Order,
            });
        };
        let Ok(guests) = guests_with(done, calls) else {
            return Err(BadScript::Memory);
        };
        Ok(Script {
            ranges,
            background: background.unwrap_or(0),
            files,
            guests,
        })
    }
}

fn is_comment(line: &[u8]) -> bool
    ensures { result ≡ is_comment line.now }
{
    match line {
        [b, ..] => *b == b'#',
        [] => false,
    }
}

fn guests_with(
    mut done: List<List<Call>>,
    calls: Option<List<Call>>,
) -> Result<List<List<Call>>, Memory>
    ensures { IfOk result (λ guests. guests ≡ guests_with done calls) }
{
    if let Some(calls) = calls {
        done.push(calls)?;
    }
    Ok(done)
}

// The file of a line, with the byte that fills it or without.
#[tactic(auto, unfolding(crate::specs::ScriptText::file_of_words))]
fn file_of_words(alloc: Global, files: &[FileLine], line: &[u8]) -> Result<FileLine, Halt>
    ensures { Gives result (file_of_words files.now (words_of line.now) (three (words_of line.now))) }
{
    match three(line) {
        Ok((name, size, fill)) => filled_file(alloc, files, name, size, fill),
        Err(_) => zeros_file(alloc, files, line),
    }
}

#[tactic(auto, unfolding(crate::specs::ScriptText::zeros_file))]
fn zeros_file(alloc: Global, files: &[FileLine], line: &[u8]) -> Result<FileLine, Halt>
    ensures { Gives result (zeros_file files.now (words_of line.now)) }
{
    let (name, size) = two(line)?;
    let name = new_name(alloc, files, name)?;
    let size = between(0, MAX_FILE, size)?;
    Ok(FileLine {
        name,
        first: First { size, fill: 0 },
    })
}

#[tactic(auto, unfolding(crate::specs::ScriptText::filled_file))]
fn filled_file(
    alloc: Global,
    files: &[FileLine],
    name: &[u8],
    size: &[u8],
    fill: &[u8],
) -> Result<FileLine, Halt>
    ensures { Gives result (filled_file files.now (name.now, size.now, fill.now)) }
{
    let name = new_name(alloc, files, name)?;
    let size = between(0, MAX_FILE, size)?;
    let fill = byte(fill)?;
    Ok(FileLine {
        name,
        first: First { size, fill },
    })
}

#[tactic(auto, unfolding(crate::specs::ScriptText::moved_by))]
pub(crate) fn moved_by(call: &Call) -> u64
    ensures { result ≡ moved_by call.now }
{
    match call {
        Call::Read { len, .. } | Call::Fill { len, .. } | Call::Load { len, .. } => *len as u64,
        Call::Write { bytes, .. } | Call::Store { bytes, .. } => bytes.len() as u64,
        Call::Size { .. } | Call::Truncate { .. } | Call::Hold { .. } | Call::Release { .. } => 0,
    }
}

#[tactic(auto, unfolding(crate::specs::ScriptWords::held_mode))]
pub(crate) fn held_mode(call: &Call) -> Option<Mode>
    ensures { result ≡ held_mode call.now }
{
    match call {
        Call::Hold { mode, .. } => Some(*mode),
        _ => None,
    }
}

// Room for the mode that a call adds.
fn make_room(held: &mut Vec<Mode>, mode: Option<Mode>) -> Result<(), Memory>
    ensures same { held.new.items ≡ held.old.items }
    ensures room { OnOk result (vec_len held.new + length (modes_of mode) ≤ vec_capacity held.new) }
{
    if mode.is_some() {
        held.reserve(1)?;
    }
    Ok(())
}

fn put_mode(held: &mut Vec<Mode>, mode: Option<Mode>)
    requires { vec_len held.old + length (modes_of mode) ≤ vec_capacity held.old }
    ensures { held.new.items ≡ held.old.items ++ modes_of mode }
{
    if let Some(mode) = mode {
        held.push(mode).unwrap();
    }
}
