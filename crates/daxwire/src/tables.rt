ghost use Rattle.std.specs.Prelude.{◌<◌};

use crate::runs::run_wire;
use plain_file::{Blob, List, Memory};
use program_io::{MemSink, MemSource, Status, Word};
use std::alloc::Global;
use std::process::Abort;
use std::test::Fail;

/// What a source and a sink do: how many bytes a call gives or takes at the most, 0 for no bound,
/// and the call that fails, 0 for none.
#[derive(Clone, Copy)]
pub struct Ends {
    pub piece: u32,
    pub fails: u64,
}

/// No bound, and no call fails.
pub const SURE: Ends = Ends { piece: 0, fails: 0 };

fn calls(alloc: Global, fails: u64) -> Result<List<u64>, Memory> {
    let mut calls = List::new(alloc);
    if fails != 0 {
        calls.push(fails)?;
    }
    Ok(calls)
}

/// A command line's words, which spaces part.
pub fn words_of(alloc: Global, words: &str) -> Result<List<Word>, Memory> {
    let mut list = List::new(alloc);
    for word in words.split_whitespace() {
        list.push(Blob::copy_of(alloc, word.as_bytes())?)?;
    }
    Ok(list)
}

fn value_of(digit: u8) -> u8
    ensures { result < 16 }
{
    match digit {
        b'0'..=b'9' => digit - b'0',
        b'a'..=b'f' => digit - b'a' + 10,
        _ => 0,
    }
}

/// Adds the bytes of hexadecimal digits, which spaces may part.
pub fn put_hex(bytes: &mut Vec<u8>, text: &str) -> Result<(), Fail> {
    let mut high = None;
    for &digit in text.as_bytes() {
        if digit != b' ' {
            high = match high {
                None => Some(digit),
                Some(first) => {
                    bytes.push(16 * value_of(first) + value_of(digit))?;
                    None
                }
            };
        }
    }
    Ok(())
}

// The status of a run with these words over bytes in memory, and what was taken.
fn ran_by(
    alloc: Global,
    words: &[Word],
    input: Blob,
    from: Ends,
    to: Ends,
) -> Result<(Status, Blob), Fail> {
    let mut source = MemSource::new(input, from.piece, calls(alloc, from.fails)?);
    let mut sink = MemSink::new(alloc, to.piece, calls(alloc, to.fails)?);
    let status = run_wire(alloc, words, &mut source, &mut sink);
    Ok((status, sink.bytes().clone()?))
}

/// The same, with words that spaces part.
pub fn ran(
    alloc: Global,
    words: &str,
    input: Blob,
    from: Ends,
    to: Ends,
) -> Result<(Status, Blob), Fail> {
    let words = words_of(alloc, words)?;
    ran_by(alloc, words.as_slice(), input, from, to)
}

// A run in the making.
#[derive(Drop)]
struct Case {
    words: List<Word>,
    input: Vec<u8>,
    memory: usize,
    taken: Vec<u8>,
    from: Ends,
    to: Ends,
}

// The two numbers of a text.
fn pair(text: &str) -> Result<(u64, u64), Fail> {
    let (first, second) = text.split_once(' ').unwrap_or((text, "0"));
    Ok((first.parse::<u64>()?, second.parse::<u64>()?))
}

impl Case {
    fn new(alloc: Global, words: &str) -> Result<Case, Fail> {
        Ok(Case {
            words: words_of(alloc, words)?,
            input: Vec::new(alloc),
            memory: 0,
            taken: Vec::new(alloc),
            from: SURE,
            to: SURE,
        })
    }

    // The status of the run, and what was taken.
    fn run(&self, alloc: Global) -> Result<(Status, Blob), Fail> {
        let input = List::from_vec(self.input.clone()?);
        ran_by(alloc, self.words.as_slice(), input, self.from, self.to)
    }

    // Writes bytes into the memory.
    fn put(&mut self, alloc: Global, text: &str) -> Result<(), Fail> {
        let (addr, digits) = text.split_once(' ').unwrap_or((text, ""));
        let mut at = self.memory.wrapping_add(addr.parse::<usize>()?);
        let mut bytes = Vec::new(alloc);
        put_hex(&mut bytes, digits)?;
        for byte in bytes.iter().copied() {
            if let Some(place) = self.input.get_mut(at) {
                *place = byte;
            }
            at = at.wrapping_add(1);
        }
        Ok(())
    }

    // Adds so many bytes to the input, all the same.
    fn fill(&mut self, text: &str) -> Result<(), Fail> {
        let (count, byte) = pair(text)?;
        let byte = u8::try_from(byte).unwrap_or(0);
        for _ in 0..count {
            self.input.push(byte)?;
        }
        Ok(())
    }

    // Does what a line says, which is not to run.
    fn take(&mut self, alloc: Global, word: &str, rest: &str) -> Result<(), Fail> {
        match word {
            "in" => put_hex(&mut self.input, rest)?,
            "fill" => self.fill(rest)?,
            "memory" => {
                self.memory = self.input.len();
                self.fill(rest)?;
            }
            "at" => self.put(alloc, rest)?,
            "out" => put_hex(&mut self.taken, rest)?,
            "say" => {
                self.taken.extend_from_slice(rest.as_bytes())?;
                self.taken.push(b'\n')?;
            }
            "tell" => self.taken.extend_from_slice(rest.as_bytes())?,
            "source" => {
                let (piece, fails) = pair(rest)?;
                self.from = Ends {
                    piece: u32::try_from(piece).unwrap_or(0),
                    fails,
                };
            }
            "sink" => {
                let (piece, fails) = pair(rest)?;
                self.to = Ends {
                    piece: u32::try_from(piece).unwrap_or(0),
                    fails,
                };
            }
            _ => {}
        }
        Ok(())
    }
}

// The status of a name; none where it is no name of one.
fn status_of(name: &str) -> Option<Status> {
    match name {
        "ok" => Some(Status::Ok),
        "refused" => Some(Status::Refused),
        "usage" => Some(Status::Usage),
        "read-fault" => Some(Status::ReadFault),
        "write-fault" => Some(Status::WriteFault),
        "too-long" => Some(Status::TooLong),
        _ => None,
    }
}

/// Runs the cases of a table, and tells how many they were. Each line is a word, and what it is for:
///
/// - `begin WORDS`: a case begins, with the words of a command line.
/// - `in HEX`, `fill COUNT BYTE`: these bytes come to the input, or so many of one value.
/// - `memory COUNT`, `at ADDRESS HEX`: so many bytes of 0 come to the input, and bytes are put into them.
/// - `out HEX`, `say TEXT`, `tell TEXT`: these bytes, this line, or this text are expected too.
/// - `source PIECE CALL`, `sink PIECE CALL`: how many bytes a call gives or takes at the most, and
///   which call fails; 0 is for none.
/// - `ok`, `refused`, `usage`, `read-fault`, `write-fault`, `too-long`: the case is run, and ends with
///   this status. It may go on then.
pub fn run_table(rt: &impl Abort, alloc: Global, table: &str) -> Result<u32, Fail> {
    let mut case = Case::new(alloc, "")?;
    let mut count = 0u32;
    for line in table.lines() {
        let (word, rest) = line.split_once(' ').unwrap_or((line, ""));
        if word == "begin" {
            case = Case::new(alloc, rest)?;
        } else if let Some(status) = status_of(word) {
            let (got, taken) = case.run(alloc)?;
            assert_eq!(rt; got, status, "{line}");
            assert_eq!(rt; taken.as_slice(), case.taken.as_slice(), "{line}");
            count = count.wrapping_add(1);
        } else {
            case.take(alloc, word, rest)?;
        }
    }
    Ok(count)
}
