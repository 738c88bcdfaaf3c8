ghost use Rattle.std.specs.Prelude.{◌≡◌, ◌≢◌, [], drop, map, IfErr, IfOk, IsErr, IsOk};
ghost use Rattle.std.specs.IoError.{error_kind};
ghost use Rattle.std.specs.String.{string_bytes};
ghost use Rattle.std.specs.Vec.Iter.{into_iter_items};

use plain_file::{Blob, List, Memory};
use std::alloc::Global;
use std::env::Args;
use std::io;
use std::io::ErrorKind;

/// The bytes of one word of the command line. The words of a command line don't have the program's
/// name among them.
pub type Word = Blob;

/// The words of a command line, as `std::env::args` gives it: all of those behind the program's name,
/// in their order. Where it can't be read there are none, so that it is no command. `Memory` comes
/// where memory was refused, for the command line or for its words.
pub fn command_words(alloc: Global, args: io::Result<Args>) -> Result<List<Word>, Memory>
    ensures words { IfOk args (λ args. IfOk result (λ words.
        words ≡ map string_bytes (drop 1 (into_iter_items args)))) }
    ensures none { IfErr args (λ _. IfOk result (λ words. words ≡ [])) }
    ensures unread { IfErr args (λ error. error_kind error ≢ ErrorKind.OutOfMemory → IsOk result) }
    ensures refused { IfErr args (λ error. error_kind error ≡ ErrorKind.OutOfMemory → IsErr result) }
{
    match args {
        Ok(args) => words_of(alloc, args),
        Err(error) if error.kind() == ErrorKind::OutOfMemory => Err(Memory),
        Err(_) => Ok(List::new(alloc)),
    }
}

// The words behind the first one.
fn words_of(alloc: Global, mut args: Args) -> Result<List<Word>, Memory>
    ensures { IfOk result (λ words. words ≡ map string_bytes (drop 1 (into_iter_items args))) }
{
    match args.next() {
        Some(_) => copies_of(alloc, args),
        None => Ok(List::new(alloc)),
    }
}

// Copies of the words that are left.
fn copies_of(alloc: Global, mut args: Args) -> Result<List<Word>, Memory>
    ensures { IfOk result (λ words. words ≡ map string_bytes (into_iter_items args)) }
{
    let mut words = List::new(alloc);
    while let Some(arg) = args.next() {
        words.push(Blob::copy_of(alloc, arg.as_bytes())?)?;
    }
    Ok(words)
}
