ghost use Rattle.std.specs.Prelude.{◌≡◌, ◌<◌, ◌*◌, true, length, Some, IfOk, IfSome};
ghost use Rattle.std.specs.List.{list_all};
ghost use Rattle.plain_text.specs.Hexadecimal.{hex_digit, is_digit, hex_pair, hex_pairs, hex_of, hex_byte_of};

use plain_file::{Blob, Memory};
use std::alloc::Global;

/// The bytes that a positive even number of lower case hexadecimal digits writes; None for another
/// word. `Memory` comes where the allocation was refused.
#[tactic(auto, unfolding(crate::specs::Hexadecimal::hex_of))]
pub fn hex_bytes(alloc: Global, word: &[u8]) -> Result<Option<Blob>, Memory>
    ensures { IfOk result (λ o. o ≡ hex_of word.now) }
{
    if word.is_empty() {
        return Ok(None);
    }
    pairs(alloc, word)
}

fn pairs(alloc: Global, word: &[u8]) -> Result<Option<Blob>, Memory>
    ensures { IfOk result (λ o. o ≡ hex_pairs word.now) }
{
    let half = word.len() / 2;
    if word.len() != 2 * half {
        return Ok(None);
    }
    if !are_digits(word) {
        return Ok(None);
    }
    let mut bytes = vec![in alloc; 0; half]?;
    write_pairs(&mut bytes, word);
    Ok(Some(Blob::from_vec(bytes)))
}

// Without a way out before the end, so that the compiler makes a loop over several bytes at once of it.
#[tactic(auto, using(std::proofs::lemmas::List::Folds::list_all_more))]
fn are_digits(word: &[u8]) -> bool
    ensures { result ≡ list_all is_digit word.now }
{
    let mut all = true;
    for i in 0..word.len() {
        all = all & is_digit(word[i]);
    }
    all
}

fn is_digit(c: u8) -> bool
    ensures { result ≡ is_digit c }
{
    digit(c).is_some()
}

// The bytes of digits, two a byte.
fn write_pairs(bytes: &mut [u8], word: &[u8])
    requires digits { list_all is_digit word.now ≡ true }
    requires pairs { length word.now ≡ 2 * length bytes.old }
    ensures { hex_pairs word.now ≡ Some bytes.new }
{
    for i in 0..bytes.len() {
        bytes[i] = value(word[2 * i]) * 16 + value(word[2 * i + 1]);
    }
}

// The value of a digit, without a branch.
fn value(c: u8) -> u8
    requires { is_digit c ≡ true }
    ensures value { hex_digit c ≡ Some result }
    ensures most { result < 16 }
{
    let zero = if c > b'9' { b'a' - 10 } else { b'0' };
    c - zero
}

/// The byte that a word of two lower case hexadecimal digits writes; None for another word.
#[tactic(auto, unfolding(crate::specs::Hexadecimal::hex_byte_of))]
pub fn hex_byte(word: &[u8]) -> Option<u8>
    ensures { result ≡ hex_byte_of word.now }
{
    match word {
        [high, low] => pair(*high, *low),
        _ => None,
    }
}

fn pair(high: u8, low: u8) -> Option<u8>
    ensures { result ≡ hex_pair high low }
{
    let high = digit(high)?;
    let low = digit(low)?;
    Some(high * 16 + low)
}

fn digit(c: u8) -> Option<u8>
    ensures value { result ≡ hex_digit c }
    ensures most { IfSome result (λ v. v < 16) }
{
    if b'0' <= c && c <= b'9' {
        Some(c - b'0')
    } else if b'a' <= c && c <= b'f' {
        Some(c - b'a' + 10)
    } else {
        None
    }
}
