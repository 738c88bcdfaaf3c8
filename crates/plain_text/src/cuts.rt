ghost use Rattle.std.specs.Prelude.{◌≡◌, ◌<◌, ◌∷◌, [], List, ℕ, length, position, IfSome, MatchOption};
ghost use Rattle.plain_text.specs.Words.{parts, is_byte, words_of};

use memchr::memchr;

/// The part of `bytes` up to the first separator, and what lies behind the separator; without a
/// separator the part is all of `bytes`, and None lies behind it.
pub fn cut(bytes: &[u8], separator: u8) -> (&[u8], Option<&[u8]>)
    ensures parts { MatchOption result.1 (parts separator bytes.now ≡ result.0.now ∷ []) (λ rest. parts separator bytes.now ≡ result.0.now ∷ parts separator rest.now) }
    ensures more { IfSome result.1 (λ rest. (next : List ℕ) × (others : List (List ℕ)) × (parts separator rest.now ≡ next ∷ others)) }
    ensures falls { IfSome result.1 (λ rest. length rest.now < length bytes.now) }
{
    parted(bytes, separator, place_of(bytes, separator))
}

// The part of `bytes` up to the first separator and what lies behind it, by where that stands.
fn parted(bytes: &[u8], separator: u8, place: Option<usize>) -> (&[u8], Option<&[u8]>)
    requires value { place ≡ position (is_byte separator) bytes.now }
    requires within { IfSome place (λ at. at < length bytes.now) }
    ensures parts { MatchOption result.1 (parts separator bytes.now ≡ result.0.now ∷ []) (λ rest. parts separator bytes.now ≡ result.0.now ∷ parts separator rest.now) }
    ensures more { IfSome result.1 (λ rest. (next : List ℕ) × (others : List (List ℕ)) × (parts separator rest.now ≡ next ∷ others)) }
    ensures falls { IfSome result.1 (λ rest. length rest.now < length bytes.now) }
{
    let _ = separator;
    match place {
        None => (bytes, None),
        Some(at) => {
            let (first, rest) = bytes.split_at(at);
            (first, Some(rest.split_at(1).1))
        }
    }
}

fn place_of(bytes: &[u8], separator: u8) -> Option<usize>
    ensures value { result ≡ position (is_byte separator) bytes.now }
    ensures within { IfSome result (λ at. at < length bytes.now) }
{
    memchr(separator, bytes)
}

// How many bytes are looked at one by one where a word is likely to be short.
const NEAR: usize = 8;

fn place_one_by_one(bytes: &[u8], separator: u8) -> Option<usize>
    ensures value { result ≡ position (is_byte separator) bytes.now }
    ensures within { IfSome result (λ at. at < length bytes.now) }
{
    bytes.iter().position(|b| *b == separator)
}

// The same place, by a search that is fast where it is near.
fn near_place_of(bytes: &[u8], separator: u8) -> Option<usize>
    ensures value { result ≡ position (is_byte separator) bytes.now }
    ensures within { IfSome result (λ at. at < length bytes.now) }
{
    let (front, back) = bytes.split_at(bytes.len().min(NEAR));
    if let Some(at) = place_one_by_one(front, separator) {
        return Some(at);
    }
    let Some(at) = place_of(back, separator) else {
        return None;
    };
    Some(front.len() + at)
}

/// The next word of a line, without the spaces round it, and what lies behind the word; None where
/// no word is left.
pub fn next_word(line: &[u8]) -> Option<(&[u8], &[u8])>
    ensures words { MatchOption result (words_of line.now ≡ []) (λ next. words_of line.now ≡ next.0.now ∷ words_of next.1.now) }
    ensures some { IfSome result (λ next. 0 < length next.0.now) }
{
    let mut rest = line;
    loop {
        let (word, after) = parted(rest, b' ', near_place_of(rest, b' '));
        if !word.is_empty() {
            return Some((word, after.unwrap_or(&[])));
        }
        match after {
            Some(after) => rest = after,
            None => return None,
        }
    }
}
