ghost use Rattle.std.specs.Prelude.{◌≡◌, ◌<◌, ◌≤◌, ◌^◌, [], ◌∷◌, length, IfSome};
ghost use Rattle.plain_text.specs.Numbers.{number_of, number_after, number_within};

/// The number that a word writes: `0`, or at most 20 digits of which the first isn't 0. None for
/// another word.
#[tactic(auto, unfolding(crate::specs::Numbers::number_of))]
pub fn number(word: &[u8]) -> Option<u128>
    ensures value { result ≡ number_of word.now }
    ensures most { IfSome result (λ n. n < 10 ^ 20) }
{
    if word.is_empty() || word.len() > 20 {
        return None;
    }
    if word[0] == b'0' && word.len() != 1 {
        return None;
    }
    if word.len() < 20 {
        return widened(digits(word));
    }
    all_digits(word)
}

// The number that 20 digits write.
fn all_digits(word: &[u8]) -> Option<u128>
    requires { length word.now ≡ 20 }
    ensures value { result ≡ number_after 0 word.now }
    ensures most { IfSome result (λ n. n < 10 ^ 20) }
{
    let n = digits(word.split_at(19).0)?;
    with_digit(n, word[19])
}

// The number that at most 19 digits write, so that it fits 64 bits.
fn digits(word: &[u8]) -> Option<u64>
    requires { length word.now ≤ 19 }
    ensures value { result ≡ number_after 0 word.now }
    ensures most { IfSome result (λ n. n < 10 ^ 19) }
{
    let mut n = 0u64;
    let mut rest = word;
    while let [c, after @ ..] = rest {
        if !c.is_ascii_digit() {
            return None;
        }
        n = n * 10 + (*c - b'0') as u64;
        rest = after;
    }
    Some(n)
}

fn widened(n: Option<u64>) -> Option<u128>
    requires { IfSome n (λ n. n < 10 ^ 19) }
    ensures value { result ≡ n }
    ensures most { IfSome result (λ m. m < 10 ^ 19) }
{
    match n {
        Some(n) => Some(n as u128),
        None => None,
    }
}

// The number with one digit more behind it.
fn with_digit(n: u64, digit: u8) -> Option<u128>
    requires { n < 10 ^ 19 }
    ensures value { result ≡ number_after n (digit ∷ []) }
    ensures most { IfSome result (λ m. m < 10 ^ 20) }
{
    if !digit.is_ascii_digit() {
        return None;
    }
    Some(n as u128 * 10 + (digit - b'0') as u128)
}

/// The number that a word writes, where it is one of at most `limit`; None for another word.
#[tactic(auto, unfolding(crate::specs::Numbers::number_within))]
pub fn number_up_to(word: &[u8], limit: u64) -> Option<u64>
    ensures value { result ≡ number_within word.now limit }
    ensures within { IfSome result (λ n. n ≤ limit) }
{
    match number(word) {
        None => None,
        Some(n) => {
            if n > limit as u128 {
                None
            } else {
                Some(n as u64)
            }
        }
    }
}
