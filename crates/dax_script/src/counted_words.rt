//! The words of a line behind its first one, so many and no more.

ghost use Rattle.std.specs.Prelude.{◌≡◌, Ok, Err, MatchResult};
ghost use Rattle.plain_text.specs.Words.{words_of};
ghost use Rattle.dax_script.specs.Steps.{none, one, two, three, four};

use crate::whys::Why;
use plain_text::next_word;

#[tactic(auto, unfolding(crate::specs::Steps::none))]
pub(crate) fn none(line: &[u8]) -> Result<(), Why>
    ensures { result ≡ none (words_of line.now) }
{
    match next_word(line) {
        None => Ok(()),
        Some(_) => Err(Why::Words),
    }
}

#[tactic(auto, using(crate::proofs::CountedWords::counting), unfolding(crate::specs::Steps::one))]
pub(crate) fn one(line: &[u8]) -> Result<&[u8], Why>
    ensures { MatchResult result (λ a. one (words_of line.now) ≡ Ok a.now) (λ why. one (words_of line.now) ≡ Err why) }
{
    let Some((a, rest)) = next_word(line) else {
        return Err(Why::Words);
    };
    none(rest)?;
    Ok(a)
}

#[tactic(auto, using(crate::proofs::CountedWords::counting), unfolding(crate::specs::Steps::two))]
pub(crate) fn two(line: &[u8]) -> Result<(&[u8], &[u8]), Why>
    ensures { MatchResult result (λ w. two (words_of line.now) ≡ Ok (w.0.now, w.1.now)) (λ why. two (words_of line.now) ≡ Err why) }
{
    let Some((a, rest)) = next_word(line) else {
        return Err(Why::Words);
    };
    let b = one(rest)?;
    Ok((a, b))
}

#[tactic(auto, using(crate::proofs::CountedWords::counting), unfolding(crate::specs::Steps::three))]
pub(crate) fn three(line: &[u8]) -> Result<(&[u8], &[u8], &[u8]), Why>
    ensures { MatchResult result (λ w. three (words_of line.now) ≡ Ok (w.0.now, w.1.now, w.2.now)) (λ why. three (words_of line.now) ≡ Err why) }
{
    let Some((a, rest)) = next_word(line) else {
        return Err(Why::Words);
    };
    let (b, c) = two(rest)?;
    Ok((a, b, c))
}

#[tactic(auto, using(crate::proofs::CountedWords::counting), unfolding(crate::specs::Steps::four))]
pub(crate) fn four(line: &[u8]) -> Result<(&[u8], &[u8], &[u8], &[u8]), Why>
    ensures { MatchResult result (λ w. four (words_of line.now) ≡ Ok (w.0.now, w.1.now, w.2.now, w.3.now)) (λ why. four (words_of line.now) ≡ Err why) }
{
    let Some((a, rest)) = next_word(line) else {
        return Err(Why::Words);
    };
    let (b, c, d) = three(rest)?;
    Ok((a, b, c, d))
}
