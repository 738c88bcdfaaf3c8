ghost use Rattle.std.specs.Prelude.{◌≡◌, ◌<◌, ◌^◌, IfOk};
ghost use Rattle.std.specs.List.{AllByRecursion};
ghost use Rattle.range_tree.specs.Ranges.{IsSoundRanges};
ghost use Rattle.transcript_text.specs.TranscriptReading.{IsPrintableAnswer};
ghost use Rattle.transcript_text.specs.declared.transcripts.Line.TheVariants as lines;
ghost use Rattle.guest_run.specs.Telling.{letter_of, letters_of, IsHonestAnswer, LineOf, HasFields};

use guest_io::{Done, Guest, Held, Refusal};
use page_map::{Look, RangeWord};
use plain_file::{Answer, Blob, List, Memory};
use range_tree::RangeBoard;
use std::alloc::Global;
use transcript_text::Line;

// What is told of an answer. Looks that it shows are noted no more.
#[tactic(auto, unfolding(crate::specs::Telling::HasFields, crate::specs::Telling::IsHonestAnswer))]
pub(crate) fn line_of<W, F, R: RangeBoard>(
    alloc: Global,
    guest: &mut Guest<W, F, R>,
    answer: Result<Line, Refusal>,
) -> Result<Line, Memory>
    requires honest { IsHonestAnswer answer }
    requires fields { IfOk answer HasFields }
    ensures line { LineOf (R.map guest.old.dax.ranges) answer result (R.map guest.new.dax.ranges) }
    ensures fields { IfOk result HasFields }
    ensures sound { IsSoundRanges (R.map guest.old.dax.ranges) }
    ensures driver { guest.new.dax.driver ≡ guest.old.dax.driver }
    ensures files { guest.new.dax.files ≡ guest.old.dax.files }
    ensures refs { guest.new.dax.refs ≡ guest.old.dax.refs }
    ensures holds { guest.new.holds ≡ guest.old.holds }
{
    guest.dax.ranges.sound_ranges();
    match answer {
        Ok(line) => Ok(line),
        Err(Refusal::Busy { looked }) => {
            guest.dax.ranges.forget_looks();
            let letters = letters_of(alloc, looked.as_slice())?;
            Ok(Line::Busy { letters })
        }
        Err(Refusal::Leased { count }) => Ok(Line::Leased { count }),
        Err(Refusal::NoHold { .. }) => Ok(Line::NoHold),
        Err(Refusal::Past { end }) => Ok(Line::Past { end }),
        Err(Refusal::Memory) => Err(Memory),
        Err(_) => unreachable!(),
    }
}

// The line of a call that was done.
#[tactic(auto, unfolding(crate::specs::Telling::HasFields))]
pub(crate) fn done_line(done: Done) -> Line
    ensures line { result ≡ lines.Done done.place done.answer }
    ensures fields { HasFields result }
{
    let Done { place, answer } = done;
    sound_answer(&answer);
    Line::Done { place, answer }
}

// The line of a hold that was granted.
#[tactic(auto, unfolding(crate::specs::Telling::HasFields))]
pub(crate) fn held_line(held: Held) -> Line
    ensures line { result ≡ lines.Held held.end held.through }
    ensures fields { HasFields result }
{
    sound_number(held.through.entry);
    sound_number(held.through.upto);
    Line::Held {
        end: held.end,
        through: held.through,
    }
}

// A letter for each look.
fn letters_of(alloc: Global, looked: &[Look]) -> Result<Blob, Memory>
    ensures { IfOk result (λ letters. letters ≡ letters_of looked.now) }
{
    let mut letters = Vec::new(alloc);
    for look in looked {
        letters.push(letter_of(look.word))?;
    }
    Ok(List::from_vec(letters))
}

#[tactic(auto, unfolding(crate::specs::Telling::letter_of))]
fn letter_of(word: RangeWord) -> u8
    ensures { result ≡ letter_of word }
{
    match word {
        RangeWord::Free | RangeWord::Moving { .. } => b'm',
        RangeWord::Mapped { .. } => b'p',
    }
}

// Does nothing. That is how a proof knows that numbers and bytes of an answer are within their fields.
#[tactic(auto, unfolding(transcript_text::specs::TranscriptReading::IsPrintableAnswer))]
fn sound_answer(answer: &Answer)
    ensures { IsPrintableAnswer answer.now }
{
    match answer {
        Answer::Bytes(bytes) => sound_bytes(bytes.as_slice()),
        Answer::Wrote(count) => sound_number(*count),
        Answer::Size(size) => sound_number(*size),
    }
}

fn sound_number(n: u64)
    ensures { n < 2 ^ 64 }
{}

fn sound_bytes(bytes: &[u8])
    ensures { AllByRecursion (λ b. b < 256) bytes.now }
{}
