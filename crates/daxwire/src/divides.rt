ghost use Rattle.std.specs.Prelude.{◌≡◌, None, Some, MatchOption};
ghost use Rattle.daxwire.specs.AuditText.{texts_of};

use plain_text::cut;

/// The text before the first line that is `---`, and the one behind that line's end; None where no line
/// is. The last line of an input needs no end.
#[tactic(auto, using(crate::proofs::Divided::cut_at_start, crate::proofs::Divided::divided_within, crate::proofs::Divided::divided_last, crate::proofs::Divided::undivided, crate::proofs::Divided::line_passed))]
pub fn divide(input: &[u8]) -> Option<(&[u8], &[u8])>
    ensures { MatchOption result (texts_of input.now ≡ None) (λ texts. texts_of input.now ≡ Some (record { script = texts.0.now; transcript = texts.1.now })) }
{
    let mut passed = 0;
    let mut rest = input;
    loop {
        let (line, after) = cut(rest, b'\n');
        if line == b"---".as_slice() {
            let script = input.split_at(passed).0;
            return match after {
                Some(after) => Some((script, after)),
                None => Some((script, &[])),
            };
        }
        let Some(after) = after else {
            return None;
        };
        passed += line.len() + 1;
        rest = after;
    }
}
