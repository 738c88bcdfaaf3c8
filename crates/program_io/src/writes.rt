ghost use Rattle.std.specs.Prelude.{◌≤◌, OnOk, OnErr};
ghost use Rattle.std.specs.Io.KnownBytes.{Appends};
ghost use Rattle.plain_file.specs.Counts.{Rose};
ghost use Rattle.program_io.specs.Causes.{AppendsFront, AppendsPart};

use crate::traits::{Failed, Sink};

/// Writes a text: each turn offers the sink all of it that wasn't taken yet, so a text that isn't
/// empty is one call where the sink takes it whole. A sink that takes nothing of a piece that isn't
/// empty has failed. After `Failed`, which comes only where the sink's count of faults rose, a
/// front of the text was taken, not all of it, and none of it is to be offered again.
pub fn write_all<K: Sink>(sink: &mut K, text: &[u8]) -> Result<(), Failed>
    ensures ok { OnOk result (Appends (K.taken sink.old) (K.taken sink.new) text.now) }
    ensures front { AppendsFront (K.taken sink.old) (K.taken sink.new) text.now }
    ensures part { OnErr result (AppendsPart (K.taken sink.old) (K.taken sink.new) text.now) }
    ensures failed { OnErr result (Rose (K.faults sink.old) (K.faults sink.new)) }
    ensures later { K.faults sink.old ≤ K.faults sink.new }
{
    let mut done = 0;
    while done < text.len() {
        let n = sink.write(text.split_at(done).1)?;
        if n == 0 {
            return Err(Failed);
        }
        done += n;
    }
    Ok(())
}
