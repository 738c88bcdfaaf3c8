// Words are packed and read.
ghost use Rattle.std.specs.Prelude.{◌≡◌, Option};
ghost use Rattle.page_map.specs.declared.ranges.RangeWord.{RangeWord};
ghost use Rattle.page_map.specs.declared.ranges.Target.{Target};
ghost use Rattle.range_share.specs.Packed.{TargetFits, WordFits, control_word, map_word};

use page_map::{Mode, RangeWord, Target};

pub(crate) fn pack(word: RangeWord) -> u64
    requires { WordFits word }
    ensures { result ≡ control_word word }
{
    match word {
        RangeWord::Free => 0,
        RangeWord::Moving { guest } => 131_072 + 281_474_976_710_656 * u64::from(guest),
        RangeWord::Mapped {
            file,
            chunk,
            mode,
            pins,
        } => {
            let bit = match mode {
                Mode::R => 0,
                Mode::W => 65_536,
            };
            let place = 16_777_216 * u64::from(chunk) + 1_099_511_627_776 * u64::from(file);
            u64::from(pins) + bit + 262_144 + place
        }
    }
}

// What a control word says.
pub(crate) fn unpack(n: u64) -> RangeWord
    requires { (w : RangeWord) × WordFits w × (n ≡ control_word w) }
    ensures { WordFits result × (n ≡ control_word result) }
{
    let state = n / 131_072 % 4;
    if state == 0 {
        return RangeWord::Free;
    }
    if state == 1 {
        return RangeWord::Moving {
            guest: (n / 281_474_976_710_656) as u32,
        };
    }
    let mode = if n / 65_536 % 2 == 1 {
        Mode::W
    } else {
        Mode::R
    };
    RangeWord::Mapped {
        file: (n / 1_099_511_627_776) as u32,
        chunk: (n / 16_777_216 % 65_536) as u32,
        mode,
        pins: (n % 65_536) as u32,
    }
}

pub(crate) fn pack_map(target: Option<Target>) -> u64
    requires { TargetFits target }
    ensures { result ≡ map_word target }
{
    let Some(target) = target else {
        return 0;
    };
    let bit = match target.mode {
        Mode::R => 0,
        Mode::W => 2,
    };
    1 + bit + 16_777_216 * u64::from(target.chunk) + 1_099_511_627_776 * u64::from(target.file)
}

// What a map word says.
pub(crate) fn unpack_map(n: u64) -> Option<Target>
    requires { (t : Option Target) × TargetFits t × (n ≡ map_word t) }
    ensures { TargetFits result × (n ≡ map_word result) }
{
    if n % 2 == 0 {
        return None;
    }
    let mode = if n / 2 % 2 == 1 { Mode::W } else { Mode::R };
    Some(Target {
        file: (n / 1_099_511_627_776) as u32,
        chunk: (n / 16_777_216 % 65_536) as u32,
        mode,
    })
}
