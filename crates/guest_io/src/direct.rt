ghost use Rattle.std.specs.Prelude.{◌≡◌, ◌<◌, ◌≤◌, None, length};
ghost use Rattle.plain_file.specs.File.{max_file, reach};
ghost use Rattle.plain_file.specs.Sound.{IsSoundBoard};
ghost use Rattle.guest_io.specs.Chunks.{AppliesDirect};
ghost use Rattle.guest_io.specs.Going.{StaysBoard, KeepsRefusals};

use crate::calls::Done;
use plain_file::{FileTurns, Memory, Op, Way, apply_as};
use std::alloc::Global;
use std::sync::Wait;

// Applies an operation that lowers no size, under the file's turn, with this call and way.
pub(crate) fn apply_direct<T: Wait, F: FileTurns>(
    rt: &T,
    alloc: Global,
    files: &mut F,
    file: u32,
    call: u32,
    way: Way,
    op: Op,
) -> Result<Done, Memory>
    requires file { file < length (F.board files.old).files }
    requires free { (F.board files.old).hands.turn ≡ None }
    requires fits { reach op ≤ max_file }
    ensures applies { AppliesDirect (F.board files.old) file call way op result (F.board files.new) }
    ensures stays { StaysBoard (F.board files.old) (F.board files.new) }
    ensures sound { IsSoundBoard (F.board files.new) file }
    ensures refusals { KeepsRefusals (F.board files.old) (F.board files.new) }
{
    files.mark(call, way);
    let applied = apply_as(rt, alloc, files, file, op);
    files.sound(file);
    match applied {
        Ok(applied) => Ok(Done {
            place: applied.place,
            answer: applied.answer,
        }),
        Err(_) => Err(Memory),
    }
}
