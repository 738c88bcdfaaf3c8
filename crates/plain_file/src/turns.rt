ghost use Rattle.std.specs.Prelude.{◌≡◌, ◌<◌, ◌≤◌, true, None, Some, length, sum};
ghost use Rattle.plain_file.specs.File.{max_file, reach};
ghost use Rattle.plain_file.specs.Turns.{Enters, left, Leases, leases_on, unleased, Bars, with_bar, AppliesAs};

use crate::boards::FileBoard;
use crate::operations::{Applied, Op};
use crate::refusals::{BoardRefusal, Leased};
use std::alloc::Global;
use std::sync::Wait;

/// Files of guests that run side by side: a turn for each operation, leases that keep a file from
/// shrinking, and a bar without which nobody shrinks it.
///
/// A board has at most one turn and one bar, and fewer than 65 leases, as `hands` of its view tells.
/// Each call changes of them what it says and nothing else. A size that `lease` answers is *noted*: it is
/// that after some front of the file's history, at least as long as what the board had seen of it before
/// and at most as long as what it sees at its next `enter`. While the board has a lease on the file, the
/// size doesn't fall below it, but by the board's own operations on a plain board.
///
/// `enter`, `lease` and `bar` wait where another guest has what they want. On a plain board none waits.
pub trait FileTurns: FileBoard {
    /// Takes the turn of a file, and gets to see all of its history: the file is ready then. No turn is
    /// had before. It waits while another guest has the turn.
    fn enter<R: Wait>(&mut self, rt: &R, file: u32)
        requires file { file < length (Self.board self.old).files }
        requires free { (Self.board self.old).hands.turn ≡ None }
        ensures { Enters (Self.board self.old) file (Self.board self.new) };

    /// Gives back the turn of a file, which was had by `enter`. Whoever enters from here on sees the
    /// entry that was made in it.
    fn leave(&mut self, file: u32)
        requires file { file < length (Self.board self.old).files }
        requires had { (Self.board self.old).hands.turn ≡ Some file }
        ensures { Self.board self.new ≡ left (Self.board self.old) file };

    /// Leases a file, and answers its size in bytes, which is noted under the lease. The board may
    /// lease, has no bar and fewer than 64 leases. It waits while another guest has the bar.
    fn lease<R: Wait>(&mut self, rt: &R, file: u32) -> u64
        requires file { file < length (Self.board self.old).files }
        requires may { (Self.board self.old).may_lease ≡ true }
        requires unbarred { (Self.board self.old).hands.bar ≡ None }
        requires few { sum (Self.board self.old).hands.leases < 64 }
        ensures { Leases (Self.board self.old) file result (Self.board self.new) };

    /// Gives back one lease on a file, of those that are had.
    fn unlease(&mut self, file: u32)
        requires file { file < length (Self.board self.old).files }
        requires had { 0 < leases_on (Self.board self.old) file }
        ensures { Self.board self.new ≡ unleased (Self.board self.old) file };

    /// Takes the bar on a file. The board has no bar before. It waits while another guest has the bar.
    /// `Leased` comes exactly where leases were seen on the file at the one step of the call, the
    /// board's own among them, and tells how many; the board counts the refusal then, and keeps what
    /// was seen.
    fn bar<R: Wait>(&mut self, rt: &R, file: u32) -> Result<(), Leased>
        requires file { file < length (Self.board self.old).files }
        requires unbarred { (Self.board self.old).hands.bar ≡ None }
        ensures { Bars (Self.board self.old) file result (Self.board self.new) };

    /// Gives back the bar on a file, which is had.
    fn unbar(&mut self, file: u32)
        requires had { (Self.board self.old).hands.bar ≡ Some file }
        ensures { Self.board self.new ≡ with_bar (Self.board self.old) None };
}

/// Enters a file, applies an operation to it, and leaves it. No turn is had before. Entries of others
/// may come before the operation's; the answer is the plain file's after all of them.
///
/// `Unbarred` and `Memory` come as `FileBoard::apply` says. Then no entry was made, but the others' were
/// seen.
pub fn apply_as<R: Wait, F: FileTurns>(
    rt: &R,
    alloc: Global,
    files: &mut F,
    file: u32,
    op: Op,
) -> Result<Applied, BoardRefusal>
    requires file { file < length (F.board files.old).files }
    requires free { (F.board files.old).hands.turn ≡ None }
    requires fits { reach op ≤ max_file }
    ensures { AppliesAs (F.board files.old) file op result (F.board files.new) }
{
    files.enter(rt, file);
    files.sound(file);
    let result = files.apply(alloc, file, op);
    files.leave(file);
    result
}
