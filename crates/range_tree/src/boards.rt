ghost use Rattle.std.specs.Prelude.{◌≡◌, ◌<◌, ◌*◌, true, None, IsSome, length, sum};
ghost use Rattle.std.specs.Option.{option_map};
ghost use Rattle.page_map.specs.Board.{Noted, log_at};
ghost use Rattle.page_map.specs.Logs.{placed_at};
ghost use Rattle.page_map.specs.Plain.{range_pages};
ghost use Rattle.range_tree.specs.Logs.{Finds};
ghost use Rattle.range_tree.specs.Ranges.{range_count, pins_on, max_pins, look_at, tree_slot, tree_of, Becomes, Enters, Leaves, Looks, forgot, Takes, CanSettle, Settles, with_moves, CanUpgrade, upgraded_in, with_pin, unpinned, Targets, IsSoundRanges};

use page_map::{MapBoard, Mode, Placed, RangeWord, Target};
use plain_file::Memory;
use std::sync::Wait;

/// The ranges of a window, and what one guest knows and has of them. Ranges and files are numbered from 0.
///
/// A range is free, moving by a guest, or mapped to a chunk of a file; its word tells which, and how many
/// pins keep it there. Which chunks of a file are placed is in the file's tree, with a log of how they came
/// there. A guest has at most one tree, moves at most one range, and has fewer than 65 pins; each call
/// changes of these what it says and nothing else.
///
/// What a board means stands in its view. `hands` is the tree, the moved range and the pins that it has.
/// `ranges` has, per file, the log as far as the board has seen it, which is the whole log while it has the
/// tree. It only grows: `enter` shows what others added, and `take`, `settle_mapped` and `upgrade` add an
/// entry each. It also has the noted looks and targets, and two counts: a *sweep* is noted looks of all
/// ranges, a *round* is a sweep in which each range was moving or had pins. The pages of the moved range,
/// and those of each range in the tree that is had, are held; a page that stays held keeps what is mapped
/// there.
///
/// No call changes the guest's number, whether it may take ranges and whether others may, the number of
/// ranges and files, or the table that the board stands over. Only `enter` waits.
pub trait RangeBoard: MapBoard {
    /// How many ranges there are. The window has 512 pages for each.
    fn ranges(&self) -> u32
        ensures count { result ≡ range_count (Self.map self.now) }
        ensures pages { length (Self.map self.now).table ≡ range_pages * result };

    /// Takes the tree of a file, and gets to see all of its log. No tree is had before. It waits while
    /// another guest has the tree. Where no other may move ranges, nothing new is seen.
    fn enter<W: Wait>(&mut self, rt: &W, file: u32)
        requires file { file < length (Self.map self.old).ranges.logs }
        requires free { (Self.map self.old).hands.tree ≡ None }
        ensures { Enters (Self.map self.old) file (Self.map self.new) };

    /// Gives back the tree, which is had.
    fn leave(&mut self)
        requires had { IsSome (Self.map self.old).hands.tree }
        ensures { Leaves (Self.map self.old) (Self.map self.new) };

    /// Where a chunk is placed, in the tree that is had: its range, what the placement allows now, and
    /// the place of its `Place` in the log. None exactly where no `Place` of it is live.
    fn find(&self, chunk: u32) -> Option<Placed>
        requires had { IsSome (Self.map self.now).hands.tree }
        ensures placed { result ≡ placed_at (log_at (Self.map self.now) (tree_of (Self.map self.now))) chunk }
        ensures live { Finds (log_at (Self.map self.now) (tree_of (Self.map self.now))) chunk result };

    /// How many entries the log of the tree has that is had.
    fn log_len(&self) -> u64
        requires had { IsSome (Self.map self.now).hands.tree }
        ensures { result ≡ length (log_at (Self.map self.now) (tree_of (Self.map self.now))) };

    /// The range that the board moves.
    fn moved(&self) -> Option<u32>
        ensures { result ≡ (Self.map self.now).hands.moves };

    /// Looks at a range, and notes the word with the number of pins that the board has there. It says
    /// Moving by the board's own guest exactly where this board moves the range, it counts the board's own
    /// pins among others, and it agrees with the tree that is had. Where no other board may pin or move
    /// ranges, it is just what this board did.
    fn look(&mut self, range: u32) -> RangeWord
        requires { range < range_count (Self.map self.old) }
        ensures { Looks (Self.map self.old) range result (Self.map self.new) };

    /// The noted word of a range; None where there is none.
    fn looked(&self, range: u32) -> Option<RangeWord>
        requires { range < range_count (Self.map self.now) }
        ensures { result ≡ option_map (λ (n : Noted). n.word) (look_at (Self.map self.now) range) };

    /// No look is noted from here on. Where there are ranges and a look of each was noted, `sweeps` goes
    /// up by one, and where each of these words was moving or had pins, `rounds` too.
    fn forget_looks(&mut self)
        ensures { Self.map self.new ≡ forgot (Self.map self.old) };

    /// Takes a range: this board moves it then, and where it was mapped, the tree loses its chunk and the
    /// log gets its `Remove`. The board may take ranges, and moves none.
    ///
    /// `Err` comes exactly where the word that was seen last was neither free, nor mapped without pins to
    /// the file whose tree is had. It is noted as `look` does it.
    fn take(&mut self, range: u32) -> Result<(), RangeWord>
        requires range { range < range_count (Self.map self.old) }
        requires may { (Self.map self.old).ranges.may_take ≡ true }
        requires free { (Self.map self.old).hands.moves ≡ None }
        ensures { Takes (Self.map self.old) range result (Self.map self.new) };

    /// Places a chunk of the tree's file in the moved range, and answers the place of its entry in the log.
    /// The tree hasn't the chunk, and the window has the whole range at that file, chunk and mode.
    ///
    /// `Memory` comes where an allocation was refused; nothing has changed then.
    fn settle_mapped(&mut self, chunk: u32, mode: Mode) -> Result<u64, Memory>
        requires { CanSettle (Self.map self.old) chunk mode }
        ensures { Settles (Self.map self.old) chunk mode result (Self.map self.new) };

    /// The moved range is free from here on.
    fn settle_free(&mut self)
        requires { IsSome (Self.map self.old).hands.moves }
        ensures { Becomes (Self.map self.old) (with_moves (Self.map self.old) None) (Self.map self.new) };

    /// A chunk may be written from here on, which is placed for reading in the tree that is had. The
    /// window has its whole range at that file and chunk for writing.
    fn upgrade(&mut self, chunk: u32)
        requires { CanUpgrade (Self.map self.old) chunk }
        ensures { Self.map self.new ≡ upgraded_in (Self.map self.old) chunk };

    /// Pins a range of the tree that is had: nobody takes it before the pin is given back. The board may
    /// take ranges, and has fewer than 64 pins.
    fn pin(&mut self, range: u32)
        requires may { (Self.map self.old).ranges.may_take ≡ true }
        requires had { IsSome (tree_slot (Self.map self.old) range) }
        requires few { sum (Self.map self.old).hands.pins < max_pins }
        ensures { Self.map self.new ≡ with_pin (Self.map self.old) range };

    /// Gives back one of the board's pins on a range.
    fn unpin(&mut self, range: u32)
        requires { 0 < pins_on (Self.map self.old) range }
        ensures { Self.map self.new ≡ unpinned (Self.map self.old) range };

    /// What the window has at the whole range; the board keeps the answer, and counts it. Where it holds
    /// the range, it is what the board holds there. Under a pin of this board it is the file and the chunk
    /// that were pinned, with a mode that allows at least what the tree had then.
    fn target(&mut self, range: u32) -> Option<Target>
        requires { range < range_count (Self.map self.old) }
        ensures { Targets (Self.map self.old) range result (Self.map self.new) };

    /// Does nothing. That is how a proof knows what holds of every board of ranges: it isn't a plain board of
    /// pages; its logs are sound; the range that it moves has no pin of it and is in no tree that it has; it
    /// holds the pages of what it has in hand; and a pinned chunk is placed in its range.
    fn sound_ranges(&self)
        ensures { IsSoundRanges (Self.map self.now) };
}
