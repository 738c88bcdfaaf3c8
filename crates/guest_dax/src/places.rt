ghost use Rattle.std.specs.Prelude.{◌≡◌, ◌<◌, ◌++◌, [], ◌∷◌, ℕ, false, None, Some, IsSome, IfOk, OnOk, IfErr, length, sum};
ghost use Rattle.page_map.specs.Board.{Hands, MapView, log_at};
ghost use Rattle.page_map.specs.Logs.{placed_at};
ghost use Rattle.page_map.specs.declared.ranges.LogEntry.TheVariants as entries;
ghost use Rattle.range_tree.specs.Ranges.{moved_of};
ghost use Rattle.guest_dax.specs.Stands.{stand, Stands, Keeps};
ghost use Rattle.guest_dax.specs.Pinning.{PinsChunk, PinsPlaced, Places, IsEnoughPlaced, IsPlacedIn, IsPlacedMoved, Fills};
ghost use Rattle.guest_dax.specs.Causes.{IsCause};

use crate::dax::Dax;
use crate::pins::{Pinned, pin_found, pin_settled};
use crate::refusals::DaxRefusal;
use guest_wire::Wire;
use page_map::Mode;
use plain_file::FileBoard;
use range_tree::RangeBoard;
use std::alloc::Global;
use std::sync::Wait;

impl<W, F: FileBoard, R: RangeBoard> Dax<W, F, R>
where
    W: Wire<F, R>,
{
    /// Pins the range of a chunk of a file, where the file's tree has the chunk: enters the tree, upgrades
    /// the chunk where it is placed for reading and is to be written, pins it, and leaves. None comes
    /// exactly where the tree hadn't the chunk. It notes no look. Where the chunk is placed with a mode
    /// that is enough and no other board moves ranges, it sends nothing, and no log changes.
    ///
    /// # Errors
    ///
    /// As [`place`](Dax::place). Nothing is pinned then.
    pub fn pin_chunk<T: Wait>(
        &mut self,
        rt: &T,
        alloc: Global,
        file: u32,
        chunk: u32,
        mode: Mode,
    ) -> Result<Option<Pinned>, DaxRefusal>
        requires stands { Stands (stand (W.wire self.old.driver.wire) (F.board self.old.files) (R.map self.old.ranges)) self.old.refs }
        requires file { file < length self.old.refs }
        requires chunk { chunk < 32 }
        requires tree { (R.map self.old.ranges).hands.tree ≡ None }
        requires few { sum (R.map self.old.ranges).hands.pins < 64 }
        ensures keeps { Keeps (stand (W.wire self.old.driver.wire) (F.board self.old.files) (R.map self.old.ranges)) (stand (W.wire self.new.driver.wire) (F.board self.new.files) (R.map self.new.ranges)) }
        ensures pins { PinsChunk (stand (W.wire self.old.driver.wire) (F.board self.old.files) (R.map self.old.ranges)) file chunk mode result (stand (W.wire self.new.driver.wire) (F.board self.new.files) (R.map self.new.ranges)) }
        ensures cause { IfErr result (λ e. IsCause W.wire W.gives self.old.driver.wire self.old.driver.unique e self.new.driver.wire self.new.driver.unique) }
        ensures quiet { (R.map self.old.ranges).ranges.others ≡ false → IsEnoughPlaced mode (placed_at (log_at (R.map self.old.ranges) file) chunk) → self.new.driver ≡ self.old.driver }
        ensures still { (R.map self.old.ranges).ranges.others ≡ false → IsEnoughPlaced mode (placed_at (log_at (R.map self.old.ranges) file) chunk) → (R.map self.new.ranges).ranges.logs ≡ (R.map self.old.ranges).ranges.logs }
        ensures looks { (R.map self.new.ranges).ranges.looks ≡ (R.map self.old.ranges).ranges.looks }
        ensures rounds { (R.map self.new.ranges).ranges.rounds ≡ (R.map self.old.ranges).ranges.rounds }
        ensures refs { self.new.refs ≡ self.old.refs }
    {
        self.ranges.enter(rt, file);
        let pinned = self.pin_placed(rt, alloc, file, chunk, mode);
        self.ranges.leave();
        pinned
    }

    // The same under the file's tree.
    fn pin_placed<T: Wait>(
        &mut self,
        rt: &T,
        alloc: Global,
        file: u32,
        chunk: u32,
        mode: Mode,
    ) -> Result<Option<Pinned>, DaxRefusal>
        requires stands { Stands (stand (W.wire self.old.driver.wire) (F.board self.old.files) (R.map self.old.ranges)) self.old.refs }
        requires file { file < length self.old.refs }
        requires chunk { chunk < 32 }
        requires tree { (R.map self.old.ranges).hands.tree ≡ Some file }
        requires few { sum (R.map self.old.ranges).hands.pins < 64 }
        ensures keeps { Keeps (stand (W.wire self.old.driver.wire) (F.board self.old.files) (R.map self.old.ranges)) (stand (W.wire self.new.driver.wire) (F.board self.new.files) (R.map self.new.ranges)) }
        ensures pins { PinsPlaced (stand (W.wire self.old.driver.wire) (F.board self.old.files) (R.map self.old.ranges)) file chunk mode result (stand (W.wire self.new.driver.wire) (F.board self.new.files) (R.map self.new.ranges)) }
        ensures cause { IfErr result (λ e. IsCause W.wire W.gives self.old.driver.wire self.old.driver.unique e self.new.driver.wire self.new.driver.unique) }
        ensures quiet { IsEnoughPlaced mode (placed_at (log_at (R.map self.old.ranges) file) chunk) → self.new.driver ≡ self.old.driver }
        ensures still { IsEnoughPlaced mode (placed_at (log_at (R.map self.old.ranges) file) chunk) → (R.map self.new.ranges).ranges.logs ≡ (R.map self.old.ranges).ranges.logs }
        ensures looks { (R.map self.new.ranges).ranges.looks ≡ (R.map self.old.ranges).ranges.looks }
        ensures rounds { (R.map self.new.ranges).ranges.rounds ≡ (R.map self.old.ranges).ranges.rounds }
        ensures refs { self.new.refs ≡ self.old.refs }
    {
        self.make_enough(rt, alloc, file, chunk, mode)?;
        Ok(pin_found(&mut self.ranges, file, chunk, mode))
    }

    /// Puts a chunk of a file into the range that is moved, and pins it there: enters the file's tree, maps
    /// the range by SETUPMAPPING, settles it, pins it, and leaves. Where the chunk was placed meanwhile, the
    /// moved range is settled free instead, and the placed one is pinned as [`pin_chunk`](Dax::pin_chunk)
    /// does it. Else the log has one entry more at its end, the chunk's placement in the range that was
    /// moved, and the pin goes through it. It notes no look.
    ///
    /// # Errors
    ///
    /// `Errno`, `BadReply` and `WireFault` come by what came of the one request, and never over an honest
    /// wire. `BadReply` also comes where the request succeeded and the window hasn't what was asked for:
    /// its bytes are those of the reply. `Memory` comes where an allocation was refused. After each the
    /// moved range is settled free, and nothing is pinned.
    pub fn place<T: Wait>(
        &mut self,
        rt: &T,
        alloc: Global,
        file: u32,
        chunk: u32,
        mode: Mode,
    ) -> Result<Pinned, DaxRefusal>
        requires stands { Stands (stand (W.wire self.old.driver.wire) (F.board self.old.files) (R.map self.old.ranges)) self.old.refs }
        requires file { file < length self.old.refs }
        requires chunk { chunk < 32 }
        requires tree { (R.map self.old.ranges).hands.tree ≡ None }
        requires moves { IsSome (R.map self.old.ranges).hands.moves }
        requires few { sum (R.map self.old.ranges).hands.pins < 64 }
        ensures keeps { Keeps (stand (W.wire self.old.driver.wire) (F.board self.old.files) (R.map self.old.ranges)) (stand (W.wire self.new.driver.wire) (F.board self.new.files) (R.map self.new.ranges)) }
        ensures places { Places (stand (W.wire self.old.driver.wire) (F.board self.old.files) (R.map self.old.ranges)) file chunk mode result (stand (W.wire self.new.driver.wire) (F.board self.new.files) (R.map self.new.ranges)) }
        ensures placed { IfOk result (λ p. IsPlacedMoved (R.map self.old.ranges) (R.map self.new.ranges) file chunk mode p) }
        ensures cause { IfErr result (λ e. IsCause W.wire W.gives self.old.driver.wire self.old.driver.unique e self.new.driver.wire self.new.driver.unique) }
        ensures looks { (R.map self.new.ranges).ranges.looks ≡ (R.map self.old.ranges).ranges.looks }
        ensures rounds { (R.map self.new.ranges).ranges.rounds ≡ (R.map self.old.ranges).ranges.rounds }
        ensures refs { self.new.refs ≡ self.old.refs }
    {
        self.ranges.enter(rt, file);
        let pinned = self.place_in(rt, alloc, file, chunk, mode);
        self.ranges.leave();
        pinned
    }

    // The same under the file's tree.
    fn place_in<T: Wait>(
        &mut self,
        rt: &T,
        alloc: Global,
        file: u32,
        chunk: u32,
        mode: Mode,
    ) -> Result<Pinned, DaxRefusal>
        requires stands { Stands (stand (W.wire self.old.driver.wire) (F.board self.old.files) (R.map self.old.ranges)) self.old.refs }
        requires file { file < length self.old.refs }
        requires chunk { chunk < 32 }
        requires tree { (R.map self.old.ranges).hands.tree ≡ Some file }
        requires moves { IsSome (R.map self.old.ranges).hands.moves }
        requires few { sum (R.map self.old.ranges).hands.pins < 64 }
        ensures keeps { Keeps (stand (W.wire self.old.driver.wire) (F.board self.old.files) (R.map self.old.ranges)) (stand (W.wire self.new.driver.wire) (F.board self.new.files) (R.map self.new.ranges)) }
        ensures places { Places (stand (W.wire self.old.driver.wire) (F.board self.old.files) (R.map self.old.ranges)) file chunk mode result (stand (W.wire self.new.driver.wire) (F.board self.new.files) (R.map self.new.ranges)) }
        ensures placed { placed_at (log_at (R.map self.old.ranges) file) chunk ≡ None → IfOk result (λ p. IsPlacedIn (log_at (R.map self.old.ranges) file) chunk (moved_of (R.map self.old.ranges)) mode p (log_at (R.map self.new.ranges) file)) }
        ensures cause { IfErr result (λ e. IsCause W.wire W.gives self.old.driver.wire self.old.driver.unique e self.new.driver.wire self.new.driver.unique) }
        ensures looks { (R.map self.new.ranges).ranges.looks ≡ (R.map self.old.ranges).ranges.looks }
        ensures rounds { (R.map self.new.ranges).ranges.rounds ≡ (R.map self.old.ranges).ranges.rounds }
        ensures refs { self.new.refs ≡ self.old.refs }
    {
        if self.ranges.find(chunk).is_some() {
            return self.use_placed(rt, alloc, file, chunk, mode);
        }
        match self.fill_range(rt, alloc, file, chunk, mode) {
            Ok(()) => Ok(pin_settled(&mut self.ranges, file, chunk, mode)),
            Err(refusal) => {
                self.ranges.settle_free();
                Err(refusal)
            }
        }
    }

    // Lets the moved range go, and pins the chunk where the tree has it.
    fn use_placed<T: Wait>(
        &mut self,
        rt: &T,
        alloc: Global,
        file: u32,
        chunk: u32,
        mode: Mode,
    ) -> Result<Pinned, DaxRefusal>
        requires stands { Stands (stand (W.wire self.old.driver.wire) (F.board self.old.files) (R.map self.old.ranges)) self.old.refs }
        requires file { file < length self.old.refs }
        requires chunk { chunk < 32 }
        requires tree { (R.map self.old.ranges).hands.tree ≡ Some file }
        requires moves { IsSome (R.map self.old.ranges).hands.moves }
        requires few { sum (R.map self.old.ranges).hands.pins < 64 }
        requires placed { IsSome (placed_at (log_at (R.map self.old.ranges) file) chunk) }
        ensures keeps { Keeps (stand (W.wire self.old.driver.wire) (F.board self.old.files) (R.map self.old.ranges)) (stand (W.wire self.new.driver.wire) (F.board self.new.files) (R.map self.new.ranges)) }
        ensures places { Places (stand (W.wire self.old.driver.wire) (F.board self.old.files) (R.map self.old.ranges)) file chunk mode result (stand (W.wire self.new.driver.wire) (F.board self.new.files) (R.map self.new.ranges)) }
        ensures cause { IfErr result (λ e. IsCause W.wire W.gives self.old.driver.wire self.old.driver.unique e self.new.driver.wire self.new.driver.unique) }
        ensures looks { (R.map self.new.ranges).ranges.looks ≡ (R.map self.old.ranges).ranges.looks }
        ensures rounds { (R.map self.new.ranges).ranges.rounds ≡ (R.map self.old.ranges).ranges.rounds }
        ensures refs { self.new.refs ≡ self.old.refs }
    {
        self.ranges.settle_free();
        match self.pin_placed(rt, alloc, file, chunk, mode) {
            Ok(Some(pinned)) => Ok(pinned),
            Ok(None) => unreachable!(),
            Err(refusal) => Err(refusal),
        }
    }

    // Maps the moved range to a chunk that the tree hasn't, and settles it there.
    fn fill_range<T: Wait>(
        &mut self,
        rt: &T,
        alloc: Global,
        file: u32,
        chunk: u32,
        mode: Mode,
    ) -> Result<(), DaxRefusal>
        requires stands { Stands (stand (W.wire self.old.driver.wire) (F.board self.old.files) (R.map self.old.ranges)) self.old.refs }
        requires file { file < length self.old.refs }
        requires chunk { chunk < 32 }
        requires tree { (R.map self.old.ranges).hands.tree ≡ Some file }
        requires moves { IsSome (R.map self.old.ranges).hands.moves }
        requires free { placed_at (log_at (R.map self.old.ranges) file) chunk ≡ None }
        ensures keeps { Keeps (stand (W.wire self.old.driver.wire) (F.board self.old.files) (R.map self.old.ranges)) (stand (W.wire self.new.driver.wire) (F.board self.new.files) (R.map self.new.ranges)) }
        ensures fills { Fills (stand (W.wire self.old.driver.wire) (F.board self.old.files) (R.map self.old.ranges)) file chunk mode result (stand (W.wire self.new.driver.wire) (F.board self.new.files) (R.map self.new.ranges)) }
        ensures grown { OnOk result (log_at (R.map self.new.ranges) file ≡ log_at (R.map self.old.ranges) file ++ entries.Place chunk (moved_of (R.map self.old.ranges)) mode ∷ []) }
        ensures cause { IfErr result (λ e. IsCause W.wire W.gives self.old.driver.wire self.old.driver.unique e self.new.driver.wire self.new.driver.unique) }
        ensures looks { (R.map self.new.ranges).ranges.looks ≡ (R.map self.old.ranges).ranges.looks }
        ensures rounds { (R.map self.new.ranges).ranges.rounds ≡ (R.map self.old.ranges).ranges.rounds }
        ensures refs { self.new.refs ≡ self.old.refs }
    {
        self.ranges.sound_ranges();
        let range = self.ranges.moved().unwrap();
        self.map_chunk(rt, alloc, file, chunk, range, mode)?;
        match self.ranges.settle_mapped(chunk, mode) {
            Ok(_) => Ok(()),
            Err(_) => Err(DaxRefusal::Memory),
        }
    }
}
