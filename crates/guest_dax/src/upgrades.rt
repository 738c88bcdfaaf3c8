ghost use Rattle.std.specs.Prelude.{◌≡◌, ◌<◌, ℕ, Some, IfErr, length};
ghost use Rattle.page_map.specs.Board.{Hands, MapView, log_at};
ghost use Rattle.page_map.specs.Logs.{placed_at};
ghost use Rattle.guest_dax.specs.Stands.{stand, Stands, Keeps};
ghost use Rattle.guest_dax.specs.Pinning.{IsReadOnly, IsSomeReadOnly, UpgradesChunk, IsEnoughPlaced, MakesEnough};
ghost use Rattle.guest_dax.specs.Causes.{IsCause};

use crate::dax::Dax;
use crate::pins::needs_upgrade;
use crate::refusals::DaxRefusal;
use guest_wire::Wire;
use page_map::Mode;
use plain_file::FileBoard;
use range_tree::RangeBoard;
use std::alloc::Global;
use std::sync::Wait;

impl<W, F: FileBoard, R: RangeBoard> Dax<W, F, R>
where
    W: Wire<F, R>,
{
    /// Makes a chunk writable that is placed for reading, under its file's tree: sends SETUPMAPPING for
    /// writing, and upgrades the chunk in the tree. The tree is had afterwards too.
    ///
    /// # Errors
    ///
    /// As [`place`](Dax::place). No log has changed then.
    pub fn upgrade_chunk<T: Wait>(
        &mut self,
        rt: &T,
        alloc: Global,
        file: u32,
        chunk: u32,
    ) -> Result<(), DaxRefusal>
        requires stands { Stands (stand (W.wire self.old.driver.wire) (F.board self.old.files) (R.map self.old.ranges)) self.old.refs }
        requires file { file < length self.old.refs }
        requires chunk { chunk < 32 }
        requires tree { (R.map self.old.ranges).hands.tree ≡ Some file }
        requires placed { IsSomeReadOnly (log_at (R.map self.old.ranges) file) chunk }
        ensures keeps { Keeps (stand (W.wire self.old.driver.wire) (F.board self.old.files) (R.map self.old.ranges)) (stand (W.wire self.new.driver.wire) (F.board self.new.files) (R.map self.new.ranges)) }
        ensures upgrades { UpgradesChunk (stand (W.wire self.old.driver.wire) (F.board self.old.files) (R.map self.old.ranges)) file chunk result (stand (W.wire self.new.driver.wire) (F.board self.new.files) (R.map self.new.ranges)) }
        ensures cause { IfErr result (λ e. IsCause W.wire W.gives self.old.driver.wire self.old.driver.unique e self.new.driver.wire self.new.driver.unique) }
        ensures looks { (R.map self.new.ranges).ranges.looks ≡ (R.map self.old.ranges).ranges.looks }
        ensures rounds { (R.map self.new.ranges).ranges.rounds ≡ (R.map self.old.ranges).ranges.rounds }
        ensures refs { self.new.refs ≡ self.old.refs }
    {
        let placed = self.ranges.find(chunk).unwrap();
        self.upgrade_at(rt, alloc, file, chunk, placed.range)
    }

    // The same, where the chunk's range is known.
    fn upgrade_at<T: Wait>(
        &mut self,
        rt: &T,
        alloc: Global,
        file: u32,
        chunk: u32,
        range: u32,
    ) -> Result<(), DaxRefusal>
        requires stands { Stands (stand (W.wire self.old.driver.wire) (F.board self.old.files) (R.map self.old.ranges)) self.old.refs }
        requires file { file < length self.old.refs }
        requires chunk { chunk < 32 }
        requires tree { (R.map self.old.ranges).hands.tree ≡ Some file }
        requires placed { IsReadOnly (log_at (R.map self.old.ranges) file) chunk range }
        ensures keeps { Keeps (stand (W.wire self.old.driver.wire) (F.board self.old.files) (R.map self.old.ranges)) (stand (W.wire self.new.driver.wire) (F.board self.new.files) (R.map self.new.ranges)) }
        ensures upgrades { UpgradesChunk (stand (W.wire self.old.driver.wire) (F.board self.old.files) (R.map self.old.ranges)) file chunk result (stand (W.wire self.new.driver.wire) (F.board self.new.files) (R.map self.new.ranges)) }
        ensures cause { IfErr result (λ e. IsCause W.wire W.gives self.old.driver.wire self.old.driver.unique e self.new.driver.wire self.new.driver.unique) }
        ensures looks { (R.map self.new.ranges).ranges.looks ≡ (R.map self.old.ranges).ranges.looks }
        ensures rounds { (R.map self.new.ranges).ranges.rounds ≡ (R.map self.old.ranges).ranges.rounds }
        ensures refs { self.new.refs ≡ self.old.refs }
    {
        self.ranges.sound_ranges();
        self.map_chunk(rt, alloc, file, chunk, range, Mode::W)?;
        self.ranges.upgrade(chunk);
        Ok(())
    }

    // Upgrades a chunk that the tree has, where the mode asks for it.
    pub(crate) fn make_enough<T: Wait>(
        &mut self,
        rt: &T,
        alloc: Global,
        file: u32,
        chunk: u32,
        mode: Mode,
    ) -> Result<(), DaxRefusal>
        requires stands { Stands (stand (W.wire self.old.driver.wire) (F.board self.old.files) (R.map self.old.ranges)) self.old.refs }
        requires file { file < length self.old.refs }
        requires chunk { chunk < 32 }
        requires tree { (R.map self.old.ranges).hands.tree ≡ Some file }
        ensures keeps { Keeps (stand (W.wire self.old.driver.wire) (F.board self.old.files) (R.map self.old.ranges)) (stand (W.wire self.new.driver.wire) (F.board self.new.files) (R.map self.new.ranges)) }
        ensures enough { MakesEnough (stand (W.wire self.old.driver.wire) (F.board self.old.files) (R.map self.old.ranges)) file chunk mode result (stand (W.wire self.new.driver.wire) (F.board self.new.files) (R.map self.new.ranges)) }
        ensures cause { IfErr result (λ e. IsCause W.wire W.gives self.old.driver.wire self.old.driver.unique e self.new.driver.wire self.new.driver.unique) }
        ensures quiet { IsEnoughPlaced mode (placed_at (log_at (R.map self.old.ranges) file) chunk) → self.new.driver ≡ self.old.driver }
        ensures still { IsEnoughPlaced mode (placed_at (log_at (R.map self.old.ranges) file) chunk) → (R.map self.new.ranges).ranges.logs ≡ (R.map self.old.ranges).ranges.logs }
        ensures looks { (R.map self.new.ranges).ranges.looks ≡ (R.map self.old.ranges).ranges.looks }
        ensures rounds { (R.map self.new.ranges).ranges.rounds ≡ (R.map self.old.ranges).ranges.rounds }
        ensures refs { self.new.refs ≡ self.old.refs }
    {
        match needs_upgrade(self.ranges.find(chunk), mode) {
            Some(range) => self.upgrade_at(rt, alloc, file, chunk, range),
            None => Ok(()),
        }
    }
}
