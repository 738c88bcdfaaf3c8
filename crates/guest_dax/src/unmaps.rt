ghost use Rattle.std.specs.Prelude.{◌≡◌, ◌<◌, ℕ, None, Some, IfOk, IfErr, length};
ghost use Rattle.page_map.specs.Board.{Hands, known_files};
ghost use Rattle.range_tree.specs.Ranges.{range_count};
ghost use Rattle.guest_dax.specs.Stands.{stand, Stands, Keeps, ref_at};
ghost use Rattle.guest_dax.specs.Reclaims.{Walks, Unmaps, IsRefusalOf};
ghost use Rattle.guest_dax.specs.Causes.{IsCause, IsUnmapped};

use crate::dax::Dax;
use crate::refusals::DaxRefusal;
use guest_wire::{FileRef, Wire, WireRefusal};
use plain_file::{FileBoard, List};
use range_tree::RangeBoard;
use std::alloc::Global;
use std::sync::Wait;

// The refusal of a request as one of this crate.
pub(crate) fn refusal_of(refusal: WireRefusal) -> DaxRefusal
    ensures { IsRefusalOf refusal result }
{
    match refusal {
        WireRefusal::Errno { number } => DaxRefusal::Errno { number },
        WireRefusal::BadReply { bytes } => DaxRefusal::BadReply { bytes },
        WireRefusal::WireFault => DaxRefusal::WireFault,
        WireRefusal::Memory => DaxRefusal::Memory,
    }
}

// The node of a file.
pub(crate) fn node_of(refs: &List<FileRef>, file: u32) -> u64
    requires { file < length refs.now }
    ensures { result ≡ (ref_at refs.now file).node }
{
    refs.as_slice()[file as usize].node
}

impl<W, F: FileBoard, R: RangeBoard> Dax<W, F, R>
where
    W: Wire<F, R>,
{
    // Sends REMOVEMAPPING for a range that was taken from the tree of a file, and leaves the tree. Where
    // it is refused, the range is settled free.
    pub(crate) fn unmap<T: Wait>(
        &mut self,
        rt: &T,
        alloc: Global,
        file: u32,
        range: u32,
    ) -> Result<(), DaxRefusal>
        requires stands { Stands (stand (W.wire self.old.driver.wire) (F.board self.old.files) (R.map self.old.ranges)) self.old.refs }
        requires file { file < known_files (R.map self.old.ranges) }
        requires range { range < range_count (R.map self.old.ranges) }
        requires tree { (R.map self.old.ranges).hands.tree ≡ Some file }
        requires moves { (R.map self.old.ranges).hands.moves ≡ Some range }
        ensures walks { Walks (stand (W.wire self.old.driver.wire) (F.board self.old.files) (R.map self.old.ranges)) (stand (W.wire self.new.driver.wire) (F.board self.new.files) (R.map self.new.ranges)) }
        ensures unmaps { Unmaps (stand (W.wire self.old.driver.wire) (F.board self.old.files) (R.map self.old.ranges)) result (stand (W.wire self.new.driver.wire) (F.board self.new.files) (R.map self.new.ranges)) }
        ensures cause { IfErr result (λ e. IsCause W.wire W.gives self.old.driver.wire self.old.driver.unique e self.new.driver.wire self.new.driver.unique) }
        ensures removed { IfOk result (λ u. IsUnmapped W.wire W.gives self.old.driver.wire self.old.driver.unique range self.new.driver.wire self.new.driver.unique) }
        ensures logs { (R.map self.new.ranges).ranges.logs ≡ (R.map self.old.ranges).ranges.logs }
        ensures refs { self.new.refs ≡ self.old.refs }
    {
        self.ranges.sound_ranges();
        let node = node_of(&self.refs, file);
        let sent = self
            .driver
            .remove(rt, alloc, node, range, &mut self.files, &mut self.ranges);
        match sent {
            Ok(()) => {
                self.ranges.leave();
                Ok(())
            }
            Err(refusal) => {
                self.ranges.settle_free();
                self.ranges.leave();
                Err(refusal_of(refusal))
            }
        }
    }
}
