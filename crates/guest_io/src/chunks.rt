ghost use Rattle.std.specs.Prelude.{◌≡◌, ◌<◌, ◌≤◌, ◌+◌, false, None, Some, length, sum};
ghost use Rattle.plain_file.specs.File.{max_file, reach};
ghost use Rattle.plain_file.specs.Limits.{max_transfer};
ghost use Rattle.plain_file.specs.Sound.{IsSoundBoard};
ghost use Rattle.page_map.specs.Board.{Hands, MapView, log_at};
ghost use Rattle.range_tree.specs.Ranges.{range_count, pins_on, max_pins};
ghost use Rattle.guest_dax.specs.Stands.{stand, Stands, Keeps};
ghost use Rattle.guest_dax.specs.Looks.{NoLooks};
ghost use Rattle.guest_io.specs.Requests.{IsHome};
ghost use Rattle.guest_io.specs.Ways.{IsPlacedFor, ArePlaced};
ghost use Rattle.guest_io.specs.Going.{StaysBoard, LeavesAll, KeepsRounds, KeepsRefusals};
ghost use Rattle.guest_io.specs.Chunks.{AppliesDirect, Gets, StaysRounds, way_of, AreHeld, IsGivenBack};
ghost use Rattle.guest_io.specs.Windows.{GetsSecond, GetsAll, GoesThrough, IsOfDax};

use crate::calls::{Done, Refusal};
use crate::direct::apply_direct;
use crate::guest::Guest;
use crate::pins::{Pins, chunk_at, give_back, look_at_second, way_of};
use guest_dax::{DaxRefusal, Pinned};
use guest_wire::Wire;
use page_map::Mode;
use plain_file::{FileTurns, Memory, Op};
use range_tree::RangeBoard;
use std::alloc::Global;
use std::sync::Wait;

// The refusal of a guest's ranges as one of this crate.
pub(crate) fn refusal_of_dax(refusal: DaxRefusal) -> Refusal
    ensures { IsOfDax refusal result }
{
    match refusal {
        DaxRefusal::Busy { looked } => Refusal::Busy { looked },
        DaxRefusal::Errno { number } => Refusal::Errno { number },
        DaxRefusal::BadReply { bytes } => Refusal::BadReply { bytes },
        DaxRefusal::WireFault => Refusal::WireFault,
        DaxRefusal::Memory => Refusal::Memory,
    }
}

impl<W, F: FileTurns, R: RangeBoard> Guest<W, F, R>
where
    W: Wire<F, R>,
{
    // Pins a chunk of a file, which is placed where it isn't yet.
    pub(crate) fn get_chunk<T: Wait>(
        &mut self,
        rt: &T,
        alloc: Global,
        file: u32,
        chunk: u32,
        mode: Mode,
    ) -> Result<Pinned, DaxRefusal>
        requires stands { Stands (stand (W.wire self.old.dax.driver.wire) (F.board self.old.dax.files) (R.map self.old.dax.ranges)) self.old.dax.refs }
        requires file { file < length self.old.dax.refs }
        requires chunk { chunk < 32 }
        requires ranges { 0 < range_count (R.map self.old.dax.ranges) }
        requires tree { (R.map self.old.dax.ranges).hands.tree ≡ None }
        requires moves { (R.map self.old.dax.ranges).hands.moves ≡ None }
        requires few { sum (R.map self.old.dax.ranges).hands.pins < max_pins }
        requires looks { NoLooks (R.map self.old.dax.ranges) }
        ensures keeps { Keeps (stand (W.wire self.old.dax.driver.wire) (F.board self.old.dax.files) (R.map self.old.dax.ranges)) (stand (W.wire self.new.dax.driver.wire) (F.board self.new.dax.files) (R.map self.new.dax.ranges)) }
        ensures gets { Gets (stand (W.wire self.old.dax.driver.wire) (F.board self.old.dax.files) (R.map self.old.dax.ranges)) file chunk mode result (stand (W.wire self.new.dax.driver.wire) (F.board self.new.dax.files) (R.map self.new.dax.ranges)) }
        ensures rounds { StaysRounds (R.map self.old.dax.ranges) result (R.map self.new.dax.ranges) }
        ensures quiet { (R.map self.old.dax.ranges).ranges.others ≡ false → IsPlacedFor (log_at (R.map self.old.dax.ranges) file) chunk mode → self.new.dax.driver ≡ self.old.dax.driver }
        ensures still { (R.map self.old.dax.ranges).ranges.others ≡ false → IsPlacedFor (log_at (R.map self.old.dax.ranges) file) chunk mode → (R.map self.new.dax.ranges).ranges.logs ≡ (R.map self.old.dax.ranges).ranges.logs }
        ensures refs { self.new.dax.refs ≡ self.old.dax.refs }
        ensures holds { self.new.holds ≡ self.old.holds }
    {
        match self.dax.pin_chunk(rt, alloc, file, chunk, mode) {
            Ok(Some(pinned)) => return Ok(pinned),
            Ok(None) => self.dax.ranges.sound_ranges(),
            Err(refusal) => return Err(refusal),
        }
        match self.dax.acquire(rt, alloc) {
            Ok(()) => self.dax.place(rt, alloc, file, chunk, mode),
            Err(refusal) => Err(refusal),
        }
    }

    // Pins a second chunk beside the first, whose pin is given back where this is refused.
    fn get_second<T: Wait>(
        &mut self,
        rt: &T,
        alloc: Global,
        file: u32,
        chunk: u32,
        mode: Mode,
        first: Pinned,
    ) -> Result<Pins, DaxRefusal>
        requires stands { Stands (stand (W.wire self.old.dax.driver.wire) (F.board self.old.dax.files) (R.map self.old.dax.ranges)) self.old.dax.refs }
        requires file { file < length self.old.dax.refs }
        requires chunk { chunk < 32 }
        requires ranges { 0 < range_count (R.map self.old.dax.ranges) }
        requires tree { (R.map self.old.dax.ranges).hands.tree ≡ None }
        requires moves { (R.map self.old.dax.ranges).hands.moves ≡ None }
        requires few { sum (R.map self.old.dax.ranges).hands.pins < max_pins }
        requires looks { NoLooks (R.map self.old.dax.ranges) }
        requires had { 0 < pins_on (R.map self.old.dax.ranges) first.range }
        ensures gets { GetsSecond (stand (W.wire self.old.dax.driver.wire) (F.board self.old.dax.files) (R.map self.old.dax.ranges)) file chunk mode first result (stand (W.wire self.new.dax.driver.wire) (F.board self.new.dax.files) (R.map self.new.dax.ranges)) }
        ensures rounds { StaysRounds (R.map self.old.dax.ranges) result (R.map self.new.dax.ranges) }
        ensures quiet { (R.map self.old.dax.ranges).ranges.others ≡ false → IsPlacedFor (log_at (R.map self.old.dax.ranges) file) chunk mode → self.new.dax.driver ≡ self.old.dax.driver }
        ensures refs { self.new.dax.refs ≡ self.old.dax.refs }
        ensures holds { self.new.holds ≡ self.old.holds }
    {
        match self.get_chunk(rt, alloc, file, chunk, mode) {
            Ok(pinned) => Ok(Pins {
                first,
                second: Some(pinned),
            }),
            Err(refusal) => {
                self.dax.ranges.unpin(first.range);
                Err(refusal)
            }
        }
    }

    // Pins each chunk of an interval, one or two, also behind the file's end.
    fn get_chunks<T: Wait>(
        &mut self,
        rt: &T,
        alloc: Global,
        file: u32,
        off: u64,
        len: u64,
        mode: Mode,
    ) -> Result<Pins, DaxRefusal>
        requires stands { Stands (stand (W.wire self.old.dax.driver.wire) (F.board self.old.dax.files) (R.map self.old.dax.ranges)) self.old.dax.refs }
        requires file { file < length self.old.dax.refs }
        requires some { 0 < len }
        requires most { len ≤ max_transfer }
        requires end { off + len ≤ max_file }
        requires ranges { 0 < range_count (R.map self.old.dax.ranges) }
        requires tree { (R.map self.old.dax.ranges).hands.tree ≡ None }
        requires moves { (R.map self.old.dax.ranges).hands.moves ≡ None }
        requires few { sum (R.map self.old.dax.ranges).hands.pins + 1 < max_pins }
        requires looks { NoLooks (R.map self.old.dax.ranges) }
        ensures keeps { Keeps (stand (W.wire self.old.dax.driver.wire) (F.board self.old.dax.files) (R.map self.old.dax.ranges)) (stand (W.wire self.new.dax.driver.wire) (F.board self.new.dax.files) (R.map self.new.dax.ranges)) }
        ensures gets { GetsAll (stand (W.wire self.old.dax.driver.wire) (F.board self.old.dax.files) (R.map self.old.dax.ranges)) file off len mode result (stand (W.wire self.new.dax.driver.wire) (F.board self.new.dax.files) (R.map self.new.dax.ranges)) }
        ensures rounds { StaysRounds (R.map self.old.dax.ranges) result (R.map self.new.dax.ranges) }
        ensures quiet { (R.map self.old.dax.ranges).ranges.others ≡ false → ArePlaced (log_at (R.map self.old.dax.ranges) file) off len mode → self.new.dax.driver ≡ self.old.dax.driver }
        ensures refs { self.new.dax.refs ≡ self.old.dax.refs }
        ensures holds { self.new.holds ≡ self.old.holds }
    {
        let chunk = chunk_at(off);
        let last = chunk_at(off + len - 1);
        match self.get_chunk(rt, alloc, file, chunk, mode) {
            Ok(first) => {
                if last == chunk {
                    return Ok(Pins {
                        first,
                        second: None,
                    });
                }
                self.get_second(rt, alloc, file, last, mode, first)
            }
            Err(refusal) => Err(refusal),
        }
    }

    // Applies an operation to the file that pinned ranges show, and gives the pins back.
    fn go_through<T: Wait>(
        &mut self,
        rt: &T,
        alloc: Global,
        call: u32,
        file: u32,
        first: Pinned,
        second: Option<Pinned>,
        op: Op,
    ) -> Result<Done, Memory>
        requires file { file < length (F.board self.old.dax.files).files }
        requires free { (F.board self.old.dax.files).hands.turn ≡ None }
        requires fits { reach op ≤ max_file }
        requires held { AreHeld (R.map self.old.dax.ranges) file first second }
        ensures applied { AppliesDirect (F.board self.old.dax.files) file call (way_of first second) op result (F.board self.new.dax.files) }
        ensures stays { StaysBoard (F.board self.old.dax.files) (F.board self.new.dax.files) }
        ensures sound { IsSoundBoard (F.board self.new.dax.files) file }
        ensures refusals { KeepsRefusals (F.board self.old.dax.files) (F.board self.new.dax.files) }
        ensures back { IsGivenBack (R.map self.old.dax.ranges) first second (R.map self.new.dax.ranges) }
        ensures driver { self.new.dax.driver ≡ self.old.dax.driver }
        ensures refs { self.new.dax.refs ≡ self.old.dax.refs }
        ensures holds { self.new.holds ≡ self.old.holds }
    {
        let target = self.dax.ranges.target(first.range).unwrap();
        look_at_second(&mut self.dax.ranges, second);
        let way = way_of(first, second);
        let done = apply_direct(rt, alloc, &mut self.dax.files, target.file, call, way, op);
        give_back(&mut self.dax.ranges, first, second);
        done
    }

    // One operation on an interval of a file through the window: each of its chunks is pinned, and placed
    // where it isn't yet.
    pub(crate) fn through_window<T: Wait>(
        &mut self,
        rt: &T,
        alloc: Global,
        call: u32,
        file: u32,
        off: u64,
        len: u64,
        mode: Mode,
        op: Op,
    ) -> Result<Done, Refusal>
        requires home { IsHome (stand (W.wire self.old.dax.driver.wire) (F.board self.old.dax.files) (R.map self.old.dax.ranges)) self.old.dax.refs }
        requires file { file < length self.old.dax.refs }
        requires some { 0 < len }
        requires most { len ≤ max_transfer }
        requires end { off + len ≤ max_file }
        requires fits { reach op ≤ max_file }
        requires ranges { 0 < range_count (R.map self.old.dax.ranges) }
        requires tree { (R.map self.old.dax.ranges).hands.tree ≡ None }
        requires moves { (R.map self.old.dax.ranges).hands.moves ≡ None }
        requires few { sum (R.map self.old.dax.ranges).hands.pins + 1 < max_pins }
        requires looks { NoLooks (R.map self.old.dax.ranges) }
        ensures home { IsHome (stand (W.wire self.new.dax.driver.wire) (F.board self.new.dax.files) (R.map self.new.dax.ranges)) self.new.dax.refs }
        ensures leaves { LeavesAll (stand (W.wire self.old.dax.driver.wire) (F.board self.old.dax.files) (R.map self.old.dax.ranges)) (stand (W.wire self.new.dax.driver.wire) (F.board self.new.dax.files) (R.map self.new.dax.ranges)) }
        ensures goes { GoesThrough (stand (W.wire self.old.dax.driver.wire) (F.board self.old.dax.files) (R.map self.old.dax.ranges)) file call op off len mode result (stand (W.wire self.new.dax.driver.wire) (F.board self.new.dax.files) (R.map self.new.dax.ranges)) }
        ensures rounds { KeepsRounds (R.map self.old.dax.ranges) result (R.map self.new.dax.ranges) }
        ensures refusals { KeepsRefusals (F.board self.old.dax.files) (F.board self.new.dax.files) }
        ensures quiet { (R.map self.old.dax.ranges).ranges.others ≡ false → ArePlaced (log_at (R.map self.old.dax.ranges) file) off len mode → self.new.dax.driver ≡ self.old.dax.driver }
        ensures refs { self.new.dax.refs ≡ self.old.dax.refs }
        ensures holds { self.new.holds ≡ self.old.holds }
    {
        match self.get_chunks(rt, alloc, file, off, len, mode) {
            Ok(pins) => match self.go_through(rt, alloc, call, file, pins.first, pins.second, op) {
                Ok(done) => Ok(done),
                Err(_) => Err(Refusal::Memory),
            },
            Err(refusal) => Err(refusal_of_dax(refusal)),
        }
    }
}
