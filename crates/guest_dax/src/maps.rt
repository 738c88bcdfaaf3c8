ghost use Rattle.std.specs.Prelude.{◌≡◌, ◌<◌, true, Some, IfErr, length};
ghost use Rattle.page_map.specs.Board.{MapView, may_set};
ghost use Rattle.range_tree.specs.Ranges.{range_count, IsInHand};
ghost use Rattle.guest_dax.specs.Stands.{stand, Stands, Keeps, chunk_span};
ghost use Rattle.guest_dax.specs.Pinning.{Maps};
ghost use Rattle.guest_dax.specs.Causes.{IsCause, IsUndone};

use crate::dax::Dax;
use crate::refusals::DaxRefusal;
use crate::unmaps::{node_of, refusal_of};
use fuse_codec::{Reply, encode_reply};
use guest_wire::Wire;
use page_map::{Mode, Target};
use plain_file::FileBoard;
use range_tree::RangeBoard;
use std::alloc::Global;
use std::sync::Wait;

// Whether a range was seen mapped as it is to be.
fn is_target(seen: &Option<Target>, wanted: &Target) -> bool
    ensures is { result ≡ true → seen.now ≡ Some wanted.now }
    ensures whole { seen.now ≡ Some wanted.now → result ≡ true }
{
    match seen {
        Some(target) => target == wanted,
        None => false,
    }
}

// What is answered where a request succeeded and the window hasn't what was asked for: the bytes of the
// reply with this number.
#[tactic(auto, unfolding(fuse_codec::specs::Replies::is_reply))]
fn undone(alloc: Global, unique: u64) -> DaxRefusal
    ensures { IsUndone unique result }
{
    match encode_reply(alloc, &Reply::Done, unique) {
        Ok(bytes) => DaxRefusal::BadReply { bytes },
        Err(_) => DaxRefusal::Memory,
    }
}

impl<W, F: FileBoard, R: RangeBoard> Dax<W, F, R>
where
    W: Wire<F, R>,
{
    // Maps a range that is in hand to a chunk of a file, whose tree is had: sends SETUPMAPPING, and looks at
    // the map after a success.
    pub(crate) fn map_chunk<T: Wait>(
        &mut self,
        rt: &T,
        alloc: Global,
        file: u32,
        chunk: u32,
        range: u32,
        mode: Mode,
    ) -> Result<(), DaxRefusal>
        requires stands { Stands (stand (W.wire self.old.driver.wire) (F.board self.old.files) (R.map self.old.ranges)) self.old.refs }
        requires file { file < length self.old.refs }
        requires chunk { chunk < 32 }
        requires range { range < range_count (R.map self.old.ranges) }
        requires held { IsInHand (R.map self.old.ranges) range }
        requires may { may_set (R.map self.old.ranges) (chunk_span file chunk range mode) ≡ true }
        ensures keeps { Keeps (stand (W.wire self.old.driver.wire) (F.board self.old.files) (R.map self.old.ranges)) (stand (W.wire self.new.driver.wire) (F.board self.new.files) (R.map self.new.ranges)) }
        ensures maps { Maps (stand (W.wire self.old.driver.wire) (F.board self.old.files) (R.map self.old.ranges)) file chunk range mode result (stand (W.wire self.new.driver.wire) (F.board self.new.files) (R.map self.new.ranges)) }
        ensures cause { IfErr result (λ e. IsCause W.wire W.gives self.old.driver.wire self.old.driver.unique e self.new.driver.wire self.new.driver.unique) }
        ensures looks { (R.map self.new.ranges).ranges.looks ≡ (R.map self.old.ranges).ranges.looks }
        ensures rounds { (R.map self.new.ranges).ranges.rounds ≡ (R.map self.old.ranges).ranges.rounds }
        ensures refs { self.new.refs ≡ self.old.refs }
    {
        self.ranges.sound_ranges();
        let node = node_of(&self.refs, file);
        let sent = self.driver.setup(
            rt,
            alloc,
            node,
            chunk,
            range,
            mode,
            &mut self.files,
            &mut self.ranges,
        );
        if let Err(refusal) = sent {
            return Err(refusal_of(refusal));
        }
        self.ranges.sound_ranges();
        let seen = self.ranges.target(range);
        if is_target(&seen, &Target { file, chunk, mode }) {
            return Ok(());
        }
        Err(undone(alloc, self.driver.unique))
    }
}
