ghost use Rattle.std.specs.Prelude.{◌≡◌, [], ◌∷◌, IfOk};
ghost use Rattle.fuse_codec.specs.declared.messages.Request.TheVariants as asks;
ghost use Rattle.fuse_codec.specs.declared.replies.Reply.TheVariants as replies;
ghost use Rattle.guest_wire.specs.Wires.{boards, KeepsWire};
ghost use Rattle.guest_wire.specs.Keeps.{KeepsBoards};
ghost use Rattle.guest_wire.specs.Requests.{next_number, message, CanAsk, setup_request, remove_request, whole_range, setup_flags};
ghost use Rattle.guest_wire.specs.Answers.{Answers};

use crate::driver::Driver;
use crate::replies::done;
use crate::wires::{Wire, WireRefusal};
use fuse_codec::Request;
use fuse_wire::{FUSE_SETUPMAPPING_FLAG_READ, FUSE_SETUPMAPPING_FLAG_WRITE, RemoveOne, SetupIn};
use page_map::{MapBoard, Mode, RANGE_SIZE};
use plain_file::{FileBoard, List, Memory};
use std::alloc::Global;
use std::sync::Wait;

impl<W> Driver<W> {
    /// Maps a whole chunk of a file to a whole range of the window: SETUPMAPPING without a handle (all
    /// ones), for reading, or for reading and writing where `mode` is `W`. Chunks of the file and ranges
    /// of the window have 2,097,152 bytes and are numbered from 0.
    #[tactic(auto, unfolding(fuse_codec::specs::Grammar::is_bounded, fuse_codec::specs::Grammar::kind_of, fuse_codec::specs::Grammar::asked, fuse_codec::specs::Grammar::form_room, fuse_codec::specs::Opcodes::reply_form, fuse_codec::specs::Replies::answered))]
    pub fn setup<R: Wait, F: FileBoard, M: MapBoard>(
        &mut self,
        rt: &R,
        alloc: Global,
        node: u64,
        chunk: u32,
        range: u32,
        mode: Mode,
        files: &mut F,
        map: &mut M,
    ) -> Result<(), WireRefusal>
    where
        W: Wire<F, M>,
        requires boards { CanAsk (W.wire self.old.wire)
            (boards (F.board files.old) (M.map map.old)) (setup_request chunk range mode) }
        ensures answer { Answers W.wire W.gives (λ _ reply. reply ≡ replies.Done)
            self.old.wire (boards (F.board files.old) (M.map map.old))
            (message (next_number self.old.unique) node (setup_request chunk range mode))
            result self.new.wire (boards (F.board files.new) (M.map map.new)) }
        ensures number { self.new.unique ≡ next_number self.old.unique }
        ensures wire { KeepsWire (W.wire self.old.wire) (W.wire self.new.wire) }
        ensures boards { KeepsBoards (boards (F.board files.old) (M.map map.old))
            (boards (F.board files.new) (M.map map.new)) }
    {
        let unique = self.next_unique();
        let body = Request::Setup(SetupIn {
            fh: u64::MAX,
            foffset: RANGE_SIZE * chunk as u64,
            len: RANGE_SIZE,
            flags: setup_flags(mode),
            moffset: RANGE_SIZE * range as u64,
        });
        let reply = self.ask(rt, alloc, unique, node, body, files, map)?;
        done(reply);
        Ok(())
    }

    /// Unmaps a whole range of the window, of 2,097,152 bytes: REMOVEMAPPING with one interval. The
    /// request is about `node`, which the device doesn't look at.
    #[tactic(auto, unfolding(fuse_codec::specs::Grammar::is_bounded, fuse_codec::specs::Grammar::kind_of, fuse_codec::specs::Grammar::asked, fuse_codec::specs::Grammar::form_room, fuse_codec::specs::Opcodes::reply_form, fuse_codec::specs::Replies::answered))]
    pub fn remove<R: Wait, F: FileBoard, M: MapBoard>(
        &mut self,
        rt: &R,
        alloc: Global,
        node: u64,
        range: u32,
        files: &mut F,
        map: &mut M,
    ) -> Result<(), WireRefusal>
    where
        W: Wire<F, M>,
        requires boards { CanAsk (W.wire self.old.wire)
            (boards (F.board files.old) (M.map map.old)) (remove_request range) }
        ensures answer { Answers W.wire W.gives (λ _ reply. reply ≡ replies.Done)
            self.old.wire (boards (F.board files.old) (M.map map.old))
            (message (next_number self.old.unique) node (remove_request range))
            result self.new.wire (boards (F.board files.new) (M.map map.new)) }
        ensures number { self.new.unique ≡ next_number self.old.unique }
        ensures wire { KeepsWire (W.wire self.old.wire) (W.wire self.new.wire) }
        ensures boards { KeepsBoards (boards (F.board files.old) (M.map map.old))
            (boards (F.board files.new) (M.map map.new)) }
    {
        let unique = self.next_unique();
        let ones = one_range(alloc, range)?;
        let body = Request::Remove { ones };
        let reply = self.ask(rt, alloc, unique, node, body, files, map)?;
        done(reply);
        Ok(())
    }
}

// A whole range of the window.
fn whole_range(range: u32) -> RemoveOne
    ensures { result ≡ whole_range range }
{
    RemoveOne {
        moffset: RANGE_SIZE * range as u64,
        len: RANGE_SIZE,
    }
}

// The one interval of a REMOVEMAPPING.
fn one_range(alloc: Global, range: u32) -> Result<List<RemoveOne>, Memory>
    ensures { IfOk result (λ ones. ones ≡ whole_range range ∷ []) }
{
    Ok(List::from_vec(Vec::from_slice(alloc, &[whole_range(range)])?))
}

// What is asked for by a mode: reading always.
#[tactic(auto, unfolding(crate::specs::Requests::setup_flags))]
fn setup_flags(mode: Mode) -> u64
    ensures { result ≡ setup_flags mode }
{
    match mode {
        Mode::R => FUSE_SETUPMAPPING_FLAG_READ,
        Mode::W => FUSE_SETUPMAPPING_FLAG_READ | FUSE_SETUPMAPPING_FLAG_WRITE,
    }
}
