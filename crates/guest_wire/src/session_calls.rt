ghost use Rattle.std.specs.Prelude.{◌≡◌, IfOk};
ghost use Rattle.fuse_codec.specs.declared.messages.Request.TheVariants as asks;
ghost use Rattle.fuse_codec.specs.declared.replies.Reply.TheVariants as replies;
ghost use Rattle.guest_wire.specs.Wires.{boards, KeepsWire};
ghost use Rattle.guest_wire.specs.Keeps.{KeepsBoards};
ghost use Rattle.guest_wire.specs.Requests.{next_number, message, CanAsk, init_request};
ghost use Rattle.guest_wire.specs.Answers.{Answers};

use crate::driver::Driver;
use crate::replies::{done, entry_in, init_in};
use crate::wires::{Wire, WireRefusal};
use fuse_codec::Request;
use fuse_wire::{EntryOut, FUSE_MAP_ALIGNMENT, InitIn, InitOut};
use page_map::MapBoard;
use plain_file::{FileBoard, Memory, Name};
use std::alloc::Global;
use std::sync::Wait;

impl<W> Driver<W> {
    /// Begins a session: INIT of version 7.31, with a read-ahead of 131,072 bytes, about no node (0).
    /// Where `ask_map` says so, the alignment of the window is asked for (FUSE_MAP_ALIGNMENT). The answer
    /// is what the device agrees to.
    #[tactic(auto, unfolding(fuse_codec::specs::Grammar::is_bounded, fuse_codec::specs::Grammar::kind_of, fuse_codec::specs::Grammar::asked, fuse_codec::specs::Grammar::form_room, fuse_codec::specs::Opcodes::reply_form, fuse_codec::specs::Replies::answered))]
    pub fn init<R: Wait, F: FileBoard, M: MapBoard>(
        &mut self,
        rt: &R,
        alloc: Global,
        ask_map: bool,
        files: &mut F,
        map: &mut M,
    ) -> Result<InitOut, WireRefusal>
    where
        W: Wire<F, M>,
        requires boards { CanAsk (W.wire self.old.wire)
            (boards (F.board files.old) (M.map map.old)) (init_request ask_map) }
        ensures answer { Answers W.wire W.gives (λ out reply. reply ≡ replies.Init out)
            self.old.wire (boards (F.board files.old) (M.map map.old))
            (message (next_number self.old.unique) 0 (init_request ask_map))
            result self.new.wire (boards (F.board files.new) (M.map map.new)) }
        ensures number { self.new.unique ≡ next_number self.old.unique }
        ensures wire { KeepsWire (W.wire self.old.wire) (W.wire self.new.wire) }
        ensures boards { KeepsBoards (boards (F.board files.old) (M.map map.old))
            (boards (F.board files.new) (M.map map.new)) }
    {
        let unique = self.next_unique();
        let body = Request::Init(InitIn {
            major: 7,
            minor: 31,
            max_readahead: 131_072,
            flags: if ask_map { FUSE_MAP_ALIGNMENT } else { 0 },
            flags2: None,
        });
        let reply = self.ask(rt, alloc, unique, 0, body, files, map)?;
        Ok(init_in(reply))
    }

    /// Ends the session: DESTROY, which is about no node (0). Where the wire is honest, the map lets the
    /// whole window be cleared.
    #[tactic(auto, unfolding(fuse_codec::specs::Grammar::is_bounded, fuse_codec::specs::Grammar::kind_of, fuse_codec::specs::Grammar::asked, fuse_codec::specs::Grammar::form_room, fuse_codec::specs::Opcodes::reply_form, fuse_codec::specs::Replies::answered))]
    pub fn destroy<R: Wait, F: FileBoard, M: MapBoard>(
        &mut self,
        rt: &R,
        alloc: Global,
        files: &mut F,
        map: &mut M,
    ) -> Result<(), WireRefusal>
    where
        W: Wire<F, M>,
        requires boards { CanAsk (W.wire self.old.wire)
            (boards (F.board files.old) (M.map map.old)) asks.Destroy }
        ensures answer { Answers W.wire W.gives (λ _ reply. reply ≡ replies.Done)
            self.old.wire (boards (F.board files.old) (M.map map.old))
            (message (next_number self.old.unique) 0 asks.Destroy)
            result self.new.wire (boards (F.board files.new) (M.map map.new)) }
        ensures number { self.new.unique ≡ next_number self.old.unique }
        ensures wire { KeepsWire (W.wire self.old.wire) (W.wire self.new.wire) }
        ensures boards { KeepsBoards (boards (F.board files.old) (M.map map.old))
            (boards (F.board files.new) (M.map map.new)) }
    {
        let unique = self.next_unique();
        let reply = self.ask(rt, alloc, unique, 0, Request::Destroy, files, map)?;
        done(reply);
        Ok(())
    }

    /// Looks a name up in the directory, which is node 1: LOOKUP.
    #[tactic(auto, unfolding(fuse_codec::specs::Grammar::is_bounded, fuse_codec::specs::Grammar::kind_of, fuse_codec::specs::Grammar::asked, fuse_codec::specs::Grammar::form_room, fuse_codec::specs::Opcodes::reply_form, fuse_codec::specs::Replies::answered))]
    pub fn lookup<R: Wait, F: FileBoard, M: MapBoard>(
        &mut self,
        rt: &R,
        alloc: Global,
        name: &Name,
        files: &mut F,
        map: &mut M,
    ) -> Result<EntryOut, WireRefusal>
    where
        W: Wire<F, M>,
        requires boards { CanAsk (W.wire self.old.wire)
            (boards (F.board files.old) (M.map map.old)) (asks.Lookup name.now) }
        ensures answer { Answers W.wire W.gives (λ out reply. reply ≡ replies.Entry out)
            self.old.wire (boards (F.board files.old) (M.map map.old))
            (message (next_number self.old.unique) 1 (asks.Lookup name.now))
            result self.new.wire (boards (F.board files.new) (M.map map.new)) }
        ensures number { self.new.unique ≡ next_number self.old.unique }
        ensures wire { KeepsWire (W.wire self.old.wire) (W.wire self.new.wire) }
        ensures boards { KeepsBoards (boards (F.board files.old) (M.map map.old))
            (boards (F.board files.new) (M.map map.new)) }
    {
        let unique = self.next_unique();
        let name = copy_of(name)?;
        let body = Request::Lookup { name };
        let reply = self.ask(rt, alloc, unique, 1, body, files, map)?;
        Ok(entry_in(reply))
    }
}

// A copy of a name.
fn copy_of(name: &Name) -> Result<Name, Memory>
    ensures { IfOk result (λ n. n ≡ name.now) }
{
    Ok(name.clone()?)
}
