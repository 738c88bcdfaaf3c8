ghost use Rattle.std.specs.Prelude.{◌≡◌, ◌<◌, ◌≤◌, length, Ok, IfOk};
ghost use Rattle.plain_file.specs.Limits.{max_transfer};
ghost use Rattle.fuse_codec.specs.Reading.{message_of};
ghost use Rattle.fuse_codec.specs.declared.messages.Request.TheVariants as asks;
ghost use Rattle.fuse_codec.specs.declared.replies.Reply.TheVariants as replies;
ghost use Rattle.guest_wire.specs.Wires.{boards, KeepsWire};
ghost use Rattle.guest_wire.specs.Keeps.{KeepsBoards};
ghost use Rattle.guest_wire.specs.Requests.{next_number, message, CanAsk, open_request, release_request, getattr_request, setattr_request, read_request, write_request, size_for, write_at};
ghost use Rattle.guest_wire.specs.Answers.{Answers, IsSpelled, SaysOpened, SaysWrote};

use crate::driver::{Driver, FileRef, Spelled, head_of};
use crate::replies::{attr_in, bytes_in, done, opened_in, wrote_in};
use crate::wires::{Wire, WireRefusal};
use fuse_codec::{Opcode, Request, encode_write};
use fuse_wire::{
    AttrOut, FATTR_FH, FATTR_SIZE, FUSE_GETATTR_FH, GetattrIn, OpenIn, ReadIn, ReleaseIn,
    SetattrIn, WriteIn,
};
use page_map::MapBoard;
use plain_file::{Blob, FileBoard, Memory};
use std::alloc::Global;
use std::sync::Wait;

// Opens for reading and writing: O_RDWR of Linux.
const O_RDWR: u32 = 2;

impl<W> Driver<W> {
    /// Opens a file for reading and writing: OPEN with O_RDWR. The answer is the handle's number.
    #[tactic(auto, unfolding(fuse_codec::specs::Grammar::is_bounded, fuse_codec::specs::Grammar::kind_of, fuse_codec::specs::Grammar::asked, fuse_codec::specs::Grammar::form_room, fuse_codec::specs::Opcodes::reply_form, fuse_codec::specs::Replies::answered))]
    pub fn open_file<R: Wait, F: FileBoard, M: MapBoard>(
        &mut self,
        rt: &R,
        alloc: Global,
        node: u64,
        files: &mut F,
        map: &mut M,
    ) -> Result<u64, WireRefusal>
    where
        W: Wire<F, M>,
        requires boards { CanAsk (W.wire self.old.wire)
            (boards (F.board files.old) (M.map map.old)) open_request }
        ensures answer { Answers W.wire W.gives SaysOpened
            self.old.wire (boards (F.board files.old) (M.map map.old))
            (message (next_number self.old.unique) node open_request)
            result self.new.wire (boards (F.board files.new) (M.map map.new)) }
        ensures number { self.new.unique ≡ next_number self.old.unique }
        ensures wire { KeepsWire (W.wire self.old.wire) (W.wire self.new.wire) }
        ensures boards { KeepsBoards (boards (F.board files.old) (M.map map.old))
            (boards (F.board files.new) (M.map map.new)) }
    {
        let unique = self.next_unique();
        let body = Request::OpenFile(OpenIn {
            flags: O_RDWR,
            open_flags: 0,
        });
        let reply = self.ask(rt, alloc, unique, node, body, files, map)?;
        Ok(opened_in(reply).fh)
    }

    /// Gives a handle back: RELEASE.
    #[tactic(auto, unfolding(fuse_codec::specs::Grammar::is_bounded, fuse_codec::specs::Grammar::kind_of, fuse_codec::specs::Grammar::asked, fuse_codec::specs::Grammar::form_room, fuse_codec::specs::Opcodes::reply_form, fuse_codec::specs::Replies::answered))]
    pub fn release<R: Wait, F: FileBoard, M: MapBoard>(
        &mut self,
        rt: &R,
        alloc: Global,
        at: FileRef,
        files: &mut F,
        map: &mut M,
    ) -> Result<(), WireRefusal>
    where
        W: Wire<F, M>,
        requires boards { CanAsk (W.wire self.old.wire)
            (boards (F.board files.old) (M.map map.old)) (release_request at) }
        ensures answer { Answers W.wire W.gives (λ _ reply. reply ≡ replies.Done)
            self.old.wire (boards (F.board files.old) (M.map map.old))
            (message (next_number self.old.unique) at.node (release_request at))
            result self.new.wire (boards (F.board files.new) (M.map map.new)) }
        ensures number { self.new.unique ≡ next_number self.old.unique }
        ensures wire { KeepsWire (W.wire self.old.wire) (W.wire self.new.wire) }
        ensures boards { KeepsBoards (boards (F.board files.old) (M.map map.old))
            (boards (F.board files.new) (M.map map.new)) }
    {
        let unique = self.next_unique();
        let body = Request::Release(ReleaseIn {
            fh: at.fh,
            flags: 0,
            release_flags: 0,
            lock_owner: 0,
        });
        let reply = self.ask(rt, alloc, unique, at.node, body, files, map)?;
        done(reply);
        Ok(())
    }

    /// The attributes of an open file: GETATTR with FUSE_GETATTR_FH.
    #[tactic(auto, unfolding(fuse_codec::specs::Grammar::is_bounded, fuse_codec::specs::Grammar::kind_of, fuse_codec::specs::Grammar::asked, fuse_codec::specs::Grammar::form_room, fuse_codec::specs::Opcodes::reply_form, fuse_codec::specs::Replies::answered))]
    pub fn getattr<R: Wait, F: FileBoard, M: MapBoard>(
        &mut self,
        rt: &R,
        alloc: Global,
        at: FileRef,
        files: &mut F,
        map: &mut M,
    ) -> Result<AttrOut, WireRefusal>
    where
        W: Wire<F, M>,
        requires boards { CanAsk (W.wire self.old.wire)
            (boards (F.board files.old) (M.map map.old)) (getattr_request at) }
        ensures answer { Answers W.wire W.gives (λ out reply. reply ≡ replies.Attr out)
            self.old.wire (boards (F.board files.old) (M.map map.old))
            (message (next_number self.old.unique) at.node (getattr_request at))
            result self.new.wire (boards (F.board files.new) (M.map map.new)) }
        ensures number { self.new.unique ≡ next_number self.old.unique }
        ensures wire { KeepsWire (W.wire self.old.wire) (W.wire self.new.wire) }
        ensures boards { KeepsBoards (boards (F.board files.old) (M.map map.old))
            (boards (F.board files.new) (M.map map.new)) }
    {
        let unique = self.next_unique();
        let body = Request::Getattr(GetattrIn {
            getattr_flags: FUSE_GETATTR_FH,
            fh: at.fh,
        });
        let reply = self.ask(rt, alloc, unique, at.node, body, files, map)?;
        Ok(attr_in(reply))
    }

    /// Gives an open file a size in bytes: SETATTR with FATTR_SIZE and FATTR_FH. The answer has the
    /// attributes afterwards.
    #[tactic(auto, unfolding(fuse_codec::specs::Grammar::is_bounded, fuse_codec::specs::Grammar::kind_of, fuse_codec::specs::Grammar::asked, fuse_codec::specs::Grammar::form_room, fuse_codec::specs::Opcodes::reply_form, fuse_codec::specs::Replies::answered))]
    pub fn setattr_size<R: Wait, F: FileBoard, M: MapBoard>(
        &mut self,
        rt: &R,
        alloc: Global,
        at: FileRef,
        size: u64,
        files: &mut F,
        map: &mut M,
    ) -> Result<AttrOut, WireRefusal>
    where
        W: Wire<F, M>,
        requires boards { CanAsk (W.wire self.old.wire)
            (boards (F.board files.old) (M.map map.old)) (setattr_request at size) }
        ensures answer { Answers W.wire W.gives (λ out reply. reply ≡ replies.Attr out)
            self.old.wire (boards (F.board files.old) (M.map map.old))
            (message (next_number self.old.unique) at.node (setattr_request at size))
            result self.new.wire (boards (F.board files.new) (M.map map.new)) }
        ensures number { self.new.unique ≡ next_number self.old.unique }
        ensures wire { KeepsWire (W.wire self.old.wire) (W.wire self.new.wire) }
        ensures boards { KeepsBoards (boards (F.board files.old) (M.map map.old))
            (boards (F.board files.new) (M.map map.new)) }
    {
        let unique = self.next_unique();
        let body = Request::Setattr(size_for(at.fh, size));
        let reply = self.ask(rt, alloc, unique, at.node, body, files, map)?;
        Ok(attr_in(reply))
    }

    /// Reads from an open file: READ of `len` bytes from the offset `off` on, 1 to 1,048,576. The answer
    /// may be fewer, as at the file's end.
    #[tactic(auto, unfolding(fuse_codec::specs::Grammar::is_bounded, fuse_codec::specs::Grammar::kind_of, fuse_codec::specs::Grammar::asked, fuse_codec::specs::Grammar::form_room, fuse_codec::specs::Opcodes::reply_form, fuse_codec::specs::Replies::answered))]
    pub fn read<R: Wait, F: FileBoard, M: MapBoard>(
        &mut self,
        rt: &R,
        alloc: Global,
        at: FileRef,
        off: u64,
        len: u32,
        files: &mut F,
        map: &mut M,
    ) -> Result<Blob, WireRefusal>
    where
        W: Wire<F, M>,
        requires some { 0 < len }
        requires most { len ≤ max_transfer }
        requires boards { CanAsk (W.wire self.old.wire)
            (boards (F.board files.old) (M.map map.old)) (read_request at off len) }
        ensures answer { Answers W.wire W.gives (λ bytes reply. reply ≡ replies.Bytes bytes)
            self.old.wire (boards (F.board files.old) (M.map map.old))
            (message (next_number self.old.unique) at.node (read_request at off len))
            result self.new.wire (boards (F.board files.new) (M.map map.new)) }
        ensures number { self.new.unique ≡ next_number self.old.unique }
        ensures wire { KeepsWire (W.wire self.old.wire) (W.wire self.new.wire) }
        ensures boards { KeepsBoards (boards (F.board files.old) (M.map map.old))
            (boards (F.board files.new) (M.map map.new)) }
    {
        let unique = self.next_unique();
        let body = Request::Read(ReadIn {
            fh: at.fh,
            offset: off,
            size: len,
            read_flags: 0,
            lock_owner: 0,
            flags: 0,
        });
        let reply = self.ask(rt, alloc, unique, at.node, body, files, map)?;
        Ok(bytes_in(reply))
    }

    /// Writes to an open file: WRITE of the bytes, 1 to 1,048,576, from the offset `off` on. The answer is
    /// how many were written.
    #[tactic(auto, unfolding(fuse_codec::specs::Grammar::is_bounded, fuse_codec::specs::Grammar::kind_of, fuse_codec::specs::Grammar::asked, fuse_codec::specs::Grammar::form_room, fuse_codec::specs::Opcodes::reply_form, fuse_codec::specs::Replies::answered))]
    pub fn write<R: Wait, F: FileBoard, M: MapBoard>(
        &mut self,
        rt: &R,
        alloc: Global,
        at: FileRef,
        off: u64,
        bytes: &[u8],
        files: &mut F,
        map: &mut M,
    ) -> Result<u32, WireRefusal>
    where
        W: Wire<F, M>,
        requires some { 0 < length bytes.now }
        requires most { length bytes.now ≤ max_transfer }
        requires boards { CanAsk (W.wire self.old.wire)
            (boards (F.board files.old) (M.map map.old)) (write_request at off bytes.now) }
        ensures answer { Answers W.wire W.gives SaysWrote
            self.old.wire (boards (F.board files.old) (M.map map.old))
            (message (next_number self.old.unique) at.node (write_request at off bytes.now))
            result self.new.wire (boards (F.board files.new) (M.map map.new)) }
        ensures number { self.new.unique ≡ next_number self.old.unique }
        ensures wire { KeepsWire (W.wire self.old.wire) (W.wire self.new.wire) }
        ensures boards { KeepsBoards (boards (F.board files.old) (M.map map.old))
            (boards (F.board files.new) (M.map map.new)) }
    {
        let unique = self.next_unique();
        let request = spell_write(alloc, unique, at, off, bytes)?;
        let reply = self.send(rt, alloc, &request, files, map)?;
        Ok(wrote_in(reply).size)
    }
}

// What sets the size of an open file, and nothing else.
fn size_for(fh: u64, size: u64) -> SetattrIn
    ensures { result ≡ size_for fh size }
{
    SetattrIn {
        valid: FATTR_SIZE | FATTR_FH,
        fh,
        size,
        lock_owner: 0,
        atime: 0,
        mtime: 0,
        ctime: 0,
        atimensec: 0,
        mtimensec: 0,
        ctimensec: 0,
        mode: 0,
        uid: 0,
        gid: 0,
    }
}

// A WRITE of bytes that the caller keeps, as it is sent.
#[tactic(auto, unfolding(fuse_codec::specs::Grammar::kind_of, fuse_codec::specs::Grammar::asked, fuse_codec::specs::Grammar::form_room, fuse_codec::specs::Opcodes::reply_form))]
fn spell_write(
    alloc: Global,
    unique: u64,
    at: FileRef,
    offset: u64,
    bytes: &[u8],
) -> Result<Spelled, Memory>
    requires most { length bytes.now ≤ max_transfer }
    ensures spelled { IfOk result (λ s. IsSpelled (message unique at.node (write_request at offset bytes.now)) s) }
    ensures again { IfOk result (λ s. message_of s.bytes ≡ Ok (message unique at.node (write_request at offset bytes.now))) }
{
    let write = write_at(at.fh, offset, bytes.len() as u32);
    let bytes = encode_write(alloc, &head_of(unique, at.node), &write, bytes)?;
    let form = Opcode::Write.reply_form();
    Ok(Spelled {
        unique,
        opcode: Opcode::Write,
        room: form.room(0).unwrap_or(16) as u32,
        bytes,
    })
}

// Where a WRITE begins, and how long it is.
fn write_at(fh: u64, offset: u64, size: u32) -> WriteIn
    ensures { result ≡ write_at fh offset size }
{
    WriteIn {
        fh,
        offset,
        size,
        write_flags: 0,
        lock_owner: 0,
        flags: 0,
    }
}
