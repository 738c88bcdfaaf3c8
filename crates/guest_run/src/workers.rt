ghost use Rattle.std.specs.Prelude.{◌≡◌, ◌+◌, ◌<◌, ◌≤◌, ℕ, replicate, length, IfOk, OnOk};
ghost use Rattle.std.specs.List.{AllByRecursion};
ghost use Rattle.page_map.specs.Board.{MapView, log_at};
ghost use Rattle.range_tree.specs.Ranges.{range_count};
ghost use Rattle.dax_script.specs.declared.scripts.Call.{Call};
ghost use Rattle.transcript_text.specs.TranscriptReading.{IsPrintableNumbered, IsPrintableLine};
ghost use Rattle.guest_dax.specs.Stands.{stand};
ghost use Rattle.guest_io.specs.Requests.{IsHome};
ghost use Rattle.guest_io.specs.Holds.{HasHolds, LeavesRest};
ghost use Rattle.guest_run.specs.Runs.{IsRunFrom};
ghost use Rattle.guest_run.specs.Working.{IsIdle, TakesAlone, LeasesAlone, CanMake, AreCalls, AreBarred, AreHeldUp, max_calls, first_at, history_at, notes_at, Tells, Comes, IsToldOf, Counts, HasCounted, HasCountedOne};
ghost use Rattle.guest_run.specs.Telling.{HasFields};

use crate::gates::{Gate, Point};
use crate::lines::{done_line, held_line, line_of};
use dax_script::Call;
use guest_io::{Done, Guest, Refusal};
use guest_wire::Wire;
use plain_file::{FileTurns, List, Memory};
use range_tree::RangeBoard;
use std::alloc::Global;
use std::sync::Wait;
use transcript_text::{Line, Numbered};

/// Makes the calls of a guest one after another, and tells a line of each: that it is done, with its place in
/// its file's history and its answer; that a hold was granted, with its end and its placement, or given back;
/// that no range could be taken, with a letter for each range: `p` where it was pinned, `m` where it was
/// moving; that a file is leased, and how often; that a hold isn't granted; or that an access ends above its
/// hold's end.
///
/// The guest has asked for no hold yet. Where nobody else leases files, a truncation is refused exactly for its
/// own holds on the file. Where nobody else takes ranges, a call is told that no range could be taken only where
/// its own holds have all of them, but perhaps one where its bytes lie in two chunks. Over a shared board the
/// size by which a hold ends may be one that the board has noted, and that has no upper end yet. The board of
/// ranges has counted a round of all ranges, each of them pinned or moving, for each call that is told that none
/// could be taken, and the board of files a refused bar for each truncation that is told of leases, and no others,
/// where it begins with none. `Memory` comes where an
/// allocation was refused; then some of the calls were made. It waits as the guest's calls do.
///
/// The gate is told before each call, and after each that made its line, `number` as the guest's number and the
/// call's number. It may wait there, and changes nothing. No clause says that it is called: a test does.
pub fn worker<T: Wait, W, F: FileTurns, R: RangeBoard, G: Gate>(
    rt: &T,
    alloc: Global,
    guest: &mut Guest<W, F, R>,
    calls: &[Call],
    number: u32,
    gate: &G,
) -> Result<List<Numbered>, Memory>
where
    W: Wire<F, R>,
    requires idle { IsIdle (stand (W.wire guest.old.dax.driver.wire) (F.board guest.old.dax.files) (R.map guest.old.dax.ranges)) guest.old.dax.refs guest.old.holds }
    requires fresh { guest.old.holds.asked ≡ 0 }
    requires few { length calls.now ≤ max_calls }
    requires calls { AreCalls (length guest.old.dax.refs) (range_count (R.map guest.old.dax.ranges)) calls.now }
    ensures idle { IsIdle (stand (W.wire guest.new.dax.driver.wire) (F.board guest.new.dax.files) (R.map guest.new.dax.ranges)) guest.new.dax.refs guest.new.holds }
    ensures rest { LeavesRest (stand (W.wire guest.old.dax.driver.wire) (F.board guest.old.dax.files) (R.map guest.old.dax.ranges)) (stand (W.wire guest.new.dax.driver.wire) (F.board guest.new.dax.files) (R.map guest.new.dax.ranges)) }
    ensures run { IfOk result (IsRunFrom (F.board guest.old.dax.files).guest (range_count (R.map guest.old.dax.ranges)) (first_at (F.board guest.old.dax.files)) (λ f. length (history_at (F.board guest.old.dax.files) f)) (history_at (F.board guest.new.dax.files)) (log_at (R.map guest.new.dax.ranges)) (notes_at (F.board guest.new.dax.files)) calls.now) }
    ensures count { IfOk result (λ lines. length lines ≡ length calls.now) }
    ensures barred { LeasesAlone (stand (W.wire guest.old.dax.driver.wire) (F.board guest.old.dax.files) (R.map guest.old.dax.ranges)) → IfOk result (AreBarred calls.now) }
    ensures held_up { TakesAlone (stand (W.wire guest.old.dax.driver.wire) (F.board guest.old.dax.files) (R.map guest.old.dax.ranges)) → IfOk result (AreHeldUp (range_count (R.map guest.old.dax.ranges)) (log_at (R.map guest.new.dax.ranges)) calls.now) }
    ensures counts { IfOk result (HasCounted (stand (W.wire guest.old.dax.driver.wire) (F.board guest.old.dax.files) (R.map guest.old.dax.ranges)) (stand (W.wire guest.new.dax.driver.wire) (F.board guest.new.dax.files) (R.map guest.new.dax.ranges)) calls.now) }
    ensures printable { IfOk result (AllByRecursion IsPrintableNumbered) }
    ensures refs { guest.new.dax.refs ≡ guest.old.dax.refs }
{
    let mut lines = List::from_vec(Vec::with_capacity(alloc, calls.len())?);
    let mut filling = Vec::new(alloc);
    let mut made = 0;
    for call in calls {
        gate.at(rt, number, made, Point::Before);
        let line = make_call(rt, alloc, guest, made, call, &mut filling)?;
        gate.at(rt, number, made, Point::After);
        lines.push(Numbered { call: made, line })?;
        made += 1;
    }
    Ok(lines)
}

// One call, and what its line tells.
fn make_call<T: Wait, W, F: FileTurns, R: RangeBoard>(
    rt: &T,
    alloc: Global,
    guest: &mut Guest<W, F, R>,
    number: u32,
    call: &Call,
    filling: &mut Vec<u8>,
) -> Result<Line, Memory>
where
    W: Wire<F, R>,
    requires idle { IsIdle (stand (W.wire guest.old.dax.driver.wire) (F.board guest.old.dax.files) (R.map guest.old.dax.ranges)) guest.old.dax.refs guest.old.holds }
    requires call { CanMake (stand (W.wire guest.old.dax.driver.wire) (F.board guest.old.dax.files) (R.map guest.old.dax.ranges)) guest.old.holds (length guest.old.dax.refs) call.now }
    ensures idle { IsIdle (stand (W.wire guest.new.dax.driver.wire) (F.board guest.new.dax.files) (R.map guest.new.dax.ranges)) guest.new.dax.refs guest.new.holds }
    ensures rest { LeavesRest (stand (W.wire guest.old.dax.driver.wire) (F.board guest.old.dax.files) (R.map guest.old.dax.ranges)) (stand (W.wire guest.new.dax.driver.wire) (F.board guest.new.dax.files) (R.map guest.new.dax.ranges)) }
    ensures tells { IfOk result (λ l. Tells (stand (W.wire guest.old.dax.driver.wire) (F.board guest.old.dax.files) (R.map guest.old.dax.ranges)) guest.old.holds number call.now l (stand (W.wire guest.new.dax.driver.wire) (F.board guest.new.dax.files) (R.map guest.new.dax.ranges)) guest.new.holds) }
    ensures counts { IfOk result (HasCountedOne (stand (W.wire guest.old.dax.driver.wire) (F.board guest.old.dax.files) (R.map guest.old.dax.ranges)) (stand (W.wire guest.new.dax.driver.wire) (F.board guest.new.dax.files) (R.map guest.new.dax.ranges)) call.now) }
    ensures printable { IfOk result IsPrintableLine }
    ensures refs { guest.new.dax.refs ≡ guest.old.dax.refs }
{
    let answer = ask(rt, alloc, guest, number, call, filling);
    line_of(alloc, guest, answer)
}

// One call, and the guest's answer, as a line where it was done.
#[tactic(auto, unfolding(crate::specs::Working::CanMake))]
fn ask<T: Wait, W, F: FileTurns, R: RangeBoard>(
    rt: &T,
    alloc: Global,
    guest: &mut Guest<W, F, R>,
    number: u32,
    call: &Call,
    filling: &mut Vec<u8>,
) -> Result<Line, Refusal>
where
    W: Wire<F, R>,
    requires idle { IsIdle (stand (W.wire guest.old.dax.driver.wire) (F.board guest.old.dax.files) (R.map guest.old.dax.ranges)) guest.old.dax.refs guest.old.holds }
    requires call { CanMake (stand (W.wire guest.old.dax.driver.wire) (F.board guest.old.dax.files) (R.map guest.old.dax.ranges)) guest.old.holds (length guest.old.dax.refs) call.now }
    ensures home { IsHome (stand (W.wire guest.new.dax.driver.wire) (F.board guest.new.dax.files) (R.map guest.new.dax.ranges)) guest.new.dax.refs }
    ensures holds { HasHolds (stand (W.wire guest.new.dax.driver.wire) (F.board guest.new.dax.files) (R.map guest.new.dax.ranges)) guest.new.holds }
    ensures rest { LeavesRest (stand (W.wire guest.old.dax.driver.wire) (F.board guest.old.dax.files) (R.map guest.old.dax.ranges)) (stand (W.wire guest.new.dax.driver.wire) (F.board guest.new.dax.files) (R.map guest.new.dax.ranges)) }
    ensures comes { Comes (stand (W.wire guest.old.dax.driver.wire) (F.board guest.old.dax.files) (R.map guest.old.dax.ranges)) guest.old.holds number call.now result (stand (W.wire guest.new.dax.driver.wire) (F.board guest.new.dax.files) (R.map guest.new.dax.ranges)) guest.new.holds }
    ensures counts { Counts (stand (W.wire guest.old.dax.driver.wire) (F.board guest.old.dax.files) (R.map guest.old.dax.ranges)) call.now result (stand (W.wire guest.new.dax.driver.wire) (F.board guest.new.dax.files) (R.map guest.new.dax.ranges)) }
    ensures fields { IfOk result HasFields }
    ensures refs { guest.new.dax.refs ≡ guest.old.dax.refs }
{
    match call {
        Call::Read { file, off, len } => told(guest.read(rt, alloc, number, *file, *off, *len)),
        Call::Write { file, off, bytes } => {
            told(guest.write(rt, alloc, number, *file, *off, bytes.as_slice()))
        }
        Call::Fill {
            file,
            off,
            len,
            byte,
        } => match fill(filling, *len, *byte) {
            Ok(()) => told(guest.write(rt, alloc, number, *file, *off, filling.as_slice())),
            Err(_) => Err(Refusal::Memory),
        },
        Call::Size { file } => told(guest.size(rt, alloc, number, *file)),
        Call::Truncate { file, size } => told(guest.truncate(rt, alloc, number, *file, *size)),
        Call::Hold { file, chunk, mode } => match guest.hold(rt, alloc, *file, *chunk, *mode) {
            Ok(held) => Ok(held_line(held)),
            Err(refusal) => Err(refusal),
        },
        Call::Load { hold, off, len } => told(guest.load(rt, alloc, number, *hold, *off, *len)),
        Call::Store { hold, off, bytes } => {
            told(guest.store(rt, alloc, number, *hold, *off, bytes.as_slice()))
        }
        Call::Release { hold } => match guest.release(*hold) {
            Ok(()) => Ok(Line::Released),
            Err(refusal) => Err(refusal),
        },
    }
}

// The answer as a line, where the call was done.
fn told(answer: Result<Done, Refusal>) -> Result<Line, Refusal>
    ensures told { IsToldOf answer result }
    ensures fields { IfOk result HasFields }
{
    match answer {
        Ok(done) => Ok(done_line(done)),
        Err(refusal) => Err(refusal),
    }
}

// So many equal bytes, in a buffer that is used again.
fn fill(buffer: &mut Vec<u8>, len: u32, byte: u8) -> Result<(), Memory>
    ensures { OnOk result (buffer.new.items ≡ replicate len byte) }
{
    buffer.clear();
    buffer.resize(len as usize, byte)?;
    Ok(())
}
