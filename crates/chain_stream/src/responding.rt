ghost use Rattle.std.specs.Prelude.{◌≡◌, Option, ◌≤◌, ◌<◌, ◌+◌, ◌^◌, ◌++◌, ◌∷◌, ℕ, List, [], true, false, length, take, drop, Ok, IfOk, IfErr, OnOk, OnErr};
ghost use Rattle.plain_file.specs.Counts.{Rose};
ghost use Rattle.chain_stream.specs.Frames.{Frame, lead_at, lead_len, is_longer, limit, IsBounded};
ghost use Rattle.chain_stream.specs.Courses.{PendingView, Answers, Course, Ends, Follows, IfContinue, IsUndecided, OnContinue, Writes, Took, after_text, chunk, course_from, open_end, status_of};

use crate::frames::{End, Lead, Reason, begins};
use crate::pendings::{FillError, Pending};
use plain_file::Memory;
use program_io::{Sink, Source, Status, write_all};
use std::alloc::Global;
use std::ops::ControlFlow;

// How many bytes of an input are looked at.
const LIMIT: u64 = 268_435_456;

// How many bytes of answers are written before the next frame is answered.
const DUE: usize = 1_048_576;

/// What answers a stream frame by frame. It means what is written in answer to frames that come one
/// after another, and what is written at the stream's end.
pub trait Responder {
    ghost use Rattle.std.specs.Prelude.{List, ℕ};
    ghost use Rattle.chain_stream.specs.Frames.{Frame};
    ghost use Rattle.chain_stream.specs.declared.frames.End.{End};

    // What is written in answer to these frames.
    ghost says: { Self → List Frame → List ℕ };

    // The same for one that starts with a window of so many pages.
    ghost starting: { ℕ → List Frame → List ℕ };

    // What is written at the end.
    ghost ending: { End → List ℕ };

    /// One that has answered no frame yet, for a stream whose header says so many pages. `Memory` comes
    /// where an allocation was refused.
    fn start(alloc: Global, pages: u32) -> Result<Self, Memory>
        ensures { IfOk result (λ r. says r ≡ starting pages) };

    /// At the start nothing is written in answer to no frames.
    fn quiet_at_start()
        ensures { (pages : ℕ) → starting pages [] ≡ [] };

    /// Nothing is written in answer to no frames.
    fn quiet(&self)
        ensures { says self.now [] ≡ [] };

    /// Adds the answer to a whole frame, which is what `lead` says, to a text. After `Memory` nothing
    /// is known of the text.
    fn answer(
        &mut self,
        alloc: Global,
        lead: Lead,
        bytes: &[u8],
        out: &mut Vec<u8>,
    ) -> Result<(), Memory>
        requires bounded { IsBounded lead }
        requires whole { lead_len lead ≡ length bytes.now }
        ensures says { OnOk result ((more : List Frame) →
            out.old.items ++ says self.old (record { lead = lead; bytes = bytes.now } ∷ more) ≡ out.new.items ++ says self.new more) };

    /// Adds what is written at the end to a text, whether a frame was answered or none. After `Memory`
    /// nothing is known of the text.
    fn end(end: End, out: &mut Vec<u8>) -> Result<(), Memory>
        ensures says { OnOk result (out.new.items ≡ out.old.items ++ ending end) };
}

// Answers the frame that the pending bytes begin with, if a whole one up to the limit, and tells what
// they began with.
fn answer_next<R: Responder>(
    alloc: Global,
    responder: &mut R,
    pending: &mut Pending,
    out: &mut Vec<u8>,
) -> Result<Lead, Memory>
    requires within { pending.old.at ≤ limit }
    requires small { pending.old.at + length pending.old.rest ≤ limit + chunk }
    ensures answers { OnOk result (Answers (R.says responder.old) (R.says responder.new) pending.old pending.new out.old.items out.new.items) }
    ensures lead { IfOk result (λ f. f ≡ lead_at pending.old.at pending.old.rest) }
    ensures none { IfOk result (λ f. lead_len f ≡ 0 → pending.new ≡ pending.old) }
    ensures more { IfOk result (λ f. 1 ≤ lead_len f → length pending.new.rest < length pending.old.rest) }
    ensures bounded { IfOk result IsBounded }
    ensures within { pending.new.at ≤ limit }
    ensures place { pending.new.at + length pending.new.rest ≡ pending.old.at + length pending.old.rest }
{
    let rest = pending.rest();
    let seen = ((LIMIT - pending.at()) as usize).min(rest.len());
    let lead = begins(rest.split_at(seen).0);
    let len = lead.len();
    if len == 0 {
        return Ok(lead);
    }
    responder.answer(alloc, lead, rest.split_at(len).0, out)?;
    pending.advance(len);
    Ok(lead)
}

// Writes all that is due.
fn write_due<K: Sink>(out: &mut Vec<u8>, sink: &mut K) -> ControlFlow<Status>
    ensures follows { (c : Course) (ending : End → List ℕ) (left : Option (List ℕ)) (reads : ℕ) →
        Follows (after_text out.old.items c) (after_text out.new.items c) ending left left (K.taken sink.old) (K.taken sink.new) reads reads (K.faults sink.old) (K.faults sink.new) result }
    ensures empty { OnContinue result (out.new.items ≡ []) }
    ensures later { K.faults sink.old ≤ K.faults sink.new }
{
    match write_all(sink, out) {
        Ok(()) => {
            out.clear();
            ControlFlow::Continue(())
        }
        Err(_) => ControlFlow::Break(Status::WriteFault),
    }
}

// Writes all that is due, where it is a megabyte or more.
fn write_much<K: Sink>(out: &mut Vec<u8>, sink: &mut K) -> ControlFlow<Status>
    ensures follows { (c : Course) (ending : End → List ℕ) (left : Option (List ℕ)) (reads : ℕ) →
        Follows (after_text out.old.items c) (after_text out.new.items c) ending left left (K.taken sink.old) (K.taken sink.new) reads reads (K.faults sink.old) (K.faults sink.new) result }
    ensures later { K.faults sink.old ≤ K.faults sink.new }
{
    if out.len() >= DUE {
        return write_due(out, sink);
    }
    ControlFlow::Continue(())
}

// Answers all whole frames of the pending bytes, up to the limit, and tells what the rest begins with.
// What is due is written as soon as it is a megabyte.
fn answer_whole<R: Responder, K: Sink>(
    alloc: Global,
    responder: &mut R,
    pending: &mut Pending,
    out: &mut Vec<u8>,
    sink: &mut K,
) -> ControlFlow<Status, Lead>
    requires within { pending.old.at ≤ limit }
    requires small { pending.old.at + length pending.old.rest ≤ limit + chunk }
    ensures follows { (left : Option (List ℕ)) (reads : ℕ) →
        Follows (after_text out.old.items (course_from (R.says responder.old) pending.old)) (after_text out.new.items (course_from (R.says responder.new) pending.new)) R.ending left left (K.taken sink.old) (K.taken sink.new) reads reads (K.faults sink.old) (K.faults sink.new) result }
    ensures lead { IfContinue result (λ f. f ≡ lead_at pending.new.at pending.new.rest) }
    ensures none { IfContinue result (λ f. lead_len f ≡ 0) }
    ensures within { pending.new.at ≤ limit }
    ensures place { pending.new.at + length pending.new.rest ≡ pending.old.at + length pending.old.rest }
    ensures later { K.faults sink.old ≤ K.faults sink.new }
{
    loop {
        let Ok(lead) = answer_next(alloc, responder, pending, out) else {
            return ControlFlow::Break(Status::Memory);
        };
        if lead.len() == 0 {
            return ControlFlow::Continue(lead);
        }
        write_much(out, sink)?;
    }
}

impl Lead {
    // The end of a stream that ends at such a lead.
    #[tactic(auto, unfolding(crate::specs::Courses::open_end))]
    fn open_end(self, at: u64) -> End
        ensures { result ≡ open_end self at }
    {
        match self {
            Lead::Bad(reason) => End::Malformed { reason, at },
            Lead::Cut => End::Malformed {
                reason: Reason::Cut,
                at,
            },
            _ => End::Ended,
        }
    }
}

/// Writes a text and what is due at the end, and tells the status of that end, or a failure.
#[tactic(auto, unfolding(crate::specs::Courses::status_of))]
pub fn end_stream<R: Responder, K: Sink>(end: End, out: &mut Vec<u8>, sink: &mut K) -> Status
    ensures writes { Writes (out.old.items ++ R.ending end) (status_of end) (K.taken sink.old) (K.taken sink.new) (K.faults sink.old) (K.faults sink.new) result }
    ensures later { K.faults sink.old ≤ K.faults sink.new }
{
    if R::end(end, out).is_err() {
        return Status::Memory;
    }
    if write_all(sink, out).is_err() {
        return Status::WriteFault;
    }
    match end {
        End::Ended => Status::Ok,
        End::Malformed { .. } => Status::Refused,
        End::TooLong => Status::TooLong,
    }
}

// Answers and writes all whole frames of the pending bytes. The stream goes on then, or it ended with a
// status: at a malformed frame, behind the limit, or with a failure.
#[tactic(auto, unfolding(crate::specs::Frames::lead_len, crate::specs::Frames::is_decided))]
fn flush<R: Responder, K: Sink>(
    alloc: Global,
    responder: &mut R,
    pending: &mut Pending,
    out: &mut Vec<u8>,
    sink: &mut K,
) -> ControlFlow<Status, Lead>
    requires within { pending.old.at ≤ limit }
    requires small { pending.old.at + length pending.old.rest ≤ limit + chunk }
    requires empty { out.old.items ≡ [] }
    ensures follows { (left : Option (List ℕ)) (reads : ℕ) →
        Follows (course_from (R.says responder.old) pending.old) (course_from (R.says responder.new) pending.new) R.ending left left (K.taken sink.old) (K.taken sink.new) reads reads (K.faults sink.old) (K.faults sink.new) result }
    ensures undecided { IfContinue result (IsUndecided pending.new) }
    ensures empty { OnContinue result (out.new.items ≡ []) }
    ensures place { pending.new.at + length pending.new.rest ≡ pending.old.at + length pending.old.rest }
    ensures later { K.faults sink.old ≤ K.faults sink.new }
{
    let lead = answer_whole(alloc, responder, pending, out, sink)?;
    responder.quiet();
    let at = pending.at();
    if let Lead::Bad(reason) = lead {
        return ControlFlow::Break(end_stream::<R, K>(End::Malformed { reason, at }, out, sink));
    }
    if at + pending.rest().len() as u64 > LIMIT {
        return ControlFlow::Break(end_stream::<R, K>(End::TooLong, out, sink));
    }
    write_due(out, sink)?;
    ControlFlow::Continue(lead)
}

// Reads on, where the pending bytes are a part of a frame or none. The stream goes on then, or it ended
// with a status: at its end, or with a failure.
fn read_on<R: Responder, S: Source, K: Sink>(
    responder: &R,
    lead: Lead,
    pending: &mut Pending,
    out: &mut Vec<u8>,
    source: &mut S,
    sink: &mut K,
) -> ControlFlow<Status>
    requires undecided { IsUndecided pending.old lead }
    requires empty { out.old.items ≡ [] }
    ensures follows { Follows (course_from (R.says responder.now) pending.old) (course_from (R.says responder.now) pending.new) R.ending (S.left source.old) (S.left source.new) (K.taken sink.old) (K.taken sink.new) (S.faults source.old) (S.faults source.new) (K.faults sink.old) (K.faults sink.new) result }
    ensures more { OnContinue result (length pending.old.rest < length pending.new.rest) }
    ensures at { pending.new.at ≡ pending.old.at }
    ensures empty { OnContinue result (out.new.items ≡ []) }
    ensures took { Took pending.old pending.new (S.left source.old) (S.left source.new) }
    ensures later_reads { S.faults source.old ≤ S.faults source.new }
    ensures later_writes { K.faults sink.old ≤ K.faults sink.new }
{
    responder.quiet();
    match pending.fill(source) {
        Ok(0) => ControlFlow::Break(end_stream::<R, K>(lead.open_end(pending.at()), out, sink)),
        Ok(_) => ControlFlow::Continue(()),
        Err(FillError::Memory) => ControlFlow::Break(Status::Memory),
        Err(FillError::Failed) => ControlFlow::Break(Status::ReadFault),
    }
}

// Answers what is pending, and reads on.
fn turn<R: Responder, S: Source, K: Sink>(
    alloc: Global,
    responder: &mut R,
    pending: &mut Pending,
    out: &mut Vec<u8>,
    source: &mut S,
    sink: &mut K,
) -> ControlFlow<Status>
    requires within { pending.old.at ≤ limit }
    requires small { pending.old.at + length pending.old.rest ≤ limit + chunk }
    requires empty { out.old.items ≡ [] }
    ensures follows { Follows (course_from (R.says responder.old) pending.old) (course_from (R.says responder.new) pending.new) R.ending (S.left source.old) (S.left source.new) (K.taken sink.old) (K.taken sink.new) (S.faults source.old) (S.faults source.new) (K.faults sink.old) (K.faults sink.new) result }
    ensures within { OnContinue result (pending.new.at ≤ limit) }
    ensures more { OnContinue result (pending.old.at + length pending.old.rest < pending.new.at + length pending.new.rest) }
    ensures empty { OnContinue result (out.new.items ≡ []) }
    ensures took { Took pending.old pending.new (S.left source.old) (S.left source.new) }
    ensures later_reads { S.faults source.old ≤ S.faults source.new }
    ensures later_writes { K.faults sink.old ≤ K.faults sink.new }
{
    let lead = flush(alloc, responder, pending, out, sink)?;
    read_on(responder, lead, pending, out, source, sink)
}

/// Answers a stream to its end, from the pending bytes on, which begin at a frame. The answers to
/// the whole frames that were read are written before more is read, and as soon as a megabyte of them
/// is due.
///
/// The status is that of the stream's end, or a failure: `Ends` says what was written.
pub fn respond<R: Responder, S: Source, K: Sink>(
    alloc: Global,
    responder: &mut R,
    pending: &mut Pending,
    source: &mut S,
    sink: &mut K,
) -> Status
    requires within { pending.old.at ≤ limit }
    requires small { pending.old.at + length pending.old.rest ≤ limit + chunk }
    ensures ends { Ends (course_from (R.says responder.old) pending.old) R.ending (S.left source.old) (S.left source.new) (K.taken sink.old) (K.taken sink.new) (S.faults source.old) (S.faults source.new) (K.faults sink.old) (K.faults sink.new) result }
    ensures took { Took pending.old pending.new (S.left source.old) (S.left source.new) }
    ensures later_reads { S.faults source.old ≤ S.faults source.new }
    ensures later_writes { K.faults sink.old ≤ K.faults sink.new }
{
    let mut out = Vec::new(alloc);
    loop {
        if let ControlFlow::Break(status) = turn(
            alloc, responder, pending, &mut out, source, sink,
        ) {
            return status;
        }
    }
}
