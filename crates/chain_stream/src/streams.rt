ghost use Rattle.std.specs.Prelude.{◌≡◌, ◌≤◌, ◌+◌};
ghost use Rattle.program_io.specs.Causes.{TakesAtMost};
ghost use Rattle.chain_stream.specs.Frames.{limit};
ghost use Rattle.chain_stream.specs.Courses.{Ends, chunk, course_by};

use crate::frames::{End, Reason};
use crate::headers::read_header;
use crate::pendings::{FillError, Pending};
use crate::responding::{Responder, end_stream, respond};
use plain_file::Memory;
use program_io::{Sink, Source, Status};
use std::alloc::Global;

/// Answers a stream from its header on to its end. The answers to the whole frames that were read are
/// written before more is read, and no more than one frame and one read of 65,536 bytes is kept,
/// whatever the stream's length.
///
/// The status is that of the stream's end, or a failure: `Ends` says what was written. No more is read
/// than 268,435,456 bytes and one read.
pub fn answer_stream<R: Responder + Drop, S: Source, K: Sink>(
    alloc: Global,
    source: &mut S,
    sink: &mut K,
) -> Status
    ensures ends { Ends (course_by R.starting) R.ending (S.left source.old) (S.left source.new) (K.taken sink.old) (K.taken sink.new) (S.faults source.old) (S.faults source.new) (K.faults sink.old) (K.faults sink.new) result }
    ensures most { TakesAtMost (limit + chunk) (S.left source.old) (S.left source.new) }
{
    R::quiet_at_start();
    let mut pending = Pending::new(alloc);
    match read_header(&mut pending, source) {
        Ok(Some(pages)) => match R::start(alloc, pages) {
            Ok(mut responder) => respond(alloc, &mut responder, &mut pending, source, sink),
            Err(Memory) => Status::Memory,
        },
        Ok(None) => end_stream::<R, K>(
            End::Malformed {
                reason: Reason::Header,
                at: 0,
            },
            &mut Vec::new(alloc),
            sink,
        ),
        Err(FillError::Memory) => Status::Memory,
        Err(FillError::Failed) => Status::ReadFault,
    }
}
