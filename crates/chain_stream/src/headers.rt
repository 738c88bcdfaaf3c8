ghost use Rattle.std.specs.Prelude.{◌≡◌, ◌≤◌, ◌<◌, ◌+◌, [], true, false, length, Some, None, IfOk, IfErr, IfSome, IsErrOf};
ghost use Rattle.std.specs.Io.KnownBytes.{Consumes, IsAtEnd};
ghost use Rattle.plain_file.specs.Counts.{Rose};
ghost use Rattle.fuse_wire.specs.Records.{u32_at};
ghost use Rattle.chain_stream.specs.Frames.{is_header};
ghost use Rattle.chain_stream.specs.Headers.{IsHeaded, IsUnheaded, IsWaiting, header_pages};
ghost use Rattle.chain_stream.specs.Courses.{Took, chunk};

use crate::pendings::{FillError, Pending};
use fuse_wire::u32_at;
use program_io::Source;

// How many bytes the header has.
const HEADER: usize = 12;

// The most pages that a window has.
const PAGES: u32 = 131_072;

/// Reads a stream's header, and tells how many pages its window has: the pending bytes then are those
/// that were read behind it. None where the stream ends within the header, isn't a chain stream, or
/// has too many pages.
pub fn read_header<S: Source>(
    pending: &mut Pending,
    source: &mut S,
) -> Result<Option<u32>, FillError>
    requires new { pending.old ≡ record { rest = []; at = 0 } }
    ensures headed { IfOk result (λ o. IfSome o (IsHeaded (S.left source.old) (S.left source.new) pending.new)) }
    ensures unheaded { IfOk result (λ o. o ≡ None → IsUnheaded (S.left source.old) (S.left source.new)) }
    ensures waiting { IfErr result (λ e. IsWaiting (S.left source.old) (S.left source.new)) }
    ensures took { Took (record { rest = []; at = 0 }) pending.new (S.left source.old) (S.left source.new) }
    ensures failed { IsErrOf result FillError.Failed → Rose (S.faults source.old) (S.faults source.new) }
    ensures later { S.faults source.old ≤ S.faults source.new }
{
    if !read_enough(pending, source)? {
        return Ok(None);
    }
    match pages_of(pending.rest()) {
        Some(pages) => {
            pending.advance(HEADER);
            Ok(Some(pages))
        }
        None => Ok(None),
    }
}

// Reads as many bytes as the header has, or more; false where the source has fewer.
fn read_enough<S: Source>(pending: &mut Pending, source: &mut S) -> Result<bool, FillError>
    requires new { pending.old ≡ record { rest = []; at = 0 } }
    ensures consumed { Consumes (S.left source.old) (S.left source.new) pending.new.rest }
    ensures start { pending.new.at ≡ 0 }
    ensures small { length pending.new.rest ≤ 12 + chunk }
    ensures enough { IfOk result (λ b. b ≡ true → 12 ≤ length pending.new.rest) }
    ensures ended { IfOk result (λ b. b ≡ false → IsAtEnd (S.left source.new) × (length pending.new.rest < 12)) }
    ensures short { IfErr result (λ e. length pending.new.rest < 12) }
    ensures failed { IsErrOf result FillError.Failed → Rose (S.faults source.old) (S.faults source.new) }
    ensures later { S.faults source.old ≤ S.faults source.new }
{
    while pending.rest().len() < HEADER {
        match pending.fill(source) {
            Ok(0) => return Ok(false),
            Ok(_) => {}
            Err(e) => return Err(e),
        }
    }
    Ok(true)
}

// How many pages a header says; None where it is none.
#[tactic(auto, unfolding(crate::specs::Frames::is_header))]
fn pages_of(bytes: &[u8]) -> Option<u32>
    requires { 12 ≤ length bytes.now }
    ensures { result ≡ header_pages bytes.now }
{
    let pages = u32_at(bytes, 8);
    if bytes.split_at(8).0 == b"DAXWIRE1".as_slice() && pages <= PAGES {
        Some(pages)
    } else {
        None
    }
}
