mod chains;
mod offering;
mod places;

ghost use Rattle.std.specs.Prelude.{◌≡◌, ◌≤◌, length, IfOk};
ghost use Rattle.vring.specs.Bytes.{max_memory};

use super::*;
use plain_file::{Blob, Memory};
use std::alloc::Global;
use std::process::Abort;
use std::test::Fail;
use test_bytes::bytes_of;

// A memory of so many bytes, all 0.
fn zeros(alloc: Global, len: usize) -> Result<GuestMem, Memory>
    requires { len ≤ max_memory }
    ensures { IfOk result (λ m. length m ≡ len) }
{
    Ok(GuestMem::new(Blob::from_vec(vec![in alloc; 0u8; len]?)))
}

// Asserts that the memory has the bytes of each text from its place on.
fn has(
    rt: &impl Abort,
    alloc: Global,
    mem: &GuestMem,
    places: &[(usize, &str)],
) -> Result<(), Fail> {
    for (at, text) in places.iter().copied() {
        let wanted = bytes_of(alloc, text)?;
        let bytes = mem.as_slice();
        let end = at.wrapping_add(wanted.len());
        assert!(rt;
            at <= end && end <= bytes.len() && &bytes[at..end] == wanted.as_slice(),
            "{text} at {at}"
        );
    }
    Ok(())
}
