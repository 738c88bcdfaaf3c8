ghost use Rattle.std.specs.Prelude.{◌≡◌, [], false, IfOk, OnOk};
ghost use Rattle.daxwire.specs.RingText.{all_served, left_by};

use crate::ring_lines::{put_chain_lines, put_digest, put_fault};
use crate::shows::put;
use crate::wholes::Answer;
use dax_device::{QueueDevice, Turn, open_image};
use plain_file::{Blob, Memory};
use program_io::Status;
use std::alloc::Global;
use vring::{Chain, RingFault};

// Serves as many chains as are offered before the first, and tells the fault at which it ended.
fn serve_offered(
    alloc: Global,
    device: &mut QueueDevice,
    out: &mut Vec<u8>,
) -> Result<Option<RingFault>, Memory>
    requires { out.old.items ≡ [] }
    ensures text { OnOk result (out.new.items ≡ (all_served device.old).text) }
    ensures left { IfOk result (λ fault. (all_served device.old).left ≡ left_by fault device.new.memory) }
{
    let mut chain = Chain::new(alloc);
    let mut readable = Vec::new(alloc);
    let count = device.offered();
    for _turn in 0..count {
        match device.serve_next(alloc, &mut chain, &mut readable)? {
            Turn::Served(answer) => put_chain_lines(
                alloc,
                &chain,
                &readable,
                answer.as_slice(),
                out,
            )?,
            Turn::Idle => return Ok(None),
            Turn::Fault(fault) => return Ok(Some(fault)),
        }
    }
    Ok(None)
}

/// Answers a ring image: serves the chains that it offers, and prints what came of them.
///
/// An image is a guest's memory with a split virtqueue in it (VIRTIO 1.2 section 2.7), as
/// [`open_image`] reads it. As many chains are served at most as the available index in the memory is
/// ahead of the image's start, modulo 2^16, whatever the chains write over it; where none is
/// available before that, the last was served. Each gives four lines, and a last line has the SHA-256
/// digest of the memory afterwards. A fault of the ring is the last line in place of the digest, and is
/// refused, as is an input that is no image, with `malformed image`.
#[derive(Clone, Copy, Debug, PartialEq, Eq)]
pub struct RingImage;

impl Answer for RingImage {
    ghost use Rattle.daxwire.specs.RingText.{image_due};

    ghost due = { image_due };

    ghost judges = { false };

    #[tactic(auto, unfolding(crate::specs::RingText::image_due))]
    fn put_due(alloc: Global, input: Blob, out: &mut Vec<u8>) -> Result<Status, Memory> {
        let Some(mut device) = open_image(alloc, input)? else {
            put(out, b"malformed image\n")?;
            return Ok(Status::Refused);
        };
        match serve_offered(alloc, &mut device, out)? {
            Some(fault) => {
                put_fault(fault, out)?;
                Ok(Status::Refused)
            }
            None => {
                put_digest(device.memory().as_slice(), out)?;
                Ok(Status::Ok)
            }
        }
    }
}
