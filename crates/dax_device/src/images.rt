ghost use Rattle.std.specs.Prelude.{◌≡◌, ◌≤◌, ◌+◌, length, drop, true, IfOk};
ghost use Rattle.dax_device.specs.RingImage.{is_image, image_header_len, device_in};
ghost use Rattle.vring.specs.Bytes.{max_memory};

use crate::devices::Device;
use crate::queue_devices::QueueDevice;
use fuse_wire::{u16_at, u32_at, u64_at};
use plain_file::{Blob, Memory};
use std::alloc::Global;
use vring::{GuestMem, Ring};

// How many bytes stand before the memory.
const HEADER: usize = 44;

// The most pages that a window has.
const PAGES: u32 = 131_072;

// The most bytes that a memory has.
const MEMORY: u32 = 16_777_216;

// Whether bytes are an image, wherever the ring lies.
#[tactic(auto, unfolding(crate::specs::RingImage::is_image))]
fn is_image(bytes: &[u8]) -> bool
    ensures value { result ≡ is_image bytes.now }
    ensures len { result ≡ true → image_header_len ≤ length bytes.now }
    ensures memory { result ≡ true → length bytes.now ≤ image_header_len + max_memory }
{
    bytes.len() >= HEADER
        && bytes.split_at(8).0 == b"DAXRING1".as_slice()
        && u32_at(bytes, 8) <= PAGES
        && u32_at(bytes, 40) <= MEMORY
        && bytes.len() == HEADER + u32_at(bytes, 40) as usize
}

// Takes the first `n` bytes away, and keeps the room.
fn remove_front(bytes: &mut Vec<u8>, n: usize)
    requires { n ≤ length bytes.old.items }
    ensures { bytes.new.items ≡ drop n bytes.old.items }
{
    let left = bytes.len() - n;
    bytes.copy_within(n.., 0);
    bytes.truncate(left);
}

// The memory of an image, whose bytes aren't copied to a new place.
fn memory_of(input: Blob) -> GuestMem
    requires header { image_header_len ≤ length input }
    requires memory { length input ≤ image_header_len + max_memory }
    ensures { result ≡ drop image_header_len input }
{
    let mut bytes = input.into_vec();
    remove_front(&mut bytes, HEADER);
    GuestMem::new(Blob::from_vec(bytes))
}

/// The device that a ring image stands for: eight bytes `DAXRING1`, the window's pages (u32, at most
/// 131,072), the queue's size and the index from which both of its indices begin (u16 each), the
/// addresses of the descriptors, the available ring and the used ring (u64 each), the memory's
/// length (u32, at most 16,777,216), and the memory.
///
/// None comes exactly where the bytes aren't so, or where [`Ring::new`] gives no ring. `Memory` comes
/// where an allocation was refused.
#[tactic(auto, using(crate::proofs::RingImages::made_layout, crate::proofs::RingImages::made_is_layout), unfolding(crate::specs::RingImage::device_in))]
pub fn open_image(alloc: Global, input: Blob) -> Result<Option<QueueDevice>, Memory>
    ensures { IfOk result (λ o. o ≡ device_in input) }
{
    let bytes = input.as_slice();
    if !is_image(bytes) {
        return Ok(None);
    }
    let pages = u32_at(bytes, 8);
    let (size, start) = (u16_at(bytes, 12), u16_at(bytes, 14));
    let (descriptors, available, used) = (u64_at(bytes, 16), u64_at(bytes, 24), u64_at(bytes, 32));
    let memory = memory_of(input);
    match Ring::new(size, start, descriptors, available, used, &memory) {
        Some(ring) => {
            let device = Device::new(alloc, pages)?;
            Ok(Some(QueueDevice::new(device, memory, ring)))
        }
        None => Ok(None),
    }
}
