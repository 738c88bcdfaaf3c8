use crate::ring_table::RING;
use crate::tables::{SURE, put_hex, ran, run_table};
use plain_file::List;
use program_io::Status;
use std::test::Fail;

#[test]
fn serves_images(rt: HostRuntime) -> Result<(), Fail> {
    let count = run_table(&rt, rt.alloc(), RING)?;
    assert_eq!(rt; count, 78);
    Ok(())
}

// INIT in a chain of all 1,024 descriptors: 56 of one byte to read, 888 of none, 80 of one byte to write.
// Behind the table stand the available ring, which has the chain at its first place, the used ring, and the
// request.
#[test]
fn serves_a_chain_of_all_descriptors(rt: HostRuntime) -> Result<(), Fail> {
    let alloc = rt.alloc();
    let mut image = Vec::new(alloc);
    put_hex(
        &mut image,
        "44415852494e4731 00040000 0004 0000 0000000000000000 0040000000000000 0850000000000000 00710000",
    )?;
    for index in 0..1024u16 {
        let (addr, len, flags) = if index < 56 {
            (u64::from(index).wrapping_add(28_704), 1u32, 1u16)
        } else if index < 944 {
            (28_928, 0, 1)
        } else if index < 1023 {
            (u64::from(index).wrapping_add(27_856), 1, 3)
        } else {
            (28_879, 1, 2)
        };
        image.extend_from_slice(&addr.to_le_bytes())?;
        image.extend_from_slice(&len.to_le_bytes())?;
        image.extend_from_slice(&flags.to_le_bytes())?;
        let next = if index < 1023 {
            index.wrapping_add(1)
        } else {
            0
        };
        image.extend_from_slice(&next.to_le_bytes())?;
    }
    put_hex(&mut image, "0000 0100")?;
    image.resize(28_748, 0)?;
    put_hex(
        &mut image,
        "38000000 1a000000 0100000000000000 0000000000000000 00000000000000000000000000000000 07000000 1f000000 00000200 00000004",
    )?;
    image.resize(28_972, 0)?;
    let (status, told) = ran(alloc, "ring", List::from_vec(image), SURE, SURE)?;
    let lines =
        "chain 0 readable 56 writable 80\ninit unique=1 node=0 major=7 minor=31 max_readahead=131072 flags=67108864\nok unique=1 major=7 minor=31 max_readahead=131072 flags=67108864 max_background=16 congestion_threshold=12 max_write=1048576 time_gran=1 max_pages=0 map_alignment=12 flags2=0\nused 80\nmemory 4c19b71013f67ef57a586ccf89262b65bf8d2051f0cbff51fc179333d6356d02\n";
    assert_eq!(rt; told.as_slice(), lines.as_bytes());
    assert_eq!(rt; status, Status::Ok);
    Ok(())
}
