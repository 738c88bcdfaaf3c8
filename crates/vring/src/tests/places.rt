use super::*;

#[test]
fn reads_and_writes_a_memory(rt: HostRuntime) -> Result<(), Fail> {
    let mut mem = zeros(rt.alloc(), 8)?;
    assert!(rt; mem.len() == 8 && !mem.is_empty());
    let rows: [(u64, &[u8], Option<(u64, u32)>); 9] = [
        (0, b"abcdefgh", None),
        (0, b"abcdefghi", Some((0, 9))),
        (7, b"z", None),
        (7, b"zz", Some((7, 2))),
        (8, b"", None),
        (9, b"", Some((9, 0))),
        (8, b"z", Some((8, 1))),
        (u64::MAX, b"z", Some((u64::MAX, 1))),
        (u64::MAX, b"", Some((u64::MAX, 0))),
    ];
    for (addr, bytes, outside) in rows {
        let wanted = match outside {
            Some((addr, len)) => Err(Outside { addr, len }),
            None => Ok(()),
        };
        let mut out = [b'-'; 16];
        let out = &mut out[..bytes.len().min(16)];
        assert!(rt; mem.write(addr, bytes) == wanted && mem.read(addr, out) == wanted);
        let kept = if outside.is_none() {
            bytes
        } else {
            &[b'-'; 16][..out.len()]
        };
        assert!(rt; *out == *kept, "at {addr}");
    }
    assert!(rt; mem.as_slice() == b"abcdefgz".as_slice());
    Ok(())
}

#[test]
fn takes_the_powers_of_two_for_sizes(rt: HostRuntime) -> Result<(), Fail> {
    let alloc = rt.alloc();
    // Long enough for every size.
    let mem = zeros(alloc, 2_400_000)?;
    let refused = [
        0, 3, 5, 6, 7, 12, 1023, 1025, 1536, 2048, 4096, 32768, 65535,
    ];
    for size in refused {
        assert!(rt;
            Ring::new(size, 0, 0, 1_100_000, 1_300_000, &mem).is_none(),
            "size {size}"
        );
    }
    // The areas one after another, in a memory that is just long enough, and in one byte less.
    let taken = [
        (1, 16, 24, 38),
        (2, 32, 44, 66),
        (4, 64, 80, 118),
        (8, 128, 152, 222),
        (16, 256, 296, 430),
        (32, 512, 584, 846),
        (64, 1024, 1160, 1678),
        (128, 2048, 2312, 3342),
        (256, 4096, 4616, 6670),
        (512, 8192, 9224, 13326),
        (1024, 16384, 18440, 26638),
    ];
    for (size, avail, used, len) in taken {
        assert!(rt; 0 < len && len <= 26_638);
        let (mem, short) = (zeros(alloc, len)?, zeros(alloc, len - 1)?);
        let ring = Ring::new(size, 65_535, 0, avail, used, &mem);
        assert!(rt;
            Ring::new(size, 65_535, 0, avail, used, &short).is_none(),
            "size {size}"
        );
        match ring {
            Some(ring) => {
                assert_eq!(rt; (ring.seen(), ring.used_index()), (65_535, 65_535));
                assert_eq!(rt; (ring.fits(&mem), ring.fits(&short)), (true, false));
            }
            None => panic!(rt; "size {size}"),
        }
    }
    Ok(())
}

// At size 4 the table has 64 bytes, the available ring 14 and the used ring 38.
#[test]
fn judges_the_places_of_areas(rt: HostRuntime) -> Result<(), Fail> {
    let mem = zeros(rt.alloc(), 128)?;
    let rows = [
        // desc, avail, used
        (64, 0, 16, true),
        (0, 64, 80, true),
        (0, 64, 88, true),
        (0, 104, 64, true),
        (0, 114, 64, true),
        // one after another without a gap, then with two bytes in common
        (64, 2, 16, true),
        (64, 4, 16, false),
        (48, 0, 16, false),
        (64, 50, 0, true),
        (64, 52, 0, false),
        (0, 62, 80, false),
        (0, 66, 80, true),
        (0, 68, 80, false),
        (0, 102, 64, true),
        (0, 100, 64, false),
        // the same place
        (64, 64, 16, false),
        (64, 0, 64, false),
        (64, 0, 0, false),
        // one area within another
        (64, 20, 16, false),
        (64, 100, 16, false),
        // not aligned
        (56, 0, 16, false),
        (64, 1, 16, false),
        (64, 0, 18, false),
        (64, 0, 17, false),
        (64, 0, 20, true),
        // outside
        (80, 0, 16, false),
        (0, 116, 64, false),
        (0, 64, 92, false),
        (128, 0, 16, false),
        (0, 128, 64, false),
        (0, 64, 128, false),
        (u64::MAX - 15, 0, 16, false),
        (0, u64::MAX - 1, 64, false),
        (0, 64, u64::MAX - 3, false),
        (1 << 32, 0, 16, false),
    ];
    for (desc, avail, used, taken) in rows {
        let ring = Ring::new(4, 0, desc, avail, used, &mem);
        assert_eq!(rt; ring.is_some(), taken, "{desc} {avail} {used}");
    }
    // Each area's last byte is the memory's, then one behind it.
    let rows = [
        (128, 64, 0, 16, true),
        (127, 64, 0, 16, false),
        (128, 0, 114, 64, true),
        (127, 0, 114, 64, false),
        (126, 0, 64, 88, true),
        (125, 0, 64, 88, false),
    ];
    for (len, desc, avail, used, taken) in rows {
        let mem = zeros(rt.alloc(), len)?;
        let ring = Ring::new(4, 0, desc, avail, used, &mem);
        assert_eq!(rt; ring.is_some(), taken, "{desc} {avail} {used} in {len}");
    }
    Ok(())
}
