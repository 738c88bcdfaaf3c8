use super::*;
use crate::tests::check_record;

#[test]
fn init_in_of_both_lengths(rt: HostRuntime) {
    let mut out = [9; 64];
    let short = InitIn {
        major: 7,
        minor: 31,
        max_readahead: 131072,
        flags: FUSE_MAP_ALIGNMENT | 1,
        flags2: None,
    };
    let bytes = [7, 0, 0, 0, 31, 0, 0, 0, 0, 0, 2, 0, 1, 0, 0, 4];
    assert!(rt; short.put(&mut out) == 16 && &out[..16] == bytes.as_slice());
    assert!(rt; InitIn::read(&bytes) == Some(short));
    let long = InitIn {
        major: 7,
        minor: 38,
        max_readahead: 131072,
        flags: 0x44000000,
        flags2: Some(0x80000001),
    };
    let mut bytes = [
        7, 0, 0, 0, 38, 0, 0, 0, 0, 0, 2, 0, 0, 0, 0, 68, 1, 0, 0, 128, 0, 0, 0, 0, 0, 0, 0, 0, 0,
        0, 0, 0, 0, 0, 0, 0, 0, 0, 0, 0, 0, 0, 0, 0, 0, 0, 0, 0, 0, 0, 0, 0, 0, 0, 0, 0, 0, 0, 0,
        0, 0, 0, 0, 0,
    ];
    assert!(rt; long.put(&mut out) == 64 && out == bytes);
    bytes[20] = 1;
    bytes[63] = 0xff;
    assert!(rt; InitIn::read(&bytes) == Some(long));
    let zeros = [0; 65];
    for length in [0, 15, 17, 20, 63, 65] {
        assert!(rt; InitIn::read(&zeros[..length]).is_none());
    }
}

#[test]
fn init_out(rt: HostRuntime) {
    check_record!(
        rt;
        InitOut {
            major: 7,
            minor: 31,
            max_readahead: 131072,
            flags: FUSE_MAP_ALIGNMENT,
            max_background: 16,
            congestion_threshold: 12,
            max_write: 1048576,
            time_gran: 1,
            max_pages: 0,
            map_alignment: 12,
            flags2: 0,
        },
        [
            7, 0, 0, 0, 31, 0, 0, 0, 0, 0, 2, 0, 0, 0, 0, 4, 16, 0, 12, 0, 0, 0, 16, 0, 1, 0, 0, 0, 0,
            0, 12, 0, 0, 0, 0, 0, 0, 0, 0, 0, 0, 0, 0, 0, 0, 0, 0, 0, 0, 0, 0, 0, 0, 0, 0, 0, 0, 0, 0,
            0, 0, 0, 0, 0,
        ];
        36: 1, 63: 0xff
    );
}
