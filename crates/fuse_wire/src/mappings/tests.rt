use super::*;
use crate::tests::check_record;

#[test]
fn mapping(rt: HostRuntime) {
    check_record!(
        rt;
        SetupIn {
            fh: u64::MAX,
            foffset: 2097152,
            len: 4096,
            flags: FUSE_SETUPMAPPING_FLAG_READ | FUSE_SETUPMAPPING_FLAG_WRITE,
            moffset: 12288,
        },
        [
            255, 255, 255, 255, 255, 255, 255, 255, 0, 0, 32, 0, 0, 0, 0, 0, 0, 16, 0, 0, 0, 0, 0, 0,
            3, 0, 0, 0, 0, 0, 0, 0, 0, 48, 0, 0, 0, 0, 0, 0,
        ];
    );
    check_record!(
        rt;
        RemoveOne { moffset: 12288, len: 0x0102030405060708 },
        [0, 48, 0, 0, 0, 0, 0, 0, 8, 7, 6, 5, 4, 3, 2, 1];
    );
}
