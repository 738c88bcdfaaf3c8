use super::*;
use crate::tests::check_record;

#[test]
fn opening(rt: HostRuntime) {
    check_record!(
        rt;
        OpenIn { flags: 32770, open_flags: 1 },
        [2, 128, 0, 0, 1, 0, 0, 0];
    );
    check_record!(
        rt;
        OpenOut { fh: 258, open_flags: 2 },
        [2, 1, 0, 0, 0, 0, 0, 0, 2, 0, 0, 0, 0, 0, 0, 0];
        12: 1, 15: 0xff
    );
    check_record!(
        rt;
        CreateIn { flags: O_EXCL | 0x40, mode: 33188, umask: 18, open_flags: 1 },
        [192, 0, 0, 0, 164, 129, 0, 0, 18, 0, 0, 0, 1, 0, 0, 0];
    );
}

#[test]
fn at_an_open_file(rt: HostRuntime) {
    check_record!(
        rt;
        ReleaseIn { fh: 258, flags: 32768, release_flags: 3, lock_owner: u64::MAX },
        [2, 1, 0, 0, 0, 0, 0, 0, 0, 128, 0, 0, 3, 0, 0, 0, 255, 255, 255, 255, 255, 255, 255, 255];
    );
    check_record!(
        rt;
        FlushIn { fh: 3, lock_owner: 513 },
        [3, 0, 0, 0, 0, 0, 0, 0, 0, 0, 0, 0, 0, 0, 0, 0, 1, 2, 0, 0, 0, 0, 0, 0];
        8: 1, 15: 0xff
    );
    check_record!(
        rt;
        FsyncIn { fh: 3, fsync_flags: 1 },
        [3, 0, 0, 0, 0, 0, 0, 0, 1, 0, 0, 0, 0, 0, 0, 0];
        12: 1, 15: 0xff
    );
    check_record!(
        rt;
        FallocateIn { fh: 3, offset: 4096, length: 65537, mode: 1 },
        [
            3, 0, 0, 0, 0, 0, 0, 0, 0, 16, 0, 0, 0, 0, 0, 0, 1, 0, 1, 0, 0, 0, 0, 0, 1, 0, 0, 0, 0, 0,
            0, 0,
        ];
        28: 1, 31: 0xff
    );
}
