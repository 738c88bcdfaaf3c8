use super::*;
use crate::tests::check_record;

const ATTRIBUTES: AttrRec = AttrRec {
    ino: 5,
    size: 0x100001,
    blocks: 2049,
    atime: 1,
    mtime: 2,
    ctime: 3,
    atimensec: 4,
    mtimensec: 5,
    ctimensec: 6,
    mode: 33188,
    nlink: 1,
    uid: 1000,
    gid: 100,
    rdev: 0,
    blksize: 4096,
    flags: 2,
};

#[test]
fn entry_out(rt: HostRuntime) {
    check_record!(
        rt;
        EntryOut {
            nodeid: 5,
            generation: 1,
            entry_valid: 258,
            attr_valid: 3,
            entry_valid_nsec: 4,
            attr_valid_nsec: 5,
            attr: ATTRIBUTES,
        },
        [
            5, 0, 0, 0, 0, 0, 0, 0, 1, 0, 0, 0, 0, 0, 0, 0, 2, 1, 0, 0, 0, 0, 0, 0, 3, 0, 0, 0, 0, 0,
            0, 0, 4, 0, 0, 0, 5, 0, 0, 0, 5, 0, 0, 0, 0, 0, 0, 0, 1, 0, 16, 0, 0, 0, 0, 0, 1, 8, 0, 0,
            0, 0, 0, 0, 1, 0, 0, 0, 0, 0, 0, 0, 2, 0, 0, 0, 0, 0, 0, 0, 3, 0, 0, 0, 0, 0, 0, 0, 4, 0,
            0, 0, 5, 0, 0, 0, 6, 0, 0, 0, 164, 129, 0, 0, 1, 0, 0, 0, 232, 3, 0, 0, 100, 0, 0, 0, 0, 0,
            0, 0, 0, 16, 0, 0, 2, 0, 0, 0,
        ];
    );
    check_record!(
        rt;
        AttrRec { ..ATTRIBUTES },
        [
            5, 0, 0, 0, 0, 0, 0, 0, 1, 0, 16, 0, 0, 0, 0, 0, 1, 8, 0, 0,
            0, 0, 0, 0, 1, 0, 0, 0, 0, 0, 0, 0, 2, 0, 0, 0, 0, 0, 0, 0, 3, 0, 0, 0, 0, 0, 0, 0, 4, 0,
            0, 0, 5, 0, 0, 0, 6, 0, 0, 0, 164, 129, 0, 0, 1, 0, 0, 0, 232, 3, 0, 0, 100, 0, 0, 0, 0, 0,
            0, 0, 0, 16, 0, 0, 2, 0, 0, 0,
        ];
    );
}

#[test]
fn attr_out(rt: HostRuntime) {
    check_record!(
        rt;
        AttrOut { attr_valid: 1, attr_valid_nsec: 2, attr: ATTRIBUTES },
        [
            1, 0, 0, 0, 0, 0, 0, 0, 2, 0, 0, 0, 0, 0, 0, 0, 5, 0, 0, 0, 0, 0, 0, 0, 1, 0, 16, 0, 0, 0,
            0, 0, 1, 8, 0, 0, 0, 0, 0, 0, 1, 0, 0, 0, 0, 0, 0, 0, 2, 0, 0, 0, 0, 0, 0, 0, 3, 0, 0, 0,
            0, 0, 0, 0, 4, 0, 0, 0, 5, 0, 0, 0, 6, 0, 0, 0, 164, 129, 0, 0, 1, 0, 0, 0, 232, 3, 0, 0,
            100, 0, 0, 0, 0, 0, 0, 0, 0, 16, 0, 0, 2, 0, 0, 0,
        ];
        12: 1, 15: 0xff
    );
}

#[test]
fn requests_about_attributes(rt: HostRuntime) {
    check_record!(
        rt;
        GetattrIn { getattr_flags: FUSE_GETATTR_FH, fh: 258 },
        [1, 0, 0, 0, 0, 0, 0, 0, 2, 1, 0, 0, 0, 0, 0, 0];
    );
    check_record!(
        rt;
        SetattrIn {
            valid: FATTR_SIZE | FATTR_FH,
            fh: 7,
            size: 2097153,
            lock_owner: 513,
            atime: 1,
            mtime: 2,
            ctime: 3,
            atimensec: 4,
            mtimensec: 5,
            ctimensec: 6,
            mode: 33188,
            uid: 1000,
            gid: 100,
        },
        [
            72, 0, 0, 0, 0, 0, 0, 0, 7, 0, 0, 0, 0, 0, 0, 0, 1, 0, 32, 0, 0, 0, 0, 0, 1, 2, 0, 0, 0, 0,
            0, 0, 1, 0, 0, 0, 0, 0, 0, 0, 2, 0, 0, 0, 0, 0, 0, 0, 3, 0, 0, 0, 0, 0, 0, 0, 4, 0, 0, 0,
            5, 0, 0, 0, 6, 0, 0, 0, 164, 129, 0, 0, 0, 0, 0, 0, 232, 3, 0, 0, 100, 0, 0, 0, 0, 0, 0, 0,
        ];
        4: 1, 75: 2, 87: 0xff
    );
}
