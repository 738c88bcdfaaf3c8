use super::*;

// Asserts that a record has these bytes both ways, also with other padding, and that no byte more, no byte less
// and no bytes at all are one.
macro_rules! check_record {
    ($rt:ident; $record:ident { $($value:tt)* }, $clean:expr; $($at:literal: $padding:literal),*) => {{
        let (value, clean) = ($record { $($value)* }, $clean);
        let mut padded = clean;
        $(padded[$at] = $padding;)*
        let zeros = [0; $record::SIZE + 1];
        assert!(
            $rt;
            value.put() == clean
                && $record::read(&clean) == Some(value)
                && $record::read(&padded) == Some(value)
                && $record::read(&zeros).is_none()
                && $record::read(&zeros[..$record::SIZE - 1]).is_none()
                && $record::read(&[]).is_none()
        );
    }};
}

pub(crate) use check_record;

#[test]
fn in_header(rt: HostRuntime) {
    check_record!(
        rt;
        InHeader {
            len: 80,
            opcode: 15,
            unique: 0x0807060504030201,
            nodeid: 2,
            uid: 1000,
            gid: 100,
            pid: 4242,
            total_extlen: 258,
        },
        [
            80, 0, 0, 0, 15, 0, 0, 0, 1, 2, 3, 4, 5, 6, 7, 8, 2, 0, 0, 0, 0, 0, 0, 0, 0xe8, 3, 0, 0,
            100, 0, 0, 0, 0x92, 0x10, 0, 0, 2, 1, 0, 0,
        ];
        38: 0xff, 39: 1
    );
}

#[test]
fn out_header(rt: HostRuntime) {
    let cases = [
        (0, [16, 0, 0, 0, 0, 0, 0, 0, 7, 0, 0, 0, 0, 0, 0, 0]),
        (
            -22,
            [16, 0, 0, 0, 0xea, 0xff, 0xff, 0xff, 7, 0, 0, 0, 0, 0, 0, 0],
        ),
        (
            i32::MIN,
            [16, 0, 0, 0, 0, 0, 0, 0x80, 7, 0, 0, 0, 0, 0, 0, 0],
        ),
        (
            i32::MAX,
            [16, 0, 0, 0, 0xff, 0xff, 0xff, 0x7f, 7, 0, 0, 0, 0, 0, 0, 0],
        ),
    ];
    for (error, bytes) in cases {
        check_record!(
            rt;
            OutHeader { len: 16, error, unique: 7 },
            bytes;
        );
    }
}

#[test]
fn read_in(rt: HostRuntime) {
    check_record!(
        rt;
        ReadIn { fh: 7, offset: 2097152, size: 9, read_flags: 2, lock_owner: 513, flags: 32768 },
        [
            7, 0, 0, 0, 0, 0, 0, 0, 0, 0, 0x20, 0, 0, 0, 0, 0, 9, 0, 0, 0, 2, 0, 0, 0, 1, 2, 0, 0, 0,
            0, 0, 0, 0, 0x80, 0, 0, 0, 0, 0, 0,
        ];
        36: 1, 39: 0xff
    );
}

#[test]
fn write_in(rt: HostRuntime) {
    check_record!(
        rt;
        WriteIn {
            fh: 3,
            offset: 0x0102030405060708,
            size: 4096,
            write_flags: 1,
            lock_owner: u64::MAX - 1,
            flags: 32769,
        },
        [
            3, 0, 0, 0, 0, 0, 0, 0, 8, 7, 6, 5, 4, 3, 2, 1, 0, 16, 0, 0, 1, 0, 0, 0, 0xfe, 0xff, 0xff,
            0xff, 0xff, 0xff, 0xff, 0xff, 1, 0x80, 0, 0, 0, 0, 0, 0,
        ];
        36: 1, 39: 0xff
    );
}

#[test]
fn write_out(rt: HostRuntime) {
    check_record!(
        rt;
        WriteOut { size: 4096 },
        [0, 16, 0, 0, 0, 0, 0, 0];
        4: 1, 7: 0xff
    );
}

#[test]
fn numbers_of_errors(rt: HostRuntime) {
    let errors = [
        (Errno::ENOENT, 2),
        (Errno::EIO, 5),
        (Errno::EBADF, 9),
        (Errno::EBUSY, 16),
        (Errno::EEXIST, 17),
        (Errno::ENOTDIR, 20),
        (Errno::EISDIR, 21),
        (Errno::EINVAL, 22),
        (Errno::EMFILE, 24),
        (Errno::EFBIG, 27),
        (Errno::ENOSPC, 28),
        (Errno::ENOSYS, 38),
        (Errno::EPROTO, 71),
        (Errno::EOPNOTSUPP, 95),
    ];
    for (errno, number) in errors {
        assert!(rt; errno.number() == number && Errno::of(number) == Some(errno));
    }
    for number in [0, 1, -2, 3, 94, 96, 4096, i32::MIN, i32::MAX] {
        assert!(rt; Errno::of(number).is_none());
    }
}
