use crate::frames::{Lead, Reason, begins};
use std::test::Fail;

#[test]
fn bytes_begin_with_a_frame(rt: HostRuntime) -> Result<(), Fail> {
    let alloc = rt.alloc();
    for (bytes, lead, len) in [
        ("", Lead::Nothing, 0),
        ("01", Lead::Cut, 0),
        ("04", Lead::Bad(Reason::Kind), 0),
        ("0101040000", Lead::Bad(Reason::Bound), 0),
        (
            "0102000100010000000200000050000000aabbccdd",
            Lead::Chain {
                parts: 3,
                readable: 3,
                room: 80,
            },
            20,
        ),
        (
            "02010203040506070801020000dd",
            Lead::Load {
                moffset: 578_437_695_752_307_201,
                len: 513,
            },
            13,
        ),
        (
            "03000100000000000002000000aabbdd",
            Lead::Store {
                moffset: 256,
                len: 2,
            },
            15,
        ),
    ] {
        let got = begins(&hex::decode(alloc, bytes)?);
        assert_eq!(rt; got, lead, "{bytes}");
        assert_eq!(rt; got.len(), len, "{bytes}");
    }
    Ok(())
}
