use crate::pendings::{FillError, Pending};
use plain_file::{Blob, List};
use program_io::MemSource;
use std::test::Fail;

// Four bytes are read, then three; the third call fails, and the fourth finds the end.
#[test]
fn pending_bytes_come_and_go(rt: HostRuntime) -> Result<(), Fail> {
    let alloc = rt.alloc();
    let input = Blob::copy_of(alloc, b"abcdefg")?;
    let mut fails = List::new(alloc);
    fails.push(3)?;
    let mut source = MemSource::new(input, 4, fails);
    let mut pending = Pending::new(alloc);
    assert_eq!(rt; pending.fill(&mut source), Ok(4));
    assert_eq!(rt; pending.rest(), b"abcd".as_slice());
    assert!(rt; pending.rest().len() == 4);
    pending.advance(3);
    assert_eq!(rt; pending.at(), 3);
    assert_eq!(rt; pending.rest(), b"d".as_slice());
    assert_eq!(rt; pending.fill(&mut source), Ok(3));
    assert_eq!(rt; pending.rest(), b"defg".as_slice());
    assert_eq!(rt; pending.fill(&mut source), Err(FillError::Failed));
    assert_eq!(rt; pending.rest(), b"defg".as_slice());
    assert_eq!(rt; pending.fill(&mut source), Ok(0));
    assert_eq!(rt; pending.at(), 3);
    assert_eq!(rt; pending.rest(), b"defg".as_slice());
    Ok(())
}
