use crate::run_tests::{answer_to, verdict_on};
use dax_audit::Verdict;
use guest_run::OpenGate;
use program_io::Status;
use std::alloc::Global;
use std::process::Abort;
use std::sync::Wait;
use std::test::Fail;
use std::thread::Threads;

// A truncation is refused for a hold, and done when the hold is given back.
const LAYOUTS: &str =
    "ranges 2\nfile a 10\nguest\nhold a 0 r\ntruncate a 0\nrelease 0\ntruncate a 0\nsize a\n";

const LAYOUTS_TOLD: &str =
    "transcript 1\nranges 2\nfile a 10 00\nentry 0 3 req\nentry 0 4 req\nlog place 0 in 0 r\nguest 0\n0 held 10 via 0 1\n1 leased 1\n2 released\n3 done 0 size 0\n4 done 1 size 0\nend\n";

// Two holds have both ranges, and are left at the end.
const BUSY: &str = "ranges 2\nfile a 6291456\nguest\nhold a 0 r\nhold a 1 r\nread a 4194304 1\n";

const BUSY_TOLD: &str =
    "transcript 1\nranges 2\nfile a 6291456 00\nlog place 0 in 0 r\nlog place 1 in 1 r\nguest 0\n0 held 2097152 via 0 1\n1 held 4194304 via 1 2\n2 busy pp\nend\n";

// A store up to exactly the end of its hold, one above it, and a load through a hold that was given back.
const PAST: &str =
    "ranges 2\nfile a 5\nguest\nhold a 0 w\nstore 0 3 6162\nstore 0 4 6162\nrelease 0\nload 0 0 1\n";

const PAST_TOLD: &str =
    "transcript 1\nranges 2\nfile a 5 00\nentry 0 1 via 0 1\nlog place 0 in 0 w\nguest 0\n0 held 5 via 0 1\n1 done 0 wrote 2\n2 past 5\n3 released\n4 nohold\nend\n";

// A script runs, its transcript is this one, and the audit finds no fault.
fn runs<R: Threads + Wait + Sync + Abort>(
    rt: &R,
    alloc: Global,
    script: &str,
    told: &str,
) -> Result<bool, Fail> {
    let (status, taken) = answer_to(rt, alloc, script.as_bytes(), &OpenGate)?;
    let verdict = verdict_on(alloc, script.as_bytes(), taken.as_slice())?;
    Ok(
        status == Status::Ok
            && taken.as_slice() == told.as_bytes()
            && verdict == Some(Verdict::Legal),
    )
}

#[test]
fn holds_keep_what_they_hold(rt: HostRuntime) -> Result<(), Fail> {
    for (script, told) in [
        (LAYOUTS, LAYOUTS_TOLD),
        (BUSY, BUSY_TOLD),
        (PAST, PAST_TOLD),
        // A hold on a chunk behind the file's end, and a release twice.
        (
            "ranges 2\nfile a 5\nguest\nhold a 1 r\nload 0 0 1\nrelease 0\nrelease 0\n",
            "transcript 1\nranges 2\nfile a 5 00\nlog place 1 in 0 r\nguest 0\n0 held 5 via 0 1\n1 past 5\n2 released\n3 nohold\nend\n",
        ),
        // The last chunk, and its last byte.
        (
            "ranges 2\nfile a 67108864\nguest\nhold a 31 w\nstore 0 2097151 ff\nload 0 2097150 2\n",
            "transcript 1\nranges 2\nfile a 67108864 00\nentry 0 1 via 0 1\nentry 0 2 via 0 1\nlog place 31 in 0 w\nguest 0\n0 held 67108864 via 0 1\n1 done 0 wrote 1\n2 done 1 bytes 00ff\nend\n",
        ),
        // An empty file: the hold's end stays where it was when the file grows.
        (
            "ranges 2\nfile a 0\nguest\nhold a 0 w\nload 0 0 1\nwrite a 0 61\nload 0 0 1\nread a 0 9\n",
            "transcript 1\nranges 2\nfile a 0 00\nentry 0 2 req 0\nentry 0 4 via 0 1\nlog place 0 in 0 w\nguest 0\n0 held 0 via 0 1\n1 past 0\n2 done 0 wrote 1\n3 past 0\n4 done 1 bytes 61\nend\n",
        ),
        // A truncation that grows the file is refused too.
        (
            "ranges 2\nfile a 4 61\nguest\nhold a 0 r\ntruncate a 9\nrelease 0\ntruncate a 9\nread a 0 16\n",
            "transcript 1\nranges 2\nfile a 4 61\nentry 0 3 req\nentry 0 4 via 0 1\nlog place 0 in 0 r\nguest 0\n0 held 4 via 0 1\n1 leased 1\n2 released\n3 done 0 size 9\n4 done 1 bytes 616161610000000000\nend\n",
        ),
        // A refused hold has its number, and a hold takes a range that another gave back.
        (
            "ranges 2\nfile a 6291456\nguest\nhold a 0 r\nhold a 1 r\nhold a 2 r\nload 2 0 1\nrelease 0\nhold a 2 w\nstore 3 0 7a\ntruncate a 0\n",
            "transcript 1\nranges 2\nfile a 6291456 00\nentry 0 6 via 3 4\nlog place 0 in 0 r\nlog place 1 in 1 r\nlog remove 0\nlog place 2 in 0 w\nguest 0\n0 held 2097152 via 0 1\n1 held 4194304 via 1 2\n2 busy pp\n3 nohold\n4 released\n5 held 6291456 via 3 4\n6 done 0 wrote 1\n7 leased 2\nend\n",
        ),
        // A read of two chunks beside a hold: its first chunk has the second range.
        (
            "ranges 2\nfile a 6291456\nguest\nhold a 0 r\nread a 4194303 2\nread a 4194304 1\n",
            "transcript 1\nranges 2\nfile a 6291456 00\nentry 0 2 via 3 4\nlog place 0 in 0 r\nlog place 1 in 1 r\nlog remove 1\nlog place 2 in 1 r\nguest 0\n0 held 2097152 via 0 1\n1 busy pp\n2 done 0 bytes 00\nend\n",
        ),
        // Without ranges a truncation is a request like any other call.
        (
            "ranges 0\nfile a 4 61\nguest\ntruncate a 2\ntruncate a 6\nread a 0 9\n",
            "transcript 1\nranges 0\nfile a 4 61\nentry 0 0 req\nentry 0 1 req\nentry 0 2 req\nguest 0\n0 done 0 size 2\n1 done 1 size 6\n2 done 2 bytes 616100000000\nend\n",
        ),
    ] {
        assert!(rt; runs(&rt, rt.alloc(), script, told)?, "{script}");
    }
    Ok(())
}

// As many holds as a guest may ask for, all of one range.
#[test]
fn has_as_many_holds_as_may_be(rt: HostRuntime) -> Result<(), Fail> {
    let alloc = rt.alloc();
    let mut script = String::from_str(alloc, "ranges 2\nfile a 5\nguest\n")?;
    script.push_str("hold a 0 r\n".repeat(alloc, 32)?.as_str())?;
    script.push_str("truncate a 0\n")?;
    let mut told = String::from_str(
        alloc,
        "transcript 1\nranges 2\nfile a 5 00\nlog place 0 in 0 r\nguest 0\n",
    )?;
    for hold in 0..32 {
        write!(told, "{hold} held 5 via 0 1\n")?;
    }
    told.push_str("32 leased 32\nend\n")?;
    assert!(rt; runs(&rt, alloc, script.as_str(), told.as_str())?);
    Ok(())
}
