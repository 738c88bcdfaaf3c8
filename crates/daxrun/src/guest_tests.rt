use crate::run_tests::{answer_to, verdict_on};
use dax_audit::Verdict;
use guest_run::OpenGate;
use program_io::Status;
use std::alloc::{AllocError, Global};
use std::process::Abort;
use std::sync::Wait;
use std::test::Fail;
use std::thread::Threads;

// Two guests on one file that is empty at first: one writes a byte and reads it, the other truncates.
const PAIR: &str = "ranges 2\nfile a 0\nguest\nwrite a 0 61\nread a 0 1\nguest\ntruncate a 0\n";

// Three guests want three chunks through two ranges, where one of them holds one and another truncates.
const CROWD: &str =
    "ranges 2\nfile a 6291456\nguest\nhold a 0 w\nstore 0 0 6162\nload 0 0 2\nrelease 0\nread a 2097152 1\nguest\nread a 4194304 1\ntruncate a 3\nsize a\nguest\nwrite a 0 63\nfill a 2097151 2 7f\nread a 0 4\n";

// So many guests, each with a write behind the others' and a read of all, on one file.
fn choir(text: &mut String, ranges: u32, guests: u32) -> Result<(), AllocError> {
    write!(text, "ranges {ranges}\nfile a 64\nfile b 0\n")?;
    for guest in 0..guests {
        write!(
            text,
            "guest\nwrite a {guest} 61\nread a 0 64\nwrite b {guest} 62\nread b 0 64\n"
        )?;
    }
    Ok(())
}

// So many guests, a background beside them, and rounds of calls that want more ranges than there are: each guest reads
// three chunks of a file of its own, holds one, writes through it, and has a truncation refused or done.
fn market(text: &mut String, ranges: u32, guests: u32, rounds: u32) -> Result<(), AllocError> {
    write!(text, "ranges {ranges}\nbackground 100\n")?;
    for guest in 0..guests {
        write!(text, "file f{guest} 6291456 6{}\n", guest % 10)?;
    }
    for guest in 0..guests {
        let next = (guest + 1) % guests;
        write!(
            text,
            "guest\nhold f{guest} 0 w\nstore 0 1 7a\ntruncate f{next} 6291456\nrelease 0\n"
        )?;
        for _round in 0..rounds {
            write!(
                text,
                "read f{guest} 0 2\nread f{guest} 2097152 1\nread f{guest} 4194304 1\nwrite f{next} 5 79\n"
            )?;
        }
    }
    Ok(())
}

// A script runs so often, and the audit finds no fault in any of its transcripts.
fn runs_well<R: Threads + Wait + Sync + Abort>(
    rt: &R,
    alloc: Global,
    script: &str,
    times: u32,
) -> Result<bool, Fail> {
    let mut well = true;
    for _time in 0..times {
        let (status, taken) = answer_to(rt, alloc, script.as_bytes(), &OpenGate)?;
        let verdict = verdict_on(alloc, script.as_bytes(), taken.as_slice())?;
        well = well && status == Status::Ok && verdict == Some(Verdict::Legal);
    }
    Ok(well)
}

#[test]
fn guests_run_side_by_side(rt: HostRuntime) -> Result<(), Fail> {
    let alloc = rt.alloc();
    assert!(rt; runs_well(&rt, alloc, PAIR, 1000)?);
    assert!(rt; runs_well(&rt, alloc, CROWD, 100)?);
    for (ranges, guests) in [(0, 16), (2, 16), (4, 3)] {
        let mut script = String::new(alloc);
        choir(&mut script, ranges, guests)?;
        assert!(rt; runs_well(&rt, alloc, script.as_str(), 20)?, "{script}");
    }
    for (ranges, guests, rounds) in [(2, 2, 333), (4, 4, 25), (2, 16, 4)] {
        let mut script = String::new(alloc);
        market(&mut script, ranges, guests, rounds)?;
        assert!(rt; runs_well(&rt, alloc, script.as_str(), 2)?, "{script}");
    }
    Ok(())
}
