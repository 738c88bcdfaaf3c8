use crate::run_tests::{UPGRADE, answer_to, verdict_on};
use dax_audit::Verdict;
use guest_run::{Gate, Point};
use program_io::Status;
use std::hint::spin_loop;
use std::sync::Wait;
use std::sync::atomic::AtomicU32;
use std::sync::atomic::Ordering::SeqCst;
use std::test::Fail;

// Two guests on one file, with one call each.
const TWO: &str = "ranges 2\nfile a 1\nguest\nwrite a 0 61\nguest\nread a 0 1\n";

// A gate for guests 0 and 1. It counts the points that each passes, and what goes wrong: a point that isn't due,
// and, where they are to meet, a guest that gave up waiting for the other one before a call.
#[derive(Drop)]
struct Meeting {
    meet: bool,
    first: AtomicU32,
    second: AtomicU32,
    faults: AtomicU32,
}

impl Gate for Meeting {
    fn at<R: Wait>(&self, _rt: &R, guest: u32, call: u32, point: Point) {
        let (own, other) = match guest {
            0 => (&self.first, &self.second),
            _ => (&self.second, &self.first),
        };
        let passed = own.fetch_add(1, SeqCst);
        let due = if passed % 2 == 0 {
            Point::Before
        } else {
            Point::After
        };
        // Before a call it waits for the other guest to pass a point, until patience ends.
        let mut met = !self.meet || point == Point::After;
        for _turn in 0..100_000_000 {
            if met {
                break;
            }
            spin_loop();
            met = other.load(SeqCst) != 0;
        }
        if !met || (call, point) != (passed / 2, due) {
            self.faults.fetch_add(1, SeqCst);
        }
    }
}

// Guests that ran one after another would wait in vain.
#[test]
fn two_guests_at_the_gate(rt: HostRuntime) -> Result<(), Fail> {
    let alloc = rt.alloc();
    let gate = Meeting {
        meet: true,
        first: AtomicU32::new(0),
        second: AtomicU32::new(0),
        faults: AtomicU32::new(0),
    };
    let (status, taken) = answer_to(&rt, alloc, TWO.as_bytes(), &gate)?;
    assert_eq!(rt; gate.faults.load(SeqCst), 0);
    assert_eq!(rt; (gate.first.load(SeqCst), gate.second.load(SeqCst)), (2, 2));
    assert_eq!(rt; status, Status::Ok);
    let verdict = verdict_on(alloc, TWO.as_bytes(), taken.as_slice())?;
    assert_eq!(rt; verdict, Some(Verdict::Legal));
    Ok(())
}

// Before and after each of two calls.
#[test]
fn a_gate_stands_round_each_call(rt: HostRuntime) -> Result<(), Fail> {
    let gate = Meeting {
        meet: false,
        first: AtomicU32::new(0),
        second: AtomicU32::new(0),
        faults: AtomicU32::new(0),
    };
    let (status, _taken) = answer_to(&rt, rt.alloc(), UPGRADE.as_bytes(), &gate)?;
    assert_eq!(rt; status, Status::Ok);
    assert_eq!(rt; gate.faults.load(SeqCst), 0);
    assert_eq!(rt; (gate.first.load(SeqCst), gate.second.load(SeqCst)), (4, 0));
    Ok(())
}
