//! That a run of `solve` has a worker at work for each agent, side by side, at the gate that the run is given.
use crate::run::run;
use crate::status::Status;
use agent_worker::{Gate, Moment};
use std::sync::atomic::AtomicBool;
use std::sync::atomic::Ordering::SeqCst;
use std::test::Fail;
use std::thread;
use stn_io::{MemSink, MemSource};

// The handover, with the script `done`.
const HANDOVER: &[u8] =
    b"mastn 1\nhorizon 100\nagent ann early\nagent bob early\npoint ann a1\npoint ann a2\npoint bob b1\npoint bob b2\narc z a1 20\nbound a1 a2 30 40\nbound a2 b1 0 5\nbound b1 b2 10 20\nend\ndone\n";

// How often a worker at the gate looks for the other one.
const LOOKS: u32 = 10_000_000;

// Holds each of two agents' workers where it has published, until the other one has.
#[derive(Drop)]
struct Meeting {
    there: [AtomicBool; 2],
    missed: AtomicBool,
}

impl Meeting {
    fn new() -> Meeting {
        Meeting {
            there: [AtomicBool::new(false), AtomicBool::new(false)],
            missed: AtomicBool::new(false),
        }
    }

    // Whether both came, and neither went on without the other.
    fn took_place(&self) -> bool {
        self.there[0].load(SeqCst) && self.there[1].load(SeqCst) && !self.missed.load(SeqCst)
    }

    fn wait_for(&self, other: &AtomicBool) {
        for _ in 0..LOOKS {
            if other.load(SeqCst) {
                return;
            }
            thread::yield_now();
        }
        self.missed.store(true, SeqCst);
    }
}

impl Gate for Meeting {
    fn reach(&self, agent: u32, moment: Moment) {
        if agent >= 2 || moment != Moment::Published {
            return;
        }
        self.there[agent as usize].store(true, SeqCst);
        self.wait_for(&self.there[1 - agent as usize]);
    }
}

#[test]
fn workers_of_a_solve_are_side_by_side(rt: HostRuntime) -> Result<(), Fail> {
    let alloc = rt.alloc();
    let mut words = Vec::new(alloc);
    words.push(Vec::from_slice(alloc, b"solve".as_slice())?)?;
    let input = Vec::from_slice(alloc, HANDOVER)?;
    let mut source = MemSource::new(input, 4096, Vec::new(alloc));
    let mut sink = MemSink::new(vec![in alloc; 0u8; 4096]?, 4096, Vec::new(alloc));
    let gate = Meeting::new();
    let status = run(&rt, alloc, words.as_slice(), &mut source, &mut sink, &gate);
    assert_eq!(rt; status, Status::Done);
    assert!(rt; gate.took_place());
    Ok(())
}
