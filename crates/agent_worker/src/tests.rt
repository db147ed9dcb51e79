//! Phases over small networks: what they come to, and that all agents' workers are at work side by side.
ghost use Rattle.std.specs.Prelude.{IfOk};
ghost use Rattle.shared_graph.specs.Interfaces.{interface_of};
ghost use Rattle.shared_graph.specs.Journals.{IsDone};
ghost use Rattle.shared_graph.specs.declared.events.Phase.TheVariants.{Order};
ghost use Rattle.agent_worker.specs.Forwards.{ArePartsOf, IfWhole};

use crate::forward::{Forward, forward_phase};
use crate::gate::{Gate, Moment, OpenGate};
use crate::reverse::reverse_phase;
use elim_step::Picker;
use private_elim::Local;
use sample_nets::{handover, sample};
use shared_graph::{By, Entry, Interface, Shared};
use std::alloc::Global;
use std::process::Abort;
use std::sync::Wait;
use std::sync::atomic::AtomicBool;
use std::sync::atomic::Ordering::SeqCst;
use std::test::Fail;
use std::thread;
use std::thread::Threads;
use stn_model::{AgentId, Network, OutOfMemory, PointId};

// How often a worker at the gate looks for the other one.
const LOOKS: u32 = 10_000_000;

// Holds each of two agents' workers where it has published, until the other one has.
#[derive(Drop)]
struct Meeting {
    there: [AtomicBool; 2],
    missed: AtomicBool,
}

impl Meeting {
    fn new() -> Meeting {
        Meeting {
            there: [AtomicBool::new(false), AtomicBool::new(false)],
            missed: AtomicBool::new(false),
        }
    }

    // Whether both came, and neither went on without the other.
    fn took_place(&self) -> bool {
        self.there[0].load(SeqCst) && self.there[1].load(SeqCst) && !self.missed.load(SeqCst)
    }

    fn wait_for(&self, other: &AtomicBool) {
        for _ in 0..LOOKS {
            if other.load(SeqCst) {
                return;
            }
            thread::yield_now();
        }
        self.missed.store(true, SeqCst);
    }
}

impl Gate for Meeting {
    fn reach(&self, agent: u32, moment: Moment) {
        if agent >= 2 || moment != Moment::Published {
            return;
        }
        self.there[agent as usize].store(true, SeqCst);
        self.wait_for(&self.there[1 - agent as usize]);
    }
}

// The local problems of all agents.
fn locals_of(alloc: Global, net: &Network) -> Result<Vec<Local>, OutOfMemory>
    ensures { IfOk result (λ v. ArePartsOf net.now (interface_of net.now) v.items) }
{
    let mut locals = Vec::new(alloc);
    for agent in 0..net.agents() {
        locals.push(Local::of(alloc, net, AgentId(agent))?)?;
    }
    Ok(locals)
}

// What the first phase comes to.
fn ordered<R: Threads + Wait + Sync, G: Gate + Sync>(
    rt: &R,
    alloc: Global,
    net: &Network,
    gate: &G,
) -> Result<Forward, Fail>
    ensures { IfOk result (IfWhole (λ reduced shared. IsDone shared.face shared.state Order)) }
{
    let locals = locals_of(alloc, net)?;
    let interface = Interface::of(alloc, net)?;
    let key = Box::new(alloc, |degree: u32, _number: u32| u64::from(degree))?;
    let picker = Picker::new(key);
    let forward = forward_phase(rt, alloc, locals.as_slice(), interface, &picker, gate)?;
    Ok(forward)
}

// The graph that both phases leave; None where some schedule does not satisfy the network.
fn swept<R: Threads + Wait + Sync, G: Gate + Sync>(
    rt: &R,
    alloc: Global,
    net: &Network,
    gate: &G,
) -> Result<Option<Shared>, Fail> {
    match ordered(rt, alloc, net, gate)? {
        Forward::Whole { reduced: _, shared } => {
            Ok(Some(reverse_phase(rt, alloc, shared, gate)?))
        }
        Forward::PrivateConflict { .. } | Forward::Stopped { .. } => Ok(None),
    }
}

// Whether the caller of the phase made the entry.
fn is_joiners(entry: &Entry) -> bool {
    entry.by == By::Joiner
}

#[test]
fn both_workers_publish_side_by_side(rt: HostRuntime) -> Result<(), Fail> {
    let alloc = rt.alloc();
    let net = handover(alloc)?;
    let gate = Meeting::new();
    let Some(shared) = swept(&rt, alloc, &net, &gate)? else {
        return Err(Fail::new("no schedule"));
    };
    assert!(rt; gate.took_place());
    assert_eq!(rt; shared.journal().len(), 6);
    assert!(rt; !shared.journal().iter().any(is_joiners));
    assert_eq!(rt; shared.final_bound(PointId(0), PointId(3)), Some(65));
    assert_eq!(rt; shared.final_bound(PointId(3), PointId(0)), Some(-30));
    Ok(())
}

// What the first phase came to.
#[derive(Clone, Copy, PartialEq, Eq, Debug)]
enum Came {
    Whole,
    Conflict(AgentId),
    Stopped,
}

fn answer_of(forward: &Forward) -> Came {
    match forward {
        Forward::Whole { .. } => Came::Whole,
        Forward::PrivateConflict { agent, .. } => Came::Conflict(*agent),
        Forward::Stopped { .. } => Came::Stopped,
    }
}

#[test]
fn each_answer_comes(rt: HostRuntime) -> Result<(), Fail> {
    let alloc = rt.alloc();
    // Points 1 and 2 are ann's, 3 and 4 bob's.
    let owners = [0, 0, 1, 1];
    let rows = [
        ([(1, 2, 5), (2, 3, 5)].as_slice(), Came::Whole),
        (
            [(3, 4, 3), (4, 3, -5)].as_slice(),
            Came::Conflict(AgentId(1)),
        ),
        (
            [(3, 4, 3), (4, 3, -5), (1, 2, 3), (2, 1, -5)].as_slice(),
            Came::Conflict(AgentId(0)),
        ),
        ([(1, 3, -6), (3, 1, 5)].as_slice(), Came::Stopped),
    ];
    for (arcs, wanted) in rows {
        let net = sample(alloc, 10, owners.as_slice(), arcs)?;
        let forward = ordered(&rt, alloc, &net, &OpenGate)?;
        assert_eq!(rt; answer_of(&forward), wanted);
    }
    let none = Network::new(alloc, 0)?;
    let forward = ordered(&rt, alloc, &none, &OpenGate)?;
    assert_eq!(rt; answer_of(&forward), Came::Whole);
    Ok(())
}
