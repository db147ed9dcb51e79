//! Desks over small networks, worked on one thread that has all passes: what each call answers in its turn, and the entries in the end.
ghost use Rattle.std.specs.Prelude.{◌≡◌, ◌<◌, true, IfOk, length};
ghost use Rattle.private_elim.specs.Locals.{all_numbered};

use crate::answers::{Claim, Did, Published};
use crate::desk::{Closed, Desk, DeskName, Pass};
use elim_step::{Picker, Summary};
use private_elim::{Local, PrivateOutcome, eliminate_private};
use sample_nets::handover;
use shared_graph::{By, Entry, Event, Illegal, Interface, Phase, Shared, SharedCycle};
use std::alloc::Global;
use std::marker::Brand;
use std::process::Abort;
use std::sync::Wait;
use std::sync::ledger::Blank;
use std::test::Fail;
use stn_model::{AgentId, Lean, Network, PointId};

const ANN: AgentId = AgentId(0);

const BOB: AgentId = AgentId(1);

const CID: AgentId = AgentId(2);

// The shared points of the handover: ann's a2, and bob's b1.
const ANNS: PointId = PointId(2);

const BOBS: PointId = PointId(3);

// What the agent of a pass asks of a desk.
#[derive(Clone, Copy)]
enum Call {
    // To publish the summary of this agent.
    Publish(AgentId),
    // To eliminate a shared point of its own.
    Claim,
    // To revisit a shared point.
    Revisit,
}

// What the desk answers.
#[derive(Clone, Copy, PartialEq, Eq, Debug)]
enum Answer {
    Published(Published),
    Claimed(Claim),
    Did(Did),
}

fn entered(place: u64) -> Answer {
    Answer::Published(Published::Entered { place })
}

fn eliminated(point: PointId, place: u64) -> Answer {
    Answer::Claimed(Claim::Eliminated { point, place })
}

// An entry of an agent.
fn entry(agent: AgentId, event: Event) -> Entry {
    let by = By::Agent(agent);
    Entry { by, event }
}

// An agent's local problem.
fn local_of(alloc: Global, net: &Network, agent: AgentId) -> Result<Local, Fail>
    ensures { IfOk result (λ l. all_numbered l.arcs ≡ true) }
{
    if agent.0 >= net.agents() {
        return Err(Fail::new("no such agent"));
    }
    let local = Local::of(alloc, net, agent)?;
    Ok(local)
}

// An agent's summary.
fn summary_of(alloc: Global, net: &Network, agent: AgentId) -> Result<Summary, Fail> {
    let local = local_of(alloc, net, agent)?;
    let key = Box::new(alloc, |degree: u32, _number: u32| u64::from(degree))?;
    match eliminate_private(alloc, &local, &Picker::new(key))? {
        PrivateOutcome::Reduced(reduced) => Ok(reduced.summary().copy(alloc)?),
        PrivateOutcome::Conflict { .. } => Err(Fail::new("an own conflict")),
    }
}

// The desk's answer to a call of a pass's agent.
fn answer_of<L: DeskName, R: Wait>(
    rt: &R,
    alloc: Global,
    desk: &Desk<L>,
    pass: &mut Pass<L>,
    net: &Network,
    call: Call,
) -> Result<Answer, Fail> {
    match call {
        Call::Publish(agent) => {
            let summary = summary_of(alloc, net, agent)?;
            Ok(Answer::Published(desk.publish(rt, alloc, pass, &summary)?))
        }
        Call::Claim => {
            let key = Box::new(alloc, |degree: u32, _number: u32| u64::from(degree))?;
            let picker = Picker::new(key);
            Ok(Answer::Claimed(desk.claim_one(rt, alloc, pass, &picker)?))
        }
        Call::Revisit => Ok(Answer::Did(desk.step_any(rt, pass, Phase::Reverse))),
    }
}

// Each agent's calls have these answers, each in its turn.
fn all_answered<L: DeskName, R: Wait + Abort>(
    rt: &R,
    alloc: Global,
    blank: Blank,
    shared: Shared,
    net: &Network,
    rows: &[(AgentId, Call, Answer)],
) -> Result<Closed, Fail>
    requires name { blank.name ≡ L.name }
    requires parts { blank.parts ≡ L.parts }
    requires one_each { (blank.parts ≡ L.agents) × (0 < blank.parts) }
    requires agents { length shared.face.leans ≡ L.agents }
    requires start { length shared.journal ≡ L.start }
{
    let (desk, mut passes) = Desk::<L>::start(alloc, blank, shared)?;
    for &(agent, call, wanted) in rows {
        let place = agent.0 as usize;
        if place >= passes.len() {
            return Err(Fail::new("no such agent"));
        }
        let found = answer_of(rt, alloc, &desk, &mut passes[place], net, call)?;
        assert_eq!(rt; found, wanted);
    }
    Ok(desk.close(passes))
}

// The same at a new desk for a network: what it leaves.
fn left_by<R: Wait + Abort>(
    rt: &R,
    alloc: Global,
    net: &Network,
    rows: &[(AgentId, Call, Answer)],
) -> Result<Closed, Fail> {
    let shared = Shared::start(alloc, Interface::of(alloc, net)?)?;
    let agents = shared.interface().agents();
    if agents == 0 {
        return Err(Fail::new("no agents"));
    }
    let blank = Blank::new(u64::from(agents));
    all_answered::<Brand, R>(rt, alloc, blank, shared, net, rows)
}

#[test]
fn the_handover_is_done(rt: HostRuntime) -> Result<(), Fail> {
    let rows = [
        (
            ANN,
            Call::Claim,
            Answer::Claimed(Claim::NotTaken(Illegal::NotPublished(ANN))),
        ),
        (ANN, Call::Publish(ANN), entered(0)),
        (
            ANN,
            Call::Publish(ANN),
            Answer::Published(Published::NotTaken(Illegal::AlreadyPublished)),
        ),
        (ANN, Call::Claim, eliminated(ANNS, 1)),
        (ANN, Call::Claim, Answer::Claimed(Claim::NoneLeft)),
        (BOB, Call::Revisit, Answer::Did(Did::Nothing)),
        (
            BOB,
            Call::Publish(ANN),
            Answer::Published(Published::NotFitting),
        ),
        (BOB, Call::Publish(BOB), entered(2)),
        (BOB, Call::Claim, eliminated(BOBS, 3)),
        (ANN, Call::Revisit, Answer::Did(Did::Made { place: 4 })),
        (ANN, Call::Revisit, Answer::Did(Did::Made { place: 5 })),
        (ANN, Call::Revisit, Answer::Did(Did::Nothing)),
    ];
    let net = handover(rt.alloc())?;
    let closed = left_by(&rt, rt.alloc(), &net, rows.as_slice())?;
    assert_eq!(rt; closed.made, 6);
    let expected = [
        entry(ANN, Event::Publish { agent: ANN }),
        entry(ANN, Event::Eliminate { point: ANNS }),
        entry(BOB, Event::Publish { agent: BOB }),
        entry(BOB, Event::Eliminate { point: BOBS }),
        entry(ANN, Event::Revisit { point: BOBS }),
        entry(ANN, Event::Revisit { point: ANNS }),
    ];
    assert_eq!(rt; closed.shared.journal(), expected.as_slice());
    Ok(())
}

// Adds an agent with one point.
fn add_agent(alloc: Global, net: &mut Network, agent: &[u8], point: &[u8]) -> Result<(), Fail> {
    let agent = net.add_agent(alloc, agent, Lean::Early)?;
    net.add_point(alloc, agent, point)?;
    Ok(())
}

// Three agents with one point each, x, y and w, from 1 on, and a cycle of arcs through them whose bounds sum to -1.
fn ring(alloc: Global) -> Result<Network, Fail> {
    let mut net = Network::new(alloc, 100)?;
    add_agent(alloc, &mut net, b"ann".as_slice(), b"x".as_slice())?;
    add_agent(alloc, &mut net, b"bob".as_slice(), b"y".as_slice())?;
    add_agent(alloc, &mut net, b"cid".as_slice(), b"w".as_slice())?;
    for (from, to, bound) in [(1, 2, -5), (2, 3, -5), (3, 1, 9)] {
        if from >= net.points() || to >= net.points() {
            return Err(Fail::new("no such point"));
        }
        net.add_arc(PointId(from), PointId(to), bound)?;
    }
    Ok(net)
}

#[test]
fn a_ring_is_stopped(rt: HostRuntime) -> Result<(), Fail> {
    let stopped = SharedCycle {
        point: PointId(2),
        other: PointId(3),
    };
    let rows = [
        (ANN, Call::Publish(ANN), entered(0)),
        (BOB, Call::Publish(BOB), entered(1)),
        (CID, Call::Publish(CID), entered(2)),
        (ANN, Call::Claim, eliminated(PointId(1), 3)),
        (BOB, Call::Claim, Answer::Claimed(Claim::Stopped(stopped))),
        (CID, Call::Claim, Answer::Claimed(Claim::Stopped(stopped))),
    ];
    let net = ring(rt.alloc())?;
    let closed = left_by(&rt, rt.alloc(), &net, rows.as_slice())?;
    assert_eq!(rt; closed.made, 5);
    Ok(())
}
