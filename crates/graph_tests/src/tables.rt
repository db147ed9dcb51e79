//! Entries worked by hand.
ghost use Rattle.std.specs.Prelude.{◌≡◌};

use crate::build::summaries_of;
use crate::steps::{Tried, try_step};
use dist_rows::Via;
use elim_step::{Steps, Summary};
use sample_nets::handover;
use shared_graph::{By, Entry, Event, Illegal, Interface, Shared, SharedCycle};
use std::alloc::Global;
use std::marker::Brand;
use std::process::Abort;
use std::sync::ledger::{Blank, Ledger};
use std::test::Fail;
use stn_model::{AgentId, Lean, Network, PointId};

pub const ANN: AgentId = AgentId(0);

pub const BOB: AgentId = AgentId(1);

// An agent publishes.
pub fn publish(agent: AgentId) -> Entry {
    Entry {
        by: By::Agent(agent),
        event: Event::Publish { agent },
    }
}

// An agent eliminates a point.
pub fn eliminate(agent: AgentId, point: u32) -> Entry {
    Entry {
        by: By::Agent(agent),
        event: Event::Eliminate {
            point: PointId(point),
        },
    }
}

// The joiner revisits a point.
fn revisit(point: u32) -> Entry {
    Entry {
        by: By::Joiner,
        event: Event::Revisit {
            point: PointId(point),
        },
    }
}

// The summaries of a network without an own conflict.
pub fn told(alloc: Global, net: &Network) -> Result<Vec<Summary>, Fail> {
    match summaries_of(alloc, net)? {
        Some(summaries) => Ok(summaries),
        None => Err(Fail::new("an own conflict")),
    }
}

// Tries these entries from the start on, each of which is made but for the last one, which is answered so.
fn tries<L: Ledger>(
    rt: &impl Abort,
    alloc: Global,
    blank: Blank,
    net: &Network,
    entries: &[Entry],
    last: Tried,
) -> Result<Shared, Fail>
    requires name { blank.name ≡ L.name }
    requires parts { (blank.parts ≡ L.parts) × (blank.parts ≡ 1) }
{
    let summaries = told(alloc, net)?;
    let mut steps = Steps::<L>::new(blank);
    let mut shared = Shared::start(alloc, Interface::of(alloc, net)?)?;
    for n in 0..entries.len() {
        let tried = try_step(
            alloc,
            &mut shared,
            summaries.as_slice(),
            entries[n],
            &mut steps,
        )?;
        if n + 1 == entries.len() {
            assert_eq!(rt; tried, last);
        } else {
            assert_eq!(rt; tried, Tried::Made, "entry {n}");
        }
    }
    Ok(shared)
}

// The same on the handover.
pub fn hands_over(
    rt: &impl Abort,
    alloc: Global,
    entries: &[Entry],
    last: Tried,
) -> Result<Shared, Fail> {
    let net = handover(alloc)?;
    tries::<Brand>(rt, alloc, Blank::new(1), &net, entries, last)
}

// The forward weight from one point to another.
fn weighs(rt: &impl Abort, shared: &Shared, from: u32, to: u32, weight: i128) {
    match shared.forward(PointId(from), PointId(to)) {
        Some(cell) => assert_eq!(rt; cell.weight, weight, "from {from} to {to}"),
        None => assert!(rt; false, "no weight from {from} to {to}"),
    }
}

// The last of these entries is refused on the handover for this cause.
fn refuses(rt: &impl Abort, alloc: Global, entries: &[Entry], cause: Illegal) -> Result<(), Fail> {
    hands_over(rt, alloc, entries, Tried::Refused(Some(cause)))?;
    Ok(())
}

#[test]
fn entries_are_refused(rt: HostRuntime) -> Result<(), Fail> {
    let alloc = rt.alloc();
    let entries = [eliminate(ANN, 2)];
    refuses(&rt, alloc, entries.as_slice(), Illegal::NotPublished(ANN))?;
    let entries = [publish(ANN), publish(ANN)];
    refuses(&rt, alloc, entries.as_slice(), Illegal::AlreadyPublished)?;
    let entries = [publish(BOB), eliminate(ANN, 3)];
    refuses(&rt, alloc, entries.as_slice(), Illegal::NotOwner)?;
    let entries = [publish(ANN), eliminate(ANN, 1)];
    refuses(&rt, alloc, entries.as_slice(), Illegal::NotShared)?;
    let entries = [publish(ANN), publish(BOB), revisit(3)];
    refuses(
        &rt,
        alloc,
        entries.as_slice(),
        Illegal::OrderOpen(PointId(2)),
    )?;
    let entries = [
        publish(ANN),
        publish(BOB),
        eliminate(ANN, 2),
        eliminate(BOB, 3),
        revisit(2),
    ];
    refuses(
        &rt,
        alloc,
        entries.as_slice(),
        Illegal::NeighbourFirst(PointId(3)),
    )
}

#[test]
fn weights_go_through_eliminated_points(rt: HostRuntime) -> Result<(), Fail> {
    let entries = [publish(ANN), publish(BOB), eliminate(ANN, 2)];
    let shared = hands_over(&rt, rt.alloc(), entries.as_slice(), Tried::Made)?;
    weighs(&rt, &shared, 0, 3, 65);
    weighs(&rt, &shared, 3, 0, -30);
    let entries = [publish(BOB), eliminate(BOB, 3)];
    let shared = hands_over(&rt, rt.alloc(), entries.as_slice(), Tried::Made)?;
    weighs(&rt, &shared, 0, 3, 90);
    assert_eq!(&rt; shared.journal(), entries.as_slice());
    Ok(())
}

// Three agents with one point each, in a ring whose bounds sum to -1.
pub fn ring(alloc: Global) -> Result<Network, Fail> {
    let mut net = Network::new(alloc, 100)?;
    for name in [b"x".as_slice(), b"y".as_slice(), b"w".as_slice()] {
        net.add_agent(alloc, name, Lean::Early)?;
        let agent = AgentId(net.agents() - 1);
        net.add_point(alloc, agent, name)?;
    }
    if net.points() != 4 {
        return Err(Fail::new("no such points"));
    }
    net.add_arc(PointId(1), PointId(2), -5)?;
    net.add_arc(PointId(2), PointId(3), -5)?;
    net.add_arc(PointId(3), PointId(1), 9)?;
    Ok(net)
}

#[test]
fn a_ring_stops_at_the_second_point(rt: HostRuntime) -> Result<(), Fail> {
    let net = ring(rt.alloc())?;
    let orders = [
        (1, 2, 3),
        (1, 3, 2),
        (2, 1, 3),
        (2, 3, 1),
        (3, 1, 2),
        (3, 2, 1),
    ];
    for (first, second, other) in orders {
        let entries = [
            publish(AgentId(0)),
            publish(AgentId(1)),
            publish(AgentId(2)),
            eliminate(AgentId(first - 1), first),
            eliminate(AgentId(second - 1), second),
        ];
        let shared = tries::<Brand>(
            &rt,
            rt.alloc(),
            Blank::new(1),
            &net,
            entries.as_slice(),
            Tried::Made,
        )?;
        let cycle = SharedCycle {
            point: PointId(second),
            other: PointId(other),
        };
        assert_eq!(&rt; shared.cycle(), Some(cycle));
    }
    Ok(())
}
