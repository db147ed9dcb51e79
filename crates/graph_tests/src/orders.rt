//! On small generated networks, all orders in which the agents' entries may fall: they end in the same verdict and the same least bounds, those of the
//! plain solver.
ghost use Rattle.std.specs.Prelude.{◌≡◌};

use crate::build::summaries_of;
use crate::steps::{Tried, try_step};
use elim_step::{Steps, Summary};
use plain_solve::plain_from;
use sample_nets::sample;
use shared_graph::{By, Entry, Event, Interface, Shared};
use std::alloc::Global;
use std::marker::Brand;
use std::process::Abort;
use std::sync::ledger::{Blank, Ledger};
use std::test::Fail;
use stn_model::{AgentId, Network, PointId};

// Tries an entry on a copy, and keeps the copy where the entry was legal. Says whether it was.
fn branch<L: Ledger>(
    alloc: Global,
    blank: Blank,
    shared: &Shared,
    summaries: &[Summary],
    entry: Entry,
    ahead: &mut Vec<Shared>,
) -> Result<bool, Fail>
    requires name { blank.name ≡ L.name }
    requires parts { (blank.parts ≡ L.parts) × (blank.parts ≡ 1) }
{
    let mut steps = Steps::<L>::new(blank);
    let mut copy = shared.copy(alloc)?;
    let tried = try_step(alloc, &mut copy, summaries, entry, &mut steps)?;
    if tried != Tried::Made {
        return Ok(false);
    }
    ahead.push(copy)?;
    Ok(true)
}

// The same with a counter of its own.
fn branch_alone(
    alloc: Global,
    shared: &Shared,
    summaries: &[Summary],
    entry: Entry,
    ahead: &mut Vec<Shared>,
) -> Result<bool, Fail> {
    branch::<Brand>(alloc, Blank::new(1), shared, summaries, entry, ahead)
}

// Each entry that agents may make.
fn entries_of(alloc: Global, shared: &Shared) -> Result<Vec<Entry>, Fail> {
    let mut entries = Vec::new(alloc);
    for a in 0..shared.interface().agents() {
        let agent = AgentId(a);
        entries.push(Entry {
            by: By::Agent(agent),
            event: Event::Publish { agent },
        })?;
    }
    for &point in shared.interface().points() {
        let by = match shared.interface().owner(point) {
            Some(owner) => By::Agent(owner),
            None => By::Joiner,
        };
        entries.push(Entry {
            by,
            event: Event::Eliminate { point },
        })?;
        entries.push(Entry {
            by,
            event: Event::Revisit { point },
        })?;
    }
    Ok(entries)
}

// Tries each of them, on a copy each. Says whether one was legal.
fn branches(
    alloc: Global,
    shared: &Shared,
    summaries: &[Summary],
    ahead: &mut Vec<Shared>,
) -> Result<bool, Fail> {
    let mut any = false;
    for &entry in entries_of(alloc, shared)?.as_slice() {
        if branch_alone(alloc, shared, summaries, entry, ahead)? {
            any = true;
        }
    }
    Ok(any)
}

// The end of an order: a stop where no schedule satisfies the network, and else each joined pair has its least bound.
fn agrees(rt: &impl Abort, alloc: Global, net: &Network, shared: &Shared) -> Result<(), Fail> {
    let mut points = Vec::new(alloc);
    points.push(PointId(0))?;
    points.extend_from_slice(shared.interface().points())?;
    for &from in points.as_slice() {
        if from.0 >= net.points() {
            return Err(Fail::new("no such point"));
        }
        let Some(walks) = plain_from(alloc, net, from)? else {
            assert!(rt; shared.cycle().is_some());
            return Ok(());
        };
        for &to in points.as_slice() {
            if to.0 < net.points() && shared.joined(from, to) {
                assert_eq!(rt; shared.final_bound(from, to), Some(walks.dist(to)));
            }
        }
    }
    assert!(rt; shared.cycle().is_none());
    Ok(())
}

// All orders of entries on a network. Says how many there are.
fn explore(
    rt: &impl Abort,
    alloc: Global,
    net: &Network,
    summaries: &[Summary],
) -> Result<u32, Fail> {
    let mut ahead = Vec::new(alloc);
    ahead.push(Shared::start(alloc, Interface::of(alloc, net)?)?)?;
    let mut ends = 0;
    for _turn in 0..20_000 {
        let Some(shared) = ahead.pop() else {
            return Ok(ends);
        };
        if !branches(alloc, &shared, summaries, &mut ahead)? {
            agrees(rt, alloc, net, &shared)?;
            ends = ends.saturating_add(1);
        }
    }
    Err(Fail::new("too many orders"))
}

// The next number of a sequence that looks random.
fn next(seed: &mut u64) -> u64 {
    *seed = seed
        .wrapping_mul(6364136223846793005)
        .wrapping_add(1442695040888963407);
    *seed >> 33
}

// A network of two agents with four points and a few arcs.
fn some_net(alloc: Global, number: u64) -> Result<Network, Fail> {
    let mut seed = number;
    let mut arcs = Vec::new(alloc);
    for _arc in 0..7 {
        let from = (next(&mut seed) % 5) as u32;
        let to = (next(&mut seed) % 5) as u32;
        let bound = (next(&mut seed) % 40) as i64 - 14;
        if from != to {
            arcs.push((from, to, bound))?;
        }
    }
    sample(alloc, 60, [0, 0, 1, 1].as_slice(), arcs.as_slice())
}

#[test]
fn all_orders_end_alike(rt: HostRuntime) -> Result<(), Fail> {
    let mut orders = 0;
    for number in 0..24 {
        let net = some_net(rt.alloc(), number)?;
        if let Some(summaries) = summaries_of(rt.alloc(), &net)? {
            let ends = explore(&rt, rt.alloc(), &net, summaries.as_slice())?;
            orders = ends.saturating_add(orders);
        }
    }
    assert!(&rt; orders > 100);
    Ok(())
}
