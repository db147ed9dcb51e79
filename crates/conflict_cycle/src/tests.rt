//! Cycles that stops show on a ring of three agents, and least bounds of the handover.
ghost use Rattle.std.specs.Prelude.{◌≡◌, ℕ, ◌<◌, [], IfOk, IfSome, length, map, slice_get, Some};
ghost use Rattle.stn_model.specs.Valid.{IsNetwork};
ghost use Rattle.private_elim.specs.Locals.{local_of};
ghost use Rattle.shared_graph.specs.Histories.{AreFitting};
ghost use Rattle.shared_graph.specs.Interfaces.{interface_of};
ghost use Rattle.private_elim.specs.Backs.{BoundsView};
ghost use Rattle.private_elim.specs.ReducedViews.{ReducedView};
ghost use Rattle.shared_graph.specs.declared.events.Phase.TheVariants.{Order, Reverse};
ghost use Rattle.shared_graph.specs.Journals.{IsDone, StandsFor};
ghost use Rattle.shared_graph.specs.Weights.{final};
ghost use Rattle.conflict_cycle.specs.Belongs.{AreReducedOf, ArePublishedOf};
ghost use Rattle.conflict_cycle.specs.Parts.{AreFinalsOf, BelongsTo, IsBackOf};

use crate::parts::{Parts, know_reduced};
use crate::{edge_walk, join_cycle};
use elim_step::{Picker, Summary, SummaryEntry};
use private_elim::{Local, PrivateBounds, PrivateOutcome, Reduced, back_sweep, eliminate_private};
use sample_nets::handover;
use shared_graph::{Interface, Phase, Shared};
use std::alloc::Global;
use std::process::Abort;
use std::test::Fail;
use stn_model::{AgentId, Lean, Network, PointId};
use stn_walk::Walk;

// An agent with one point.
fn add_agent(alloc: Global, net: &mut Network, agent: &[u8], point: &[u8]) -> Result<(), Fail> {
    let agent = net.add_agent(alloc, agent, Lean::Early)?;
    net.add_point(alloc, agent, point)?;
    Ok(())
}

// Three agents with one point each, 1, 2 and 3, the horizon 100, and arcs (from, to, bound), of which the first has the number 6.
fn ring(alloc: Global, arcs: &[(u32, u32, i64)]) -> Result<Network, Fail> {
    let mut net = Network::new(alloc, 100)?;
    add_agent(alloc, &mut net, b"ann".as_slice(), b"x".as_slice())?;
    add_agent(alloc, &mut net, b"bob".as_slice(), b"y".as_slice())?;
    add_agent(alloc, &mut net, b"cid".as_slice(), b"w".as_slice())?;
    for arc in arcs {
        if arc.0 >= net.points() || arc.1 >= net.points() {
            return Err(Fail::new("no such point"));
        }
        net.add_arc(PointId(arc.0), PointId(arc.1), arc.2)?;
    }
    Ok(net)
}

// The reduced part of an agent.
fn reduced_of(alloc: Global, net: &Network, agent: u32) -> Result<Reduced, Fail>
    requires { agent < length net.now.agents }
    ensures { IfOk result (λ r. r.local ≡ local_of net.now agent) }
{
    let local = Local::of(alloc, net, AgentId(agent))?;
    let key = Box::new(alloc, |degree: u32, _number: u32| u64::from(degree))?;
    match eliminate_private(alloc, &local, &Picker::new(key))? {
        PrivateOutcome::Reduced(reduced) => Ok(reduced),
        PrivateOutcome::Conflict { .. } => Err(Fail::new("an own conflict")),
    }
}

// The reduced parts of all agents.
fn all_reduced(alloc: Global, net: &Network) -> Result<Vec<Reduced>, Fail>
    ensures valid { IsNetwork net.now }
    ensures reduced { IfOk result (λ v. AreReducedOf net.now v.items) }
{
    // With the arcs comes that the network is valid.
    let _arcs = net.arcs();
    let mut all = Vec::new(alloc);
    for agent in 0..net.agents() {
        all.push(reduced_of(alloc, net, agent)?)?;
    }
    Ok(all)
}

// Their summaries, which fit.
fn summaries_of(alloc: Global, net: &Network, reduced: &[Reduced]) -> Result<Vec<Summary>, Fail>
    requires valid { IsNetwork net.now }
    requires reduced { AreReducedOf net.now reduced.now }
    ensures summaries { IfOk result (λ v. v.items ≡ map (λ r. r.summary) reduced.now) }
    ensures fitting { IfOk result (λ v. AreFitting (interface_of net.now) v.items) }
{
    let mut summaries = Vec::new(alloc);
    for part in reduced {
        summaries.push(part.summary().copy(alloc)?)?;
    }
    Ok(summaries)
}

// The cycle that the joiner's steps show; None where they come to no stop.
fn shown(alloc: Global, net: &Network) -> Result<Option<Walk>, Fail> {
    let reduced = all_reduced(alloc, net)?;
    let summaries = summaries_of(alloc, net, reduced.as_slice())?;
    let mut shared = Shared::start(alloc, Interface::of(alloc, net)?)?;
    shared.finish(alloc, summaries.as_slice(), Phase::Order)?;
    let Some(cycle) = shared.cycle() else {
        return Ok(None);
    };
    Ok(Some(join_cycle(alloc, net, &shared, reduced.as_slice(), cycle)?))
}

#[test]
fn rings_show_cycles(rt: HostRuntime) -> Result<(), Fail> {
    let rows = [
        ([(1, 2, -5), (2, 3, -5), (3, 1, 9)], [6, 7, 8].as_slice()),
        ([(1, 2, -5), (2, 3, -5), (3, 1, 10)], [].as_slice()),
        (
            [(1, 2, -60), (2, 3, -60), (3, 1, 500)],
            [0, 6, 7, 5].as_slice(),
        ),
        (
            [(0, 1, 30), (1, 2, -20), (2, 3, -20)],
            [5, 6, 7, 8].as_slice(),
        ),
    ];
    for (arcs, wanted) in rows {
        let net = ring(rt.alloc(), arcs.as_slice())?;
        match shown(rt.alloc(), &net)? {
            None => assert!(rt; wanted.is_empty(), "no cycle"),
            Some(cycle) => assert_eq!(rt; cycle.arcs(), wanted),
        }
    }
    Ok(())
}

// The graph after all of the joiner's steps; it fails where they come to a stop.
fn revisited(alloc: Global, net: &Network, reduced: &[Reduced]) -> Result<Shared, Fail>
    requires valid { IsNetwork net.now }
    requires reduced { AreReducedOf net.now reduced.now }
    ensures stands { IfOk result (λ s. StandsFor net.now s) }
    ensures published { IfOk result (λ s. ArePublishedOf reduced.now s.state) }
    ensures ordered { IfOk result (λ s. IsDone s.face s.state Order) }
    ensures visited { IfOk result (λ s. IsDone s.face s.state Reverse) }
    ensures untimed { IfOk result (λ s. s.state.assigned ≡ []) }
{
    know_reduced(reduced);
    let summaries = summaries_of(alloc, net, reduced)?;
    let mut shared = Shared::start(alloc, Interface::of(alloc, net)?)?;
    shared.finish(alloc, summaries.as_slice(), Phase::Order)?;
    if shared.cycle().is_some() {
        return Err(Fail::new("a stop"));
    }
    shared.finish(alloc, summaries.as_slice(), Phase::Reverse)?;
    // With the journal comes that it replays.
    let _journal = shared.journal();
    Ok(shared)
}

// The entry of the same pair with its final bound.
fn final_entry(shared: &Shared, told: SummaryEntry) -> Option<SummaryEntry>
    ensures { IfSome result (λ e. (e.from ≡ told.from) × (e.to ≡ told.to) × (Some e.weight ≡ final shared.now.face shared.now.state told.from.0 told.to.0)) }
{
    let Some(weight) = shared.final_bound(told.from, told.to) else {
        return None;
    };
    Some(SummaryEntry {
        from: told.from,
        to: told.to,
        weight,
    })
}

// The final bounds of a summary's pairs.
fn finals_of(alloc: Global, shared: &Shared, summary: &Summary) -> Result<Summary, Fail>
    ensures { IfOk result (λ f. AreFinalsOf shared.now.face shared.now.state summary.now f) }
{
    let mut finals = Vec::new(alloc);
    for &told in summary.entries() {
        let Some(entry) = final_entry(shared, told) else {
            return Err(Fail::new("no final bound"));
        };
        finals.push(entry)?;
    }
    match Summary::new(finals) {
        Some(finals) => Ok(finals),
        None => Err(Fail::new("no summary")),
    }
}

// The back sweep of each part on its final bounds.
fn swept(alloc: Global, shared: &Shared, reduced: &[Reduced]) -> Result<Vec<PrivateBounds>, Fail>
    ensures one_each { IfOk result (λ v. length v.items ≡ length reduced.now) }
    ensures back { IfOk result (λ v. (a : ℕ) (r : ReducedView) (b : BoundsView) → slice_get reduced.now a ≡ Some r
        → slice_get v.items a ≡ Some b → IsBackOf shared.now.face shared.now.state r b) }
{
    let mut all = Vec::new(alloc);
    for part in reduced {
        let finals = finals_of(alloc, shared, part.summary())?;
        all.push(back_sweep(alloc, part, &finals)?)?;
    }
    Ok(all)
}

// All parts of a network that has a schedule.
fn parts_of(alloc: Global, net: &Network) -> Result<Parts, Fail>
    ensures { IfOk result (BelongsTo net.now) }
{
    let reduced = all_reduced(alloc, net)?;
    let shared = revisited(alloc, net, reduced.as_slice())?;
    let bounds = swept(alloc, &shared, reduced.as_slice())?;
    Ok(Parts::new(net, reduced, shared, bounds))
}

// The bounds of the handover, where private points are joined with their own agent's alone.
fn has_bounds(rt: &impl Abort, parts: &Parts) {
    let rows = [
        (0, 1, Some(20)),
        (1, 0, Some(0)),
        (1, 2, Some(40)),
        (2, 1, Some(-30)),
        (0, 2, Some(60)),
        (2, 0, Some(-30)),
        (2, 3, Some(5)),
        (3, 2, Some(0)),
        (0, 3, Some(65)),
        (3, 4, Some(20)),
        (4, 0, Some(-40)),
        (0, 4, Some(85)),
        (1, 3, None),
        (4, 2, None),
        (1, 4, None),
        (2, 2, None),
        (0, 7, None),
    ];
    for (i, j, wanted) in rows {
        assert_eq!(rt;
            parts.bound(PointId(i), PointId(j)),
            wanted,
            "from {i} to {j}"
        );
    }
}

#[test]
fn parts_have_least_bounds(rt: HostRuntime) -> Result<(), Fail> {
    let net = handover(rt.alloc())?;
    let parts = parts_of(rt.alloc(), &net)?;
    has_bounds(&rt, &parts);
    let copy = parts.copy(rt.alloc())?;
    has_bounds(&rt, &copy);
    let order = copy.order(rt.alloc())?;
    let wanted = [PointId(1), PointId(4), PointId(2), PointId(3), PointId(0)];
    assert_eq!(rt; order.as_slice(), wanted.as_slice());
    assert_eq!(rt; copy.reduced().len(), 2);
    assert_eq!(rt; copy.shared().journal().len(), 6);
    Ok(())
}

// The walk of the least bound between two points; None where they are not joined.
fn walk_between(
    alloc: Global,
    net: &Network,
    parts: &Parts,
    i: PointId,
    j: PointId,
) -> Result<Option<Walk>, Fail>
    requires { BelongsTo net.now parts.now }
{
    if parts.bound(i, j).is_none() {
        return Ok(None);
    }
    Ok(Some(edge_walk(alloc, net, parts, i, j)?))
}

#[test]
fn least_bounds_have_walks(rt: HostRuntime) -> Result<(), Fail> {
    let net = handover(rt.alloc())?;
    let parts = parts_of(rt.alloc(), &net)?;
    let rows = [
        (0, 3, [8, 9, 11].as_slice()),
        (3, 0, [12, 10, 1].as_slice()),
        (1, 4, [].as_slice()),
    ];
    for (i, j, wanted) in rows {
        match walk_between(rt.alloc(), &net, &parts, PointId(i), PointId(j))? {
            None => assert!(rt; wanted.is_empty(), "no walk from {i} to {j}"),
            Some(walk) => assert_eq!(rt; walk.arcs(), wanted, "from {i} to {j}"),
        }
    }
    Ok(())
}

#[test]
fn joined_points_are_met(rt: HostRuntime) -> Result<(), Fail> {
    let net = handover(rt.alloc())?;
    let parts = parts_of(rt.alloc(), &net)?;
    let rows = [
        (None, Some(0)),
        (Some(0), Some(1)),
        (Some(1), Some(3)),
        (Some(3), None),
    ];
    for (after, wanted) in rows {
        assert_eq!(rt;
            parts.next(PointId(2), after.map(PointId)),
            wanted.map(PointId),
            "after {after:?}"
        );
    }
    Ok(())
}
