//! What goes into a solve, and what comes of it.
ghost use Rattle.std.specs.Prelude.{◌≡◌, ◌++◌, ◌∷◌, [], ◌<◌, ℕ, true, IfOk, OnOk, Some, is_some, length, map, slice_get};
ghost use Rattle.stn_model.specs.Net.{arcs_of, point_count};
ghost use Rattle.stn_model.specs.Schedules.{IsConsistent};
ghost use Rattle.stn_model.specs.Walks.{IsNegativeCycle, IsNormal};
ghost use Rattle.agent_worker.specs.Forwards.{ArePartsOf};
ghost use Rattle.conflict_cycle.specs.Belongs.{AreReducedOf};
ghost use Rattle.conflict_cycle.specs.PartOrders.{order_of};
ghost use Rattle.conflict_cycle.specs.Parts.{BelongsTo};
ghost use Rattle.private_elim.specs.ReducedViews.{ReducedView, IsReduced};
ghost use Rattle.shared_graph.specs.declared.events.Phase.TheVariants.{Order, Reverse};
ghost use Rattle.shared_graph.specs.Interfaces.{interface_of};
ghost use Rattle.shared_graph.specs.Journals.{AgreeWith, IsDone, StandsFor};
ghost use Rattle.joined_answer.specs.Joins.{SolvedBy, IsJoined, IsLegalSection, ArePrivateOrders, orders_of, private_of};

use crate::joined::Joined;
use agent_worker::back_phase;
use conflict_cycle::{Parts, join_cycle};
use elim_journal::Section;
use private_elim::{Local, Reduced};
use shared_graph::{Entry, Event, Shared};
use std::alloc::Global;
use std::sync::Wait;
use std::thread::Threads;
use stn_model::{AgentId, Network, OutOfMemory, PointId};
use stn_walk::Walk;

/// The local problems of all agents, by number.
pub fn locals_of(alloc: Global, net: &Network) -> Result<Vec<Local>, OutOfMemory>
    ensures { IfOk result (λ v. ArePartsOf net.now (interface_of net.now) v.items) }
{
    let mut locals = Vec::with_capacity(alloc, net.agents() as usize)?;
    for agent in 0..net.agents() {
        locals.push(Local::of(alloc, net, AgentId(agent))?)?;
    }
    Ok(locals)
}

/// The negative cycle that a stop shows.
pub fn shown(
    alloc: Global,
    net: &Network,
    shared: &Shared,
    reduced: &[Reduced],
) -> Result<Walk, OutOfMemory>
    requires face { shared.now.face ≡ interface_of net.now }
    requires reduced { AreReducedOf net.now reduced.now }
    requires published { AgreeWith (map (λ r. r.summary) reduced.now) shared.now.state }
    requires stop { is_some shared.now.state.stop ≡ true }
    ensures cycle { IfOk result (IsNegativeCycle (arcs_of net.now)) }
    ensures normal { IfOk result IsNormal }
{
    let Some(cycle) = shared.cycle() else {
        unreachable!()
    };
    join_cycle(alloc, net, shared, reduced, cycle)
}

/// The answer that reduced parts and a shared graph give in which all points are revisited: each agent sweeps back over its private points.
pub fn joined_of<R: Threads + Wait + Sync>(
    rt: &R,
    alloc: Global,
    net: &Network,
    reduced: Vec<Reduced>,
    shared: Shared,
) -> Result<Joined, OutOfMemory>
    requires solved { SolvedBy net.now reduced.items shared }
    ensures network { IfOk result (λ j. j.network ≡ net.now) }
    ensures orders { IfOk result (λ j. ArePrivateOrders net.now (map (λ p. p.0) j.section.private) (orders_of reduced.items)) }
    ensures section { IfOk result (λ j. IsLegalSection net.now j.section) }
{
    let bounds = back_phase(rt, alloc, reduced.as_slice(), &shared)?;
    let parts = Parts::new(net, reduced, shared, bounds);
    join(alloc, net, parts)
}

// The answer that parts of the network give.
fn join(alloc: Global, net: &Network, parts: Parts) -> Result<Joined, OutOfMemory>
    requires solved { SolvedBy net.now parts.reduced parts.shared }
    requires belongs { BelongsTo net.now parts }
    ensures network { IfOk result (λ j. j.network ≡ net.now) }
    ensures orders { IfOk result (λ j. ArePrivateOrders net.now (map (λ p. p.0) j.section.private) (orders_of parts.reduced)) }
    ensures section { IfOk result (λ j. IsLegalSection net.now j.section) }
{
    let (network, order, section) = record_of(alloc, net, parts.reduced(), parts.shared())?;
    Ok(Joined {
        network,
        order,
        section,
        parts,
    })
}

// The network, the order of all points, and the record of how they were eliminated.
fn record_of(
    alloc: Global,
    net: &Network,
    reduced: &[Reduced],
    shared: &Shared,
) -> Result<(Network, Vec<PointId>, Section), OutOfMemory>
    requires solved { SolvedBy net.now reduced.now shared.now }
    ensures network { IfOk result (λ r. r.0 ≡ net.now) }
    ensures orders { IfOk result (λ r. ArePrivateOrders net.now (map (λ p. p.0) r.2.private) (orders_of reduced.now)) }
    ensures section { IfOk result (λ r. IsLegalSection net.now r.2) }
    ensures joined { IfOk result (λ r. IsJoined (record { network = r.0; order = r.1.items; section = r.2 })) }
    ensures order { IfOk result (λ r. map (λ p. p.0) r.1.items ≡ order_of reduced.now shared.now.state) }
{
    let network = net.copy(alloc)?;
    let private = private_points(alloc, reduced)?;
    let entries = Vec::from_slice(alloc, shared.journal())?;
    let order = joined_order(alloc, private.as_slice(), shared.order())?;
    let section = Section::new(private, entries);
    Ok((network, order, section))
}

// The private points in their order, agent by agent.
fn private_points(alloc: Global, reduced: &[Reduced]) -> Result<Vec<PointId>, OutOfMemory>
    ensures points { IfOk result (λ v. map (λ p. p.0) v.items ≡ private_of reduced.now) }
    ensures known { OnOk result ((a : ℕ) (r : ReducedView) → slice_get reduced.now a ≡ Some r → IsReduced r.local r.order r.summary) }
{
    let mut private = Vec::new(alloc);
    for part in reduced {
        // With the summary comes that the part is reduced.
        let _summary = part.summary();
        private.extend_from_slice(part.order())?;
    }
    Ok(private)
}

// All points: private ones, shared ones, and the reference point.
fn joined_order(
    alloc: Global,
    private: &[PointId],
    shared: &[PointId],
) -> Result<Vec<PointId>, OutOfMemory>
    ensures { IfOk result (λ v. v.items ≡ private.now ++ shared.now ++ record { 0 = 0 } ∷ []) }
{
    let mut order = Vec::with_capacity(alloc, private.len() + shared.len() + 1)?;
    order.extend_from_slice(private)?;
    order.extend_from_slice(shared)?;
    order.push(PointId(0))?;
    Ok(order)
}
