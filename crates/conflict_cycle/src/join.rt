//! From a stop to a negative cycle of the network's arcs.
ghost use Rattle.std.specs.Prelude.{◌≡◌, ◌≢◌, ◌+◌, ◌<◌, ◌*◌, ◌-◌, ◌==◌, ◌++◌, ◌∷◌, [], true, Some, is_some, length, IfOk, OnOk, IfSome, if◌then◌else◌};
ghost use Rattle.stn_model.specs.Arcs.{arc_at};
ghost use Rattle.stn_model.specs.Kinds.{is_external};
ghost use Rattle.stn_model.specs.Net.{Net, arcs_of, point_count};
ghost use Rattle.stn_model.specs.Valid.{IsNetwork};
ghost use Rattle.stn_model.specs.Walks.{IsNegativeClosed, IsNegativeCycle, IsNormal};
ghost use Rattle.conflict_cycle.specs.Belongs.{AreReducedOf, ArePublishedOf, AreExternalNumbers, IsLegWalk, IsOver, Whole, IsAgentLeg, IsHorizonLeg};
ghost use Rattle.private_elim.specs.Locals.{local_of};
ghost use Rattle.shared_graph.specs.Interfaces.{interface_of};
ghost use Rattle.shared_graph.specs.Legs.{AreTold, IsLeg};
ghost use Rattle.shared_graph.specs.Weights.{forward};

use dist_rows::Via;
use private_elim::Reduced;
use shared_graph::{Leg, Shared, SharedCycle};
use std::alloc::Global;
use stn_model::{Constraint, Network, OutOfMemory, PointId};
use stn_walk::{Walk, prune_cycle};

/// The negative cycle of the network's arcs, in normal form, that a stop shows: the shared graph is over the network's interface and has published
/// summaries of these reduced parts, one for each agent by number, each of the agent's local problem in the network; `cycle` is its stop. The forward
/// weights of the two points are unfolded into external arcs and walks of agents' own arcs, by a stack on the heap, in proportion to the walk's
/// length. OutOfMemory where memory runs out.
pub fn join_cycle(
    alloc: Global,
    net: &Network,
    shared: &Shared,
    reduced: &[Reduced],
    cycle: SharedCycle,
) -> Result<Walk, OutOfMemory>
    requires face { shared.now.face ≡ interface_of net.now }
    requires reduced { AreReducedOf net.now reduced.now }
    requires published { ArePublishedOf reduced.now shared.now.state }
    requires stop { shared.now.state.stop ≡ Some cycle }
    ensures cycle { IfOk result (IsNegativeCycle (arcs_of net.now)) }
    ensures normal { IfOk result IsNormal }
{
    let closed = closed_walk(alloc, net, shared, reduced, cycle)?;
    prune_cycle(alloc, net, &closed)
}

// The closed walk of negative weight from the stop's point to the other one and back. The ghost value is the network with the graph's state.
fn closed_walk(
    alloc: Global,
    net: &Network,
    shared: &Shared,
    reduced: &[Reduced],
    cycle: SharedCycle,
) -> Result<Walk, OutOfMemory>
    ghost whole: { Whole }
    requires net { whole.net ≡ net.now }
    requires over { IsOver whole shared.now }
    requires reduced { AreReducedOf whole.net reduced.now }
    requires published { ArePublishedOf reduced.now whole.state }
    requires stop { whole.state.stop ≡ Some cycle }
    ensures { IfOk result (IsNegativeClosed (arcs_of whole.net)) }
{
    // With the interface comes that the graph holds together.
    let _face = shared.interface();
    let externals = external_numbers(alloc, net)?;
    let SharedCycle { point, other } = cycle;
    let mut walk = Vec::new(alloc);
    add_walk(alloc, shared, reduced, &externals, point, other, &mut walk)?;
    add_walk(alloc, shared, reduced, &externals, other, point, &mut walk)?;
    Ok(Walk::new(walk))
}

// The numbers of the external arcs, by place.
pub(crate) fn external_numbers(alloc: Global, net: &Network) -> Result<Vec<u32>, OutOfMemory>
    ensures valid { IsNetwork net.now }
    ensures numbers { IfOk result (λ ns. AreExternalNumbers net.now ns.items) }
{
    let mut numbers = Vec::new(alloc);
    for n in 0..net.arcs() {
        push_external(net, n, &mut numbers)?;
    }
    Ok(numbers)
}

// Puts the number of an arc at the end where the arc is external.
fn push_external(net: &Network, n: u32, numbers: &mut Vec<u32>) -> Result<(), OutOfMemory>
    requires { n < length (arcs_of net.now) }
    ensures { OnOk result (numbers.new.items ≡ numbers.old.items ++ (if is_external net.now (arc_at (arcs_of net.now) n) then n ∷ [] else [])) }
{
    if is_external(net, net.arc(n)) {
        numbers.push(n)?;
    }
    Ok(())
}

// Whether the ends of the arc have different owners, and neither is the reference point.
fn is_external(net: &Network, arc: Constraint) -> bool
    requires from_in { arc.from.0 < point_count net.now }
    requires to_in { arc.to.0 < point_count net.now }
    ensures { result ≡ is_external net.now arc }
{
    arc.from.0 != 0 && arc.to.0 != 0 && net.owner(arc.from) != net.owner(arc.to)
}

// Adds a walk of the network's arcs from one point to another that weighs as much as their forward weight.
pub(crate) fn add_walk(
    alloc: Global,
    shared: &Shared,
    reduced: &[Reduced],
    externals: &[u32],
    from: PointId,
    to: PointId,
    walk: &mut Vec<u32>,
) -> Result<(), OutOfMemory>
    ghost whole: { Whole }
    requires network { IsNetwork whole.net }
    requires over { IsOver whole shared.now }
    requires reduced { AreReducedOf whole.net reduced.now }
    requires published { ArePublishedOf reduced.now whole.state }
    requires externals { AreExternalNumbers whole.net externals.now }
    requires apart { from.0 ≢ to.0 }
    requires there { is_some (forward (interface_of whole.net) whole.state from.0 to.0) ≡ true }
    ensures { OnOk result (IfSome (forward (interface_of whole.net) whole.state from.0 to.0)
        (λ w. IsLegWalk whole.net from.0 to.0 w walk.old.items walk.new.items)) }
{
    let legs = shared.legs(alloc, from, to)?;
    for &leg in legs.as_slice() {
        add_leg(alloc, reduced, externals, leg, walk)?;
    }
    Ok(())
}

// Adds the arcs of a leg: an external arc, a walk of own arcs for the entry of an agent's summary, or a horizon arc of a shared point.
fn add_leg(
    alloc: Global,
    reduced: &[Reduced],
    externals: &[u32],
    leg: Leg,
    walk: &mut Vec<u32>,
) -> Result<(), OutOfMemory>
    ghost whole: { Whole }
    requires network { IsNetwork whole.net }
    requires reduced { AreReducedOf whole.net reduced.now }
    requires published { ArePublishedOf reduced.now whole.state }
    requires told { AreTold (interface_of whole.net) whole.state }
    requires externals { AreExternalNumbers whole.net externals.now }
    requires leg { IsLeg (interface_of whole.net) whole.state leg }
    ensures { OnOk result (IsLegWalk whole.net leg.from.0 leg.to.0 leg.weight walk.old.items walk.new.items) }
{
    match leg.via {
        Via::Given(e) => {
            walk.push(externals[e as usize])?;
            Ok(())
        }
        Via::Published(agent) => add_published(alloc, &reduced[agent.0 as usize], leg, walk),
        Via::Through(_) => unreachable!(),
    }
}

// Adds the arcs of a leg that an agent published: its own walk where the leg has the weight of the summary's entry, and else a horizon arc.
fn add_published(
    alloc: Global,
    reduced: &Reduced,
    leg: Leg,
    walk: &mut Vec<u32>,
) -> Result<(), OutOfMemory>
    ghost net: { Net }
    requires network { IsNetwork net }
    requires local { reduced.now.local ≡ local_of net reduced.now.local.agent }
    requires leg { IsAgentLeg net reduced.now.local.agent reduced.now.summary leg }
    ensures { OnOk result (IsLegWalk net leg.from.0 leg.to.0 leg.weight walk.old.items walk.new.items) }
{
    if reduced.summary().weight(leg.from, leg.to) == Some(leg.weight) {
        let own = reduced.walk(alloc, leg.from, leg.to)?;
        walk.extend_from_slice(own.arcs())?;
        return Ok(());
    }
    walk.push(horizon_arc(leg))?;
    Ok(())
}

// The number of the horizon arc between the reference point and a point, or back.
fn horizon_arc(leg: Leg) -> u32
    requires { IsHorizonLeg leg }
    ensures { result ≡ (if leg.from.0 == 0 then 2 * leg.to.0 - 2 else 2 * leg.from.0 - 1) }
{
    if leg.from.0 == 0 {
        2 * leg.to.0 - 2
    } else {
        2 * leg.from.0 - 1
    }
}
