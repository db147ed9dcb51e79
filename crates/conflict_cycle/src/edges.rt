//! Least bounds unfolded into walks of the network's arcs.
ghost use Rattle.std.specs.Prelude.{◌≡◌, ℕ, ◌<◌, ◌+◌, ℤ, true, map, length, slice_get, Some, None, is_some, IfOk, OnOk, IfSome, IfNone};
ghost use Rattle.std.specs.Option.{option_map};
ghost use Rattle.stn_model.specs.Joined.{IsJoined};
ghost use Rattle.stn_model.specs.Net.{Net, arcs_of, point_count, owner_of};
ghost use Rattle.stn_model.specs.Schedules.{IsLeastBound};
ghost use Rattle.stn_model.specs.Walks.{IsWalk, PassesNoPointTwice, weight};
ghost use Rattle.stn_walk.specs.Eliminations.{is_in};
ghost use Rattle.private_elim.specs.Backs.{BoundsView, bound_between};
ghost use Rattle.private_elim.specs.Throughs.{through_between};
ghost use Rattle.conflict_cycle.specs.Belongs.{AreExternalNumbers, IsLegWalk};
ghost use Rattle.conflict_cycle.specs.Edges.{ArePlaces, HasLeg, IsGap, IsHop, place_of, whole_order};
ghost use Rattle.conflict_cycle.specs.PartOrders.{order_of};
ghost use Rattle.conflict_cycle.specs.Parts.{BelongsTo};

use crate::join::{add_walk, external_numbers};
use crate::parts::Parts;
use std::alloc::Global;
use stn_model::{AgentId, Network, OutOfMemory, PointId};
use stn_walk::{Walk, prune};

// Through which later neighbour a bound came, in the part of an agent, or in the shared graph where there is no agent.
#[derive(Clone, Copy)]
struct Hop {
    agent: Option<AgentId>,
    via: PointId,
}

// What is not unfolded yet: the bound between two points. What was found leads to the first and on from the second; the arcs after it are listed from the
// last one back, so that both lists grow at their end.
#[derive(Drop)]
struct Gap {
    from: PointId,
    to: PointId,
    before: Vec<u32>,
    after: Vec<u32>,
}

/// A walk of the network's arcs from one point to another that is joined with it, whose weight is their least bound: the evidence that no schedule has
/// more between them. It passes no point twice. The bound is unfolded from both ends, one forward weight after another, up the order of all points; the
/// work goes by the length of the walk, beside one look at each point and arc of the network. OutOfMemory where memory runs out.
pub fn edge_walk(
    alloc: Global,
    net: &Network,
    parts: &Parts,
    i: PointId,
    j: PointId,
) -> Result<Walk, OutOfMemory>
    requires belongs { BelongsTo net.now parts.now }
    requires joined { IsJoined (arcs_of net.now) (order_of parts.now.reduced parts.now.shared.state) i.0 j.0 }
    ensures walk { IfOk result (IsWalk (arcs_of net.now) i.0 j.0) }
    ensures least { IfOk result (λ w. IsLeastBound (point_count net.now) (arcs_of net.now) i.0 j.0 (weight (arcs_of net.now) w)) }
    ensures once { IfOk result (PassesNoPointTwice (arcs_of net.now) i.0 j.0) }
{
    let least = least_walk(alloc, net, parts, i, j)?;
    let simple = prune(alloc, net, &least, i, j)?;
    Ok(simple)
}

// The same, where points may be passed twice.
fn least_walk(
    alloc: Global,
    net: &Network,
    parts: &Parts,
    i: PointId,
    j: PointId,
) -> Result<Walk, OutOfMemory>
    requires belongs { BelongsTo net.now parts.now }
    requires joined { IsJoined (arcs_of net.now) (order_of parts.now.reduced parts.now.shared.state) i.0 j.0 }
    ensures walk { IfOk result (IsWalk (arcs_of net.now) i.0 j.0) }
    ensures least { IfOk result (λ w. IsLeastBound (point_count net.now) (arcs_of net.now) i.0 j.0 (weight (arcs_of net.now) w)) }
{
    // With these comes that the network is consistent, so that there is a least bound.
    let _reduced = parts.reduced();
    let _face = parts.shared().interface();
    let externals = external_numbers(alloc, net)?;
    let places = order_places(alloc, net, parts)?;
    let mut gap = Gap {
        from: i,
        to: j,
        before: Vec::new(alloc),
        after: Vec::new(alloc),
    };
    'unfolding: while gap.from.0 != gap.to.0 {
        narrow(
            alloc,
            net,
            parts,
            externals.as_slice(),
            places.as_slice(),
            &mut gap,
        )?;
    }
    let Gap {
        mut before,
        mut after,
        ..
    } = gap;
    after.reverse();
    before.extend_from_slice(after.as_slice())?;
    Ok(Walk::new(before))
}

// Unfolds a forward weight at the end of the gap that comes first in the order, so that it ends later.
fn narrow(
    alloc: Global,
    net: &Network,
    parts: &Parts,
    externals: &[u32],
    places: &[usize],
    gap: &mut Gap,
) -> Result<(), OutOfMemory>
    ghost whole: { Net }
    requires net { whole ≡ net.now }
    requires belongs { BelongsTo net.now parts.now }
    requires externals { AreExternalNumbers net.now externals.now }
    requires places { ArePlaces (point_count net.now) (whole_order parts.now) places.now }
    requires joined { IsJoined (arcs_of net.now) (whole_order parts.now) gap.old.from.0 gap.old.to.0 }
    ensures gap { OnOk result ((i j : ℕ) → IsGap net.now (whole_order parts.now) i j gap.old.from.0 gap.old.to.0 gap.old.before.items gap.old.after.items
        → IsGap net.now (whole_order parts.now) i j gap.new.from.0 gap.new.to.0 gap.new.before.items gap.new.after.items) }
    ensures later { OnOk result (place_of (whole_order parts.now) gap.old.from.0 + place_of (whole_order parts.now) gap.old.to.0
        < place_of (whole_order parts.now) gap.new.from.0 + place_of (whole_order parts.now) gap.new.to.0) }
{
    let hop = hop_between(net, parts, gap.from, gap.to);
    if places[gap.from.0 as usize] < places[gap.to.0 as usize] {
        add_hop(
            alloc,
            parts,
            externals,
            hop.agent,
            gap.from,
            hop.via,
            &mut gap.before,
        )?;
        gap.from = hop.via;
        return Ok(());
    }
    let mut leg = Vec::new(alloc);
    add_hop(
        alloc, parts, externals, hop.agent, hop.via, gap.to, &mut leg,
    )?;
    leg.reverse();
    gap.after.extend_from_slice(leg.as_slice())?;
    gap.to = hop.via;
    Ok(())
}

// Adds a walk that weighs the forward weight between two points.
fn add_hop(
    alloc: Global,
    parts: &Parts,
    externals: &[u32],
    agent: Option<AgentId>,
    from: PointId,
    to: PointId,
    walk: &mut Vec<u32>,
) -> Result<(), OutOfMemory>
    ghost whole: { Net }
    requires belongs { BelongsTo whole parts.now }
    requires externals { AreExternalNumbers whole externals.now }
    requires leg { (w : ℤ) × HasLeg parts.now agent from.0 to.0 w }
    ensures { OnOk result ((w : ℤ) → HasLeg parts.now agent from.0 to.0 w → IsLegWalk whole from.0 to.0 w walk.old.items walk.new.items) }
{
    let reduced = parts.reduced();
    let Some(agent) = agent else {
        add_walk(alloc, parts.shared(), reduced, externals, from, to, walk)?;
        return Ok(());
    };
    let own = reduced[agent.0 as usize].walk(alloc, from, to)?;
    walk.extend_from_slice(own.arcs())?;
    Ok(())
}

// Through which point the bound between two joined points came.
fn hop_between(net: &Network, parts: &Parts, i: PointId, j: PointId) -> Hop
    requires belongs { BelongsTo net.now parts.now }
    requires joined { IsJoined (arcs_of net.now) (whole_order parts.now) i.0 j.0 }
    ensures { IsHop net.now parts.now i.0 j.0 result.agent result.via.0 }
{
    let shared = parts.shared();
    // With the interface comes that the graph holds together.
    let _face = shared.interface();
    if let Some(hop) = private_hop(net, parts, i, i, j) {
        return hop;
    }
    if let Some(hop) = private_hop(net, parts, j, i, j) {
        return hop;
    }
    match shared.final_through(i, j) {
        Some(via) => Hop { agent: None, via },
        None => unreachable!(),
    }
}

// The same where the back sweep of a point's owner has the bound.
fn private_hop(net: &Network, parts: &Parts, point: PointId, i: PointId, j: PointId) -> Option<Hop>
    requires belongs { BelongsTo net.now parts.now }
    requires within { point.0 < point_count net.now }
    ensures some { IfSome result (λ h. (a : AgentId) × (v : BoundsView) × (h.agent ≡ Some a) × (slice_get parts.now.bounds a.0 ≡ Some v)
        × (is_some (bound_between v i.0 j.0) ≡ true) × (through_between v i.0 j.0 ≡ Some h.via.0)) }
    ensures none { IfNone result ((a : ℕ) (v : BoundsView) → owner_of net.now point.0 ≡ Some a → slice_get parts.now.bounds a ≡ Some v
        → bound_between v i.0 j.0 ≡ None) }
{
    let Some(agent) = net.owner(point) else {
        return None;
    };
    let Some(via) = parts.bounds()[agent.0 as usize].through(i, j) else {
        return None;
    };
    Some(Hop {
        agent: Some(agent),
        via,
    })
}

// The place of each point in the order of all points.
fn order_places(alloc: Global, net: &Network, parts: &Parts) -> Result<Vec<usize>, OutOfMemory>
    requires belongs { BelongsTo net.now parts.now }
    ensures { IfOk result (λ v. ArePlaces (point_count net.now) (whole_order parts.now) v.items) }
{
    let _reduced = parts.reduced();
    let _face = parts.shared().interface();
    let order = parts.order(alloc)?;
    places_in(alloc, net.points(), order.as_slice())
}

// The place of each of the first points in an order of some of them: each point gets its place where it is met last, from the order's end on.
fn places_in(alloc: Global, points: u32, order: &[PointId]) -> Result<Vec<usize>, OutOfMemory>
    requires { (p : ℕ) → is_in (map (λ p. p.0) order.now) p ≡ true → p < points }
    ensures { IfOk result (λ v. ArePlaces points (map (λ p. p.0) order.now) v.items) }
{
    let mut places = vec![in alloc; order.len(); points as usize]?;
    let mut place = order.len();
    'back: while place > 0 {
        place -= 1;
        places[order[place].0 as usize] = place;
    }
    Ok(places)
}
