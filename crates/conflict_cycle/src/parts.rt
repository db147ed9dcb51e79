//! What is known of a network once all its points are eliminated and revisited.
ghost use Rattle.std.specs.Prelude.{◌≡◌, ◌↔◌, ℕ, ◌<◌, [], true, map, slice_get, Some, None, is_some, IfOk, IfSome, IfNone};
ghost use Rattle.std.specs.Option.{option_map};
ghost use Rattle.stn_model.specs.Joined.{IsJoined};
ghost use Rattle.stn_model.specs.Net.{arcs_of, point_count};
ghost use Rattle.stn_model.specs.Schedules.{IsLeastBound};
ghost use Rattle.dist_rows.specs.Cells.{IsAbove};
ghost use Rattle.private_elim.specs.Backs.{BoundsView, bound_between};
ghost use Rattle.shared_graph.specs.declared.events.Phase.TheVariants.{Order, Reverse};
ghost use Rattle.shared_graph.specs.Journals.{IsDone};
ghost use Rattle.conflict_cycle.specs.Nexts.{IsNext, HasPrivate, lesser_of};
ghost use Rattle.conflict_cycle.specs.PartOrders.{AreReduced, order_of};
ghost use Rattle.conflict_cycle.specs.Parts.{BelongsTo, IsParts, OfBelonging};

use private_elim::{PrivateBounds, Reduced};
use shared_graph::Shared;
use std::alloc::Global;
use std::marker::Model;
use stn_model::{Network, OutOfMemory, PointId};

/// The agents' reduced parts, the graph of their shared points, and the back sweep of each part on the graph's final bounds. All shared points are
/// eliminated and revisited, and none has a time. The network is no part of it: what is said of a network holds for each to which the parts belong.
#[derive(Drop)]
pub struct Parts {
    reduced: Vec<Reduced>,
    shared: Shared,
    bounds: Vec<PrivateBounds>,
}

impl Model for Parts {
    ghost use Rattle.conflict_cycle.specs.Parts.{PartsView, IsParts};

    ghost Value = { PartsView };

    ghost view = { λ p. record { reduced = p.reduced.items; shared = p.shared; bounds = p.bounds.items } };

    ghost invariant = { λ p. IsParts (record { reduced = p.reduced.items; shared = p.shared; bounds = p.bounds.items }) };
}

impl Parts {
    /// The parts of a network to which they belong: one reduced part and one back sweep for each agent, by number, each part of the agent's local
    /// problem; the graph stands for the network, with the parts' summaries. All shared points are eliminated and revisited, and none has a time.
    pub fn new(
        net: &Network,
        reduced: Vec<Reduced>,
        shared: Shared,
        bounds: Vec<PrivateBounds>,
    ) -> Parts
        requires belongs { BelongsTo net.now (record { reduced = reduced.items; shared = shared; bounds = bounds.items }) }
        requires ordered { IsDone shared.face shared.state Order }
        requires revisited { IsDone shared.face shared.state Reverse }
        requires untimed { shared.state.assigned ≡ [] }
        ensures whole { result ≡ record { reduced = reduced.items; shared = shared; bounds = bounds.items } }
        ensures belongs { BelongsTo net.now result }
    {
        // Nothing is read of the network: what is said of it is said of the parts.
        let _net = net;
        know_reduced(reduced.as_slice());
        Parts {
            reduced,
            shared,
            bounds,
        }
    }

    /// The reduced parts, by agent.
    pub fn reduced(&self) -> &[Reduced]
        ensures reduced { result.now ≡ self.now.reduced }
        ensures known { IsParts self.now }
    {
        self.reduced.as_slice()
    }

    /// The shared graph.
    pub fn shared(&self) -> &Shared
        ensures shared { result.now ≡ self.now.shared }
        ensures known { IsParts self.now }
    {
        &self.shared
    }

    // The back sweeps, by agent.
    pub(crate) fn bounds(&self) -> &[PrivateBounds]
        ensures { result.now ≡ self.now.bounds }
    {
        self.bounds.as_slice()
    }

    /// The least bound on `time(j) - time(i)`, in the network's unit of time. None exactly where the points are equal or not joined: two different
    /// points are joined where arcs, taken without direction, have a path between them whose inner points all come before both in the order. Takes no
    /// memory: one look at the graph, and where it has no bound one at each agent's part.
    pub fn bound(&self, i: PointId, j: PointId) -> Option<i128>
        ensures joined { OfBelonging self.now (λ net. (is_some result ≡ true)
            ↔ IsJoined (arcs_of net) (order_of self.now.reduced self.now.shared.state) i.0 j.0) }
        ensures least { OfBelonging self.now (λ net. IfSome result (λ b. IsLeastBound (point_count net) (arcs_of net) i.0 j.0 b)) }
    {
        let shared = self.shared();
        // With the interface comes that the graph holds together.
        let _face = shared.interface();
        let seen = shared.final_bound(i, j);
        if seen.is_some() {
            return seen;
        }
        self.private_bound(i, j)
    }

    // The bound of the first back sweep that has one.
    fn private_bound(&self, i: PointId, j: PointId) -> Option<i128>
        ensures some { IfSome result (λ b. (a : ℕ) × ((v : BoundsView) × (slice_get self.now.bounds a ≡ Some v) × (bound_between v i.0 j.0 ≡ Some b))) }
        ensures none { IfNone result ((a : ℕ) (v : BoundsView) → slice_get self.now.bounds a ≡ Some v → bound_between v i.0 j.0 ≡ None) }
    {
        for bounds in self.bounds.as_slice() {
            let bound = bounds.get(i, j);
            if bound.is_some() {
                return bound;
            }
        }
        None
    }

    /// The least point above `after`, or of all points where that is None, that is joined with `i`: so the points to which there is a bound are met one by
    /// one. None exactly where there is no such point. Takes no memory, and a look at each agent's part.
    pub fn next(&self, i: PointId, after: Option<PointId>) -> Option<PointId>
        ensures some { OfBelonging self.now (λ net. IfSome result (λ p. IsAbove p.0 (option_map (λ p. p.0) after)
            × IsJoined (arcs_of net) (order_of self.now.reduced self.now.shared.state) i.0 p.0)) }
        ensures least { OfBelonging self.now (λ net. IfSome result (λ p. (q : ℕ) → q < p.0 → IsAbove q (option_map (λ p. p.0) after)
            → IsJoined (arcs_of net) (order_of self.now.reduced self.now.shared.state) i.0 q → ⊥)) }
        ensures none { OfBelonging self.now (λ net. IfNone result ((q : ℕ) → IsAbove q (option_map (λ p. p.0) after)
            → IsJoined (arcs_of net) (order_of self.now.reduced self.now.shared.state) i.0 q → ⊥)) }
    {
        let shared = self.shared();
        // With the interface comes that the graph holds together.
        let _face = shared.interface();
        let private = self.next_private(i, after);
        lesser(private, shared.next_final(i, after))
    }

    // The least of the points to which some back sweep has a bound.
    fn next_private(&self, i: PointId, after: Option<PointId>) -> Option<PointId>
        ensures { IsNext (HasPrivate self.now.bounds i.0) (option_map (λ p. p.0) after) (option_map (λ p. p.0) result) }
    {
        let mut least = None;
        for bounds in self.bounds.as_slice() {
            least = lesser(least, bounds.next(i, after));
        }
        least
    }

    /// Equal parts, or OutOfMemory.
    pub fn copy(&self, alloc: Global) -> Result<Parts, OutOfMemory>
        ensures { IfOk result (λ p. p ≡ self.now) }
    {
        let reduced = copy_reduced(alloc, self.reduced.as_slice())?;
        let shared = self.shared.copy(alloc)?;
        let bounds = copy_bounds(alloc, self.bounds.as_slice())?;
        Ok(Parts {
            reduced,
            shared,
            bounds,
        })
    }

    /// The order in which all points are eliminated: the private ones agent by agent, then the shared ones, then the reference point; or OutOfMemory.
    pub fn order(&self, alloc: Global) -> Result<Vec<PointId>, OutOfMemory>
        ensures { IfOk result (λ v. map (λ p. p.0) v.items ≡ order_of self.now.reduced self.now.shared.state) }
    {
        let mut order = Vec::new(alloc);
        for part in self.reduced.as_slice() {
            order.extend_from_slice(part.order())?;
        }
        order.extend_from_slice(self.shared.order())?;
        order.push(PointId(0))?;
        Ok(order)
    }
}

// The lesser of two points, or the one that is there.
fn lesser(p: Option<PointId>, q: Option<PointId>) -> Option<PointId>
    ensures { option_map (λ p. p.0) result ≡ lesser_of (option_map (λ p. p.0) p) (option_map (λ p. p.0) q) }
{
    match (p, q) {
        (None, q) => q,
        (p, None) => p,
        (Some(p), Some(q)) => Some(if q.0 < p.0 { q } else { p }),
    }
}

// With each part's summary comes that it is reduced.
pub(crate) fn know_reduced(reduced: &[Reduced])
    ensures { AreReduced reduced.now }
{
    for part in reduced {
        let _summary = part.summary();
    }
}

// The same parts.
fn copy_reduced(alloc: Global, reduced: &[Reduced]) -> Result<Vec<Reduced>, OutOfMemory>
    ensures { IfOk result (λ v. v.items ≡ reduced.now) }
{
    let mut copies = Vec::with_capacity(alloc, reduced.len())?;
    for part in reduced {
        copies.push(part.copy(alloc)?)?;
    }
    Ok(copies)
}

// The same bounds.
fn copy_bounds(alloc: Global, bounds: &[PrivateBounds]) -> Result<Vec<PrivateBounds>, OutOfMemory>
    ensures { IfOk result (λ v. v.items ≡ bounds.now) }
{
    let mut copies = Vec::with_capacity(alloc, bounds.len())?;
    for swept in bounds {
        copies.push(swept.copy(alloc)?)?;
    }
    Ok(copies)
}
