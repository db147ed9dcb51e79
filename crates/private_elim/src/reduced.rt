//! A local problem whose private points are all taken: its summary, the weights between its points, and their walks.
ghost use Rattle.std.specs.Prelude.{◌≡◌, ◌≢◌, ℤ, ◌<◌, ◌*◌, ◌-◌, [], ◌∷◌, true, false, ◌&&◌, Some, None, IfOk, is_some, length, reverse, map};
ghost use Rattle.stn_model.specs.Limits.{most_points};
ghost use Rattle.stn_model.specs.Net.{arcs_of};
ghost use Rattle.stn_model.specs.Walks as walks;
ghost use Rattle.stn_model.specs.ArcWalks.{NoNegative};
ghost use Rattle.stn_model.specs.Inner.{IsInnerWeight};
ghost use Rattle.stn_model.specs.Summaries.{IsSummary};
ghost use Rattle.stn_walk.specs.Eliminations.{is_in, before_both};
ghost use Rattle.private_elim.specs.Locals.{arcs_in, is_point_of, is_private_in, horizon_in};
ghost use Rattle.elim_step.specs.Summaries.{entry_of};
ghost use Rattle.private_elim.specs.Parts.{OfPart};
ghost use Rattle.private_elim.specs.Taken.{NoneFails};
ghost use Rattle.private_elim.specs.ReducedViews.{weight_between, IsWeightBetween, IsReduced};
ghost use Rattle.private_elim.specs.Reductions.{OfNetwork, AreOwn};
ghost use Rattle.private_elim.specs.SummaryRows.{is_pair_at, forward_at, is_over};

use crate::elimination::SparseElimination;
use crate::numbers::numbers_of;
use crate::summarise::is_pair;
use elim_step::Summary;
use std::alloc::Global;
use std::marker::Model;
use stn_model::{OutOfMemory, PointId};
use stn_walk::Walk;

/// A local problem whose private points are all taken: each of them stands once in the order, and the summary is the agent's. With the
/// weights between its points through private ones.
#[derive(Drop)]
pub struct Reduced {
    pub(crate) elimination: SparseElimination,
    pub(crate) summary: Summary,
}

impl Model for Reduced {
    ghost use Rattle.private_elim.specs.ReducedViews.{ReducedView, IsReduced};

    ghost Value = { ReducedView };

    ghost use Rattle.private_elim.specs.ReducedInside.{reduced_view};

    ghost view = { reduced_view };

    ghost invariant = { λ r. IsReduced r.elimination.local r.elimination.order r.summary };
}

impl Reduced {
    /// The private points, in the order in which they were taken. None of them failed.
    pub fn order(&self) -> &[PointId]
        ensures order { map (λ p. p.0) result.now ≡ self.now.order }
        ensures clear { NoneFails self.now.local (reverse self.now.order) }
    {
        self.elimination.order()
    }

    /// What the agent tells the others: for each ordered pair of different points that others see (the reference point and its shared
    /// points) and that its own arcs join through private points alone, the least weight of walks of own arcs through those, or the
    /// horizon where that is less or there is no such walk. It is the agent's in every network in which it has this part, whatever the
    /// numbers of the arcs there. No closed walk of own arcs through private points is negative.
    pub fn summary(&self) -> &Summary
        ensures value { result.now ≡ self.now.summary }
        ensures reduced { IsReduced self.now.local self.now.order self.now.summary }
        ensures part { OfPart self.now.local (λ net. IsSummary net self.now.local.agent (map entry_of self.now.summary)) }
        ensures none_below { NoNegative (is_private_in self.now.local) (arcs_in self.now.local) }
    {
        &self.summary
    }

    /// The least weight of walks of own arcs from one point to another whose inner points are private and come before both in the
    /// order; shared points and the reference point come after all private ones. None exactly where there is no such walk, the
    /// points are equal, or one is not of the local problem. Takes no memory.
    pub fn forward(&self, i: PointId, j: PointId) -> Option<i128>
        ensures same { i.0 ≡ j.0 → result ≡ None }
        ensures strange_start { is_point_of self.now.local i.0 ≡ false → result ≡ None }
        ensures strange_end { is_point_of self.now.local j.0 ≡ false → result ≡ None }
        ensures least { i.0 ≢ j.0 → IsInnerWeight (is_in (before_both (reverse self.now.order) i.0 j.0)) (arcs_in self.now.local) i.0 j.0 result }
    {
        // With the size comes that no closed walk through taken points is negative.
        let _size = self.elimination.size();
        let local = self.elimination.local();
        let from = local.place_of(i)?;
        let to = local.place_of(j)?;
        self.elimination.weight(from, to)
    }

    /// A walk of own arcs, by their numbers in the network, for a pair that has an entry of the summary or a
    /// [`forward`](Reduced::forward) weight: its weight is that of the entry where the pair has one, and else the forward
    /// weight. OutOfMemory where memory runs out.
    pub fn walk(&self, alloc: Global, i: PointId, j: PointId) -> Result<Walk, OutOfMemory>
        requires { (w : ℤ) × IsWeightBetween self.now i.0 j.0 w }
        ensures walk { IfOk result (λ w. OfNetwork self.now.local (λ net. walks.IsWalk (arcs_of net) i.0 j.0 w)) }
        ensures own { IfOk result (λ w. OfNetwork self.now.local (λ net. AreOwn net self.now.local.agent w)) }
        ensures weight { IfOk result (λ w. OfNetwork self.now.local (λ net. IsWeightBetween self.now i.0 j.0 (walks.weight (arcs_of net) w))) }
    {
        // As in `forward`: no closed walk through taken points is negative.
        let _size = self.elimination.size();
        self.walk_between(alloc, i, j)
    }

    // The same, where the forward weight is what elimination gives.
    fn walk_between(&self, alloc: Global, i: PointId, j: PointId) -> Result<Walk, OutOfMemory>
        requires { is_some (weight_between self.now i.0 j.0) ≡ true }
        ensures walk { IfOk result (λ w. OfNetwork self.now.local (λ net. walks.IsWalk (arcs_of net) i.0 j.0 w)) }
        ensures own { IfOk result (λ w. OfNetwork self.now.local (λ net. AreOwn net self.now.local.agent w)) }
        ensures weight { IfOk result (λ w. OfNetwork self.now.local (λ net. Some (walks.weight (arcs_of net) w) ≡ weight_between self.now i.0 j.0)) }
    {
        // As in `forward`: no closed walk through taken points is negative.
        let _size = self.elimination.size();
        let local = self.elimination.local();
        let Some(from) = local.place_of(i) else {
            unreachable!()
        };
        let Some(to) = local.place_of(j) else {
            unreachable!()
        };
        if is_detour(&self.elimination, from, to) {
            let numbers = detour(alloc, i, j)?;
            return Ok(Walk::new(numbers));
        }
        let places = self.elimination.unfold(alloc, from, to)?;
        let numbers = numbers_of(alloc, local, places.as_slice())?;
        Ok(Walk::new(numbers))
    }

    /// An equal reduced local problem, or OutOfMemory.
    pub fn copy(&self, alloc: Global) -> Result<Reduced, OutOfMemory>
        ensures { IfOk result (λ r. r ≡ self.now) }
    {
        let elimination = self.elimination.copy(alloc)?;
        let summary = self.summary.copy(alloc)?;
        Ok(Reduced {
            elimination,
            summary,
        })
    }
}

// Whether the walk of the pair's entry goes through the reference point: the pair has an entry, and no forward weight of at most the
// horizon.
fn is_detour(elimination: &SparseElimination, from: u32, to: u32) -> bool
    requires within { (from < length elimination.now.local.points) × (to < length elimination.now.local.points) }
    requires apart { from ≢ to }
    ensures { result ≡ (is_pair_at elimination.now from to && is_over (horizon_in elimination.now.local) (forward_at elimination.now from to)) }
{
    is_pair(elimination, from, to)
        && is_over(elimination.local().horizon(), elimination.weight(from, to))
}

// Whether a weight is missing, or above the horizon.
fn is_over(horizon: i64, weight: Option<i128>) -> bool
    ensures { result ≡ is_over horizon weight }
{
    match weight {
        None => true,
        Some(weight) => i128::from(horizon) < weight,
    }
}

// The numbers of the arc from a point to the reference point, and of the arc from there to another point: their bounds are 0 and the
// horizon.
fn detour(alloc: Global, i: PointId, j: PointId) -> Result<Vec<u32>, OutOfMemory>
    requires from { (0 < i.0) × (i.0 < most_points) }
    requires to { (0 < j.0) × (j.0 < most_points) }
    ensures { IfOk result (λ numbers. numbers.items ≡ (2 * i.0 - 1) ∷ (2 * j.0 - 2) ∷ []) }
{
    let mut numbers = Vec::with_capacity(alloc, 2)?;
    numbers.push_reserved(2 * i.0 - 1);
    numbers.push_reserved(2 * j.0 - 2);
    Ok(numbers)
}
