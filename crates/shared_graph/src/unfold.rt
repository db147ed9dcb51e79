//! The walk that a forward weight is the weight of.
ghost use Rattle.std.specs.Prelude.{◌≡◌, ◌≢◌, ◌<◌, true, Some, is_some, IfOk, length, map};
ghost use Rattle.std.specs.List.{AllByRecursion};
ghost use Rattle.elim_step.specs.Eliminated.{point_at};
ghost use Rattle.elim_step.specs.Unfolds.{Places};
ghost use Rattle.elim_step.specs.declared.leaves.Leaf.{Leaf};
ghost use Rattle.shared_graph.specs.Graphs.{places_in};
ghost use Rattle.shared_graph.specs.Legs.{leg_at, AreTold, IsLeg, LegsLead, legs_weight};
ghost use Rattle.shared_graph.specs.Weights.{forward};

use crate::graph::Graph;
use crate::shared::Shared;
use dist_rows::{Rows, Via};
use elim_step::{Leaf, unfold};
use std::alloc::Global;
use stn_model::{OutOfMemory, PointId};

/// A part of a walk: an external arc by its place, or an arc that an agent published.
#[derive(Clone, Copy, PartialEq, Eq, Debug)]
pub struct Leg {
    /// Where it begins.
    pub from: PointId,
    /// Where it ends.
    pub to: PointId,
    /// Its weight, in the network's unit of time.
    pub weight: i128,
    /// Where the weight comes from; never a point between.
    pub via: Via,
}

// The leg that a leaf is, by points.
fn leg_of(points: &[u32], leaf: Leaf) -> Leg
    requires { (leaf.from < length points.now) × (leaf.to < length points.now) }
    ensures { result ≡ leg_at points.now leaf }
{
    Leg {
        from: PointId(points[leaf.from as usize]),
        to: PointId(points[leaf.to as usize]),
        weight: leaf.weight,
        via: leaf.via,
    }
}

// The legs that leaves are.
fn legs_of(alloc: Global, points: &[u32], leaves: &[Leaf]) -> Result<Vec<Leg>, OutOfMemory>
    requires { AllByRecursion (λ (l : Leaf). (l.from < length points.now) × (l.to < length points.now)) leaves.now }
    ensures { IfOk result (λ legs. legs.items ≡ map (leg_at points.now) leaves.now) }
{
    let mut legs = Vec::with_capacity(alloc, leaves.len())?;
    for &leaf in leaves {
        legs.push_reserved(leg_of(points, leaf));
    }
    Ok(legs)
}

impl<R: Rows> Graph<R> {
    /// The legs of a walk from one point to another, in turn, which together weigh as much as the forward weight, which is there. The work is in
    /// proportion to their number.
    pub fn legs(&self, alloc: Global, i: PointId, j: PointId) -> Result<Vec<Leg>, OutOfMemory>
        requires apart { i.0 ≢ j.0 }
        requires there { is_some (forward self.now.face self.now.state i.0 j.0) ≡ true }
        ensures lead { IfOk result (λ v. LegsLead v.items i.0 j.0) }
        ensures each { IfOk result (λ v. AllByRecursion (IsLeg self.now.face self.now.state) v.items) }
        ensures weight { IfOk result (λ v. Some (legs_weight v.items) ≡ forward self.now.face self.now.state i.0 j.0) }
    {
        let Some(from) = self.place_of(i) else {
            unreachable!()
        };
        let Some(to) = self.place_of(j) else {
            unreachable!()
        };
        let leaves = self.leaves(alloc, from, to)?;
        legs_of(alloc, self.points.as_slice(), leaves.as_slice())
    }

    // The leaves of that walk, by places.
    fn leaves(&self, alloc: Global, from: u32, to: u32) -> Result<Vec<Leaf>, OutOfMemory>
        ghost places: { Places }
        requires points { places.points ≡ places_in self.now.face }
        requires order { places.es ≡ self.now.state.order }
        requires within { (from < length (places_in self.now.face)) × (to < length (places_in self.now.face)) }
        requires apart { from ≢ to }
        requires there { is_some (forward self.now.face self.now.state (point_at (places_in self.now.face) from) (point_at (places_in self.now.face) to)) ≡ true }
        ensures within { IfOk result (λ v. AllByRecursion (λ (l : Leaf). (l.from < length (places_in self.now.face)) × (l.to < length (places_in self.now.face))) v.items) }
        ensures lead { IfOk result (λ v. LegsLead (map (leg_at (places_in self.now.face)) v.items) (point_at (places_in self.now.face) from) (point_at (places_in self.now.face) to)) }
        ensures each { IfOk result (λ v. AllByRecursion (IsLeg self.now.face self.now.state) (map (leg_at (places_in self.now.face)) v.items)) }
        ensures weight { IfOk result (λ v. Some (legs_weight (map (leg_at (places_in self.now.face)) v.items))
            ≡ forward self.now.face self.now.state (point_at (places_in self.now.face) from) (point_at (places_in self.now.face) to)) }
    {
        let leaves = unfold(alloc, &self.rows, from, to)?;
        Ok(leaves)
    }
}

impl Shared {
    /// The legs of a walk from one point to another, in turn, which together weigh as much as the forward weight, which is there: external arcs and
    /// arcs that agents published, each of them one summary. The points differ. The work is in proportion to the number of legs; OutOfMemory where
    /// memory runs out.
    pub fn legs(&self, alloc: Global, i: PointId, j: PointId) -> Result<Vec<Leg>, OutOfMemory>
        requires apart { i.0 ≢ j.0 }
        requires there { is_some (forward self.now.face self.now.state i.0 j.0) ≡ true }
        ensures lead { IfOk result (λ v. LegsLead v.items i.0 j.0) }
        ensures each { IfOk result (λ v. AllByRecursion (IsLeg self.now.face self.now.state) v.items) }
        ensures weight { IfOk result (λ v. Some (legs_weight v.items) ≡ forward self.now.face self.now.state i.0 j.0) }
        ensures told { AreTold self.now.face self.now.state }
    {
        self.graph.legs(alloc, i, j)
    }
}
