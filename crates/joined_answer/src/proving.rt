//! What shows a least bound: a walk that has it, and a schedule that attains it.
ghost use Rattle.std.specs.Prelude.{◌≡◌, ◌++◌, ◌<◌, ℕ, List, length, map, IfOk, OnOk};
ghost use Rattle.stn_model.specs.Joined.{IsJoined as IsJoinedPair};
ghost use Rattle.stn_model.specs.Net.{arcs_of, point_count};
ghost use Rattle.stn_model.specs.Schedules.{IsLeastBound};
ghost use Rattle.stn_model.specs.Valid.{IsNetwork};
ghost use Rattle.stn_model.specs.Walks.{IsWalk, weight};
ghost use Rattle.tri_solve.specs.Edges.{AreBoundsOf};
ghost use Rattle.tri_solve.specs.Trees.{dist_of, AreLeastFrom};
ghost use Rattle.joined_answer.specs.LeastBounds.{AreLeastBounds, GoesOverLeast};
ghost use Rattle.joined_answer.specs.LeastProofs.{IsProof};
ghost use Rattle.joined_answer.specs.Points.{ArePointsOf};

use crate::joined::Joined;
use conflict_cycle::edge_walk;
use std::alloc::Global;
use stn_model::{Network, OutOfMemory, PointId, Schedule};
use stn_walk::{Walk, prune};
use tri_solve::{ChordalBounds, Distances, attain, from_point};

/// What shows that a bound between two points is least.
#[derive(Drop)]
pub struct Proof {
    /// The least bound, in the network's unit of time.
    pub bound: i128,
    /// A walk of the network's arcs from the one point to the other whose bounds add up to it. It passes no point twice.
    pub walk: Walk,
    /// A schedule that satisfies the network and has the two points so far apart.
    pub schedule: Schedule,
}

impl Joined {
    /// What shows the least bound on `time(j) - time(i)`, for any two points of the network, joined or not: the bound, a walk that has it, and the
    /// schedule in which each point is as long after `i` as its least bound from `i`; or OutOfMemory.
    pub fn prove(&self, alloc: Global, i: PointId, j: PointId) -> Result<Proof, OutOfMemory>
        requires from { i.0 < point_count self.now.network }
        requires to { j.0 < point_count self.now.network }
        ensures { IfOk result (λ p. IsProof self.now.network i.0 j.0 p.bound p.walk p.schedule) }
    {
        let net = self.network();
        let bounds = self.chordal(alloc)?;
        let distances = from_point(alloc, net, &bounds, i)?;
        let whole = self.walk_to(alloc, &distances, j)?;
        let proof = shown(alloc, net, &distances, &whole, i, j)?;
        Ok(proof)
    }

    // The order, and the least bounds of the pairs that it joins.
    fn chordal(&self, alloc: Global) -> Result<ChordalBounds, OutOfMemory>
        ensures whole { IfOk result (λ b. AreBoundsOf self.now.network b) }
        ensures least { IfOk result (λ b. AreLeastBounds self.now.network (map (λ p. p.0) self.now.order) b.edges) }
    {
        self.know_points();
        let order = Vec::from_slice(alloc, self.order())?;
        let edges = self.edges(alloc)?;
        let bounds = ChordalBounds::new(alloc, order, edges)?;
        Ok(bounds)
    }

    // With the parts comes that the order has each point once.
    fn know_points(&self)
        ensures network { IsNetwork self.now.network }
        ensures points { ArePointsOf self.now.network (map (λ p. p.0) self.now.order) }
    {
        let _network = self.network();
        let shared = self.parts.shared();
        let _face = shared.interface();
    }

    // A walk that has a distance: the walks of the bounds along its path, one after another.
    fn walk_to(&self, alloc: Global, distances: &Distances, j: PointId) -> Result<Walk, OutOfMemory>
        requires to { j.0 < length distances.now.dists }
        requires over { GoesOverLeast self.now.network (map (λ p. p.0) self.now.order) distances.now }
        ensures walk { IfOk result (λ w. IsWalk (arcs_of self.now.network) distances.now.source j.0 w) }
        ensures weighs { IfOk result (λ w. weight (arcs_of self.now.network) w ≡ dist_of distances.now j.0) }
    {
        let path = distances.path(alloc, j)?;
        let mut arcs = Vec::new(alloc);
        for k in 1..path.len() {
            self.add_walk(alloc, path[k - 1], path[k], &mut arcs)?;
        }
        Ok(Walk::new(arcs))
    }

    // Appends a walk that has the least bound of a joined pair.
    fn add_walk(
        &self,
        alloc: Global,
        i: PointId,
        j: PointId,
        arcs: &mut Vec<u32>,
    ) -> Result<(), OutOfMemory>
        requires joined { IsJoinedPair (arcs_of self.now.network) (map (λ p. p.0) self.now.order) i.0 j.0 }
        ensures { OnOk result ((more : List ℕ) × (arcs.new.items ≡ arcs.old.items ++ more) × IsWalk (arcs_of self.now.network) i.0 j.0 more
            × IsLeastBound (point_count self.now.network) (arcs_of self.now.network) i.0 j.0 (weight (arcs_of self.now.network) more)) }
    {
        let walk = edge_walk(alloc, &self.network, &self.parts, i, j)?;
        arcs.extend_from_slice(walk.arcs())?;
        Ok(())
    }
}

// What distances from a point show of another, by a walk that has its distance.
fn shown(
    alloc: Global,
    net: &Network,
    distances: &Distances,
    whole: &Walk,
    i: PointId,
    j: PointId,
) -> Result<Proof, OutOfMemory>
    requires network { IsNetwork net.now }
    requires from { distances.now.source ≡ i.0 }
    requires to { j.0 < point_count net.now }
    requires least { AreLeastFrom net.now distances.now }
    requires walk { IsWalk (arcs_of net.now) i.0 j.0 whole.now }
    requires weighs { weight (arcs_of net.now) whole.now ≡ dist_of distances.now j.0 }
    ensures { IfOk result (λ p. IsProof net.now i.0 j.0 p.bound p.walk p.schedule) }
{
    let walk = prune(alloc, net, whole, i, j)?;
    let schedule = attain(alloc, distances)?;
    let bound = distances.dist(j);
    Ok(Proof {
        bound,
        walk,
        schedule,
    })
}
