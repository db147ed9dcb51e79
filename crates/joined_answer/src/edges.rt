//! The least bounds of all joined pairs, as a list.
ghost use Rattle.std.specs.Prelude.{◌≡◌, ◌+◌, map, IfOk, OnOk};
ghost use Rattle.stn_model.specs.Joined.{IsJoined as IsJoinedPair};
ghost use Rattle.stn_model.specs.Net.{arcs_of, point_count};
ghost use Rattle.stn_model.specs.Schedules.{IsLeastBound};
ghost use Rattle.joined_answer.specs.LeastBounds.{AreLeastBounds, AreBoundsTo};

use crate::joined::Joined;
use std::alloc::Global;
use stn_model::{OutOfMemory, PointId};
use tri_solve::Edge;

impl Joined {
    /// The least bounds of all pairs of points that the order joins, in both directions, by rising number of the first point and then of the second;
    /// or OutOfMemory.
    pub fn edges(&self, alloc: Global) -> Result<Vec<Edge>, OutOfMemory>
        ensures { IfOk result (λ v. AreLeastBounds self.now.network (map (λ p. p.0) self.now.order) v.items) }
    {
        let mut edges = Vec::new(alloc);
        for i in 0..self.network().points() {
            self.add_edges_from(PointId(i), &mut edges)?;
        }
        Ok(edges)
    }

    // Appends the least bounds from a point, where those of all points below it are there.
    fn add_edges_from(&self, i: PointId, edges: &mut Vec<Edge>) -> Result<(), OutOfMemory>
        requires earlier { AreBoundsTo self.now.network (map (λ p. p.0) self.now.order) i.0 0 edges.old.items }
        ensures whole { OnOk result (AreBoundsTo self.now.network (map (λ p. p.0) self.now.order) (i.0 + 1) 0 edges.new.items) }
    {
        // With the network comes that it is valid.
        let _network = self.network();
        let mut after = None;
        'row: while let Some(j) = self.next(i, after) {
            edges.push(self.edge(i, j))?;
            after = Some(j);
        }
        Ok(())
    }

    // The least bound of a joined pair.
    fn edge(&self, i: PointId, j: PointId) -> Edge
        requires joined { IsJoinedPair (arcs_of self.now.network) (map (λ p. p.0) self.now.order) i.0 j.0 }
        ensures from { result.from ≡ i }
        ensures to { result.to ≡ j }
        ensures least { IsLeastBound (point_count self.now.network) (arcs_of self.now.network) i.0 j.0 result.bound }
    {
        match self.bound(i, j) {
            Some(bound) => Edge {
                from: i,
                to: j,
                bound,
            },
            None => unreachable!(),
        }
    }
}
