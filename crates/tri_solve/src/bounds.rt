//! Least bounds of the joined pairs of an elimination order.
ghost use Rattle.std.specs.Prelude.{◌≡◌, ◌⊎◌, ℕ, ◌<◌, ◌-◌, length, slice_index, IfOk};
ghost use Rattle.stn_model.specs.Limits.{greatest_time};
ghost use Rattle.stn_walk.specs.Eliminations.{lesser};
ghost use Rattle.tri_solve.specs.Edges.{ids, is_edge, bound_between, AreBounds};
ghost use Rattle.tri_solve.specs.Passes.{least_over, by_way_of};
ghost use Rattle.tri_solve.specs.Layouts.{turned, side, froms_of};
ghost use Rattle.tri_solve.specs.Labels.{number_of, label_at, number_at, IsLightLabel, Offered};

use crate::edge::Edge;
use crate::label::{Label, lesser, offer};
use crate::layout::lay_out;
use std::alloc::Global;
use std::marker::Model;
use stn_model::{OutOfMemory, PointId};

/// An elimination order, and the least bounds of the pairs of points that it joins, in both directions.
///
/// The order has each point below its length once, with `z` last. The edges lead between different points of it, no two of them between the
/// same two in the same direction, and their bounds have magnitude at most 2^53.
#[derive(Drop)]
pub struct ChordalBounds {
    order: Vec<PointId>,
    edges: Vec<Edge>,
    /// For each point, twice: how many edges there are up to the last one down to it, and to the last one up to it; 0 where there is none.
    lasts: Vec<usize>,
    /// For each edge the same of the one before it that ends at the same point and leads the same way.
    befores: Vec<usize>,
}

impl Model for ChordalBounds {
    ghost use Rattle.tri_solve.specs.Edges.{Bounds};

    ghost Value = { Bounds };

    ghost use Rattle.tri_solve.specs.Views.{bounds_of, IsWhole};

    ghost view = { bounds_of };

    ghost invariant = { IsWhole };
}

impl ChordalBounds {
    /// The bounds of these edges, laid out so that the edges to each point are found in time linear in their number.
    pub fn new(
        alloc: Global,
        order: Vec<PointId>,
        edges: Vec<Edge>,
    ) -> Result<ChordalBounds, OutOfMemory>
        requires { AreBounds (record { order = ids order.items; edges = edges.items }) }
        ensures seen { IfOk result (λ bounds. bounds ≡ record { order = ids order.items; edges = edges.items }) }
    {
        let (lasts, befores) = lay_out(alloc, order.as_slice(), edges.as_slice())?;
        Ok(ChordalBounds {
            order,
            edges,
            lasts,
            befores,
        })
    }

    /// How many points the order has.
    pub fn points(&self) -> usize
        ensures count { result ≡ length self.now.order }
        ensures valid { AreBounds self.now }
    {
        self.order.len()
    }

    /// The point of a turn of a pass, up the order or down.
    pub(crate) fn point_at(&self, turn: usize, up: bool) -> PointId
        requires { turn < length self.now.order }
        ensures { result.0 ≡ slice_index (turned up self.now.order) (length self.now.order - 1 - turn) }
    {
        if up {
            return self.order[turn];
        }
        self.order[self.order.len() - 1 - turn]
    }

    /// The lesser of the label that a point has and of those by way of its edges from earlier points (up), or from later ones.
    pub(crate) fn reached(&self, labels: &[Option<Label>], p: PointId, up: bool) -> Option<Label>
        requires within { p.0 < length self.now.order }
        requires points { length labels.now ≡ length self.now.order }
        requires range { (q : ℕ) → IsLightLabel greatest_time (label_at labels.now q) }
        ensures number { number_of result ≡ lesser (number_at labels.now p.0)
            (least_over (by_way_of (is_edge self.now.edges) (bound_between self.now.edges) (number_at labels.now) p.0)
            (froms_of self.now.order self.now.edges (side p.0 up) (length self.now.edges))) }
        ensures via { (result ≡ label_at labels.now p.0) ⊎ Offered self.now.order self.now.edges labels.now p.0 up result }
    {
        let mut best = labels[p.0 as usize];
        let mut at = self.lasts[2 * p.0 as usize + usize::from(up)];
        'edges: while at != 0 {
            let edge = self.edges[at - 1];
            best = lesser(best, offer(labels[edge.from.0 as usize], edge));
            at = self.befores[at - 1];
        }
        best
    }
}
