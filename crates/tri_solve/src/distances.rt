//! Distances from one point, the paths that have them, and the schedule that attains them.
ghost use Rattle.std.specs.Prelude.{◌≡◌, ℕ, ◌<◌, pos, ◌-ℤ◌, List, [], ◌∷◌, length, IfOk};
ghost use Rattle.stn_model.specs.Net.{Net, point_count, arcs_of};
ghost use Rattle.stn_model.specs.Valid.{IsNetwork};
ghost use Rattle.stn_model.specs.Schedules.{Satisfies, IsLeastBound, time_at};
ghost use Rattle.tri_solve.specs.declared.edge.Edge.{Edge};
ghost use Rattle.tri_solve.specs.Edges.{ids, AreBoundsOf};
ghost use Rattle.tri_solve.specs.Labels.{IsLabel, AreLabels};
ghost use Rattle.tri_solve.specs.Trees.{dist_of, times_of, IsTree, AreEdges, AreLeastFrom, StartsAt, EndsAt, GoesAlong, HasPath};

use crate::bounds::ChordalBounds;
use crate::label::Label;
use crate::passes::pass_both;
use std::alloc::Global;
use std::marker::Model;
use stn_model::{Network, OutOfMemory, PointId, Schedule};

/// The distance of each point from a source, and a path that has it, in the network's unit of time.
#[derive(Drop)]
pub struct Distances {
    source: PointId,
    labels: Vec<Label>,
}

impl Model for Distances {
    ghost use Rattle.tri_solve.specs.Trees.{Tree, IsTree};

    ghost Value = { Tree };

    ghost use Rattle.tri_solve.specs.Views.{tree_of};

    ghost view = { tree_of };

    ghost invariant = { λ d. IsTree (tree_of d) };
}

impl Distances {
    /// The point from which the distances are.
    pub fn source(&self) -> PointId
        ensures kept { result.0 ≡ self.now.source }
        ensures valid { IsTree self.now }
    {
        self.source
    }

    /// The distance of a point: where the distances are of a network, its least bound from the source.
    pub fn dist(&self, p: PointId) -> i128
        requires { p.0 < length self.now.dists }
        ensures kept { result ≡ dist_of self.now p.0 }
        ensures valid { IsTree self.now }
    {
        self.labels[p.0 as usize].number
    }

    /// A path from the source to a point whose bounds add up to its distance; from the source to itself the source alone.
    pub fn path(&self, alloc: Global, p: PointId) -> Result<Vec<PointId>, OutOfMemory>
        requires { p.0 < length self.now.dists }
        ensures starts { IfOk result (λ path. StartsAt self.now.source (ids path.items)) }
        ensures ends { IfOk result (λ path. EndsAt p.0 (ids path.items)) }
        ensures goes { IfOk result (λ path. (edges : List Edge) → AreEdges edges self.now → GoesAlong edges (ids path.items) (dist_of self.now p.0)) }
        ensures source { IfOk result (λ path. p.0 ≡ self.now.source → ids path.items ≡ p.0 ∷ []) }
    {
        let mut back = Vec::new(alloc);
        let mut at = p;
        'back: while at.0 != self.source.0 {
            back.push(at)?;
            at = self.labels[at.0 as usize].via;
        }
        back.push(at)?;
        back.reverse();
        Ok(back)
    }
}

/// The distances of all points from one: two passes over the order, the first up from the source, the second down over all points.
///
/// The edges are those of the pairs that the order joins in the network, and their bounds are least.
pub fn from_point(
    alloc: Global,
    net: &Network,
    bounds: &ChordalBounds,
    i: PointId,
) -> Result<Distances, OutOfMemory>
    requires within { i.0 < point_count net.now }
    requires bounds { AreBoundsOf net.now bounds.now }
    ensures source { IfOk result (λ d. d.source ≡ i.0) }
    ensures least { IfOk result (λ d. AreLeastFrom net.now d) }
    ensures zero { IfOk result (λ d. dist_of d i.0 ≡ pos 0) }
    ensures satisfies { IfOk result (λ d. Satisfies (point_count net.now) (arcs_of net.now) (times_of d)) }
    ensures edges { IfOk result (λ d. AreEdges bounds.now.edges d) }
    ensures paths { IfOk result (λ d. (p : ℕ) → p < point_count net.now → HasPath bounds.now.edges i.0 p (dist_of d p)) }
{
    let _points = net.points();
    let labels = pass_both(alloc, bounds, i)?;
    let labels = whole(alloc, labels.as_slice())?;
    Ok(Distances { source: i, labels })
}

/// The labels, which are all there.
fn whole(alloc: Global, labels: &[Option<Label>]) -> Result<Vec<Label>, OutOfMemory>
    requires { (p : ℕ) → p < length labels.now → IsLabel labels.now p }
    ensures { IfOk result (λ whole. AreLabels labels.now whole.items) }
{
    let mut whole = Vec::with_capacity(alloc, labels.len())?;
    for label in labels {
        let Some(label) = *label else { unreachable!() };
        whole.push(label)?;
    }
    Ok(whole)
}

/// The schedule that has each point as late after the source as it can be: the distances less that of `z`.
pub fn attain(alloc: Global, d: &Distances) -> Result<Schedule, OutOfMemory>
    ensures times { IfOk result (λ s. s ≡ times_of d.now) }
    ensures satisfies { IfOk result (λ s. (net : Net) → IsNetwork net → AreLeastFrom net d.now → Satisfies (point_count net) (arcs_of net) s) }
    ensures attains { IfOk result (λ s. (net : Net) → IsNetwork net → AreLeastFrom net d.now
        → (p : ℕ) → p < point_count net → IsLeastBound (point_count net) (arcs_of net) d.now.source p (time_at s p -ℤ time_at s d.now.source)) }
{
    let zero = d.labels[0].number;
    let mut times = Vec::with_capacity(alloc, d.labels.len())?;
    for label in &d.labels {
        times.push(label.number - zero)?;
    }
    let Some(schedule) = Schedule::new(times) else {
        unreachable!()
    };
    Ok(schedule)
}
