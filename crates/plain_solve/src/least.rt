//! The least bounds from one point, with the last arc of a least walk to each other point.
//!
//! Labels rise along the arcs turned round, so that the label of a point is its distance from the source
//! with the sign changed. They start at the walk over the reference point, which the horizon's arcs give.
ghost use Rattle.std.specs.Prelude.{◌≡◌, ◌≢◌, ℕ, ◌-◌, ◌*◌, ◌<◌, ◌≤◌, length, map, replicate, pos, neg_ℤ, ◌≤ℤ◌, slice_index, IfOk, IfSome, IsSome, ◌↔◌};
ghost use Rattle.stn_model.specs.Limits.{most_points};
ghost use Rattle.stn_model.specs.Net.{arcs_of, point_count};
ghost use Rattle.stn_model.specs.Schedules.{IsConsistent, time_at};
ghost use Rattle.plain_solve.specs.Graphs.{IsGraph, IsTurned};
ghost use Rattle.plain_solve.specs.LabelFacts.{IsForced, Holds};
ghost use Rattle.plain_solve.specs.LeastWalks.{HasOneEach, ListsOthersOnce, EndsThere, StartsBefore, IsTight, IsLeast};

use crate::graph::{Graph, turned};
use crate::labels::Labels;
use crate::order::arrange;
use crate::relax::{Outcome, relax};
use std::alloc::Global;
use std::marker::Model;
use stn_model::{Network, OutOfMemory, PointId};

/// The least bounds from a source, and a tree of least walks to all other points.
#[derive(Drop)]
pub struct FromPoint {
    source: PointId,
    order: Vec<PointId>,
    last_arcs: Vec<u32>,
    distances: Vec<i128>,
}

impl Model for FromPoint {
    ghost use Rattle.std.specs.Prelude.{◌≡◌, length};
    ghost use Rattle.plain_solve.specs.LeastWalks.{LeastWalks};

    ghost Value = { LeastWalks };

    ghost view = { λ f. record { source = f.source.0; order = f.order.items; last_arcs = f.last_arcs.items; distances = f.distances.items } };

    ghost invariant = { λ f. length f.last_arcs.items ≡ length f.distances.items };
}

impl FromPoint {
    /// Every point other than the source once, each after the point where its last arc starts.
    pub fn order(&self) -> &[PointId]
        ensures { result.now ≡ self.now.order }
    {
        self.order.as_slice()
    }

    /// The number of the last arc of a least walk from the source to that point.
    pub fn last_arc(&self, point: PointId) -> u32
        requires within { point.0 < length self.now.distances }
        requires other { point.0 ≢ self.now.source }
        ensures { result ≡ slice_index self.now.last_arcs point.0 }
    {
        self.last_arcs[point.0 as usize]
    }

    /// The least bound from the source to that point.
    pub fn dist(&self, point: PointId) -> i128
        requires { point.0 < length self.now.distances }
        ensures { result ≡ time_at self.now.distances point.0 }
    {
        self.distances[point.0 as usize]
    }
}

/// The label of a point as far from the source as the horizon.
fn lowest(horizon: i64) -> i64
    requires { pos 0 ≤ℤ horizon }
    ensures { result ≡ neg_ℤ horizon }
{
    -horizon
}

/// The label that many times.
fn repeated(alloc: Global, label: i64, points: u32) -> Result<Vec<i64>, OutOfMemory>
    ensures { IfOk result (λ times. times.items ≡ replicate points label) }
{
    let times = vec![in alloc; label; points as usize]?;
    Ok(times)
}

/// The last arcs of the walks over the reference point: on to each other point, and from the source to it.
fn arcs_over_reference(alloc: Global, points: u32, source: u32) -> Result<Vec<u32>, OutOfMemory>
    requires few { points ≤ most_points }
    requires some { 0 < points }
    requires within { source < points }
    ensures many { IfOk result (λ arcs. length arcs.items ≡ points) }
    ensures zeroth { IfOk result (λ arcs. slice_index arcs.items 0 ≡ 2 * source - 1) }
    ensures each { IfOk result (λ arcs. (p : ℕ) → 0 < p → p < points → slice_index arcs.items p ≡ 2 * p - 2) }
{
    let mut arcs = Vec::with_capacity(alloc, points as usize)?;
    arcs.push((2 * source).saturating_sub(1))?;
    for point in 1..points {
        arcs.push(2 * point - 2)?;
    }
    Ok(arcs)
}

/// The labels of the walks over the reference point: no walk to the source, the arc to the reference
/// point, and the horizon's arc on to each other point.
pub fn over_reference(
    alloc: Global,
    net: &Network,
    graph: &Graph,
    source: PointId,
) -> Result<Labels, OutOfMemory>
    requires graph { IsGraph graph.now }
    requires turned { IsTurned net.now source.0 graph.now }
    ensures { IfOk result (IsForced graph.now) }
{
    let points = net.points();
    let farthest = lowest(graph.top);
    let mut times = repeated(alloc, farthest, points)?;
    times[0] = 0;
    times[source.0 as usize] = 0;
    let last_arcs = arcs_over_reference(alloc, points, source.0)?;
    Ok(Labels {
        times,
        last_arcs,
        raises: 0,
    })
}

/// The labels with the sign changed.
fn distances_of(alloc: Global, graph: &Graph, labels: &Labels) -> Result<Vec<i128>, OutOfMemory>
    requires graph { IsGraph graph.now }
    requires forced { IsForced graph.now labels.now }
    ensures { IfOk result (λ distances. distances.items ≡ map neg_ℤ labels.now.times.items) }
{
    let _root = graph.root;
    let mut distances = Vec::with_capacity(alloc, labels.times.len())?;
    for i in 0..labels.times.len() {
        distances.push(-(labels.times[i] as i128))?;
    }
    Ok(distances)
}

/// What labels at rest say.
pub fn at_rest(
    alloc: Global,
    net: &Network,
    graph: &Graph,
    labels: Labels,
    source: PointId,
) -> Result<FromPoint, OutOfMemory>
    requires within { source.0 < point_count net.now }
    requires graph { IsGraph graph.now }
    requires turned { IsTurned net.now source.0 graph.now }
    requires forced { IsForced graph.now labels }
    requires rest { (n : ℕ) → n < length graph.now.arcs.items → Holds graph.now labels n }
    ensures source { IfOk result (λ found. found.source ≡ source.0) }
    ensures sizes { IfOk result (HasOneEach (point_count net.now)) }
    ensures order { IfOk result (λ found. ListsOthersOnce (point_count net.now) source.0 found.order) }
    ensures ends { IfOk result (EndsThere net.now) }
    ensures starts { IfOk result (StartsBefore net.now) }
    ensures tight { IfOk result (IsTight net.now) }
    ensures least { IfOk result (IsLeast net.now) }
{
    let _points = net.points();
    let order = arrange(alloc, graph, &labels)?;
    let distances = distances_of(alloc, graph, &labels)?;
    Ok(FromPoint {
        source,
        order,
        last_arcs: labels.last_arcs,
        distances,
    })
}

/// The least bounds from a point, with a last arc for each other point; none where the network is inconsistent.
///
/// Distances are whole numbers of the network's unit. OutOfMemory is the only error.
pub fn plain_from(
    alloc: Global,
    net: &Network,
    source: PointId,
) -> Result<Option<FromPoint>, OutOfMemory>
    requires { source.0 < point_count net.now }
    ensures exactly { IfOk result (λ found. IsSome found ↔ IsConsistent (point_count net.now) (arcs_of net.now)) }
    ensures source { IfOk result (λ found. IfSome found (λ walks. walks.source ≡ source.0)) }
    ensures sizes { IfOk result (λ found. IfSome found (HasOneEach (point_count net.now))) }
    ensures order { IfOk result (λ found. IfSome found (λ walks. ListsOthersOnce (point_count net.now) source.0 walks.order)) }
    ensures ends { IfOk result (λ found. IfSome found (EndsThere net.now)) }
    ensures starts { IfOk result (λ found. IfSome found (StartsBefore net.now)) }
    ensures tight { IfOk result (λ found. IfSome found (IsTight net.now)) }
    ensures least { IfOk result (λ found. IfSome found (IsLeast net.now)) }
{
    let graph = turned(alloc, net, source)?;
    let mut labels = over_reference(alloc, net, &graph, source)?;
    match relax(alloc, &graph, &mut labels)? {
        Outcome::AtRest => {
            let found = at_rest(alloc, net, &graph, labels, source)?;
            Ok(Some(found))
        }
        Outcome::Over(_) => Ok(None),
        Outcome::Closes(_) => Ok(None),
    }
}
