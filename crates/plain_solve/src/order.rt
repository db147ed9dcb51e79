//! An order of points in which each stands after the point that its last arc leads to.
//!
//! At rest last arcs make a tree, so each point can be placed once the point above it is. A point is
//! placed after a climb along last arcs, the highest first; but what is proved rests on this alone: a
//! pass over all points that places none leaves none without a place, since stamps fall upwards.
ghost use Rattle.std.specs.Prelude.{◌≡◌, ℕ, ◌+◌, ◌<◌, ◌++◌, ◌∷◌, [], ◌⊎◌, ◌↔◌, length, set, slice_index, IfOk, OnOk, IsTrue};
ghost use Rattle.stn_model.specs.Limits.{most_points};
ghost use Rattle.plain_solve.specs.Graphs.{IsGraph};
ghost use Rattle.plain_solve.specs.LabelFacts.{IsForced, Holds};
ghost use Rattle.plain_solve.specs.OrderFacts.{IsInOrder, IsTried, Grows, GrowsBy, IsArranged};

use crate::graph::Graph;
use crate::labels::Labels;
use std::alloc::Global;
use stn_model::{OutOfMemory, PointId};

/// Points in order, and for each point its place, counted from 1, or 0.
#[derive(Drop)]
pub struct Arranged {
    pub order: Vec<PointId>,
    pub places: Vec<u32>,
}

/// No point is placed; there is room for each.
fn nothing(alloc: Global, graph: &Graph, labels: &Labels) -> Result<Arranged, OutOfMemory>
    requires { IsGraph graph.now }
    ensures { IfOk result (IsInOrder graph.now labels.now.last_arcs.items) }
{
    let points = graph.points as usize;
    let _raises = labels.raises;
    let order = Vec::with_capacity(alloc, points)?;
    let places = vec![in alloc; 0u32; points]?;
    Ok(Arranged { order, places })
}

/// Whether a point has a place, or is the root.
fn is_placed(graph: &Graph, arranged: &Arranged, point: u32) -> bool
    requires { point < length arranged.now.places.items }
    ensures { IsTrue result ↔ ((point ≡ graph.now.root) ⊎ (0 < slice_index arranged.now.places.items point)) }
{
    point == graph.root || arranged.places[point as usize] > 0
}

/// Gives a point the next place.
fn put(arranged: &mut Arranged, point: u32) -> Result<(), OutOfMemory>
    requires within { point < length arranged.old.places.items }
    requires few { length arranged.old.order.items < most_points }
    ensures order { OnOk result (arranged.new.order.items ≡ arranged.old.order.items ++ record { 0 = point } ∷ []) }
    ensures places { OnOk result (arranged.new.places.items ≡ set arranged.old.places.items point (length arranged.old.order.items + 1)) }
{
    let place = arranged.order.len() as u32 + 1;
    arranged.order.push(PointId(point))?;
    arranged.places[point as usize] = place;
    Ok(())
}

/// Gives a point the next place, if it has none and the point that its last arc leads to has one.
fn place(
    graph: &Graph,
    labels: &Labels,
    arranged: &mut Arranged,
    point: u32,
) -> Result<(), OutOfMemory>
    requires graph { IsGraph graph.now }
    requires forced { IsForced graph.now labels.now }
    requires order { IsInOrder graph.now labels.now.last_arcs.items arranged.old }
    ensures { OnOk result (GrowsBy graph.now labels.now.last_arcs.items point arranged.old arranged.new) }
{
    if point >= graph.points {
        return Ok(());
    }
    let has_place = is_placed(graph, arranged, point);
    if has_place {
        return Ok(());
    }
    let n = labels.last_arcs[point as usize];
    let arc = graph.arc(n);
    let is_next = is_placed(graph, arranged, arc.to.0);
    if is_next {
        put(arranged, point)?;
        return Ok(());
    }
    Ok(())
}

/// The points from one upwards along last arcs, up to the first that has a place.
fn climb(
    graph: &Graph,
    labels: &Labels,
    arranged: &Arranged,
    path: &mut Vec<u32>,
    point: u32,
) -> Result<(), OutOfMemory>
    requires graph { IsGraph graph.now }
    requires forced { IsForced graph.now labels.now }
    requires order { IsInOrder graph.now labels.now.last_arcs.items arranged.now }
    requires within { point < graph.now.points }
{
    path.clear();
    let mut at = point;
    for _step in 0..graph.points {
        if is_placed(graph, arranged, at) {
            break;
        }
        path.push(at)?;
        at = graph.arc(labels.last_arcs[at as usize]).to.0;
    }
    Ok(())
}

/// Places the points of a path, the last first.
fn place_path(
    graph: &Graph,
    labels: &Labels,
    arranged: &mut Arranged,
    path: &[u32],
) -> Result<(), OutOfMemory>
    requires graph { IsGraph graph.now }
    requires forced { IsForced graph.now labels.now }
    requires order { IsInOrder graph.now labels.now.last_arcs.items arranged.old }
    ensures { OnOk result (Grows graph.now labels.now.last_arcs.items arranged.old arranged.new) }
{
    for k in 0..path.len() {
        let point = path[path.len() - 1 - k];
        place(graph, labels, arranged, point)?;
    }
    Ok(())
}

/// Places a point, and before it those that its last arcs lead to.
fn place_from_above(
    graph: &Graph,
    labels: &Labels,
    arranged: &mut Arranged,
    path: &mut Vec<u32>,
    point: u32,
) -> Result<(), OutOfMemory>
    requires graph { IsGraph graph.now }
    requires forced { IsForced graph.now labels.now }
    requires order { IsInOrder graph.now labels.now.last_arcs.items arranged.old }
    requires within { point < graph.now.points }
    ensures { OnOk result (GrowsBy graph.now labels.now.last_arcs.items point arranged.old arranged.new) }
{
    climb(graph, labels, arranged, path, point)?;
    place_path(graph, labels, arranged, path.as_slice())?;
    place(graph, labels, arranged, point)?;
    Ok(())
}

/// Tries to place every point.
fn place_all(
    graph: &Graph,
    labels: &Labels,
    arranged: &mut Arranged,
    path: &mut Vec<u32>,
) -> Result<(), OutOfMemory>
    requires graph { IsGraph graph.now }
    requires forced { IsForced graph.now labels.now }
    requires order { IsInOrder graph.now labels.now.last_arcs.items arranged.old }
    ensures grows { OnOk result (Grows graph.now labels.now.last_arcs.items arranged.old arranged.new) }
    ensures tried { OnOk result (length arranged.old.order.items ≡ length arranged.new.order.items
        → (p : ℕ) → p < graph.now.points → IsTried graph.now labels.now.last_arcs.items arranged.new.places.items p) }
{
    for point in 0..graph.points {
        place_from_above(graph, labels, arranged, path, point)?;
    }
    Ok(())
}

/// Every point other than the root, each after the point that its last arc leads to, where every arc holds.
pub fn arrange(alloc: Global, graph: &Graph, labels: &Labels) -> Result<Vec<PointId>, OutOfMemory>
    requires graph { IsGraph graph.now }
    requires forced { IsForced graph.now labels.now }
    requires rest { (n : ℕ) → n < length graph.now.arcs.items → Holds graph.now labels.now n }
    ensures { IfOk result (λ order. IsArranged graph.now labels.now.last_arcs.items order.items) }
{
    let mut arranged = nothing(alloc, graph, labels)?;
    let mut path = Vec::with_capacity(alloc, graph.points as usize)?;
    'passes: loop {
        let before = arranged.order.len();
        place_all(graph, labels, &mut arranged, &mut path)?;
        if arranged.order.len() == before {
            break;
        }
    }
    Ok(arranged.order)
}
