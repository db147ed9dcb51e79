//! The points in the order of their distances from the root, each looked at once (Dijkstra 1959).
//!
//! Distances are counted along a schedule, its times being the points' heights: so no arc is below 0
//! (Johnson 1977), and the nearest point that waits will not come nearer. Nothing that is proved of the
//! answer rests on this order: labels are at rest only after one look at every arc.
ghost use Rattle.std.specs.Prelude.{◌≡◌, ℕ, ◌<◌, ◌≤◌, length, IfOk, IfSome, MatchOption, IsTrue, ◌↔◌};
ghost use Rattle.plain_solve.specs.Graphs.{IsGraph};
ghost use Rattle.plain_solve.specs.LabelFacts.{IsForced, IsOver, Holds};
ghost use Rattle.plain_solve.specs.QueueFacts.{IsLayout};

use crate::graph::Graph;
use crate::labels::{Labels, first_broken, raise};
use crate::layout::{Layout, scan};
use std::alloc::Global;
use std::collections::BinaryHeap;
use stn_model::OutOfMemory;

/// The points that wait, the nearest on top; which were looked at; and those that the last look raised.
#[derive(Drop)]
struct Waiting {
    heap: BinaryHeap<(i64, u32)>,
    seen: Vec<bool>,
    raised: Vec<u32>,
}

/// How near a point is, counted along the heights: more is nearer.
fn nearness(labels: &Labels, heights: &[i64], point: u32) -> i64 {
    let place = point as usize;
    if place < labels.times.len() && place < heights.len() {
        return labels.times[place].saturating_add(heights[place]);
    }
    0
}

/// Every point waits.
fn all_wait(
    alloc: Global,
    points: u32,
    labels: &Labels,
    heights: &[i64],
) -> Result<Waiting, OutOfMemory> {
    let mut heap = BinaryHeap::with_capacity(alloc, points as usize)?;
    for point in 0..points {
        heap.push((nearness(labels, heights, point), point))?;
    }
    let seen = vec![in alloc; false; points as usize]?;
    let raised = Vec::with_capacity(alloc, points as usize)?;
    Ok(Waiting { heap, seen, raised })
}

impl Waiting {
    /// Whether the point was not looked at yet. From now on it was.
    fn takes(&mut self, graph: &Graph, point: u32) -> bool
        ensures { IsTrue result → point < graph.now.points }
    {
        let place = point as usize;
        if point >= graph.points || place >= self.seen.len() || self.seen[place] {
            return false;
        }
        self.seen[place] = true;
        true
    }

    /// The points that the last look raised wait, as near as they are now.
    fn add_raised(&mut self, labels: &Labels, heights: &[i64]) -> Result<(), OutOfMemory> {
        for point in self.raised.as_slice() {
            self.heap.push((nearness(labels, heights, *point), *point))?;
        }
        self.raised.clear();
        Ok(())
    }
}

/// Looks at the arcs that end at a point, if it was not looked at yet.
fn visit(
    graph: &Graph,
    layout: &Layout,
    labels: &mut Labels,
    heights: &[i64],
    waiting: &mut Waiting,
    point: u32,
) -> Result<Option<u32>, OutOfMemory>
    requires graph { IsGraph graph.now }
    requires layout { IsLayout graph.now layout.now }
    requires forced { IsForced graph.now labels.old }
    ensures forced { IsForced graph.now labels.new }
    ensures more { labels.old.raises ≤ labels.new.raises }
    ensures over { IfOk result (λ r. IfSome r (IsOver graph.now labels.new)) }
{
    if !waiting.takes(graph, point) {
        return Ok(None);
    }
    let over = scan(graph, layout, labels, &mut waiting.raised, point)?;
    waiting.add_raised(labels, heights)?;
    Ok(over)
}

/// Looks at every point once, the nearest first.
///
/// A label rises at most once by each arc, so that no more points come to wait than there are points and arcs.
fn visit_all(
    alloc: Global,
    graph: &Graph,
    layout: &Layout,
    labels: &mut Labels,
    heights: &[i64],
) -> Result<Option<u32>, OutOfMemory>
    requires graph { IsGraph graph.now }
    requires layout { IsLayout graph.now layout.now }
    requires forced { IsForced graph.now labels.old }
    ensures forced { IsForced graph.now labels.new }
    ensures more { labels.old.raises ≤ labels.new.raises }
    ensures over { IfOk result (λ r. IfSome r (IsOver graph.now labels.new)) }
{
    let mut waiting = all_wait(alloc, graph.points, labels, heights)?;
    for _turn in 0..graph.arcs.len().saturating_add(graph.points as usize) {
        let Some((_, point)) = waiting.heap.pop() else {
            break;
        };
        if let Some(over) = visit(graph, layout, labels, heights, &mut waiting, point)? {
            return Ok(Some(over));
        }
    }
    Ok(None)
}

/// Raises labels until every arc holds, or answers an arc that asks for too high a label.
///
/// The time is that of two looks at every arc where the heights are a schedule of the network, and each point's wait.
pub fn settle(
    alloc: Global,
    graph: &Graph,
    layout: &Layout,
    labels: &mut Labels,
    heights: &[i64],
) -> Result<Option<u32>, OutOfMemory>
    requires graph { IsGraph graph.now }
    requires layout { IsLayout graph.now layout.now }
    requires forced { IsForced graph.now labels.old }
    ensures forced { IsForced graph.now labels.new }
    ensures answer { IfOk result (λ r. MatchOption r ((n : ℕ) → n < length graph.now.arcs.items → Holds graph.now labels.new n) (IsOver graph.now labels.new)) }
{
    'looks: loop {
        if let Some(over) = visit_all(alloc, graph, layout, labels, heights)? {
            return Ok(Some(over));
        }
        let Some(n) = first_broken(graph, labels) else {
            return Ok(None);
        };
        if let Some(over) = raise(graph, labels, n) {
            return Ok(Some(over));
        }
    }
}
