//! The earliest schedule of a network, or a negative cycle.
ghost use Rattle.std.specs.Prelude.{◌≡◌, IfOk, ◌↔◌, IsTrue, ◌∷◌};
ghost use Rattle.stn_model.specs.Net.{arcs_of, point_count};
ghost use Rattle.stn_model.specs.Schedules.{IsConsistent};
ghost use Rattle.stn_model.specs.Walks as walks;
ghost use Rattle.plain_solve.specs.Graphs.{IsGraph, IsOnward};
ghost use Rattle.plain_solve.specs.LabelFacts.{IsForced, IsOver};
ghost use Rattle.plain_solve.specs.Answers.{IsEarliest, is_consistent, IfConsistent, IfInconsistent};

use crate::graph::{Graph, onward};
use crate::labels::Labels;
use crate::relax::{Outcome, relax};
use crate::trail::{Trail, follow};
use std::alloc::Global;
use stn_model::{Network, OutOfMemory, Schedule};
use stn_walk::{Walk, prune_cycle};

/// What a network is found to be.
#[derive(Drop)]
pub enum Plain {
    /// With its earliest schedule.
    Consistent(Schedule),
    /// With a negative cycle, from its arc of least number.
    Inconsistent(Walk),
}

/// Each point at 0, by its arc to the reference point.
fn at_zero(alloc: Global, net: &Network, graph: &Graph) -> Result<Labels, OutOfMemory>
    requires graph { IsGraph graph.now }
    requires onward { IsOnward net.now graph.now }
    ensures { IfOk result (IsForced graph.now) }
{
    let points = net.points();
    let times = vec![in alloc; 0i64; points as usize]?;
    let mut last_arcs = Vec::with_capacity(alloc, points as usize)?;
    last_arcs.push(0u32)?;
    for point in 1..points {
        last_arcs.push(2 * point - 1)?;
    }
    Ok(Labels {
        times,
        last_arcs,
        raises: 0,
    })
}

/// The arc of that number before the walk.
fn before(alloc: Global, n: u32, walk: &[u32]) -> Result<Vec<u32>, OutOfMemory>
    ensures { IfOk result (λ longer. longer.items ≡ n ∷ walk.now) }
{
    let mut longer = Vec::with_capacity(alloc, walk.len().saturating_add(1))?;
    longer.push(n)?;
    longer.extend_from_slice(walk)?;
    Ok(longer)
}

/// The closed walk that shows that no schedule keeps an arc that asks for too late a time.
fn refute(
    alloc: Global,
    net: &Network,
    graph: &Graph,
    labels: &Labels,
    n: u32,
) -> Result<Vec<u32>, OutOfMemory>
    requires graph { IsGraph graph.now }
    requires onward { IsOnward net.now graph.now }
    requires forced { IsForced graph.now labels.now }
    requires over { IsOver graph.now labels.now n }
    ensures { IfOk result (λ walk. walks.IsNegativeClosed (arcs_of net.now) walk.items) }
{
    let _points = net.points();
    let arc = graph.arc(n);
    match follow(alloc, graph, labels, arc.to.0)? {
        Trail::Closes(walk) => Ok(walk),
        Trail::Reaches(walk) => {
            let longer = before(alloc, n, walk.as_slice())?;
            if arc.from.0 == 0 {
                return Ok(longer);
            }
            let closed = before(alloc, 2 * arc.from.0 - 2, longer.as_slice())?;
            Ok(closed)
        }
    }
}

/// The labels as a list of times.
fn times_of(alloc: Global, labels: &Labels) -> Result<Vec<i128>, OutOfMemory>
    ensures { IfOk result (λ times. times.items ≡ labels.now.times.items) }
{
    let mut times = Vec::with_capacity(alloc, labels.times.len())?;
    for i in 0..labels.times.len() {
        times.push(labels.times[i] as i128)?;
    }
    Ok(times)
}

/// The labels as a schedule.
fn schedule_of(
    alloc: Global,
    net: &Network,
    graph: &Graph,
    labels: &Labels,
) -> Result<Schedule, OutOfMemory>
    requires graph { IsGraph graph.now }
    requires forced { IsForced graph.now labels.now }
    ensures { IfOk result (λ schedule. schedule ≡ labels.now.times.items) }
{
    let _points = net.points();
    let _root = graph.root;
    let times = times_of(alloc, labels)?;
    let Some(schedule) = Schedule::new(times) else {
        unreachable!()
    };
    Ok(schedule)
}

/// The answer where the network has that negative closed walk.
fn inconsistent(alloc: Global, net: &Network, walk: Vec<u32>) -> Result<Plain, OutOfMemory>
    requires { walks.IsNegativeClosed (arcs_of net.now) walk.items }
    ensures earliest { IfOk result (λ answer. IfConsistent answer (IsEarliest net.now)) }
    ensures cycle { IfOk result (λ answer. IfInconsistent answer (walks.IsNegativeCycle (arcs_of net.now))) }
    ensures normal { IfOk result (λ answer. IfInconsistent answer walks.IsNormal) }
    ensures exactly { IfOk result (λ answer. IsTrue (is_consistent answer) ↔ IsConsistent (point_count net.now) (arcs_of net.now)) }
{
    let cycle = prune_cycle(alloc, net, &Walk::new(walk))?;
    Ok(Plain::Inconsistent(cycle))
}

/// The earliest schedule of a network, or a negative cycle in normal form where no schedule satisfies it.
///
/// Times are whole numbers of the network's unit. OutOfMemory is the only error.
pub fn plain_solve(alloc: Global, net: &Network) -> Result<Plain, OutOfMemory>
    ensures earliest { IfOk result (λ answer. IfConsistent answer (IsEarliest net.now)) }
    ensures cycle { IfOk result (λ answer. IfInconsistent answer (walks.IsNegativeCycle (arcs_of net.now))) }
    ensures normal { IfOk result (λ answer. IfInconsistent answer walks.IsNormal) }
    ensures exactly { IfOk result (λ answer. IsTrue (is_consistent answer) ↔ IsConsistent (point_count net.now) (arcs_of net.now)) }
{
    let graph = onward(alloc, net)?;
    let mut labels = at_zero(alloc, net, &graph)?;
    match relax(alloc, &graph, &mut labels)? {
        Outcome::AtRest => {
            let schedule = schedule_of(alloc, net, &graph, &labels)?;
            Ok(Plain::Consistent(schedule))
        }
        Outcome::Over(n) => {
            let walk = refute(alloc, net, &graph, &labels, n)?;
            let answer = inconsistent(alloc, net, walk)?;
            Ok(answer)
        }
        Outcome::Closes(walk) => {
            let answer = inconsistent(alloc, net, walk)?;
            Ok(answer)
        }
    }
}
