//! Relaxing: labels rise along the arcs until every arc holds, or none of the schedules can be met.
ghost use Rattle.std.specs.Prelude.{◌≡◌, ◌<◌, ◌≤◌, IfOk, IfSome, MatchOption};
ghost use Rattle.stn_model.specs.Walks as walks;
ghost use Rattle.plain_solve.specs.Graphs.{IsGraph};
ghost use Rattle.plain_solve.specs.LabelFacts.{IsForced};
ghost use Rattle.plain_solve.specs.QueueFacts.{IsLayout, IsQueue, AnswersOutcome};

use crate::graph::Graph;
use crate::labels::{Labels, first_broken, raise};
use crate::layout::{Layout, lay_out};
use crate::queue::{Queue, alone, everywhere, pass};
use crate::trail::closed_walk;
use std::alloc::Global;
use stn_model::OutOfMemory;

/// What relaxing comes to.
#[derive(Drop)]
pub enum Outcome {
    /// Every arc holds.
    AtRest,
    /// The arc of that number asks for too high a label.
    Over(u32),
    /// Last arcs lead round this negative closed walk.
    Closes(Vec<u32>),
}

/// A negative closed walk along last arcs, if enough was raised since the last search, and there is one.
fn seek(
    alloc: Global,
    graph: &Graph,
    labels: &Labels,
    queue: &mut Queue,
) -> Result<Option<Vec<u32>>, OutOfMemory>
    requires graph { IsGraph graph.now }
    requires forced { IsForced graph.now labels.now }
    requires queue { IsQueue graph.now queue.old }
    ensures queue { IsQueue graph.now queue.new }
    ensures closes { IfOk result (λ r. IfSome r (λ walk. walks.IsNegativeClosed graph.now.arcs.items walk.items)) }
{
    if labels.raises < queue.searched.saturating_add(graph.points as u64) {
        return Ok(None);
    }
    queue.searched = labels.raises;
    let found = closed_walk(alloc, graph, labels)?;
    Ok(found)
}

/// A look at every arc. This alone shows that all arcs hold.
fn rest(
    graph: &Graph,
    labels: &mut Labels,
    queue: &mut Queue,
) -> Result<Option<Outcome>, OutOfMemory>
    requires graph { IsGraph graph.now }
    requires forced { IsForced graph.now labels.old }
    requires queue { IsQueue graph.now queue.old }
    ensures forced { IsForced graph.now labels.new }
    ensures queue { IsQueue graph.now queue.new }
    ensures answer { IfOk result (λ r. MatchOption r (labels.old.raises < labels.new.raises) (AnswersOutcome graph.now labels.new)) }
{
    let Some(n) = first_broken(graph, labels) else {
        return Ok(Some(Outcome::AtRest));
    };
    if let Some(over) = raise(graph, labels, n) {
        return Ok(Some(Outcome::Over(over)));
    }
    let point = graph.arc(n).from.0;
    alone(graph, queue, point)?;
    Ok(None)
}

/// A pass, and where it raised nothing a look at every arc. None means that a label was raised.
fn run_round(
    alloc: Global,
    graph: &Graph,
    layout: &Layout,
    labels: &mut Labels,
    queue: &mut Queue,
) -> Result<Option<Outcome>, OutOfMemory>
    requires graph { IsGraph graph.now }
    requires layout { IsLayout graph.now layout.now }
    requires forced { IsForced graph.now labels.old }
    requires queue { IsQueue graph.now queue.old }
    ensures forced { IsForced graph.now labels.new }
    ensures queue { IsQueue graph.now queue.new }
    ensures answer { IfOk result (λ r. MatchOption r (labels.old.raises < labels.new.raises) (AnswersOutcome graph.now labels.new)) }
{
    let earlier = labels.raises;
    if let Some(over) = pass(alloc, graph, layout, labels, queue)? {
        return Ok(Some(Outcome::Over(over)));
    }
    if labels.raises == earlier {
        let found = rest(graph, labels, queue)?;
        return Ok(found);
    }
    if let Some(walk) = seek(alloc, graph, labels, queue)? {
        return Ok(Some(Outcome::Closes(walk)));
    }
    Ok(None)
}

/// Raises labels until every arc holds, an arc asks for too high a label, or last arcs close a walk.
///
/// Each round takes time of the order of the arcs; there are few rounds where most arcs hold.
pub fn relax(alloc: Global, graph: &Graph, labels: &mut Labels) -> Result<Outcome, OutOfMemory>
    requires graph { IsGraph graph.now }
    requires forced { IsForced graph.now labels.old }
    ensures forced { IsForced graph.now labels.new }
    ensures answer { IfOk result (AnswersOutcome graph.now labels.new) }
{
    let layout = lay_out(alloc, graph)?;
    let mut queue = everywhere(alloc, graph)?;
    'rounds: loop {
        if let Some(outcome) = run_round(alloc, graph, &layout, labels, &mut queue)? {
            return Ok(outcome);
        }
    }
}
