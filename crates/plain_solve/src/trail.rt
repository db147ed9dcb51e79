//! Walks along last arcs. A closed one is negative, since stamps cannot fall all the way round.
ghost use Rattle.std.specs.Prelude.{◌≡◌, ◌<◌, IfOk, IfSome};
ghost use Rattle.stn_model.specs.Walks as walks;
ghost use Rattle.plain_solve.specs.Graphs.{IsGraph};
ghost use Rattle.plain_solve.specs.LabelFacts.{IsForced};
ghost use Rattle.plain_solve.specs.TrailFacts.{AnswersTrail};

use crate::graph::Graph;
use crate::labels::Labels;
use std::alloc::Global;
use stn_model::OutOfMemory;

/// What the last arcs from a point lead to: the root, or round a closed walk.
#[derive(Drop)]
pub enum Trail {
    Reaches(Vec<u32>),
    Closes(Vec<u32>),
}

/// Follows the last arcs from a point.
pub fn follow(
    alloc: Global,
    graph: &Graph,
    labels: &Labels,
    from: u32,
) -> Result<Trail, OutOfMemory>
    requires graph { IsGraph graph.now }
    requires forced { IsForced graph.now labels.now }
    requires within { from < graph.now.points }
    ensures { IfOk result (AnswersTrail graph.now labels.now from) }
{
    let mut places = vec![in alloc; 0u32; graph.points as usize]?;
    let mut walk = Vec::new(alloc);
    let mut at = from;
    'follow: loop {
        if at == graph.root {
            return Ok(Trail::Reaches(walk));
        }
        let place = places[at as usize];
        if place != 0 {
            let closed = Vec::from_slice(alloc, &walk[place as usize - 1..])?;
            return Ok(Trail::Closes(closed));
        }
        places[at as usize] = walk.len() as u32 + 1;
        let n = labels.last_arcs[at as usize];
        walk.push(n)?;
        at = graph.arc(n).to.0;
    }
}

/// A point on a closed walk along last arcs, if there is one: each point is coloured by where it was first met from.
fn search(alloc: Global, graph: &Graph, labels: &Labels) -> Result<Option<u32>, OutOfMemory>
    requires graph { IsGraph graph.now }
    requires forced { IsForced graph.now labels.now }
    ensures { IfOk result (λ r. IfSome r (λ p. p < graph.now.points)) }
{
    let points = graph.points;
    let mut colours = vec![in alloc; points; points as usize]?;
    for start in 0..points {
        let mut at = start;
        for _step in 0..points {
            if at == graph.root {
                break;
            }
            let colour = colours[at as usize];
            if colour == start {
                return Ok(Some(at));
            }
            if colour != points {
                break;
            }
            colours[at as usize] = start;
            let arc = graph.arcs[labels.last_arcs[at as usize] as usize];
            at = arc.to.0;
        }
    }
    Ok(None)
}

/// A negative closed walk along last arcs, if there is one.
pub fn closed_walk(
    alloc: Global,
    graph: &Graph,
    labels: &Labels,
) -> Result<Option<Vec<u32>>, OutOfMemory>
    requires graph { IsGraph graph.now }
    requires forced { IsForced graph.now labels.now }
    ensures { IfOk result (λ r. IfSome r (λ walk. walks.IsNegativeClosed graph.now.arcs.items walk.items)) }
{
    let Some(point) = search(alloc, graph, labels)? else {
        return Ok(None);
    };
    match follow(alloc, graph, labels, point)? {
        Trail::Closes(walk) => Ok(Some(walk)),
        Trail::Reaches(_) => Ok(None),
    }
}
