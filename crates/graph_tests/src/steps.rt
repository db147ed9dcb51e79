//! Steps that are tried: each is made exactly where it is legal.
ghost use Rattle.std.specs.Prelude.{◌≡◌, IfOk, OnErr};
ghost use Rattle.graph_tests.specs.Tries.{IsTried};

use elim_step::{Steps, Summary};
use shared_graph::{By, Entry, Event, Illegal, Shared};
use std::alloc::Global;
use std::sync::ledger::Ledger;
use stn_model::{AgentId, OutOfMemory, PointId};

/// What came of a step that was tried.
#[derive(Clone, Copy, PartialEq, Eq, Debug)]
pub enum Tried {
    /// It was legal, and is made; an elimination that was refused for a negative sum has entered the stop.
    Made,
    /// It was not, for this cause, or the summary does not fit.
    Refused(Option<Illegal>),
}

// Tries a publish.
fn try_publish(
    alloc: Global,
    shared: &mut Shared,
    by: By,
    agent: AgentId,
    summary: &Summary,
) -> Result<Tried, OutOfMemory>
    ensures tried { IfOk result (IsTried shared.old shared.new) }
    ensures err { OnErr result (shared.new ≡ shared.old) }
{
    let event = Event::Publish { agent };
    if let Some(cause) = shared.may(&Entry { by, event }) {
        return Ok(Tried::Refused(Some(cause)));
    }
    if !shared.interface().fits(agent, summary) {
        return Ok(Tried::Refused(None));
    }
    shared.publish(alloc, by, agent, summary)?;
    Ok(Tried::Made)
}

// Tries an elimination.
fn try_eliminate<L: Ledger>(
    alloc: Global,
    shared: &mut Shared,
    by: By,
    point: PointId,
    steps: &mut Steps<L>,
) -> Result<Tried, OutOfMemory>
    ensures tried { IfOk result (IsTried shared.old shared.new) }
    ensures err { OnErr result (shared.new ≡ shared.old) }
{
    let event = Event::Eliminate { point };
    match shared.may(&Entry { by, event }) {
        None | Some(Illegal::Negative(_)) => {}
        Some(cause) => return Ok(Tried::Refused(Some(cause))),
    }
    shared.eliminate(alloc, by, point, steps)?;
    Ok(Tried::Made)
}

// Tries a revisit.
fn try_revisit<L: Ledger>(
    shared: &mut Shared,
    by: By,
    point: PointId,
    steps: &mut Steps<L>,
) -> Tried
    ensures { IsTried shared.old shared.new result }
{
    let event = Event::Revisit { point };
    if let Some(cause) = shared.may(&Entry { by, event }) {
        return Tried::Refused(Some(cause));
    }
    shared.revisit(by, point, steps);
    Tried::Made
}

/// Tries a publish, an elimination or a revisit; no other step is made. The summaries are by agent.
pub fn try_step<L: Ledger>(
    alloc: Global,
    shared: &mut Shared,
    summaries: &[Summary],
    entry: Entry,
    steps: &mut Steps<L>,
) -> Result<Tried, OutOfMemory>
    ensures tried { IfOk result (IsTried shared.old shared.new) }
    ensures err { OnErr result (shared.new ≡ shared.old) }
{
    match entry.event {
        Event::Publish { agent } => {
            let Some(summary) = summaries.get(agent.0 as usize) else {
                return Ok(Tried::Refused(None));
            };
            try_publish(alloc, shared, entry.by, agent, summary)
        }
        Event::Eliminate { point } => try_eliminate(alloc, shared, entry.by, point, steps),
        Event::Revisit { point } => Ok(try_revisit(shared, entry.by, point, steps)),
        Event::Stop { .. } | Event::Assign { .. } | Event::Widen { .. } => {
            Ok(Tried::Refused(None))
        }
    }
}
