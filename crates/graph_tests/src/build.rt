//! The summaries of a network's agents.
ghost use Rattle.std.specs.Prelude.{◌≡◌, true, IfOk};
ghost use Rattle.private_elim.specs.Locals.{all_numbered};

use elim_step::{Picker, Summary};
use private_elim::{Local, PrivateOutcome, eliminate_private};
use std::alloc::Global;
use std::test::Fail;
use stn_model::{AgentId, Network};

// An agent's local problem.
fn local_of(alloc: Global, net: &Network, agent: u32) -> Result<Local, Fail>
    ensures { IfOk result (λ l. all_numbered l.arcs ≡ true) }
{
    if agent >= net.agents() {
        return Err(Fail::new("no such agent"));
    }
    let local = Local::of(alloc, net, AgentId(agent))?;
    Ok(local)
}

// An agent's summary, where it has no conflict of its own: its private points are eliminated by degree.
fn summary_of(alloc: Global, net: &Network, agent: u32) -> Result<Option<Summary>, Fail> {
    let local = local_of(alloc, net, agent)?;
    let key = Box::new(alloc, |degree: u32, _number: u32| u64::from(degree))?;
    match eliminate_private(alloc, &local, &Picker::new(key))? {
        PrivateOutcome::Reduced(reduced) => Ok(Some(reduced.summary().copy(alloc)?)),
        PrivateOutcome::Conflict { .. } => Ok(None),
    }
}

// The summaries of all agents, by number; None where one of them has a conflict of its own.
pub fn summaries_of(alloc: Global, net: &Network) -> Result<Option<Vec<Summary>>, Fail> {
    let mut summaries = Vec::new(alloc);
    for agent in 0..net.agents() {
        let Some(summary) = summary_of(alloc, net, agent)? else {
            return Ok(None);
        };
        summaries.push(summary)?;
    }
    Ok(Some(summaries))
}
