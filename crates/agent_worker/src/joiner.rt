//! What the caller of a phase takes from its workers.
ghost use Rattle.std.specs.Prelude.{◌≡◌, ◌↔◌, ◌<◌, ℕ, true, IfOk, IsTrue, length, map};
ghost use Rattle.std.specs.List.{list_all};
ghost use Rattle.shared_graph.specs.Histories.{AreFitting};
ghost use Rattle.shared_graph.specs.Interfaces.{Summary};
ghost use Rattle.shared_graph.specs.Journals.{AgreeWith, is_step_of};
ghost use Rattle.shared_graph.specs.Together.{IsAllPublished};
ghost use Rattle.agent_worker.specs.Phases.{GoesOn};

use elim_step::Summary;
use private_elim::Reduced;
use shared_graph::{Entry, Event, Phase, Shared};
use std::alloc::Global;
use stn_model::{AgentId, OutOfMemory};

/// The graph that workers leave, where it goes on from the one that was kept, by steps of the phase alone and with these summaries; and else the one
/// that was kept. There is one summary for each agent, and what is published in the graph that was kept is the listed one.
pub fn chosen(closed: Shared, kept: Shared, summaries: &[Summary], phase: Phase) -> Shared
    requires one_each { length summaries.now ≡ length kept.face.leans }
    requires agree { AgreeWith summaries.now kept.state }
    ensures { GoesOn summaries.now phase kept result }
{
    if goes_on(&closed, &kept, summaries, phase) {
        closed
    } else {
        kept
    }
}

// Whether a graph goes on from another one, by steps of the phase alone and with these summaries.
fn goes_on(closed: &Shared, kept: &Shared, summaries: &[Summary], phase: Phase) -> bool
    requires one_each { length summaries.now ≡ length kept.now.face.leans }
    ensures { IsTrue result → GoesOn summaries.now phase kept.now closed.now }
{
    let front = kept.journal().len();
    closed.continues(kept.interface(), summaries, kept.journal())
        && are_steps(&closed.journal()[front..], phase)
}

// Whether all entries are steps of the phase.
fn are_steps(entries: &[Entry], phase: Phase) -> bool
    ensures { result ≡ list_all (λ e. is_step_of phase e.event) entries.now }
{
    entries.iter().all(|entry| is_step(entry.event, phase))
}

// Whether an event is a step of the phase.
fn is_step(event: Event, phase: Phase) -> bool
    ensures { result ≡ is_step_of phase event }
{
    phase == phase_of(event)
}

// The phase of which an event is a step.
fn phase_of(event: Event) -> Phase
    ensures { (phase : _) → is_step_of phase event ≡ true ↔ phase ≡ result }
{
    match event {
        Event::Publish { .. } | Event::Eliminate { .. } | Event::Stop { .. } => Phase::Order,
        Event::Revisit { .. } => Phase::Reverse,
        Event::Assign { .. } => Phase::Assign,
        Event::Widen { .. } => Phase::Widen,
    }
}

/// The summaries of reduced parts, in their order.
pub fn summaries_of(alloc: Global, reduced: &[Reduced]) -> Result<Vec<Summary>, OutOfMemory>
    ensures { IfOk result (λ v. v.items ≡ map (λ r. r.summary) reduced.now) }
{
    let mut summaries = Vec::with_capacity(alloc, reduced.len())?;
    for part in reduced {
        summaries.push(part.summary().copy(alloc)?)?;
    }
    Ok(summaries)
}

/// The summaries that all agents published, by number.
pub fn told(alloc: Global, shared: &Shared) -> Result<Vec<Summary>, OutOfMemory>
    requires { IsAllPublished shared.now.face shared.now.state }
    ensures one_each { IfOk result (λ v. length v.items ≡ length shared.now.face.leans) }
    ensures fitting { IfOk result (λ v. AreFitting shared.now.face v.items) }
    ensures agree { IfOk result (λ v. AgreeWith v.items shared.now.state) }
{
    // With the journal comes that only agents of the interface have published.
    let _journal = shared.journal();
    let mut summaries = Vec::new(alloc);
    for agent in 0..shared.interface().agents() {
        let Some(summary) = shared.published(AgentId(agent)) else {
            unreachable!()
        };
        summaries.push(summary.copy(alloc)?)?;
    }
    Ok(summaries)
}
