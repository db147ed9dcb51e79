//! One event, entered by an agent's worker that holds the shared graph.
ghost use Rattle.std.specs.Prelude.{◌≡◌, ◌<◌, None, IfOk, OnErr, length};
ghost use Rattle.shared_graph.specs.declared.events.By.TheVariants.{Agent};
ghost use Rattle.shared_graph.specs.declared.events.Event.TheVariants.{Revisit};
ghost use Rattle.shared_graph.specs.declared.events.Phase.TheVariants.{Reverse};
ghost use Rattle.shared_graph.specs.Journals.{IsEliminatedBy};
ghost use Rattle.shared_graph.specs.Refusals.{refusal};
ghost use Rattle.shared_graph.specs.Takes.{MayEliminate};
ghost use Rattle.claim_pass.specs.Lent.{candidates_in, entry_of, IsPublish, IsClaim, IsTaken, IsRevisitedBy, IsStep};

use crate::answers::{Claim, Did, Published};
use elim_step::{Candidate, Picker, Steps, Summary};
use shared_graph::{By, Eliminated, Entry, Event, Illegal, Phase, Shared};
use std::alloc::Global;
use std::marker::Brand;
use std::sync::ledger::{Blank, Ledger};
use stn_model::{AgentId, OutOfMemory, PointId};

/// An agent publishes its summary, exactly where that is legal and the summary fits it; the entry is the agent's own. Else nothing changes, nor
/// where memory runs out. The agent is one of the interface.
pub fn publish_lent(
    alloc: Global,
    shared: &mut Shared,
    agent: AgentId,
    summary: &Summary,
) -> Result<Published, OutOfMemory>
    requires { agent.0 < length shared.old.face.leans }
    ensures answer { IfOk result (IsPublish agent summary.now shared.old shared.new) }
    ensures err { OnErr result (shared.new ≡ shared.old) }
{
    let by = By::Agent(agent);
    let event = Event::Publish { agent };
    if let Some(cause) = shared.may(&Entry { by, event }) {
        return Ok(Published::NotTaken(cause));
    }
    if !shared.interface().fits(agent, summary) {
        return Ok(Published::NotFitting);
    }
    let place = shared.journal().len() as u64;
    shared.publish(alloc, by, agent, summary)?;
    Ok(Published::Entered { place })
}

// The shared points of an agent that are not eliminated, by number, with their degrees.
fn candidates(alloc: Global, shared: &Shared, agent: AgentId) -> Result<Vec<Candidate>, OutOfMemory>
    requires { agent.0 < length shared.now.face.leans }
    ensures { IfOk result (λ v. v.items ≡ candidates_in shared.now.face shared.now.state agent.0) }
{
    let own = shared.interface().own_points(agent);
    let mut candidates = Vec::with_capacity(alloc, own.len())?;
    for &point in own {
        if let Some(degree) = shared.degree(point) {
            candidates.push(Candidate {
                degree,
                number: point.0,
            })?;
        }
    }
    Ok(candidates)
}

/// An agent eliminates the point that the picker takes of its shared points that are not eliminated; a candidate's degree is the number of points
/// that are not eliminated and joined with it, the reference point among them, its number the point's. A stop is told where one was entered, by this
/// step or before. Where nothing is made, and where memory runs out, nothing changes. The agent is one of the interface.
pub fn claim_lent(
    alloc: Global,
    shared: &mut Shared,
    agent: AgentId,
    picker: &Picker,
) -> Result<Claim, OutOfMemory>
    requires { agent.0 < length shared.old.face.leans }
    ensures answer { IfOk result (IsClaim (post (picker.now.key.vtable, picker.now.key.value)) agent shared.old shared.new) }
    ensures err { OnErr result (shared.new ≡ shared.old) }
{
    if let Some(cycle) = shared.cycle() {
        return Ok(Claim::Stopped(cycle));
    }
    let candidates = candidates(alloc, shared, agent)?;
    let Some(place) = picker.pick(candidates.as_slice()) else {
        return Ok(Claim::NoneLeft);
    };
    let point = PointId(candidates[place].number);
    eliminate_picked(alloc, shared, agent, point)
}

// A point is eliminated by the agent, where that is legal or stops the graph.
fn eliminate_picked(
    alloc: Global,
    shared: &mut Shared,
    agent: AgentId,
    point: PointId,
) -> Result<Claim, OutOfMemory>
    ensures answer { IfOk result (IsTaken agent point shared.old shared.new) }
    ensures err { OnErr result (shared.new ≡ shared.old) }
{
    let by = By::Agent(agent);
    let event = Event::Eliminate { point };
    match shared.may(&Entry { by, event }) {
        None | Some(Illegal::Negative(_)) => {}
        Some(cause) => return Ok(Claim::NotTaken(cause)),
    }
    let place = shared.journal().len() as u64;
    match eliminate_by::<Brand>(alloc, shared, by, point, Blank::new(1))? {
        Eliminated::Clear => Ok(Claim::Eliminated { point, place }),
        Eliminated::Stopped(cycle) => Ok(Claim::Stopped(cycle)),
    }
}

// One elimination, with a counter of its own.
fn eliminate_by<L: Ledger>(
    alloc: Global,
    shared: &mut Shared,
    by: By,
    point: PointId,
    blank: Blank,
) -> Result<Eliminated, OutOfMemory>
    requires name { blank.name ≡ L.name }
    requires parts { blank.parts ≡ L.parts }
    requires one_part { blank.parts ≡ 1 }
    requires may { MayEliminate shared.old.face shared.old.state by point }
    ensures eliminated { IfOk result (IsEliminatedBy by point shared.old shared.new) }
    ensures err { OnErr result (shared.new ≡ shared.old) }
{
    let mut steps = Steps::<L>::new(blank);
    shared.eliminate(alloc, by, point, &mut steps)
}

/// An agent makes the legal step of a phase after the order that is the least, of whatever owner's point: in `Reverse`, the one such phase whose
/// steps exist yet, the revisit of the least shared point whose later neighbours are revisited. `Nothing` exactly where no step of the phase is
/// legal; then nothing changes. Takes no memory.
pub fn step_lent(shared: &mut Shared, agent: AgentId, phase: Phase) -> Did
    requires phase { phase ≡ Reverse }
    ensures { IsStep agent phase shared.old shared.new result }
{
    let Some(point) = shared.least_revisit() else {
        return Did::Nothing;
    };
    let place = shared.journal().len() as u64;
    revisit_by::<Brand>(shared, agent, point, Blank::new(1));
    Did::Made { place }
}

// One revisit by an agent, with a counter of its own.
fn revisit_by<L: Ledger>(shared: &mut Shared, agent: AgentId, point: PointId, blank: Blank)
    requires name { blank.name ≡ L.name }
    requires parts { blank.parts ≡ L.parts }
    requires one_part { blank.parts ≡ 1 }
    requires legal { refusal shared.old.face shared.old.state (entry_of agent (Revisit point)) ≡ None }
    ensures { IsRevisitedBy agent point shared.old shared.new }
{
    let mut steps = Steps::<L>::new(blank);
    shared.revisit(By::Agent(agent), point, &mut steps);
}
