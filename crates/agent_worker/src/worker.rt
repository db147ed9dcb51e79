//! One agent's worker in the phase that finds the order.
ghost use Rattle.std.specs.Prelude.{◌≡◌, true};
ghost use Rattle.private_elim.specs.Locals.{all_numbered};
ghost use Rattle.private_elim.specs.ReducedViews.{ReducedView};
ghost use Rattle.agent_worker.specs.Works.{IsWork, IsOf};

use crate::gate::{Gate, Moment};
use claim_pass::{Claim, Desk, DeskName, Pass, Published};
use elim_step::Picker;
use private_elim::{Local, PrivateOutcome, Reduced, eliminate_private};
use shared_graph::SharedCycle;
use std::alloc::Global;
use std::sync::Wait;
use stn_model::OutOfMemory;
use stn_walk::Walk;

/// What a worker comes to.
#[derive(Drop)]
pub enum WorkerResult {
    /// The agent's private points are eliminated, and its worker had no more to do.
    Reduced(Reduced),
    /// The agent has an own conflict, with this cycle.
    PrivateConflict(Walk),
    /// The agent's private points are eliminated, and a stop was entered.
    Stopped(Reduced, SharedCycle),
    /// The worker found no memory.
    OutOfMemory,
}

/// What a worker hands back.
#[derive(Drop)]
pub struct Worked<L: DeskName> {
    pub pass: Pass<L>,
    pub result: WorkerResult,
}

/// Eliminates the private points of an agent, whose local problem is all that the worker is given of the network, publishes the summary, and
/// eliminates the agent's shared points one by one, until none is left or a step is not taken.
pub fn work<L: DeskName, R: Wait, G: Gate>(
    rt: &R,
    alloc: Global,
    desk: &Desk<L>,
    local: &Local,
    picker: &Picker,
    gate: &G,
    pass: Pass<L>,
) -> Worked<L>
    requires numbered { all_numbered local.now.arcs ≡ true }
    ensures { IsWork (post (picker.now.key.vtable, picker.now.key.value)) local.now result.result }
{
    let mut pass = pass;
    let outcome = eliminate_private(alloc, local, picker);
    gate.reach(pass.agent().0, Moment::PrivateDone);
    let result = match outcome {
        Ok(PrivateOutcome::Reduced(reduced)) => {
            share(rt, alloc, desk, reduced, picker, gate, &mut pass)
        }
        Ok(PrivateOutcome::Conflict { walk, .. }) => WorkerResult::PrivateConflict(walk),
        Err(OutOfMemory) => WorkerResult::OutOfMemory,
    };
    Worked { pass, result }
}

// Publishes the summary of an agent, and eliminates its shared points.
fn share<L: DeskName, R: Wait, G: Gate>(
    rt: &R,
    alloc: Global,
    desk: &Desk<L>,
    reduced: Reduced,
    picker: &Picker,
    gate: &G,
    pass: &mut Pass<L>,
) -> WorkerResult
    ensures { IsOf reduced result }
{
    let published = desk.publish(rt, alloc, pass, reduced.summary());
    gate.reach(pass.agent().0, Moment::Published);
    match published {
        Ok(Published::Entered { .. }) => {}
        Ok(Published::NotTaken(_) | Published::NotFitting) => return WorkerResult::Reduced(reduced),
        Err(OutOfMemory) => return WorkerResult::OutOfMemory,
    }
    match claim_all(rt, alloc, desk, picker, gate, pass) {
        Ok(None) => WorkerResult::Reduced(reduced),
        Ok(Some(cycle)) => WorkerResult::Stopped(reduced, cycle),
        Err(OutOfMemory) => WorkerResult::OutOfMemory,
    }
}

// Eliminates shared points of an agent, until none is left or a step is not taken. Tells a stop.
fn claim_all<L: DeskName, R: Wait, G: Gate>(
    rt: &R,
    alloc: Global,
    desk: &Desk<L>,
    picker: &Picker,
    gate: &G,
    pass: &mut Pass<L>,
) -> Result<Option<SharedCycle>, OutOfMemory> {
    for _ in rt.forever() {
        let claim = desk.claim_one(rt, alloc, pass, picker);
        gate.reach(pass.agent().0, Moment::Claimed);
        match claim? {
            Claim::Eliminated { .. } => {}
            Claim::NoneLeft | Claim::NotTaken(_) => return Ok(None),
            Claim::Stopped(cycle) => return Ok(Some(cycle)),
        }
    }
    unreachable!()
}
