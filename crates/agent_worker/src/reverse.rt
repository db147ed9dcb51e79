//! The phase that finds the least bounds between shared points: any worker may revisit any of them.
ghost use Rattle.std.specs.Prelude.{◌≡◌, ◌<◌, IfOk, length, vec_len};
ghost use Rattle.shared_graph.specs.Journals.{IsDone};
ghost use Rattle.shared_graph.specs.declared.events.Phase.TheVariants.{Order, Reverse};
ghost use Rattle.agent_worker.specs.Phases.{IsSwept};

use crate::gate::{Gate, Moment};
use crate::joiner::{chosen, told};
use claim_pass::{Closed, Desk, DeskName, Did, Pass};
use shared_graph::{Phase, Shared};
use std::alloc::Global;
use std::marker::Brand;
use std::sync::Wait;
use std::sync::ledger::Blank;
use std::thread;
use std::thread::Threads;
use stn_model::OutOfMemory;

/// Revisits all shared points: a worker for each agent makes the least legal step again and again, of whatever owner's point, and the caller does what
/// they leave. All agents have published and all shared points are eliminated. With no agent no desk and no thread is started. OutOfMemory where
/// memory runs out.
pub fn reverse_phase<R: Threads + Wait + Sync, G: Gate + Sync>(
    rt: &R,
    alloc: Global,
    shared: Shared,
    gate: &G,
) -> Result<Shared, OutOfMemory>
    requires { IsDone shared.face shared.state Order }
    ensures done { IfOk result (λ s. IsDone s.face s.state Reverse) }
    ensures swept { IfOk result (λ s. IsSwept Reverse shared s) }
{
    let summaries = told(alloc, &shared)?;
    // With the journals, here and below, comes that they replay.
    let _before = shared.journal();
    let kept = shared.copy(alloc)?;
    let closed = sweep_all(rt, alloc, shared, gate)?;
    let mut taken = chosen(closed, kept, summaries.as_slice(), Phase::Reverse);
    let _begun = taken.journal();
    taken.finish(alloc, summaries.as_slice(), Phase::Reverse)?;
    let _ended = taken.journal();
    Ok(taken)
}

// The graph that all workers leave.
fn sweep_all<R: Threads + Wait + Sync, G: Gate + Sync>(
    rt: &R,
    alloc: Global,
    shared: Shared,
    gate: &G,
) -> Result<Shared, OutOfMemory> {
    let agents = shared.interface().agents();
    if agents == 0 {
        return Ok(shared);
    }
    let blank = Blank::new(u64::from(agents));
    let closed = sweep_desk::<Brand, R, G>(rt, alloc, blank, shared, gate)?;
    Ok(closed.shared)
}

// All workers at once, and then the desk is closed.
fn sweep_desk<L: DeskName + Send + Sync, R: Threads + Wait + Sync, G: Gate + Sync>(
    rt: &R,
    alloc: Global,
    blank: Blank,
    shared: Shared,
    gate: &G,
) -> Result<Closed, OutOfMemory>
    requires name { blank.name ≡ L.name }
    requires parts { blank.parts ≡ L.parts }
    requires one_part { (blank.parts ≡ L.agents) × (0 < blank.parts) }
    requires agents { length shared.face.leans ≡ L.agents }
    requires start { length shared.journal ≡ L.start }
{
    let (desk, passes) = Desk::<L>::start(alloc, blank, shared)?;
    let lent = &desk;
    let passes = thread::map_vec(rt, passes, &|pass| sweep(rt, lent, gate, pass))?;
    Ok(desk.close(passes))
}

// Makes steps of the phase until none is legal.
fn sweep<L: DeskName, R: Wait, G: Gate>(
    rt: &R,
    desk: &Desk<L>,
    gate: &G,
    pass: Pass<L>,
) -> Pass<L> {
    let mut pass = pass;
    for _ in rt.forever() {
        let did = desk.step_any(rt, &mut pass, Phase::Reverse);
        gate.reach(pass.agent().0, Moment::Swept);
        match did {
            Did::Made { .. } => {}
            Did::Nothing => break,
        }
    }
    pass
}
