//! The phase that finds the order: all agents' private points, each by its own worker, and then the shared points.
ghost use Rattle.std.specs.Prelude.{◌≡◌, ◌↔◌, ◌<◌, ℕ, true, [], IfOk, Some, None, is_some, length, vec_len, slice_get, map};
ghost use Rattle.std.specs.List.{list_all};
ghost use Rattle.stn_model.specs.Conflicts.{IsOwnConflict};
ghost use Rattle.stn_model.specs.Net.{Net, arcs_of, point_count};
ghost use Rattle.stn_model.specs.Schedules.{IsConsistent};
ghost use Rattle.stn_model.specs.Walks.{IsNormal};
ghost use Rattle.private_elim.specs.Locals.{LocalView};
ghost use Rattle.private_elim.specs.Reductions.{HasOwnConflict};
ghost use Rattle.shared_graph.specs.Histories.{AreFitting};
ghost use Rattle.shared_graph.specs.Journals.{AgreeWith, IsDone, StandsFor, is_step_of};
ghost use Rattle.shared_graph.specs.States.{start};
ghost use Rattle.shared_graph.specs.declared.events.Phase.TheVariants.{Order};
ghost use Rattle.agent_worker.specs.Works.{AreReducedFrom, AreWorks, IsWork, are_numbered};
ghost use Rattle.agent_worker.specs.Forwards.{ArePartsOf, OfParts, is_whole, is_stopped, is_conflict, IfWhole, IfStopped, IfConflict, IfReduced, IsForward, Came};

use crate::gate::Gate;
use crate::gather::{Gathered, gather, split};
use crate::joiner::{chosen, summaries_of};
use crate::worker::{Worked, WorkerResult, work};
use claim_pass::{Closed, Desk, DeskName, Pass};
use elim_step::Picker;
use private_elim::{Local, Reduced};
use shared_graph::{Interface, Phase, Shared};
use std::alloc::Global;
use std::marker::Brand;
use std::sync::Wait;
use std::sync::ledger::Blank;
use std::thread;
use std::thread::Threads;
use stn_model::{AgentId, OutOfMemory};
use stn_walk::Walk;

/// What the phase that finds the order comes to.
#[derive(Drop)]
pub enum Forward {
    /// Some schedule satisfies the network: all private and all shared points are eliminated. One reduced part for each agent, by number.
    Whole {
        reduced: Vec<Reduced>,
        shared: Shared,
    },
    /// An agent has an own conflict, a negative cycle of its own arcs of whose points at most one is not private: the cycle of the least such agent.
    PrivateConflict {
        agent: AgentId,
        walk: Walk,
    },
    /// No agent has one, and no schedule satisfies the network: a stop was entered. One reduced part for each agent, by number.
    Stopped {
        reduced: Vec<Reduced>,
        shared: Shared,
    },
}

/// Eliminates all points of a network: a worker for each agent takes its private points alone, in an order that the picker allows, publishes the
/// summary, and takes the agent's shared points; the caller does what they leave. The workers are given the agents' local problems, one for each agent
/// by number, and the interface, all of one network; what is said below of a network holds for each of which these are the interface and the local
/// problems. With no agent no desk and no thread is started. OutOfMemory where memory runs out, here or in a worker; the other workers then go on to
/// their end.
pub fn forward_phase<R: Threads + Wait + Sync, G: Gate + Sync>(
    rt: &R,
    alloc: Global,
    locals: &[Local],
    interface: Interface,
    picker: &Picker,
    gate: &G,
) -> Result<Forward, OutOfMemory>
    requires parts { (net : Net) × ArePartsOf net interface locals.now }
    ensures conflict { IfOk result (λ f. OfParts interface locals.now (λ net. is_conflict f ≡ true ↔ ((a : ℕ) × (a < length net.agents) × HasOwnConflict net a))) }
    ensures least { IfOk result (IfConflict (λ agent walk. OfParts interface locals.now (λ net. (a : ℕ) → a < agent → HasOwnConflict net a → ⊥))) }
    ensures cycle { IfOk result (IfConflict (λ agent walk. OfParts interface locals.now (λ net. (agent < length net.agents) × IsOwnConflict net agent walk))) }
    ensures normal { IfOk result (IfConflict (λ agent walk. IsNormal walk)) }
    ensures stopped { IfOk result (λ f. OfParts interface locals.now (λ net. is_stopped f ≡ true
        ↔ (((a : ℕ) → a < length net.agents → HasOwnConflict net a → ⊥) × (IsConsistent (point_count net) (arcs_of net) → ⊥)))) }
    ensures whole { IfOk result (λ f. OfParts interface locals.now (λ net. is_whole f ≡ true ↔ IsConsistent (point_count net) (arcs_of net))) }
    ensures reduced { IfOk result (IfReduced (λ reduced shared. AreReducedFrom (post (picker.now.key.vtable, picker.now.key.value)) locals.now reduced)) }
    ensures stands { IfOk result (IfReduced (λ reduced shared. OfParts interface locals.now (λ net. StandsFor net shared))) }
    ensures face { IfOk result (IfReduced (λ reduced shared. shared.face ≡ interface)) }
    ensures published { IfOk result (IfReduced (λ reduced shared. AgreeWith (map (λ r. r.summary) reduced) shared.state)) }
    ensures stop { IfOk result (IfStopped (λ reduced shared. is_some shared.state.stop ≡ true)) }
    ensures done { IfOk result (IfWhole (λ reduced shared. IsDone shared.face shared.state Order)) }
    ensures steps { IfOk result (IfReduced (λ reduced shared. list_all (λ e. is_step_of Order e.event) shared.journal ≡ true)) }
{
    take_all(rt, alloc, locals, interface, picker, gate)
}

// The same: what it comes to for the arguments, whatever the network.
fn take_all<R: Threads + Wait + Sync, G: Gate + Sync>(
    rt: &R,
    alloc: Global,
    locals: &[Local],
    interface: Interface,
    picker: &Picker,
    gate: &G,
) -> Result<Forward, OutOfMemory>
    requires parts { (net : Net) × ArePartsOf net interface locals.now }
    ensures { IfOk result (Came (post (picker.now.key.vtable, picker.now.key.value)) interface locals.now) }
{
    let kept = Shared::start(alloc, interface.copy(alloc)?)?;
    let (closed, results) = run_all(rt, alloc, locals, interface, picker, gate)?;
    let gathered = gather(alloc, results)?;
    match gathered {
        Gathered::PrivateConflict { agent, walk } => Ok(Forward::PrivateConflict { agent, walk }),
        Gathered::Reduced(reduced) => join(alloc, closed, kept, reduced),
    }
}

// The graph that all workers leave, and their results.
fn run_all<R: Threads + Wait + Sync, G: Gate + Sync>(
    rt: &R,
    alloc: Global,
    locals: &[Local],
    interface: Interface,
    picker: &Picker,
    gate: &G,
) -> Result<(Shared, Vec<WorkerResult>), OutOfMemory>
    requires one_each { length locals.now ≡ length interface.leans }
    requires numbered { are_numbered locals.now ≡ true }
    ensures { IfOk result (λ r. AreWorks (post (picker.now.key.vtable, picker.now.key.value)) locals.now r.1.items) }
{
    let agents = interface.agents();
    let shared = Shared::start(alloc, interface)?;
    if agents == 0 {
        return Ok((shared, Vec::new(alloc)));
    }
    let blank = Blank::new(u64::from(agents));
    let (closed, results) = run_desk::<Brand, R, G>(
        rt, alloc, blank, shared, locals, picker, gate,
    )?;
    Ok((closed.shared, results))
}

// All workers at once, and then the desk is closed.
fn run_desk<L: DeskName + Send + Sync, R: Threads + Wait + Sync, G: Gate + Sync>(
    rt: &R,
    alloc: Global,
    blank: Blank,
    shared: Shared,
    locals: &[Local],
    picker: &Picker,
    gate: &G,
) -> Result<(Closed, Vec<WorkerResult>), OutOfMemory>
    requires name { blank.name ≡ L.name }
    requires parts { blank.parts ≡ L.parts }
    requires one_part { (blank.parts ≡ L.agents) × (0 < blank.parts) }
    requires agents { length shared.face.leans ≡ L.agents }
    requires one_each { length locals.now ≡ L.agents }
    requires numbered { are_numbered locals.now ≡ true }
    requires start { length shared.journal ≡ L.start }
    ensures { IfOk result (λ r. AreWorks (post (picker.now.key.vtable, picker.now.key.value)) locals.now r.1.items) }
{
    let (desk, passes) = Desk::<L>::start(alloc, blank, shared)?;
    let lent = &desk;
    let worker = |pass: Pass<L>| -> Worked<L>
        requires { (length locals.now ≡ L.agents) × (are_numbered locals.now ≡ true) }
        ensures { (l : LocalView) → slice_get locals.entry.now pass.agent ≡ Some l → IsWork (post (picker.entry.now.key.vtable, picker.entry.now.key.value)) l result.result }
    { work_own(rt, alloc, lent, locals, picker, gate, pass) };
    let done = thread::map_vec(rt, passes, &worker)?;
    let (passes, results) = split(alloc, done)?;
    Ok((desk.close(passes), results))
}

// The work of a pass's agent, whose local problem is all that its worker gets of them.
fn work_own<L: DeskName, R: Wait, G: Gate>(
    rt: &R,
    alloc: Global,
    desk: &Desk<L>,
    locals: &[Local],
    picker: &Picker,
    gate: &G,
    pass: Pass<L>,
) -> Worked<L>
    requires one_each { length locals.now ≡ L.agents }
    requires numbered { are_numbered locals.now ≡ true }
    ensures { (l : LocalView) → slice_get locals.now pass.agent ≡ Some l → IsWork (post (picker.now.key.vtable, picker.now.key.value)) l result.result }
{
    let local = &locals[pass.agent().0 as usize];
    work(rt, alloc, desk, local, picker, gate, pass)
}

// The caller's part, once all workers are done: the steps that they left.
fn join(
    alloc: Global,
    closed: Shared,
    kept: Shared,
    reduced: Vec<Reduced>,
) -> Result<Forward, OutOfMemory>
    requires state { kept.state ≡ start }
    requires journal { kept.journal ≡ [] }
    requires one_each { vec_len reduced ≡ length kept.face.leans }
    requires fitting { AreFitting kept.face (map (λ r. r.summary) reduced.items) }
    ensures { IfOk result (IsForward kept.face reduced.items) }
{
    let summaries = summaries_of(alloc, reduced.as_slice())?;
    let mut shared = chosen(closed, kept, summaries.as_slice(), Phase::Order);
    shared.finish(alloc, summaries.as_slice(), Phase::Order)?;
    // With the journal comes that it replays.
    let _journal = shared.journal();
    if shared.cycle().is_some() {
        Ok(Forward::Stopped { reduced, shared })
    } else {
        Ok(Forward::Whole { reduced, shared })
    }
}
