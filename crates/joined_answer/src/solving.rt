//! The joined solve.
ghost use Rattle.std.specs.Prelude.{◌≡◌, ◌↔◌, true, IfOk};
ghost use Rattle.stn_model.specs.Net.{arcs_of, point_count};
ghost use Rattle.stn_model.specs.Schedules.{IsConsistent};
ghost use Rattle.stn_model.specs.Walks.{IsNegativeCycle, IsNormal};
ghost use Rattle.joined_answer.specs.Answers.{is_inconsistent, IfInconsistent, IfConsistent};
ghost use Rattle.joined_answer.specs.Joins.{IsLegalSection, ArePickedOrders};

use crate::joined::Joined;
use crate::parts::{joined_of, locals_of, shown};
use agent_worker::{Forward, Gate, forward_phase, reverse_phase};
use elim_step::Picker;
use shared_graph::Interface;
use std::alloc::Global;
use std::sync::Wait;
use std::thread::Threads;
use stn_model::{Network, OutOfMemory};
use stn_walk::Walk;

/// What a network comes to.
#[derive(Drop)]
pub enum Answer {
    /// Some schedule satisfies it.
    Consistent(Joined),
    /// None does: a negative cycle of its arcs, which begins with its arc of least number.
    Inconsistent(Walk),
}

/// Solves a network: each agent's worker eliminates the agent's private points in an order that the picker allows, and then the workers eliminate and
/// revisit the shared points of one graph, one in each hold of its lock; the caller does what they leave; at last each agent sweeps back over its
/// private points. Inconsistent exactly where no schedule
/// satisfies the network. OutOfMemory where memory runs out, here or in a worker.
pub fn solve<R: Threads + Wait + Sync, G: Gate + Sync>(
    rt: &R,
    alloc: Global,
    net: &Network,
    picker: &Picker,
    gate: &G,
) -> Result<Answer, OutOfMemory>
    ensures inconsistent { IfOk result (λ a. is_inconsistent a ≡ true ↔ (IsConsistent (point_count net.now) (arcs_of net.now) → ⊥)) }
    ensures cycle { IfOk result (IfInconsistent (λ walk. IsNegativeCycle (arcs_of net.now) walk)) }
    ensures normal { IfOk result (IfInconsistent (λ walk. IsNormal walk)) }
    ensures network { IfOk result (IfConsistent (λ j. j.network ≡ net.now)) }
    ensures section { IfOk result (IfConsistent (λ j. IsLegalSection net.now j.section)) }
    ensures picked { IfOk result (IfConsistent (λ j. ArePickedOrders (post (picker.now.key.vtable, picker.now.key.value)) net.now j.section)) }
{
    let locals = locals_of(alloc, net)?;
    let interface = Interface::of(alloc, net)?;
    let forward = forward_phase(rt, alloc, locals.as_slice(), interface, picker, gate)?;
    match forward {
        Forward::PrivateConflict { agent: _, walk } => Ok(Answer::Inconsistent(walk)),
        Forward::Stopped { reduced, shared } => {
            let walk = shown(alloc, net, &shared, reduced.as_slice())?;
            Ok(Answer::Inconsistent(walk))
        }
        Forward::Whole { reduced, shared } => {
            let swept = reverse_phase(rt, alloc, shared, gate)?;
            let joined = joined_of(rt, alloc, net, reduced, swept)?;
            Ok(Answer::Consistent(joined))
        }
    }
}
