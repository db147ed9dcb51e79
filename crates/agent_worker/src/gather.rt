//! What all workers come to.
ghost use Rattle.std.specs.Prelude.{◌≡◌, ◌<◌, map, Some, IfOk, IfSome, MatchResult, vec_len};
ghost use Rattle.agent_worker.specs.Works.{part_of, IsGathered};
ghost use Rattle.agent_worker.specs.declared.worker.WorkerResult.TheVariants.{PrivateConflict};

use crate::worker::{Worked, WorkerResult};
use claim_pass::{DeskName, Pass};
use private_elim::Reduced;
use std::alloc::Global;
use stn_model::{AgentId, OutOfMemory};
use stn_walk::Walk;

/// The reduced parts of all agents, by number, or the own conflict of the least agent that has one.
#[derive(Drop)]
pub enum Gathered {
    Reduced(Vec<Reduced>),
    PrivateConflict { agent: AgentId, walk: Walk },
}

/// The passes and the results that workers hand back, in their order.
pub fn split<L: DeskName>(
    alloc: Global,
    done: Vec<Worked<L>>,
) -> Result<(Vec<Pass<L>>, Vec<WorkerResult>), OutOfMemory>
    ensures passes { IfOk result (λ r. vec_len r.0 ≡ vec_len done) }
    ensures results { IfOk result (λ r. r.1.items ≡ map (λ w. w.result) done.items) }
{
    let mut passes = Vec::with_capacity(alloc, done.len())?;
    let mut results = Vec::with_capacity(alloc, done.len())?;
    for Worked { pass, result } in done {
        passes.push(pass)?;
        results.push(result)?;
    }
    Ok((passes, results))
}

/// The reduced parts of all agents, from the results of their workers by number; or the own conflict of the least agent that has one. OutOfMemory
/// where memory runs out, or a worker before found none.
pub fn gather(alloc: Global, results: Vec<WorkerResult>) -> Result<Gathered, OutOfMemory>
    requires few { vec_len results < 4294967296 }
    ensures { IfOk result (IsGathered results.items) }
{
    let mut parts = Vec::with_capacity(alloc, results.len())?;
    for worked in results {
        match part_of(worked) {
            Ok(reduced) => parts.push(reduced)?,
            Err(Some(walk)) => {
                let agent = AgentId(parts.len() as u32);
                return Ok(Gathered::PrivateConflict { agent, walk });
            }
            Err(None) => return Err(OutOfMemory),
        }
    }
    Ok(Gathered::Reduced(parts))
}

// The reduced part that a worker hands back; else the own conflict that it found, or None where it found no memory.
fn part_of(worked: WorkerResult) -> Result<Reduced, Option<Walk>>
    ensures { MatchResult result (λ r. part_of worked ≡ Some r) (λ e. IfSome e (λ walk. worked ≡ PrivateConflict walk)) }
{
    match worked {
        WorkerResult::Reduced(reduced) => Ok(reduced),
        WorkerResult::Stopped(reduced, _) => Ok(reduced),
        WorkerResult::PrivateConflict(walk) => Err(Some(walk)),
        WorkerResult::OutOfMemory => Err(None),
    }
}
