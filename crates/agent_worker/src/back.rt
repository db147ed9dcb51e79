//! The phase in which each agent finds the least bounds of its private points, beside the others and without a lock.
ghost use Rattle.std.specs.Prelude.{◌≡◌, ◌<◌, ℕ, ℤ, IfOk, Ok, Some, length, map, slice_get};
ghost use Rattle.stn_model.specs.Net.{Net};
ghost use Rattle.private_elim.specs.ReducedViews.{ReducedView};
ghost use Rattle.shared_graph.specs.declared.events.Phase.TheVariants.{Order, Reverse};
ghost use Rattle.shared_graph.specs.Journals.{IsDone};
ghost use Rattle.shared_graph.specs.Weights.{final};
ghost use Rattle.conflict_cycle.specs.Parts.{AreFound, AreFinalsOf, IsBackOf};
ghost use Rattle.agent_worker.specs.Backs.{ArePartsOfOne, AreBacks, final_entry};

use elim_step::{Summary, SummaryEntry};
use private_elim::{PrivateBounds, Reduced, back_sweep};
use shared_graph::Shared;
use std::alloc::Global;
use std::sync::Wait;
use std::thread;
use std::thread::Threads;
use stn_model::OutOfMemory;

/// Sweeps back over each agent's private points, each agent's in a thread of its own, on the final bounds of the graph: one back sweep for each reduced
/// part, by number. The graph stands for a network of which these are the agents' reduced parts, with their summaries; all shared points are eliminated
/// and revisited. OutOfMemory where memory runs out, here or in a worker.
pub fn back_phase<R: Threads + Wait + Sync>(
    rt: &R,
    alloc: Global,
    reduced: &[Reduced],
    shared: &Shared,
) -> Result<Vec<PrivateBounds>, OutOfMemory>
    requires parts { (net : Net) × ArePartsOfOne net reduced.now shared.now }
    requires ordered { IsDone shared.now.face shared.now.state Order }
    requires revisited { IsDone shared.now.face shared.now.state Reverse }
    ensures { IfOk result (λ v. AreBacks shared.now reduced.now v.items) }
{
    // With the interface comes that the graph holds together, and with each summary that its part is reduced.
    let _face = shared.interface();
    know_found(reduced, shared);
    let sweep = |agent: usize| -> Result<PrivateBounds, OutOfMemory>
        requires { (agent < length reduced.now) × ((r : ReducedView) → slice_get reduced.now agent ≡ Some r → AreFound shared.now.face shared.now.state r.summary) }
        ensures { IfOk result (λ b. (r : ReducedView) → slice_get reduced.entry.now agent ≡ Some r → IsBackOf shared.entry.now.face shared.entry.now.state r b) }
    { sweep_back(alloc, &reduced[agent], shared) };
    let swept = thread::map_indices(rt, alloc, reduced.len(), &sweep)?;
    all_swept(alloc, swept)
}

// Each part's pairs have final bounds.
fn know_found(reduced: &[Reduced], shared: &Shared)
    requires parts { (net : Net) × ArePartsOfOne net reduced.now shared.now }
    requires ordered { IsDone shared.now.face shared.now.state Order }
    requires revisited { IsDone shared.now.face shared.now.state Reverse }
    ensures { (a : ℕ) (r : ReducedView) → slice_get reduced.now a ≡ Some r → AreFound shared.now.face shared.now.state r.summary }
{
    let _face = shared.interface();
    for part in reduced {
        let _summary = part.summary();
    }
}

// One agent's back sweep.
fn sweep_back(alloc: Global, part: &Reduced, shared: &Shared) -> Result<PrivateBounds, OutOfMemory>
    requires { AreFound shared.now.face shared.now.state part.now.summary }
    ensures { IfOk result (λ b. IsBackOf shared.now.face shared.now.state part.now b) }
{
    let finals = finals_of(alloc, part.summary(), shared)?;
    back_sweep(alloc, part, &finals)
}

// The final bounds of a summary's pairs.
fn finals_of(alloc: Global, summary: &Summary, shared: &Shared) -> Result<Summary, OutOfMemory>
    requires { AreFound shared.now.face shared.now.state summary.now }
    ensures { IfOk result (λ f. AreFinalsOf shared.now.face shared.now.state summary.now f) }
{
    let entries = summary.entries();
    let mut finals = Vec::with_capacity(alloc, entries.len())?;
    for &entry in entries {
        finals.push(final_entry(entry, shared))?;
    }
    match Summary::new(finals) {
        Some(finals) => Ok(finals),
        None => unreachable!(),
    }
}

// The same pair with its final bound.
fn final_entry(entry: SummaryEntry, shared: &Shared) -> SummaryEntry
    requires { (b : ℤ) × (final shared.now.face shared.now.state entry.from.0 entry.to.0 ≡ Some b) }
    ensures { result ≡ final_entry shared.now.face shared.now.state entry }
{
    let SummaryEntry { from, to, .. } = entry;
    match shared.final_bound(from, to) {
        Some(weight) => SummaryEntry { from, to, weight },
        None => unreachable!(),
    }
}

// All sweeps, or OutOfMemory where one of them found no memory.
fn all_swept(
    alloc: Global,
    swept: Vec<Result<PrivateBounds, OutOfMemory>>,
) -> Result<Vec<PrivateBounds>, OutOfMemory>
    ensures { IfOk result (λ v. map (λ b. Ok b) v.items ≡ swept.items) }
{
    let mut all = Vec::with_capacity(alloc, swept.len())?;
    for one in swept {
        all.push(one?)?;
    }
    Ok(all)
}
