//! The summary of an agent whose private points are all taken.
ghost use Rattle.std.specs.Prelude.{◌≡◌, ◌≢◌, ℕ, ◌<◌, ◌++◌, true, IfOk, length, reverse};
ghost use Rattle.stn_model.specs.Summaries as summaries;
ghost use Rattle.stn_walk.specs.Eliminations.{is_in};
ghost use Rattle.private_elim.specs.Locals.{is_private_in};
ghost use Rattle.private_elim.specs.Taken.{HasTaken};
ghost use Rattle.private_elim.specs.SummaryRows.{is_pair_at, entry_at, pair_entries, row_of, rows_below};

use crate::elimination::SparseElimination;
use crate::reduced::Reduced;
use elim_step::{Summary, SummaryEntry};
use std::alloc::Global;
use stn_model::OutOfMemory;

/// The reduced local problem, once all private points are taken, or OutOfMemory.
pub fn summarise(alloc: Global, elimination: SparseElimination) -> Result<Reduced, OutOfMemory>
    requires whole { (p : ℕ) → is_private_in elimination.local p ≡ true → is_in (reverse elimination.order) p ≡ true }
    ensures local { IfOk result (λ r. r.local ≡ elimination.local) }
    ensures order { IfOk result (λ r. r.order ≡ elimination.order) }
{
    let entries = entries_of(alloc, &elimination)?;
    let Some(summary) = Summary::new(entries) else {
        unreachable!()
    };
    Ok(Reduced {
        elimination,
        summary,
    })
}

// The entries of all pairs that have one, by rising pairs.
fn entries_of(
    alloc: Global,
    elimination: &SparseElimination,
) -> Result<Vec<SummaryEntry>, OutOfMemory>
    ensures entries { IfOk result (λ entries. entries.items ≡ rows_below elimination.now (length elimination.now.local.points)) }
    ensures taken { HasTaken elimination.now }
{
    let mut entries = Vec::new(alloc);
    let mut met = Vec::new(alloc);
    for i in 0..elimination.size() {
        push_row(&mut entries, elimination, i, &mut met)?;
    }
    Ok(entries)
}

// Adds the entries from a place: those to places that are left and joined with it, of which it fills a list.
fn push_row(
    entries: &mut Vec<SummaryEntry>,
    elimination: &SparseElimination,
    i: u32,
    met: &mut Vec<u32>,
) -> Result<(), OutOfMemory>
    requires { i < length elimination.now.local.points }
    ensures { IfOk result (λ _. entries.new.items ≡ entries.old.items ++ row_of elimination.now i) }
{
    if elimination.local().is_private(i) {
        return Ok(());
    }
    elimination.list_met(i, met)?;
    for &j in met.as_slice() {
        push_pair(entries, elimination, i, j)?;
    }
    Ok(())
}

// Adds the entry from one place to another, where there is one.
fn push_pair(
    entries: &mut Vec<SummaryEntry>,
    elimination: &SparseElimination,
    i: u32,
    j: u32,
) -> Result<(), OutOfMemory>
    requires { (i < length elimination.now.local.points) × (j < length elimination.now.local.points) }
    ensures { IfOk result (λ _. entries.new.items ≡ entries.old.items ++ pair_entries elimination.now i j) }
{
    if is_pair(elimination, i, j) {
        entries.push(entry(elimination, i, j))?;
    }
    Ok(())
}

// Whether the summary has an entry from one place to another.
pub(crate) fn is_pair(elimination: &SparseElimination, i: u32, j: u32) -> bool
    requires { (i < length elimination.now.local.points) × (j < length elimination.now.local.points) }
    ensures { result ≡ is_pair_at elimination.now i j }
{
    let local = elimination.local();
    i != j && !local.is_private(i) && !local.is_private(j) && elimination.is_joined(i, j)
}

// The entry from one place to another.
fn entry(elimination: &SparseElimination, i: u32, j: u32) -> SummaryEntry
    requires within { (i < length elimination.now.local.points) × (j < length elimination.now.local.points) }
    requires apart { i ≢ j }
    ensures { result ≡ entry_at elimination.now i j }
{
    let local = elimination.local();
    SummaryEntry {
        from: local.point(i),
        to: local.point(j),
        weight: entry_weight(local.horizon(), elimination.weight(i, j)),
    }
}

// The lesser of the horizon and a weight, and the horizon where there is none.
fn entry_weight(horizon: i64, weight: Option<i128>) -> i128
    ensures { result ≡ summaries.entry_weight horizon weight }
{
    let horizon = i128::from(horizon);
    match weight {
        None => horizon,
        Some(weight) => weight.min(horizon),
    }
}
