//! What a back sweep begins with: an agent's points, by place, and the final cells between those that others see.
ghost use Rattle.std.specs.Prelude.{◌≡◌, ◌≢◌, ℕ, ◌+◌, ◌<◌, true, false, not, None, IfOk, OnOk, IfSome, IfNone, length, take, slice_index_or};
ghost use Rattle.std.specs.List.{AllPairs};
ghost use Rattle.elim_step.specs.Summaries.{is_summary};
ghost use Rattle.elim_step.specs.Eliminated.{point_at};
ghost use Rattle.private_elim.specs.Locals.{IsLocal, private_at};
ghost use Rattle.private_elim.specs.Sweeps.{HasGiven};

use crate::local::Local;
use dist_rows::{Cell, Rows, Via};
use elim_step::SummaryEntry;
use std::alloc::Global;
use stn_model::{OutOfMemory, PointId};

/// The points, by place.
pub fn points_by_place(alloc: Global, local: &Local) -> Result<Vec<u32>, OutOfMemory>
    ensures points { IfOk result (λ points. points.items ≡ local.now.points) }
    ensures rising { IfOk result (λ points. AllPairs (λ p q. p < q) points.items) }
{
    let mut points = Vec::with_capacity(alloc, local.size() as usize)?;
    for place in 0..local.size() {
        points.push_reserved(local.point(place).0);
    }
    Ok(points)
}

/// Whether each place is private.
pub fn private_places(alloc: Global, local: &Local) -> Result<Vec<bool>, OutOfMemory>
    ensures len { IfOk result (λ flags. length flags.items ≡ length local.now.points) }
    ensures each { IfOk result (λ flags. (p : ℕ) → p < length local.now.points → slice_index_or flags.items p false ≡ private_at local.now p) }
{
    let mut private = Vec::with_capacity(alloc, local.size() as usize)?;
    for place in 0..local.size() {
        private.push_reserved(local.is_private(place));
    }
    Ok(private)
}

/// The places that are not private, from those that are.
pub fn seen_places(alloc: Global, private: &[bool]) -> Result<Vec<bool>, OutOfMemory>
    ensures len { IfOk result (λ seen. length seen.items ≡ length private.now) }
    ensures each { IfOk result (λ seen. (p : ℕ) → p < length private.now → slice_index_or seen.items p false ≡ not (slice_index_or private.now p false)) }
{
    let mut seen = Vec::with_capacity(alloc, private.len())?;
    for &private in private {
        seen.push_reserved(!private);
    }
    Ok(seen)
}

// The place of a point that is not private; None exactly where the local problem has no such point.
fn seen_place(local: &Local, point: PointId) -> Option<u32>
    requires known { IsLocal local.now }
    ensures some { IfSome result (λ k. (k < length local.now.points) × (private_at local.now k ≡ false) × (point_at local.now.points k ≡ point.0)) }
    ensures none { IfNone result ((k : ℕ) → k < length local.now.points → private_at local.now k ≡ false → point_at local.now.points k ≢ point.0) }
{
    let Some(place) = local.place_of(point) else {
        return None;
    };
    if local.is_private(place) {
        return None;
    }
    Some(place)
}

// Adds the entry of number n to the final cells of those before it, where it is between places that are not private.
fn add_entry<R: Rows>(
    local: &Local,
    entries: &[SummaryEntry],
    n: usize,
    finals: &mut R,
) -> Result<(), OutOfMemory>
    requires known { IsLocal local.now }
    requires within { n < length entries.now }
    requires valid { is_summary entries.now ≡ true }
    requires size { R.places finals.old ≡ length local.now.points }
    requires given { HasGiven local.now (take n entries.now) (R.at finals.old) }
    ensures size { R.places finals.new ≡ R.places finals.old }
    ensures room { (p q : ℕ) → R.has_room finals.old p q ≡ true → R.has_room finals.new p q ≡ true }
    ensures given { OnOk result (HasGiven local.now (take (n + 1) entries.now) (R.at finals.new)) }
{
    let entry = entries[n];
    let Some(from) = seen_place(local, entry.from) else {
        return Ok(());
    };
    let Some(to) = seen_place(local, entry.to) else {
        return Ok(());
    };
    let cell = Cell {
        weight: entry.weight,
        via: Via::Published(local.agent()),
    };
    finals.make_room(from, to)?;
    finals.lower(from, to, cell);
    Ok(())
}

/// Writes the entries between places that are not private into final cells, of which there is none yet.
pub fn give_finals<R: Rows>(
    local: &Local,
    entries: &[SummaryEntry],
    finals: &mut R,
) -> Result<(), OutOfMemory>
    requires valid { is_summary entries.now ≡ true }
    requires size { R.places finals.old ≡ length local.now.points }
    requires empty { (p q : ℕ) → R.at finals.old p q ≡ None }
    ensures size { R.places finals.new ≡ R.places finals.old }
    ensures room { (p q : ℕ) → R.has_room finals.old p q ≡ true → R.has_room finals.new p q ≡ true }
    ensures given { OnOk result (HasGiven local.now entries.now (R.at finals.new)) }
{
    // With the size comes that it is a local problem.
    let _size = local.size();
    for n in 0..entries.len() {
        add_entry(local, entries, n, finals)?;
    }
    Ok(())
}
