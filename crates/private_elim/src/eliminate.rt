//! The elimination of an agent's private points, in an order that a picker chooses or that is given.
ghost use Rattle.std.specs.Prelude.{◌≡◌, ◌↔◌, ℕ, ◌<◌, true, IfOk, length, map, reverse, take, slice_index, []};
ghost use Rattle.std.specs.List.{AllByRecursion};
ghost use Rattle.stn_model.specs.Walks.{IsNormal, AllDifferent};
ghost use Rattle.stn_model.specs.Conflicts.{IsOwnConflict};
ghost use Rattle.stn_model.specs.Summaries.{IsSummary};
ghost use Rattle.stn_walk.specs.Eliminations.{is_in};
ghost use Rattle.private_elim.specs.Locals.{all_numbered, is_private_in};
ghost use Rattle.elim_step.specs.Eliminated.{point_at};
ghost use Rattle.private_elim.specs.Taken.{StopsAt, Fails};
ghost use Rattle.private_elim.specs.Outcomes.{IsNext, IsReducedFrom, IsConflictFrom, IsPickedOutcome, IsListedOutcome};
ghost use Rattle.private_elim.specs.Picked.{ArePicked, IsStopped};
ghost use Rattle.elim_step.specs.Summaries.{entry_of};
ghost use Rattle.private_elim.specs.Reductions.{OfNetwork, HasOwnConflict, is_conflict, IfReduced, IfConflict};

use crate::conflict::own_conflict;
use crate::elimination::SparseElimination;
use crate::local::Local;
use crate::outcome::PrivateOutcome;
use crate::summarise::summarise;
use elim_step::{Picker, Steps};
use sparse_rows::SparseRows;
use std::alloc::Global;
use std::marker::Brand;
use std::sync::ledger::{Blank, Ledger};
use stn_model::{OutOfMemory, PointId};

/// Takes the private points of a local problem one by one, each as the picker allows among those that are left: a candidate's
/// number is the point's, and its degree the number of points of the local problem, not yet taken, that are joined with it
/// through points already taken (the reference point and the shared points among them; arcs without direction, whatever they weigh).
///
/// A point fails where some other point that is not taken has two least weights with it, there and back, of walks of own arcs through
/// the points taken before, that sum below 0. Answers a conflict exactly where the agent has an own conflict: a negative cycle of own
/// arcs of whose points at most one is not private. Else the local problem is reduced. OutOfMemory where memory runs out.
///
/// Each arc of the local problem has a number: it was not narrowed.
pub fn eliminate_private(
    alloc: Global,
    local: &Local,
    picker: &Picker,
) -> Result<PrivateOutcome, OutOfMemory>
    requires numbered { all_numbered local.now.arcs ≡ true }
    ensures conflict { IfOk result (λ o. OfNetwork local.now (λ net. is_conflict o ≡ true ↔ HasOwnConflict net local.now.agent)) }
    ensures cycle { IfOk result (IfConflict (λ walk place other. OfNetwork local.now (λ net. IsOwnConflict net local.now.agent walk))) }
    ensures normal { IfOk result (IfConflict (λ walk place other. IsNormal walk)) }
    ensures stops { IfOk result (IfConflict (λ walk place other. IsStopped (post (picker.now.key.vtable, picker.now.key.value)) local.now place other)) }
    ensures local { IfOk result (IfReduced (λ r. r.local ≡ local.now)) }
    ensures private { IfOk result (IfReduced (λ r. AllByRecursion (λ p. is_private_in local.now p ≡ true) r.order)) }
    ensures once { IfOk result (IfReduced (λ r. AllDifferent r.order)) }
    ensures whole { IfOk result (IfReduced (λ r. (p : ℕ) → is_private_in local.now p ≡ true → is_in r.order p ≡ true)) }
    ensures picks { IfOk result (IfReduced (λ r. ArePicked (post (picker.now.key.vtable, picker.now.key.value)) local.now (reverse r.order))) }
    ensures summary { IfOk result (IfReduced (λ r. OfNetwork local.now (λ net. IsSummary net local.now.agent (map entry_of r.summary)))) }
{
    let rows = SparseRows::new(alloc, local.size())?;
    let elimination = SparseElimination::start(alloc, local, rows)?;
    take_picked::<Brand>(alloc, Blank::new(1), elimination, picker)
}

/// The same as [`eliminate_private`] in a given order, which holds each private point once and nothing else.
pub fn eliminate_listed(
    alloc: Global,
    local: &Local,
    order: &[PointId],
) -> Result<PrivateOutcome, OutOfMemory>
    requires numbered { all_numbered local.now.arcs ≡ true }
    requires private { AllByRecursion (λ p. is_private_in local.now p.0 ≡ true) order.now }
    requires once { AllDifferent (map (λ p. p.0) order.now) }
    requires whole { (p : ℕ) → is_private_in local.now p ≡ true → is_in (map (λ p. p.0) order.now) p ≡ true }
    ensures conflict { IfOk result (λ o. OfNetwork local.now (λ net. is_conflict o ≡ true ↔ HasOwnConflict net local.now.agent)) }
    ensures cycle { IfOk result (IfConflict (λ walk place other. OfNetwork local.now (λ net. IsOwnConflict net local.now.agent walk))) }
    ensures normal { IfOk result (IfConflict (λ walk place other. IsNormal walk)) }
    ensures place { IfOk result (IfConflict (λ walk place other. place < length order.now)) }
    ensures stops { IfOk result (IfConflict (λ walk place other. StopsAt local.now (reverse (take place (map (λ p. p.0) order.now))) (slice_index (map (λ p. p.0) order.now) place) other)) }
    ensures local { IfOk result (IfReduced (λ r. r.local ≡ local.now)) }
    ensures order { IfOk result (IfReduced (λ r. r.order ≡ map (λ p. p.0) order.now)) }
    ensures summary { IfOk result (IfReduced (λ r. OfNetwork local.now (λ net. IsSummary net local.now.agent (map entry_of r.summary)))) }
{
    let rows = SparseRows::new(alloc, local.size())?;
    let elimination = SparseElimination::start(alloc, local, rows)?;
    take_listed::<Brand>(alloc, Blank::new(1), elimination, order)
}

// Takes the private points as the picker allows, until none is left or one fails.
fn take_picked<L: Ledger>(
    alloc: Global,
    blank: Blank,
    elimination: SparseElimination,
    picker: &Picker,
) -> Result<PrivateOutcome, OutOfMemory>
    requires name { blank.name ≡ L.name }
    requires parts { blank.parts ≡ L.parts }
    requires some { blank.parts ≡ 1 }
    requires start { elimination.order ≡ [] }
    ensures { IfOk result (IsPickedOutcome (post (picker.now.key.vtable, picker.now.key.value)) elimination.local) }
{
    let mut steps = Steps::<L>::new(blank);
    let mut elimination = elimination;
    let mut met = Vec::new(alloc);
    let mut partial = Vec::new(alloc);
    let mut ranking = elimination.rank_all(alloc, picker)?;
    'taking: loop {
        let Some(place) = ranking.first() else {
            return reduced(alloc, elimination);
        };
        if let Some(other) = elimination.take(place, &mut met, &mut partial, &mut steps)? {
            return conflict(alloc, &elimination, place, other);
        }
        ranking.set(place, None);
        elimination.rank(picker, met.as_slice(), &mut ranking);
        // With the size comes that no more points are taken than there are, so that the loop ends.
        let _taken = elimination.size();
    }
}

// Takes the private points in their order, until one fails.
fn take_listed<L: Ledger>(
    alloc: Global,
    blank: Blank,
    elimination: SparseElimination,
    order: &[PointId],
) -> Result<PrivateOutcome, OutOfMemory>
    requires name { blank.name ≡ L.name }
    requires parts { blank.parts ≡ L.parts }
    requires some { blank.parts ≡ 1 }
    requires start { elimination.order ≡ [] }
    requires private { AllByRecursion (λ p. is_private_in elimination.local p.0 ≡ true) order.now }
    requires once { AllDifferent (map (λ p. p.0) order.now) }
    requires whole { (p : ℕ) → is_private_in elimination.local p ≡ true → is_in (reverse (map (λ p. p.0) order.now)) p ≡ true }
    ensures { IfOk result (IsListedOutcome elimination.local (map (λ p. p.0) order.now)) }
{
    let mut steps = Steps::<L>::new(blank);
    let mut elimination = elimination;
    let mut met = Vec::new(alloc);
    let mut partial = Vec::new(alloc);
    for n in 0..order.len() {
        let place = listed_place(&elimination, order, n);
        if let Some(other) = elimination.take(place, &mut met, &mut partial, &mut steps)? {
            return conflict(alloc, &elimination, place, other);
        }
    }
    reduced(alloc, elimination)
}

// The place of the next point of an order.
fn listed_place(elimination: &SparseElimination, order: &[PointId], n: usize) -> u32
    requires within { n < length order.now }
    requires taken { elimination.now.order ≡ take n (map (λ p. p.0) order.now) }
    requires private { AllByRecursion (λ p. is_private_in elimination.now.local p.0 ≡ true) order.now }
    requires once { AllDifferent (map (λ p. p.0) order.now) }
    ensures { IsNext elimination.now (slice_index (map (λ p. p.0) order.now) n) result }
{
    // With the size comes that it is a local problem, in which each private point has a place.
    let _size = elimination.size();
    let Some(place) = elimination.local().place_of(order[n]) else {
        unreachable!()
    };
    place
}

// The answer once all private points are taken.
fn reduced(alloc: Global, elimination: SparseElimination) -> Result<PrivateOutcome, OutOfMemory>
    requires { (p : ℕ) → is_private_in elimination.local p ≡ true → is_in (reverse elimination.order) p ≡ true }
    ensures { IfOk result (IsReducedFrom elimination) }
{
    // With the size comes what is known of the taken points, and with the summary what is known of its entries.
    let _taken = elimination.size();
    let reduced = summarise(alloc, elimination)?;
    let _told = reduced.summary();
    Ok(PrivateOutcome::Reduced(reduced))
}

// The answer where the point at a place fails.
fn conflict(
    alloc: Global,
    elimination: &SparseElimination,
    place: u32,
    other: u32,
) -> Result<PrivateOutcome, OutOfMemory>
    requires within { (place < length elimination.now.local.points) × (other < length elimination.now.local.points) }
    requires private { is_private_in elimination.now.local (point_at elimination.now.local.points place) ≡ true }
    requires fails { Fails elimination.now.local (reverse elimination.now.order) (point_at elimination.now.local.points place) (point_at elimination.now.local.points other) }
    ensures { IfOk result (IsConflictFrom elimination.now (point_at elimination.now.local.points other)) }
{
    let walk = own_conflict(alloc, elimination, place, other)?;
    // With the size comes that the taken points are few enough to count.
    let _size = elimination.size();
    Ok(PrivateOutcome::Conflict {
        walk,
        place: elimination.order().len() as u32,
        other: elimination.local().point(other),
    })
}
