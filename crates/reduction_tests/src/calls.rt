//! Calls whose conditions are tested first.
ghost use Rattle.std.specs.Prelude.{◌≡◌, ℕ, true, map};
ghost use Rattle.std.specs.List.{AllByRecursion};
ghost use Rattle.stn_model.specs.Walks.{AllDifferent};
ghost use Rattle.stn_walk.specs.Eliminations.{is_in};
ghost use Rattle.private_elim.specs.Locals.{all_numbered, is_private_in};

use crate::asked::{either, is_listed};
use elim_step::Window;
use private_elim::{Local, PrivateOutcome, Reduced, eliminate_listed};
use std::alloc::Global;
use std::test::Fail;
use stn_model::PointId;
use stn_walk::Walk;

// Whether each of these points is private.
fn are_private(local: &Local, order: &[PointId]) -> bool
    ensures { result ≡ true → AllByRecursion (λ p. is_private_in local.now p.0 ≡ true) order.now }
{
    for p in order {
        if !local.is_private_point(*p) {
            return false;
        }
    }
    true
}

// Whether no point is listed twice.
fn are_different(order: &[PointId]) -> bool
    ensures { result ≡ true → AllDifferent (map (λ p. p.0) order.now) }
{
    for n in 0..order.len() {
        if is_listed(&order[..n], order[n]) {
            return false;
        }
    }
    true
}

// Whether each private point is listed.
fn are_whole(local: &Local, order: &[PointId]) -> bool
    ensures { result ≡ true → (p : ℕ) → is_private_in local.now p ≡ true → is_in (map (λ p. p.0) order.now) p ≡ true }
{
    for place in 0..local.size() {
        if local.is_private(place) && !is_listed(order, local.point(place)) {
            return false;
        }
    }
    true
}

/// The private points taken in a given order.
pub fn in_order(alloc: Global, local: &Local, order: &[PointId]) -> Result<PrivateOutcome, Fail>
    requires { all_numbered local.now.arcs ≡ true }
{
    if !are_private(local, order) || !are_different(order) || !are_whole(local, order) {
        return Err(Fail::new("no order"));
    }
    Ok(eliminate_listed(alloc, local, order)?)
}

/// The walk of a pair.
pub fn walk_of(alloc: Global, reduced: &Reduced, i: u32, j: u32) -> Result<Walk, Fail> {
    let (i, j) = (PointId(i), PointId(j));
    let entry = reduced.summary().weight(i, j);
    let forward = reduced.forward(i, j);
    if !either(entry.is_some(), forward.is_some()) {
        return Err(Fail::new("no walk"));
    }
    Ok(reduced.walk(alloc, i, j)?)
}

/// A local problem narrowed to a window of one point.
pub fn narrowed(
    alloc: Global,
    local: &Local,
    point: u32,
    lo: i128,
    hi: i128,
) -> Result<Local, Fail> {
    if point == 0 || lo < 0 || 1_000 < lo || hi < 0 || 1_000 < hi {
        return Err(Fail::new("no window"));
    }
    let Some(_) = local.place_of(PointId(point)) else {
        return Err(Fail::new("no point"));
    };
    let window = Window {
        point: PointId(point),
        lo,
        hi,
    };
    Ok(local.narrowed(alloc, [window].as_slice())?)
}
