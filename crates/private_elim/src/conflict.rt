//! The own conflict that a failing point shows.
ghost use Rattle.std.specs.Prelude.{◌≡◌, ℕ, ◌<◌, true, IfOk, length, reverse};
ghost use Rattle.stn_model.specs.Walks.{IsNormal};
ghost use Rattle.stn_model.specs.Conflicts.{IsOwnConflict};
ghost use Rattle.elim_step.specs.Eliminated.{point_at};
ghost use Rattle.private_elim.specs.Locals.{is_private_in};
ghost use Rattle.private_elim.specs.Taken.{Fails};
ghost use Rattle.private_elim.specs.Reductions.{OfNetwork};

use crate::elimination::SparseElimination;
use crate::numbers::numbers_of;
use std::alloc::Global;
use stn_model::OutOfMemory;
use stn_walk::{Walk, negative_cycle};

/// The cycle of an own conflict, by the numbers of its arcs in the network, where the private point at a place fails with another.
pub fn own_conflict(
    alloc: Global,
    elimination: &SparseElimination,
    place: u32,
    other: u32,
) -> Result<Walk, OutOfMemory>
    requires within { (place < length elimination.now.local.points) × (other < length elimination.now.local.points) }
    requires private { is_private_in elimination.now.local (point_at elimination.now.local.points place) ≡ true }
    requires fails { Fails elimination.now.local (reverse elimination.now.order) (point_at elimination.now.local.points place) (point_at elimination.now.local.points other) }
    ensures cycle { IfOk result (λ w. OfNetwork elimination.now.local (λ net. IsOwnConflict net elimination.now.local.agent w)) }
    ensures normal { IfOk result IsNormal }
{
    // With the size comes that the taken points are private, and that no closed walk through them is negative.
    let _facts = elimination.size();
    let mut closed = elimination.unfold(alloc, place, other)?;
    let back = elimination.unfold(alloc, other, place)?;
    closed.extend_from_slice(back.as_slice())?;
    let local = elimination.local();
    let cycle = negative_cycle(alloc, local, closed.as_slice())?;
    let numbers = numbers_of(alloc, local, cycle.as_slice())?;
    Ok(Walk::new(numbers))
}
