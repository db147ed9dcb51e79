//! The walk that a cell's weight is the weight of, out of the origins of the cells.
ghost use Rattle.std.specs.Prelude.{◌≡◌, ◌≢◌, ◌<◌, ◌⊎◌, true, Some, is_some, IfOk, length, reverse};
ghost use Rattle.std.specs.List.{AllByRecursion};
ghost use Rattle.stn_model.specs.Walks as walks;
ghost use Rattle.stn_walk.specs.Eliminations.{is_in};
ghost use Rattle.elim_step.specs.Eliminated.{forward_of, point_at};
ghost use Rattle.elim_step.specs.declared.leaves.Leaf.{Leaf};
ghost use Rattle.elim_step.specs.Unfolds.{Places};
ghost use Rattle.private_elim.specs.Leaves.{is_given, given_in, numbers_of};
ghost use Rattle.private_elim.specs.Locals.{arcs_in};

use crate::elimination::Elimination;
use dist_rows::{Rows, Via};
use elim_step::{Leaf, unfold};
use std::alloc::Global;
use stn_model::OutOfMemory;

// The number of the arc that a leaf is.
fn given_number(leaf: Leaf) -> u32
    requires { is_given leaf.via ≡ true }
    ensures { result ≡ given_in leaf.via }
{
    let Via::Given(number) = leaf.via else {
        unreachable!()
    };
    number
}

// The numbers of the arcs that leaves are.
fn given_numbers(alloc: Global, leaves: &[Leaf]) -> Result<Vec<u32>, OutOfMemory>
    requires { AllByRecursion (λ (l : Leaf). is_given l.via ≡ true) leaves.now }
    ensures { IfOk result (λ ns. ns.items ≡ numbers_of leaves.now) }
{
    let mut numbers = Vec::with_capacity(alloc, leaves.len())?;
    for &leaf in leaves {
        numbers.push_reserved(given_number(leaf));
    }
    Ok(numbers)
}

impl<R: Rows> Elimination<R> {
    /// The arcs of a walk from a place to another, by their numbers in the local problem, through taken points that come before
    /// both: one of the cell's weight.
    pub fn unfold(&self, alloc: Global, from: u32, to: u32) -> Result<Vec<u32>, OutOfMemory>
        requires within { (from < length self.now.local.points) × (to < length self.now.local.points) }
        requires apart { from ≢ to }
        requires there { is_some (forward_of (arcs_in self.now.local) (reverse self.now.order) (point_at self.now.local.points from) (point_at self.now.local.points to)) ≡ true }
        ensures walk { IfOk result (λ ns. walks.IsWalk (arcs_in self.now.local) (point_at self.now.local.points from) (point_at self.now.local.points to) ns.items) }
        ensures weight { IfOk result (λ ns. Some (walks.weight (arcs_in self.now.local) ns.items)
            ≡ forward_of (arcs_in self.now.local) (reverse self.now.order) (point_at self.now.local.points from) (point_at self.now.local.points to)) }
        ensures through { IfOk result (λ ns. AllByRecursion (λ p. (is_in (reverse self.now.order) p ≡ true) ⊎ (p ≡ point_at self.now.local.points to)) (walks.heads (arcs_in self.now.local) ns.items)) }
    {
        let leaves = self.leaves(alloc, from, to)?;
        given_numbers(alloc, leaves.as_slice())
    }

    // The leaves of that walk.
    fn leaves(&self, alloc: Global, from: u32, to: u32) -> Result<Vec<Leaf>, OutOfMemory>
        ghost places: { Places }
        requires points { places.points ≡ self.now.local.points }
        requires taken { places.es ≡ reverse self.now.order }
        requires within { (from < length self.now.local.points) × (to < length self.now.local.points) }
        requires apart { from ≢ to }
        requires there { is_some (forward_of (arcs_in self.now.local) (reverse self.now.order) (point_at self.now.local.points from) (point_at self.now.local.points to)) ≡ true }
        ensures given { IfOk result (λ v. AllByRecursion (λ (l : Leaf). is_given l.via ≡ true) v.items) }
        ensures walk { IfOk result (λ v. walks.IsWalk (arcs_in self.now.local) (point_at self.now.local.points from) (point_at self.now.local.points to) (numbers_of v.items)) }
        ensures weight { IfOk result (λ v. Some (walks.weight (arcs_in self.now.local) (numbers_of v.items))
            ≡ forward_of (arcs_in self.now.local) (reverse self.now.order) (point_at self.now.local.points from) (point_at self.now.local.points to)) }
        ensures through { IfOk result (λ v. AllByRecursion (λ p. (is_in (reverse self.now.order) p ≡ true) ⊎ (p ≡ point_at self.now.local.points to)) (walks.heads (arcs_in self.now.local) (numbers_of v.items))) }
    {
        let leaves = unfold(alloc, &self.rows, from, to)?;
        Ok(leaves)
    }
}
