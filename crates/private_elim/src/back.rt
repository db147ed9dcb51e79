//! The back sweep: an agent's least bounds with its private points, from those between the points that others see.
ghost use Rattle.std.specs.Prelude.{◌≡◌, ℕ, ◌<◌, ◌≤◌, ◌||◌, true, false, None, Some, IfOk, IfSome, IfNone, is_some, length, slice_index_or};
ghost use Rattle.std.specs.List.{AllPairs};
ghost use Rattle.std.specs.Option.{option_map};
ghost use Rattle.dist_rows.specs.Cells.{IsAbove};
ghost use Rattle.elim_step.specs.Eliminated.{weight_at, point_at};
ghost use Rattle.private_elim.specs.Locals.{place_in};
ghost use Rattle.private_elim.specs.Backs.{bound_between, cell_in};
ghost use Rattle.private_elim.specs.Throughs.{IsThrough, through_between};

pub use crate::back_revisits::back_sweep;
use dist_rows::{Cell, Rows, Via};
use sparse_rows::SparseRows;
use std::alloc::Global;
use std::marker::Model;
use stn_model::{OutOfMemory, PointId};

/// What a back sweep gives for pairs of an agent's points, one of them at least private: their least bounds.
#[derive(Drop)]
pub struct Bounds<R: Rows> {
    pub(crate) points: Vec<u32>,
    pub(crate) private: Vec<bool>,
    pub(crate) finals: R,
}

/// The same over rows for sparse graphs: memory for joined pairs only.
pub type PrivateBounds = Bounds<SparseRows>;

impl<R: Rows> Model for Bounds<R> {
    ghost use Rattle.std.specs.Prelude.{◌≡◌, ◌<◌, ◌≤◌, length};
    ghost use Rattle.stn_model.specs.Limits.{most_points};
    ghost use Rattle.std.specs.List.{AllPairs};
    ghost use Rattle.private_elim.specs.Backs.{BoundsView, bounds_view};
    ghost use Rattle.private_elim.specs.Throughs.{AreThrough};

    ghost Value = { BoundsView };

    ghost view = { λ b. bounds_view b.points.items b.private.items (R.at b.finals) };

    ghost invariant = { λ b. (R.places b.finals ≡ length b.points.items) × (length b.private.items ≡ length b.points.items) × AllPairs (λ p q. p < q) b.points.items × (length b.points.items ≤ most_points) × AreThrough (length b.points.items) b.private.items (R.at b.finals) };
}

impl<R: Rows> Bounds<R> {
    /// What the sweep gave for `time(j) - time(i)`, in the network's unit of time: the least bound, where it was handed least bounds of
    /// a consistent network. None where one point is not of the local problem, neither is private, or the pair is not joined; and only
    /// there, for such finals. Takes no memory.
    pub fn get(&self, i: PointId, j: PointId) -> Option<i128>
        ensures { result ≡ bound_between self.now i.0 j.0 }
    {
        match self.cell(i, j) {
            None => None,
            Some(cell) => Some(cell.weight),
        }
    }

    // The final cell between two points of which one is private.
    fn cell(&self, i: PointId, j: PointId) -> Option<Cell>
        ensures value { result ≡ cell_in self.now (place_in self.now.points i.0) (place_in self.now.points j.0) }
        ensures through { IfSome result (λ c. IsThrough (length self.now.points) c.via) }
    {
        let Some(from) = self.place_of(i) else {
            return None;
        };
        let Some(to) = self.place_of(j) else {
            return None;
        };
        self.cell_at(from, to)
    }

    // The same between two places.
    fn cell_at(&self, from: u32, to: u32) -> Option<Cell>
        requires { (from < length self.now.points) × (to < length self.now.points) }
        ensures value { result ≡ cell_in self.now (Some from) (Some to) }
        ensures through { IfSome result (λ c. IsThrough (length self.now.points) c.via) }
    {
        if is_private_pair(self.private.as_slice(), from, to) {
            return self.finals.get(from, to);
        }
        None
    }

    /// The point through which the bound from `i` to `j` came: a later neighbour of the one of them that was taken before the other.
    /// Where `i` was, the bound is the forward weight from `i` to that point, and from there the bound to `j`; where `j` was, it is
    /// the bound from `i` to that point, and from there the forward weight to `j`. So where the answer is the pair's other point, the
    /// bound is the forward weight of the pair. None exactly where the pair has no bound. Takes no memory.
    pub fn through(&self, i: PointId, j: PointId) -> Option<PointId>
        ensures value { option_map (λ p. p.0) result ≡ through_between self.now i.0 j.0 }
        ensures there { is_some result ≡ is_some (bound_between self.now i.0 j.0) }
    {
        let Some(cell) = self.cell(i, j) else {
            return None;
        };
        let Via::Through(via) = cell.via else {
            unreachable!();
        };
        Some(self.point(via))
    }

    /// The least point above `after`, or of all points where that is None, to which there is a bound from `i`: so the points with a
    /// bound are met one by one. None exactly where there is no such point. Walks along the row of `i` alone, and takes no memory.
    pub fn next(&self, i: PointId, after: Option<PointId>) -> Option<PointId>
        ensures some { IfSome result (λ p. IsAbove p.0 (option_map (λ p. p.0) after) × (is_some (bound_between self.now i.0 p.0) ≡ true)) }
        ensures least { IfSome result (λ p. (q : ℕ) → q < p.0 → IsAbove q (option_map (λ p. p.0) after) → bound_between self.now i.0 q ≡ None) }
        ensures none { IfNone result ((q : ℕ) → IsAbove q (option_map (λ p. p.0) after) → bound_between self.now i.0 q ≡ None) }
    {
        let Some(row) = self.place_of(i) else {
            return None;
        };
        let from = self.first_above(after);
        let Some(place) = self.next_place(row, from) else {
            return None;
        };
        Some(self.point(place))
    }

    // The point at a place.
    fn point(&self, place: u32) -> PointId
        requires { place < length self.now.points }
        ensures value { result.0 ≡ point_at self.now.points place }
        ensures rising { AllPairs (λ p q. p < q) self.now.points }
    {
        PointId(self.points[place as usize])
    }

    // The place of the least point above another, or of all: the number of points that are not above.
    fn first_above(&self, after: Option<PointId>) -> u32
        ensures below { (k : ℕ) → k < result → IsAbove (point_at self.now.points k) (option_map (λ p. p.0) after) → ⊥ }
        ensures above { (k : ℕ) → result ≤ k → k < length self.now.points → IsAbove (point_at self.now.points k) (option_map (λ p. p.0) after) }
    {
        let Some(after) = after else {
            return 0;
        };
        match self.points.binary_search(&after.0) {
            Ok(place) => place as u32 + 1,
            Err(place) => place as u32,
        }
    }

    // The least place from a place on to which there is a cell from another, where one of the two is private.
    fn next_place(&self, row: u32, from: u32) -> Option<u32>
        requires { row < length self.now.points }
        ensures some { IfSome result (λ k. (from ≤ k) × (k < length self.now.points) × (is_some (cell_in self.now (Some row) (Some k)) ≡ true)) }
        ensures least { IfSome result (λ k. (m : ℕ) → from ≤ m → m < k → cell_in self.now (Some row) (Some m) ≡ None) }
        ensures none { IfNone result ((m : ℕ) → from ≤ m → cell_in self.now (Some row) (Some m) ≡ None) }
    {
        if !self.some_private(row, from) {
            return None;
        }
        let mut first = from;
        while let Some(place) = self.finals.next_neighbour(row, first.checked_sub(1)) {
            if self.cell_at(row, place).is_some() {
                return Some(place);
            }
            first = place + 1;
        }
        None
    }

    // Whether a place, or one of those from another one on, is private: between others there is no bound.
    fn some_private(&self, row: u32, from: u32) -> bool
        requires { row < length self.now.points }
        ensures { result ≡ false → (m : ℕ) → from ≤ m → cell_in self.now (Some row) (Some m) ≡ None }
    {
        self.private[row as usize] || any_from(self.private.as_slice(), from)
    }

    /// Equal bounds, or OutOfMemory.
    pub fn copy(&self, alloc: Global) -> Result<Bounds<R>, OutOfMemory>
        ensures { IfOk result (λ b. b ≡ self.now) }
    {
        let points = Vec::from_slice(alloc, self.points.as_slice())?;
        let private = Vec::from_slice(alloc, self.private.as_slice())?;
        let finals = self.finals.copy(alloc)?;
        Ok(Bounds {
            points,
            private,
            finals,
        })
    }

    // The place of a point; None exactly where it is no point of the local problem.
    fn place_of(&self, point: PointId) -> Option<u32>
        ensures value { result ≡ place_in self.now.points point.0 }
        ensures within { IfSome result (λ k. k < length self.now.points) }
    {
        match self.points.binary_search(&point.0) {
            Ok(place) => Some(place as u32),
            Err(_) => None,
        }
    }
}

// Whether one of two places is private.
fn is_private_pair(private: &[bool], p: u32, q: u32) -> bool
    requires { (p < length private.now) × (q < length private.now) }
    ensures { result ≡ (slice_index_or private.now p false || slice_index_or private.now q false) }
{
    private[p as usize] || private[q as usize]
}

// Whether one of the flags from a place on is set.
fn any_from(flags: &[bool], from: u32) -> bool
    ensures { result ≡ false → (m : ℕ) → from ≤ m → slice_index_or flags.now m false ≡ false }
{
    for n in from as usize..flags.len() {
        if flags[n] {
            return true;
        }
    }
    false
}
