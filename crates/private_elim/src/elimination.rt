//! A local problem of which some private points are taken: the weights between its points through those.
ghost use Rattle.std.specs.Prelude.{◌≡◌, ◌≢◌, ℕ, ◌+◌, ◌*◌, ◌<◌, ◌≤◌, ◌++◌, ◌∷◌, [], true, false, pos, neg_ℤ, ◌≤ℤ◌, map, None, IfOk, IfSome, OnOk, OnErr, MatchOption, not, ◌&&◌, ◌==◌, length, reverse};
ghost use Rattle.stn_model.specs.Limits.{greatest_walk};
ghost use Rattle.stn_walk.specs.Eliminations.{is_in, before_both};
ghost use Rattle.stn_walk.specs.Joins.{joined_of};
ghost use Rattle.elim_step.specs.Eliminated.{forward_of, point_at, weight_at};
ghost use Rattle.private_elim.specs.Locals.{arcs_in, is_private_in};
ghost use Rattle.dist_rows.specs.Places.{AreRisingPlaces};
ghost use Rattle.private_elim.specs.Met.{AreMet};
ghost use Rattle.private_elim.specs.SummaryRows.{joined_at};
ghost use Rattle.private_elim.specs.Taken.{TakenView, StopsAt, HasTaken};

use crate::local::Local;
use crate::met::{count_gone, list_partial};
use dist_rows::{Cell, Rows};
use elim_step::{Found, Joins, Steps, eliminate_with_room};
use sparse_rows::SparseRows;
use std::alloc::Global;
use std::marker::Model;
use std::sync::ledger::Ledger;
use stn_model::{OutOfMemory, PointId};

/// A local problem of which some private points are taken, with what is left between the others.
#[derive(Drop)]
pub struct Elimination<R: Rows> {
    pub(crate) local: Local,
    pub(crate) rows: R,
    pub(crate) joins: Joins,
    pub(crate) remain: Vec<bool>,
    /// By place: with how many places that do not remain this one is joined, where it remains.
    pub(crate) gone: Vec<u32>,
    pub(crate) order: Vec<PointId>,
}

/// The same over rows for sparse graphs.
pub type SparseElimination = Elimination<SparseRows>;

impl<R: Rows> Model for Elimination<R> {
    ghost use Rattle.private_elim.specs.Taken.{TakenView};

    ghost Value = { TakenView };

    ghost use Rattle.std.specs.Prelude.{map};
    ghost use Rattle.private_elim.specs.Underway.{taken_view, IsUnderway};

    ghost view = { λ e. taken_view e.local e.order.items };

    ghost invariant = { λ e. IsUnderway (record { local = e.local; order = map (λ p. p.0) e.order.items; places = R.places e.rows; at = R.at e.rows; joins = e.joins; remain = e.remain.items; gone = e.gone.items; room = R.has_room e.rows }) };
}

impl<R: Rows> Elimination<R> {
    /// Takes the private point at this place. Gives the least place of another point that is left and with which it fails: the
    /// weights from the one to the other and back sum below 0. Then nothing changes; else the point is taken. Writes the places that
    /// are left and joined with it into `met`, and those of them that are not joined with all others that are left into `partial`.
    /// With d places in `met` the counter rises by at most `d * d + d`, and by at least one where d is above 0.
    pub fn take<L: Ledger>(
        &mut self,
        place: u32,
        met: &mut Vec<u32>,
        partial: &mut Vec<u32>,
        steps: &mut Steps<L>,
    ) -> Result<Option<u32>, OutOfMemory>
        requires within { place < length self.old.local.points }
        requires private { is_private_in self.old.local (point_at self.old.local.points place) ≡ true }
        requires left { is_in (reverse self.old.order) (point_at self.old.local.points place) ≡ false }
        ensures local { self.new.local ≡ self.old.local }
        ensures taken { IfOk result (λ r. MatchOption r (self.new.order ≡ self.old.order ++ point_at self.old.local.points place ∷ [])
            (λ other. (other < length self.old.local.points) × (self.new.order ≡ self.old.order)
            × StopsAt self.old.local (reverse self.old.order) (point_at self.old.local.points place) (point_at self.old.local.points other))) }
        ensures met { IfOk result (λ _. AreMet self.old.local (reverse self.old.order) place met.new.items) }
        ensures err { OnErr result (self.new ≡ self.old) }
        ensures most { steps.new ≤ steps.old + (length met.new.items * length met.new.items + length met.new.items) }
        ensures some { IfOk result (λ _. 0 < length met.new.items → steps.old < steps.new) }
    {
        let point = self.local.point(place);
        self.joins.neighbours(place, self.remain.as_slice(), met)?;
        // Others than itself that are left, for each place that is left.
        let others = self.local.size() - self.order.len() as u32 - 1;
        list_partial(
            &self.joins,
            self.gone.as_slice(),
            others,
            met.as_slice(),
            partial,
        )?;
        self.rows.make_room_among(partial.as_slice())?;
        self.joins.reserve_all(partial.as_slice())?;
        self.order.reserve(1)?;
        match eliminate_with_room(&mut self.rows, place, met.as_slice(), steps) {
            Found::Negative(other) => Ok(Some(other)),
            Found::Clear => {
                self.joins.join_all_reserved(partial.as_slice());
                self.remain[place as usize] = false;
                count_gone(self.gone.as_mut_slice(), met.as_slice());
                self.order.push_reserved(point);
                Ok(None)
            }
        }
    }

    /// The number of places.
    pub fn size(&self) -> u32
        ensures value { result ≡ length self.now.local.points }
        ensures facts { HasTaken self.now }
    {
        self.local.size()
    }

    /// The local problem.
    pub fn local(&self) -> &Local
        ensures { result.now ≡ self.now.local }
    {
        &self.local
    }

    /// The points taken, in their order.
    pub fn order(&self) -> &[PointId]
        ensures { map (λ p. p.0) result.now ≡ self.now.order }
    {
        self.order.as_slice()
    }

    /// Lists the places that are left and joined with one, by rising number.
    pub fn list_met(&self, place: u32, met: &mut Vec<u32>) -> Result<(), OutOfMemory>
        requires { place < length self.now.local.points }
        ensures rising { OnOk result (AreRisingPlaces met.new.items) }
        ensures within { OnOk result ((p : ℕ) → is_in met.new.items p ≡ true → p < length self.now.local.points) }
        ensures each { OnOk result ((p : ℕ) → p < length self.now.local.points → is_in met.new.items p ≡ (not (is_in (reverse self.now.order) (point_at self.now.local.points p)) && not (place == p) && joined_at self.now place p)) }
        ensures facts { HasTaken self.now }
    {
        self.joins.neighbours(place, self.remain.as_slice(), met)?;
        Ok(())
    }

    /// The weight from one place to another through the taken points that come before both; none from a place to itself.
    pub fn weight(&self, from: u32, to: u32) -> Option<i128>
        requires within { (from < length self.now.local.points) × (to < length self.now.local.points) }
        ensures same { from ≡ to → result ≡ None }
        ensures value { from ≢ to → result ≡ forward_of (arcs_in self.now.local) (reverse self.now.order) (point_at self.now.local.points from) (point_at self.now.local.points to) }
        ensures light { IfSome result (λ w. (neg_ℤ (pos greatest_walk) ≤ℤ w) × (w ≤ℤ pos greatest_walk)) }
    {
        weight_of(self.rows.get(from, to))
    }

    /// Whether two places are joined through the taken points that come before both; a place is not joined with itself.
    pub fn is_joined(&self, i: u32, j: u32) -> bool
        requires within { (i < length self.now.local.points) × (j < length self.now.local.points) }
        ensures same { i ≡ j → result ≡ false }
        ensures value { i ≢ j → result ≡ joined_of (arcs_in self.now.local) (before_both (reverse self.now.order) (point_at self.now.local.points i) (point_at self.now.local.points j))
            (point_at self.now.local.points i) (point_at self.now.local.points j) }
    {
        self.joins.get(i, j)
    }

    /// The same local problem with the same points taken.
    pub fn copy(&self, alloc: Global) -> Result<Elimination<R>, OutOfMemory>
        ensures { IfOk result (λ e. e ≡ self.now) }
    {
        let local = self.local.copy(alloc)?;
        let rows = self.rows.copy(alloc)?;
        let joins = self.joins.copy(alloc)?;
        let remain = Vec::from_slice(alloc, self.remain.as_slice())?;
        let gone = Vec::from_slice(alloc, self.gone.as_slice())?;
        let order = Vec::from_slice(alloc, self.order.as_slice())?;
        Ok(Elimination {
            local,
            rows,
            joins,
            remain,
            gone,
            order,
        })
    }
}

// The weight of a cell.
fn weight_of(cell: Option<Cell>) -> Option<i128>
    ensures { result ≡ weight_at cell }
{
    match cell {
        None => None,
        Some(cell) => Some(cell.weight),
    }
}
