//! The back sweep: each private point is revisited, the last one taken first.
ghost use Rattle.std.specs.Prelude.{◌≡◌, ℕ, ◌+◌, ◌<◌, true, false, ◌≢◌, None, IfOk, OnOk, is_some, length, List, reverse, slice_index_or};
ghost use Rattle.stn_walk.specs.Eliminations.{is_in};
ghost use Rattle.elim_step.specs.declared.summary.SummaryEntry.{SummaryEntry};
ghost use Rattle.elim_step.specs.Eliminated.{point_at};
ghost use Rattle.private_elim.specs.Locals.{is_private_in};
ghost use Rattle.private_elim.specs.Backs.{bound_between, IsPrivatePair, HoldsFinals, IsLeastIn};
ghost use Rattle.private_elim.specs.Parts.{OfPart};
ghost use Rattle.private_elim.specs.ReducedViews.{IsReduced};
ghost use Rattle.private_elim.specs.SummaryRows.{joined_at};
ghost use Rattle.private_elim.specs.Sweeps.{HasRoomAll, IsSwept};
ghost use Rattle.private_elim.specs.Throughs.{CameThrough};

use crate::back::{Bounds, PrivateBounds};
use crate::back_start::{give_finals, points_by_place, private_places, seen_places};
use crate::elimination::Elimination;
use crate::reduced::Reduced;
use dist_rows::Rows;
use elim_step::{Steps, Summary, revisit_rows};
use sparse_rows::SparseRows;
use std::alloc::Global;
use std::marker::Brand;
use std::sync::ledger::{Blank, Ledger};
use stn_model::OutOfMemory;

impl<R: Rows> Elimination<R> {
    // The place of the point of number n in the order.
    fn place_taken(&self, n: usize) -> u32
        requires { n < length self.now.order }
        ensures within { result < length self.now.local.points }
        ensures point { point_at self.now.local.points result ≡ point_at self.now.order n }
    {
        match self.local.place_of(self.order[n]) {
            Some(place) => place,
            None => unreachable!(),
        }
    }

    // Makes room for the pairs of a place with each that is joined with it.
    fn make_room_at(
        &self,
        place: u32,
        all: &[bool],
        joined: &mut Vec<u32>,
        finals: &mut R,
    ) -> Result<(), OutOfMemory>
        requires within { place < length self.now.local.points }
        requires size { R.places finals.old ≡ length self.now.local.points }
        requires len { length all.now ≡ length self.now.local.points }
        requires all { (p : ℕ) → p < length all.now → slice_index_or all.now p false ≡ true }
        ensures size { R.places finals.new ≡ R.places finals.old }
        ensures cells { (p q : ℕ) → R.at finals.new p q ≡ R.at finals.old p q }
        ensures kept { (p q : ℕ) → R.has_room finals.old p q ≡ true → R.has_room finals.new p q ≡ true }
        ensures room { OnOk result ((q : ℕ) → q < length self.now.local.points → place ≢ q → joined_at self.now place q ≡ true → R.has_room finals.new place q ≡ true) }
    {
        self.joins.neighbours(place, all, joined)?;
        finals.make_room_row(place, joined.as_slice())?;
        Ok(())
    }

    // Makes room for all joined pairs, row by row, so that the sweep itself takes no memory.
    fn make_room_all(&self, alloc: Global, finals: &mut R) -> Result<(), OutOfMemory>
        requires size { R.places finals.old ≡ length self.now.local.points }
        ensures size { R.places finals.new ≡ R.places finals.old }
        ensures cells { (p q : ℕ) → R.at finals.new p q ≡ R.at finals.old p q }
        ensures room { OnOk result (HasRoomAll self.now (R.has_room finals.new)) }
    {
        let all = vec![in alloc; true; self.size() as usize]?;
        let mut joined = Vec::new(alloc);
        for place in 0..self.size() {
            self.make_room_at(place, all.as_slice(), &mut joined, finals)?;
        }
        Ok(())
    }

    // Revisits the point of number n in the order, once those after it are revisited.
    fn revisit<L: Ledger>(
        &self,
        n: usize,
        finals: &mut R,
        done: &mut Vec<bool>,
        later: &mut Vec<u32>,
        steps: &mut Steps<L>,
    ) -> Result<(), OutOfMemory>
        ghost entries: { List SummaryEntry }
        requires within { n < length self.now.order }
        requires size { R.places finals.old ≡ length self.now.local.points }
        requires room { HasRoomAll self.now (R.has_room finals.old) }
        requires swept { IsSwept self.now.local self.now.order entries (n + 1) (R.at finals.old) done.old.items }
        ensures size { R.places finals.new ≡ R.places finals.old }
        ensures room { (p q : ℕ) → R.has_room finals.new p q ≡ R.has_room finals.old p q }
        ensures swept { OnOk result (IsSwept self.now.local self.now.order entries n (R.at finals.new) done.new.items) }
    {
        let place = self.place_taken(n);
        self.joins.neighbours(place, done.as_slice(), later)?;
        revisit_rows(&self.rows, finals, place, later.as_slice(), steps);
        done[place as usize] = true;
        Ok(())
    }

    // Revisits all points of the order, the last one first.
    fn revisit_all<L: Ledger>(
        &self,
        alloc: Global,
        finals: &mut R,
        done: &mut Vec<bool>,
        steps: &mut Steps<L>,
    ) -> Result<(), OutOfMemory>
        ghost entries: { List SummaryEntry }
        requires size { R.places finals.old ≡ length self.now.local.points }
        requires room { HasRoomAll self.now (R.has_room finals.old) }
        requires swept { IsSwept self.now.local self.now.order entries (length self.now.order) (R.at finals.old) done.old.items }
        ensures size { R.places finals.new ≡ R.places finals.old }
        ensures room { (p q : ℕ) → R.has_room finals.new p q ≡ R.has_room finals.old p q }
        ensures swept { OnOk result (IsSwept self.now.local self.now.order entries 0 (R.at finals.new) done.new.items) }
    {
        let mut later = Vec::new(alloc);
        let mut left = self.order.len();
        while left > 0 {
            left -= 1;
            self.revisit(left, finals, done, &mut later, steps)?;
        }
        Ok(())
    }

    // The bounds, once all private points are taken, in rows without a cell.
    fn sweep<L: Ledger>(
        &self,
        alloc: Global,
        finals: &Summary,
        rows: R,
        blank: Blank,
    ) -> Result<Bounds<R>, OutOfMemory>
        ghost entries: { List SummaryEntry }
        requires entries { finals.now ≡ entries }
        requires size { R.places rows ≡ length self.now.local.points }
        requires empty { (p q : ℕ) → R.at rows p q ≡ None }
        requires name { blank.name ≡ L.name }
        requires parts { (blank.parts ≡ L.parts) × (blank.parts ≡ 1) }
        requires whole { (p : ℕ) → is_private_in self.now.local p ≡ true → is_in (reverse self.now.order) p ≡ true }
        ensures only { IfOk result (λ b. (summary : List SummaryEntry) (i j : ℕ) → is_some (bound_between b i j) ≡ true
            → IsPrivatePair (record { local = self.now.local; order = self.now.order; summary = summary }) i j) }
        ensures least { IfOk result (λ b. OfPart self.now.local (λ net. HoldsFinals net self.now.local.agent entries
            → (summary : List SummaryEntry) (i j : ℕ) → IsPrivatePair (record { local = self.now.local; order = self.now.order; summary = summary }) i j
            → IsLeastIn net i j (bound_between b i j))) }
        ensures through { IfOk result (λ b. (summary : List SummaryEntry) → IsReduced self.now.local self.now.order summary
            → (i j : ℕ) → is_some (bound_between b i j) ≡ true
            → CameThrough (record { local = self.now.local; order = self.now.order; summary = summary }) entries b i j) }
    {
        let entries = finals.entries();
        let points = points_by_place(alloc, &self.local)?;
        let private = private_places(alloc, &self.local)?;
        let mut done = seen_places(alloc, &private)?;
        let mut rows = rows;
        self.make_room_all(alloc, &mut rows)?;
        give_finals(&self.local, entries, &mut rows)?;
        let mut steps = Steps::<L>::new(blank);
        self.revisit_all(alloc, &mut rows, &mut done, &mut steps)?;
        Ok(Bounds {
            points,
            private,
            finals: rows,
        })
    }

    // The same, with a counter of its own.
    fn bounds(&self, alloc: Global, finals: &Summary, rows: R) -> Result<Bounds<R>, OutOfMemory>
        requires size { R.places rows ≡ length self.now.local.points }
        requires empty { (p q : ℕ) → R.at rows p q ≡ None }
        requires whole { (p : ℕ) → is_private_in self.now.local p ≡ true → is_in (reverse self.now.order) p ≡ true }
        ensures only { IfOk result (λ b. (summary : List SummaryEntry) (i j : ℕ) → is_some (bound_between b i j) ≡ true
            → IsPrivatePair (record { local = self.now.local; order = self.now.order; summary = summary }) i j) }
        ensures least { IfOk result (λ b. OfPart self.now.local (λ net. HoldsFinals net self.now.local.agent finals.now
            → (summary : List SummaryEntry) (i j : ℕ) → IsPrivatePair (record { local = self.now.local; order = self.now.order; summary = summary }) i j
            → IsLeastIn net i j (bound_between b i j))) }
        ensures through { IfOk result (λ b. (summary : List SummaryEntry) → IsReduced self.now.local self.now.order summary
            → (i j : ℕ) → is_some (bound_between b i j) ≡ true
            → CameThrough (record { local = self.now.local; order = self.now.order; summary = summary }) finals.now b i j) }
    {
        self.sweep::<Brand>(alloc, finals, rows, Blank::new(1))
    }
}

/// The least bounds for each joined pair with a private point, where `finals` holds the least bound of each pair of the summary in a
/// network in which the agent has the points, the kinds and the own arcs of the local problem that was reduced, whatever the numbers of
/// the arcs there. The private points are revisited in the order opposite to that in which they were taken.
pub fn back_sweep(
    alloc: Global,
    reduced: &Reduced,
    finals: &Summary,
) -> Result<PrivateBounds, OutOfMemory>
    ensures only { IfOk result (λ b. (i j : ℕ) → is_some (bound_between b i j) ≡ true → IsPrivatePair reduced.now i j) }
    ensures least { IfOk result (λ b. OfPart reduced.now.local (λ net. HoldsFinals net reduced.now.local.agent finals.now
        → (i j : ℕ) → IsPrivatePair reduced.now i j → IsLeastIn net i j (bound_between b i j))) }
    ensures through { IfOk result (λ b. (i j : ℕ) → is_some (bound_between b i j) ≡ true → CameThrough reduced.now finals.now b i j) }
{
    // The summary is not read: with it comes the fact that all private points are taken.
    let _summary = reduced.summary();
    let rows = SparseRows::new(alloc, reduced.elimination.size())?;
    reduced.elimination.bounds(alloc, finals, rows)
}
