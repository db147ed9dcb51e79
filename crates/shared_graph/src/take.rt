//! The elimination of a shared point.
ghost use Rattle.std.specs.Prelude.{◌≡◌, ◌≢◌, ◌∷◌, ℕ, ◌+◌, ◌*◌, ◌<◌, ◌≤◌, true, false, None, Some, IfOk, OnOk, OnErr, MatchOption, length, slice_index_or, if◌then◌else◌};
ghost use Rattle.std.specs.Option.{option_map};
ghost use Rattle.stn_walk.specs.Eliminations.{is_in};
ghost use Rattle.dist_rows.specs.Places.{AreWithin, AreRisingPlaces};
ghost use Rattle.shared_graph.specs.declared.events.By.TheVariants.{Joiner};
ghost use Rattle.shared_graph.specs.declared.events.Event.TheVariants.{Stop};
ghost use Rattle.shared_graph.specs.Interfaces.{is_listed};
ghost use Rattle.shared_graph.specs.Refusals.{refusal};
ghost use Rattle.shared_graph.specs.Takes.{MayEliminate, left_count};
ghost use Rattle.shared_graph.specs.Weights.{least_negative};

use crate::events::SharedCycle;
use crate::graph::Graph;
use dist_rows::Rows;
use elim_step::{Found, Steps, eliminate_among, negative_with};
use std::alloc::Global;
use std::sync::ledger::Ledger;
use stn_model::{OutOfMemory, PointId};

impl<R: Rows> Graph<R> {
    /// The least other point outside the order whose two weights with a shared point outside the order sum below 0. Takes no memory.
    pub fn least_negative(&self, point: PointId) -> Option<PointId>
        requires listed { is_listed self.now.face point.0 ≡ true }
        requires left { is_in self.now.state.order point.0 ≡ false }
        ensures { option_map (λ p. p.0) result ≡ least_negative self.now.face self.now.state point.0 }
    {
        let Some(place) = self.place_of(point) else {
            unreachable!()
        };
        match negative_with(&self.rows, place, self.remain.as_slice()) {
            None => None,
            Some(other) => Some(PointId(self.points[other as usize])),
        }
    }

    /// Eliminates a shared point outside the order whose owner has published; no stop was entered. Where some other point outside the order has two
    /// weights with it that sum below 0, the answer is the least such point, and nothing has changed. Where memory runs out, nothing has changed.
    pub fn take<L: Ledger>(
        &mut self,
        alloc: Global,
        point: PointId,
        steps: &mut Steps<L>,
    ) -> Result<Option<PointId>, OutOfMemory>
        requires { MayEliminate self.old.face self.old.state Joiner point }
        ensures face { self.new.face ≡ self.old.face }
        ensures negative { IfOk result (λ r. option_map (λ p. p.0) r ≡ least_negative self.old.face self.old.state point.0) }
        ensures taken { IfOk result (λ r. MatchOption r (self.new.state ≡ record self.old.state { order = point.0 ∷ self.old.state.order })
            (λ other. self.new ≡ self.old)) }
        ensures err { OnErr result (self.new ≡ self.old) }
        ensures most { let d = left_count self.old.face self.old.state point.0 in steps.new ≤ steps.old + (d * d + d) }
        ensures some { OnOk result (0 < left_count self.old.face self.old.state point.0 → steps.old < steps.new) }
        ensures rises { steps.old ≤ steps.new }
    {
        let Some(place) = self.place_of(point) else {
            unreachable!()
        };
        let mut list = Vec::new(alloc);
        self.joins
            .neighbours(place, self.remain.as_slice(), &mut list)?;
        self.joins.reserve_all(list.as_slice())?;
        self.order.reserve(1)?;
        open_finals(&mut self.finals, place, list.as_slice())?;
        match eliminate_among(&mut self.rows, place, list.as_slice(), steps)? {
            Found::Negative(other) => Ok(Some(PointId(self.points[other as usize]))),
            Found::Clear => {
                self.joins.join_all_reserved(list.as_slice());
                self.remain[place as usize] = false;
                count_gone(self.gone.as_mut_slice(), list.as_slice());
                self.later[place as usize] = list;
                self.order.push_reserved(point);
                self.untaken -= 1;
                Ok(None)
            }
        }
    }

    /// Enters a stop: no step is legal after it.
    pub fn enter_stop(&mut self, cycle: SharedCycle)
        requires legal { refusal self.old.face self.old.state (record { by = Joiner; event = Stop cycle.point cycle.other }) ≡ None }
        ensures face { self.new.face ≡ self.old.face }
        ensures state { self.new.state ≡ record self.old.state { stop = Some cycle } }
    {
        self.stop = Some(cycle);
    }
}

// Makes room for the final cells between a place and each of a list, in both directions.
fn open_finals<R: Rows>(finals: &mut R, place: u32, list: &[u32]) -> Result<(), OutOfMemory>
    requires within { place < R.places finals.old }
    requires others { AreWithin (R.places finals.old) list.now }
    requires rising { AreRisingPlaces list.now }
    requires away { is_in list.now place ≡ false }
    ensures places { R.places finals.new ≡ R.places finals.old }
    ensures cells { (p q : ℕ) → R.at finals.new p q ≡ R.at finals.old p q }
    ensures kept { (p q : ℕ) → R.has_room finals.old p q ≡ true → R.has_room finals.new p q ≡ true }
    ensures room { OnOk result ((m : ℕ) → is_in list.now m ≡ true → (R.has_room finals.new place m ≡ true) × (R.has_room finals.new m place ≡ true)) }
{
    finals.make_room_row(place, list)?;
    for n in 0..list.len() {
        finals.make_room(list[n], place)?;
    }
    Ok(())
}

// Counts one eliminated place more at each of these places.
fn count_gone(gone: &mut [u32], places: &[u32])
    requires within { (p : ℕ) → is_in places.now p ≡ true → p < length gone.old }
    requires rising { AreRisingPlaces places.now }
    requires few { (p : ℕ) → is_in places.now p ≡ true → slice_index_or gone.old p 0 < 4294967295 }
    ensures len { length gone.new ≡ length gone.old }
    ensures each { (p : ℕ) → slice_index_or gone.new p 0 ≡ slice_index_or gone.old p 0 + (if is_in places.now p then 1 else 0) }
{
    for &p in places {
        gone[p as usize] += 1;
    }
}
