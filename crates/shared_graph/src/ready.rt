//! Which points may be revisited next, by place.
ghost use Rattle.std.specs.Prelude.{◌≡◌, ℕ, ◌<◌, ◌≤◌, true, false, None, Some, IfOk, OnOk, length, replicate};
ghost use Rattle.elim_step.specs.Eliminated.{point_at};
ghost use Rattle.elim_step.specs.Ranked.{key_at};
ghost use Rattle.shared_graph.specs.Graphs.{flag_at, places_in};
ghost use Rattle.shared_graph.specs.Readiness.{revisit_key, AreKeys, AreKeysBut, IsShut};

use crate::events::{By, Entry, Event};
use crate::graph::Graph;
use dist_rows::Rows;
use elim_step::Ranking;
use std::alloc::Global;
use stn_model::{OutOfMemory, PointId};

impl<R: Rows> Graph<R> {
    /// The point of a place.
    pub(crate) fn point_at(&self, place: u32) -> PointId
        requires { place < length (places_in self.now.face) }
        ensures { result.0 ≡ point_at (places_in self.now.face) place }
    {
        PointId(self.points[place as usize])
    }

    /// The places with their keys.
    pub(crate) fn ready(&self, alloc: Global) -> Result<Ranking, OutOfMemory>
        ensures size { IfOk result (λ r. r.size ≡ length (places_in self.now.face)) }
        ensures keys { IfOk result (λ r. AreKeys self.now.face self.now.state (key_at r)) }
    {
        let size = self.points.len() as u32;
        let mut ready = Ranking::new(alloc, size)?;
        self.first_keys(&mut ready);
        Ok(ready)
    }

    /// A list that is true of each place.
    pub(crate) fn all_places(&self, alloc: Global) -> Result<Vec<bool>, OutOfMemory>
        ensures { IfOk result (λ v. v.items ≡ replicate (length (places_in self.now.face)) true) }
    {
        let all = vec![in alloc; true; self.points.len()]?;
        Ok(all)
    }

    // Whether the order is done: all agents have published, all shared points are eliminated, and no stop was entered. Where it is not, no point may
    // be revisited.
    fn is_order_done(&self) -> bool
        ensures { result ≡ false → IsShut self.now.face self.now.state }
    {
        self.unpublished == 0 && self.untaken == 0 && self.stop.is_none()
    }

    /// Finds the keys where no place has one: where the order is not done none is to be found, and none is looked for. Takes no memory.
    pub(crate) fn first_keys(&self, ready: &mut Ranking)
        requires size { ready.old.size ≡ length (places_in self.now.face) }
        requires none { (k : ℕ) → key_at ready.old k ≡ None }
        ensures size { ready.new.size ≡ ready.old.size }
        ensures keys { AreKeys self.now.face self.now.state (key_at ready.new) }
    {
        if self.is_order_done() {
            self.find_keys(ready);
        }
    }

    // Finds the key of each place anew. Takes no memory.
    fn find_keys(&self, ready: &mut Ranking)
        requires size { ready.old.size ≡ length (places_in self.now.face) }
        requires beyond { (k : ℕ) → length (places_in self.now.face) ≤ k → key_at ready.old k ≡ None }
        ensures size { ready.new.size ≡ ready.old.size }
        ensures keys { AreKeys self.now.face self.now.state (key_at ready.new) }
    {
        for place in 0..ready.size() {
            ready.set(place, self.revisit_key(place));
        }
    }

    /// Finds the keys after a revisit of the point of a place: those of the place and of the places joined with it anew. `all` is true of each place,
    /// and the list may have anything in it. Where it has no room for these places and memory runs out, all keys are found anew.
    pub(crate) fn keep_keys(
        &self,
        place: u32,
        all: &[bool],
        list: &mut Vec<u32>,
        ready: &mut Ranking,
    )
        requires within { place < length (places_in self.now.face) }
        requires len { length all.now ≡ length (places_in self.now.face) }
        requires all { (k : ℕ) → k < length (places_in self.now.face) → flag_at all.now k ≡ true }
        requires size { ready.old.size ≡ length (places_in self.now.face) }
        requires others { AreKeysBut self.now.face self.now.state place (key_at ready.old) }
        ensures size { ready.new.size ≡ ready.old.size }
        ensures keys { AreKeys self.now.face self.now.state (key_at ready.new) }
    {
        if self.renew(place, all, list, ready).is_err() {
            self.find_keys(ready);
        }
    }

    // Finds the keys of a place and of those joined with it anew; all others are right.
    fn renew(
        &self,
        place: u32,
        all: &[bool],
        list: &mut Vec<u32>,
        ready: &mut Ranking,
    ) -> Result<(), OutOfMemory>
        requires within { place < length (places_in self.now.face) }
        requires len { length all.now ≡ length (places_in self.now.face) }
        requires all { (k : ℕ) → k < length (places_in self.now.face) → flag_at all.now k ≡ true }
        requires size { ready.old.size ≡ length (places_in self.now.face) }
        requires others { AreKeysBut self.now.face self.now.state place (key_at ready.old) }
        ensures size { ready.new.size ≡ ready.old.size }
        ensures beyond { (k : ℕ) → length (places_in self.now.face) ≤ k → key_at ready.new k ≡ None }
        ensures keys { OnOk result (AreKeys self.now.face self.now.state (key_at ready.new)) }
    {
        self.joins.neighbours(place, all, list)?;
        ready.set(place, self.revisit_key(place));
        for n in 0..list.len() {
            let other = list[n];
            ready.set(other, self.revisit_key(other));
        }
        Ok(())
    }

    // The key of a place, where its point may be revisited.
    fn revisit_key(&self, place: u32) -> Option<u64>
        requires { place < length (places_in self.now.face) }
        ensures { result ≡ revisit_key self.now.face self.now.state (point_at (places_in self.now.face) place) }
    {
        let entry = Entry {
            by: By::Joiner,
            event: Event::Revisit {
                point: self.point_at(place),
            },
        };
        match self.refusal(&entry) {
            None => Some(0),
            Some(_) => None,
        }
    }
}
