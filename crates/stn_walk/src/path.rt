//! Paths: walks that pass no point twice, grown arc by arc, with the place of each point marked.
ghost use Rattle.std.specs.Prelude.{◌≡◌, ℕ, ◌+◌, ◌<◌, ◌≤◌, ◌<ℤ◌, pos, length, IfOk, MatchOption, slice_index, ◌++◌, ◌∷◌, [], take};
ghost use Rattle.stn_model.specs.Arcs.{to_at};
ghost use Rattle.stn_walk.specs.Parts.{AreInRange};
ghost use Rattle.stn_walk.specs.Trails.{GoesOn, GoesOnLight, IsClosed};

use crate::arc_list::ArcList;
use crate::weights::sum_of;
use std::alloc::Global;
use std::marker::Model;
use stn_model::OutOfMemory;

/// The points that a path passes, in order, and the arcs between them.
#[derive(Drop)]
pub struct Path {
    points: Vec<u32>,
    arcs: Vec<u32>,
    /// By point: its place on the path, counted from 1, or 0 where the path does not pass it.
    places: Vec<usize>,
}

impl Model for Path {
    ghost use Rattle.stn_walk.specs.Trails.{Trail};

    ghost Value = { Trail };

    ghost use Rattle.stn_walk.specs.Views.{trail_of};
    ghost use Rattle.stn_walk.specs.Marks.{IsMarked};

    ghost view = { trail_of };

    ghost invariant = { λ p. IsMarked p.points.items p.places.items };
}

impl Path {
    /// The path that is at its first point, with room for the points below `room`.
    pub fn start(alloc: Global, room: u32, from: u32) -> Result<Path, OutOfMemory>
        requires { from < room }
        ensures { IfOk result (λ p. p ≡ record { points = from ∷ []; arcs = []; room = room }) }
    {
        let mut places = vec![in alloc; 0usize; room as usize]?;
        let mut points = Vec::with_capacity(alloc, room as usize)?;
        let arcs = Vec::with_capacity(alloc, room as usize)?;
        points.push(from)?;
        places[from as usize] = 1;
        Ok(Path {
            points,
            arcs,
            places,
        })
    }

    /// The arcs of the path, in order.
    pub fn into_arcs(self) -> Vec<u32>
        ensures { result.items ≡ self.arcs }
    {
        self.arcs
    }

    /// The place of a point on the path, counted from 0.
    fn place_of(&self, point: u32) -> Option<usize>
        requires { point < self.now.room }
        ensures { MatchOption result ((k : ℕ) → k < length self.now.points → slice_index self.now.points k ≡ point → ⊥)
            (λ k. (k < length self.now.points) × (slice_index self.now.points k ≡ point)) }
    {
        let place = self.places[point as usize];
        if place == 0 { None } else { Some(place - 1) }
    }

    /// Goes on to a point that the path does not pass.
    fn push(&mut self, n: u32, point: u32) -> Result<(), OutOfMemory>
        requires within { point < self.old.room }
        requires fresh { (k : ℕ) → k < length self.old.points → slice_index self.old.points k ≡ point → ⊥ }
        ensures points { IfOk result (λ _. self.new.points ≡ self.old.points ++ point ∷ []) }
        ensures arcs { IfOk result (λ _. self.new.arcs ≡ self.old.arcs ++ n ∷ []) }
        ensures room { self.new.room ≡ self.old.room }
    {
        self.arcs.push(n)?;
        self.points.push(point)?;
        self.places[point as usize] = self.points.len();
        Ok(())
    }

    /// Goes back to a point of the path.
    fn cut(&mut self, place: usize)
        requires { place < length self.old.points }
        ensures points { self.new.points ≡ take (place + 1) self.old.points }
        ensures arcs { self.new.arcs ≡ take place self.old.arcs }
        ensures room { self.new.room ≡ self.old.room }
    {
        while self.points.len() > place + 1 {
            let last = self.points.len() - 1;
            let point = self.points[last];
            self.places[point as usize] = 0;
            self.points.truncate(last);
        }
        self.arcs.truncate(place);
    }

    /// Goes on by an arc, and where that leads to a point of the path, goes back to it instead: the
    /// part from there on is closed.
    pub fn go_on<A: ArcList>(&mut self, arcs: &A, n: u32) -> Result<(), OutOfMemory>
        requires number { n < length (A.list arcs.now) }
        requires room { A.points arcs.now ≤ self.old.room }
        ensures goes { IfOk result (λ _. GoesOn (A.list arcs.now) n self.old self.new) }
        ensures room { self.new.room ≡ self.old.room }
    {
        let head = arcs.arc_at(n).to.0;
        let Some(place) = self.place_of(head) else {
            self.push(n, head)?;
            return Ok(());
        };
        self.cut(place);
        Ok(())
    }

    /// As [`go_on`](Path::go_on), but where the closed part sums below 0 it is given, and the path
    /// stays.
    pub fn go_on_or_close<A: ArcList>(
        &mut self,
        alloc: Global,
        arcs: &A,
        n: u32,
    ) -> Result<Option<Vec<u32>>, OutOfMemory>
        requires number { n < length (A.list arcs.now) }
        requires range { AreInRange (A.list arcs.now) self.old.arcs }
        requires many { length self.old.points ≡ length self.old.arcs + 1 }
        requires room { A.points arcs.now ≤ self.old.room }
        ensures goes { IfOk result (λ r. MatchOption r (GoesOnLight (A.list arcs.now) n self.old self.new) (λ v. IsClosed (A.list arcs.now) n self.old v.items)) }
        ensures room { self.new.room ≡ self.old.room }
    {
        let arc = arcs.arc_at(n);
        let head = arc.to.0;
        let Some(place) = self.place_of(head) else {
            self.push(n, head)?;
            return Ok(None);
        };
        let open = &self.arcs[place..];
        let sum = sum_of(arcs, open) + arc.bound as i128;
        if sum < 0 {
            let mut closed = Vec::with_capacity(alloc, open.len() + 1)?;
            closed.extend_from_slice(open)?;
            closed.push(n)?;
            return Ok(Some(closed));
        }
        self.cut(place);
        Ok(None)
    }
}
