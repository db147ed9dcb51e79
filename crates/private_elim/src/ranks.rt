//! The order in which a picker takes private points, kept while they are taken.
ghost use Rattle.std.specs.Prelude.{◌≡◌, ℕ, ◌<◌, true, false, IfOk, length, reverse};
ghost use Rattle.stn_walk.specs.Eliminations.{is_in};
ghost use Rattle.elim_step.specs.Eliminated.{point_at};
ghost use Rattle.elim_step.specs.Ranked.{key_at};
ghost use Rattle.private_elim.specs.Keyed.{left_at, IsKeyed, AreKeyed};
ghost use Rattle.private_elim.specs.Picked.{IsDegree};
ghost use Rattle.private_elim.specs.Taken.{HasTaken};

use crate::elimination::Elimination;
use dist_rows::Rows;
use elim_step::{Picker, Ranking};
use std::alloc::Global;
use stn_model::OutOfMemory;

impl<R: Rows> Elimination<R> {
    // Whether the point at a place is private and not taken.
    fn is_left(&self, place: u32) -> bool
        requires { place < length self.now.local.points }
        ensures { result ≡ left_at self.now.local (reverse self.now.order) place }
    {
        self.local.is_private(place) && self.remain[place as usize]
    }

    // The degree of the point at a place: with how many points that are not taken it is joined through those that are.
    fn degree(&self, place: u32) -> u32
        requires within { place < length self.now.local.points }
        requires left { is_in (reverse self.now.order) (point_at self.now.local.points place) ≡ false }
        ensures { IsDegree self.now.local (reverse self.now.order) (point_at self.now.local.points place) result }
    {
        self.joins.count_joined(place) - self.gone[place as usize]
    }

    // The key that a picker gives the point at a place, where that is private and not taken.
    fn key(&self, picker: &Picker, place: u32) -> Option<u64>
        requires { place < length self.now.local.points }
        ensures { IsKeyed (post (picker.now.key.vtable, picker.now.key.value)) self.now.local (reverse self.now.order) place result }
    {
        if !self.is_left(place) {
            return None;
        }
        Some(picker.key(self.degree(place), self.local.point(place).0))
    }

    /// The private points that are not taken, by place, with the keys that a picker gives them.
    pub fn rank_all(&self, alloc: Global, picker: &Picker) -> Result<Ranking, OutOfMemory>
        ensures size { IfOk result (λ r. r.size ≡ length self.now.local.points) }
        ensures keys { IfOk result (λ r. AreKeyed (post (picker.now.key.vtable, picker.now.key.value)) self.now.local (reverse self.now.order) (key_at r)) }
        ensures facts { HasTaken self.now }
    {
        let mut ranking = Ranking::new(alloc, self.size())?;
        for place in 0..self.size() {
            ranking.set(place, self.key(picker, place));
        }
        Ok(ranking)
    }

    /// Gives the points at some places the keys that a picker gives them now.
    pub fn rank(&self, picker: &Picker, places: &[u32], ranking: &mut Ranking)
        requires size { ranking.old.size ≡ length self.now.local.points }
        requires within { (p : ℕ) → is_in places.now p ≡ true → p < length self.now.local.points }
        ensures size { ranking.new.size ≡ ranking.old.size }
        ensures listed { (p : ℕ) → is_in places.now p ≡ true → IsKeyed (post (picker.now.key.vtable, picker.now.key.value)) self.now.local (reverse self.now.order) p (key_at ranking.new p) }
        ensures others { (p : ℕ) → is_in places.now p ≡ false → key_at ranking.new p ≡ key_at ranking.old p }
    {
        for &place in places {
            ranking.set(place, self.key(picker, place));
        }
    }
}
