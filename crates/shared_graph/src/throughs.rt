//! How final weights came to be, and which there are.
ghost use Rattle.std.specs.Prelude.{◌≡◌, ℕ, ◌<◌, true, None, IfSome, IfNone, is_some, length};
ghost use Rattle.std.specs.Option.{option_map};
ghost use Rattle.dist_rows.specs.Cells.{IsAbove};
ghost use Rattle.elim_step.specs.Eliminated.{point_at, weight_at};
ghost use Rattle.shared_graph.specs.Graphs.{IsFinalVia, places_in};
ghost use Rattle.shared_graph.specs.Throughs.{CameThrough};
ghost use Rattle.shared_graph.specs.Weights.{final};

use crate::graph::Graph;
use crate::shared::Shared;
use dist_rows::{Cell, Rows, Via};
use stn_model::PointId;

impl<R: Rows> Graph<R> {
    /// The point through which the final weight from one point to another came; None exactly where there is no final weight. Takes no memory.
    pub fn final_through(&self, i: PointId, j: PointId) -> Option<PointId>
        ensures there { is_some result ≡ is_some (final self.now.face self.now.state i.0 j.0) }
        ensures came { IfSome result (λ m. CameThrough self.now.face self.now.state i.0 j.0 m.0) }
    {
        let Some(cell) = self.final_cell(i, j) else {
            return None;
        };
        let Via::Through(via) = cell.via else {
            unreachable!();
        };
        Some(self.point_of(via))
    }

    /// The least point above `after`, or of all points where that is None, to which there is a final weight from `i`; None exactly where there is
    /// none. Walks along the row of `i` alone, and takes no memory.
    pub fn next_final(&self, i: PointId, after: Option<PointId>) -> Option<PointId>
        ensures some { IfSome result (λ p. IsAbove p.0 (option_map (λ p. p.0) after) × (is_some (final self.now.face self.now.state i.0 p.0) ≡ true)) }
        ensures least { IfSome result (λ p. (q : ℕ) → q < p.0 → IsAbove q (option_map (λ p. p.0) after) → final self.now.face self.now.state i.0 q ≡ None) }
        ensures none { IfNone result ((q : ℕ) → IsAbove q (option_map (λ p. p.0) after) → final self.now.face self.now.state i.0 q ≡ None) }
    {
        let Some(row) = self.place_of(i) else {
            return None;
        };
        let before = self.place_before(after);
        let Some(place) = self.finals.next_neighbour(row, before) else {
            return None;
        };
        Some(self.point_of(place))
    }

    // The final cell from one point to another.
    fn final_cell(&self, i: PointId, j: PointId) -> Option<Cell>
        ensures weight { weight_at result ≡ final self.now.face self.now.state i.0 j.0 }
        ensures via { IfSome result (λ c. IsFinalVia self.now.face self.now.state (places_in self.now.face) i.0 j.0 c.via) }
    {
        let Some(from) = self.place_of(i) else {
            return None;
        };
        let Some(to) = self.place_of(j) else {
            return None;
        };
        self.finals.get(from, to)
    }

    // The point of a place.
    fn point_of(&self, place: u32) -> PointId
        requires { place < length (places_in self.now.face) }
        ensures { result.0 ≡ point_at (places_in self.now.face) place }
    {
        PointId(self.points[place as usize])
    }

    // The place of the greatest point that is not above another; None where there is no other.
    fn place_before(&self, after: Option<PointId>) -> Option<u32>
        ensures { (k : ℕ) → k < length (places_in self.now.face)
            → (IsAbove k result → IsAbove (point_at (places_in self.now.face) k) (option_map (λ p. p.0) after))
            × (IsAbove (point_at (places_in self.now.face) k) (option_map (λ p. p.0) after) → IsAbove k result) }
    {
        let Some(after) = after else {
            return None;
        };
        match self.points.binary_search(&after.0) {
            Ok(place) => Some(place as u32),
            Err(0) => None,
            Err(place) => Some((place - 1) as u32),
        }
    }
}

impl Shared {
    /// The point through which the final weight from one point to another came: a later neighbour of the one of them that was eliminated before the
    /// other. Where that one is `i`, the final weight is the forward weight from `i` to that point, and from there the final weight to `j`; where it
    /// is `j`, it is the final weight from `i` to that point, and from there the forward weight to `j`. So where the answer is the pair's other
    /// point, it is the forward weight of the pair. None exactly where the pair has no final weight. Takes no memory.
    pub fn final_through(&self, i: PointId, j: PointId) -> Option<PointId>
        ensures there { is_some result ≡ is_some (final self.now.face self.now.state i.0 j.0) }
        ensures came { IfSome result (λ m. CameThrough self.now.face self.now.state i.0 j.0 m.0) }
    {
        self.graph.final_through(i, j)
    }

    /// The least point above `after`, or of all points where that is None, to which there is a final weight from `i`: so the pairs with a least
    /// bound are met one by one. None exactly where there is no such point. Walks along the row of `i` alone, and takes no memory.
    pub fn next_final(&self, i: PointId, after: Option<PointId>) -> Option<PointId>
        ensures some { IfSome result (λ p. IsAbove p.0 (option_map (λ p. p.0) after) × (is_some (final self.now.face self.now.state i.0 p.0) ≡ true)) }
        ensures least { IfSome result (λ p. (q : ℕ) → q < p.0 → IsAbove q (option_map (λ p. p.0) after) → final self.now.face self.now.state i.0 q ≡ None) }
        ensures none { IfNone result ((q : ℕ) → IsAbove q (option_map (λ p. p.0) after) → final self.now.face self.now.state i.0 q ≡ None) }
    {
        self.graph.next_final(i, after)
    }
}
