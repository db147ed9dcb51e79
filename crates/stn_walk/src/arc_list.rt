//! Lists of arcs that walks go over by the numbers of the arcs.
ghost use Rattle.std.specs.Prelude.{◌≡◌, ℕ, ◌<◌, List, length};
ghost use Rattle.stn_model.specs.declared.ids.Constraint.{Constraint};
ghost use Rattle.stn_model.specs.Arcs.{arc_at};
ghost use Rattle.stn_model.specs.Valid.{IsArcWithin};

use stn_model::{Constraint, Network};

/// A list of arcs between the points below a number. Arcs have numbers: their places in the list, counted from 0.
pub trait ArcList {
    /// The arcs, in order.
    ghost list: { Self → List Constraint };

    /// The number that the ends of all arcs are below.
    ghost points: { Self → ℕ };

    /// The number that the ends of all arcs are below.
    fn point_count(&self) -> u32
        ensures { result ≡ points self.now };

    /// The arc of this number. It joins two different points below the number of points, and its bound has magnitude at most 2^40.
    fn arc_at(&self, n: u32) -> Constraint
        requires { n < length (list self.now) }
        ensures arc { result ≡ arc_at (list self.now) n }
        ensures within { IsArcWithin (points self.now) result };
}

impl ArcList for Network {
    ghost use Rattle.stn_model.specs.Net.{arcs_of, point_count};

    ghost list = { arcs_of };

    ghost points = { point_count };

    fn point_count(&self) -> u32 {
        self.points()
    }

    fn arc_at(&self, n: u32) -> Constraint {
        self.arc(n)
    }
}
