//! A local problem as a list of arcs, which walks go over by the places of the arcs.
use crate::local::Local;
use stn_model::{Constraint, MOST_POINTS};
use stn_walk::ArcList;

impl ArcList for Local {
    ghost use Rattle.stn_model.specs.Limits.{most_points};
    ghost use Rattle.private_elim.specs.Locals.{arcs_in};

    ghost list = { arcs_in };

    ghost points = { λ _. most_points };

    // The numbers of all points of a local problem are below it.
    fn point_count(&self) -> u32 {
        MOST_POINTS
    }

    fn arc_at(&self, n: u32) -> Constraint {
        // With the size comes that its points and arcs are within the limits of a network.
        let _facts = self.size();
        self.arc(n).arc
    }
}
