//! Batches of tightenings.
ghost use Rattle.std.specs.Prelude.{◌≡◌};

use std::marker::Model;
use stn_model::Constraint;

/// Tightenings that are asked for together, seen as the list of their arcs in order.
#[derive(Drop)]
pub struct Batch {
    arcs: Vec<Constraint>,
}

impl Model for Batch {
    ghost use Rattle.std.specs.Prelude.{List};
    ghost use Rattle.stn_model.specs.declared.ids.Constraint.{Constraint};

    ghost Value = { List Constraint };

    ghost view = { λ b. b.arcs.items };
}

impl Batch {
    /// The batch of these arcs.
    pub fn new(arcs: Vec<Constraint>) -> Self
        ensures { result ≡ arcs.items }
    {
        Batch { arcs }
    }

    /// The arcs, in order.
    pub fn arcs(&self) -> &[Constraint]
        ensures { result.now ≡ self.now }
    {
        self.arcs.as_slice()
    }
}
