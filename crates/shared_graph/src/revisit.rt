//! The revisit of an eliminated point: its least bounds with its later neighbours.
ghost use Rattle.std.specs.Prelude.{◌≡◌, ◌∷◌, ◌+◌, ◌*◌, ◌<◌, ◌≤◌, None};
ghost use Rattle.shared_graph.specs.declared.events.By.TheVariants.{Joiner};
ghost use Rattle.shared_graph.specs.declared.events.Event.TheVariants.{Revisit};
ghost use Rattle.shared_graph.specs.Refusals.{refusal};
ghost use Rattle.shared_graph.specs.Takes.{later_count};

use crate::graph::Graph;
use dist_rows::Rows;
use elim_step::{Steps, revisit_rows};
use std::sync::ledger::Ledger;
use stn_model::PointId;

impl<R: Rows> Graph<R> {
    /// Revisits a shared point: every agent has published, every shared point is eliminated, the later neighbours of this one are revisited, it is
    /// not, and no stop was entered. Takes no memory.
    pub fn revisit<L: Ledger>(&mut self, point: PointId, steps: &mut Steps<L>)
        requires { refusal self.old.face self.old.state (record { by = Joiner; event = Revisit point }) ≡ None }
        ensures face { self.new.face ≡ self.old.face }
        ensures state { self.new.state ≡ record self.old.state { revisited = point.0 ∷ self.old.state.revisited } }
        ensures least { steps.old < steps.new }
        ensures most { let d = later_count self.old.face self.old.state point.0 in steps.new ≤ steps.old + 2 * d * d }
    {
        let Some(place) = self.place_of(point) else {
            unreachable!()
        };
        let later = self.later[place as usize].as_slice();
        revisit_rows(&self.rows, &mut self.finals, place, later, steps);
        self.done[place as usize] = true;
        self.revisited.push_reserved(point);
        self.unvisited -= 1;
    }
}
