//! How many points an elimination would look at.
ghost use Rattle.std.specs.Prelude.{◌≡◌, true, false};
ghost use Rattle.stn_walk.specs.Eliminations.{is_in};
ghost use Rattle.shared_graph.specs.Interfaces.{is_listed};
ghost use Rattle.shared_graph.specs.Takes.{left_count, degree_of};

use crate::graph::Graph;
use crate::shared::Shared;
use dist_rows::Rows;
use stn_model::PointId;

impl<R: Rows> Graph<R> {
    /// How many points that are not eliminated are joined with a shared point, the reference point among them. None exactly where the point is not
    /// shared, or is eliminated.
    pub fn degree(&self, point: PointId) -> Option<u32>
        ensures { result ≡ degree_of self.now.face self.now.state point.0 }
    {
        if self.interface.owner(point).is_none() || self.is_taken(point) {
            return None;
        }
        Some(self.left_count(point))
    }

    // How many points that are not eliminated are joined with a shared point that is not. Takes no look at them.
    fn left_count(&self, point: PointId) -> u32
        requires listed { is_listed self.now.face point.0 ≡ true }
        requires left { is_in self.now.state.order point.0 ≡ false }
        ensures { result ≡ left_count self.now.face self.now.state point.0 }
    {
        let Some(place) = self.place_of(point) else {
            unreachable!()
        };
        self.joins.count_joined(place) - self.gone[place as usize]
    }
}

impl Shared {
    /// How many points that are not eliminated are joined with a shared point, the reference point among them. None exactly where the point is not
    /// shared, or is eliminated.
    pub fn degree(&self, point: PointId) -> Option<u32>
        ensures { result ≡ degree_of self.now.face self.now.state point.0 }
    {
        self.graph.degree(point)
    }
}
