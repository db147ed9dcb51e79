//! The least agents and points that refusals name.
ghost use Rattle.std.specs.Prelude.{◌≡◌, ◌<◌, ◌&&◌, ◌∷◌, not, true, length};
ghost use Rattle.std.specs.Option.{option_map};
ghost use Rattle.stn_walk.specs.Eliminations.{is_in};
ghost use Rattle.shared_graph.specs.Interfaces.{is_listed, points_of};
ghost use Rattle.shared_graph.specs.Refusals.{first_below};
ghost use Rattle.shared_graph.specs.States.{is_published, is_revisited};
ghost use Rattle.shared_graph.specs.Weights.{first_passing, is_later};
ghost use Rattle.shared_graph.specs.Windows.{is_assigned};

use crate::graph::Graph;
use dist_rows::Rows;
use stn_model::{AgentId, PointId};

impl<R: Rows> Graph<R> {
    /// Whether an agent has published.
    pub fn is_published(&self, agent: AgentId) -> bool
        ensures { result ≡ is_published self.now.state agent.0 }
    {
        self.published(agent).is_some()
    }

    /// Whether a shared point is eliminated.
    pub fn is_taken(&self, point: PointId) -> bool
        requires { is_listed self.now.face point.0 ≡ true }
        ensures { result ≡ is_in self.now.state.order point.0 }
    {
        let Some(place) = self.place_of(point) else {
            unreachable!()
        };
        !self.remain[place as usize]
    }

    /// Whether a shared point is revisited.
    pub fn was_revisited(&self, point: PointId) -> bool
        requires { is_listed self.now.face point.0 ≡ true }
        ensures { result ≡ is_in self.now.state.revisited point.0 }
    {
        let Some(place) = self.place_of(point) else {
            unreachable!()
        };
        self.done[place as usize]
    }

    /// The least agent that has not published. No agent is looked at where all have.
    pub fn first_unpublished(&self) -> Option<AgentId>
        ensures { option_map (λ a. a.0) result ≡ first_below (λ a. not (is_published self.now.state a)) (length self.now.face.leans) }
    {
        if self.unpublished == 0 {
            return None;
        }
        for agent in 0..self.interface.agents() {
            if !self.is_published(AgentId(agent)) {
                return Some(AgentId(agent));
            }
        }
        None
    }

    /// The least shared point that is not eliminated. No point is looked at where all are.
    pub fn first_open(&self) -> Option<PointId>
        ensures { option_map (λ p. p.0) result ≡ first_passing (λ p. not (is_in self.now.state.order p)) (points_of self.now.face) }
    {
        if self.untaken == 0 {
            return None;
        }
        for &point in self.interface.points() {
            if !self.is_taken(point) {
                return Some(point);
            }
        }
        None
    }

    /// The least shared point that is not revisited. No point is looked at where all are.
    pub fn first_unvisited(&self) -> Option<PointId>
        ensures { option_map (λ p. p.0) result ≡ first_passing (λ p. not (is_in self.now.state.revisited p)) (points_of self.now.face) }
    {
        if self.unvisited == 0 {
            return None;
        }
        for &point in self.interface.points() {
            if !self.was_revisited(point) {
                return Some(point);
            }
        }
        None
    }

    /// The least later neighbour of an eliminated shared point that is not revisited; the reference point counts as revisited.
    pub fn first_unvisited_later(&self, point: PointId) -> Option<PointId>
        requires listed { is_listed self.now.face point.0 ≡ true }
        requires taken { is_in self.now.state.order point.0 ≡ true }
        ensures { option_map (λ p. p.0) result ≡ first_passing (λ p. is_later self.now.face self.now.state point.0 p && not (is_revisited self.now.state p)) (0 ∷ points_of self.now.face) }
    {
        let Some(place) = self.place_of(point) else {
            unreachable!()
        };
        for &m in self.later[place as usize].as_slice() {
            if !self.done[m as usize] {
                return Some(PointId(self.points[m as usize]));
            }
        }
        None
    }

    /// The least later neighbour of an eliminated shared point that has no time: the least but for the reference point, whose time is 0.
    pub fn first_unassigned_later(&self, point: PointId) -> Option<PointId>
        requires listed { is_listed self.now.face point.0 ≡ true }
        requires taken { is_in self.now.state.order point.0 ≡ true }
        ensures { option_map (λ p. p.0) result ≡ first_passing (λ p. is_later self.now.face self.now.state point.0 p && not (is_assigned self.now.state p)) (0 ∷ points_of self.now.face) }
    {
        let Some(place) = self.place_of(point) else {
            unreachable!()
        };
        for &m in self.later[place as usize].as_slice() {
            if m != 0 {
                return Some(PointId(self.points[m as usize]));
            }
        }
        None
    }
}
