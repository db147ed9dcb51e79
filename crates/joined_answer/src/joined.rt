//! A network with the record of how it was solved.
ghost use Rattle.std.specs.Prelude.{◌≡◌, ◌↔◌, ◌<◌, ℕ, true, map, IfSome, IfNone, is_some, option_map};
ghost use Rattle.stn_model.specs.Joined.{IsJoined as IsJoinedPair};
ghost use Rattle.stn_model.specs.Net.{arcs_of, point_count};
ghost use Rattle.stn_model.specs.Schedules.{IsLeastBound};
ghost use Rattle.dist_rows.specs.Cells.{IsAbove};
ghost use Rattle.joined_answer.specs.Joins.{IsJoined};

use conflict_cycle::Parts;
use elim_journal::Section;
use std::marker::Model;
use stn_model::{Network, PointId};

/// A consistent network, with the record of how its points were eliminated.
#[derive(Drop)]
pub struct Joined {
    pub(crate) network: Network,
    pub(crate) order: Vec<PointId>,
    pub(crate) section: Section,
    /// What all agents and the shared graph know of the network.
    pub(crate) parts: Parts,
}

impl Model for Joined {
    ghost use Rattle.joined_answer.specs.Joins.{JoinedView, IsJoined, AreJoinedParts};

    ghost Value = { JoinedView };

    ghost view = { λ j. record { network = j.network; order = j.order.items; section = j.section } };

    ghost invariant = { λ j. IsJoined (record { network = j.network; order = j.order.items; section = j.section }) × AreJoinedParts j.network j.order.items j.parts };
}

impl Joined {
    /// The network.
    pub fn network(&self) -> &Network
        ensures network { result.now ≡ self.now.network }
        ensures joined { IsJoined self.now }
    {
        &self.network
    }

    /// The order in which all points are eliminated: the private ones agent by agent, then the shared ones, then the reference point.
    pub fn order(&self) -> &[PointId]
        ensures { result.now ≡ self.now.order }
    {
        self.order.as_slice()
    }

    /// The private points in the order in which their agents' workers eliminated them, agent by agent, and all entries of the shared graph to the
    /// last revisit.
    pub fn section(&self) -> &Section
        ensures { result.now ≡ self.now.section }
    {
        &self.section
    }

    /// The least bound on `time(j) - time(i)`, in the network's unit of time. None exactly where the points are equal or not joined: two different
    /// points are joined where arcs, taken without direction, have a path between them whose inner points all come before both in the order. Takes no
    /// memory, and a look at each agent's part.
    pub fn bound(&self, i: PointId, j: PointId) -> Option<i128>
        ensures joined { (is_some result ≡ true) ↔ IsJoinedPair (arcs_of self.now.network) (map (λ p. p.0) self.now.order) i.0 j.0 }
        ensures least { IfSome result (λ b. IsLeastBound (point_count self.now.network) (arcs_of self.now.network) i.0 j.0 b) }
    {
        self.parts.bound(i, j)
    }

    /// The least point above `after`, or of all where that is None, that the order joins with `i`; None where no such point is joined with it. Takes
    /// no memory, and a look at each agent's part.
    pub fn next(&self, i: PointId, after: Option<PointId>) -> Option<PointId>
        ensures some { IfSome result (λ p. IsAbove p.0 (option_map (λ p. p.0) after)
            × IsJoinedPair (arcs_of self.now.network) (map (λ p. p.0) self.now.order) i.0 p.0) }
        ensures least { IfSome result (λ p. (q : ℕ) → q < p.0 → IsAbove q (option_map (λ p. p.0) after)
            → IsJoinedPair (arcs_of self.now.network) (map (λ p. p.0) self.now.order) i.0 q → ⊥) }
        ensures none { IfNone result ((q : ℕ) → IsAbove q (option_map (λ p. p.0) after)
            → IsJoinedPair (arcs_of self.now.network) (map (λ p. p.0) self.now.order) i.0 q → ⊥) }
    {
        self.parts.next(i, after)
    }
}
