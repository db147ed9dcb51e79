//! A shared graph with its journal.
ghost use Rattle.std.specs.Prelude.{◌≡◌, ◌++◌, ◌∷◌, [], ◌==◌, ◌+◌, ◌≤◌, true, false, None, Some, IfOk, IfSome, IfNone, length, map, reverse, vec_capacity, if◌then◌else◌};
ghost use Rattle.stn_model.specs.Net.{arcs_of, point_count};
ghost use Rattle.stn_model.specs.Schedules.{IsConsistent, IsLeastBound};
ghost use Rattle.stn_model.specs.declared.ids.AgentId.{AgentId};
ghost use Rattle.elim_step.specs.Eliminated.{weight_at};
ghost use Rattle.shared_graph.specs.Graphs.{IsOrigin};
ghost use Rattle.shared_graph.specs.Histories.{IsJournal, unvisited_in};
ghost use Rattle.shared_graph.specs.Interfaces.{IsFitting};
ghost use Rattle.shared_graph.specs.Journals.{OfStanding};
ghost use Rattle.shared_graph.specs.Publications.{entries_in};
ghost use Rattle.shared_graph.specs.Refusals.{refusal};
ghost use Rattle.shared_graph.specs.States.{start, is_published};
ghost use Rattle.shared_graph.specs.Together.{HoldsTogether};
ghost use Rattle.shared_graph.specs.Weights.{forward, final, is_joined};

use crate::events::{Entry, Illegal, SharedCycle};
use crate::graph::Graph;
use crate::interface::Interface;
use dist_rows::Cell;
use elim_step::{Ranking, Summary};
use sparse_rows::SparseRows;
use std::alloc::Global;
use std::marker::Model;
use stn_model::{AgentId, OutOfMemory, PointId};

/// What agents that know only each other's shared points, external arcs and summaries make of them in turn, with the journal of their steps. The
/// journal replays to the state.
#[derive(Drop)]
pub struct Shared {
    pub(crate) graph: Graph<SparseRows>,
    /// With room for the revisits that are left.
    pub(crate) journal: Vec<Entry>,
    /// Which places' points may be revisited, kept from step to step.
    pub(crate) ready: Ranking,
    /// A list that is true of each place, and one with room for all places and anything in it: what a revisit uses.
    pub(crate) all: Vec<bool>,
    pub(crate) near: Vec<u32>,
}

impl Model for Shared {
    ghost use Rattle.shared_graph.specs.Histories.{SharedView};

    ghost Value = { SharedView };

    ghost use Rattle.std.specs.Prelude.{◌+◌, ◌≤◌, length, vec_capacity};
    ghost use Rattle.elim_step.specs.Ranked.{key_at};
    ghost use Rattle.shared_graph.specs.Histories.{IsJournal, unvisited_in};
    ghost use Rattle.shared_graph.specs.Readiness.{IsRelay};

    ghost view = { λ s. record { face = s.graph.face; state = s.graph.state; journal = s.journal.items } };

    ghost invariant = { λ s. IsJournal s.graph.face s.graph.state s.journal.items
        × (length s.journal.items + unvisited_in s.graph.face s.graph.state ≤ vec_capacity s.journal)
        × IsRelay s.graph.face s.graph.state s.ready.size (key_at s.ready) s.all.items };
}

impl Shared {
    /// A shared graph in which nothing is done, with an empty journal; or OutOfMemory.
    pub fn start(alloc: Global, interface: Interface) -> Result<Shared, OutOfMemory>
        ensures face { IfOk result (λ s. s.face ≡ interface) }
        ensures state { IfOk result (λ s. s.state ≡ start) }
        ensures journal { IfOk result (λ s. s.journal ≡ []) }
    {
        let shared = interface.points().len();
        let places = shared as u32 + 1;
        let rows = SparseRows::new(alloc, places)?;
        let finals = SparseRows::new(alloc, places)?;
        let graph = Graph::start(alloc, interface, rows, finals)?;
        let journal = Vec::with_capacity(alloc, shared)?;
        Shared::with_journal(alloc, graph, journal)
    }

    // A graph with its journal, which has room for the revisits that are left.
    fn with_journal(
        alloc: Global,
        graph: Graph<SparseRows>,
        journal: Vec<Entry>,
    ) -> Result<Shared, OutOfMemory>
        requires journal { IsJournal graph.face graph.state journal.items }
        requires room { length journal.items + unvisited_in graph.face graph.state ≤ vec_capacity journal }
        ensures { IfOk result (λ s. s ≡ record { face = graph.face; state = graph.state; journal = journal.items }) }
    {
        let ready = graph.ready(alloc)?;
        let all = graph.all_places(alloc)?;
        let near = Vec::with_capacity(alloc, all.len())?;
        Ok(Shared {
            graph,
            journal,
            ready,
            all,
            near,
        })
    }

    /// Why an entry is illegal now: the first of its tests that fails, with the least point or agent that it names. None exactly where the entry is
    /// legal. The reference point counts as revisited, and as assigned time 0. Takes no memory.
    ///
    /// The tests stand in this order. Every event: no stop was entered (`Stopped`). Publish: the agent or the joiner made it (`NotOwner`, also where
    /// there is no such agent), and it has not published (`AlreadyPublished`). Eliminate and Stop: the point is shared (`NotShared`), its owner or
    /// the joiner made it (`NotOwner`), the owner has published (`NotPublished`), the point is not eliminated (`AlreadyDone`); then for Eliminate
    /// that no other point outside the order has two weights with it that sum below 0 (`Negative`), and for Stop that the named one is the least
    /// such point (`NotNegative`). Revisit: the point is shared, all agents have published, all shared points are eliminated (`OrderOpen`), it is not
    /// revisited, its later neighbours are (`NeighbourFirst`). Assign and Widen: the point is shared, and all are revisited, or assigned
    /// (`OrderOpen`), and so on.
    pub fn may(&self, entry: &Entry) -> Option<Illegal>
        ensures { result ≡ refusal self.now.face self.now.state entry.now }
    {
        self.graph.refusal(entry)
    }

    /// The interface.
    pub fn interface(&self) -> &Interface
        ensures face { result.now ≡ self.now.face }
        ensures together { HoldsTogether self.now.face self.now.state }
    {
        self.graph.interface()
    }

    /// Whether two points differ and are joined: by a path of external arcs, published entries and horizon arcs, without direction, through
    /// eliminated points that come before both. False where one of them is neither the reference point nor shared.
    pub fn joined(&self, i: PointId, j: PointId) -> bool
        ensures { result ≡ is_joined self.now.face self.now.state i.0 j.0 }
    {
        self.graph.is_joined(i, j)
    }

    /// All entries, in their order: they replay to the state, with summaries that fit.
    pub fn journal(&self) -> &[Entry]
        ensures journal { result.now ≡ self.now.journal }
        ensures replays { IsJournal self.now.face self.now.state self.now.journal }
    {
        self.journal.as_slice()
    }

    /// The eliminated points, in their order.
    pub fn order(&self) -> &[PointId]
        ensures { reverse (map (λ p. p.0) result.now) ≡ self.now.state.order }
    {
        self.graph.order()
    }

    /// Where an elimination failed; None exactly where no stop was entered. Then no schedule satisfies any network for which the graph stands.
    pub fn cycle(&self) -> Option<SharedCycle>
        ensures value { result ≡ self.now.state.stop }
        ensures inconsistent { IfSome result (λ c. OfStanding self.now (λ net. IsConsistent (point_count net) (arcs_of net) → ⊥)) }
    {
        self.graph.stop()
    }

    /// The summary that an agent published; None exactly where it has not. It names only the reference point and shared points of the agent.
    pub fn published(&self, agent: AgentId) -> Option<&Summary>
        ensures none { IfNone result (is_published self.now.state agent.0 ≡ false) }
        ensures some { IfSome result (λ s. (is_published self.now.state agent.0 ≡ true) × (s.now ≡ entries_in self.now.state.published agent.0)) }
        ensures fits { IfSome result (λ s. IsFitting self.now.face agent.0 s.now) }
    {
        self.graph.published(agent)
    }

    /// The weight from one point to another through the eliminated points that come before both, with its origin: an external arc by its place, an
    /// agent that published an entry, or the point through which it goes. None exactly where there is no such walk, the points are equal, or one of
    /// them is neither the reference point nor shared.
    pub fn forward(&self, i: PointId, j: PointId) -> Option<Cell>
        ensures weight { weight_at result ≡ (if i.0 == j.0 then None else forward self.now.face self.now.state i.0 j.0) }
        ensures origin { IfSome result (λ c. IsOrigin self.now.face self.now.state i.0 j.0 c c.via) }
    {
        self.graph.forward(i, j)
    }

    /// The least weight of all walks from one point to another, once both are revisited and where they are joined: their least bound in every
    /// network for which the graph stands. None exactly where they are not joined, or one of them is not revisited; the reference point counts as
    /// revisited.
    pub fn final_bound(&self, i: PointId, j: PointId) -> Option<i128>
        ensures value { result ≡ final self.now.face self.now.state i.0 j.0 }
        ensures least { IfSome result (λ b. OfStanding self.now (λ net. IsLeastBound (point_count net) (arcs_of net) i.0 j.0 b)) }
    {
        self.graph.final_bound(i, j)
    }

    /// An equal graph; or OutOfMemory.
    pub fn copy(&self, alloc: Global) -> Result<Shared, OutOfMemory>
        ensures { IfOk result (λ s. s ≡ self.now) }
    {
        let graph = self.graph.copy(alloc)?;
        let room = self.journal.len() + self.graph.unvisited() as usize;
        let mut journal = Vec::with_capacity(alloc, room)?;
        for &entry in self.journal.as_slice() {
            journal.push_reserved(entry);
        }
        Shared::with_journal(alloc, graph, journal)
    }
}
