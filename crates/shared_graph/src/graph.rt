//! The cells between the reference point and the shared points, while agents publish and points are eliminated and revisited.
ghost use Rattle.std.specs.Prelude.{◌≡◌, ◌≢◌, ℕ, ◌+◌, ◌<◌, ◌≤◌, ◌==◌, ◌&&◌, not, true, false, Option, Some, None, IfOk, IfSome, IfNone, length, map, reverse, is_some, if◌then◌else◌};
ghost use Rattle.std.specs.List.{AllPairs};
ghost use Rattle.stn_walk.specs.Eliminations.{is_in};
ghost use Rattle.elim_step.specs.Eliminated.{point_at, weight_at};
ghost use Rattle.elim_step.specs.Eliminates.{count_below};
ghost use Rattle.shared_graph.specs.Graphs.{IsOrigin, IsPlaceVia, places_in, via_by_point};
ghost use Rattle.shared_graph.specs.Interfaces.{is_listed, IsInterface};
ghost use Rattle.shared_graph.specs.States.{is_published};
ghost use Rattle.shared_graph.specs.Weights.{forward, final, is_joined};
ghost use Rattle.shared_graph.specs.Publications.{entries_in};
ghost use Rattle.shared_graph.specs.Histories.{unvisited_in};
ghost use Rattle.shared_graph.specs.Together.{HoldsTogether};

use crate::events::SharedCycle;
use crate::interface::Interface;
use crate::told::Told;
use dist_rows::{Cell, Rows, Via};
use elim_step::{Joins, Summary};
use std::alloc::Global;
use std::marker::Model;
use stn_model::{AgentId, OutOfMemory, PointId};

/// A shared graph without its journal: what is published, eliminated, stopped and revisited, and the cells that come of it. Nothing is assigned.
#[derive(Drop)]
pub struct Graph<R: Rows> {
    pub(crate) interface: Interface,
    /// The point of each place: the reference point, then the shared points by number.
    pub(crate) points: Vec<u32>,
    pub(crate) published: Vec<Told>,
    pub(crate) order: Vec<PointId>,
    pub(crate) stop: Option<SharedCycle>,
    /// With room for all shared points.
    pub(crate) revisited: Vec<PointId>,
    /// The weights from place to place through the eliminated points that come before both.
    pub(crate) rows: R,
    pub(crate) joins: Joins,
    /// Which places are not eliminated.
    pub(crate) remain: Vec<bool>,
    /// Of each eliminated place, the places joined with it that were left then, by rising number.
    pub(crate) later: Vec<Vec<u32>>,
    /// Of each place that is not eliminated, with how many eliminated places it is joined.
    pub(crate) gone: Vec<u32>,
    /// The least weights between revisited places that are joined, with room for those of all eliminated places.
    pub(crate) finals: R,
    /// Which places are revisited; the reference point counts as one.
    pub(crate) done: Vec<bool>,
    /// How many agents have not published, how many shared points are not eliminated, and how many not revisited.
    pub(crate) unpublished: u32,
    pub(crate) untaken: u32,
    pub(crate) unvisited: u32,
}

impl<R: Rows> Model for Graph<R> {
    ghost use Rattle.shared_graph.specs.Graphs.{GraphView};

    ghost Value = { GraphView };

    ghost use Rattle.std.specs.Prelude.{map, vec_capacity};
    ghost use Rattle.shared_graph.specs.Graphs.{state_of, IsGraph};

    ghost view = { λ g. record { face = g.interface; state = state_of g.published.items g.order.items g.stop g.revisited.items } };

    ghost invariant = { λ g. IsGraph (record {
      face = g.interface;
      state = state_of g.published.items g.order.items g.stop g.revisited.items;
      points = g.points.items;
      places = R.places g.rows;
      at = R.at g.rows;
      joins = g.joins;
      remain = g.remain.items;
      later = map (λ l. l.items) g.later.items;
      final_places = R.places g.finals;
      final_at = R.at g.finals;
      final_room = R.has_room g.finals;
      done = g.done.items;
      unpublished = g.unpublished;
      untaken = g.untaken;
      unvisited = g.unvisited;
      revisit_room = vec_capacity g.revisited;
      gone = g.gone.items;
    }) };
}

/// The place of a point among points that rise; None exactly where it is none of them.
pub(crate) fn place_among(points: &[u32], point: u32) -> Option<u32>
    requires rising { AllPairs (λ p q. p < q) points.now }
    ensures some { IfSome result (λ k. (k < length points.now) × (point_at points.now k ≡ point)) }
    ensures none { IfNone result ((k : ℕ) → k < length points.now → point_at points.now k ≢ point) }
{
    match points.binary_search(&point) {
        Ok(place) => Some(place as u32),
        Err(_) => None,
    }
}

impl<R: Rows> Graph<R> {
    /// The interface.
    pub fn interface(&self) -> &Interface
        ensures face { result.now ≡ self.now.face }
        ensures together { HoldsTogether self.now.face self.now.state }
    {
        &self.interface
    }

    /// The eliminated points, in their order.
    pub fn order(&self) -> &[PointId]
        ensures { reverse (map (λ p. p.0) result.now) ≡ self.now.state.order }
    {
        self.order.as_slice()
    }

    /// Where an elimination failed; None exactly where no stop was entered.
    pub fn stop(&self) -> Option<SharedCycle>
        ensures { result ≡ self.now.state.stop }
    {
        self.stop
    }

    /// The summary that an agent published; None exactly where it has not published.
    pub fn published(&self, agent: AgentId) -> Option<&Summary>
        ensures none { IfNone result (is_published self.now.state agent.0 ≡ false) }
        ensures some { IfSome result (λ s. (is_published self.now.state agent.0 ≡ true) × (s.now ≡ entries_in self.now.state.published agent.0)) }
    {
        let mut n = self.published.len();
        while n > 0 {
            n -= 1;
            let told = &self.published[n];
            if told.agent == agent {
                return Some(&told.summary);
            }
        }
        None
    }

    /// The place of the reference point or of a shared point; None exactly where it is neither.
    pub(crate) fn place_of(&self, point: PointId) -> Option<u32>
        ensures some { IfSome result (λ k. (k < length (places_in self.now.face)) × (point_at (places_in self.now.face) k ≡ point.0)) }
        ensures none { IfNone result ((point.0 ≢ 0) × (is_listed self.now.face point.0 ≡ false)) }
        ensures interface { IsInterface self.now.face }
        ensures together { HoldsTogether self.now.face self.now.state }
    {
        place_among(self.points.as_slice(), point.0)
    }

    /// Whether two different points are joined through eliminated points that come before both; false where one of them is neither the reference
    /// point nor shared.
    pub fn is_joined(&self, i: PointId, j: PointId) -> bool
        ensures { result ≡ is_joined self.now.face self.now.state i.0 j.0 }
    {
        let Some(from) = self.place_of(i) else {
            return false;
        };
        let Some(to) = self.place_of(j) else {
            return false;
        };
        self.joins.get(from, to)
    }

    /// The weight from one point to another through the eliminated points that come before both, with its origin: an external arc by its place, an
    /// agent that published an entry, or the point through which it goes. None exactly where there is no such walk, the points are equal, or one of
    /// them is neither the reference point nor shared.
    pub fn forward(&self, i: PointId, j: PointId) -> Option<Cell>
        ensures weight { weight_at result ≡ (if i.0 == j.0 then None else forward self.now.face self.now.state i.0 j.0) }
        ensures origin { IfSome result (λ c. IsOrigin self.now.face self.now.state i.0 j.0 c c.via) }
    {
        let from = self.place_of(i)?;
        let to = self.place_of(j)?;
        let cell = self.rows.get(from, to)?;
        Some(Cell {
            weight: cell.weight,
            via: self.named(cell.via),
        })
    }

    // The origin of a cell, by point where it is one by place.
    fn named(&self, via: Via) -> Via
        requires { IsPlaceVia (length (places_in self.now.face)) via }
        ensures { result ≡ via_by_point (places_in self.now.face) via }
    {
        match via {
            Via::Given(e) => Via::Given(e),
            Via::Published(a) => Via::Published(a),
            Via::Through(k) => Via::Through(self.points[k as usize]),
        }
    }

    /// The least weight of all walks from one point to another, once both are revisited and where they are joined. None exactly where they are not
    /// joined, or one of them is not revisited; the reference point counts as revisited.
    pub fn final_bound(&self, i: PointId, j: PointId) -> Option<i128>
        ensures value { result ≡ final self.now.face self.now.state i.0 j.0 }
    {
        let from = self.place_of(i)?;
        let to = self.place_of(j)?;
        let cell = self.finals.get(from, to)?;
        Some(cell.weight)
    }

    /// How many shared points are not revisited.
    pub fn unvisited(&self) -> u32
        ensures { result ≡ unvisited_in self.now.face self.now.state }
    {
        self.unvisited
    }

    /// An equal graph; or OutOfMemory.
    pub fn copy(&self, alloc: Global) -> Result<Graph<R>, OutOfMemory>
        ensures { IfOk result (λ g. g ≡ self.now) }
    {
        let interface = self.interface.copy(alloc)?;
        let points = Vec::from_slice(alloc, self.points.as_slice())?;
        let published = copy_told(alloc, self.published.as_slice())?;
        let order = Vec::from_slice(alloc, self.order.as_slice())?;
        let room = self.revisited.len() + self.unvisited as usize;
        let mut revisited = Vec::with_capacity(alloc, room)?;
        revisited.extend_from_slice(self.revisited.as_slice())?;
        let rows = self.rows.copy(alloc)?;
        let joins = self.joins.copy(alloc)?;
        let remain = Vec::from_slice(alloc, self.remain.as_slice())?;
        let later = copy_lists(alloc, self.later.as_slice())?;
        let finals = self.finals.copy(alloc)?;
        let done = Vec::from_slice(alloc, self.done.as_slice())?;
        let gone = Vec::from_slice(alloc, self.gone.as_slice())?;
        Ok(Graph {
            interface,
            points,
            published,
            order,
            stop: self.stop,
            revisited,
            rows,
            joins,
            remain,
            later,
            gone,
            finals,
            done,
            unpublished: self.unpublished,
            untaken: self.untaken,
            unvisited: self.unvisited,
        })
    }
}

// The same agents with the same summaries.
fn copy_told(alloc: Global, published: &[Told]) -> Result<Vec<Told>, OutOfMemory>
    ensures { IfOk result (λ v. v.items ≡ published.now) }
{
    let mut copies = Vec::with_capacity(alloc, published.len())?;
    for told in published {
        let summary = told.summary.copy(alloc)?;
        copies.push(Told {
            agent: told.agent,
            summary,
        })?;
    }
    Ok(copies)
}

// The same lists.
fn copy_lists(alloc: Global, lists: &[Vec<u32>]) -> Result<Vec<Vec<u32>>, OutOfMemory>
    ensures { IfOk result (λ v. map (λ l. l.items) v.items ≡ map (λ l. l.items) lists.now) }
{
    let mut copies = Vec::with_capacity(alloc, lists.len())?;
    for list in lists {
        copies.push(Vec::from_slice(alloc, list.as_slice())?)?;
    }
    Ok(copies)
}
