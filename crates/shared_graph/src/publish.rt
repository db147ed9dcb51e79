//! The start of a graph, and what an agent publishes.
ghost use Rattle.std.specs.Prelude.{◌≡◌, ◌∷◌, ℕ, ◌<◌, ◌==◌, [], true, false, None, IfOk, OnOk, OnErr, length, map};
ghost use Rattle.std.specs.List.{AllPairs};
ghost use Rattle.shared_graph.specs.declared.events.By.TheVariants.{Joiner};
ghost use Rattle.shared_graph.specs.declared.events.Event.TheVariants.{Publish};
ghost use Rattle.shared_graph.specs.Graphs.{places_in, list_at, flag_at};
ghost use Rattle.shared_graph.specs.Interfaces.{IsFitting};
ghost use Rattle.shared_graph.specs.Refusals.{refusal};
ghost use Rattle.shared_graph.specs.States.{start};

use crate::graph::Graph;
use crate::interface::Interface;
use crate::lay::{agent_arcs, lower_arcs, open_arcs};
use crate::told::Told;
use dist_rows::Rows;
use elim_step::{Joins, Summary};
use std::alloc::Global;
use stn_model::{AgentId, OutOfMemory};

impl<R: Rows> Graph<R> {
    /// A graph in which nothing is done, over rows without a cell, of a size for the reference point and each shared point: one for forward cells
    /// and one for final ones.
    pub fn start(
        alloc: Global,
        interface: Interface,
        rows: R,
        finals: R,
    ) -> Result<Graph<R>, OutOfMemory>
        requires rows_size { R.places rows ≡ length (places_in interface) }
        requires rows_empty { (p q : ℕ) → R.at rows p q ≡ None }
        requires finals_size { R.places finals ≡ length (places_in interface) }
        requires finals_empty { (p q : ℕ) → R.at finals p q ≡ None }
        ensures face { IfOk result (λ g. g.face ≡ interface) }
        ensures state { IfOk result (λ g. g.state ≡ start) }
    {
        let mut rows = rows;
        let points = points_by_place(alloc, &interface)?;
        let size = points.len();
        let mut joins = Joins::new(alloc, size as u32)?;
        open_arcs(
            points.as_slice(),
            interface.external_arcs(),
            &mut rows,
            &mut joins,
        )?;
        lower_arcs(
            points.as_slice(),
            interface.external_arcs(),
            None,
            &mut rows,
        );
        let unpublished = interface.agents();
        let shared = size as u32 - 1;
        Ok(Graph {
            interface,
            points,
            published: Vec::new(alloc),
            order: Vec::new(alloc),
            stop: None,
            revisited: Vec::with_capacity(alloc, size)?,
            rows,
            joins,
            remain: vec![in alloc; true; size]?,
            later: no_lists(alloc, size)?,
            finals,
            done: origin_alone(alloc, size)?,
            gone: vec![in alloc; 0; size]?,
            unpublished,
            untaken: shared,
            unvisited: shared,
        })
    }

    /// An agent publishes a summary that fits it: the cells between its ends are lowered to the entries and the horizon arcs of its shared points.
    /// The agent has not published, and no stop was entered. Where memory runs out, nothing has changed.
    pub fn publish(
        &mut self,
        alloc: Global,
        agent: AgentId,
        summary: &Summary,
    ) -> Result<(), OutOfMemory>
        requires legal { refusal self.old.face self.old.state (record { by = Joiner; event = Publish agent }) ≡ None }
        requires fits { IsFitting self.old.face agent.0 summary.now }
        ensures face { self.new.face ≡ self.old.face }
        ensures state { OnOk result (self.new.state ≡ record self.old.state { published = record { agent = agent.0; entries = summary.now } ∷ self.old.state.published }) }
        ensures err { OnErr result (self.new ≡ self.old) }
    {
        let arcs = agent_arcs(alloc, &self.interface, agent, summary)?;
        let summary = summary.copy(alloc)?;
        let mut joins = self.joins.copy(alloc)?;
        self.published.reserve(1)?;
        open_arcs(
            self.points.as_slice(),
            arcs.as_slice(),
            &mut self.rows,
            &mut joins,
        )?;
        lower_arcs(
            self.points.as_slice(),
            arcs.as_slice(),
            Some(agent),
            &mut self.rows,
        );
        self.joins = joins;
        self.published.push_reserved(Told { agent, summary });
        self.unpublished -= 1;
        Ok(())
    }
}

// The points, by place.
fn points_by_place(alloc: Global, interface: &Interface) -> Result<Vec<u32>, OutOfMemory>
    ensures points { IfOk result (λ points. points.items ≡ places_in interface.now) }
    ensures rising { IfOk result (λ points. AllPairs (λ p q. p < q) points.items) }
{
    let shared = interface.points();
    let mut points = Vec::with_capacity(alloc, shared.len() + 1)?;
    points.push(0)?;
    for point in shared {
        points.push(point.0)?;
    }
    Ok(points)
}

// No list of neighbours for each of this many places.
fn no_lists(alloc: Global, size: usize) -> Result<Vec<Vec<u32>>, OutOfMemory>
    ensures len { IfOk result (λ lists. length lists.items ≡ size) }
{
    let mut lists = Vec::with_capacity(alloc, size)?;
    for _ in 0..size {
        lists.push(Vec::new(alloc))?;
    }
    Ok(lists)
}

// That the reference point alone, at place 0, is revisited.
fn origin_alone(alloc: Global, size: usize) -> Result<Vec<bool>, OutOfMemory>
    requires { 0 < size }
    ensures len { IfOk result (λ done. length done.items ≡ size) }
    ensures each { IfOk result (λ done. (k : ℕ) → flag_at done.items k ≡ (k == 0)) }
{
    let mut done = vec![in alloc; false; size]?;
    done[0] = true;
    Ok(done)
}
