//! Whether an entry is legal, and why not.
ghost use Rattle.std.specs.Prelude.{◌≡◌, ◌∷◌, true, Some};
ghost use Rattle.stn_walk.specs.Eliminations.{is_in};
ghost use Rattle.dist_rows.specs.Cells.{IsLight};
ghost use Rattle.shared_graph.specs.declared.events.Event.TheVariants.{Publish, Eliminate, Stop, Revisit, Assign, Widen};
ghost use Rattle.shared_graph.specs.Interfaces.{is_listed, owner_in};
ghost use Rattle.shared_graph.specs.Refusals.{acts_for, owner_tests, cause_of, refusal, wrong_value};
ghost use Rattle.shared_graph.specs.Firsts.{IsFirstOfAll};
ghost use Rattle.shared_graph.specs.declared.events.By.{By};
ghost use Rattle.shared_graph.specs.declared.events.End.{End};
ghost use Rattle.shared_graph.specs.Windows.{kept_value, chosen};

use crate::events::{By, Entry, Event, Illegal};
use crate::graph::Graph;
use dist_rows::Rows;
use stn_model::{AgentId, Lean, PointId};

impl<R: Rows> Graph<R> {
    /// Why an entry is illegal now: the first of its tests that fails. None exactly where it is legal. Takes no memory.
    pub fn refusal(&self, entry: &Entry) -> Option<Illegal>
        ensures { result ≡ refusal self.now.face self.now.state entry.now }
    {
        if self.stop.is_some() {
            return Some(Illegal::Stopped);
        }
        let event = entry.event;
        match event {
            Event::Publish { agent } => self.publish_refusal(entry.by, agent),
            Event::Eliminate { point } => self.eliminate_refusal(entry.by, point),
            Event::Stop { point, other } => self.stop_refusal(entry.by, point, other),
            Event::Revisit { point } => self.revisit_refusal(point),
            Event::Assign { point, value } => self.assign_refusal(point, value),
            Event::Widen { point, .. } => self.widen_refusal(point),
        }
    }

    // The tests of a publish.
    fn publish_refusal(&self, by: By, agent: AgentId) -> Option<Illegal>
        ensures { result ≡ cause_of self.now.face self.now.state by (Publish agent) }
    {
        if !acts_for(by, agent) || self.interface.agents() <= agent.0 {
            return Some(Illegal::NotOwner);
        }
        if self.is_published(agent) {
            return Some(Illegal::AlreadyPublished);
        }
        None
    }

    // The tests of an elimination but for the last.
    fn owner_refusal(&self, by: By, point: PointId) -> Option<Illegal>
        ensures { result ≡ owner_tests self.now.state by point.0 (owner_in self.now.face point.0) }
    {
        let Some(owner) = self.interface.owner(point) else {
            return Some(Illegal::NotShared);
        };
        if !acts_for(by, owner) {
            return Some(Illegal::NotOwner);
        }
        if !self.is_published(owner) {
            return Some(Illegal::NotPublished(owner));
        }
        if self.is_taken(point) {
            return Some(Illegal::AlreadyDone);
        }
        None
    }

    // The tests of an elimination.
    fn eliminate_refusal(&self, by: By, point: PointId) -> Option<Illegal>
        ensures { result ≡ cause_of self.now.face self.now.state by (Eliminate point) }
    {
        if let Some(cause) = self.owner_refusal(by, point) {
            return Some(cause);
        }
        match self.least_negative(point) {
            None => None,
            Some(other) => Some(Illegal::Negative(other)),
        }
    }

    // The tests of a stop.
    fn stop_refusal(&self, by: By, point: PointId, other: PointId) -> Option<Illegal>
        ensures { result ≡ cause_of self.now.face self.now.state by (Stop point other) }
    {
        if let Some(cause) = self.owner_refusal(by, point) {
            return Some(cause);
        }
        if self.least_negative(point) == Some(other) {
            return None;
        }
        Some(Illegal::NotNegative(other))
    }

    // The tests of a revisit.
    fn revisit_refusal(&self, point: PointId) -> Option<Illegal>
        ensures { (by : By) → result ≡ cause_of self.now.face self.now.state by (Revisit point) }
    {
        if self.interface.owner(point).is_none() {
            return Some(Illegal::NotShared);
        }
        if let Some(agent) = self.first_unpublished() {
            return Some(Illegal::NotPublished(agent));
        }
        if let Some(open) = self.first_open() {
            return Some(Illegal::OrderOpen(open));
        }
        if self.was_revisited(point) {
            return Some(Illegal::AlreadyDone);
        }
        match self.first_unvisited_later(point) {
            None => None,
            Some(later) => Some(Illegal::NeighbourFirst(later)),
        }
    }

    // The tests of an assignment. No point has a time yet.
    fn assign_refusal(&self, point: PointId, value: i128) -> Option<Illegal>
        ensures { (by : By) → result ≡ cause_of self.now.face self.now.state by (Assign point value) }
    {
        if self.interface.owner(point).is_none() {
            return Some(Illegal::NotShared);
        }
        if let Some(open) = self.first_unvisited() {
            return Some(Illegal::OrderOpen(open));
        }
        if let Some(later) = self.first_unassigned_later(point) {
            return Some(Illegal::NeighbourFirst(later));
        }
        self.wrong_value(point, value)
    }

    // That the time of a point is not that of the rule, where its one later neighbour is the reference point.
    fn wrong_value(&self, point: PointId, given: i128) -> Option<Illegal>
        requires listed { is_listed self.now.face point.0 ≡ true }
        requires first { IsFirstOfAll self.now.face self.now.state point.0 }
        ensures { result ≡ wrong_value (kept_value self.now.face self.now.state point.0) given }
    {
        let kept = self.first_time(point);
        if kept == given {
            return None;
        }
        Some(Illegal::WrongValue { kept, given })
    }

    // The time of the rule of a point whose one later neighbour is the reference point.
    fn first_time(&self, point: PointId) -> i128
        requires listed { is_listed self.now.face point.0 ≡ true }
        requires first { IsFirstOfAll self.now.face self.now.state point.0 }
        ensures { Some result ≡ kept_value self.now.face self.now.state point.0 }
    {
        let Some(agent) = self.interface.owner(point) else {
            unreachable!()
        };
        let origin = PointId(0);
        let Some(back) = self.final_bound(point, origin) else {
            unreachable!()
        };
        let Some(out) = self.final_bound(origin, point) else {
            unreachable!()
        };
        chosen(self.interface.lean(agent), -back, out)
    }

    // The tests of a widening. No point has a time yet.
    fn widen_refusal(&self, point: PointId) -> Option<Illegal>
        ensures { (by : By) (end : End) → result ≡ cause_of self.now.face self.now.state by (Widen point end) }
    {
        if self.interface.owner(point).is_none() {
            return Some(Illegal::NotShared);
        }
        let first = self.interface.points()[0];
        Some(Illegal::OrderOpen(first))
    }
}

// What a lean takes of a window.
fn chosen(lean: Lean, low: i128, high: i128) -> i128
    requires low { IsLight 99 low }
    requires high { IsLight 99 high }
    ensures { Some result ≡ chosen lean (Some low) (Some high) }
{
    match lean {
        Lean::Early => low,
        Lean::Late => high,
        Lean::Middle => (low + high).div_euclid(2),
    }
}

// Whether this maker may act for the agent.
fn acts_for(by: By, agent: AgentId) -> bool
    ensures { result ≡ acts_for by agent.0 }
{
    match by {
        By::Joiner => true,
        By::Agent(maker) => maker == agent,
    }
}
