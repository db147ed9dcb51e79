//! The joiner's steps, where a shared graph is not done, and which graphs go on where another one left off.
ghost use Rattle.std.specs.Prelude.{◌≡◌, ◌↔◌, ◌⊎◌, ◌<◌, ℕ, List, true, false, None, IsTrue, IfOk, OnOk, length, is_some};
ghost use Rattle.stn_walk.specs.Eliminations.{is_in};
ghost use Rattle.shared_graph.specs.declared.events.Phase.TheVariants.{Order, Reverse};
ghost use Rattle.shared_graph.specs.Histories.{AreFitting};
ghost use Rattle.shared_graph.specs.Interfaces.{Summary, is_listed};
ghost use Rattle.shared_graph.specs.Journals.{AgreeWith, Continues, IsDone, IsFinished, IsPrefix, IsReady};
ghost use Rattle.shared_graph.specs.Publications.{entries_in};
ghost use Rattle.shared_graph.specs.States.{is_published};
ghost use Rattle.shared_graph.specs.Together.{IsAllPublished, IsWhole};

use crate::events::{By, Eliminated, Entry, Phase};
use crate::interface::Interface;
use crate::shared::Shared;
use elim_step::{Steps, Summary, SummaryEntry};
use std::alloc::Global;
use std::marker::Brand;
use std::sync::ledger::{Blank, Ledger};
use stn_model::{AgentId, OutOfMemory, PointId};

impl Shared {
    /// Whether the graph is over this interface, has published only summaries that are listed for their agents, and its journal goes on these entries.
    /// There is one summary for each agent of the interface.
    pub fn continues(&self, interface: &Interface, summaries: &[Summary], front: &[Entry]) -> bool
        requires { length summaries.now ≡ length interface.now.leans }
        ensures { IsTrue result ↔ Continues interface.now summaries.now front.now self.now }
    {
        self.interface().is_same(interface)
            && self.agrees_with(summaries)
            && is_prefix(front, self.journal())
    }

    // Whether each agent that has published told the listed summary. There is one for each agent.
    fn agrees_with(&self, summaries: &[Summary]) -> bool
        requires { length summaries.now ≡ length self.now.face.leans }
        ensures { IsTrue result ↔ AgreeWith summaries.now self.now.state }
    {
        for agent in 0..self.graph.interface().agents() {
            if !self.agrees_at(AgentId(agent), &summaries[agent as usize]) {
                return false;
            }
        }
        true
    }

    // Whether an agent has not published, or told this summary.
    fn agrees_at(&self, agent: AgentId, summary: &Summary) -> bool
        ensures { IsTrue result ↔ (is_published self.now.state agent.0 ≡ true → entries_in self.now.state.published agent.0 ≡ summary.now) }
    {
        match self.published(agent) {
            None => true,
            Some(told) => same_summary(told.entries(), summary.entries()),
        }
    }

    /// The joiner makes all steps of a phase that are left, agents and then points by rising number, where they are legal: publishing and eliminating
    /// until all is done or a stop is entered, or revisiting. The phase is one of these, and what comes before it is done; each summary fits its agent,
    /// there is one for each, and what is published is the listed one. Where memory runs out, the steps made so far stand.
    pub fn finish(
        &mut self,
        alloc: Global,
        summaries: &[Summary],
        phase: Phase,
    ) -> Result<(), OutOfMemory>
        requires phase { (phase ≡ Order) ⊎ (phase ≡ Reverse) }
        requires ready { IsReady self.old.face self.old.state phase }
        requires one_each { length summaries.now ≡ length self.old.face.leans }
        requires fitting { AreFitting self.old.face summaries.now }
        requires agree { AgreeWith summaries.now self.old.state }
        ensures finished { IsFinished summaries.now phase self.old self.new }
        ensures done { OnOk result ((is_some self.new.state.stop ≡ true) ⊎ IsDone self.new.face self.new.state phase) }
    {
        if self.cycle().is_some() {
            return Ok(());
        }
        match phase {
            Phase::Order => {
                self.publish_all(alloc, summaries)?;
                self.eliminate_all::<Brand>(alloc, Blank::new(1))
            }
            Phase::Reverse => {
                self.revisit_all::<Brand>(Blank::new(1));
                Ok(())
            }
            Phase::Assign | Phase::Widen => unreachable!(),
        }
    }

    // Each agent that has not published does, by rising number.
    fn publish_all(&mut self, alloc: Global, summaries: &[Summary]) -> Result<(), OutOfMemory>
        requires going { self.old.state.stop ≡ None }
        requires one_each { length summaries.now ≡ length self.old.face.leans }
        requires fitting { AreFitting self.old.face summaries.now }
        requires agree { AgreeWith summaries.now self.old.state }
        ensures finished { IsFinished summaries.now Order self.old self.new }
        ensures going { self.new.state.stop ≡ None }
        ensures all { OnOk result (IsAllPublished self.new.face self.new.state) }
    {
        for agent in 0..self.interface().agents() {
            self.publish_left(alloc, AgentId(agent), summaries)?;
        }
        Ok(())
    }

    // An agent publishes where it has not; each agent before it has.
    fn publish_left(
        &mut self,
        alloc: Global,
        agent: AgentId,
        summaries: &[Summary],
    ) -> Result<(), OutOfMemory>
        requires going { self.old.state.stop ≡ None }
        requires one_each { length summaries.now ≡ length self.old.face.leans }
        requires fitting { AreFitting self.old.face summaries.now }
        requires agree { AgreeWith summaries.now self.old.state }
        requires within { agent.0 < length self.old.face.leans }
        requires before { (a : ℕ) → a < agent.0 → is_published self.old.state a ≡ true }
        ensures finished { IsFinished summaries.now Order self.old self.new }
        ensures going { self.new.state.stop ≡ None }
        ensures kept { (a : ℕ) → is_published self.old.state a ≡ true → is_published self.new.state a ≡ true }
        ensures published { OnOk result (is_published self.new.state agent.0 ≡ true) }
    {
        if self.graph.is_published(agent) {
            return Ok(());
        }
        self.publish(alloc, By::Joiner, agent, &summaries[agent.0 as usize])
    }

    // Each shared point that is not eliminated is, by rising number, until a stop is entered.
    fn eliminate_all<L: Ledger>(&mut self, alloc: Global, blank: Blank) -> Result<(), OutOfMemory>
        requires name { blank.name ≡ L.name }
        requires parts { blank.parts ≡ L.parts }
        requires one_part { blank.parts ≡ 1 }
        requires going { self.old.state.stop ≡ None }
        requires all { IsAllPublished self.old.face self.old.state }
        ensures finished { (summaries : List Summary) → AgreeWith summaries self.old.state → IsFinished summaries Order self.old self.new }
        ensures all { IsAllPublished self.new.face self.new.state }
        ensures done { OnOk result ((is_some self.new.state.stop ≡ true) ⊎ IsWhole self.new.face self.new.state) }
    {
        let mut steps = Steps::<L>::new(blank);
        for n in 0..self.interface().points().len() {
            let point = self.interface().points()[n];
            if self.eliminate_left(alloc, point, &mut steps)? {
                return Ok(());
            }
        }
        Ok(())
    }

    // A shared point is eliminated where it is not; each one before it is. Answers whether a stop was entered.
    fn eliminate_left<L: Ledger>(
        &mut self,
        alloc: Global,
        point: PointId,
        steps: &mut Steps<L>,
    ) -> Result<bool, OutOfMemory>
        requires going { self.old.state.stop ≡ None }
        requires all { IsAllPublished self.old.face self.old.state }
        requires listed { is_listed self.old.face point.0 ≡ true }
        requires before { (p : ℕ) → is_listed self.old.face p ≡ true → p < point.0 → is_in self.old.state.order p ≡ true }
        ensures finished { (summaries : List Summary) → AgreeWith summaries self.old.state → IsFinished summaries Order self.old self.new }
        ensures face { self.new.face ≡ self.old.face }
        ensures published { self.new.state.published ≡ self.old.state.published }
        ensures kept { (p : ℕ) → is_in self.old.state.order p ≡ true → is_in self.new.state.order p ≡ true }
        ensures stopped { IfOk result (λ stopped. stopped ≡ is_some self.new.state.stop) }
        ensures eliminated { IfOk result (λ stopped. stopped ≡ false → is_in self.new.state.order point.0 ≡ true) }
    {
        if self.graph.is_taken(point) {
            return Ok(false);
        }
        match self.eliminate(alloc, By::Joiner, point, steps)? {
            Eliminated::Clear => Ok(false),
            Eliminated::Stopped(_) => Ok(true),
        }
    }

    // Each shared point that is not revisited is: again and again the least one that may be.
    fn revisit_all<L: Ledger>(&mut self, blank: Blank)
        requires name { blank.name ≡ L.name }
        requires parts { blank.parts ≡ L.parts }
        requires one_part { blank.parts ≡ 1 }
        requires going { self.old.state.stop ≡ None }
        requires ready { IsDone self.old.face self.old.state Order }
        ensures finished { (summaries : List Summary) → AgreeWith summaries self.old.state → IsFinished summaries Reverse self.old self.new }
        ensures done { IsDone self.new.face self.new.state Reverse }
    {
        let mut steps = Steps::<L>::new(blank);
        while let Some(point) = self.least_revisit() {
            self.revisit(By::Joiner, point, &mut steps);
        }
        let _journal = self.journal();
    }
}

// Whether one list goes on another.
fn is_prefix(front: &[Entry], all: &[Entry]) -> bool
    ensures { IsTrue result ↔ IsPrefix front.now all.now }
{
    front.len() <= all.len() && same_entries(front, &all[..front.len()])
}

// Whether two lists of entries are equal.
fn same_entries(one: &[Entry], other: &[Entry]) -> bool
    ensures { IsTrue result ↔ (one.now ≡ other.now) }
{
    one == other
}

// Whether two summaries are equal.
fn same_summary(one: &[SummaryEntry], other: &[SummaryEntry]) -> bool
    ensures { IsTrue result ↔ (one.now ≡ other.now) }
{
    one == other
}
