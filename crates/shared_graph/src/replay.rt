//! The replay of a journal.
ghost use Rattle.std.specs.Prelude.{◌≡◌, ◌<◌, ◌++◌, ◌∷◌, [], true, None, Some, IfOk, OnOk, MatchOption, length};
ghost use Rattle.std.specs.List.{AllByRecursion};
ghost use Rattle.stn_model.specs.Net.{Net};
ghost use Rattle.stn_model.specs.Valid.{IsNetwork};
ghost use Rattle.shared_graph.specs.Histories.{AreFitting};
ghost use Rattle.shared_graph.specs.Interfaces.{interface_of};
ghost use Rattle.shared_graph.specs.Journals.{is_before_times, IsApplied, IsReplayed, IfWhole, IfIllegal, IsVerdictOn};
ghost use Rattle.shared_graph.specs.Laws.{IsFirstFault};
ghost use Rattle.shared_graph.specs.Refusals.{refusal};
ghost use Rattle.shared_graph.specs.Replays.{AreRight, after, fault_of, summary_of};
ghost use Rattle.shared_graph.specs.States.{start};

use crate::events::{Entry, Event, Illegal};
use crate::interface::Interface;
use crate::shared::Shared;
use elim_step::{Steps, Summary};
use std::alloc::Global;
use std::marker::Brand;
use std::sync::ledger::{Blank, Ledger};
use stn_model::OutOfMemory;

/// What a list of entries leads to.
#[derive(Drop)]
pub enum Replay {
    /// Each entry is legal in its place: the graph after the last one.
    Whole(Shared),
    /// The first illegal entry, by its place counted from 0, and the first of its tests that fails.
    IllegalAt { place: u32, cause: Illegal },
}

impl Shared {
    /// The graph that these entries lead to from the start over an interface, where each agent publishes the summary listed for it; or the first
    /// entry that is illegal in its place, with the cause. Each summary fits its agent, and there is one for each. There are fewer than 2^32 entries,
    /// none of which assigns or widens.
    ///
    /// However the entries of agents interleave, for each network for which the graph stands: where a stop was entered, no schedule satisfies it;
    /// where every agent has published, every shared point is eliminated and no stop was entered, some schedule does; and each final bound is its
    /// least bound.
    pub fn replay(
        alloc: Global,
        interface: Interface,
        summaries: &[Summary],
        entries: &[Entry],
    ) -> Result<Replay, OutOfMemory>
        requires one_each { length summaries.now ≡ length interface.leans }
        requires fitting { AreFitting interface summaries.now }
        requires few { length entries.now < 4294967296 }
        requires before { AllByRecursion (λ e. is_before_times e.event ≡ true) entries.now }
        ensures replayed { IfOk result (IsReplayed interface summaries.now entries.now) }
        ensures first { IfOk result (IfIllegal (λ place cause. IsFirstFault interface summaries.now entries.now (record { place = place; cause = cause }))) }
        ensures verdict { IfOk result (IfWhole (λ v. (net : Net) → IsNetwork net → interface ≡ interface_of net → AreRight net summaries.now → IsVerdictOn net v)) }
    {
        let mut shared = Shared::start(alloc, interface)?;
        let fault = shared.apply_all::<Brand>(alloc, summaries, entries, Blank::new(1))?;
        match fault {
            None => Ok(Replay::Whole(shared)),
            Some((place, cause)) => Ok(Replay::IllegalAt { place, cause }),
        }
    }

    // Makes the steps of these entries, where nothing is done yet. Answers the first that is illegal in its place, with the cause, where there is one.
    fn apply_all<L: Ledger>(
        &mut self,
        alloc: Global,
        summaries: &[Summary],
        entries: &[Entry],
        blank: Blank,
    ) -> Result<Option<(u32, Illegal)>, OutOfMemory>
        requires name { blank.name ≡ L.name }
        requires parts { blank.parts ≡ L.parts }
        requires one_part { blank.parts ≡ 1 }
        requires state { self.old.state ≡ start }
        requires journal { self.old.journal ≡ [] }
        requires one_each { length summaries.now ≡ length self.old.face.leans }
        requires fitting { AreFitting self.old.face summaries.now }
        requires few { length entries.now < 4294967296 }
        requires before { AllByRecursion (λ e. is_before_times e.event ≡ true) entries.now }
        ensures applied { IfOk result (λ r. MatchOption r (IsApplied self.old.face summaries.now entries.now self.new)
            (λ f. fault_of self.old.face summaries.now start 0 entries.now ≡ Some (record { place = f.0; cause = f.1 }))) }
    {
        let mut steps = Steps::<L>::new(blank);
        for n in 0..entries.len() {
            let entry = entries[n];
            if let Some(cause) = self.may(&entry) {
                return Ok(Some((n as u32, cause)));
            }
            self.apply(alloc, summaries, entry, &mut steps)?;
        }
        Ok(None)
    }

    // Makes the step of a legal entry.
    fn apply<L: Ledger>(
        &mut self,
        alloc: Global,
        summaries: &[Summary],
        entry: Entry,
        steps: &mut Steps<L>,
    ) -> Result<(), OutOfMemory>
        requires one_each { length summaries.now ≡ length self.old.face.leans }
        requires fitting { AreFitting self.old.face summaries.now }
        requires before { is_before_times entry.event ≡ true }
        requires legal { refusal self.old.face self.old.state entry ≡ None }
        ensures face { self.new.face ≡ self.old.face }
        ensures state { OnOk result (self.new.state ≡ after self.old.face summaries.now self.old.state entry.event) }
        ensures journal { OnOk result (self.new.journal ≡ self.old.journal ++ entry ∷ []) }
    {
        match entry.event {
            Event::Publish { agent } => {
                self.publish(alloc, entry.by, agent, &summaries[agent.0 as usize])
            }
            Event::Eliminate { point } | Event::Stop { point, .. } => {
                self.eliminate(alloc, entry.by, point, steps)?;
                Ok(())
            }
            Event::Revisit { point } => {
                self.revisit(entry.by, point, steps);
                Ok(())
            }
            Event::Assign { .. } | Event::Widen { .. } => unreachable!(),
        }
    }
}
