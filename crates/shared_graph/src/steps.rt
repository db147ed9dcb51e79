//! The steps of a shared graph.
ghost use Rattle.std.specs.Prelude.{◌≡◌, ◌++◌, ◌∷◌, [], ◌+◌, ◌*◌, ◌<◌, ◌≤◌, None, IfOk, OnOk, OnErr};
ghost use Rattle.shared_graph.specs.declared.events.Event.TheVariants.{Publish, Revisit};
ghost use Rattle.shared_graph.specs.Interfaces.{IsFitting};
ghost use Rattle.shared_graph.specs.Journals.{IsEliminatedBy};
ghost use Rattle.shared_graph.specs.Refusals.{refusal};
ghost use Rattle.shared_graph.specs.Takes.{MayEliminate, left_count, later_count};

use crate::events::{By, Eliminated, Entry, Event, SharedCycle};
use crate::shared::Shared;
use elim_step::{Steps, Summary};
use std::alloc::Global;
use std::sync::ledger::Ledger;
use stn_model::{AgentId, OutOfMemory, PointId};

impl Shared {
    /// An agent publishes a summary that fits it, where that is legal. Where memory runs out, the graph and its journal are as before.
    pub fn publish(
        &mut self,
        alloc: Global,
        by: By,
        agent: AgentId,
        summary: &Summary,
    ) -> Result<(), OutOfMemory>
        requires legal { refusal self.old.face self.old.state (record { by = by; event = Publish agent }) ≡ None }
        requires fits { IsFitting self.old.face agent.0 summary.now }
        ensures face { self.new.face ≡ self.old.face }
        ensures state { OnOk result (self.new.state ≡ record self.old.state { published = record { agent = agent.0; entries = summary.now } ∷ self.old.state.published }) }
        ensures journal { OnOk result (self.new.journal ≡ self.old.journal ++ record { by = by; event = Publish agent } ∷ []) }
        ensures err { OnErr result (self.new ≡ self.old) }
    {
        self.journal.reserve(1 + self.graph.unvisited() as usize)?;
        self.graph.publish(alloc, agent, summary)?;
        self.graph.first_keys(&mut self.ready);
        self.journal.push_reserved(Entry {
            by,
            event: Event::Publish { agent },
        });
        Ok(())
    }

    /// Eliminates a point, where that is legal or refused for a negative sum alone: then, and only then, the answer is `Stopped`, and the stop is
    /// entered with the least point that has such a sum. Where memory runs out, the graph and its journal are as before.
    pub fn eliminate<L: Ledger>(
        &mut self,
        alloc: Global,
        by: By,
        point: PointId,
        steps: &mut Steps<L>,
    ) -> Result<Eliminated, OutOfMemory>
        requires { MayEliminate self.old.face self.old.state by point }
        ensures eliminated { IfOk result (IsEliminatedBy by point self.old self.new) }
        ensures err { OnErr result (self.new ≡ self.old) }
        ensures most { let d = left_count self.old.face self.old.state point.0 in steps.new ≤ steps.old + (d * d + d) }
        ensures some { OnOk result (0 < left_count self.old.face self.old.state point.0 → steps.old < steps.new) }
        ensures rises { steps.old ≤ steps.new }
    {
        self.journal.reserve(1 + self.graph.unvisited() as usize)?;
        let Some(other) = self.graph.take(alloc, point, steps)? else {
            self.graph.first_keys(&mut self.ready);
            self.journal.push_reserved(Entry {
                by,
                event: Event::Eliminate { point },
            });
            return Ok(Eliminated::Clear);
        };
        let cycle = SharedCycle { point, other };
        self.graph.enter_stop(cycle);
        self.journal.push_reserved(Entry {
            by,
            event: Event::Stop { point, other },
        });
        Ok(Eliminated::Stopped(cycle))
    }

    /// Revisits a point, where that is legal. Takes no memory.
    pub fn revisit<L: Ledger>(&mut self, by: By, point: PointId, steps: &mut Steps<L>)
        requires { refusal self.old.face self.old.state (record { by = by; event = Revisit point }) ≡ None }
        ensures face { self.new.face ≡ self.old.face }
        ensures state { self.new.state ≡ record self.old.state { revisited = point.0 ∷ self.old.state.revisited } }
        ensures journal { self.new.journal ≡ self.old.journal ++ record { by = by; event = Revisit point } ∷ [] }
        ensures least { steps.old < steps.new }
        ensures most { let d = later_count self.old.face self.old.state point.0 in steps.new ≤ steps.old + 2 * d * d }
    {
        let Some(place) = self.graph.place_of(point) else {
            unreachable!()
        };
        self.graph.revisit(point, steps);
        self.graph.keep_keys(place, self.all.as_slice(), &mut self.near, &mut self.ready);
        self.journal.push_reserved(Entry {
            by,
            event: Event::Revisit { point },
        });
    }
}
