//! A shared graph under a lock, and passes that count what each agent entered.
ghost use Rattle.std.specs.Prelude.{◌≡◌, ℕ, ◌+◌, ◌<◌, ◌≤◌, ◌^◌, IfOk, OnOk, OnErr, length, vec_len, slice_index_or, sum_by};
ghost use Rattle.shared_graph.specs.declared.events.Phase.TheVariants.{Reverse};
ghost use Rattle.claim_pass.specs.Made.{made_since, entered, Claimed, did};

use crate::answers::{Claim, Did, Published};
use crate::lent::{claim_lent, publish_lent, step_lent};
use elim_step::{Picker, Summary};
use shared_graph::{Phase, Shared};
use std::alloc::Global;
use std::marker::Brand;
use std::sync::ledger::{Blank, Book, Ledger, Share};
use std::sync::{Mutex, Wait};
use stn_model::{AgentId, OutOfMemory};

/// Names one desk.
pub trait DeskName: Ledger {
    /// The number of agents.
    ghost agents: { ℕ };

    /// The journal's length when the desk was started.
    ghost start: { ℕ };
}

impl DeskName for Brand {
    ghost agents = { 0 };

    ghost start = { 0 };
}

// What lies under the lock: the graph, and the book of what agents entered since the desk was started.
#[derive(Drop)]
struct Locked<L: DeskName> {
    shared: Shared,
    book: Book<L>,
    ghost agents_is: { length shared.face.leans ≡ L.agents },
    ghost started: { L.start ≤ length shared.journal },
    ghost counted: { book.total ≡ made_since L.start shared.journal },
}

/// An agent, with the number of entries that it made.
#[derive(Drop)]
pub struct Pass<L: DeskName> {
    agent: u32,
    count: u64,
    share: Share<L>,
    pub ghost in_range: { agent < L.agents },
    pub ghost one_part: { share.parts ≡ 1 },
    pub ghost counted: { share.amount ≡ count },
}

/// A shared graph under a lock.
#[derive(Drop)]
pub struct Desk<L: DeskName> {
    lock: Mutex<Locked<L>>,
}

/// What a desk leaves.
#[derive(Drop)]
pub struct Closed {
    /// The graph.
    pub shared: Shared,
    /// How many entries agents made since the desk was started.
    pub made: u64,
}

impl<L: DeskName> Locked<L> {
    // A publish, counted in the share.
    fn publish(
        &mut self,
        alloc: Global,
        agent: AgentId,
        summary: &Summary,
        share: &mut Share<L>,
    ) -> Result<(Published, u64), OutOfMemory>
        requires agent { agent.0 < L.agents }
        requires some { 0 < share.old.parts }
        ensures entered { IfOk result (λ r. r.1 ≡ entered r.0) }
        ensures count { IfOk result (λ r. share.new.amount ≡ share.old.amount + r.1) }
        ensures fits { OnOk result (share.new.amount < 2 ^ 64) }
        ensures parts { share.new.parts ≡ share.old.parts }
        ensures err { OnErr result (share.new.amount ≡ share.old.amount) }
    {
        let Locked { shared, book } = self;
        let before = shared.journal().len();
        let published = publish_lent(alloc, shared, agent, summary)?;
        let made = (shared.journal().len() - before) as u64;
        book.add(share, made);
        book.audit(share);
        Ok((published, made))
    }

    // A claim, counted in the share.
    fn claim(
        &mut self,
        alloc: Global,
        agent: AgentId,
        picker: &Picker,
        share: &mut Share<L>,
    ) -> Result<(Claim, u64), OutOfMemory>
        requires agent { agent.0 < L.agents }
        requires some { 0 < share.old.parts }
        ensures claimed { IfOk result (λ r. Claimed r.0 r.1) }
        ensures count { IfOk result (λ r. share.new.amount ≡ share.old.amount + r.1) }
        ensures fits { OnOk result (share.new.amount < 2 ^ 64) }
        ensures parts { share.new.parts ≡ share.old.parts }
        ensures err { OnErr result (share.new.amount ≡ share.old.amount) }
    {
        let Locked { shared, book } = self;
        let before = shared.journal().len();
        let claim = claim_lent(alloc, shared, agent, picker)?;
        let made = (shared.journal().len() - before) as u64;
        book.add(share, made);
        book.audit(share);
        Ok((claim, made))
    }

    // A step of a later phase, counted in the share.
    fn step(&mut self, agent: AgentId, phase: Phase, share: &mut Share<L>) -> (Did, u64)
        requires phase { phase ≡ Reverse }
        requires some { 0 < share.old.parts }
        ensures did { result.1 ≡ did result.0 }
        ensures count { share.new.amount ≡ share.old.amount + result.1 }
        ensures fits { share.new.amount < 2 ^ 64 }
        ensures parts { share.new.parts ≡ share.old.parts }
    {
        let Locked { shared, book } = self;
        let before = shared.journal().len();
        let did = step_lent(shared, agent, phase);
        let made = (shared.journal().len() - before) as u64;
        book.add(share, made);
        book.audit(share);
        (did, made)
    }
}

impl<L: DeskName> Pass<L> {
    /// The agent, by number.
    pub fn agent(&self) -> AgentId
        ensures { result.0 ≡ self.now.agent }
    {
        AgentId(self.agent)
    }

    /// How many entries the agent made at the desk.
    pub fn count(&self) -> u64
        ensures { result ≡ self.now.count }
    {
        self.count
    }
}

impl<L: DeskName> Desk<L> {
    /// Starts a desk for a graph, with one pass for each agent, by number; no pass has made an entry. The blank names the desk, and has one part for
    /// each agent. OutOfMemory where there is no room for the passes.
    pub fn start(
        alloc: Global,
        blank: Blank,
        shared: Shared,
    ) -> Result<(Desk<L>, Vec<Pass<L>>), OutOfMemory>
        requires name { blank.name ≡ L.name }
        requires parts { blank.parts ≡ L.parts }
        requires one_each { blank.parts ≡ L.agents }
        requires agents { length shared.face.leans ≡ L.agents }
        requires start { length shared.journal ≡ L.start }
        ensures len { IfOk result (λ r. vec_len r.1 ≡ L.agents) }
        ensures each { IfOk result (λ r. (i : ℕ) (d : _) → i < L.agents → ((slice_index_or r.1.items i d).agent ≡ i) × ((slice_index_or r.1.items i d).count ≡ 0)) }
    {
        let (book, mut rest) = blank.open::<L>();
        let agents = shared.interface().agents();
        let mut passes = Vec::new(alloc);
        for agent in 0..agents {
            let share = rest.split_off(1, 0);
            passes.push(Pass {
                agent,
                count: 0,
                share,
            })?;
        }
        Ok((
            Desk {
                lock: Mutex::new(Locked { shared, book }),
            },
            passes,
        ))
    }

    /// The agent of a pass publishes its summary, in one hold of the lock: the pass counts one entry more where it was entered, and none else, nor
    /// where memory runs out.
    pub fn publish<R: Wait>(
        &self,
        rt: &R,
        alloc: Global,
        pass: &mut Pass<L>,
        summary: &Summary,
    ) -> Result<Published, OutOfMemory>
        ensures count { IfOk result (λ r. pass.new.count ≡ pass.old.count + entered r) }
        ensures err { OnErr result (pass.new.count ≡ pass.old.count) }
        ensures agent { pass.new.agent ≡ pass.old.agent }
    {
        let Pass {
            agent,
            count,
            share,
        } = pass;
        let (published, made) = self
            .lock
            .lock(rt)
            .publish(alloc, AgentId(*agent), summary, share)?;
        *count += made;
        Ok(published)
    }

    /// The agent of a pass eliminates the point that the picker takes of its own, in one hold of the lock: the pass counts one entry more where it
    /// did, one or none where a stop was entered, by this step or before, and none else, nor where memory runs out.
    pub fn claim_one<R: Wait>(
        &self,
        rt: &R,
        alloc: Global,
        pass: &mut Pass<L>,
        picker: &Picker,
    ) -> Result<Claim, OutOfMemory>
        ensures count { IfOk result (λ c. (made : ℕ) × Claimed c made × (pass.new.count ≡ pass.old.count + made)) }
        ensures err { OnErr result (pass.new.count ≡ pass.old.count) }
        ensures agent { pass.new.agent ≡ pass.old.agent }
    {
        let Pass {
            agent,
            count,
            share,
        } = pass;
        let (claim, made) = self
            .lock
            .lock(rt)
            .claim(alloc, AgentId(*agent), picker, share)?;
        *count += made;
        Ok(claim)
    }

    /// The agent of a pass makes the least legal step of a phase after the order, of whatever owner's point, in one hold of the lock: the pass counts
    /// one entry more where it did. The phase is `Reverse`, the one such phase whose steps exist yet.
    pub fn step_any<R: Wait>(&self, rt: &R, pass: &mut Pass<L>, phase: Phase) -> Did
        requires phase { phase ≡ Reverse }
        ensures count { pass.new.count ≡ pass.old.count + did result }
        ensures agent { pass.new.agent ≡ pass.old.agent }
    {
        let Pass {
            agent,
            count,
            share,
        } = pass;
        let (did, made) = self.lock.lock(rt).step(AgentId(*agent), phase, share);
        *count += made;
        did
    }

    /// Takes the graph out, with the number of entries that agents made: what all passes count. All passes of the desk are given back, at least one.
    pub fn close(self, passes: Vec<Pass<L>>) -> Closed
        requires all { vec_len passes ≡ L.parts }
        requires some { 0 < L.parts }
        ensures agents { length result.shared.face.leans ≡ L.agents }
        ensures started { L.start ≤ length result.shared.journal }
        ensures made { result.made ≡ made_since L.start result.shared.journal }
        ensures sum { result.made ≡ sum_by (λ p. p.count) passes.items }
    {
        let Desk { lock } = self;
        let Locked { shared, mut book } = lock.into_inner();
        let mut rest = passes;
        let Some(
            Pass {
                agent: _,
                count: mut made,
                share: mut all,
            },
        ) = rest.pop()
        else {
            unreachable!()
        };
        while let Some(
            Pass {
                agent: _,
                count,
                share,
            },
        ) = rest.pop()
        {
            all.merge(share);
            book.audit(&mut all);
            let _len = shared.journal().len();
            made += count;
        }
        book.audit(&mut all);
        Closed { shared, made }
    }
}
