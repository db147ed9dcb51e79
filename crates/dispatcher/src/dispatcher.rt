//! An agent's dispatcher: a plan and the chooser that fills it.
ghost use Rattle.private_elim.specs.Locals.{arcs_in};

use crate::chooser::Chooser;
use crate::plan::{Chosen, Plan};
use private_elim::Local;
use std::alloc::Global;
use stn_model::{Lean, OutOfMemory, PointId};

/// An agent's local network, the times chosen so far for its points, and the chooser that it borrows.
#[derive(Drop)]
pub struct Dispatcher<'c> {
    chooser: &'c Chooser,
    plan: Plan,
}

impl<'c> Dispatcher<'c> {
    ghost use Rattle.std.specs.Prelude.{◌≡◌, ◌≢◌, pos, ◌≤ℤ◌, IfOk, Contains, Some, None, is_some, true};
    ghost use Rattle.stn_model.specs.Limits.{greatest_bound};
    ghost use Rattle.dispatcher.specs.Choices.{HasWindow, choice_at, Completes, times_of, IsScheduleOf};
    ghost use Rattle.dispatcher.specs.Plans.{IsConsistentLocal, agent_points};
    ghost use Rattle.dispatcher.specs.Answers.{AnswersChoice};

    /// A dispatcher over a copy of a local network that some schedule satisfies. Nothing is chosen.
    pub fn start(
        alloc: Global,
        local: &Local,
        lean: Lean,
        chooser: &'c Chooser,
    ) -> Result<Self, OutOfMemory>
        requires { IsConsistentLocal local.now }
        ensures local { IfOk result (λ d. d.plan.local ≡ local.now) }
        ensures lean { IfOk result (λ d. d.plan.lean ≡ lean) }
        ensures chooser { IfOk result (λ d. d.chooser.now ≡ chooser.now) }
        ensures none { IfOk result (λ d. (p : _) → choice_at d.plan.choices p ≡ None) }
    {
        let plan = Plan::start(alloc, local, lean)?;
        Ok(Dispatcher { chooser, plan })
    }

    /// The least and the greatest time of a point over all schedules of the local network that keep the choices made. They lie from 0 to 2^40.
    pub fn window(&self, p: PointId) -> (i128, i128)
        requires { Contains self.now.plan.local.points p.0 }
        ensures window { HasWindow (arcs_in self.now.plan.local) self.now.plan.choices p.0 result.0 result.1 }
        ensures low { pos 0 ≤ℤ result.0 }
        ensures ordered { result.0 ≤ℤ result.1 }
        ensures high { result.1 ≤ℤ pos greatest_bound }
    {
        self.plan.window(p)
    }

    /// The time chosen for a point; None exactly where none is.
    pub fn time(&self, p: PointId) -> Option<i128>
        requires { Contains self.now.plan.local.points p.0 }
        ensures { result ≡ choice_at self.now.plan.choices p.0 }
    {
        self.plan.time(p)
    }

    /// Chooses a time for a point of the agent, where it lies in the point's window. A point that has a time may be given that time again.
    pub fn choose(&mut self, p: PointId, t: i128) -> Chosen
        requires point { Contains self.old.plan.local.points p.0 }
        requires not_z { p.0 ≢ 0 }
        ensures answer { AnswersChoice (arcs_in self.old.plan.local) self.old.plan.choices p.0 t self.new.plan.choices result }
        ensures local { self.new.plan.local ≡ self.old.plan.local }
        ensures lean { self.new.plan.lean ≡ self.old.plan.lean }
        ensures chooser { self.new.chooser ≡ self.old.chooser }
    {
        self.plan.choose(p, t)
    }

    /// Gives each point without a time the chooser's answer in its window of that moment, by rising number.
    pub fn complete(&mut self)
        ensures turns { Completes (post self.old.chooser.now.choose) (arcs_in self.old.plan.local) self.old.plan.lean self.old.plan.choices (agent_points self.old.plan.local) self.new.plan.choices }
        ensures all { (p : _) → Contains (agent_points self.old.plan.local) p → is_some (choice_at self.new.plan.choices p) ≡ true }
        ensures kept { (p : _) (t : _) → choice_at self.old.plan.choices p ≡ Some t → choice_at self.new.plan.choices p ≡ Some t }
        ensures schedule { IsScheduleOf (arcs_in self.old.plan.local) (times_of self.new.plan.choices) }
        ensures local { self.new.plan.local ≡ self.old.plan.local }
        ensures lean { self.new.plan.lean ≡ self.old.plan.lean }
        ensures chooser { self.new.chooser ≡ self.old.chooser }
    {
        self.plan.complete(self.chooser);
    }
}
