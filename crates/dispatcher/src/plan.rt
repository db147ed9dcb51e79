//! Choices made one by one, and the windows that they leave.
//!
//! The latest times that keep the choices are themselves a schedule, and so are the earliest ones. So a window is read from two tables. A
//! choice lowers the point's latest time to the chosen one, and the others as far as arcs ask; and the earliest times alike, which are kept
//! with the sign changed over the arcs turned round (Dechter, Meiri and Pearl 1991).
ghost use Rattle.std.specs.Prelude.{◌≡◌, ◌↔◌, ◌<◌, ◌≤ℤ◌, IfOk, IsTrue, Contains, length, map};
ghost use Rattle.private_elim.specs.Locals.{arcs_in, IsLocal};
ghost use Rattle.dispatcher.specs.Plans.{late_start, early_start, none_chosen};
ghost use Rattle.dispatcher.specs.Standing.{exchanged};

use crate::chooser::Chooser;
use crate::falling::{settle, settle_at};
use private_elim::Local;
use std::alloc::Global;
use std::marker::Model;
use stn_model::{Constraint, Lean, OutOfMemory, PointId};

/// What a choice comes to.
#[derive(Clone, Copy, PartialEq, Eq, Debug)]
pub enum Chosen {
    /// The time is not in the point's window, which is from `lo` to `hi`. Nothing changed.
    Outside { lo: i128, hi: i128 },
    /// The point has that time.
    Set,
}

/// An agent's local network, its lean, and the times chosen so far for its points.
#[derive(Drop)]
pub(crate) struct Plan {
    local: Local,
    lean: Lean,
    /// By point: its time, if one is chosen.
    choices: Vec<Option<i128>>,
    arcs: Vec<Constraint>,
    turned: Vec<Constraint>,
    /// By point: its latest time over all schedules that keep the choices.
    latest: Vec<i128>,
    /// By point: its earliest time over these schedules, with the sign changed.
    early: Vec<i128>,
}

impl Model for Plan {
    ghost use Rattle.dispatcher.specs.Plans.{PlanView};

    ghost Value = { PlanView };

    ghost use Rattle.dispatcher.specs.Held.{plan_view, IsHeld};

    ghost view = { plan_view };

    ghost invariant = { IsHeld };
}

impl Plan {
    ghost use Rattle.std.specs.Prelude.{pos, set, Some, None, is_some, true};
    ghost use Rattle.stn_model.specs.Limits.{greatest_bound};
    ghost use Rattle.elim_step.specs.Eliminated.{point_at};
    ghost use Rattle.dispatcher.specs.Choices.{HasWindow, LiesWithin, choice_at, Sets, Completes, times_of, IsScheduleOf};
    ghost use Rattle.dispatcher.specs.Plans.{IsConsistentLocal, agent_points};
    ghost use Rattle.dispatcher.specs.Answers.{AnswersChoice};

    /// A copy of a local network that some schedule satisfies, with nothing chosen.
    pub(crate) fn start(alloc: Global, local: &Local, lean: Lean) -> Result<Plan, OutOfMemory>
        requires { IsConsistentLocal local.now }
        ensures local { IfOk result (λ d. d.local ≡ local.now) }
        ensures lean { IfOk result (λ d. d.lean ≡ lean) }
        ensures none { IfOk result (λ d. (p : _) → choice_at d.choices p ≡ None) }
    {
        let local = local.copy(alloc)?;
        let labels = labels_of(&local);
        let arcs = arcs_of(alloc, &local)?;
        let turned = turned_arcs(alloc, &local)?;
        let mut latest = late_start(alloc, labels)?;
        let mut early = early_start(alloc, labels)?;
        let choices = none_chosen(alloc, labels)?;
        settle(arcs.as_slice(), &mut latest);
        settle(turned.as_slice(), &mut early);
        Ok(Plan {
            local,
            lean,
            choices,
            arcs,
            turned,
            latest,
            early,
        })
    }

    /// How many points the local network has, with z.
    pub(crate) fn size(&self) -> u32
        ensures count { result ≡ length self.now.local.points }
        ensures valid { IsLocal self.now.local }
    {
        self.local.size()
    }

    /// The least and the greatest time of a point over all schedules of the local network that keep the choices made.
    pub(crate) fn window(&self, p: PointId) -> (i128, i128)
        requires { Contains self.now.local.points p.0 }
        ensures window { HasWindow (arcs_in self.now.local) self.now.choices p.0 result.0 result.1 }
        ensures low { pos 0 ≤ℤ result.0 }
        ensures ordered { result.0 ≤ℤ result.1 }
        ensures high { result.1 ≤ℤ pos greatest_bound }
    {
        (-self.early[p.0 as usize], self.latest[p.0 as usize])
    }

    /// The time chosen for a point; None exactly where none is.
    pub(crate) fn time(&self, p: PointId) -> Option<i128>
        requires { Contains self.now.local.points p.0 }
        ensures { result ≡ choice_at self.now.choices p.0 }
    {
        self.choices[p.0 as usize]
    }

    /// Chooses a time for a point, where it lies in the point's window. A point that has a time may be given that time again.
    pub(crate) fn choose(&mut self, p: PointId, t: i128) -> Chosen
        requires { Contains self.old.local.points p.0 }
        ensures answer { AnswersChoice (arcs_in self.old.local) self.old.choices p.0 t self.new.choices result }
        ensures local { self.new.local ≡ self.old.local }
        ensures lean { self.new.lean ≡ self.old.lean }
    {
        let (lo, hi) = self.window(p);
        if !is_within(t, lo, hi) {
            return Chosen::Outside { lo, hi };
        }
        self.keep(p, t);
        Chosen::Set
    }

    /// Chooses a time that lies in the point's window.
    fn keep(&mut self, p: PointId, t: i128)
        requires point { Contains self.old.local.points p.0 }
        requires within { LiesWithin (arcs_in self.old.local) self.old.choices p.0 t }
        ensures choices { self.new.choices ≡ set self.old.choices p.0 (Some t) }
        ensures local { self.new.local ≡ self.old.local }
        ensures lean { self.new.lean ≡ self.old.lean }
        ensures chosen { choice_at self.new.choices p.0 ≡ Some t }
    {
        settle_at(self.arcs.as_slice(), &mut self.latest, p.0 as usize, t);
        settle_at(self.turned.as_slice(), &mut self.early, p.0 as usize, -t);
        self.choices[p.0 as usize] = Some(t);
    }

    /// Gives the point at a place the chooser's answer in its window, unless it has a time.
    fn fill(&mut self, place: u32, chooser: &Chooser)
        requires { place < length self.old.local.points }
        ensures sets { Sets (post chooser.now.choose) (arcs_in self.old.local) self.old.lean self.old.choices (point_at self.old.local.points place) self.new.choices }
        ensures chosen { is_some (choice_at self.new.choices (point_at self.old.local.points place)) ≡ true }
        ensures local { self.new.local ≡ self.old.local }
        ensures lean { self.new.lean ≡ self.old.lean }
    {
        let p = self.local.point(place);
        if self.time(p).is_some() {
            return;
        }
        let (lo, hi) = self.window(p);
        let t = chooser.answer(self.lean, lo, hi);
        self.keep(p, t);
    }

    /// Gives each point without a time the chooser's answer in its window of that moment, by rising number.
    pub(crate) fn complete(&mut self, chooser: &Chooser)
        ensures turns { Completes (post chooser.now.choose) (arcs_in self.old.local) self.old.lean self.old.choices (agent_points self.old.local) self.new.choices }
        ensures all { (p : _) → Contains (agent_points self.old.local) p → is_some (choice_at self.new.choices p) ≡ true }
        ensures kept { (p : _) (t : _) → choice_at self.old.choices p ≡ Some t → choice_at self.new.choices p ≡ Some t }
        ensures schedule { IsScheduleOf (arcs_in self.old.local) (times_of self.new.choices) }
        ensures local { self.new.local ≡ self.old.local }
        ensures lean { self.new.lean ≡ self.old.lean }
    {
        for place in 1..self.size() {
            self.fill(place, chooser);
        }
        self.know();
    }

    /// Nothing is done: where each point of the agent has a time, the times are a schedule of the local network.
    fn know(&self)
        ensures { ((p : _) → Contains (agent_points self.now.local) p → is_some (choice_at self.now.choices p) ≡ true) → IsScheduleOf (arcs_in self.now.local) (times_of self.now.choices) }
    {
        let _size = self.local.size();
    }
}

/// Whether the time lies from `lo` to `hi`.
fn is_within(t: i128, lo: i128, hi: i128) -> bool
    ensures { IsTrue result ↔ ((lo ≤ℤ t) × (t ≤ℤ hi)) }
{
    lo <= t && t <= hi
}

/// One more than the greatest number of a point.
fn labels_of(local: &Local) -> usize
    ensures above { (p : _) → Contains local.now.points p → p < result }
    ensures valid { IsLocal local.now }
{
    let last = local.point(local.size() - 1);
    last.0 as usize + 1
}

/// The latest times at first.
fn late_start(alloc: Global, labels: usize) -> Result<Vec<i128>, OutOfMemory>
    requires { 0 < labels }
    ensures { IfOk result (λ v. v.items ≡ late_start labels) }
{
    let mut latest = vec![in alloc; 1_099_511_627_776i128; labels]?;
    latest[0] = 0;
    Ok(latest)
}

/// The earliest times at first.
fn early_start(alloc: Global, labels: usize) -> Result<Vec<i128>, OutOfMemory>
    ensures { IfOk result (λ v. v.items ≡ early_start labels) }
{
    let early = vec![in alloc; 0i128; labels]?;
    Ok(early)
}

/// No choice yet.
fn none_chosen(alloc: Global, labels: usize) -> Result<Vec<Option<i128>>, OutOfMemory>
    ensures { IfOk result (λ v. v.items ≡ none_chosen labels) }
{
    let mut choices = Vec::with_capacity(alloc, labels)?;
    for _label in 0..labels {
        choices.push(None)?;
    }
    Ok(choices)
}

/// The arcs of a local network.
fn arcs_of(alloc: Global, local: &Local) -> Result<Vec<Constraint>, OutOfMemory>
    ensures { IfOk result (λ v. v.items ≡ arcs_in local.now) }
{
    let mut arcs = Vec::with_capacity(alloc, local.arcs() as usize)?;
    for k in 0..local.arcs() {
        arcs.push(local.arc(k).arc)?;
    }
    Ok(arcs)
}

/// The arcs of a local network with their ends exchanged.
fn turned_arcs(alloc: Global, local: &Local) -> Result<Vec<Constraint>, OutOfMemory>
    ensures { IfOk result (λ v. v.items ≡ map exchanged (arcs_in local.now)) }
{
    let mut arcs = Vec::with_capacity(alloc, local.arcs() as usize)?;
    for k in 0..local.arcs() {
        let arc = local.arc(k).arc;
        let turned = Constraint {
            from: arc.to,
            to: arc.from,
            bound: arc.bound,
        };
        arcs.push(turned)?;
    }
    Ok(arcs)
}
