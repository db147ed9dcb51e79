//! The answer of `repair`.
ghost use Rattle.std.specs.Prelude.{◌≡◌, ℕ, ◌++◌, ◌+ℤ◌, ◌-ℤ◌, ◌≤ℤ◌, pos, neg_ℤ, Some, None, IfOk, OnOk, IsTrue, length};
ghost use Rattle.std.specs.List.{Contains};
ghost use Rattle.stn_model.specs.Arcs.{bound_at};
ghost use Rattle.stn_model.specs.Limits.{greatest_bound};
ghost use Rattle.stn_model.specs.Net.{arcs_of, point_count, is_given};
ghost use Rattle.stn_model.specs.Schedules.{IsConsistent};
ghost use Rattle.stn_model.specs.Walks as walks;
ghost use Rattle.plain_solve.specs.Answers.{IsEarliest};
ghost use Rattle.least_repair.specs.Loosened.{loosened, without};
ghost use Rattle.schedule_report.specs.Lines.{repair_line};
ghost use Rattle.schedule_report.specs.Parts.{times_part};
ghost use Rattle.mastn.specs.Reports.{summed_cycle};
ghost use Rattle.mastn.specs.Repairs.{IsAnswer, AnswersWalk, Adds, Repairs};

use crate::answer::{Answer, Outcome};
use crate::check::{add_cycle, consistent};
use least_repair::{Repair, least_repair};
use plain_solve::{Plain, plain_solve};
use schedule_report::{repair_line, times_part, verdict};
use std::alloc::Global;
use stn_model::{Network, OutOfMemory, Schedule};
use stn_walk::Walk;

/// The verdict on a network, with its earliest schedule; or with a negative cycle, and for each given arc of it, in its order, by how much it
/// must at least be loosened.
pub fn repair(alloc: Global, net: &Network) -> Result<Answer, OutOfMemory>
    ensures { IfOk result (λ a. Repairs net.now a.outcome a.text.items) }
{
    match plain_solve(alloc, net)? {
        Plain::Consistent(schedule) => consistent(alloc, net, &schedule),
        Plain::Inconsistent(cycle) => repairs(alloc, net, &cycle),
    }
}

/// The answer for an inconsistent network, by one of its negative cycles.
fn repairs(alloc: Global, net: &Network, cycle: &Walk) -> Result<Answer, OutOfMemory>
    requires cycle { walks.IsNegativeCycle (arcs_of net.now) cycle.now }
    requires normal { walks.IsNormal cycle.now }
    ensures { IfOk result (λ a. Repairs net.now a.outcome a.text.items) }
{
    let mut text = Vec::new(alloc);
    verdict(false, &mut text)?;
    add_cycle(net, cycle, &mut text)?;
    add_answers(alloc, net, cycle, &mut text)?;
    Ok(Answer {
        outcome: Outcome::Inconsistent,
        text,
    })
}

/// Appends what is said of the given arcs of a walk, in its order.
fn add_answers(
    alloc: Global,
    net: &Network,
    walk: &Walk,
    text: &mut Vec<u8>,
) -> Result<(), OutOfMemory>
    requires { IsConsistent (point_count net.now) (arcs_of net.now) → ⊥ }
    ensures { OnOk result (Adds (AnswersWalk net.now walk.now) text.old.items text.new.items) }
{
    let mut other = net.copy(alloc)?;
    for n in walk.arcs() {
        if net.is_given(*n) {
            add_answer(alloc, net, &mut other, *n, text)?;
        }
    }
    Ok(())
}

/// Appends what is said of a given arc. `other` is a copy of the network.
fn add_answer(
    alloc: Global,
    net: &Network,
    other: &mut Network,
    arc: u32,
    text: &mut Vec<u8>,
) -> Result<(), OutOfMemory>
    requires inconsistent { IsConsistent (point_count net.now) (arcs_of net.now) → ⊥ }
    requires given { IsTrue (is_given net.now arc) }
    requires other { other.old ≡ net.now }
    ensures text { OnOk result (Adds (IsAnswer net.now arc) text.old.items text.new.items) }
    ensures other { OnOk result (other.new ≡ net.now) }
{
    match least_repair(alloc, net, arc)? {
        Repair::Remains(walk) => add_left(net, arc, &walk, text),
        Repair::Loosen {
            by,
            schedule,
            cycle,
        } => {
            add_raise(net, arc, by, &schedule, text)?;
            add_loosened(other, arc, by - 1, &cycle, text)
        }
    }
}

/// Appends the line of a raise and a schedule.
fn add_raise(
    net: &Network,
    arc: u32,
    by: i128,
    schedule: &Schedule,
    text: &mut Vec<u8>,
) -> Result<(), OutOfMemory>
    requires { length schedule.now ≡ point_count net.now }
    ensures { OnOk result (text.new.items ≡ text.old.items ++ repair_line arc (Some by) ++ times_part net.now schedule.now) }
{
    repair_line(arc, Some(by), text)?;
    times_part(net, schedule, text)
}

/// Appends the line of an arc without which the network is still inconsistent, and a negative cycle.
fn add_left(net: &Network, arc: u32, cycle: &Walk, text: &mut Vec<u8>) -> Result<(), OutOfMemory>
    requires { walks.IsNegativeCycle (arcs_of net.now) cycle.now }
    ensures { OnOk result (text.new.items ≡ text.old.items ++ repair_line arc None ++ summed_cycle net.now cycle.now) }
{
    repair_line(arc, None, text)?;
    add_cycle(net, cycle, text)
}

/// Appends a negative cycle of the network with the bound of a given arc raised by so much. The bound is then the old one again.
fn add_loosened(
    net: &mut Network,
    arc: u32,
    by: i128,
    cycle: &Walk,
    text: &mut Vec<u8>,
) -> Result<(), OutOfMemory>
    requires given { IsTrue (is_given net.old arc) }
    requires raises { pos 0 ≤ℤ by }
    requires high { (bound_at (arcs_of net.old) arc +ℤ by) ≤ℤ net.old.horizon }
    requires cycle { walks.IsNegativeCycle (arcs_of (loosened net.old arc by)) cycle.now }
    ensures text { OnOk result (text.new.items ≡ text.old.items ++ summed_cycle (loosened net.old arc by) cycle.now) }
    ensures net { OnOk result (net.new ≡ net.old) }
{
    let _points = net.points();
    let bound = net.arc(arc).bound;
    net.set_bound(arc, raised(bound, by));
    add_cycle(net, cycle, text)?;
    net.set_bound(arc, bound);
    Ok(())
}

/// The bound raised by so much.
fn raised(bound: i64, by: i128) -> i64
    requires low { neg_ℤ (pos greatest_bound) ≤ℤ bound }
    requires raises { pos 0 ≤ℤ by }
    requires high { (bound +ℤ by) ≤ℤ pos greatest_bound }
    ensures { result ≡ bound +ℤ by }
{
    (i128::from(bound) + by) as i64
}
