//! The answer of `check`.
ghost use Rattle.std.specs.Prelude.{◌≡◌, ◌++◌, IfOk, OnOk};
ghost use Rattle.stn_model.specs.Net.{arcs_of};
ghost use Rattle.stn_model.specs.Walks as walks;
ghost use Rattle.plain_solve.specs.Answers.{IsEarliest};
ghost use Rattle.mastn.specs.Checks.{Checks, ReportsInconsistent};
ghost use Rattle.mastn.specs.Reports.{summed_cycle};

use crate::answer::{Answer, Outcome};
use plain_solve::{Plain, plain_solve};
use schedule_report::{cycle_part, times_part, verdict};
use std::alloc::Global;
use stn_model::{Network, OutOfMemory, Schedule};
use stn_walk::{Walk, weight};

/// The verdict on a network, with its earliest schedule or a negative cycle.
pub fn check(alloc: Global, net: &Network) -> Result<Answer, OutOfMemory>
    ensures { IfOk result (λ a. Checks net.now a.outcome a.text.items) }
{
    match plain_solve(alloc, net)? {
        Plain::Consistent(schedule) => consistent(alloc, net, &schedule),
        Plain::Inconsistent(cycle) => inconsistent(alloc, net, &cycle),
    }
}

/// The answer for a consistent network, by its earliest schedule.
pub fn consistent(alloc: Global, net: &Network, schedule: &Schedule) -> Result<Answer, OutOfMemory>
    requires { IsEarliest net.now schedule.now }
    ensures { IfOk result (λ a. Checks net.now a.outcome a.text.items) }
{
    let mut text = Vec::new(alloc);
    verdict(true, &mut text)?;
    times_part(net, schedule, &mut text)?;
    Ok(Answer {
        outcome: Outcome::Done,
        text,
    })
}

/// The answer for an inconsistent network, by one of its negative cycles.
fn inconsistent(alloc: Global, net: &Network, cycle: &Walk) -> Result<Answer, OutOfMemory>
    requires cycle { walks.IsNegativeCycle (arcs_of net.now) cycle.now }
    requires normal { walks.IsNormal cycle.now }
    ensures { IfOk result (λ a. Checks net.now a.outcome a.text.items) }
{
    let text = conflict_text(alloc, net, cycle)?;
    Ok(Answer {
        outcome: Outcome::Inconsistent,
        text,
    })
}

/// The report of an inconsistent network, by one of its negative cycles.
pub fn conflict_text(alloc: Global, net: &Network, cycle: &Walk) -> Result<Vec<u8>, OutOfMemory>
    requires cycle { walks.IsNegativeCycle (arcs_of net.now) cycle.now }
    requires normal { walks.IsNormal cycle.now }
    ensures { IfOk result (λ text. ReportsInconsistent net.now text.items) }
{
    let mut text = Vec::new(alloc);
    verdict(false, &mut text)?;
    add_cycle(net, cycle, &mut text)?;
    Ok(text)
}

/// Appends a negative cycle with its sum.
pub fn add_cycle(net: &Network, cycle: &Walk, text: &mut Vec<u8>) -> Result<(), OutOfMemory>
    requires { walks.IsNegativeCycle (arcs_of net.now) cycle.now }
    ensures { OnOk result (text.new.items ≡ text.old.items ++ summed_cycle net.now cycle.now) }
{
    cycle_part(net, cycle, sum_of(net, cycle), text)
}

/// The sum of a cycle's bounds.
fn sum_of(net: &Network, cycle: &Walk) -> i128
    requires { walks.IsNegativeCycle (arcs_of net.now) cycle.now }
    ensures { result ≡ walks.weight (arcs_of net.now) cycle.now }
{
    let Some(first) = cycle.arcs().first() else {
        unreachable!()
    };
    let start = net.arc(*first).from;
    let Some(sum) = weight(net, cycle, start, start) else {
        unreachable!()
    };
    sum
}
