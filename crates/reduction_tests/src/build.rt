//! Small networks, and calls whose conditions are tested first.
ghost use Rattle.std.specs.Prelude.{◌≡◌, true, IfOk};
ghost use Rattle.private_elim.specs.Locals.{all_numbered};

use elim_step::{Picker, Summary, SummaryEntry};
use private_elim::{Local, PrivateOutcome, Reduced, eliminate_private};
use std::alloc::Global;
use std::test::Fail;
use stn_model::{AgentId, Network, PointId};

// An agent's local problem.
pub fn local_of(alloc: Global, net: &Network, agent: u32) -> Result<Local, Fail>
    ensures { IfOk result (λ l. all_numbered l.arcs ≡ true) }
{
    if agent >= net.agents() {
        return Err(Fail::new("no such agent"));
    }
    let local = Local::of(alloc, net, AgentId(agent))?;
    Ok(local)
}

// The reduced local problem of an outcome without a conflict.
pub fn reduced(outcome: PrivateOutcome) -> Result<Reduced, Fail> {
    match outcome {
        PrivateOutcome::Reduced(reduced) => Ok(reduced),
        PrivateOutcome::Conflict { .. } => Err(Fail::new("a conflict")),
    }
}

// The private points of an agent taken by least degree.
pub fn by_degree(alloc: Global, net: &Network, agent: u32) -> Result<PrivateOutcome, Fail> {
    let local = local_of(alloc, net, agent)?;
    let key = Box::new(alloc, |degree: u32, _number: u32| u64::from(degree))?;
    Ok(eliminate_private(alloc, &local, &Picker::new(key))?)
}

// The same by a factor of the number, by which other orders come out.
pub fn by_factor(alloc: Global, local: &Local, factor: u64) -> Result<PrivateOutcome, Fail>
    requires { all_numbered local.now.arcs ≡ true }
{
    let key = Box::new(alloc, move |_degree: u32, number: u32| {
        u64::from(number).wrapping_mul(factor) % 31
    })?;
    Ok(eliminate_private(alloc, local, &Picker::new(key))?)
}

// An entry from one point to another.
pub fn entry(from: u32, to: u32, weight: i128) -> SummaryEntry {
    SummaryEntry {
        from: PointId(from),
        to: PointId(to),
        weight,
    }
}

// The entries as a summary.
pub fn summary_of(alloc: Global, entries: &[SummaryEntry]) -> Result<Summary, Fail> {
    match Summary::new(Vec::from_slice(alloc, entries)?) {
        Some(summary) => Ok(summary),
        None => Err(Fail::new("no summary")),
    }
}

// The key 9 less the number, or the number 1 first and then the degree.
fn key_of(degree: u32, number: u32, joined: bool) -> u64 {
    if !joined {
        return u64::from(9u32.saturating_sub(number));
    }
    if number == 1 { 0 } else { u64::from(degree) }
}

// The private points taken by one of these keys.
pub fn by_key(alloc: Global, local: &Local, joined: bool) -> Result<PrivateOutcome, Fail>
    requires { all_numbered local.now.arcs ≡ true }
{
    let key = Box::new(
        alloc,
        move |degree: u32, number: u32| key_of(degree, number, joined),
    )?;
    Ok(eliminate_private(alloc, local, &Picker::new(key))?)
}
