//! The least raise of one bound after which some schedule satisfies the network.
ghost use Rattle.std.specs.Prelude.{◌≡◌, ◌<◌, ◌∷◌, [], ◌+ℤ◌, ◌-ℤ◌, ◌≤ℤ◌, pos, neg_ℤ, IfOk, IsTrue, ◌↔◌};
ghost use Rattle.std.specs.List.{Contains};
ghost use Rattle.stn_model.specs.Limits.{greatest_bound};
ghost use Rattle.stn_model.specs.Arcs.{bound_at};
ghost use Rattle.stn_model.specs.Net.{arcs_of, point_count, is_given};
ghost use Rattle.stn_model.specs.Schedules.{IsConsistent, Satisfies};
ghost use Rattle.stn_model.specs.Walks as walks;
ghost use Rattle.stn_walk.specs.Detours.{IsWithdrawn};
ghost use Rattle.plain_solve.specs.Answers.{IsEarliest};
ghost use Rattle.least_repair.specs.Loosened.{loosened, without, IsLeastEnough};
ghost use Rattle.least_repair.specs.Repairs.{remains, IsLoosen, IfRemains, IfLoosen};

use plain_solve::{Plain, Sources, plain_solve};
use std::alloc::Global;
use stn_model::{Network, OutOfMemory, Schedule};
use stn_walk::{Walk, avoid, prune_cycle};

/// What raising the bound of one given arc of an inconsistent network comes to.
#[derive(Drop)]
pub enum Repair {
    /// No raise is enough: the network is inconsistent without the arc, too. With a negative cycle of the network that does not name the
    /// arc, from its arc of least number.
    Remains(Walk),
    /// Some raise is enough, and this one is the least.
    Loosen {
        /// By how much the bound is raised, in the network's unit of time: at least 1. The raised bound is at most the horizon.
        by: i128,
        /// The earliest schedule of the network with the raised bound.
        schedule: Schedule,
        /// A negative cycle of the network with the bound raised by one less, from its arc of least number.
        cycle: Walk,
    },
}

/// The earliest schedule of a consistent network.
fn earliest(alloc: Global, net: &Network) -> Result<Schedule, OutOfMemory>
    requires { IsConsistent (point_count net.now) (arcs_of net.now) }
    ensures { IfOk result (IsEarliest net.now) }
{
    let Plain::Consistent(schedule) = plain_solve(alloc, net)? else {
        unreachable!()
    };
    Ok(schedule)
}

/// A negative cycle of an inconsistent network, in normal form.
fn conflict(alloc: Global, net: &Network) -> Result<Walk, OutOfMemory>
    requires { IsConsistent (point_count net.now) (arcs_of net.now) → ⊥ }
    ensures cycle { IfOk result (walks.IsNegativeCycle (arcs_of net.now)) }
    ensures normal { IfOk result walks.IsNormal }
{
    let Plain::Inconsistent(cycle) = plain_solve(alloc, net)? else {
        unreachable!()
    };
    Ok(cycle)
}

/// A negative cycle of arcs other than a withdrawn one, in normal form, from one that may name it: where it does, it is led over the
/// reference point, and what is left of it pruned.
fn lead_round(alloc: Global, net: &Network, cycle: &Walk, arc: u32) -> Result<Walk, OutOfMemory>
    requires withdrawn { IsWithdrawn net.now arc }
    requires cycle { walks.IsNegativeCycle (arcs_of net.now) cycle.now }
    ensures cycle { IfOk result (walks.IsNegativeCycle (arcs_of net.now)) }
    ensures normal { IfOk result walks.IsNormal }
    ensures unnamed { IfOk result (λ walk. Contains walk arc → ⊥) }
{
    let start = net.arc(cycle.arcs()[0]).from;
    let round = avoid(alloc, net, cycle, start, start, &[arc])?;
    prune_cycle(alloc, net, &round)
}

/// The number with the sign changed.
fn opposite(distance: i128) -> i64
    requires low { neg_ℤ (pos greatest_bound) ≤ℤ distance }
    requires high { distance ≤ℤ pos greatest_bound }
    ensures { result ≡ neg_ℤ distance }
{
    -distance as i64
}

/// The least bound of a withdrawn arc for which some schedule satisfies the network: the least bound the other way round, with the sign
/// changed. That schedule satisfies the network as it is.
fn least_enough(
    alloc: Global,
    net: &Network,
    schedule: &Schedule,
    arc: u32,
) -> Result<i64, OutOfMemory>
    requires withdrawn { IsWithdrawn net.now arc }
    requires schedule { Satisfies (point_count net.now) (arcs_of net.now) schedule.now }
    ensures enough { IfOk result (IsLeastEnough net.now arc) }
    ensures high { IfOk result (λ bound. bound ≤ℤ net.now.horizon) }
{
    // That the network is within its limits.
    let _points = net.points();
    let ends = net.arc(arc);
    let mut sources = Sources::of(alloc, net, schedule)?;
    let walks = sources.walks_from(alloc, net, ends.to)?;
    Ok(opposite(walks.dist(ends.from)))
}

/// By how much the one bound is above the other.
fn difference(high: i64, low: i64) -> i128
    ensures { result ≡ high -ℤ low }
{
    i128::from(high) - i128::from(low)
}

/// The answer where that bound of the arc is the least that is enough. `other` is the network without the arc.
fn loosen(
    alloc: Global,
    net: &Network,
    mut other: Network,
    arc: u32,
    enough: i64,
) -> Result<Repair, OutOfMemory>
    requires inconsistent { IsConsistent (point_count net.now) (arcs_of net.now) → ⊥ }
    requires given { IsTrue (is_given net.now arc) }
    requires other { other ≡ without net.now arc }
    requires enough { IsLeastEnough net.now arc enough }
    requires high { enough ≤ℤ net.now.horizon }
    ensures loosens { IfOk result IsLoosen }
    ensures raises { IfOk result (λ answer. IfLoosen answer (λ by times cycle. pos 1 ≤ℤ by)) }
    ensures within { IfOk result (λ answer. IfLoosen answer (λ by times cycle. (bound_at (arcs_of net.now) arc +ℤ by) ≤ℤ net.now.horizon)) }
    ensures schedule { IfOk result (λ answer. IfLoosen answer (λ by times cycle. IsEarliest (loosened net.now arc by) times)) }
    ensures cycle { IfOk result (λ answer. IfLoosen answer (λ by times cycle. walks.IsNegativeCycle (arcs_of (loosened net.now arc (by -ℤ pos 1))) cycle)) }
    ensures cycle_normal { IfOk result (λ answer. IfLoosen answer (λ by times cycle. walks.IsNormal cycle)) }
{
    // That the horizon is within its limit.
    let _points = net.points();
    let by = difference(enough, net.arc(arc).bound);
    other.set_bound(arc, enough);
    let schedule = earliest(alloc, &other)?;
    other.set_bound(arc, enough - 1);
    let cycle = conflict(alloc, &other)?;
    Ok(Repair::Loosen {
        by,
        schedule,
        cycle,
    })
}

/// By how much the bound of a given arc of an inconsistent network must at least be raised, so that some schedule satisfies the network.
///
/// Remains exactly where the network is inconsistent without the arc, which is the network with the horizon as the arc's bound; so an arc
/// whose bound is the horizon or more always remains. Numbers are in the network's unit of time. OutOfMemory is the only error.
pub fn least_repair(alloc: Global, net: &Network, arc: u32) -> Result<Repair, OutOfMemory>
    requires inconsistent { IsConsistent (point_count net.now) (arcs_of net.now) → ⊥ }
    requires given { IsTrue (is_given net.now arc) }
    ensures exactly { IfOk result (λ answer. IsTrue (remains answer) ↔ (IsConsistent (point_count net.now) (arcs_of (without net.now arc)) → ⊥)) }
    ensures remains { IfOk result (λ answer. IfRemains answer (walks.IsNegativeCycle (arcs_of net.now))) }
    ensures normal { IfOk result (λ answer. IfRemains answer walks.IsNormal) }
    ensures unnamed { IfOk result (λ answer. IfRemains answer (λ walk. Contains walk arc → ⊥)) }
    ensures raises { IfOk result (λ answer. IfLoosen answer (λ by times cycle. pos 1 ≤ℤ by)) }
    ensures within { IfOk result (λ answer. IfLoosen answer (λ by times cycle. (bound_at (arcs_of net.now) arc +ℤ by) ≤ℤ net.now.horizon)) }
    ensures schedule { IfOk result (λ answer. IfLoosen answer (λ by times cycle. IsEarliest (loosened net.now arc by) times)) }
    ensures cycle { IfOk result (λ answer. IfLoosen answer (λ by times cycle. walks.IsNegativeCycle (arcs_of (loosened net.now arc (by -ℤ pos 1))) cycle)) }
    ensures cycle_normal { IfOk result (λ answer. IfLoosen answer (λ by times cycle. walks.IsNormal cycle)) }
{
    let mut other = net.copy(alloc)?;
    other.withdraw(arc);
    match plain_solve(alloc, &other)? {
        Plain::Inconsistent(cycle) => {
            let walk = lead_round(alloc, &other, &cycle, arc)?;
            Ok(Repair::Remains(walk))
        }
        Plain::Consistent(schedule) => {
            let enough = least_enough(alloc, &other, &schedule, arc)?;
            loosen(alloc, net, other, arc, enough)
        }
    }
}
