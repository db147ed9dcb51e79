//! Walks round withdrawn arcs.
ghost use Rattle.std.specs.Prelude.{◌≡◌, ◌<◌, ◌++◌, ◌≤ℤ◌, IfOk};
ghost use Rattle.std.specs.List.{All};
ghost use Rattle.stn_model.specs.Limits.{most_points};
ghost use Rattle.stn_model.specs.Net.{arcs_of};
ghost use Rattle.stn_model.specs.Walks as walks;
ghost use Rattle.stn_walk.specs.Detours.{IsWithdrawn, Avoids, AreFlagsOf, detour};

use crate::walk::Walk;
use std::alloc::Global;
use stn_model::{Constraint, Network, OutOfMemory, PointId};

/// A walk between the same points that is no heavier and names none of the listed arcs, which are given arcs whose bound is the horizon,
/// as withdrawing leaves it. The two arcs of a listed arc's ends with the reference point stand for it: `(i, z, 0)` and then
/// `(z, j, horizon)`, or one of them where the other end is the reference point itself. The result may pass a point twice.
///
/// One pass marks the listed arcs in a table of all arcs, and one goes over the walk.
pub fn avoid(
    alloc: Global,
    net: &Network,
    walk: &Walk,
    from: PointId,
    to: PointId,
    withdrawn: &[u32],
) -> Result<Walk, OutOfMemory>
    requires walk { walks.IsWalk (arcs_of net.now) from.0 to.0 walk.now }
    requires withdrawn { All (IsWithdrawn net.now) withdrawn.now }
    ensures walk { IfOk result (walks.IsWalk (arcs_of net.now) from.0 to.0) }
    ensures weight { IfOk result (λ w. walks.weight (arcs_of net.now) w ≤ℤ walks.weight (arcs_of net.now) walk.now) }
    ensures avoids { IfOk result (Avoids withdrawn.now) }
{
    let arcs = walk.arcs();
    let listed = flags_of(alloc, net.arcs(), withdrawn)?;
    let mut round = Vec::with_capacity(alloc, arcs.len())?;
    for n in arcs {
        if listed[*n as usize] {
            push_detour(net.arc(*n), &mut round)?;
        } else {
            round.push(*n)?;
        }
    }
    Ok(Walk::new(round))
}

/// A flag for each number below the count, true for the listed ones.
fn flags_of(alloc: Global, count: u32, listed: &[u32]) -> Result<Vec<bool>, OutOfMemory>
    requires { All (λ n. n < count) listed.now }
    ensures { IfOk result (λ v. AreFlagsOf count listed.now v.items) }
{
    let mut flags = vec![in alloc; false; count as usize]?;
    for n in listed {
        flags[*n as usize] = true;
    }
    Ok(flags)
}

/// Goes on from where the arc begins to where it ends, by the arcs of these points with the reference point.
fn push_detour(arc: Constraint, walk: &mut Vec<u32>) -> Result<(), OutOfMemory>
    requires from { arc.from.0 < most_points }
    requires to { arc.to.0 < most_points }
    ensures { IfOk result (λ _. walk.new.items ≡ walk.old.items ++ detour arc.from.0 arc.to.0) }
{
    if arc.from.0 != 0 {
        walk.push(2 * arc.from.0 - 1)?;
    }
    if arc.to.0 != 0 {
        walk.push(2 * arc.to.0 - 2)?;
    }
    Ok(())
}
