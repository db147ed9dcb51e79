//! Pruning: walks without their closed parts, and negative cycles from negative closed walks.
ghost use Rattle.std.specs.Prelude.{◌≡◌, ◌<◌, ◌≤ℤ◌, length, IfOk, map};
ghost use Rattle.std.specs.List.{All, Contains};
ghost use Rattle.stn_model.specs.Net.{arcs_of};
ghost use Rattle.stn_model.specs.Walks as walks;
ghost use Rattle.stn_walk.specs.Parts.{NoPartIsNegative};

use crate::arc_list::ArcList;
use crate::normal_form::{place_of_least, turn};
use crate::path::Path;
use crate::walk::Walk;
use std::alloc::Global;
use stn_model::{Network, OutOfMemory, PointId};

/// A walk between the same points that passes no point twice, of arcs of the walk. It is no heavier
/// where no closed part of the walk is negative. One pass: each closed part is dropped as soon as
/// the walk comes back to the point where it began.
pub fn prune(
    alloc: Global,
    net: &Network,
    walk: &Walk,
    from: PointId,
    to: PointId,
) -> Result<Walk, OutOfMemory>
    requires { walks.IsWalk (arcs_of net.now) from.0 to.0 walk.now }
    ensures walk { IfOk result (walks.IsWalk (arcs_of net.now) from.0 to.0) }
    ensures simple { IfOk result (walks.PassesNoPointTwice (arcs_of net.now) from.0 to.0) }
    ensures part { IfOk result (All (Contains walk.now)) }
    ensures weight { IfOk result (λ w. NoPartIsNegative (arcs_of net.now) walk.now → walks.weight (arcs_of net.now) w ≤ℤ walks.weight (arcs_of net.now) walk.now) }
{
    let arcs = walk.arcs();
    if arcs.len() == 0 {
        return Ok(Walk::new(Vec::new(alloc)));
    }
    let _first = net.arc(arcs[0]);
    let mut path = Path::start(alloc, net.points(), from.0)?;
    for n in arcs {
        path.go_on(net, *n)?;
    }
    Ok(Walk::new(path.into_arcs()))
}

/// A negative cycle of arcs of a closed walk of a network whose weight is below 0, in normal form:
/// [`negative_cycle`] over the network's arcs.
pub fn prune_cycle(alloc: Global, net: &Network, walk: &Walk) -> Result<Walk, OutOfMemory>
    requires { walks.IsNegativeClosed (arcs_of net.now) walk.now }
    ensures cycle { IfOk result (walks.IsNegativeCycle (arcs_of net.now)) }
    ensures normal { IfOk result walks.IsNormal }
    ensures part { IfOk result (All (Contains walk.now)) }
{
    let cycle = negative_cycle(alloc, net, walk.arcs())?;
    Ok(Walk::new(cycle))
}

/// A negative cycle of arcs of a closed walk whose weight is below 0, in normal form: it begins
/// with its arc of least number. One pass finds the first closed part that sums below 0 once the
/// closed parts before it are dropped; one more turns it.
pub fn negative_cycle<A: ArcList>(
    alloc: Global,
    arcs: &A,
    closed: &[u32],
) -> Result<Vec<u32>, OutOfMemory>
    requires { walks.IsNegativeClosed (A.list arcs.now) closed.now }
    ensures cycle { IfOk result (λ v. walks.IsNegativeCycle (A.list arcs.now) v.items) }
    ensures normal { IfOk result (λ v. walks.IsNormal v.items) }
    ensures part { IfOk result (λ v. All (Contains closed.now) v.items) }
{
    let cycle = negative_part(alloc, arcs, closed)?;
    let least = place_of_least(cycle.as_slice());
    let turned = turn(alloc, cycle.as_slice(), least)?;
    Ok(turned)
}

/// A negative cycle of arcs of a closed walk whose weight is below 0.
fn negative_part<A: ArcList>(
    alloc: Global,
    arcs: &A,
    closed: &[u32],
) -> Result<Vec<u32>, OutOfMemory>
    requires { walks.IsNegativeClosed (A.list arcs.now) closed.now }
    ensures cycle { IfOk result (λ v. walks.IsNegativeCycle (A.list arcs.now) v.items) }
    ensures part { IfOk result (λ v. All (Contains closed.now) v.items) }
{
    let start = arcs.arc_at(closed[0]).from.0;
    let mut path = Path::start(alloc, arcs.point_count(), start)?;
    for n in closed {
        if let Some(part) = path.go_on_or_close(alloc, arcs, *n)? {
            return Ok(part);
        }
    }
    unreachable!()
}
