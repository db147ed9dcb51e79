//! Weights of walks: the sums of their arcs' bounds.
ghost use Rattle.std.specs.Prelude.{◌≡◌, ◌*◌, ◌<◌, ◌≤ℤ◌, pos, neg_ℤ, length, SomeIff};
ghost use Rattle.stn_model.specs.Limits.{greatest_bound};
ghost use Rattle.stn_model.specs.Net.{arcs_of};
ghost use Rattle.stn_model.specs.Walks as walks;
ghost use Rattle.stn_walk.specs.Parts.{AreInRange};

use crate::arc_list::ArcList;
use crate::walk::Walk;
use stn_model::{Network, PointId};

/// The weight of a walk from `from` to `to`: the sum of its arcs' bounds, exact, in the network's
/// unit of time. None exactly where it is no walk between these points: a number is out of range,
/// an arc does not begin where the one before it ends, or an end is another point. The empty list
/// is a walk from each point to itself, of weight 0. It takes no memory.
pub fn weight(net: &Network, walk: &Walk, from: PointId, to: PointId) -> Option<i128>
    ensures { SomeIff result (walks.IsWalk (arcs_of net.now) from.0 to.0 walk.now) (walks.weight (arcs_of net.now) walk.now) }
{
    weight_of(net, walk.arcs(), from, to)
}

fn weight_of(net: &Network, arcs: &[u32], from: PointId, to: PointId) -> Option<i128>
    ensures { SomeIff result (walks.IsWalk (arcs_of net.now) from.0 to.0 arcs.now) (walks.weight (arcs_of net.now) arcs.now) }
{
    let mut at = from.0;
    let mut sum = 0i128;
    for n in arcs {
        if *n >= net.arcs() {
            return None;
        }
        let arc = net.arc(*n);
        if arc.from.0 != at {
            return None;
        }
        sum += arc.bound as i128;
        at = arc.to.0;
    }
    if at == to.0 { Some(sum) } else { None }
}

/// The sum of the bounds of the arcs of these numbers, which need be no walk.
pub(crate) fn sum_of<A: ArcList>(arcs: &A, numbers: &[u32]) -> i128
    requires { AreInRange (A.list arcs.now) numbers.now }
    ensures sum { result ≡ walks.weight (A.list arcs.now) numbers.now }
    ensures low { neg_ℤ (pos (greatest_bound * length numbers.now)) ≤ℤ result }
    ensures high { result ≤ℤ pos (greatest_bound * length numbers.now) }
{
    let mut sum = 0i128;
    for n in numbers {
        sum += arcs.arc_at(*n).bound as i128;
    }
    sum
}
