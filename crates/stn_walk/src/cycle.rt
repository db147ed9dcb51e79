//! Negative cycles.
ghost use Rattle.std.specs.Prelude.{IsTrue, ◌↔◌};
ghost use Rattle.stn_model.specs.Net.{arcs_of};
ghost use Rattle.stn_model.specs.Walks as walks;
ghost use Rattle.stn_walk.specs.Parts.{AreInRange};

use crate::walk::Walk;
use crate::weights::weight;
use stn_model::{MOST_POINTS, Network};

/// Whether it is a negative cycle: a closed walk that is not empty, passes no point twice (the point
/// where it begins and ends counts once), and has a weight below 0. It may begin at any of its arcs.
/// One pass for the weight and one that marks the points in a table of its own; it takes no memory.
pub fn is_negative_cycle(net: &Network, walk: &Walk) -> bool
    ensures { IsTrue result ↔ walks.IsNegativeCycle (arcs_of net.now) walk.now }
{
    let arcs = walk.arcs();
    if arcs.len() == 0 || arcs[0] >= net.arcs() {
        return false;
    }
    let start = net.arc(arcs[0]).from;
    match weight(net, walk, start, start) {
        None => false,
        Some(sum) => sum < 0 && passes_no_point_twice(net, arcs),
    }
}

/// Whether the arcs end at different points.
fn passes_no_point_twice(net: &Network, arcs: &[u32]) -> bool
    requires { AreInRange (arcs_of net.now) arcs.now }
    ensures { IsTrue result ↔ walks.AllDifferent (walks.heads (arcs_of net.now) arcs.now) }
{
    let _limits = net.points();
    let mut met = [false; MOST_POINTS as usize];
    for n in arcs {
        let head = net.arc(*n).to.0 as usize;
        if met[head] {
            return false;
        }
        met[head] = true;
    }
    true
}
