//! The least bounds from each point of a network in turn, along one schedule of it.
ghost use Rattle.std.specs.Prelude.{◌≡◌, ℕ, ◌<◌, length, IfOk};
ghost use Rattle.stn_model.specs.Net.{arcs_of, point_count};
ghost use Rattle.stn_model.specs.Schedules.{IsConsistent, Satisfies};
ghost use Rattle.plain_solve.specs.Graphs.{IsGraph, IsTurned};
ghost use Rattle.plain_solve.specs.LabelFacts.{IsForced, Holds};
ghost use Rattle.plain_solve.specs.QueueFacts.{IsLayout};
ghost use Rattle.plain_solve.specs.LeastWalks.{HasOneEach, ListsOthersOnce, EndsThere, StartsBefore, IsTight, IsLeast};
ghost use Rattle.plain_solve.specs.Served.{Serves};

use crate::graph::{Graph, turned};
use crate::labels::Labels;
use crate::layout::{Layout, lay_out};
use crate::least::{FromPoint, at_rest, over_reference};
use crate::nearest::settle;
use std::alloc::Global;
use stn_model::{Network, OutOfMemory, PointId, Schedule};

/// The arcs of a network that has a schedule, laid out once for all points from which least bounds are asked for.
#[derive(Drop)]
pub struct Sources {
    graph: Graph,
    layout: Layout,
    heights: Vec<i64>,
}

/// The times of a schedule as heights of the points.
fn heights_of(alloc: Global, schedule: &Schedule) -> Result<Vec<i64>, OutOfMemory> {
    let times = schedule.times();
    let mut heights = Vec::with_capacity(alloc, times.len())?;
    for time in times {
        heights.push(i64::try_from(*time).unwrap_or(0))?;
    }
    Ok(heights)
}

/// Labels at which every arc holds.
fn settled(
    alloc: Global,
    net: &Network,
    graph: &Graph,
    layout: &Layout,
    heights: &[i64],
    source: PointId,
) -> Result<Labels, OutOfMemory>
    requires graph { IsGraph graph.now }
    requires turned { IsTurned net.now source.0 graph.now }
    requires layout { IsLayout graph.now layout.now }
    requires consistent { IsConsistent (point_count net.now) (arcs_of net.now) }
    ensures forced { IfOk result (IsForced graph.now) }
    ensures rest { IfOk result (λ labels. (n : ℕ) → n < length graph.now.arcs.items → Holds graph.now labels n) }
{
    let mut labels = over_reference(alloc, net, graph, source)?;
    let None = settle(alloc, graph, layout, &mut labels, heights)? else {
        unreachable!()
    };
    Ok(labels)
}

impl Sources {
    /// Lays the arcs of a network out, for which that schedule satisfies it: the one that `plain_solve` answers, or any other.
    ///
    /// # Errors
    /// `OutOfMemory` is the only error.
    pub fn of(alloc: Global, net: &Network, schedule: &Schedule) -> Result<Self, OutOfMemory>
        requires { Satisfies (point_count net.now) (arcs_of net.now) schedule.now }
        ensures { IfOk result (Serves net.now) }
    {
        let _points = net.points();
        let graph = turned(alloc, net, PointId(0))?;
        let layout = lay_out(alloc, &graph)?;
        let heights = heights_of(alloc, schedule)?;
        Ok(Sources {
            graph,
            layout,
            heights,
        })
    }

    /// Makes a point the source.
    fn aim(&mut self, net: &Network, source: PointId)
        requires serves { Serves net.now self.old }
        requires within { source.0 < point_count net.now }
        ensures serves { Serves net.now self.new }
        ensures source { self.new.graph.root ≡ source.0 }
    {
        let _points = net.points();
        self.graph.root = source.0;
    }

    /// The least bounds from a point of that network, with a last arc for each other point.
    ///
    /// Distances are whole numbers of the network's unit. After an error the next point can be asked for as before.
    ///
    /// # Errors
    /// `OutOfMemory` is the only error.
    pub fn walks_from(
        &mut self,
        alloc: Global,
        net: &Network,
        source: PointId,
    ) -> Result<FromPoint, OutOfMemory>
        requires serves { Serves net.now self.old }
        requires within { source.0 < point_count net.now }
        ensures serves { Serves net.now self.new }
        ensures source { IfOk result (λ walks. walks.source ≡ source.0) }
        ensures sizes { IfOk result (HasOneEach (point_count net.now)) }
        ensures order { IfOk result (λ walks. ListsOthersOnce (point_count net.now) source.0 walks.order) }
        ensures ends { IfOk result (EndsThere net.now) }
        ensures starts { IfOk result (StartsBefore net.now) }
        ensures tight { IfOk result (IsTight net.now) }
        ensures least { IfOk result (IsLeast net.now) }
    {
        self.aim(net, source);
        let heights = self.heights.as_slice();
        let labels = settled(alloc, net, &self.graph, &self.layout, heights, source)?;
        let walks = at_rest(alloc, net, &self.graph, labels, source)?;
        Ok(walks)
    }
}
