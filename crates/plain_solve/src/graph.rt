//! The arcs of a network as labels rise along them: from where an arc ends to where it begins.
ghost use Rattle.std.specs.Prelude.{◌≡◌, ◌<◌, IfOk, length, map};
ghost use Rattle.stn_model.specs.Net.{arcs_of, point_count};
ghost use Rattle.plain_solve.specs.Graphs.{IsGraph, IsOnward, IsTurned, exchanged};

use std::alloc::Global;
use stn_model::{Constraint, Network, OutOfMemory, PointId};

/// Arcs between points, by number, with the point that keeps its label and the greatest label of the others.
#[derive(Drop)]
pub struct Graph {
    pub points: u32,
    pub root: u32,
    pub top: i64,
    pub arcs: Vec<Constraint>,
}

impl Graph {
    ghost use Rattle.stn_model.specs.Arcs.{arc_at};
    ghost use Rattle.stn_model.specs.Valid.{IsArcWithin};

    /// The arc of that number.
    pub fn arc(&self, n: u32) -> Constraint
        requires graph { IsGraph self.now }
        requires within { n < length self.now.arcs.items }
        ensures arc { result ≡ arc_at self.now.arcs.items n }
        ensures within { IsArcWithin self.now.points result }
    {
        self.arcs[n as usize]
    }
}

/// All arcs of the network, by number.
fn all_arcs(alloc: Global, net: &Network) -> Result<Vec<Constraint>, OutOfMemory>
    ensures { IfOk result (λ arcs. arcs.items ≡ arcs_of net.now) }
{
    let count = net.arcs();
    let mut arcs = Vec::with_capacity(alloc, count as usize)?;
    for n in 0..count {
        arcs.push(net.arc(n))?;
    }
    Ok(arcs)
}

/// The network's arcs as they are: the labels are times, the reference point's is 0, none is above the horizon.
pub fn onward(alloc: Global, net: &Network) -> Result<Graph, OutOfMemory>
    ensures graph { IfOk result IsGraph }
    ensures onward { IfOk result (IsOnward net.now) }
{
    let points = net.points();
    let top = net.horizon();
    let arcs = all_arcs(alloc, net)?;
    Ok(Graph {
        points,
        root: 0,
        top,
        arcs,
    })
}

/// The arc with its ends exchanged.
fn turn(arc: Constraint) -> Constraint
    ensures { result ≡ exchanged arc }
{
    Constraint {
        from: arc.to,
        to: arc.from,
        bound: arc.bound,
    }
}

/// All arcs of the network turned round, by number.
fn turned_arcs(alloc: Global, net: &Network) -> Result<Vec<Constraint>, OutOfMemory>
    ensures { IfOk result (λ arcs. arcs.items ≡ map exchanged (arcs_of net.now)) }
{
    let count = net.arcs();
    let mut arcs = Vec::with_capacity(alloc, count as usize)?;
    for n in 0..count {
        let arc = net.arc(n);
        let turned = turn(arc);
        arcs.push(turned)?;
    }
    Ok(arcs)
}

/// The network's arcs turned round: the labels are distances from the source with the sign changed.
pub fn turned(alloc: Global, net: &Network, source: PointId) -> Result<Graph, OutOfMemory>
    requires { source.0 < point_count net.now }
    ensures graph { IfOk result IsGraph }
    ensures turned { IfOk result (IsTurned net.now source.0) }
{
    let points = net.points();
    let top = net.horizon();
    let arcs = turned_arcs(alloc, net)?;
    Ok(Graph {
        points,
        root: source.0,
        top,
        arcs,
    })
}
