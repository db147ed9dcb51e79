//! Each call on a network of one point, worked by hand.
ghost use Rattle.std.specs.Prelude.{◌≡◌, [], ◌∷◌, pos, length, IfOk};
ghost use Rattle.stn_model.specs.Net.{point_count, arcs_of};
ghost use Rattle.tri_solve.specs.Edges.{AreBoundsOf};

use crate::{ChordalBounds, Distances, Edge, attain, from_point};
use std::alloc::Global;
use std::test::Fail;
use stn_model::{AgentId, Lean, Network, OutOfMemory, PointId};

/// A network of one point that lies from 0 to the horizon.
fn one_point(alloc: Global, horizon: i64) -> Result<Network, Fail> {
    let mut net = Network::new(alloc, horizon)?;
    net.add_agent(alloc, b"ann".as_slice(), Lean::Early)?;
    if net.agents() > 0 {
        net.add_point(alloc, AgentId(0), b"a".as_slice())?;
    }
    Ok(net)
}

/// The point and then z.
fn order(alloc: Global) -> Result<Vec<PointId>, OutOfMemory>
    ensures { IfOk result (λ order. order.items ≡ record { 0 = 1 } ∷ record { 0 = 0 } ∷ []) }
{
    let mut order = Vec::new(alloc);
    order.push(PointId(1))?;
    order.push(PointId(0))?;
    Ok(order)
}

/// The least bounds up to z and down from it.
fn edges(alloc: Global, horizon: i64) -> Result<Vec<Edge>, OutOfMemory>
    ensures { IfOk result (λ edges. edges.items ≡ record { from = record { 0 = 1 }; to = record { 0 = 0 }; bound = pos 0 }
        ∷ record { from = record { 0 = 0 }; to = record { 0 = 1 }; bound = horizon } ∷ []) }
{
    let up = Edge {
        from: PointId(1),
        to: PointId(0),
        bound: 0,
    };
    let down = Edge {
        from: PointId(0),
        to: PointId(1),
        bound: i128::from(horizon),
    };
    let mut edges = Vec::new(alloc);
    edges.push(up)?;
    edges.push(down)?;
    Ok(edges)
}

/// The least bounds of such a network.
fn least_bounds(alloc: Global, net: &Network) -> Result<ChordalBounds, OutOfMemory>
    requires points { point_count net.now ≡ 2 }
    requires arcs { length (arcs_of net.now) ≡ 2 }
    ensures { IfOk result (λ bounds. AreBoundsOf net.now bounds) }
{
    let horizon = net.horizon();
    let order = order(alloc)?;
    let edges = edges(alloc, horizon)?;
    let bounds = ChordalBounds::new(alloc, order, edges)?;
    Ok(bounds)
}

/// The distances from one of the two points.
fn found_from(alloc: Global, horizon: i64, source: u32) -> Result<Distances, Fail> {
    let net = one_point(alloc, horizon)?;
    if net.points() != 2 || net.arcs() != 2 || source >= 2 {
        return Err(Fail::new("not one point"));
    }
    let bounds = least_bounds(alloc, &net)?;
    let found = from_point(alloc, &net, &bounds, PointId(source))?;
    Ok(found)
}

/// The times of the schedule that attains them.
fn attained(alloc: Global, horizon: i64, source: u32) -> Result<Vec<i128>, Fail> {
    let found = found_from(alloc, horizon, source)?;
    let schedule = attain(alloc, &found)?;
    Ok(Vec::from_slice(alloc, schedule.times())?)
}

/// The path to the source.
fn own_path(alloc: Global, horizon: i64, source: u32) -> Result<usize, Fail> {
    let found = found_from(alloc, horizon, source)?;
    let path = found.path(alloc, found.source())?;
    Ok(path.len())
}

#[test]
fn schedules_attain(rt: HostRuntime) -> Result<(), Fail> {
    let alloc = rt.alloc();
    for (horizon, source, times) in [(100, 0, [0, 100]), (100, 1, [0, 0]), (0, 1, [0, 0])] {
        assert_eq!(rt;
            attained(alloc, horizon, source)?.as_slice(),
            times.as_slice()
        );
    }
    Ok(())
}

#[test]
fn paths_are_there(rt: HostRuntime) -> Result<(), Fail> {
    let alloc = rt.alloc();
    assert_eq!(rt; own_path(alloc, 100, 0)?, 1);
    assert_eq!(rt; own_path(alloc, 100, 1)?, 1);
    Ok(())
}
