//! A small network built by the calls, and each refusal, with those that two faults meet at once.
mod built;
mod refused;

use super::*;
use std::alloc::Global;
use std::process::Abort;

/// Adds points of agents that are there.
fn place_all(
    rt: &impl Abort,
    net: &mut Network,
    alloc: Global,
    points: &[(u32, &[u8])],
) -> Result<(), NetError> {
    for (agent, name) in points.iter() {
        place(rt, net, alloc, *agent, name)?;
    }
    Ok(())
}

/// Adds a point of an agent that is there.
fn place(
    rt: &impl Abort,
    net: &mut Network,
    alloc: Global,
    agent: u32,
    name: &[u8],
) -> Result<PointId, NetError> {
    assert!(rt; agent < net.agents());
    net.add_point(alloc, AgentId(agent), name)
}

/// Adds an act of the first agent.
fn act(
    rt: &impl Abort,
    net: &mut Network,
    alloc: Global,
    name: &[u8],
    (low, high): (i64, i64),
) -> Result<u32, NetError> {
    assert!(rt; 0 < net.agents());
    net.add_act(alloc, AgentId(0), name, low, high)
}

/// Adds an arc between points that are there.
fn join(
    rt: &impl Abort,
    net: &mut Network,
    (from, to, bound): (u32, u32, i64),
) -> Result<u32, NetError> {
    assert!(rt; from < net.points());
    assert!(rt; to < net.points());
    net.add_arc(PointId(from), PointId(to), bound)
}

/// Adds arcs between points that are there.
fn join_all(rt: &impl Abort, net: &mut Network, arcs: &[(u32, u32, i64)]) -> Result<(), NetError> {
    for arc in arcs.iter() {
        join(rt, net, *arc)?;
    }
    Ok(())
}
