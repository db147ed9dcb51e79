//! Answers that no clause fixes, for networks worked by hand.
use crate::{Repair, least_repair};
use plain_solve::{Plain, plain_solve};
use std::alloc::Global;
use std::test::Fail;
use stn_model::{AgentId, Lean, Network, PointId};

/// A network of the horizon 10 and two points of one agent, with arcs (from, to, bound); their numbers are 4 and the next.
fn build(alloc: Global, arcs: &[(u32, u32, i64)]) -> Result<Network, Fail> {
    let mut net = Network::new(alloc, 10)?;
    net.add_agent(alloc, b"ann", Lean::Early)?;
    for name in [b"a", b"b"] {
        if net.agents() > 0 {
            net.add_point(alloc, AgentId(0), name)?;
        }
    }
    for arc in arcs {
        if arc.0 < net.points() && arc.1 < net.points() {
            net.add_arc(PointId(arc.0), PointId(arc.1), arc.2)?;
        }
    }
    Ok(net)
}

/// The raise and the times, or 0, and then the arcs of the cycle; none where the network has a schedule, or the arc is not given.
fn told(alloc: Global, net: &Network, arc: u32) -> Result<Vec<i128>, Fail> {
    let mut told = Vec::new(alloc);
    if let Plain::Consistent(_) = plain_solve(alloc, net)? {
        return Ok(told);
    }
    if !net.is_given(arc) {
        return Ok(told);
    }
    let cycle = match least_repair(alloc, net, arc)? {
        Repair::Remains(walk) => {
            told.push(0)?;
            walk
        }
        Repair::Loosen {
            by,
            schedule,
            cycle,
        } => {
            told.push(by)?;
            told.extend_from_slice(schedule.times())?;
            cycle
        }
    };
    for n in cycle.arcs() {
        told.push(i128::from(*n))?;
    }
    Ok(told)
}

#[test]
fn repairs_by_hand(rt: HostRuntime) -> Result<(), Fail> {
    let alloc = rt.alloc();
    for (arcs, arc, answer) in [
        // The raise of the one arc of a cycle, and of the other.
        (
            [(1, 2, 3), (2, 1, -5)].as_slice(),
            4,
            [2, 0, 0, 5, 4, 5].as_slice(),
        ),
        (
            [(1, 2, 3), (2, 1, -5)].as_slice(),
            5,
            [2, 0, 0, 3, 4, 5].as_slice(),
        ),
        // Two conflicts share an arc: the others' repair is not enough.
        (
            [(1, 2, 3), (1, 2, 2), (2, 1, -5)].as_slice(),
            4,
            [0, 5, 6].as_slice(),
        ),
        (
            [(1, 2, 3), (1, 2, 2), (2, 1, -5)].as_slice(),
            5,
            [0, 4, 6].as_slice(),
        ),
        (
            [(1, 2, 3), (1, 2, 2), (2, 1, -5)].as_slice(),
            6,
            [3, 0, 0, 2, 5, 6].as_slice(),
        ),
        // An arc above the horizon forbids nothing.
        (
            [(1, 2, 11), (1, 2, 3), (2, 1, -5)].as_slice(),
            4,
            [0, 5, 6].as_slice(),
        ),
        // One arc's conflict with the horizon, and one by 1.
        ([(2, 0, -11)].as_slice(), 4, [1, 0, 0, 10, 2, 4].as_slice()),
    ] {
        let net = build(alloc, arcs)?;
        assert_eq!(rt; told(alloc, &net, arc)?.as_slice(), answer);
    }
    Ok(())
}
