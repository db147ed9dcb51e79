//! A network of two agents, and what the calls tell of it.
use super::*;
use std::test::Fail;

/// Ann has a1, a2 and the act dig (points 1 to 4), Bob has b1 (5).
fn points(rt: &impl Abort, alloc: Global) -> Result<Network, NetError> {
    let mut net = Network::new(alloc, 100)?;
    net.add_agent(alloc, b"ann".as_slice(), Lean::Early)?;
    net.add_agent(alloc, b"bob".as_slice(), Lean::Middle)?;
    place_all(rt, &mut net, alloc, &[(0, b"a1"), (0, b"a2")])?;
    act(rt, &mut net, alloc, b"dig".as_slice(), (30, 40))?;
    place_all(rt, &mut net, alloc, &[(1, b"b1")])?;
    Ok(net)
}

/// Ann digs and hands over to Bob.
fn handover(rt: &impl Abort, alloc: Global) -> Result<Network, NetError> {
    let mut net = points(rt, alloc)?;
    join_all(
        rt,
        &mut net,
        &[(0, 1, 20), (2, 1, -30), (1, 2, 40), (4, 5, 5), (5, 4, 0)],
    )?;
    Ok(net)
}

/// The number, owner and kind of each point, by name.
const POINTS: [(&[u8], u32, Option<AgentId>, Kind); 6] = [
    (b"z", 0, None, Kind::Reference),
    (b"a1", 1, Some(AgentId(0)), Kind::Private),
    (b"a2", 2, Some(AgentId(0)), Kind::Private),
    (b"dig.s", 3, Some(AgentId(0)), Kind::Private),
    (b"dig.e", 4, Some(AgentId(0)), Kind::Shared),
    (b"b1", 5, Some(AgentId(1)), Kind::Shared),
];

fn assert_points(rt: &impl Abort, net: &Network) {
    for (name, p, owner, kind) in POINTS.iter() {
        assert!(rt; *p < net.points());
        assert_eq!(rt; net.point_name(PointId(*p)), *name);
        assert_eq!(rt; net.find(name), Some(PointId(*p)));
        assert_eq!(rt; net.owner(PointId(*p)), *owner);
        assert_eq!(rt; net.kind(PointId(*p)), *kind);
    }
}

fn assert_agents(rt: &impl Abort, net: &Network) {
    for (a, name, lean) in [
        (0, b"ann".as_slice(), Lean::Early),
        (1, b"bob".as_slice(), Lean::Middle),
    ] {
        assert!(rt; a < net.agents());
        assert_eq!(rt; net.agent_name(AgentId(a)), name);
        assert_eq!(rt; net.lean(AgentId(a)), lean);
        assert_eq!(rt; net.find_agent(name), Some(AgentId(a)));
    }
}

fn assert_arcs(rt: &impl Abort, net: &Network, arcs: &[(u32, u32, u32, i64)]) {
    for (n, from, to, bound) in arcs.iter() {
        assert!(rt; *n < net.arcs());
        let arc = net.arc(*n);
        assert_eq!(rt; (arc.from.0, arc.to.0, arc.bound), (*from, *to, *bound));
    }
}

/// Arcs of points, of the act, and given ones.
const ARCS: [(u32, u32, u32, i64); 8] = [
    (0, 0, 1, 100),
    (1, 1, 0, 0),
    (8, 0, 5, 100),
    (9, 5, 0, 0),
    (10, 3, 4, 40),
    (11, 4, 3, -30),
    (12, 0, 1, 20),
    (16, 5, 4, 0),
];

#[test]
fn builds_and_copies(rt: HostRuntime) -> Result<(), Fail> {
    let net = handover(&rt, rt.alloc())?.copy(rt.alloc())?;
    assert_agents(&rt, &net);
    assert_points(&rt, &net);
    assert_arcs(&rt, &net, &ARCS);
    assert_eq!(rt; net.arcs(), 17);
    assert!(rt; net.acts() == 1);
    assert_eq!(rt; net.act_name(0), b"dig".as_slice());
    assert_eq!(rt;
        net.act(0),
        Act {
            start: PointId(3),
            end: PointId(4),
            low: 30,
            high: 40
        }
    );
    Ok(())
}

#[test]
fn withdraws_given_arcs_alone(rt: HostRuntime) -> Result<(), Fail> {
    let mut net = handover(&rt, rt.alloc())?;
    for (n, want) in [
        (0, false),
        (9, false),
        (10, false),
        (11, false),
        (12, true),
        (16, true),
        (17, false),
    ] {
        assert_eq!(rt; net.is_given(n), want);
    }
    assert!(rt; net.is_given(16));
    net.withdraw(16);
    assert!(rt; net.is_given(12));
    net.set_bound(12, -7);
    assert_arcs(
        &rt,
        &net,
        &[(12, 0, 1, -7), (13, 2, 1, -30), (16, 5, 4, 100)],
    );
    assert_points(&rt, &net);
    Ok(())
}

fn judge(net: &Network, alloc: Global, times: &[i128]) -> Result<bool, Fail> {
    let schedule = Schedule::new(Vec::from_slice(alloc, times)?).ok_or("out of range")?;
    Ok(net.satisfies(&schedule))
}

#[test]
fn judges_schedules(rt: HostRuntime) -> Result<(), Fail> {
    let net = handover(&rt, rt.alloc())?;
    for (times, want) in [
        ([0, 20, 60, 0, 30, 35].as_slice(), true),
        ([0, 20, 60, 0, 30].as_slice(), false),
        ([1, 21, 61, 1, 31, 36].as_slice(), false),
        ([0, 21, 60, 0, 30, 35].as_slice(), false),
        ([0, 20, 60, 0, 29, 34].as_slice(), false),
    ] {
        assert_eq!(rt; judge(&net, rt.alloc(), times)?, want);
    }
    Ok(())
}

#[test]
fn knows_the_range_of_times(rt: HostRuntime) -> Result<(), Fail> {
    for (time, want) in [
        (-GREATEST_TIME - 1, false),
        (-GREATEST_TIME, true),
        (GREATEST_TIME, true),
        (GREATEST_TIME + 1, false),
    ] {
        let times = Vec::from_array(rt.alloc(), [0, time])?;
        assert_eq!(rt; Schedule::new(times).is_some(), want);
    }
    Ok(())
}
