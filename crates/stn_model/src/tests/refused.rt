//! Each refusal once, and which comes first where two are due.
use super::*;
use crate::names::is_name;
use std::test::Fail;

#[test]
fn knows_names(rt: HostRuntime) {
    let long = [b'n'; 65];
    for (name, want) in [
        (b"_9-.Z".as_slice(), true),
        (&long[..64], true),
        (long.as_slice(), false),
        (b"".as_slice(), false),
        (b"9a".as_slice(), false),
        (b"a b".as_slice(), false),
    ] {
        assert_eq!(rt; is_name(name), want);
    }
}

#[test]
fn knows_horizons(rt: HostRuntime) {
    for (horizon, want) in [
        (-1, false),
        (0, true),
        (GREATEST_BOUND, true),
        (GREATEST_BOUND + 1, false),
    ] {
        assert_eq!(rt; Network::new(rt.alloc(), horizon).is_ok(), want);
    }
}

/// A name of five bytes.
fn number_name(k: u32) -> [u8; 5] {
    [
        b'n',
        b'0' + (k / 1000 % 10) as u8,
        b'0' + (k / 100 % 10) as u8,
        b'0' + (k / 10 % 10) as u8,
        b'0' + (k % 10) as u8,
    ]
}

fn full_of_agents(alloc: Global) -> Result<Network, NetError> {
    let mut net = Network::new(alloc, 10)?;
    for k in 0..MOST_AGENTS {
        net.add_agent(alloc, number_name(k).as_slice(), Lean::Late)?;
    }
    Ok(net)
}

/// A network of so many points with `z`, all of the first agent.
fn with_points(rt: &impl Abort, alloc: Global, points: u32) -> Result<Network, NetError> {
    let mut net = full_of_agents(alloc)?;
    for k in 1..points {
        place(rt, &mut net, alloc, 0, number_name(k).as_slice())?;
    }
    Ok(net)
}

#[test]
fn refuses_agents(rt: HostRuntime) -> Result<(), Fail> {
    let mut net = full_of_agents(rt.alloc())?;
    for (name, want) in [
        (b"-a".as_slice(), NetError::NameBad),
        (b"n0063".as_slice(), NetError::NameTaken),
        (b"new".as_slice(), NetError::TooManyAgents),
    ] {
        assert_eq!(rt; net.add_agent(rt.alloc(), name, Lean::Early), Err(want));
    }
    Ok(())
}

fn assert_points_refused(rt: &impl Abort, net: &mut Network, alloc: Global, want: NetError) {
    for (name, want) in [
        (b"9".as_slice(), NetError::NameBad),
        (b"z".as_slice(), NetError::NameTaken),
        (b"n8191".as_slice(), NetError::NameTaken),
        (b"n0000".as_slice(), want),
    ] {
        assert_eq!(rt; place(rt, net, alloc, 0, name), Err(want));
    }
}

#[test]
fn refuses_points(rt: HostRuntime) -> Result<(), Fail> {
    let mut net = with_points(&rt, rt.alloc(), MOST_POINTS)?;
    assert_points_refused(&rt, &mut net, rt.alloc(), NetError::TooManyPoints);
    join(&rt, &mut net, (8191, 0, 11))?;
    assert_points_refused(&rt, &mut net, rt.alloc(), NetError::PointsClosed);
    Ok(())
}

fn assert_act_refused(
    rt: &impl Abort,
    net: &mut Network,
    alloc: Global,
    bounds: (i64, i64),
    want: NetError,
) {
    assert_eq!(rt; act(rt, net, alloc, b"dig".as_slice(), bounds), Err(want));
}

#[test]
fn refuses_acts(rt: HostRuntime) -> Result<(), Fail> {
    let mut net = with_points(&rt, rt.alloc(), MOST_POINTS - 1)?;
    for (name, want) in [
        ([b'n'; 63].as_slice(), NetError::NameBad),
        (b"".as_slice(), NetError::NameBad),
        (b"dig".as_slice(), NetError::TooManyPoints),
    ] {
        assert_eq!(rt; act(&rt, &mut net, rt.alloc(), name, (-1, 0)), Err(want));
    }
    let mut net = full_of_agents(rt.alloc())?;
    for (bounds, want) in [
        ((-1, GREATEST_BOUND + 1), NetError::NegativeDuration),
        ((0, GREATEST_BOUND + 1), NetError::BoundRange),
        ((GREATEST_BOUND + 1, 0), NetError::BoundRange),
    ] {
        assert_act_refused(&rt, &mut net, rt.alloc(), bounds, want);
    }
    assert_eq!(rt;
        act(&rt, &mut net, rt.alloc(), b"dig".as_slice(), (5, 3)),
        Ok(0)
    );
    assert_act_refused(&rt, &mut net, rt.alloc(), (-1, 0), NetError::NameTaken);
    Ok(())
}

fn full_of_arcs(rt: &impl Abort, alloc: Global) -> Result<Network, NetError> {
    let mut net = Network::new(alloc, 10)?;
    net.add_agent(alloc, b"a".as_slice(), Lean::Late)?;
    act(rt, &mut net, alloc, b"p".as_slice(), (0, 1))?;
    for _ in 2..MOST_ARCS {
        join(rt, &mut net, (0, 1, 7))?;
    }
    Ok(net)
}

#[test]
fn refuses_arcs(rt: HostRuntime) -> Result<(), Fail> {
    let mut net = full_of_arcs(&rt, rt.alloc())?;
    for (to, bound, want) in [
        (0, GREATEST_BOUND + 1, NetError::SamePoint),
        (1, GREATEST_BOUND + 1, NetError::BoundRange),
        (1, -GREATEST_BOUND - 1, NetError::BoundRange),
        (1, GREATEST_BOUND, NetError::TooManyArcs),
    ] {
        assert_eq!(rt; join(&rt, &mut net, (0, to, bound)), Err(want));
    }
    assert_eq!(rt; net.arcs(), MOST_ARCS + 4);
    Ok(())
}
