//! Answers that no clause fixes: networks worked by hand, and the same answers from a plain slow program.
use crate::{Plain, Sources, plain_from, plain_solve};
use std::alloc::Global;
use std::test::Fail;
use stn_model::{AgentId, Lean, Network, PointId};

/// A network of one agent with that many points besides `z`, and arcs (from, to, bound).
fn build(
    alloc: Global,
    horizon: i64,
    points: u8,
    arcs: &[(u32, u32, i64)],
) -> Result<Network, Fail> {
    let mut net = Network::new(alloc, horizon)?;
    net.add_agent(alloc, b"ann", Lean::Early)?;
    for k in 0..points {
        if net.agents() > 0 {
            net.add_point(alloc, AgentId(0), &[k.wrapping_add(b'a')])?;
        }
    }
    for arc in arcs {
        if arc.0 < net.points() && arc.1 < net.points() {
            net.add_arc(PointId(arc.0), PointId(arc.1), arc.2)?;
        }
    }
    Ok(net)
}

/// The earliest times, or -1 and the arcs of a negative cycle.
fn told(alloc: Global, net: &Network) -> Result<Vec<i128>, Fail> {
    match plain_solve(alloc, net)? {
        Plain::Consistent(schedule) => Ok(Vec::from_slice(alloc, schedule.times())?),
        Plain::Inconsistent(walk) => {
            let mut arcs = vec![in alloc; -1i128; 1]?;
            for n in walk.arcs() {
                arcs.push(i128::from(*n))?;
            }
            Ok(arcs)
        }
    }
}

/// Two people hand work over: points a and b of one, c and d of the other; c is when the work is passed on.
const HANDOVER: [(u32, u32, i64); 7] = [
    (0, 1, 20),
    (1, 2, 40),
    (2, 1, -30),
    (2, 3, 5),
    (3, 2, 0),
    (3, 4, 20),
    (4, 3, -10),
];

/// The same, with c too early.
const TOO_EARLY: [(u32, u32, i64); 4] = [(0, 1, 20), (2, 1, -30), (3, 2, 0), (0, 3, 20)];

#[test]
fn networks_by_hand(rt: HostRuntime) -> Result<(), Fail> {
    let alloc = rt.alloc();
    for (horizon, points, arcs, answer) in [
        (100, 4, HANDOVER.as_slice(), [0, 0, 30, 30, 40].as_slice()),
        (100, 4, TOO_EARLY.as_slice(), [-1, 1, 11, 10, 9].as_slice()),
        (
            10,
            2,
            [(1, 2, 3), (2, 1, -5)].as_slice(),
            [-1, 4, 5].as_slice(),
        ),
        // The horizon's own arc, and no other, closes this one.
        (10, 1, [(1, 0, -11)].as_slice(), [-1, 0, 2].as_slice()),
        // Without a search along last arcs each label would rise by 1 at a time, up to the horizon.
        (
            1_099_511_627_776,
            2,
            [(1, 2, 0), (2, 1, -1)].as_slice(),
            [-1, 4, 5].as_slice(),
        ),
    ] {
        let net = build(alloc, horizon, points, arcs)?;
        assert_eq!(rt; told(alloc, &net)?.as_slice(), answer);
    }
    Ok(())
}

/// The least bounds from a point; none where no schedule satisfies the network.
fn bounds(alloc: Global, net: &Network, source: u32) -> Result<Vec<i128>, Fail> {
    let mut found = Vec::new(alloc);
    if source >= net.points() {
        return Ok(found);
    }
    if let Some(walks) = plain_from(alloc, net, PointId(source))? {
        for point in 0..net.points() {
            found.push(walks.dist(PointId(point)))?;
        }
    }
    Ok(found)
}

/// The same, asked for after those from the point before.
fn bounds_in_turn(alloc: Global, net: &Network, source: u32) -> Result<Vec<i128>, Fail> {
    let mut found = Vec::new(alloc);
    let Plain::Consistent(schedule) = plain_solve(alloc, net)? else {
        return Ok(found);
    };
    if source >= net.points() {
        return Ok(found);
    }
    let mut sources = Sources::of(alloc, net, &schedule)?;
    let _before = sources.walks_from(alloc, net, PointId(source.saturating_sub(1)))?;
    let walks = sources.walks_from(alloc, net, PointId(source))?;
    for point in 0..net.points() {
        found.push(walks.dist(PointId(point)))?;
    }
    Ok(found)
}

/// One round of the slow program: each distance is lowered as far as an arc asks; whether one was.
fn lower(net: &Network, distances: &mut [i128]) -> bool {
    let mut lowered = false;
    for n in 0..net.arcs() {
        let arc = net.arc(n);
        let from = arc.from.0 as usize;
        let to = arc.to.0 as usize;
        if from < distances.len() && to < distances.len() {
            let distance = distances[from].saturating_add(i128::from(arc.bound));
            if distance < distances[to] {
                distances[to] = distance;
                lowered = true;
            }
        }
    }
    lowered
}

/// The least bounds from a point by the slow program: rounds until nothing is lowered, at most one more than there are points.
fn slow_bounds(alloc: Global, net: &Network, source: u32) -> Result<Vec<i128>, Fail> {
    let mut distances = vec![in alloc; 1_000_000i128; net.points() as usize]?;
    if (source as usize) < distances.len() {
        distances[source as usize] = 0;
    }
    for _round in 0..net.points().saturating_add(1) {
        if !lower(net, distances.as_mut_slice()) {
            return Ok(distances);
        }
    }
    Ok(Vec::new(alloc))
}

/// A network of seven points, from a seed.
fn random(alloc: Global, mut seed: u64) -> Result<Network, Fail> {
    let slack = (seed % 30) as i64;
    let mut arcs = Vec::new(alloc);
    for _n in 0..14 {
        seed = seed
            .wrapping_mul(6364136223846793005)
            .wrapping_add(1442695040888963407);
        let from = (seed >> 33) as u32 % 8;
        let to = (seed >> 40) as u32 % 8;
        if from != to {
            arcs.push((from, to, (seed >> 50) as i64 % 60 - 20 + slack))?;
        }
    }
    build(alloc, 100, 7, arcs.as_slice())
}

/// Whether both calls answer these least bounds.
fn agree(alloc: Global, net: &Network, source: u32, answer: &[i128]) -> Result<bool, Fail> {
    let alone = bounds(alloc, net, source)?;
    let in_turn = bounds_in_turn(alloc, net, source)?;
    Ok(alone.as_slice() == answer && in_turn.as_slice() == answer)
}

/// Whether the earliest time of a point is the least bound from it to `z` with the sign changed.
fn is_earliest(alloc: Global, net: &Network, point: u32, slow: &[i128]) -> Result<bool, Fail> {
    let times = told(alloc, net)?;
    match slow.first() {
        None => Ok(times.first().copied() == Some(-1)),
        Some(bound) => Ok(times.get(point as usize).copied() == bound.checked_neg()),
    }
}

#[test]
fn bounds_by_hand(rt: HostRuntime) -> Result<(), Fail> {
    let net = build(rt.alloc(), 100, 4, HANDOVER.as_slice())?;
    for (source, answer) in [
        (0, [0, 20, 60, 65, 85]),
        (3, [-30, -30, 0, 0, 20]),
        (4, [-40, -40, -10, -10, 0]),
    ] {
        assert!(rt; agree(rt.alloc(), &net, source, answer.as_slice())?);
    }
    Ok(())
}

#[test]
fn the_slow_program_agrees(rt: HostRuntime) -> Result<(), Fail> {
    let mut consistent = 0u32;
    for seed in 0..60u64 {
        let net = random(rt.alloc(), seed)?;
        for source in 0..net.points() {
            let slow = slow_bounds(rt.alloc(), &net, source)?;
            assert!(rt; agree(rt.alloc(), &net, source, slow.as_slice())?);
            assert!(rt; is_earliest(rt.alloc(), &net, source, slow.as_slice())?);
            consistent = consistent.saturating_add(u32::from(!slow.is_empty()));
        }
    }
    assert!(rt; 80 < consistent && consistent < 400);
    Ok(())
}
