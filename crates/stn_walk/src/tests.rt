//! Walks of one small network, each with its weight, and what is left of it when it is pruned.
use crate::{ArcList, Walk, is_negative_cycle, negative_cycle, prune, prune_cycle, weight};
use std::alloc::Global;
use std::process::Abort;
use std::test::Fail;
use stn_model::{AgentId, Constraint, Lean, Network, PointId};

/// Ann hands over to Bob. Points: a1 is 1, a2 is 2, b1 is 3, b2 is 4. Arcs: 8 is z a1 20, 9 is a1 a2 40,
/// 10 is a2 a1 -30, 11 is a2 b1 5, 12 is b1 a2 0, 13 is b1 b2 20, 14 is b2 b1 -10.
fn handover(rt: &impl Abort, alloc: Global) -> Result<Network, Fail> {
    let mut net = Network::new(alloc, 100)?;
    net.add_agent(alloc, b"ann".as_slice(), Lean::Early)?;
    net.add_agent(alloc, b"bob".as_slice(), Lean::Late)?;
    for (agent, name) in [(0, b"a1"), (0, b"a2"), (1, b"b1"), (1, b"b2")] {
        assert!(rt; agent < net.agents());
        net.add_point(alloc, AgentId(agent), name.as_slice())?;
    }
    for (from, to, bound) in [
        (0, 1, 20),
        (1, 2, 40),
        (2, 1, -30),
        (2, 3, 5),
        (3, 2, 0),
        (3, 4, 20),
        (4, 3, -10),
    ] {
        add_arc(rt, &mut net, from, to, bound)?;
    }
    Ok(net)
}

fn add_arc(rt: &impl Abort, net: &mut Network, from: u32, to: u32, bound: i64) -> Result<(), Fail> {
    assert!(rt; from < net.points() && to < net.points());
    net.add_arc(PointId(from), PointId(to), bound)?;
    Ok(())
}

fn walk_of(alloc: Global, arcs: &[u32]) -> Result<Walk, Fail> {
    Ok(Walk::new(Vec::from_slice(alloc, arcs)?))
}

#[test]
fn walks_weigh(rt: HostRuntime) -> Result<(), Fail> {
    let alloc = rt.alloc();
    let net = handover(&rt, alloc)?;
    for (arcs, from, to, want) in [
        ([8, 9].as_slice(), 0, 2, Some(60)),
        ([8, 9, 11, 13].as_slice(), 0, 4, Some(85)),
        ([0, 1].as_slice(), 0, 0, Some(100)),
        ([9, 10, 9].as_slice(), 1, 2, Some(50)),
        ([13, 14, 12, 10].as_slice(), 3, 1, Some(-20)),
        ([].as_slice(), 3, 3, Some(0)),
        ([].as_slice(), 3, 4, None),
        ([8, 11].as_slice(), 0, 3, None),
        ([15].as_slice(), 0, 3, None),
        ([8, 4_294_967_295].as_slice(), 0, 1, None),
        ([8, 9].as_slice(), 1, 2, None),
        ([8, 9].as_slice(), 0, 1, None),
    ] {
        let walk = walk_of(alloc, arcs)?;
        assert_eq!(rt;
            weight(&net, &walk, PointId(from), PointId(to)),
            want,
            "{arcs:?} from {from} to {to}"
        );
    }
    Ok(())
}

/// With arc 15, z b1 20, the network is inconsistent. Arc 16 is a1 b1 30, and arc 17 is b2 b1 -15.
fn inconsistent(rt: &impl Abort, alloc: Global) -> Result<Network, Fail> {
    let mut net = handover(rt, alloc)?;
    for (from, to, bound) in [(0, 3, 20), (1, 3, 30), (4, 3, -15)] {
        add_arc(rt, &mut net, from, to, bound)?;
    }
    Ok(net)
}

#[test]
fn negative_cycles(rt: HostRuntime) -> Result<(), Fail> {
    let alloc = rt.alloc();
    let net = inconsistent(&rt, alloc)?;
    for (arcs, want) in [
        ([1, 15, 12, 10].as_slice(), true),
        ([12, 10, 1, 15].as_slice(), true),
        ([16, 12, 10].as_slice(), false),
        ([9, 10].as_slice(), false),
        ([12, 10, 1, 15, 13, 17].as_slice(), false),
        ([1, 15, 12, 10, 1, 15, 12, 10].as_slice(), false),
        ([1, 15, 12].as_slice(), false),
        ([].as_slice(), false),
        ([18].as_slice(), false),
    ] {
        assert_eq!(rt;
            is_negative_cycle(&net, &walk_of(alloc, arcs)?),
            want,
            "{arcs:?}"
        );
    }
    Ok(())
}

#[test]
fn cycles_are_pruned(rt: HostRuntime) -> Result<(), Fail> {
    let alloc = rt.alloc();
    let net = inconsistent(&rt, alloc)?;
    for (arcs, at) in [
        ([1, 15, 12, 10].as_slice(), 1),
        ([15, 12, 10, 1].as_slice(), 0),
        ([9, 10, 1, 15, 12, 10, 1, 15, 12, 10].as_slice(), 1),
        ([1, 15, 13, 14, 12, 10, 1, 15, 12, 10].as_slice(), 1),
        ([13, 14, 12, 10, 1, 15, 12, 10, 1, 15].as_slice(), 3),
    ] {
        let walk = walk_of(alloc, arcs)?;
        let Some(sum) = weight(&net, &walk, PointId(at), PointId(at)) else {
            panic!(rt; "{arcs:?} is not closed");
        };
        assert!(rt; sum < 0, "{arcs:?}");
        let cycle = prune_cycle(alloc, &net, &walk)?;
        assert_eq!(rt; cycle.arcs(), [1, 15, 12, 10].as_slice(), "{arcs:?}");
    }
    Ok(())
}

#[test]
fn walks_are_pruned(rt: HostRuntime) -> Result<(), Fail> {
    let alloc = rt.alloc();
    let net = handover(&rt, alloc)?;
    for (arcs, from, to, want) in [
        ([8, 9].as_slice(), 0, 2, [8, 9].as_slice()),
        ([9, 10, 9].as_slice(), 1, 2, [9].as_slice()),
        (
            [8, 9, 11, 12, 11, 13].as_slice(),
            0,
            4,
            [8, 9, 11, 13].as_slice(),
        ),
        ([8, 1, 8, 9].as_slice(), 0, 2, [8, 9].as_slice()),
        ([9, 10].as_slice(), 1, 1, [].as_slice()),
        ([].as_slice(), 3, 3, [].as_slice()),
    ] {
        let walk = walk_of(alloc, arcs)?;
        let Some(_) = weight(&net, &walk, PointId(from), PointId(to)) else {
            panic!(rt; "{arcs:?} is no walk from {from} to {to}");
        };
        let left = prune(alloc, &net, &walk, PointId(from), PointId(to))?;
        assert_eq!(rt; left.arcs(), want, "{arcs:?}");
    }
    Ok(())
}

/// Two points, an arc from 0 to 1 and one back.
#[derive(Clone, Copy)]
struct Pair {
    there: i32,
    back: i32,
}

impl ArcList for Pair {
    ghost use Rattle.std.specs.Prelude.{[], ◌∷◌};

    ghost list = { λ p. record { from = record { 0 = 0 }; to = record { 0 = 1 }; bound = p.there } ∷ record { from = record { 0 = 1 }; to = record { 0 = 0 }; bound = p.back } ∷ [] };

    ghost points = { λ _. 2 };

    fn point_count(&self) -> u32 {
        2
    }

    fn arc_at(&self, n: u32) -> Constraint {
        if n == 0 {
            Constraint {
                from: PointId(0),
                to: PointId(1),
                bound: self.there as i64,
            }
        } else {
            Constraint {
                from: PointId(1),
                to: PointId(0),
                bound: self.back as i64,
            }
        }
    }
}

#[test]
fn other_lists_are_pruned(rt: HostRuntime) -> Result<(), Fail> {
    let pair = Pair { there: 5, back: -7 };
    let cycle = negative_cycle(rt.alloc(), &pair, [1, 0, 1, 0].as_slice())?;
    assert_eq!(rt; cycle.as_slice(), [0, 1].as_slice());
    Ok(())
}
