//! A plain slow program beside the elimination: least weights by rounds over all arcs.
ghost use Rattle.std.specs.Prelude.{◌≡◌, true};
ghost use Rattle.private_elim.specs.Locals.{all_numbered};

use crate::build::{by_factor, entry, local_of, reduced, summary_of};
use crate::calls::in_order;
use private_elim::{Local, PrivateBounds, PrivateOutcome, Reduced, back_sweep};
use sample_nets::sample;
use std::alloc::Global;
use std::process::Abort;
use std::test::Fail;
use stn_model::{Constraint, Network, PointId};

// Where there is no walk: above each weight of the networks of the slow program.
const NONE: i128 = 1_000_000;

// One round of the slow program: each weight is lowered as far as an arc does that begins at `from` or at an inner point.
fn lower_all(arcs: &[Constraint], from: u32, inner: &[bool; 8], least: &mut [i128; 8]) {
    for arc in arcs {
        let (start, end) = (arc.from.0 as usize, arc.to.0 as usize);
        if start < 8 && end < 8 && (arc.from.0 == from || inner[start]) {
            let before = if arc.from.0 == from { 0 } else { least[start] };
            let weight = before.saturating_add(i128::from(arc.bound));
            if before < NONE && weight < least[end] {
                least[end] = weight;
            }
        }
    }
}

// The slow program: the least weight of walks through inner points, in as many rounds as there may be points.
fn slow(arcs: &[Constraint], from: u32, to: u32, inner: &[bool; 8]) -> Option<i128> {
    let mut least = [NONE; 8];
    for _round in 0..8 {
        lower_all(arcs, from, inner, &mut least);
    }
    least.get(to as usize).copied().filter(|w| *w < NONE)
}

// The private points of an order that come before two points.
fn before(order: &[PointId], i: u32, j: u32) -> [bool; 8] {
    let mut inner = [false; 8];
    for p in order {
        if p.0 == i || p.0 == j {
            return inner;
        }
        if p.0 < 8 {
            inner[p.0 as usize] = true;
        }
    }
    inner
}

// The arcs of a local problem, and each of them in both directions.
fn arcs_of(alloc: Global, local: &Local) -> Result<(Vec<Constraint>, Vec<Constraint>), Fail> {
    let mut arcs = Vec::new(alloc);
    let mut edges = Vec::new(alloc);
    for k in 0..local.arcs() {
        let arc = local.arc(k).arc;
        arcs.push(arc)?;
        edges.push(arc)?;
        edges.push(Constraint {
            from: arc.to,
            to: arc.from,
            bound: arc.bound,
        })?;
    }
    Ok((arcs, edges))
}

// All arcs of a network.
fn all_arcs(alloc: Global, net: &Network) -> Result<Vec<Constraint>, Fail> {
    let mut arcs = Vec::new(alloc);
    for n in 0..net.arcs() {
        arcs.push(net.arc(n))?;
    }
    Ok(arcs)
}

// Whether some closed walk is negative whose points but the first are inner.
fn has_negative(arcs: &[Constraint], inner: &[bool; 8]) -> bool {
    (0..8u32).any(|p| slow(arcs, p, p, inner).is_some_and(|w| w < 0))
}

// Whether a point is one of the local problem, and private or not.
fn is_kind(local: &Local, point: u32, private: bool) -> bool {
    match local.place_of(PointId(point)) {
        Some(place) => local.is_private(place) == private,
        None => false,
    }
}

// The private points of a local problem.
fn privates(local: &Local) -> [bool; 8] {
    let mut private = [false; 8];
    for p in 0..8u32 {
        private[p as usize] = is_kind(local, p, true);
    }
    private
}

// Compares the weights between all pairs of points with the slow program's, and then the summary.
fn agrees(rt: &impl Abort, alloc: Global, local: &Local, part: &Reduced) -> Result<(), Fail> {
    let (arcs, edges) = arcs_of(alloc, local)?;
    let mut told = Vec::new(alloc);
    for pair in 0..64u32 {
        let (i, j) = (pair / 8, pair % 8);
        let inner = before(part.order(), i, j);
        let weight = slow(&arcs, i, j, &inner).filter(|_| i != j);
        assert_eq!(rt;
            part.forward(PointId(i), PointId(j)),
            weight,
            "from {i} to {j}"
        );
        let seen = i != j && is_kind(local, i, false) && is_kind(local, j, false);
        if seen && slow(&edges, i, j, &inner).is_some() {
            told.push(entry(i, j, weight.unwrap_or(100).min(100)))?;
        }
    }
    assert_eq!(rt; part.summary().entries(), told.as_slice());
    Ok(())
}

// Whether the first of two points comes before the other in an order.
fn comes_first(order: &[PointId], i: u32, j: u32) -> bool {
    for p in order {
        if p.0 == i || p.0 == j {
            return p.0 == i;
        }
    }
    false
}

// The least weight of all walks, which is 0 from a point to itself.
fn least(all: &[Constraint], i: u32, j: u32) -> Option<i128> {
    if i == j {
        return Some(0);
    }
    slow(all, i, j, &[true; 8])
}

// The least weight of walks through m that begin or end with a forward weight, at the one of two points that comes first.
fn in_parts(
    own: &[Constraint],
    all: &[Constraint],
    order: &[PointId],
    pair: (u32, u32),
    m: u32,
) -> Option<i128> {
    let (i, j) = pair;
    if comes_first(order, i, j) {
        let forward = slow(own, i, m, &before(order, i, m))?;
        return Some(forward.saturating_add(least(all, m, j)?));
    }
    let forward = slow(own, m, j, &before(order, m, j))?;
    Some(forward.saturating_add(least(all, i, m)?))
}

// Compares the bounds of a point with those that it has by its look-ups: they are met in order, and each came through a point.
fn agrees_row(
    rt: &impl Abort,
    bounds: &PrivateBounds,
    arcs: (&[Constraint], &[Constraint]),
    order: &[PointId],
    i: u32,
) {
    let (own, all) = arcs;
    let mut last = None;
    for j in 0..8u32 {
        let bound = bounds.get(PointId(i), PointId(j));
        let through = bounds.through(PointId(i), PointId(j));
        let weight = match through {
            None => None,
            Some(m) => in_parts(own, all, order, (i, j), m.0),
        };
        assert_eq!(rt; weight, bound, "from {i} to {j}");
        if bound.is_some() {
            assert_eq!(rt; bounds.next(PointId(i), last), Some(PointId(j)), "from {i}");
            last = Some(PointId(j));
        }
    }
    assert_eq!(rt; bounds.next(PointId(i), last), None, "from {i}");
}

// Compares the least bounds after a back sweep with the slow program's, for a network that has a schedule.
fn agrees_back(
    rt: &impl Abort,
    alloc: Global,
    net: &Network,
    local: &Local,
    part: &Reduced,
) -> Result<(), Fail> {
    let arcs = all_arcs(alloc, net)?;
    let (own, edges) = arcs_of(alloc, local)?;
    let all = [true; 8];
    let mut finals = Vec::new(alloc);
    for told in part.summary().entries() {
        let bound = slow(&arcs, told.from.0, told.to.0, &all).unwrap_or(NONE);
        finals.push(entry(told.from.0, told.to.0, bound))?;
    }
    let bounds = back_sweep(alloc, part, &summary_of(alloc, &finals)?)?;
    for pair in 0..64u32 {
        let (i, j) = (pair / 8, pair % 8);
        let inner = before(part.order(), i, j);
        let private = i != j && (is_kind(local, i, true) || is_kind(local, j, true));
        let joined = private && slow(&edges, i, j, &inner).is_some();
        let bound = slow(&arcs, i, j, &all).filter(|_| joined);
        assert_eq!(rt;
            bounds.get(PointId(i), PointId(j)),
            bound,
            "from {i} to {j}"
        );
    }
    for i in 0..8u32 {
        agrees_row(rt, &bounds, (&own, &arcs), part.order(), i);
    }
    Ok(())
}

// Arcs between ann's points 1 to 5 and bob's 6, from a seed.
fn some_arcs(alloc: Global, mut seed: u64) -> Result<Vec<(u32, u32, i64)>, Fail> {
    let mut arcs = Vec::new(alloc);
    for _n in 0..9 {
        seed = seed
            .wrapping_mul(6364136223846793005)
            .wrapping_add(1442695040888963407);
        let from = (seed >> 33) as u32 % 7;
        let to = (seed >> 40) as u32 % 7;
        if from != to {
            arcs.push((from, to, (seed >> 50) as i64 % 120 - 25))?;
        }
    }
    Ok(arcs)
}

// Takes the points again in the order in which they were taken, and compares.
fn agrees_listed(rt: &impl Abort, alloc: Global, local: &Local, part: &Reduced) -> Result<(), Fail>
    requires { all_numbered local.now.arcs ≡ true }
{
    let listed = reduced(in_order(alloc, local, part.order())?)?;
    assert_eq!(rt; listed.order(), part.order());
    assert_eq!(rt; listed.summary().entries(), part.summary().entries());
    Ok(())
}

// Compares a part of a network without a conflict; whether a sweep was compared too.
fn agrees_whole(
    rt: &impl Abort,
    alloc: Global,
    net: &Network,
    local: &Local,
    part: &Reduced,
) -> Result<bool, Fail>
    requires { all_numbered local.now.arcs ≡ true }
{
    agrees(rt, alloc, local, part)?;
    agrees_listed(rt, alloc, local, part)?;
    if has_negative(&all_arcs(alloc, net)?, &[true; 8]) {
        return Ok(false);
    }
    agrees_back(rt, alloc, net, local, part)?;
    Ok(true)
}

// Whether an agent's own arcs have a negative cycle, by the slow program.
fn has_conflict(alloc: Global, local: &Local) -> Result<bool, Fail> {
    let (arcs, _) = arcs_of(alloc, local)?;
    Ok(has_negative(&arcs, &privates(local)))
}

// A network of ann's points 1 to 5 and bob's 6.
fn some_net(alloc: Global, seed: u64) -> Result<Network, Fail> {
    let arcs = some_arcs(alloc, seed)?;
    sample(alloc, 100, [0, 0, 0, 0, 0, 1].as_slice(), arcs.as_slice())
}

// Compares the elimination of a local problem's points with the slow program; whether there is a conflict, and whether a sweep was compared.
fn compare_local(
    rt: &impl Abort,
    alloc: Global,
    net: &Network,
    local: &Local,
    factor: u64,
) -> Result<(bool, bool), Fail>
    requires { all_numbered local.now.arcs ≡ true }
{
    let conflict = has_conflict(alloc, local)?;
    let outcome = by_factor(alloc, local, factor)?;
    let PrivateOutcome::Reduced(part) = &outcome else {
        assert!(rt; conflict);
        return Ok((true, false));
    };
    assert!(rt; !conflict);
    let swept = agrees_whole(rt, alloc, net, local, part)?;
    Ok((false, swept))
}

// The same for ann's points of the network of a seed.
fn compare(rt: &impl Abort, alloc: Global, seed: u64) -> Result<(bool, bool), Fail> {
    let net = some_net(alloc, seed)?;
    let local = local_of(alloc, &net, 0)?;
    compare_local(rt, alloc, &net, &local, seed)
}

#[test]
fn the_slow_program_agrees(rt: HostRuntime) -> Result<(), Fail> {
    let mut conflicts = 0u32;
    let mut sweeps = 0u32;
    for seed in 0..80u32 {
        let (conflict, swept) = compare(&rt, rt.alloc(), u64::from(seed))?;
        conflicts = conflicts.saturating_add(u32::from(conflict));
        sweeps = sweeps.saturating_add(u32::from(swept));
    }
    assert!(rt; 10 < conflicts && conflicts < 40, "{conflicts} of 80");
    assert!(rt; 10 < sweeps, "{sweeps} of 80");
    Ok(())
}
