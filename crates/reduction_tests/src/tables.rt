//! Networks worked by hand.
use crate::build::{by_degree, by_key, entry, local_of, reduced, summary_of};
use crate::calls::{in_order, narrowed, walk_of};
use crate::compare::{
    came, follows, has_arcs, has_order, has_walk, is_conflict, swept, tells, weighs,
};
use private_elim::{PrivateBounds, Reduced, back_sweep};
use sample_nets::{handover, sample};
use std::alloc::Global;
use std::test::Fail;
use stn_model::PointId;

// Ann's part of the handover, reduced.
fn anns_part(alloc: Global) -> Result<Reduced, Fail> {
    reduced(by_degree(alloc, &handover(alloc)?, 0)?)
}

#[test]
fn anns_part_is_reduced(rt: HostRuntime) -> Result<(), Fail> {
    let ann = anns_part(rt.alloc())?;
    has_order(&rt, &ann, [1].as_slice());
    tells(&rt, &ann, [entry(0, 2, 60), entry(2, 0, -30)].as_slice());
    Ok(())
}

#[test]
fn a_copy_tells_the_same(rt: HostRuntime) -> Result<(), Fail> {
    let ann = anns_part(rt.alloc())?.copy(rt.alloc())?;
    tells(&rt, &ann, [entry(0, 2, 60), entry(2, 0, -30)].as_slice());
    Ok(())
}

#[test]
fn bobs_part_is_reduced(rt: HostRuntime) -> Result<(), Fail> {
    let bob = reduced(by_degree(rt.alloc(), &handover(rt.alloc())?, 1)?)?;
    has_order(&rt, &bob, [4].as_slice());
    tells(&rt, &bob, [entry(0, 3, 90), entry(3, 0, 0)].as_slice());
    Ok(())
}

#[test]
fn ann_has_walks(rt: HostRuntime) -> Result<(), Fail> {
    let ann = anns_part(rt.alloc())?;
    has_walk(&rt, &walk_of(rt.alloc(), &ann, 0, 2)?, [8, 9].as_slice());
    has_walk(&rt, &walk_of(rt.alloc(), &ann, 0, 1)?, [8].as_slice());
    Ok(())
}

#[test]
fn ann_has_forward_weights(rt: HostRuntime) -> Result<(), Fail> {
    let ann = anns_part(rt.alloc())?;
    let there = [
        (0, 1, 20),
        (1, 0, 0),
        (0, 2, 60),
        (2, 0, -30),
        (1, 2, 40),
        (2, 1, -30),
    ];
    weighs(&rt, &ann, there.as_slice());
    Ok(())
}

// Ann's bounds after the back sweep from the least bounds of the handover between the points that others see.
fn anns_bounds(alloc: Global) -> Result<PrivateBounds, Fail> {
    let finals = summary_of(alloc, [entry(0, 2, 60), entry(2, 0, -30)].as_slice())?;
    Ok(back_sweep(alloc, &anns_part(alloc)?, &finals)?)
}

#[test]
fn ann_is_swept_back(rt: HostRuntime) -> Result<(), Fail> {
    let bounds = anns_bounds(rt.alloc())?.copy(rt.alloc())?;
    let told = [
        (0, 1, Some(20)),
        (1, 0, Some(0)),
        (1, 2, Some(40)),
        (2, 1, Some(-30)),
        (0, 2, None),
        (1, 1, None),
        (1, 3, None),
    ];
    swept(&rt, &bounds, told.as_slice());
    Ok(())
}

// Bob's bounds after the back sweep, from the least bounds of the handover.
fn bobs_bounds(alloc: Global) -> Result<PrivateBounds, Fail> {
    let bob = reduced(by_degree(alloc, &handover(alloc)?, 1)?)?;
    let finals = summary_of(alloc, [entry(0, 3, 65), entry(3, 0, -30)].as_slice())?;
    Ok(back_sweep(alloc, &bob, &finals)?)
}

#[test]
fn bobs_bounds_came_through_points(rt: HostRuntime) -> Result<(), Fail> {
    let bounds = bobs_bounds(rt.alloc())?;
    let shared = Some(PointId(3));
    let told = [
        (0, 4, shared),
        (4, 0, shared),
        (3, 4, shared),
        (4, 3, shared),
        (0, 3, None),
        (4, 4, None),
        (1, 4, None),
    ];
    came(&rt, &bounds, told.as_slice());
    Ok(())
}

#[test]
fn bobs_bounds_are_met_in_order(rt: HostRuntime) -> Result<(), Fail> {
    let bounds = bobs_bounds(rt.alloc())?;
    let (zero, shared, private) = (Some(PointId(0)), Some(PointId(3)), Some(PointId(4)));
    let told = [
        (4, None, zero),
        (4, zero, shared),
        (4, Some(PointId(1)), shared),
        (4, shared, None),
        (0, None, private),
        (0, shared, private),
        (0, private, None),
        (1, None, None),
    ];
    follows(&rt, &bounds, told.as_slice());
    Ok(())
}

#[test]
fn a_negative_cycle_is_a_conflict(rt: HostRuntime) -> Result<(), Fail> {
    let arcs = [(1, 2, 3), (2, 1, -5)];
    let pair = sample(rt.alloc(), 10, [0, 0].as_slice(), arcs.as_slice())?;
    let outcome = by_degree(rt.alloc(), &pair, 0)?;
    is_conflict(&rt, outcome, [4, 5].as_slice(), 0, 2);
    Ok(())
}

// The reference point may be on the cycle.
#[test]
fn a_cycle_through_z_is_a_conflict(rt: HostRuntime) -> Result<(), Fail> {
    let arcs = [(2, 0, -7), (0, 2, 6)];
    let early = sample(rt.alloc(), 10, [0, 0].as_slice(), arcs.as_slice())?;
    let outcome = by_degree(rt.alloc(), &early, 0)?;
    is_conflict(&rt, outcome, [4, 5].as_slice(), 1, 0);
    Ok(())
}

// A cycle of three points, none of whose pairs is one: it shows when the second is taken.
#[test]
fn a_ring_is_a_conflict(rt: HostRuntime) -> Result<(), Fail> {
    let alloc = rt.alloc();
    let arcs = [(1, 2, 5), (2, 3, 5), (3, 1, -11)];
    let ring = sample(alloc, 100, [0, 0, 0].as_slice(), arcs.as_slice())?;
    let order = [PointId(1), PointId(2), PointId(3)];
    let outcome = in_order(alloc, &local_of(alloc, &ring, 0)?, order.as_slice())?;
    is_conflict(&rt, outcome, [6, 7, 8].as_slice(), 1, 3);
    Ok(())
}

#[test]
fn a_cycle_of_weight_0_is_none(rt: HostRuntime) -> Result<(), Fail> {
    let alloc = rt.alloc();
    let zero = sample(
        alloc,
        10,
        [0, 0].as_slice(),
        [(1, 2, 3), (2, 1, -3)].as_slice(),
    )?;
    let part = reduced(by_degree(alloc, &zero, 0)?)?;
    has_order(&rt, &part, [1, 2].as_slice());
    tells(&rt, &part, [].as_slice());
    Ok(())
}

// Two of the points are shared: a negative cycle through both is not the agent's alone.
#[test]
fn a_cycle_of_two_shared_points_is_none(rt: HostRuntime) -> Result<(), Fail> {
    let alloc = rt.alloc();
    let arcs = [(1, 2, 3), (2, 1, -5), (1, 3, 5), (2, 3, 5)];
    let shared = sample(alloc, 10, [0, 0, 1].as_slice(), arcs.as_slice())?;
    let part = reduced(by_degree(alloc, &shared, 0)?)?;
    let told = [
        entry(0, 1, 10),
        entry(0, 2, 10),
        entry(1, 0, 0),
        entry(1, 2, 3),
        entry(2, 0, 0),
        entry(2, 1, -5),
    ];
    tells(&rt, &part, told.as_slice());
    Ok(())
}

#[test]
fn a_picker_chooses_the_order(rt: HostRuntime) -> Result<(), Fail> {
    let free = sample(rt.alloc(), 10, [0, 0].as_slice(), [].as_slice())?;
    let part = reduced(by_key(rt.alloc(), &local_of(rt.alloc(), &free, 0)?, false)?)?;
    has_order(&rt, &part, [2, 1].as_slice());
    Ok(())
}

// Once point 1 is taken, 2 and 3 are joined through it, though no walk leads from one to the other.
#[test]
fn degrees_count_joined_points(rt: HostRuntime) -> Result<(), Fail> {
    let arcs = [(2, 1, 5), (3, 1, 7)];
    let net = sample(rt.alloc(), 10, [0, 0, 0, 0].as_slice(), arcs.as_slice())?;
    let part = reduced(by_key(rt.alloc(), &local_of(rt.alloc(), &net, 0)?, true)?)?;
    has_order(&rt, &part, [1, 4, 2, 3].as_slice());
    Ok(())
}

// Point 1 is private, and 2 and 3 are shared: they are joined, and no walk leads through point 1.
#[test]
fn a_pair_without_a_walk_has_the_horizon(rt: HostRuntime) -> Result<(), Fail> {
    let alloc = rt.alloc();
    let arcs = [(2, 1, 5), (3, 1, 7), (2, 4, 9), (3, 4, 9)];
    let net = sample(alloc, 50, [0, 0, 0, 1].as_slice(), arcs.as_slice())?;
    let part = reduced(by_degree(alloc, &net, 0)?)?;
    let told = [
        entry(0, 2, 50),
        entry(0, 3, 50),
        entry(2, 0, 0),
        entry(2, 3, 50),
        entry(3, 0, 0),
        entry(3, 2, 50),
    ];
    tells(&rt, &part, told.as_slice());
    has_walk(&rt, &walk_of(alloc, &part, 2, 3)?, [3, 4].as_slice());
    Ok(())
}

#[test]
fn local_problems_have_own_arcs(rt: HostRuntime) -> Result<(), Fail> {
    let alloc = rt.alloc();
    let ann = local_of(alloc, &handover(alloc)?, 0)?.copy(alloc)?;
    let arcs = [
        (Some(0), 0, 1, 100),
        (Some(1), 1, 0, 0),
        (Some(2), 0, 2, 100),
        (Some(3), 2, 0, 0),
        (Some(8), 0, 1, 20),
        (Some(9), 1, 2, 40),
        (Some(10), 2, 1, -30),
    ];
    has_arcs(&rt, &ann, 0, arcs.as_slice());
    let narrow = narrowed(alloc, &ann, 2, 30, 60)?;
    let added = [(None, 0, 2, 60), (None, 2, 0, -30)];
    has_arcs(&rt, &narrow, 7, added.as_slice());
    Ok(())
}
