//! Comparisons with what is expected.
use elim_step::SummaryEntry;
use private_elim::{Local, PrivateBounds, PrivateOutcome, Reduced};
use std::process::Abort;
use stn_model::{Constraint, PointId};
use stn_walk::Walk;

/// Compares the order in which private points were taken.
pub fn has_order(rt: &impl Abort, part: &Reduced, order: &[u32]) {
    let taken = part.order();
    assert_eq!(rt; taken.len(), order.len());
    for n in 0..order.len() {
        assert!(rt; n < taken.len() && taken[n].0 == order[n], "at {n}");
    }
}

/// Compares the summary.
pub fn tells(rt: &impl Abort, part: &Reduced, entries: &[SummaryEntry]) {
    assert_eq!(rt; part.summary().entries(), entries);
}

/// Compares forward weights that are there, and those of a point with itself and with a stranger.
pub fn weighs(rt: &impl Abort, part: &Reduced, weights: &[(u32, u32, i128)]) {
    for &(i, j, weight) in weights {
        assert_eq!(rt;
            part.forward(PointId(i), PointId(j)),
            Some(weight),
            "from {i} to {j}"
        );
        assert_eq!(rt; part.forward(PointId(i), PointId(i)), None, "from {i}");
        assert_eq!(rt; part.forward(PointId(i), PointId(99)), None, "from {i}");
    }
}

/// Compares the arcs of a walk.
pub fn has_walk(rt: &impl Abort, walk: &Walk, arcs: &[u32]) {
    assert_eq!(rt; walk.arcs(), arcs);
}

/// Compares bounds after a back sweep.
pub fn swept(rt: &impl Abort, bounds: &PrivateBounds, told: &[(u32, u32, Option<i128>)]) {
    for &(i, j, bound) in told {
        assert_eq!(rt;
            bounds.get(PointId(i), PointId(j)),
            bound,
            "from {i} to {j}"
        );
    }
}

/// Compares the points through which bounds came.
pub fn came(rt: &impl Abort, bounds: &PrivateBounds, told: &[(u32, u32, Option<PointId>)]) {
    for &(i, j, point) in told {
        assert_eq!(rt;
            bounds.through(PointId(i), PointId(j)),
            point,
            "from {i} to {j}"
        );
    }
}

/// Compares the points that follow others among those to which a point has bounds.
pub fn follows(
    rt: &impl Abort,
    bounds: &PrivateBounds,
    told: &[(u32, Option<PointId>, Option<PointId>)],
) {
    for &(i, after, point) in told {
        assert_eq!(rt; bounds.next(PointId(i), after), point, "from {i}");
    }
}

/// Compares a conflict with its cycle, the number of points taken before, and the other point.
pub fn is_conflict(rt: &impl Abort, outcome: PrivateOutcome, arcs: &[u32], taken: u32, with: u32) {
    match outcome {
        PrivateOutcome::Reduced(_) => assert!(rt; false, "no conflict"),
        PrivateOutcome::Conflict { walk, place, other } => {
            has_walk(rt, &walk, arcs);
            assert_eq!(rt; place, taken);
            assert_eq!(rt; other.0, with);
        }
    }
}

/// Compares the arcs of a local problem from a place on.
pub fn has_arcs(rt: &impl Abort, local: &Local, start: u32, arcs: &[(Option<u32>, u32, u32, i64)]) {
    let mut place = start;
    for &(number, from, to, bound) in arcs {
        assert!(rt; place < local.arcs());
        let arc = Constraint {
            from: PointId(from),
            to: PointId(to),
            bound,
        };
        assert_eq!(rt; local.arc(place).number, number, "at {place}");
        assert_eq!(rt; local.arc(place).arc, arc, "at {place}");
        place = place.saturating_add(1);
    }
    assert_eq!(rt; local.arcs(), place);
}
