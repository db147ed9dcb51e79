//! The interface of a small network.
use crate::Interface;
use elim_step::{Summary, SummaryEntry};
use sample_nets::handover;
use std::alloc::Global;
use std::process::Abort;
use std::test::Fail;
use stn_model::{AgentId, PointId};

// The handover's interface: ann's point 2 and bob's point 3 are shared, and two arcs go between them.
fn reads(rt: &impl Abort, face: &Interface) {
    assert_eq!(rt; face.agents(), 2);
    assert_eq!(rt; face.points(), [PointId(2), PointId(3)].as_slice());
    assert_eq!(rt; face.own_points(AgentId(0)), [PointId(2)].as_slice());
    assert_eq!(rt; face.own_points(AgentId(1)), [PointId(3)].as_slice());
    assert_eq!(rt; face.externals(), 2);
    assert_eq!(rt; face.external(1).from, PointId(3));
    let owners = [None, None, Some(AgentId(0)), Some(AgentId(1)), None, None];
    for p in 0..6 {
        assert_eq!(rt; face.owner(PointId(p)), owners[p as usize], "of {p}");
    }
}

// A summary of one entry.
fn summary(alloc: Global, from: u32, to: u32) -> Result<Summary, Fail> {
    let entry = SummaryEntry {
        from: PointId(from),
        to: PointId(to),
        weight: 7,
    };
    match Summary::new(Vec::from_array(alloc, [entry])?) {
        Some(summary) => Ok(summary),
        None => Err(Fail::new("no summary")),
    }
}

#[test]
fn interfaces_are_read(rt: HostRuntime) -> Result<(), Fail> {
    let net = handover(rt.alloc())?;
    let face = Interface::of(rt.alloc(), &net)?;
    reads(&rt, &face);
    let copy = face.copy(rt.alloc())?;
    reads(&rt, &copy);
    for (from, to, wanted) in [(0, 2, true), (2, 0, true), (2, 3, false), (1, 0, false)] {
        let told = summary(rt.alloc(), from, to)?;
        assert_eq!(rt; copy.fits(AgentId(0), &told), wanted, "{from} {to}");
    }
    Ok(())
}
