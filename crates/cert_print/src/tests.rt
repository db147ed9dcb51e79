//! Certificates of networks worked by hand, byte for byte.
use crate::print_certificate;
use cert_check::{Verdict, check_certificate};
use std::alloc::Global;
use std::test::Fail;
use stn_model::{AgentId, Lean, Network, PointId};

/// A network of two agents, with points named by letters, of these owners, and arcs (from, to, bound).
fn build(
    alloc: Global,
    horizon: i64,
    owners: &[u32],
    arcs: &[(u32, u32, i64)],
) -> Result<Network, Fail> {
    let mut net = Network::new(alloc, horizon)?;
    net.add_agent(alloc, b"ann", Lean::Early)?;
    net.add_agent(alloc, b"bob", Lean::Late)?;
    let mut letter = b'a';
    for owner in owners {
        let name = [letter];
        if *owner < net.agents() {
            net.add_point(alloc, AgentId(*owner), name.as_slice())?;
        }
        letter = letter.wrapping_add(1);
    }
    for arc in arcs {
        if arc.0 < net.points() && arc.1 < net.points() {
            net.add_arc(PointId(arc.0), PointId(arc.1), arc.2)?;
        }
    }
    Ok(net)
}

const NO_ARCS: [(u32, u32, i64); 0] = [];

#[test]
fn one_point_and_the_reference_point(rt: HostRuntime) -> Result<(), Fail> {
    let net = build(rt.alloc(), 10, [0].as_slice(), NO_ARCS.as_slice())?;
    let mut out = Vec::from_slice(rt.alloc(), b"# before\n")?;
    print_certificate(rt.alloc(), &net, &mut out)?;
    assert_eq!(rt;
        out.as_slice(),
        b"# before\nmastncert 1\nconsistent 2\nfrom 0\nto 1 10 0\nholds\nfrom 1\nto 0 0 1\nholds\nend\n".as_slice()
    );
    Ok(())
}

/// Two people hand work over: ann's points a and b, bob's c and d; c is when the work is passed on.
const HANDOVER: [(u32, u32, i64); 7] = [
    (0, 1, 20),
    (1, 2, 40),
    (2, 1, -30),
    (2, 3, 5),
    (3, 2, 0),
    (3, 4, 20),
    (4, 3, -10),
];

#[test]
fn a_hand_over(rt: HostRuntime) -> Result<(), Fail> {
    let alloc = rt.alloc();
    let net = build(alloc, 100, [0, 0, 1, 1].as_slice(), HANDOVER.as_slice())?;
    let mut out = Vec::new(alloc);
    print_certificate(alloc, &net, &mut out)?;
    assert!(rt; out.starts_with(b"mastncert 1\nconsistent 5\nfrom 0\nto "));
    if net.points() <= 256 && out.len() < 10000 {
        let verdict = check_certificate(alloc, &net, out.as_slice(), 1)?;
        assert_eq!(rt; verdict, Verdict::Consistent);
    }
    Ok(())
}

#[test]
fn a_negative_cycle(rt: HostRuntime) -> Result<(), Fail> {
    let net = build(
        rt.alloc(),
        10,
        [0, 0].as_slice(),
        [(1, 2, 3), (2, 1, -5)].as_slice(),
    )?;
    let mut out = Vec::new(rt.alloc());
    print_certificate(rt.alloc(), &net, &mut out)?;
    assert_eq!(rt;
        out.as_slice(),
        b"mastncert 1\ninconsistent\ncycle 4 5\nend\n".as_slice()
    );
    Ok(())
}
