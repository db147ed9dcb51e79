//! Generated networks, against values that another program computed.
use crate::make;
use std::test::Fail;
use stn_model::{AgentId, Constraint, Lean, PointId};

#[derive(Drop)]
struct Case {
    number: u32,
    size: u32,
    points: u32,
    given: u32,
    first: Constraint,
    last: Constraint,
    /// The sum of the bounds of all given arcs.
    sum: i64,
    /// The name of the last point.
    name: &'static [u8],
}

const fn arc(from: u32, to: u32, bound: i64) -> Constraint {
    Constraint {
        from: PointId(from),
        to: PointId(to),
        bound,
    }
}

#[test]
fn networks_are_those_of_another_program(rt: HostRuntime) -> Result<(), Fail> {
    let cases = [
        Case {
            number: 0,
            size: 1,
            points: 3,
            given: 2,
            first: arc(1, 2, 758160),
            last: arc(2, 1, -756637),
            sum: 1523,
            name: b"a0p1",
        },
        Case {
            number: 1,
            size: 1,
            points: 3,
            given: 2,
            first: arc(1, 2, 615673),
            last: arc(2, 1, -614921),
            sum: 752,
            name: b"a0p1",
        },
        Case {
            number: 0,
            size: 2,
            points: 9,
            given: 16,
            first: arc(1, 2, 758354),
            last: arc(5, 2, 240083),
            sum: 19706,
            name: b"a1p3",
        },
        Case {
            number: 5,
            size: 3,
            points: 19,
            given: 38,
            first: arc(1, 2, 45473),
            last: arc(13, 10, -68801),
            sum: 33548,
            name: b"a2p5",
        },
        Case {
            number: 2147483645,
            size: 4,
            points: 33,
            given: 68,
            first: arc(1, 2, 143030),
            last: arc(31, 20, 488640),
            sum: 63437,
            name: b"a3p7",
        },
        Case {
            number: 7,
            size: 32,
            points: 2049,
            given: 4156,
            first: arc(1, 2, -239534),
            last: arc(2018, 1947, -96999),
            sum: 2267390,
            name: b"a31p63",
        },
    ];
    for case in &cases {
        assert!(rt; case.number <= 2147483645);
        assert!(rt; case.size >= 1);
        assert!(rt; case.size <= 32);
        let net = make(rt.alloc(), case.number, case.size)?;
        assert_eq!(rt; net.horizon(), 1_000_000);
        assert_eq!(rt; net.agents(), case.size);
        assert_eq!(rt; net.points(), case.points);
        assert_eq!(rt; net.find(case.name), Some(PointId(case.points - 1)));
        let arcs = net.arcs();
        assert!(rt; case.given >= 1);
        assert!(rt; arcs >= case.given);
        assert_eq!(rt; arcs - case.given, 2 * (case.points - 1));
        assert_eq!(rt; net.arc(arcs - case.given), case.first);
        assert_eq!(rt; net.arc(arcs - 1), case.last);
        let mut sum = 0i64;
        for n in arcs - case.given..arcs {
            sum = sum.wrapping_add(net.arc(n).bound);
        }
        assert_eq!(rt; sum, case.sum);
    }
    Ok(())
}

#[test]
fn agents_lean_in_turn(rt: HostRuntime) -> Result<(), Fail> {
    let net = make(rt.alloc(), 3, 4)?;
    assert_eq!(rt; net.agents(), 4);
    let leans = [Lean::Early, Lean::Late, Lean::Middle, Lean::Early];
    for (agent, lean) in leans.iter().enumerate() {
        assert!(rt; agent < 4);
        assert_eq!(rt; net.lean(AgentId(agent as u32)), *lean);
    }
    assert_eq!(rt; net.agent_name(AgentId(3)), b"a3".as_slice());
    Ok(())
}
