//! The joined solve on small networks.
ghost use Rattle.std.specs.Prelude.{◌≡◌};

use crate::solving::{Answer, solve};
use agent_worker::OpenGate;
use elim_step::Picker;
use sample_nets::{handover, sample};
use std::alloc::Global;
use std::process::Abort;
use std::sync::Wait;
use std::test::Fail;
use std::thread::Threads;
use stn_model::{Network, PointId};

// What a network comes to, with points picked by degree.
fn answer_of<R: Threads + Wait + Sync>(
    rt: &R,
    alloc: Global,
    net: &Network,
) -> Result<Answer, Fail> {
    let key = Box::new(alloc, |degree: u32, _number: u32| u64::from(degree))?;
    let picker = Picker::new(key);
    Ok(solve(rt, alloc, net, &picker, &OpenGate)?)
}

#[test]
fn a_consistent_network_has_its_record(rt: HostRuntime) -> Result<(), Fail> {
    let alloc = rt.alloc();
    let net = handover(alloc)?;
    let Answer::Consistent(joined) = answer_of(&rt, alloc, &net)? else {
        return Err(Fail::new("no schedule"));
    };
    assert_eq!(rt; joined.network().points(), 5);
    let section = joined.section();
    let private = [PointId(1), PointId(4)];
    assert_eq!(rt; section.private(), private.as_slice());
    assert_eq!(rt; section.entries().len(), 6);
    assert_eq!(rt; joined.order().len(), 5);
    assert_eq!(rt; joined.order()[4], PointId(0));
    assert_eq!(rt; joined.bound(PointId(0), PointId(3)), Some(65));
    assert_eq!(rt; joined.bound(PointId(4), PointId(0)), Some(-40));
    assert_eq!(rt; joined.bound(PointId(1), PointId(3)), None);
    Ok(())
}

#[test]
fn inconsistent_networks_have_their_cycles(rt: HostRuntime) -> Result<(), Fail> {
    let alloc = rt.alloc();
    let owners = [0, 0, 1, 1];
    // With five points the horizon's arcs have the numbers 0 to 7, and given arcs follow.
    let rows = [
        ([(3, 4, 3), (4, 3, -5)].as_slice(), [8, 9].as_slice()),
        ([(1, 3, -6), (3, 1, 5)].as_slice(), [8, 9].as_slice()),
        ([(1, 3, -6), (3, 2, -6)].as_slice(), [0, 8, 9, 3].as_slice()),
    ];
    for (arcs, wanted) in rows {
        let net = sample(alloc, 10, owners.as_slice(), arcs)?;
        let Answer::Inconsistent(walk) = answer_of(&rt, alloc, &net)? else {
            return Err(Fail::new("a schedule"));
        };
        assert_eq!(rt; walk.arcs(), wanted);
    }
    let none = Network::new(alloc, 0)?;
    let Answer::Consistent(joined) = answer_of(&rt, alloc, &none)? else {
        return Err(Fail::new("no schedule"));
    };
    assert_eq!(rt; joined.order().len(), 1);
    Ok(())
}
