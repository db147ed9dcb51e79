//! Each part of a report once, for a network whose figures were worked by hand.
ghost use Rattle.std.specs.Prelude.{◌≡◌, ◌<◌, IfOk, length};
ghost use Rattle.std.specs.List.{All};
ghost use Rattle.stn_model.specs.Net.{arcs_of, point_count};

use crate::{
    BoxLine, Window3, bounds_part, boxes_part, choice_line, cycle_part, error_line, order_lines,
    prove_part, repair_line, times_part, verdict, windows_part, word_line,
};
use net_text::read_net;
use std::alloc::Global;
use std::process::Abort;
use std::test::Fail;
use stn_model::{Network, PointId, Schedule};
use stn_walk::Walk;

/// Ann hands over to Bob. Points: a1 is 1, a2 is 2, b1 is 3, b2 is 4. Arcs: 8 is z a1 20, 9 is a1 a2 40, 10 is a2 a1 -30, 11 is a2 b1 5,
/// 12 is b1 a2 0, 13 is b1 b2 20, 14 is b2 b1 -10, and 15, z b1 20, which makes it inconsistent.
const HANDOVER: &[u8] =
    b"mastn 1\nhorizon 100\nagent ann\nagent bob\npoint ann a1\npoint ann a2\npoint bob b1\npoint bob b2\narc z a1 20\narc a1 a2 40\narc a2 a1 -30\narc a2 b1 5\narc b1 a2 0\narc b1 b2 20\narc b2 b1 -10\narc z b1 20\nend\n";

/// Ann digs, which takes 30 to 40. Points: dig.s is 1, dig.e is 2, x is 3.
const DIG: &[u8] =
    b"mastn 2\nhorizon 100\nagent ann\nact ann dig 30 40\npoint ann x\narc dig.e x 5\nend\n";

const A1: PointId = PointId(1);

const A2: PointId = PointId(2);

const B1: PointId = PointId(3);

const B2: PointId = PointId(4);

/// The network of a text.
fn network(rt: &impl Abort, alloc: Global, text: &[u8]) -> Network {
    assert!(rt; text.len() < 1000);
    let Ok(read) = read_net(alloc, text) else {
        panic!(rt; "the text is no network");
    };
    read.net
}

/// The network of the handover.
fn handover(rt: &impl Abort, alloc: Global) -> Network
    ensures points { point_count result ≡ 5 }
    ensures arcs { length (arcs_of result) ≡ 16 }
{
    let net = network(rt, alloc, HANDOVER);
    assert!(rt; net.points() == 5);
    assert!(rt; net.arcs() == 16);
    net
}

/// The schedule of these times.
fn schedule(rt: &impl Abort, alloc: Global, times: &[i128]) -> Result<Schedule, Fail>
    ensures { IfOk result (λ s. length s ≡ length times.now) }
{
    let Some(schedule) = Schedule::new(Vec::from_slice(alloc, times)?) else {
        panic!(rt; "a time is too great");
    };
    Ok(schedule)
}

/// The walk of these arcs.
fn walk(rt: &impl Abort, alloc: Global, net: &Network, arcs: &[u32]) -> Result<Walk, Fail>
    ensures { IfOk result (All (λ n. n < length (arcs_of net.now))) }
{
    let count = net.arcs();
    assert!(rt; arcs.iter().all(|n| *n < count));
    Ok(Walk::new(Vec::from_slice(alloc, arcs)?))
}

/// A vector in which something stands already.
fn begun(alloc: Global) -> Result<Vec<u8>, Fail> {
    Ok(Vec::from_slice(alloc, b"before\n")?)
}

#[test]
fn lines_without_points(rt: HostRuntime) -> Result<(), Fail> {
    let mut out = begun(rt.alloc())?;
    verdict(true, &mut out)?;
    verdict(false, &mut out)?;
    word_line(b"accepted kept", &mut out)?;
    repair_line(4, Some(2), &mut out)?;
    repair_line(5, None, &mut out)?;
    error_line(27, b"WrongValue", &[b"30", b"31"], &mut out)?;
    error_line(0, b"ReadFault", &[], &mut out)?;
    assert_eq!(rt;
        out.as_slice(),
        b"before\nconsistent\ninconsistent\naccepted kept\nrepair 4 2\nremains 5\nerror 27 WrongValue 30 31\nerror 0 ReadFault\n".as_slice()
    );
    Ok(())
}

#[test]
fn order_of_points(rt: HostRuntime) -> Result<(), Fail> {
    let net = handover(&rt, rt.alloc());
    let mut out = begun(rt.alloc())?;
    let order = [A1, B2, B1, PointId(0), A2];
    assert!(rt; order.iter().all(|p| p.0 < 5));
    order_lines(&net, order.as_slice(), &mut out)?;
    assert_eq!(rt;
        out.as_slice(),
        b"before\nprivate a1\nprivate b2\nshared b1\nshared a2\n".as_slice()
    );
    Ok(())
}

#[test]
fn cycle_of_four_arcs(rt: HostRuntime) -> Result<(), Fail> {
    let net = handover(&rt, rt.alloc());
    let cycle = walk(&rt, rt.alloc(), &net, [1, 15, 12, 10].as_slice())?;
    let mut out = begun(rt.alloc())?;
    cycle_part(&net, &cycle, -10, &mut out)?;
    assert_eq!(rt;
        out.as_slice(),
        b"before\ncycle -10 4\narc 1 a1 z 0\narc 15 z b1 20\narc 12 b1 a2 0\narc 10 a2 a1 -30\n".as_slice()
    );
    Ok(())
}

#[test]
fn least_bounds(rt: HostRuntime) -> Result<(), Fail> {
    let net = handover(&rt, rt.alloc());
    let mut out = begun(rt.alloc())?;
    let edges = [(PointId(0), A2, 60), (A2, A1, -30)];
    assert!(rt; edges.iter().all(|e| e.0.0 < 5));
    assert!(rt; edges.iter().all(|e| e.1.0 < 5));
    bounds_part(&net, edges.as_slice(), &mut out)?;
    assert_eq!(rt;
        out.as_slice(),
        b"before\nbounds 2\nleast z a2 60\nleast a2 a1 -30\n".as_slice()
    );
    Ok(())
}

/// The window of a point.
fn window(point: PointId, lo: i128, hi: i128) -> Window3
    ensures { result.point ≡ point }
{
    Window3 { point, lo, hi }
}

#[test]
fn windows(rt: HostRuntime) -> Result<(), Fail> {
    let net = handover(&rt, rt.alloc());
    let mut out = begun(rt.alloc())?;
    let all = [window(A1, 0, 20), window(A2, 30, 60), window(B1, 30, 65)];
    assert!(rt; all.iter().all(|w| w.point.0 < 5));
    windows_part(&net, all.as_slice(), &mut out)?;
    assert_eq!(rt;
        out.as_slice(),
        b"before\nwindows 3\nwindow a1 0 20\nwindow a2 30 60\nwindow b1 30 65\n".as_slice()
    );
    Ok(())
}

#[test]
fn boxes(rt: HostRuntime) -> Result<(), Fail> {
    let net = handover(&rt, rt.alloc());
    let mut out = begun(rt.alloc())?;
    let all = [
        BoxLine {
            window: window(A2, 30, 30),
            low: None,
            high: Some(12),
        },
        BoxLine {
            window: window(B1, 30, 35),
            low: Some(12),
            high: Some(11),
        },
    ];
    assert!(rt; all.iter().all(|b| b.window.point.0 < 5));
    boxes_part(&net, all.as_slice(), &mut out)?;
    assert_eq!(rt;
        out.as_slice(),
        b"before\ndecoupled 2\nbox a2 30 30 own 12\nbox b1 30 35 12 11\n".as_slice()
    );
    Ok(())
}

#[test]
fn choices(rt: HostRuntime) -> Result<(), Fail> {
    let net = handover(&rt, rt.alloc());
    let mut out = begun(rt.alloc())?;
    choice_line(&net, B2, 39, Some((40, 55)), &mut out)?;
    choice_line(&net, B2, 40, None, &mut out)?;
    assert_eq!(rt;
        out.as_slice(),
        b"before\noutside b2 39 40 55\nset b2 40\n".as_slice()
    );
    Ok(())
}

#[test]
fn times_of_points(rt: HostRuntime) -> Result<(), Fail> {
    let net = handover(&rt, rt.alloc());
    let earliest = schedule(&rt, rt.alloc(), [0, 0, 30, 30, 40].as_slice())?;
    let mut out = begun(rt.alloc())?;
    times_part(&net, &earliest, &mut out)?;
    assert_eq!(rt;
        out.as_slice(),
        b"before\ntime a1 0\ntime a2 30\ntime b1 30\ntime b2 40\n".as_slice()
    );
    Ok(())
}

#[test]
fn times_of_acts(rt: HostRuntime) -> Result<(), Fail> {
    let net = network(&rt, rt.alloc(), DIG);
    assert!(rt; net.points() == 4);
    let earliest = schedule(&rt, rt.alloc(), [0, 0, 30, 0].as_slice())?;
    let mut out = begun(rt.alloc())?;
    times_part(&net, &earliest, &mut out)?;
    assert_eq!(rt;
        out.as_slice(),
        b"before\ntime dig.s 0\ntime dig.e 30\ntime x 0\nact dig 0 30\n".as_slice()
    );
    Ok(())
}

#[test]
fn proof_of_a_bound(rt: HostRuntime) -> Result<(), Fail> {
    let net = handover(&rt, rt.alloc());
    let back = walk(&rt, rt.alloc(), &net, [12, 10].as_slice())?;
    let attained = schedule(&rt, rt.alloc(), [0, 0, 30, 30, 50].as_slice())?;
    let mut out = begun(rt.alloc())?;
    prove_part(&net, B1, A1, -30, &back, &attained, &mut out)?;
    assert_eq!(rt;
        out.as_slice(),
        b"before\nprove b1 a1 -30 2\narc 12 b1 a2 0\narc 10 a2 a1 -30\ntime a1 0\ntime a2 30\ntime b1 30\ntime b2 50\n".as_slice()
    );
    Ok(())
}
