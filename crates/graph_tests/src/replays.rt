//! Journals that are replayed, graphs that go on where others left off, and the revisits that the joiner makes. All but the ring is on the handover.
ghost use Rattle.std.specs.Prelude.{◌≡◌, IsTrue, IfOk, length};
ghost use Rattle.std.specs.List.{list_all};
ghost use Rattle.shared_graph.specs.Histories.{AreFitting};
ghost use Rattle.shared_graph.specs.Journals.{AgreeWith, Continues, is_before_times};

use crate::steps::Tried;
use crate::tables::{ANN, BOB, eliminate, hands_over, publish, ring, told};
use elim_step::Summary;
use sample_nets::{handover, sample};
use shared_graph::{By, Entry, Event, Illegal, Interface, Phase, Replay, Shared, SharedCycle};
use std::alloc::Global;
use std::process::Abort;
use std::test::Fail;
use stn_model::{AgentId, Network, PointId};

// An entry of the joiner.
fn joins(event: Event) -> Entry {
    Entry {
        by: By::Joiner,
        event,
    }
}

// The revisit of a point.
fn revisit(by: By, point: u32) -> Entry {
    let point = PointId(point);
    Entry {
        by,
        event: Event::Revisit { point },
    }
}

// Whether there is one summary for each agent, and it fits.
fn are_fitting(face: &Interface, summaries: &[Summary]) -> bool
    ensures each { IsTrue result → length summaries.now ≡ length face.now.leans }
    ensures fitting { IsTrue result → AreFitting face.now summaries.now }
{
    if summaries.len() != face.agents() as usize {
        return false;
    }
    for agent in 0..face.agents() {
        if !face.fits(AgentId(agent), &summaries[agent as usize]) {
            return false;
        }
    }
    true
}

// Whether an event is a step before points have times.
fn is_before_times(event: Event) -> bool
    ensures { result ≡ is_before_times event }
{
    match event {
        Event::Publish { .. }
        | Event::Eliminate { .. }
        | Event::Stop { .. }
        | Event::Revisit { .. } => true,
        Event::Assign { .. } | Event::Widen { .. } => false,
    }
}

// Whether all entries are.
fn are_before_times(entries: &[Entry]) -> bool
    ensures { result ≡ list_all (λ e. is_before_times e.event) entries.now }
{
    entries.iter().all(|entry| is_before_times(entry.event))
}

// What entries come to on a network, with the summaries of its agents.
fn replayed(alloc: Global, net: &Network, entries: &[Entry]) -> Result<Replay, Fail> {
    let summaries = told(alloc, net)?;
    let list = summaries.as_slice();
    let face = Interface::of(alloc, net)?;
    if !are_fitting(&face, list)
        || !are_before_times(entries)
        || entries.len() > u32::MAX as usize
    {
        return Err(Fail::new("no such entries"));
    }
    Ok(Shared::replay(alloc, face, list, entries)?)
}

// The graph that they lead to; each is legal in its place.
fn whole(alloc: Global, net: &Network, entries: &[Entry]) -> Result<Shared, Fail> {
    match replayed(alloc, net, entries)? {
        Replay::Whole(shared) => Ok(shared),
        Replay::IllegalAt { .. } => Err(Fail::new("an illegal entry")),
    }
}

// Whether a graph goes on these entries.
fn goes_on(
    shared: &Shared,
    face: &Interface,
    summaries: &[Summary],
    front: &[Entry],
) -> Result<bool, Fail>
    ensures { IfOk result (λ on. IsTrue on → Continues face.now summaries.now front.now shared.now) }
{
    if summaries.len() != face.agents() as usize {
        return Err(Fail::new("not one summary for each agent"));
    }
    Ok(shared.continues(face, summaries, front))
}

// The joiner makes all that is left, of the order and then of the revisits.
fn finish_with(alloc: Global, shared: &mut Shared, summaries: &[Summary]) -> Result<(), Fail>
    requires one_each { length summaries.now ≡ length shared.old.face.leans }
    requires fitting { AreFitting shared.old.face summaries.now }
    requires agree { AgreeWith summaries.now shared.old.state }
{
    shared.finish(alloc, summaries, Phase::Order)?;
    if shared.cycle().is_some() {
        return Err(Fail::new("a stop"));
    }
    shared.finish(alloc, summaries, Phase::Reverse)?;
    Ok(())
}

// The summaries of the handover's agents.
fn own_summaries(alloc: Global) -> Result<Vec<Summary>, Fail> {
    let net = handover(alloc)?;
    told(alloc, &net)
}

// The same with these summaries.
fn finish(alloc: Global, shared: &mut Shared) -> Result<(), Fail> {
    let summaries = own_summaries(alloc)?;
    let list = summaries.as_slice();
    let on = goes_on(shared, shared.interface(), list, [].as_slice())?;
    if !on || !are_fitting(shared.interface(), list) {
        return Err(Fail::new("other summaries"));
    }
    finish_with(alloc, shared, list)
}

// The order that agents made, and the revisits.
fn whole_run() -> [Entry; 6] {
    [
        publish(ANN),
        publish(BOB),
        eliminate(ANN, 2),
        eliminate(BOB, 3),
        revisit(By::Joiner, 3),
        revisit(By::Agent(BOB), 2),
    ]
}

// Two graphs are in the same state.
fn are_alike(rt: &impl Abort, one: &Shared, other: &Shared) {
    assert_eq!(rt; one.order(), other.order());
    assert_eq!(rt; one.cycle(), other.cycle());
    for agent in [ANN, BOB] {
        match (one.published(agent), other.published(agent)) {
            (Some(told), Some(wanted)) => assert_eq!(rt; told.entries(), wanted.entries()),
            (told, wanted) => assert!(rt; told.is_none() && wanted.is_none()),
        }
    }
    for from in [0, 2, 3] {
        for to in [0, 2, 3] {
            let (from, to) = (PointId(from), PointId(to));
            assert_eq!(rt; one.final_bound(from, to), other.final_bound(from, to));
        }
    }
}

#[test]
fn journals_replay_to_their_graphs(rt: HostRuntime) -> Result<(), Fail> {
    let net = handover(rt.alloc())?;
    let entries = whole_run();
    // How long the front is, how many points are eliminated, and the bounds from the reference point to points 3 and 2.
    let rows = [
        (0, 0, None, None),
        (2, 0, None, None),
        (3, 1, None, None),
        (4, 2, None, None),
        (5, 2, Some(65), None),
        (6, 2, Some(65), Some(60)),
    ];
    for (len, taken, far, near) in rows {
        let front = &entries[..len];
        let made = hands_over(&rt, rt.alloc(), front, Tried::Made)?;
        let shared = whole(rt.alloc(), &net, front)?;
        are_alike(&rt, &shared, &made);
        assert_eq!(&rt; shared.journal(), front);
        assert_eq!(&rt; shared.order(), &[PointId(2), PointId(3)][..taken]);
        assert_eq!(&rt; shared.final_bound(PointId(0), PointId(3)), far);
        assert_eq!(&rt; shared.final_bound(PointId(0), PointId(2)), near);
    }
    Ok(())
}

// These entries have their first fault at this place, for this cause.
fn faults(
    rt: &impl Abort,
    alloc: Global,
    net: &Network,
    entries: &[Entry],
    wanted: (u32, Illegal),
) -> Result<(), Fail> {
    match replayed(alloc, net, entries)? {
        Replay::Whole(_) => assert!(rt; false, "no fault"),
        Replay::IllegalAt { place, cause } => assert_eq!(rt; (place, cause), wanted),
    }
    Ok(())
}

// On the ring of three agents the elimination of point 2 is illegal after that of point 1; a stop may stand there, and nothing after it.
fn ring_stops(rt: &impl Abort, alloc: Global) -> Result<(), Fail> {
    let net = ring(alloc)?;
    let cycle = SharedCycle {
        point: PointId(2),
        other: PointId(3),
    };
    let entries = [
        publish(AgentId(0)),
        publish(AgentId(1)),
        publish(AgentId(2)),
        eliminate(AgentId(0), 1),
        eliminate(AgentId(1), 2),
    ];
    let wanted = (4, Illegal::Negative(cycle.other));
    faults(rt, alloc, &net, entries.as_slice(), wanted)?;
    let stop = joins(Event::Stop {
        point: cycle.point,
        other: cycle.other,
    });
    let [first, second, third, taken, _] = entries;
    let entries = [first, second, third, taken, stop, stop];
    let shared = whole(alloc, &net, &entries[..5])?;
    assert_eq!(rt; shared.cycle(), Some(cycle));
    faults(rt, alloc, &net, entries.as_slice(), (5, Illegal::Stopped))
}

#[test]
fn first_faults_are_named(rt: HostRuntime) -> Result<(), Fail> {
    let net = handover(rt.alloc())?;
    // What stands after a fault is illegal too, or would be legal but for it.
    let entries = [publish(ANN), eliminate(BOB, 3), publish(ANN)];
    let wanted = (1, Illegal::NotPublished(BOB));
    faults(&rt, rt.alloc(), &net, entries.as_slice(), wanted)?;
    let entries = [eliminate(ANN, 2), publish(ANN), publish(BOB)];
    let wanted = (0, Illegal::NotPublished(ANN));
    faults(&rt, rt.alloc(), &net, entries.as_slice(), wanted)?;
    let entries = [
        publish(ANN),
        publish(BOB),
        eliminate(ANN, 2),
        joins(Event::Stop {
            point: PointId(3),
            other: PointId(0),
        }),
    ];
    let wanted = (3, Illegal::NotNegative(PointId(0)));
    faults(&rt, rt.alloc(), &net, entries.as_slice(), wanted)?;
    ring_stops(&rt, rt.alloc())
}

// A network with the interface and the summaries of the handover, or others: its bounds from a1 to a2, from a2 to b1 and from b2 to b1 are these.
fn like_handover(alloc: Global, ann: i64, between: i64, bob: i64) -> Result<Network, Fail> {
    let arcs = [
        (0, 1, 20),
        (1, 2, ann),
        (2, 1, -30),
        (2, 3, between),
        (3, 2, 0),
        (3, 4, 20),
        (4, 3, bob),
    ];
    sample(alloc, 100, [0, 0, 1, 1].as_slice(), arcs.as_slice())
}

// Only the interface and summaries that are published tell whether a graph goes on.
fn goes_on_alike(
    rt: &impl Abort,
    alloc: Global,
    shared: &Shared,
    ann: &Shared,
) -> Result<(), Fail> {
    let rows = [
        (40, 5, -10, true, true),
        (41, 5, -10, false, false),
        (40, 6, -10, false, false),
        (40, 5, -11, false, true),
    ];
    for (own, between, other, whole, alone) in rows {
        let net = like_handover(alloc, own, between, other)?;
        let summaries = told(alloc, &net)?;
        let face = Interface::of(alloc, &net)?;
        let none = [].as_slice();
        assert_eq!(rt; goes_on(shared, &face, summaries.as_slice(), none)?, whole);
        assert_eq!(rt; goes_on(ann, &face, summaries.as_slice(), none)?, alone);
    }
    Ok(())
}

// Whether a graph over the handover's interface goes on these entries, with the summaries of its agents.
fn goes_on_own(alloc: Global, shared: &Shared, front: &[Entry]) -> Result<bool, Fail> {
    let summaries = own_summaries(alloc)?;
    goes_on(shared, shared.interface(), summaries.as_slice(), front)
}

// A copy of the graph of these entries goes on them alone.
fn copy_goes_on(rt: &impl Abort, alloc: Global, front: &[Entry]) -> Result<(), Fail> {
    let short = hands_over(rt, alloc, front, Tried::Made)?;
    let mut copy = short.copy(alloc)?;
    finish(alloc, &mut copy)?;
    let on = goes_on_own(alloc, &copy, front)?;
    assert!(rt; on);
    assert_eq!(rt; short.journal(), front);
    Ok(())
}

// The graph of the whole run goes on each front of it, and that of its first entry on no longer one.
fn fronts_go_on(rt: &impl Abort, alloc: Global, whole: &Shared, ann: &Shared) -> Result<(), Fail> {
    let entries = whole_run();
    for len in 0..7 {
        let front = &entries[..len];
        let on = goes_on_own(alloc, whole, front)?;
        assert!(rt; on, "after {len}");
        let on = goes_on_own(alloc, ann, front)?;
        assert_eq!(rt; on, len < 2, "after {len}");
        copy_goes_on(rt, alloc, front)?;
    }
    let other = [publish(BOB), publish(ANN)];
    let on = goes_on_own(alloc, whole, other.as_slice())?;
    assert!(rt; !on);
    Ok(())
}

#[test]
fn graphs_go_on(rt: HostRuntime) -> Result<(), Fail> {
    let entries = whole_run();
    let whole = hands_over(&rt, rt.alloc(), entries.as_slice(), Tried::Made)?;
    let ann = hands_over(&rt, rt.alloc(), &entries[..1], Tried::Made)?;
    fronts_go_on(&rt, rt.alloc(), &whole, &ann)?;
    goes_on_alike(&rt, rt.alloc(), &whole, &ann)
}

// The least bounds of the handover between the reference point and its shared points.
fn has_least_bounds(rt: &impl Abort, shared: &Shared) {
    let rows = [
        (0, 2, 60),
        (0, 3, 65),
        (2, 0, -30),
        (2, 3, 5),
        (3, 0, -30),
        (3, 2, 0),
    ];
    for (from, to, bound) in rows {
        let found = shared.final_bound(PointId(from), PointId(to));
        assert_eq!(rt; found, Some(bound), "from {from} to {to}");
    }
}

// After these entries the joiner adds those, and a second time none.
fn finishes(
    rt: &impl Abort,
    alloc: Global,
    entries: &[Entry],
    added: &[Entry],
) -> Result<(), Fail> {
    let mut wanted = Vec::new(alloc);
    wanted.extend_from_slice(entries)?;
    wanted.extend_from_slice(added)?;
    let mut shared = hands_over(rt, alloc, entries, Tried::Made)?;
    for _time in 0..2 {
        finish(alloc, &mut shared)?;
        assert_eq!(rt; shared.journal(), wanted.as_slice());
        has_least_bounds(rt, &shared);
    }
    Ok(())
}

#[test]
fn the_joiner_revisits_what_is_left(rt: HostRuntime) -> Result<(), Fail> {
    let [ann, bob, second, third, _far, _near] = whole_run();
    let order = [ann, bob, second, third];
    let added = [revisit(By::Joiner, 3), revisit(By::Joiner, 2)];
    finishes(&rt, rt.alloc(), order.as_slice(), added.as_slice())?;
    let order = [bob, ann, third, second];
    let added = [revisit(By::Joiner, 2), revisit(By::Joiner, 3)];
    finishes(&rt, rt.alloc(), order.as_slice(), added.as_slice())?;
    let order = [ann, bob, second, third, revisit(By::Agent(ANN), 3)];
    finishes(
        &rt,
        rt.alloc(),
        order.as_slice(),
        [revisit(By::Joiner, 2)].as_slice(),
    )?;
    let order = [bob];
    let added = [
        joins(Event::Publish { agent: ANN }),
        joins(Event::Eliminate { point: PointId(2) }),
        joins(Event::Eliminate { point: PointId(3) }),
        revisit(By::Joiner, 3),
        revisit(By::Joiner, 2),
    ];
    finishes(&rt, rt.alloc(), order.as_slice(), added.as_slice())
}
