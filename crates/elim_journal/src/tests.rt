//! Texts for the handover, worked by hand: ann, agent 0, has a1 and a2, the points 1 and 2, and bob, agent 1, has b1 and b2, 3 and 4.
ghost use Rattle.std.specs.Prelude.{◌≡◌, IfOk};

use crate::{Section, are_entries_in, are_solving, have_lines, print_entries, print_section};
use sample_nets::handover;
use shared_graph::{By, End, Entry, Event};
use std::alloc::Global;
use std::process::Abort;
use std::test::Fail;
use stn_model::{AgentId, Network, PointId};

const ANN: AgentId = AgentId(0);

const BOB: AgentId = AgentId(1);

const A1: PointId = PointId(1);

const A2: PointId = PointId(2);

const B1: PointId = PointId(3);

const B2: PointId = PointId(4);

/// An entry of an agent.
fn of(agent: AgentId, event: Event) -> Entry {
    Entry {
        by: By::Agent(agent),
        event,
    }
}

/// An entry of the joiner.
fn joined(event: Event) -> Entry {
    Entry {
        by: By::Joiner,
        event,
    }
}

/// A vector in which something stands already.
fn begun(alloc: Global) -> Result<Vec<u8>, Fail> {
    Ok(Vec::from_slice(alloc, b"before\n")?)
}

/// The section of these points and entries, which a solve has.
fn section(
    rt: &impl Abort,
    alloc: Global,
    private: &[PointId],
    entries: &[Entry],
) -> Result<Section, Fail>
    ensures { IfOk result (λ s. s ≡ record { private = private.now; entries = entries.now }) }
{
    assert!(rt; are_solving(entries));
    let private = Vec::from_slice(alloc, private)?;
    let entries = Vec::from_slice(alloc, entries)?;
    Ok(Section::new(private, entries))
}

/// The text of a section of the network, after what stood there.
fn printed(
    rt: &impl Abort,
    alloc: Global,
    net: &Network,
    section: &Section,
) -> Result<Vec<u8>, Fail> {
    let points = net.points();
    assert!(rt; section.private().iter().all(|p| p.0 < points));
    assert!(rt; are_entries_in(net, section.entries()));
    let mut out = begun(alloc)?;
    print_section(net, section, &mut out)?;
    Ok(out)
}

/// The text of a copy of the handover's section of these points and entries.
fn section_text(
    rt: &impl Abort,
    alloc: Global,
    private: &[PointId],
    entries: &[Entry],
) -> Result<Vec<u8>, Fail> {
    let net = handover(alloc)?;
    let copy = section(rt, alloc, private, entries)?.copy(alloc)?;
    printed(rt, alloc, &net, &copy)
}

/// The lines of these entries of the handover.
fn entries_text(rt: &impl Abort, alloc: Global, entries: &[Entry]) -> Result<Vec<u8>, Fail> {
    let net = handover(alloc)?;
    assert!(rt; are_entries_in(&net, entries));
    assert!(rt; have_lines(entries));
    let mut out = begun(alloc)?;
    print_entries(&net, entries, &mut out)?;
    Ok(out)
}

#[test]
fn section_of_the_handover(rt: HostRuntime) -> Result<(), Fail> {
    let entries = [
        of(BOB, Event::Publish { agent: BOB }),
        of(BOB, Event::Eliminate { point: B1 }),
        of(ANN, Event::Publish { agent: ANN }),
        of(ANN, Event::Eliminate { point: A2 }),
        of(ANN, Event::Revisit { point: A2 }),
        of(BOB, Event::Revisit { point: B1 }),
    ];
    let text = section_text(&rt, rt.alloc(), [A1, B2].as_slice(), entries.as_slice())?;
    assert_eq!(rt;
        text.as_slice(),
        b"before\nsection\nprivate a1\nprivate b2\npublish bob bob\neliminate b1 bob\npublish ann ann\neliminate a2 ann\nrevisit a2 ann\nrevisit b1 bob\n".as_slice()
    );
    Ok(())
}

#[test]
fn empty_section(rt: HostRuntime) -> Result<(), Fail> {
    let text = section_text(&rt, rt.alloc(), [].as_slice(), [].as_slice())?;
    assert_eq!(rt; text.as_slice(), b"before\nsection\n".as_slice());
    Ok(())
}

#[test]
fn entries_of_each_kind(rt: HostRuntime) -> Result<(), Fail> {
    let entries = [
        joined(Event::Publish { agent: ANN }),
        joined(Event::Eliminate { point: A2 }),
        joined(Event::Revisit { point: A2 }),
        of(
            ANN,
            Event::Assign {
                point: A2,
                value: 0,
            },
        ),
        joined(Event::Assign {
            point: B1,
            value: -1267650600228229401496703205376,
        }),
        of(
            ANN,
            Event::Widen {
                point: A2,
                end: End::High,
            },
        ),
        joined(Event::Widen {
            point: B1,
            end: End::Low,
        }),
    ];
    assert!(rt; !are_solving(entries.as_slice()));
    let text = entries_text(&rt, rt.alloc(), entries.as_slice())?;
    assert_eq!(rt;
        text.as_slice(),
        b"before\npublish ann *\neliminate a2 *\nrevisit a2 *\nassign a2 0 ann\nassign b1 -1267650600228229401496703205376 *\nwiden a2 high ann\nwiden b1 low *\n".as_slice()
    );
    Ok(())
}
