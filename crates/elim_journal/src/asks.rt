//! The tests by which a caller may know what the other calls ask of entries.
ghost use Rattle.std.specs.Prelude.{◌≡◌, ◌↔◌, IsTrue};
ghost use Rattle.elim_journal.specs.Belongs.{IsMakerIn, IsEventIn, IsEntryIn, AreEntriesIn};
ghost use Rattle.elim_journal.specs.Sections.{is_solving, are_solving, has_line, have_lines};

use shared_graph::{By, Entry, Event};
use stn_model::Network;

/// Whether each of the entries publishes, eliminates or revisits, as those of a [`Section`](crate::Section) do.
pub fn are_solving(entries: &[Entry]) -> bool
    ensures { result ≡ are_solving entries.now }
{
    entries.iter().all(|entry| is_solving(entry.event))
}

/// Whether none of the entries is a stop.
pub fn have_lines(entries: &[Entry]) -> bool
    ensures { result ≡ have_lines entries.now }
{
    entries.iter().all(|entry| has_line(entry.event))
}

/// Whether the points and agents that entries name are those of the network.
pub fn are_entries_in(net: &Network, entries: &[Entry]) -> bool
    ensures { IsTrue result ↔ AreEntriesIn net.now entries.now }
{
    entries.iter().all(|entry| is_entry_in(net, *entry))
}

/// Whether the event publishes, eliminates or revisits.
fn is_solving(event: Event) -> bool
    ensures { result ≡ is_solving event }
{
    matches!(
        event,
        Event::Publish { .. } | Event::Eliminate { .. } | Event::Revisit { .. }
    )
}

/// Whether the event is no stop.
fn has_line(event: Event) -> bool
    ensures { result ≡ has_line event }
{
    !matches!(event, Event::Stop { .. })
}

/// Whether the points and agents of an entry are those of the network.
fn is_entry_in(net: &Network, entry: Entry) -> bool
    ensures { IsTrue result ↔ IsEntryIn net.now entry }
{
    is_maker_in(net, entry.by) && is_event_in(net, entry.event)
}

/// Whether the maker is the joiner or an agent of the network.
fn is_maker_in(net: &Network, by: By) -> bool
    ensures { IsTrue result ↔ IsMakerIn net.now by }
{
    match by {
        By::Agent(agent) => agent.0 < net.agents(),
        By::Joiner => true,
    }
}

/// Whether the points or the agent of an event are those of the network.
fn is_event_in(net: &Network, event: Event) -> bool
    ensures { IsTrue result ↔ IsEventIn net.now event }
{
    let points = net.points();
    match event {
        Event::Publish { agent } => agent.0 < net.agents(),
        Event::Stop { point, other } => point.0 < points && other.0 < points,
        Event::Eliminate { point } => point.0 < points,
        Event::Revisit { point } => point.0 < points,
        Event::Assign { point, value: _ } => point.0 < points,
        Event::Widen { point, end: _ } => point.0 < points,
    }
}
