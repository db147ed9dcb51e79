//! Single lines of a journal.
ghost use Rattle.std.specs.Prelude.{◌≡◌, ◌<◌, ◌++◌, true, OnOk};
ghost use Rattle.net_text.specs.Plain.{HasFront};
ghost use Rattle.stn_model.specs.Net.{point_count};
ghost use Rattle.elim_journal.specs.Belongs.{IsMakerIn, IsEntryIn};
ghost use Rattle.elim_journal.specs.Lines.{maker_word, end_word, entry_line, private_line};
ghost use Rattle.elim_journal.specs.Sections.{has_line};

use itoa::Buffer;
use net_text::write::add_line;
use shared_graph::{By, End, Entry, Event};
use stn_model::{Network, OutOfMemory, PointId};

/// Appends the line of a private point.
pub(crate) fn add_private(
    net: &Network,
    point: PointId,
    out: &mut Vec<u8>,
) -> Result<(), OutOfMemory>
    requires point { point.0 < point_count net.now }
    ensures ok { OnOk result (out.new.items ≡ out.old.items ++ private_line net.now point) }
    ensures kept { HasFront out.old.items out.new.items }
{
    add_line(out, b"private", &[net.point_name(point)])
}

/// Appends the line of an entry.
pub(crate) fn add_entry(net: &Network, entry: Entry, out: &mut Vec<u8>) -> Result<(), OutOfMemory>
    requires entry { IsEntryIn net.now entry }
    requires line { has_line entry.event ≡ true }
    ensures ok { OnOk result (out.new.items ≡ out.old.items ++ entry_line net.now entry) }
    ensures kept { HasFront out.old.items out.new.items }
{
    let by = maker_word(net, entry.by);
    match entry.event {
        Event::Publish { agent } => add_line(out, b"publish", &[net.agent_name(agent), by]),
        Event::Eliminate { point } => add_line(out, b"eliminate", &[net.point_name(point), by]),
        Event::Revisit { point } => add_line(out, b"revisit", &[net.point_name(point), by]),
        Event::Assign { point, value } => {
            let mut digits = Buffer::new();
            let value = digits.format(value).as_bytes();
            add_line(out, b"assign", &[net.point_name(point), value, by])
        }
        Event::Widen { point, end } => {
            add_line(out, b"widen", &[net.point_name(point), end_word(end), by])
        }
        Event::Stop { .. } => unreachable!(),
    }
}

/// The word for who made an entry: the name of the agent, or `*` for the joiner.
fn maker_word(net: &Network, by: By) -> &[u8]
    requires { IsMakerIn net.now by }
    ensures { result.now ≡ maker_word net.now by }
{
    match by {
        By::Agent(agent) => net.agent_name(agent),
        By::Joiner => b"*",
    }
}

/// The word for an end of a window.
fn end_word<'a>(end: End) -> &'a [u8]
    ensures { result.now ≡ end_word end }
{
    match end {
        End::Low => b"low",
        End::High => b"high",
    }
}
