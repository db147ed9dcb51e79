//! The text of a section, and of entries alone.
ghost use Rattle.std.specs.Prelude.{◌≡◌, ◌++◌, true, OnOk, OnErr};
ghost use Rattle.std.specs.List.{All};
ghost use Rattle.net_text.specs.Plain.{HasFront};
ghost use Rattle.elim_journal.specs.Belongs.{ArePointsIn, AreEntriesIn};
ghost use Rattle.elim_journal.specs.Lines.{entry_lines, private_lines, section_text};
ghost use Rattle.elim_journal.specs.Sections.{has_line, have_lines};

use crate::lines::{add_entry, add_private};
use crate::section::Section;
use net_text::write::add_line;
use schedule_report::mark::whole_or_none;
use shared_graph::Entry;
use stn_model::{Network, OutOfMemory, PointId};

/// Appends the line `section`, the line `private NAME` for each private point, and a line for each entry, as [`print_entries`] writes it. Points and
/// agents are those of the network.
///
/// # Errors
/// `OutOfMemory` where the vector cannot grow. Then its bytes are those from before.
pub fn print_section(net: &Network, section: &Section, out: &mut Vec<u8>) -> Result<(), OutOfMemory>
    requires points { ArePointsIn net.now section.now.private }
    requires entries { AreEntriesIn net.now section.now.entries }
    ensures ok { OnOk result (out.new.items ≡ out.old.items ++ section_text net.now section.now) }
    ensures err { OnErr result (out.new.items ≡ out.old.items) }
{
    let mark = out.len();
    let added = add_section(net, section, out);
    whole_or_none(added, mark, out)
}

/// Appends a line for each entry, in the order of the list: `publish AGENT BY`, `eliminate POINT BY`, `revisit POINT BY`, `assign POINT VALUE BY`,
/// `widen POINT low BY` or `widen POINT high BY`. BY is the agent that made the entry, or `*` for the joiner; VALUE is a time, in the network's unit.
/// Points and agents are those of the network, and no entry is a stop.
///
/// # Errors
/// `OutOfMemory` where the vector cannot grow. Then its bytes are those from before.
pub fn print_entries(net: &Network, entries: &[Entry], out: &mut Vec<u8>) -> Result<(), OutOfMemory>
    requires entries { AreEntriesIn net.now entries.now }
    requires lines { have_lines entries.now ≡ true }
    ensures ok { OnOk result (out.new.items ≡ out.old.items ++ entry_lines net.now entries.now) }
    ensures err { OnErr result (out.new.items ≡ out.old.items) }
{
    let mark = out.len();
    let added = add_entries(net, entries, out);
    whole_or_none(added, mark, out)
}

/// Appends a section. After an `Err` some of it may stand there.
fn add_section(net: &Network, section: &Section, out: &mut Vec<u8>) -> Result<(), OutOfMemory>
    requires points { ArePointsIn net.now section.now.private }
    requires entries { AreEntriesIn net.now section.now.entries }
    ensures ok { OnOk result (out.new.items ≡ out.old.items ++ section_text net.now section.now) }
    ensures kept { HasFront out.old.items out.new.items }
{
    add_line(out, b"section", &[])?;
    add_points(net, section.private(), out)?;
    add_entries(net, section.entries(), out)
}

/// Appends the lines of private points. After an `Err` some of them may stand there.
fn add_points(net: &Network, points: &[PointId], out: &mut Vec<u8>) -> Result<(), OutOfMemory>
    requires points { ArePointsIn net.now points.now }
    ensures ok { OnOk result (out.new.items ≡ out.old.items ++ private_lines net.now points.now) }
    ensures kept { HasFront out.old.items out.new.items }
{
    for point in points {
        add_private(net, *point, out)?;
    }
    Ok(())
}

/// Appends the lines of entries. After an `Err` some of them may stand there.
fn add_entries(net: &Network, entries: &[Entry], out: &mut Vec<u8>) -> Result<(), OutOfMemory>
    requires entries { AreEntriesIn net.now entries.now }
    requires lines { All (λ e. has_line e.event ≡ true) entries.now }
    ensures ok { OnOk result (out.new.items ≡ out.old.items ++ entry_lines net.now entries.now) }
    ensures kept { HasFront out.old.items out.new.items }
{
    for entry in entries {
        add_entry(net, *entry, out)?;
    }
    Ok(())
}
