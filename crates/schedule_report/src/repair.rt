//! How a conflict is repaired.
ghost use Rattle.std.specs.Prelude.{◌≡◌, ◌++◌, OnOk, OnErr};
ghost use Rattle.net_text.specs.Plain.{HasFront};
ghost use Rattle.schedule_report.specs.Lines.{repair_line};

use crate::mark::whole_or_none;
use itoa::Buffer;
use net_text::write::add_line;
use stn_model::OutOfMemory;

/// Appends the line `repair N BY`, where N is the number of an arc and BY says by how much it is to be loosened, in the network's unit of time;
/// or `remains N` where loosening that arc does not end the conflict.
///
/// # Errors
/// `OutOfMemory` where the vector cannot grow. Then its bytes are those from before.
pub fn repair_line(arc: u32, by: Option<i128>, out: &mut Vec<u8>) -> Result<(), OutOfMemory>
    ensures ok { OnOk result (out.new.items ≡ out.old.items ++ repair_line arc by) }
    ensures err { OnErr result (out.new.items ≡ out.old.items) }
{
    let mark = out.len();
    let added = add_repair(arc, by, out);
    whole_or_none(added, mark, out)
}

/// Appends the line of a repair. After an `Err` some of it may stand there.
fn add_repair(arc: u32, by: Option<i128>, out: &mut Vec<u8>) -> Result<(), OutOfMemory>
    ensures ok { OnOk result (out.new.items ≡ out.old.items ++ repair_line arc by) }
    ensures kept { HasFront out.old.items out.new.items }
{
    let mut arc_digits = Buffer::new();
    let arc = arc_digits.format(arc).as_bytes();
    let Some(by) = by else {
        return add_line(out, b"remains", &[arc]);
    };
    let mut by_digits = Buffer::new();
    let by = by_digits.format(by).as_bytes();
    add_line(out, b"repair", &[arc, by])
}
