//! The windows of a decoupling, with what blocks their ends.
ghost use Rattle.std.specs.Prelude.{◌≡◌, ◌<◌, ◌++◌, ◌∷◌, [], codes, List, ℕ, OnOk, OnErr};
ghost use Rattle.std.specs.List.{All};
ghost use Rattle.std.specs.Fmt.{signed_decimal};
ghost use Rattle.net_text.specs.Plain.{line, HasFront};
ghost use Rattle.stn_model.specs.Net.{point_count, point_name_of};
ghost use Rattle.schedule_report.specs.Lines.{blocker, box_line};
ghost use Rattle.schedule_report.specs.Parts.{boxes_part};

use crate::mark::whole_or_none;
use crate::window::Window3;
use crate::words::add_count;
use itoa::Buffer;
use net_text::write::add_line;
use stn_model::{Network, OutOfMemory};

/// The window of a point in a decoupling, and what keeps its ends from being wider.
#[derive(Clone, Copy, Debug, PartialEq, Eq)]
pub struct BoxLine {
    /// The point and its window.
    pub window: Window3,
    /// The number of the arc that blocks the low end; None where it is that of the point's own window.
    pub low: Option<u32>,
    /// The number of the arc that blocks the high end; None where it is that of the point's own window.
    pub high: Option<u32>,
}

/// Appends the line `decoupled COUNT`, and then `box NAME LO HI LOWBY HIGHBY` for each box, in the order of the list. LOWBY and HIGHBY are
/// arc numbers, or `own`.
///
/// # Errors
/// `OutOfMemory` where the vector cannot grow. Then its bytes are those from before.
pub fn boxes_part(net: &Network, boxes: &[BoxLine], out: &mut Vec<u8>) -> Result<(), OutOfMemory>
    requires points { All (λ b. b.window.point.0 < point_count net.now) boxes.now }
    ensures ok { OnOk result (out.new.items ≡ out.old.items ++ boxes_part net.now boxes.now) }
    ensures err { OnErr result (out.new.items ≡ out.old.items) }
{
    let mark = out.len();
    let added = add_boxes(net, boxes, out);
    whole_or_none(added, mark, out)
}

/// Appends a boxes part. After an `Err` some of it may stand there.
fn add_boxes(net: &Network, boxes: &[BoxLine], out: &mut Vec<u8>) -> Result<(), OutOfMemory>
    requires points { All (λ b. b.window.point.0 < point_count net.now) boxes.now }
    ensures ok { OnOk result (out.new.items ≡ out.old.items ++ boxes_part net.now boxes.now) }
    ensures kept { HasFront out.old.items out.new.items }
{
    add_count(b"decoupled", boxes.len(), out)?;
    for entry in boxes {
        add_box(net, *entry, out)?;
    }
    Ok(())
}

/// Appends the line of a box.
fn add_box(net: &Network, entry: BoxLine, out: &mut Vec<u8>) -> Result<(), OutOfMemory>
    requires point { entry.window.point.0 < point_count net.now }
    ensures ok { OnOk result (out.new.items ≡ out.old.items ++ box_line net.now entry) }
    ensures kept { HasFront out.old.items out.new.items }
{
    let name = net.point_name(entry.window.point);
    let mut lo_digits = Buffer::new();
    let lo = lo_digits.format(entry.window.lo).as_bytes();
    let mut hi_digits = Buffer::new();
    let hi = hi_digits.format(entry.window.hi).as_bytes();
    let mut low_digits = Buffer::new();
    let low = blocker(entry.low, &mut low_digits);
    let mut high_digits = Buffer::new();
    let high = blocker(entry.high, &mut high_digits);
    add_line(out, b"box", &[name, lo, hi, low, high])
}

/// The number of the arc that blocks an end, or `own` where there is none.
fn blocker(arc: Option<u32>, digits: &mut Buffer) -> &[u8]
    ensures { result.now ≡ blocker arc }
{
    match arc {
        None => b"own",
        Some(number) => digits.format(number).as_bytes(),
    }
}
