//! Windows of points.
ghost use Rattle.std.specs.Prelude.{◌≡◌, ◌<◌, ◌++◌, OnOk, OnErr};
ghost use Rattle.std.specs.List.{All};
ghost use Rattle.net_text.specs.Plain.{HasFront};
ghost use Rattle.stn_model.specs.Net.{point_count};
ghost use Rattle.schedule_report.specs.Lines.{window_line};
ghost use Rattle.schedule_report.specs.Parts.{windows_part};

use crate::mark::whole_or_none;
use crate::words::add_count;
use itoa::Buffer;
use net_text::write::add_line;
use stn_model::{Network, OutOfMemory, PointId};

/// The least and the greatest time of a point, in the network's unit of time.
#[derive(Clone, Copy, Debug, PartialEq, Eq)]
pub struct Window3 {
    /// The point.
    pub point: PointId,
    /// Its least time.
    pub lo: i128,
    /// Its greatest time.
    pub hi: i128,
}

/// Appends the line `windows COUNT`, and then `window NAME LO HI` for each window, in the order of the list.
///
/// # Errors
/// `OutOfMemory` where the vector cannot grow. Then its bytes are those from before.
pub fn windows_part(
    net: &Network,
    windows: &[Window3],
    out: &mut Vec<u8>,
) -> Result<(), OutOfMemory>
    requires points { All (λ w. w.point.0 < point_count net.now) windows.now }
    ensures ok { OnOk result (out.new.items ≡ out.old.items ++ windows_part net.now windows.now) }
    ensures err { OnErr result (out.new.items ≡ out.old.items) }
{
    let mark = out.len();
    let added = add_windows(net, windows, out);
    whole_or_none(added, mark, out)
}

/// Appends a windows part. After an `Err` some of it may stand there.
fn add_windows(net: &Network, windows: &[Window3], out: &mut Vec<u8>) -> Result<(), OutOfMemory>
    requires points { All (λ w. w.point.0 < point_count net.now) windows.now }
    ensures ok { OnOk result (out.new.items ≡ out.old.items ++ windows_part net.now windows.now) }
    ensures kept { HasFront out.old.items out.new.items }
{
    add_count(b"windows", windows.len(), out)?;
    for window in windows {
        add_window(net, *window, out)?;
    }
    Ok(())
}

/// Appends the line of a window.
fn add_window(net: &Network, window: Window3, out: &mut Vec<u8>) -> Result<(), OutOfMemory>
    requires point { window.point.0 < point_count net.now }
    ensures ok { OnOk result (out.new.items ≡ out.old.items ++ window_line net.now window) }
    ensures kept { HasFront out.old.items out.new.items }
{
    let name = net.point_name(window.point);
    let mut lo_digits = Buffer::new();
    let lo = lo_digits.format(window.lo).as_bytes();
    let mut hi_digits = Buffer::new();
    let hi = hi_digits.format(window.hi).as_bytes();
    add_line(out, b"window", &[name, lo, hi])
}
