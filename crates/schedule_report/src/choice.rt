//! Times that are chosen.
ghost use Rattle.std.specs.Prelude.{◌≡◌, ◌<◌, ◌++◌, OnOk, OnErr};
ghost use Rattle.net_text.specs.Plain.{HasFront};
ghost use Rattle.stn_model.specs.Net.{point_count};
ghost use Rattle.schedule_report.specs.Lines.{choice_line};

use crate::mark::whole_or_none;
use itoa::Buffer;
use net_text::write::add_line;
use stn_model::{Network, OutOfMemory, PointId};

/// Appends the line `set NAME T`; or `outside NAME T LO HI` where the time is outside a window `(lo, hi)`. Times are in the network's unit.
///
/// # Errors
/// `OutOfMemory` where the vector cannot grow. Then its bytes are those from before.
pub fn choice_line(
    net: &Network,
    point: PointId,
    time: i128,
    outside: Option<(i128, i128)>,
    out: &mut Vec<u8>,
) -> Result<(), OutOfMemory>
    requires point { point.0 < point_count net.now }
    ensures ok { OnOk result (out.new.items ≡ out.old.items ++ choice_line net.now point.0 time outside) }
    ensures err { OnErr result (out.new.items ≡ out.old.items) }
{
    let mark = out.len();
    let added = add_choice(net, point, time, outside, out);
    whole_or_none(added, mark, out)
}

/// Appends the line of a chosen time. After an `Err` some of it may stand there.
fn add_choice(
    net: &Network,
    point: PointId,
    time: i128,
    outside: Option<(i128, i128)>,
    out: &mut Vec<u8>,
) -> Result<(), OutOfMemory>
    requires point { point.0 < point_count net.now }
    ensures ok { OnOk result (out.new.items ≡ out.old.items ++ choice_line net.now point.0 time outside) }
    ensures kept { HasFront out.old.items out.new.items }
{
    let name = net.point_name(point);
    let mut time_digits = Buffer::new();
    let time = time_digits.format(time).as_bytes();
    let Some((lo, hi)) = outside else {
        return add_line(out, b"set", &[name, time]);
    };
    let mut lo_digits = Buffer::new();
    let lo = lo_digits.format(lo).as_bytes();
    let mut hi_digits = Buffer::new();
    let hi = hi_digits.format(hi).as_bytes();
    add_line(out, b"outside", &[name, time, lo, hi])
}
