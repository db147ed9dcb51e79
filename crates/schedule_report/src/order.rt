//! The points of an elimination order.
ghost use Rattle.std.specs.Prelude.{◌≡◌, ◌<◌, ◌++◌, OnOk, OnErr};
ghost use Rattle.std.specs.List.{All};
ghost use Rattle.net_text.specs.Plain.{HasFront};
ghost use Rattle.stn_model.specs.Net.{point_count};
ghost use Rattle.schedule_report.specs.Lines.{order_line};
ghost use Rattle.schedule_report.specs.Parts.{order_lines};

use crate::mark::whole_or_none;
use net_text::write::add_line;
use stn_model::{Kind, Network, OutOfMemory, PointId};

/// Appends the line `private NAME` or `shared NAME` for each point, by its kind in the network, in the order of the list. The reference
/// point has no line.
///
/// # Errors
/// `OutOfMemory` where the vector cannot grow. Then its bytes are those from before.
pub fn order_lines(net: &Network, order: &[PointId], out: &mut Vec<u8>) -> Result<(), OutOfMemory>
    requires points { All (λ p. p.0 < point_count net.now) order.now }
    ensures ok { OnOk result (out.new.items ≡ out.old.items ++ order_lines net.now order.now) }
    ensures err { OnErr result (out.new.items ≡ out.old.items) }
{
    let mark = out.len();
    let added = add_order(net, order, out);
    whole_or_none(added, mark, out)
}

/// Appends the lines of the points. After an `Err` some of them may stand there.
fn add_order(net: &Network, order: &[PointId], out: &mut Vec<u8>) -> Result<(), OutOfMemory>
    requires points { All (λ p. p.0 < point_count net.now) order.now }
    ensures ok { OnOk result (out.new.items ≡ out.old.items ++ order_lines net.now order.now) }
    ensures kept { HasFront out.old.items out.new.items }
{
    for point in order {
        add_point(net, *point, out)?;
    }
    Ok(())
}

/// Appends the line of a point, which is none for the reference point.
fn add_point(net: &Network, point: PointId, out: &mut Vec<u8>) -> Result<(), OutOfMemory>
    requires point { point.0 < point_count net.now }
    ensures ok { OnOk result (out.new.items ≡ out.old.items ++ order_line net.now point.0) }
    ensures kept { HasFront out.old.items out.new.items }
{
    let name = net.point_name(point);
    match net.kind(point) {
        Kind::Reference => Ok(()),
        Kind::Private => add_line(out, b"private", &[name]),
        Kind::Shared => add_line(out, b"shared", &[name]),
    }
}
