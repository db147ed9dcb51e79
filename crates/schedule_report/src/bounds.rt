//! Least bounds of pairs of points.
ghost use Rattle.std.specs.Prelude.{◌≡◌, ◌<◌, ◌++◌, ◌∷◌, [], codes, OnOk, OnErr, length};
ghost use Rattle.std.specs.List.{All, flat_map};
ghost use Rattle.std.specs.Fmt.{decimal};
ghost use Rattle.net_text.specs.Plain.{line, HasFront};
ghost use Rattle.stn_model.specs.Net.{point_count};
ghost use Rattle.schedule_report.specs.Lines.{least_line};
ghost use Rattle.schedule_report.specs.Parts.{bounds_part};

use crate::mark::whole_or_none;
use crate::words::add_count;
use itoa::Buffer;
use net_text::write::add_line;
use stn_model::{Network, OutOfMemory, PointId};

/// Appends the line `bounds COUNT`, and then `least FROM TO BOUND` for each entry `(from, to, bound)`, in the order of the list. Bounds are in
/// the network's unit of time.
///
/// # Errors
/// `OutOfMemory` where the vector cannot grow. Then its bytes are those from before.
pub fn bounds_part(
    net: &Network,
    edges: &[(PointId, PointId, i128)],
    out: &mut Vec<u8>,
) -> Result<(), OutOfMemory>
    requires from { All (λ e. e.0.0 < point_count net.now) edges.now }
    requires to { All (λ e. e.1.0 < point_count net.now) edges.now }
    ensures ok { OnOk result (out.new.items ≡ out.old.items ++ bounds_part net.now edges.now) }
    ensures err { OnErr result (out.new.items ≡ out.old.items) }
{
    let mark = out.len();
    let added = add_bounds(net, edges, out);
    whole_or_none(added, mark, out)
}

/// Appends a bounds part. After an `Err` some of it may stand there.
fn add_bounds(
    net: &Network,
    edges: &[(PointId, PointId, i128)],
    out: &mut Vec<u8>,
) -> Result<(), OutOfMemory>
    requires from { All (λ e. e.0.0 < point_count net.now) edges.now }
    requires to { All (λ e. e.1.0 < point_count net.now) edges.now }
    ensures ok { OnOk result (out.new.items ≡ out.old.items ++ bounds_part net.now edges.now) }
    ensures kept { HasFront out.old.items out.new.items }
{
    add_count(b"bounds", edges.len(), out)?;
    for edge in edges {
        add_least(net, *edge, out)?;
    }
    Ok(())
}

/// Appends the line of a least bound.
fn add_least(
    net: &Network,
    edge: (PointId, PointId, i128),
    out: &mut Vec<u8>,
) -> Result<(), OutOfMemory>
    requires from { edge.0.0 < point_count net.now }
    requires to { edge.1.0 < point_count net.now }
    ensures ok { OnOk result (out.new.items ≡ out.old.items ++ least_line net.now edge.0.0 edge.1.0 edge.2) }
    ensures kept { HasFront out.old.items out.new.items }
{
    let (from, to, bound) = edge;
    let mut digits = Buffer::new();
    let bound = digits.format(bound).as_bytes();
    add_line(
        out,
        b"least",
        &[net.point_name(from), net.point_name(to), bound],
    )
}
