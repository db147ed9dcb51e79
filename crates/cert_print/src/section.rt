//! The section of a certificate that proves the least bounds from one point.
ghost use Rattle.std.specs.Prelude.{◌≡◌, ◌≢◌, ◌++◌, ◌<◌, length, OnOk, OnErr};
ghost use Rattle.std.specs.List.{flat_map};
ghost use Rattle.net_text.specs.Plain.{HasFront};
ghost use Rattle.cert_print.specs.Texts.{distance_line, section_text};
ghost use Rattle.cert_print.specs.Sections.{ListsWithin};

use itoa::Buffer;
use net_text::write::add_line;
use plain_solve::FromPoint;
use std::vec::Vec;
use stn_model::{OutOfMemory, PointId};

/// Appends a section: the line of its source, a line for each other point, in an order in which each last arc starts at the source or at an earlier point, and the line that ends it.
///
/// # Errors
/// `OutOfMemory` where the vector cannot grow. Then what stood in it still stands at its front.
pub fn add_section(source: PointId, walks: &FromPoint, out: &mut Vec<u8>) -> Result<(), OutOfMemory>
    requires source { walks.now.source ≡ source.0 }
    requires listed { ListsWithin walks.now }
    ensures ok { OnOk result (out.new.items ≡ out.old.items ++ section_text walks.now) }
    ensures err { OnErr result (HasFront out.old.items out.new.items) }
{
    let mut digits = Buffer::new();
    let number = digits.format(source.0).as_bytes();
    add_line(out, b"from", &[number])?;
    add_distances(walks, out)?;
    add_line(out, b"holds", &[])?;
    Ok(())
}

/// Appends a line for each point of the order.
fn add_distances(walks: &FromPoint, out: &mut Vec<u8>) -> Result<(), OutOfMemory>
    requires { ListsWithin walks.now }
    ensures ok { OnOk result (out.new.items ≡ out.old.items ++ flat_map (distance_line walks.now) walks.now.order) }
    ensures err { OnErr result (HasFront out.old.items out.new.items) }
{
    for point in walks.order() {
        add_distance(walks, *point, out)?;
    }
    Ok(())
}

/// Appends the line of a point: its number, its distance, and the arc by which a walk of that weight comes to it.
fn add_distance(walks: &FromPoint, point: PointId, out: &mut Vec<u8>) -> Result<(), OutOfMemory>
    requires within { point.0 < length walks.now.distances }
    requires other { point.0 ≢ walks.now.source }
    ensures ok { OnOk result (out.new.items ≡ out.old.items ++ distance_line walks.now point) }
    ensures err { OnErr result (HasFront out.old.items out.new.items) }
{
    let mut to_digits = Buffer::new();
    let mut distance_digits = Buffer::new();
    let mut arc_digits = Buffer::new();
    let to = to_digits.format(point.0).as_bytes();
    let distance = distance_digits.format(walks.dist(point)).as_bytes();
    let arc = arc_digits.format(walks.last_arc(point)).as_bytes();
    add_line(out, b"to", &[to, distance, arc])?;
    Ok(())
}
