//! A least bound with its walk and a schedule that attains it.
ghost use Rattle.std.specs.Prelude.{◌≡◌, ◌<◌, ◌++◌, ◌∷◌, [], codes, OnOk, OnErr, length};
ghost use Rattle.std.specs.List.{All};
ghost use Rattle.std.specs.Fmt.{decimal, signed_decimal};
ghost use Rattle.net_text.specs.Plain.{line, HasFront};
ghost use Rattle.stn_model.specs.Net.{arcs_of, point_count, point_name_of};
ghost use Rattle.schedule_report.specs.Parts.{prove_part};

use crate::cycle::add_arcs;
use crate::mark::whole_or_none;
use crate::times::add_times;
use itoa::Buffer;
use net_text::write::add_line;
use stn_model::{Network, OutOfMemory, PointId, Schedule};
use stn_walk::Walk;

/// Appends the line `prove FROM TO BOUND LENGTH`, `arc N FROM TO BOUND` for each arc of the walk, in order, and the time part of the schedule.
/// The bound is written as given, in the network's unit of time; LENGTH is how many arcs the walk has.
///
/// # Errors
/// `OutOfMemory` where the vector cannot grow. Then its bytes are those from before.
pub fn prove_part(
    net: &Network,
    from: PointId,
    to: PointId,
    bound: i128,
    walk: &Walk,
    schedule: &Schedule,
    out: &mut Vec<u8>,
) -> Result<(), OutOfMemory>
    requires from { from.0 < point_count net.now }
    requires to { to.0 < point_count net.now }
    requires arcs { All (λ n. n < length (arcs_of net.now)) walk.now }
    requires one_each { length schedule.now ≡ point_count net.now }
    ensures ok { OnOk result (out.new.items ≡ out.old.items ++ prove_part net.now from.0 to.0 bound walk.now schedule.now) }
    ensures err { OnErr result (out.new.items ≡ out.old.items) }
{
    let mark = out.len();
    let added = add_proof(net, from, to, bound, walk, schedule, out);
    whole_or_none(added, mark, out)
}

/// Appends a proof part. After an `Err` some of it may stand there.
fn add_proof(
    net: &Network,
    from: PointId,
    to: PointId,
    bound: i128,
    walk: &Walk,
    schedule: &Schedule,
    out: &mut Vec<u8>,
) -> Result<(), OutOfMemory>
    requires from { from.0 < point_count net.now }
    requires to { to.0 < point_count net.now }
    requires arcs { All (λ n. n < length (arcs_of net.now)) walk.now }
    requires one_each { length schedule.now ≡ point_count net.now }
    ensures ok { OnOk result (out.new.items ≡ out.old.items ++ prove_part net.now from.0 to.0 bound walk.now schedule.now) }
    ensures kept { HasFront out.old.items out.new.items }
{
    let arcs = walk.arcs();
    add_bound(net, from, to, bound, arcs.len(), out)?;
    add_arcs(net, arcs, out)?;
    add_times(net, schedule, out)
}

/// Appends the first line of a proof part.
fn add_bound(
    net: &Network,
    from: PointId,
    to: PointId,
    bound: i128,
    length: usize,
    out: &mut Vec<u8>,
) -> Result<(), OutOfMemory>
    requires from { from.0 < point_count net.now }
    requires to { to.0 < point_count net.now }
    ensures ok { OnOk result (out.new.items ≡ out.old.items
        ++ line (codes "prove") (point_name_of net.now from.0 ∷ point_name_of net.now to.0 ∷ signed_decimal bound ∷ decimal length ∷ [])) }
    ensures kept { HasFront out.old.items out.new.items }
{
    let from = net.point_name(from);
    let to = net.point_name(to);
    let mut bound_digits = Buffer::new();
    let bound = bound_digits.format(bound).as_bytes();
    let mut length_digits = Buffer::new();
    let length = length_digits.format(length).as_bytes();
    add_line(out, b"prove", &[from, to, bound, length])
}
