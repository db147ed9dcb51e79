//! Walks and cycles by their arcs.
ghost use Rattle.std.specs.Prelude.{◌≡◌, ◌<◌, ◌++◌, ◌∷◌, [], codes, OnOk, OnErr, length};
ghost use Rattle.std.specs.List.{All};
ghost use Rattle.std.specs.Fmt.{decimal, signed_decimal};
ghost use Rattle.net_text.specs.Plain.{line, HasFront};
ghost use Rattle.stn_model.specs.Net.{arcs_of};
ghost use Rattle.schedule_report.specs.Lines.{arc_line};
ghost use Rattle.schedule_report.specs.Parts.{arc_lines, cycle_part};

use crate::mark::whole_or_none;
use itoa::Buffer;
use net_text::write::add_line;
use stn_model::{Network, OutOfMemory};
use stn_walk::Walk;

/// Appends the cycle part of a walk: the line `cycle SUM LENGTH`, and then `arc N FROM TO BOUND` for each of its arcs, in order. The sum is
/// written as given; that it is the walk's weight, in the network's unit of time, is the caller's word.
///
/// # Errors
/// `OutOfMemory` where the vector cannot grow. Then its bytes are those from before.
pub fn cycle_part(
    net: &Network,
    walk: &Walk,
    sum: i128,
    out: &mut Vec<u8>,
) -> Result<(), OutOfMemory>
    requires arcs { All (λ n. n < length (arcs_of net.now)) walk.now }
    ensures ok { OnOk result (out.new.items ≡ out.old.items ++ cycle_part net.now walk.now sum) }
    ensures err { OnErr result (out.new.items ≡ out.old.items) }
{
    let mark = out.len();
    let added = add_cycle(net, walk, sum, out);
    whole_or_none(added, mark, out)
}

/// Appends a cycle part. After an `Err` some of it may stand there.
fn add_cycle(net: &Network, walk: &Walk, sum: i128, out: &mut Vec<u8>) -> Result<(), OutOfMemory>
    requires arcs { All (λ n. n < length (arcs_of net.now)) walk.now }
    ensures ok { OnOk result (out.new.items ≡ out.old.items ++ cycle_part net.now walk.now sum) }
    ensures kept { HasFront out.old.items out.new.items }
{
    add_sum(sum, walk.arcs().len(), out)?;
    add_arcs(net, walk.arcs(), out)
}

/// Appends the first line of a cycle part.
fn add_sum(sum: i128, length: usize, out: &mut Vec<u8>) -> Result<(), OutOfMemory>
    ensures ok { OnOk result (out.new.items ≡ out.old.items ++ line (codes "cycle") (signed_decimal sum ∷ decimal length ∷ [])) }
    ensures kept { HasFront out.old.items out.new.items }
{
    let mut sum_digits = Buffer::new();
    let sum = sum_digits.format(sum).as_bytes();
    let mut length_digits = Buffer::new();
    let length = length_digits.format(length).as_bytes();
    add_line(out, b"cycle", &[sum, length])
}

/// Appends the lines of these arcs. After an `Err` some of them may stand there.
pub fn add_arcs(net: &Network, arcs: &[u32], out: &mut Vec<u8>) -> Result<(), OutOfMemory>
    requires arcs { All (λ n. n < length (arcs_of net.now)) arcs.now }
    ensures ok { OnOk result (out.new.items ≡ out.old.items ++ arc_lines net.now arcs.now) }
    ensures kept { HasFront out.old.items out.new.items }
{
    for number in arcs {
        add_arc(net, *number, out)?;
    }
    Ok(())
}

/// Appends the line of an arc.
fn add_arc(net: &Network, number: u32, out: &mut Vec<u8>) -> Result<(), OutOfMemory>
    requires { number < length (arcs_of net.now) }
    ensures ok { OnOk result (out.new.items ≡ out.old.items ++ arc_line net.now number) }
    ensures kept { HasFront out.old.items out.new.items }
{
    let arc = net.arc(number);
    let from = net.point_name(arc.from);
    let to = net.point_name(arc.to);
    let mut number_digits = Buffer::new();
    let number = number_digits.format(number).as_bytes();
    let mut bound_digits = Buffer::new();
    let bound = bound_digits.format(arc.bound).as_bytes();
    add_line(out, b"arc", &[number, from, to, bound])
}
