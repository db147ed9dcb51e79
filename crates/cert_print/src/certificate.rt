//! Certificates, of consistent networks and of others.
ghost use Rattle.std.specs.Prelude.{◌≡◌, ◌+◌, ◌++◌, ◌<◌, ◌∷◌, [], map, codes, OnOk, OnErr};
ghost use Rattle.std.specs.Fmt.{decimal};
ghost use Rattle.stn_model.specs.Net.{arcs_of, point_count};
ghost use Rattle.stn_model.specs.Schedules.{Satisfies};
ghost use Rattle.stn_model.specs.Valid.{IsNetwork};
ghost use Rattle.stn_model.specs.Walks.{IsNegativeCycle, IsNormal};
ghost use Rattle.net_text.specs.Plain.{line, HasFront};
ghost use Rattle.plain_solve.specs.Served.{Serves};
ghost use Rattle.cert_print.specs.Leads.{WritesSections, Certifies};
ghost use Rattle.cert_print.specs.Texts.{numbers_text};

use crate::section::add_section;
use itoa::Buffer;
use net_text::write::{add_field, add_line};
use plain_solve::{Plain, Sources, plain_solve};
use std::alloc::Global;
use std::vec::Vec;
use stn_model::{Network, OutOfMemory, PointId, Schedule};

/// Appends a certificate of a network, which the checker of certificates accepts.
///
/// Where some schedule satisfies the network, it is a section for each point, which proves the least bounds from it (Dechter, Meiri and Pearl 1991). Where none does, it is a negative cycle.
///
/// # Errors
/// `OutOfMemory` where memory ran out. Then the vector's bytes are those from before.
pub fn print_certificate(alloc: Global, net: &Network, out: &mut Vec<u8>) -> Result<(), OutOfMemory>
    ensures ok { OnOk result (Certifies net.now out.old.items out.new.items) }
    ensures err { OnErr result (out.new.items ≡ out.old.items) }
{
    let mark = out.len();
    let Ok(()) = add_certificate(alloc, net, out) else {
        out.truncate(mark);
        return Err(OutOfMemory);
    };
    Ok(())
}

/// Appends a certificate. After an `Err` a part of it may stand there.
fn add_certificate(alloc: Global, net: &Network, out: &mut Vec<u8>) -> Result<(), OutOfMemory>
    ensures ok { OnOk result (Certifies net.now out.old.items out.new.items) }
    ensures err { OnErr result (HasFront out.old.items out.new.items) }
{
    match plain_solve(alloc, net)? {
        Plain::Consistent(schedule) => {
            add_consistent(alloc, net, &schedule, out)?;
            Ok(())
        }
        Plain::Inconsistent(walk) => {
            add_inconsistent(net, walk.arcs(), out)?;
            Ok(())
        }
    }
}

/// Appends the certificate of a network that some schedule satisfies.
fn add_consistent(
    alloc: Global,
    net: &Network,
    schedule: &Schedule,
    out: &mut Vec<u8>,
) -> Result<(), OutOfMemory>
    requires { Satisfies (point_count net.now) (arcs_of net.now) schedule.now }
    ensures ok { OnOk result (Certifies net.now out.old.items out.new.items) }
    ensures err { OnErr result (HasFront out.old.items out.new.items) }
{
    let mut sources = Sources::of(alloc, net, schedule)?;
    add_line(out, b"mastncert", &[b"1"])?;
    add_count(net.points(), out)?;
    add_sections(alloc, net, &mut sources, out)?;
    add_line(out, b"end", &[])?;
    Ok(())
}

/// Appends the line that tells how many points the network has.
fn add_count(points: u32, out: &mut Vec<u8>) -> Result<(), OutOfMemory>
    ensures ok { OnOk result (out.new.items ≡ out.old.items ++ line (codes "consistent") (decimal points ∷ [])) }
    ensures err { OnErr result (HasFront out.old.items out.new.items) }
{
    let mut digits = Buffer::new();
    let count = digits.format(points).as_bytes();
    add_line(out, b"consistent", &[count])?;
    Ok(())
}

/// Appends a section for each point, in the order of their numbers.
fn add_sections(
    alloc: Global,
    net: &Network,
    sources: &mut Sources,
    out: &mut Vec<u8>,
) -> Result<(), OutOfMemory>
    requires { Serves net.now sources.old }
    ensures ok { OnOk result (WritesSections net.now 0 (point_count net.now) out.old.items out.new.items) }
    ensures err { OnErr result (HasFront out.old.items out.new.items) }
{
    for number in 0..net.points() {
        add_section_from(alloc, net, sources, PointId(number), out)?;
    }
    Ok(())
}

/// Appends the section of a point.
fn add_section_from(
    alloc: Global,
    net: &Network,
    sources: &mut Sources,
    source: PointId,
    out: &mut Vec<u8>,
) -> Result<(), OutOfMemory>
    requires within { source.0 < point_count net.now }
    requires valid { IsNetwork net.now }
    requires serves { Serves net.now sources.old }
    ensures serves { Serves net.now sources.new }
    ensures ok { OnOk result (WritesSections net.now source.0 (source.0 + 1) out.old.items out.new.items) }
    ensures err { OnErr result (HasFront out.old.items out.new.items) }
{
    let walks = sources.walks_from(alloc, net, source)?;
    add_section(source, &walks, out)?;
    Ok(())
}

/// Appends the certificate of a network that no schedule satisfies: a negative cycle, its least arc first.
fn add_inconsistent(net: &Network, cycle: &[u32], out: &mut Vec<u8>) -> Result<(), OutOfMemory>
    requires negative { IsNegativeCycle (arcs_of net.now) cycle.now }
    requires normal { IsNormal cycle.now }
    ensures ok { OnOk result (Certifies net.now out.old.items out.new.items) }
    ensures err { OnErr result (HasFront out.old.items out.new.items) }
{
    let _points = net.points();
    add_line(out, b"mastncert", &[b"1"])?;
    add_line(out, b"inconsistent", &[])?;
    add_cycle(cycle, out)?;
    add_line(out, b"end", &[])?;
    Ok(())
}

/// Appends the line of a cycle.
fn add_cycle(cycle: &[u32], out: &mut Vec<u8>) -> Result<(), OutOfMemory>
    ensures ok { OnOk result (out.new.items ≡ out.old.items ++ line (codes "cycle") (map decimal cycle.now)) }
    ensures err { OnErr result (HasFront out.old.items out.new.items) }
{
    out.extend_from_slice(b"cycle")?;
    add_numbers(cycle, out)?;
    out.push(b'\n')?;
    Ok(())
}

/// Appends numbers, each with one space before it.
fn add_numbers(numbers: &[u32], out: &mut Vec<u8>) -> Result<(), OutOfMemory>
    ensures ok { OnOk result (out.new.items ≡ out.old.items ++ numbers_text numbers.now) }
    ensures err { OnErr result (HasFront out.old.items out.new.items) }
{
    for number in numbers {
        let mut digits = Buffer::new();
        add_field(out, digits.format(*number).as_bytes())?;
    }
    Ok(())
}
