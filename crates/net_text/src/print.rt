//! Printing a network in its plain form.
ghost use Rattle.std.specs.Prelude.{◌≡◌, ◌↔◌, ℕ, ◌+◌, ◌-◌, ◌<◌, ◌++◌, ◌∷◌, [], codes, IsTrue, IfOk, OnOk, OnErr, length, slice_index_or};
ghost use Rattle.std.specs.Fmt.{signed_decimal};
ghost use Rattle.std.specs.List.{flat_map};
ghost use Rattle.stn_model.specs.Net.{no_agent, no_place, no_act, point_count};
ghost use Rattle.stn_model.specs.Valid.{IsNetwork, IsArcWithin};
ghost use Rattle.net_text.specs.Laws.{IsReadBack, IsReadBackIn};
ghost use Rattle.net_text.specs.Plain.{line, agent_line, point_line, act_line, place_lines, places_left, StartsAt, arc_line, plain_text, plain_form, plain_form2, HasFront};
ghost use Rattle.net_text.specs.Versions.{version_word};
ghost use Rattle.net_text.specs.Words.{lean_word};

use crate::arcs::fixed_arcs;
use crate::version::{Version, least_version};
use crate::write::add_line;
use itoa::Buffer;
use std::vec::Vec;
use stn_model::{AgentId, Constraint, Lean, Network, OutOfMemory, PointId};

/// Room for a line, in bytes: most lines are shorter.
const LINE_ROOM: usize = 24;

/// Appends the plain form of a network: the header, the horizon, each agent with its lean, each point and each act (in place of its two
/// points), each given arc, and `end`. The header is `mastn 1` exactly where there is no act and there are at most 4,096 points, and else
/// `mastn 2`. That form, with anything after it, is read as an equal network.
///
/// # Errors
/// `OutOfMemory` where the vector cannot grow. Then its bytes are those from before.
pub fn print_net(net: &Network, out: &mut Vec<u8>) -> Result<(), OutOfMemory>
    ensures ok { OnOk result (out.new.items ≡ out.old.items ++ plain_form net.now) }
    ensures read_back { IsReadBack net.now }
    ensures err { OnErr result (out.new.items ≡ out.old.items) }
{
    let version = least_version(net);
    print_in(version, net, out)
}

/// Appends the plain form of a network with the header `mastn 2`. That form, with anything after it, is read as an equal network.
///
/// # Errors
/// `OutOfMemory` where the vector cannot grow. Then its bytes are those from before.
pub fn print_net2(net: &Network, out: &mut Vec<u8>) -> Result<(), OutOfMemory>
    ensures ok { OnOk result (out.new.items ≡ out.old.items ++ plain_form2 net.now) }
    ensures read_back { IsReadBackIn Version.Two net.now }
    ensures err { OnErr result (out.new.items ≡ out.old.items) }
{
    print_in(Version::Two, net, out)
}

/// Appends the plain form of a network with the header of that version. After an `Err` the bytes are those from before.
fn print_in(version: Version, net: &Network, out: &mut Vec<u8>) -> Result<(), OutOfMemory>
    ensures valid { IsNetwork net.now }
    ensures ok { OnOk result (out.new.items ≡ out.old.items ++ plain_text version net.now) }
    ensures err { OnErr result (out.new.items ≡ out.old.items) }
{
    let mark = out.len();
    let Ok(()) = add_net(version, net, out) else {
        out.truncate(mark);
        return Err(OutOfMemory);
    };
    Ok(())
}

/// Appends the plain form. After an `Err` a part of it may stand there.
fn add_net(version: Version, net: &Network, out: &mut Vec<u8>) -> Result<(), OutOfMemory>
    ensures valid { IsNetwork net.now }
    ensures ok { OnOk result (out.new.items ≡ out.old.items ++ plain_text version net.now) }
    ensures err { OnErr result (HasFront out.old.items out.new.items) }
{
    out.reserve(LINE_ROOM * (net.agents() + net.arcs()) as usize)?;
    add_header(version, out)?;
    add_horizon(net.horizon(), out)?;
    add_agents(net, out)?;
    add_places(net, out)?;
    add_arcs(net, out)?;
    add_line(out, b"end", &[])?;
    Ok(())
}

/// Appends the header of a version.
fn add_header(version: Version, out: &mut Vec<u8>) -> Result<(), OutOfMemory>
    ensures ok { OnOk result (out.new.items ≡ out.old.items ++ line (codes "mastn") (version_word version ∷ [])) }
    ensures err { OnErr result (HasFront out.old.items out.new.items) }
{
    match version {
        Version::One => add_line(out, b"mastn", &[b"1"]),
        Version::Two => add_line(out, b"mastn", &[b"2"]),
    }
}

/// Appends the line of a horizon.
fn add_horizon(horizon: i64, out: &mut Vec<u8>) -> Result<(), OutOfMemory>
    ensures ok { OnOk result (out.new.items ≡ out.old.items ++ line (codes "horizon") (signed_decimal horizon ∷ [])) }
    ensures err { OnErr result (HasFront out.old.items out.new.items) }
{
    let mut digits = Buffer::new();
    let horizon = digits.format(horizon).as_bytes();
    add_line(out, b"horizon", &[horizon])?;
    Ok(())
}

/// Appends a line for each agent.
fn add_agents(net: &Network, out: &mut Vec<u8>) -> Result<(), OutOfMemory>
    ensures ok { OnOk result (out.new.items ≡ out.old.items ++ flat_map agent_line net.now.agents) }
    ensures err { OnErr result (HasFront out.old.items out.new.items) }
{
    for number in 0..net.agents() {
        add_agent(net, AgentId(number), out)?;
    }
    Ok(())
}

/// Appends the line of an agent.
fn add_agent(net: &Network, agent: AgentId, out: &mut Vec<u8>) -> Result<(), OutOfMemory>
    requires { agent.0 < length net.now.agents }
    ensures ok { OnOk result (out.new.items ≡ out.old.items ++ agent_line (slice_index_or net.now.agents agent.0 no_agent)) }
    ensures err { OnErr result (HasFront out.old.items out.new.items) }
{
    let name = net.agent_name(agent);
    let lean = lean_word(net.lean(agent));
    add_line(out, b"agent", &[name, lean])?;
    Ok(())
}

/// The next point whose line is to be written, and the next act.
#[derive(Clone, Copy)]
struct Place {
    point: u32,
    act: u32,
}

/// Appends a line for each point but the reference point, and for each act in place of its two points.
fn add_places(net: &Network, out: &mut Vec<u8>) -> Result<(), OutOfMemory>
    ensures ok { OnOk result (out.new.items ≡ out.old.items ++ place_lines net.now 1 net.now.places net.now.acts) }
    ensures err { OnErr result (HasFront out.old.items out.new.items) }
{
    let mut place = Place { point: 1, act: 0 };
    while place.point < net.points() {
        place = add_place(net, place, out)?;
    }
    Ok(())
}

/// Appends the next line of a point or an act, and gives the place after it.
fn add_place(net: &Network, place: Place, out: &mut Vec<u8>) -> Result<Place, OutOfMemory>
    requires not_z { 0 < place.point }
    requires in_net { place.point < point_count net.now }
    requires valid { IsNetwork net.now }
    ensures moves { IfOk result (λ next. place.point < next.point) }
    ensures ok { IfOk result (λ next. out.new.items ++ places_left net.now next.point next.act ≡ out.old.items ++ places_left net.now place.point place.act) }
    ensures kept { HasFront out.old.items out.new.items }
{
    if starts_here(net, place) {
        add_act(net, place, out)?;
        return Ok(Place {
            point: place.point + 2,
            act: place.act + 1,
        });
    }
    add_point(net, PointId(place.point), out)?;
    Ok(Place {
        point: place.point + 1,
        act: place.act,
    })
}

/// Whether the next act starts at the next point.
fn starts_here(net: &Network, place: Place) -> bool
    ensures { IsTrue result ↔ StartsAt net.now.acts place.act place.point }
{
    place.act < net.acts() && net.act(place.act).start.0 == place.point
}

/// Appends the line of the next act, which starts at the next point.
fn add_act(net: &Network, place: Place, out: &mut Vec<u8>) -> Result<(), OutOfMemory>
    requires starts { StartsAt net.now.acts place.act place.point }
    requires valid { IsNetwork net.now }
    ensures there { place.point + 1 < point_count net.now }
    ensures ok { OnOk result (out.new.items ≡ out.old.items ++ act_line net.now (slice_index_or net.now.places (place.point - 1) no_place) (slice_index_or net.now.acts place.act no_act)) }
    ensures err { OnErr result (HasFront out.old.items out.new.items) }
{
    let act = net.act(place.act);
    let Some(owner) = net.owner(act.start) else {
        unreachable!();
    };
    let start = net.point_name(act.start);
    let name = &start[..start.len() - 2];
    add_act_fields(net.agent_name(owner), name, act.low, act.high, out)?;
    Ok(())
}

/// Appends the line of an act, by its fields.
fn add_act_fields(
    agent: &[u8],
    name: &[u8],
    low: i64,
    high: i64,
    out: &mut Vec<u8>,
) -> Result<(), OutOfMemory>
    ensures ok { OnOk result (out.new.items ≡ out.old.items ++ line (codes "act") (agent.now ∷ name.now ∷ signed_decimal low ∷ signed_decimal high ∷ [])) }
    ensures err { OnErr result (HasFront out.old.items out.new.items) }
{
    let mut low_digits = Buffer::new();
    let low = low_digits.format(low).as_bytes();
    let mut high_digits = Buffer::new();
    let high = high_digits.format(high).as_bytes();
    add_line(out, b"act", &[agent, name, low, high])?;
    Ok(())
}

/// Appends the line of a point.
fn add_point(net: &Network, point: PointId, out: &mut Vec<u8>) -> Result<(), OutOfMemory>
    requires not_z { 0 < point.0 }
    requires in_net { point.0 < point_count net.now }
    requires valid { IsNetwork net.now }
    ensures ok { OnOk result (out.new.items ≡ out.old.items ++ point_line net.now (slice_index_or net.now.places (point.0 - 1) no_place)) }
    ensures err { OnErr result (HasFront out.old.items out.new.items) }
{
    let Some(owner) = net.owner(point) else {
        unreachable!();
    };
    add_line(
        out,
        b"point",
        &[net.agent_name(owner), net.point_name(point)],
    )?;
    Ok(())
}

/// Appends a line for each given arc.
fn add_arcs(net: &Network, out: &mut Vec<u8>) -> Result<(), OutOfMemory>
    ensures ok { OnOk result (out.new.items ≡ out.old.items ++ flat_map (arc_line net.now) net.now.given) }
    ensures err { OnErr result (HasFront out.old.items out.new.items) }
{
    let first = fixed_arcs(net);
    for given in 0..net.arcs() - first {
        add_arc(net, net.arc(first + given), out)?;
    }
    Ok(())
}

/// Appends the line of an arc.
fn add_arc(net: &Network, arc: Constraint, out: &mut Vec<u8>) -> Result<(), OutOfMemory>
    requires { IsArcWithin (point_count net.now) arc }
    ensures ok { OnOk result (out.new.items ≡ out.old.items ++ arc_line net.now arc) }
    ensures err { OnErr result (HasFront out.old.items out.new.items) }
{
    let mut digits = Buffer::new();
    let bound = digits.format(arc.bound).as_bytes();
    let from = net.point_name(arc.from);
    let to = net.point_name(arc.to);
    add_line(out, b"arc", &[from, to, bound])?;
    Ok(())
}

/// The word of a lean.
fn lean_word<'a>(lean: Lean) -> &'a [u8]
    ensures { result.now ≡ lean_word lean }
{
    match lean {
        Lean::Early => b"early",
        Lean::Late => b"late",
        Lean::Middle => b"middle",
    }
}

#[cfg(test)]
mod tests {
    use super::*;
    use std::alloc::Global;
    use std::test::Fail;
    use stn_model::NetError;

    const HANDOVER: &[u8] =
        b"mastn 1\nhorizon 100\nagent ann early\nagent bob early\npoint ann a1\npoint ann a2\npoint bob b1\npoint bob b2\narc z a1 20\narc a1 a2 40\narc a2 a1 -30\narc a2 b1 5\narc b1 a2 0\narc b1 b2 20\narc b2 b1 -10\nend\n";

    fn add_point(
        net: &mut Network,
        alloc: Global,
        agent: u32,
        name: &[u8],
    ) -> Result<(), NetError> {
        if agent < net.agents() {
            net.add_point(alloc, AgentId(agent), name)?;
        }
        Ok(())
    }

    fn add_arc(net: &mut Network, from: u32, to: u32, bound: i64) -> Result<(), NetError> {
        if from < net.points() && to < net.points() {
            net.add_arc(PointId(from), PointId(to), bound)?;
        }
        Ok(())
    }

    fn handover(alloc: Global) -> Result<Network, NetError> {
        let mut net = Network::new(alloc, 100)?;
        net.add_agent(alloc, b"ann", Lean::Early)?;
        net.add_agent(alloc, b"bob", Lean::Early)?;
        add_point(&mut net, alloc, 0, b"a1")?;
        add_point(&mut net, alloc, 0, b"a2")?;
        add_point(&mut net, alloc, 1, b"b1")?;
        add_point(&mut net, alloc, 1, b"b2")?;
        for (from, to, bound) in [
            (0, 1, 20),
            (1, 2, 40),
            (2, 1, -30),
            (2, 3, 5),
            (3, 2, 0),
            (3, 4, 20),
            (4, 3, -10),
        ] {
            add_arc(&mut net, from, to, bound)?;
        }
        Ok(net)
    }

    #[test]
    fn prints_the_plain_form_after_what_is_there(rt: HostRuntime) -> Result<(), Fail> {
        let net = handover(rt.alloc())?;
        let mut out = Vec::from_slice(rt.alloc(), b"# before\n")?;
        print_net(&net, &mut out)?;
        let mut want = Vec::from_slice(rt.alloc(), b"# before\n")?;
        want.extend_from_slice(HANDOVER)?;
        assert_eq!(rt; out.as_slice(), want.as_slice());
        Ok(())
    }
}
