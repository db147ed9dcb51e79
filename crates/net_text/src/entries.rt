//! What the lines of a network text add to the network.
ghost use Rattle.std.specs.Prelude.{◌≡◌, ◌<◌, ◌∷◌, [], neg_ℤ, false, length, Ok};
ghost use Rattle.stn_model.specs.Net.{point_count};
ghost use Rattle.stn_model.specs.Refusals.{is_beyond};
ghost use Rattle.net_text.specs.Networks.{add_agent, add_point, add_act, add_bound, add_arc, with_arcs, arc_between};
ghost use Rattle.net_text.specs.Adding.{Adds};

use crate::arcs::{counted_arcs, is_beyond};
use crate::cause::TextCause;
use crate::refusal::{Refusal, refused};
use crate::version::{Version, is_full_in};
use std::alloc::Global;
use stn_model::{AgentId, Lean, MOST_ARCS, Network, PointId};

/// Adds an agent.
pub fn add_agent(alloc: Global, net: &mut Network, name: &[u8], lean: Lean) -> Result<(), Refusal>
    ensures { Adds (add_agent net.old name.now lean) result net.new }
{
    if let Err(error) = net.add_agent(alloc, name, lean) {
        return Err(refused(error));
    }
    Ok(())
}

/// Adds a point of an agent. Each version of a text has its own limit of points; after a refusal the network serves no more.
pub fn add_point(
    alloc: Global,
    version: Version,
    net: &mut Network,
    agent: AgentId,
    name: &[u8],
) -> Result<(), Refusal>
    requires { agent.0 < length net.old.agents }
    ensures { Adds (add_point version net.old agent.0 name.now) result net.new }
{
    let full = is_full_in(version, net);
    if let Err(error) = net.add_point(alloc, agent, name) {
        return Err(refused(error));
    }
    if full {
        return Err(Refusal::Fails(TextCause::TooManyPoints));
    }
    Ok(())
}

/// Adds an act of an agent.
pub fn add_act(
    alloc: Global,
    net: &mut Network,
    agent: AgentId,
    name: &[u8],
    low: i64,
    high: i64,
) -> Result<(), Refusal>
    requires { agent.0 < length net.old.agents }
    ensures { Adds (add_act net.old agent.0 name.now low high) result net.new }
{
    if let Err(error) = net.add_act(alloc, agent, name, low, high) {
        return Err(refused(error));
    }
    Ok(())
}

/// Adds an arc.
pub fn add_arc(net: &mut Network, from: PointId, to: PointId, bound: i64) -> Result<(), Refusal>
    requires from_in { from.0 < point_count net.old }
    requires to_in { to.0 < point_count net.old }
    ensures { Adds (add_arc net.old from.0 to.0 bound) result net.new }
{
    if let Err(error) = net.add_arc(from, to, bound) {
        return Err(refused(error));
    }
    Ok(())
}

/// Adds the arc there and the arc back.
pub fn add_bound(
    net: &mut Network,
    from: PointId,
    to: PointId,
    low: i64,
    high: i64,
) -> Result<(), Refusal>
    requires from_in { from.0 < point_count net.old }
    requires to_in { to.0 < point_count net.old }
    ensures { Adds (add_bound net.old from.0 to.0 low high) result net.new }
{
    if from.0 == to.0 {
        return Err(Refusal::Fails(TextCause::SamePoint));
    }
    if is_beyond(high) || is_beyond(low) {
        return Err(Refusal::Fails(TextCause::BoundRange));
    }
    if counted_arcs(net) + 2 > MOST_ARCS {
        return Err(Refusal::Fails(TextCause::TooManyArcs));
    }
    add_both(net, from, to, low, high)
}

/// Adds the arc there and the arc back, which have room.
fn add_both(
    net: &mut Network,
    from: PointId,
    to: PointId,
    low: i64,
    high: i64,
) -> Result<(), Refusal>
    requires from_in { from.0 < point_count net.old }
    requires to_in { to.0 < point_count net.old }
    requires range { is_beyond low ≡ false }
    ensures { Adds (Ok (with_arcs net.old (arc_between from.0 to.0 high ∷ arc_between to.0 from.0 (neg_ℤ low) ∷ []))) result net.new }
{
    let Ok(_) = net.add_arc(from, to, high) else {
        return Err(Refusal::OutOfMemory);
    };
    let Ok(_) = net.add_arc(to, from, -low) else {
        return Err(Refusal::OutOfMemory);
    };
    Ok(())
}
