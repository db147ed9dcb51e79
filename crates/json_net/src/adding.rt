//! What the values of a JSON network add to the network.
ghost use Rattle.std.specs.Prelude.{◌≡◌, ◌+◌, ◌<◌, ◌≤◌, ◌∷◌, [], neg_ℤ, false, length, IfOk, OnOk};
ghost use Rattle.stn_model.specs.Net.{point_count, with_act};
ghost use Rattle.stn_model.specs.Refusals.{agent_refusal, point_refusal, act_refusal, arc_refusal, is_beyond};
ghost use Rattle.net_text.specs.Networks.{with_agent, with_point, with_arcs, arc_between};
ghost use Rattle.json_net.specs.Networks.{unless, both_refusal};
ghost use Rattle.json_net.specs.Reading.{Adds};

use crate::error::{JsonCause, JsonError, refused};
use crate::path::{Path, Step};
use net_text::arcs::{counted_arcs, is_beyond};
use std::alloc::Global;
use stn_model::{AgentId, Lean, MOST_ARCS, Network, OutOfMemory, PointId};

/// The step to the item of that number. Each item before it added an agent, a point or an arc, so the number is small.
pub(crate) fn item_step(net: &Network, number: usize) -> Step
    requires { number ≤ length net.now.agents + length net.now.places + length net.now.given }
    ensures { result ≡ Step.Item number }
{
    // Every network keeps the limits, which the contracts of its counts say.
    let _ = (net.agents(), net.points(), net.arcs());
    Step::Item(number as u32)
}

/// Adds an agent.
pub(crate) fn add_agent(
    alloc: Global,
    net: &mut Network,
    name: &[u8],
    lean: Lean,
    path: Path,
) -> Result<AgentId, JsonError>
    ensures said { Adds (unless path (agent_refusal net.old name.now) (with_agent net.old name.now lean)) result net.new }
    ensures number { IfOk result (λ a. a.0 ≡ length net.old.agents) }
    ensures grows { OnOk result (length net.new.agents ≡ length net.old.agents + 1) }
{
    match net.add_agent(alloc, name, lean) {
        Ok(agent) => Ok(agent),
        Err(error) => Err(refused(error, path)),
    }
}

/// Adds a point of an agent.
pub(crate) fn add_point(
    alloc: Global,
    net: &mut Network,
    agent: AgentId,
    name: &[u8],
    path: Path,
) -> Result<(), JsonError>
    requires { agent.0 < length net.old.agents }
    ensures said { Adds (unless path (point_refusal net.old name.now) (with_point net.old agent.0 name.now)) result net.new }
    ensures grows { OnOk result (length net.old.places < length net.new.places) }
    ensures agents { OnOk result (net.new.agents ≡ net.old.agents) }
{
    if let Err(error) = net.add_point(alloc, agent, name) {
        return Err(refused(error, path));
    }
    Ok(())
}

/// Adds an act of an agent.
pub(crate) fn add_act(
    alloc: Global,
    net: &mut Network,
    agent: AgentId,
    name: &[u8],
    low: i64,
    high: i64,
    path: Path,
) -> Result<(), JsonError>
    requires { agent.0 < length net.old.agents }
    ensures said { Adds (unless path (act_refusal net.old name.now low high) (with_act net.old agent.0 name.now low high)) result net.new }
    ensures grows { OnOk result (length net.old.places < length net.new.places) }
    ensures agents { OnOk result (net.new.agents ≡ net.old.agents) }
{
    if let Err(error) = net.add_act(alloc, agent, name, low, high) {
        return Err(refused(error, path));
    }
    Ok(())
}

/// Adds an arc.
pub(crate) fn add_arc(
    net: &mut Network,
    from: PointId,
    to: PointId,
    bound: i64,
    path: Path,
) -> Result<(), JsonError>
    requires from_in { from.0 < point_count net.old }
    requires to_in { to.0 < point_count net.old }
    ensures said { Adds (unless path (arc_refusal net.old from.0 to.0 bound) (with_arcs net.old (arc_between from.0 to.0 bound ∷ []))) result net.new }
    ensures grows { OnOk result (length net.old.given < length net.new.given) }
{
    if let Err(error) = net.add_arc(from, to, bound) {
        return Err(refused(error, path));
    }
    Ok(())
}

/// Adds the arc there, of the greatest difference, and the arc back, of the least.
pub(crate) fn add_both(
    net: &mut Network,
    from: PointId,
    to: PointId,
    low: i64,
    high: i64,
    path: Path,
) -> Result<(), JsonError>
    requires from_in { from.0 < point_count net.old }
    requires to_in { to.0 < point_count net.old }
    ensures said { Adds (unless path (both_refusal net.old from.0 to.0 low high) (with_arcs net.old (arc_between from.0 to.0 high ∷ arc_between to.0 from.0 (neg_ℤ low) ∷ []))) result net.new }
    ensures grows { OnOk result (length net.old.given < length net.new.given) }
{
    let cause = if from.0 == to.0 {
        JsonCause::SamePoint
    } else if is_beyond(high) || is_beyond(low) {
        JsonCause::BoundRange
    } else if counted_arcs(net) + 2 > MOST_ARCS {
        JsonCause::TooManyArcs
    } else {
        let Ok(()) = add_two(net, from, to, low, high) else {
            return Err(JsonError::OutOfMemory);
        };
        return Ok(());
    };
    Err(JsonError::At { path, cause })
}

/// Adds the arc there and the arc back, which have room.
fn add_two(
    net: &mut Network,
    from: PointId,
    to: PointId,
    low: i64,
    high: i64,
) -> Result<(), OutOfMemory>
    requires from_in { from.0 < point_count net.old }
    requires to_in { to.0 < point_count net.old }
    requires range { is_beyond low ≡ false }
    ensures { OnOk result (net.new ≡ with_arcs net.old (arc_between from.0 to.0 high ∷ arc_between to.0 from.0 (neg_ℤ low) ∷ [])) }
{
    let Ok(_) = net.add_arc(from, to, high) else {
        return Err(OutOfMemory);
    };
    let Ok(_) = net.add_arc(to, from, -low) else {
        return Err(OutOfMemory);
    };
    Ok(())
}
