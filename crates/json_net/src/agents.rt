//! The agents of a JSON network, with their points and acts.
ghost use Rattle.std.specs.Prelude.{◌≡◌, ◌+◌, ◌<◌, ◌≤◌, length, OnOk};
ghost use Rattle.serde_json.specs.View.{view};
ghost use Rattle.json_net.specs.Networks.{read_array, read_agent, read_point, read_act};
ghost use Rattle.json_net.specs.Reading.{Adds};

use crate::adding::{add_act, add_agent, add_point, item_step};
use crate::error::JsonError;
use crate::path::{JsonKey, Path, Step};
use crate::shapes::{act_shape, agent_shape};
use crate::values::{array, lean, number, text};
use serde_json::Value;
use std::alloc::Global;
use stn_model::{AgentId, Network};

/// Adds the agents of an array.
pub(crate) fn agents(
    alloc: Global,
    net: &mut Network,
    value: &Value,
    path: Path,
) -> Result<(), JsonError>
    requires { length path ≤ 1 }
    ensures { Adds (read_array read_agent path net.old (view value.now)) result net.new }
{
    let items = array(value, path)?;
    for (i, item) in items.iter().enumerate() {
        let step = item_step(net, i);
        agent(alloc, net, item, path.then(step))?;
    }
    Ok(())
}

/// Adds an agent, and then its points and acts.
fn agent(alloc: Global, net: &mut Network, value: &Value, path: Path) -> Result<(), JsonError>
    requires { length path ≤ 2 }
    ensures said { Adds (read_agent path net.old (view value.now)) result net.new }
    ensures grows { OnOk result (length net.old.agents < length net.new.agents) }
{
    let shape = agent_shape(value, path)?;
    let name_path = path.then(Step::Key(JsonKey::Name));
    let name = text(shape.name, name_path)?;
    let lean = lean(shape.lean, path.then(Step::Key(JsonKey::Lean)))?;
    let agent = add_agent(alloc, net, name, lean, name_path)?;
    let points_path = path.then(Step::Key(JsonKey::Points));
    points(alloc, net, agent, shape.points, points_path)
}

/// Adds the points and acts of an agent.
fn points(
    alloc: Global,
    net: &mut Network,
    agent: AgentId,
    value: &Value,
    path: Path,
) -> Result<(), JsonError>
    requires owner { agent.0 < length net.old.agents }
    requires room { length path ≤ 3 }
    ensures said { Adds (read_array (read_point agent.0) path net.old (view value.now)) result net.new }
    ensures agents { OnOk result (net.new.agents ≡ net.old.agents) }
{
    let items = array(value, path)?;
    for (i, item) in items.iter().enumerate() {
        let step = item_step(net, i);
        point(alloc, net, agent, item, path.then(step))?;
    }
    Ok(())
}

/// Adds a point or an act.
fn point(
    alloc: Global,
    net: &mut Network,
    agent: AgentId,
    value: &Value,
    path: Path,
) -> Result<(), JsonError>
    requires owner { agent.0 < length net.old.agents }
    requires room { length path ≤ 4 }
    ensures said { Adds (read_point agent.0 path net.old (view value.now)) result net.new }
    ensures grows { OnOk result (length net.old.places < length net.new.places) }
    ensures agents { OnOk result (net.new.agents ≡ net.old.agents) }
{
    match value.as_str() {
        Some(name) => add_point(alloc, net, agent, name.as_bytes(), path),
        None => act(alloc, net, agent, value, path),
    }
}

/// Adds an act.
fn act(
    alloc: Global,
    net: &mut Network,
    agent: AgentId,
    value: &Value,
    path: Path,
) -> Result<(), JsonError>
    requires owner { agent.0 < length net.old.agents }
    requires room { length path ≤ 4 }
    ensures said { Adds (read_act agent.0 path net.old (view value.now)) result net.new }
    ensures grows { OnOk result (length net.old.places < length net.new.places) }
    ensures agents { OnOk result (net.new.agents ≡ net.old.agents) }
{
    let shape = act_shape(value, path)?;
    let name = text(shape.act, path.then(Step::Key(JsonKey::Act)))?;
    let low = number(shape.low, path.then(Step::Key(JsonKey::Low)))?;
    let high = number(shape.high, path.then(Step::Key(JsonKey::High)))?;
    add_act(alloc, net, agent, name, low, high, path)
}
