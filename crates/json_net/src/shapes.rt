//! The objects of a JSON network, by the values at their keys.
ghost use Rattle.std.specs.Prelude.{◌≡◌};
ghost use Rattle.std.specs.Result.{result_map_both};
ghost use Rattle.serde_json.specs.View.{view, members_view};
ghost use Rattle.json_net.specs.Networks.{root_shape, agent_shape, act_shape, bound_shape, arc_shape};
ghost use Rattle.json_net.specs.Reading.{root_seen, agent_seen, act_seen, bound_seen, arc_seen};

use crate::error::JsonError;
use crate::members::{object, only, value_at, value_of};
use crate::path::{JsonKey, Path};
use serde_json::{Map, Value};

/// The values of the root.
#[derive(Clone, Copy)]
pub(crate) struct RootShape<'v> {
    pub(crate) mastn: &'v Value,
    pub(crate) horizon: &'v Value,
    pub(crate) agents: &'v Value,
    pub(crate) arcs: &'v Value,
}

/// The values of an agent.
#[derive(Clone, Copy)]
pub(crate) struct AgentShape<'v> {
    pub(crate) name: &'v Value,
    pub(crate) lean: Option<&'v Value>,
    pub(crate) points: &'v Value,
}

/// The values of an act.
#[derive(Clone, Copy)]
pub(crate) struct ActShape<'v> {
    pub(crate) act: &'v Value,
    pub(crate) low: &'v Value,
    pub(crate) high: &'v Value,
}

/// The bounds of an item of the arcs.
#[derive(Clone, Copy)]
pub(crate) enum BoundShape<'v> {
    /// The bound of one arc.
    Bound(&'v Value),
    /// The least and the greatest difference of the ends, which two arcs keep.
    Between(&'v Value, &'v Value),
}

/// The values of an item of the arcs.
#[derive(Clone, Copy)]
pub(crate) struct ArcShape<'v> {
    pub(crate) from: &'v Value,
    pub(crate) to: &'v Value,
    pub(crate) bounds: BoundShape<'v>,
}

/// The values of the root.
pub(crate) fn root_shape<'v>(value: &'v Value, path: Path) -> Result<RootShape<'v>, JsonError>
    ensures { result_map_both root_seen (λ e. e) result ≡ root_shape path (view value.now) }
{
    let members = object(value, path)?;
    let shape = RootShape {
        mastn: value_at(members, path, JsonKey::Mastn)?,
        horizon: value_at(members, path, JsonKey::Horizon)?,
        agents: value_at(members, path, JsonKey::Agents)?,
        arcs: value_at(members, path, JsonKey::Arcs)?,
    };
    let keys = [
        JsonKey::Mastn,
        JsonKey::Horizon,
        JsonKey::Agents,
        JsonKey::Arcs,
    ];
    only(members, path, &keys)?;
    Ok(shape)
}

/// The values of an agent.
pub(crate) fn agent_shape<'v>(value: &'v Value, path: Path) -> Result<AgentShape<'v>, JsonError>
    ensures { result_map_both agent_seen (λ e. e) result ≡ agent_shape path (view value.now) }
{
    let members = object(value, path)?;
    let shape = AgentShape {
        name: value_at(members, path, JsonKey::Name)?,
        points: value_at(members, path, JsonKey::Points)?,
        lean: value_of(members, JsonKey::Lean),
    };
    only(
        members,
        path,
        &[JsonKey::Name, JsonKey::Lean, JsonKey::Points],
    )?;
    Ok(shape)
}

/// The values of an act.
pub(crate) fn act_shape<'v>(value: &'v Value, path: Path) -> Result<ActShape<'v>, JsonError>
    ensures { result_map_both act_seen (λ e. e) result ≡ act_shape path (view value.now) }
{
    let members = object(value, path)?;
    let shape = ActShape {
        act: value_at(members, path, JsonKey::Act)?,
        low: value_at(members, path, JsonKey::Low)?,
        high: value_at(members, path, JsonKey::High)?,
    };
    only(members, path, &[JsonKey::Act, JsonKey::Low, JsonKey::High])?;
    Ok(shape)
}

/// The bounds of an item of the arcs: `low` and `high` where one of them is there, else `bound`.
fn bound_shape<'v>(members: &'v Map<String, Value>, path: Path) -> Result<BoundShape<'v>, JsonError>
    ensures { result_map_both bound_seen (λ e. e) result ≡ bound_shape path (members_view members.now.entries) }
{
    if value_of(members, JsonKey::Low).is_some() || value_of(members, JsonKey::High).is_some() {
        let low = value_at(members, path, JsonKey::Low)?;
        let high = value_at(members, path, JsonKey::High)?;
        let keys = [JsonKey::From, JsonKey::To, JsonKey::Low, JsonKey::High];
        only(members, path, &keys)?;
        return Ok(BoundShape::Between(low, high));
    }
    let bound = value_at(members, path, JsonKey::Bound)?;
    only(members, path, &[JsonKey::From, JsonKey::To, JsonKey::Bound])?;
    Ok(BoundShape::Bound(bound))
}

/// The values of an item of the arcs.
pub(crate) fn arc_shape<'v>(value: &'v Value, path: Path) -> Result<ArcShape<'v>, JsonError>
    ensures { result_map_both arc_seen (λ e. e) result ≡ arc_shape path (view value.now) }
{
    let members = object(value, path)?;
    Ok(ArcShape {
        from: value_at(members, path, JsonKey::From)?,
        to: value_at(members, path, JsonKey::To)?,
        bounds: bound_shape(members, path)?,
    })
}
