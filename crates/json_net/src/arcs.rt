//! The arcs of a JSON network.
ghost use Rattle.std.specs.Prelude.{◌≡◌, ◌+◌, ◌<◌, ◌≤◌, length, OnOk};
ghost use Rattle.stn_model.specs.Net.{point_count};
ghost use Rattle.serde_json.specs.View.{view};
ghost use Rattle.json_net.specs.Networks.{read_array, read_arc, read_bounds};
ghost use Rattle.json_net.specs.Reading.{Adds, bound_seen};

use crate::adding::{add_arc, add_both, item_step};
use crate::error::JsonError;
use crate::path::{JsonKey, Path, Step};
use crate::shapes::{BoundShape, arc_shape};
use crate::values::{array, number, point_at};
use serde_json::Value;
use stn_model::{Network, PointId};

/// Adds the arcs of an array.
pub(crate) fn arcs(net: &mut Network, value: &Value, path: Path) -> Result<(), JsonError>
    requires { length path ≤ 1 }
    ensures { Adds (read_array read_arc path net.old (view value.now)) result net.new }
{
    let items = array(value, path)?;
    for (i, item) in items.iter().enumerate() {
        let step = item_step(net, i);
        arc(net, item, path.then(step))?;
    }
    Ok(())
}

/// Adds an arc, or two.
fn arc(net: &mut Network, value: &Value, path: Path) -> Result<(), JsonError>
    requires { length path ≤ 2 }
    ensures said { Adds (read_arc path net.old (view value.now)) result net.new }
    ensures grows { OnOk result (length net.old.given < length net.new.given) }
{
    let shape = arc_shape(value, path)?;
    let from = point_at(net, shape.from, path.then(Step::Key(JsonKey::From)))?;
    let to = point_at(net, shape.to, path.then(Step::Key(JsonKey::To)))?;
    bounds(net, from, to, shape.bounds, path)
}

/// Adds the arc of a bound, or the two arcs of a least and a greatest difference.
fn bounds(
    net: &mut Network,
    from: PointId,
    to: PointId,
    bounds: BoundShape<'_>,
    path: Path,
) -> Result<(), JsonError>
    requires from_in { from.0 < point_count net.old }
    requires to_in { to.0 < point_count net.old }
    requires room { length path ≤ 2 }
    ensures said { Adds (read_bounds path net.old from.0 to.0 (bound_seen bounds.entry)) result net.new }
    ensures grows { OnOk result (length net.old.given < length net.new.given) }
{
    match bounds {
        BoundShape::Bound(bound) => {
            let bound = number(bound, path.then(Step::Key(JsonKey::Bound)))?;
            add_arc(net, from, to, bound, path)
        }
        BoundShape::Between(low, high) => {
            let low = number(low, path.then(Step::Key(JsonKey::Low)))?;
            let high = number(high, path.then(Step::Key(JsonKey::High)))?;
            add_both(net, from, to, low, high, path)
        }
    }
}
