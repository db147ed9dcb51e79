//! Values of one kind, and what they say.
ghost use Rattle.std.specs.Prelude.{◌≡◌, ◌<◌, IfOk, option_map, string_bytes};
ghost use Rattle.std.specs.Result.{result_map_both};
ghost use Rattle.serde_json.specs.View.{view, items_view};
ghost use Rattle.stn_model.specs.Net.{point_count};
ghost use Rattle.json_net.specs.Members.{array, text, number};
ghost use Rattle.json_net.specs.Networks.{version, lean, point_at};

use crate::error::{JsonCause, JsonError};
use crate::path::Path;
use net_text::words::lean_of;
use serde_json::Value;
use stn_model::{Lean, Network, PointId};

/// The items of a value that is an array.
pub(crate) fn array<'v>(value: &'v Value, path: Path) -> Result<&'v Vec<Value>, JsonError>
    ensures { result_map_both (λ v. items_view v.now.items) (λ e. e) result ≡ array path (view value.now) }
{
    let cause = JsonCause::JsonKind;
    value.as_array().ok_or(JsonError::At { path, cause })
}

/// The bytes of a value that is a text.
pub(crate) fn text<'v>(value: &'v Value, path: Path) -> Result<&'v [u8], JsonError>
    ensures { result_map_both (λ s. s.now) (λ e. e) result ≡ text path (view value.now) }
{
    let Some(text) = value.as_str() else {
        let cause = JsonCause::JsonKind;
        return Err(JsonError::At { path, cause });
    };
    Ok(text.as_bytes())
}

/// The number of a value that is a whole one of 64 bits with its sign.
pub(crate) fn number(value: &Value, path: Path) -> Result<i64, JsonError>
    ensures { result ≡ number path (view value.now) }
{
    let cause = JsonCause::JsonKind;
    value.as_i64().ok_or(JsonError::At { path, cause })
}

/// Refuses another version than 2.
pub(crate) fn version(value: &Value, path: Path) -> Result<(), JsonError>
    ensures { result ≡ version path (view value.now) }
{
    if number(value, path)? != 2 {
        let cause = JsonCause::Version;
        return Err(JsonError::At { path, cause });
    }
    Ok(())
}

/// The lean that a value names; early where there is no value.
pub(crate) fn lean(value: Option<&Value>, path: Path) -> Result<Lean, JsonError>
    ensures { result ≡ lean path (option_map (λ v. view v.now) value.entry) }
{
    let Some(value) = value else {
        return Ok(Lean::Early);
    };
    let word = text(value, path)?;
    let cause = JsonCause::UnknownWord;
    lean_of(word).ok_or(JsonError::At { path, cause })
}

/// The point that a value names.
pub(crate) fn point_at(net: &Network, value: &Value, path: Path) -> Result<PointId, JsonError>
    ensures point { result_map_both (λ p. p.0) (λ e. e) result ≡ point_at path net.now (view value.now) }
    ensures within { IfOk result (λ p. p.0 < point_count net.now) }
{
    let name = text(value, path)?;
    let cause = JsonCause::NameUnknown;
    net.find(name).ok_or(JsonError::At { path, cause })
}
