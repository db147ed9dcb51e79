//! Objects and the values at their keys.
ghost use Rattle.std.specs.Prelude.{◌≡◌, option_map, IsTrue};
ghost use Rattle.std.specs.Result.{result_map_both};
ghost use Rattle.serde_json.specs.Find.{get_member};
ghost use Rattle.serde_json.specs.View.{view, members_view};
ghost use Rattle.json_net.specs.Paths.{key_name};
ghost use Rattle.json_net.specs.Members.{object, value_at, is_among, has_only, only};

use crate::error::{JsonCause, JsonError};
use crate::path::{JsonKey, Path};
use serde_json::{Map, Value};

/// The members of a value that is an object.
pub(crate) fn object<'v>(value: &'v Value, path: Path) -> Result<&'v Map<String, Value>, JsonError>
    ensures { result_map_both (λ m. members_view m.now.entries) (λ e. e) result ≡ object path (view value.now) }
{
    let cause = JsonCause::JsonKind;
    value.as_object().ok_or(JsonError::At { path, cause })
}

/// The value at a key, if the object has it.
pub(crate) fn value_of<'v>(members: &'v Map<String, Value>, key: JsonKey) -> Option<&'v Value>
    ensures { option_map (λ v. view v.now) result ≡ get_member (key_name key) (members_view members.now.entries) }
{
    members.get(key.name())
}

/// The value at a key that the object must have.
pub(crate) fn value_at<'v>(
    members: &'v Map<String, Value>,
    path: Path,
    key: JsonKey,
) -> Result<&'v Value, JsonError>
    ensures { result_map_both (λ v. view v.now) (λ e. e) result ≡ value_at path (members_view members.now.entries) key }
{
    let cause = JsonCause::JsonMissing;
    value_of(members, key).ok_or(JsonError::At { path, cause })
}

/// Whether the name is one of the keys.
fn is_among(keys: &[JsonKey], name: &str) -> bool
    ensures { result ≡ is_among keys.now name.now }
{
    keys.iter().any(|key| key.name() == name)
}

/// Refuses an object that has another key than these.
pub(crate) fn only(
    members: &Map<String, Value>,
    path: Path,
    keys: &[JsonKey],
) -> Result<(), JsonError>
    ensures { result ≡ only path (members_view members.now.entries) keys.now tt }
{
    for name in members.keys() {
        if !is_among(keys, name.as_str()) {
            let cause = JsonCause::JsonExtra;
            return Err(JsonError::At { path, cause });
        }
    }
    Ok(())
}
