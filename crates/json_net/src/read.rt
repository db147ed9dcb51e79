//! Reading a network.
ghost use Rattle.std.specs.Prelude.{◌≡◌, ◌<◌, ◌^◌, ◌↔◌, List, length};
ghost use Rattle.serde_json.specs.View.{view};
ghost use Rattle.json_net.specs.Networks.{network_of, opened};
ghost use Rattle.json_net.specs.Texts.{value_of, said, SaysNetwork, FailsAt, UnlessMemory};
ghost use Rattle.stn_model.specs.Net.{Net};
ghost use Rattle.json_net.specs.declared.path.Step.{Step};
ghost use Rattle.json_net.specs.declared.error.JsonCause.{JsonCause};
ghost use Rattle.json_net.specs.Reading.{IsRead};

use crate::agents::agents;
use crate::arcs::arcs;
use crate::error::{JsonCause, JsonError};
use crate::path::{JsonKey, Path, Step};
use crate::shapes::root_shape;
use crate::values::{number, version};
use serde_json::Value;
use std::alloc::Global;
use stn_model::Network;

/// The network that a JSON text says.
///
/// The bytes are fewer than 2^32. `JsonBad` comes exactly where `serde_json` reads no value from them: they are not UTF-8 or no JSON, arrays and
/// objects nest more than 127 deep, or a number is above the greatest float. `At` names the first value, depth first, that fails a test, and the
/// first test that it fails; specs/Networks has their order. `OutOfMemory` comes only where memory ran out.
pub fn read_json(alloc: Global, bytes: &[u8]) -> Result<Network, JsonError>
    requires { length bytes.now < 2 ^ 32 }
    ensures ok { UnlessMemory result ((net : Net) → (result ≡ Ok net) ↔ SaysNetwork bytes.now net) }
    ensures at { UnlessMemory result ((path : List Step) → (cause : JsonCause) → (result ≡ Err (JsonError.At path cause)) ↔ FailsAt bytes.now path cause) }
    ensures bad { UnlessMemory result ((result ≡ Err JsonError.JsonBad) ↔ (value_of bytes.now ≡ None)) }
    ensures reads { IsRead result (said (value_of bytes.now)) }
{
    match Value::from_slice(alloc, bytes) {
        Ok(value) => network(alloc, &value),
        Err(error) if error.is_memory() => Err(JsonError::OutOfMemory),
        Err(_) => Err(JsonError::JsonBad),
    }
}

/// The network that a value says.
fn network(alloc: Global, value: &Value) -> Result<Network, JsonError>
    ensures { IsRead result (network_of (view value.now)) }
{
    let root = Path::root();
    let shape = root_shape(value, root)?;
    version(shape.mastn, root.then(Step::Key(JsonKey::Mastn)))?;
    let mut net = opened(alloc, shape.horizon, root.then(Step::Key(JsonKey::Horizon)))?;
    agents(
        alloc,
        &mut net,
        shape.agents,
        root.then(Step::Key(JsonKey::Agents)),
    )?;
    arcs(&mut net, shape.arcs, root.then(Step::Key(JsonKey::Arcs)))?;
    Ok(net)
}

/// The network of the reference point alone.
fn opened(alloc: Global, value: &Value, path: Path) -> Result<Network, JsonError>
    ensures { result ≡ opened path (view value.now) }
{
    let horizon = number(value, path)?;
    let Ok(net) = Network::new(alloc, horizon) else {
        let cause = JsonCause::HorizonRange;
        return Err(JsonError::At { path, cause });
    };
    Ok(net)
}
