//! Additions to a network that it cannot refuse, so that only memory can be wanting.
ghost use Rattle.std.specs.Prelude.{◌≡◌, ◌<◌, [], ◌∷◌, ◌++◌, length, None, OnOk};
ghost use Rattle.stn_model.specs.Net.{point_count};
ghost use Rattle.stn_model.specs.Refusals.{agent_refusal, point_refusal, arc_refusal};

use std::alloc::Global;
use stn_model::{AgentId, Lean, NetError, Network, OutOfMemory, PointId};

pub fn new_agent(
    alloc: Global,
    net: &mut Network,
    name: &[u8],
    lean: Lean,
) -> Result<(), OutOfMemory>
    requires { agent_refusal net.old name.now ≡ None }
    ensures { OnOk result (net.new ≡ record net.old { agents = net.old.agents ++ record { name = name.now; lean = lean } ∷ [] }) }
{
    match net.add_agent(alloc, name, lean) {
        Ok(_) => Ok(()),
        Err(NetError::OutOfMemory) => Err(OutOfMemory),
        Err(_) => unreachable!(),
    }
}

pub fn new_point(
    alloc: Global,
    net: &mut Network,
    agent: AgentId,
    name: &[u8],
) -> Result<(), OutOfMemory>
    requires owner { agent.0 < length net.old.agents }
    requires free { point_refusal net.old name.now ≡ None }
    ensures { OnOk result (net.new ≡ record net.old { places = net.old.places ++ record { name = name.now; owner = agent.0 } ∷ [] }) }
{
    match net.add_point(alloc, agent, name) {
        Ok(_) => Ok(()),
        Err(NetError::OutOfMemory) => Err(OutOfMemory),
        Err(_) => unreachable!(),
    }
}

pub fn new_arc(net: &mut Network, from: PointId, to: PointId, bound: i64) -> Result<(), OutOfMemory>
    requires from_in { from.0 < point_count net.old }
    requires to_in { to.0 < point_count net.old }
    requires free { arc_refusal net.old from.0 to.0 bound ≡ None }
    ensures { OnOk result (net.new ≡ record net.old { given = net.old.given ++ record { from = from; to = to; bound = bound } ∷ [] }) }
{
    match net.add_arc(from, to, bound) {
        Ok(_) => Ok(()),
        Err(NetError::OutOfMemory) => Err(OutOfMemory),
        Err(_) => unreachable!(),
    }
}
