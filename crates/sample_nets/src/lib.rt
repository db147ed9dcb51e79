//! Small networks that tests begin with. The contract of each function is the network that it gives.
#![tactic(auto)]

ghost use Rattle.std.specs.Prelude.{◌≡◌, ◌++◌, ◌∷◌, [], IfOk, length, map};
ghost use Rattle.sample_nets.specs.Samples.{people, letters, arc_of, sample, handover};

use std::alloc::Global;
use std::test::Fail;
use stn_model::{AgentId, Lean, Network, PointId};

// Two agents, ann and bob, both early, and no points yet.
fn people(alloc: Global, horizon: i64) -> Result<Network, Fail>
    ensures { IfOk result (λ net. net ≡ people horizon) }
{
    let mut net = Network::new(alloc, horizon)?;
    net.add_agent(alloc, b"ann".as_slice(), Lean::Early)?;
    net.add_agent(alloc, b"bob".as_slice(), Lean::Early)?;
    Ok(net)
}

// Adds a point of an agent.
fn add_point(net: &mut Network, alloc: Global, agent: u32, name: &[u8]) -> Result<(), Fail>
    ensures { IfOk result (λ _. net.new ≡ record net.old { places = net.old.places ++ record { name = name.now; owner = agent } ∷ [] }) }
{
    if agent >= net.agents() {
        return Err(Fail::new("no such agent"));
    }
    net.add_point(alloc, AgentId(agent), name)?;
    Ok(())
}

// Adds arcs (from, to, bound).
fn add_arcs(net: &mut Network, arcs: &[(u32, u32, i64)]) -> Result<(), Fail>
    ensures { IfOk result (λ _. net.new ≡ record net.old { given = net.old.given ++ map arc_of arcs.now }) }
{
    for arc in arcs {
        if arc.0 >= net.points() || arc.1 >= net.points() {
            return Err(Fail::new("no such point"));
        }
        net.add_arc(PointId(arc.0), PointId(arc.1), arc.2)?;
    }
    Ok(())
}

/// Two people hand work over: ann has a1 and a2, the points 1 and 2, and bob has b1 and b2, 3 and 4. The horizon is 100, and the given
/// arcs have the numbers 8 to 14. The failure is want of memory.
pub fn handover(alloc: Global) -> Result<Network, Fail>
    ensures { IfOk result (λ net. net ≡ handover) }
{
    let mut net = people(alloc, 100)?;
    add_point(&mut net, alloc, 0, b"a1".as_slice())?;
    add_point(&mut net, alloc, 0, b"a2".as_slice())?;
    add_point(&mut net, alloc, 1, b"b1".as_slice())?;
    add_point(&mut net, alloc, 1, b"b2".as_slice())?;
    let arcs = [
        (0, 1, 20),
        (1, 2, 40),
        (2, 1, -30),
        (2, 3, 5),
        (3, 2, 0),
        (3, 4, 20),
        (4, 3, -10),
    ];
    add_arcs(&mut net, arcs.as_slice())?;
    Ok(net)
}

/// A network of two agents, ann and bob, with points of these owners, 0 or 1, named by letters from `a` on, and arcs (from, to, bound).
///
/// It fails where an owner is another number, an arc names a point that is not there, the network refuses one of them, or memory runs out.
pub fn sample(
    alloc: Global,
    horizon: i64,
    owners: &[u32],
    arcs: &[(u32, u32, i64)],
) -> Result<Network, Fail>
    ensures { IfOk result (λ net. net ≡ sample horizon owners.now arcs.now) }
{
    let mut net = people(alloc, horizon)?;
    if owners.len() > 26 {
        return Err(Fail::new("too many points"));
    }
    for n in 0..owners.len() {
        add_point(&mut net, alloc, owners[n], [b'a' + n as u8].as_slice())?;
    }
    add_arcs(&mut net, arcs)?;
    Ok(net)
}

#[cfg(test)]
mod tests {
    use crate::{handover, sample};
    use std::test::Fail;

    #[test]
    fn networks_are_built(rt: HostRuntime) -> Result<(), Fail> {
        assert_eq!(rt; handover(rt.alloc())?.arcs(), 15);
        let arcs = [(0, 1, 5), (1, 2, 7)];
        let net = sample(rt.alloc(), 10, [0, 1].as_slice(), arcs.as_slice())?;
        assert_eq!(rt; net.arcs(), 6);
        assert_eq!(rt; net.points(), 3);
        Ok(())
    }
}
