//! The generator.
ghost use Rattle.std.specs.Prelude.{◌≡◌, ◌≤◌, ◌<◌, [], ◌∷◌, ◌++◌, map, length, OnOk, IfOk};
ghost use Rattle.std.specs.List.{range_with_len};
ghost use Rattle.net_gen.specs.Generated.{width, point_total, agent_at, place_at, AreTimes, generated};
ghost use Rattle.stn_model.specs.Net.{point_count, arcs_of};
ghost use Rattle.stn_model.specs.Schedules.{IsConsistent};

use crate::adding::{new_agent, new_point};
use crate::bounds::{add_chains, add_handovers};
use crate::draws::Draws;
use crate::names::{lean_of, write_agent_name, write_point_name};
use std::alloc::Global;
use stn_model::{AgentId, Network, OutOfMemory};

const HORIZON: i64 = 1_000_000;

/// One more than the greatest time.
const LATEST: u32 = 900_000;

/// Adds the agents.
fn add_agents(alloc: Global, net: &mut Network, size: u32) -> Result<(), OutOfMemory>
    requires few { size ≤ 32 }
    requires none { net.old.agents ≡ [] }
    ensures { OnOk result (net.new ≡ record net.old { agents = map agent_at (range_with_len 0 size) }) }
{
    let mut name = Vec::with_capacity(alloc, 16)?;
    for agent in 0..size {
        write_agent_name(&mut name, agent)?;
        new_agent(alloc, net, &name, lean_of(agent))?;
    }
    Ok(())
}

/// Adds the points of all agents, agent by agent.
fn add_points(alloc: Global, net: &mut Network, size: u32) -> Result<(), OutOfMemory>
    requires some { 1 ≤ size }
    requires few { size ≤ 32 }
    requires agents { length net.old.agents ≡ size }
    requires none { net.old.places ≡ [] }
    requires no_arcs { net.old.given ≡ [] }
    ensures { OnOk result (net.new ≡ record net.old { places = map (place_at size) (range_with_len 0 (point_total size)) }) }
{
    let width = 2 * size;
    let mut name = Vec::with_capacity(alloc, 32)?;
    for place in 0..size * width {
        let agent = place / width;
        write_point_name(&mut name, agent, place % width)?;
        new_point(alloc, net, AgentId(agent), &name)?;
    }
    Ok(())
}

/// Draws a time for each point.
fn draw_times(alloc: Global, draws: &mut Draws, count: u32) -> Result<Vec<u32>, OutOfMemory>
    requires none { draws.old.count ≡ 0 }
    ensures times { IfOk result (λ times. AreTimes draws.old.number times.items) }
    ensures many { IfOk result (λ times. length times.items ≡ count) }
    ensures counted { OnOk result (draws.new ≡ record draws.old { count = count }) }
{
    let mut times = Vec::with_capacity(alloc, count as usize)?;
    for _place in 0..count {
        times.push(draws.draw(LATEST))?;
    }
    Ok(times)
}

/// Adds all parts in their order.
fn build(alloc: Global, number: u32, size: u32) -> Result<Network, OutOfMemory>
    requires low { 1 ≤ size }
    requires high { size ≤ 32 }
    ensures { IfOk result (λ net. net ≡ generated number size) }
{
    let Ok(mut net) = Network::new(alloc, HORIZON) else {
        unreachable!()
    };
    add_agents(alloc, &mut net, size)?;
    add_points(alloc, &mut net, size)?;
    let mut draws = Draws::new(number);
    let times = draw_times(alloc, &mut draws, size * (2 * size))?;
    add_chains(&mut net, &mut draws, &times, size)?;
    add_handovers(&mut net, &mut draws, &times, size)?;
    Ok(net)
}

/// The network of the number and the size.
///
/// It has `size` agents of `2 * size` points. Its times, and what each bound leaves round the
/// distance of two times, are the draws of the number; so the times satisfy it.
///
/// # Errors
///
/// `OutOfMemory` where memory is wanting.
pub fn make(alloc: Global, number: u32, size: u32) -> Result<Network, OutOfMemory>
    requires number_high { number ≤ 2147483645 }
    requires size_low { 1 ≤ size }
    requires size_high { size ≤ 32 }
    ensures network { IfOk result (λ net. net ≡ generated number size) }
    ensures consistent { IfOk result (λ net. IsConsistent (point_count net) (arcs_of net)) }
{
    build(alloc, number, size)
}
