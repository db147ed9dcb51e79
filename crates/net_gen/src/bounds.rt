//! The bounds of generated networks: between neighbours of one agent, and between agents.
ghost use Rattle.std.specs.Prelude.{◌≡◌, ◌≢◌, ◌+◌, ◌-◌, ◌*◌, ◌<◌, ◌≤◌, [], ◌++◌, length, slice_index, OnOk, pos, neg_ℤ, ◌-ℤ◌, ◌+ℤ◌, ◌≤ℤ◌, ◌∷◌};
ghost use Rattle.stn_model.specs.Limits.{most_arcs, greatest_bound};
ghost use Rattle.stn_model.specs.Net.{point_count};
ghost use Rattle.net_gen.specs.Generated.{width, point_total, gap_total, handover_total, AreTimes, bound_arcs, drawn_bound, chain_at, handover_at, chains, handovers, draws_before};

use crate::adding::new_arc;
use crate::draws::Draws;
use stn_model::{Network, OutOfMemory, PointId};

/// The most that a bound between neighbours leaves on each side, and one more.
const NEAR: u32 = 1000;

/// The most that a bound between agents leaves on each side, and one more.
const FAR: u32 = 5000;

/// How far the second time lies after the first.
fn apart(times: &[u32], from: u32, to: u32) -> i64
    requires from_in { from < length times.now }
    requires to_in { to < length times.now }
    ensures value { result ≡ pos (slice_index times.now to) -ℤ pos (slice_index times.now from) }
    ensures low { neg_ℤ (pos 4294967296) ≤ℤ result }
    ensures high { result ≤ℤ pos 4294967296 }
{
    let start = times[from as usize];
    let end = times[to as usize];
    i64::from(end) - i64::from(start)
}

/// The greatest distance of a bound.
fn most(apart: i64, high: u32) -> i64
    requires apart_low { neg_ℤ (pos 4294967296) ≤ℤ apart }
    requires apart_high { apart ≤ℤ pos 4294967296 }
    requires high_fits { high < 5000 }
    ensures value { result ≡ apart +ℤ pos high }
    ensures low { neg_ℤ (pos greatest_bound) ≤ℤ result }
    ensures high { result ≤ℤ pos greatest_bound }
{
    apart + i64::from(high)
}

/// The least distance of a bound, with its sign turned.
fn least_turned(apart: i64, low: u32) -> i64
    requires apart_low { neg_ℤ (pos 4294967296) ≤ℤ apart }
    requires apart_high { apart ≤ℤ pos 4294967296 }
    requires low_fits { low < 5000 }
    ensures value { result ≡ neg_ℤ (apart -ℤ pos low) }
    ensures low { neg_ℤ (pos greatest_bound) ≤ℤ result }
    ensures high { result ≤ℤ pos greatest_bound }
{
    i64::from(low) - apart
}

/// Adds an arc that is in range.
fn lay_arc(net: &mut Network, from: PointId, to: PointId, bound: i64) -> Result<(), OutOfMemory>
    requires from_in { from.0 < point_count net.old }
    requires to_in { to.0 < point_count net.old }
    requires different { from.0 ≢ to.0 }
    requires low { neg_ℤ (pos greatest_bound) ≤ℤ bound }
    requires high { bound ≤ℤ pos greatest_bound }
    requires few { length net.old.given < most_arcs }
    requires no_acts { net.old.acts ≡ [] }
    ensures { OnOk result (net.new ≡ record net.old { given = net.old.given ++ record { from = from; to = to; bound = bound } ∷ [] }) }
{
    new_arc(net, from, to, bound)
}

/// Adds the two arcs of a bound from `apart - low` to `apart + high`.
fn lay_bound(
    net: &mut Network,
    from: u32,
    to: u32,
    apart: i64,
    low: u32,
    high: u32,
) -> Result<(), OutOfMemory>
    requires from_in { from + 1 < point_count net.old }
    requires to_in { to + 1 < point_count net.old }
    requires different { from ≢ to }
    requires apart_low { neg_ℤ (pos 4294967296) ≤ℤ apart }
    requires apart_high { apart ≤ℤ pos 4294967296 }
    requires low_fits { low < 5000 }
    requires high_fits { high < 5000 }
    requires points { point_count net.old < 5000 }
    requires arcs { length net.old.given < 65000 }
    requires no_acts { net.old.acts ≡ [] }
    ensures { OnOk result (net.new ≡ record net.old { given = net.old.given ++ bound_arcs from to apart low high }) }
{
    let start = PointId(from + 1);
    let end = PointId(to + 1);
    let up = most(apart, high);
    let down = least_turned(apart, low);
    lay_arc(net, start, end, up)?;
    lay_arc(net, end, start, down)
}

/// Adds a bound round the distance of two times. The next two draws say how far it lies below and
/// above.
fn add_bound(
    net: &mut Network,
    draws: &mut Draws,
    times: &[u32],
    from: u32,
    to: u32,
    below: u32,
) -> Result<(), OutOfMemory>
    requires times { AreTimes draws.old.number times.now }
    requires points { point_count net.old ≡ length times.now + 1 }
    requires from_in { from < length times.now }
    requires to_in { to < length times.now }
    requires different { from ≢ to }
    requires low { 0 < below }
    requires high { below ≤ 5000 }
    requires points_fit { length times.now ≤ 2048 }
    requires arcs { length net.old.given < 65000 }
    requires no_acts { net.old.acts ≡ [] }
    requires few { draws.old.count < 1000000 }
    ensures given { OnOk result (net.new ≡ record net.old { given = net.old.given ++ drawn_bound draws.old.number from to (draws.old.count + 1) below }) }
    ensures counted { OnOk result (draws.new ≡ record draws.old { count = draws.old.count + 2 }) }
{
    let apart = apart(times, from, to);
    let low = draws.draw(below);
    let high = draws.draw(below);
    lay_bound(net, from, to, apart, low, high)
}

/// The first point of an agent, of all points counted from 0.
fn first_point(size: u32, agent: u32) -> u32
    requires within { agent < size }
    requires high { size ≤ 32 }
    ensures value { result ≡ agent * width size }
    ensures fits { result + width size ≤ point_total size }
    ensures few { point_total size ≤ 2048 }
{
    agent * (2 * size)
}

/// Adds the bound between a pair of neighbours.
fn add_chain(
    net: &mut Network,
    draws: &mut Draws,
    times: &[u32],
    size: u32,
    gap: u32,
) -> Result<(), OutOfMemory>
    requires low { 1 ≤ size }
    requires high { size ≤ 32 }
    requires within { gap < gap_total size }
    requires times { AreTimes draws.old.number times.now }
    requires many { length times.now ≡ point_total size }
    requires points { point_count net.old ≡ point_total size + 1 }
    requires arcs { length net.old.given < 65000 }
    requires no_acts { net.old.acts ≡ [] }
    requires drawn { draws.old.count ≡ point_total size + 2 * gap }
    ensures given { OnOk result (net.new ≡ record net.old { given = net.old.given ++ chain_at draws.old.number size gap }) }
    ensures counted { OnOk result (draws.new ≡ record draws.old { count = draws.old.count + 2 }) }
{
    let gaps = 2 * size - 1;
    let from = first_point(size, gap / gaps) + gap % gaps;
    add_bound(net, draws, times, from, from + 1, NEAR)
}

/// Adds the bounds between the neighbours of each agent.
pub fn add_chains(
    net: &mut Network,
    draws: &mut Draws,
    times: &[u32],
    size: u32,
) -> Result<(), OutOfMemory>
    requires low { 1 ≤ size }
    requires high { size ≤ 32 }
    requires times { AreTimes draws.old.number times.now }
    requires many { length times.now ≡ point_total size }
    requires points { point_count net.old ≡ point_total size + 1 }
    requires none { net.old.given ≡ [] }
    requires no_acts { net.old.acts ≡ [] }
    requires drawn { draws.old.count ≡ point_total size }
    ensures given { OnOk result (net.new ≡ record net.old { given = net.old.given ++ chains draws.old.number size }) }
    ensures counted { OnOk result (draws.new ≡ record draws.old { count = point_total size + 2 * gap_total size }) }
    ensures many { OnOk result (length net.new.given ≡ 2 * gap_total size) }
{
    for gap in 0..size * (2 * size - 1) {
        add_chain(net, draws, times, size, gap)?;
    }
    Ok(())
}

/// Adds a bound between points of two agents, which the next draws pick.
fn add_handover(
    net: &mut Network,
    draws: &mut Draws,
    times: &[u32],
    size: u32,
    handover: u32,
) -> Result<(), OutOfMemory>
    requires low { 1 ≤ size }
    requires high { size ≤ 32 }
    requires within { handover < handover_total size }
    requires times { AreTimes draws.old.number times.now }
    requires many { length times.now ≡ point_total size }
    requires points { point_count net.old ≡ point_total size + 1 }
    requires arcs { length net.old.given < 65000 }
    requires no_acts { net.old.acts ≡ [] }
    requires drawn { draws.old.count ≡ draws_before size handover }
    ensures given { OnOk result (net.new ≡ record net.old { given = net.old.given ++ handover_at draws.old.number size handover }) }
    ensures counted { OnOk result (draws.new ≡ record draws.old { count = draws.old.count + 4 }) }
{
    let agent = handover / 2;
    let from = first_point(size, agent) + draws.draw(2 * size);
    let to = first_point(size, agent + 1) + draws.draw(2 * size);
    add_bound(net, draws, times, from, to, FAR)
}

/// Adds two bounds between each agent and the next.
pub fn add_handovers(
    net: &mut Network,
    draws: &mut Draws,
    times: &[u32],
    size: u32,
) -> Result<(), OutOfMemory>
    requires low { 1 ≤ size }
    requires high { size ≤ 32 }
    requires times { AreTimes draws.old.number times.now }
    requires many { length times.now ≡ point_total size }
    requires points { point_count net.old ≡ point_total size + 1 }
    requires arcs { length net.old.given ≡ 2 * gap_total size }
    requires no_acts { net.old.acts ≡ [] }
    requires drawn { draws.old.count ≡ point_total size + 2 * gap_total size }
    ensures { OnOk result (net.new ≡ record net.old { given = net.old.given ++ handovers draws.old.number size }) }
{
    for handover in 0..2 * (size - 1) {
        add_handover(net, draws, times, size, handover)?;
    }
    Ok(())
}
