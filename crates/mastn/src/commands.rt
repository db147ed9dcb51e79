//! What the commands of a script say of a network that was solved.
ghost use Rattle.std.specs.Prelude.{◌≡◌, ◌+◌, ◌<◌, ◌≤◌, ◌++◌, ℕ, List, map, nat_abs, true, IfOk, OnOk};
ghost use Rattle.stn_model.specs.Limits.{greatest_walk};
ghost use Rattle.stn_model.specs.Net.{arcs_of, point_count};
ghost use Rattle.stn_model.specs.Schedules.{IsLeastBound};
ghost use Rattle.script_text.specs.Possible.{IsCommandOf, IsScriptOf};
ghost use Rattle.schedule_report.specs.declared.window.Window3.{Window3};
ghost use Rattle.schedule_report.specs.Parts.{windows_part, prove_part};
ghost use Rattle.tri_solve.specs.declared.edge.Edge.{Edge};
ghost use Rattle.joined_answer.specs.LeastBounds.{AreLeastBounds};
ghost use Rattle.joined_answer.specs.LeastProofs.{IsProof};
ghost use Rattle.mastn.specs.Commands.{is_built, are_built, IsLeastWindow, IsOriginPair, AreLeastWindows, entry_of};
ghost use Rattle.mastn.specs.Commands.{SaysBounds, SaysProof, SaysCommand, SaysCommands};

use joined_answer::{Joined, Proof};
use schedule_report::{Window3, bounds_part, prove_part, windows_part};
use script_text::Command;
use std::alloc::Global;
use stn_model::{Network, OutOfMemory, PointId};
use tri_solve::Edge;

/// Whether a command is built.
fn is_built(command: &Command) -> bool
    ensures { result ≡ is_built command.now }
{
    match command {
        Command::Bounds | Command::Windows | Command::Prove { .. } => true,
        Command::Tighten { .. }
        | Command::Batch { .. }
        | Command::Withdraw { .. }
        | Command::Decouple
        | Command::Choose { .. }
        | Command::Execute
        | Command::Advance { .. }
        | Command::Do { .. }
        | Command::Schedule => false,
    }
}

/// Whether all commands are built.
pub fn are_built(commands: &[Command]) -> bool
    ensures { result ≡ are_built commands.now }
{
    for command in commands {
        if !is_built(command) {
            return false;
        }
    }
    true
}

/// Appends what the commands say, one after another. All are built, and are such as a script of the network has.
pub fn say_all(
    alloc: Global,
    joined: &Joined,
    commands: &[Command],
    out: &mut Vec<u8>,
) -> Result<(), OutOfMemory>
    requires built { are_built commands.now ≡ true }
    requires of { IsScriptOf joined.now.network commands.now }
    ensures { OnOk result ((said : List ℕ) × SaysCommands joined.now.network (map (λ p. p.0) joined.now.order) commands.now said
        × (out.new.items ≡ out.old.items ++ said)) }
{
    for command in commands {
        say(alloc, joined, command, out)?;
    }
    Ok(())
}

// Appends what a command says.
fn say(
    alloc: Global,
    joined: &Joined,
    command: &Command,
    out: &mut Vec<u8>,
) -> Result<(), OutOfMemory>
    requires built { is_built command.now ≡ true }
    requires of { IsCommandOf joined.now.network command.now }
    ensures { OnOk result ((said : List ℕ) × SaysCommand joined.now.network (map (λ p. p.0) joined.now.order) command.now said
        × (out.new.items ≡ out.old.items ++ said)) }
{
    match command {
        Command::Bounds => say_bounds(alloc, joined, out),
        Command::Windows => say_windows(alloc, joined, out),
        Command::Prove { from, to } => say_proof(alloc, joined, *from, *to, out),
        _ => unreachable!(),
    }
}

// Appends the least bounds of all joined pairs.
fn say_bounds(alloc: Global, joined: &Joined, out: &mut Vec<u8>) -> Result<(), OutOfMemory>
    ensures { OnOk result ((said : List ℕ) × SaysBounds joined.now.network (map (λ p. p.0) joined.now.order) said
        × (out.new.items ≡ out.old.items ++ said)) }
{
    let bounds = least_bounds(alloc, joined)?;
    bounds_part(joined.network(), bounds.as_slice(), out)?;
    Ok(())
}

// The least bounds of all joined pairs, as the report has them.
fn least_bounds(
    alloc: Global,
    joined: &Joined,
) -> Result<Vec<(PointId, PointId, i128)>, OutOfMemory>
    ensures { IfOk result (λ v. (edges : List Edge) × AreLeastBounds joined.now.network (map (λ p. p.0) joined.now.order) edges
        × (v.items ≡ map entry_of edges)) }
{
    let edges = joined.edges(alloc)?;
    let bounds = entries(alloc, edges.as_slice())?;
    Ok(bounds)
}

// Each bound as the report has it.
fn entries(alloc: Global, edges: &[Edge]) -> Result<Vec<(PointId, PointId, i128)>, OutOfMemory>
    ensures { IfOk result (λ v. v.items ≡ map entry_of edges.now) }
{
    let entries = edges
        .iter()
        .map(|edge| (edge.from, edge.to, edge.bound))
        .collect(alloc)?;
    Ok(entries)
}

// Appends the least windows of all points.
fn say_windows(alloc: Global, joined: &Joined, out: &mut Vec<u8>) -> Result<(), OutOfMemory>
    ensures { OnOk result ((windows : List Window3) × AreLeastWindows joined.now.network windows
        × (out.new.items ≡ out.old.items ++ windows_part joined.now.network windows)) }
{
    let windows = least_windows(alloc, joined)?;
    windows_part(joined.network(), windows.as_slice(), out)?;
    Ok(())
}

// Appends the least bound from a point to another, with its walk and schedule.
fn say_proof(
    alloc: Global,
    joined: &Joined,
    from: PointId,
    to: PointId,
    out: &mut Vec<u8>,
) -> Result<(), OutOfMemory>
    requires from { from.0 < point_count joined.now.network }
    requires to { to.0 < point_count joined.now.network }
    ensures { OnOk result ((said : List ℕ) × SaysProof joined.now.network from.0 to.0 said × (out.new.items ≡ out.old.items ++ said)) }
{
    let proof = joined.prove(alloc, from, to)?;
    add_proof(joined.network(), from, to, &proof, out)?;
    Ok(())
}

// Appends a proof of a least bound of the network.
fn add_proof(
    net: &Network,
    from: PointId,
    to: PointId,
    proof: &Proof,
    out: &mut Vec<u8>,
) -> Result<(), OutOfMemory>
    requires from { from.0 < point_count net.now }
    requires to { to.0 < point_count net.now }
    requires shows { IsProof net.now from.0 to.0 proof.now.bound proof.now.walk proof.now.schedule }
    ensures { OnOk result (out.new.items ≡ out.old.items ++ prove_part net.now from.0 to.0 proof.now.bound proof.now.walk proof.now.schedule) }
{
    prove_part(
        net,
        from,
        to,
        proof.bound,
        &proof.walk,
        &proof.schedule,
        out,
    )?;
    Ok(())
}

// The least windows of all points but the reference point, by number.
fn least_windows(alloc: Global, joined: &Joined) -> Result<Vec<Window3>, OutOfMemory>
    ensures { IfOk result (λ v. AreLeastWindows joined.now.network v.items) }
{
    let points = joined.network().points();
    let mut windows = Vec::with_capacity(alloc, points as usize)?;
    for point in 1..points {
        windows.push(least_window(joined, PointId(point)))?;
    }
    Ok(windows)
}

// The least window of a point.
fn least_window(joined: &Joined, point: PointId) -> Window3
    requires point { (0 < point.0) × (point.0 < point_count joined.now.network) }
    ensures point { result.point ≡ point }
    ensures least { IsLeastWindow joined.now.network result }
{
    let origin = PointId(0);
    let high = origin_bound(joined, origin, point);
    let back = origin_bound(joined, point, origin);
    Window3 {
        point,
        lo: -back,
        hi: high,
    }
}

// The least bound between the reference point and another, or back. It is there, since each point has an arc from the reference point and one back.
fn origin_bound(joined: &Joined, i: PointId, j: PointId) -> i128
    requires ends { IsOriginPair joined.now.network i.0 j.0 }
    ensures least { IsLeastBound (point_count joined.now.network) (arcs_of joined.now.network) i.0 j.0 result }
    ensures light { nat_abs result ≤ greatest_walk }
{
    // With the network comes that it is valid.
    let _network = joined.network();
    match joined.bound(i, j) {
        Some(bound) => bound,
        None => unreachable!(),
    }
}
