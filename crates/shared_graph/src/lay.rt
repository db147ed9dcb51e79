//! Arcs that come to a graph: room for their cells, the pairs that they join, and the cells that they lower.
ghost use Rattle.std.specs.Prelude.{◌≡◌, ◌≢◌, ℕ, ◌+◌, ◌<◌, ◌||◌, ◌&&◌, ◌++◌, ◌∷◌, [], ◌==◌, not, true, Some, ◌⊎◌, IfOk, OnOk, IfSome, IfNone, length, map, nat_eq, take, if◌then◌else◌};
ghost use Rattle.std.specs.List.{AllPairs};
ghost use Rattle.std.specs.Option.{option_eq};
ghost use Rattle.stn_model.specs.Arcs.{arc_at, from_at, to_at};
ghost use Rattle.stn_model.specs.Net.{horizon_pair};
ghost use Rattle.stn_model.specs.Limits.{greatest_bound};
ghost use Rattle.stn_walk.specs.Eliminations.{lesser, bound_of};
ghost use Rattle.stn_walk.specs.Joins.{has_edge};
ghost use Rattle.dist_rows.specs.Cells.{lowered};
ghost use Rattle.elim_step.specs.Eliminated.{point_at, weight_at};
ghost use Rattle.elim_step.specs.JoinedPlaces.{is_joined};
ghost use Rattle.elim_step.specs.Origins.{IsArcOf};
ghost use Rattle.elim_step.specs.Summaries.{is_valid};
ghost use Rattle.shared_graph.specs.Interfaces.{owner_in, points_of};
ghost use Rattle.shared_graph.specs.Publications.{via_of, IsOldOrLaid, AreJoining, HasRoomFor};
ghost use Rattle.shared_graph.specs.States.{agent_pairs, agent_arcs, summary_arc};

use crate::graph::place_among;
use crate::interface::Interface;
use dist_rows::{Cell, Rows, Via};
use elim_step::{Joins, Summary, SummaryEntry};
use std::alloc::Global;
use stn_model::{AgentId, Constraint, OutOfMemory, PointId};

/// The arcs that an agent publishes: the two horizon arcs of each of its shared points, then the entries of its summary.
pub(crate) fn agent_arcs(
    alloc: Global,
    interface: &Interface,
    agent: AgentId,
    summary: &Summary,
) -> Result<Vec<Constraint>, OutOfMemory>
    ensures { IfOk result (λ arcs. arcs.items ≡ agent_arcs interface.now (record { agent = agent.0; entries = summary.now })) }
{
    let mut arcs = Vec::new(alloc);
    for &point in interface.points() {
        push_horizon(interface, agent, point, &mut arcs)?;
    }
    for &entry in summary.entries() {
        arcs.push(arc_of(entry))?;
    }
    Ok(arcs)
}

// Adds the two horizon arcs of a point where it is the agent's.
fn push_horizon(
    interface: &Interface,
    agent: AgentId,
    point: PointId,
    arcs: &mut Vec<Constraint>,
) -> Result<(), OutOfMemory>
    ensures { OnOk result (arcs.new.items ≡ arcs.old.items ++ agent_pairs interface.now agent.0 (point.0 ∷ [])) }
{
    if interface.owner(point) != Some(agent) {
        return Ok(());
    }
    let origin = PointId(0);
    arcs.push(Constraint {
        from: origin,
        to: point,
        bound: interface.horizon(),
    })?;
    arcs.push(Constraint {
        from: point,
        to: origin,
        bound: 0,
    })?;
    Ok(())
}

// An entry of a summary as an arc. Its weight has magnitude at most 2^53.
fn arc_of(entry: SummaryEntry) -> Constraint
    requires { is_valid entry ≡ true }
    ensures { result ≡ summary_arc entry }
{
    Constraint {
        from: entry.from,
        to: entry.to,
        bound: entry.weight as i64,
    }
}

/// Makes room for the cell of each of these arcs, and joins their ends. Where memory runs out, no cell has changed.
pub(crate) fn open_arcs<R: Rows>(
    points: &[u32],
    arcs: &[Constraint],
    rows: &mut R,
    joins: &mut Joins,
) -> Result<(), OutOfMemory>
    requires rising { AllPairs (λ p q. p < q) points.now }
    requires joining { AreJoining points.now arcs.now }
    requires places { R.places rows.old ≡ length points.now }
    requires size { joins.old.size ≡ length points.now }
    ensures places { R.places rows.new ≡ R.places rows.old }
    ensures size { joins.new.size ≡ joins.old.size }
    ensures cells { (p q : ℕ) → R.at rows.new p q ≡ R.at rows.old p q }
    ensures room { OnOk result (HasRoomFor points.now arcs.now (R.has_room rows.new)) }
    ensures joined { OnOk result ((p q : ℕ) → p < length points.now → q < length points.now
        → is_joined joins.new p q ≡ (is_joined joins.old p q || (not (p == q) && has_edge arcs.now (point_at points.now p) (point_at points.now q)))) }
{
    for n in 0..arcs.len() {
        open_arc(points, arcs, n, rows, joins)?;
    }
    Ok(())
}

// The same for one of them.
fn open_arc<R: Rows>(
    points: &[u32],
    arcs: &[Constraint],
    n: usize,
    rows: &mut R,
    joins: &mut Joins,
) -> Result<(), OutOfMemory>
    requires rising { AllPairs (λ p q. p < q) points.now }
    requires joining { AreJoining points.now arcs.now }
    requires within { n < length arcs.now }
    requires places { R.places rows.old ≡ length points.now }
    requires size { joins.old.size ≡ length points.now }
    ensures places { R.places rows.new ≡ R.places rows.old }
    ensures size { joins.new.size ≡ joins.old.size }
    ensures cells { (p q : ℕ) → R.at rows.new p q ≡ R.at rows.old p q }
    ensures kept { (p q : ℕ) → R.has_room rows.old p q ≡ true → R.has_room rows.new p q ≡ true }
    ensures room { OnOk result ((p q : ℕ) → p < length points.now → q < length points.now → from_at arcs.now n ≡ point_at points.now p
        → to_at arcs.now n ≡ point_at points.now q → R.has_room rows.new p q ≡ true) }
    ensures joined { OnOk result ((p q : ℕ) → p < length points.now → q < length points.now
        → is_joined joins.new p q ≡ (is_joined joins.old p q || (not (p == q) && has_edge (arc_at arcs.now n ∷ []) (point_at points.now p) (point_at points.now q)))) }
{
    let arc = arcs[n];
    let Some(from) = place_among(points, arc.from.0) else {
        unreachable!()
    };
    let Some(to) = place_among(points, arc.to.0) else {
        unreachable!()
    };
    rows.make_room(from, to)?;
    joins.join(from, to)?;
    Ok(())
}

/// Lowers the cell of each of these arcs, whose pairs have room, to its bound. They are external arcs, by place, or those of an agent. Takes no
/// memory.
pub(crate) fn lower_arcs<R: Rows>(
    points: &[u32],
    arcs: &[Constraint],
    agent: Option<AgentId>,
    rows: &mut R,
)
    requires rising { AllPairs (λ p q. p < q) points.now }
    requires joining { AreJoining points.now arcs.now }
    requires few { IfNone agent (length arcs.now < 4294967296) }
    requires places { R.places rows.old ≡ length points.now }
    requires room { HasRoomFor points.now arcs.now (R.has_room rows.old) }
    ensures places { R.places rows.new ≡ R.places rows.old }
    ensures weights { (p q : ℕ) → p < length points.now → q < length points.now
        → weight_at (R.at rows.new p q) ≡ lesser (weight_at (R.at rows.old p q)) (bound_of arcs.now (point_at points.now p) (point_at points.now q)) }
    ensures laid { (p q : ℕ) → IsOldOrLaid points.now arcs.now agent p q (R.at rows.old p q) (R.at rows.new p q) }
{
    for n in 0..arcs.len() {
        lower_arc(points, arcs, n, agent, rows);
    }
}

// The same for one of them.
fn lower_arc<R: Rows>(
    points: &[u32],
    arcs: &[Constraint],
    n: usize,
    agent: Option<AgentId>,
    rows: &mut R,
)
    requires rising { AllPairs (λ p q. p < q) points.now }
    requires joining { AreJoining points.now arcs.now }
    requires few { IfNone agent (length arcs.now < 4294967296) }
    requires within { n < length arcs.now }
    requires places { R.places rows.old ≡ length points.now }
    requires room { HasRoomFor points.now arcs.now (R.has_room rows.old) }
    ensures places { R.places rows.new ≡ R.places rows.old }
    ensures room { (p q : ℕ) → R.has_room rows.new p q ≡ R.has_room rows.old p q }
    ensures weights { (p q : ℕ) → p < length points.now → q < length points.now
        → weight_at (R.at rows.new p q) ≡ lesser (weight_at (R.at rows.old p q)) (bound_of (arc_at arcs.now n ∷ []) (point_at points.now p) (point_at points.now q)) }
    ensures laid { (p q : ℕ) → (R.at rows.new p q ≡ R.at rows.old p q)
        ⊎ ((c : Cell) × (R.at rows.new p q ≡ Some c) × IsArcOf points.now arcs.now p q c n × (c.via ≡ via_of agent n)) }
{
    let arc = arcs[n];
    let Some(from) = place_among(points, arc.from.0) else {
        unreachable!()
    };
    let Some(to) = place_among(points, arc.to.0) else {
        unreachable!()
    };
    rows.lower(
        from,
        to,
        Cell {
            weight: i128::from(arc.bound),
            via: via_of(agent, n),
        },
    );
}

// Where the weight of the arc of this number comes from.
fn via_of(agent: Option<AgentId>, n: usize) -> Via
    requires { IfNone agent (n < 4294967296) }
    ensures { result ≡ via_of agent n }
{
    match agent {
        None => Via::Given(n as u32),
        Some(agent) => Via::Published(agent),
    }
}
