//! What all agents know of a network from the start.
ghost use Rattle.std.specs.Prelude.{◌≡◌, ◌↔◌, ◌∷◌, [], ◌++◌, ◌<◌, ◌^◌, IfOk, IfSome, IsTrue, length, map, nat_eq, slice_index_or, if◌then◌else◌, None, replicate};
ghost use Rattle.std.specs.List.{All};
ghost use Rattle.std.specs.Option.{option_map};
ghost use Rattle.stn_model.specs.declared.ids.Lean.TheVariants.{Early};
ghost use Rattle.stn_model.specs.Arcs.{arc_at};
ghost use Rattle.stn_model.specs.Net.{point_count, arcs_of, owner_of};
ghost use Rattle.stn_model.specs.Kinds.{is_external, is_shared};
ghost use Rattle.stn_model.specs.Conflicts.{external_arcs};
ghost use Rattle.shared_graph.specs.Views.{listed_from, own_after, AreOwn};
ghost use Rattle.shared_graph.specs.Interfaces.{IsInterface, IsFitting, IsEnd, points_of, own_points_of, owner_in, shared_points, interface_of};

use crate::lists::push_where;
use elim_step::Summary;
use std::alloc::Global;
use std::cmp::max;
use std::marker::Model;
use stn_model::{AgentId, Constraint, Kind, Lean, Network, OutOfMemory, PointId};

/// What all agents know of a network from the start: the agents with their leans, the shared points with their owners, the external arcs, and the
/// horizon. Nothing that is private to an agent is in it: an external arc is named by its place among the external arcs, counted from 0, so that
/// other agents' own arcs do not shift it.
#[derive(Drop)]
pub struct Interface {
    horizon: i64,
    leans: Vec<Lean>,
    points: Vec<PointId>,
    /// For each point, by number, its owner where it is shared.
    owners: Vec<Option<AgentId>>,
    /// For each agent, its shared points, by number.
    own: Vec<Vec<PointId>>,
    externals: Vec<Constraint>,
}

impl Model for Interface {
    ghost use Rattle.shared_graph.specs.Interfaces.{InterfaceView};

    ghost Value = { InterfaceView };

    ghost use Rattle.shared_graph.specs.Views.{interface_view, IsKept};

    ghost view = { interface_view };

    ghost invariant = { IsKept };
}

impl Interface {
    /// The interface of a network, or OutOfMemory. It is the same for two networks that differ in one agent's own arcs alone.
    pub fn of(alloc: Global, net: &Network) -> Result<Interface, OutOfMemory>
        ensures whole { IfOk result (λ face. face ≡ interface_of net.now) }
        ensures agents { IfOk result (λ face. face.leans ≡ map (λ a. a.lean) net.now.agents) }
        ensures points { IfOk result (λ face. face.points ≡ shared_points net.now (length net.now.places)) }
        ensures externals { IfOk result (λ face. face.externals ≡ external_arcs net.now) }
        ensures horizon { IfOk result (λ face. face.horizon ≡ net.now.horizon) }
    {
        let leans = leans_of(alloc, net)?;
        let (points, owners) = shared_of(alloc, net)?;
        let own = own_of(alloc, net.agents(), owners.as_slice())?;
        let externals = externals_of(alloc, net)?;
        Ok(Interface {
            horizon: net.horizon(),
            leans,
            points,
            owners,
            own,
            externals,
        })
    }

    /// How many agents there are: at most 64.
    pub fn agents(&self) -> u32
        ensures { result ≡ length self.now.leans }
    {
        self.leans.len() as u32
    }

    /// The lean of an agent.
    pub fn lean(&self, agent: AgentId) -> Lean
        requires { agent.0 < length self.now.leans }
        ensures { result ≡ slice_index_or self.now.leans agent.0 Early }
    {
        self.leans[agent.0 as usize]
    }

    /// The horizon: the greatest time of any point.
    pub fn horizon(&self) -> i64
        ensures { result ≡ self.now.horizon }
    {
        self.horizon
    }

    /// The shared points, by number.
    pub fn points(&self) -> &[PointId]
        ensures points { map (λ p. p.0) result.now ≡ points_of self.now }
        ensures valid { IsInterface self.now }
    {
        &self.points
    }

    /// The shared points of an agent, by number.
    pub fn own_points(&self, agent: AgentId) -> &[PointId]
        requires { agent.0 < length self.now.leans }
        ensures points { map (λ p. p.0) result.now ≡ own_points_of self.now agent.0 }
        ensures valid { IsInterface self.now }
    {
        self.own[agent.0 as usize].as_slice()
    }

    /// The owner of a shared point; None exactly where the point is not shared.
    pub fn owner(&self, p: PointId) -> Option<AgentId>
        ensures { option_map (λ a. a.0) result ≡ owner_in self.now p.0 }
    {
        match self.owners.get(p.0 as usize) {
            None => None,
            Some(owner) => *owner,
        }
    }

    /// How many external arcs there are.
    pub fn externals(&self) -> u32
        ensures { result ≡ length self.now.externals }
    {
        self.externals.len() as u32
    }

    /// The external arc at a place.
    pub fn external(&self, e: u32) -> Constraint
        requires { e < length self.now.externals }
        ensures { result ≡ arc_at self.now.externals e }
    {
        self.externals[e as usize]
    }

    /// The external arcs, by place.
    pub(crate) fn external_arcs(&self) -> &[Constraint]
        ensures arcs { result.now ≡ self.now.externals }
        ensures valid { IsInterface self.now }
    {
        &self.externals
    }

    /// Whether the summary fits the agent: true exactly where each of its entries names only the reference point and shared points of that agent.
    pub fn fits(&self, agent: AgentId, summary: &Summary) -> bool
        requires { agent.0 < length self.now.leans }
        ensures { IsTrue result ↔ IsFitting self.now agent.0 summary.now }
    {
        for entry in summary.entries() {
            if !self.is_end(agent, entry.from) || !self.is_end(agent, entry.to) {
                return false;
            }
        }
        true
    }

    /// An equal interface, or OutOfMemory.
    pub fn copy(&self, alloc: Global) -> Result<Interface, OutOfMemory>
        ensures { IfOk result (λ face. face ≡ self.now) }
    {
        let leans = Vec::from_slice(alloc, self.leans.as_slice())?;
        let points = Vec::from_slice(alloc, self.points.as_slice())?;
        let owners = Vec::from_slice(alloc, self.owners.as_slice())?;
        let own = copy_own(alloc, self.own.as_slice())?;
        let externals = Vec::from_slice(alloc, self.externals.as_slice())?;
        Ok(Interface {
            horizon: self.horizon,
            leans,
            points,
            owners,
            own,
            externals,
        })
    }

    /// Whether two interfaces are equal.
    pub(crate) fn is_same(&self, other: &Interface) -> bool
        ensures { IsTrue result ↔ (self.now ≡ other.now) }
    {
        if self.horizon != other.horizon {
            return false;
        }
        if !same_leans(self.leans.as_slice(), other.leans.as_slice()) {
            return false;
        }
        if !same_owners(self.owners.as_slice(), other.owners.as_slice()) {
            return false;
        }
        same_arcs(self.externals.as_slice(), other.externals.as_slice())
    }

    /// Whether the point is the reference point or a shared point of the agent.
    fn is_end(&self, agent: AgentId, p: PointId) -> bool
        ensures { IsTrue result ↔ IsEnd self.now agent.0 p.0 }
    {
        p.0 == 0 || self.owner(p) == Some(agent)
    }
}

// Whether two lists of leans are equal.
fn same_leans(one: &[Lean], other: &[Lean]) -> bool
    ensures { IsTrue result ↔ (one.now ≡ other.now) }
{
    one == other
}

// Whether two tables list the same owners, by point.
fn same_owners(one: &[Option<AgentId>], other: &[Option<AgentId>]) -> bool
    ensures { IsTrue result ↔ (listed_from 0 one.now ≡ listed_from 0 other.now) }
{
    for p in 0..max(one.len(), other.len()) {
        if owner_at(one, p) != owner_at(other, p) {
            return false;
        }
    }
    true
}

// The owner in a table of a point by number, where it has one.
fn owner_at(owners: &[Option<AgentId>], p: usize) -> Option<AgentId>
    ensures { result ≡ slice_index_or owners.now p None }
{
    if p < owners.len() {
        return owners[p];
    }
    None
}

// Whether two lists of arcs are equal.
fn same_arcs(one: &[Constraint], other: &[Constraint]) -> bool
    ensures { IsTrue result ↔ (one.now ≡ other.now) }
{
    one == other
}

/// The agents' leans, by number.
fn leans_of(alloc: Global, net: &Network) -> Result<Vec<Lean>, OutOfMemory>
    ensures { IfOk result (λ leans. leans.items ≡ map (λ a. a.lean) net.now.agents) }
{
    let mut leans = Vec::with_capacity(alloc, net.agents() as usize)?;
    for a in 0..net.agents() {
        leans.push(net.lean(AgentId(a)))?;
    }
    Ok(leans)
}

/// The shared points, by number, and for each point, by number, its owner where it is shared.
fn shared_of(
    alloc: Global,
    net: &Network,
) -> Result<(Vec<PointId>, Vec<Option<AgentId>>), OutOfMemory>
    ensures points { IfOk result (λ parts. map (λ p. p.0) parts.0.items ≡ map (λ q. q.point) (shared_points net.now (length net.now.places))) }
    ensures owners { IfOk result (λ parts. listed_from 0 parts.1.items ≡ shared_points net.now (length net.now.places)) }
    ensures rows { IfOk result (λ parts. length parts.1.items ≡ point_count net.now) }
{
    let mut points = Vec::new(alloc);
    let mut owners = Vec::with_capacity(alloc, net.points() as usize)?;
    owners.push(None)?;
    for p in 1..net.points() {
        let point = PointId(p);
        let owner = shared_owner(net, point);
        push_where(&mut points, point, owner.is_some())?;
        owners.push(owner)?;
    }
    Ok((points, owners))
}

/// For each agent, its shared points, by number.
fn own_of(
    alloc: Global,
    agents: u32,
    owners: &[Option<AgentId>],
) -> Result<Vec<Vec<PointId>>, OutOfMemory>
    requires few { length owners.now < 2 ^ 32 }
    requires agents { All (λ q. q.owner < agents) (listed_from 0 owners.now) }
    ensures { IfOk result (λ own. AreOwn agents (listed_from 0 owners.now) (map (λ l. l.items) own.items)) }
{
    let mut own = no_points(alloc, agents)?;
    for p in 0..owners.len() {
        push_own(&mut own, PointId(p as u32), owners[p])?;
    }
    Ok(own)
}

/// For each agent an empty list.
fn no_points(alloc: Global, agents: u32) -> Result<Vec<Vec<PointId>>, OutOfMemory>
    ensures { IfOk result (λ own. map (λ l. l.items) own.items ≡ replicate agents []) }
{
    let mut own = Vec::with_capacity(alloc, agents as usize)?;
    for _ in 0..agents {
        own.push(Vec::new(alloc))?;
    }
    Ok(own)
}

/// Puts a point at the end of its owner's list, where it has an owner.
fn push_own(
    own: &mut Vec<Vec<PointId>>,
    point: PointId,
    owner: Option<AgentId>,
) -> Result<(), OutOfMemory>
    requires { IfSome owner (λ a. a.0 < length own.old.items) }
    ensures { IfOk result (λ _. map (λ l. l.items) own.new.items ≡ own_after (map (λ l. l.items) own.old.items) point owner) }
{
    if let Some(agent) = owner {
        own[agent.0 as usize].push(point)?;
    }
    Ok(())
}

/// The same lists.
fn copy_own(alloc: Global, own: &[Vec<PointId>]) -> Result<Vec<Vec<PointId>>, OutOfMemory>
    ensures { IfOk result (λ copies. map (λ l. l.items) copies.items ≡ map (λ l. l.items) own.now) }
{
    let mut copies = Vec::with_capacity(alloc, own.len())?;
    for list in own {
        copies.push(Vec::from_slice(alloc, list.as_slice())?)?;
    }
    Ok(copies)
}

/// The owner of a point where it is shared.
fn shared_owner(net: &Network, p: PointId) -> Option<AgentId>
    requires { p.0 < point_count net.now }
    ensures { option_map (λ a. a.0) result ≡ (if is_shared net.now p.0 then owner_of net.now p.0 else None) }
{
    if net.kind(p) == Kind::Shared {
        net.owner(p)
    } else {
        None
    }
}

/// The external arcs, in the order of their numbers.
fn externals_of(alloc: Global, net: &Network) -> Result<Vec<Constraint>, OutOfMemory>
    ensures { IfOk result (λ arcs. arcs.items ≡ external_arcs net.now) }
{
    let mut arcs = Vec::new(alloc);
    for n in 0..net.arcs() {
        let arc = net.arc(n);
        push_where(&mut arcs, arc, is_external(net, arc))?;
    }
    Ok(arcs)
}

/// Whether the ends of the arc have different owners, and neither is the reference point.
fn is_external(net: &Network, arc: Constraint) -> bool
    requires from_in { arc.from.0 < point_count net.now }
    requires to_in { arc.to.0 < point_count net.now }
    ensures { result ≡ is_external net.now arc }
{
    arc.from.0 != 0 && arc.to.0 != 0 && net.owner(arc.from) != net.owner(arc.to)
}
