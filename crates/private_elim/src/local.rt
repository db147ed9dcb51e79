//! An agent's local problem: the reference point, its points, and its own arcs (Boerkoel and Durfee 2013).
ghost use Rattle.std.specs.Prelude.{◌≡◌, ◌≢◌, ◌++◌, ◌∷◌, [], ◌<◌, ◌||◌, IfOk, length, map, slice_index_or, nat_eq, false, if◌then◌else◌};
ghost use Rattle.std.specs.List.{All};
ghost use Rattle.stn_model.specs.Net.{point_count};
ghost use Rattle.stn_model.specs.Valid.{IsNetwork};
ghost use Rattle.stn_model.specs.Kinds.{is_shared, is_owned_by, is_own};
ghost use Rattle.elim_step.specs.Eliminated.{point_at};
ghost use Rattle.private_elim.specs.Locals.{local_of, points_of, numbered_own, window_arcs, IsLocal, place_in, private_at, is_private_in, horizon_in, local_arc_at, IsWindowOf, IsWindow};

use crate::lists::push_where;
use elim_step::Window;
use std::alloc::Global;
use std::marker::Model;
use stn_model::{AgentId, Constraint, Kind, Network, OutOfMemory, PointId};

/// An arc of a local problem.
#[derive(Clone, Copy, PartialEq, Eq, Debug)]
pub struct LocalArc {
    /// Its number in the network. None exactly for an arc that [`Local::narrowed`] added.
    pub number: Option<u32>,
    /// The arc itself, between points of the network.
    pub arc: Constraint,
}

/// The reference point, an agent's points with their kinds, and its own arcs with their numbers; nothing else of the network. An arc is
/// own to an agent where each of its ends is the reference point or a point of that agent.
///
/// The points stand at places: the reference point at place 0, and then the agent's points by number.
#[derive(Drop)]
pub struct Local {
    agent: AgentId,
    points: Vec<u32>,
    shared: Vec<bool>,
    arcs: Vec<LocalArc>,
}

impl Model for Local {
    ghost use Rattle.private_elim.specs.Locals.{LocalView};

    ghost Value = { LocalView };

    ghost use Rattle.private_elim.specs.Views.{local_view};
    ghost use Rattle.private_elim.specs.Held.{IsHeld};

    ghost view = { local_view };

    ghost invariant = { IsHeld };
}

impl Local {
    /// The local problem of an agent, or OutOfMemory.
    pub fn of(alloc: Global, net: &Network, agent: AgentId) -> Result<Local, OutOfMemory>
        requires { agent.0 < length net.now.agents }
        ensures { IfOk result (λ l. l ≡ local_of net.now agent.0) }
    {
        let points = points_of(alloc, net, agent)?;
        let shared = kinds_of(alloc, net, &points)?;
        let arcs = own_arcs(alloc, net, agent)?;
        Ok(Local {
            agent,
            points,
            shared,
            arcs,
        })
    }

    /// This local problem with two arcs more for each window, in the windows' order: its point lies from `lo` to `hi` after the reference
    /// point. A window is of one of the points but the reference point, and `lo` and `hi` lie from 0 to 2^40.
    ///
    /// OutOfMemory where memory runs out, or where there would be 2^32 arcs or more.
    pub fn narrowed(&self, alloc: Global, windows: &[Window]) -> Result<Local, OutOfMemory>
        requires { All (IsWindowOf self.now.points) windows.now }
        ensures { IfOk result (λ l. l ≡ record self.now { arcs = self.now.arcs ++ window_arcs windows.now }) }
    {
        let room = u32::MAX as usize - self.arcs.len();
        if windows.len() > room / 2 {
            return Err(OutOfMemory);
        }
        let points = Vec::from_slice(alloc, self.points.as_slice())?;
        let shared = Vec::from_slice(alloc, self.shared.as_slice())?;
        let mut arcs = Vec::from_slice(alloc, self.arcs.as_slice())?;
        add_windows(&mut arcs, windows)?;
        Ok(Local {
            agent: self.agent,
            points,
            shared,
            arcs,
        })
    }

    /// An equal local problem, or OutOfMemory.
    pub fn copy(&self, alloc: Global) -> Result<Local, OutOfMemory>
        ensures { IfOk result (λ l. l ≡ self.now) }
    {
        let points = Vec::from_slice(alloc, self.points.as_slice())?;
        let shared = Vec::from_slice(alloc, self.shared.as_slice())?;
        let arcs = Vec::from_slice(alloc, self.arcs.as_slice())?;
        Ok(Local {
            agent: self.agent,
            points,
            shared,
            arcs,
        })
    }

    /// The agent whose local problem it is.
    pub fn agent(&self) -> AgentId
        ensures { result.0 ≡ self.now.agent }
    {
        self.agent
    }

    /// How many points there are, with the reference point: at least 1 and at most 8192.
    pub fn size(&self) -> u32
        ensures count { result ≡ length self.now.points }
        ensures valid { IsLocal self.now }
    {
        self.points.len() as u32
    }

    /// The point at a place.
    pub fn point(&self, place: u32) -> PointId
        requires { place < length self.now.points }
        ensures { result.0 ≡ point_at self.now.points place }
    {
        PointId(self.points[place as usize])
    }

    /// Whether the point at a place is shared.
    pub fn is_shared(&self, place: u32) -> bool
        requires { place < length self.now.points }
        ensures { result ≡ slice_index_or self.now.shared place false }
    {
        self.shared[place as usize]
    }

    /// Whether the point at a place is private: not the reference point, and not shared.
    pub fn is_private(&self, place: u32) -> bool
        requires { place < length self.now.points }
        ensures { result ≡ private_at self.now place }
    {
        place != 0 && !self.shared[place as usize]
    }

    /// Whether a point is one of the private points.
    pub fn is_private_point(&self, point: PointId) -> bool
        ensures { result ≡ is_private_in self.now point.0 }
    {
        let Some(place) = self.place_of(point) else {
            return false;
        };
        self.is_private(place)
    }

    /// How many arcs there are.
    pub fn arcs(&self) -> u32
        ensures count { result ≡ length self.now.arcs }
        ensures few { length self.now.arcs < 4294967296 }
    {
        self.arcs.len() as u32
    }

    /// The arc at a place among the arcs: first the agent's own arcs by number, then those that [`Local::narrowed`] added.
    pub fn arc(&self, k: u32) -> LocalArc
        requires { k < length self.now.arcs }
        ensures { result ≡ local_arc_at self.now.arcs k }
    {
        self.arcs[k as usize]
    }

    /// The place of a point; None exactly where it is no point of the local problem.
    pub fn place_of(&self, point: PointId) -> Option<u32>
        ensures { result ≡ place_in self.now.points point.0 }
    {
        match self.points.binary_search(&point.0) {
            Ok(place) => Some(place as u32),
            Err(_) => None,
        }
    }

    /// The greatest time of a point; 0 where the agent has no point.
    pub(crate) fn horizon(&self) -> i64
        ensures { result ≡ horizon_in self.now }
    {
        if self.arcs.len() == 0 {
            return 0;
        }
        self.arcs[0].arc.bound
    }
}

// The reference point and the agent's points, by number.
fn points_of(alloc: Global, net: &Network, agent: AgentId) -> Result<Vec<u32>, OutOfMemory>
    ensures points { IfOk result (λ points. points.items ≡ points_of net.now agent.0) }
    ensures known { IfOk result (λ points. All (λ p. p < point_count net.now) points.items) }
{
    let mut points = Vec::new(alloc);
    points.push(0)?;
    for p in 0..net.points() {
        push_where(&mut points, p, is_owned(net, agent, PointId(p)))?;
    }
    Ok(points)
}

// Whether each of these points is shared.
fn kinds_of(alloc: Global, net: &Network, points: &[u32]) -> Result<Vec<bool>, OutOfMemory>
    requires { All (λ p. p < point_count net.now) points.now }
    ensures { IfOk result (λ kinds. kinds.items ≡ map (is_shared net.now) points.now) }
{
    let mut kinds = Vec::with_capacity(alloc, points.len())?;
    for &p in points {
        kinds.push_reserved(is_shared(net, PointId(p)));
    }
    Ok(kinds)
}

// The agent's own arcs, by number.
fn own_arcs(alloc: Global, net: &Network, agent: AgentId) -> Result<Vec<LocalArc>, OutOfMemory>
    ensures arcs { IfOk result (λ arcs. arcs.items ≡ numbered_own net.now agent.0) }
    ensures valid { IsNetwork net.now }
{
    let mut arcs = Vec::new(alloc);
    for n in 0..net.arcs() {
        let arc = net.arc(n);
        let numbered = LocalArc {
            number: Some(n),
            arc,
        };
        push_where(&mut arcs, numbered, is_own(net, agent, arc))?;
    }
    Ok(arcs)
}

// Whether the point is the agent's.
fn is_owned(net: &Network, agent: AgentId, point: PointId) -> bool
    requires { point.0 < point_count net.now }
    ensures { result ≡ is_owned_by net.now agent.0 point.0 }
{
    net.owner(point) == Some(agent)
}

// Whether the point is shared.
fn is_shared(net: &Network, point: PointId) -> bool
    requires { point.0 < point_count net.now }
    ensures { result ≡ is_shared net.now point.0 }
{
    matches!(net.kind(point), Kind::Shared)
}

// Whether the point is the reference point or the agent's.
fn may_end(net: &Network, agent: AgentId, point: PointId) -> bool
    requires { point.0 < point_count net.now }
    ensures { result ≡ (nat_eq point.0 0 || is_owned_by net.now agent.0 point.0) }
{
    point.0 == 0 || is_owned(net, agent, point)
}

// Whether the arc is own to the agent. Its ends differ, so that one of them is not the reference point.
fn is_own(net: &Network, agent: AgentId, arc: Constraint) -> bool
    requires from_in { arc.from.0 < point_count net.now }
    requires to_in { arc.to.0 < point_count net.now }
    requires different { arc.from.0 ≢ arc.to.0 }
    ensures { result ≡ is_own net.now agent.0 arc }
{
    may_end(net, agent, arc.from) && may_end(net, agent, arc.to)
}

// Adds the two arcs of each window.
fn add_windows(arcs: &mut Vec<LocalArc>, windows: &[Window]) -> Result<(), OutOfMemory>
    requires { All IsWindow windows.now }
    ensures { IfOk result (λ _. arcs.new.items ≡ arcs.old.items ++ window_arcs windows.now) }
{
    for window in windows {
        add_window(arcs, *window)?;
    }
    Ok(())
}

// Adds the two arcs of a window.
fn add_window(arcs: &mut Vec<LocalArc>, window: Window) -> Result<(), OutOfMemory>
    requires { IsWindow window }
    ensures { IfOk result (λ _. arcs.new.items ≡ arcs.old.items ++ window_arcs (window ∷ [])) }
{
    let zero = PointId(0);
    arcs.push(added(zero, window.point, window.hi as i64))?;
    arcs.push(added(window.point, zero, -(window.lo as i64)))?;
    Ok(())
}

// An arc without a number.
fn added(from: PointId, to: PointId, bound: i64) -> LocalArc
    ensures { result ≡ record { number = None; arc = record { from = from; to = to; bound = bound } } }
{
    LocalArc {
        number: None,
        arc: Constraint { from, to, bound },
    }
}
