//! Networks: agents, their points, acts and arcs between points, with the refusals of the calls that add them.
ghost use Rattle.std.specs.Prelude.{◌≡◌, ◌≢◌, ℕ, ◌+◌, ◌-◌, ◌*◌, ◌<◌, ◌≤◌, ◌++◌, ◌∷◌, [], ◌≤ℤ◌, ◌-ℤ◌, length, pos, IsTrue, IsOkUnless, IsErrOf, MatchOption, IfOk, OnErr, OnOk, IfSome, slice_get, slice_index_or, ◌↔◌, IsErr, ◌⊎◌, neg_ℤ, int_le, true, false, None, if◌then◌else◌};
ghost use Rattle.std.specs.Str.{bytes_eq};
ghost use Rattle.indexmap.specs.IndexMap.{spare, get};
ghost use Rattle.stn_model.specs.Limits.{greatest_bound};
ghost use Rattle.stn_model.specs.Refusals.{agent_refusal, point_refusal, named_act_refusal, act_refusal, arc_refusal, is_beyond};
ghost use Rattle.stn_model.specs.Net.{find_agent, find_point, point_count, arcs_of, fixed_count, is_given, with_act, with_bound, act_pair, no_act, owner_of, lean_of, agent_name_of, point_name_of, act_name_of, act_start_name, act_end_name};
ghost use Rattle.stn_model.specs.Kinds.{kind_of, is_external};
ghost use Rattle.stn_model.specs.Flags.{AreEnds, marked};
ghost use Rattle.stn_model.specs.Valid.{IsNetwork, IsArcWithin, IsActWithin};
ghost use Rattle.stn_model.specs.Arcs.{arc_at, no_arc};
ghost use Rattle.stn_model.specs.Schedules.{Satisfies, time_at};
ghost use Rattle.stn_model.specs.Times.{IsTime};
ghost use Rattle.std.specs.List.{All};
ghost use Rattle.std.specs.Option.{option_map};

use crate::error::{NetError, OutOfMemory};
use crate::ids::{Act, AgentId, Constraint, Kind, Lean, PointId};
use crate::limits::{GREATEST_BOUND, MOST_AGENTS, MOST_ARCS, MOST_POINTS};
use crate::names::{end_name, is_name, start_name};
use crate::schedule::Schedule;
use indexmap::IndexMap;
use std::alloc::Global;
use std::marker::Model;

/// A simple temporal network (Dechter, Meiri and Pearl 1991) whose points belong to agents (Boerkoel and Durfee 2013).
///
/// Point 0 is the reference point `z`, at time 0, which no agent owns. Each other point lies from 0 to the horizon, which its two arcs
/// with `z` say. Times, bounds and the horizon are whole numbers of one unit, which the caller chooses.
#[derive(Drop)]
pub struct Network {
    horizon: i64,
    agents: IndexMap<Vec<u8>, Lean>,
    places: IndexMap<Vec<u8>, AgentId>,
    acts: Vec<Act>,
    given: Vec<Constraint>,
    /// For each point from 1 on, whether an external arc names it.
    shared: Vec<bool>,
}

impl Model for Network {
    ghost use Rattle.stn_model.specs.Net.{Net};

    ghost Value = { Net };

    ghost use Rattle.stn_model.specs.Views.{view_of, IsWhole};

    ghost view = { view_of };

    ghost invariant = { IsWhole };
}

impl Network {
    /// A network of the reference point alone. It takes no memory.
    ///
    /// HorizonRange exactly where the horizon is below 0 or above 2^40; there is no other error.
    pub fn new(alloc: Global, horizon: i64) -> Result<Self, NetError>
        ensures ok { IfOk result (λ net. net ≡ record { horizon = horizon; agents = []; places = []; acts = []; given = [] }) }
        ensures refused { IsErr result ↔ ((pos 0 ≤ℤ horizon × horizon ≤ℤ pos greatest_bound) → ⊥) }
        ensures error { IsOkUnless result NetError.HorizonRange }
    {
        if horizon < 0 || horizon > GREATEST_BOUND {
            return Err(NetError::HorizonRange);
        }
        Ok(Network {
            horizon,
            agents: IndexMap::new(alloc),
            places: IndexMap::new(alloc),
            acts: Vec::new(alloc),
            given: Vec::new(alloc),
            shared: Vec::new(alloc),
        })
    }

    /// Which time of its window the agent takes for a shared point.
    pub fn lean(&self, agent: AgentId) -> Lean
        requires { agent.0 < length self.now.agents }
        ensures { result ≡ lean_of self.now agent.0 }
    {
        self.agents[agent.0 as usize]
    }

    /// The name of an agent.
    pub fn agent_name(&self, agent: AgentId) -> &[u8]
        requires { agent.0 < length self.now.agents }
        ensures { result.now ≡ agent_name_of self.now agent.0 }
    {
        let Some((name, _)) = self.agents.get_index(agent.0 as usize) else {
            unreachable!()
        };
        name.as_slice()
    }

    /// The name of a point; that of the reference point is `z`.
    pub fn point_name(&self, p: PointId) -> &[u8]
        requires { p.0 < point_count self.now }
        ensures { result.now ≡ point_name_of self.now p.0 }
    {
        if p.0 == 0 {
            return b"z";
        }
        let Some((name, _)) = self.places.get_index(p.0 as usize - 1) else {
            unreachable!()
        };
        name.as_slice()
    }

    /// The agent of that name; None exactly where no agent has it.
    pub fn find_agent(&self, name: &[u8]) -> Option<AgentId>
        ensures { option_map (λ a. a.0) result ≡ find_agent self.now name.now }
    {
        match self.agents.get_index_of(name) {
            None => None,
            Some(place) => Some(AgentId(place as u32)),
        }
    }

    /// The point of that name, and point 0 for `z`; None exactly where no point has it.
    pub fn find(&self, name: &[u8]) -> Option<PointId>
        ensures { option_map (λ p. p.0) result ≡ find_point self.now name.now }
    {
        if name == b"z".as_slice() {
            return Some(PointId(0));
        }
        match self.places.get_index_of(name) {
            None => None,
            Some(place) => Some(PointId(place as u32 + 1)),
        }
    }

    /// How many agents there are.
    pub fn agents(&self) -> u32
        ensures count { result ≡ length self.now.agents }
        ensures valid { IsNetwork self.now }
    {
        self.agents.len() as u32
    }

    /// How many points there are, with the reference point.
    pub fn points(&self) -> u32
        ensures count { result ≡ point_count self.now }
        ensures valid { IsNetwork self.now }
    {
        self.places.len() as u32 + 1
    }

    /// How many acts there are.
    pub fn acts(&self) -> u32
        ensures count { result ≡ length self.now.acts }
        ensures valid { IsNetwork self.now }
    {
        self.acts.len() as u32
    }

    /// The act of that number.
    pub fn act(&self, k: u32) -> Act
        requires { k < length self.now.acts }
        ensures act { result ≡ slice_index_or self.now.acts k no_act }
        ensures within { IsActWithin self.now.places result }
    {
        self.acts[k as usize]
    }

    /// The name of an act: its points are `NAME.s` and `NAME.e`.
    pub fn act_name(&self, k: u32) -> &[u8]
        requires { k < length self.now.acts }
        ensures name { result.now ≡ act_name_of self.now k }
        ensures start { point_name_of self.now (slice_index_or self.now.acts k no_act).start.0 ≡ act_start_name result.now }
        ensures end { point_name_of self.now (slice_index_or self.now.acts k no_act).end.0 ≡ act_end_name result.now }
    {
        let start = self.point_name(self.act(k).start);
        &start[..start.len() - 2]
    }

    /// How many arcs there are: two for each point but `z`, two for each act, and the given ones.
    pub fn arcs(&self) -> u32
        ensures count { result ≡ length (arcs_of self.now) }
        ensures valid { IsNetwork self.now }
    {
        self.fixed_arcs() + self.given.len() as u32
    }

    /// How many arcs were not given.
    fn fixed_arcs(&self) -> u32
        ensures count { result ≡ fixed_count self.now }
    {
        2 * self.places.len() as u32 + 2 * self.acts.len() as u32
    }

    /// The greatest time of a point, from 0 to 2^40.
    pub fn horizon(&self) -> i64
        ensures horizon { result ≡ self.now.horizon }
        ensures valid { IsNetwork self.now }
    {
        self.horizon
    }

    /// Adds an agent, and gives its number, which is how many there were.
    ///
    /// The first of these that holds is the error: NameBad where the bytes are no name; NameTaken where an agent has it (points have
    /// names of their own); TooManyAgents where there are 64; OutOfMemory. After an error nothing is changed.
    pub fn add_agent(&mut self, alloc: Global, name: &[u8], lean: Lean) -> Result<AgentId, NetError>
        ensures refusals { MatchOption (agent_refusal self.old name.now) (IsOkUnless result NetError.OutOfMemory) (IsErrOf result) }
        ensures ok { IfOk result (λ a. (a.0 ≡ length self.old.agents)
            × (self.new ≡ record self.old { agents = self.old.agents ++ record { name = name.now; lean = lean } ∷ [] })) }
        ensures err { OnErr result (self.new ≡ self.old) }
    {
        if !is_name(name) {
            return Err(NetError::NameBad);
        }
        if self.find_agent(name).is_some() {
            return Err(NetError::NameTaken);
        }
        let number = self.agents();
        if number >= MOST_AGENTS {
            return Err(NetError::TooManyAgents);
        }
        let Ok(name) = Vec::from_slice(alloc, name) else {
            return Err(NetError::OutOfMemory);
        };
        let Ok(_) = self.agents.insert(name, lean) else {
            return Err(NetError::OutOfMemory);
        };
        Ok(AgentId(number))
    }

    /// Adds a point of an agent, and gives its number p, which is how many there were. Its arcs `(z, p, horizon)` and `(p, z, 0)` get the
    /// numbers `2p - 2` and `2p - 1`.
    ///
    /// The first of these that holds is the error: NameBad where the bytes are no name; NameTaken where a point has it, or it is `z`;
    /// PointsClosed where an arc was given; TooManyPoints where there are 8192; OutOfMemory. After an error nothing is changed.
    pub fn add_point(
        &mut self,
        alloc: Global,
        agent: AgentId,
        name: &[u8],
    ) -> Result<PointId, NetError>
        requires { agent.0 < length self.old.agents }
        ensures refusals { MatchOption (point_refusal self.old name.now) (IsOkUnless result NetError.OutOfMemory) (IsErrOf result) }
        ensures ok { IfOk result (λ p. (p.0 ≡ point_count self.old)
            × (self.new ≡ record self.old { places = self.old.places ++ record { name = name.now; owner = agent.0 } ∷ [] })) }
        ensures err { OnErr result (self.new ≡ self.old) }
    {
        if !is_name(name) {
            return Err(NetError::NameBad);
        }
        if self.find(name).is_some() {
            return Err(NetError::NameTaken);
        }
        if self.given.len() != 0 {
            return Err(NetError::PointsClosed);
        }
        let number = self.points();
        if number >= MOST_POINTS {
            return Err(NetError::TooManyPoints);
        }
        let Ok(name) = Vec::from_slice(alloc, name) else {
            return Err(NetError::OutOfMemory);
        };
        let Ok(()) = self.shared.reserve(1) else {
            return Err(NetError::OutOfMemory);
        };
        let Ok(_) = self.places.insert(name, agent) else {
            return Err(NetError::OutOfMemory);
        };
        self.shared.push_reserved(false);
        Ok(PointId(number))
    }

    /// Adds an act of an agent, and gives its number, which is how many there were: the points `NAME.s` and `NAME.e`, in this order, where
    /// the act starts and ends. With m points then, act k has the arcs `(start, end, high)` and `(end, start, -low)`, with the numbers
    /// `2m - 2 + 2k` and the next. `low` and `high` are its least and greatest duration; `low` may be above `high`.
    ///
    /// The first of these that holds is the error: NameBad where `NAME.s` is no name; NameTaken where a point has one of the two names;
    /// PointsClosed where an arc was given; TooManyPoints where there is no room for two; NegativeDuration where `low` is below 0;
    /// BoundRange where `high` or `low` has magnitude above 2^40; OutOfMemory. After an error nothing is changed.
    pub fn add_act(
        &mut self,
        alloc: Global,
        agent: AgentId,
        name: &[u8],
        low: i64,
        high: i64,
    ) -> Result<u32, NetError>
        requires { agent.0 < length self.old.agents }
        ensures refusals { MatchOption (act_refusal self.old name.now low high) (IsOkUnless result NetError.OutOfMemory) (IsErrOf result) }
        ensures ok { IfOk result (λ k. (k ≡ length self.old.acts) × (self.new ≡ with_act self.old agent.0 name.now low high)) }
        ensures err { OnErr result (self.new ≡ self.old) }
    {
        let (Some(start), Some(end)) = (start_name(name), end_name(name)) else {
            return Err(NetError::NameBad);
        };
        match self.act_refusal(start.as_slice(), end.as_slice(), low, high) {
            Some(error) => return Err(error),
            None => {}
        }
        let number = self.acts();
        let Ok(start) = Vec::from_slice(alloc, start.as_slice()) else {
            return Err(NetError::OutOfMemory);
        };
        let Ok(end) = Vec::from_slice(alloc, end.as_slice()) else {
            return Err(NetError::OutOfMemory);
        };
        let point = self.points();
        let act = Act {
            start: PointId(point),
            end: PointId(point + 1),
            low,
            high,
        };
        let Ok(()) = self.places.reserve(2) else {
            return Err(NetError::OutOfMemory);
        };
        let Ok(()) = self.shared.reserve(2) else {
            return Err(NetError::OutOfMemory);
        };
        let Ok(()) = self.acts.reserve(1) else {
            return Err(NetError::OutOfMemory);
        };
        self.acts.push_reserved(act);
        insert_two(&mut self.places, start, end, agent);
        self.shared.push_reserved(false);
        self.shared.push_reserved(false);
        Ok(number)
    }

    /// Adds an arc, and gives its number, which is how many there were. An arc is kept as it is given, also beside an equal one, or with a
    /// bound above the horizon.
    ///
    /// The first of these that holds is the error: SamePoint where the ends are one point; BoundRange where the bound has magnitude above
    /// 2^40; TooManyArcs where there are 65536 given arcs and arcs of acts; OutOfMemory. After an error nothing is changed.
    pub fn add_arc(&mut self, from: PointId, to: PointId, bound: i64) -> Result<u32, NetError>
        requires from_in { from.0 < point_count self.old }
        requires to_in { to.0 < point_count self.old }
        ensures refusals { MatchOption (arc_refusal self.old from.0 to.0 bound) (IsOkUnless result NetError.OutOfMemory) (IsErrOf result) }
        ensures ok { IfOk result (λ n. (n ≡ length (arcs_of self.old))
            × (self.new ≡ record self.old { given = self.old.given ++ record { from = from; to = to; bound = bound } ∷ [] })) }
        ensures err { OnErr result (self.new ≡ self.old) }
    {
        if from.0 == to.0 {
            return Err(NetError::SamePoint);
        }
        if is_beyond(bound) {
            return Err(NetError::BoundRange);
        }
        if 2 * self.acts.len() + self.given.len() >= MOST_ARCS as usize {
            return Err(NetError::TooManyArcs);
        }
        let number = self.arcs();
        let arc = Constraint { from, to, bound };
        let external = self.is_external(arc);
        let Ok(()) = self.given.push(arc) else {
            return Err(NetError::OutOfMemory);
        };
        mark_ends(&mut self.shared, from, to, external);
        Ok(number)
    }

    /// Whether `add_arc` added the arc of that number, withdrawn since or not: false for arcs with `z` that each point has, for arcs of acts,
    /// and for numbers that no arc has.
    pub fn is_given(&self, n: u32) -> bool
        ensures { result ≡ is_given self.now n }
    {
        self.fixed_arcs() <= n && n < self.arcs()
    }

    /// Gives a given arc another bound. It keeps its number and its ends, and all else stays.
    pub fn set_bound(&mut self, n: u32, bound: i64)
        requires given { IsTrue (is_given self.old n) }
        requires low { neg_ℤ (pos greatest_bound) ≤ℤ bound }
        requires high { bound ≤ℤ pos greatest_bound }
        ensures { self.new ≡ with_bound self.old n bound }
    {
        let place = (n - self.fixed_arcs()) as usize;
        let arc = self.given[place];
        self.given[place] = Constraint {
            from: arc.from,
            to: arc.to,
            bound,
        };
    }

    /// Withdraws a given arc: its bound becomes the horizon, which the arcs of its ends with `z` imply, so it forbids nothing more. It keeps
    /// its number and its ends, and all else stays; a point that it made shared stays shared.
    pub fn withdraw(&mut self, n: u32)
        requires { IsTrue (is_given self.old n) }
        ensures { self.new ≡ with_bound self.old n self.old.horizon }
    {
        let horizon = self.horizon();
        self.set_bound(n, horizon);
    }

    /// The arc of that number: `2p - 2` is `(z, p, horizon)` and `2p - 1` is `(p, z, 0)` for each point p from 1 on, the two arcs of each act
    /// follow, and then the given arcs in the order in which they were added.
    pub fn arc(&self, n: u32) -> Constraint
        requires { n < length (arcs_of self.now) }
        ensures arc { result ≡ arc_at (arcs_of self.now) n }
        ensures within { IsArcWithin (point_count self.now) result }
    {
        let fixed = self.fixed_arcs();
        if n >= fixed {
            return self.given[(n - fixed) as usize];
        }
        let pairs = 2 * self.places.len() as u32;
        if n >= pairs {
            let act = self.act((n - pairs) / 2);
            return side_of(act, n % 2 == 0);
        }
        let point = PointId(n / 2 + 1);
        if n % 2 == 0 {
            Constraint {
                from: PointId(0),
                to: point,
                bound: self.horizon,
            }
        } else {
            Constraint {
                from: point,
                to: PointId(0),
                bound: 0,
            }
        }
    }

    /// The owner of a point; None exactly for the reference point.
    pub fn owner(&self, p: PointId) -> Option<AgentId>
        requires { p.0 < point_count self.now }
        ensures { option_map (λ a. a.0) result ≡ owner_of self.now p.0 }
    {
        if p.0 == 0 {
            return None;
        }
        match self.places.get_index(p.0 as usize - 1) {
            None => None,
            Some((_, agent)) => Some(*agent),
        }
    }

    /// An equal network, or OutOfMemory.
    pub fn copy(&self, alloc: Global) -> Result<Network, OutOfMemory>
        ensures { IfOk result (λ net. net ≡ self.now) }
    {
        let Ok(agents) = self.agents.clone() else {
            return Err(OutOfMemory);
        };
        let Ok(places) = self.places.clone() else {
            return Err(OutOfMemory);
        };
        let Ok(acts) = Vec::from_slice(alloc, self.acts.as_slice()) else {
            return Err(OutOfMemory);
        };
        let Ok(given) = Vec::from_slice(alloc, self.given.as_slice()) else {
            return Err(OutOfMemory);
        };
        let Ok(shared) = Vec::from_slice(alloc, self.shared.as_slice()) else {
            return Err(OutOfMemory);
        };
        Ok(Network {
            horizon: self.horizon,
            agents,
            places,
            acts,
            given,
            shared,
        })
    }

    /// Reference for `z`, Shared where an external arc names the point, and Private where none does.
    pub fn kind(&self, p: PointId) -> Kind
        requires { p.0 < point_count self.now }
        ensures { result ≡ kind_of self.now p.0 }
    {
        if p.0 == 0 {
            return Kind::Reference;
        }
        if self.shared[p.0 as usize - 1] {
            return Kind::Shared;
        }
        Kind::Private
    }

    /// Why an act is refused whose points would have these names, if it is.
    fn act_refusal(&self, start: &[u8], end: &[u8], low: i64, high: i64) -> Option<NetError>
        ensures { result ≡ named_act_refusal self.now start.now end.now low high }
    {
        if !is_name(start) {
            return Some(NetError::NameBad);
        }
        if self.find(start).is_some() || self.find(end).is_some() {
            return Some(NetError::NameTaken);
        }
        if !self.given.is_empty() {
            return Some(NetError::PointsClosed);
        }
        if self.points() + 1 >= MOST_POINTS {
            return Some(NetError::TooManyPoints);
        }
        if low < 0 {
            return Some(NetError::NegativeDuration);
        }
        if is_beyond(high) || is_beyond(low) {
            return Some(NetError::BoundRange);
        }
        None
    }

    /// Whether the ends of the arc have different owners, and neither is the reference point.
    fn is_external(&self, arc: Constraint) -> bool
        requires from_in { arc.from.0 < point_count self.now }
        requires to_in { arc.to.0 < point_count self.now }
        ensures { result ≡ is_external self.now arc }
    {
        arc.from.0 != 0 && arc.to.0 != 0 && self.owner(arc.from) != self.owner(arc.to)
    }

    /// Whether the schedule has one time for each point, the first is 0, and each arc holds, those with `z` too.
    pub fn satisfies(&self, schedule: &Schedule) -> bool
        ensures { IsTrue result ↔ Satisfies (point_count self.now) (arcs_of self.now) schedule.now }
    {
        let times = schedule.times();
        if times.len() != self.points() as usize || times[0] != 0 {
            return false;
        }
        for n in 0..self.arcs() {
            if !is_kept(times, self.arc(n)) {
                return false;
            }
        }
        true
    }
}

/// Whether the number has magnitude above 2^40.
fn is_beyond(bound: i64) -> bool
    ensures { result ≡ is_beyond bound }
{
    bound < -GREATEST_BOUND || bound > GREATEST_BOUND
}

/// The arc of an act from its start to its end, or the one back.
fn side_of(act: Act, forward: bool) -> Constraint
    requires low { pos 0 ≤ℤ act.low }
    ensures { result ≡ slice_index_or (act_pair act) (if forward then 0 else 1) no_arc }
{
    if forward {
        Constraint {
            from: act.start,
            to: act.end,
            bound: act.high,
        }
    } else {
        Constraint {
            from: act.end,
            to: act.start,
            bound: -act.low,
        }
    }
}

/// Adds two new places of an agent, for which there is room.
fn insert_two(
    places: &mut IndexMap<Vec<u8>, AgentId>,
    first: Vec<u8>,
    second: Vec<u8>,
    agent: AgentId,
)
    requires room { 2 ≤ spare places.old }
    requires first_new { get (λ x y. bytes_eq x.items y.items) places.old first ≡ None }
    requires second_new { get (λ x y. bytes_eq x.items y.items) places.old second ≡ None }
    requires apart { bytes_eq first.items second.items ≡ false }
    ensures { places.new.entries ≡ places.old.entries ++ (first, agent) ∷ (second, agent) ∷ [] }
{
    let Ok(_) = places.insert(first, agent) else {
        unreachable!()
    };
    let Ok(_) = places.insert(second, agent) else {
        unreachable!()
    };
}

/// Marks both ends of an external arc as shared.
fn mark_ends(shared: &mut Vec<bool>, from: PointId, to: PointId, external: bool)
    requires { external ≡ true → AreEnds (length shared.old.items) from.0 to.0 }
    ensures { shared.new.items ≡ marked external from.0 to.0 shared.old.items }
{
    if external {
        shared[from.0 as usize - 1] = true;
        shared[to.0 as usize - 1] = true;
    }
}

/// Whether the times keep the arc.
fn is_kept(times: &[i128], arc: Constraint) -> bool
    requires range { All IsTime times.now }
    requires from_in { arc.from.0 < length times.now }
    requires to_in { arc.to.0 < length times.now }
    ensures { IsTrue result ↔ ((time_at times.now arc.to.0 -ℤ time_at times.now arc.from.0) ≤ℤ arc.bound) }
{
    times[arc.to.0 as usize] - times[arc.from.0 as usize] <= arc.bound as i128
}
