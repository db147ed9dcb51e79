//! Laws about walks, schedules, least bounds, names and kinds of arcs, which no code keeps: functions with an empty body, whose contract is the law.
ghost use Rattle.stn_model.specs.Laws.{NegativeCyclesExclude, NegativeCyclesGoOn, LeastBoundsAreUnique, LeastBoundToItself, WalksHaveArcs, ArcWalksHaveNumbers, PointsHaveNames, AgentsHaveNames, ArcsHaveKinds, BoundsAreSet};

/// A negative cycle and a schedule exclude each other (Dechter, Meiri and Pearl 1991).
pub fn negative_cycles_exclude()
    ensures { NegativeCyclesExclude }
{}

/// A negative cycle has an arc.
pub fn negative_cycles_go_on()
    ensures { NegativeCyclesGoOn }
{}

/// There is at most one least bound from a point to another.
pub fn least_bounds_are_unique()
    ensures { LeastBoundsAreUnique }
{}

/// The least bound from a point to itself is 0, where the network is consistent.
pub fn least_bound_to_itself()
    ensures { LeastBoundToItself }
{}

/// Walks as lists of arc numbers are walks as lists of arcs, with the same ends and weight.
pub fn walks_have_arcs()
    ensures { WalksHaveArcs }
{}

/// Each walk as a list of arcs is that of a list of arc numbers.
pub fn arc_walks_have_numbers()
    ensures { ArcWalksHaveNumbers }
{}

/// Each point is found by its name, and what is found has the name.
pub fn points_have_names()
    ensures { PointsHaveNames }
{}

/// Each agent is found by its name, and what is found has the name.
pub fn agents_have_names()
    ensures { AgentsHaveNames }
{}

/// Each arc of a network is external and own to nobody, or own to exactly one agent (Boerkoel and Durfee 2013).
pub fn arcs_have_kinds()
    ensures { ArcsHaveKinds }
{}

/// Another bound at a given arc, as a withdrawal sets, changes the bound of that arc, no other arc, and no point's kind.
pub fn bounds_are_set()
    ensures { BoundsAreSet }
{}
