//! Laws about the joined order of all points and about least bounds, which no code keeps: functions with an empty body, whose contract is the law.
ghost use Rattle.conflict_cycle.specs.Isolated.{LeastBoundsCarryOver};
ghost use Rattle.conflict_cycle.specs.PrivatePairs.{PrivatePairsJoin};
ghost use Rattle.conflict_cycle.specs.SharedPairs.{SharedPairsJoin};

/// Two points among the reference point and the shared ones are joined over all arcs of the network, in the joined order, exactly where they are
/// joined in the shared graph.
pub fn shared_pairs_join()
    ensures { SharedPairsJoin }
{}

/// A private point of an agent is joined with another point over all arcs of the network, in the joined order, exactly where it is over the agent's own
/// arcs, in its private order.
pub fn private_pairs_join()
    ensures { PrivatePairsJoin }
{}

/// In two networks that are the same but for the private part of one agent, the least bounds between points that are not private to it are the
/// same, and either both networks have a satisfying schedule or neither has. So whatever an agent does to its own arcs, the others notice nothing
/// while its summary stays the same.
///
/// The same but for the agent's private part: the agents, the points with their owners, the horizon, the external arcs and the own arcs of each
/// other agent are the same, the arcs' numbers apart, and the agent has the same summary in both, so an own conflict in neither. Private points of
/// the other agents are among the points that are not private to it.
pub fn least_bounds_carry_over()
    ensures { LeastBoundsCarryOver }
{}
