//! Laws about local problems, which no code keeps: functions with an empty body, whose contract is the law.
ghost use Rattle.private_elim.specs.Laws.{LocalsSeeNoMore, LocalsAreOwn, NoneNegative, SummariesAgree, SweepsAgree};

/// An agent's local problem has nothing of the network but the agent's points, their kinds, and its own arcs with their numbers.
pub fn locals_see_no_more()
    ensures { LocalsSeeNoMore }
{}

/// Each arc of an agent's local problem has a number, its arcs are the agent's own arcs, and its private points, and those that others
/// see, are the agent's.
pub fn locals_are_own()
    ensures { LocalsAreOwn }
{}

/// Where an agent has no own conflict, no closed walk of its own arcs is negative whose points are private but at most one.
pub fn none_negative()
    ensures { NoneNegative }
{}

/// Two summaries of the same points, kinds and own arcs of an agent are equal, in whatever order its private points were taken, and
/// whatever the numbers of the arcs.
pub fn summaries_agree()
    ensures { SummariesAgree }
{}

/// Two back sweeps of the same points, kinds and own arcs of an agent, with its private points taken in the same order, give the same bounds
/// from the same least bounds of a network with that part: the rest of the network, and so the numbers of the arcs, changes nothing.
pub fn sweeps_agree()
    ensures { SweepsAgree }
{}
