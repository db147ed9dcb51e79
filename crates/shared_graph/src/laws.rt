//! Laws about the steps of a shared graph, which no code keeps: functions with an empty body, whose contract is the law.
ghost use Rattle.shared_graph.specs.Examples.{ExamplesHold};
ghost use Rattle.shared_graph.specs.Laws.{StartHolds, EntriesKeep, ReplaysHold, StopsShow, WholeOrdersShow, WholeWeightsAreBounds, FinalsAreBounds};
ghost use Rattle.shared_graph.specs.Laws.{RevisitsSum, InterfacesAgree, ReplaysAgree, StopsExcludeWholeOrders, WholeWeightsAgree, PublishesLower};
ghost use Rattle.shared_graph.specs.Laws.{EliminationsLower, NeighboursJoin, RevisitsMake, JoinedIsJoined, FaultsAreFirst, EliminationsJoin};
ghost use Rattle.shared_graph.specs.Laws.{RevisitsKeep, LeastNegativesAreLeast, FirstsAreLeast, StatesHaveGround, InterfacesList, SummariesCarryOver, NegativesStop, StepsGoOn, TimesStandApart};

/// The state in which nothing is done holds together.
pub fn start_holds()
    ensures { StartHolds }
{}

/// A legal entry keeps a state that holds together so.
pub fn entries_keep()
    ensures { EntriesKeep }
{}

/// Every state that entries lead to holds together.
pub fn replays_hold()
    ensures { ReplaysHold }
{}

/// After a stop no schedule satisfies the network.
pub fn stops_show()
    ensures { StopsShow }
{}

/// Once every agent is published and the order is whole, some schedule satisfies it.
pub fn whole_orders_show()
    ensures { WholeOrdersShow }
{}

/// The least weights between z and shared points are then there, and are the least bounds.
pub fn whole_weights_are_bounds()
    ensures { WholeWeightsAreBounds }
{}

/// The final cell of two joined revisited points is there, and is the least bound.
pub fn finals_are_bounds()
    ensures { FinalsAreBounds }
{}

/// The least weight between a point and one that does not come before it is the least sum by its later neighbours.
pub fn revisits_sum()
    ensures { RevisitsSum }
{}

/// Networks that are the same but for own arcs have the same interface.
pub fn interfaces_agree()
    ensures { InterfacesAgree }
{}

/// So with the same summaries the same entries are legal in them, and lead to the same state.
pub fn replays_agree()
    ensures { ReplaysAgree }
{}

/// Where one list of entries leads to a whole order, no other leads to a stop.
pub fn stops_exclude_whole_orders()
    ensures { StopsExcludeWholeOrders }
{}

/// Two lists of entries that lead to whole orders lead to the same least weights.
pub fn whole_weights_agree()
    ensures { WholeWeightsAgree }
{}

/// A publish lowers forward cells to the bounds of the new arcs, and joins pairs that have one.
pub fn publishes_lower()
    ensures { PublishesLower }
{}

/// An elimination lowers forward cells between points outside the order to sums through the point.
pub fn eliminations_lower()
    ensures { EliminationsLower }
{}

/// Two later neighbours of an eliminated point are joined.
pub fn neighbours_join()
    ensures { NeighboursJoin }
{}

/// A revisit makes the final cells of a point and its later neighbours from cells that are there.
pub fn revisits_make()
    ensures { RevisitsMake }
{}

/// Joined points have a path through points that the order has before both.
pub fn joined_is_joined()
    ensures { JoinedIsJoined }
{}

/// Entries replay, or have a fault, which is the first.
pub fn faults_are_first()
    ensures { FaultsAreFirst }
{}

/// An elimination joins two points outside the order where both are joined with the point.
pub fn eliminations_join()
    ensures { EliminationsJoin }
{}

/// A revisit keeps the final cells between other points.
pub fn revisits_keep()
    ensures { RevisitsKeep }
{}

/// The point that an elimination is refused for is the least whose two cells with it sum below 0.
pub fn least_negatives_are_least()
    ensures { LeastNegativesAreLeast }
{}

/// The points and agents that the other causes carry are the least that pass.
pub fn firsts_are_least()
    ensures { FirstsAreLeast }
{}

/// The meeting arcs of a state are such as eliminations over rows of cells want.
pub fn states_have_ground()
    ensures { StatesHaveGround }
{}

/// The interface of a network has exactly its shared points, with their owners.
pub fn interfaces_list()
    ensures { InterfacesList }
{}

/// Summaries that are right in one network are right in another that is the same but for the private part of an agent whose summary is right in both.
pub fn summaries_carry_over()
    ensures { SummariesCarryOver }
{}

/// Where an elimination is refused for a negative sum, and only there, a stop is legal.
pub fn negatives_stop()
    ensures { NegativesStop }
{}

/// Small examples replay, stop and fail as they should.
pub fn examples_hold()
    ensures { ExamplesHold }
{}

/// Some step of the joiner is legal until a stop, or until all is published, eliminated and revisited.
pub fn steps_go_on()
    ensures { StepsGoOn }
{}

/// Assigning and widening change no cell, no joined pair and nothing else of the state but times and ends.
pub fn times_stand_apart()
    ensures { TimesStandApart }
{}
