//! Laws about meeting arcs: the external arcs of a network, the entries of its agents' summaries, and the horizon arcs of its shared points.
//! Functions with an empty body, whose contract is the law.
ghost use Rattle.meeting_arcs.specs.Laws.{ConflictsAreAll, MeetingArcsMeet, MeetingArcsJoin, PublishedAreEntries, MeetingArcsExpand, MeetingWalksExpand, MeetingWalksHaveNumbers};
ghost use Rattle.meeting_arcs.specs.Laws.{NegativesExpand, FailingCellsExpand, WalksContract, NegativesContract, MeetingDecides, OrderDecides, LeastWeightsAgree, LeastWeightsAreBounds};

/// An agent without an own conflict has no negative closed walk of own arcs whose points but at most one are private.
pub fn conflicts_are_all()
    ensures { ConflictsAreAll }
{}

/// The list of all meeting arcs has all external arcs and entries, and besides them only arcs of the network between z and shared points.
pub fn meeting_arcs_meet()
    ensures { MeetingArcsMeet }
{}

/// Meeting arcs join different points, each z or shared.
pub fn meeting_arcs_join()
    ensures { MeetingArcsJoin }
{}

/// Each meeting arc has a walk of the network between its ends, of its weight.
pub fn meeting_arcs_expand()
    ensures { MeetingArcsExpand }
{}

/// Each walk of meeting arcs has a walk of the network between its ends, of its weight.
pub fn meeting_walks_expand()
    ensures { MeetingWalksExpand }
{}

/// And by the numbers of the network's arcs.
pub fn meeting_walks_have_numbers()
    ensures { MeetingWalksHaveNumbers }
{}

/// Two least weights there and back that sum below 0 show a negative closed walk of meeting arcs, so no schedule satisfies the network.
pub fn failing_cells_expand()
    ensures { FailingCellsExpand }
{}

/// Entries are right where each agent has its summary, or none yet.
pub fn published_are_entries()
    ensures { PublishedAreEntries }
{}

/// A negative closed walk of meeting arcs shows a negative cycle of the network.
pub fn negatives_expand()
    ensures { NegativesExpand }
{}

/// Each walk of the network between z and shared points has a walk of meeting arcs between its ends that is no heavier.
pub fn walks_contract()
    ensures { WalksContract }
{}

/// A negative closed walk of the network gives a negative closed walk of meeting arcs.
pub fn negatives_contract()
    ensures { NegativesContract }
{}

/// Some schedule satisfies the network exactly where no closed walk of meeting arcs is negative.
pub fn meeting_decides()
    ensures { MeetingDecides }
{}

/// The same of closed walks through points of an order, once it has all shared points.
pub fn order_decides()
    ensures { OrderDecides }
{}

/// Least weights between different points among z and the shared points are the same over meeting arcs and over the network.
pub fn least_weights_agree()
    ensures { LeastWeightsAgree }
{}

/// So the least weights of walks of meeting arcs are the least bounds of the network.
pub fn least_weights_are_bounds()
    ensures { LeastWeightsAreBounds }
{}
