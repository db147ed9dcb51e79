//! Laws about walks over any list of arcs, a network's or another, for the crates above to cite: functions with an empty body, whose
//! contract is the law.
ghost use Rattle.stn_walk.specs.Laws.{WeightsAdd, SchedulesBoundWalks, ClosedWalksExclude, WalksAreCut, CyclesAreFound, CyclesTurn, NormalFormsAreThere, WalksArePruned, SimpleWalksAreLight, NetworkWalksAreLight, ArcWeightsAdd, SchedulesBoundArcWalks, ArcCyclesAreFound};
ghost use Rattle.stn_walk.specs.Eliminations.{CellsAreLeast, StaysNonNegative};
ghost use Rattle.stn_walk.specs.Joins.{JoinedByElimination};
ghost use Rattle.stn_walk.specs.Distances.{LeastWalksAreBounds, InnerWeightsAreBounds, NoNegativeIsConsistent, LeastBoundsAreThere};

/// One walk after another is a walk, and their weights add.
pub fn weights_add()
    ensures { WeightsAdd }
{}

/// In every schedule a walk weighs at least what lies between the times of its ends (Dechter, Meiri and Pearl 1991).
pub fn schedules_bound_walks()
    ensures { SchedulesBoundWalks }
{}

/// A closed walk below 0 and a schedule exclude each other.
pub fn closed_walks_exclude()
    ensures { ClosedWalksExclude }
{}

/// A walk that passes a point twice is cut into a shorter walk between its ends and a closed part, whose weights add.
pub fn walks_are_cut()
    ensures { WalksAreCut }
{}

/// The arcs of a closed walk below 0 have a negative cycle in normal form.
pub fn cycles_are_found()
    ensures { CyclesAreFound }
{}

/// A negative cycle may begin at any of its arcs, and keeps its weight.
pub fn cycles_turn()
    ensures { CyclesTurn }
{}

/// Each negative cycle has a normal form.
pub fn normal_forms_are_there()
    ensures { NormalFormsAreThere }
{}

/// The arcs of a walk have a walk between its ends that passes no point twice, and is no heavier where no closed part is negative.
pub fn walks_are_pruned()
    ensures { WalksArePruned }
{}

/// A walk that passes no point twice has few arcs and a small weight.
pub fn simple_walks_are_light()
    ensures { SimpleWalksAreLight }
{}

/// A walk of a network that passes no point twice weighs at most 2^53 in magnitude.
pub fn network_walks_are_light()
    ensures { NetworkWalksAreLight }
{}

/// One walk of arcs after another is a walk, and their weights add.
pub fn arc_weights_add()
    ensures { ArcWeightsAdd }
{}

/// In every schedule a walk of arcs weighs at least what lies between the times of its ends.
pub fn schedules_bound_arc_walks()
    ensures { SchedulesBoundArcWalks }
{}

/// The arcs of a closed walk of arcs below 0 have a negative cycle in normal form.
pub fn arc_cycles_are_found()
    ensures { ArcCyclesAreFound }
{}

/// The cells of plain elimination are the least weights of the walks over the eliminated points (Floyd 1962).
pub fn cells_are_least()
    ensures { CellsAreLeast }
{}

/// With one more point eliminated no closed walk over the eliminated points is negative, unless its two cells with some point outside sum
/// below 0.
pub fn stays_nonnegative()
    ensures { StaysNonNegative }
{}

/// The points that an order joins, by paths, are those that eliminations in this order join (Rose, Tarjan and Lueker 1976).
pub fn joined_by_elimination()
    ensures { JoinedByElimination }
{}

/// The least weight of the walks between two points is the least bound, of arcs that some schedule satisfies (Dechter, Meiri and Pearl 1991).
pub fn least_walks_are_bounds()
    ensures { LeastWalksAreBounds }
{}

/// The same of walks that are lists of arcs.
pub fn inner_weights_are_bounds()
    ensures { InnerWeightsAreBounds }
{}

/// Some schedule satisfies the arcs exactly where no closed walk is negative.
pub fn no_negative_is_consistent()
    ensures { NoNegativeIsConsistent }
{}

/// A consistent network has a least bound between any two of its points.
pub fn least_bounds_are_there()
    ensures { LeastBoundsAreThere }
{}
