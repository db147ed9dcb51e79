//! Laws of distances by two passes, which no code keeps: functions with an empty body, whose contract is the law.
ghost use Rattle.tri_solve.specs.Laws.{DistancesAreLeast, JoinedOrdersAreChordal, TwoPassesAreEnough, NoPathIsLighter};
ghost use Rattle.tri_solve.specs.Example.{UpAloneIsTooHigh};

/// The distances that two passes over a chordal order with least bounds give are least weights of walks, and no distance means no walk.
pub fn distances_are_least()
    ensures { DistancesAreLeast }
{}

/// The joined points of an elimination order are chordal (Rose, Tarjan and Lueker 1976).
pub fn joined_orders_are_chordal()
    ensures { JoinedOrdersAreChordal }
{}

/// From the least bounds of the joined points of an order two passes make the least bounds from a point to every other.
pub fn two_passes_are_enough()
    ensures { TwoPassesAreEnough }
{}

/// No path of joined points is lighter than the distance.
pub fn no_path_is_lighter()
    ensures { NoPathIsLighter }
{}

/// The pass up alone has an ancestor of the source too high: the pass down goes over all points.
pub fn up_alone_is_too_high()
    ensures { UpAloneIsTooHigh }
{}
