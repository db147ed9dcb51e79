//! Laws of the decoupling, for the crates above to cite: functions with an empty body, whose contract is the law.
ghost use Rattle.decoupling_facts.specs.FinalBounds.{FinalsObeyTriangle, CellsAreFinals};
ghost use Rattle.decoupling_facts.specs.Windows.{WindowsAreThere, WindowsAreNotEmpty, TimesKeepFinals, LeansLieWithin, TimesKeepArcs, TimesLieWithin};
ghost use Rattle.decoupling_facts.specs.Neighbours.{JoinedTurns, LaterNeighboursMeet, TimedNeighboursAreLater};
ghost use Rattle.decoupling_facts.specs.Boxes.{TimesAreBoxes, WidestEndsAreThere, WideningsKeepBoxes, TightEndsStay, WidenedBoxesAreTight};
ghost use Rattle.decoupling_facts.specs.Boxes.{BoxesLieWithinTheHorizon};
ghost use Rattle.decoupling_facts.specs.Assignments.{StartStands, WindowsStayOpen, AssignedStands, WidenedStands};
ghost use Rattle.decoupling_facts.specs.LocalNetworks.{BoxArcsAreThere, JointTimesKeep, JointSchedulesSatisfy, LocalNetworksAreConsistent};
ghost use Rattle.decoupling_facts.specs.Decouplings.{WidenedIsDecoupling, StandingDecouples, DecouplingsSatisfy, DecoupledIsConsistent};
ghost use Rattle.decoupling_facts.specs.Decouplings.{TightEndsHaveBlockers};
ghost use Rattle.decoupling_facts.specs.Handover.{HandoverBoxes};

/// Final bounds obey the triangle, those there and back do not sum below 0, and none is above an arc.
pub fn finals_obey_triangle()
    ensures { FinalsObeyTriangle }
{}

/// Cells that are least weights of all walks hold final bounds.
pub fn cells_are_finals()
    ensures { CellsAreFinals }
{}

/// Finitely many points with times, one at least, leave a window.
pub fn windows_are_there()
    ensures { WindowsAreThere }
{}

/// The window that its near points leave a point is not empty, where times keep the final bounds and any two near points are joined.
pub fn windows_are_not_empty()
    ensures { WindowsAreNotEmpty }
{}

/// With any time in its window for one point more the times keep the final bounds.
pub fn times_keep_finals()
    ensures { TimesKeepFinals }
{}

/// Each lean takes a time in the window.
pub fn leans_lie_within()
    ensures { LeansLieWithin }
{}

/// Times that keep the final bounds keep each arc between points that have them.
pub fn times_keep_arcs()
    ensures { TimesKeepArcs }
{}

/// They lie within the final bounds with z.
pub fn times_lie_within()
    ensures { TimesLieWithin }
{}

/// An order joins points in both directions.
pub fn joined_turns()
    ensures { JoinedTurns }
{}

/// Two later neighbours of a point are joined (Rose, Tarjan and Lueker 1976).
pub fn later_neighbours_meet()
    ensures { LaterNeighboursMeet }
{}

/// Where points get their times each after its later neighbours, the near points of the next one are its later neighbours.
pub fn timed_neighbours_are_later()
    ensures { TimedNeighboursAreLater }
{}

/// Times that keep the final bounds are boxes of one time each.
pub fn times_are_boxes()
    ensures { TimesAreBoxes }
{}

/// Each end of a box has its widest.
pub fn widest_ends_are_there()
    ensures { WidestEndsAreThere }
{}

/// Widening an end leaves boxes, each of which has what it had.
pub fn widenings_keep_boxes()
    ensures { WideningsKeepBoxes }
{}

/// Widening an end makes it tight, and every end that was tight stays so.
pub fn tight_ends_stay()
    ensures { TightEndsStay }
{}

/// Whatever ends are widened in whatever order, boxes are left in which each of these ends is tight.
pub fn widened_boxes_are_tight()
    ensures { WidenedBoxesAreTight }
{}

/// Boxes lie from 0 to the horizon.
pub fn boxes_lie_within_the_horizon()
    ensures { BoxesLieWithinTheHorizon }
{}

/// What is to stand stands while z alone has a time.
pub fn start_stands()
    ensures { StartStands }
{}

/// The window that its later neighbours leave a shared point that may get its time is not empty.
pub fn windows_stay_open()
    ensures { WindowsStayOpen }
{}

/// With any time in it all stands as before.
pub fn assigned_stands()
    ensures { AssignedStands }
{}

/// And so it does with an end of a box widened, once all shared points have times.
pub fn widened_stands()
    ensures { WidenedStands }
{}

/// The arcs of an agent's boxes are those of all its shared points.
pub fn box_arcs_are_there()
    ensures { BoxArcsAreThere }
{}

/// Times that the agents choose apart, each within its decoupled network, together keep all arcs of the network (Boerkoel and Durfee 2013).
pub fn joint_times_keep()
    ensures { JointTimesKeep }
{}

/// Schedules of the agents' decoupled networks together make a schedule of the network.
pub fn joint_schedules_satisfy()
    ensures { JointSchedulesSatisfy }
{}

/// The decoupled network of an agent is consistent, where some times keep its summary and lie in its boxes.
pub fn local_networks_are_consistent()
    ensures { LocalNetworksAreConsistent }
{}

/// Times of all shared points that keep the final bounds, with ends widened in any order, leave a decoupling in which each of these ends is tight.
pub fn widened_is_decoupling()
    ensures { WidenedIsDecoupling }
{}

/// What stands with times for all shared points is a decoupling, and each widened end is tight.
pub fn standing_decouples()
    ensures { StandingDecouples }
{}

/// One schedule for each agent, of its decoupled network, together make a schedule of the network.
pub fn decouplings_satisfy()
    ensures { DecouplingsSatisfy }
{}

/// So a network that has a decoupling is consistent.
pub fn decoupled_is_consistent()
    ensures { DecoupledIsConsistent }
{}

/// Each tight end has one blocker: its bound with z, or the first external arc that it meets.
pub fn tight_ends_have_blockers()
    ensures { TightEndsHaveBlockers }
{}

/// The boxes of the handover network, worked: a2 at 30, b1 from 30 to 35.
pub fn handover_boxes()
    ensures { HandoverBoxes }
{}
