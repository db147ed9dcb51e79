//! Small networks, worked, which show that the definitions of `stn_model` say what is meant.
#![tactic(auto)]

ghost use Rattle.handover_facts.specs.Conflict.{ConflictHolds};
ghost use Rattle.handover_facts.specs.Detour.{DetourHolds};
ghost use Rattle.handover_facts.specs.Handover.{HandoverHolds};

/// The facts of the network of the handover: own and external arcs, kinds, two least bounds, a conflict, a summary, and joined points.
pub fn handover_holds()
    ensures { HandoverHolds }
{}

/// The facts of two networks in which two shared points are joined by fill alone, and a walk through private points leads in one
/// direction alone; in one of the two it weighs more than the horizon.
pub fn detour_holds()
    ensures { DetourHolds }
{}

/// The facts of a network in which an agent has an own conflict, and a negative cycle of own arcs with two shared points, which is none.
pub fn conflict_holds()
    ensures { ConflictHolds }
{}
