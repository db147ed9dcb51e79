//! What happens to a shared graph, by whom, and why an entry may be illegal.
use stn_model::{AgentId, PointId};

/// One end of a point's window.
#[derive(Clone, Copy, PartialEq, Eq, Debug)]
pub enum End {
    /// The earliest time.
    Low,
    /// The latest time.
    High,
}

/// Who made an entry.
#[derive(Clone, Copy, PartialEq, Eq, Debug)]
pub enum By {
    /// An agent.
    Agent(AgentId),
    /// The one who joins the agents' parts, and may act for each of them.
    Joiner,
}

/// One step of a shared graph. Values are times, in the network's unit.
#[derive(Clone, Copy, PartialEq, Eq, Debug)]
pub enum Event {
    /// An agent tells its summary.
    Publish { agent: AgentId },
    /// A shared point is eliminated.
    Eliminate { point: PointId },
    /// A shared point cannot be eliminated: its two least weights with another point, which may be the reference point, sum below 0.
    Stop { point: PointId, other: PointId },
    /// The least bounds of a shared point with its later neighbours are found.
    Revisit { point: PointId },
    /// A shared point gets a time.
    Assign { point: PointId, value: i128 },
    /// An end of an assigned point's window is moved as far as the other windows allow.
    Widen { point: PointId, end: End },
}

/// An event with its maker.
#[derive(Clone, Copy, PartialEq, Eq, Debug)]
pub struct Entry {
    pub by: By,
    pub event: Event,
}

/// The steps of one kind that follow one another: publishing and eliminating, revisiting, assigning, widening.
#[derive(Clone, Copy, PartialEq, Eq, Debug)]
pub enum Phase {
    Order,
    Reverse,
    Assign,
    Widen,
}

/// Where an elimination failed: the two least weights between these points sum below 0, so no schedule satisfies the network.
#[derive(Clone, Copy, PartialEq, Eq, Debug)]
pub struct SharedCycle {
    /// The shared point that was to be eliminated.
    pub point: PointId,
    /// The least other point outside the order with such weights; it may be the reference point.
    pub other: PointId,
}

/// What an elimination answers.
#[derive(Clone, Copy, PartialEq, Eq, Debug)]
pub enum Eliminated {
    /// The point is in the order.
    Clear,
    /// A stop was entered.
    Stopped(SharedCycle),
}

/// Why an entry is illegal: the first of its tests that fails.
#[derive(Clone, Copy, PartialEq, Eq, Debug)]
pub enum Illegal {
    /// A stop was entered; nothing is legal after it.
    Stopped,
    /// The point is no shared point.
    NotShared,
    /// Another agent made it.
    NotOwner,
    /// The agent is published.
    AlreadyPublished,
    /// This agent is not published: the owner, or the least one where all have to be.
    NotPublished(AgentId),
    /// The point is in the order, or is revisited, or assigned, or its end is widened.
    AlreadyDone,
    /// The least shared point that the phase before has left.
    OrderOpen(PointId),
    /// The least later neighbour that has to come before.
    NeighbourFirst(PointId),
    /// The least other point outside the order whose two least weights with this one sum below 0.
    Negative(PointId),
    /// This is not the least such point, or there is none.
    NotNegative(PointId),
    /// The event's time is not that of the rule.
    WrongValue { kept: i128, given: i128 },
}
