//! The numbers and words that networks are made of.

/// The number of a point. Point 0 is the reference point `z`.
#[derive(Clone, Copy, Debug, PartialEq, Eq, PartialOrd, Ord, Hash)]
pub struct PointId(pub u32);

/// The number of an agent, from 0 on.
#[derive(Clone, Copy, Debug, PartialEq, Eq, PartialOrd, Ord, Hash)]
pub struct AgentId(pub u32);

/// Whether other agents know of a point (Boerkoel and Durfee 2013).
#[derive(Clone, Copy, Debug, PartialEq, Eq)]
pub enum Kind {
    /// The reference point `z`.
    Reference,
    /// No external arc names the point: an arc whose ends have different owners, neither of them the reference point.
    Private,
    /// An external arc names the point.
    Shared,
}

/// Which time of its window an agent takes for a shared point.
#[derive(Clone, Copy, Debug, PartialEq, Eq)]
pub enum Lean {
    /// The earliest.
    Early,
    /// The latest.
    Late,
    /// Half way between, rounded down.
    Middle,
}

/// An arc: `time(to) - time(from)` is at most `bound`, in the network's unit of time (Dechter, Meiri and Pearl 1991).
#[derive(Clone, Copy, Debug, PartialEq, Eq)]
pub struct Constraint {
    /// Where the arc begins.
    pub from: PointId,
    /// Where it ends.
    pub to: PointId,
    /// The greatest difference; in a network of magnitude at most 2^40.
    pub bound: i64,
}

/// A task with a start, an end and a duration, in the network's unit of time. Its end is the point after its start.
#[derive(Clone, Copy, Debug, PartialEq, Eq)]
pub struct Act {
    /// The point at which it starts.
    pub start: PointId,
    /// The point at which it ends.
    pub end: PointId,
    /// The least duration, from 0 to 2^40.
    pub low: i64,
    /// The greatest duration, of magnitude at most 2^40; where it is below the least one, no schedule satisfies the network.
    pub high: i64,
}
