//! What the elimination of an agent's private points comes to.
use crate::reduced::Reduced;
use stn_model::PointId;
use stn_walk::Walk;

/// What the elimination of an agent's private points comes to.
#[derive(Drop)]
pub enum PrivateOutcome {
    /// There is no own conflict: all private points were taken.
    Reduced(Reduced),
    /// An own conflict: a negative cycle of own arcs of whose points at most one is not private.
    Conflict {
        /// The cycle, by the numbers of its arcs in the network; it begins with its arc of least number.
        walk: Walk,
        /// How many points were taken before the first that failed.
        place: u32,
        /// The least point, not yet taken, with which that one failed: the least weights of walks of own arcs between the two, there
        /// and back, through the points taken before, sum below 0.
        other: PointId,
    },
}
