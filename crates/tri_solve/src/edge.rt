//! Edges: bounds from a point to another.
use stn_model::PointId;

/// A bound from a point to a joined one: `time(to) - time(from)` is at most `bound`, in the network's unit of time.
#[derive(Clone, Copy, Debug, PartialEq, Eq)]
pub struct Edge {
    /// Where the edge begins.
    pub from: PointId,
    /// Where it ends.
    pub to: PointId,
    /// The greatest difference.
    pub bound: i128,
}
