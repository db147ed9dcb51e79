//! What a script asks for.
use crate::batch::Batch;
use stn_model::{Constraint, PointId};

/// One command of a script. Bounds and times are in the network's unit of time.
#[derive(Drop)]
pub enum Command {
    /// The least bounds of all joined pairs.
    Bounds,
    /// The least windows of all points.
    Windows,
    /// One least bound with its walk and schedule. The points differ.
    Prove { from: PointId, to: PointId },
    /// A tightening by one arc.
    Tighten { arc: Constraint },
    /// A tightening by several arcs together, of which there is at least one.
    Batch { arcs: Batch },
    /// The withdrawal of the constraint of an arc. Any number may be asked for, also one that no given arc has.
    Withdraw { arc: u32 },
    /// The decoupling of the agents.
    Decouple,
    /// A time for a point other than the reference point. It has at most 18 digits.
    Choose { point: PointId, time: i128 },
    /// The start of the clock.
    Execute,
    /// The clock is to move to this time, which has at most 18 digits.
    Advance { time: i128 },
    /// A point other than the reference point is to be set to the clock's time.
    Do { point: PointId },
    /// The whole schedule.
    Schedule,
}
