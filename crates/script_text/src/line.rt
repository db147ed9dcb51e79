//! What one line of a script asks for.
use stn_model::{Constraint, PointId};

/// What one line of a script asks for, by itself.
#[derive(Clone, Copy)]
pub enum Line {
    /// The line has no field.
    Nothing,
    Bounds,
    Windows,
    Prove { from: PointId, to: PointId },
    Tighten { arc: Constraint },
    BeginBatch,
    BatchArc { arc: Constraint },
    CloseBatch,
    Withdraw { arc: u32 },
    Decouple,
    Choose { point: PointId, time: i128 },
    Execute,
    Advance { time: i128 },
    Do { point: PointId },
    Schedule,
    Done,
}
