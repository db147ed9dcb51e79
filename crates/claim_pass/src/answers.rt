//! What a worker's steps answer.
use shared_graph::{Illegal, SharedCycle};
use stn_model::PointId;

/// What a publish answers.
#[derive(Clone, Copy, PartialEq, Eq, Debug)]
pub enum Published {
    /// The agent is published. The entry stands at this place of the journal, counted from 0.
    Entered { place: u64 },
    /// It was not legal, for this cause.
    NotTaken(Illegal),
    /// It was legal, and the summary does not fit the agent.
    NotFitting,
}

/// What a claim answers.
#[derive(Clone, Copy, PartialEq, Eq, Debug)]
pub enum Claim {
    /// The picked point is eliminated. The entry stands at this place of the journal.
    Eliminated { point: PointId, place: u64 },
    /// No stop was entered, and every shared point of the agent is eliminated.
    NoneLeft,
    /// The elimination of the picked point was not legal, for this cause.
    NotTaken(Illegal),
    /// A stop was entered, by this step or before.
    Stopped(SharedCycle),
}

/// What a step of a later phase answers.
#[derive(Clone, Copy, PartialEq, Eq, Debug)]
pub enum Did {
    /// The least legal step is made. The entry stands at this place of the journal.
    Made { place: u64 },
    /// No step of the phase is legal.
    Nothing,
}
