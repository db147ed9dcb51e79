//! What can go wrong.
use std::alloc::{AllocError, AllocFailed};
use thiserror::Error;

/// Memory ran out. Nothing was changed.
#[derive(Clone, Copy, Debug, PartialEq, Eq)]
pub struct OutOfMemory;

/// Why a network was not made, or was not changed. The variants stand in the order of their numbers, from 1 on.
#[derive(Clone, Copy, Debug, PartialEq, Eq, Error)]
pub enum NetError {
    /// The name is not 1 to 64 bytes, of which the first is a letter or `_`, and each other one a letter, a digit, `_`, `-` or `.`.
    #[error("the name is not 1 to 64 letters, digits, `_`, `-` and `.`, a letter or `_` first")]
    NameBad = 1,
    /// An agent, or a point, has the name already; `z` is the name of the reference point.
    #[error("the name is taken")]
    NameTaken = 2,
    /// The network has 64 agents.
    #[error("there are 64 agents")]
    TooManyAgents = 3,
    /// The network has 8192 points, or 8191 where an act adds two.
    #[error("there are 8192 points")]
    TooManyPoints = 4,
    /// The network has 65536 given arcs and arcs of acts.
    #[error("there are 65536 given arcs and arcs of acts")]
    TooManyArcs = 5,
    /// The arc would begin and end at one point.
    #[error("an arc joins two different points")]
    SamePoint = 6,
    /// The bound has magnitude above 2^40.
    #[error("the bound is out of range")]
    BoundRange = 7,
    /// The horizon is below 0 or above 2^40.
    #[error("the horizon is out of range")]
    HorizonRange = 8,
    /// A given arc is there, and points come before arcs.
    #[error("points come before arcs")]
    PointsClosed = 9,
    /// Memory ran out.
    #[error("memory ran out")]
    OutOfMemory = 10,
    /// The least duration of an act is below 0.
    #[error("an act does not end before it starts")]
    NegativeDuration = 11,
}

// The numbers are part of what users see.
const _: () = prove!(NetError::NameBad as u8 == 1);

const _: () = prove!(NetError::NameTaken as u8 == 2);

const _: () = prove!(NetError::TooManyAgents as u8 == 3);

const _: () = prove!(NetError::TooManyPoints as u8 == 4);

const _: () = prove!(NetError::TooManyArcs as u8 == 5);

const _: () = prove!(NetError::SamePoint as u8 == 6);

const _: () = prove!(NetError::BoundRange as u8 == 7);

const _: () = prove!(NetError::HorizonRange as u8 == 8);

const _: () = prove!(NetError::PointsClosed as u8 == 9);

const _: () = prove!(NetError::OutOfMemory as u8 == 10);

const _: () = prove!(NetError::NegativeDuration as u8 == 11);

impl From<AllocError> for OutOfMemory {
    fn from(_error: AllocError) -> Self {
        OutOfMemory
    }
}

impl<T: Drop> From<AllocFailed<T>> for OutOfMemory {
    fn from(_error: AllocFailed<T>) -> Self {
        OutOfMemory
    }
}
