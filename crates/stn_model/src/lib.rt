//! Multiagent simple temporal networks: points with upper bounds on the differences of their times, what is private to an agent and what
//! is shared, and the definitions on which all else stands (`specs/`).
#![tactic(auto)]

pub mod error;
pub mod ids;
pub mod laws;
pub mod limits;
pub mod names;
pub mod network;
pub mod schedule;

pub use error::{NetError, OutOfMemory};
pub use ids::{Act, AgentId, Constraint, Kind, Lean, PointId};
pub use limits::{
    GREATEST_BOUND, GREATEST_TIME, GREATEST_WALK, LONGEST_NAME, MOST_AGENTS, MOST_ARCS, MOST_POINTS,
};
pub use network::Network;
pub use schedule::Schedule;

#[cfg(test)]
mod tests;
