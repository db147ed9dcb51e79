//! Workers, one for each agent, that take their agents' private points and then the shared points of one graph, phase by phase.
#![tactic(auto)]

pub mod back;
pub mod forward;
pub mod gate;
mod gather;
mod joiner;
pub mod reverse;
pub mod worker;

pub use back::back_phase;
pub use forward::{Forward, forward_phase};
pub use gate::{Gate, Moment, OpenGate};
pub use reverse::reverse_phase;
pub use worker::WorkerResult;

#[cfg(test)]
mod tests;
