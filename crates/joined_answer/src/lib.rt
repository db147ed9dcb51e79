//! The answer that all agents' parts and the shared graph give together.
#![tactic(auto)]

pub mod edges;
pub mod joined;
mod parts;
pub mod proving;
pub mod solving;

pub use joined::Joined;
pub use proving::Proof;
pub use solving::{Answer, solve};

#[cfg(test)]
mod tests;
