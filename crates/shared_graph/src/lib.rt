//! The shared graph: what agents know of each other's parts of a network from the start, the steps that they make in turn, when each is legal, and
//! what the end of it says of the network.
#![tactic(auto)]

pub mod degrees;
pub mod events;
pub mod finish;
pub mod graph;
pub mod interface;
pub mod laws;
mod lay;
mod lists;
mod may;
pub mod offers;
mod publish;
mod ready;
pub mod replay;
mod revisit;
mod scans;
pub mod shared;
pub mod steps;
mod take;
pub mod throughs;
pub mod times_laws;
pub mod told;
pub mod unfold;

pub use events::{By, Eliminated, End, Entry, Event, Illegal, Phase, SharedCycle};
pub use graph::Graph;
pub use interface::Interface;
pub use replay::Replay;
pub use shared::Shared;
pub use unfold::Leg;

#[cfg(test)]
mod tests;
