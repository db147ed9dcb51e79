//! What the agents' reduced parts and the shared graph say of the network: the negative cycle of its arcs that a stop shows, and least bounds with their
//! walks.
#![tactic(auto)]

pub mod edges;
pub mod join;
pub mod laws;
pub mod parts;

pub use edges::edge_walk;
pub use join::join_cycle;
pub use parts::Parts;

#[cfg(test)]
mod tests;
