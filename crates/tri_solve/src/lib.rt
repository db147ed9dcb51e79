//! Distances from one point over the joined pairs of an elimination order: two passes over the order, in time linear in points and pairs.
#![tactic(auto)]

pub mod bounds;
pub mod distances;
pub mod edge;
mod label;
pub mod laws;
mod layout;
mod passes;

pub use bounds::ChordalBounds;
pub use distances::{Distances, attain, from_point};
pub use edge::Edge;

#[cfg(test)]
mod tests;
