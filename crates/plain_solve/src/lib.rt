//! The earliest schedule of a simple temporal network, or a negative cycle of it; and the least bounds
//! from one point, with the last arc of a least walk to each other point.
//!
//! Both come from one relaxation (Bellman 1958, Ford 1956; Dechter, Meiri, Pearl 1991): each point has a
//! label that only rises, and the number of the arc that raised it last. On the arcs of the network the
//! labels rise to the earliest times; on the same arcs turned round, from a source, they rise to the
//! distances from it with the sign changed.
//!
//! One fact for each point carries the proofs: its last arc is tight and leads to a point of smaller
//! stamp, or its end has risen since. Stamps count the raises and are ghosts: no code keeps them. So a
//! closed walk along last arcs is negative, and at rest, where every arc holds, last arcs make a tree.
//! Nothing that is proved rests on the order in which arcs are looked at.
#![tactic(auto)]

mod graph;
mod labels;
mod layout;
mod least;
mod nearest;
mod order;
mod queue;
mod relax;
mod solve;
mod sources;
#[cfg(test)]
mod tests;
mod trail;

pub use least::{FromPoint, plain_from};
pub use solve::{Plain, plain_solve};
pub use sources::Sources;
