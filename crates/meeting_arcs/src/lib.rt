//! The meeting arcs of a network, all that its agents know of each other, say the same as the network between the points that agents share:
//! definitions and laws.
#![tactic(auto)]

pub mod laws;
