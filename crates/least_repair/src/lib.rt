//! By how much one given arc of an inconsistent network must be loosened, so that some schedule satisfies the network: the least raise of
//! its bound, with the earliest schedule that it allows, and a negative cycle that one less leaves. Where no raise is enough, a negative
//! cycle without the arc.
//!
//! No bounds are tried. Without the arc the least bound from where it ends to where it starts is found; with its sign changed that is the
//! least bound which the arc may have (Dechter, Meiri and Pearl 1991).
#![tactic(auto)]

mod loosening;
#[cfg(test)]
mod tests;

pub use loosening::{Repair, least_repair};
