//! Tests of `shared_graph`: lists of entries worked by hand, and on generated networks all orders in which agents' entries may fall. They stand in a
//! crate of their own, so that a change of a test proves nothing else anew.
#![tactic(auto)]

#[cfg(test)]
mod build;
#[cfg(test)]
mod orders;
#[cfg(test)]
mod replays;
pub mod steps;
#[cfg(test)]
mod tables;
