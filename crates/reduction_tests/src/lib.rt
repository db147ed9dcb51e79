//! Tests of `private_elim`: networks worked by hand, and a plain slow program beside the elimination. They stand in a crate of their own,
//! so that a change of a test proves nothing else anew.
#![tactic(auto)]

pub mod asked;
#[cfg(test)]
mod build;
#[cfg(test)]
mod calls;
#[cfg(test)]
mod compare;
#[cfg(test)]
mod slow;
#[cfg(test)]
mod tables;
