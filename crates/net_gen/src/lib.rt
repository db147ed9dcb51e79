//! The generator of networks: one network for each number and size, and each is consistent.
#![tactic(auto)]

mod adding;
mod bounds;
mod draws;
mod generator;
mod names;

pub use generator::make;

#[cfg(test)]
mod tests;
