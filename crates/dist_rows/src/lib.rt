//! Rows of cells: finite maps from ordered pairs of places to weights, each with its origin.
#![tactic(auto)]

pub mod cell;
pub mod listed;
pub mod matrix;
pub mod rows;
mod slot;

pub use cell::{Cell, FAR, Offer, Via, weight_in};
pub use listed::Listed;
pub use matrix::MatrixRows;
pub use rows::Rows;

#[cfg(test)]
mod tests;
