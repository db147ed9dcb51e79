//! Rows of cells that take memory only for the pairs with room: by place, a list of entries that rises by the other place.
#![tactic(auto)]

mod entry;
mod row;
pub mod sparse;

pub use sparse::SparseRows;

#[cfg(test)]
mod tests;
