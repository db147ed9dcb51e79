//! The record of a whole solve, and its text: the private points that agents eliminated, and the entries of the shared graph.
#![tactic(auto)]

pub mod asks;
mod lines;
mod print;
pub mod section;

pub use asks::{are_entries_in, are_solving, have_lines};
pub use print::{print_entries, print_section};
pub use section::Section;

#[cfg(test)]
mod tests;
