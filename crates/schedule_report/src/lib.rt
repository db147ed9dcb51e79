//! The lines of reports. Each call appends one part to a vector of bytes, whole or not at all.
#![tactic(auto)]

mod bounds;
mod boxes;
mod choice;
mod cycle;
mod error;
pub mod mark;
mod order;
mod prove;
mod repair;
#[cfg(test)]
mod tests;
mod times;
mod window;
mod words;

pub use bounds::bounds_part;
pub use boxes::{BoxLine, boxes_part};
pub use choice::choice_line;
pub use cycle::cycle_part;
pub use error::error_line;
pub use order::order_lines;
pub use prove::prove_part;
pub use repair::repair_line;
pub use times::times_part;
pub use window::{Window3, windows_part};
pub use words::{verdict, word_line};
