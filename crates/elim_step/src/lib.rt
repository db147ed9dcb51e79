//! One elimination and one revisit over rows of cells, the order in which points are taken, and summaries.
#![tactic(auto)]

pub mod among;
mod block;
pub mod joins;
pub mod leaves;
mod lower;
mod neighbours;
mod offers;
pub mod pick;
mod place_list;
pub mod ranking;
pub mod revisit;
pub mod rising_revisit;
mod room;
pub mod step;
pub mod steps;
pub mod summary;
mod sums;

pub use among::{eliminate_among, eliminate_with_room};
pub use joins::Joins;
pub use leaves::{Leaf, unfold};
pub use pick::{Candidate, Picker};
pub use ranking::Ranking;
pub use revisit::revisit_point;
pub use rising_revisit::revisit_rows;
pub use step::{Found, eliminate_point, negative_with};
pub use steps::Steps;
pub use summary::{Summary, SummaryEntry, Window};

#[cfg(test)]
mod join_tests;
#[cfg(test)]
mod tests;
