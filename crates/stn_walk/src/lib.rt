//! Walks over the arcs of a network, or of another list of arcs: their weights, negative cycles, and pruning.
#![tactic(auto)]

pub mod arc_list;
pub mod cycle;
pub mod detour;
pub mod laws;
mod normal_form;
mod path;
pub mod pruning;
pub mod walk;
pub mod weights;

pub use arc_list::ArcList;
pub use cycle::is_negative_cycle;
pub use detour::avoid;
pub use pruning::{negative_cycle, prune, prune_cycle};
pub use walk::Walk;
pub use weights::weight;

#[cfg(test)]
mod tests;
