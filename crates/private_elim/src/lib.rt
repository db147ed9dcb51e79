//! An agent's own part of a network, and what is left of it for others once its private points are eliminated.
#![tactic(auto)]

mod arc_list;
pub mod back;
mod back_revisits;
mod back_start;
mod conflict;
pub mod eliminate;
mod elimination;
pub mod laws;
mod lists;
pub mod local;
mod met;
mod numbers;
pub mod outcome;
mod ranks;
pub mod reduced;
mod start;
mod summarise;
mod unfold;

pub use back::{PrivateBounds, back_sweep};
pub use eliminate::{eliminate_listed, eliminate_private};
pub use local::{Local, LocalArc};
pub use outcome::PrivateOutcome;
pub use reduced::Reduced;
