//! One event of the shared graph for each hold of its lock: what an agent's worker enters, and a count of it that no worker can get wrong.
#![tactic(auto)]

pub mod answers;
pub mod desk;
pub mod lent;

pub use answers::{Claim, Did, Published};
pub use desk::{Closed, Desk, DeskName, Pass};
pub use lent::{claim_lent, publish_lent, step_lent};

#[cfg(test)]
mod tests;
