//! Temporal decoupling of a network's agents: which times their shared points may take without each other, and why separate schedules then
//! satisfy the whole: definitions and laws.
#![tactic(auto)]

pub mod laws;
