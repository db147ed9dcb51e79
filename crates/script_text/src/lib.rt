//! The text of scripts: its grammar and its reader.
#![tactic(auto)]

pub mod batch;
pub mod command;
mod grammar;
pub mod laws;
mod line;
mod phase;
pub mod read;
mod stage;
#[cfg(test)]
mod tests;
mod words;

pub use batch::Batch;
pub use command::Command;
pub use read::{Script, ScriptRead, read_script};
