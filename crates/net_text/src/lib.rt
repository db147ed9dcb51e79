//! The text of networks: its grammar, its reader and its printer.
#![tactic(auto)]

pub mod arcs;
pub mod cause;
mod entries;
pub mod fields;
mod given;
mod grammar;
pub mod laws;
pub mod lines;
pub mod numbers;
pub mod print;
pub mod read;
mod refusal;
pub mod rest;
mod scan;
pub mod stage;
pub mod version;
pub mod words;
pub mod write;

pub use cause::{TextCause, TextError};
pub use print::{print_net, print_net2};
pub use read::{NetRead, read_net};
pub use rest::rest_is_blank;
