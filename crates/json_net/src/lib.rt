//! Networks in JSON: what a JSON network is (`specs/`), and its reader.
#![tactic(auto)]

mod adding;
mod agents;
mod arcs;
pub mod error;
mod members;
pub mod path;
pub mod read;
mod shapes;
mod values;

pub use error::{JsonCause, JsonError};
pub use path::{JsonKey, Path, Step};
pub use read::read_json;

#[cfg(test)]
mod tests;
