//! How far a text has come, and what comes of its next line.
use crate::cause::TextCause;
use crate::version::Version;
use stn_model::Network;

/// How far a network text has come.
#[derive(Drop)]
pub enum Stage {
    /// No line was read.
    Start,
    /// The header was read, and named this version.
    Headed(Version),
    /// The horizon was read, and what followed it is in the network.
    Building(Version, Network),
}

/// What comes of a line.
#[derive(Clone, Copy)]
pub enum Next {
    /// The text goes on.
    Goes,
    /// The text ends, and its network is whole.
    Ends,
    /// The line is refused.
    Fails(TextCause),
}
