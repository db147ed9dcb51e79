//! Where workers may be held.

/// How far a worker is. It holds no lock at any of these moments.
#[derive(Clone, Copy, PartialEq, Eq, Debug)]
pub enum Moment {
    /// Its agent's private points are eliminated, or it found a conflict of the agent's own.
    PrivateDone,
    /// It tried to publish its agent's summary.
    Published,
    /// It tried to eliminate one of its agent's shared points.
    Claimed,
    /// It tried to make a step of a later phase.
    Swept,
}

/// A place by which workers go. It keeps no count and gives nothing back: what the phases promise holds whatever it does.
pub trait Gate {
    /// Reached by the worker of this agent, at this moment.
    fn reach(&self, agent: u32, moment: Moment);
}

/// The gate that holds no one.
pub struct OpenGate;

impl Gate for OpenGate {
    fn reach(&self, _agent: u32, _moment: Moment) {}
}
