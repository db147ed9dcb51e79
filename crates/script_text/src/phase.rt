//! How far the work has come that a script asks for.
ghost use Rattle.std.specs.Prelude.{◌≡◌};
ghost use Rattle.script_text.specs.Phases.{is_decoupled, is_executing};

/// How far the work has come that a script asks for. Each line has its place among these.
#[derive(Clone, Copy, Debug, PartialEq, Eq)]
pub enum Phase {
    /// The agents work jointly on their network.
    Joint,
    /// The agents are decoupled, and their clock stands.
    Decoupled,
    /// The clock runs.
    Executing,
}

impl Phase {
    /// Whether a `decouple` stood before.
    pub fn is_decoupled(self) -> bool
        ensures { result ≡ is_decoupled self }
    {
        match self {
            Phase::Joint => false,
            Phase::Decoupled => true,
            Phase::Executing => true,
        }
    }

    /// Whether an `execute` stood before.
    pub fn is_executing(self) -> bool
        ensures { result ≡ is_executing self }
    {
        match self {
            Phase::Joint => false,
            Phase::Decoupled => false,
            Phase::Executing => true,
        }
    }
}
