//! Why a text is refused.
ghost use Rattle.std.specs.Prelude.{◌≡◌};
ghost use Rattle.net_text.specs.Causes.{cause_word};

/// The first test that the first failing line of a text fails.
#[derive(Clone, Copy, Debug, PartialEq, Eq)]
pub enum TextCause {
    /// The line has a byte other than a tab and 32 to 126.
    NotText,
    /// The first line is no header.
    NoHeader,
    /// The version is neither 1 nor 2.
    Version,
    /// The line begins with no word of the grammar, or has another word where one of a few is due.
    UnknownWord,
    /// The line has fewer or more fields than its word asks for.
    FieldCount,
    /// A number is not an optional `-` and 1 to 18 digits.
    NumberBad,
    /// No agent, or no point, has the name.
    NameUnknown,
    /// The horizon is not there yet.
    NoHorizon,
    /// The horizon is there already.
    SecondHorizon,
    /// The text has no `end` line.
    NoEnd,
    /// The name is not 1 to 64 letters, digits, `_`, `-` and `.`, a letter or `_` first.
    NameBad,
    /// An agent, or a point, has the name already.
    NameTaken,
    /// There are 64 agents.
    TooManyAgents,
    /// There is no room for the points of the line: a text of version 1 has at most 4,096, a network at most 8,192.
    TooManyPoints,
    /// The arcs of the line would be more than 65,536 with those before, the arcs of acts among them.
    TooManyArcs,
    /// The arc begins and ends at one point.
    SamePoint,
    /// The bound has magnitude above 2^40.
    BoundRange,
    /// The horizon is below 0 or above 2^40.
    HorizonRange,
    /// An arc stands before the point.
    PointsClosed,
    /// The least duration of an act is below 0.
    NegativeDuration,
    /// A batch is begun and not closed.
    BatchOpen,
    /// The batch has no arc.
    EmptyBatch,
    /// The line stands after the agents were decoupled.
    AfterDecouple,
    /// The line stands before the agents are decoupled.
    BeforeDecouple,
    /// The line stands after the clock was started.
    AfterExecute,
    /// The line stands before the clock is started.
    BeforeExecute,
    /// The reference point has no time to be chosen.
    ReferencePoint,
    /// The script has no `done` line.
    NoDone,
    /// The line stands after the `done` line.
    AfterDone,
    /// The line stands after the `end` line.
    AfterEnd,
}

impl TextCause {
    /// The word of the cause in an error line.
    pub fn word(&self) -> &'static [u8]
        ensures { result.now ≡ cause_word self.now }
    {
        match self {
            TextCause::NotText => b"NotText",
            TextCause::NoHeader => b"NoHeader",
            TextCause::Version => b"Version",
            TextCause::UnknownWord => b"UnknownWord",
            TextCause::FieldCount => b"FieldCount",
            TextCause::NumberBad => b"NumberBad",
            TextCause::NameUnknown => b"NameUnknown",
            TextCause::NoHorizon => b"NoHorizon",
            TextCause::SecondHorizon => b"SecondHorizon",
            TextCause::NoEnd => b"NoEnd",
            TextCause::NameBad => b"NameBad",
            TextCause::NameTaken => b"NameTaken",
            TextCause::TooManyAgents => b"TooManyAgents",
            TextCause::TooManyPoints => b"TooManyPoints",
            TextCause::TooManyArcs => b"TooManyArcs",
            TextCause::SamePoint => b"SamePoint",
            TextCause::BoundRange => b"BoundRange",
            TextCause::HorizonRange => b"HorizonRange",
            TextCause::PointsClosed => b"PointsClosed",
            TextCause::NegativeDuration => b"NegativeDuration",
            TextCause::BatchOpen => b"BatchOpen",
            TextCause::EmptyBatch => b"EmptyBatch",
            TextCause::AfterDecouple => b"AfterDecouple",
            TextCause::BeforeDecouple => b"BeforeDecouple",
            TextCause::AfterExecute => b"AfterExecute",
            TextCause::BeforeExecute => b"BeforeExecute",
            TextCause::ReferencePoint => b"ReferencePoint",
            TextCause::NoDone => b"NoDone",
            TextCause::AfterDone => b"AfterDone",
            TextCause::AfterEnd => b"AfterEnd",
        }
    }
}

/// Why a text was not read.
#[derive(Clone, Copy, Debug, PartialEq, Eq)]
pub enum TextError {
    /// The first failing line, and its first failing test.
    At { line: u32, cause: TextCause },
    /// Memory ran out.
    OutOfMemory,
}
