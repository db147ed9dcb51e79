//! Why a text is no JSON network.
ghost use Rattle.std.specs.Prelude.{◌≡◌};
ghost use Rattle.json_net.specs.Causes.{cause_word};
ghost use Rattle.json_net.specs.Networks.{error_of};

use crate::path::Path;
use stn_model::NetError;

/// The first test that a value fails.
#[derive(Clone, Copy, Debug, PartialEq, Eq)]
pub enum JsonCause {
    /// The value is of another kind: no object, array or text where one is due, or no whole number of 64 bits with its sign. A number that is
    /// written with a point or an exponent is of another kind.
    JsonKind,
    /// The object lacks a key.
    JsonMissing,
    /// The object has a key that it cannot have.
    JsonExtra,
    /// `mastn` is not 2.
    Version,
    /// The lean is not `early`, `late` or `middle`.
    UnknownWord,
    /// No point has the name.
    NameUnknown,
    /// The name is not 1 to 64 letters, digits, `_`, `-` and `.`, a letter or `_` first.
    NameBad,
    /// An agent, or a point, has the name already; `z` is the name of the reference point.
    NameTaken,
    /// There are 64 agents.
    TooManyAgents,
    /// There is no room for the point, or for the two points of the act.
    TooManyPoints,
    /// There is no room for the arc, or for the two arcs.
    TooManyArcs,
    /// The arc begins and ends at one point.
    SamePoint,
    /// The bound has magnitude above 2^40.
    BoundRange,
    /// The horizon is below 0 or above 2^40.
    HorizonRange,
    /// An arc stands before the point. The order of the keys in the text makes no difference, so it never comes.
    PointsClosed,
    /// The least duration of an act is below 0.
    NegativeDuration,
}

impl JsonCause {
    /// The word of the cause in an error line.
    pub fn word(self) -> &'static [u8]
        ensures { result.now ≡ cause_word self }
    {
        match self {
            JsonCause::JsonKind => b"JsonKind",
            JsonCause::JsonMissing => b"JsonMissing",
            JsonCause::JsonExtra => b"JsonExtra",
            JsonCause::Version => b"Version",
            JsonCause::UnknownWord => b"UnknownWord",
            JsonCause::NameUnknown => b"NameUnknown",
            JsonCause::NameBad => b"NameBad",
            JsonCause::NameTaken => b"NameTaken",
            JsonCause::TooManyAgents => b"TooManyAgents",
            JsonCause::TooManyPoints => b"TooManyPoints",
            JsonCause::TooManyArcs => b"TooManyArcs",
            JsonCause::SamePoint => b"SamePoint",
            JsonCause::BoundRange => b"BoundRange",
            JsonCause::HorizonRange => b"HorizonRange",
            JsonCause::PointsClosed => b"PointsClosed",
            JsonCause::NegativeDuration => b"NegativeDuration",
        }
    }
}

/// Why no network was read.
#[derive(Clone, Copy, Debug, PartialEq, Eq)]
pub enum JsonError {
    /// The bytes are no JSON that `serde_json` reads.
    JsonBad,
    /// The value at that path is the first that fails a test, and the cause is the first test that it fails.
    At { path: Path, cause: JsonCause },
    /// Memory ran out.
    OutOfMemory,
}

/// The refusal of a network, at the value that was to be added.
pub(crate) fn refused(error: NetError, path: Path) -> JsonError
    ensures { result ≡ error_of path error }
{
    let cause = match error {
        NetError::NameBad => JsonCause::NameBad,
        NetError::NameTaken => JsonCause::NameTaken,
        NetError::TooManyAgents => JsonCause::TooManyAgents,
        NetError::TooManyPoints => JsonCause::TooManyPoints,
        NetError::TooManyArcs => JsonCause::TooManyArcs,
        NetError::SamePoint => JsonCause::SamePoint,
        NetError::BoundRange => JsonCause::BoundRange,
        NetError::HorizonRange => JsonCause::HorizonRange,
        NetError::PointsClosed => JsonCause::PointsClosed,
        NetError::NegativeDuration => JsonCause::NegativeDuration,
        NetError::OutOfMemory => return JsonError::OutOfMemory,
    };
    JsonError::At { path, cause }
}
