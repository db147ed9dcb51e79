//! Why a line adds nothing.
ghost use Rattle.std.specs.Prelude.{◌≡◌};
ghost use Rattle.net_text.specs.Adding.{refusal_of};

use crate::cause::TextCause;
use stn_model::NetError;

/// Why a line adds nothing: a test that fails, or want of memory.
#[derive(Clone, Copy)]
pub enum Refusal {
    /// The line fails this test.
    Fails(TextCause),
    /// Memory ran out.
    OutOfMemory,
}

/// The refusal of a network.
pub fn refused(error: NetError) -> Refusal
    ensures { result ≡ refusal_of error }
{
    match error {
        NetError::NameBad => Refusal::Fails(TextCause::NameBad),
        NetError::NameTaken => Refusal::Fails(TextCause::NameTaken),
        NetError::TooManyAgents => Refusal::Fails(TextCause::TooManyAgents),
        NetError::TooManyPoints => Refusal::Fails(TextCause::TooManyPoints),
        NetError::TooManyArcs => Refusal::Fails(TextCause::TooManyArcs),
        NetError::SamePoint => Refusal::Fails(TextCause::SamePoint),
        NetError::BoundRange => Refusal::Fails(TextCause::BoundRange),
        NetError::HorizonRange => Refusal::Fails(TextCause::HorizonRange),
        NetError::PointsClosed => Refusal::Fails(TextCause::PointsClosed),
        NetError::NegativeDuration => Refusal::Fails(TextCause::NegativeDuration),
        NetError::OutOfMemory => Refusal::OutOfMemory,
    }
}
