//! Answers before they are written.
ghost use Rattle.std.specs.Prelude.{◌≡◌, [], IfOk};
ghost use Rattle.schedule_report.specs.Lines.{error_line};
ghost use Rattle.mastn.specs.Statuses.{status_of};

use crate::status::Status;
use schedule_report::error_line;
use std::alloc::Global;
use stn_model::OutOfMemory;

/// What a job says of its input. A failing read or write, a long input and want of memory are no part of it.
#[derive(Clone, Copy, Debug, PartialEq, Eq)]
pub enum Outcome {
    /// The report is whole.
    Done,
    /// The report is whole, and no schedule satisfies the network.
    Inconsistent,
    /// The input does not begin with a network.
    NetBad,
    /// What follows the network is no script, or one with a command that is not built.
    ScriptBad,
    /// A line of the certificate is false.
    NotProved,
    /// The network has more points than a certificate may have.
    TooLarge,
}

impl Outcome {
    /// The status of a run whose text was written whole.
    pub fn status(self) -> Status
        ensures { result ≡ status_of self }
    {
        match self {
            Outcome::Done => Status::Done,
            Outcome::Inconsistent => Status::Inconsistent,
            Outcome::NetBad => Status::NetBad,
            Outcome::ScriptBad => Status::ScriptBad,
            Outcome::NotProved => Status::NotProved,
            Outcome::TooLarge => Status::TooLargeToCertify,
        }
    }
}

/// An outcome with the whole text that goes with it.
#[derive(Drop)]
pub struct Answer {
    pub outcome: Outcome,
    pub text: Vec<u8>,
}

/// The answer of one error line without values. The line is that of the input, or 0.
pub fn refusal(
    alloc: Global,
    outcome: Outcome,
    line: u32,
    cause: &[u8],
) -> Result<Answer, OutOfMemory>
    ensures outcome { IfOk result (λ a. a.outcome ≡ outcome) }
    ensures text { IfOk result (λ a. a.text.items ≡ error_line line cause.now []) }
{
    let mut text = Vec::new(alloc);
    error_line(line, cause, &[], &mut text)?;
    Ok(Answer { outcome, text })
}
