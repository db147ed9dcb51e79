//! The jobs that read a network in JSON.
ghost use Rattle.std.specs.Prelude.{◌≡◌, ◌≤◌, ◌∷◌, [], IfOk, length};
ghost use Rattle.json_net.specs.Causes.{cause_word};
ghost use Rattle.json_net.specs.Paths.{path_text};
ghost use Rattle.schedule_report.specs.Lines.{error_line};
ghost use Rattle.mastn.specs.Json.{IsRefused, OfJson, Prints, says_of_json};
ghost use Rattle.mastn.specs.Limits.{longest_input};

use crate::answer::{Answer, Outcome, refusal};
use crate::check::check;
use json_net::{JsonCause, JsonError, Path, read_json};
use net_text::print_net;
use schedule_report::error_line;
use std::alloc::Global;
use stn_model::{Network, OutOfMemory};

/// What is asked of the network that a JSON text says.
#[derive(Clone, Copy, Debug, PartialEq, Eq)]
pub enum JsonQuestion {
    /// The report of `check`.
    Check,
    /// The plain form.
    Print,
}

impl JsonQuestion {
    /// The answer for an input.
    pub fn answer(self, alloc: Global, bytes: &[u8]) -> Result<Answer, OutOfMemory>
        requires { length bytes.now ≤ longest_input }
        ensures { IfOk result (λ a. says_of_json self bytes.now a.outcome a.text.items) }
    {
        match read_json(alloc, bytes) {
            Ok(net) => self.of_network(alloc, &net),
            Err(error) => refusal_of(alloc, error),
        }
    }

    /// The answer for a network.
    fn of_network(self, alloc: Global, net: &Network) -> Result<Answer, OutOfMemory>
        ensures { IfOk result (λ a. OfJson self net.now a.outcome a.text.items) }
    {
        match self {
            JsonQuestion::Check => check(alloc, net),
            JsonQuestion::Print => print(alloc, net),
        }
    }
}

/// The plain form of a network, whether or not some schedule satisfies it.
fn print(alloc: Global, net: &Network) -> Result<Answer, OutOfMemory>
    ensures { IfOk result (λ a. Prints net.now a.outcome a.text.items) }
{
    let mut text = Vec::new(alloc);
    print_net(net, &mut text)?;
    Ok(Answer {
        outcome: Outcome::Done,
        text,
    })
}

/// The answer for an input that says no network.
fn refusal_of(alloc: Global, error: JsonError) -> Result<Answer, OutOfMemory>
    ensures { IfOk result (λ a. IsRefused error a.outcome a.text.items) }
{
    match error {
        JsonError::At { path, cause } => refusal_at(alloc, path, cause),
        JsonError::JsonBad => refusal(alloc, Outcome::NetBad, 0, b"JsonBad"),
        JsonError::OutOfMemory => Err(OutOfMemory),
    }
}

/// The answer of one error line, with the path of the value that fails a test.
fn refusal_at(alloc: Global, path: Path, cause: JsonCause) -> Result<Answer, OutOfMemory>
    ensures outcome { IfOk result (λ a. a.outcome ≡ Outcome.NetBad) }
    ensures text { IfOk result (λ a. a.text.items ≡ error_line 0 (cause_word cause) (path_text path ∷ [])) }
{
    let steps = path.text(alloc)?;
    let mut text = Vec::new(alloc);
    error_line(0, cause.word(), &[steps.as_slice()], &mut text)?;
    Ok(Answer {
        outcome: Outcome::NetBad,
        text,
    })
}
