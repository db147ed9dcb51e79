//! What is asked of an input, by the form of its network.
ghost use Rattle.std.specs.Prelude.{◌≤◌, IfOk, length};
ghost use Rattle.mastn.specs.Limits.{longest_input};
ghost use Rattle.mastn.specs.Requests.{asks_of};

use crate::answer::Answer;
use crate::json::JsonQuestion;
use crate::question::Question;
use std::alloc::Global;
use stn_model::OutOfMemory;

/// What is asked of an input.
#[derive(Clone, Copy, Debug, PartialEq, Eq)]
pub enum Request {
    /// Of the network text that it begins with.
    Text(Question),
    /// Of the network in JSON that it is.
    Json(JsonQuestion),
}

impl Request {
    /// The answer for an input.
    pub fn answer(self, alloc: Global, bytes: &[u8]) -> Result<Answer, OutOfMemory>
        requires { length bytes.now ≤ longest_input }
        ensures { IfOk result (λ a. asks_of self bytes.now a.outcome a.text.items) }
    {
        match self {
            Request::Text(question) => question.answer(alloc, bytes),
            Request::Json(question) => question.answer(alloc, bytes),
        }
    }
}
