//! The jobs that read a network.
ghost use Rattle.std.specs.Prelude.{◌≡◌, ◌-◌, ◌≤◌, IfOk, length, drop};
ghost use Rattle.mastn.specs.Limits.{longest_input};
ghost use Rattle.mastn.specs.Questions.{OfNetwork, says_of};

use crate::answer::{Answer, Outcome, refusal};
use crate::certify::{certify, verify};
use crate::check::check;
use crate::repair::repair;
use crate::upgrade::upgrade;
use net_text::{NetRead, TextError, read_net};
use std::alloc::Global;
use stn_model::OutOfMemory;

/// What is asked of the network that an input begins with.
///
/// A job more is a variant here, a line of `of_network`, and what it says as a line of `OfNetwork` in the specs.
#[derive(Clone, Copy, Debug, PartialEq, Eq)]
pub enum Question {
    Check,
    Certify,
    Verify,
    Upgrade,
    Repair,
}

impl Question {
    /// The answer for an input.
    pub fn answer(self, alloc: Global, bytes: &[u8]) -> Result<Answer, OutOfMemory>
        requires { length bytes.now ≤ longest_input }
        ensures { IfOk result (λ a. says_of self bytes.now a.outcome a.text.items) }
    {
        match read_net(alloc, bytes) {
            Ok(read) => self.of_network(alloc, bytes, &read),
            Err(TextError::At { line, cause }) => refusal(
                alloc,
                Outcome::NetBad,
                line,
                cause.word(),
            ),
            Err(TextError::OutOfMemory) => Err(OutOfMemory),
        }
    }

    /// The answer for the network that an input begins with, and for what follows its text.
    fn of_network(self, alloc: Global, bytes: &[u8], read: &NetRead) -> Result<Answer, OutOfMemory>
        requires few { length bytes.now ≤ longest_input }
        requires used { read.now.used ≤ length bytes.now }
        requires lines { read.now.lines ≤ read.now.used }
        ensures { IfOk result (λ a. OfNetwork self bytes.now read.now a.outcome a.text.items) }
    {
        match self {
            Question::Check => check(alloc, &read.net),
            Question::Certify => certify(alloc, &read.net),
            Question::Verify => verify(alloc, &read.net, &bytes[read.used..], read.lines + 1),
            Question::Upgrade => upgrade(alloc, &read.net),
            Question::Repair => repair(alloc, &read.net),
        }
    }
}
