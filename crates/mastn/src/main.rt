//! Decides simple temporal networks: the program.
#![tactic(auto)]

mod answer;
mod certify;
mod check;
mod commands;
#[cfg(test)]
mod gate_tests;
mod generate;
mod json;
mod laws;
mod limits;
mod question;
mod repair;
mod request;
mod run;
mod script;
mod solve;
mod status;
#[cfg(test)]
mod tests;
mod upgrade;
mod words;

use crate::run::{refuse, refuse_words, run};
use agent_worker::OpenGate;
use std::alloc::Global;
use std::env;
use std::env::Env;
use std::io::ErrorKind;
use std::process::ExitCode;
use stn_io::{ReadRefusal, StdSink, StdSource};

/// Why the words after the program's name are not there.
enum NoWords {
    /// A word is not UTF-8, so the words are no job.
    NotUtf8,
    /// There is no memory for them.
    OutOfMemory,
}

/// The words after the program's name.
fn words_of(rt: &(impl Env + AllocGlobal)) -> Result<Vec<Vec<u8>>, NoWords> {
    let args = match env::args(rt) {
        Ok(args) => args,
        Err(error) if error.kind() == ErrorKind::OutOfMemory => return Err(NoWords::OutOfMemory),
        Err(_) => return Err(NoWords::NotUtf8),
    };
    let mut words = Vec::new(rt.alloc());
    for arg in args.skip(1) {
        let Ok(word) = Vec::from_slice(rt.alloc(), arg.as_bytes()) else {
            return Err(NoWords::OutOfMemory);
        };
        let Ok(()) = words.push(word) else {
            return Err(NoWords::OutOfMemory);
        };
    }
    Ok(words)
}

fn main(rt: HostRuntime) -> ExitCode {
    let mut source = StdSource::new(rt.stdin());
    let mut sink = StdSink::new(rt.stdout());
    let status = match words_of(&rt) {
        Ok(words) => run(
            &rt,
            rt.alloc(),
            words.as_slice(),
            &mut source,
            &mut sink,
            &OpenGate,
        ),
        Err(NoWords::NotUtf8) => refuse_words(&mut sink),
        Err(NoWords::OutOfMemory) => refuse(&mut sink, ReadRefusal::OutOfMemory),
    };
    ExitCode::from(status.number())
}
