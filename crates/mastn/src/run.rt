//! The top call: from the words and the input to the status and the output.
ghost use Rattle.std.specs.Prelude.{◌≡◌, ℕ, ◌≤◌, List, codes, map, None, Some, IfOk, IfErr};
ghost use Rattle.mastn.specs.Gens.{Generates};
ghost use Rattle.mastn.specs.Jobs.{job_of};
ghost use Rattle.mastn.specs.Limits.{greatest_number, greatest_size};
ghost use Rattle.mastn.specs.Json.{says_of_json};
ghost use Rattle.mastn.specs.Questions.{says_of};
ghost use Rattle.mastn.specs.Requests.{asks_of};
ghost use Rattle.mastn.specs.Reports.{refusal_line};
ghost use Rattle.mastn.specs.Solves.{solves};
ghost use Rattle.mastn.specs.Runs.{ReadsWhole, Refuses, Writes, Runs, RunsAlone, refusal_word};
ghost use Rattle.mastn.specs.Statuses.{refusal_status};
ghost use Rattle.mastn.specs.declared.json.JsonQuestion.TheVariants as json;
ghost use Rattle.mastn.specs.declared.question.Question.TheVariants as question;
ghost use Rattle.mastn.specs.declared.status.Status.TheVariants as status;
ghost use Rattle.mastn.specs.declared.words.Job.TheVariants as job;
ghost use Rattle.mastn.specs.declared.words.Pick.{Pick};

use crate::answer::Answer;
use crate::generate::generated_text;
use crate::json::JsonQuestion;
use crate::limits::LONGEST_INPUT;
use crate::question::Question;
use crate::request::Request;
use crate::solve::solve_input;
use crate::status::Status;
use crate::words::{Job, Pick, read_words};
use agent_worker::Gate;
use std::alloc::Global;
use std::sync::Wait;
use std::thread::Threads;
use stn_io::{ReadRefusal, Sink, Source, read_all, write_all};

/// Does the job that the words ask for, with the source as its input and the sink for its output.
///
/// The input is read to its end before anything is written. What the sink takes is the whole
/// report, one error line, or, with the status of a write fault, a prefix of one of these.
///
/// `solve` runs a worker in a thread of its own for each agent, and waits for them; the gate is the one by which they go. So this holds if the
/// call returns. The other jobs start nothing and wait for nothing.
pub fn run<R: Threads + Wait + Sync, S: Source, K: Sink, G: Gate + Sync>(
    rt: &R,
    alloc: Global,
    words: &[Vec<u8>],
    source: &mut S,
    sink: &mut K,
    gate: &G,
) -> Status
    // No job: nothing is read.
    ensures words_bad { job_of (map (λ w. w.items) words.now) ≡ None → (source.new ≡ source.old)
        × Writes status.WordsBad (refusal_line (codes "WordsBad")) (K.state sink.old) (K.state sink.new) result }
    ensures check { job_of (map (λ w. w.items) words.now) ≡ Some job.Check
        → Runs (says_of question.Check) (S.state source.old) (S.state source.new) (K.state sink.old) (K.state sink.new) result }
    ensures certify { job_of (map (λ w. w.items) words.now) ≡ Some job.Certify
        → Runs (says_of question.Certify) (S.state source.old) (S.state source.new) (K.state sink.old) (K.state sink.new) result }
    ensures verify { job_of (map (λ w. w.items) words.now) ≡ Some job.Verify
        → Runs (says_of question.Verify) (S.state source.old) (S.state source.new) (K.state sink.old) (K.state sink.new) result }
    ensures upgrade { job_of (map (λ w. w.items) words.now) ≡ Some job.Upgrade
        → Runs (says_of question.Upgrade) (S.state source.old) (S.state source.new) (K.state sink.old) (K.state sink.new) result }
    ensures repair { job_of (map (λ w. w.items) words.now) ≡ Some job.Repair
        → Runs (says_of question.Repair) (S.state source.old) (S.state source.new) (K.state sink.old) (K.state sink.new) result }
    ensures check_json { job_of (map (λ w. w.items) words.now) ≡ Some job.CheckJson
        → Runs (says_of_json json.Check) (S.state source.old) (S.state source.new) (K.state sink.old) (K.state sink.new) result }
    ensures json { job_of (map (λ w. w.items) words.now) ≡ Some job.Json
        → Runs (says_of_json json.Print) (S.state source.old) (S.state source.new) (K.state sink.old) (K.state sink.new) result }
    ensures solve { (pick : Pick) → job_of (map (λ w. w.items) words.now) ≡ Some (job.Solve pick)
        → Runs (solves pick) (S.state source.old) (S.state source.new) (K.state sink.old) (K.state sink.new) result }
    // Nothing is read.
    ensures generated { (number size : ℕ) → job_of (map (λ w. w.items) words.now) ≡ Some (job.Gen number size) → (source.new ≡ source.old)
        × RunsAlone (Generates number size) (K.state sink.old) (K.state sink.new) result }
    ensures reads_later { (S.state source.old).faults ≤ (S.state source.new).faults }
    ensures writes_later { (K.state sink.old).faults ≤ (K.state sink.new).faults }
{
    match read_words(words) {
        None => refuse_words(sink),
        Some(Job::Check) => run_check(alloc, source, sink),
        Some(Job::Certify) => run_certify(alloc, source, sink),
        Some(Job::Verify) => run_verify(alloc, source, sink),
        Some(Job::Upgrade) => run_upgrade(alloc, source, sink),
        Some(Job::Repair) => run_repair(alloc, source, sink),
        Some(Job::CheckJson) => run_check_json(alloc, source, sink),
        Some(Job::Json) => run_json(alloc, source, sink),
        Some(Job::Solve { pick }) => run_solve(rt, alloc, pick, source, sink, gate),
        Some(Job::Gen { number, size }) => run_gen(alloc, number, size, sink),
    }
}

/// Reads a network and reports its earliest schedule, or a negative cycle. What follows the `end` line of the network is not looked at.
pub fn run_check<S: Source, K: Sink>(alloc: Global, source: &mut S, sink: &mut K) -> Status
    ensures check { Runs (says_of question.Check) (S.state source.old) (S.state source.new) (K.state sink.old) (K.state sink.new) result }
    ensures reads_later { (S.state source.old).faults ≤ (S.state source.new).faults }
    ensures writes_later { (K.state sink.old).faults ≤ (K.state sink.new).faults }
{
    run_request(alloc, Request::Text(Question::Check), source, sink)
}

/// Reads a network of at most 256 points and writes a certificate of its verdict and of its least bounds. What follows the `end` line of the network is not looked at.
pub fn run_certify<S: Source, K: Sink>(alloc: Global, source: &mut S, sink: &mut K) -> Status
    ensures certify { Runs (says_of question.Certify) (S.state source.old) (S.state source.new) (K.state sink.old) (K.state sink.new) result }
    ensures reads_later { (S.state source.old).faults ≤ (S.state source.new).faults }
    ensures writes_later { (K.state sink.old).faults ≤ (K.state sink.new).faults }
{
    run_request(alloc, Request::Text(Question::Certify), source, sink)
}

/// Reads a network of at most 256 points and its certificate, and checks this.
pub fn run_verify<S: Source, K: Sink>(alloc: Global, source: &mut S, sink: &mut K) -> Status
    ensures verify { Runs (says_of question.Verify) (S.state source.old) (S.state source.new) (K.state sink.old) (K.state sink.new) result }
    ensures reads_later { (S.state source.old).faults ≤ (S.state source.new).faults }
    ensures writes_later { (K.state sink.old).faults ≤ (K.state sink.new).faults }
{
    run_request(alloc, Request::Text(Question::Verify), source, sink)
}

/// Reads a network and writes it in version 2 of the text, whether or not some schedule satisfies it. What follows the `end` line of the network is not looked at.
pub fn run_upgrade<S: Source, K: Sink>(alloc: Global, source: &mut S, sink: &mut K) -> Status
    ensures upgrade { Runs (says_of question.Upgrade) (S.state source.old) (S.state source.new) (K.state sink.old) (K.state sink.new) result }
    ensures reads_later { (S.state source.old).faults ≤ (S.state source.new).faults }
    ensures writes_later { (K.state sink.old).faults ≤ (K.state sink.new).faults }
{
    run_request(alloc, Request::Text(Question::Upgrade), source, sink)
}

/// Reads a network and reports its earliest schedule; or a negative cycle, and for each given arc of it, in its order, by how much it must at
/// least be loosened. What follows the `end` line of the network is not looked at.
pub fn run_repair<S: Source, K: Sink>(alloc: Global, source: &mut S, sink: &mut K) -> Status
    ensures repair { Runs (says_of question.Repair) (S.state source.old) (S.state source.new) (K.state sink.old) (K.state sink.new) result }
    ensures reads_later { (S.state source.old).faults ≤ (S.state source.new).faults }
    ensures writes_later { (K.state sink.old).faults ≤ (K.state sink.new).faults }
{
    run_request(alloc, Request::Text(Question::Repair), source, sink)
}

/// Reads a network in JSON and writes the report of `check` on it.
pub fn run_check_json<S: Source, K: Sink>(alloc: Global, source: &mut S, sink: &mut K) -> Status
    ensures check { Runs (says_of_json json.Check) (S.state source.old) (S.state source.new) (K.state sink.old) (K.state sink.new) result }
    ensures reads_later { (S.state source.old).faults ≤ (S.state source.new).faults }
    ensures writes_later { (K.state sink.old).faults ≤ (K.state sink.new).faults }
{
    run_request(alloc, Request::Json(JsonQuestion::Check), source, sink)
}

/// Reads a network in JSON and writes its plain form, whether or not some schedule satisfies it.
pub fn run_json<S: Source, K: Sink>(alloc: Global, source: &mut S, sink: &mut K) -> Status
    ensures json { Runs (says_of_json json.Print) (S.state source.old) (S.state source.new) (K.state sink.old) (K.state sink.new) result }
    ensures reads_later { (S.state source.old).faults ≤ (S.state source.new).faults }
    ensures writes_later { (K.state sink.old).faults ≤ (K.state sink.new).faults }
{
    run_request(alloc, Request::Json(JsonQuestion::Print), source, sink)
}

/// Reads an input to its end, and writes the answer to a request.
fn run_request<S: Source, K: Sink>(
    alloc: Global,
    request: Request,
    source: &mut S,
    sink: &mut K,
) -> Status
    ensures answer { Runs (asks_of request) (S.state source.old) (S.state source.new) (K.state sink.old) (K.state sink.new) result }
    ensures reads_later { (S.state source.old).faults ≤ (S.state source.new).faults }
    ensures writes_later { (K.state sink.old).faults ≤ (K.state sink.new).faults }
{
    match ask(alloc, request, source) {
        Ok(answer) => deliver(sink, answer.text.as_slice(), answer.outcome.status()),
        Err(refusal) => refuse(sink, refusal),
    }
}

/// Reads an input to its end, and answers a request.
fn ask<S: Source>(alloc: Global, request: Request, source: &mut S) -> Result<Answer, ReadRefusal>
    ensures answer { IfOk result (λ a. (bytes : List ℕ) × ReadsWhole (S.state source.old) (S.state source.new) bytes × asks_of request bytes a.outcome a.text.items) }
    ensures refused { IfErr result (λ e. Refuses e (S.state source.old) (S.state source.new)) }
    ensures later { (S.state source.old).faults ≤ (S.state source.new).faults }
{
    let bytes = read_input(alloc, source)?;
    let Ok(answer) = request.answer(alloc, bytes.as_slice()) else {
        return Err(ReadRefusal::OutOfMemory);
    };
    Ok(answer)
}

/// Reads an input to its end.
fn read_input<S: Source>(alloc: Global, source: &mut S) -> Result<Vec<u8>, ReadRefusal>
    ensures whole { IfOk result (λ v. ReadsWhole (S.state source.old) (S.state source.new) v.items) }
    ensures refused { IfErr result (λ e. Refuses e (S.state source.old) (S.state source.new)) }
    ensures later { (S.state source.old).faults ≤ (S.state source.new).faults }
{
    let bytes = read_all(alloc, source, LONGEST_INPUT)?;
    Ok(bytes)
}

/// Reads a network and a script, and solves the network by a worker for each agent, each of which eliminates its agent's private points in an order
/// that the pick allows, and then shared points. Reports the joined order and what the commands of the script say of the network, one after another; or
/// a negative cycle. Refused is what follows the network where it is no script, or has a command that is not built: `bounds`, `windows` and `prove`
/// alone are built yet.
pub fn run_solve<R: Threads + Wait + Sync, S: Source, K: Sink, G: Gate + Sync>(
    rt: &R,
    alloc: Global,
    pick: Pick,
    source: &mut S,
    sink: &mut K,
    gate: &G,
) -> Status
    ensures solve { Runs (solves pick) (S.state source.old) (S.state source.new) (K.state sink.old) (K.state sink.new) result }
    ensures reads_later { (S.state source.old).faults ≤ (S.state source.new).faults }
    ensures writes_later { (K.state sink.old).faults ≤ (K.state sink.new).faults }
{
    match ask_solve(rt, alloc, pick, source, gate) {
        Ok(answer) => deliver(sink, answer.text.as_slice(), answer.outcome.status()),
        Err(refusal) => refuse(sink, refusal),
    }
}

/// Reads an input to its end, and solves its network.
fn ask_solve<R: Threads + Wait + Sync, S: Source, G: Gate + Sync>(
    rt: &R,
    alloc: Global,
    pick: Pick,
    source: &mut S,
    gate: &G,
) -> Result<Answer, ReadRefusal>
    ensures answer { IfOk result (λ a. (bytes : List ℕ) × ReadsWhole (S.state source.old) (S.state source.new) bytes × solves pick bytes a.outcome a.text.items) }
    ensures refused { IfErr result (λ e. Refuses e (S.state source.old) (S.state source.new)) }
    ensures later { (S.state source.old).faults ≤ (S.state source.new).faults }
{
    let bytes = read_input(alloc, source)?;
    let Ok(answer) = solve_input(rt, alloc, pick, bytes.as_slice(), gate) else {
        return Err(ReadRefusal::OutOfMemory);
    };
    Ok(answer)
}

/// Writes the generated network of a number and a size in its plain form, and the script lines `windows` and `done`. Nothing is read.
pub fn run_gen<K: Sink>(alloc: Global, number: u32, size: u32, sink: &mut K) -> Status
    requires number_high { number ≤ greatest_number }
    requires size_low { 1 ≤ size }
    requires size_high { size ≤ greatest_size }
    ensures generated { RunsAlone (Generates number size) (K.state sink.old) (K.state sink.new) result }
    ensures writes_later { (K.state sink.old).faults ≤ (K.state sink.new).faults }
{
    match generated_text(alloc, number, size) {
        Ok(text) => deliver(sink, text.as_slice(), Status::Done),
        Err(_) => refuse(sink, ReadRefusal::OutOfMemory),
    }
}

/// Writes the error line of words that are no job.
pub fn refuse_words<K: Sink>(sink: &mut K) -> Status
    ensures writing { Writes status.WordsBad (refusal_line (codes "WordsBad")) (K.state sink.old) (K.state sink.new) result }
    ensures later { (K.state sink.old).faults ≤ (K.state sink.new).faults }
{
    deliver(sink, b"error 0 WordsBad\n", Status::WordsBad)
}

/// Writes the error line of an input that was not read whole, or for which memory ran out.
pub fn refuse<K: Sink>(sink: &mut K, refusal: ReadRefusal) -> Status
    ensures writing { Writes (refusal_status refusal) (refusal_line (refusal_word refusal)) (K.state sink.old) (K.state sink.new) result }
    ensures later { (K.state sink.old).faults ≤ (K.state sink.new).faults }
{
    match refusal {
        ReadRefusal::ReadFault => deliver(sink, b"error 0 ReadFault\n", Status::ReadFault),
        ReadRefusal::TooLong => deliver(sink, b"error 0 InputTooLong\n", Status::InputTooLong),
        ReadRefusal::OutOfMemory => deliver(sink, b"error 0 OutOfMemory\n", Status::OutOfMemory),
    }
}

/// Writes a text, and gives the status that goes with it unless a write fails.
fn deliver<K: Sink>(sink: &mut K, text: &[u8], meant: Status) -> Status
    ensures writing { Writes meant text.now (K.state sink.old) (K.state sink.new) result }
    ensures later { (K.state sink.old).faults ≤ (K.state sink.new).faults }
{
    match write_all(sink, text) {
        Ok(()) => meant,
        Err(_) => Status::WriteFault,
    }
}
