//! The words of the command line.
ghost use Rattle.std.specs.Prelude.{◌≡◌, ◌≤◌, IfSome, map};
ghost use Rattle.mastn.specs.Jobs.{job_of, lone_job, formed_job, valued_job, pick_of, solve_of, digits_of, gen_of, gen_within, IsWithinLimits};

use crate::limits::{GREATEST_NUMBER, GREATEST_SIZE};
use net_text::numbers::number_of;

/// Which of an agent's private points a solve eliminates next.
#[derive(Clone, Copy, Debug, PartialEq, Eq)]
pub enum Pick {
    /// One with the fewest neighbours, and of several such the one of least number.
    Degree,
    /// The one of least number.
    Number,
}

/// What the words of the command line ask for.
#[derive(Clone, Copy, Debug, PartialEq, Eq)]
pub enum Job {
    /// No words, or `check`: read a network and decide it.
    Check,
    /// `certify`: read a network and write a certificate of its verdict.
    Certify,
    /// `verify`: read a network and a certificate, and check this.
    Verify,
    /// `upgrade`: read a network and write it in version 2 of the text.
    Upgrade,
    /// `repair`: read a network and loosen the arcs of one of its conflicts.
    Repair,
    /// `check --json`: read a network in JSON and decide it.
    CheckJson,
    /// `json`: read a network in JSON and write its plain form.
    Json,
    /// `solve`, or `solve --pick degree`, or `solve --pick number`: read a network and a script, and solve the network by a worker for each agent.
    Solve { pick: Pick },
    /// `gen NUMBER SIZE`: write the generated network of that number and size.
    Gen { number: u32, size: u32 },
}

/// The job that the words ask for, or None exactly where they are no job.
pub fn read_words(words: &[Vec<u8>]) -> Option<Job>
    ensures job { result ≡ job_of (map (λ w. w.items) words.now) }
    ensures within { IfSome result IsWithinLimits }
{
    match words {
        [] => Some(Job::Check),
        [word] => read_lone(word.as_slice()),
        [word, form] => read_formed(word.as_slice(), form.as_slice()),
        [word, first, second] => {
            read_valued(word.as_slice(), first.as_slice(), second.as_slice())
        }
        _ => None,
    }
}

/// The job of a lone word.
fn read_lone(word: &[u8]) -> Option<Job>
    ensures job { result ≡ lone_job word.now }
    ensures within { IfSome result IsWithinLimits }
{
    if word == b"check".as_slice() {
        return Some(Job::Check);
    }
    if word == b"certify".as_slice() {
        return Some(Job::Certify);
    }
    if word == b"verify".as_slice() {
        return Some(Job::Verify);
    }
    if word == b"upgrade".as_slice() {
        return Some(Job::Upgrade);
    }
    if word == b"repair".as_slice() {
        return Some(Job::Repair);
    }
    if word == b"json".as_slice() {
        return Some(Job::Json);
    }
    if word == b"solve".as_slice() {
        return Some(Job::Solve { pick: Pick::Degree });
    }
    None
}

/// The job of a word with the form of its input.
fn read_formed(word: &[u8], form: &[u8]) -> Option<Job>
    ensures job { result ≡ formed_job word.now form.now }
    ensures within { IfSome result IsWithinLimits }
{
    if word == b"check".as_slice() && form == b"--json".as_slice() {
        return Some(Job::CheckJson);
    }
    None
}

/// The job of a word with two more.
fn read_valued(word: &[u8], first: &[u8], second: &[u8]) -> Option<Job>
    ensures job { result ≡ valued_job word.now first.now second.now }
    ensures within { IfSome result IsWithinLimits }
{
    if word == b"gen".as_slice() {
        return read_gen(read_digits(first), read_digits(second));
    }
    if word == b"solve".as_slice() && first == b"--pick".as_slice() {
        return read_solve(second);
    }
    None
}

/// The job `solve` with the name of a pick.
fn read_solve(name: &[u8]) -> Option<Job>
    ensures job { result ≡ solve_of (pick_of name.now) }
    ensures within { IfSome result IsWithinLimits }
{
    let pick = read_pick(name)?;
    Some(Job::Solve { pick })
}

/// The pick of a name.
fn read_pick(name: &[u8]) -> Option<Pick>
    ensures { result ≡ pick_of name.now }
{
    if name == b"degree".as_slice() {
        return Some(Pick::Degree);
    }
    if name == b"number".as_slice() {
        return Some(Pick::Number);
    }
    None
}

/// The number that a word of 1 to 10 digits writes.
fn read_digits(word: &[u8]) -> Option<i64>
    ensures { result ≡ digits_of word.now }
{
    if word.len() > 10 || word.is_empty() || word[0] == b'-' {
        return None;
    }
    number_of(word)
}

/// The job `gen` of two numbers, where they are in range.
fn read_gen(number: Option<i64>, size: Option<i64>) -> Option<Job>
    ensures job { result ≡ gen_of number size }
    ensures within { IfSome result IsWithinLimits }
{
    match (number, size) {
        (Some(number), Some(size)) => gen_within(number, size),
        _ => None,
    }
}

/// The job `gen` of a number and a size, where they are in range.
fn gen_within(number: i64, size: i64) -> Option<Job>
    ensures job { result ≡ gen_within number size }
    ensures within { IfSome result IsWithinLimits }
{
    if 0 <= number && number <= GREATEST_NUMBER && 1 <= size && size <= GREATEST_SIZE {
        return Some(Job::Gen {
            number: number as u32,
            size: size as u32,
        });
    }
    None
}
