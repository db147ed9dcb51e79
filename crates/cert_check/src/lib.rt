//! A checker of certificates, which cites no solver: it reads a certificate line by line and tests each line by itself.
#![tactic(auto)]

pub mod check;
mod cycle;
pub mod error_line;
mod field;
mod grammar;
mod numbers;
mod row;
mod section;
mod stage;
pub mod verdict;
mod words;

pub use check::check_certificate;
pub use error_line::add_error;
pub use verdict::{CertCause, Verdict};

#[cfg(test)]
mod tests;
