//! Certificates of networks, as the checker of certificates accepts them.
#![tactic(auto)]

mod certificate;
mod section;
#[cfg(test)]
mod tests;

pub use certificate::print_certificate;
