//! How far a certificate has come.
use crate::row::Row;

/// How far a certificate has come.
#[derive(Drop)]
pub enum Stage {
    /// No line was read.
    Start,
    /// The header was read.
    Headed,
    /// The section of this point is due.
    FromDue(u32),
    /// In the section of a point, with the distances from it.
    Section { from: u32, row: Row },
    /// The cycle is due.
    CycleDue,
    /// The `end` line is due.
    EndDue { consistent: bool },
    /// The `end` line was read.
    Ended { consistent: bool },
}
