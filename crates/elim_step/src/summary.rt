//! Summaries: what an agent tells of its own arcs. Windows: what others decide of its points.
ghost use Rattle.std.specs.Prelude.{◌≡◌, ◌↔◌, true, IsSome, IfSome, IfOk};
ghost use Rattle.elim_step.specs.Summaries.{is_valid, is_less, may_follow, is_summary, entry_in};

use std::alloc::Global;
use std::marker::Model;
use stn_model::{GREATEST_WALK, OutOfMemory, PointId};

/// The least weight from one point to another, in the network's unit of time.
#[derive(Clone, Copy, PartialEq, Eq, Debug)]
pub struct SummaryEntry {
    pub from: PointId,
    pub to: PointId,
    pub weight: i128,
}

/// The times that a point may have, from `lo` to `hi`, in the network's unit of time.
#[derive(Clone, Copy, PartialEq, Eq, Debug)]
pub struct Window {
    pub point: PointId,
    pub lo: i128,
    pub hi: i128,
}

impl SummaryEntry {
    // Whether the ends differ and the weight is in range.
    fn is_valid(&self) -> bool
        ensures { result ≡ is_valid self.now }
    {
        self.from.0 != self.to.0
            && self.weight.unsigned_abs() <= GREATEST_WALK.unsigned_abs() as u128
    }

    // Whether the pair is less than that of another entry: by from, then by to.
    fn is_less(&self, other: &SummaryEntry) -> bool
        ensures { result ≡ is_less self.now other.now }
    {
        self.from.0 < other.from.0 || self.from.0 == other.from.0 && self.to.0 < other.to.0
    }

    // Whether the entry is valid and may stand after the last one.
    fn may_follow(&self, last: Option<SummaryEntry>) -> bool
        ensures { result ≡ may_follow last self.now }
    {
        match last {
            None => self.is_valid(),
            Some(last) => last.is_less(self) && self.is_valid(),
        }
    }
}

// Whether a list of entries is a summary.
fn is_summary(entries: &[SummaryEntry]) -> bool
    ensures { result ≡ is_summary entries.now }
{
    let mut last = None;
    for &entry in entries {
        if !entry.may_follow(last) {
            return false;
        }
        last = Some(entry);
    }
    true
}

/// A list of entries with pairs that strictly rise by from and to, different ends, and weights of magnitude at most 2^53.
#[derive(Drop)]
pub struct Summary {
    entries: Vec<SummaryEntry>,
}

impl Model for Summary {
    ghost use Rattle.std.specs.Prelude.{List, ◌≡◌, true};
    ghost use Rattle.elim_step.specs.declared.summary.SummaryEntry.{SummaryEntry};
    ghost use Rattle.elim_step.specs.Summaries.{is_summary};

    ghost Value = { List SummaryEntry };

    ghost view = { λ s. s.entries.items };

    ghost invariant = { λ s. is_summary s.entries.items ≡ true };
}

impl Summary {
    /// The summary of these entries. None exactly where the pairs do not strictly rise by from and to, a pair has equal
    /// ends, or a weight has magnitude above 2^53.
    pub fn new(entries: Vec<SummaryEntry>) -> Option<Summary>
        ensures valid { IsSome result ↔ (is_summary entries.items ≡ true) }
        ensures value { IfSome result (λ s. s ≡ entries.items) }
    {
        if !is_summary(&entries) {
            return None;
        }
        Some(Summary { entries })
    }

    /// The entries, by rising pairs.
    pub fn entries(&self) -> &[SummaryEntry]
        ensures value { result.now ≡ self.now }
        ensures valid { is_summary self.now ≡ true }
    {
        &self.entries
    }

    /// The weight of a pair's entry; None exactly where it has none.
    pub fn weight(&self, from: PointId, to: PointId) -> Option<i128>
        ensures { result ≡ entry_in self.now from.0 to.0 }
    {
        for entry in self.entries.as_slice() {
            if entry.from.0 == from.0 && entry.to.0 == to.0 {
                return Some(entry.weight);
            }
        }
        None
    }

    /// An equal summary.
    pub fn copy(&self, alloc: Global) -> Result<Summary, OutOfMemory>
        ensures { IfOk result (λ s. s ≡ self.now) }
    {
        let entries = Vec::from_slice(alloc, self.entries.as_slice())?;
        Ok(Summary { entries })
    }
}
