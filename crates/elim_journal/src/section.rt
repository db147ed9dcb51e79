//! The record of a whole solve.
ghost use Rattle.std.specs.Prelude.{◌≡◌, true, IfOk};
ghost use Rattle.elim_journal.specs.Sections.{are_solving};

use shared_graph::Entry;
use std::alloc::Global;
use std::marker::Model;
use stn_model::{OutOfMemory, PointId};

/// What a solve that found least bounds went through: the private points of all agents in the order in which they were eliminated, and the
/// entries of the shared graph in theirs, each of which publishes, eliminates or revisits.
///
/// That the entries are legal, and that the points are private ones of some network, is not asked.
#[derive(Drop)]
pub struct Section {
    private: Vec<PointId>,
    entries: Vec<Entry>,
}

impl Model for Section {
    ghost use Rattle.elim_journal.specs.Sections.{SectionView};

    ghost Value = { SectionView };

    ghost use Rattle.elim_journal.specs.Views.{section_view, IsSolve};

    ghost view = { section_view };

    ghost invariant = { IsSolve };
}

impl Section {
    /// The section of these private points and entries, in their orders. No entry stops, assigns or widens. It takes no memory.
    pub fn new(private: Vec<PointId>, entries: Vec<Entry>) -> Section
        requires { are_solving entries.items ≡ true }
        ensures { result ≡ record { private = private.items; entries = entries.items } }
    {
        Section { private, entries }
    }

    /// The private points, in the order in which they were eliminated.
    pub fn private(&self) -> &[PointId]
        ensures { result.now ≡ self.now.private }
    {
        self.private.as_slice()
    }

    /// The entries of the shared graph, in their order.
    pub fn entries(&self) -> &[Entry]
        ensures entries { result.now ≡ self.now.entries }
        ensures solving { are_solving self.now.entries ≡ true }
    {
        self.entries.as_slice()
    }

    /// An equal section, or OutOfMemory.
    pub fn copy(&self, alloc: Global) -> Result<Section, OutOfMemory>
        ensures { IfOk result (λ s. s ≡ self.now) }
    {
        let private = Vec::from_slice(alloc, self.private.as_slice())?;
        let entries = Vec::from_slice(alloc, self.entries.as_slice())?;
        Ok(Section { private, entries })
    }
}
