//! One row: the entries of a place, by rising other place.
ghost use Rattle.std.specs.Prelude.{◌≡◌, ℕ, ◌+◌, ◌<◌, ◌≤◌, Bool, true, false, ◌||◌, ◌==◌, Option, Some, None, List, [], if◌then◌else◌, IfOk, IfErr, OnOk, OnErr, length, slice_index_or, ◌≢◌};
ghost use Rattle.dist_rows.specs.declared.cell.Cell.{Cell};
ghost use Rattle.dist_rows.specs.Cells.{is_lower, lesser, weight_in};
ghost use Rattle.sparse_rows.specs.declared.entry.Entry.{Entry};
ghost use Rattle.sparse_rows.specs.Entries.{cell_at, opens, knows, entry_in, entry_or, place_at, no_entry, IsRising, IsSought, IsGap, IsHere, IsChanged};

use crate::entry::Entry;
use dist_rows::{Cell, FAR};
use std::alloc::Global;
use std::cmp::min;
use std::marker::Model;
use stn_model::OutOfMemory;

// How many entries a walk along a row passes one by one before it looks further ahead by halves.
const AHEAD: usize = 8;

/// The entries of a place.
#[derive(Drop)]
pub struct Row {
    entries: Vec<Entry>,
}

impl Model for Row {
    ghost Value = { List Entry };

    ghost view = { λ r. r.entries.items };
}

impl Row {
    /// No entries.
    pub fn new(alloc: Global) -> Row
        ensures { result ≡ [] }
    {
        Row {
            entries: Vec::new(alloc),
        }
    }

    /// The number of entries.
    pub fn len(&self) -> usize
        ensures { result ≡ length self.now }
    {
        self.entries.len()
    }

    /// The place of an entry.
    pub fn place(&self, at: usize) -> u32
        requires { at < length self.now }
        ensures { result ≡ place_at self.now at }
    {
        self.entries[at].place
    }

    // Whether the entry at `at` is of a place below j.
    fn is_below(&self, at: usize, j: u64) -> bool
        requires { at < length self.now }
        ensures yes { result ≡ true → place_at self.now at < j }
        ensures no { result ≡ false → j ≤ place_at self.now at }
    {
        u64::from(self.place(at)) < j
    }

    // How many entries have places below j, where the first `from` have: by halving the rest.
    fn seek_from(&self, from: usize, j: u64) -> usize
        requires rising { IsRising self.now }
        requires within { from ≤ length self.now }
        requires below { (q : ℕ) → q < from → place_at self.now q < j }
        ensures { IsSought self.now j result }
    {
        let mut low = from;
        let mut high = self.len();
        'halving: while low < high {
            let middle = low + (high - low) / 2;
            if self.is_below(middle, j) {
                low = middle + 1;
            } else {
                high = middle;
            }
        }
        low
    }

    /// How many entries have places below j.
    pub fn seek(&self, j: u64) -> usize
        requires { IsRising self.now }
        ensures { IsSought self.now j result }
    {
        self.seek_from(0, j)
    }

    // The next entry that has no place below j or lies some entries ahead.
    fn walk(&self, from: usize, j: u32) -> usize
        requires within { from ≤ length self.now }
        requires below { (q : ℕ) → q < from → place_at self.now q < j }
        ensures within { result ≤ length self.now }
        ensures below { (q : ℕ) → q < result → place_at self.now q < j }
    {
        let end = from + min(AHEAD, self.len() - from);
        let mut at = from;
        'walk: while at < end && self.is_below(at, u64::from(j)) {
            at += 1;
        }
        at
    }

    // Whether the row ends at `at` or the entry there has no place below j.
    fn is_reached(&self, at: usize, j: u32) -> bool
        ensures { result ≡ true → at < length self.now → j ≤ place_at self.now at }
    {
        at >= self.len() || !self.is_below(at, u64::from(j))
    }

    // How many entries have places below j, where the first `from` have, by a walk and then by halving.
    fn advance_far(&self, from: usize, j: u32) -> usize
        requires rising { IsRising self.now }
        requires within { from ≤ length self.now }
        requires below { (q : ℕ) → q < from → place_at self.now q < j }
        ensures { IsSought self.now j result }
    {
        let at = self.walk(from, j);
        if self.is_reached(at, j) {
            return at;
        }
        self.seek_from(at, u64::from(j))
    }

    /// How many entries have places below j, where the first `from` have. Where they are not many more, this takes a step
    /// for each, and none where each place has an entry.
    pub fn advance(&self, from: usize, j: u32) -> usize
        requires rising { IsRising self.now }
        requires within { from ≤ length self.now }
        requires below { (q : ℕ) → q < from → place_at self.now q < j }
        ensures { IsSought self.now j result }
    {
        // Where each place has an entry, it stands at its number. This is looked at first: it is true of each place of such a
        // row, where no guess at the next place of a list would be.
        if self.is_at(j as usize, j) {
            return j as usize;
        }
        if self.is_reached(from, j) {
            return from;
        }
        self.advance_far(from, j)
    }

    // How many entries have places up to j, where `at` have places below it.
    fn after(&self, at: usize, j: u32) -> usize
        requires rising { IsRising self.now }
        requires sought { IsSought self.now j at }
        ensures { IsSought self.now (j + 1) result }
    {
        if at < self.len() && self.place(at) == j {
            return at + 1;
        }
        at
    }

    /// How many entries have places up to j, where `at` have places below it and the entry of j stands there.
    pub fn behind(&self, at: usize, j: u32) -> usize
        requires rising { IsRising self.now }
        requires sought { IsSought self.now j at }
        requires known { knows self.now j ≡ true }
        ensures within { result ≤ length self.now }
        ensures upto { (q : ℕ) → q < result → place_at self.now q < j + 1 }
    {
        let end = self.len();
        prove!(at < end);
        at + 1
    }

    // Whether the entry at `at` is of the place j.
    fn is_at(&self, at: usize, j: u32) -> bool
        ensures yes { result ≡ true → (at < length self.now) × (place_at self.now at ≡ j) }
        ensures no { result ≡ false → at < length self.now → place_at self.now at ≢ j }
    {
        at < self.len() && self.place(at) == j
    }

    // Where the entry of a place stands, or else where it belongs: at the number of entries of places below it.
    fn found(&self, at: usize, j: u32) -> Result<usize, usize>
        requires rising { IsRising self.now }
        requires sought { IsSought self.now j at }
        ensures here { IfOk result (λ at. IsHere self.now j at) }
        ensures gap { IfErr result (λ at. IsGap self.now j at) }
        ensures none { IfErr result (λ at. entry_in self.now j ≡ None) }
    {
        if self.is_at(at, j) {
            return Ok(at);
        }
        Err(at)
    }

    // The same, sought from the front of the row on.
    fn find(&self, j: u32) -> Result<usize, usize>
        requires { IsRising self.now }
        ensures here { IfOk result (λ at. IsHere self.now j at) }
        ensures gap { IfErr result (λ at. IsGap self.now j at) }
        ensures none { IfErr result (λ at. entry_in self.now j ≡ None) }
    {
        self.find_from(0, j)
    }

    // The same, where the first `from` entries have places below j.
    fn find_from(&self, from: usize, j: u32) -> Result<usize, usize>
        requires rising { IsRising self.now }
        requires within { from ≤ length self.now }
        requires below { (q : ℕ) → q < from → place_at self.now q < j }
        ensures here { IfOk result (λ at. IsHere self.now j at) }
        ensures gap { IfErr result (λ at. IsGap self.now j at) }
        ensures none { IfErr result (λ at. entry_in self.now j ≡ None) }
    {
        self.found(self.advance(from, j), j)
    }

    // The entry at `at`.
    fn entry(&self, at: usize) -> Entry
        requires { at < length self.now }
        ensures { result ≡ slice_index_or self.now at no_entry }
    {
        self.entries[at]
    }

    // Writes an entry over that of its place.
    fn write(&mut self, at: usize, entry: Entry)
        requires rising { IsRising self.old }
        requires here { IsHere self.old entry.place at }
        ensures rising { IsRising self.new }
        ensures entries { IsChanged self.old self.new entry }
        ensures places { (q : ℕ) → place_at self.new q ≡ place_at self.old q }
        ensures len { length self.new ≡ length self.old }
    {
        self.entries[at] = entry;
    }

    // Inserts an entry where it belongs.
    fn insert(&mut self, at: usize, entry: Entry) -> Result<(), OutOfMemory>
        requires rising { IsRising self.old }
        requires gap { IsGap self.old entry.place at }
        ensures rising { IsRising self.new }
        ensures entries { OnOk result (IsChanged self.old self.new entry) }
        ensures before { OnOk result ((q : ℕ) → q < at → place_at self.new q ≡ place_at self.old q) }
        ensures len { OnOk result (at ≤ length self.new) }
        ensures stays { OnErr result (self.new ≡ self.old) }
    {
        self.entries.insert(at, entry)?;
        Ok(())
    }

    /// The cell at a place, where `at` entries have places below it.
    pub fn cell(&self, at: usize, j: u32) -> Option<Cell>
        requires rising { IsRising self.now }
        requires sought { IsSought self.now j at }
        ensures { result ≡ cell_at self.now j }
    {
        if self.is_at(at, j) {
            return self.entry(at).cell();
        }
        None
    }

    /// The cell at a place, where the first `from` entries have places below it, and how many have places up to it.
    /// Where they are not many more, this takes a step for each.
    pub fn cell_from(&self, from: usize, j: u32) -> (usize, Option<Cell>)
        requires rising { IsRising self.now }
        requires within { from ≤ length self.now }
        requires below { (q : ℕ) → q < from → place_at self.now q < j }
        ensures value { result.1 ≡ cell_at self.now j }
        ensures next { IsSought self.now (j + 1) result.0 }
    {
        let at = self.advance(from, j);
        (self.after(at, j), self.cell(at, j))
    }

    // The weight at a place, or `FAR`, where `at` entries have places below it.
    fn weight(&self, at: usize, j: u32) -> i128
        requires rising { IsRising self.now }
        requires sought { IsSought self.now j at }
        ensures { result ≡ weight_in (cell_at self.now j) }
    {
        if self.is_at(at, j) {
            return self.entry(at).plain_weight();
        }
        FAR
    }

    /// The weight at a place, or `FAR`, where the first `from` entries have places below it, and how many have places up to
    /// it. Where they are not many more, this takes a step for each.
    pub fn weight_from(&self, from: usize, j: u32) -> (usize, i128)
        requires rising { IsRising self.now }
        requires within { from ≤ length self.now }
        requires below { (q : ℕ) → q < from → place_at self.now q < j }
        ensures value { result.1 ≡ weight_in (cell_at self.now j) }
        ensures next { IsSought self.now (j + 1) result.0 }
    {
        let at = self.advance(from, j);
        (self.after(at, j), self.weight(at, j))
    }

    /// The cell of an entry.
    pub fn cell_here(&self, at: usize) -> Option<Cell>
        requires rising { IsRising self.now }
        requires within { at < length self.now }
        ensures { result ≡ cell_at self.now (place_at self.now at) }
    {
        self.entry(at).cell()
    }

    /// The cell at a place.
    pub fn get(&self, j: u32) -> Option<Cell>
        requires { IsRising self.now }
        ensures { result ≡ cell_at self.now j }
    {
        let Ok(at) = self.find(j) else { return None };
        self.entry(at).cell()
    }

    /// Writes a cell at a place with room, where there is none or one of strictly greater weight, and says whether.
    pub fn lower(&mut self, j: u32, cell: Cell) -> bool
        requires rising { IsRising self.old }
        requires room { opens self.old j ≡ true }
        ensures written { result ≡ is_lower (cell_at self.old j) cell }
        ensures rising { IsRising self.new }
        ensures cells { (q : ℕ) → cell_at self.new q ≡ (if q == j then lesser (cell_at self.old j) cell else cell_at self.old q) }
        ensures room { (q : ℕ) → opens self.new q ≡ opens self.old q }
        ensures known { (q : ℕ) → knows self.new q ≡ knows self.old q }
    {
        let Ok(at) = self.find(j) else { return false };
        self.lower_at(at, j, cell)
    }

    /// The same, where the entry of the place stands at `at`.
    pub fn lower_at(&mut self, at: usize, j: u32, cell: Cell) -> bool
        requires rising { IsRising self.old }
        requires here { IsHere self.old j at }
        requires room { opens self.old j ≡ true }
        ensures written { result ≡ is_lower (cell_at self.old j) cell }
        ensures rising { IsRising self.new }
        ensures cells { (q : ℕ) → cell_at self.new q ≡ (if q == j then lesser (cell_at self.old j) cell else cell_at self.old q) }
        ensures room { (q : ℕ) → opens self.new q ≡ opens self.old q }
        ensures known { (q : ℕ) → knows self.new q ≡ knows self.old q }
        ensures places { (q : ℕ) → place_at self.new q ≡ place_at self.old q }
        ensures len { length self.new ≡ length self.old }
    {
        let entry = self.entry(at);
        let lower = cell.is_below(entry.cell());
        if lower {
            self.write(at, entry.with(cell));
        }
        lower
    }

    /// Makes room at a place.
    pub fn open(&mut self, j: u32) -> Result<(), OutOfMemory>
        requires rising { IsRising self.old }
        ensures rising { IsRising self.new }
        ensures cells { (q : ℕ) → cell_at self.new q ≡ cell_at self.old q }
        ensures room { OnOk result ((q : ℕ) → opens self.new q ≡ ((q == j) || opens self.old q)) }
        ensures known { OnOk result ((q : ℕ) → knows self.new q ≡ ((q == j) || knows self.old q)) }
        ensures stays { OnErr result (self.new ≡ self.old) }
    {
        match self.find(j) {
            Ok(at) => {
                let entry = self.entry(at).opened();
                self.write(at, entry);
            }
            Err(at) => self.insert(at, Entry::open(j))?,
        }
        Ok(())
    }

    /// Makes an entry of a place, without room, unless there is one.
    pub fn know(&mut self, j: u32) -> Result<(), OutOfMemory>
        requires rising { IsRising self.old }
        ensures rising { IsRising self.new }
        ensures cells { (q : ℕ) → cell_at self.new q ≡ cell_at self.old q }
        ensures room { (q : ℕ) → opens self.new q ≡ opens self.old q }
        ensures known { OnOk result ((q : ℕ) → knows self.new q ≡ ((q == j) || knows self.old q)) }
        ensures stays { OnErr result (self.new ≡ self.old) }
    {
        if let Err(at) = self.find(j) {
            self.insert(at, Entry::closed(j))?;
        }
        Ok(())
    }

    /// The same, where the first `from` entries have places below j. Says how many have.
    pub fn know_from(&mut self, from: usize, j: u32) -> Result<usize, OutOfMemory>
        requires rising { IsRising self.old }
        requires within { from ≤ length self.old }
        requires below { (q : ℕ) → q < from → place_at self.old q < j }
        ensures rising { IsRising self.new }
        ensures cells { (q : ℕ) → cell_at self.new q ≡ cell_at self.old q }
        ensures room { (q : ℕ) → opens self.new q ≡ opens self.old q }
        ensures known { OnOk result ((q : ℕ) → knows self.new q ≡ ((q == j) || knows self.old q)) }
        ensures stays { OnErr result (self.new ≡ self.old) }
        ensures within { IfOk result (λ at. at ≤ length self.new) }
        ensures below { IfOk result (λ at. (q : ℕ) → q < at → place_at self.new q < j) }
    {
        match self.find_from(from, j) {
            Ok(at) => Ok(at),
            Err(at) => {
                self.insert(at, Entry::closed(j))?;
                Ok(at)
            }
        }
    }

    /// Makes room at a place that has an entry, where the first `from` entries have places below it. Says how many have.
    /// Takes no memory.
    pub fn open_from(&mut self, from: usize, j: u32) -> usize
        requires rising { IsRising self.old }
        requires known { knows self.old j ≡ true }
        requires within { from ≤ length self.old }
        requires below { (q : ℕ) → q < from → place_at self.old q < j }
        ensures rising { IsRising self.new }
        ensures cells { (q : ℕ) → cell_at self.new q ≡ cell_at self.old q }
        ensures room { (q : ℕ) → opens self.new q ≡ ((q == j) || opens self.old q) }
        ensures known { (q : ℕ) → knows self.new q ≡ ((q == j) || knows self.old q) }
        ensures within { result ≤ length self.new }
        ensures below { (q : ℕ) → q < result → place_at self.new q < j }
    {
        let Ok(at) = self.find_from(from, j) else {
            return from;
        };
        let entry = self.entry(at).opened();
        self.write(at, entry);
        at
    }

    // The entry of a place, or one without room where it has none.
    fn entry_or_closed(&self, j: u32) -> Entry
        requires { IsRising self.now }
        ensures { result ≡ entry_or (entry_in self.now j) j }
    {
        match self.find(j) {
            Ok(at) => self.entry(at),
            Err(_) => Entry::closed(j),
        }
    }

    // The entries of all places below a size, each without room where it has none.
    fn spread_entries(&self, size: u32) -> Result<Vec<Entry>, OutOfMemory>
        requires rising { IsRising self.now }
        ensures len { IfOk result (λ r. length r.items ≡ size) }
        ensures each { IfOk result (λ r. (q : ℕ) → q < size → slice_index_or r.items q no_entry ≡ entry_or (entry_in self.now q) q) }
    {
        let mut entries = Vec::with_capacity(*self.entries.allocator(), size as usize)?;
        for j in 0..size {
            entries.push(self.entry_or_closed(j))?;
        }
        Ok(entries)
    }

    /// Makes an entry, without room, of each place below a size that has none. Each stands at its place's number then.
    pub fn spread(&mut self, size: u32) -> Result<(), OutOfMemory>
        requires rising { IsRising self.old }
        requires within { (q : ℕ) → knows self.old q ≡ true → q < size }
        ensures rising { IsRising self.new }
        ensures cells { (q : ℕ) → cell_at self.new q ≡ cell_at self.old q }
        ensures room { (q : ℕ) → opens self.new q ≡ opens self.old q }
        ensures more { (q : ℕ) → knows self.old q ≡ true → knows self.new q ≡ true }
        ensures within { (q : ℕ) → knows self.new q ≡ true → q < size }
    {
        let entries = self.spread_entries(size)?;
        self.entries = entries;
        Ok(())
    }

    /// Whether there is room at a place, where `at` entries have places below it.
    pub fn has_room(&self, at: usize, j: u32) -> bool
        requires rising { IsRising self.now }
        requires sought { IsSought self.now j at }
        ensures { result ≡ opens self.now j }
    {
        if self.is_at(at, j) {
            return self.entry(at).is_open();
        }
        false
    }

    /// Whether there is room at a place, where the first `from` entries have places below it, and how many have places up
    /// to it. Where they are not many more, this takes a step for each.
    pub fn room_from(&self, from: usize, j: u32) -> (usize, bool)
        requires rising { IsRising self.now }
        requires within { from ≤ length self.now }
        requires below { (q : ℕ) → q < from → place_at self.now q < j }
        ensures value { result.1 ≡ opens self.now j }
        ensures next { IsSought self.now (j + 1) result.0 }
    {
        let at = self.advance(from, j);
        (self.after(at, j), self.has_room(at, j))
    }

    /// Whether there is room at a place.
    pub fn is_open(&self, j: u32) -> bool
        requires { IsRising self.now }
        ensures { result ≡ opens self.now j }
    {
        self.has_room(self.advance(0, j), j)
    }

    /// The same entries.
    pub fn copy(&self, alloc: Global) -> Result<Row, OutOfMemory>
        ensures { IfOk result (λ r. r ≡ self.now) }
    {
        let entries = Vec::from_slice(alloc, self.entries.as_slice())?;
        Ok(Row { entries })
    }
}
