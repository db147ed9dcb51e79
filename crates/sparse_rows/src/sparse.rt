//! Rows that take memory only for the pairs with room.
ghost use Rattle.std.specs.Prelude.{◌≡◌, ◌≢◌, ℕ, ◌+◌, ◌<◌, ◌≤◌, Bool, true, false, ◌&&◌, ◌||◌, not, ◌==◌, Option, Some, None, IfOk, OnOk, OnErr, length, slice_index_or, if◌then◌else◌};
ghost use Rattle.dist_rows.specs.declared.cell.Cell.{Cell};
ghost use Rattle.dist_rows.specs.Cells.{lowered, is_lower, are_neighbours, IsAbove, IsLight, offer_at, AreRising};
ghost use Rattle.dist_rows.specs.Places.{AreWithin, AreRisingPlaces, count_roomless};
ghost use Rattle.dist_rows.specs.Turns.{offered, roomed, row_roomed, all_roomed};
ghost use Rattle.sparse_rows.specs.Entries.{cell_at, opens, knows, place_at, IsRising, IsSought};
ghost use Rattle.sparse_rows.specs.SparseMaps.{row_of, AreRows, AreKnown, AreOpen};

use crate::row::Row;
use dist_rows::listed::put_where;
use dist_rows::{Cell, Listed, Offer, Rows, Via};
use std::alloc::Global;
use stn_model::OutOfMemory;

/// By place, the entries of the other places, 32 bytes for each ordered pair.
#[derive(Drop)]
pub struct SparseRows {
    size: u32,
    rows: Vec<Row>,
    ghost kept: { AreRows size rows.items },
}

impl SparseRows {
    ghost use Rattle.sparse_rows.specs.SparseMaps.{cells_of, rooms_of};

    // The row of a place.
    fn row(&self, i: u32) -> &Row
        requires { i < self.now.size }
        ensures value { result.now ≡ row_of self.now.rows.items i }
        ensures rising { IsRising result.now }
    {
        &self.rows[i as usize]
    }

    // Whether the row of a place would have more than a quarter of all places with so many further ones, and has not all.
    fn is_filling(&self, i: u32, more: usize) -> bool
        requires { i < self.now.size }
    {
        let len = self.row(i).len();
        let size = self.size as usize;
        let quarter = size / 4;
        len < size && (len > quarter || more > quarter - len)
    }

    // Makes entries, without room, of all pairs from a place where its row is filling, so that none has to be sought or
    // moved aside for another from then on.
    fn spread(&mut self, i: u32, more: usize) -> Result<(), OutOfMemory>
        requires within { i < self.old.size }
        ensures size { self.new.size ≡ self.old.size }
        ensures cells { (p q : ℕ) → cells_of self.new.rows.items p q ≡ cells_of self.old.rows.items p q }
        ensures room { (p q : ℕ) → rooms_of self.new.rows.items p q ≡ rooms_of self.old.rows.items p q }
        ensures more { (p q : ℕ) → knows (row_of self.old.rows.items p) q ≡ true → knows (row_of self.new.rows.items p) q ≡ true }
    {
        if self.is_filling(i, more) {
            let size = self.size;
            self.rows[i as usize].spread(size)?;
        }
        Ok(())
    }

    // Makes an entry of a pair, without room, unless there is one.
    fn know(&mut self, i: u32, j: u32) -> Result<(), OutOfMemory>
        requires within { (i < self.old.size) × (j < self.old.size) }
        requires apart { i ≢ j }
        ensures size { self.new.size ≡ self.old.size }
        ensures cells { (p q : ℕ) → cells_of self.new.rows.items p q ≡ cells_of self.old.rows.items p q }
        ensures room { (p q : ℕ) → rooms_of self.new.rows.items p q ≡ rooms_of self.old.rows.items p q }
        ensures known { OnOk result (knows (row_of self.new.rows.items i) j ≡ true) }
        ensures more { (p q : ℕ) → knows (row_of self.old.rows.items p) q ≡ true → knows (row_of self.new.rows.items p) q ≡ true }
    {
        self.spread(i, 1)?;
        self.rows[i as usize].know(j)?;
        Ok(())
    }

    // Makes room for a pair of which the mirrored one has an entry.
    fn open(&mut self, i: u32, j: u32) -> Result<(), OutOfMemory>
        requires within { (i < self.old.size) × (j < self.old.size) }
        requires apart { i ≢ j }
        requires mirrored { knows (row_of self.old.rows.items j) i ≡ true }
        ensures size { self.new.size ≡ self.old.size }
        ensures cells { (p q : ℕ) → cells_of self.new.rows.items p q ≡ cells_of self.old.rows.items p q }
        ensures room { OnOk result ((p q : ℕ) → rooms_of self.new.rows.items p q ≡ (((p == i) && (q == j)) || rooms_of self.old.rows.items p q)) }
        ensures stays { OnErr result ((p q : ℕ) → rooms_of self.new.rows.items p q ≡ rooms_of self.old.rows.items p q) }
    {
        self.rows[i as usize].open(j)?;
        Ok(())
    }

    // Makes an entry of a pair, unless its places are one. The first `from` entries of the row have places below j.
    // Says how many have.
    fn know_from(&mut self, i: u32, from: usize, j: u32) -> Result<usize, OutOfMemory>
        requires within { (i < self.old.size) × (j < self.old.size) }
        requires from { from ≤ length (row_of self.old.rows.items i) }
        requires before { (q : ℕ) → q < from → place_at (row_of self.old.rows.items i) q < j }
        ensures size { self.new.size ≡ self.old.size }
        ensures cells { (p q : ℕ) → cells_of self.new.rows.items p q ≡ cells_of self.old.rows.items p q }
        ensures room { (p q : ℕ) → rooms_of self.new.rows.items p q ≡ rooms_of self.old.rows.items p q }
        ensures more { (p q : ℕ) → knows (row_of self.old.rows.items p) q ≡ true → knows (row_of self.new.rows.items p) q ≡ true }
        ensures known { OnOk result (i ≢ j → knows (row_of self.new.rows.items i) j ≡ true) }
        ensures within { IfOk result (λ at. at ≤ length (row_of self.new.rows.items i)) }
        ensures before { IfOk result (λ at. (q : ℕ) → q < at → place_at (row_of self.new.rows.items i) q < j) }
    {
        if i == j {
            return Ok(from);
        }
        self.rows[i as usize].know_from(from, j)
    }

    // Makes room for a pair, where both it and the mirrored one have entries, unless its places are one. The first `from`
    // entries of the row have places below j. Says how many have. Takes no memory.
    fn open_from(&mut self, i: u32, from: usize, j: u32) -> usize
        requires within { (i < self.old.size) × (j < self.old.size) }
        requires known { i ≢ j → knows (row_of self.old.rows.items i) j ≡ true }
        requires mirrored { i ≢ j → knows (row_of self.old.rows.items j) i ≡ true }
        requires from { from ≤ length (row_of self.old.rows.items i) }
        requires before { (q : ℕ) → q < from → place_at (row_of self.old.rows.items i) q < j }
        ensures size { self.new.size ≡ self.old.size }
        ensures cells { (p q : ℕ) → cells_of self.new.rows.items p q ≡ cells_of self.old.rows.items p q }
        ensures room { (p q : ℕ) → rooms_of self.new.rows.items p q ≡ roomed i j (rooms_of self.old.rows.items) p q }
        ensures more { (p q : ℕ) → knows (row_of self.old.rows.items p) q ≡ true → knows (row_of self.new.rows.items p) q ≡ true }
        ensures within { result ≤ length (row_of self.new.rows.items i) }
        ensures before { (q : ℕ) → q < result → place_at (row_of self.new.rows.items i) q < j }
    {
        if i == j {
            return from;
        }
        self.rows[i as usize].open_from(from, j)
    }

    // Makes entries of the pairs of i with each other place of a list.
    fn know_row(&mut self, i: u32, list: &[u32]) -> Result<(), OutOfMemory>
        requires within { i < self.old.size }
        requires others { AreWithin self.old.size list.now }
        requires rising { AreRisingPlaces list.now }
        ensures size { self.new.size ≡ self.old.size }
        ensures cells { (p q : ℕ) → cells_of self.new.rows.items p q ≡ cells_of self.old.rows.items p q }
        ensures room { (p q : ℕ) → rooms_of self.new.rows.items p q ≡ rooms_of self.old.rows.items p q }
        ensures more { (p q : ℕ) → knows (row_of self.old.rows.items p) q ≡ true → knows (row_of self.new.rows.items p) q ≡ true }
        ensures known { OnOk result ((m : ℕ) → m < length list.now → i ≢ slice_index_or list.now m 0 → knows (row_of self.new.rows.items i) (slice_index_or list.now m 0) ≡ true) }
    {
        self.spread(i, list.len())?;
        let mut at = 0;
        for n in 0..list.len() {
            at = self.know_from(i, at, list[n])?;
        }
        Ok(())
    }

    // Makes entries of all pairs of different places of a list.
    fn know_among(&mut self, list: &[u32]) -> Result<(), OutOfMemory>
        requires others { AreWithin self.old.size list.now }
        requires rising { AreRisingPlaces list.now }
        ensures size { self.new.size ≡ self.old.size }
        ensures cells { (p q : ℕ) → cells_of self.new.rows.items p q ≡ cells_of self.old.rows.items p q }
        ensures room { (p q : ℕ) → rooms_of self.new.rows.items p q ≡ rooms_of self.old.rows.items p q }
        ensures known { OnOk result (AreKnown self.new.rows.items list.now (length list.now)) }
    {
        for n in 0..list.len() {
            self.know_row(list[n], list)?;
        }
        Ok(())
    }

    // Makes room for the pairs of i with each other place of a list, all of which have entries both ways.
    fn open_row(&mut self, i: u32, list: &[u32])
        requires within { i < self.old.size }
        requires others { AreWithin self.old.size list.now }
        requires rising { AreRisingPlaces list.now }
        requires known { (m : ℕ) → m < length list.now → i ≢ slice_index_or list.now m 0 → knows (row_of self.old.rows.items i) (slice_index_or list.now m 0) ≡ true }
        requires mirrored { (m : ℕ) → m < length list.now → i ≢ slice_index_or list.now m 0 → knows (row_of self.old.rows.items (slice_index_or list.now m 0)) i ≡ true }
        ensures size { self.new.size ≡ self.old.size }
        ensures cells { (p q : ℕ) → cells_of self.new.rows.items p q ≡ cells_of self.old.rows.items p q }
        ensures room { (p q : ℕ) → rooms_of self.new.rows.items p q ≡ row_roomed i list.now (rooms_of self.old.rows.items) p q }
        ensures more { (p q : ℕ) → knows (row_of self.old.rows.items p) q ≡ true → knows (row_of self.new.rows.items p) q ≡ true }
    {
        let mut at = 0;
        for n in 0..list.len() {
            at = self.open_from(i, at, list[n]);
        }
    }

    // Makes room for all pairs of different places of a list, which all have entries.
    fn open_among(&mut self, list: &[u32])
        requires others { AreWithin self.old.size list.now }
        requires rising { AreRisingPlaces list.now }
        requires known { AreKnown self.old.rows.items list.now (length list.now) }
        ensures size { self.new.size ≡ self.old.size }
        ensures cells { (p q : ℕ) → cells_of self.new.rows.items p q ≡ cells_of self.old.rows.items p q }
        ensures room { (p q : ℕ) → rooms_of self.new.rows.items p q ≡ all_roomed list.now list.now (rooms_of self.old.rows.items) p q }
    {
        for n in 0..list.len() {
            self.open_row(list[n], list);
        }
    }

    // Makes an entry of the pair that mirrors (i, j), unless its places are one.
    fn know_back(&mut self, i: u32, j: u32) -> Result<(), OutOfMemory>
        requires within { (i < self.old.size) × (j < self.old.size) }
        ensures size { self.new.size ≡ self.old.size }
        ensures cells { (p q : ℕ) → cells_of self.new.rows.items p q ≡ cells_of self.old.rows.items p q }
        ensures room { (p q : ℕ) → rooms_of self.new.rows.items p q ≡ rooms_of self.old.rows.items p q }
        ensures more { (p q : ℕ) → knows (row_of self.old.rows.items p) q ≡ true → knows (row_of self.new.rows.items p) q ≡ true }
        ensures known { OnOk result (i ≢ j → knows (row_of self.new.rows.items j) i ≡ true) }
    {
        if i != j && !self.row(i).is_open(j) {
            self.know(j, i)?;
        }
        Ok(())
    }

    // Makes entries of the pairs that mirror those of i with each other place of a list.
    fn know_column(&mut self, i: u32, list: &[u32]) -> Result<(), OutOfMemory>
        requires within { i < self.old.size }
        requires others { AreWithin self.old.size list.now }
        ensures size { self.new.size ≡ self.old.size }
        ensures cells { (p q : ℕ) → cells_of self.new.rows.items p q ≡ cells_of self.old.rows.items p q }
        ensures room { (p q : ℕ) → rooms_of self.new.rows.items p q ≡ rooms_of self.old.rows.items p q }
        ensures known { OnOk result ((m : ℕ) → m < length list.now → i ≢ slice_index_or list.now m 0 → knows (row_of self.new.rows.items (slice_index_or list.now m 0)) i ≡ true) }
    {
        for n in 0..list.len() {
            self.know_back(i, list[n])?;
        }
        Ok(())
    }

    // Lowers one cell to an offered sum, where the first `from` entries of the row have places below that of the offer.
    // Says how many have places up to that.
    fn offer(&mut self, i: u32, from: usize, offer: Offer, by: i128, k: u32) -> usize
        requires within { i < self.old.size }
        requires from { from ≤ length (row_of self.old.rows.items i) }
        requires before { (q : ℕ) → q < from → place_at (row_of self.old.rows.items i) q < offer.place }
        requires room { i ≢ offer.place → rooms_of self.old.rows.items i offer.place ≡ true }
        requires light { IsLight 99 offer.weight }
        requires by { IsLight 99 by }
        ensures size { self.new.size ≡ self.old.size }
        ensures cells { (p q : ℕ) → cells_of self.new.rows.items p q ≡ offered i k by offer (cells_of self.old.rows.items) p q }
        ensures room { (p q : ℕ) → rooms_of self.new.rows.items p q ≡ rooms_of self.old.rows.items p q }
        ensures within { result ≤ length (row_of self.new.rows.items i) }
        ensures before { (q : ℕ) → q < result → place_at (row_of self.new.rows.items i) q < offer.place + 1 }
    {
        if offer.place == i {
            return from;
        }
        let row = self.row(i);
        let at = row.advance(from, offer.place);
        let next = row.behind(at, offer.place);
        let cell = Cell {
            weight: by + offer.weight,
            via: Via::Through(k),
        };
        self.write(i, at, offer.place, cell);
        next
    }

    // Lowers the cell of an entry.
    fn write(&mut self, i: u32, at: usize, j: u32, cell: Cell)
        requires within { i < self.old.size }
        requires here { IsSought (row_of self.old.rows.items i) j at }
        requires room { rooms_of self.old.rows.items i j ≡ true }
        requires light { IsLight 100 cell.weight }
        ensures size { self.new.size ≡ self.old.size }
        ensures cells { (p q : ℕ) → cells_of self.new.rows.items p q ≡ lowered i j cell (cells_of self.old.rows.items) p q }
        ensures room { (p q : ℕ) → rooms_of self.new.rows.items p q ≡ rooms_of self.old.rows.items p q }
        ensures places { (q : ℕ) → place_at (row_of self.new.rows.items i) q ≡ place_at (row_of self.old.rows.items i) q }
        ensures len { length (row_of self.new.rows.items i) ≡ length (row_of self.old.rows.items i) }
    {
        self.rows[i as usize].lower_at(at, j, cell);
    }

    // Whether there is a cell in either direction between i and the place of an entry of its row.
    fn touches(&self, i: u32, at: usize) -> bool
        requires within { i < self.now.size }
        requires entry { at < length (row_of self.now.rows.items i) }
        ensures { result ≡ are_neighbours (cells_of self.now.rows.items) i (place_at (row_of self.now.rows.items i) at) }
    {
        let row = self.row(i);
        row.cell_here(at).is_some() || self.get(row.place(at), i).is_some()
    }

    // Whether all pairs of different places of a list have room.
    fn has_room_among(&self, list: &[u32]) -> bool
        requires within { AreWithin self.now.size list.now }
        requires rising { AreRisingPlaces list.now }
        ensures { result ≡ true → AreOpen self.now.rows.items list.now }
    {
        for n in 0..list.len() {
            if self.count_roomless(list[n], list) > 0 {
                return false;
            }
        }
        true
    }
}

// Whether the pair of i with another place has no room, by whether it has: 1 or 0.
fn roomless(i: u32, j: u32, has: bool) -> usize
    ensures { result ≡ (if not (i == j) && not has then 1 else 0) }
{
    usize::from(i != j && !has)
}

// How many entries of a row have places that are not above.
fn start(row: &Row, after: Option<u32>) -> usize
    requires { IsRising row.now }
    ensures within { result ≤ length row.now }
    ensures below { (q : ℕ) → q < result → IsAbove (place_at row.now q) after → ⊥ }
    ensures above { (q : ℕ) → result ≤ q → q < length row.now → IsAbove (place_at row.now q) after }
{
    match after {
        None => 0,
        Some(n) => row.seek(u64::from(n) + 1),
    }
}

impl Rows for SparseRows {
    ghost use Rattle.sparse_rows.specs.SparseMaps.{cells_of, rooms_of, have_room, are_light, are_within};
    ghost use Rattle.std.specs.Prelude.{false};

    ghost places = { λ s. s.size };

    ghost at = { λ s i j. cells_of s.rows.items i j };

    ghost has_room = { λ s i j. rooms_of s.rows.items i j };

    ghost is_roomy = { λ s. false };

    fn size(&self) -> u32 {
        self.size
    }

    fn get(&self, i: u32, j: u32) -> Option<Cell> {
        self.row(i).get(j)
    }

    fn make_room(&mut self, i: u32, j: u32) -> Result<(), OutOfMemory> {
        self.know(j, i)?;
        self.open(i, j)?;
        Ok(())
    }

    fn lower(&mut self, i: u32, j: u32, cell: Cell) -> bool {
        self.rows[i as usize].lower(j, cell)
    }

    fn make_room_row(&mut self, i: u32, list: &[u32]) -> Result<(), OutOfMemory> {
        if self.count_roomless(i, list) == 0 {
            return Ok(());
        }
        self.know_column(i, list)?;
        self.know_row(i, list)?;
        self.open_row(i, list);
        Ok(())
    }

    fn make_room_among(&mut self, list: &[u32]) -> Result<(), OutOfMemory> {
        if self.has_room_among(list) {
            return Ok(());
        }
        self.know_among(list)?;
        self.open_among(list);
        Ok(())
    }

    fn count_roomless(&self, i: u32, list: &[u32]) -> usize {
        let row = self.row(i);
        let mut from = 0;
        let mut count = 0;
        for n in 0..list.len() {
            let (next, has) = row.room_from(from, list[n]);
            count += roomless(i, list[n], has);
            from = next;
        }
        count
    }

    fn lower_row(&mut self, i: u32, offers: &[Offer], by: i128, k: u32) {
        let mut at = 0;
        for n in 0..offers.len() {
            at = self.offer(i, at, offers[n], by, k);
        }
    }

    fn read_row(&self, i: u32, others: &[u32], cells: &mut [Option<Cell>]) {
        let row = self.row(i);
        let mut from = 0;
        for n in 0..others.len() {
            let (next, cell) = row.cell_from(from, others[n]);
            cells[n] = cell;
            from = next;
        }
    }

    fn read_weights(&self, i: u32, others: &[u32], weights: &mut [i128]) {
        let row = self.row(i);
        let mut from = 0;
        for n in 0..others.len() {
            let (next, weight) = row.weight_from(from, others[n]);
            weights[n] = weight;
            from = next;
        }
    }

    fn next_neighbour(&self, i: u32, after: Option<u32>) -> Option<u32> {
        let row = self.row(i);
        for at in start(row, after)..row.len() {
            let n = row.place(at);
            if self.touches(i, at) {
                return Some(n);
            }
        }
        None
    }

    fn neighbours(&self, i: u32, from: u32, list: &mut [u32]) -> Listed {
        let row = self.row(i);
        let mut count = 0;
        for at in row.seek(u64::from(from))..row.len() {
            let n = row.place(at);
            if count == list.len() {
                return Listed { count, end: n };
            }
            count = put_where(list, count, n, self.touches(i, at));
        }
        Listed {
            count,
            end: self.size,
        }
    }

    fn copy(&self, alloc: Global) -> Result<Self, OutOfMemory> {
        let mut rows = Vec::new(alloc);
        for k in 0..self.rows.len() {
            rows.push(self.rows[k].copy(alloc)?)?;
        }
        Ok(SparseRows {
            size: self.size,
            rows,
        })
    }

    ghost cells_have_room = { λ s p q h. have_room s.rows.items p q h };

    ghost cells_are_light = { λ s p q. are_light s.size s.rows.items s.kept p q };

    ghost room_is_within = { λ s p q h. are_within s.size s.rows.items s.kept p q h };
}

impl SparseRows {
    /// Rows of this size without a cell and without room. They are not roomy.
    pub fn new(alloc: Global, size: u32) -> Result<SparseRows, OutOfMemory>
        ensures size { IfOk result (λ r. ⟦<SparseRows as Rows>⟧.places r ≡ size) }
        ensures empty { IfOk result (λ r. (i j : ℕ) → ⟦<SparseRows as Rows>⟧.at r i j ≡ None) }
        ensures room { IfOk result (λ r. (i j : ℕ) → ⟦<SparseRows as Rows>⟧.has_room r i j ≡ false) }
        ensures roomy { IfOk result (λ r. ⟦<SparseRows as Rows>⟧.is_roomy r ≡ false) }
    {
        let mut rows = Vec::new(alloc);
        for _k in 0..size {
            rows.push(Row::new(alloc))?;
        }
        Ok(SparseRows { size, rows })
    }
}
