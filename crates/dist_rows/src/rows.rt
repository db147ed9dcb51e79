//! The trait of rows: what every representation of cells between places keeps.
ghost use Rattle.std.specs.Prelude.{◌≡◌, ◌≢◌, ℕ, ◌<◌, ◌≤◌, Bool, true, false, Option, Some, None, IfOk, OnOk, OnErr, IfSome, IfNone, pos, is_some, ◌&&◌, ◌||◌, not, ◌==◌, length, take, slice_index_or};
ghost use Rattle.dist_rows.specs.declared.cell.Cell.{Cell};
ghost use Rattle.dist_rows.specs.Cells.{lowered, is_lower, are_neighbours, weight_in, IsAbove, IsLight, offer_at, row_lowered, AreRising};
ghost use Rattle.dist_rows.specs.Places.{lists, AreWithin, AreRisingPlaces, count_roomless, IsListing};

use crate::cell::{Cell, Offer};
use crate::listed::Listed;
use std::alloc::Global;
use stn_model::OutOfMemory;

/// A finite map from ordered pairs of different places below a size to cells.
///
/// Pairs have room or not. A cell is written only where its pair has room, so that a write takes no memory.
/// The size never changes, nor whether the rows are roomy.
pub trait Rows: Drop + Sized {
    /// The size: places are the numbers below it.
    ghost places: { Self → ℕ };

    /// The cell of each pair.
    ghost at: { Self → ℕ → ℕ → Option Cell };

    /// Whether a pair has room.
    ghost has_room: { Self → ℕ → ℕ → Bool };

    /// Whether room can be made without memory.
    ghost is_roomy: { Self → Bool };

    /// The number of places.
    fn size(&self) -> u32
        ensures { result ≡ places self.now };

    /// The cell from `i` to `j`. None where the map has none, so also from a place to itself.
    fn get(&self, i: u32, j: u32) -> Option<Cell>
        requires { (i < places self.now) × (j < places self.now) }
        ensures { result ≡ at self.now i j };

    /// Makes room for a pair of different places, in this direction alone. No cell and no other room changes, and none at
    /// all after `OutOfMemory`, which comes only where the rows are not roomy.
    fn make_room(&mut self, i: u32, j: u32) -> Result<(), OutOfMemory>
        requires within { (i < places self.old) × (j < places self.old) }
        requires apart { i ≢ j }
        ensures places { places self.new ≡ places self.old }
        ensures roomy { is_roomy self.new ≡ is_roomy self.old }
        ensures cells { (p q : ℕ) → at self.new p q ≡ at self.old p q }
        ensures room { OnOk result ((p q : ℕ) → has_room self.new p q ≡ (((p == i) && (q == j)) || has_room self.old p q)) }
        ensures stays { OnErr result ((p q : ℕ) → has_room self.new p q ≡ has_room self.old p q) }
        ensures err { OnErr result (is_roomy self.old ≡ false) };

    /// Makes room for the pairs from `i` to each other place of a list that rises, in this direction alone. No cell and
    /// no other room changes, and none at all after `OutOfMemory`, which comes only where the rows are not roomy.
    fn make_room_row(&mut self, i: u32, list: &[u32]) -> Result<(), OutOfMemory>
        requires within { i < places self.old }
        requires others { AreWithin (places self.old) list.now }
        requires rising { AreRisingPlaces list.now }
        ensures places { places self.new ≡ places self.old }
        ensures roomy { is_roomy self.new ≡ is_roomy self.old }
        ensures cells { (p q : ℕ) → at self.new p q ≡ at self.old p q }
        ensures room { OnOk result ((p q : ℕ) → has_room self.new p q ≡ ((not (p == q) && (p == i) && lists list.now q) || has_room self.old p q)) }
        ensures stays { OnErr result ((p q : ℕ) → has_room self.new p q ≡ has_room self.old p q) }
        ensures err { OnErr result (is_roomy self.old ≡ false) };

    /// Makes room for all ordered pairs of different places of a list that rises. No cell and no other room changes, and
    /// none at all after `OutOfMemory`, which comes only where the rows are not roomy.
    fn make_room_among(&mut self, list: &[u32]) -> Result<(), OutOfMemory>
        requires within { AreWithin (places self.old) list.now }
        requires rising { AreRisingPlaces list.now }
        ensures places { places self.new ≡ places self.old }
        ensures roomy { is_roomy self.new ≡ is_roomy self.old }
        ensures cells { (p q : ℕ) → at self.new p q ≡ at self.old p q }
        ensures room { OnOk result ((p q : ℕ) → has_room self.new p q ≡ ((not (p == q) && lists list.now p && lists list.now q) || has_room self.old p q)) }
        ensures stays { OnErr result ((p q : ℕ) → has_room self.new p q ≡ has_room self.old p q) }
        ensures err { OnErr result (is_roomy self.old ≡ false) };

    /// How many pairs from `i` to another place of a list that rises have no room: so many `make_room_row` would make new.
    fn count_roomless(&self, i: u32, list: &[u32]) -> usize
        requires within { i < places self.now }
        requires others { AreWithin (places self.now) list.now }
        requires rising { AreRisingPlaces list.now }
        ensures { result ≡ count_roomless (has_room self.now) i list.now };

    /// Writes a cell, exactly where there was none or one of strictly greater weight, and says whether it did.
    /// The pair has room, and the weight has magnitude at most 2^100. Takes no memory.
    fn lower(&mut self, i: u32, j: u32, cell: Cell) -> bool
        requires apart { i ≢ j }
        requires room { has_room self.old i j ≡ true }
        requires light { IsLight 100 cell.weight }
        ensures written { result ≡ is_lower (at self.old i j) cell }
        ensures cells { (p q : ℕ) → at self.new p q ≡ lowered i j cell (at self.old) p q }
        ensures places { places self.new ≡ places self.old }
        ensures roomy { is_roomy self.new ≡ is_roomy self.old }
        ensures room { (p q : ℕ) → has_room self.new p q ≡ has_room self.old p q };

    /// Lowers cells of the row of `i`, as `lower` would for each offer: the cell at the offer's place to the sum of `by` and
    /// the offered weight, with the via `Through(k)`. An offer to `i` itself changes nothing.
    /// The places of the offers rise, their pairs have room, and all weights have magnitude at most 2^99. Takes no memory.
    fn lower_row(&mut self, i: u32, offers: &[Offer], by: i128, k: u32)
        requires within { i < places self.old }
        requires rising { AreRising offers.now }
        requires room { (m : ℕ) → m < length offers.now → i ≢ (offer_at offers.now m).place → has_room self.old i (offer_at offers.now m).place ≡ true }
        requires light { (m : ℕ) → m < length offers.now → IsLight 99 (offer_at offers.now m).weight }
        requires by { IsLight 99 by }
        ensures cells { (p q : ℕ) → at self.new p q ≡ row_lowered i k by offers.now (at self.old) p q }
        ensures places { places self.new ≡ places self.old }
        ensures roomy { is_roomy self.new ≡ is_roomy self.old }
        ensures room { (p q : ℕ) → has_room self.new p q ≡ has_room self.old p q };

    /// Reads the cells of the row of `i` at the places of a list that rises into a buffer of as many.
    fn read_row(&self, i: u32, others: &[u32], cells: &mut [Option<Cell>])
        requires within { i < places self.now }
        requires others { AreWithin (places self.now) others.now }
        requires rising { AreRisingPlaces others.now }
        requires len { length cells.old ≡ length others.now }
        ensures len { length cells.new ≡ length cells.old }
        ensures cells { (m : ℕ) → m < length others.now → slice_index_or cells.new m None ≡ at self.now i (slice_index_or others.now m 0) };

    /// Reads the weights of the row of `i` at the places of a list that rises into a buffer of as many: `FAR`, which is 2^120,
    /// where there is no cell.
    fn read_weights(&self, i: u32, others: &[u32], weights: &mut [i128])
        requires within { i < places self.now }
        requires others { AreWithin (places self.now) others.now }
        requires rising { AreRisingPlaces others.now }
        requires len { length weights.old ≡ length others.now }
        ensures len { length weights.new ≡ length weights.old }
        ensures weights { (m : ℕ) → m < length others.now → slice_index_or weights.new m (pos 0) ≡ weight_in (at self.now i (slice_index_or others.now m 0)) };

    /// The least place above `after`, or of all where that is None, that has a cell with `i` in either direction.
    /// None where there is no such place.
    fn next_neighbour(&self, i: u32, after: Option<u32>) -> Option<u32>
        requires { i < places self.now }
        ensures some { IfSome result (λ n. (n < places self.now) × IsAbove n after × (are_neighbours (at self.now) i n ≡ true)) }
        ensures least { IfSome result (λ n. (m : ℕ) → m < n → IsAbove m after → are_neighbours (at self.now) i m ≡ false) }
        ensures none { IfNone result ((m : ℕ) → IsAbove m after → are_neighbours (at self.now) i m ≡ false) };

    /// Writes the neighbours of `i` from a place on into a buffer, by rising number, and says how many they are and before
    /// which place they are all. Where the buffer has more room, they are all that there are. A neighbour has a cell with
    /// `i` in either direction.
    fn neighbours(&self, i: u32, from: u32, list: &mut [u32]) -> Listed
        requires { i < places self.now }
        ensures len { length list.new ≡ length list.old }
        ensures count { result.count ≤ length list.new }
        ensures listed { IsListing (are_neighbours (at self.now) i) from result.end (take result.count list.new) }
        ensures within { result.end ≤ places self.now }
        ensures whole { result.count < length list.new → result.end ≡ places self.now };

    /// Rows of the same size, cells and room, as roomy as these.
    fn copy(&self, alloc: Global) -> Result<Self, OutOfMemory>
        ensures places { IfOk result (λ r. places r ≡ places self.now) }
        ensures cells { IfOk result (λ r. (p q : ℕ) → at r p q ≡ at self.now p q) }
        ensures room { IfOk result (λ r. (p q : ℕ) → has_room r p q ≡ has_room self.now p q) }
        ensures roomy { IfOk result (λ r. is_roomy r ≡ is_roomy self.now) };

    /// Every pair with a cell has room.
    ghost cells_have_room: { (s : Self) (p q : ℕ) → is_some (at s p q) ≡ true → has_room s p q ≡ true };

    /// The weights have magnitude at most 2^100.
    ghost cells_are_light: { (s : Self) (p q : ℕ) → IfSome (at s p q) (λ c. IsLight 100 c.weight) };

    /// Only pairs of different places below the size have room.
    ghost room_is_within: { (s : Self) (p q : ℕ) → has_room s p q ≡ true → (p < places s) × (q < places s) × (p ≢ q) };
}
