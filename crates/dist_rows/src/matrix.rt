//! Rows as a full matrix, which always has room.
ghost use Rattle.std.specs.Prelude.{◌≡◌, ◌≢◌, ◌↔◌, ℕ, ◌+◌, ◌*◌, ◌<◌, ◌≤◌, ◌^◌, Bool, true, false, ◌&&◌, not, ◌==◌, nat_lt, Option, Some, None, IsTrue, IfOk, OnOk, OnErr, IfSome, IfNone, slice_index_or, vec_len, if◌then◌else◌, is_some};
ghost use Rattle.std.specs.List.{list_all};
ghost use Rattle.dist_rows.specs.declared.cell.Cell.{Cell};
ghost use Rattle.dist_rows.specs.declared.slot.Slot.{Slot};
ghost use Rattle.dist_rows.specs.Cells.{lowered, is_lower, are_neighbours, IsAbove, IsLight, offer_at, row_lowered, AreRising};
ghost use Rattle.dist_rows.specs.Places.{is_roomless};
ghost use Rattle.dist_rows.specs.Slots.{holds_light, no_slot};

use crate::cell::{Cell, Offer, Via, weight_in};
use crate::listed::{Listed, put_where};
use crate::rows::Rows;
use crate::slot::Slot;
use std::alloc::Global;
use stn_model::OutOfMemory;

/// A full matrix of cells, 32 bytes for each pair.
#[derive(Drop)]
pub struct MatrixRows {
    size: u32,
    slots: Vec<Slot>,
    ghost square: { vec_len slots ≡ size * size },
    ghost light: { list_all holds_light slots.items ≡ true },
}

impl MatrixRows {
    ghost use Rattle.dist_rows.specs.Matrix.{cell_at, in_room};
    ghost use Rattle.dist_rows.specs.Turns.{offered};

    // Where the slot of a pair stands.
    fn place(&self, i: u32, j: u32) -> usize
        requires { (i < self.now.size) × (j < self.now.size) }
        ensures value { result ≡ i * self.now.size + j }
        ensures within { result < vec_len self.now.slots }
    {
        i as usize * self.size as usize + j as usize
    }

    // Lowers one cell to an offered sum.
    fn offer(&mut self, i: u32, offer: Offer, by: i128, k: u32)
        requires room { i ≢ offer.place → in_room self.old.size i offer.place ≡ true }
        requires light { IsLight 99 offer.weight }
        requires by { IsLight 99 by }
        ensures cells { (p q : ℕ) → cell_at self.new.size self.new.slots.items p q ≡ offered i k by offer (cell_at self.old.size self.old.slots.items) p q }
        ensures size { self.new.size ≡ self.old.size }
    {
        if offer.place == i {
            return;
        }
        let cell = Cell {
            weight: by + offer.weight,
            via: Via::Through(k),
        };
        self.lower(i, offer.place, cell);
    }

    // Whether there is a cell between two places in either direction.
    fn touches(&self, i: u32, n: u32) -> bool
        requires { (i < self.now.size) × (n < self.now.size) }
        ensures { result ≡ are_neighbours (cell_at self.now.size self.now.slots.items) i n }
    {
        self.get(i, n).is_some() || self.get(n, i).is_some()
    }
}

// The first place that is above.
fn first_after(after: Option<u32>) -> u64
    ensures { (m : ℕ) → IsAbove m after ↔ (result ≤ m) }
{
    match after {
        None => 0,
        Some(n) => u64::from(n) + 1,
    }
}

impl Rows for MatrixRows {
    ghost use Rattle.std.specs.Prelude.{true};
    ghost use Rattle.dist_rows.specs.Matrix.{cell_at, in_room, room-from_cell, within-from_room, light-cell};

    ghost places = { λ s. s.size };

    ghost at = { λ s i j. cell_at s.size s.slots.items i j };

    ghost has_room = { λ s i j. in_room s.size i j };

    ghost is_roomy = { λ s. true };

    fn size(&self) -> u32 {
        self.size
    }

    fn get(&self, i: u32, j: u32) -> Option<Cell> {
        if i == j {
            return None;
        }
        let slot = self.slots[self.place(i, j)];
        slot.cell()
    }

    fn make_room(&mut self, _i: u32, _j: u32) -> Result<(), OutOfMemory> {
        Ok(())
    }

    fn lower(&mut self, i: u32, j: u32, cell: Cell) -> bool {
        let lower = cell.is_below(self.get(i, j));
        if lower {
            let place = self.place(i, j);
            self.slots[place] = Slot::of(cell);
        }
        lower
    }

    fn make_room_row(&mut self, _i: u32, _list: &[u32]) -> Result<(), OutOfMemory> {
        Ok(())
    }

    fn make_room_among(&mut self, _list: &[u32]) -> Result<(), OutOfMemory> {
        Ok(())
    }

    fn count_roomless(&self, _i: u32, _list: &[u32]) -> usize {
        0
    }

    fn lower_row(&mut self, i: u32, offers: &[Offer], by: i128, k: u32) {
        for n in 0..offers.len() {
            self.offer(i, offers[n], by, k);
        }
    }

    fn read_row(&self, i: u32, others: &[u32], cells: &mut [Option<Cell>]) {
        for n in 0..others.len() {
            cells[n] = self.get(i, others[n]);
        }
    }

    fn read_weights(&self, i: u32, others: &[u32], weights: &mut [i128]) {
        for n in 0..others.len() {
            weights[n] = weight_in(self.get(i, others[n]));
        }
    }

    fn next_neighbour(&self, i: u32, after: Option<u32>) -> Option<u32> {
        for n in first_after(after)..u64::from(self.size) {
            let n = n as u32;
            if self.touches(i, n) {
                return Some(n);
            }
        }
        None
    }

    fn neighbours(&self, i: u32, from: u32, list: &mut [u32]) -> Listed {
        let mut count = 0;
        for n in from..self.size {
            if count == list.len() {
                return Listed { count, end: n };
            }
            count = put_where(list, count, n, self.touches(i, n));
        }
        Listed {
            count,
            end: self.size,
        }
    }

    fn copy(&self, alloc: Global) -> Result<Self, OutOfMemory> {
        let slots = Vec::from_slice(alloc, self.slots.as_slice())?;
        Ok(MatrixRows {
            size: self.size,
            slots,
        })
    }

    ghost cells_have_room = { λ s p q h. room-from_cell s.size s.slots.items p q h };

    ghost cells_are_light = { λ s p q. light-cell s.size s.slots.items s.light p q };

    ghost room_is_within = { λ s p q h. within-from_room s.size p q h };
}

impl MatrixRows {
    /// Roomy rows of this size without a cell.
    #[tactic(auto, using(crate::proofs::Matrices::empty_light))]
    pub fn new(alloc: Global, size: u32) -> Result<MatrixRows, OutOfMemory>
        ensures size { IfOk result (λ r. ⟦<MatrixRows as Rows>⟧.places r ≡ size) }
        ensures empty { IfOk result (λ r. (i j : ℕ) → ⟦<MatrixRows as Rows>⟧.at r i j ≡ None) }
        ensures roomy { IfOk result (λ r. ⟦<MatrixRows as Rows>⟧.is_roomy r ≡ true) }
    {
        let count = size as usize * size as usize;
        let slots = vec![in alloc; Slot::empty(); count]?;
        Ok(MatrixRows { size, slots })
    }
}
