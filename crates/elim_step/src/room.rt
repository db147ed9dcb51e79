//! Room for all pairs of the remaining neighbours of a place, made before any cell is lowered.
ghost use Rattle.std.specs.Prelude.{◌≡◌, ◌≢◌, ℕ, ◌<◌, ◌≤◌, true, false, OnOk, OnErr, length};
ghost use Rattle.elim_step.specs.Eliminates.{is_neighbour};
ghost use Rattle.stn_walk.specs.Eliminations.{is_in};
ghost use Rattle.elim_step.specs.Blocks.{items_of, IsBlock};
ghost use Rattle.dist_rows.specs.Places.{AreRisingPlaces};

use crate::block::Block;
use crate::neighbours::block_from;
use dist_rows::Rows;
use stn_model::OutOfMemory;

// Makes room for the pairs of each of some places with each of others.
fn make_room_pairs<R: Rows>(rows: &mut R, places: &[u32], others: &[u32]) -> Result<(), OutOfMemory>
    requires within { (i : ℕ) → is_in places.now i ≡ true → i < R.places rows.old }
    requires all_within { (j : ℕ) → is_in others.now j ≡ true → j < R.places rows.old }
    requires rising { AreRisingPlaces others.now }
    ensures cells { (p q : ℕ) → R.at rows.new p q ≡ R.at rows.old p q }
    ensures places { R.places rows.new ≡ R.places rows.old }
    ensures roomy { R.is_roomy rows.new ≡ R.is_roomy rows.old }
    ensures room { OnOk result ((i j : ℕ) → is_in places.now i ≡ true → is_in others.now j ≡ true → i ≢ j → R.has_room rows.new i j ≡ true) }
    ensures other_room { (p q : ℕ) → R.has_room rows.old p q ≡ true → R.has_room rows.new p q ≡ true }
    ensures err { OnErr result (R.is_roomy rows.old ≡ false) }
{
    for &i in places {
        rows.make_room_row(i, others)?;
    }
    Ok(())
}

// Makes room for the pairs of each of some places with each remaining neighbour of k. `first` is the first block of these.
fn make_room_rows<R: Rows>(
    rows: &mut R,
    k: u32,
    remain: &[bool],
    places: &[u32],
    first: &Block,
) -> Result<(), OutOfMemory>
    requires within { k < R.places rows.old }
    requires len { length remain.now ≡ R.places rows.old }
    requires all_within { (i : ℕ) → is_in places.now i ≡ true → i < R.places rows.old }
    requires first { IsBlock (is_neighbour remain.now (R.at rows.old) k) 0 first.now.end (items_of first.now) }
    requires start { (first.now.from ≡ 0) × (first.now.end ≤ R.places rows.old) }
    ensures cells { (p q : ℕ) → R.at rows.new p q ≡ R.at rows.old p q }
    ensures places { R.places rows.new ≡ R.places rows.old }
    ensures roomy { R.is_roomy rows.new ≡ R.is_roomy rows.old }
    ensures room { OnOk result ((i j : ℕ) → is_in places.now i ≡ true → is_neighbour remain.now (R.at rows.old) k j ≡ true → i ≢ j → R.has_room rows.new i j ≡ true) }
    ensures other_room { (p q : ℕ) → R.has_room rows.old p q ≡ true → R.has_room rows.new p q ≡ true }
    ensures err { OnErr result (R.is_roomy rows.old ≡ false) }
{
    let size = rows.size();
    let mut others = *first;
    'walk: loop {
        make_room_pairs(rows, places, others.as_slice())?;
        if others.end >= size {
            return Ok(());
        }
        others = block_from(rows, k, remain, others.end);
    }
}

/// Makes room for all pairs of different remaining neighbours of k. `first` is the first block of these.
/// All cells and all other room stay.
pub fn make_rooms<R: Rows>(
    rows: &mut R,
    k: u32,
    remain: &[bool],
    first: &Block,
) -> Result<(), OutOfMemory>
    requires within { k < R.places rows.old }
    requires len { length remain.now ≡ R.places rows.old }
    requires first { IsBlock (is_neighbour remain.now (R.at rows.old) k) 0 first.now.end (items_of first.now) }
    requires start { (first.now.from ≡ 0) × (first.now.end ≤ R.places rows.old) }
    ensures cells { (p q : ℕ) → R.at rows.new p q ≡ R.at rows.old p q }
    ensures places { R.places rows.new ≡ R.places rows.old }
    ensures roomy { R.is_roomy rows.new ≡ R.is_roomy rows.old }
    ensures room { OnOk result ((i j : ℕ) → is_neighbour remain.now (R.at rows.old) k i ≡ true → is_neighbour remain.now (R.at rows.old) k j ≡ true → i ≢ j → R.has_room rows.new i j ≡ true) }
    ensures other_room { (p q : ℕ) → R.has_room rows.old p q ≡ true → R.has_room rows.new p q ≡ true }
    ensures err { OnErr result (R.is_roomy rows.old ≡ false) }
{
    let size = rows.size();
    let mut block = *first;
    'walk: loop {
        make_room_rows(rows, k, remain, block.as_slice(), first)?;
        if block.end >= size {
            return Ok(());
        }
        block = block_from(rows, k, remain, block.end);
    }
}
