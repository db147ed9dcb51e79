//! One elimination of a place whose neighbours are kept as a list.
ghost use Rattle.std.specs.Prelude.{◌≡◌, ◌≢◌, ℕ, ◌+◌, ◌*◌, ◌<◌, ◌≤◌, true, false, ◌&&◌, IfOk, OnErr, IfSome, IfNone, length};
ghost use Rattle.dist_rows.specs.Cells.{AllLight};
ghost use Rattle.dist_rows.specs.Places.{AreWithin, AreRisingPlaces};
ghost use Rattle.elim_step.specs.Among.{StepAmong};
ghost use Rattle.elim_step.specs.Eliminates.{is_negative, StaysAtNegative};
ghost use Rattle.elim_step.specs.Regions.{region_after};
ghost use Rattle.stn_walk.specs.Eliminations.{is_in};

use crate::block::part_from;
use crate::lower::lower_pairs;
use crate::step::{Found, sums_below};
use crate::steps::Steps;
use dist_rows::Rows;
use std::sync::ledger::Ledger;
use stn_model::OutOfMemory;

// The least place of a list whose two cells with k sum below 0. Each that is looked at is a step.
fn first_negative_among<R: Rows, L: Ledger>(
    rows: &R,
    k: u32,
    list: &[u32],
    steps: &mut Steps<L>,
) -> Option<u32>
    requires within { k < R.places rows.now }
    requires others { AreWithin (R.places rows.now) list.now }
    requires rising { AreRisingPlaces list.now }
    requires light { AllLight 99 (R.at rows.now) }
    ensures listed { IfSome result (λ i. is_in list.now i ≡ true) }
    ensures some { IfSome result (λ i. is_negative (R.at rows.now k i) (R.at rows.now i k) ≡ true) }
    ensures least { IfSome result (λ i. (m : ℕ) → m < i → is_in list.now m ≡ true → is_negative (R.at rows.now k m) (R.at rows.now m k) ≡ false) }
    ensures none { IfNone result ((m : ℕ) → is_in list.now m ≡ true → is_negative (R.at rows.now k m) (R.at rows.now m k) ≡ false) }
    ensures more { IfSome result (λ i. steps.old < steps.new) }
    ensures each { IfNone result (steps.new ≡ steps.old + length list.now) }
    ensures most { steps.new ≤ steps.old + length list.now }
{
    for n in 0..list.len() {
        let i = list[n];
        steps.tick();
        if sums_below(rows.get(k, i), rows.get(i, k)) {
            return Some(i);
        }
    }
    None
}

// Lowers the pairs of different places of a list through k, a block of second places at a time.
fn lower_among<R: Rows, L: Ledger>(rows: &mut R, k: u32, list: &[u32], steps: &mut Steps<L>)
    requires within { k < R.places rows.old }
    requires others { AreWithin (R.places rows.old) list.now }
    requires rising { AreRisingPlaces list.now }
    requires away { is_in list.now k ≡ false }
    requires room { (i j : ℕ) → is_in list.now i ≡ true → is_in list.now j ≡ true → i ≢ j → R.has_room rows.old i j ≡ true }
    requires light { AllLight 99 (R.at rows.old) }
    ensures cells { (p q : ℕ) → R.at rows.new p q ≡ region_after k (λ a b. is_in list.now a && is_in list.now b) (R.at rows.old) p q }
    ensures room { (p q : ℕ) → R.has_room rows.new p q ≡ R.has_room rows.old p q }
    ensures places { R.places rows.new ≡ R.places rows.old }
    ensures roomy { R.is_roomy rows.new ≡ R.is_roomy rows.old }
    ensures steps { steps.new ≡ steps.old + length list.now * length list.now }
{
    let mut from = 0;
    'walk: while from < list.len() {
        let others = part_from(list, from);
        lower_pairs(rows, k, list, others, steps);
        from += others.len();
    }
}

/// Eliminates a place k among the places of a list that rises: those that its caller keeps as the remaining neighbours of k.
/// Where the list has every remaining neighbour of k and only places that remain, this is what `eliminate_point` does. It
/// may have places that have no cell with k.
///
/// Answers `Negative` exactly where the two cells between k and some place of the list sum below 0, with the least such
/// place; then nothing changes. Else it lowers the cell of each ordered pair i, j of different places of the list to the
/// sum of the cells (i, k) and (k, j), where both are there and that is strictly less or the pair has no cell. A cell that
/// is written has the via `Through(k)`. The list does not have k, and all weights have magnitude at most 2^99.
///
/// Room is made first, for all pairs of the list, and no other memory is taken. `OutOfMemory` comes only where the rows are
/// not roomy; then the cells are as before, and further pairs may have room. One step is one place or one pair looked at.
pub fn eliminate_among<R: Rows, L: Ledger>(
    rows: &mut R,
    k: u32,
    neighbours: &[u32],
    steps: &mut Steps<L>,
) -> Result<Found, OutOfMemory>
    requires within { k < R.places rows.old }
    requires others { AreWithin (R.places rows.old) neighbours.now }
    requires rising { AreRisingPlaces neighbours.now }
    requires away { is_in neighbours.now k ≡ false }
    requires light { AllLight 99 (R.at rows.old) }
    ensures step { IfOk result (StepAmong neighbours.now k (R.at rows.old) (R.at rows.new)) }
    ensures negative { IfOk result (StaysAtNegative (R.has_room rows.old) (R.has_room rows.new)) }
    ensures room { (p q : ℕ) → R.has_room rows.old p q ≡ true → R.has_room rows.new p q ≡ true }
    ensures err { OnErr result ((p q : ℕ) → R.at rows.new p q ≡ R.at rows.old p q) }
    ensures answers { OnErr result (R.is_roomy rows.old ≡ false) }
    ensures places { R.places rows.new ≡ R.places rows.old }
    ensures roomy { R.is_roomy rows.new ≡ R.is_roomy rows.old }
    ensures most { steps.new ≤ steps.old + (length neighbours.now * length neighbours.now + length neighbours.now) }
    ensures some { IfOk result (λ f. 0 < length neighbours.now → steps.old < steps.new) }
    ensures rises { steps.old ≤ steps.new }
{
    if let Some(i) = first_negative_among(rows, k, neighbours, steps) {
        return Ok(Found::Negative(i));
    }
    rows.make_room_among(neighbours)?;
    lower_among(rows, k, neighbours, steps);
    Ok(Found::Clear)
}

/// The same where all pairs of the list have room. It takes no memory, and no room changes.
pub fn eliminate_with_room<R: Rows, L: Ledger>(
    rows: &mut R,
    k: u32,
    neighbours: &[u32],
    steps: &mut Steps<L>,
) -> Found
    requires within { k < R.places rows.old }
    requires others { AreWithin (R.places rows.old) neighbours.now }
    requires rising { AreRisingPlaces neighbours.now }
    requires away { is_in neighbours.now k ≡ false }
    requires light { AllLight 99 (R.at rows.old) }
    requires room { (i j : ℕ) → is_in neighbours.now i ≡ true → is_in neighbours.now j ≡ true → i ≢ j → R.has_room rows.old i j ≡ true }
    ensures step { StepAmong neighbours.now k (R.at rows.old) (R.at rows.new) result }
    ensures room { (p q : ℕ) → R.has_room rows.new p q ≡ R.has_room rows.old p q }
    ensures places { R.places rows.new ≡ R.places rows.old }
    ensures roomy { R.is_roomy rows.new ≡ R.is_roomy rows.old }
    ensures most { steps.new ≤ steps.old + (length neighbours.now * length neighbours.now + length neighbours.now) }
    ensures some { 0 < length neighbours.now → steps.old < steps.new }
    ensures rises { steps.old ≤ steps.new }
{
    if let Some(i) = first_negative_among(rows, k, neighbours, steps) {
        return Found::Negative(i);
    }
    lower_among(rows, k, neighbours, steps);
    Found::Clear
}
