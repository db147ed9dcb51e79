//! One revisit of a place, row by row, where the later places rise.
ghost use Rattle.std.specs.Prelude.{◌≡◌, ◌≢◌, ℕ, ◌+◌, ◌*◌, ◌<◌, ◌≤◌, true, false, ◌&&◌, ◌==◌, Option, None, IfSome, pos, length, slice_index_or, if◌then◌else◌};
ghost use Rattle.dist_rows.specs.declared.cell.Cell.{Cell};
ghost use Rattle.dist_rows.specs.Cells.{weight_in, AllLight, IsLight};
ghost use Rattle.dist_rows.specs.Places.{AreWithin, AreRisingPlaces};
ghost use Rattle.elim_step.specs.Eliminates.{lesser_of};
ghost use Rattle.elim_step.specs.Sums.{IsPlain, AreWeights, IsSum, cell_for, sum_at, AreSums};
ghost use Rattle.elim_step.specs.Revisits.{reach_of, in_sum, out_sum, least_over, sum_lowered, Revisits};
ghost use Rattle.elim_step.specs.RevisitRows.{outs_after, block_after, rows_after};
ghost use Rattle.stn_walk.specs.Eliminations.{is_in};

use crate::block::{ROOM, part_from};
use crate::revisit::lower_to;
use crate::steps::Steps;
use crate::sums::{Sum, clear, least_sum, lower_sums};
use dist_rows::{Rows, weight_in};
use std::sync::ledger::Ledger;

// Whether a place may be one of a block: it does not lie before the first or behind the last.
fn may_have(block: &[u32], j: u32) -> bool
    requires { AreRisingPlaces block.now }
    ensures { result ≡ false → (m : ℕ) → m < length block.now → slice_index_or block.now m 0 ≢ j }
{
    let len = block.len();
    len > 0 && block[0] <= j && j <= block[len - 1]
}

// Writes the weight from a place to itself, which is 0.
fn reach_self(j: u32, block: &[u32], row: &mut [i128])
    requires len { length row.old ≡ length block.now }
    ensures len { length row.new ≡ length block.now }
    ensures value { (m : ℕ) → m < length block.now → slice_index_or row.new m (pos 0) ≡ (if j == slice_index_or block.now m 0 then pos 0 else slice_index_or row.old m (pos 0)) }
{
    for n in 0..block.len() {
        if block[n] == j {
            row[n] = 0;
        }
    }
}

// Reads the weights from j to the places of a block, where that is 0 from a place to itself.
fn read_reach<R: Rows>(finals: &R, j: u32, block: &[u32], row: &mut [i128])
    requires within { j < R.places finals.now }
    requires others { AreWithin (R.places finals.now) block.now }
    requires rising { AreRisingPlaces block.now }
    requires len { length row.old ≡ length block.now }
    requires light { (m : ℕ) → m < length block.now → IfSome (R.at finals.now j (slice_index_or block.now m 0)) (λ c. IsLight 99 c.weight) }
    ensures len { length row.new ≡ length block.now }
    ensures weights { AreWeights (reach_of (R.at finals.now) j) block.now row.new }
    ensures plain { (m : ℕ) → m < length block.now → IsPlain (slice_index_or row.new m (pos 0)) }
{
    finals.read_weights(j, block, row);
    if may_have(block, j) {
        reach_self(j, block, row);
    }
}

// The weight of a cell, or `FAR`.
fn plain_weight<R: Rows>(rows: &R, i: u32, j: u32) -> i128
    requires within { (i < R.places rows.now) × (j < R.places rows.now) }
    requires light { AllLight 99 (R.at rows.now) }
    ensures value { result ≡ weight_in (R.at rows.now i j) }
    ensures plain { IsPlain result }
{
    weight_in(rows.get(i, j))
}

// Reads the weights from the places of a block to k.
fn read_back<R: Rows>(forward: &R, k: u32, block: &[u32], back: &mut [i128])
    requires within { k < R.places forward.now }
    requires others { AreWithin (R.places forward.now) block.now }
    requires len { length back.old ≡ length block.now }
    requires light { AllLight 99 (R.at forward.now) }
    ensures len { length back.new ≡ length block.now }
    ensures weights { AreWeights (λ m. R.at forward.now m k) block.now back.new }
    ensures plain { (m : ℕ) → m < length block.now → IsPlain (slice_index_or back.new m (pos 0)) }
{
    for n in 0..block.len() {
        back[n] = plain_weight(forward, block[n], k);
    }
}

// Lowers the cells from k to the places of a block to these sums.
fn lower_out<R: Rows>(finals: &mut R, k: u32, block: &[u32], sums: &[Sum])
    requires rising { AreRisingPlaces block.now }
    requires away { is_in block.now k ≡ false }
    requires len { length sums.now ≡ length block.now }
    requires sums { (m : ℕ) → m < length block.now → IsSum (sum_at sums.now m) }
    requires room { (q : ℕ) → is_in block.now q ≡ true → R.has_room finals.old k q ≡ true }
    ensures cells { (f : ℕ → Option Cell) → AreSums f block.now sums.now → (p q : ℕ) → R.at finals.new p q ≡ outs_after k f block.now (R.at finals.old) p q }
    ensures room { (p q : ℕ) → R.has_room finals.new p q ≡ R.has_room finals.old p q }
    ensures places { R.places finals.new ≡ R.places finals.old }
    ensures roomy { R.is_roomy finals.new ≡ R.is_roomy finals.old }
{
    for n in 0..block.len() {
        lower_to(finals, k, block[n], sums[n].cell());
    }
}

// Lowers the cell from j to k through the places of a block, and the sums from k to these to those through j. The row is
// for what is read.
fn revisit_row<R: Rows, L: Ledger>(
    forward: &R,
    finals: &mut R,
    k: u32,
    j: u32,
    block: &[u32],
    back: &[i128],
    row: &mut [i128],
    sums: &mut [Sum],
    steps: &mut Steps<L>,
)
    requires forward_within { (k < R.places forward.now) × (j < R.places forward.now) }
    requires within { (k < R.places finals.old) × (j < R.places finals.old) }
    requires apart { j ≢ k }
    requires others { AreWithin (R.places finals.old) block.now }
    requires rising { AreRisingPlaces block.now }
    requires away { is_in block.now k ≡ false }
    requires back_len { length back.now ≡ length block.now }
    requires row_len { length row.old ≡ length block.now }
    requires sums_len { length sums.old ≡ length block.now }
    requires back { AreWeights (λ m. R.at forward.now m k) block.now back.now }
    requires plain { (m : ℕ) → m < length block.now → IsPlain (slice_index_or back.now m (pos 0)) }
    requires sums { (m : ℕ) → m < length block.now → IsSum (sum_at sums.old m) }
    requires room_back { R.has_room finals.old j k ≡ true }
    requires forward { AllLight 99 (R.at forward.now) }
    requires finals { (p q : ℕ) → p ≢ k → q ≢ k → IfSome (R.at finals.old p q) (λ c. IsLight 99 c.weight) }
    ensures row_len { length row.new ≡ length block.now }
    ensures sums_len { length sums.new ≡ length block.now }
    ensures value { (m : ℕ) → m < length block.now → cell_for (sum_at sums.new m) ≡ lesser_of (cell_for (sum_at sums.old m)) (out_sum (R.at forward.now) (R.at finals.old) k (slice_index_or block.now m 0) j) }
    ensures sums { (m : ℕ) → m < length block.now → IsSum (sum_at sums.new m) }
    ensures cells { (p q : ℕ) → R.at finals.new p q ≡ sum_lowered j k (least_over (in_sum (R.at forward.now) (R.at finals.old) k j) None block.now) (R.at finals.old) p q }
    ensures room { (p q : ℕ) → R.has_room finals.new p q ≡ R.has_room finals.old p q }
    ensures places { R.places finals.new ≡ R.places finals.old }
    ensures roomy { R.is_roomy finals.new ≡ R.is_roomy finals.old }
    ensures steps { steps.new ≡ steps.old + 2 * length block.now }
{
    steps.count(2 * block.len() as u64);
    read_reach(finals, j, block, row);
    let first = plain_weight(forward, k, j);
    lower_sums(j, first, row, sums);
    let least = least_sum(block, row, back);
    lower_to(finals, j, k, least.cell());
}

// Lowers the cells from k to the places of a block through all later places, and those from these to k through the block.
fn revisit_block<R: Rows, L: Ledger>(
    forward: &R,
    finals: &mut R,
    k: u32,
    later: &[u32],
    block: &[u32],
    steps: &mut Steps<L>,
)
    requires forward_within { k < R.places forward.now }
    requires within { k < R.places finals.old }
    requires forward_later { AreWithin (R.places forward.now) later.now }
    requires later_within { AreWithin (R.places finals.old) later.now }
    requires later_rising { AreRisingPlaces later.now }
    requires later_away { is_in later.now k ≡ false }
    requires forward_others { AreWithin (R.places forward.now) block.now }
    requires others { AreWithin (R.places finals.old) block.now }
    requires rising { AreRisingPlaces block.now }
    requires few { length block.now ≤ 64 }
    requires away { is_in block.now k ≡ false }
    requires room_out { (q : ℕ) → is_in block.now q ≡ true → R.has_room finals.old k q ≡ true }
    requires room_back { (j : ℕ) → is_in later.now j ≡ true → R.has_room finals.old j k ≡ true }
    requires forward { AllLight 99 (R.at forward.now) }
    requires finals { (p q : ℕ) → p ≢ k → q ≢ k → IfSome (R.at finals.old p q) (λ c. IsLight 99 c.weight) }
    ensures cells { (p q : ℕ) → R.at finals.new p q ≡ block_after (R.at forward.now) k block.now later.now (R.at finals.old) p q }
    ensures room { (p q : ℕ) → R.has_room finals.new p q ≡ R.has_room finals.old p q }
    ensures places { R.places finals.new ≡ R.places finals.old }
    ensures roomy { R.is_roomy finals.new ≡ R.is_roomy finals.old }
    ensures steps { steps.new ≡ steps.old + 2 * length block.now * length later.now }
{
    let mut backs = [0; ROOM];
    let back = &mut backs[..block.len()];
    read_back(forward, k, block, back);
    let mut outs = [Sum::none(); ROOM];
    let sums = &mut outs[..block.len()];
    clear(sums);
    let mut read = [0; ROOM];
    let row = &mut read[..block.len()];
    for &j in later {
        revisit_row(forward, finals, k, j, block, back, row, sums, steps);
    }
    lower_out(finals, k, block, sums);
}

// Lowers the cells between k and the later places through these, a block at a time.
fn revisit_blocks<R: Rows, L: Ledger>(
    forward: &R,
    finals: &mut R,
    k: u32,
    later: &[u32],
    steps: &mut Steps<L>,
)
    requires forward_within { k < R.places forward.now }
    requires within { k < R.places finals.old }
    requires forward_later { AreWithin (R.places forward.now) later.now }
    requires later_within { AreWithin (R.places finals.old) later.now }
    requires rising { AreRisingPlaces later.now }
    requires away { is_in later.now k ≡ false }
    requires room_out { (j : ℕ) → is_in later.now j ≡ true → R.has_room finals.old k j ≡ true }
    requires room_back { (j : ℕ) → is_in later.now j ≡ true → R.has_room finals.old j k ≡ true }
    requires forward { AllLight 99 (R.at forward.now) }
    requires finals { (p q : ℕ) → p ≢ k → q ≢ k → IfSome (R.at finals.old p q) (λ c. IsLight 99 c.weight) }
    ensures cells { (p q : ℕ) → R.at finals.new p q ≡ rows_after (R.at forward.now) k later.now later.now (R.at finals.old) p q }
    ensures room { (p q : ℕ) → R.has_room finals.new p q ≡ R.has_room finals.old p q }
    ensures places { R.places finals.new ≡ R.places finals.old }
    ensures roomy { R.is_roomy finals.new ≡ R.is_roomy finals.old }
    ensures steps { steps.new ≡ steps.old + 2 * length later.now * length later.now }
{
    let mut from = 0;
    'walk: while from < later.len() {
        let block = part_from(later, from);
        revisit_block(forward, finals, k, later, block, steps);
        from += block.len();
    }
}

/// Revisits a place k as `revisit_point` does, where the later places rise: the row of each later place is read at these
/// once, a block at a time. By that the cell from it to k is lowered, and so are the sums from k to the block, which are
/// written once all rows are read. No column of the finals is read.
///
/// `later` is not empty, rises, and does not have k. The finals have room for the pairs of k with each later place, and no
/// cells there yet. All weights have magnitude at most 2^99. Takes no memory. One step is one sum looked at.
pub fn revisit_rows<R: Rows, L: Ledger>(
    forward: &R,
    finals: &mut R,
    k: u32,
    later: &[u32],
    steps: &mut Steps<L>,
)
    requires within { k < R.places forward.now }
    requires all_within { (m : ℕ) → is_in later.now m ≡ true → (m < R.places forward.now) × (m < R.places finals.old) }
    requires some { 0 < length later.now }
    requires others { is_in later.now k ≡ false }
    requires rising { AreRisingPlaces later.now }
    requires room_out { (j : ℕ) → is_in later.now j ≡ true → R.has_room finals.old k j ≡ true }
    requires room_back { (j : ℕ) → is_in later.now j ≡ true → R.has_room finals.old j k ≡ true }
    requires fresh { (j : ℕ) → is_in later.now j ≡ true → (R.at finals.old k j ≡ None) × (R.at finals.old j k ≡ None) }
    requires forward { AllLight 99 (R.at forward.now) }
    requires finals { AllLight 99 (R.at finals.old) }
    ensures cells { Revisits (R.at forward.now) k later.now (R.at finals.old) (R.at finals.new) }
    ensures room { (p q : ℕ) → R.has_room finals.new p q ≡ R.has_room finals.old p q }
    ensures places { R.places finals.new ≡ R.places finals.old }
    ensures roomy { R.is_roomy finals.new ≡ R.is_roomy finals.old }
    ensures least { steps.old < steps.new }
    ensures most { steps.new ≤ steps.old + 2 * length later.now * length later.now }
{
    revisit_blocks(forward, finals, k, later, steps);
}
