//! The pairs of the remaining neighbours of a place, lowered to the sums through it.
ghost use Rattle.std.specs.Prelude.{◌≡◌, ◌≢◌, ℕ, ◌+◌, ◌*◌, ◌<◌, ◌≤◌, true, false, ◌&&◌, ◌==◌, IfSome, length};
ghost use Rattle.dist_rows.specs.declared.cell.Cell.{Cell};
ghost use Rattle.dist_rows.specs.Cells.{AllLight, IsLight};
ghost use Rattle.elim_step.specs.Eliminates.{is_neighbour, count_below, sum_through};
ghost use Rattle.stn_walk.specs.Eliminations.{is_in};
ghost use Rattle.elim_step.specs.Blocks.{items_of, IsBlock};
ghost use Rattle.elim_step.specs.Regions.{region_after};
ghost use Rattle.elim_step.specs.Offered.{offers_of, AreOffers};
ghost use Rattle.dist_rows.specs.Places.{AreRisingPlaces};

use crate::block::Block;
use crate::neighbours::block_from;
use crate::offers::Offers;
use crate::steps::Steps;
use dist_rows::{Cell, Rows, Via};
use std::sync::ledger::Ledger;

/// The sum of two cells through k, where both are there.
pub fn sum_of(k: u32, first: Option<Cell>, second: Option<Cell>) -> Option<Cell>
    requires first { IfSome first (λ c. IsLight 99 c.weight) }
    requires second { IfSome second (λ c. IsLight 99 c.weight) }
    ensures value { result ≡ sum_through k first second }
    ensures light { IfSome result (λ c. IsLight 100 c.weight) }
{
    match (first, second) {
        (Some(a), Some(b)) => Some(Cell {
            weight: a.weight + b.weight,
            via: Via::Through(k),
        }),
        _ => None,
    }
}

// Lowers the pairs of i with each of these places through k, by the offers of the row of k to them. Each pair is one step.
fn lower_row<R: Rows, L: Ledger>(
    rows: &mut R,
    k: u32,
    i: u32,
    others: &[u32],
    offers: &Offers,
    steps: &mut Steps<L>,
)
    requires within { (k < R.places rows.old) × (i < R.places rows.old) }
    requires offers { AreOffers (R.at rows.old k) others.now (offers_of offers.now) }
    requires room { (j : ℕ) → is_in others.now j ≡ true → i ≢ j → R.has_room rows.old i j ≡ true }
    requires first { IfSome (R.at rows.old i k) (λ c. IsLight 99 c.weight) }
    ensures cells { (p q : ℕ) → R.at rows.new p q ≡ region_after k (λ a b. (a == i) && is_in others.now b) (R.at rows.old) p q }
    ensures room { (p q : ℕ) → R.has_room rows.new p q ≡ R.has_room rows.old p q }
    ensures places { R.places rows.new ≡ R.places rows.old }
    ensures roomy { R.is_roomy rows.new ≡ R.is_roomy rows.old }
    ensures steps { steps.new ≡ steps.old + length others.now }
{
    steps.count(others.len() as u64);
    if let Some(cell) = rows.get(i, k) {
        rows.lower_row(i, offers.as_slice(), cell.weight, k);
    }
}

/// Lowers the pairs of each of some places with each of others through k: the row of k is read once, and that of each place
/// is walked over once. The others rise, and are no more than a block has.
pub fn lower_pairs<R: Rows, L: Ledger>(
    rows: &mut R,
    k: u32,
    places: &[u32],
    others: &[u32],
    steps: &mut Steps<L>,
)
    requires within { k < R.places rows.old }
    requires all_within { (i : ℕ) → is_in places.now i ≡ true → i < R.places rows.old }
    requires others_within { (j : ℕ) → is_in others.now j ≡ true → j < R.places rows.old }
    requires others_rising { AreRisingPlaces others.now }
    requires few { length others.now ≤ 64 }
    requires away { is_in places.now k ≡ false }
    requires others_away { is_in others.now k ≡ false }
    requires room { (i j : ℕ) → is_in places.now i ≡ true → is_in others.now j ≡ true → i ≢ j → R.has_room rows.old i j ≡ true }
    requires first { (i : ℕ) → IfSome (R.at rows.old i k) (λ c. IsLight 99 c.weight) }
    requires second { (j : ℕ) → IfSome (R.at rows.old k j) (λ c. IsLight 99 c.weight) }
    ensures cells { (p q : ℕ) → R.at rows.new p q ≡ region_after k (λ a b. is_in places.now a && is_in others.now b) (R.at rows.old) p q }
    ensures room { (p q : ℕ) → R.has_room rows.new p q ≡ R.has_room rows.old p q }
    ensures places { R.places rows.new ≡ R.places rows.old }
    ensures roomy { R.is_roomy rows.new ≡ R.is_roomy rows.old }
    ensures steps { steps.new ≡ steps.old + length places.now * length others.now }
{
    let offers = Offers::of(rows, k, others);
    for &i in places {
        lower_row(rows, k, i, others, &offers, steps);
    }
}

// Lowers the pairs of each of some places with each remaining neighbour of k through k. `first` is the first block of
// these neighbours.
fn lower_rows<R: Rows, L: Ledger>(
    rows: &mut R,
    k: u32,
    remain: &[bool],
    places: &[u32],
    first: &Block,
    steps: &mut Steps<L>,
)
    requires within { k < R.places rows.old }
    requires len { length remain.now ≡ R.places rows.old }
    requires all_within { (i : ℕ) → is_in places.now i ≡ true → i < R.places rows.old }
    requires away { is_in places.now k ≡ false }
    requires first_block { IsBlock (is_neighbour remain.now (R.at rows.old) k) 0 first.now.end (items_of first.now) }
    requires start { (first.now.from ≡ 0) × (first.now.end ≤ R.places rows.old) }
    requires room { (i j : ℕ) → is_in places.now i ≡ true → is_neighbour remain.now (R.at rows.old) k j ≡ true → i ≢ j → R.has_room rows.old i j ≡ true }
    requires first { (i : ℕ) → IfSome (R.at rows.old i k) (λ c. IsLight 99 c.weight) }
    requires second { (j : ℕ) → IfSome (R.at rows.old k j) (λ c. IsLight 99 c.weight) }
    ensures cells { (p q : ℕ) → R.at rows.new p q ≡ region_after k (λ a b. is_in places.now a && is_neighbour remain.now (R.at rows.old) k b) (R.at rows.old) p q }
    ensures room { (p q : ℕ) → R.has_room rows.new p q ≡ R.has_room rows.old p q }
    ensures places { R.places rows.new ≡ R.places rows.old }
    ensures roomy { R.is_roomy rows.new ≡ R.is_roomy rows.old }
    ensures steps { steps.new ≡ steps.old + length places.now * count_below (is_neighbour remain.now (R.at rows.old) k) (R.places rows.old) }
{
    let size = rows.size();
    let mut others = *first;
    'walk: loop {
        lower_pairs(rows, k, places, others.as_slice(), steps);
        if others.end >= size {
            return;
        }
        others = block_from(rows, k, remain, others.end);
    }
}

/// Lowers all pairs of different remaining neighbours of k through k. `first` is the first block of these neighbours.
/// Each pair is one step, also that of a place with itself.
pub fn lower_all<R: Rows, L: Ledger>(
    rows: &mut R,
    k: u32,
    remain: &[bool],
    first: &Block,
    steps: &mut Steps<L>,
)
    requires within { k < R.places rows.old }
    requires len { length remain.now ≡ R.places rows.old }
    requires first_block { IsBlock (is_neighbour remain.now (R.at rows.old) k) 0 first.now.end (items_of first.now) }
    requires start { (first.now.from ≡ 0) × (first.now.end ≤ R.places rows.old) }
    requires room { (i j : ℕ) → is_neighbour remain.now (R.at rows.old) k i ≡ true → is_neighbour remain.now (R.at rows.old) k j ≡ true → i ≢ j → R.has_room rows.old i j ≡ true }
    requires light { AllLight 99 (R.at rows.old) }
    ensures cells { (p q : ℕ) → R.at rows.new p q ≡ region_after k (λ a b. is_neighbour remain.now (R.at rows.old) k a && is_neighbour remain.now (R.at rows.old) k b) (R.at rows.old) p q }
    ensures room { (p q : ℕ) → R.has_room rows.new p q ≡ R.has_room rows.old p q }
    ensures places { R.places rows.new ≡ R.places rows.old }
    ensures roomy { R.is_roomy rows.new ≡ R.is_roomy rows.old }
    ensures steps { let d = count_below (is_neighbour remain.now (R.at rows.old) k) (R.places rows.old) in steps.new ≡ steps.old + d * d }
{
    let size = rows.size();
    let mut block = *first;
    'walk: loop {
        lower_rows(rows, k, remain, block.as_slice(), first, steps);
        if block.end >= size {
            return;
        }
        block = block_from(rows, k, remain, block.end);
    }
}
