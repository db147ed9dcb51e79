//! One elimination of a place.
ghost use Rattle.std.specs.Prelude.{◌≡◌, ◌≢◌, ℕ, ◌+◌, ◌*◌, ◌<◌, ◌≤◌, true, false, ◌&&◌, IfOk, IsOk, OnErr, IfSome, IfNone, length, if◌then◌else◌};
ghost use Rattle.dist_rows.specs.declared.cell.Cell.{Cell};
ghost use Rattle.dist_rows.specs.Cells.{AllLight, IsLight};
ghost use Rattle.elim_step.specs.Eliminates.{is_negative, is_neighbour, is_below, count_below, StepGives, StaysAtNegative};

use crate::lower::lower_all;
use crate::neighbours::{block_from, next_from};
use crate::room::make_rooms;
use crate::steps::Steps;
use dist_rows::{Cell, Rows};
use std::sync::ledger::Ledger;
use stn_model::OutOfMemory;

/// What an elimination finds.
#[derive(Clone, Copy, PartialEq, Eq, Debug)]
pub enum Found {
    /// No closed walk of two cells is negative. The place is eliminated.
    Clear,
    /// The two cells between the eliminated place and this one sum below 0. Nothing was changed.
    Negative(u32),
}

/// Whether two cells are there and sum below 0.
pub(crate) fn sums_below(first: Option<Cell>, second: Option<Cell>) -> bool
    requires first { IfSome first (λ c. IsLight 99 c.weight) }
    requires second { IfSome second (λ c. IsLight 99 c.weight) }
    ensures { result ≡ is_negative first second }
{
    match (first, second) {
        (Some(a), Some(b)) => a.weight + b.weight < 0,
        _ => false,
    }
}

// Whether a place remains and its two cells with k sum below 0. That is one step, if it remains.
fn looks_below<R: Rows, L: Ledger>(
    rows: &R,
    k: u32,
    n: u32,
    remains: bool,
    steps: &mut Steps<L>,
) -> bool
    requires within { (k < R.places rows.now) × (n < R.places rows.now) }
    requires light { AllLight 99 (R.at rows.now) }
    ensures value { result ≡ (remains && is_negative (R.at rows.now k n) (R.at rows.now n k)) }
    ensures steps { steps.new ≡ steps.old + (if remains then 1 else 0) }
{
    if !remains {
        return false;
    }
    steps.tick();
    sums_below(rows.get(k, n), rows.get(n, k))
}

// The least remaining place whose two cells with k sum below 0. Each remaining neighbour that is looked at is a step.
fn first_negative<R: Rows, L: Ledger>(
    rows: &R,
    k: u32,
    remain: &[bool],
    steps: &mut Steps<L>,
) -> Option<u32>
    requires within { k < R.places rows.now }
    requires len { length remain.now ≡ R.places rows.now }
    requires light { AllLight 99 (R.at rows.now) }
    ensures some { IfSome result (λ i. is_below remain.now (R.at rows.now) k i ≡ true) }
    ensures least { IfSome result (λ i. (m : ℕ) → m < i → is_below remain.now (R.at rows.now) k m ≡ false) }
    ensures none { IfNone result ((m : ℕ) → is_below remain.now (R.at rows.now) k m ≡ false) }
    ensures more { IfSome result (λ i. steps.old < steps.new) }
    ensures each { IfNone result (steps.new ≡ steps.old + count_below (is_neighbour remain.now (R.at rows.now) k) (R.places rows.now)) }
    ensures most { steps.new ≤ steps.old + count_below (is_neighbour remain.now (R.at rows.now) k) (R.places rows.now) }
{
    // With the size comes that places are below 2^32.
    let _size = rows.size();
    let mut from = 0;
    while let Some(n) = next_from(rows, k, from) {
        if looks_below(rows, k, n, remain[n as usize], steps) {
            return Some(n);
        }
        from = n + 1;
    }
    None
}

// Whether a place remains and its two cells with k sum below 0.
fn is_below<R: Rows>(rows: &R, k: u32, n: u32, remains: bool) -> bool
    requires within { (k < R.places rows.now) × (n < R.places rows.now) }
    requires light { AllLight 99 (R.at rows.now) }
    ensures { result ≡ (remains && is_negative (R.at rows.now k n) (R.at rows.now n k)) }
{
    remains && sums_below(rows.get(k, n), rows.get(n, k))
}

/// The least remaining place whose two cells with k sum below 0, so that an elimination of k would answer `Negative` with
/// it. None where there is no such place. Writes nothing and takes no memory. `remain` has one truth value for each place,
/// and all weights have magnitude at most 2^99.
pub fn negative_with<R: Rows>(rows: &R, k: u32, remain: &[bool]) -> Option<u32>
    requires within { k < R.places rows.now }
    requires len { length remain.now ≡ R.places rows.now }
    requires light { AllLight 99 (R.at rows.now) }
    ensures some { IfSome result (λ i. is_below remain.now (R.at rows.now) k i ≡ true) }
    ensures least { IfSome result (λ i. (m : ℕ) → m < i → is_below remain.now (R.at rows.now) k m ≡ false) }
    ensures none { IfNone result ((m : ℕ) → is_below remain.now (R.at rows.now) k m ≡ false) }
{
    // With the size comes that places are below 2^32.
    let _size = rows.size();
    let mut from = 0;
    while let Some(n) = next_from(rows, k, from) {
        if is_below(rows, k, n, remain[n as usize]) {
            return Some(n);
        }
        from = n + 1;
    }
    None
}

/// Eliminates a place k. A remaining neighbour of k is another place that remains and has a cell with k in either
/// direction.
///
/// Answers `Negative` exactly where the two cells between k and some remaining place sum below 0, with the least such
/// place; then nothing changes. Else it lowers the cell of each ordered pair i, j of different remaining neighbours to
/// the sum of the cells (i, k) and (k, j), where both are there and that is strictly less or the pair has no cell. A
/// cell that is written has the via `Through(k)`. `remain` has one truth value for each place, and all weights have
/// magnitude at most 2^99.
///
/// Room is made first. `OutOfMemory` comes only where the rows are not roomy; then the cells are as before, and
/// further pairs may have room. One step is one neighbour or one pair looked at.
pub fn eliminate_point<R: Rows, L: Ledger>(
    rows: &mut R,
    k: u32,
    remain: &[bool],
    steps: &mut Steps<L>,
) -> Result<Found, OutOfMemory>
    requires len { length remain.now ≡ R.places rows.old }
    requires within { k < R.places rows.old }
    requires light { AllLight 99 (R.at rows.old) }
    ensures step { IfOk result (StepGives remain.now k (R.at rows.old) (R.at rows.new)) }
    ensures negative { IfOk result (StaysAtNegative (R.has_room rows.old) (R.has_room rows.new)) }
    ensures room { (p q : ℕ) → R.has_room rows.old p q ≡ true → R.has_room rows.new p q ≡ true }
    ensures err { OnErr result ((p q : ℕ) → R.at rows.new p q ≡ R.at rows.old p q) }
    ensures answers { OnErr result (R.is_roomy rows.old ≡ false) }
    ensures places { R.places rows.new ≡ R.places rows.old }
    ensures roomy { R.is_roomy rows.new ≡ R.is_roomy rows.old }
    ensures most { let d = count_below (is_neighbour remain.now (R.at rows.old) k) (R.places rows.old) in steps.new ≤ steps.old + (d * d + d) }
    ensures some { IfOk result (λ f. 0 < count_below (is_neighbour remain.now (R.at rows.old) k) (R.places rows.old) → steps.old < steps.new) }
    ensures rises { steps.old ≤ steps.new }
{
    if let Some(i) = first_negative(rows, k, remain, steps) {
        return Ok(Found::Negative(i));
    }
    let first = block_from(rows, k, remain, 0);
    make_rooms(rows, k, remain, &first)?;
    lower_all(rows, k, remain, &first, steps);
    Ok(Found::Clear)
}
