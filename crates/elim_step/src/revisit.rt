//! One revisit of a place: its final cells, from those of its later neighbours.
ghost use Rattle.std.specs.Prelude.{◌≡◌, ◌≢◌, ℕ, ◌+◌, ◌*◌, ◌<◌, ◌≤◌, true, false, Option, Some, None, IfSome, length};
ghost use Rattle.dist_rows.specs.declared.cell.Cell.{Cell};
ghost use Rattle.dist_rows.specs.Cells.{AllLight, IsLight};
ghost use Rattle.elim_step.specs.Eliminates.{sum_through};
ghost use Rattle.stn_walk.specs.Eliminations.{is_in};
ghost use Rattle.elim_step.specs.Revisits.{reach_of, sum_lowered, through_after, place_after, places_after, names_once, Revisits};

use crate::lower::sum_of;
use crate::steps::Steps;
use dist_rows::{Cell, Rows, Via};
use std::sync::ledger::Ledger;

// The cell between two places, which is 0 from a place to itself.
fn reach<R: Rows>(rows: &R, m: u32, j: u32) -> Option<Cell>
    requires within { (m < R.places rows.now) × (j < R.places rows.now) }
    requires light { IfSome (R.at rows.now m j) (λ c. IsLight 99 c.weight) }
    ensures value { result ≡ reach_of (R.at rows.now) m j }
    ensures light { IfSome result (λ c. IsLight 99 c.weight) }
{
    if m == j {
        return Some(Cell {
            weight: 0,
            via: Via::Given(0),
        });
    }
    rows.get(m, j)
}

/// Lowers a cell to a sum, where it is there.
pub(crate) fn lower_to<R: Rows>(rows: &mut R, i: u32, j: u32, sum: Option<Cell>)
    requires apart { i ≢ j }
    requires room { R.has_room rows.old i j ≡ true }
    requires light { IfSome sum (λ c. IsLight 100 c.weight) }
    ensures cells { (p q : ℕ) → R.at rows.new p q ≡ sum_lowered i j sum (R.at rows.old) p q }
    ensures room { (p q : ℕ) → R.has_room rows.new p q ≡ R.has_room rows.old p q }
    ensures places { R.places rows.new ≡ R.places rows.old }
    ensures roomy { R.is_roomy rows.new ≡ R.is_roomy rows.old }
{
    if let Some(cell) = sum {
        rows.lower(i, j, cell);
    }
}

// Lowers the two cells between k and j through m.
fn revisit_through<R: Rows, L: Ledger>(
    forward: &R,
    finals: &mut R,
    k: u32,
    j: u32,
    m: u32,
    steps: &mut Steps<L>,
)
    requires forward_within { (k < R.places forward.now) × (m < R.places forward.now) }
    requires finals_within { (j < R.places finals.old) × (m < R.places finals.old) }
    requires apart { j ≢ k }
    requires room_out { R.has_room finals.old k j ≡ true }
    requires room_back { R.has_room finals.old j k ≡ true }
    requires forward { AllLight 99 (R.at forward.now) }
    requires onward { IfSome (R.at finals.old m j) (λ c. IsLight 99 c.weight) }
    requires hither { IfSome (R.at finals.old j m) (λ c. IsLight 99 c.weight) }
    ensures cells { (p q : ℕ) → R.at finals.new p q ≡ through_after (R.at forward.now) k j m (R.at finals.old) p q }
    ensures room { (p q : ℕ) → R.has_room finals.new p q ≡ R.has_room finals.old p q }
    ensures places { R.places finals.new ≡ R.places finals.old }
    ensures roomy { R.is_roomy finals.new ≡ R.is_roomy finals.old }
    ensures steps { steps.new ≡ steps.old + 2 }
{
    steps.tick();
    steps.tick();
    let out = sum_of(m, forward.get(k, m), reach(finals, m, j));
    let back = sum_of(m, reach(finals, j, m), forward.get(m, k));
    lower_to(finals, k, j, out);
    lower_to(finals, j, k, back);
}

// Lowers the two cells between k and j through each of the later places.
fn revisit_place<R: Rows, L: Ledger>(
    forward: &R,
    finals: &mut R,
    k: u32,
    j: u32,
    later: &[u32],
    steps: &mut Steps<L>,
)
    requires within { (k < R.places forward.now) × (j < R.places finals.old) }
    requires all_within { (m : ℕ) → is_in later.now m ≡ true → (m < R.places forward.now) × (m < R.places finals.old) }
    requires apart { j ≢ k }
    requires others { is_in later.now k ≡ false }
    requires room_out { R.has_room finals.old k j ≡ true }
    requires room_back { R.has_room finals.old j k ≡ true }
    requires forward { AllLight 99 (R.at forward.now) }
    requires finals { (p q : ℕ) → p ≢ k → q ≢ k → IfSome (R.at finals.old p q) (λ c. IsLight 99 c.weight) }
    ensures cells { (p q : ℕ) → R.at finals.new p q ≡ place_after (R.at forward.now) k j later.now (R.at finals.old) p q }
    ensures room { (p q : ℕ) → R.has_room finals.new p q ≡ R.has_room finals.old p q }
    ensures places { R.places finals.new ≡ R.places finals.old }
    ensures roomy { R.is_roomy finals.new ≡ R.is_roomy finals.old }
    ensures steps { steps.new ≡ steps.old + 2 * length later.now }
{
    for &m in later {
        revisit_through(forward, finals, k, j, m, steps);
    }
}

// Lowers the cells between k and each of these places.
fn revisit_places<R: Rows, L: Ledger>(
    forward: &R,
    finals: &mut R,
    k: u32,
    later: &[u32],
    steps: &mut Steps<L>,
)
    requires within { k < R.places forward.now }
    requires all_within { (m : ℕ) → is_in later.now m ≡ true → (m < R.places forward.now) × (m < R.places finals.old) }
    requires others { is_in later.now k ≡ false }
    requires once { names_once later.now ≡ true }
    requires room_out { (j : ℕ) → is_in later.now j ≡ true → R.has_room finals.old k j ≡ true }
    requires room_back { (j : ℕ) → is_in later.now j ≡ true → R.has_room finals.old j k ≡ true }
    requires forward { AllLight 99 (R.at forward.now) }
    requires finals { (p q : ℕ) → p ≢ k → q ≢ k → IfSome (R.at finals.old p q) (λ c. IsLight 99 c.weight) }
    ensures cells { (p q : ℕ) → R.at finals.new p q ≡ places_after (R.at forward.now) k later.now later.now (R.at finals.old) p q }
    ensures room { (p q : ℕ) → R.has_room finals.new p q ≡ R.has_room finals.old p q }
    ensures places { R.places finals.new ≡ R.places finals.old }
    ensures roomy { R.is_roomy finals.new ≡ R.is_roomy finals.old }
    ensures steps { steps.new ≡ steps.old + 2 * length later.now * length later.now }
{
    for &j in later {
        revisit_place(forward, finals, k, j, later, steps);
    }
}

/// Revisits a place k: sets the final cells between k and each of the later places to least sums through a later place.
///
/// The final cell from k to j is the least `forward(k, m) + final(m, j)`, and that from j to k the least
/// `final(j, m) + forward(m, k)`, over the places m of `later` for which both cells are there; from a place to itself
/// the final cell counts as 0. A cell is missing only where all these sums are. Its via is `Through(m)`. No other final
/// cell changes.
///
/// `later` is not empty, names no place twice, and not k. The finals have room for the pairs of k with each later place,
/// and no cells there yet. All weights have magnitude at most 2^99. Takes no memory. One step is one sum looked at.
pub fn revisit_point<R: Rows, L: Ledger>(
    forward: &R,
    finals: &mut R,
    k: u32,
    later: &[u32],
    steps: &mut Steps<L>,
)
    requires within { k < R.places forward.now }
    requires all_within { (m : ℕ) → is_in later.now m ≡ true → (m < R.places forward.now) × (m < R.places finals.old) }
    requires some { 0 < length later.now }
    requires others { is_in later.now k ≡ false }
    requires once { names_once later.now ≡ true }
    requires room_out { (j : ℕ) → is_in later.now j ≡ true → R.has_room finals.old k j ≡ true }
    requires room_back { (j : ℕ) → is_in later.now j ≡ true → R.has_room finals.old j k ≡ true }
    requires fresh { (j : ℕ) → is_in later.now j ≡ true → (R.at finals.old k j ≡ None) × (R.at finals.old j k ≡ None) }
    requires forward { AllLight 99 (R.at forward.now) }
    requires finals { AllLight 99 (R.at finals.old) }
    ensures cells { Revisits (R.at forward.now) k later.now (R.at finals.old) (R.at finals.new) }
    ensures room { (p q : ℕ) → R.has_room finals.new p q ≡ R.has_room finals.old p q }
    ensures places { R.places finals.new ≡ R.places finals.old }
    ensures roomy { R.is_roomy finals.new ≡ R.is_roomy finals.old }
    ensures least { steps.old < steps.new }
    ensures most { steps.new ≤ steps.old + 2 * length later.now * length later.now }
{
    revisit_places(forward, finals, k, later, steps);
}
