//! Least sums of two weights, without cells: a weight that is `FAR` stands for a missing cell.
ghost use Rattle.std.specs.Prelude.{◌≡◌, ℕ, ◌<◌, pos, ◌+ℤ◌, Option, None, IfSome, length, slice_index_or};
ghost use Rattle.dist_rows.specs.declared.cell.Cell.{Cell};
ghost use Rattle.dist_rows.specs.Cells.{IsLight};
ghost use Rattle.elim_step.specs.Eliminates.{sum_through};
ghost use Rattle.elim_step.specs.Revisits.{least_over};
ghost use Rattle.elim_step.specs.Sums.{IsPlain, AreWeights, IsSum, no_sum, lesser_sum, cell_for, sum_at};

use dist_rows::{Cell, Via};

// 2^100 + 1. Sums of two cells lie below, and those with a missing one above: so they need no test of their own.
const LEAST_LIMIT: i128 = 1_267_650_600_228_229_401_496_703_205_377;

/// The least sum so far, with the place through which it comes.
#[derive(Clone, Copy)]
pub struct Sum {
    pub weight: i128,
    pub via: u32,
}

impl Sum {
    /// No sum.
    pub fn none() -> Sum
        ensures { result ≡ no_sum }
    {
        Sum {
            weight: LEAST_LIMIT,
            via: 0,
        }
    }

    /// The cell of the sum, where there is one.
    pub fn cell(self) -> Option<Cell>
        requires { IsSum self }
        ensures value { result ≡ cell_for self }
        ensures light { IfSome result (λ c. IsLight 100 c.weight) }
    {
        if self.weight < LEAST_LIMIT {
            return Some(Cell {
                weight: self.weight,
                via: Via::Through(self.via),
            });
        }
        None
    }

    // Lowers the sum to that of two weights through a place.
    fn lower(&mut self, via: u32, first: i128, second: i128)
        requires plain { IsPlain first × IsPlain second }
        requires sum { IsSum self.old }
        ensures value { self.new ≡ lesser_sum self.old via (first +ℤ second) }
        ensures sum { IsSum self.new }
    {
        let weight = first + second;
        if weight < self.weight {
            *self = Sum { weight, via };
        }
    }
}

/// Takes out what stands in a buffer.
pub fn clear(sums: &mut [Sum])
    ensures len { length sums.new ≡ length sums.old }
    ensures none { (m : ℕ) → m < length sums.old → sum_at sums.new m ≡ no_sum }
{
    for n in 0..sums.len() {
        sums[n] = Sum::none();
    }
}

/// Lowers sums to those through j, by the weight up to j and those from j on.
pub fn lower_sums(j: u32, first: i128, row: &[i128], sums: &mut [Sum])
    requires len { length sums.old ≡ length row.now }
    requires first { IsPlain first }
    requires row { (m : ℕ) → m < length row.now → IsPlain (slice_index_or row.now m (pos 0)) }
    requires sums { (m : ℕ) → m < length row.now → IsSum (sum_at sums.old m) }
    ensures len { length sums.new ≡ length row.now }
    ensures value { (m : ℕ) → m < length row.now → sum_at sums.new m ≡ lesser_sum (sum_at sums.old m) j (first +ℤ slice_index_or row.now m (pos 0)) }
    ensures sums { (m : ℕ) → m < length row.now → IsSum (sum_at sums.new m) }
{
    for n in 0..row.len() {
        sums[n].lower(j, first, row[n]);
    }
}

/// The least sum of two weights through a place of a block.
pub fn least_sum(block: &[u32], row: &[i128], back: &[i128]) -> Sum
    requires row_len { length row.now ≡ length block.now }
    requires back_len { length back.now ≡ length block.now }
    requires row { (m : ℕ) → m < length block.now → IsPlain (slice_index_or row.now m (pos 0)) }
    requires back { (m : ℕ) → m < length block.now → IsPlain (slice_index_or back.now m (pos 0)) }
    ensures value { (f g : ℕ → Option Cell) → AreWeights f block.now row.now → AreWeights g block.now back.now → ((m : ℕ) → m < length block.now → IfSome (f (slice_index_or block.now m 0)) (λ c. IsLight 99 c.weight)) → ((m : ℕ) → m < length block.now → IfSome (g (slice_index_or block.now m 0)) (λ c. IsLight 99 c.weight)) → cell_for result ≡ least_over (λ m. sum_through m (f m) (g m)) None block.now }
    ensures sum { IsSum result }
{
    let mut least = Sum::none();
    for n in 0..block.len() {
        least.lower(block[n], row[n], back[n]);
    }
    least
}
