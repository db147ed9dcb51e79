//! How an agent chooses a time from a window.
ghost use Rattle.std.specs.Prelude.{◌≡◌, ℤ, pos, ◌≤ℤ◌};
ghost use Rattle.stn_model.specs.Limits.{greatest_bound};
ghost use Rattle.stn_model.specs.declared.ids.Lean.{Lean};

use stn_model::Lean;

// A struct that is generic in a closure's type cannot keep a fact about the closure. So the closure stands in a box.
/// Answers a time of each window for each lean, where the window lies from 0 to 2^40.
#[derive(Drop)]
pub struct Chooser {
    choose: Box<dyn Fn(Lean, i128, i128) -> i128 + Send + Sync>,
    ghost callable: { (lean : Lean) (lo hi : ℤ) → pos 0 ≤ℤ lo → lo ≤ℤ hi → hi ≤ℤ pos greatest_bound → pre choose lean lo hi },
    ghost within: { (lean : Lean) (lo hi : ℤ) → pos 0 ≤ℤ lo → lo ≤ℤ hi → hi ≤ℤ pos greatest_bound → (t : ℤ) → post choose lean lo hi t → (lo ≤ℤ t) × (t ≤ℤ hi) },
}

impl Chooser {
    /// Keeps a closure that answers a number from `lo` to `hi` for each lean and `0 <= lo <= hi <= 2^40`.
    pub fn new(choose: Box<dyn Fn(Lean, i128, i128) -> i128 + Send + Sync>) -> Chooser
        requires callable { (lean : Lean) (lo hi : ℤ) → pos 0 ≤ℤ lo → lo ≤ℤ hi → hi ≤ℤ pos greatest_bound → pre choose lean lo hi }
        requires within { (lean : Lean) (lo hi : ℤ) → pos 0 ≤ℤ lo → lo ≤ℤ hi → hi ≤ℤ pos greatest_bound → (t : ℤ) → post choose lean lo hi t → (lo ≤ℤ t) × (t ≤ℤ hi) }
        ensures { result.choose ≡ choose }
    {
        Chooser { choose }
    }

    /// An answer of the closure, which lies from `lo` to `hi`.
    pub fn answer(&self, lean: Lean, lo: i128, hi: i128) -> i128
        requires low { pos 0 ≤ℤ lo }
        requires ordered { lo ≤ℤ hi }
        requires high { hi ≤ℤ pos greatest_bound }
        ensures answer { post self.now.choose lean lo hi result }
        ensures low { lo ≤ℤ result }
        ensures high { result ≤ℤ hi }
    {
        (self.choose)(lean, lo, hi)
    }
}
