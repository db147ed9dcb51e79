//! The places that are left and joined with a place that is taken.
ghost use Rattle.std.specs.Prelude.{◌≡◌, ℕ, ◌+◌, ◌<◌, ◌≤◌, ◌&&◌, true, OnOk, length, slice_index_or, if◌then◌else◌};
ghost use Rattle.dist_rows.specs.Places.{AreRisingPlaces};
ghost use Rattle.elim_step.specs.Eliminates.{count_below};
ghost use Rattle.elim_step.specs.JoinedPlaces.{is_joined};
ghost use Rattle.stn_walk.specs.Eliminations.{is_in};
ghost use Rattle.private_elim.specs.Degrees.{is_partial};

use crate::lists::push_where;
use elim_step::Joins;
use stn_model::OutOfMemory;

/// Lists those of some places that are not joined with all others that remain, of which there are this many for each. `gone` has
/// with how many places that do not remain each is joined.
pub(crate) fn list_partial(
    joins: &Joins,
    gone: &[u32],
    others: u32,
    met: &[u32],
    partial: &mut Vec<u32>,
) -> Result<(), OutOfMemory>
    requires len { length gone.now ≡ joins.now.size }
    requires within { (p : ℕ) → is_in met.now p ≡ true → p < joins.now.size }
    requires rising { AreRisingPlaces met.now }
    requires few { (p : ℕ) → is_in met.now p ≡ true → slice_index_or gone.now p 0 ≤ count_below (is_joined joins.now p) joins.now.size }
    ensures each { OnOk result ((p : ℕ) → is_in partial.new.items p ≡ (is_in met.now p && is_partial joins.now gone.now others p)) }
    ensures rising { OnOk result (AreRisingPlaces partial.new.items) }
{
    partial.clear();
    for &p in met {
        let joined = joins.count_joined(p) - gone[p as usize];
        push_where(partial, p, joined < others)?;
    }
    Ok(())
}

/// Counts one place more that does not remain at each of these places.
pub(crate) fn count_gone(gone: &mut [u32], places: &[u32])
    requires within { (p : ℕ) → is_in places.now p ≡ true → p < length gone.old }
    requires rising { AreRisingPlaces places.now }
    requires few { (p : ℕ) → is_in places.now p ≡ true → slice_index_or gone.old p 0 < 4294967295 }
    ensures len { length gone.new ≡ length gone.old }
    ensures each { (p : ℕ) → slice_index_or gone.new p 0 ≡ slice_index_or gone.old p 0 + (if is_in places.now p then 1 else 0) }
{
    for &p in places {
        gone[p as usize] += 1;
    }
}
