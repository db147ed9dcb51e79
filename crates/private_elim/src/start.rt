//! The start of an elimination: the weights and joined places of the arcs alone.
ghost use Rattle.std.specs.Prelude.{◌≡◌, ◌≢◌, ℕ, ◌+◌, ◌<◌, ◌||◌, ◌&&◌, ◌==◌, not, true, false, [], None, IfOk, OnOk, length, replicate, slice_index_or, take};
ghost use Rattle.elim_step.specs.JoinedPlaces.{is_joined};
ghost use Rattle.private_elim.specs.Locals.{all_numbered, local_arc_at};
ghost use Rattle.private_elim.specs.Laid.{IsLaid, IsLaidArc};

use crate::elimination::Elimination;
use crate::local::Local;
use dist_rows::{Cell, Rows, Via};
use elim_step::Joins;
use std::alloc::Global;
use stn_model::OutOfMemory;

impl<R: Rows> Elimination<R> {
    /// A copy of a local problem of which no point is taken yet, over rows without a cell.
    pub fn start(alloc: Global, local: &Local, rows: R) -> Result<Elimination<R>, OutOfMemory>
        requires numbered { all_numbered local.now.arcs ≡ true }
        requires size { R.places rows ≡ length local.now.points }
        requires empty { (p q : ℕ) → R.at rows p q ≡ None }
        ensures local { IfOk result (λ e. e.local ≡ local.now) }
        ensures order { IfOk result (λ e. e.order ≡ []) }
    {
        let size = local.size();
        let local = local.copy(alloc)?;
        let mut rows = rows;
        let mut joins = Joins::new(alloc, size)?;
        lay_arcs(&local, &mut rows, &mut joins)?;
        let remain = vec![in alloc; true; size as usize]?;
        let gone = vec![in alloc; 0; size as usize]?;
        let order = Vec::with_capacity(alloc, size as usize)?;
        Ok(Elimination {
            local,
            rows,
            joins,
            remain,
            gone,
            order,
        })
    }
}

// Writes the arcs of a local problem into cells without weights, and joins their ends, which get room both ways.
fn lay_arcs<R: Rows>(local: &Local, rows: &mut R, joins: &mut Joins) -> Result<(), OutOfMemory>
    requires size { R.places rows.old ≡ length local.now.points }
    requires joins_size { joins.old.size ≡ length local.now.points }
    requires empty { (p q : ℕ) → R.at rows.old p q ≡ None }
    requires apart { (p q : ℕ) → is_joined joins.old p q ≡ false }
    ensures size { R.places rows.new ≡ R.places rows.old }
    ensures joins_size { joins.new.size ≡ joins.old.size }
    ensures room { OnOk result ((p q : ℕ) → is_joined joins.new p q ≡ true → R.has_room rows.new p q ≡ true) }
    ensures laid { OnOk result (IsLaid local.now (length local.now.arcs) (R.at rows.new) (is_joined joins.new)) }
{
    // With the size comes that it is a local problem, whose arcs join its points.
    let _places = local.size();
    for k in 0..local.arcs() {
        lay_arc(local, rows, joins, k)?;
    }
    Ok(())
}

// Writes one arc into its cell, and joins its ends, which get room both ways.
fn lay_arc<R: Rows>(
    local: &Local,
    rows: &mut R,
    joins: &mut Joins,
    k: u32,
) -> Result<(), OutOfMemory>
    requires within { k < length local.now.arcs }
    requires size { R.places rows.old ≡ length local.now.points }
    requires joins_size { joins.old.size ≡ length local.now.points }
    requires room { (p q : ℕ) → is_joined joins.old p q ≡ true → R.has_room rows.old p q ≡ true }
    ensures size { R.places rows.new ≡ R.places rows.old }
    ensures joins_size { joins.new.size ≡ joins.old.size }
    ensures room { OnOk result ((p q : ℕ) → is_joined joins.new p q ≡ true → R.has_room rows.new p q ≡ true) }
    ensures arc { OnOk result (IsLaidArc local.now k (R.at rows.old) (R.at rows.new) (is_joined joins.old) (is_joined joins.new)) }
{
    // With the size comes that it is a local problem, in which both ends have a place.
    let _places = local.size();
    let arc = local.arc(k).arc;
    let Some(from) = local.place_of(arc.from) else {
        unreachable!()
    };
    let Some(to) = local.place_of(arc.to) else {
        unreachable!()
    };
    rows.make_room(from, to)?;
    rows.make_room(to, from)?;
    rows.lower(
        from,
        to,
        Cell {
            weight: arc.bound as i128,
            via: Via::Given(k),
        },
    );
    joins.join(from, to)?;
    Ok(())
}
