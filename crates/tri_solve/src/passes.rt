//! The passes up and down an order.
ghost use Rattle.std.specs.Prelude.{◌≡◌, ℕ, ◌<◌, ◌≤◌, ◌*◌, ℤ, length, IfOk, Some};
ghost use Rattle.stn_model.specs.Limits.{most_points, greatest_walk};
ghost use Rattle.tri_solve.specs.Edges.{AreBounds};
ghost use Rattle.tri_solve.specs.Passes.{IsLight};
ghost use Rattle.tri_solve.specs.Labels.{number_at, label_at};
ghost use Rattle.tri_solve.specs.Turns.{starts, IsPassed, ArePassed};

use crate::bounds::ChordalBounds;
use crate::label::Label;
use std::alloc::Global;
use stn_model::{OutOfMemory, PointId};

/// The labels before the first pass: 0 at the source, and none anywhere else.
fn start(alloc: Global, points: usize, source: PointId) -> Result<Vec<Option<Label>>, OutOfMemory>
    requires { source.0 < points }
    ensures { IfOk result (λ labels. labels.items ≡ starts points source) }
{
    let mut labels = vec![in alloc; None::<Label>; points]?;
    labels[source.0 as usize] = Some(Label {
        number: 0,
        via: source,
    });
    Ok(labels)
}

/// A pass up the order, or down: each point in turn gets the least of the number that it has and of those by way of the points before it in
/// the pass.
fn pass(labels: &mut [Option<Label>], bounds: &ChordalBounds, up: bool)
    requires points { length labels.old ≡ length bounds.now.order }
    requires few { length bounds.now.order ≤ most_points }
    requires range { (p : ℕ) (d : ℤ) → number_at labels.old p ≡ Some d → IsLight (greatest_walk * length bounds.now.order) d }
    ensures { IsPassed bounds.now up labels.old labels.new }
{
    for turn in 0..bounds.points() {
        let p = bounds.point_at(turn, up);
        labels[p.0 as usize] = bounds.reached(labels, p, up);
    }
}

/// The labels of both passes: up from the source to the points after it that it reaches, then down over all points.
pub fn pass_both(
    alloc: Global,
    bounds: &ChordalBounds,
    source: PointId,
) -> Result<Vec<Option<Label>>, OutOfMemory>
    requires within { source.0 < length bounds.now.order }
    requires few { length bounds.now.order ≤ most_points }
    ensures passed { IfOk result (λ labels. ArePassed bounds.now source labels.items) }
    ensures valid { AreBounds bounds.now }
{
    let mut labels = start(alloc, bounds.points(), source)?;
    pass(labels.as_mut_slice(), bounds, true);
    pass(labels.as_mut_slice(), bounds, false);
    Ok(labels)
}
