//! The leaves that a cell's weight is the sum of, out of the origins of the cells.
ghost use Rattle.std.specs.Prelude.{◌≡◌, ◌<◌, true, Some, is_some, IfOk, IfSome, OnOk, length};
ghost use Rattle.std.specs.List.{AllByRecursion};
ghost use Rattle.elim_step.specs.Eliminated.{weight_at};
ghost use Rattle.elim_step.specs.Unfolds.{Places, HasSums, IsLeafOf, LeadFrom, leaves_weight, Unfolds};

use dist_rows::{Cell, Rows, Via};
use std::alloc::Global;
use stn_model::OutOfMemory;

/// A cell from one place to another that is no sum.
#[derive(Clone, Copy)]
pub struct Leaf {
    /// The place from which it leads.
    pub from: u32,
    /// The place to which it leads.
    pub to: u32,
    /// Its weight.
    pub weight: i128,
    /// Where the weight comes from.
    pub via: Via,
}

/// A segment of a walk whose leaves are still to be found: those that the cell from one place to another stands for.
#[derive(Clone, Copy)]
pub struct Segment {
    from: u32,
    to: u32,
}

// Ends the leaves with the cell of a segment, or puts on top of the stack the two segments that its weight is the sum of.
fn unfold_cell(
    segment: Segment,
    cell: Cell,
    leaves: &mut Vec<Leaf>,
    ahead: &mut Vec<Segment>,
) -> Result<(), OutOfMemory>
    ensures { OnOk result (Unfolds segment cell.weight cell.via leaves.old.items leaves.new.items ahead.old.items ahead.new.items) }
{
    let Via::Through(middle) = cell.via else {
        leaves.push(Leaf {
            from: segment.from,
            to: segment.to,
            weight: cell.weight,
            via: cell.via,
        })?;
        return Ok(());
    };
    ahead.push(Segment {
        from: middle,
        to: segment.to,
    })?;
    ahead.push(Segment {
        from: segment.from,
        to: middle,
    })?;
    Ok(())
}

// The same for the cell that the rows have for the segment.
fn unfold_segment<R: Rows>(
    rows: &R,
    segment: Segment,
    leaves: &mut Vec<Leaf>,
    ahead: &mut Vec<Segment>,
) -> Result<(), OutOfMemory>
    requires within { (segment.from < R.places rows.now) × (segment.to < R.places rows.now) }
    requires there { is_some (R.at rows.now segment.from segment.to) ≡ true }
    ensures { OnOk result (IfSome (R.at rows.now segment.from segment.to)
        (λ c. Unfolds segment c.weight c.via leaves.old.items leaves.new.items ahead.old.items ahead.new.items)) }
{
    let Some(cell) = rows.get(segment.from, segment.to) else {
        unreachable!()
    };
    unfold_cell(segment, cell, leaves, ahead)
}

/// The leaves of a walk from a place to another one, in turn: together they weigh what the cell of the pair does, and each but the
/// last one ends at an eliminated point. The ghost value names the point of each place, and the eliminated points.
/// OutOfMemory where memory runs out.
pub fn unfold<R: Rows>(
    alloc: Global,
    rows: &R,
    from: u32,
    to: u32,
) -> Result<Vec<Leaf>, OutOfMemory>
    ghost places: { Places }
    requires size { R.places rows.now ≡ length places.points }
    requires within { (from < R.places rows.now) × (to < R.places rows.now) }
    requires there { is_some (R.at rows.now from to) ≡ true }
    requires sums { HasSums places.points places.es (R.at rows.now) }
    ensures lead { IfOk result (λ v. LeadFrom v.items from to) }
    ensures leaf { IfOk result (λ v. AllByRecursion (IsLeafOf places.points places.es (R.at rows.now) to) v.items) }
    ensures weight { IfOk result (λ v. Some (leaves_weight v.items) ≡ weight_at (R.at rows.now from to)) }
{
    let mut leaves = Vec::new(alloc);
    // A stack of its own, since on a chain of points a function that calls itself would be thousands of calls deep.
    let mut ahead = vec![in alloc; Segment { from, to }]?;
    while let Some(segment) = ahead.pop() {
        unfold_segment(rows, segment, &mut leaves, &mut ahead)?;
    }
    Ok(leaves)
}
