//! A cell: a weight, and where it comes from.
ghost use Rattle.std.specs.Prelude.{◌≡◌};
ghost use Rattle.dist_rows.specs.Cells.{is_lower, weight_in};

use stn_model::AgentId;

/// Where the weight of a cell comes from.
#[derive(Clone, Copy, PartialEq, Eq, Debug)]
pub enum Via {
    /// The bound of the given arc of this number.
    Given(u32),
    /// An entry of the summary that this agent published.
    Published(AgentId),
    /// The sum of the two cells through this place.
    Through(u32),
}

/// The weight from one place to another, in the network's unit of time, with its origin.
#[derive(Clone, Copy, PartialEq, Eq, Debug)]
pub struct Cell {
    pub weight: i128,
    pub via: Via,
}

/// A weight, in the network's unit of time, that is offered to the cell at a place of some row.
#[derive(Clone, Copy, PartialEq, Eq, Debug)]
pub struct Offer {
    pub weight: i128,
    pub place: u32,
}

impl Cell {
    /// Whether this cell is written over `old`: there is no old cell, or its weight is strictly greater.
    pub fn is_below(&self, old: Option<Cell>) -> bool
        ensures { result ≡ is_lower old self.now }
    {
        match old {
            None => true,
            Some(old) => self.weight < old.weight,
        }
    }
}

/// The weight that stands where there is no cell: 2^120, above those of all cells.
pub const FAR: i128 = 1_329_227_995_784_915_872_903_807_060_280_344_576;

/// The weight of a cell, or `FAR`.
pub fn weight_in(cell: Option<Cell>) -> i128
    ensures { result ≡ weight_in cell }
{
    match cell {
        None => FAR,
        Some(cell) => cell.weight,
    }
}
