//! A cell or none in 32 bytes, as a matrix stores it.
ghost use Rattle.std.specs.Prelude.{◌≡◌, Option, Some, None};
ghost use Rattle.dist_rows.specs.Slots.{cell_in, slot_for, no_slot};

use crate::cell::{Cell, Via};
use std::mem::size_of;
use stn_model::AgentId;

/// Where a stored weight comes from, with a tag of its own where there is no cell.
#[derive(Clone, Copy)]
pub enum Origin {
    Nothing,
    Given(u32),
    Published(u32),
    Through(u32),
}

// The weight stands first and the tag is in the origin: an optional cell would take 16 bytes more, since its tag comes
// before a number that is aligned to 16 bytes.
/// A cell or none.
#[derive(Clone, Copy)]
pub struct Slot {
    pub weight: i128,
    pub origin: Origin,
}

// A matrix of 4,096 places takes 512 MiB.
const _: () = prove!(size_of::<Slot>() == 32);

impl Slot {
    /// The slot without a cell.
    pub fn empty() -> Slot
        ensures { result ≡ no_slot }
    {
        Slot {
            weight: 0,
            origin: Origin::Nothing,
        }
    }

    /// The slot of a cell.
    pub fn of(cell: Cell) -> Slot
        ensures { result ≡ slot_for cell }
    {
        let origin = match cell.via {
            Via::Given(number) => Origin::Given(number),
            Via::Published(agent) => Origin::Published(agent.0),
            Via::Through(place) => Origin::Through(place),
        };
        Slot {
            weight: cell.weight,
            origin,
        }
    }

    /// The cell of a slot.
    pub fn cell(self) -> Option<Cell>
        ensures { result ≡ cell_in self }
    {
        let via = match self.origin {
            Origin::Nothing => return None,
            Origin::Given(number) => Via::Given(number),
            Origin::Published(agent) => Via::Published(AgentId(agent)),
            Origin::Through(place) => Via::Through(place),
        };
        Some(Cell {
            weight: self.weight,
            via,
        })
    }
}
