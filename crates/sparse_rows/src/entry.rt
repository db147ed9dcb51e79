//! An entry of a row: another place, with a cell or none, in 32 bytes.
ghost use Rattle.std.specs.Prelude.{◌≡◌, Option, Some, None};
ghost use Rattle.dist_rows.specs.Cells.{weight_in};
ghost use Rattle.sparse_rows.specs.Entries.{cell_in, is_open_origin, written_over, opened, closed_at, open_at};

use dist_rows::{Cell, FAR, Via};
use std::mem::size_of;
use stn_model::AgentId;

/// Where a weight comes from, or why there is none.
#[derive(Clone, Copy)]
pub enum Origin {
    /// The pair has no room: the entry is there for the sake of the mirrored pair.
    Closed,
    /// The pair has room, and no cell.
    Nothing,
    Given(u32),
    Published(u32),
    Through(u32),
}

// The other place stands where a weight and an origin alone would leave eight bytes empty.
/// A place with the cell of the pair, if it has one.
#[derive(Clone, Copy)]
pub struct Entry {
    pub weight: i128,
    pub origin: Origin,
    pub place: u32,
}

const _: () = prove!(size_of::<Entry>() == 32);

impl Entry {
    /// An entry of a pair without room.
    pub fn closed(place: u32) -> Entry
        ensures { result ≡ closed_at place }
    {
        Entry {
            weight: 0,
            origin: Origin::Closed,
            place,
        }
    }

    /// An entry of a pair with room and without a cell.
    pub fn open(place: u32) -> Entry
        ensures { result ≡ open_at place }
    {
        Entry {
            weight: 0,
            origin: Origin::Nothing,
            place,
        }
    }

    /// The same entry with room for its pair.
    pub fn opened(self) -> Entry
        ensures { result ≡ opened self }
    {
        match self.origin {
            Origin::Closed => Entry::open(self.place),
            _ => self,
        }
    }

    /// Whether the pair has room.
    pub fn is_open(self) -> bool
        ensures { result ≡ is_open_origin self.origin }
    {
        match self.origin {
            Origin::Closed => false,
            _ => true,
        }
    }

    /// The same place with this cell.
    pub fn with(self, cell: Cell) -> Entry
        ensures { result ≡ written_over self cell }
    {
        let origin = match cell.via {
            Via::Given(number) => Origin::Given(number),
            Via::Published(agent) => Origin::Published(agent.0),
            Via::Through(place) => Origin::Through(place),
        };
        Entry {
            weight: cell.weight,
            origin,
            place: self.place,
        }
    }

    /// The cell of the pair.
    pub fn cell(self) -> Option<Cell>
        ensures { result ≡ cell_in self }
    {
        let via = match self.origin {
            Origin::Closed => return None,
            Origin::Nothing => return None,
            Origin::Given(number) => Via::Given(number),
            Origin::Published(agent) => Via::Published(AgentId(agent)),
            Origin::Through(place) => Via::Through(place),
        };
        Some(Cell {
            weight: self.weight,
            via,
        })
    }

    /// The weight of the cell of the pair, or `FAR`.
    pub fn plain_weight(self) -> i128
        ensures { result ≡ weight_in (cell_in self) }
    {
        match self.origin {
            Origin::Closed => FAR,
            Origin::Nothing => FAR,
            _ => self.weight,
        }
    }
}
