//! The cells of a row as offers, some at a time.
ghost use Rattle.std.specs.Prelude.{◌≡◌, ℕ, ◌+◌, ◌<◌, ◌≤◌, Option, Some, None, IfSome, [], ◌++◌, length, slice_index_or, option_to_list};
ghost use Rattle.dist_rows.specs.declared.cell.Cell.{Cell};
ghost use Rattle.dist_rows.specs.Cells.{IsLight};
ghost use Rattle.dist_rows.specs.Places.{AreWithin, AreRisingPlaces};

use crate::block::ROOM;
use dist_rows::{Cell, Offer, Rows};

/// Offers by rising place, at most as many as a block has places.
#[derive(Drop)]
pub struct Offers {
    count: usize,
    offers: [Offer; ROOM],
    ghost few: { count ≤ 64 },
}

impl Offers {
    ghost use Rattle.elim_step.specs.Offered.{offers_of, offer_for, AreCells, AreOffers};

    /// No offers.
    fn empty() -> Offers
        ensures items { offers_of result ≡ [] }
        ensures count { result.count ≡ 0 }
    {
        let none = Offer {
            weight: 0,
            place: 0,
        };
        Offers {
            count: 0,
            offers: [none; ROOM],
        }
    }

    /// The offers.
    pub fn as_slice(&self) -> &[Offer]
        ensures { result.now ≡ offers_of self.now }
    {
        &self.offers[..self.count]
    }

    // Puts a cell behind the others, where it is there, as an offer to a place.
    fn put(&mut self, place: u32, cell: Option<Cell>)
        requires { self.old.count < 64 }
        ensures items { offers_of self.new ≡ offers_of self.old ++ option_to_list (offer_for place cell) }
        ensures count { self.new.count ≤ self.old.count + 1 }
    {
        if let Some(cell) = cell {
            self.offers[self.count] = Offer {
                weight: cell.weight,
                place,
            };
            self.count += 1;
        }
    }

    /// The cells to each place of a list that rises, as offers to these. There are as many cells, and no more places than a
    /// block has.
    pub fn to(others: &[u32], cells: &[Option<Cell>]) -> Offers
        requires rising { AreRisingPlaces others.now }
        requires few { length others.now ≤ 64 }
        requires len { length cells.now ≡ length others.now }
        requires light { (m : ℕ) → m < length others.now → IfSome (slice_index_or cells.now m None) (λ c. IsLight 99 c.weight) }
        ensures { (f : ℕ → Option Cell) → AreCells f others.now cells.now → AreOffers f others.now (offers_of result) }
    {
        let mut offers = Offers::empty();
        for n in 0..others.len() {
            offers.put(others[n], cells[n]);
        }
        offers
    }

    /// The cells of k with each place of a list that rises, as offers to these. The list has no more places than a block.
    pub fn of<R: Rows>(rows: &R, k: u32, others: &[u32]) -> Offers
        requires within { k < R.places rows.now }
        requires others { AreWithin (R.places rows.now) others.now }
        requires rising { AreRisingPlaces others.now }
        requires few { length others.now ≤ 64 }
        requires light { (q : ℕ) → IfSome (R.at rows.now k q) (λ c. IsLight 99 c.weight) }
        ensures { AreOffers (R.at rows.now k) others.now (offers_of result) }
    {
        let mut buffer = [None; ROOM];
        let cells = &mut buffer[..others.len()];
        rows.read_row(k, others, cells);
        Offers::to(others, cells)
    }
}
