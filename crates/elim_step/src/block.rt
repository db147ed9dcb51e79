//! Blocks of neighbours.
ghost use Rattle.std.specs.Prelude.{◌≡◌, ◌+◌, ◌<◌, ◌≤◌, ◌^◌, [], ◌∷◌, ◌++◌, length, take, drop, if◌then◌else◌};

use std::cmp::min;

/// The most places of a block.
pub const ROOM: usize = 64;

/// Some neighbours of a place: those of an interval of places, by rising number.
#[derive(Clone, Copy)]
pub struct Block {
    /// The first place of the interval.
    pub from: u32,
    /// The first place after the interval.
    pub end: u32,
    /// The number of its places.
    pub count: usize,
    places: [u32; ROOM],
    ghost few: { count ≤ 64 },
}

/// The places of a list from a number on, as many as a block has room for.
pub fn part_from(list: &[u32], from: usize) -> &[u32]
    requires { from ≤ length list.now }
    ensures part { result.now ≡ take (length result.now) (drop from list.now) }
    ensures few { length result.now ≤ 64 }
    ensures within { from + length result.now ≤ length list.now }
    ensures some { from < length list.now → 0 < length result.now }
{
    &list[from..from + min(ROOM, list.len() - from)]
}

impl Block {
    ghost use Rattle.elim_step.specs.Blocks.{items_of};

    /// The block of the interval before a place that begins there.
    pub fn empty(from: u32) -> Block
        ensures from { result.from ≡ from }
        ensures end { result.end ≡ from }
        ensures items { items_of result ≡ [] }
        ensures count { result.count ≡ 0 }
    {
        Block {
            from,
            end: from,
            count: 0,
            places: [0; ROOM],
        }
    }

    /// The places of the block.
    pub fn as_slice(&self) -> &[u32]
        ensures value { result.now ≡ items_of self.now }
        ensures few { length result.now ≤ 64 }
    {
        &self.places[..self.count]
    }

    /// The block with the interval up to a place, and with this place where it is wanted.
    pub fn with(mut self, place: u32, wanted: bool) -> Block
        requires room { self.count < 64 }
        requires fits { place + 1 < 2 ^ 32 }
        ensures from { result.from ≡ self.from }
        ensures end { result.end ≡ place + 1 }
        ensures items { items_of result ≡ items_of self ++ (if wanted then place ∷ [] else []) }
    {
        self.end = place + 1;
        if wanted {
            self.places[self.count] = place;
            self.count += 1;
        }
        self
    }
}
