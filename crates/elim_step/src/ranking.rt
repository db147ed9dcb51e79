//! The place that comes first, kept while keys change.
ghost use Rattle.std.specs.Prelude.{◌≡◌, ℕ, ◌+◌, ◌*◌, ◌<◌, ◌≤◌, ◌==◌, Option, None, IfOk, length, if◌then◌else◌};
ghost use Rattle.elim_step.specs.Rankings.{rank_for, first_rank, node_at, number_for, AreMatches, IsRanking, IsFirst};

use crate::pick::Rank;
use std::alloc::Global;
use stn_model::OutOfMemory;

// A place with its key, where it has one.
fn rank_of(place: u32, key: Option<u64>) -> Option<Rank>
    ensures { result ≡ rank_for place key }
{
    match key {
        None => None,
        Some(key) => Some(Rank { key, number: place }),
    }
}

// The number of a place that is there.
fn number_of(rank: Option<Rank>) -> Option<u32>
    ensures { result ≡ number_for rank }
{
    match rank {
        None => None,
        Some(rank) => Some(rank.number),
    }
}

// The one of two that comes first, where one is there.
fn first_of_two(one: Option<Rank>, other: Option<Rank>) -> Option<Rank>
    ensures { result ≡ first_rank one other }
{
    let Some(rank) = one else {
        return other;
    };
    let Some(next) = other else {
        return one;
    };
    if next.is_before(&rank) {
        return other;
    }
    one
}

// Puts a rank at a leaf, and plays the matches above it anew.
fn play(nodes: &mut [Option<Rank>], size: usize, leaf: usize, rank: Option<Rank>)
    requires len { length nodes.old ≡ 2 * size }
    requires leaf { (size ≤ leaf) × (leaf < 2 * size) }
    requires matches { AreMatches size nodes.old }
    ensures len { length nodes.new ≡ length nodes.old }
    ensures leaves { (n : ℕ) → size ≤ n → node_at nodes.new n ≡ (if n == leaf then rank else node_at nodes.old n) }
    ensures matches { AreMatches size nodes.new }
{
    nodes[leaf] = rank;
    let mut node = leaf;
    'up: while node > 1 {
        node /= 2;
        nodes[node] = first_of_two(nodes[2 * node], nodes[2 * node + 1]);
    }
}

/// Places with keys, of which the first is known: that of least key, and of least number among those with that key. A
/// place has a key or none.
#[derive(Drop)]
pub struct Ranking {
    size: u32,
    nodes: Vec<Option<Rank>>,
    ghost kept: { IsRanking size nodes.items },
}

impl Ranking {
    ghost use Rattle.elim_step.specs.Ranked.{key_at};

    /// This many places, none with a key. `OutOfMemory` where there is no room for two nodes for each.
    pub fn new(alloc: Global, size: u32) -> Result<Ranking, OutOfMemory>
        ensures size { IfOk result (λ r. r.size ≡ size) }
        ensures keys { IfOk result (λ r. (p : ℕ) → key_at r p ≡ None) }
    {
        let count = 2 * size as usize;
        let mut nodes = Vec::with_capacity(alloc, count)?;
        for _n in 0..count {
            nodes.push(None)?;
        }
        Ok(Ranking { size, nodes })
    }

    /// The number of places: they are the numbers below it.
    pub fn size(&self) -> u32
        ensures { result ≡ self.now.size }
    {
        self.size
    }

    /// Gives a place below the size this key, or none. Takes no memory, and as many steps as the number of places has
    /// binary digits.
    pub fn set(&mut self, place: u32, key: Option<u64>)
        requires { place < self.old.size }
        ensures keys { (p : ℕ) → key_at self.new p ≡ (if p == place then key else key_at self.old p) }
        ensures size { self.new.size ≡ self.old.size }
    {
        let size = self.size as usize;
        play(
            self.nodes.as_mut_slice(),
            size,
            size + place as usize,
            rank_of(place, key),
        );
    }

    /// The place that comes first. None exactly where no place has a key. Takes no search.
    pub fn first(&self) -> Option<u32>
        ensures { IsFirst (key_at self.now) result }
    {
        if self.size == 0 {
            return None;
        }
        number_of(self.nodes[1])
    }
}
