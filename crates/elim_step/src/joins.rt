//! Which pairs of places are joined, without direction.
ghost use Rattle.std.specs.Prelude.{◌≡◌, ◌≢◌, ℕ, ◌+◌, ◌<◌, ◌≤◌, false, true, ◌&&◌, ◌||◌, not, ◌==◌, IfOk, OnOk, OnErr, length, [], ◌∷◌, ◌++◌, if◌then◌else◌};
ghost use Rattle.std.specs.List.{AllPairs};
ghost use Rattle.dist_rows.specs.Places.{AreWithin, AreRisingPlaces};
ghost use Rattle.elim_step.specs.Eliminates.{remains, count_below};
ghost use Rattle.elim_step.specs.PlaceLists.{places_of, room_of, place_at, AreJoined};
ghost use Rattle.stn_walk.specs.Eliminations.{is_in};

use crate::place_list::PlaceList;
use std::alloc::Global;
use stn_model::OutOfMemory;

// Puts a place at the end of a list where it is wanted.
fn push_where(places: &mut Vec<u32>, place: u32, wanted: bool) -> Result<(), OutOfMemory>
    ensures { OnOk result (places.new.items ≡ places.old.items ++ (if wanted then place ∷ [] else [])) }
{
    if wanted {
        places.push(place)?;
    }
    Ok(())
}

// One where it is wanted, and else none.
fn one_where(wanted: bool) -> u32
    ensures { result ≡ (if wanted then 1 else 0) }
{
    u32::from(wanted)
}

/// Which pairs of different places are joined, in either direction alike. Takes memory for each place and for each joined
/// pair.
#[derive(Drop)]
pub struct Joins {
    size: u32,
    lists: Vec<PlaceList>,
    ghost kept: { AreJoined size lists.items },
}

impl Joins {
    ghost use Rattle.elim_step.specs.JoinedPlaces.{is_joined, HasRoomFor};

    /// Pairs of this many places, none of them joined. `OutOfMemory` where there is no room for a list for each place.
    pub fn new(alloc: Global, size: u32) -> Result<Joins, OutOfMemory>
        ensures size { IfOk result (λ s. s.size ≡ size) }
        ensures pairs { IfOk result (λ s. (p q : ℕ) → is_joined s p q ≡ false) }
    {
        let mut lists = Vec::with_capacity(alloc, size as usize)?;
        for _p in 0..size {
            lists.push(PlaceList::new(alloc))?;
        }
        Ok(Joins { size, lists })
    }

    /// The number of places: they are the numbers below it.
    pub fn size(&self) -> u32
        ensures { result ≡ self.now.size }
    {
        self.size
    }

    // The places joined with one.
    fn joined(&self, k: u32) -> &[u32]
        requires { k < self.now.size }
        ensures value { result.now ≡ places_of self.now.lists.items k }
        ensures rising { AreRisingPlaces result.now }
        ensures within { (p : ℕ) → is_in result.now p ≡ true → p < self.now.size }
    {
        self.lists[k as usize].as_slice()
    }

    /// Whether two places below the size are joined. No place is joined with itself.
    pub fn get(&self, i: u32, j: u32) -> bool
        requires { (i < self.now.size) × (j < self.now.size) }
        ensures { result ≡ is_joined self.now i j }
    {
        self.lists[i as usize].contains(j)
    }

    // Makes room in the list of a place.
    fn reserve(&mut self, i: u32, more: usize) -> Result<(), OutOfMemory>
        requires { i < self.old.size }
        ensures size { self.new.size ≡ self.old.size }
        ensures places { (p : ℕ) → places_of self.new.lists.items p ≡ places_of self.old.lists.items p }
        ensures rooms { (p : ℕ) → room_of self.old.lists.items p ≤ room_of self.new.lists.items p }
        ensures room { OnOk result (length (places_of self.new.lists.items i) + more ≤ room_of self.new.lists.items i) }
    {
        self.lists[i as usize].reserve(more)
    }

    // Adds a place to the list of another, and says whether it is new there.
    fn add(&mut self, i: u32, j: u32) -> bool
        requires within { (i < self.old.size) × (j < self.old.size) }
        requires apart { i ≢ j }
        requires room { length (places_of self.old.lists.items i) < room_of self.old.lists.items i }
        ensures size { self.new.size ≡ self.old.size }
        ensures pairs { (p q : ℕ) → is_joined self.new p q ≡ (is_joined self.old p q || ((p == i) && (q == j))) }
        ensures new { result ≡ not (is_joined self.old i j) }
        ensures others { (p : ℕ) → p ≢ i → (places_of self.new.lists.items p ≡ places_of self.old.lists.items p) × (room_of self.new.lists.items p ≡ room_of self.old.lists.items p) }
    {
        self.lists[i as usize].add(j)
    }

    // Adds each other place of a list to that of a place.
    fn add_all(&mut self, i: u32, others: &[u32])
        requires within { i < self.old.size }
        requires all_within { (p : ℕ) → is_in others.now p ≡ true → p < self.old.size }
        requires rising { AreRisingPlaces others.now }
        requires room { length (places_of self.old.lists.items i) + length others.now ≤ room_of self.old.lists.items i }
        ensures size { self.new.size ≡ self.old.size }
        ensures pairs { (p q : ℕ) → is_joined self.new p q ≡ (is_joined self.old p q || ((p == i) && (is_in others.now q && not (q == i)))) }
        ensures others { (p : ℕ) → p ≢ i → (places_of self.new.lists.items p ≡ places_of self.old.lists.items p) × (room_of self.new.lists.items p ≡ room_of self.old.lists.items p) }
    {
        self.lists[i as usize].add_all(i, others);
    }

    /// Joins two places below the size, and says whether the pair is new. Where they are one, nothing changes. After
    /// `OutOfMemory` the same pairs are joined as before.
    pub fn join(&mut self, i: u32, j: u32) -> Result<bool, OutOfMemory>
        requires { (i < self.old.size) × (j < self.old.size) }
        ensures pairs { OnOk result ((p q : ℕ) → is_joined self.new p q ≡ (is_joined self.old p q || (not (p == q) && (((p == i) && (q == j)) || ((p == j) && (q == i)))))) }
        ensures new { IfOk result (λ b. b ≡ (not (i == j) && not (is_joined self.old i j))) }
        ensures stays { OnErr result ((p q : ℕ) → is_joined self.new p q ≡ is_joined self.old p q) }
        ensures size { self.new.size ≡ self.old.size }
    {
        if i == j {
            return Ok(false);
        }
        self.reserve(i, 1)?;
        self.reserve(j, 1)?;
        let new = self.add(i, j);
        self.add(j, i);
        Ok(new)
    }

    /// Makes room for `join_all_reserved` of these places. No pair is joined by that, whatever the result.
    pub fn reserve_all(&mut self, places: &[u32]) -> Result<(), OutOfMemory>
        requires within { (p : ℕ) → is_in places.now p ≡ true → p < self.old.size }
        ensures pairs { (p q : ℕ) → is_joined self.new p q ≡ is_joined self.old p q }
        ensures room { OnOk result (HasRoomFor self.new places.now) }
        ensures size { self.new.size ≡ self.old.size }
    {
        for n in 0..places.len() {
            self.reserve(places[n], places.len())?;
        }
        Ok(())
    }

    /// Joins each pair of different places of a list that rises, for which there is room. Takes no memory. The list of each
    /// of them is walked over once.
    pub fn join_all_reserved(&mut self, places: &[u32])
        requires within { (p : ℕ) → is_in places.now p ≡ true → p < self.old.size }
        requires rising { AreRisingPlaces places.now }
        requires room { HasRoomFor self.old places.now }
        ensures pairs { (p q : ℕ) → is_joined self.new p q ≡ (is_joined self.old p q || (not (p == q) && is_in places.now p && is_in places.now q)) }
        ensures size { self.new.size ≡ self.old.size }
    {
        for n in 0..places.len() {
            self.add_all(places[n], places);
        }
    }

    /// Joins each pair of different places of a list that rises; all are below the size. After `OutOfMemory` the same pairs
    /// are joined as before.
    pub fn join_all(&mut self, places: &[u32]) -> Result<(), OutOfMemory>
        requires within { (p : ℕ) → is_in places.now p ≡ true → p < self.old.size }
        requires rising { AreRisingPlaces places.now }
        ensures pairs { OnOk result ((p q : ℕ) → is_joined self.new p q ≡ (is_joined self.old p q || (not (p == q) && is_in places.now p && is_in places.now q))) }
        ensures stays { OnErr result ((p q : ℕ) → is_joined self.new p q ≡ is_joined self.old p q) }
        ensures size { self.new.size ≡ self.old.size }
    {
        self.reserve_all(places)?;
        self.join_all_reserved(places);
        Ok(())
    }

    /// Fills a list, which is emptied first, with the places that remain and are joined with k, by rising number. `remain`
    /// has a truth value for each place. `OutOfMemory` where the list cannot grow.
    pub fn neighbours(
        &self,
        k: u32,
        remain: &[bool],
        list: &mut Vec<u32>,
    ) -> Result<(), OutOfMemory>
        requires within { k < self.now.size }
        requires len { length remain.now ≡ self.now.size }
        ensures each { OnOk result ((p : ℕ) → is_in list.new.items p ≡ (remains remain.now p && is_joined self.now k p)) }
        ensures rising { OnOk result (AllPairs (λ p q. p < q) list.new.items) }
        ensures places { OnOk result (AreRisingPlaces list.new.items) }
        ensures within { OnOk result ((p : ℕ) → is_in list.new.items p ≡ true → p < self.now.size) }
        ensures all_within { OnOk result (AreWithin self.now.size list.new.items) }
        ensures away { OnOk result (is_in list.new.items k ≡ false) }
        ensures count { OnOk result (length list.new.items ≡ count_below (λ p. remains remain.now p && is_joined self.now k p) self.now.size) }
    {
        let joined = self.joined(k);
        list.clear();
        for &p in joined {
            push_where(list, p, remain[p as usize])?;
        }
        Ok(())
    }

    /// How many places remain and are joined with k, by a look at each that is joined with it. `remain` has a truth value
    /// for each place.
    pub fn count(&self, k: u32, remain: &[bool]) -> u32
        requires within { k < self.now.size }
        requires len { length remain.now ≡ self.now.size }
        ensures { result ≡ count_below (λ p. remains remain.now p && is_joined self.now k p) self.now.size }
    {
        let joined = self.joined(k);
        let mut count = 0;
        for &p in joined {
            count += one_where(remain[p as usize]);
        }
        count
    }

    /// How many places are joined with k, those that do not remain among them. Takes no look at them.
    pub fn count_joined(&self, k: u32) -> u32
        requires { k < self.now.size }
        ensures { result ≡ count_below (is_joined self.now k) self.now.size }
    {
        // With the size comes that there are few enough to count.
        let _size = self.size();
        self.joined(k).len() as u32
    }

    /// Equal pairs of as many places. `OutOfMemory` where there is no room for them.
    pub fn copy(&self, alloc: Global) -> Result<Joins, OutOfMemory>
        ensures size { IfOk result (λ s. s.size ≡ self.now.size) }
        ensures pairs { IfOk result (λ s. (p q : ℕ) → is_joined s p q ≡ is_joined self.now p q) }
    {
        let mut lists = Vec::with_capacity(alloc, self.lists.len())?;
        for n in 0..self.lists.len() {
            lists.push(self.lists[n].copy(alloc)?)?;
        }
        Ok(Joins {
            size: self.size,
            lists,
        })
    }
}
