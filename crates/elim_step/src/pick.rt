//! Which candidate is taken next.
ghost use Rattle.std.specs.Prelude.{◌≡◌, ℕ};
ghost use Rattle.elim_step.specs.Picks.{Picks, comes_before, comes_first, first_of, place_found};

/// A point that may be taken.
#[derive(Clone, Copy, PartialEq, Eq, Debug)]
pub struct Candidate {
    pub degree: u32,
    pub number: u32,
}

/// The key of a candidate, with its number.
#[derive(Clone, Copy)]
pub struct Rank {
    pub(crate) key: u64,
    pub(crate) number: u32,
}

impl Rank {
    /// Whether this rank comes first: by key, then by number.
    pub(crate) fn is_before(&self, other: &Rank) -> bool
        ensures { result ≡ comes_before self.now.key self.now.number other.now.key other.now.number }
    {
        self.key < other.key || self.key == other.key && self.number < other.number
    }

    // Whether this rank comes before the one that was found, or there was none.
    fn is_first(&self, found: Option<(usize, Rank)>) -> bool
        ensures { result ≡ comes_first self.now found }
    {
        match found {
            None => true,
            Some((_, other)) => self.is_before(&other),
        }
    }

    // What was found, or this rank with its place where it comes first.
    fn or_found(self, place: usize, found: Option<(usize, Rank)>) -> Option<(usize, Rank)>
        ensures { result ≡ first_of place self found }
    {
        if self.is_first(found) {
            Some((place, self))
        } else {
            found
        }
    }
}

// The place that was found.
fn place_of(found: Option<(usize, Rank)>) -> Option<usize>
    ensures { result ≡ place_found found }
{
    found.map(|(place, _)| place)
}

// A struct that is generic in a closure's type cannot keep the fact that the closure may always be called: "a ghost
// field or an `impl Model` cannot yet cite its `pre`, `post` or `step`: make the field a function pointer or a
// `Box<dyn Fn>`". So the closure stands in a box.
/// A key of each degree and number, which may always be asked for.
#[derive(Drop)]
pub struct Picker {
    key: Box<dyn Fn(u32, u32) -> u64 + Send + Sync>,
    ghost callable: { IsAlwaysCallable key },
}

impl Picker {
    /// Keeps a closure that gives the key of a degree and a number.
    pub fn new(key: Box<dyn Fn(u32, u32) -> u64 + Send + Sync>) -> Picker
        requires { IsAlwaysCallable key }
        ensures { result.key ≡ key }
    {
        Picker { key }
    }

    /// The key of a degree and a number, for a caller that keeps candidates by their keys.
    pub fn key(&self, degree: u32, number: u32) -> u64
        ensures { post self.now.key degree number result }
    {
        (self.key)(degree, number)
    }

    // The rank of a candidate.
    fn rank(&self, candidate: Candidate) -> Rank
        ensures key { post self.now.key candidate.degree candidate.number result.key }
        ensures number { result.number ≡ candidate.number }
    {
        Rank {
            key: self.key(candidate.degree, candidate.number),
            number: candidate.number,
        }
    }

    /// The place of the candidate of least key, and of least number among those with that key. None exactly where there
    /// is no candidate.
    pub fn pick(&self, candidates: &[Candidate]) -> Option<usize>
        ensures { Picks (post self.now.key) candidates.now result }
    {
        let mut found = None;
        for i in 0..candidates.len() {
            found = self.rank(candidates[i]).or_found(i, found);
        }
        place_of(found)
    }
}
