//! Walks: lists of arc numbers.
ghost use Rattle.std.specs.Prelude.{◌≡◌};

use std::marker::Model;

/// A list of arc numbers. It is a walk of a network where each number is that of an arc, and each
/// arc begins at the point where the one before it ends. Any list is allowed: whether it is a walk
/// is asked of [`weight`](crate::weight).
#[derive(Drop)]
pub struct Walk {
    arcs: Vec<u32>,
}

impl Model for Walk {
    ghost use Rattle.std.specs.Prelude.{List, ℕ};

    ghost Value = { List ℕ };

    ghost view = { λ w. w.arcs.items };
}

impl Walk {
    /// The walk of these arc numbers, in this order. It takes no memory.
    pub fn new(arcs: Vec<u32>) -> Self
        ensures { result ≡ arcs.items }
    {
        Walk { arcs }
    }

    /// The arc numbers, in order.
    pub fn arcs(&self) -> &[u32]
        ensures { result.now ≡ self.now }
    {
        self.arcs.as_slice()
    }
}
