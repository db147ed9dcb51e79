//! Schedules: one time for each point.
ghost use Rattle.std.specs.Prelude.{◌≡◌, SomeIff};
ghost use Rattle.std.specs.List.{All};
ghost use Rattle.stn_model.specs.Times.{IsTime};

use crate::limits::GREATEST_TIME;
use std::marker::Model;

/// A list of times, of magnitude at most 2^100, by the numbers of the points. It need not fit any network.
#[derive(Drop)]
pub struct Schedule {
    times: Vec<i128>,
}

impl Model for Schedule {
    ghost use Rattle.std.specs.Prelude.{List, ℤ};
    ghost use Rattle.std.specs.List.{All};
    ghost use Rattle.stn_model.specs.Times.{IsTime};

    ghost Value = { List ℤ };

    ghost view = { λ s. s.times.items };

    ghost invariant = { λ s. All IsTime s.times.items };
}

impl Schedule {
    /// The schedule of these times. None exactly where a time has magnitude above 2^100.
    pub fn new(times: Vec<i128>) -> Option<Self>
        ensures { SomeIff result (All IsTime times.items) times.items }
    {
        for time in &times {
            if *time < -GREATEST_TIME || *time > GREATEST_TIME {
                return None;
            }
        }
        Some(Schedule { times })
    }

    /// The times, in the order in which they were given.
    pub fn times(&self) -> &[i128]
        ensures value { result.now ≡ self.now }
        ensures range { All IsTime self.now }
    {
        self.times.as_slice()
    }
}
