//! Numbers drawn one after another: a multiplicative congruential generator (Lehmer 1951) with the
//! modulus 2^31 - 1 and the multiplier 48271 (Park, Miller and Stockmeyer 1993).
ghost use Rattle.std.specs.Prelude.{◌≡◌, ◌+◌, ◌-◌, ◌^◌, ◌<◌};
ghost use Rattle.net_gen.specs.Draws.{drawn};

use std::marker::Model;

const MULTIPLIER: u64 = 48271;

const MODULUS: u64 = 2147483647;

/// The draws of one number, seen as the number and how many draws were made.
#[derive(Drop)]
pub struct Draws {
    number: u32,
    count: u64,
    value: u64,
}

impl Model for Draws {
    ghost use Rattle.std.specs.Prelude.{◌≡◌, ◌≤◌};
    ghost use Rattle.net_gen.specs.Draws.{DrawState, value_after};

    ghost Value = { DrawState };

    ghost view = { λ d. record { number = d.number; count = d.count } };

    ghost invariant = { λ d. (d.value ≡ value_after d.number d.count) × (d.value ≤ 4294967296) };
}

impl Draws {
    /// The draws of this number, of which none was made.
    pub fn new(number: u32) -> Self
        ensures { result ≡ record { number = number; count = 0 } }
    {
        Draws {
            number,
            count: 0,
            value: u64::from(number) + 1,
        }
    }

    /// The next draw, which is below `below`.
    pub fn draw(&mut self, below: u32) -> u32
        requires some { 0 < below }
        requires room { self.old.count < 2 ^ 64 - 1 }
        ensures drawn { result ≡ drawn self.old.number (self.old.count + 1) below }
        ensures small { result < below }
        ensures counted { self.new ≡ record self.old { count = self.old.count + 1 } }
    {
        self.value = MULTIPLIER * self.value % MODULUS;
        self.count += 1;
        (self.value % u64::from(below)) as u32
    }
}
