//! The distances from one point.
ghost use Rattle.std.specs.Prelude.{◌≡◌, ◌<◌, ◌+ℤ◌, int_lt, Some, IfOk, length, set};
ghost use Rattle.std.specs.List.{position};
ghost use Rattle.stn_model.specs.Net.{point_count, arcs_of};
ghost use Rattle.cert_check.specs.Rows.{distance_to, first_row, is_missing, exceeds, is_broken};

use std::alloc::Global;
use std::marker::Model;
use stn_model::{Constraint, Network, OutOfMemory};

/// For each point its distance from one point, in the network's unit of time, where it has one already.
#[derive(Drop)]
pub struct Row {
    distances: Vec<Option<i64>>,
}

impl Model for Row {
    ghost use Rattle.std.specs.Prelude.{List, ℤ, Option};

    ghost Value = { List (Option ℤ) };

    ghost view = { λ r. r.distances.items };
}

impl Row {
    /// The row of so many points, of which that one has the distance 0 and no other has one.
    pub fn new(alloc: Global, points: u32, from: u32) -> Result<Self, OutOfMemory>
        requires { from < points }
        ensures { IfOk result (λ r. r ≡ first_row points from) }
    {
        let mut distances = Vec::with_capacity(alloc, points as usize)?;
        for _point in 0..points {
            distances.push(None)?;
        }
        distances[from as usize] = Some(0);
        Ok(Row { distances })
    }

    /// The distance of a point, if it has one.
    pub fn distance(&self, p: u32) -> Option<i64>
        requires { p < length self.now }
        ensures { result ≡ distance_to self.now p }
    {
        self.distances[p as usize]
    }

    /// Gives a point its distance.
    pub fn give(&mut self, p: u32, distance: i64)
        requires { p < length self.old }
        ensures { self.new ≡ set self.old p (Some distance) }
    {
        self.distances[p as usize] = Some(distance);
    }

    /// The least point without a distance.
    pub fn first_missing(&self, net: &Network) -> Option<u32>
        requires { length self.now ≡ point_count net.now }
        ensures { result ≡ position is_missing self.now }
    {
        for p in 0..net.points() {
            if self.distance(p).is_none() {
                return Some(p);
            }
        }
        None
    }

    /// The least arc whose end has a distance that is more than that of its beginning and its bound.
    pub fn first_broken(&self, net: &Network) -> Option<u32>
        requires { length self.now ≡ point_count net.now }
        ensures { result ≡ position (is_broken self.now) (arcs_of net.now) }
    {
        for n in 0..net.arcs() {
            if self.breaks(net.arc(n)) {
                return Some(n);
            }
        }
        None
    }

    /// Whether the arc's end has a distance that is more than that of its beginning and its bound.
    fn breaks(&self, arc: Constraint) -> bool
        requires from_in { arc.from.0 < length self.now }
        requires to_in { arc.to.0 < length self.now }
        ensures { result ≡ is_broken self.now arc }
    {
        exceeds(
            self.distance(arc.from.0),
            arc.bound,
            self.distance(arc.to.0),
        )
    }
}

/// Whether one of two distances is more than the other and a bound.
fn exceeds(less: Option<i64>, bound: i64, more: Option<i64>) -> bool
    ensures { result ≡ exceeds less bound more }
{
    let Some(less) = less else {
        return false;
    };
    let Some(more) = more else {
        return false;
    };
    is_more(less, bound, more)
}

/// Whether one number is more than another and a bound.
fn is_more(less: i64, bound: i64, more: i64) -> bool
    ensures { result ≡ int_lt (less +ℤ bound) more }
{
    i128::from(less) + i128::from(bound) < i128::from(more)
}
