//! The numbers in the network of arcs of a local problem.
ghost use Rattle.std.specs.Prelude.{◌≡◌, ◌<◌, true, map, length, IfOk};
ghost use Rattle.std.specs.List.{All};
ghost use Rattle.private_elim.specs.Locals.{all_numbered};
ghost use Rattle.private_elim.specs.Numbers.{number_in};

use crate::local::Local;
use std::alloc::Global;
use stn_model::OutOfMemory;

/// The numbers in the network of the arcs at these places, or OutOfMemory.
pub(crate) fn numbers_of(
    alloc: Global,
    local: &Local,
    places: &[u32],
) -> Result<Vec<u32>, OutOfMemory>
    requires numbered { all_numbered local.now.arcs ≡ true }
    requires within { All (λ k. k < length local.now.arcs) places.now }
    ensures { IfOk result (λ ns. ns.items ≡ map (number_in local.now) places.now) }
{
    let mut numbers = Vec::with_capacity(alloc, places.len())?;
    for &place in places {
        numbers.push_reserved(number_at(local, place));
    }
    Ok(numbers)
}

// The number of the arc at a place.
fn number_at(local: &Local, place: u32) -> u32
    requires numbered { all_numbered local.now.arcs ≡ true }
    requires within { place < length local.now.arcs }
    ensures { result ≡ number_in local.now place }
{
    let Some(number) = local.arc(place).number else {
        unreachable!()
    };
    number
}
