//! The normal form of a closed walk: it begins with its arc of least number.
ghost use Rattle.std.specs.Prelude.{◌≡◌, ◌<◌, ◌≤◌, length, IfOk, take, drop, ◌++◌, slice_index};
ghost use Rattle.std.specs.List.{All};

use std::alloc::Global;
use stn_model::OutOfMemory;

/// The first place of the least number.
pub(crate) fn place_of_least(numbers: &[u32]) -> usize
    requires { 0 < length numbers.now }
    ensures within { result < length numbers.now }
    ensures least { All (λ n. slice_index numbers.now result ≤ n) numbers.now }
{
    let mut place = 0;
    for i in 0..numbers.len() {
        if numbers[i] < numbers[place] {
            place = i;
        }
    }
    place
}

/// The list from a place on, and then its front.
pub(crate) fn turn(alloc: Global, numbers: &[u32], place: usize) -> Result<Vec<u32>, OutOfMemory>
    requires { place < length numbers.now }
    ensures { IfOk result (λ v. v.items ≡ drop place numbers.now ++ take place numbers.now) }
{
    let mut turned = Vec::with_capacity(alloc, numbers.len())?;
    turned.extend_from_slice(&numbers[place..])?;
    turned.extend_from_slice(&numbers[..place])?;
    Ok(turned)
}
