//! The line of a negative cycle.
ghost use Rattle.std.specs.Prelude.{◌≡◌, false, Some, IfOk, MatchOption};
ghost use Rattle.std.specs.List.{list_all};
ghost use Rattle.stn_model.specs.Net.{arcs_of};
ghost use Rattle.net_text.specs.Fields.{fields};
ghost use Rattle.cert_check.specs.Cycles.{is_normal, is_cycle};
ghost use Rattle.cert_check.specs.Certificates.{is_index, arc_number, arc_numbers, writes_cycle, cycle_line};

use crate::field::{has_two, take_field};
use crate::numbers::{index_in, number_below};
use crate::stage::Stage;
use crate::verdict::CertCause;
use net_text::numbers::number_of;
use std::alloc::Global;
use stn_model::{Network, OutOfMemory};
use stn_walk::{Walk, is_negative_cycle};

/// A `cycle` line, by what follows its word.
pub fn cycle_line(
    alloc: Global,
    net: &Network,
    rest: &[u8],
) -> Result<Result<Stage, CertCause>, OutOfMemory>
    ensures { IfOk result (λ step. step ≡ cycle_line net.now (fields rest.now)) }
{
    if !has_two(rest) {
        return Ok(Err(CertCause::FieldCount));
    }
    if !are_indexes(rest) {
        return Ok(Err(CertCause::NumberBad));
    }
    if !writes_cycle(alloc, net, rest)? {
        return Ok(Err(CertCause::BadCycle));
    }
    Ok(Ok(Stage::EndDue { consistent: false }))
}

/// Whether each field writes a number that may stand for a point or an arc.
fn are_indexes(line: &[u8]) -> bool
    ensures { result ≡ list_all is_index (fields line.now) }
{
    let mut rest = line;
    while let Some(field) = take_field(rest) {
        if !is_index(field.text) {
            return false;
        }
        rest = field.rest;
    }
    true
}

/// Whether the field writes a number that may stand for a point or an arc.
fn is_index(field: &[u8]) -> bool
    ensures { result ≡ is_index field.now }
{
    index_in(field).is_ok()
}

/// Whether the fields write a negative cycle in normal form.
fn writes_cycle(alloc: Global, net: &Network, line: &[u8]) -> Result<bool, OutOfMemory>
    ensures { IfOk result (λ b. b ≡ writes_cycle net.now (fields line.now)) }
{
    match arc_numbers(alloc, net, line)? {
        None => Ok(false),
        Some(numbers) => Ok(is_cycle(net, numbers)),
    }
}

/// The arcs' numbers that fields write, or None where one is no such number or there are more than a cycle has.
fn arc_numbers(alloc: Global, net: &Network, line: &[u8]) -> Result<Option<Vec<u32>>, OutOfMemory>
    ensures { IfOk result (λ found. MatchOption found (writes_cycle net.now (fields line.now) ≡ false)
        (λ numbers. arc_numbers net.now (fields line.now) ≡ Some numbers.items)) }
{
    let most = net.points() as usize;
    let mut numbers = Vec::new(alloc);
    let mut rest = line;
    while let Some(field) = take_field(rest) {
        let Some(number) = arc_number(net, field.text) else {
            return Ok(None);
        };
        if numbers.len() >= most {
            return Ok(None);
        }
        numbers.push(number)?;
        rest = field.rest;
    }
    Ok(Some(numbers))
}

/// The arc's number that a field writes, if it is one.
fn arc_number(net: &Network, field: &[u8]) -> Option<u32>
    ensures { result ≡ arc_number net.now field.now }
{
    match number_of(field) {
        None => None,
        Some(number) => number_below(net.arcs(), number),
    }
}

/// Whether the numbers are those of a negative cycle in normal form.
fn is_cycle(net: &Network, numbers: Vec<u32>) -> bool
    ensures { result ≡ is_cycle (arcs_of net.now) numbers.items }
{
    is_normal(numbers.as_slice()) && is_negative_cycle(net, &Walk::new(numbers))
}

/// Whether the first number is the least.
fn is_normal(numbers: &[u32]) -> bool
    ensures { result ≡ is_normal numbers.now }
{
    for number in numbers {
        if *number < numbers[0] {
            return false;
        }
    }
    true
}
