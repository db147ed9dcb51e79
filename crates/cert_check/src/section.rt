//! The lines of a section: the distances from one point, each by an arc, and the look at all arcs.
ghost use Rattle.std.specs.Prelude.{◌≡◌, ◌<◌, ◌∷◌, [], pos, length, map, IfOk, Ok};
ghost use Rattle.stn_model.specs.Net.{point_count, arcs_of};
ghost use Rattle.cert_check.specs.Rows.{distance_to};
ghost use Rattle.cert_check.specs.Certificates.{point_in, sum_from, sum_along, sum_in, to_step, to_fields, to_line, after_section, holds_line, due_number, from_line, section_line};

use crate::numbers::{index_in, kept_as, number_below, number_in};
use crate::row::Row;
use crate::stage::Stage;
use crate::verdict::CertCause;
use crate::words::Word;
use std::alloc::Global;
use stn_model::{Constraint, Network, OutOfMemory};

/// A line of the section of a point, by its word and the fields after it.
pub fn section_line(
    net: &Network,
    from: u32,
    row: Row,
    word: Word,
    fields: &[&[u8]],
) -> Result<Stage, CertCause>
    requires one_each { length row ≡ point_count net.now }
    requires from_in { from < point_count net.now }
    ensures { result ≡ section_line net.now from row word (map (λ f. f.now) fields.now) }
{
    match word {
        Word::To => to_line(net, from, row, fields),
        Word::Holds => holds_line(net, from, row, fields),
        _ => Err(CertCause::UnknownWord),
    }
}

/// The section's first line, of the point that is due.
pub fn from_line(
    alloc: Global,
    net: &Network,
    next: u32,
    fields: &[&[u8]],
) -> Result<Result<Stage, CertCause>, OutOfMemory>
    requires { next < point_count net.now }
    ensures { IfOk result (λ step. step ≡ from_line net.now next (map (λ f. f.now) fields.now)) }
{
    if let Err(cause) = due_number(next, fields) {
        return Ok(Err(cause));
    }
    let row = Row::new(alloc, net.points(), next)?;
    Ok(Ok(Stage::Section { from: next, row }))
}

/// The number of a section's first line.
fn due_number(next: u32, fields: &[&[u8]]) -> Result<i64, CertCause>
    ensures { result ≡ due_number next (map (λ f. f.now) fields.now) }
{
    let [number] = fields else {
        return Err(CertCause::FieldCount);
    };
    let number = index_in(number)?;
    kept_as(i128::from(next), number)
}

/// A `to` line, by the fields after its word.
fn to_line(net: &Network, from: u32, row: Row, fields: &[&[u8]]) -> Result<Stage, CertCause>
    requires { length row ≡ point_count net.now }
    ensures { result ≡ to_line net.now from row (map (λ f. f.now) fields.now) }
{
    let [to, bound, arc] = fields else {
        return Err(CertCause::FieldCount);
    };
    to_fields(net, from, row, to, bound, arc)
}

/// A `to` line, by its three fields.
fn to_fields(
    net: &Network,
    from: u32,
    row: Row,
    to: &[u8],
    bound: &[u8],
    arc: &[u8],
) -> Result<Stage, CertCause>
    requires { length row ≡ point_count net.now }
    ensures { result ≡ to_fields net.now from row to.now bound.now arc.now }
{
    let to = index_in(to)?;
    let bound = number_in(bound)?;
    let arc = index_in(arc)?;
    to_step(net, from, row, to, bound, arc)
}

/// A `to` line, by its numbers.
fn to_step(
    net: &Network,
    from: u32,
    mut row: Row,
    to: i64,
    bound: i64,
    arc: i64,
) -> Result<Stage, CertCause>
    requires { length row ≡ point_count net.now }
    ensures { result ≡ to_step net.now from row to bound arc }
{
    let point = point_in(net, &row, to)?;
    let sum = sum_in(net, &row, point, arc)?;
    let distance = kept_as(sum, bound)?;
    row.give(point, distance);
    Ok(Stage::Section { from, row })
}

/// The point of that number, if it is one without a distance.
fn point_in(net: &Network, row: &Row, to: i64) -> Result<u32, CertCause>
    requires { length row.now ≡ point_count net.now }
    ensures is { result ≡ point_in net.now row.now to }
    ensures within { IfOk result (λ p. p < point_count net.now) }
{
    let Some(point) = number_below(net.points(), to) else {
        return Err(CertCause::AgainTo(to));
    };
    if row.distance(point).is_some() {
        return Err(CertCause::AgainTo(to));
    }
    Ok(point)
}

/// The distance that the arc of that number gives to a point.
fn sum_in(net: &Network, row: &Row, point: u32, number: i64) -> Result<i128, CertCause>
    requires { length row.now ≡ point_count net.now }
    ensures { result ≡ sum_in net.now row.now point number }
{
    let Some(n) = number_below(net.arcs(), number) else {
        return Err(CertCause::BadArc(number));
    };
    let arc = net.arc(n);
    sum_along(row, point, arc, number)
}

/// The distance that an arc, which has that number, gives to a point.
fn sum_along(row: &Row, point: u32, arc: Constraint, number: i64) -> Result<i128, CertCause>
    requires { arc.from.0 < length row.now }
    ensures { result ≡ sum_along row.now point arc number }
{
    if arc.to.0 != point {
        return Err(CertCause::BadArc(number));
    }
    sum_from(row.distance(arc.from.0), arc.bound, number)
}

/// A distance and the bound of an arc.
fn sum_from(distance: Option<i64>, bound: i64, number: i64) -> Result<i128, CertCause>
    ensures { result ≡ sum_from distance bound number }
{
    match distance {
        None => Err(CertCause::BadArc(number)),
        Some(distance) => Ok(i128::from(distance) + i128::from(bound)),
    }
}

/// The last line of a section.
fn holds_line(net: &Network, from: u32, row: Row, fields: &[&[u8]]) -> Result<Stage, CertCause>
    requires one_each { length row ≡ point_count net.now }
    requires from_in { from < point_count net.now }
    ensures { result ≡ holds_line net.now from row (map (λ f. f.now) fields.now) }
{
    if !fields.is_empty() {
        return Err(CertCause::FieldCount);
    }
    if let Some(point) = row.first_missing(net) {
        return Err(CertCause::MissingTo(point));
    }
    if let Some(arc) = row.first_broken(net) {
        return Err(CertCause::ArcFails(arc));
    }
    Ok(after_section(net, from))
}

/// After the section of a point.
fn after_section(net: &Network, from: u32) -> Stage
    requires { from < point_count net.now }
    ensures { result ≡ after_section net.now from }
{
    let points = net.points();
    let next = from + 1;
    if next < points {
        return Stage::FromDue(next);
    }
    Stage::EndDue { consistent: true }
}
