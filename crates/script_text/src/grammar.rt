//! The lines of scripts, by their words and fields.
ghost use Rattle.std.specs.Prelude.{◌≡◌, map};
ghost use Rattle.script_text.specs.Lines.{number_in, arc_number_in, point_in, arc_allowed, arc_in, alone, prove_between, prove_line, free_point_in, choose_at, choose_line, withdraw_line, advance_line, do_line, arc_line, tighten_line, batch_arc_line, line_outside, line_inside, line_of, line_in};

use crate::line::Line;
use crate::words::{Word, word_of};
use net_text::TextCause;
use net_text::arcs::{arc_between, is_beyond};
use net_text::fields::first_fields;
use net_text::lines::{is_skipped, is_text};
use net_text::numbers::number_of;
use stn_model::{Constraint, Network, PointId};

/// One field more than the longest line has.
const MOST_FIELDS: usize = 5;

/// The number of a field.
fn number_in(field: &[u8]) -> Result<i64, TextCause>
    ensures { result ≡ number_in field.now }
{
    match number_of(field) {
        None => Err(TextCause::NumberBad),
        Some(number) => Ok(number),
    }
}

/// The point that a field names.
fn point_in(net: &Network, field: &[u8]) -> Result<PointId, TextCause>
    ensures { result ≡ point_in net.now field.now }
{
    match net.find(field) {
        None => Err(TextCause::NameUnknown),
        Some(point) => Ok(point),
    }
}

/// The number of a field that stands for an arc: from 0 on, and below 2^32.
fn arc_number_in(field: &[u8]) -> Result<u32, TextCause>
    ensures { result ≡ arc_number_in field.now }
{
    let number = number_in(field)?;
    if number < 0 || number > i64::from(u32::MAX) {
        return Err(TextCause::NumberBad);
    }
    Ok(number as u32)
}

/// The arc of these ends, whose bound is in range.
fn arc_allowed(bound: i64, from: PointId, to: PointId) -> Result<Constraint, TextCause>
    ensures { result ≡ arc_allowed bound from to }
{
    if from.0 == to.0 {
        return Err(TextCause::SamePoint);
    }
    if is_beyond(bound) {
        return Err(TextCause::BoundRange);
    }
    Ok(arc_between(from, to, bound))
}

/// The arc of three fields.
fn arc_in(net: &Network, from: &[u8], to: &[u8], bound: &[u8]) -> Result<Constraint, TextCause>
    ensures { result ≡ arc_in net.now from.now to.now bound.now }
{
    let bound = number_in(bound)?;
    let from = point_in(net, from)?;
    let to = point_in(net, to)?;
    arc_allowed(bound, from, to)
}

/// A line of its word alone.
fn alone(line: Line, fields: &[&[u8]]) -> Result<Line, TextCause>
    ensures { result ≡ alone line (map (λ f. f.now) fields.now) }
{
    if !fields.is_empty() {
        return Err(TextCause::FieldCount);
    }
    Ok(line)
}

/// A `prove` line of two points.
fn prove_between(net: &Network, from: &[u8], to: &[u8]) -> Result<Line, TextCause>
    ensures { result ≡ prove_between net.now from.now to.now }
{
    let from = point_in(net, from)?;
    let to = point_in(net, to)?;
    if from.0 == to.0 {
        return Err(TextCause::SamePoint);
    }
    Ok(Line::Prove { from, to })
}

/// A `prove` line, by the fields after its word.
fn prove_line(net: &Network, fields: &[&[u8]]) -> Result<Line, TextCause>
    ensures { result ≡ prove_line net.now (map (λ f. f.now) fields.now) }
{
    let [from, to] = fields else {
        return Err(TextCause::FieldCount);
    };
    prove_between(net, from, to)
}

/// The point of a field, which is not the reference point.
fn free_point_in(net: &Network, field: &[u8]) -> Result<PointId, TextCause>
    ensures { result ≡ free_point_in net.now field.now }
{
    let point = point_in(net, field)?;
    if point.0 == 0 {
        return Err(TextCause::ReferencePoint);
    }
    Ok(point)
}

/// A `choose` line of a point and a time.
fn choose_at(net: &Network, point: &[u8], time: &[u8]) -> Result<Line, TextCause>
    ensures { result ≡ choose_at net.now point.now time.now }
{
    let time = number_in(time)?;
    let point = free_point_in(net, point)?;
    Ok(Line::Choose {
        point,
        time: i128::from(time),
    })
}

/// A `choose` line, by the fields after its word.
fn choose_line(net: &Network, fields: &[&[u8]]) -> Result<Line, TextCause>
    ensures { result ≡ choose_line net.now (map (λ f. f.now) fields.now) }
{
    let [point, time] = fields else {
        return Err(TextCause::FieldCount);
    };
    choose_at(net, point, time)
}

/// A `withdraw` line, by the fields after its word.
fn withdraw_line(fields: &[&[u8]]) -> Result<Line, TextCause>
    ensures { result ≡ withdraw_line (map (λ f. f.now) fields.now) }
{
    let [number] = fields else {
        return Err(TextCause::FieldCount);
    };
    let arc = arc_number_in(number)?;
    Ok(Line::Withdraw { arc })
}

/// An `advance` line, by the fields after its word.
fn advance_line(fields: &[&[u8]]) -> Result<Line, TextCause>
    ensures { result ≡ advance_line (map (λ f. f.now) fields.now) }
{
    let [time] = fields else {
        return Err(TextCause::FieldCount);
    };
    let time = number_in(time)?;
    Ok(Line::Advance {
        time: i128::from(time),
    })
}

/// A `do` line, by the fields after its word.
fn do_line(net: &Network, fields: &[&[u8]]) -> Result<Line, TextCause>
    ensures { result ≡ do_line net.now (map (λ f. f.now) fields.now) }
{
    let [point] = fields else {
        return Err(TextCause::FieldCount);
    };
    let point = free_point_in(net, point)?;
    Ok(Line::Do { point })
}

/// The arc of a line, by the fields after its word.
fn arc_line(net: &Network, fields: &[&[u8]]) -> Result<Constraint, TextCause>
    ensures { result ≡ arc_line net.now (map (λ f. f.now) fields.now) }
{
    let [from, to, bound] = fields else {
        return Err(TextCause::FieldCount);
    };
    arc_in(net, from, to, bound)
}

/// A `tighten` line, by the fields after its word.
fn tighten_line(net: &Network, fields: &[&[u8]]) -> Result<Line, TextCause>
    ensures { result ≡ tighten_line net.now (map (λ f. f.now) fields.now) }
{
    let arc = arc_line(net, fields)?;
    Ok(Line::Tighten { arc })
}

/// An `arc` line, by the fields after its word.
fn batch_arc_line(net: &Network, fields: &[&[u8]]) -> Result<Line, TextCause>
    ensures { result ≡ batch_arc_line net.now (map (λ f. f.now) fields.now) }
{
    let arc = arc_line(net, fields)?;
    Ok(Line::BatchArc { arc })
}

/// A line outside a batch, by its word and the fields after it.
fn line_outside(net: &Network, word: Word, fields: &[&[u8]]) -> Result<Line, TextCause>
    ensures { result ≡ line_outside net.now word (map (λ f. f.now) fields.now) }
{
    match word {
        Word::Bounds => alone(Line::Bounds, fields),
        Word::Windows => alone(Line::Windows, fields),
        Word::Prove => prove_line(net, fields),
        Word::Tighten => tighten_line(net, fields),
        Word::Batch => alone(Line::BeginBatch, fields),
        Word::Arc | Word::Close => Err(TextCause::UnknownWord),
        Word::Withdraw => withdraw_line(fields),
        Word::Decouple => alone(Line::Decouple, fields),
        Word::Choose => choose_line(net, fields),
        Word::Execute => alone(Line::Execute, fields),
        Word::Advance => advance_line(fields),
        Word::Do => do_line(net, fields),
        Word::Schedule => alone(Line::Schedule, fields),
        Word::Done => alone(Line::Done, fields),
    }
}

/// A line in a batch, by its word and the fields after it.
fn line_inside(net: &Network, word: Word, fields: &[&[u8]]) -> Result<Line, TextCause>
    ensures { result ≡ line_inside net.now word (map (λ f. f.now) fields.now) }
{
    match word {
        Word::Arc => batch_arc_line(net, fields),
        Word::Close => alone(Line::CloseBatch, fields),
        _ => Err(TextCause::BatchOpen),
    }
}

/// What a line asks for, by its fields; `inside` says whether a batch is begun.
fn line_of(net: &Network, inside: bool, fields: &[&[u8]]) -> Result<Line, TextCause>
    ensures { result ≡ line_of net.now inside (map (λ f. f.now) fields.now) }
{
    let [first, rest @ ..] = fields else {
        return Ok(Line::Nothing);
    };
    match (word_of(first), inside) {
        (None, false) => Err(TextCause::UnknownWord),
        (None, true) => Err(TextCause::BatchOpen),
        (Some(word), false) => line_outside(net, word, rest),
        (Some(word), true) => line_inside(net, word, rest),
    }
}

/// What a line asks for; `inside` says whether a batch is begun. A blank line and a comment ask for nothing.
pub fn line_in(net: &Network, inside: bool, text: &[u8]) -> Result<Line, TextCause>
    ensures { result ≡ line_in net.now inside text.now }
{
    if is_skipped(text) {
        return Ok(Line::Nothing);
    }
    if !is_text(text) {
        return Err(TextCause::NotText);
    }
    let mut fields = [b"".as_slice(); MOST_FIELDS];
    let count = first_fields(text, &mut fields);
    line_of(net, inside, &fields[..count])
}
