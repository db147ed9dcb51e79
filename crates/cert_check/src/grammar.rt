//! What the lines of a certificate do.
ghost use Rattle.std.specs.Prelude.{◌≡◌, ◌<◌, ◌∷◌, false, map, length, IfOk};
ghost use Rattle.stn_model.specs.Net.{point_count};
ghost use Rattle.net_text.specs.Fields.{fields};
ghost use Rattle.cert_check.specs.Certificates.{alone, consistent_line, headed_line, due_line, cycle_due_line, end_due_line, line_after, line_by_word, header, first_line, is_start, is_ended, is_cycle_due, fields_do, line_does, IsStage};

use crate::cycle::cycle_line;
use crate::field::{Few, take_field};
use crate::numbers::{kept_as, number_in};
use crate::section::{from_line, section_line};
use crate::stage::Stage;
use crate::verdict::CertCause;
use crate::words::{Word, word_of};
use net_text::lines::{is_skipped, is_text};
use std::alloc::Global;
use stn_model::{Network, OutOfMemory};

/// A line of its word alone.
fn alone(next: Stage, fields: &[&[u8]]) -> Result<Stage, CertCause>
    ensures { result ≡ alone next (map (λ f. f.now) fields.now) }
{
    if !fields.is_empty() {
        return Err(CertCause::FieldCount);
    }
    Ok(next)
}

/// The line after the header, where the certificate is of a consistent network.
fn consistent_line(net: &Network, fields: &[&[u8]]) -> Result<Stage, CertCause>
    ensures { result ≡ consistent_line net.now (map (λ f. f.now) fields.now) }
{
    let [points] = fields else {
        return Err(CertCause::FieldCount);
    };
    let points = number_in(points)?;
    let _points = kept_as(i128::from(net.points()), points)?;
    Ok(Stage::FromDue(0))
}

/// The line after the header, by its word and the fields after it.
fn headed_line(net: &Network, word: Word, fields: &[&[u8]]) -> Result<Stage, CertCause>
    ensures { result ≡ headed_line net.now word (map (λ f. f.now) fields.now) }
{
    match word {
        Word::Consistent => consistent_line(net, fields),
        Word::Inconsistent => alone(Stage::CycleDue, fields),
        _ => Err(CertCause::UnknownWord),
    }
}

/// A line where a section is due.
fn due_line(
    alloc: Global,
    net: &Network,
    next: u32,
    word: Word,
    fields: &[&[u8]],
) -> Result<Result<Stage, CertCause>, OutOfMemory>
    requires { next < point_count net.now }
    ensures { IfOk result (λ step. step ≡ due_line net.now next word (map (λ f. f.now) fields.now)) }
{
    match word {
        Word::From => from_line(alloc, net, next, fields),
        _ => Ok(Err(CertCause::UnknownWord)),
    }
}

/// A line where the cycle is due, by its word and what follows it.
fn cycle_due_line(
    alloc: Global,
    net: &Network,
    word: Word,
    rest: &[u8],
) -> Result<Result<Stage, CertCause>, OutOfMemory>
    ensures { IfOk result (λ step. step ≡ cycle_due_line net.now word (fields rest.now)) }
{
    match word {
        Word::Cycle => cycle_line(alloc, net, rest),
        _ => Ok(Err(CertCause::UnknownWord)),
    }
}

/// A line where the `end` line is due.
fn end_due_line(consistent: bool, word: Word, fields: &[&[u8]]) -> Result<Stage, CertCause>
    ensures { result ≡ end_due_line consistent word (map (λ f. f.now) fields.now) }
{
    match word {
        Word::End => alone(Stage::Ended { consistent }, fields),
        _ => Err(CertCause::UnknownWord),
    }
}

/// A line after the header where no cycle is due, by its word and the fields after it.
fn few_after(
    alloc: Global,
    net: &Network,
    stage: Stage,
    word: Word,
    fields: &[&[u8]],
) -> Result<Result<Stage, CertCause>, OutOfMemory>
    requires stage { IsStage net.now stage }
    requires other { is_cycle_due stage ≡ false }
    ensures { IfOk result (λ step. step ≡ line_after net.now stage word (map (λ f. f.now) fields.now)) }
{
    match stage {
        Stage::Start => Ok(Err(CertCause::NoHeader)),
        Stage::Headed => Ok(headed_line(net, word, fields)),
        Stage::FromDue(next) => due_line(alloc, net, next, word, fields),
        Stage::Section { from, row } => Ok(section_line(net, from, row, word, fields)),
        Stage::CycleDue => Ok(Err(CertCause::UnknownWord)),
        Stage::EndDue { consistent } => Ok(end_due_line(consistent, word, fields)),
        Stage::Ended { .. } => Ok(Err(CertCause::AfterEnd)),
    }
}

/// A line after the header, by its word and what follows it.
fn line_after(
    alloc: Global,
    net: &Network,
    stage: Stage,
    word: Word,
    rest: &[u8],
) -> Result<Result<Stage, CertCause>, OutOfMemory>
    requires { IsStage net.now stage }
    ensures { IfOk result (λ step. step ≡ line_after net.now stage word (fields rest.now)) }
{
    if is_cycle_due(&stage) {
        let step = cycle_due_line(alloc, net, word, rest)?;
        return Ok(step);
    }
    let few = Few::of(rest);
    let step = few_after(alloc, net, stage, word, few.fields())?;
    Ok(step)
}

/// The first line, after its first field.
fn header(fields: &[&[u8]]) -> Result<Stage, CertCause>
    ensures { result ≡ header (map (λ f. f.now) fields.now) }
{
    let [version] = fields else {
        return Err(CertCause::FieldCount);
    };
    if *version == b"1".as_slice() {
        return Ok(Stage::Headed);
    }
    Err(CertCause::Version)
}

/// The first line, by its first field and what follows it.
fn first_line(first: &[u8], rest: &[u8]) -> Result<Stage, CertCause>
    ensures { result ≡ first_line first.now (fields rest.now) }
{
    if first == b"mastncert".as_slice() {
        let few = Few::of(rest);
        return header(few.fields());
    }
    Err(CertCause::NoHeader)
}

/// Whether no line was read.
fn is_start(stage: &Stage) -> bool
    ensures { result ≡ is_start stage.now }
{
    match stage {
        Stage::Start => true,
        _ => false,
    }
}

/// Whether the cycle is due.
fn is_cycle_due(stage: &Stage) -> bool
    ensures { result ≡ is_cycle_due stage.now }
{
    match stage {
        Stage::CycleDue => true,
        _ => false,
    }
}

/// Whether the `end` line was read.
fn is_ended(stage: &Stage) -> bool
    ensures { result ≡ is_ended stage.now }
{
    match stage {
        Stage::Ended { .. } => true,
        _ => false,
    }
}

/// A line by its first field and what follows it.
fn fields_do(
    alloc: Global,
    net: &Network,
    stage: Stage,
    first: &[u8],
    rest: &[u8],
) -> Result<Result<Stage, CertCause>, OutOfMemory>
    requires { IsStage net.now stage }
    ensures { IfOk result (λ step. step ≡ fields_do net.now stage (first.now ∷ fields rest.now)) }
{
    if is_start(&stage) {
        return Ok(first_line(first, rest));
    }
    match word_of(first) {
        None => Ok(Err(CertCause::UnknownWord)),
        Some(word) => line_after(alloc, net, stage, word, rest),
    }
}

/// What a line does.
pub fn line_does(
    alloc: Global,
    net: &Network,
    stage: Stage,
    text: &[u8],
) -> Result<Result<Stage, CertCause>, OutOfMemory>
    requires { IsStage net.now stage }
    ensures { IfOk result (λ step. step ≡ line_does net.now stage text.now) }
{
    if is_skipped(text) {
        return Ok(Ok(stage));
    }
    if is_ended(&stage) {
        return Ok(Err(CertCause::AfterEnd));
    }
    if !is_text(text) {
        return Ok(Err(CertCause::NotText));
    }
    let Some(first) = take_field(text) else {
        return Ok(Ok(stage));
    };
    let step = fields_do(alloc, net, stage, first.text, first.rest)?;
    Ok(step)
}
