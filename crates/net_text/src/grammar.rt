//! What the lines of a network text do, by the fields after their word.
ghost use Rattle.std.specs.Prelude.{◌≡◌, ◌∷◌, [], true, map, length, IfOk, MatchOption};
ghost use Rattle.net_text.specs.Networks.{read_horizon, read_agent, read_point, read_act, read_bound, read_arc, read_header, counts, header_line, headed, opening_line, network_line, line_in_network, fields_do, line_does, building};
ghost use Rattle.net_text.specs.Adding.{Adds, Finishes, Takes, TakesIn};
ghost use Rattle.net_text.specs.Versions.{word_in};
ghost use Rattle.net_text.specs.Lines.{lines};
ghost use Rattle.net_text.specs.Scans.{IsStep};

use crate::cause::TextCause;
use crate::entries::{add_act, add_agent, add_arc, add_bound, add_point};
use crate::fields::first_fields;
use crate::given::{given_agent, given_lean, given_number, given_point};
use crate::lines::{Lines, is_skipped, is_text};
use crate::numbers::number_of;
use crate::refusal::Refusal;
use crate::stage::{Next, Stage};
use crate::version::{Version, version_of, word_in};
use crate::words::Word;
use std::alloc::Global;
use stn_model::{Lean, Network, OutOfMemory};

/// One field more than the longest line has.
const MOST_FIELDS: usize = 6;

/// A line that adds an agent. It leans early where the line says nothing of it.
fn agent_line(alloc: Global, net: &mut Network, fields: &[&[u8]]) -> Result<(), Refusal>
    ensures { Adds (read_agent net.old (map (λ f. f.now) fields.now)) result net.new }
{
    match fields {
        [name] => add_agent(alloc, net, name, Lean::Early),
        [name, lean] => {
            let lean = given_lean(lean)?;
            add_agent(alloc, net, name, lean)
        }
        _ => Err(Refusal::Fails(TextCause::FieldCount)),
    }
}

/// A line that adds a point.
fn point_line(
    alloc: Global,
    version: Version,
    net: &mut Network,
    fields: &[&[u8]],
) -> Result<(), Refusal>
    ensures { Adds (read_point version net.old (map (λ f. f.now) fields.now)) result net.new }
{
    let [agent, name] = fields else {
        return Err(Refusal::Fails(TextCause::FieldCount));
    };
    let agent = given_agent(net, agent)?;
    add_point(alloc, version, net, agent, name)
}

/// A line that adds an act.
fn act_line(alloc: Global, net: &mut Network, fields: &[&[u8]]) -> Result<(), Refusal>
    ensures { Adds (read_act net.old (map (λ f. f.now) fields.now)) result net.new }
{
    let [agent, name, low, high] = fields else {
        return Err(Refusal::Fails(TextCause::FieldCount));
    };
    let low = given_number(low)?;
    let high = given_number(high)?;
    let agent = given_agent(net, agent)?;
    add_act(alloc, net, agent, name, low, high)
}

/// A line that adds an arc and the arc back.
fn bound_line(net: &mut Network, fields: &[&[u8]]) -> Result<(), Refusal>
    ensures { Adds (read_bound net.old (map (λ f. f.now) fields.now)) result net.new }
{
    let [from, to, low, high] = fields else {
        return Err(Refusal::Fails(TextCause::FieldCount));
    };
    let low = given_number(low)?;
    let high = given_number(high)?;
    let from = given_point(net, from)?;
    let to = given_point(net, to)?;
    add_bound(net, from, to, low, high)
}

/// A line that adds an arc.
fn arc_line(net: &mut Network, fields: &[&[u8]]) -> Result<(), Refusal>
    ensures { Adds (read_arc net.old (map (λ f. f.now) fields.now)) result net.new }
{
    let [from, to, bound] = fields else {
        return Err(Refusal::Fails(TextCause::FieldCount));
    };
    let bound = given_number(bound)?;
    let from = given_point(net, from)?;
    let to = given_point(net, to)?;
    add_arc(net, from, to, bound)
}

/// What comes of a line that added something, or was refused.
fn finish(added: Result<(), Refusal>) -> Result<Next, OutOfMemory>
    ensures { IfOk result (λ next. Finishes added next) }
{
    match added {
        Ok(()) => Ok(Next::Goes),
        Err(Refusal::Fails(cause)) => Ok(Next::Fails(cause)),
        Err(Refusal::OutOfMemory) => Err(OutOfMemory),
    }
}

/// A line of a network whose horizon is read, by its word. The fields after it are as many as it asks for.
fn word_line(
    alloc: Global,
    version: Version,
    net: &mut Network,
    word: Word,
    fields: &[&[u8]],
) -> Result<Next, OutOfMemory>
    ensures { IfOk result (λ next. TakesIn version next net.new (line_in_network version net.old word (map (λ f. f.now) fields.now))) }
{
    match word {
        Word::Horizon => Ok(Next::Fails(TextCause::SecondHorizon)),
        Word::Agent => {
            let added = agent_line(alloc, net, fields);
            finish(added)
        }
        Word::Point => {
            let added = point_line(alloc, version, net, fields);
            finish(added)
        }
        Word::Act => {
            let added = act_line(alloc, net, fields);
            finish(added)
        }
        Word::Bound => {
            let added = bound_line(net, fields);
            finish(added)
        }
        Word::Arc => {
            let added = arc_line(net, fields);
            finish(added)
        }
        Word::End => Ok(Next::Ends),
    }
}

/// A line of a network whose horizon is read, by its first field and the others.
fn network_line(
    alloc: Global,
    version: Version,
    net: &mut Network,
    first: &[u8],
    fields: &[&[u8]],
) -> Result<Next, OutOfMemory>
    ensures { IfOk result (λ next. TakesIn version next net.new (network_line version net.old (word_in version first.now) (map (λ f. f.now) fields.now))) }
{
    let Some(word) = word_in(version, first) else {
        return Ok(Next::Fails(TextCause::UnknownWord));
    };
    if !counts(word, fields.len()) {
        return Ok(Next::Fails(TextCause::FieldCount));
    }
    word_line(alloc, version, net, word, fields)
}

/// The network of a line between the header and the horizon, by its first field and the others.
fn opening_line(
    alloc: Global,
    version: Version,
    first: &[u8],
    fields: &[&[u8]],
) -> Result<Network, TextCause>
    ensures { result ≡ opening_line (word_in version first.now) (map (λ f. f.now) fields.now) }
{
    let Some(word) = word_in(version, first) else {
        return Err(TextCause::UnknownWord);
    };
    if !counts(word, fields.len()) {
        return Err(TextCause::FieldCount);
    }
    match word {
        Word::Horizon => horizon_line(alloc, fields),
        _ => Err(TextCause::NoHorizon),
    }
}

/// The network of the horizon line.
fn horizon_line(alloc: Global, fields: &[&[u8]]) -> Result<Network, TextCause>
    ensures { result ≡ read_horizon (map (λ f. f.now) fields.now) }
{
    let [horizon] = fields else {
        return Err(TextCause::FieldCount);
    };
    let Some(horizon) = number_of(horizon) else {
        return Err(TextCause::NumberBad);
    };
    let Ok(net) = Network::new(alloc, horizon) else {
        return Err(TextCause::HorizonRange);
    };
    Ok(net)
}

/// The version of a header, by the fields after its first.
fn header(fields: &[&[u8]]) -> Result<Version, TextCause>
    ensures { result ≡ read_header (map (λ f. f.now) fields.now) }
{
    let [version] = fields else {
        return Err(TextCause::FieldCount);
    };
    let Some(version) = version_of(version) else {
        return Err(TextCause::Version);
    };
    Ok(version)
}

/// The version that the first line names, by its first field and the others.
fn header_line(first: &[u8], fields: &[&[u8]]) -> Result<Version, TextCause>
    ensures { result ≡ header_line first.now (map (λ f. f.now) fields.now) }
{
    if first == b"mastn".as_slice() {
        return header(fields);
    }
    Err(TextCause::NoHeader)
}

/// Whether so many fields stand after the word.
fn counts(word: Word, fields: usize) -> bool
    ensures { result ≡ counts word fields }
{
    match word {
        Word::Horizon => fields == 1,
        Word::Agent => fields == 1 || fields == 2,
        Word::Point => fields == 2,
        Word::Act => fields == 4,
        Word::Bound => fields == 4,
        Word::Arc => fields == 3,
        Word::End => fields == 0,
    }
}

/// Takes the first line.
fn take_header(stage: &mut Stage, first: &[u8], fields: &[&[u8]]) -> Next
    ensures { Takes result stage.new (headed (header_line first.now (map (λ f. f.now) fields.now))) }
{
    match header_line(first, fields) {
        Ok(version) => {
            *stage = Stage::Headed(version);
            Next::Goes
        }
        Err(cause) => Next::Fails(cause),
    }
}

/// Takes a line between the header and the horizon.
fn take_opening(
    alloc: Global,
    version: Version,
    stage: &mut Stage,
    first: &[u8],
    fields: &[&[u8]],
) -> Next
    ensures { Takes result stage.new (building version (opening_line (word_in version first.now) (map (λ f. f.now) fields.now))) }
{
    match opening_line(alloc, version, first, fields) {
        Ok(net) => {
            *stage = Stage::Building(version, net);
            Next::Goes
        }
        Err(cause) => Next::Fails(cause),
    }
}

/// Takes a line by its fields.
fn take_fields(alloc: Global, stage: &mut Stage, fields: &[&[u8]]) -> Result<Next, OutOfMemory>
    ensures { IfOk result (λ next. Takes next stage.new (fields_do stage.old (map (λ f. f.now) fields.now))) }
{
    let [first, fields @ ..] = fields else {
        return Ok(Next::Goes);
    };
    match stage {
        Stage::Building(version, net) => network_line(alloc, *version, net, first, fields),
        Stage::Headed(version) => {
            let version = *version;
            Ok(take_opening(alloc, version, stage, first, fields))
        }
        Stage::Start => Ok(take_header(stage, first, fields)),
    }
}

/// Takes the next line of a text and does what it says, or gives None where no line is left. A line that is written plainly is cut into its
/// fields as it is read; any other is first found, and then looked at.
pub fn take_next<'a>(
    alloc: Global,
    left: &mut Lines<'a>,
    stage: &mut Stage,
) -> Option<Result<Next, OutOfMemory>>
    ensures step { MatchOption result (lines left.old.rest.now ≡ []) (λ r. IfOk r (λ next. IsStep left.old.rest.now left.old.used left.old.count stage.old next stage.new left.new.rest.now left.new.used left.new.count)) }
    ensures left { MatchOption result (left.new ≡ left.old) (λ _. Unit {0}) }
    ensures stage { MatchOption result (stage.new ≡ stage.old) (λ _. Unit {0}) }
{
    let mut fields = [b"".as_slice(); MOST_FIELDS];
    if let Some(count) = left.next_fields(&mut fields) {
        return Some(take_fields(alloc, stage, &fields[..count]));
    }
    let line = left.next_line()?;
    Some(take_line(alloc, stage, line))
}

/// Takes a line. After a refusal, and after the end of the text, nothing more may be taken.
pub fn take_line(alloc: Global, stage: &mut Stage, line: &[u8]) -> Result<Next, OutOfMemory>
    ensures { IfOk result (λ next. Takes next stage.new (line_does stage.old line.now)) }
{
    if is_skipped(line) {
        return Ok(Next::Goes);
    }
    if !is_text(line) {
        return Ok(Next::Fails(TextCause::NotText));
    }
    let mut fields = [b"".as_slice(); MOST_FIELDS];
    let count = first_fields(line, &mut fields);
    let next = take_fields(alloc, stage, &fields[..count])?;
    Ok(next)
}
