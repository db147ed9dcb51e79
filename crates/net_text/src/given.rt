//! The fields of a line that stand for a number, a lean, an agent or a point.
ghost use Rattle.std.specs.Prelude.{◌<◌, IfOk, length};
ghost use Rattle.stn_model.specs.Net.{find_agent, find_point, point_count};
ghost use Rattle.net_text.specs.Numbers.{number_of};
ghost use Rattle.net_text.specs.Words.{lean_of};
ghost use Rattle.net_text.specs.Adding.{IsGiven};

use crate::cause::TextCause;
use crate::numbers::number_of;
use crate::refusal::Refusal;
use crate::words::lean_of;
use stn_model::{AgentId, Lean, Network, PointId};

/// The number of a field.
pub fn given_number(field: &[u8]) -> Result<i64, Refusal>
    ensures { IsGiven (number_of field.now) (λ n. n) TextCause.NumberBad result }
{
    let Some(number) = number_of(field) else {
        return Err(Refusal::Fails(TextCause::NumberBad));
    };
    Ok(number)
}

/// The lean of a field.
pub fn given_lean(field: &[u8]) -> Result<Lean, Refusal>
    ensures { IsGiven (lean_of field.now) (λ l. l) TextCause.UnknownWord result }
{
    let Some(lean) = lean_of(field) else {
        return Err(Refusal::Fails(TextCause::UnknownWord));
    };
    Ok(lean)
}

/// The agent of that name.
pub fn given_agent(net: &Network, name: &[u8]) -> Result<AgentId, Refusal>
    ensures found { IsGiven (find_agent net.now name.now) (λ a. a.0) TextCause.NameUnknown result }
    ensures within { IfOk result (λ a. a.0 < length net.now.agents) }
{
    let Some(agent) = net.find_agent(name) else {
        return Err(Refusal::Fails(TextCause::NameUnknown));
    };
    Ok(agent)
}

/// The point of that name.
pub fn given_point(net: &Network, name: &[u8]) -> Result<PointId, Refusal>
    ensures found { IsGiven (find_point net.now name.now) (λ p. p.0) TextCause.NameUnknown result }
    ensures within { IfOk result (λ p. p.0 < point_count net.now) }
{
    let Some(point) = net.find(name) else {
        return Err(Refusal::Fails(TextCause::NameUnknown));
    };
    Ok(point)
}
