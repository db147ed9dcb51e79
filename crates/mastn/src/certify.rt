//! The answers of `certify` and `verify`.
ghost use Rattle.std.specs.Prelude.{◌≡◌, ◌+◌, ◌<◌, ◌≤◌, ◌^◌, length, IfOk};
ghost use Rattle.stn_model.specs.Net.{point_count};
ghost use Rattle.mastn.specs.Certificates.{Certifies, Verifies, SaysCertificate, SaysVerdict, SaysChecked, SaysTooLarge, IsVerdictOn};
ghost use Rattle.mastn.specs.Limits.{most_certified};

use crate::answer::{Answer, Outcome, refusal};
use crate::limits::MOST_CERTIFIED;
use cert_check::{Verdict, add_error, check_certificate};
use cert_print::print_certificate;
use net_text::write::add_line;
use plain_solve::{Plain, plain_solve};
use std::alloc::Global;
use stn_model::{Network, OutOfMemory};

/// A certificate of a network's verdict.
pub fn certify(alloc: Global, net: &Network) -> Result<Answer, OutOfMemory>
    ensures { IfOk result (λ a. Certifies net.now a.outcome a.text.items) }
{
    if net.points() > MOST_CERTIFIED {
        return too_large(alloc);
    }
    certificate_of(alloc, net)
}

/// The certificate of a network, with the outcome of its verdict.
fn certificate_of(alloc: Global, net: &Network) -> Result<Answer, OutOfMemory>
    ensures { IfOk result (λ a. SaysCertificate net.now a.outcome a.text.items) }
{
    let outcome = verdict_on(alloc, net)?;
    let mut text = Vec::new(alloc);
    print_certificate(alloc, net, &mut text)?;
    Ok(Answer { outcome, text })
}

/// The outcome of a network's verdict.
fn verdict_on(alloc: Global, net: &Network) -> Result<Outcome, OutOfMemory>
    ensures { IfOk result (IsVerdictOn net.now) }
{
    match plain_solve(alloc, net)? {
        Plain::Consistent(_) => Ok(Outcome::Done),
        Plain::Inconsistent(_) => Ok(Outcome::Inconsistent),
    }
}

/// The answer for a network with too many points for a certificate.
fn too_large(alloc: Global) -> Result<Answer, OutOfMemory>
    ensures { IfOk result (λ a. SaysTooLarge a.outcome a.text.items) }
{
    refusal(alloc, Outcome::TooLarge, 0, b"TooLargeToCertify")
}

/// What a certificate of a network shows. Its first line has the number `first_line`.
pub fn verify(
    alloc: Global,
    net: &Network,
    certificate: &[u8],
    first_line: u32,
) -> Result<Answer, OutOfMemory>
    requires few_lines { length certificate.now + first_line < 2 ^ 32 }
    ensures { IfOk result (λ a. Verifies net.now first_line certificate.now a.outcome a.text.items) }
{
    if net.points() > MOST_CERTIFIED {
        return too_large(alloc);
    }
    checked(alloc, net, certificate, first_line)
}

/// What a certificate of a network within the limit shows.
fn checked(
    alloc: Global,
    net: &Network,
    certificate: &[u8],
    first_line: u32,
) -> Result<Answer, OutOfMemory>
    requires few_points { point_count net.now ≤ most_certified }
    requires few_lines { length certificate.now + first_line < 2 ^ 32 }
    ensures { IfOk result (λ a. SaysChecked net.now first_line certificate.now a.outcome a.text.items) }
{
    let verdict = check_certificate(alloc, net, certificate, first_line)?;
    let answer = answer_of(alloc, verdict)?;
    Ok(answer)
}

/// The answer for a verdict.
fn answer_of(alloc: Global, verdict: Verdict) -> Result<Answer, OutOfMemory>
    ensures { IfOk result (λ a. SaysVerdict verdict a.outcome a.text.items) }
{
    let mut text = Vec::new(alloc);
    let outcome = match verdict {
        Verdict::Consistent => {
            add_line(&mut text, b"verified", &[b"consistent"])?;
            Outcome::Done
        }
        Verdict::Inconsistent => {
            add_line(&mut text, b"verified", &[b"inconsistent"])?;
            Outcome::Inconsistent
        }
        Verdict::No { line, cause } => {
            add_error(&mut text, line, cause)?;
            Outcome::NotProved
        }
    };
    Ok(Answer { outcome, text })
}
