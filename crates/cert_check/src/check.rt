//! Checking a certificate.
ghost use Rattle.std.specs.Prelude.{◌≡◌, ◌+◌, ◌<◌, ◌≤◌, ◌^◌, length, IfOk};
ghost use Rattle.stn_model.specs.Net.{point_count};
ghost use Rattle.cert_check.specs.Certificates.{verdict_of, at_end};
ghost use Rattle.cert_check.specs.Claims.{IsRight};

use crate::grammar::line_does;
use crate::stage::Stage;
use crate::verdict::{CertCause, Verdict};
use net_text::lines::Lines;
use std::alloc::Global;
use stn_model::{Network, OutOfMemory};

/// Checks a certificate of a network. The first line of the bytes has the number `first_line`.
///
/// `Consistent`: some schedule satisfies the network, and the bound of each `to` line is the least bound (Dechter, Meiri and Pearl
/// 1991) from the point of its section. `Inconsistent`: no schedule satisfies the network. `No`: the first false line, and the first
/// test that it fails; where the `end` line is missing, the line after the last one.
///
/// The network has at most 256 points; the number of bytes and `first_line` are together below 2^32.
///
/// # Errors
///
/// `OutOfMemory` where memory ran out.
pub fn check_certificate(
    alloc: Global,
    net: &Network,
    bytes: &[u8],
    first_line: u32,
) -> Result<Verdict, OutOfMemory>
    requires few_points { point_count net.now ≤ 256 }
    requires few_lines { length bytes.now + first_line < 2 ^ 32 }
    ensures exact { IfOk result (λ v. v ≡ verdict_of net.now first_line bytes.now) }
    ensures right { IfOk result (λ v. IsRight net.now bytes.now v) }
{
    let _limits = net.points();
    let mut stage = Stage::Start;
    let mut lines = Lines::new(bytes);
    while let Some(text) = lines.next_line() {
        match line_does(alloc, net, stage, text)? {
            Ok(next) => stage = next,
            Err(cause) => {
                return Ok(Verdict::No {
                    line: first_line + (lines.count - 1),
                    cause,
                });
            }
        }
    }
    Ok(at_end(&stage, first_line + lines.count))
}

/// What a certificate shows that ends there.
fn at_end(stage: &Stage, line: u32) -> Verdict
    ensures { result ≡ at_end stage.now line }
{
    match stage {
        Stage::Ended { consistent: true } => Verdict::Consistent,
        Stage::Ended { consistent: false } => Verdict::Inconsistent,
        _ => Verdict::No {
            line,
            cause: CertCause::NoEnd,
        },
    }
}
