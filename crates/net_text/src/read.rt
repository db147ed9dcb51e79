//! Reading a network.
ghost use Rattle.std.specs.Prelude.{◌≡◌, ◌<◌, ◌≤◌, ◌^◌, IfOk, length};
ghost use Rattle.net_text.specs.Networks.{text_of, missing, Reads};
ghost use Rattle.net_text.specs.Laws.{IsPrefixRead};

use crate::cause::{TextCause, TextError};
use crate::grammar::take_next;
use crate::lines::Lines;
use crate::stage::{Next, Stage};
use std::alloc::Global;
use stn_model::Network;

/// A network that was read from the front of a text.
#[derive(Drop)]
pub struct NetRead {
    /// The network.
    pub net: Network,
    /// How many bytes the text takes, up to its `end` line and the line feed after it.
    pub used: usize,
    /// How many lines these bytes have.
    pub lines: u32,
}

/// The network whose text stands at the front of the bytes, up to its `end` line. What follows that line is not looked at.
///
/// The bytes are fewer than 2^32. `At` names the first line that fails, counted from 1, and the first test that it fails;
/// where the text has no `end` line, the number after that of its last line. `OutOfMemory` comes where memory ran out,
/// and where a text of 2^32 - 1 empty lines has no number for its end.
pub fn read_net(alloc: Global, bytes: &[u8]) -> Result<NetRead, TextError>
    requires { length bytes.now < 2 ^ 32 }
    ensures reads { Reads result (text_of bytes.now) }
    ensures within { IfOk result (λ r. (r.used ≤ length bytes.now) × (r.lines ≤ r.used)) }
    ensures prefix { IfOk result (IsPrefixRead bytes.now) }
{
    let mut lines = Lines::new(bytes);
    let mut stage = Stage::Start;
    while let Some(step) = take_next(alloc, &mut lines, &mut stage) {
        let Ok(next) = step else {
            return Err(TextError::OutOfMemory);
        };
        match next {
            Next::Goes => {}
            Next::Ends => {
                let Stage::Building(_, net) = stage else {
                    unreachable!();
                };
                return Ok(NetRead {
                    net,
                    used: lines.used,
                    lines: lines.count,
                });
            }
            Next::Fails(cause) => {
                return Err(TextError::At {
                    line: lines.count,
                    cause,
                });
            }
        }
    }
    let Some(line) = lines.count.checked_add(1) else {
        return Err(TextError::OutOfMemory);
    };
    let cause = missing(&stage);
    Err(TextError::At { line, cause })
}

/// What is missing at the end of a text without an `end` line.
fn missing(stage: &Stage) -> TextCause
    ensures { result ≡ missing stage.now }
{
    match stage {
        Stage::Start => TextCause::NoHeader,
        Stage::Headed(_) => TextCause::NoEnd,
        Stage::Building(_, _) => TextCause::NoEnd,
    }
}

#[cfg(test)]
mod tests {
    use super::*;
    use std::test::Fail;
    use stn_model::{AgentId, Constraint, Lean, PointId};

    const HANDOVER: &[u8] =
        b"# a handover\nmastn 1\r\nhorizon 100\n\nagent ann\nagent  bob\tlate\npoint ann a1\npoint ann a2\npoint bob b1\nbound z a1 3 20\narc b1 a2 -7\nend\nnot read";

    /// Each text is refused at its last line, by its first failing test.
    const REFUSED: [(&[u8], u32, TextCause); 40] = [
        (b"", 1, TextCause::NoHeader),
        (b"\r", 1, TextCause::NoHeader),
        (b"# only\n \t\n", 3, TextCause::NoHeader),
        (b"agent a", 1, TextCause::NoHeader),
        (b"mastn\xff", 1, TextCause::NotText),
        (b"mastn", 1, TextCause::FieldCount),
        (b"mastn 1 1", 1, TextCause::FieldCount),
        (b"mastn 3", 1, TextCause::Version),
        (b"mastn 1\nmastn 1", 2, TextCause::UnknownWord),
        (b"mastn 1\nagents x y z", 2, TextCause::UnknownWord),
        (b"mastn 1\nagent a", 2, TextCause::NoHorizon),
        (b"mastn 1\nagent a b c", 2, TextCause::FieldCount),
        (b"mastn 1\nhorizon", 2, TextCause::FieldCount),
        (b"mastn 1\nhorizon +1", 2, TextCause::NumberBad),
        (
            b"mastn 1\nhorizon 1234567890123456789",
            2,
            TextCause::NumberBad,
        ),
        (b"mastn 1\nhorizon -1", 2, TextCause::HorizonRange),
        (
            b"mastn 1\nhorizon 1099511627777",
            2,
            TextCause::HorizonRange,
        ),
        (b"mastn 1\n\xfe", 2, TextCause::NotText),
        (b"mastn 1\n", 2, TextCause::NoEnd),
        (b"mastn 1\nhorizon 5\n# \xff\n", 4, TextCause::NoEnd),
        (
            b"mastn 1\nhorizon 5\nhorizon 5",
            3,
            TextCause::SecondHorizon,
        ),
        (b"mastn 1\nhorizon 5\nhorizon 5 5", 3, TextCause::FieldCount),
        (
            b"mastn 1\nhorizon 5\nagent 1 soon",
            3,
            TextCause::UnknownWord,
        ),
        (b"mastn 1\nhorizon 5\nagent 1", 3, TextCause::NameBad),
        (
            b"mastn 1\nhorizon 5\nagent a\nagent a",
            4,
            TextCause::NameTaken,
        ),
        (b"mastn 1\nhorizon 5\npoint a 1", 3, TextCause::NameUnknown),
        (
            b"mastn 1\nhorizon 5\nagent a\npoint a z",
            4,
            TextCause::NameTaken,
        ),
        (
            b"mastn 1\nhorizon 5\nagent a\npoint a p\narc z p 1\npoint a p",
            6,
            TextCause::NameTaken,
        ),
        (
            b"mastn 1\nhorizon 5\nagent a\npoint a p\narc z p 1\npoint a q",
            6,
            TextCause::PointsClosed,
        ),
        (b"mastn 1\nhorizon 5\narc p q x", 3, TextCause::NumberBad),
        (b"mastn 1\nhorizon 5\narc z q 1", 3, TextCause::NameUnknown),
        (
            b"mastn 1\nhorizon 5\narc z z 1099511627777",
            3,
            TextCause::SamePoint,
        ),
        (
            b"mastn 1\nhorizon 5\nagent a\npoint a p\narc z p 1099511627777",
            5,
            TextCause::BoundRange,
        ),
        (b"mastn 1\nhorizon 5\nbound z z 1", 3, TextCause::FieldCount),
        (
            b"mastn 1\nhorizon 5\nbound z z - 1",
            3,
            TextCause::NumberBad,
        ),
        (
            b"mastn 1\nhorizon 5\nbound z z 1 -1",
            3,
            TextCause::SamePoint,
        ),
        (
            b"mastn 1\nhorizon 5\nagent a\npoint a p\nbound z p -1099511627777 1",
            5,
            TextCause::BoundRange,
        ),
        (b"mastn 1\nhorizon 5\nend now", 3, TextCause::FieldCount),
        (b"mastn 1\nhorizon 5\r\r\n", 2, TextCause::NotText),
        (b"mastn 1\nhorizon 5\nend\x7f", 3, TextCause::NotText),
    ];

    #[test]
    fn refuses_the_first_failing_line(rt: HostRuntime) {
        for (text, line, cause) in REFUSED {
            assert!(rt; text.len() < 1000);
            let answer = read_net(rt.alloc(), text);
            let Err(error) = answer else {
                assert!(rt; false, "line {line} was read");
                continue;
            };
            assert_eq!(rt; error, TextError::At { line, cause }, "at line {line}");
        }
    }

    #[test]
    fn reads_a_network(rt: HostRuntime) -> Result<(), Fail> {
        let Ok(read) = read_net(rt.alloc(), HANDOVER) else {
            assert!(rt; false, "the network is read");
            return Ok(());
        };
        assert_eq!(rt; read.used, HANDOVER.len() - 8);
        assert_eq!(rt; read.lines, 12);
        let net = read.net;
        assert_eq!(rt; net.horizon(), 100);
        assert_eq!(rt; net.find_agent(b"bob"), Some(AgentId(1)));
        assert_eq!(rt; net.find(b"b1"), Some(PointId(3)));
        assert!(rt; net.agents() == 2);
        assert_eq!(rt; net.lean(AgentId(0)), Lean::Early);
        assert_eq!(rt; net.lean(AgentId(1)), Lean::Late);
        assert!(rt; net.points() == 4);
        assert_eq!(rt; net.owner(PointId(3)), Some(AgentId(1)));
        assert!(rt; net.arcs() == 9);
        for (n, from, to, bound) in [(6, 0, 1, 20), (7, 1, 0, -3), (8, 3, 2, -7)] {
            assert_eq!(rt;
                net.arc(n),
                Constraint {
                    from: PointId(from),
                    to: PointId(to),
                    bound
                }
            );
        }
        Ok(())
    }

    /// A text of a front, and of a line so many times.
    fn repeated(alloc: Global, front: &[u8], line: &[u8], times: u32) -> Result<Vec<u8>, Fail> {
        let mut text = Vec::from_slice(alloc, front)?;
        for _ in 0..times {
            text.extend_from_slice(line)?;
        }
        Ok(text)
    }

    #[test]
    fn counts_arcs_to_the_limit(rt: HostRuntime) -> Result<(), Fail> {
        let front = b"mastn 1\nhorizon 5\nagent a\npoint a p\narc p z 1\n";
        for (line, times, at, cause) in [
            (
                b"bound z p 0 5\n".as_slice(),
                32_767,
                32_773,
                TextCause::NoEnd,
            ),
            (
                b"bound z p 0 5\n".as_slice(),
                32_768,
                32_773,
                TextCause::TooManyArcs,
            ),
            (b"arc z p 5\n".as_slice(), 65_535, 65_541, TextCause::NoEnd),
            (
                b"arc z p 5\n".as_slice(),
                65_536,
                65_541,
                TextCause::TooManyArcs,
            ),
        ] {
            let text = repeated(rt.alloc(), front, line, times)?;
            assert!(rt; text.len() < 10_000_000);
            let answer = read_net(rt.alloc(), text.as_slice());
            let Err(error) = answer else {
                assert!(rt; false, "the text has no end");
                continue;
            };
            assert_eq!(rt; error, TextError::At { line: at, cause });
        }
        Ok(())
    }
}
