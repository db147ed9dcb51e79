//! Scripts for the handover, with what they say, and texts that are refused.
use crate::{Command, read_script};
use net_text::{TextCause, TextError};
use sample_nets::handover;
use std::alloc::Global;
use std::process::Abort;
use std::test::Fail;
use stn_model::{AgentId, Lean, Network, PointId};

/// A script's first line after the handover's own 13.
const FIRST_LINE: u32 = 14;

/// The commands in one line, with points by number.
fn written(alloc: Global, commands: &[Command]) -> Result<String, Fail> {
    let mut text = String::new(alloc);
    for command in commands {
        match command {
            Command::Bounds => text.push_str("bounds;")?,
            Command::Windows => text.push_str("windows;")?,
            Command::Prove { from, to } => write!(text, "prove {} {};", from.0, to.0)?,
            Command::Tighten { arc } => {
                write!(text, "tighten {} {} {};", arc.from.0, arc.to.0, arc.bound)?
            }
            Command::Batch { arcs } => {
                text.push_str("batch")?;
                for arc in arcs.arcs() {
                    write!(text, " {} {} {}", arc.from.0, arc.to.0, arc.bound)?;
                }
                text.push_str(";")?
            }
            Command::Withdraw { arc } => write!(text, "withdraw {arc};")?,
            Command::Decouple => text.push_str("decouple;")?,
            Command::Choose { point, time } => write!(text, "choose {} {};", point.0, time)?,
            Command::Execute => text.push_str("execute;")?,
            Command::Advance { time } => write!(text, "advance {time};")?,
            Command::Do { point } => write!(text, "do {};", point.0)?,
            Command::Schedule => text.push_str("schedule;")?,
        }
    }
    Ok(text)
}

/// Each text is a script of so many bytes and lines, with these commands.
fn are_read(
    rt: &impl Abort,
    alloc: Global,
    texts: &[(&str, usize, u32, &str)],
) -> Result<(), Fail> {
    let net = handover(alloc)?;
    for (text, used, lines, want) in texts {
        assert!(rt; text.len() < 1000);
        let read = read_script(alloc, &net, text.as_bytes(), FIRST_LINE)?;
        assert_eq!(rt; (read.used, read.lines), (*used, *lines), "{text}");
        let commands = written(alloc, read.script.commands())?;
        assert_eq!(rt; commands.as_str(), *want, "{text}");
    }
    Ok(())
}

/// Each text is refused for the network, at that line and for that cause.
fn are_refused(
    rt: &impl Abort,
    alloc: Global,
    net: &Network,
    texts: &[(&str, u32, TextCause)],
) -> Result<(), Fail> {
    for (text, line, cause) in texts {
        assert!(rt; text.len() < 1000);
        let read = read_script(alloc, net, text.as_bytes(), FIRST_LINE);
        let want = TextError::At {
            line: *line,
            cause: *cause,
        };
        assert_eq!(rt; read.err(), Some(want), "{text}");
    }
    Ok(())
}

#[test]
fn each_command_is_read(rt: HostRuntime) -> Result<(), Fail> {
    let texts = [
        (
            "bounds\nwindows\nprove b1 z\ntighten a1 b2 1099511627776\nwithdraw 4294967295\ndecouple\nchoose b2 -999999999999999999\nexecute\nadvance -1\ndo a1\nschedule\ndone\n",
            152,
            12,
            "bounds;windows;prove 3 0;tighten 1 4 1099511627776;withdraw 4294967295;decouple;choose 4 -999999999999999999;execute;advance -1;do 1;schedule;",
        ),
        (
            "batch\narc z b1 40\n# a comment between\n\narc a1 z -15\nclose\nwindows\ndone\n",
            71,
            8,
            "batch 0 3 40 1 0 -15;windows;",
        ),
    ];
    are_read(&rt, rt.alloc(), texts.as_slice())
}

#[test]
fn a_script_ends_at_done(rt: HostRuntime) -> Result<(), Fail> {
    let texts = [
        ("done\n", 5, 1, ""),
        ("done", 4, 1, ""),
        ("bounds\r\ndone\r\n", 14, 2, "bounds;"),
        ("bounds\ndone\nnonsense\n\u{1}", 12, 2, "bounds;"),
        ("\n# a comment\n prove\tb1  z \ndone\n", 32, 4, "prove 3 0;"),
    ];
    are_read(&rt, rt.alloc(), texts.as_slice())
}

#[test]
fn texts_are_refused(rt: HostRuntime) -> Result<(), Fail> {
    let net = handover(rt.alloc())?;
    let texts = [
        ("", 14, TextCause::NoDone),
        ("bounds\n\t# done\n", 16, TextCause::NoDone),
        ("batch\n", 15, TextCause::BatchOpen),
        ("batch\ndone\n", 15, TextCause::BatchOpen),
        ("batch\nclose\n", 15, TextCause::EmptyBatch),
        ("batch\n# none\n\nclose\n", 17, TextCause::EmptyBatch),
        ("bounds\u{1}\n", 14, TextCause::NotText),
        ("close\n", 14, TextCause::UnknownWord),
        ("arc z a1 5\n", 14, TextCause::UnknownWord),
        ("windows 1\n", 14, TextCause::FieldCount),
        ("withdraw\n", 14, TextCause::FieldCount),
        ("tighten z a1 5.0\n", 14, TextCause::NumberBad),
        ("withdraw 4294967296\n", 14, TextCause::NumberBad),
        ("withdraw -1\n", 14, TextCause::NumberBad),
        ("prove z c\n", 14, TextCause::NameUnknown),
        ("prove a1 a1\n", 14, TextCause::SamePoint),
        ("tighten z a1 1099511627777\n", 14, TextCause::BoundRange),
    ];
    are_refused(&rt, rt.alloc(), &net, texts.as_slice())
}

#[test]
fn places_are_kept(rt: HostRuntime) -> Result<(), Fail> {
    let net = handover(rt.alloc())?;
    let texts = [
        ("choose a1 0\n", 14, TextCause::BeforeDecouple),
        ("execute\n", 14, TextCause::BeforeDecouple),
        ("schedule\n", 14, TextCause::BeforeDecouple),
        ("decouple\ntighten z a1 5\n", 15, TextCause::AfterDecouple),
        ("decouple\nbatch\n", 15, TextCause::AfterDecouple),
        ("decouple\nwithdraw 8\n", 15, TextCause::AfterDecouple),
        ("decouple\ndecouple\n", 15, TextCause::AfterDecouple),
        ("decouple\nadvance 1\n", 15, TextCause::BeforeExecute),
        ("decouple\ndo a1\n", 15, TextCause::BeforeExecute),
        (
            "decouple\nexecute\nchoose a1 0\n",
            16,
            TextCause::AfterExecute,
        ),
        ("decouple\nexecute\nexecute\n", 16, TextCause::AfterExecute),
        (
            "decouple\nexecute\nwithdraw 8\n",
            16,
            TextCause::AfterDecouple,
        ),
    ];
    are_refused(&rt, rt.alloc(), &net, texts.as_slice())
}

#[test]
fn the_first_failure_is_named(rt: HostRuntime) -> Result<(), Fail> {
    let net = handover(rt.alloc())?;
    let texts = [
        ("batch\nbounds\u{1}\n", 15, TextCause::NotText),
        ("batch\nnonsense\n", 15, TextCause::BatchOpen),
        ("batch\nbounds 1\n", 15, TextCause::BatchOpen),
        ("close 1\n", 14, TextCause::UnknownWord),
        ("tighten c five\n", 14, TextCause::FieldCount),
        ("tighten c a1 five\n", 14, TextCause::NumberBad),
        ("tighten c c 5\n", 14, TextCause::NameUnknown),
        ("choose z 5\n", 14, TextCause::ReferencePoint),
        ("do z\n", 14, TextCause::ReferencePoint),
        ("tighten a1 a1 -1099511627777\n", 14, TextCause::SamePoint),
        (
            "decouple\ntighten z a1 1099511627777\n",
            15,
            TextCause::BoundRange,
        ),
        ("decouple\nwithdraw -8\n", 15, TextCause::NumberBad),
        ("do a1\n", 14, TextCause::BeforeDecouple),
        ("advance 1\n", 14, TextCause::BeforeDecouple),
    ];
    are_refused(&rt, rt.alloc(), &net, texts.as_slice())
}

/// One act, whose points are `dig.s` and `dig.e`, and two arcs fewer than a network may have.
fn nearly_full(rt: &impl Abort, alloc: Global) -> Result<Network, Fail> {
    let mut net = Network::new(alloc, 100)?;
    net.add_agent(alloc, b"ann".as_slice(), Lean::Early)?;
    assert!(rt; net.agents() == 1);
    net.add_act(alloc, AgentId(0), b"dig".as_slice(), 5, 8)?;
    for bound in 0..65_532 {
        assert!(rt; 1 < net.points());
        net.add_arc(PointId(0), PointId(1), bound)?;
    }
    Ok(net)
}

#[test]
fn arcs_are_counted_to_the_limit(rt: HostRuntime) -> Result<(), Fail> {
    let net = nearly_full(&rt, rt.alloc())?;
    let texts = [
        (
            "tighten z dig.s 5\nbatch\narc z dig.e 5\nclose\n",
            18,
            TextCause::NoDone,
        ),
        (
            "tighten z dig.s 5\nbatch\narc z dig.e 5\narc z dig.e 5\n",
            17,
            TextCause::TooManyArcs,
        ),
        (
            "batch\narc z dig.e 5\narc z dig.e 5\nclose\ntighten z dig.s 5\n",
            18,
            TextCause::TooManyArcs,
        ),
        (
            "batch\narc z dig.e 5\nclose\nbatch\narc z dig.e 5\nclose\nbatch\narc z dig.s 5\n",
            21,
            TextCause::TooManyArcs,
        ),
    ];
    are_refused(&rt, rt.alloc(), &net, texts.as_slice())
}
