//! Reading a script.
ghost use Rattle.std.specs.Prelude.{◌≡◌, ◌+◌, ◌<◌, ◌≤◌, ◌^◌, length, IfOk};
ghost use Rattle.script_text.specs.Scripts.{Reads, Takes, line_does, reading_of, script_of};
ghost use Rattle.script_text.specs.Possible.{IsScriptOf};
ghost use Rattle.script_text.specs.Laws.{IsPrefixRead};

use crate::command::Command;
use crate::grammar::line_in;
use crate::stage::{Next, Stage};
use net_text::TextError;
use net_text::arcs::counted_arcs;
use net_text::lines::Lines;
use std::alloc::Global;
use std::marker::Model;
use stn_model::{Network, OutOfMemory};

/// A list of commands.
#[derive(Drop)]
pub struct Script {
    commands: Vec<Command>,
}

impl Model for Script {
    ghost use Rattle.std.specs.Prelude.{List};
    ghost use Rattle.script_text.specs.declared.command.Command.{Command};

    ghost Value = { List Command };

    ghost view = { λ s. s.commands.items };
}

impl Script {
    /// The commands, in order. The `done` line is none.
    pub fn commands(&self) -> &[Command]
        ensures { result.now ≡ self.now }
    {
        self.commands.as_slice()
    }
}

/// A script that was read from the front of a text.
#[derive(Drop)]
pub struct ScriptRead {
    /// The script.
    pub script: Script,
    /// How many bytes the text takes, up to its `done` line and the line feed after it.
    pub used: usize,
    /// How many lines these bytes have.
    pub lines: u32,
}

/// Reads a script from the front of a text, for a network whose points its lines name. The first line of the text has the number
/// `first_line`, which is below 2^32 together with the number of bytes. What follows the `done` line is not looked at.
///
/// # Errors
///
/// - `At`: no script stands at the front. It names the first line that fails, and the first test that it fails, in this order: `NotText`,
///   `BatchOpen`, `UnknownWord`, `FieldCount`, `NumberBad`, `NameUnknown`, `ReferencePoint`, `SamePoint`, `BoundRange`, `AfterDecouple` or
///   `BeforeDecouple`, `AfterExecute` or `BeforeExecute`, `EmptyBatch`, `TooManyArcs`. Where the `done` line is missing, it names the line
///   after the last one, with `BatchOpen` where a batch is begun, and else `NoDone`.
/// - `OutOfMemory`: memory ran out.
pub fn read_script(
    alloc: Global,
    net: &Network,
    bytes: &[u8],
    first_line: u32,
) -> Result<ScriptRead, TextError>
    requires { length bytes.now + first_line < 2 ^ 32 }
    ensures reads { Reads result (script_of net.now first_line bytes.now) }
    ensures within { IfOk result (λ r. (r.used ≤ length bytes.now) × (r.lines ≤ r.used)) }
    ensures prefix { IfOk result (IsPrefixRead net.now first_line bytes.now) }
    ensures possible { IfOk result (λ r. IsScriptOf net.now r.script) }
{
    let mut stage = Stage::new(alloc, counted_arcs(net));
    let mut lines = Lines::new(bytes);
    while let Some(text) = lines.next_line() {
        let Ok(next) = take_line(alloc, net, &mut stage, text) else {
            return Err(TextError::OutOfMemory);
        };
        match next {
            Next::Goes => {}
            Next::Ends => {
                return Ok(ScriptRead {
                    script: Script {
                        commands: stage.commands,
                    },
                    used: lines.used,
                    lines: lines.count,
                });
            }
            Next::Fails(cause) => {
                return Err(TextError::At {
                    line: first_line + (lines.count - 1),
                    cause,
                });
            }
        }
    }
    Err(TextError::At {
        line: first_line + lines.count,
        cause: stage.missing(),
    })
}

/// Takes a line.
fn take_line(
    alloc: Global,
    net: &Network,
    stage: &mut Stage,
    text: &[u8],
) -> Result<Next, OutOfMemory>
    ensures { IfOk result (λ n. Takes n (reading_of stage.new) (line_does net.now (reading_of stage.old) text.now)) }
{
    match line_in(net, stage.batch.is_some(), text) {
        Ok(line) => stage.take(alloc, line),
        Err(cause) => Ok(Next::Fails(cause)),
    }
}
