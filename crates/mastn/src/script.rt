//! What the rest of an input asks of its network.
ghost use Rattle.std.specs.Prelude.{◌+◌, ◌<◌, ◌^◌, IfOk, length};
ghost use Rattle.script_text.specs.Scripts.{script_of};
ghost use Rattle.mastn.specs.Solves.{Asks, IsOf};

use crate::commands::are_built;
use net_text::{TextCause, TextError, rest_is_blank};
use script_text::{Script, read_script};
use std::alloc::Global;
use stn_model::{Network, OutOfMemory};

/// What the rest of an input asks of its network.
#[derive(Drop)]
pub enum Asked {
    /// It begins with no script, or a line stands behind the script that is neither blank nor a comment.
    Bad { line: u32, cause: TextCause },
    /// A command that is not built.
    NotBuilt,
    /// These commands, all of which are built.
    Told(Script),
}

/// What the rest of an input asks of its network. The first line of the rest has the number `first_line`.
pub fn read_asked(
    alloc: Global,
    net: &Network,
    rest: &[u8],
    first_line: u32,
) -> Result<Asked, OutOfMemory>
    requires few_lines { length rest.now + first_line < 2 ^ 32 }
    ensures asks { IfOk result (Asks first_line rest.now (script_of net.now first_line rest.now)) }
    ensures of { IfOk result (IsOf net.now) }
{
    let read = match read_script(alloc, net, rest, first_line) {
        Ok(read) => read,
        Err(TextError::At { line, cause }) => return Ok(Asked::Bad { line, cause }),
        Err(TextError::OutOfMemory) => return Err(OutOfMemory),
    };
    if let Some(line) = rest_is_blank(&rest[read.used..], first_line + read.lines) {
        return Ok(Asked::Bad {
            line,
            cause: TextCause::AfterDone,
        });
    }
    if are_built(read.script.commands()) {
        Ok(Asked::Told(read.script))
    } else {
        Ok(Asked::NotBuilt)
    }
}
