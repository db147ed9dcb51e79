//! The names and leans of generated agents, and the names of their points.
ghost use Rattle.std.specs.Prelude.{◌≡◌, OnOk};
ghost use Rattle.net_gen.specs.Generated.{agent_name, point_name, agent_lean};

use itoa::Buffer;
use stn_model::{Lean, OutOfMemory};

/// Writes the name of an agent over the bytes that are there.
pub fn write_agent_name(name: &mut Vec<u8>, agent: u32) -> Result<(), OutOfMemory>
    ensures { OnOk result (name.new.items ≡ agent_name agent) }
{
    let mut buffer = Buffer::new();
    name.clear();
    name.push(b'a')?;
    name.extend_from_slice(buffer.format(agent).as_bytes())?;
    Ok(())
}

/// Writes the name of a point of an agent over the bytes that are there.
pub fn write_point_name(name: &mut Vec<u8>, agent: u32, point: u32) -> Result<(), OutOfMemory>
    ensures { OnOk result (name.new.items ≡ point_name agent point) }
{
    let mut buffer = Buffer::new();
    write_agent_name(name, agent)?;
    name.push(b'p')?;
    name.extend_from_slice(buffer.format(point).as_bytes())?;
    Ok(())
}

/// Early, late and middle in turn.
pub fn lean_of(agent: u32) -> Lean
    ensures { result ≡ agent_lean agent }
{
    match agent % 3 {
        0 => Lean::Early,
        1 => Lean::Late,
        _ => Lean::Middle,
    }
}
