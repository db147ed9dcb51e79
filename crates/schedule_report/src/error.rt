//! Lines of refusals.
ghost use Rattle.std.specs.Prelude.{◌≡◌, ◌++◌, map, OnOk, OnErr};
ghost use Rattle.net_text.specs.Plain.{HasFront};
ghost use Rattle.schedule_report.specs.Lines.{error_line};

use crate::mark::whole_or_none;
use itoa::Buffer;
use net_text::write::{add_field, add_line};
use stn_model::OutOfMemory;

/// Appends the line `error LINE CAUSE`, with the cause's values after it. LINE is the number of a line of the input, from 1 on, or 0. A value
/// is a name, or a number whose digits the caller has put into an `itoa::Buffer`.
///
/// # Errors
/// `OutOfMemory` where the vector cannot grow. Then its bytes are those from before.
pub fn error_line(
    line: u32,
    cause: &[u8],
    values: &[&[u8]],
    out: &mut Vec<u8>,
) -> Result<(), OutOfMemory>
    ensures ok { OnOk result (out.new.items ≡ out.old.items ++ error_line line cause.now (map (λ v. v.now) values.now)) }
    ensures err { OnErr result (out.new.items ≡ out.old.items) }
{
    let mark = out.len();
    let added = add_error(line, cause, values, out);
    whole_or_none(added, mark, out)
}

/// Appends an error line. After an `Err` some of it may stand there.
fn add_error(
    line: u32,
    cause: &[u8],
    values: &[&[u8]],
    out: &mut Vec<u8>,
) -> Result<(), OutOfMemory>
    ensures ok { OnOk result (out.new.items ≡ out.old.items ++ error_line line cause.now (map (λ v. v.now) values.now)) }
    ensures kept { HasFront out.old.items out.new.items }
{
    let mut digits = Buffer::new();
    let number = digits.format(line).as_bytes();
    out.extend_from_slice(b"error")?;
    add_field(out, number)?;
    out.push(b' ')?;
    add_line(out, cause, values)
}
