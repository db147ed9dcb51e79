//! Lines of a text, appended to a vector of bytes.
ghost use Rattle.std.specs.Prelude.{◌≡◌, ◌++◌, ◌∷◌, [], map, OnOk, OnErr};
ghost use Rattle.net_text.specs.Plain.{line, HasFront};

use std::vec::Vec;
use stn_model::OutOfMemory;

/// Appends a line: the word, one space and a field for each field, and a line feed.
///
/// # Errors
/// `OutOfMemory` where the vector cannot grow. Then what stood in it still stands at its front, and a part of the line may follow: `truncate` cuts it off.
pub fn add_line(out: &mut Vec<u8>, word: &[u8], fields: &[&[u8]]) -> Result<(), OutOfMemory>
    ensures ok { OnOk result (out.new.items ≡ out.old.items ++ line word.now (map (λ f. f.now) fields.now)) }
    ensures err { OnErr result (HasFront out.old.items out.new.items) }
{
    out.extend_from_slice(word)?;
    for field in fields {
        add_field(out, field)?;
    }
    out.push(b'\n')?;
    Ok(())
}

/// Appends one space and a field.
///
/// # Errors
/// `OutOfMemory` where the vector cannot grow. Then what stood in it still stands at its front.
pub fn add_field(out: &mut Vec<u8>, field: &[u8]) -> Result<(), OutOfMemory>
    ensures ok { OnOk result (out.new.items ≡ out.old.items ++ 32 ∷ field.now) }
    ensures err { OnErr result (HasFront out.old.items out.new.items) }
{
    out.push(b' ')?;
    out.extend_from_slice(field)?;
    Ok(())
}
