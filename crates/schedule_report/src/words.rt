//! Lines of words alone.
ghost use Rattle.std.specs.Prelude.{◌≡◌, ◌++◌, ◌∷◌, [], OnOk, OnErr};
ghost use Rattle.std.specs.Fmt.{decimal};
ghost use Rattle.net_text.specs.Plain.{line, HasFront};
ghost use Rattle.schedule_report.specs.Lines.{word_line, verdict_line};

use crate::mark::whole_or_none;
use itoa::Buffer;
use net_text::write::add_line;
use stn_model::OutOfMemory;

/// Appends the bytes and a line feed.
///
/// # Errors
/// `OutOfMemory` where the vector cannot grow. Then its bytes are those from before.
pub fn word_line(word: &[u8], out: &mut Vec<u8>) -> Result<(), OutOfMemory>
    ensures ok { OnOk result (out.new.items ≡ out.old.items ++ word_line word.now) }
    ensures err { OnErr result (out.new.items ≡ out.old.items) }
{
    let mark = out.len();
    let added = add_line(out, word, &[]);
    whole_or_none(added, mark, out)
}

/// Appends the line `consistent` or `inconsistent`.
///
/// # Errors
/// `OutOfMemory` where the vector cannot grow. Then its bytes are those from before.
pub fn verdict(consistent: bool, out: &mut Vec<u8>) -> Result<(), OutOfMemory>
    ensures ok { OnOk result (out.new.items ≡ out.old.items ++ verdict_line consistent) }
    ensures err { OnErr result (out.new.items ≡ out.old.items) }
{
    if consistent {
        return word_line(b"consistent", out);
    }
    word_line(b"inconsistent", out)
}

/// Appends the line that begins a list: its word and how many entries it has.
pub fn add_count(word: &[u8], count: usize, out: &mut Vec<u8>) -> Result<(), OutOfMemory>
    ensures ok { OnOk result (out.new.items ≡ out.old.items ++ line word.now (decimal count ∷ [])) }
    ensures kept { HasFront out.old.items out.new.items }
{
    let mut digits = Buffer::new();
    let count = digits.format(count).as_bytes();
    add_line(out, word, &[count])
}
