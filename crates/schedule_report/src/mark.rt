//! Parts that are appended whole or not at all.
ghost use Rattle.std.specs.Prelude.{◌≡◌, OnOk, OnErr, take};

use stn_model::OutOfMemory;

/// The answer of an append that began where `mark` bytes were there. After an `Err` what it left is cut off.
pub fn whole_or_none(
    appended: Result<(), OutOfMemory>,
    mark: usize,
    out: &mut Vec<u8>,
) -> Result<(), OutOfMemory>
    ensures answer { result ≡ appended }
    ensures ok { OnOk result (out.new.items ≡ out.old.items) }
    ensures err { OnErr result (out.new.items ≡ take mark out.old.items) }
{
    if appended.is_err() {
        out.truncate(mark);
    }
    appended
}
