//! The form of names.
ghost use Rattle.std.specs.Prelude.{◌≡◌, ◌+◌, ◌≤◌, ◌↔◌, ◌++◌, IsSome, IfSome, length};
ghost use Rattle.std.specs.List.{list_all};
ghost use Rattle.stn_model.specs.Limits.{longest_name};
ghost use Rattle.stn_model.specs.Net.{act_start_name, act_end_name};
ghost use Rattle.stn_model.specs.Refusals.{is_name_start, is_name_part, is_name};

use crate::limits::LONGEST_NAME;
use arrayvec::ArrayVec;

/// A letter or `_`.
fn is_name_start(byte: u8) -> bool
    ensures { result ≡ is_name_start byte }
{
    byte.is_ascii_alphabetic() || byte == b'_'
}

/// What may stand after the first byte.
fn is_name_part(byte: u8) -> bool
    ensures { result ≡ is_name_part byte }
{
    is_name_start(byte) || byte.is_ascii_digit() || byte == b'-' || byte == b'.'
}

fn are_name_parts(bytes: &[u8]) -> bool
    ensures { result ≡ list_all is_name_part bytes.now }
{
    bytes.iter().all(|byte| is_name_part(*byte))
}

/// Whether the bytes are a name: 1 to 64 of them, of which the first is a letter or `_`, and each other one a letter, a digit, `_`, `-` or
/// `.`.
pub fn is_name(name: &[u8]) -> bool
    ensures { result ≡ is_name name.now }
{
    1 <= name.len() && name.len() <= LONGEST_NAME && is_name_start(name[0]) && are_name_parts(name)
}

/// The name of the start of an act; None exactly where it is longer than a name may be.
pub fn start_name(act: &[u8]) -> Option<ArrayVec<u8, LONGEST_NAME>>
    ensures there { IsSome result ↔ (length act.now + 2 ≤ longest_name) }
    ensures name { IfSome result (λ name. name.items ≡ act_start_name act.now) }
{
    with_ending(act, b".s".as_slice())
}

/// The name of the end of an act; None exactly where it is longer than a name may be.
pub fn end_name(act: &[u8]) -> Option<ArrayVec<u8, LONGEST_NAME>>
    ensures there { IsSome result ↔ (length act.now + 2 ≤ longest_name) }
    ensures name { IfSome result (λ name. name.items ≡ act_end_name act.now) }
{
    with_ending(act, b".e".as_slice())
}

/// The bytes and the ending; None exactly where they are more than a name may have.
fn with_ending(act: &[u8], ending: &[u8]) -> Option<ArrayVec<u8, LONGEST_NAME>>
    ensures there { IsSome result ↔ (length act.now + length ending.now ≤ longest_name) }
    ensures name { IfSome result (λ name. name.items ≡ act.now ++ ending.now) }
{
    let mut name = ArrayVec::new();
    name.try_extend_from_slice(act).ok()?;
    name.try_extend_from_slice(ending).ok()?;
    Some(name)
}
