//! The line that tells why a certificate is refused.
ghost use Rattle.std.specs.Prelude.{◌≡◌, ◌++◌, ◌∷◌, [], OnOk, OnErr};
ghost use Rattle.std.specs.Fmt.{signed_decimal};
ghost use Rattle.schedule_report.specs.Lines as report;
ghost use Rattle.cert_check.specs.Causes.{cause_word, error_line};

use crate::verdict::CertCause;
use itoa::{Buffer, Integer};
use schedule_report::error_line;
use std::vec::Vec;
use stn_model::OutOfMemory;

impl CertCause {
    /// The word of the cause in an error line.
    pub fn word(&self) -> &'static [u8]
        ensures { result.now ≡ cause_word self.now }
    {
        match self {
            CertCause::NotText => b"NotText",
            CertCause::NoHeader => b"NoHeader",
            CertCause::UnknownWord => b"UnknownWord",
            CertCause::FieldCount => b"FieldCount",
            CertCause::Version => b"Version",
            CertCause::NumberBad => b"NumberBad",
            CertCause::WrongValue { .. } => b"WrongValue",
            CertCause::AgainTo(_) => b"AgainTo",
            CertCause::BadArc(_) => b"BadArc",
            CertCause::MissingTo(_) => b"MissingTo",
            CertCause::ArcFails(_) => b"ArcFails",
            CertCause::BadCycle => b"BadCycle",
            CertCause::NoEnd => b"NoEnd",
            CertCause::AfterEnd => b"AfterEnd",
        }
    }
}

/// Appends the line `error`, with the number of the false line, the cause's word and the cause's values.
///
/// # Errors
///
/// `OutOfMemory` where the vector cannot grow. Then its bytes are those from before.
pub fn add_error(out: &mut Vec<u8>, number: u32, cause: CertCause) -> Result<(), OutOfMemory>
    ensures ok { OnOk result (out.new.items ≡ out.old.items ++ error_line number cause) }
    ensures err { OnErr result (out.new.items ≡ out.old.items) }
{
    let word = cause.word();
    match cause {
        CertCause::WrongValue { kept, given } => add_values(out, number, word, kept, given),
        CertCause::AgainTo(to) => add_value(out, number, word, to),
        CertCause::BadArc(arc) => add_value(out, number, word, arc),
        CertCause::MissingTo(point) => add_value(out, number, word, point),
        CertCause::ArcFails(arc) => add_value(out, number, word, arc),
        _ => error_line(number, word, &[], out),
    }
}

/// Appends the line of a cause with two values.
fn add_values(
    out: &mut Vec<u8>,
    number: u32,
    word: &[u8],
    kept: i128,
    given: i128,
) -> Result<(), OutOfMemory>
    ensures ok { OnOk result (out.new.items ≡ out.old.items ++ report.error_line number word.now (signed_decimal kept ∷ signed_decimal given ∷ [])) }
    ensures err { OnErr result (out.new.items ≡ out.old.items) }
{
    let mut kept_digits = Buffer::new();
    let kept = kept_digits.format(kept).as_bytes();
    let mut given_digits = Buffer::new();
    let given = given_digits.format(given).as_bytes();
    error_line(number, word, &[kept, given], out)
}

/// Appends the line of a cause with one value.
fn add_value<I: Integer>(
    out: &mut Vec<u8>,
    number: u32,
    word: &[u8],
    value: I,
) -> Result<(), OutOfMemory>
    ensures ok { OnOk result (out.new.items ≡ out.old.items ++ report.error_line number word.now (I.text value ∷ [])) }
    ensures err { OnErr result (out.new.items ≡ out.old.items) }
{
    let mut digits = Buffer::new();
    let value = digits.format(value).as_bytes();
    error_line(number, word, &[value], out)
}
