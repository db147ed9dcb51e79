//! Numbers in the lines of certificates.
ghost use Rattle.std.specs.Prelude.{◌≡◌};
ghost use Rattle.cert_check.specs.Certificates.{number_in, index_in, kept_as, number_below};

use crate::verdict::CertCause;
use net_text::numbers::number_of;

/// The number of a field.
pub fn number_in(field: &[u8]) -> Result<i64, CertCause>
    ensures { result ≡ number_in field.now }
{
    match number_of(field) {
        None => Err(CertCause::NumberBad),
        Some(number) => Ok(number),
    }
}

/// The number of a field that stands for a point or an arc, which is not negative.
pub fn index_in(field: &[u8]) -> Result<i64, CertCause>
    ensures { result ≡ index_in field.now }
{
    let number = number_in(field)?;
    if number < 0 {
        return Err(CertCause::NumberBad);
    }
    Ok(number)
}

/// A number that must be another one.
pub fn kept_as(kept: i128, given: i64) -> Result<i64, CertCause>
    ensures { result ≡ kept_as kept given }
{
    if kept == i128::from(given) {
        return Ok(given);
    }
    Err(CertCause::WrongValue {
        kept,
        given: i128::from(given),
    })
}

/// A number below a limit and not below 0.
pub fn number_below(limit: u32, number: i64) -> Option<u32>
    ensures { result ≡ number_below limit number }
{
    if number < 0 || number >= i64::from(limit) {
        return None;
    }
    Some(number as u32)
}
