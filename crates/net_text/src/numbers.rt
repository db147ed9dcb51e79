//! Numbers in a text.
ghost use Rattle.std.specs.Prelude.{◌≡◌, ◌≤◌, ◌<◌, ◌^◌, pos, length, Some, None, IfSome, if◌then◌else◌};
ghost use Rattle.std.specs.List.{list_all};
ghost use Rattle.std.specs.Char.{is_ascii_digit};
ghost use Rattle.std.specs.Str.Parse.{digits_value};
ghost use Rattle.std.specs.Option.{option_map};
ghost use Rattle.net_text.specs.Numbers.{number_of, magnitude_of};

/// The number that a field writes: an optional `-`, and 1 to 18 digits.
pub fn number_of(field: &[u8]) -> Option<i64>
    ensures { result ≡ number_of field.now }
{
    match field {
        [b'-', digits @ ..] => match magnitude_of(digits) {
            None => None,
            Some(magnitude) => Some(-magnitude),
        },
        _ => magnitude_of(field),
    }
}

/// The number that 1 to 18 digits write in decimal.
fn magnitude_of(digits: &[u8]) -> Option<i64>
    ensures { result ≡ option_map pos (magnitude_of digits.now) }
{
    if digits.is_empty() || digits.len() > 18 {
        return None;
    }
    let Some(value) = value_of(digits) else {
        return None;
    };
    Some(value as i64)
}

/// The number that at most 18 bytes write, where each of them is a digit.
fn value_of(bytes: &[u8]) -> Option<u64>
    requires { length bytes.now ≤ 18 }
    ensures value { result ≡ (if list_all is_ascii_digit bytes.now then Some (digits_value 10 bytes.now) else None) }
    ensures below { IfSome result (λ v. v < 10 ^ 18) }
{
    let mut value: u64 = 0;
    for byte in bytes {
        if !byte.is_ascii_digit() {
            return None;
        }
        value = value * 10 + u64::from(*byte - b'0');
    }
    Some(value)
}
