//! The value of decimal digits.

ghost use Rattle.std.specs.Prelude.{◌≡◌, ◌≤◌, IfSome};
ghost use Rattle.script_text.specs.Numbers.{with_digit, digits_value};

/// A number with one more digit, unless it is past the greatest.
fn with_digit(greatest: u64, value: Option<u64>, digit: u8) -> Option<u64>
    ensures value { result ≡ with_digit greatest value digit }
    ensures within { IfSome result (λ n. n ≤ greatest) }
{
    let value = value?;
    if !digit.is_ascii_digit() {
        return None;
    }
    let grown = value.checked_mul(10)?.checked_add(u64::from(digit - b'0'))?;
    if greatest < grown { None } else { Some(grown) }
}

/// The number that decimal digits write, from 0 to `greatest`; leading zeros count for nothing, and no digits write 0.
///
/// `None` where a byte is none of `0` to `9`, and where the number is past `greatest`, which may be any `u64`.
pub fn digits_value(greatest: u64, digits: &[u8]) -> Option<u64>
    // The value is the one that the definition computes.
    ensures value { result ≡ digits_value greatest digits.now }

    // It is never past the greatest.
    ensures within { IfSome result (λ n. n ≤ greatest) }
{
    let mut value = Some(0);
    for digit in digits {
        value = with_digit(greatest, value, *digit);
    }
    value
}
