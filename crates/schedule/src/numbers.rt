//! The numbers of events.

ghost use Rattle.std.specs.Prelude.{◌≡◌};
ghost use Rattle.schedule.specs.Numbers.{number_of};

use script_text::digits_value;

/// The greatest number of an event.
const GREATEST: u64 = 4294967295;

/// The number that digits write, without leading zeros.
pub fn number_of(digits: &[u8]) -> Option<u32>
    ensures { result ≡ number_of digits.now }
{
    match digits {
        [] => None,
        [b'0', _, ..] => None,
        _ => {
            let number = digits_value(GREATEST, digits)?;
            Some(number as u32)
        }
    }
}
