//! Numbers as a report has them: decimal, without a zero in front.

ghost use Rattle.std.specs.Prelude.{◌≡◌, ◌≤◌, IfOk, length};
ghost use Rattle.std.specs.List.{prefix_len};
ghost use Rattle.script_text.specs.Bytes.{is_digit};
ghost use Rattle.report_parse.specs.Reading.{Gives, Sees, strip};
ghost use Rattle.report_parse.specs.Numbers.{is_canonical, number_at, u8_at, u32_at, u64_at, int_at, negative_at};

use crate::unread::Unread;
use script_text::digits_value;

/// The bytes behind a fixed text, where they begin with it.
pub(crate) fn stripped<'a>(text: &[u8], bytes: &'a [u8]) -> Option<&'a [u8]>
    ensures { Sees (λ x. x.now) result (strip text.now bytes.now) }
{
    bytes.strip_prefix(text)
}

/// Reads a fixed text, and answers the bytes behind it.
pub(crate) fn behind<'a>(text: &[u8], bytes: &'a [u8]) -> Result<&'a [u8], Unread>
    ensures { Gives (λ x. x.now) result (strip text.now bytes.now) }
{
    match stripped(text, bytes) {
        Some(rest) => Ok(rest),
        None => Err(Unread::Absent),
    }
}

/// How many digits the bytes begin with.
#[tactic(auto, using(script_text::proofs::Digits::prefix_within))]
fn digits_length(bytes: &[u8]) -> usize
    ensures length { result ≡ prefix_len is_digit bytes.now }
    ensures within { result ≤ length bytes.now }
{
    bytes
        .iter()
        .take_while(|byte| byte.is_ascii_digit())
        .count()
}

/// Whether digits have no zero in front that could be left out. No digits are no number.
fn is_canonical(digits: &[u8]) -> bool
    ensures { result ≡ is_canonical digits.now }
{
    match digits {
        [] => false,
        [_] => true,
        [first, ..] => *first != b'0',
    }
}

/// Reads a number that is at most `greatest`.
#[tactic(auto, unfolding(crate::specs::Numbers::number_at))]
fn number_at(greatest: u64, bytes: &[u8]) -> Result<(u64, &[u8]), Unread>
    ensures number { Gives (λ x. (x.0, x.1.now)) result (number_at greatest bytes.now) }
    ensures within { IfOk result (λ x. x.0 ≤ greatest) }
{
    let (digits, rest) = bytes.split_at(digits_length(bytes));
    if !is_canonical(digits) {
        return Err(Unread::Absent);
    }
    match digits_value(greatest, digits) {
        Some(number) => Ok((number, rest)),
        None => Err(Unread::Absent),
    }
}

/// Reads a number below 2^8.
pub(crate) fn u8_at(bytes: &[u8]) -> Result<(u8, &[u8]), Unread>
    ensures { Gives (λ x. (x.0, x.1.now)) result (u8_at bytes.now) }
{
    let (number, rest) = number_at(255, bytes)?;
    Ok((number as u8, rest))
}

/// Reads a number below 2^32.
pub(crate) fn u32_at(bytes: &[u8]) -> Result<(u32, &[u8]), Unread>
    ensures { Gives (λ x. (x.0, x.1.now)) result (u32_at bytes.now) }
{
    let (number, rest) = number_at(4_294_967_295, bytes)?;
    Ok((number as u32, rest))
}

/// Reads a number below 2^64.
pub(crate) fn u64_at(bytes: &[u8]) -> Result<(u64, &[u8]), Unread>
    ensures { Gives (λ x. (x.0, x.1.now)) result (u64_at bytes.now) }
{
    number_at(18_446_744_073_709_551_615, bytes)
}

/// Reads what stands behind the sign of a number below 0.
#[tactic(auto, unfolding(crate::specs::Numbers::negative_at))]
fn negative_at(bytes: &[u8]) -> Result<(i64, &[u8]), Unread>
    ensures { Gives (λ x. (x.0, x.1.now)) result (negative_at bytes.now) }
{
    let (size, rest) = number_at(9_223_372_036_854_775_808, bytes)?;
    if size == 0 {
        return Err(Unread::Absent);
    }
    Ok((-1 - (size - 1) as i64, rest))
}

/// Reads a number of 64 bits with a sign.
#[tactic(auto, unfolding(crate::specs::Numbers::int_at))]
pub(crate) fn int_at(bytes: &[u8]) -> Result<(i64, &[u8]), Unread>
    ensures { Gives (λ x. (x.0, x.1.now)) result (int_at bytes.now) }
{
    match stripped(b"-", bytes) {
        Some(rest) => negative_at(rest),
        None => {
            let (number, rest) = number_at(9_223_372_036_854_775_807, bytes)?;
            Ok((number as i64, rest))
        }
    }
}
