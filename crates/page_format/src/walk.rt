//! Walking over the objects of a page as they stand in its bytes.

ghost use Rattle.std.specs.Prelude.{◌≡◌, ◌≤◌, ◌+◌, length, slice_get};
ghost use Rattle.std.specs.Option.{option_copied, option_map};
ghost use Rattle.std.specs.Ordering.{nat_cmp};
ghost use Rattle.std.specs.BTreeMap.{is_at};
ghost use Rattle.std.specs.Map.{lookup};
ghost use Rattle.page_format.specs.Walking.{all_zero as is_all_zero, behind_at, first_at, head_at, pairs_of, parts_at, place_at};

use crate::format::StoreFormat;
use byteorder::{BigEndian, ByteOrder};

/// The bytes of a page as it is written.
pub const PAGE: usize = 16384;

/// The bytes of its head.
pub(crate) const HEAD: usize = 8;

/// The bytes before an object: its slot and its length.
pub(crate) const ENTRY: usize = 3;

/// The page's number, how many objects it has, and the bytes behind the head.
pub(crate) fn head_of(format: StoreFormat, bytes: &[u8]) -> Option<((u32, u8), &[u8])>
    ensures { option_map (λ x. (x.0, x.1.now)) result ≡ head_at format bytes.now }
{
    let size = format.page_bytes();
    let told = format.number();
    if bytes.len() != size || bytes[0] != 84 || bytes[1] != 80 || bytes[2] != told {
        return None;
    }
    let number = BigEndian::read_u32(&bytes[4..8]);
    Some(((number, bytes[3]), bytes.split_at(HEAD).1))
}

/// The object at the front, with its slot, and the bytes behind it.
pub(crate) fn first_of(bytes: &[u8]) -> Option<((u8, &[u8]), &[u8])>
    ensures { option_map (λ x. ((x.0.0, x.0.1.now), x.1.now)) result ≡ first_at bytes.now }
{
    match bytes {
        [slot, high, low, rest @ ..] => {
            let count = u16::from_be_bytes([*high, *low]) as usize;
            if rest.len() < count {
                return None;
            }
            let (object, after) = rest.split_at(count);
            Some(((*slot, object), after))
        }
        _ => None,
    }
}

/// The object of a slot.
pub(crate) fn find(entries: &[u8], count: u8, slot: u8) -> Option<&[u8]>
    ensures { option_copied result ≡ lookup (is_at (nat_cmp slot)) (pairs_of count entries.now) }
{
    let mut rest = entries;
    for _ in 0..count {
        match first_of(rest) {
            None => return None,
            Some(((at, object), after)) => {
                if at == slot {
                    return Some(object);
                }
                rest = after;
            }
        }
    }
    None
}

/// The object at a rank counted from 0, with its slot.
pub(crate) fn nth(entries: &[u8], count: u8, rank: u8) -> Option<(u8, &[u8])>
    ensures { option_map (λ x. (x.0, x.1.now)) result ≡ slice_get (pairs_of count entries.now) rank }
{
    if rank >= count {
        return None;
    }
    let mut rest = entries;
    for _ in 0..rank {
        match first_of(rest) {
            None => return None,
            Some((_, after)) => rest = after,
        }
    }
    match first_of(rest) {
        None => None,
        Some((object, _)) => Some(object),
    }
}

/// What is behind the objects, where their slots strictly rise.
pub(crate) fn behind(bytes: &[u8], count: u8) -> Option<&[u8]>
    ensures { option_copied result ≡ behind_at count 0 bytes.now }
{
    let mut rest = bytes;
    let mut low = 0u16;
    for _ in 0..count {
        match first_of(rest) {
            None => return None,
            Some(((at, _), after)) => {
                if (at as u16) < low {
                    return None;
                }
                low = at as u16 + 1;
                rest = after;
            }
        }
    }
    Some(rest)
}

/// Where the object of a slot stands, or would stand: where it begins and where it ends.
pub(crate) fn place(entries: &[u8], count: u8, slot: u8) -> (usize, usize)
    ensures place { result ≡ place_at count slot entries.now }
    ensures ordered { result.0 ≤ result.1 }
    ensures within { result.1 ≤ length entries.now }
{
    let mut rest = entries;
    let mut start = 0usize;
    for _ in 0..count {
        match first_of(rest) {
            None => return (start, start),
            Some(((at, object), after)) => {
                if slot < at {
                    return (start, start);
                }
                let end = start + ENTRY + object.len();
                if slot == at {
                    return (start, end);
                }
                start = end;
                rest = after;
            }
        }
    }
    (start, start)
}

/// The number of a page, how many objects it has, and the bytes of these.
#[tactic(auto, unfolding(crate::specs::Walking::parts_at))]
pub(crate) fn parts_of(format: StoreFormat, bytes: &[u8]) -> Option<((u32, u8), &[u8])>
    ensures { option_map (λ x. (x.0, x.1.now)) result ≡ parts_at format bytes.now }
{
    let (about, body) = head_of(format, bytes)?;
    let rest = behind(body, about.1)?;
    if !all_zero(rest) {
        return None;
    }
    Some((about, body.split_at(body.len() - rest.len()).0))
}

/// Whether the bytes are zeros alone. It looks at each of them, so that a processor can look at many at once.
pub(crate) fn all_zero(bytes: &[u8]) -> bool
    ensures { result ≡ is_all_zero bytes.now }
{
    let mut bits = 0u8;
    for byte in bytes {
        bits |= *byte;
    }
    bits == 0
}
