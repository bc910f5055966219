// What the bytes of a log disk stand for.
ghost use Rattle.std.specs.Prelude.{◌≡◌, ◌+◌, ◌^◌, ◌≤◌, ◌<◌, ℕ, List, length, take, drop, sum_by, true, false, MatchOption, IfOk, IfSome, IfNone, IsErrOf, Some, None, Ok, Err};
ghost use Rattle.log_frame.specs.Log.{u32_in, u64_in, is_whole, body_in, bodies_from, read_open, read_log, end_of};
ghost use Rattle.log_frame.specs.Parsed.{opened_of};
ghost use Rattle.log_frame.specs.declared.fault.LogFault.TheVariants.{Damaged, Failed};

use crate::fault::LogFault;
use crate::log::Records;
use std::alloc::Global;
use thor_value::{NoMemory, Text};

/// An open gate.
pub(crate) const OPEN: u8 = 1;

/// A closed one.
pub(crate) const CLOSED: u8 = 0;

/// The number in the first four bytes.
#[tactic(auto, unfolding(crate::specs::Log::u32_in))]
fn u32_of(bytes: &[u8]) -> u32
    requires { 4 ≤ length bytes.now }
    ensures { result ≡ u32_in bytes.now }
{
    let front = bytes.split_at(4).0;
    u32::from_be_bytes([front[0], front[1], front[2], front[3]])
}

/// The number in the first eight bytes.
#[tactic(auto, unfolding(crate::specs::Log::u64_in))]
fn u64_of(bytes: &[u8]) -> u64
    requires { 8 ≤ length bytes.now }
    ensures { result ≡ u64_in bytes.now }
{
    let front = bytes.split_at(8).0;
    u64::from_be_bytes([
        front[0], front[1], front[2], front[3], front[4], front[5], front[6], front[7],
    ])
}

/// How many bytes a length and the bytes behind it take, where they are all there with a gate behind them.
fn whole_len(bytes: &[u8]) -> Option<usize>
    ensures { MatchOption result (is_whole bytes.now ≡ false) (λ n. (is_whole bytes.now ≡ true) × (n ≡ 4 + u32_in bytes.now) × (n < length bytes.now)) }
{
    if bytes.len() < 4 {
        return None;
    }
    let len = u32_of(bytes) as usize;
    if bytes.len() - 4 <= len {
        return None;
    }
    Some(4 + len)
}

/// The bytes behind a length, both of which take `n` bytes.
fn copy_body(alloc: Global, bytes: &[u8], n: usize) -> Result<Text, NoMemory>
    requires whole { n ≡ 4 + u32_in bytes.now }
    requires there { n < length bytes.now }
    ensures { IfOk result (λ body. body ≡ body_in bytes.now) }
{
    let behind = bytes.split_at(4).1;
    Text::from_slice(alloc, behind.split_at(n - 4).0)
}

/// The bodies of the records from a gate on, which stands at a place of the disk, and the place of the
/// gate behind them.
fn read_bodies(alloc: Global, place: usize, bytes: &[u8]) -> Result<(Records, usize), LogFault>
    requires some { 0 < length bytes.now }
    requires fits { place + length bytes.now < 2 ^ 64 }
    ensures ok { IfOk result (λ r. bodies_from 0 place bytes.now ≡ Ok r.0) }
    ensures end { IfOk result (λ r. r.1 ≡ place + sum_by (λ body. 5 + length body) r.0) }
    ensures within { IfOk result (λ r. r.1 < place + length bytes.now) }
    ensures damaged { (at : ℕ) → IsErrOf result (Damaged at) → bodies_from 0 place bytes.now ≡ Err at }
    ensures failed { IsErrOf result Failed → ⊥ }
{
    let mut bodies = Records::new(alloc);
    let mut left = bytes;
    let mut end = place;
    while let Some((gate, rest)) = left.split_first() {
        if *gate != OPEN {
            break;
        }
        let Some(n) = whole_len(rest) else {
            return Err(LogFault::Damaged { place: end as u64 });
        };
        bodies.push(copy_body(alloc, rest, n)?)?;
        left = rest.split_at(n).1;
        end += 1 + n;
    }
    Ok((bodies, end))
}

/// What an open log's bytes hold.
pub(crate) struct Parsed {
    pub(crate) sequence: u64,
    pub(crate) head: Text,
    pub(crate) bodies: Records,
    /// The place of the gate behind the last record.
    pub(crate) end: usize,
}

/// Reads what stands behind an open header's gate.
fn read_open(alloc: Global, rest: &[u8]) -> Result<Parsed, LogFault>
    requires { 1 + length rest.now < 2 ^ 64 }
    ensures ok { IfOk result (λ p. read_open rest.now ≡ Ok (opened_of p)) }
    ensures end { IfOk result (λ p. p.end ≡ end_of (opened_of p)) }
    ensures within { IfOk result (λ p. p.end < 1 + length rest.now) }
    ensures damaged { (at : ℕ) → IsErrOf result (Damaged at) → read_open rest.now ≡ Err at }
    ensures failed { IsErrOf result Failed → ⊥ }
{
    if rest.len() < 8 {
        return Err(LogFault::Damaged { place: 0 });
    }
    let framed = rest.split_at(8).1;
    let Some(n) = whole_len(framed) else {
        return Err(LogFault::Damaged { place: 0 });
    };
    let sequence = u64_of(rest);
    let head = copy_body(alloc, framed, n)?;
    let (bodies, end) = read_bodies(alloc, 9 + n, framed.split_at(n).1)?;
    Ok(Parsed {
        sequence,
        head,
        bodies,
        end,
    })
}

/// Reads all that a log disk holds; nothing where its header isn't open.
pub(crate) fn parse(alloc: Global, bytes: &[u8]) -> Result<Option<Parsed>, LogFault>
    ensures none { IfOk result (λ found. IfNone found (read_log bytes.now ≡ None)) }
    ensures some { IfOk result (λ found. IfSome found (λ p. read_log bytes.now ≡ Some (Ok (opened_of p)))) }
    ensures end { IfOk result (λ found. IfSome found (λ p. p.end ≡ end_of (opened_of p))) }
    ensures within { IfOk result (λ found. IfSome found (λ p. p.end < length bytes.now)) }
    ensures damaged { (at : ℕ) → IsErrOf result (Damaged at) → read_log bytes.now ≡ Some (Err at) }
    ensures failed { IsErrOf result Failed → ⊥ }
{
    let Some((gate, rest)) = bytes.split_first() else {
        return Ok(None);
    };
    if *gate != OPEN || rest.is_empty() {
        return Ok(None);
    }
    Ok(Some(read_open(alloc, rest)?))
}
