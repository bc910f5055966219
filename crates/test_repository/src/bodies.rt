//! Bodies of log records and checkpoints: worked bytes, most of them from stores that another program wrote.

ghost use Rattle.std.specs.Prelude.{◌<◌};
ghost use Rattle.log_codec.specs.Grammar.{BodyFits};
ghost use Rattle.log_codec.specs.Checkpoint.{StateFits};
ghost use Rattle.log_codec.specs.declared.body.Body.TheVariants.{Entry as AnEntry};

use log_codec::{Body, State, put_state, read_body, read_state, spell_entry, spell_installed};
use log_entries::Entry;
use std::alloc::Global;
use thor_value::{NoMemory, Text, TryCopy};

/// A transaction that set a number to 1, committed alone.
const ONE: &[u8] = &[
    2, 0, 0, 0, 0, 0, 0, 0, 1, 0, 0, 0, 0, 1, 1, 0, 0, 0, 1, 0, 0, 0, 1, 0, 0, 0, 0, 0, 0, 0, 0, 0,
    0, 0, 0, 1, 0, 0, 0, 1, 0, 0, 0, 0, 0, 0, 0, 0, 0, 1, 0, 0, 0, 0, 0, 0, 0, 0, 0, 0, 0, 0, 1, 1,
    0, 0, 0, 0, 0, 0, 0, 1, 0, 0, 0, 0, 0, 0, 0, 0, 1, 0, 0, 0, 0, 0, 0, 0, 1, 0,
];

/// The part of a transaction over two repositories in the second.
const PREPARED: &[u8] = &[
    3, 0, 0, 0, 0, 0, 0, 0, 1, 0, 0, 0, 0, 1, 1, 0, 0, 0, 1, 0, 0, 0, 1, 0, 0, 0, 0, 0, 0, 0, 0, 0,
    0, 0, 0, 1, 0, 0, 0, 1, 1, 0, 0, 0, 0, 0, 0, 0, 0, 1, 1, 0, 0, 0, 0, 0, 0, 0, 0, 0, 0, 0, 1, 1,
    0, 0, 0, 0, 0, 0, 0, 4, 0, 0, 0, 0, 0, 0, 0, 0, 1, 0, 0, 0, 0, 0, 0, 0, 7, 1, 0,
];

/// An upgrade that answered a fault, which no upgrade does.
const UPGRADED: &[u8] = &[
    7, 0, 0, 0, 0, 0, 0, 0, 9, 0, 0, 0, 0, 2, 2, 0, 0, 0, 3, 0, 0, 0, 4, 2, 0, 0, 0, 11, 117, 112,
    103, 114, 97, 100, 101, 32, 123, 32, 125, 0, 0, 0, 1, 0, 0, 0, 0, 0, 0, 0, 5, 0, 0, 0, 0, 0, 0,
    0, 0, 0, 0, 0, 1, 1, 0, 0, 0, 0, 1, 1, 4, 0,
];

/// A checkpoint with something in each of its lists.
const FULL: &[u8] = &[
    2, 0, 2, 0, 0, 0, 2, 0, 0, 0, 0, 0, 0, 0, 7, 0, 0, 0, 0, 0, 0, 0, 9, 0, 0, 0, 0, 2, 0, 0, 0, 3,
    0, 0, 0, 16, 102, 114, 101, 101, 32, 99, 108, 97, 115, 115, 32, 65, 32, 123, 32, 125, 0, 0, 0,
    1, 0, 0, 0, 1, 97, 0, 0, 0, 0, 0, 0, 0, 0, 0, 0, 0, 1, 0, 0, 0, 11, 117, 112, 103, 114, 97,
    100, 101, 32, 123, 32, 125, 0, 0, 0, 2, 0, 0, 0, 0, 1, 0, 0, 0, 2, 0, 0, 0, 0, 2, 0, 0, 0, 0,
    1, 0, 0, 0, 0, 0, 0, 1, 1, 1, 0, 0, 0, 0, 0, 0, 0, 5, 0, 0, 0, 0, 1, 3, 0, 0, 0, 0, 0, 1, 1, 3,
    0, 0, 0, 2, 0, 0, 0, 0, 0, 0, 0, 1, 0, 0, 0, 0, 1, 1, 0, 0, 0, 1, 0, 0, 0, 1, 0, 0, 0, 0, 0, 0,
    0, 0, 0, 0, 0, 0, 1, 0, 0, 0, 1, 1, 0, 0, 0, 0, 0, 0, 0, 0, 1, 1, 0, 0, 0, 0, 0, 0, 0, 0, 0, 0,
    0, 1, 1, 0, 0, 0, 0, 0, 0, 0, 4, 0, 0, 0, 0, 0, 0, 0, 0, 1, 0, 0, 0, 0, 0, 0, 0, 7, 1, 0, 0, 0,
    0, 0, 0, 0, 0, 3, 0, 0, 0, 0, 1, 1, 0, 0, 0, 3, 0, 0, 0, 1, 0, 0, 0, 0, 0, 0, 0, 0, 0, 0, 0, 0,
    1, 0, 0, 0, 1, 1, 0, 0, 0, 0, 0, 0, 0, 0, 0, 0, 0, 0, 0, 0, 0, 0, 0, 1, 0, 0, 0, 0, 0, 0, 0, 7,
    1, 0, 0, 0, 0, 2, 0, 0, 0, 0, 0, 0, 0, 4, 0, 0, 0, 0, 1, 0, 0, 0, 0, 0, 0, 0, 5, 0, 0, 0, 0, 2,
    0, 0, 0, 2, 1, 0, 0, 0, 0, 0, 0, 0, 6, 0, 0, 0, 0, 1, 3, 0, 0, 0, 0, 0, 0, 0, 7, 0, 0, 0, 0, 2,
];

/// Bodies of each kind. Time 3 at repository 0, life 1, is decided; page 3 is on side 1.
const BODIES: &[&[u8]] = &[
    &[1, 0, 0, 0, 1],
    ONE,
    PREPARED,
    &[4, 0, 0, 0, 0, 0, 0, 0, 3, 0, 0, 0, 0, 1, 1],
    &[5, 0, 0, 0, 0, 0, 0, 0, 3, 0, 0, 0, 0, 1, 0],
    &[6, 0, 0, 0, 3, 1],
    UPGRADED,
];

/// A byte of a body that makes it none: its kind, a side, a time of 2^62, a kind of request, an answer,
/// others, a kind again, a fault.
const SPOILED: &[(&[u8], usize, u8)] = &[
    (&[1, 0, 0, 0, 1], 0, 8),
    (&[6, 0, 0, 0, 3, 1], 5, 2),
    (ONE, 1, 64),
    (ONE, 23, 3),
    (ONE, 76, 2),
    (ONE, 89, 1),
    (UPGRADED, 23, 1),
    (UPGRADED, 70, 5),
];

/// Spells a copy of an entry.
fn copy_spelled(alloc: Global, entry: &Entry) -> Result<Text, NoMemory>
    requires { BodyFits (AnEntry entry.now) }
{
    match entry.copy() {
        Ok(copied) => spell_entry(alloc, &copied),
        Err(refused) => Err(refused),
    }
}

/// Whether a copy of an entry is spelled so.
fn is_spelled(alloc: Global, entry: &Entry, bytes: &[u8]) -> bool
    requires { BodyFits (AnEntry entry.now) }
{
    match copy_spelled(alloc, entry) {
        Ok(spelled) => spelled.as_slice() == bytes,
        Err(_) => false,
    }
}

/// Whether an installed side is spelled so.
fn is_spelled_installed(alloc: Global, page: u32, side: u8, bytes: &[u8]) -> bool
    requires { side < 2 }
{
    match spell_installed(alloc, page, side) {
        Ok(spelled) => spelled.as_slice() == bytes,
        Err(_) => false,
    }
}

/// Whether a body is spelled so again, an entry from a copy; nothing where the bytes are none.
#[tactic(auto, unfolding(log_codec::specs::Grammar::body_format))]
fn is_spelled_again(alloc: Global, bytes: &[u8]) -> Option<bool> {
    match read_body(alloc, bytes) {
        Ok(Body::Entry(entry)) => Some(is_spelled(alloc, &entry, bytes)),
        Ok(Body::Installed { page, side }) => Some(is_spelled_installed(alloc, page, side, bytes)),
        Err(_) => None,
    }
}

/// The bytes with this byte in place of another, or behind them.
fn changed(alloc: Global, bytes: &[u8], at: usize, byte: u8) -> Result<Text, NoMemory> {
    let mut changed = Text::from_slice(alloc, bytes)?;
    if at < changed.len() {
        changed.set(at, byte);
    } else {
        changed.push(byte)?;
    }
    Ok(changed)
}

/// Whether no beginning of the bytes is a body, nor they with a byte behind them.
fn is_apart(alloc: Global, bytes: &[u8]) -> Result<bool, NoMemory> {
    for len in 0..bytes.len() {
        if is_spelled_again(alloc, bytes.split_at(len).0).is_some() {
            return Ok(false);
        }
    }
    let longer = changed(alloc, bytes, bytes.len(), 0)?;
    Ok(is_spelled_again(alloc, longer.as_slice()).is_none())
}

/// Whether a body is spelled so again, and nothing with a byte more or some fewer is a body.
fn has_one_spelling(alloc: Global, bytes: &[u8]) -> Result<bool, NoMemory> {
    Ok(is_spelled_again(alloc, bytes) == Some(true) && is_apart(alloc, bytes)?)
}

/// Whether each of the bodies is spelled so again, and the first transaction as one that brings an object to the
/// present epoch.
fn all_have_one_spelling(alloc: Global) -> Result<bool, NoMemory> {
    for body in BODIES {
        if !has_one_spelling(alloc, body)? {
            return Ok(false);
        }
    }
    let transform = changed(alloc, ONE, 23, 1)?;
    has_one_spelling(alloc, transform.as_slice())
}

/// Whether none of the spoiled ones is a body.
fn none_is_body(alloc: Global) -> Result<bool, NoMemory> {
    for (body, at, byte) in SPOILED {
        let spoiled = changed(alloc, body, *at, *byte)?;
        if is_spelled_again(alloc, spoiled.as_slice()).is_some() {
            return Ok(false);
        }
    }
    Ok(true)
}

#[test]
fn bodies_have_one_spelling(rt: HostRuntime) {
    assert!(rt; all_have_one_spelling(rt.alloc()) == Ok(true));
    assert!(rt; none_is_body(rt.alloc()) == Ok(true));
}

/// Spells a checkpoint behind a byte.
fn state_spelled(alloc: Global, state: &State) -> Result<Text, NoMemory>
    requires { StateFits state.now }
{
    let mut out = Text::new(alloc);
    out.push(9)?;
    put_state(state, &mut out)?;
    Ok(out)
}

/// Whether a checkpoint is spelled so.
fn is_state_spelled(alloc: Global, state: &State, bytes: &[u8]) -> bool
    requires { StateFits state.now }
{
    match state_spelled(alloc, state) {
        Ok(spelled) => match spelled.as_slice().split_first() {
            Some((first, rest)) => *first == 9 && rest == bytes,
            None => false,
        },
        Err(_) => false,
    }
}

/// Whether a checkpoint is spelled so again; nothing where the bytes are none.
#[tactic(auto, unfolding(log_codec::specs::Checkpoint::state_format))]
fn state_has_one_spelling(alloc: Global, bytes: &[u8]) -> Option<bool> {
    match read_state(alloc, bytes) {
        Ok(state) => Some(is_state_spelled(alloc, &state, bytes)),
        Err(_) => None,
    }
}

/// Whether the bytes are no checkpoint where they are cut, with this byte in place of another, or with one
/// behind them.
fn is_none(alloc: Global, bytes: &[u8], at: usize, byte: u8) -> Result<bool, NoMemory> {
    let spoiled = changed(alloc, bytes, at, byte)?;
    let cut = bytes.split_at(at.min(bytes.len())).0;
    Ok(
        state_has_one_spelling(alloc, spoiled.as_slice()).is_none()
            && (at == bytes.len() || state_has_one_spelling(alloc, cut).is_none()),
    )
}

/// A byte of the checkpoint that makes it none: the format, a count of 2^62, a threshold's repository,
/// 65,539 pages, a root's slot, a side, a page twice, a buffered name twice, a prepared transaction
/// twice, kept decisions that fall, a client twice, and one behind the end.
const NO_STATES: &[(usize, u8)] = &[
    (0, 0),
    (0, 3),
    (7, 64),
    (23, 8),
    (29, 1),
    (68, 12),
    (96, 2),
    (100, 0),
    (133, 0),
    (243, 1),
    (328, 3),
    (352, 1),
    (366, 0),
];

/// Whether none of those is a checkpoint.
fn none_is_state(alloc: Global) -> Result<bool, NoMemory> {
    for (at, byte) in NO_STATES {
        if !is_none(alloc, FULL, *at, *byte)? {
            return Ok(false);
        }
    }
    Ok(true)
}

/// Whether the checkpoint is one of the older format, too, spelled so again.
fn older_has_one_spelling(alloc: Global) -> Result<bool, NoMemory> {
    let older = changed(alloc, FULL, 0, 1)?;
    Ok(state_has_one_spelling(alloc, older.as_slice()) == Some(true))
}

#[test]
fn checkpoints_have_one_spelling(rt: HostRuntime) {
    assert!(rt; state_has_one_spelling(rt.alloc(), FULL) == Some(true));
    assert!(rt; older_has_one_spelling(rt.alloc()) == Ok(true));
    assert!(rt; none_is_state(rt.alloc()) == Ok(true));
}
