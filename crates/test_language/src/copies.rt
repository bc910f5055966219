//! Copies of what a script is read into, its numbers, and want of memory.

use schedule::{Events, parse_schedule};
use script_text::{SyntaxError, Token, Tokens, digits_value, scan};
use std::alloc::Global;
use std::test::Fail;
use thor_value::{NoMemory, TryCopy};

fn scanned(alloc: Global) -> Result<Tokens, Fail> {
    Ok(scan(alloc, b"s1 d12 . 7").ok().ok_or("tokens")?)
}

fn events_of(alloc: Global, tokens: &Tokens) -> Result<Events, Fail> {
    Ok(parse_schedule(alloc, tokens).ok().ok_or("events")?)
}

fn are_alike(token: &Token, other: &Token) -> bool {
    token.kind == other.kind
        && token.line == other.line
        && token.from == other.from
        && token.text.bytes() == other.text.bytes()
}

#[test]
fn tokens_are_copied(rt: HostRuntime) -> Result<(), Fail> {
    let tokens = scanned(rt.alloc())?;
    let copied = tokens.copy().ok().ok_or("memory")?;
    assert!(rt; copied.len() == 4);
    for (token, other) in tokens.as_slice().iter().zip(copied.as_slice()) {
        assert!(rt; are_alike(token, other));
    }
    Ok(())
}

#[test]
fn events_are_copied(rt: HostRuntime) -> Result<(), Fail> {
    let tokens = scanned(rt.alloc())?;
    let events = events_of(rt.alloc(), &tokens)?;
    let copied = events.copy().ok().ok_or("memory")?;
    assert!(rt; copied.len() == 2 && copied.as_slice() == events.as_slice());
    Ok(())
}

#[test]
fn the_greatest_number_has_its_value(rt: HostRuntime) {
    let value = digits_value(u64::MAX, b"18446744073709551615");
    assert!(rt; value == Some(u64::MAX));
}

#[test]
fn want_of_memory_is_no_fault(rt: HostRuntime) {
    assert!(rt; SyntaxError::from(NoMemory) == SyntaxError::NoMemory);
}
