//! The parts of a script, read token by token.

ghost use Rattle.std.specs.Prelude.{◌≡◌, ◌+◌, ◌<◌, ◌≤◌, ◌^◌, ◌∷◌, ◌++◌, [], false, length, IfOk, OnOk, true};
ghost use Rattle.script_text.specs.Marks.{mark_of, number_in};
ghost use Rattle.script_text.specs.Sections.{nothing, with_setup, with_client, with_item, with_upgrade, sections_of, so_far, stop, stop_setup, start_step, setup_step, number_step, client_step, word_step, item_step, step, depth_of};
ghost use Rattle.script_text.specs.declared.reader.Reader.TheVariants as reader;

use crate::mark::Mark;
use crate::marking::{mark, number};
use crate::reader::{Current, Found, Reader};
use crate::sections::{ClientParts, ItemParts, Sections};
use crate::syntax::Syntax;
use crate::token::{Token, Tokens};
use std::alloc::Global;
use std::mem;
use thor_value::NoMemory;

/// Neither a setup nor a client.
pub fn nothing(alloc: Global) -> Found
    ensures { result ≡ nothing }
{
    Found {
        setup: None,
        clients: ClientParts::new(alloc),
        upgraded: false,
    }
}

/// A setup alone.
fn with_setup(alloc: Global, part: Tokens) -> Found
    ensures { result ≡ with_setup part }
{
    Found {
        setup: Some(part),
        clients: ClientParts::new(alloc),
        upgraded: false,
    }
}

/// The client that was read joins those before it.
fn with_client(current: Current) -> Result<Found, NoMemory>
    ensures { IfOk result (λ found. found ≡ with_client current) }
{
    let Current {
        found,
        items,
        upgrading,
    } = current;
    let Found {
        setup,
        mut clients,
        upgraded,
    } = found;
    clients.push(items)?;
    let upgraded = upgraded || upgrading;
    Ok(Found {
        setup,
        clients,
        upgraded,
    })
}

/// A whole item of the client.
fn with_item(current: Current, item: Tokens) -> Result<Current, NoMemory>
    ensures { IfOk result (λ more. more ≡ with_item current item) }
{
    let mut current = current;
    current.items.push(item)?;
    Ok(current)
}

fn sections_of(found: Found, schedule: Tokens) -> Sections
    ensures { result ≡ sections_of found schedule }
{
    let Found { setup, clients, .. } = found;
    Sections {
        setup,
        clients,
        schedule,
    }
}

/// Tokens and one behind them.
fn joined(part: Tokens, token: Token) -> Result<Tokens, NoMemory>
    ensures { IfOk result (λ more. more ≡ part ++ token ∷ []) }
{
    let mut part = part;
    part.push(token)?;
    Ok(part)
}

/// The parts so far, the last of which may be open.
pub fn so_far(alloc: Global, reader: Reader) -> Result<Sections, NoMemory>
    ensures { IfOk result (λ sections. sections ≡ so_far reader) }
{
    match reader {
        Reader::Start => Ok(sections_of(nothing(alloc), Tokens::new(alloc))),
        Reader::Setup {
            part,
            depth: _depth,
            closed: _closed,
        } => Ok(sections_of(with_setup(alloc, part), Tokens::new(alloc))),
        Reader::Number { found } => Ok(sections_of(found, Tokens::new(alloc))),
        Reader::Client { current } => Ok(sections_of(with_client(current)?, Tokens::new(alloc))),
        Reader::Word {
            current,
            part: _part,
        } => Ok(sections_of(with_client(current)?, Tokens::new(alloc))),
        Reader::Item {
            current,
            part,
            depth: _depth,
        } => {
            let current = with_item(current, part)?;
            Ok(sections_of(with_client(current)?, Tokens::new(alloc)))
        }
        Reader::Schedule { found, tokens } => Ok(sections_of(found, tokens)),
        Reader::Stopped {
            sections,
            fault: _fault,
        } => Ok(sections),
    }
}

/// A token on a line can't stand behind what was read.
fn stop(alloc: Global, before: Reader, line: u32) -> Result<Reader, NoMemory>
    ensures { IfOk result (λ next. next ≡ reader.Stopped (so_far before) (record { line = line })) }
{
    let sections = so_far(alloc, before)?;
    Ok(Reader::Stopped {
        sections,
        fault: Syntax { line },
    })
}

/// The token can't stand in the setup. Where the setup can't end before the token it takes it.
fn stop_setup(
    alloc: Global,
    part: Tokens,
    depth: usize,
    closed: bool,
    token: Token,
) -> Result<Reader, NoMemory>
    ensures { IfOk result (λ next. next ≡ stop_setup part depth closed token) }
{
    let line = token.line;
    let part = if closed { part } else { joined(part, token)? };
    stop(
        alloc,
        Reader::Setup {
            part,
            depth,
            closed,
        },
        line,
    )
}

fn start_step(alloc: Global, token: &Token) -> Result<Reader, NoMemory>
    ensures { IfOk result (λ next. next ≡ start_step (mark_of token.now) token.now) }
{
    match mark(token) {
        Mark::Setup => Ok(Reader::Setup {
            part: Tokens::new(alloc),
            depth: 0,
            closed: true,
        }),
        Mark::Client => Ok(Reader::Number {
            found: nothing(alloc),
        }),
        Mark::Schedule => Ok(Reader::Schedule {
            found: nothing(alloc),
            tokens: Tokens::new(alloc),
        }),
        _ => stop(alloc, Reader::Start, token.line),
    }
}

/// The setup with one more token.
fn setup_with(part: Tokens, depth: usize, closed: bool, token: Token) -> Result<Reader, NoMemory>
    ensures { IfOk result (λ next. next ≡ reader.Setup (part ++ token ∷ []) depth closed) }
{
    let part = joined(part, token)?;
    Ok(Reader::Setup {
        part,
        depth,
        closed,
    })
}

fn setup_step(
    alloc: Global,
    part: Tokens,
    depth: usize,
    closed: bool,
    token: Token,
) -> Result<Reader, NoMemory>
    requires { depth < 2 ^ 62 }
    ensures { IfOk result (λ next. next ≡ setup_step (mark_of token) part depth closed token) }
{
    match mark(&token) {
        Mark::Open => setup_with(part, depth + 1, false, token),
        Mark::Close if 0 < depth => setup_with(part, depth - 1, depth == 1, token),
        Mark::End => setup_with(part, depth, depth == 0, token),
        Mark::Other => setup_with(part, depth, false, token),
        Mark::Client if closed => Ok(Reader::Number {
            found: with_setup(alloc, part),
        }),
        Mark::Schedule if closed => Ok(Reader::Schedule {
            found: with_setup(alloc, part),
            tokens: Tokens::new(alloc),
        }),
        _ => stop_setup(alloc, part, depth, closed, token),
    }
}

fn number_step(alloc: Global, found: Found, token: &Token) -> Result<Reader, NoMemory>
    ensures { IfOk result (λ next. next ≡ number_step (number_in token.now) found token.now) }
{
    match number(token) {
        Some(number) if number == found.clients.len() as u64 + 1 => Ok(Reader::Client {
            current: Current {
                found,
                items: ItemParts::new(alloc),
                upgrading: false,
            },
        }),
        _ => stop(alloc, Reader::Number { found }, token.line),
    }
}

/// No token, with room for as many as the last of some items has, and some more.
fn empty_part(alloc: Global, items: &ItemParts) -> Result<Tokens, NoMemory>
    ensures { IfOk result (λ part. part ≡ []) }
{
    let last = match items.as_slice().last() {
        Some(item) => item.len(),
        None => 0,
    };
    Ok(Tokens::from_vec(Vec::with_capacity(alloc, last.saturating_add(4))?))
}

/// The first word of an item.
fn begun(alloc: Global, current: Current, token: Token) -> Result<Reader, NoMemory>
    ensures { IfOk result (λ next. next ≡ reader.Word current (token ∷ [])) }
{
    let part = joined(empty_part(alloc, &current.items)?, token)?;
    Ok(Reader::Word { current, part })
}

fn client_step(alloc: Global, current: Current, token: Token) -> Result<Reader, NoMemory>
    ensures { IfOk result (λ next. next ≡ client_step (mark_of token) current token) }
{
    match mark(&token) {
        Mark::Tx => begun(alloc, current, token),
        Mark::Upgrade if !current.found.upgraded => {
            let mut current = current;
            current.upgrading = true;
            begun(alloc, current, token)
        }
        Mark::Client => Ok(Reader::Number {
            found: with_client(current)?,
        }),
        Mark::Schedule => Ok(Reader::Schedule {
            found: with_client(current)?,
            tokens: Tokens::new(alloc),
        }),
        _ => stop(alloc, Reader::Client { current }, token.line),
    }
}

fn word_step(
    alloc: Global,
    current: Current,
    part: Tokens,
    token: Token,
) -> Result<Reader, NoMemory>
    ensures { IfOk result (λ next. next ≡ word_step (mark_of token) current part token) }
{
    match mark(&token) {
        Mark::Open => {
            let part = joined(part, token)?;
            Ok(Reader::Item {
                current,
                part,
                depth: 0,
            })
        }
        _ => stop(alloc, Reader::Word { current, part }, token.line),
    }
}

fn item_step(
    alloc: Global,
    current: Current,
    part: Tokens,
    depth: usize,
    token: Token,
) -> Result<Reader, NoMemory>
    requires { depth < 2 ^ 62 }
    ensures { IfOk result (λ next. next ≡ item_step (mark_of token) current part depth token) }
{
    let mark = mark(&token);
    let line = token.line;
    let part = joined(part, token)?;
    match mark {
        Mark::Open => Ok(Reader::Item {
            current,
            part,
            depth: depth + 1,
        }),
        Mark::Close if depth == 0 => Ok(Reader::Client {
            current: with_item(current, part)?,
        }),
        Mark::Close => Ok(Reader::Item {
            current,
            part,
            depth: depth - 1,
        }),
        Mark::End | Mark::Other => Ok(Reader::Item {
            current,
            part,
            depth,
        }),
        _ => stop(
            alloc,
            Reader::Item {
                current,
                part,
                depth,
            },
            line,
        ),
    }
}

/// Puts a token into the item that is read, where it is neither a brace nor a word that ends an item, and answers whether it
/// did. Nothing else changes.
#[tactic(auto, unfolding(crate::specs::Sections::step))]
fn put_inside(reader: &mut Reader, token: &Token) -> Result<bool, NoMemory>
    ensures put { IfOk result (λ put. put ≡ true → reader.new ≡ step reader.old token.now) }
    ensures other { IfOk result (λ put. put ≡ false → reader.new ≡ reader.old) }
{
    let mark = mark(token);
    match reader {
        Reader::Item { part, .. } => match mark {
            Mark::End | Mark::Other => {
                part.push(*token)?;
                Ok(true)
            }
            _ => Ok(false),
        },
        _ => Ok(false),
    }
}

/// Goes on with one more token. What is read isn't moved for a token inside an item. After `NoMemory` it is gone.
pub fn go_on(alloc: Global, reader: &mut Reader, token: Token) -> Result<(), NoMemory>
    requires { depth_of reader.old < 2 ^ 62 }
    ensures { OnOk result (reader.new ≡ step reader.old token) }
{
    if put_inside(reader, &token)? {
        return Ok(());
    }
    let before = mem::replace(reader, Reader::Start);
    let after = step(alloc, before, token)?;
    drop(mem::replace(reader, after));
    Ok(())
}

/// What was read, with one more token.
#[tactic(auto, unfolding(crate::specs::Sections::step))]
fn step(alloc: Global, reader: Reader, token: Token) -> Result<Reader, NoMemory>
    requires { depth_of reader < 2 ^ 62 }
    ensures { IfOk result (λ next. next ≡ step reader token) }
{
    match reader {
        Reader::Start => start_step(alloc, &token),
        Reader::Setup {
            part,
            depth,
            closed,
        } => setup_step(alloc, part, depth, closed, token),
        Reader::Number { found } => number_step(alloc, found, &token),
        Reader::Client { current } => client_step(alloc, current, token),
        Reader::Word { current, part } => word_step(alloc, current, part, token),
        Reader::Item {
            current,
            part,
            depth,
        } => item_step(alloc, current, part, depth, token),
        Reader::Schedule { found, tokens } => {
            let tokens = joined(tokens, token)?;
            Ok(Reader::Schedule { found, tokens })
        }
        Reader::Stopped { sections, fault } => Ok(Reader::Stopped { sections, fault }),
    }
}
