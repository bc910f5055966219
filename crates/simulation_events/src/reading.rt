//! A script of one's own, which trouble is made for.

use schedule::{Event as Read, EventKind};
use script_parse::read_script;
use simulation_scripts::{Event, Options, Piece, Script, What};
use std::alloc::Global;
use std::str;
use thor_value::NoMemory;

const WORD: &[u8] = b"schedule";

/// Where the last line begins that begins with the word `schedule`; the end of the text where there is none.
fn schedule_place(text: &[u8]) -> usize {
    let mut found = text.len();
    let mut begins = true;
    for place in 0..text.len() {
        if begins && text.split_at(place).1.starts_with(WORD) {
            found = place;
        }
        begins = text[place] == b'\n';
    }
    found
}

/// An event as it was read, where its numbers are small.
fn event_of(kind: EventKind) -> Option<Event> {
    match kind {
        EventKind::Step { client } => Some(Event::Step {
            client: u8::try_from(client).ok()?,
        }),
        EventKind::Deliver { client, repo } => Some(Event::Deliver {
            client: u8::try_from(client).ok()?,
            repo: u8::try_from(repo).ok()?,
        }),
        EventKind::Flush { repo } => Some(Event::Flush {
            repo: u8::try_from(repo).ok()?,
        }),
        EventKind::Checkpoint { repo } => Some(Event::Checkpoint {
            repo: u8::try_from(repo).ok()?,
        }),
        EventKind::Stop { repo, calls } => Some(Event::Stop {
            repo: u8::try_from(repo).ok()?,
            calls: u8::try_from(calls).ok()?,
        }),
        EventKind::Restart { repo, pick } => Some(Event::Restart {
            repo: u8::try_from(repo).ok()?,
            pick: u8::try_from(pick).ok()?,
        }),
        EventKind::Settle { repo } => Some(Event::Settle {
            repo: u8::try_from(repo).ok()?,
        }),
        EventKind::Unknown => None,
    }
}

/// An event as the program reads it.
fn read_as(event: Event) -> EventKind {
    match event {
        Event::Step { client } => EventKind::Step {
            client: u32::from(client),
        },
        Event::Deliver { client, repo } => EventKind::Deliver {
            client: u32::from(client),
            repo: u32::from(repo),
        },
        Event::Flush { repo } => EventKind::Flush {
            repo: u32::from(repo),
        },
        Event::Checkpoint { repo } => EventKind::Checkpoint {
            repo: u32::from(repo),
        },
        Event::Stop { repo, calls } => EventKind::Stop {
            repo: u32::from(repo),
            calls: u32::from(calls),
        },
        Event::Restart { repo, pick } => EventKind::Restart {
            repo: u32::from(repo),
            pick: u32::from(pick),
        },
        Event::Settle { repo } => EventKind::Settle {
            repo: u32::from(repo),
        },
    }
}

/// The events of pieces, as the program reads them.
pub fn events_of(alloc: Global, pieces: &[Piece]) -> Result<Vec<Read>, NoMemory> {
    let mut events = Vec::new(alloc);
    for piece in pieces {
        if let What::Event(event) = &piece.what {
            events.push(Read {
                line: 0,
                kind: read_as(*event),
            })?;
        }
    }
    Ok(events)
}

fn piece(depth: u8, what: What) -> Piece {
    Piece {
        depth,
        is_away: false,
        what,
    }
}

/// Puts events behind pieces. Whether each of them is known and has small numbers.
fn put_events(pieces: &mut Vec<Piece>, events: &[Read]) -> Result<bool, NoMemory> {
    for event in events {
        match event_of(event.kind) {
            Some(event) => pieces.push(piece(1, What::Event(event)))?,
            None => return Ok(false),
        }
    }
    Ok(true)
}

/// The pieces of a script: all that stands before its schedule, and each event.
fn pieces_of(alloc: Global, head: &str, events: &[Read]) -> Result<Option<Vec<Piece>>, NoMemory> {
    let mut pieces = Vec::new(alloc);
    let line = format!(in alloc; "{head}")?;
    pieces.push(piece(0, What::Line(line)))?;
    if put_events(&mut pieces, events)? {
        Ok(Some(pieces))
    } else {
        Ok(None)
    }
}

/// The script that a text is, where it is one, and its schedule begins a line.
pub fn own_script(
    alloc: Global,
    text: &[u8],
    options: Options,
) -> Result<Option<Script>, NoMemory> {
    let Ok(read) = read_script(alloc, text) else {
        return Ok(None);
    };
    let Ok(head) = str::from_utf8(text.split_at(schedule_place(text).min(text.len())).0) else {
        return Ok(None);
    };
    let clients = u8::try_from(read.clients.len()).unwrap_or(u8::MAX);
    match pieces_of(alloc, head, read.events.as_slice())? {
        Some(pieces) => Ok(Some(Script {
            options,
            clients,
            pieces,
        })),
        None => Ok(None),
    }
}
