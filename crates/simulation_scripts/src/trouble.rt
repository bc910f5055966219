//! Trouble for a schedule: where something happened in a run, other things happen before it, in the middle of it, or
//! behind it.

use crate::draws::Draws;
use crate::pieces::{Event, Piece, What};
use crate::script::Script;
use std::alloc::Global;
use thor_value::NoMemory;

/// What an event of a run has come to.
#[derive(Clone, Copy)]
pub struct Told {
    /// The place of the event in the schedule, from 0.
    pub event: usize,
    /// The client that took a step last, from 1.
    pub client: u8,
    /// The repository at which it happened.
    pub repo: u8,
    /// What happened, as a number.
    pub deed: usize,
}

/// The most pieces of a script that gets trouble.
const MOST: usize = 2_000;

/// Events that are to be put into a schedule.
#[derive(Drop)]
struct Trouble<'a> {
    draws: &'a mut Draws,
    told: Told,
    repos: u8,
    clients: u8,
    before: Vec<Event>,
    behind: Vec<Event>,
}

fn pick(draws: &mut Draws) -> u8 {
    match draws.below(5) {
        0 | 1 => 0,
        2 | 3 => 1,
        _ => draws.within(2, 250),
    }
}

/// In which of its disk calls a repository stops: one of the four that write an entry, the last of them most often, or
/// a later one.
fn stop_calls(draws: &mut Draws) -> u8 {
    match draws.below(10) {
        0 => draws.within(5, 12),
        1 | 2 | 3 | 4 => 4,
        _ => draws.within(1, 4),
    }
}

impl<'a> Trouble<'a> {
    /// Another client, where there is one.
    fn other(&mut self) -> u8 {
        let client = self.draws.within(1, self.clients);
        if client != self.told.client || self.draws.comes(20) {
            return client;
        }
        if client < self.clients {
            client.saturating_add(1)
        } else {
            1
        }
    }

    fn restart(&mut self) -> Result<(), NoMemory> {
        let repo = self.told.repo;
        let pick = pick(self.draws);
        self.behind.push(Event::Restart { repo, pick })?;
        Ok(())
    }

    /// The repository stops in the middle of the event.
    fn stop(&mut self) -> Result<(), NoMemory> {
        let repo = self.told.repo;
        let calls = stop_calls(self.draws);
        self.before.push(Event::Stop { repo, calls })?;
        Ok(())
    }

    /// Another client takes steps behind the event.
    fn other_runs(&mut self) -> Result<(), NoMemory> {
        let client = self.other();
        for _ in 0..self.draws.within(4, 30) {
            self.behind.push(Event::Step { client })?;
        }
        Ok(())
    }

    /// A client takes steps before the event.
    fn other_ran(&mut self) -> Result<(), NoMemory> {
        let client = self.other();
        for _ in 0..self.draws.within(2, 30) {
            self.before.push(Event::Step { client })?;
        }
        Ok(())
    }

    /// Messages come to the client behind the event.
    fn tell_behind(&mut self) -> Result<(), NoMemory> {
        let client = self.told.client;
        for repo in 0..self.repos {
            for _ in 0..self.draws.below(3) {
                self.behind.push(Event::Deliver { client, repo })?;
            }
        }
        Ok(())
    }

    /// Messages come to the client before the event.
    fn tell_before(&mut self) -> Result<(), NoMemory> {
        let client = self.told.client;
        for repo in 0..self.repos {
            for _ in 0..self.draws.below(3) {
                self.before.push(Event::Deliver { client, repo })?;
            }
        }
        Ok(())
    }

    /// The repository stops in the event and comes back: at once, behind others, or never.
    fn stopped(&mut self) -> Result<(), NoMemory> {
        self.stop()?;
        match self.draws.below(6) {
            0 => self.restart(),
            1 => {
                self.other_runs()?;
                self.restart()
            }
            2 => self.other_runs(),
            3 => {
                self.restart()?;
                self.other_runs()
            }
            _ => {
                self.restart()?;
                self.other_runs()?;
                self.tell_behind()
            }
        }
    }

    /// The repository writes in between: it flushes, makes a checkpoint, or stops while it does.
    fn writes(&mut self) -> Result<(), NoMemory> {
        let repo = self.told.repo;
        if self.draws.comes(50) {
            let calls = self.draws.within(1, 9);
            self.behind.push(Event::Stop { repo, calls })?;
        }
        for _ in 0..self.draws.within(1, 3) {
            let flushes = self.draws.comes(60);
            self.behind.push(if flushes {
                Event::Flush { repo }
            } else {
                Event::Checkpoint { repo }
            })?;
        }
        if self.draws.comes(60) {
            self.restart()
        } else {
            Ok(())
        }
    }

    /// The repositories ask about what they have prepared.
    fn settles(&mut self) -> Result<(), NoMemory> {
        for repo in 0..self.repos {
            self.behind.push(Event::Settle { repo })?;
        }
        Ok(())
    }

    /// A repository is restarted, or goes down, behind the event.
    fn falls(&mut self) -> Result<(), NoMemory> {
        if self.draws.comes(60) {
            return self.restart();
        }
        let repo = self.draws.below(self.repos);
        let calls = self.draws.below(10);
        self.behind.push(Event::Stop { repo, calls })?;
        Ok(())
    }

    fn draw(&mut self) -> Result<(), NoMemory> {
        match self.draws.below(10) {
            0 => self.tell_before(),
            1 => self.other_ran(),
            2 => self.falls(),
            3 => self.writes(),
            4 => {
                self.stop()?;
                self.restart()?;
                self.settles()
            }
            5 => {
                self.other_ran()?;
                self.tell_before()
            }
            _ => self.stopped(),
        }
    }
}

/// The numbers of deeds, those more often at which more may go wrong.
const LIKED: [u8; 40] = [
    12, 12, 12, 12, 12, 12, 11, 11, 11, 11, 14, 14, 14, 14, 13, 13, 10, 10, 10, 8, 8, 9, 7, 6, 5,
    4, 2, 15, 16, 16, 16, 17, 18, 19, 20, 21, 21, 22, 22, 23,
];

fn liked(draws: &mut Draws) -> usize {
    match LIKED.as_slice().get(usize::from(draws.below(40))) {
        Some(deed) => usize::from(*deed),
        None => 0,
    }
}

/// One of the events at which something happened.
fn chosen(draws: &mut Draws, log: &[Told]) -> Option<Told> {
    for _ in 0..20u8 {
        let deed = liked(draws);
        let few = count_of(log, deed);
        if few > 0 {
            return found(log, deed, draws.below(few));
        }
    }
    None
}

/// How many events have come to a deed, 255 at most.
fn count_of(log: &[Told], deed: usize) -> u8 {
    let mut count = 0u8;
    for told in log {
        if told.deed == deed {
            count = count.saturating_add(1);
        }
    }
    count
}

/// The event that has come to a deed, behind so many others.
fn found(log: &[Told], deed: usize, behind: u8) -> Option<Told> {
    let mut left = behind;
    for told in log {
        if told.deed == deed {
            if left == 0 {
                return Some(*told);
            }
            left = left.saturating_sub(1);
        }
    }
    None
}

/// The place of the piece that is the event of a number.
fn place_of(pieces: &[Piece], event: usize) -> Option<usize> {
    let mut left = event;
    for (place, piece) in pieces.iter().enumerate() {
        if let What::Event(_) = &piece.what {
            if left == 0 {
                return Some(place);
            }
            left = left.saturating_sub(1);
        }
    }
    None
}

/// Puts events into the pieces, from a place on.
fn put(pieces: &mut Vec<Piece>, place: usize, events: &[Event]) -> Result<(), NoMemory> {
    let mut place = place;
    for event in events {
        if place <= pieces.len() {
            pieces.insert(
                place,
                Piece {
                    depth: 1,
                    is_away: false,
                    what: What::Event(*event),
                },
            )?;
        }
        place = place.saturating_add(1);
    }
    Ok(())
}

/// Puts the events of a trouble into the pieces.
fn put_trouble(
    pieces: &mut Vec<Piece>,
    event: usize,
    before: &[Event],
    behind: &[Event],
) -> Result<(), NoMemory> {
    if let Some(place) = place_of(pieces, event) {
        put(pieces, place.saturating_add(1), behind)?;
        put(pieces, place, before)?;
    }
    Ok(())
}

/// Makes trouble in a schedule, by what its events have come to in a run. It answers whether there was an event for it.
pub fn make_trouble(
    alloc: Global,
    script: &mut Script,
    draws: &mut Draws,
    log: &[Told],
) -> Result<bool, NoMemory> {
    if script.pieces.len() > MOST {
        return Ok(false);
    }
    let Some(told) = chosen(draws, log) else {
        return Ok(false);
    };
    let mut trouble = Trouble {
        draws,
        told,
        repos: script.options.repos,
        clients: script.clients,
        before: Vec::new(alloc),
        behind: Vec::new(alloc),
    };
    trouble.draw()?;
    let Trouble { before, behind, .. } = trouble;
    put_trouble(&mut script.pieces, told.event, &before, &behind)?;
    Ok(true)
}
