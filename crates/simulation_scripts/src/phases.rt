//! The schedule: phases, in which the same kind of thing happens for a while.

use crate::draws::Draws;
use crate::pieces::{Event, Pieces};
use crate::world::World;
use std::alloc::Global;
use thor_value::NoMemory;

/// How many kinds of phases there are.
const KINDS: u8 = 13;

/// The most events of a schedule.
const MOST: usize = 400;

/// The schedule that is made, and which kinds of phases it likes.
#[derive(Drop)]
pub(crate) struct Phases<'a> {
    pub pieces: &'a mut Pieces,
    pub draws: &'a mut Draws,
    pub world: &'a World,
    weights: Vec<u8>,
    /// The most that a phase takes of one thing.
    length: u8,
}

/// How often each kind comes: many of them never, in one script.
fn draw_weights(alloc: Global, draws: &mut Draws) -> Result<Vec<u8>, NoMemory> {
    let mut weights = Vec::new(alloc);
    for _ in 0..KINDS {
        let weight = if draws.comes(50) {
            0
        } else {
            draws.within(1, 9)
        };
        weights.push(weight)?;
    }
    Ok(weights)
}

impl<'a> Phases<'a> {
    /// Phases with weights of their own.
    pub(crate) fn drawn(
        pieces: &'a mut Pieces,
        draws: &'a mut Draws,
        world: &'a World,
    ) -> Result<Phases<'a>, NoMemory> {
        let alloc = pieces.alloc;
        let weights = draw_weights(alloc, draws)?;
        let length = draws.within(3, 16);
        Ok(Phases {
            pieces,
            draws,
            world,
            weights,
            length,
        })
    }

    fn client(&mut self) -> u8 {
        self.draws.within(1, self.world.clients)
    }

    fn repo(&mut self) -> u8 {
        self.draws.below(self.world.repos)
    }

    /// How often something is done in a phase.
    fn times(&mut self) -> u8 {
        self.draws.within(1, self.length)
    }

    /// What a restart leaves: what was synced, all that was written, or torn bytes.
    fn pick(&mut self) -> u8 {
        match self.draws.below(5) {
            0 | 1 => 0,
            2 | 3 => 1,
            _ => self.draws.within(2, 250),
        }
    }

    fn event(&mut self, event: Event) -> Result<(), NoMemory> {
        self.pieces.event(event)
    }

    /// A client takes so many steps.
    fn steps(&mut self, client: u8, times: u8) -> Result<(), NoMemory> {
        for _ in 0..times {
            self.event(Event::Step { client })?;
        }
        Ok(())
    }

    /// A client runs.
    fn run(&mut self) -> Result<(), NoMemory> {
        let client = self.client();
        let times = self.times();
        self.steps(client, times)
    }

    /// Clients take steps as it comes.
    fn mixed(&mut self) -> Result<(), NoMemory> {
        for _ in 0..self.times() {
            let client = self.client();
            self.event(Event::Step { client })?;
        }
        Ok(())
    }

    /// Each client takes a step, a few times.
    fn in_turn(&mut self) -> Result<(), NoMemory> {
        for _ in 0..self.draws.within(1, 4) {
            for place in 0..self.world.clients {
                let client = place.saturating_add(1);
                self.event(Event::Step { client })?;
            }
        }
        Ok(())
    }

    /// A session's messages come in a burst.
    fn burst(&mut self) -> Result<(), NoMemory> {
        let client = self.client();
        let repo = self.repo();
        for _ in 0..self.draws.within(1, 4) {
            self.event(Event::Deliver { client, repo })?;
        }
        Ok(())
    }

    /// Each client is told what is new, sometimes by more than one message.
    fn told(&mut self) -> Result<(), NoMemory> {
        for place in 0..self.world.clients {
            let client = place.saturating_add(1);
            self.told_to(client)?;
        }
        Ok(())
    }

    /// Messages of some repositories come to a client.
    fn told_to(&mut self, client: u8) -> Result<(), NoMemory> {
        for repo in 0..self.world.repos {
            for _ in 0..self.draws.below(3) {
                self.event(Event::Deliver { client, repo })?;
            }
        }
        Ok(())
    }

    /// A repository stops in the middle of a step, and comes back at once.
    fn stopped(&mut self) -> Result<(), NoMemory> {
        let repo = self.repo();
        let client = self.client();
        self.stop_in(repo, client)?;
        let pick = self.pick();
        self.event(Event::Restart { repo, pick })
    }

    /// A repository stops in a step of a client.
    fn stop_in(&mut self, repo: u8, client: u8) -> Result<(), NoMemory> {
        let calls = self.draws.within(1, 6);
        self.event(Event::Stop { repo, calls })?;
        self.event(Event::Step { client })
    }

    /// A client runs, a repository stops in its next step and comes back, another client runs, messages come, and the
    /// first one goes on.
    fn crossed(&mut self) -> Result<(), NoMemory> {
        let first = self.client();
        let other = self.client();
        let repo = self.repo();
        let times = self.draws.within(3, 14);
        self.steps(first, times)?;
        self.stop_in(repo, first)?;
        let pick = self.pick();
        self.event(Event::Restart { repo, pick })?;
        let times = self.draws.within(4, 24);
        self.steps(other, times)?;
        self.told_to(first)?;
        let times = self.draws.below(4);
        self.steps(first, times)
    }

    /// A repository stops soon, and comes back later or never.
    fn stop(&mut self) -> Result<(), NoMemory> {
        let repo = self.repo();
        let calls = self.draws.below(14);
        self.event(Event::Stop { repo, calls })
    }

    /// A repository is restarted.
    fn restart(&mut self) -> Result<(), NoMemory> {
        let repo = self.repo();
        let pick = self.pick();
        self.event(Event::Restart { repo, pick })
    }

    /// Repositories ask about what they have prepared.
    fn settle(&mut self) -> Result<(), NoMemory> {
        for _ in 0..self.draws.within(1, 3) {
            let repo = self.repo();
            self.event(Event::Settle { repo })?;
        }
        Ok(())
    }

    /// A repository flushes.
    fn flush(&mut self) -> Result<(), NoMemory> {
        let repo = self.repo();
        for _ in 0..self.draws.within(1, 3) {
            self.event(Event::Flush { repo })?;
        }
        Ok(())
    }

    /// A repository makes a checkpoint.
    fn checkpoint(&mut self) -> Result<(), NoMemory> {
        let repo = self.repo();
        self.event(Event::Checkpoint { repo })
    }

    /// A repository stops in a flush or a checkpoint.
    fn stopped_writing(&mut self) -> Result<(), NoMemory> {
        let repo = self.repo();
        let calls = self.draws.within(1, 9);
        self.event(Event::Stop { repo, calls })?;
        if self.draws.comes(50) {
            self.event(Event::Flush { repo })?;
        } else {
            self.event(Event::Checkpoint { repo })?;
        }
        if self.draws.comes(70) {
            let pick = self.pick();
            self.event(Event::Restart { repo, pick })?;
        }
        Ok(())
    }

    /// The kind of the next phase, by the weights.
    fn kind(&mut self) -> u8 {
        let mut all = 0u8;
        for weight in self.weights.as_slice() {
            all = all.saturating_add(*weight);
        }
        let mut left = self.draws.below(all);
        let mut kind = 0u8;
        for weight in self.weights.as_slice() {
            if left < *weight {
                return kind;
            }
            left = left.saturating_sub(*weight);
            kind = kind.saturating_add(1);
        }
        kind
    }

    fn phase(&mut self) -> Result<(), NoMemory> {
        match self.kind() {
            0 => self.mixed(),
            1 => self.in_turn(),
            2 => self.burst(),
            3 => self.stopped(),
            4 => self.crossed(),
            5 => self.stop(),
            6 => self.restart(),
            7 => self.settle(),
            8 => self.flush(),
            9 => self.checkpoint(),
            10 => self.stopped_writing(),
            11 => self.told(),
            _ => self.run(),
        }
    }

    /// A repository stops while clients take steps.
    pub(crate) fn stopping(&mut self) -> Result<(), NoMemory> {
        self.stop()?;
        self.mixed()?;
        self.run()
    }

    /// Puts the events of a schedule.
    pub(crate) fn schedule(&mut self) -> Result<(), NoMemory> {
        let most = self.pieces.items.len().saturating_add(MOST);
        for _ in 0..self.draws.within(0, 8) {
            if self.pieces.items.len() < most {
                self.phase()?;
                if self.draws.comes(50) {
                    self.run()?;
                }
            }
        }
        self.rest()
    }

    /// The clients take steps, by runs or as it comes, about as many as their items take.
    fn rest(&mut self) -> Result<(), NoMemory> {
        let runs = self.draws.comes(60);
        let rounds = self.world.clients.saturating_mul(self.world.items);
        for _ in 0..rounds {
            if runs {
                self.run()?;
            } else {
                self.mixed()?;
            }
        }
        Ok(())
    }
}
