//! Repositories behind their locks.

ghost use Rattle.std.specs.Prelude.{vec_capacity, vec_len, ◌≡◌, ◌≤◌};

use cluster_core::Seat;
use disk_trait::Parts;
use outside::Gate;
use std::marker::Brand;
use std::sync::{Condvar, Mutex, MutexGuard, Wait};
use std::time::Duration;

/// The gate's point inside an event of repository 0; that of each other one is its number further on.
const EVENTS: u32 = 1_000;

/// How long a client sleeps at most where it waits for another one's decision, in milliseconds.
const LONGEST_SLEEP: u64 = 1_000;

/// A repository behind its lock, with what tells that a transaction was decided there.
#[derive(Drop)]
pub(crate) struct Locked<P: Parts> {
    seat: Mutex<Seat<P, Brand>>,
    decided: Condvar,
}

/// How many decisions a repository had told of.
#[derive(Clone, Copy)]
pub(crate) struct Decisions(u64);

/// The repositories of a store behind their locks, with the gate that each of their events passes.
#[derive(Drop)]
pub(crate) struct Locks<'a, R: Wait, P: Parts, G: Gate> {
    pub(crate) rt: &'a R,
    pub(crate) gate: &'a G,
    /// The repositories, in their order.
    pub(crate) seats: &'a [Locked<P>],
    /// How many bytes the buffer of a repository has at most where it isn't flushed.
    pub(crate) half: u32,
}

impl<'a, R: Wait, P: Parts, G: Gate> Locks<'a, R, P, G> {
    /// Takes the lock of a repository; nothing where there is no such repository.
    pub(crate) fn lock(&self, repo: u8) -> Option<MutexGuard<'a, Seat<P, Brand>>> {
        let locked = self.seats.get(usize::from(repo))?;
        Some(locked.seat.lock(self.rt))
    }

    /// Passes the gate inside an event of a repository, whose lock is held.
    pub(crate) fn pass(&self, repo: u8) {
        self.gate.pass(EVENTS + u32::from(repo));
    }

    /// Takes the lock of a repository for an event; nothing where there is no such repository.
    pub(crate) fn enter(&self, repo: u8) -> Option<MutexGuard<'a, Seat<P, Brand>>> {
        let seat = self.lock(repo)?;
        self.pass(repo);
        Some(seat)
    }

    /// Tells those that wait for a decision of this repository that it has made one. Its lock is held.
    pub(crate) fn tell_decided(&self, repo: u8) {
        if let Some(locked) = self.seats.get(usize::from(repo)) {
            locked.decided.notify_all();
        }
    }

    /// How many decisions this repository has told of. Its lock is held: so each one that it makes later is one more.
    pub(crate) fn decisions(&self, repo: u8) -> Decisions {
        match self.seats.get(usize::from(repo)) {
            Some(locked) => Decisions(locked.decided.notifications()),
            None => Decisions(0),
        }
    }

    /// Sleeps until this repository tells of more decisions, and for a second at most. No lock is held. It answers
    /// whether there are more.
    pub(crate) fn await_decision(&self, repo: u8, before: Decisions) -> bool {
        let Some(locked) = self.seats.get(usize::from(repo)) else {
            return false;
        };
        let longest = Duration::from_millis(LONGEST_SLEEP);
        locked.decided.sleep(self.rt, before.0, longest);
        locked.decided.notifications() != before.0
    }
}

/// Puts repositories behind locks, one each. There is room for them.
pub(crate) fn lock_all<P: Parts>(seats: Vec<Seat<P, Brand>>, room: Vec<Locked<P>>) -> Vec<Locked<P>>
    requires empty { vec_len room ≡ 0 }
    requires room { vec_len seats ≤ vec_capacity room }
    ensures { vec_len result ≡ vec_len seats }
{
    let mut locks = room;
    for seat in seats {
        locks.push_reserved(Locked {
            seat: Mutex::new(seat),
            decided: Condvar::new(),
        });
    }
    locks
}

/// Takes repositories out of their locks. There is room for them.
pub(crate) fn unlock_all<P: Parts>(
    locks: Vec<Locked<P>>,
    room: Vec<Seat<P, Brand>>,
) -> Vec<Seat<P, Brand>>
    requires empty { vec_len room ≡ 0 }
    requires room { vec_len locks ≤ vec_capacity room }
    ensures { vec_len result ≡ vec_len locks }
{
    let mut seats = room;
    for lock in locks {
        let Locked { seat, decided: _ } = lock;
        seats.push_reserved(seat.into_inner());
    }
    seats
}
