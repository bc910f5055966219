ghost use Rattle.std.specs.Prelude.{◌≡◌, ◌+◌, ◌-◌, ◌^◌, ℕ, max, min};
ghost use Rattle.disk_trait.specs.Ticks.{ticks_from, ticks_after};

use std::marker::Model;
use std::rt;
use std::time::SystemTime;

/// A clock. Nothing rests on how well it runs.
pub trait Clock: Drop {
    /// The greatest number that it gave, 0 before the first.
    ghost greatest: { Self → ℕ };

    /// `gives clock now then`: asked, the clock may give the number `now` and be `then` afterwards.
    ghost gives: { Self → ℕ → Self → Type 0 };

    /// Any number.
    fn now(&mut self) -> u64
        ensures greatest { greatest self.new ≡ max (greatest self.old) result }
        ensures asked { gives self.old result self.new };
}

/// A clock that counts how often it was asked, and stays at the greatest `u64`.
#[derive(Debug, Drop)]
pub struct TickClock {
    next: u64,
    greatest: u64,
}

impl Model for TickClock {
    ghost use Rattle.disk_trait.specs.Ticks.{Ticks};

    ghost Value = { Ticks };

    ghost view = { λ clock. record { next = clock.next; greatest = clock.greatest } };
}

impl TickClock {
    /// Gives `first`, then `first + 1`, and so on.
    pub fn new(first: u64) -> TickClock
        ensures { result ≡ ticks_from first }
    {
        TickClock {
            next: first,
            greatest: 0,
        }
    }
}

impl Clock for TickClock {
    ghost greatest = { λ clock. clock.greatest };

    ghost gives = { λ clock now then. (now ≡ clock.next) × (then ≡ ticks_after clock) };

    fn now(&mut self) -> u64 {
        let now = self.next;
        self.greatest = self.greatest.max(now);
        self.next = now.saturating_add(1);
        now
    }
}

/// The machine's clock, in milliseconds since 1970.
#[derive(Drop)]
pub struct SystemClock<R: rt::Clock + Drop> {
    rt: R,
    last: u64,
    greatest: u64,
}

impl<R: rt::Clock + Drop> SystemClock<R> {
    ghost use Rattle.disk_trait.specs.SystemTime.{no_number_yet};

    /// A clock that gave no number yet.
    pub fn new(rt: R) -> SystemClock<R>
        ensures { no_number_yet result }
    {
        SystemClock {
            rt,
            last: 0,
            greatest: 0,
        }
    }
}

impl<R: rt::Clock + Drop> Clock for SystemClock<R> {
    ghost greatest = { λ clock. clock.greatest };

    ghost gives = { λ clock now then. now ≡ then.last };

    /// Where the machine's clock can't be read, its last number again, 0 before the first.
    fn now(&mut self) -> u64 {
        if let Some(read) = milliseconds(&self.rt) {
            self.last = read;
        }
        self.greatest = self.greatest.max(self.last);
        self.last
    }
}

fn milliseconds(rt: &impl rt::Clock) -> Option<u64> {
    let now = SystemTime::now(rt).ok()?;
    let since = now.duration_since(SystemTime::UNIX_EPOCH).ok()?;
    u64::try_from(since.as_millis()).ok()
}
