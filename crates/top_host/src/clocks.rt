//! The clocks of repositories.

use disk_trait::{Clock, SystemClock, TickClock};

/// Where the clocks of repositories come from.
pub trait Clocks {
    type Clock: Clock + Send;

    /// A new clock.
    fn clock(&self) -> Self::Clock;
}

/// Clocks that count how often they are asked: a run on them is the same each time.
#[derive(Drop)]
pub struct Counting;

impl Clocks for Counting {
    type Clock = TickClock;

    fn clock(&self) -> TickClock {
        TickClock::new(1)
    }
}

/// The machine's clock.
#[derive(Drop)]
pub struct Machine {
    pub rt: HostRuntime,
}

impl Clocks for Machine {
    type Clock = SystemClock<HostRuntime>;

    fn clock(&self) -> SystemClock<HostRuntime> {
        SystemClock::new(self.rt)
    }
}
