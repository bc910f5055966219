//! Numbers that look drawn and are the same in each run.

ghost use Rattle.std.specs.Prelude.{◌≡◌, ◌/◌, ◌^◌};
ghost use Rattle.script_bank.specs.Bank.{next_state};

/// A linear congruential generator for 64 bits (Knuth's constants).
#[derive(Clone, Copy)]
pub struct Numbers {
    pub state: u64,
}

const FACTOR: u128 = 6_364_136_223_846_793_005;

const SUMMAND: u128 = 1_442_695_040_888_963_407;

impl Numbers {
    /// The next number, below 2^31.
    pub fn next(&mut self) -> u64
        ensures state { self.new.state ≡ next_state self.old.state }
        ensures number { result ≡ self.new.state / 2 ^ 33 }
    {
        self.state = ((u128::from(self.state) * FACTOR + SUMMAND) % (1 << 64)) as u64;
        self.state / (1 << 33)
    }
}
