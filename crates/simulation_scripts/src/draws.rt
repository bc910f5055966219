//! Numbers that look drawn and are the same on every machine.

ghost use Rattle.std.specs.Prelude.{◌<◌, ◌≤◌};

/// A generator of numbers. The same seed gives the same ones.
#[derive(Drop)]
pub struct Draws {
    state: u64,
}

const STEP: u64 = 11_400_714_819_323_198_485;

const FIRST_FACTOR: u64 = 13_787_848_793_156_543_929;

const SECOND_FACTOR: u64 = 10_723_151_780_598_845_931;

impl Draws {
    /// Draws by a seed.
    pub fn new(seed: u64) -> Draws {
        Draws { state: seed }
    }

    /// The next number of 64 bits.
    pub fn number(&mut self) -> u64 {
        self.state = self.state.wrapping_add(STEP);
        let once = (self.state ^ (self.state >> 30)).wrapping_mul(FIRST_FACTOR);
        let twice = (once ^ (once >> 27)).wrapping_mul(SECOND_FACTOR);
        twice ^ (twice >> 31)
    }

    /// A number below a bound; 0 where the bound is 0.
    pub fn below(&mut self, bound: u8) -> u8
        ensures { 0 < bound → result < bound }
    {
        if bound == 0 {
            return 0;
        }
        (self.number() % u64::from(bound)) as u8
    }

    /// A number from the least to the greatest of these; the least where the greatest is below it.
    pub fn within(&mut self, least: u8, greatest: u8) -> u8 {
        let more = greatest.saturating_sub(least).saturating_add(1);
        least.saturating_add(self.below(more))
    }

    /// Whether something comes that comes so many times in a hundred.
    pub fn comes(&mut self, percent: u8) -> bool {
        self.below(100) < percent
    }
}
