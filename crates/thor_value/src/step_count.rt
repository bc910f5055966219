//! A count of steps, by which contracts say what a call costs.

ghost use Rattle.std.specs.Prelude.{ℕ, ◌+◌, ◌<◌, ◌≡◌};

use std::marker::Model;
use std::sync::ledger::{Blank, Book, Ledger, Share};

/// How many steps were taken: what a step is, the call says that counts them. It has no bytes, and
/// costs nothing when it runs.
#[derive(Drop)]
pub struct StepCount<L: Ledger> {
    book: Book<L>,
    share: Share<L>,
}

impl<L: Ledger> Model for StepCount<L> {
    ghost use Rattle.std.specs.Prelude.{ℕ, ◌<◌};

    ghost Value = { ℕ };

    ghost view = { λ count. count.book.total };

    ghost invariant = { λ count. 0 < count.share.parts };
}

impl<L: Ledger> StepCount<L> {
    /// A count of its own, from 0. `Blank::new(1)` gives the ledger.
    pub fn new(ledger: Blank) -> StepCount<L>
        requires name { ledger.name ≡ L.name }
        requires parts { ledger.parts ≡ L.parts }
        requires some { 0 < ledger.parts }
        ensures { result ≡ 0 }
    {
        let (book, share) = ledger.open();
        StepCount { book, share }
    }

    /// Counts one more step.
    pub fn tick(&mut self)
        ensures { self.new ≡ self.old + 1 }
    {
        self.book.add(&mut self.share, 1);
    }
}
