//! Two small namings, on which the tests of boards run.

use seen_board::Naming;

/// Histories of the opening alone. What is kept says how many items there are at most.
pub(crate) struct Opened;

impl Naming for Opened {
    type Item = u64;

    type Kept = u64;

    type Call = u64;

    ghost use Rattle.std.specs.Prelude.{replicate};
    ghost use Rattle.test_base.specs.Samples.{opened, opened_lasts};

    ghost items = { λ count. replicate count 0 };

    ghost meaning = { opened };

    ghost lasts = { opened_lasts };
}

/// What lies under the lock of a repository: items of the opening, and the numbers that clients put.
#[derive(Drop)]
pub(crate) struct Log {
    pub(crate) entries: Vec<Option<(u8, u64)>>,
}

/// Histories of such a log. A call has its client, its place and its number.
pub(crate) struct Puts;

impl Naming for Puts {
    type Item = Option<(u8, u64)>;

    type Kept = Log;

    type Call = (u8, u64, u64);

    ghost use Rattle.test_base.specs.Samples.{puts, puts_last};

    ghost items = { λ log. log.entries.items };

    ghost meaning = { puts };

    ghost lasts = { puts_last };
}
