ghost use Rattle.std.specs.Prelude.{◌≡◌};
ghost use Rattle.report_summary.specs.Summary as spec;

use serial_model::{Ended, ItemOutcome};

/// How items end, as a summary counts them.
#[derive(Clone, Copy, Debug, PartialEq, Eq)]
pub enum End {
    /// It was committed: as an upgrade, with its values or with a fault.
    Done,
    Refused,
    Unknown,
}

/// Whether an outcome counts as such an end.
fn counts_as(end: End, outcome: &ItemOutcome) -> bool
    ensures { result ≡ spec.counts_as end outcome.now }
{
    match outcome {
        ItemOutcome::Done { .. } | ItemOutcome::Upgraded { .. } | ItemOutcome::Faulted { .. } => end
            == End::Done,
        ItemOutcome::Refused { .. } => end == End::Refused,
        ItemOutcome::Unknown { .. } => end == End::Unknown,
    }
}

/// How many items ended so.
#[tactic(auto, using(std::proofs::lemmas::Grind::common_steps))]
pub fn count_of(end: End, ends: &[Ended]) -> usize
    ensures { result ≡ spec.count_of end ends.now }
{
    let mut count = 0;
    for ended in ends {
        if counts_as(end, &ended.outcome) {
            count += 1;
        }
    }
    count
}
