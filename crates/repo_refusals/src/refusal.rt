//! Why a repository refuses a call.

ghost use Rattle.std.specs.Prelude.{◌≡◌};
ghost use Rattle.repo_refusals.specs.declared.refusal.Refusal.TheVariants as refused;

use base_reasons::Reason;
use thor_value::NoMemory;

/// Why a repository refuses a call. After `Reason` nothing has changed but the trace, which gets a mark
/// where the call says so.
#[derive(Clone, Copy, Debug, PartialEq, Eq)]
pub enum Refusal {
    /// The repository is in order, and has this against the call.
    Reason(Reason),
    /// The repository was down when it was called.
    Down {
        /// The repository.
        repo: u8,
    },
    /// A disk failed in this call. The repository is down until a restart.
    Stopped {
        /// The repository.
        repo: u8,
    },
    /// A disk gave bytes that are none of a store's. The repository is down until a restart.
    Damaged {
        /// The repository.
        repo: u8,
        /// Where the bytes stand.
        place: u64,
    },
    /// Memory was not there. The repository is down until a restart.
    NoMemory,
}

impl From<NoMemory> for Refusal {
    ghost from_gives = { λ _ refusal. refusal ≡ refused.NoMemory };

    fn from(_refused: NoMemory) -> Refusal {
        Refusal::NoMemory
    }
}
