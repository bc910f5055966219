//! Why a try ends that was refused.

ghost use Rattle.client_state.specs.Causes.{cause_behind};
ghost use Rattle.client_state.specs.Pending.{HasStopped};
ghost use Rattle.std.specs.Prelude.{◌≡◌, None, OnErr, IfOk, IsTrue, Some, not};

use repo_refusals::Refusal;
use serial_model::Cause;
use thor_value::NoMemory;

/// Why a try ends that a repository refused.
pub fn cause_of(refusal: Refusal, repo: u8) -> Result<Cause, NoMemory>
    ensures cause { IfOk result (λ cause. cause_behind refusal repo ≡ Some cause) }
    ensures none { OnErr result (cause_behind refusal repo ≡ None) }
{
    match refusal {
        Refusal::Reason(reason) => Ok(Cause::Reason(reason)),
        Refusal::Down { .. } | Refusal::Stopped { .. } | Refusal::Damaged { .. } => {
            Ok(Cause::Down { repo })
        }
        Refusal::NoMemory => Err(NoMemory),
    }
}

/// Whether the call stopped: what it was to do may still come.
pub fn has_stopped(refusal: Refusal) -> bool
    ensures stopped { IsTrue result → HasStopped refusal }
    ensures other { IsTrue (not result) → HasStopped refusal → ⊥ }
{
    match refusal {
        Refusal::Stopped { .. } => true,
        Refusal::Reason(_) | Refusal::Down { .. } | Refusal::Damaged { .. } | Refusal::NoMemory =>
            false,
    }
}
