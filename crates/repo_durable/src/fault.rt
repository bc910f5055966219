//! Why a repository wasn't opened, and how faults of the layers below are told.

ghost use Rattle.std.specs.Prelude.{◌≡◌, true, ℕ};
ghost use Rattle.disk_trait.specs.declared.parts.Outage.TheVariants.{Failed as DiskFailed};
ghost use Rattle.log_frame.specs.declared.fault.LogFault.TheVariants.{Damaged as AtLog, Failed as LogFailed};
ghost use Rattle.page_store.specs.declared.fault.StoreFault.TheVariants.{Damaged as AtPages, Failed as PagesFailed};
ghost use Rattle.recovery.specs.declared.fault.RecoverFault.TheVariants.{Damaged as AtRecovery, Failed as RecoveryFailed};
ghost use Rattle.repo_durable.specs.Failing.{is_stopped};
ghost use Rattle.repo_durable.specs.Causes.{is_log_failed, is_outage_failed, is_pages_failed, is_recovery_failed, cause_of_log, cause_of_outage, cause_of_store};
ghost use Rattle.repo_durable.specs.Kept.{is_fault, repo_named};
ghost use Rattle.repo_durable.specs.declared.fault.OpenCause.TheVariants.{NoMemory as OutOfMemory};
ghost use Rattle.repo_refusals.specs.declared.refusal.Refusal.TheVariants.{Damaged as IsDamaged, Stopped as IsStopped};

use disk_trait::Outage;
use log_frame::LogFault;
use page_store::StoreFault;
use recovery::RecoverFault;
use repo_refusals::Refusal;
use thor_value::NoMemory;

/// Why a repository wasn't opened.
#[derive(Clone, Copy, Debug, PartialEq, Eq)]
pub enum OpenCause {
    /// A disk failed. Its count of faults rose.
    Failed,
    /// A disk gave other bytes than as it was recovered.
    Changed,
    /// Memory was not there.
    NoMemory,
}

impl From<NoMemory> for OpenCause {
    ghost from_gives = { λ _ cause. cause ≡ OutOfMemory };

    fn from(_refused: NoMemory) -> OpenCause {
        OpenCause::NoMemory
    }
}

impl From<Outage> for OpenCause {
    ghost from_gives = { λ outage cause. cause ≡ cause_of_outage outage };

    fn from(outage: Outage) -> OpenCause {
        match outage {
            Outage::Failed => OpenCause::Failed,
            Outage::NoMemory => OpenCause::NoMemory,
        }
    }
}

impl From<StoreFault> for OpenCause {
    ghost from_gives = { λ fault cause. cause ≡ cause_of_store fault };

    fn from(fault: StoreFault) -> OpenCause {
        match fault {
            StoreFault::NoMemory => OpenCause::NoMemory,
            StoreFault::Failed => OpenCause::Failed,
            StoreFault::Damaged { .. } => OpenCause::Changed,
        }
    }
}

impl From<LogFault> for OpenCause {
    ghost from_gives = { λ fault cause. cause ≡ cause_of_log fault };

    fn from(fault: LogFault) -> OpenCause {
        match fault {
            LogFault::NoMemory => OpenCause::NoMemory,
            LogFault::Failed => OpenCause::Failed,
            LogFault::Damaged { .. } => OpenCause::Changed,
        }
    }
}

/// A repository that wasn't opened: its parts, and why.
#[derive(Drop)]
pub struct OpenFault<P> {
    pub parts: P,
    pub cause: OpenCause,
}

/// The refusal of a call of the repository in which its log had a fault.
pub(crate) fn of_log(repo: u8, fault: LogFault) -> Refusal
    ensures fault { is_fault result ≡ true }
    ensures names { repo_named repo result ≡ repo }
    ensures damaged { (r place : ℕ) → result ≡ IsDamaged r place → (at : ℕ) × (fault ≡ AtLog at) }
    ensures stopped { (r : ℕ) → result ≡ IsStopped r → fault ≡ LogFailed }
    ensures stops { is_stopped result ≡ is_log_failed fault }
{
    match fault {
        LogFault::Failed => Refusal::Stopped { repo },
        LogFault::Damaged { place } => Refusal::Damaged { repo, place },
        LogFault::NoMemory => Refusal::NoMemory,
    }
}

/// The refusal of a call in which its pages had a fault.
pub(crate) fn of_store(repo: u8, fault: StoreFault) -> Refusal
    ensures fault { is_fault result ≡ true }
    ensures names { repo_named repo result ≡ repo }
    ensures damaged { (r place : ℕ) → result ≡ IsDamaged r place → fault ≡ AtPages place }
    ensures stopped { (r : ℕ) → result ≡ IsStopped r → fault ≡ PagesFailed }
    ensures stops { is_stopped result ≡ is_pages_failed fault }
{
    match fault {
        StoreFault::Failed => Refusal::Stopped { repo },
        StoreFault::Damaged { place } => Refusal::Damaged { repo, place },
        StoreFault::NoMemory => Refusal::NoMemory,
    }
}

/// The refusal of a restart in which a disk had an outage.
pub(crate) fn of_outage(repo: u8, outage: Outage) -> Refusal
    ensures fault { is_fault result ≡ true }
    ensures names { repo_named repo result ≡ repo }
    ensures damaged { (r place : ℕ) → result ≡ IsDamaged r place → ⊥ }
    ensures stopped { (r : ℕ) → result ≡ IsStopped r → outage ≡ DiskFailed }
    ensures stops { is_stopped result ≡ is_outage_failed outage }
{
    match outage {
        Outage::Failed => Refusal::Stopped { repo },
        Outage::NoMemory => Refusal::NoMemory,
    }
}

/// The refusal of a restart that couldn't recover.
pub(crate) fn of_recovery(repo: u8, fault: RecoverFault) -> Refusal
    ensures fault { is_fault result ≡ true }
    ensures names { repo_named repo result ≡ repo }
    ensures damaged { (r place : ℕ) → result ≡ IsDamaged r place → (d at : ℕ) × (fault ≡ AtRecovery d at) }
    ensures stopped { (r : ℕ) → result ≡ IsStopped r → (d : ℕ) × (fault ≡ RecoveryFailed d) }
    ensures stops { is_stopped result ≡ is_recovery_failed fault }
{
    match fault {
        RecoverFault::Failed { disk: _ } => Refusal::Stopped { repo },
        RecoverFault::Damaged { disk: _, place } => Refusal::Damaged { repo, place },
        RecoverFault::NoMemory => Refusal::NoMemory,
    }
}
