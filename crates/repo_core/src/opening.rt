//! A repository is opened.

ghost use Rattle.std.specs.Prelude.{◌≡◌, ◌+◌, ◌≤◌, IfErr, IfOk, List, Some, false, true, ℕ};
ghost use Rattle.log_entries.specs.declared.entry.Entry.TheVariants.{Life as ALife};
ghost use Rattle.disk_trait.specs.AllDisks.{AllSettled, TellsAll};
ghost use Rattle.repo_state.specs.Keeps.{Keeps};
ghost use Rattle.repo_state.specs.Said.{said};
ghost use Rattle.log_codec.specs.declared.state.State.{State as AState};
ghost use Rattle.repo_durable.specs.Kept.{IsKept, disks_of, held_of, is_up};
ghost use Rattle.repo_durable.specs.Saying.{IsSaid};
ghost use Rattle.repo_durable.specs.Taking.{AgreesWhere};
ghost use Rattle.commit_log.specs.Holds.{Holds};
ghost use Rattle.repo_format.specs.Pages.{HasRoots};
ghost use Rattle.repo_trace.specs.Recorded.{nothing, with_entry};
ghost use Rattle.repo_core.specs.Restarting.{Begins, IsNew};
ghost use Rattle.disk_trait.specs.Disks.{WhereTold};
ghost use Rattle.repo_durable.specs.Pages.{ArePages, HasPages};
ghost use Rattle.repo_core.specs.Shown.{ShowsPages, faults_of};
ghost use Rattle.repo_durable.specs.Failing.{HasFailed, NoneFell, is_stopped};
ghost use Rattle.repo_durable.specs.declared.fault.OpenCause.TheVariants.{Failed};

use crate::repo::Repo;
use class_defs::Setup;
use disk_trait::Parts;
use recovery::Recovered;
use repo_durable::{OpenCause, OpenFault, Stable};
use repo_format::format;
use repo_refusals::Refusal;
use repo_trace::Recorder;
use repo_volatile::Memory;
use std::alloc::Global;

impl<P: Parts> Repo<P> {
    /// A repository of what was recovered from its disks. A Life is written: what an earlier opening left
    /// prepared and this repository coordinates is aborted by it.
    pub fn open(alloc: Global, parts: P, recovered: Recovered) -> Result<Repo<P>, OpenFault<P>>
        requires holds { (s : AState) × Holds (P.disks parts) recovered.log s }
        requires said { Holds (P.disks parts) recovered.log (said recovered.state) }
        requires keeps { Keeps recovered.state }
        requires pages { AgreesWhere recovered.state.objects.pages }
        ensures up { IfOk result (λ repo. repo.is_up ≡ true) }
        ensures readable { TellsAll (P.disks parts) → WhereTold (P.disks parts) 2 (ArePages recovered.state.objects.pages.sides) → IfOk result ShowsPages }
        ensures trace { IfOk result (λ repo. repo.trace ≡ with_entry nothing (ALife (recovered.state.life + 1))) }
        ensures begins { IfOk result (λ repo. Begins recovered.state repo) }
        ensures content { IfOk result (λ repo. repo.pages ≡ (P.disks parts).content 2) }
        ensures clock { IfOk result (λ repo. repo.clock ≡ (P.disks parts).clock) }
        ensures fell { IfOk result (λ repo. NoneFell (P.disks parts).faults (faults_of repo)) }
        ensures failed { IfErr result (λ fault. fault.cause ≡ Failed → HasFailed (P.disks parts).faults (P.disks fault.parts).faults) }
    {
        let stable = Stable::open(parts, recovered)?;
        begin(alloc, stable)
    }

    /// A repository of a store that is new, with a buffer of so many bytes: the setup's roots stand on its pages as they
    /// begin, and nothing else, and an empty log is begun. Then its first Life is written.
    pub fn format(
        alloc: Global,
        parts: P,
        repo: u8,
        repos: u8,
        setup: &Setup,
        mob: u32,
    ) -> Result<Repo<P>, OpenFault<P>>
        requires { AllSettled (P.disks parts) }
        ensures up { IfOk result (λ repo. repo.is_up ≡ true) }
        ensures readable { TellsAll (P.disks parts) → IfOk result ShowsPages }
        ensures trace { IfOk result (λ repo. repo.trace ≡ with_entry nothing (ALife 1)) }
        ensures begins { IfOk result (λ x. IsNew repo repos setup.now mob x) }
        ensures roots { IfOk result (λ x. (disk : List ℕ) → x.pages ≡ Some disk → HasRoots repo setup.now x.held.objects.pages.sides disk) }
        ensures clock { IfOk result (λ x. (P.disks parts).clock ≤ x.clock) }
        ensures fell { IfOk result (λ x. NoneFell (P.disks parts).faults (faults_of x)) }
        ensures failed { IfErr result (λ fault. fault.cause ≡ Failed → HasFailed (P.disks parts).faults (P.disks fault.parts).faults) }
    {
        let stable = format(alloc, parts, repo, repos, setup, mob)?;
        begin(alloc, stable)
    }
}

/// A repository over what is stable, behind the Life of its opening.
#[tactic(auto, using(crate::proofs::Readable::shown_has, crate::proofs::Begun::begins_so, crate::proofs::Begun::memory_is))]
fn begin<P: Parts>(alloc: Global, stable: Stable<P>) -> Result<Repo<P>, OpenFault<P>>
    requires kept { IsKept P.disks stable }
    requires up { is_up stable ≡ true }
    requires says { IsSaid P.disks stable }
    ensures up { IfOk result (λ repo. repo.is_up ≡ true) }
    ensures readable { HasPages P.disks stable → IfOk result ShowsPages }
    ensures trace { IfOk result (λ repo. repo.trace ≡ with_entry nothing (ALife ((held_of stable).life + 1))) }
    ensures begins { IfOk result (λ repo. Begins (held_of stable) repo) }
    ensures pages { IfOk result (λ repo. repo.pages ≡ (disks_of P.disks stable).content 2) }
    ensures clock { IfOk result (λ repo. repo.clock ≡ (disks_of P.disks stable).clock) }
    ensures fell { IfOk result (λ repo. NoneFell (disks_of P.disks stable).faults (faults_of repo)) }
    ensures failed { IfErr result (λ fault. fault.cause ≡ Failed → HasFailed (disks_of P.disks stable).faults (P.disks fault.parts).faults) }
{
    let Some(opened_in) = stable.held().life().checked_add(1) else {
        return Err(OpenFault {
            parts: stable.into_parts(),
            cause: OpenCause::NoMemory,
        });
    };
    let memory = match Memory::new(alloc, stable.held().threshold()) {
        Ok(memory) => memory,
        Err(_) => {
            return Err(OpenFault {
                parts: stable.into_parts(),
                cause: OpenCause::NoMemory,
            });
        }
    };
    let mut repo = Repo {
        alloc,
        stable,
        memory,
        trace: Recorder::new(alloc),
        opened_in,
    };
    match repo.write_life() {
        Ok(()) => Ok(repo),
        Err(refusal) => Err(unbegun(repo, refusal)),
    }
}

/// What is told of a repository whose first Life was refused, with its parts.
fn unbegun<P: Parts>(repo: Repo<P>, refusal: Refusal) -> OpenFault<P>
    ensures { result.cause ≡ Failed → (is_stopped refusal ≡ true) × NoneFell (faults_of repo) (P.disks result.parts).faults }
{
    let (parts, has_fallen) = repo.into_parts();
    OpenFault {
        parts,
        cause: cause_of(refusal, has_fallen),
    }
}

/// Why a repository wasn't opened whose first Life was refused.
fn cause_of(refusal: Refusal, has_fallen: bool) -> OpenCause
    ensures { result ≡ Failed → (is_stopped refusal ≡ true) × (has_fallen ≡ false) }
{
    match refusal {
        Refusal::Stopped { repo: _ } => cause_of_stop(has_fallen),
        Refusal::Damaged { repo: _, place: _ } => OpenCause::Changed,
        Refusal::NoMemory | Refusal::Down { repo: _ } | Refusal::Reason(_) => OpenCause::NoMemory,
    }
}

/// Why it wasn't where a disk call failed. A stop that fell in one isn't the disk's: none is armed while a repository is opened.
fn cause_of_stop(has_fallen: bool) -> OpenCause
    ensures { result ≡ Failed → has_fallen ≡ false }
{
    if has_fallen {
        return OpenCause::NoMemory;
    }
    OpenCause::Failed
}
