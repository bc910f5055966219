//! A fresh repository is formatted.

ghost use Rattle.std.specs.List.{AllByRecursion};
ghost use Rattle.std.specs.Prelude.{◌≡◌, ◌≤◌, IfErr, IfOk, IsErrOf, None, OnOk, true};
ghost use Rattle.disk_trait.specs.AllDisks.{AllSettled, GoesOn, TellsAll};
ghost use Rattle.disk_trait.specs.Disks.{Disks, WhereTold};
ghost use Rattle.repo_state.specs.Keeps.{Keeps};
ghost use Rattle.repo_state.specs.Said.{said};
ghost use Rattle.log_codec.specs.Checkpoint.{RootFits};
ghost use Rattle.log_frame.specs.Log.{read_log};
ghost use Rattle.repo_durable.specs.Failing.{HasFailed, NoneFell};
ghost use Rattle.repo_durable.specs.Kept.{IsKept, disks_of, held_of, is_up};
ghost use Rattle.repo_durable.specs.Pages.{HasPages};
ghost use Rattle.repo_durable.specs.Saying.{IsSaid};
ghost use Rattle.repo_durable.specs.Taking.{AgreesWhere};
ghost use Rattle.repo_durable.specs.declared.fault.OpenCause.TheVariants.{Failed};
ghost use Rattle.commit_log.specs.Holds.{Holds};
ghost use Rattle.repo_format.specs.Fresh.{IsFresh};
ghost use Rattle.repo_format.specs.Pages.{HasRoots};

use crate::checked::have_names;
use crate::headers::close_header;
use crate::pages::put_roots;
use crate::state::first_state;
use class_defs::Setup;
use commit_log::CommitLog;
use disk_trait::{Disk, Parts};
use page_format::{Sides, StoreFormat};
use recovery::Recovered;
use repo_durable::{OpenCause, OpenFault, Stable};
use repo_state::HeldState;
use std::alloc::Global;

/// What is stable of a repository of a store that is new, with a buffer of so many bytes: the setup's roots stand on its
/// pages as they begin, and nothing else, and an empty log is begun. Want of memory, too, where the setup's roots have
/// names or fields that no store can have.
///
/// Its disks are settled before. After a fault no log is open, or that of the first state.
pub fn format<P: Parts>(
    alloc: Global,
    mut parts: P,
    repo: u8,
    repos: u8,
    setup: &Setup,
    mob: u32,
) -> Result<Stable<P>, OpenFault<P>>
    requires settled { AllSettled (P.disks parts) }
    ensures kept { IfOk result (IsKept P.disks) }
    ensures up { IfOk result (λ stable. is_up stable ≡ true) }
    ensures readable { TellsAll (P.disks parts) → IfOk result (HasPages P.disks) }
    ensures fresh { IfOk result (λ stable. IsFresh repo repos setup.now mob (held_of stable)) }
    ensures says { IfOk result (IsSaid P.disks) }
    ensures roots { IfOk result (λ stable. WhereTold (disks_of P.disks stable) 2 (HasRoots repo setup.now (held_of stable).objects.pages.sides)) }
    ensures clock { IfOk result (λ stable. (P.disks parts).clock ≤ (disks_of P.disks stable).clock) }
    ensures fell { IfOk result (λ stable. NoneFell (P.disks parts).faults (disks_of P.disks stable).faults) }
    ensures failed { IfErr result (λ fault. fault.cause ≡ Failed → HasFailed (P.disks parts).faults (P.disks fault.parts).faults) }
{
    match put_store(alloc, &mut parts, repo, repos, setup, mob) {
        Ok(recovered) => Stable::open(parts, recovered),
        Err(cause) => Err(OpenFault { parts, cause }),
    }
}

/// Puts the pages and the log of a new repository on its disks.
fn put_store<P: Parts>(
    alloc: Global,
    parts: &mut P,
    repo: u8,
    repos: u8,
    setup: &Setup,
    mob: u32,
) -> Result<Recovered, OpenCause>
    requires settled { AllSettled (P.disks parts.old) }
    ensures holds { IfOk result (λ r. Holds (P.disks parts.new) r.log (said r.state)) }
    ensures keeps { IfOk result (λ r. Keeps r.state) }
    ensures pages { IfOk result (λ r. AgreesWhere r.state.objects.pages) }
    ensures fresh { IfOk result (λ r. IsFresh repo repos setup.now mob r.state) }
    ensures roots { IfOk result (λ r. WhereTold (P.disks parts.new) 2 (HasRoots repo setup.now r.state.objects.pages.sides)) }
    ensures clock { (P.disks parts.old).clock ≤ (P.disks parts.new).clock }
    ensures told { OnOk result (TellsAll (P.disks parts.old) → TellsAll (P.disks parts.new)) }
    ensures fell { OnOk result (NoneFell (P.disks parts.old).faults (P.disks parts.new).faults) }
    ensures failed { IsErrOf result Failed → HasFailed (P.disks parts.old).faults (P.disks parts.new).faults }
{
    if !have_names(setup.roots.as_slice()) {
        return Err(OpenCause::NoMemory);
    }
    close_header(parts, Disk::Log0)?;
    close_header(parts, Disk::Log1)?;
    let installed = put_roots(alloc, parts, repo, setup)?;
    begin_log(alloc, parts, repo, repos, setup, installed, mob)
}

/// Begins the log of a new repository with these pages, whose log disks have none.
#[tactic(auto, using(disk_trait::proofs::Several::goes_none))]
fn begin_log<P: Parts>(
    alloc: Global,
    parts: &mut P,
    repo: u8,
    repos: u8,
    setup: &Setup,
    installed: Sides,
    mob: u32,
) -> Result<Recovered, OpenCause>
    requires settled { AllSettled (P.disks parts.old) }
    requires first { WhereTold (P.disks parts.old) 0 (λ bytes. read_log bytes ≡ None) }
    requires second { WhereTold (P.disks parts.old) 1 (λ bytes. read_log bytes ≡ None) }
    requires roots { AllByRecursion RootFits setup.now.roots }
    ensures holds { IfOk result (λ r. Holds (P.disks parts.new) r.log (said r.state)) }
    ensures keeps { IfOk result (λ r. Keeps r.state) }
    ensures pages { IfOk result (λ r. AgreesWhere r.state.objects.pages) }
    ensures fresh { IfOk result (λ r. IsFresh repo repos setup.now mob r.state) }
    ensures sides { IfOk result (λ r. r.state.objects.pages.sides ≡ installed) }
    ensures stays { (P.disks parts.new).content 2 ≡ (P.disks parts.old).content 2 }
    ensures clock { (P.disks parts.old).clock ≤ (P.disks parts.new).clock }
    ensures goes { GoesOn (P.disks parts.old) (P.disks parts.new) }
    ensures failed { IsErrOf result Failed → HasFailed (P.disks parts.old).faults (P.disks parts.new).faults }
{
    let state = first_state(alloc, repo, repos, setup, installed)?;
    let log = CommitLog::format(alloc, parts, &state)?;
    match HeldState::of(alloc, state, mob) {
        Ok(state) => Ok(Recovered {
            state,
            log,
            format: StoreFormat::Two,
            count: 0,
            reopens: false,
        }),
        Err(_) => Err(OpenCause::NoMemory),
    }
}
