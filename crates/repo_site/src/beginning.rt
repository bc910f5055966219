//! A repository of a run is opened.

ghost use Rattle.commit_log.specs.Holds.{Holds};
ghost use Rattle.disk_trait.specs.AllDisks.{AllSettled};
ghost use Rattle.log_codec.specs.declared.state.State.{State as AState};
ghost use Rattle.repo_durable.specs.Failing.{HasFailed, NoneFell};
ghost use Rattle.repo_durable.specs.Taking.{AgreesWhere};
ghost use Rattle.repo_durable.specs.declared.fault.OpenCause.TheVariants.{Failed};
ghost use Rattle.repo_core.specs.Shown.{faults_of};
ghost use Rattle.repo_site.specs.Sited.{BeginsAs, BeginsNew, StandsIn};
ghost use Rattle.repo_state.specs.Keeps.{Keeps};
ghost use Rattle.repo_state.specs.Said.{said};
ghost use Rattle.std.specs.Prelude.{IfErr, IfOk, true, ◌≡◌};

use crate::opening::Opening;
use crate::site::Site;
use class_defs::Setup;
use disk_trait::Parts;
use recovery::Recovered;
use repo_core::{OpenFault, Repo};
use std::alloc::Global;

impl<P: Parts, O: Opening> Site<P, O> {
    /// The repository of a number, of so many, over what was recovered from its disks. A Life is written.
    pub fn open(
        alloc: Global,
        parts: P,
        recovered: Recovered,
        number: u8,
        repos: u8,
    ) -> Result<Site<P, O>, OpenFault<P>>
        requires holds { (s : AState) × Holds (P.disks parts) recovered.log s }
        requires said { Holds (P.disks parts) recovered.log (said recovered.state) }
        requires keeps { Keeps recovered.state }
        requires pages { AgreesWhere recovered.state.objects.pages }
        requires begins { BeginsAs O.run number repos recovered.state }
        ensures number { IfOk result (λ site. site.number ≡ number) }
        ensures up { IfOk result (λ site. site.shown.is_up ≡ true) }
        ensures fell { IfOk result (λ site. NoneFell (P.disks parts).faults (faults_of site.shown)) }
        ensures failed { IfErr result (λ fault. fault.cause ≡ Failed → HasFailed (P.disks parts).faults (P.disks fault.parts).faults) }
    {
        match open_repo::<P, O>(alloc, parts, recovered, number, repos) {
            Ok(repo) => Ok(Site::new(number, repos, repo)),
            Err(fault) => Err(fault),
        }
    }

    /// The repository of a number, of so many, of a store that is new. Its first Life is written.
    pub fn format(
        alloc: Global,
        parts: P,
        number: u8,
        repos: u8,
        setup: &Setup,
        mob: u32,
    ) -> Result<Site<P, O>, OpenFault<P>>
        requires settled { AllSettled (P.disks parts) }
        requires begins { BeginsNew O.run number repos setup.now mob }
        ensures number { IfOk result (λ site. site.number ≡ number) }
        ensures up { IfOk result (λ site. site.shown.is_up ≡ true) }
        ensures fell { IfOk result (λ site. NoneFell (P.disks parts).faults (faults_of site.shown)) }
        ensures failed { IfErr result (λ fault. fault.cause ≡ Failed → HasFailed (P.disks parts).faults (P.disks fault.parts).faults) }
    {
        match format_repo::<P, O>(alloc, parts, number, repos, setup, mob) {
            Ok(repo) => Ok(Site::new(number, repos, repo)),
            Err(fault) => Err(fault),
        }
    }
}

/// A repository of what was recovered.
fn open_repo<P: Parts, O: Opening>(
    alloc: Global,
    parts: P,
    recovered: Recovered,
    number: u8,
    repos: u8,
) -> Result<Repo<P>, OpenFault<P>>
    requires holds { (s : AState) × Holds (P.disks parts) recovered.log s }
    requires said { Holds (P.disks parts) recovered.log (said recovered.state) }
    requires keeps { Keeps recovered.state }
    requires pages { AgreesWhere recovered.state.objects.pages }
    requires begins { BeginsAs O.run number repos recovered.state }
    ensures stands { IfOk result (StandsIn O.run number repos) }
    ensures up { IfOk result (λ repo. repo.is_up ≡ true) }
    ensures fell { IfOk result (λ repo. NoneFell (P.disks parts).faults (faults_of repo)) }
    ensures failed { IfErr result (λ fault. fault.cause ≡ Failed → HasFailed (P.disks parts).faults (P.disks fault.parts).faults) }
{
    let _ = number;
    let _ = repos;
    Repo::open(alloc, parts, recovered)
}

/// A repository of a store that is new.
fn format_repo<P: Parts, O: Opening>(
    alloc: Global,
    parts: P,
    number: u8,
    repos: u8,
    setup: &Setup,
    mob: u32,
) -> Result<Repo<P>, OpenFault<P>>
    requires settled { AllSettled (P.disks parts) }
    requires begins { BeginsNew O.run number repos setup.now mob }
    ensures stands { IfOk result (StandsIn O.run number repos) }
    ensures up { IfOk result (λ repo. repo.is_up ≡ true) }
    ensures fell { IfOk result (λ repo. NoneFell (P.disks parts).faults (faults_of repo)) }
    ensures failed { IfErr result (λ fault. fault.cause ≡ Failed → HasFailed (P.disks parts).faults (P.disks fault.parts).faults) }
{
    Repo::format(alloc, parts, number, repos, setup, mob)
}
