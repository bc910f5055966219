//! A repository of a run.

ghost use Rattle.repo_core.specs.Shown.{Shown, faults_of};
ghost use Rattle.repo_durable.specs.Failing.{NoneFell};
ghost use Rattle.repo_site.specs.Sited.{Happens, IsRightTrace, StandsIn, IsLeftOf};
ghost use Rattle.std.specs.Prelude.{OnErr, OnOk, ◌≡◌, false, true};
ghost use Rattle.repo_refusals.specs.declared.refusal.Refusal.TheVariants.{Down as IsDown, NoMemory as IsNoMemory};
ghost use Rattle.std.specs.Prelude.{IfErr};

use crate::opening::Opening;
use disk_trait::Parts;
use repo_core::{Repo, Trace};
use repo_refusals::Refusal;
use std::marker::{Model, PhantomData};

/// A repository of the run that was opened, which stands right: its history is sound, each item of its trace is exact, and its
/// memory says what its trace says. No call asks anything of its caller.
///
/// A request, a decision, a verdict or a place that no rightful client sends takes it down, and the answer is `NoMemory`; a
/// request only where its session is live.
#[derive(Drop)]
pub struct Site<P: Parts, O: Opening> {
    pub(crate) repo: Repo<P>,
    /// Its number.
    pub(crate) number: u8,
    /// How many repositories there are.
    pub(crate) repos: u8,
    pub(crate) of: PhantomData<O>,
}

impl<P: Parts, O: Opening> Model for Site<P, O> {
    ghost use Rattle.repo_site.specs.Sited.{Sited, StandsIn};

    ghost Value = { Sited };

    ghost view = { λ s. record { number = s.number; shown = s.repo } };

    ghost invariant = { λ s. StandsIn O.run s.number s.repos s.repo };
}

impl<P: Parts, O: Opening> Site<P, O> {
    /// A repository that stands right as the one of this number, of so many.
    pub fn new(number: u8, repos: u8, repo: Repo<P>) -> Site<P, O>
        requires { StandsIn O.run number repos repo }
        ensures number { result.number ≡ number }
        ensures shown { result.shown ≡ repo }
    {
        Site {
            repo,
            number,
            repos,
            of: PhantomData,
        }
    }

    /// Ends it. The repository comes back.
    pub fn into_repo(self) -> Repo<P>
        ensures { result ≡ self.shown }
    {
        let Site { repo, .. } = self;
        repo
    }

    /// Ends it. Its parts come back with its trace. Where it isn't torn, their disks say what was recorded.
    #[tactic(auto, using(crate::proofs::Standing::closed))]
    pub fn close(self) -> (P, Trace)
        ensures right { IsRightTrace O.run self.number result.1 }
        ensures left { self.shown.is_torn ≡ false → IsLeftOf O.run self.number (P.disks result.0) result.1 }
    {
        let Site { repo, .. } = self;
        repo.close()
    }

    /// Ends it. Its parts come back, and whether a stop fell in one of its calls. Where none did, the faults that it has counted
    /// are those of its disks.
    pub fn into_parts(self) -> (P, bool)
        ensures { result.1 ≡ false → NoneFell (faults_of self.shown) (P.disks result.0).faults }
    {
        let Site { repo, .. } = self;
        repo.into_parts()
    }

    /// The repository.
    pub fn repo(&self) -> &Repo<P>
        ensures { result.now ≡ self.now.shown }
    {
        &self.repo
    }

    /// Whether it is up.
    pub fn is_up(&self) -> bool
        ensures { result ≡ self.now.shown.is_up }
    {
        self.repo.is_up()
    }

    /// Whether there was no memory for an entry that its log has. It is down then, and doesn't come up again.
    pub fn is_torn(&self) -> bool
        ensures { result ≡ self.now.shown.is_torn }
    {
        self.repo.is_torn()
    }

    /// Refuses a call on a repository that is down.
    pub(crate) fn check_up(&self) -> Result<(), Refusal>
        ensures up { OnOk result (self.now.shown.is_up ≡ true) }
        ensures down { OnErr result (self.now.shown.is_up ≡ false) }
        ensures refusal { IfErr result (λ r. r ≡ IsDown self.now.number) }
    {
        if self.repo.is_up() {
            Ok(())
        } else {
            Err(Refusal::Down { repo: self.number })
        }
    }
}
