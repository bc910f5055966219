//! The events of a repository of a run that are no client's.

ghost use Rattle.repo_refusals.specs.declared.refusal.Refusal.TheVariants.{NoMemory as IsNoMemory};
ghost use Rattle.repo_site.specs.Happening.{ComesBack, Flushes, GoesOn, Stops};
ghost use Rattle.repo_site.specs.Sited.{Happens};
ghost use Rattle.repo_site.specs.Working.{SiteGrows};
ghost use Rattle.std.specs.Prelude.{IsErrOf, ℕ, ◌⊎◌};

use crate::happening;
use crate::opening::Opening;
use crate::site::Site;
use disk_trait::Parts;
use mob_flusher::Flushed;
use repo_refusals::Refusal;

impl<P: Parts, O: Opening> Site<P, O> {
    /// Flushes the oldest buffered page.
    #[tactic(auto, using(crate::proofs::Sites::happened_any, crate::proofs::Sites::stays_any, crate::proofs::Growing::grown))]
    pub fn flush(&mut self) -> Result<Flushed, Refusal>
        ensures happens { Happens O.run self.old self.new }
        ensures grows { (c : ℕ) → SiteGrows O.run c self.old self.new }
        ensures does { Flushes self.old.shown self.new.shown }
    {
        happening::flush(&mut self.repo)
    }

    /// Makes a checkpoint.
    #[tactic(auto, using(crate::proofs::Sites::happened_any, crate::proofs::Sites::stays_any, crate::proofs::Growing::grown))]
    pub fn checkpoint(&mut self) -> Result<(), Refusal>
        ensures happens { Happens O.run self.old self.new }
        ensures grows { (c : ℕ) → SiteGrows O.run c self.old self.new }
    {
        happening::checkpoint(&mut self.repo)
    }

    /// Takes it down behind so many disk calls.
    #[tactic(auto, using(crate::proofs::Sites::happened_any, crate::proofs::Sites::stays_any, crate::proofs::Growing::grown))]
    pub fn stop_after(&mut self, calls: u32)
        ensures happens { Happens O.run self.old self.new }
        ensures grows { (c : ℕ) → SiteGrows O.run c self.old self.new }
        ensures does { Stops calls self.old.shown self.new.shown }
    {
        happening::stop_after(&mut self.repo, calls);
    }

    /// Takes back a stop that hasn't fallen.
    #[tactic(auto, using(crate::proofs::Sites::happened_any, crate::proofs::Sites::stays_any, crate::proofs::Growing::grown))]
    pub fn disarm(&mut self)
        ensures happens { Happens O.run self.old self.new }
        ensures grows { (c : ℕ) → SiteGrows O.run c self.old self.new }
    {
        happening::disarm(&mut self.repo);
    }

    /// Restarts it, with the images of its disks that a pick chooses. Where its disks tell their bytes it is up then, but where one
    /// of them failed or memory ran out.
    #[tactic(auto, using(crate::proofs::Sites::happened_any, crate::proofs::Sites::stays_any, crate::proofs::Growing::grown))]
    pub fn restart(&mut self, pick: u64) -> Result<(), Refusal>
        ensures happens { Happens O.run self.old self.new }
        ensures grows { (c : ℕ) → SiteGrows O.run c self.old self.new }
        ensures does { GoesOn self.old.shown self.new.shown }
        ensures comes { IsErrOf result IsNoMemory ⊎ ComesBack self.old.shown self.new.shown }
    {
        happening::restart(&mut self.repo, pick)
    }
}
