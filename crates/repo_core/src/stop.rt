//! Stops.

ghost use Rattle.std.specs.Prelude.{◌≡◌, cond, false, nat_eq, None, true};
ghost use Rattle.repo_core.specs.Shown.{ShowsPages};

use crate::repo::Repo;
use disk_trait::Parts;

impl<P: Parts> Repo<P> {
    /// Takes the repository down: at once for 0, else behind so many disk calls from now, in the middle of an
    /// event. It takes the place of a stop that hasn't fallen.
    #[tactic(auto, using(crate::proofs::Readable::shown_has, crate::proofs::Stopped::stop_pending, crate::proofs::Stopped::stop_none, crate::proofs::Stopped::stop_torn, crate::proofs::Stopped::stop_whole))]
    pub fn stop_after(&mut self, calls: u32)
        ensures up { self.new.is_up ≡ cond (nat_eq calls 0) false self.old.is_up }
        ensures readable { ShowsPages self.old → ShowsPages self.new }
        ensures pending { self.old.is_up ≡ false → self.new.pending ≡ self.old.pending }
        ensures none { self.old.is_up ≡ true → self.new.pending ≡ None }
        ensures whole { self.old.is_up ≡ true → self.new.is_torn ≡ false }
        ensures torn { self.new.is_torn ≡ self.old.is_torn }
        ensures opened { self.new.opened_in ≡ self.old.opened_in }
        ensures held { self.new.held ≡ self.old.held }
        ensures memory { self.new.memory ≡ self.old.memory }
        ensures trace { self.new.trace ≡ self.old.trace }
        ensures pages { self.new.pages ≡ self.old.pages }
        ensures clock { self.new.clock ≡ self.old.clock }
        ensures faults { self.new.faults ≡ self.old.faults }
    {
        self.stable.stop_after(calls);
    }

    /// Takes back a stop that hasn't fallen.
    #[tactic(auto, using(crate::proofs::Readable::shown_has))]
    pub fn disarm(&mut self)
        ensures up { self.new.is_up ≡ self.old.is_up }
        ensures readable { ShowsPages self.old → ShowsPages self.new }
        ensures pending { self.new.pending ≡ self.old.pending }
        ensures torn { self.new.is_torn ≡ self.old.is_torn }
        ensures opened { self.new.opened_in ≡ self.old.opened_in }
        ensures held { self.new.held ≡ self.old.held }
        ensures memory { self.new.memory ≡ self.old.memory }
        ensures trace { self.new.trace ≡ self.old.trace }
        ensures pages { self.new.pages ≡ self.old.pages }
        ensures clock { self.new.clock ≡ self.old.clock }
        ensures faults { self.new.faults ≡ self.old.faults }
    {
        self.stable.disarm();
    }
}
