//! A coordinator forgets a decision.

ghost use Rattle.std.specs.Prelude.{◌≡◌, OnErr, OnOk, IfErr, None};
ghost use Rattle.repo_core.specs.Behind.{Stands, forgotten};
ghost use Rattle.spec_trace.specs.declared.mark.Mark.TheVariants.{Forgot as Forgets};
ghost use Rattle.repo_trace.specs.Recorded.{with_mark};
ghost use Rattle.repo_core.specs.Refusing.{CanRefuse, HasNoReason, Leaves};
ghost use Rattle.repo_core.specs.Shown.{ShowsPages};

use crate::repo::Repo;
use disk_trait::Parts;
use repo_refusals::Refusal;
use spec_trace::Mark;
use thor_value::Ts;

impl<P: Parts> Repo<P> {
    /// Forgets the decision to commit a transaction, which every other participant has finished. It leaves
    /// the log with the next checkpoint.
    #[tactic(auto, using(crate::proofs::Readable::shown_has, crate::proofs::Refused::leaves_down, crate::proofs::Causes::why_down, crate::proofs::Causes::why_memory))]
    pub fn forget(&mut self, tx: Ts) -> Result<(), Refusal>
        ensures stands { Stands self.old.is_up result self.new.is_up }
        ensures readable { ShowsPages self.old → ShowsPages self.new }
        ensures memory { self.new.memory ≡ self.old.memory }
        ensures held { OnOk result (self.new.held ≡ forgotten self.old.held tx) }
        ensures kept { OnErr result (self.new.held ≡ self.old.held) }
        ensures trace { OnOk result (self.new.trace ≡ with_mark self.old.trace (Forgets tx)) }
        ensures refused { OnErr result (self.new.trace ≡ self.old.trace) }
        ensures why { IfErr result (CanRefuse self.old HasNoReason ⊥) }
        ensures left { IfErr result (Leaves self.old self.new None) }
        ensures pages { self.new.pages ≡ self.old.pages }
        ensures clock { self.new.clock ≡ self.old.clock }
        ensures faults { self.new.faults ≡ self.old.faults }
        ensures opened { self.new.opened_in ≡ self.old.opened_in }
    {
        self.check_up()?;
        self.mark(Ok(()), Mark::Forgot { tx })?;
        self.stable.forget(tx);
        Ok(())
    }
}
