//! A coordinator is asked.

ghost use Rattle.std.specs.Prelude.{◌≡◌, IfErr, IfOk, false};
ghost use Rattle.session_outbox.specs.declared.answers.Asked.TheVariants.{Undecided as IsUndecided};
ghost use Rattle.repo_core.specs.Behind.{IsAsked, Stands};
ghost use Rattle.two_phase.specs.Contents.{standing};
ghost use Rattle.two_phase.specs.declared.standing.Standing.TheVariants.{Open as IsOpen};
ghost use Rattle.repo_refusals.specs.declared.refusal.Refusal.TheVariants.{Down as IsDown};

use crate::repo::Repo;
use disk_trait::Parts;
use repo_refusals::Refusal;
use session_outbox::{Asked, Verdict};
use thor_value::Ts;
use two_phase::Standing;

impl<P: Parts> Repo<P> {
    /// The verdict on a transaction that this repository coordinates, as far as there is one. It takes no
    /// memory, and changes nothing.
    ///
    /// An abort of a transaction that was forgotten says only that no participant has it prepared any more.
    pub fn ask(&mut self, tx: Ts) -> Result<Asked, Refusal>
        ensures same { self.new ≡ self.old }
        ensures stands { Stands self.old.is_up result self.new.is_up }
        ensures why { IfErr result (λ r. (r ≡ IsDown self.old.held.repo) × (self.old.is_up ≡ false)) }
        ensures answer { IfOk result (IsAsked self.old.held tx) }
        ensures undecided { standing self.old.held.table tx ≡ IsOpen → tx.repo ≡ self.old.held.repo → IfOk result (λ a. a ≡ IsUndecided) }
    {
        self.check_up()?;
        let standing = self.stable.held().table().ask(tx);
        if standing == Standing::Open && tx.repo == self.number() {
            return Ok(Asked::Undecided);
        }
        let commit = standing == Standing::Committed;
        Ok(Asked::Settled(Verdict::new(tx, commit)))
    }
}
