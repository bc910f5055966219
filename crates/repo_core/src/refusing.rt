//! How draws, grants and requests are refused.

ghost use Rattle.std.specs.Map.{keys_of};
ghost use Rattle.log_entries.specs.declared.entry.Entry.{Entry as AnEntry};
ghost use Rattle.repo_core.specs.Refusing.{Leaves};
ghost use Rattle.std.specs.Prelude.{◌≡◌, Err, IfErr, None, OnOk, Option, cond, false, true};
ghost use Rattle.repo_core.specs.Behind.{epoch_of, is_marked, with_refusal};
ghost use Rattle.log_entries.specs.RequestForm.{RequestFits};
ghost use Rattle.repo_durable.specs.Kept.{is_fault};
ghost use Rattle.validation_queue.specs.Clashes.{clash};
ghost use Rattle.validation_queue.specs.Names.{IsInOrder};
ghost use Rattle.repo_volatile.specs.Volatile.{transaction_of, verdict, answer};
ghost use Rattle.repo_core.specs.Calls.{full_of, judged};
ghost use Rattle.std.specs.Option.{option_or};
ghost use Rattle.repo_refusals.specs.declared.refusal.Refusal.TheVariants.{NoMemory as IsNoMemory};
ghost use Rattle.repo_refusals.specs.declared.refusal.Refusal.{Refusal as ARefusal};
ghost use Rattle.repo_core.specs.Shown.{ShowsPages};

use crate::repo::Repo;
use disk_trait::Parts;
use log_entries::Request;
use repo_refusals::Refusal;
use spec_trace::refused_mark;

impl<P: Parts> Repo<P> {
    /// Puts the mark of a refused draw, grant or request behind the trace. The answer is the refusal, or
    /// `NoMemory` where there was none for the mark.
    #[tactic(auto, using(crate::proofs::Refused::leaves_so, crate::proofs::Refused::never_marked))]
    pub(crate) fn refuse(
        &mut self,
        session: u32,
        request: Option<Request>,
        refusal: Refusal,
    ) -> Refusal
        requires up { self.old.is_up ≡ true }
        requires marked { is_marked refusal ≡ true }
        ensures stands { self.new.is_up ≡ cond (is_fault result) false true }
        ensures readable { ShowsPages self.old → ShowsPages self.new }
        ensures held { self.new.held ≡ self.old.held }
        ensures memory { self.new.memory ≡ self.old.memory }
        ensures trace { self.new.trace ≡ with_refusal self.old.trace session request result }
        ensures same { is_marked result ≡ true → result ≡ refusal }
        ensures other { is_marked result ≡ false → result ≡ IsNoMemory }
        ensures left { (e : Option AnEntry) → Leaves self.old self.new e result }
        ensures pages { self.new.pages ≡ self.old.pages }
        ensures clock { self.new.clock ≡ self.old.clock }
        ensures faults { self.new.faults ≡ self.old.faults }
        ensures opened { self.new.opened_in ≡ self.old.opened_in }
    {
        match refused_mark(self.alloc, session, request, refusal) {
            Ok(mark) => match self.mark(Ok(()), mark) {
                Ok(()) => refusal,
                Err(fault) => fault,
            },
            Err(_) => self.fall(),
        }
    }

    /// What stands against a request of a session: the first refusal that holds, in the order in which they
    /// are tried.
    pub(crate) fn judge(&self, session: u32, request: &Request) -> Result<(), Refusal>
        requires in_order { IsInOrder request.now.ros (keys_of request.now.writes) }
        requires fits { RequestFits request.now }
        ensures accepted { OnOk result (clash self.now.memory.queue (transaction_of request.now) ≡ None) }
        ensures nothing { OnOk result (verdict self.now.memory (epoch_of self.now.held) session request.now ≡ None) }
        ensures marked { IfErr result (λ r. is_marked r ≡ true) }
        ensures answer { result ≡ answer (judged self.now.held self.now.memory session request.now) }
    {
        match self.judge_by_memory(session, request) {
            Ok(()) => self.check_full(request),
            Err(refusal) => Err(refusal),
        }
    }

    /// What has something against it but the buffer's limit.
    #[tactic(auto, using(crate::proofs::Judged::judged, crate::proofs::Judged::accepted, crate::proofs::Judged::first_refused))]
    fn judge_by_memory(&self, session: u32, request: &Request) -> Result<(), Refusal>
        requires in_order { IsInOrder request.now.ros (keys_of request.now.writes) }
        requires fits { RequestFits request.now }
        ensures accepted { OnOk result (clash self.now.memory.queue (transaction_of request.now) ≡ None) }
        ensures nothing { OnOk result (verdict self.now.memory (epoch_of self.now.held) session request.now ≡ None) }
        ensures marked { IfErr result (λ r. is_marked r ≡ true) }
        ensures first { IfErr result (λ r. (p : Option ARefusal) → Err r ≡ answer (option_or (verdict self.now.memory (epoch_of self.now.held) session request.now) p)) }
        ensures answer { result ≡ answer (verdict self.now.memory (epoch_of self.now.held) session request.now) }
    {
        self.memory.judge(session, request, self.epoch())
    }

    /// What the buffer's limit has against it.
    #[tactic(auto, using(crate::proofs::Judged::room_judged, crate::proofs::Judged::full_judged))]
    fn check_full(&self, request: &Request) -> Result<(), Refusal>
        requires fits { RequestFits request.now }
        ensures marked { IfErr result (λ r. is_marked r ≡ true) }
        ensures behind { (o : Option ARefusal) → o ≡ None → result ≡ answer (option_or o (full_of self.now.held request.now)) }
    {
        self.check_room(&request.writes)
    }
}
