//! What a client has to do about transactions before its next try.

ghost use Rattle.client_state.specs.Handing.{handed, kept_behind};
ghost use Rattle.client_state.specs.Owing.{calls_of, calls_of_all, count_of};
ghost use Rattle.std.specs.Prelude.{IsTrue, MatchOption, None, OnOk, Some, [], length, not, ◌∷◌, ◌++◌, ◌≡◌, ◌<◌, ◌≤◌, ◌+◌};

use session_outbox::{At, Verdict};
use std::alloc::Global;
use std::mem;
use thor_value::{NoMemory, Repos, Sequence, Ts};

/// A transaction that its coordinator has prepared and whose try has ended.
#[derive(Drop)]
pub struct Abort {
    /// The session by which the coordinator has prepared it.
    pub coordinator: At,
    pub ts: Ts,
    /// The other participants that have prepared it, rising.
    pub prepared: Repos,
}

/// Another's undecided transaction stood against a request at a repository.
#[derive(Clone, Copy)]
pub enum Helping {
    /// Its coordinator is to be asked about it.
    Ask { ts: Ts, refuser: u8 },
    /// The verdict is to be handed to the repository.
    Finish { verdict: Verdict, refuser: u8 },
}

/// What is to be done about a verdict.
#[derive(Drop)]
pub enum Duty {
    /// These participants are to be told, rising. Where `forgets` holds, all before have been told, and
    /// the coordinator is to forget the transaction behind the last.
    Finish {
        verdict: Verdict,
        to: Repos,
        forgets: bool,
    },
    /// The coordinator is to forget the transaction.
    Forget {
        ts: Ts,
    },
}

/// What a client has to do about transactions before its next try.
#[derive(Drop)]
pub struct Duties {
    pub abort: Option<Abort>,
    pub helping: Option<Helping>,
    /// The oldest first.
    pub verdicts: Sequence<Duty>,
}

impl Duties {
    /// Nothing is to be done. It takes no memory.
    pub fn new(alloc: Global) -> Duties {
        Duties {
            abort: None,
            helping: None,
            verdicts: Sequence::new(alloc),
        }
    }

    /// Whether a transaction is to be aborted, or a verdict to be handed on.
    pub fn owes_verdicts(&self) -> bool
        ensures owed { IsTrue result → self.now.abort ≡ None → 0 < length self.now.verdicts }
        ensures none { IsTrue (not result) → (self.now.abort ≡ None) × (self.now.verdicts ≡ []) }
    {
        self.abort.is_some() || !self.verdicts.is_empty()
    }

    /// A transaction is to be aborted by its coordinator, and no other one.
    pub fn note_abort(&mut self, abort: Abort)
        ensures { self.new ≡ record self.old { abort = Some abort } }
    {
        drop(mem::replace(&mut self.abort, Some(abort)));
    }

    /// Takes the oldest duty.
    #[tactic(auto, using(crate::proofs::Owing::taken_first, crate::proofs::Handing::first_duty))]
    pub fn take_first(&mut self) -> Option<Duty>
        ensures first { MatchOption result (self.old.verdicts ≡ []) (λ duty. calls_of_all self.old.verdicts ≡ calls_of duty + calls_of_all self.new.verdicts) }
        ensures none { result ≡ None → self.new ≡ self.old }
        ensures taken { MatchOption result (self.old.verdicts ≡ []) (λ duty. self.old.verdicts ≡ duty ∷ self.new.verdicts) }
        ensures rest { self.new ≡ record self.old { verdicts = self.new.verdicts } }
    {
        if self.verdicts.len() == 0 {
            return None;
        }
        Some(self.verdicts.remove(0))
    }

    /// A participant was to be told: the others come first now. Where none is left, the coordinator is to
    /// forget, if it is to.
    #[tactic(auto, using(crate::proofs::Handing::none_behind, crate::proofs::Handing::some_behind))]
    pub fn keep_behind(
        &mut self,
        verdict: Verdict,
        others: Repos,
        forgets: bool,
    ) -> Result<(), NoMemory>
        ensures owed { OnOk result (calls_of_all self.new.verdicts ≤ calls_of_all self.old.verdicts + (count_of others + 1)) }
        ensures behind { OnOk result (self.new.verdicts ≡ kept_behind verdict others forgets self.old.verdicts) }
        ensures rest { self.new ≡ record self.old { verdicts = self.new.verdicts } }
    {
        if !others.is_empty() {
            return self.put_first(Duty::Finish {
                verdict,
                to: others,
                forgets,
            });
        }
        if forgets {
            return self.put_first(Duty::Forget { ts: verdict.tx() });
        }
        Ok(())
    }

    /// A duty comes before all others.
    #[tactic(auto, using(crate::proofs::Owing::put_first, crate::proofs::Handing::put_before))]
    fn put_first(&mut self, duty: Duty) -> Result<(), NoMemory>
        ensures owed { OnOk result (calls_of_all self.new.verdicts ≤ calls_of_all self.old.verdicts + calls_of duty) }
        ensures first { OnOk result (self.new.verdicts ≡ duty ∷ self.old.verdicts) }
        ensures rest { self.new ≡ record self.old { verdicts = self.new.verdicts } }
    {
        self.verdicts.insert(0, duty)
    }

    /// A verdict is to be handed to participants. A commit that all of them have finished is to be
    /// forgotten.
    #[tactic(auto, using(crate::proofs::Handing::none_handed, crate::proofs::Handing::some_handed))]
    pub fn hand_on(&mut self, verdict: Verdict, to: Repos) -> Result<(), NoMemory>
        ensures owed { OnOk result (calls_of_all self.new.verdicts ≤ calls_of_all self.old.verdicts + (count_of to + 1)) }
        ensures handed { OnOk result (self.new.verdicts ≡ handed verdict to self.old.verdicts) }
        ensures rest { self.new ≡ record self.old { verdicts = self.new.verdicts } }
    {
        if to.is_empty() {
            return Ok(());
        }
        self.put_last(Duty::Finish {
            verdict,
            to,
            forgets: verdict.commit(),
        })
    }

    /// A duty comes behind all others.
    #[tactic(auto, using(crate::proofs::Owing::put_last))]
    fn put_last(&mut self, duty: Duty) -> Result<(), NoMemory>
        ensures owed { OnOk result (calls_of_all self.new.verdicts ≤ calls_of_all self.old.verdicts + calls_of duty) }
        ensures last { OnOk result (self.new.verdicts ≡ self.old.verdicts ++ duty ∷ []) }
        ensures rest { self.new ≡ record self.old { verdicts = self.new.verdicts } }
    {
        self.verdicts.push(duty)
    }
}
