//! The fifth rule: verdicts are handed on.

ghost use Rattle.client_state.specs.Stepping.{Present};
ghost use Rattle.front_end.specs.Stepping.{IsFinished, IsForgotten, StepsOwing};
ghost use Rattle.front_end.specs.Writing.{ClientWrites};
ghost use Rattle.client_state.specs.Learning.{Rises};
ghost use Rattle.client_state.specs.Owing.{calls_of, count_of};
ghost use Rattle.client_state.specs.declared.duties.Duties.{Duties};
ghost use Rattle.client_port.specs.Acting.{ActsIf};
ghost use Rattle.front_end.specs.Moving.{uncounted};
ghost use Rattle.client_state.specs.declared.duties.Duty.TheVariants as duties;
ghost use Rattle.std.specs.Prelude.{IfOk, MatchOption, OnOk, [], length, true, ℕ, ◌&&◌, ◌+◌, ◌<◌, ◌∷◌, ◌≡◌};

use crate::client::Client;
use client_port::Port;
use client_state::Duty;
use repo_refusals::Refusal;
use session_outbox::Verdict;
use thor_value::{NoMemory, Repos, Ts};

impl Client {
    /// Hands on the oldest verdict to its next participant, or has the coordinator forget.
    pub fn hand_on<Q: Port>(&mut self, port: &mut Q) -> Result<(), NoMemory>
        ensures owed { 0 < length self.old.duties.verdicts → OnOk result ((tries : ℕ) → uncounted tries self.new < uncounted tries self.old) }
        ensures acts { ActsIf Q.shows (Q.view port.old) (Q.view port.new) }
        ensures moves { (item : Present) → OnOk result (StepsOwing Q.shows item (Q.view port.old) (Q.view port.new) self.old.duties self.old self.new) }
        ensures writes { ClientWrites self.old → ClientWrites self.new }
        ensures rises { Rises self.old.held self.new.held }
    {
        match self.duties.take_first() {
            Some(duty) => self.do_next(port, duty),
            None => Ok(()),
        }
    }

    /// Makes the next call of a duty, and keeps what is to be done behind it.
    fn do_next<Q: Port>(&mut self, port: &mut Q, duty: Duty) -> Result<(), NoMemory>
        ensures owed { OnOk result ((tries : ℕ) → uncounted tries self.new < uncounted tries self.old + calls_of duty) }
        ensures acts { ActsIf Q.shows (Q.view port.old) (Q.view port.new) }
        ensures moves { (item : Present) (d : Duties) → d.verdicts ≡ duty ∷ self.old.duties.verdicts → self.old.duties.helping ≡ d.helping → self.old.duties.abort ≡ d.abort → OnOk result (StepsOwing Q.shows item (Q.view port.old) (Q.view port.new) d self.old self.new) }
        ensures writes { ClientWrites self.old → ClientWrites self.new }
        ensures rises { Rises self.old.held self.new.held }
    {
        match duty {
            Duty::Finish {
                verdict,
                to,
                forgets,
            } => self.finish_next(port, verdict, to, forgets),
            Duty::Forget { ts } => forget(port, ts),
        }
    }

    /// Tells the first of the participants, and keeps what is to be done behind it.
    fn finish_next<Q: Port>(
        &mut self,
        port: &mut Q,
        verdict: Verdict,
        mut to: Repos,
        forgets: bool,
    ) -> Result<(), NoMemory>
        ensures owed { OnOk result ((tries : ℕ) → uncounted tries self.new < uncounted tries self.old + (count_of to + 1)) }
        ensures acts { ActsIf Q.shows (Q.view port.old) (Q.view port.new) }
        ensures moves { (item : Present) (d : Duties) → d.verdicts ≡ duties.Finish verdict to forgets ∷ self.old.duties.verdicts → self.old.duties.helping ≡ d.helping → self.old.duties.abort ≡ d.abort → OnOk result (StepsOwing Q.shows item (Q.view port.old) (Q.view port.new) d self.old self.new) }
        ensures writes { ClientWrites self.old → ClientWrites self.new }
        ensures rises { Rises self.old.held self.new.held }
    {
        match take_next(&mut to) {
            Some(repo) => {
                let told = tell(port, repo, &verdict)?;
                self.duties
                    .keep_behind(verdict, to, forgets_behind(forgets, told))
            }
            None => Ok(()),
        }
    }
}

/// Whether the coordinator may still be made to forget, behind a participant of which it is known whether it has taken the verdict.
fn forgets_behind(forgets: bool, told: bool) -> bool
    ensures { result ≡ (forgets && told) }
{
    forgets && told
}

/// Takes the participant that is to be told next.
#[tactic(auto, using(client_state::proofs::Owing::one_fewer, client_state::proofs::Handing::first_told))]
fn take_next(to: &mut Repos) -> Option<u8>
    ensures fewer { MatchOption result (to.old ≡ []) (λ repo. count_of to.new < count_of to.old) }
    ensures first { MatchOption result (to.old ≡ []) (λ repo. to.old ≡ repo ∷ to.new) }
{
    if to.len() == 0 {
        return None;
    }
    Some(to.remove(0))
}

/// Tells a participant the verdict. It answers whether it has taken it.
fn tell<Q: Port>(port: &mut Q, repo: u8, verdict: &Verdict) -> Result<bool, NoMemory>
    ensures acts { ActsIf Q.shows (Q.view port.old) (Q.view port.new) }
    ensures told { IfOk result (λ told. Q.shows ≡ true → IsFinished (Q.view port.old) (Q.view port.new) repo verdict.now told) }
{
    match port.finish(repo, verdict) {
        Ok(_) => Ok(true),
        Err(Refusal::NoMemory) => Err(NoMemory),
        Err(_) => Ok(false),
    }
}

/// Has the coordinator forget a decision. A refusal leaves it there.
fn forget<Q: Port>(port: &mut Q, ts: Ts) -> Result<(), NoMemory>
    ensures acts { ActsIf Q.shows (Q.view port.old) (Q.view port.new) }
    ensures told { OnOk result (Q.shows ≡ true → IsForgotten (Q.view port.old) (Q.view port.new) ts) }
{
    match port.forget(ts.repo, ts) {
        Ok(()) => Ok(()),
        Err(Refusal::NoMemory) => Err(NoMemory),
        Err(_) => Ok(()),
    }
}
