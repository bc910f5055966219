//! Before the rules: a transaction that its coordinator has prepared and whose try has ended is aborted
//! there.

ghost use Rattle.client_state.specs.Pending.{StaysPending, pending_in};
ghost use Rattle.client_state.specs.Stepping.{Present};
ghost use Rattle.client_state.specs.Written.{WhileUndecided, WrittenRefused};
ghost use Rattle.client_state.specs.declared.duties.Duties.{Duties};
ghost use Rattle.front_end.specs.Stepping.{AbortsNone, KeepsDrawn, StepsOwing};
ghost use Rattle.front_end.specs.Writing.{ClientWrites};
ghost use Rattle.client_state.specs.Learning.{Rises};
ghost use Rattle.client_state.specs.Moving.{Loses};
ghost use Rattle.client_state.specs.Owing.{count_of};
ghost use Rattle.client_port.specs.Acting.{ActsIf};
ghost use Rattle.front_end.specs.Moving.{uncounted};
ghost use Rattle.std.specs.Prelude.{OnOk, Some, ℕ, ◌+◌, ◌≡◌, ◌≤◌};

use crate::client::Client;
use client_port::Port;
use client_state::Abort;
use repo_refusals::Refusal;
use thor_value::NoMemory;

impl Client {
    /// Has the coordinator abort. Where it answers, the participants are to be told; where it refuses,
    /// nothing is handed on.
    pub fn abort<Q: Port>(&mut self, port: &mut Q, abort: Abort) -> Result<(), NoMemory>
        ensures owed { OnOk result ((tries : ℕ) → uncounted tries self.new ≤ uncounted tries self.old + (count_of abort.prepared + 1)) }
        ensures acts { ActsIf Q.shows (Q.view port.old) (Q.view port.new) }
        ensures moves { (item : Present) (d : Duties) → d.abort ≡ Some abort → self.old.duties.verdicts ≡ d.verdicts → self.old.duties.helping ≡ d.helping → AbortsNone self.old.duties → OnOk result (StepsOwing Q.shows item (Q.view port.old) (Q.view port.new) d self.old self.new) }
        ensures writes { ClientWrites self.old → ClientWrites self.new }
        ensures rises { Rises self.old.held self.new.held }
    {
        let Abort {
            coordinator,
            ts,
            prepared,
        } = abort;
        match port.decide(coordinator, ts, false) {
            Ok(verdict) => self.duties.hand_on(verdict, prepared),
            Err(refusal) => self.leave_prepared(coordinator.repo, refusal),
        }
    }

    /// The coordinator has refused to abort: the transaction stays prepared. A session that is gone is lost.
    fn leave_prepared(&mut self, repo: u8, refusal: Refusal) -> Result<(), NoMemory>
        ensures loses { Loses refusal repo self.old.held self.new.held }
        ensures client { self.new.held.client ≡ self.old.held.client }
        ensures stays { StaysPending (pending_in self.old.phase) (pending_in self.new.phase) self.old.held self.new.held }
        ensures drawn { KeepsDrawn self.old self.new }
        ensures wrote { WhileUndecided (pending_in self.new.phase) (WrittenRefused refusal repo self.old.held.links.items self.old.held.cache.cache self.new.held.cache.cache) }
        ensures left { (tries : ℕ) → uncounted tries self.new ≤ uncounted tries self.old }
        ensures duties { self.new.duties ≡ self.old.duties }
        ensures writes { ClientWrites self.old → ClientWrites self.new }
        ensures rises { Rises self.old.held self.new.held }
    {
        if let Refusal::NoMemory = refusal {
            return Err(NoMemory);
        }
        let _ = self.lose_session(repo, refusal);
        Ok(())
    }
}
