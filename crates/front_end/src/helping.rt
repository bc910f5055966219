//! The third rule: the client helps on a transaction that stood against its request.

ghost use Rattle.client_state.specs.Settling.{NewsAsSent};
ghost use Rattle.client_state.specs.Stepping.{Present};
ghost use Rattle.client_state.specs.declared.duties.Duties.{Duties};
ghost use Rattle.front_end.specs.Stepping.{ClientSteps, IsFinishedSo, StepsWith};
ghost use Rattle.front_end.specs.Writing.{ClientWrites};
ghost use Rattle.client_state.specs.Learning.{Rises};
ghost use Rattle.front_end.specs.Showing.{ShownIf};
ghost use Rattle.client_port.specs.Acting.{ActsIf};
ghost use Rattle.std.specs.Prelude.{IfOk, None, OnOk, Some, true, ◌≡◌};

use crate::client::Client;
use client_items::{Learnt, News, Opened};
use client_port::Port;
use client_state::Helping;
use repo_refusals::Refusal;
use session_outbox::{Asked, Verdict};
use thor_value::{NoMemory, Ts};

impl Client {
    /// Asks about the transaction, or hands its verdict to the repository that refused.
    pub fn help<Q: Port>(
        &mut self,
        port: &mut Q,
        opened: &Opened,
        helping: Helping,
    ) -> Result<News, NoMemory>
        ensures acts { ActsIf Q.shows (Q.view port.old) (Q.view port.new) }
        ensures shown { ShownIf Q.shows (Q.view port.old) (Q.view port.new) opened.now.repos result }
        ensures moves { (item : Present) → self.old.duties.helping ≡ Some helping → IfOk result (ClientSteps Q.shows item (Q.view port.old) (Q.view port.new) self.old self.new) }
        ensures as_sent { IfOk result (NewsAsSent self.old.held.links.items) }
        ensures writes { ClientWrites self.old → ClientWrites self.new }
        ensures rises { Rises self.old.held self.new.held }
    {
        self.duties.helping = None;
        match helping {
            Helping::Ask { ts, refuser } => self.ask_about(port, opened, ts, refuser),
            Helping::Finish { verdict, refuser } => {
                finish(port, verdict, refuser)?;
                Ok(News::Nothing)
            }
        }
    }

    /// Asks the coordinator of a transaction about it. An answer without a verdict, or a refusal, ends
    /// the help.
    fn ask_about<Q: Port>(
        &mut self,
        port: &mut Q,
        opened: &Opened,
        ts: Ts,
        refuser: u8,
    ) -> Result<News, NoMemory>
        ensures acts { ActsIf Q.shows (Q.view port.old) (Q.view port.new) }
        ensures shown { ShownIf Q.shows (Q.view port.old) (Q.view port.new) opened.now.repos result }
        ensures moves { (item : Present) (d : Duties) → self.old.duties.verdicts ≡ d.verdicts → self.old.duties.helping ≡ None → self.old.duties.abort ≡ d.abort → IfOk result (StepsWith Q.shows item (Q.view port.old) (Q.view port.new) d self.old self.new) }
        ensures as_sent { IfOk result (NewsAsSent self.old.held.links.items) }
        ensures writes { ClientWrites self.old → ClientWrites self.new }
        ensures rises { Rises self.old.held self.new.held }
    {
        if ts.repo >= opened.repos {
            return Ok(News::Nothing);
        }
        match port.ask(ts.repo, ts) {
            Ok(Asked::Settled(verdict)) => {
                self.duties.helping = Some(Helping::Finish { verdict, refuser });
                match self.learn_verdict(opened, ts.repo, verdict)? {
                    Some(Learnt { settled, .. }) => Ok(News::Settled { settled }),
                    None => Ok(News::Nothing),
                }
            }
            Ok(Asked::Undecided) => Ok(News::Nothing),
            Err(Refusal::NoMemory) => Err(NoMemory),
            Err(_) => Ok(News::Nothing),
        }
    }
}

/// Hands a verdict to a repository. A refusal leaves it to whoever asks later.
fn finish<Q: Port>(port: &mut Q, verdict: Verdict, repo: u8) -> Result<(), NoMemory>
    ensures acts { ActsIf Q.shows (Q.view port.old) (Q.view port.new) }
    ensures told { OnOk result (Q.shows ≡ true → IsFinishedSo (Q.view port.old) (Q.view port.new) repo verdict) }
{
    match port.finish(repo, &verdict) {
        Ok(_) => Ok(()),
        Err(Refusal::NoMemory) => Err(NoMemory),
        Err(_) => Ok(()),
    }
}
