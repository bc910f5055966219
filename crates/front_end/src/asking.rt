//! The fourth rule: the client asks for its own transaction, which was sent to be decided.

ghost use Rattle.client_state.specs.declared.link.Link.{Link};
ghost use Rattle.client_state.specs.Settling.{NewsAsSent};
ghost use Rattle.client_items.specs.declared.news.News.TheVariants as news;
ghost use Rattle.client_state.specs.Handing.{handed};
ghost use Rattle.client_state.specs.Participants.{first_in, others_in};
ghost use Rattle.client_state.specs.Pending.{IsAsking, NonePending, StaysAsked, pending_in};
ghost use Rattle.client_state.specs.Stepping.{AsksInVain, EndsAsked, KeepsSent, one_more};
ghost use Rattle.front_end.specs.Stepping.{ClientSteps, IsOver, KeepsAbort, StepsFrom};
ghost use Rattle.serial_model.specs.declared.outcomes.ItemOutcome.TheVariants as outcomes;
ghost use Rattle.client_state.specs.Writing.{WritesStay, unsent};
ghost use Rattle.client_state.specs.Written.{LeavesApart, PartsSome, WhileUndecided};
ghost use Rattle.front_end.specs.Writing.{ClientWrites};
ghost use Rattle.client_state.specs.Learning.{Rises};
ghost use Rattle.client_state.specs.Moving.{EndsSo, LeavesLess};
ghost use Rattle.client_state.specs.Owing.{asking_in, calls_in, count_of};
ghost use Rattle.client_state.specs.declared.phase.Phase.TheVariants as phase;
ghost use Rattle.client_state.specs.Showing.{IsToldBy};
ghost use Rattle.front_end.specs.Showing.{NewsShown, ShownIf};
ghost use Rattle.client_port.specs.Acting.{ActsIf};
ghost use Rattle.client_port.specs.Views.{View};
ghost use Rattle.front_end.specs.Moving.{uncounted};
ghost use Rattle.std.specs.Prelude.{IfOk, IsSome, OnOk, ℕ, ◌+◌, ◌<◌, ◌≡◌, ◌≤◌, None, List};

use crate::client::Client;
use client_items::{News, Opened, Task};
use client_port::Port;
use client_state::{Link, Phase, Sent};
use repo_refusals::Refusal;
use serial_model::{Cause, ItemOutcome};
use session_outbox::{Asked, Verdict};
use thor_value::{NoMemory, Repos};

impl Client {
    /// Asks the coordinator for the verdict.
    pub fn ask<Q: Port>(
        &mut self,
        port: &mut Q,
        opened: &Opened,
        task: Task<'_>,
    ) -> Result<News, NoMemory>
        ensures owed { IsSome (asking_in self.old.phase) → OnOk result (uncounted task.entry.tries self.new < uncounted task.entry.tries self.old) }
        ensures acts { ActsIf Q.shows (Q.view port.old) (Q.view port.new) }
        ensures shown { ShownIf Q.shows (Q.view port.old) (Q.view port.new) opened.now.repos result }
        ensures moves { IsSome (asking_in self.old.phase) → IfOk result (ClientSteps Q.shows (record { who = task.entry.who; tries = task.entry.tries }) (Q.view port.old) (Q.view port.new) self.old self.new) }
        ensures as_sent { (links : List Link) → IfOk result (NewsAsSent links) }
        ensures writes { ClientWrites self.new }
        ensures rises { Rises self.old.held self.new.held }
    {
        match self.take_phase().into_asking() {
            Some((sent, answers)) => self.ask_coordinator(port, opened, task, sent, answers),
            None => Ok(News::Nothing),
        }
    }

    fn ask_coordinator<Q: Port>(
        &mut self,
        port: &mut Q,
        opened: &Opened,
        task: Task<'_>,
        sent: Sent,
        answers: u32,
    ) -> Result<News, NoMemory>
        ensures owed { OnOk result (uncounted task.entry.tries self.new < uncounted task.entry.tries self.old + calls_in task.entry.tries (phase.Asking sent answers)) }
        ensures acts { ActsIf Q.shows (Q.view port.old) (Q.view port.new) }
        ensures shown { ShownIf Q.shows (Q.view port.old) (Q.view port.new) opened.now.repos result }
        ensures moves { self.old.phase ≡ phase.Between → IfOk result (StepsFrom Q.shows (record { who = task.entry.who; tries = task.entry.tries }) (Q.view port.old) (Q.view port.new) (IsAsking sent answers) self.old self.new) }
        ensures as_sent { (links : List Link) → IfOk result (NewsAsSent links) }
        ensures writes { unsent self.old.phase ≡ None → ClientWrites self.new }
        ensures rises { Rises self.old.held self.new.held }
    {
        let coordinator = sent.coordinator();
        match port.ask(coordinator, sent.ts) {
            Ok(Asked::Settled(verdict)) => self.learn_own(opened, sent, coordinator, verdict),
            Err(Refusal::NoMemory) => Err(NoMemory),
            Ok(Asked::Undecided) | Err(_) => {
                Ok(self.ask_again(task, sent, answers.saturating_add(1)))
            }
        }
    }

    /// Its coordinator has told the verdict on the client's own transaction.
    pub fn learn_own(
        &mut self,
        opened: &Opened,
        sent: Sent,
        coordinator: u8,
        verdict: Verdict,
    ) -> Result<News, NoMemory>
        ensures owed { OnOk result ((tries : ℕ) → uncounted tries self.new ≤ uncounted tries self.old + (count_of sent.participants + 1)) }
        ensures shown { IfOk result (λ news. (old new : View) (repos : ℕ) → IsToldBy old new coordinator sent.ts verdict.commit → NewsShown old new repos news) }
        ensures ends { OnOk result (EndsSo verdict.commit self.old.held self.new.held) }
        ensures free { pending_in self.old.phase ≡ NonePending → OnOk result (pending_in self.new.phase ≡ NonePending) }
        ensures over { self.old.phase ≡ phase.Between → OnOk result (self.new.phase ≡ phase.Between) }
        ensures abort { OnOk result (KeepsAbort self.old self.new) }
        ensures own { IfOk result (EndsAsked verdict.commit sent) }
        ensures hands { OnOk result (self.new.duties.verdicts ≡ handed verdict (others_in sent.participants (first_in sent.participants)) self.old.duties.verdicts) }
        ensures helping { OnOk result (self.new.duties.helping ≡ self.old.duties.helping) }
        ensures as_sent { (links : List Link) → IfOk result (NewsAsSent links) }
        ensures writes { unsent self.old.phase ≡ None → ClientWrites self.new }
        ensures rises { Rises self.old.held self.new.held }
    {
        self.duties.hand_on(verdict, sent.others()?)?;
        if verdict.commit() {
            return Ok(self.end_committed(opened, sent));
        }
        Ok(self.end_try(Cause::Down { repo: coordinator }))
    }

    /// An answer had no verdict. Behind as many as there are tries, the item is held as Unknown.
    fn ask_again(&mut self, task: Task<'_>, sent: Sent, answers: u32) -> News
        ensures owed { (before : ℕ) → (answers < task.entry.tries → before < answers) → uncounted task.entry.tries self.new < uncounted task.entry.tries self.old + calls_in task.entry.tries (phase.Asking sent before) }
        ensures shown { (old new : View) (repos : ℕ) → NewsShown old new repos result }
        ensures leaves { LeavesLess self.old.held self.new.held }
        ensures stays { (before : ℕ) → pending_in self.old.phase ≡ NonePending → StaysAsked (IsAsking sent before) (pending_in self.new.phase) self.old.held self.new.held }
        ensures asks { (before : ℕ) → pending_in self.old.phase ≡ NonePending → answers ≡ one_more before → AsksInVain (record { who = task.entry.who; tries = task.entry.tries }) self.new.held (first_in sent.participants) sent before (pending_in self.new.phase) result }
        ensures over { self.old.phase ≡ phase.Between → IsOver self.new.phase }
        ensures wrote { pending_in self.old.phase ≡ NonePending → WhileUndecided (pending_in self.new.phase) (WritesStay self.old.held.cache.cache self.new.held.cache.cache) }
        ensures parts { LeavesApart (first_in sent.participants) task.entry.who.index sent self.old.held self.new.held }
        ensures duties { self.new.duties ≡ self.old.duties }
        ensures as_sent { (links : List Link) → NewsAsSent links result }
        ensures writes { unsent self.old.phase ≡ None → ClientWrites self.new }
        ensures rises { Rises self.old.held self.new.held }
    {
        if answers < task.tries {
            self.set_phase(Phase::Asking { sent, answers });
            return News::Nothing;
        }
        self.hold_as_unknown(task, sent)
    }

    /// The client goes on without the verdict. It leaves every participant, so that what may still be
    /// committed there comes from another session.
    fn hold_as_unknown(&mut self, task: Task<'_>, sent: Sent) -> News
        ensures rest { self.new ≡ record self.old { held = self.new.held } }
        ensures shown { (old new : View) (repos : ℕ) → NewsShown old new repos result }
        ensures unknown { result ≡ news.Ended (outcomes.Unknown sent.ts) }
        ensures link { KeepsSent (first_in sent.participants) sent task.entry.who.index self.new.held }
        ensures parts { LeavesApart (first_in sent.participants) task.entry.who.index sent self.old.held self.new.held }
        ensures leaves { LeavesLess self.old.held self.new.held }
        ensures as_sent { (links : List Link) → NewsAsSent links result }
        ensures writes { unsent self.old.phase ≡ None → ClientWrites self.new }
        ensures rises { Rises self.old.held self.new.held }
    {
        let coordinator = sent.coordinator();
        self.leave_all(&sent.participants);
        self.held.leave(coordinator);
        self.held.give_up();
        let tx = sent.ts;
        let index = task.who.index;
        self.held
            .set_link(coordinator, Link::Unsettled { sent, index });
        News::Ended {
            outcome: ItemOutcome::Unknown { tx },
        }
    }

    /// Nothing is held of these repositories any more.
    fn leave_all(&mut self, repos: &Repos)
        ensures rest { self.new ≡ record self.old { held = self.new.held } }
        ensures leaves { LeavesLess self.old.held self.new.held }
        ensures parts { PartsSome self.old.held self.new.held }
        ensures rises { Rises self.old.held self.new.held }
    {
        for repo in repos.as_slice() {
            self.held.leave(*repo);
        }
    }
}
