//! What becomes of items whose verdict is known.

ghost use Rattle.client_state.specs.declared.link.Link.{Link};
ghost use Rattle.client_state.specs.Settling.{NewsAsSent, SettlesAsSent};
ghost use Rattle.client_items.specs.Meanings.{committed_as, settled_as};
ghost use Rattle.client_items.specs.declared.news.News.TheVariants as news;
ghost use Rattle.client_state.specs.Handing.{MayTell};
ghost use Rattle.client_state.specs.Learning.{Rises};
ghost use Rattle.client_state.specs.Moving.{HoldsLess, KeepsTry, MaySettle, SendsNothingIf};
ghost use Rattle.client_state.specs.Pending.{Pending};
ghost use Rattle.client_state.specs.Showing.{IsToldBy};
ghost use Rattle.client_state.specs.declared.held.Held.{Held};
ghost use Rattle.front_end.specs.Moving.{TakesUnsettled};
ghost use Rattle.front_end.specs.Showing.{NewsShown, ShownIf};
ghost use Rattle.client_port.specs.Acting.{ActsIf, IsDecided};
ghost use Rattle.client_port.specs.Views.{View};
ghost use Rattle.client_items.specs.Courses.{IsDownAt, is_committed};
ghost use Rattle.std.specs.Prelude.{◌≡◌, IfOk, IfSome, None, OnOk, true, ℕ, List};

use crate::client::Client;
use client_items::{Learnt, Meaning, News, Opened, Settled};
use client_port::Port;
use client_state::{Link, Sent};
use repo_refusals::Refusal;
use session_outbox::{Asked, Verdict};
use thor_value::{NoMemory, Ts};

impl Client {
    /// The present item has committed: what its try has changed is kept.
    pub fn end_committed(&mut self, opened: &Opened, sent: Sent) -> News
        ensures shown { (old new : View) (repos : ℕ) → IsDecided old new sent.ts true → NewsShown old new repos result }
        ensures own { result ≡ news.Ended (committed_as sent.ts sent.meaning) }
        ensures rest { self.new ≡ record self.old { held = self.new.held } }
        ensures keeps { KeepsTry self.old.held self.new.held }
        ensures as_sent { (links : List Link) → NewsAsSent links result }
        ensures rises { Rises self.old.held self.new.held }
    {
        let Sent { ts, meaning, .. } = sent;
        self.held.keep();
        self.learn_commit(opened, ts, &meaning);
        News::Ended {
            outcome: meaning.committed(ts),
        }
    }

    /// A transaction of the client has committed. Where it is an upgrade, that is learnt. It answers
    /// whether the epoch rises.
    fn learn_commit(&mut self, opened: &Opened, ts: Ts, meaning: &Meaning) -> bool
        ensures rest { self.new ≡ record self.old { held = self.new.held } }
        ensures held { self.new.held ≡ record self.old.held { floor = self.new.held.floor; learnt = self.new.held.learnt } }
        ensures rises { Rises self.old.held self.new.held }
    {
        self.held.raise_floor(ts);
        match meaning {
            Meaning::Upgrade { number, .. } => self.held.learn_epoch(opened, *number),
            Meaning::Ran(_) => false,
        }
    }

    /// A repository told the verdict on a transaction. Where that is an Unknown item's, the item has
    /// ended, and the verdict is to be handed on.
    pub fn learn_verdict(
        &mut self,
        opened: &Opened,
        repo: u8,
        verdict: Verdict,
    ) -> Result<Option<Learnt>, NoMemory>
        ensures stands { IfOk result (λ learnt. IfSome learnt (λ l. is_committed l.settled.outcome ≡ verdict.commit)) }
        ensures tx { IfOk result (λ learnt. IfSome learnt (λ l. l.settled.ts ≡ verdict.tx)) }
        ensures down { IfOk result (λ learnt. IfSome learnt (λ l. IsDownAt repo l.settled.outcome)) }
        ensures settles { OnOk result (MaySettle repo self.old.held self.new.held) }
        ensures hands { (a : Pending) (old new : View) → IsToldBy old new repo verdict.tx verdict.commit → OnOk result (MayTell old new a self.old.held.links.items self.old.duties.verdicts self.new.duties.verdicts) }
        ensures helping { self.new.duties.helping ≡ self.old.duties.helping }
        ensures abort { self.new.duties.abort ≡ self.old.duties.abort }
        ensures phase { self.new.phase ≡ self.old.phase }
        ensures cache { self.new.held.cache ≡ self.old.held.cache }
        ensures as_sent { IfOk result (λ learnt. IfSome learnt (λ l. SettlesAsSent self.old.held.links.items l.settled)) }
        ensures rises { Rises self.old.held self.new.held }
    {
        match self.take_unsettled(repo) {
            Some((sent, index)) => self.learn_of(opened, repo, sent, index, verdict),
            None => Ok(None),
        }
    }

    /// Takes what was sent of an Unknown item, and its index, out of the link of the repository that coordinates it, if there
    /// is one. The repository is apart then.
    fn take_unsettled(&mut self, repo: u8) -> Option<(Sent, u32)>
        ensures taken { IfSome result (λ some. TakesUnsettled repo some.0 some.1 self.old.held self.new.held) }
        ensures none { result ≡ None → HoldsLess self.old.held self.new.held }
        ensures rest { self.new ≡ record self.old { held = self.new.held } }
        ensures cache { self.new.held.cache ≡ self.old.held.cache }
        ensures rises { Rises self.old.held self.new.held }
    {
        match self.held.take_link(repo) {
            Link::Unsettled { sent, index } => Some((sent, index)),
            link => {
                self.held.set_link(repo, link);
                None
            }
        }
    }

    /// The verdict on a transaction was told by the repository that coordinates an Unknown item. Where it is the item's,
    /// that has ended; else the item stays Unknown.
    fn learn_of(
        &mut self,
        opened: &Opened,
        repo: u8,
        sent: Sent,
        index: u32,
        verdict: Verdict,
    ) -> Result<Option<Learnt>, NoMemory>
        ensures stands { IfOk result (λ learnt. IfSome learnt (λ l. is_committed l.settled.outcome ≡ verdict.commit)) }
        ensures tx { IfOk result (λ learnt. IfSome learnt (λ l. l.settled.ts ≡ verdict.tx)) }
        ensures down { IfOk result (λ learnt. IfSome learnt (λ l. IsDownAt repo l.settled.outcome)) }
        ensures settles { (before : Held) → TakesUnsettled repo sent index before self.old.held → OnOk result (MaySettle repo before self.new.held) }
        ensures hands { (before : Held) → TakesUnsettled repo sent index before self.old.held → (a : Pending) (old new : View) → IsToldBy old new repo verdict.tx verdict.commit → OnOk result (MayTell old new a before.links.items self.old.duties.verdicts self.new.duties.verdicts) }
        ensures helping { self.new.duties.helping ≡ self.old.duties.helping }
        ensures abort { self.new.duties.abort ≡ self.old.duties.abort }
        ensures phase { self.new.phase ≡ self.old.phase }
        ensures cache { self.new.held.cache ≡ self.old.held.cache }
        ensures as_sent { (before : Held) → TakesUnsettled repo sent index before self.old.held → IfOk result (λ learnt. IfSome learnt (λ l. SettlesAsSent before.links.items l.settled)) }
        ensures rises { Rises self.old.held self.new.held }
    {
        if sent.ts != verdict.tx() {
            self.held.set_link(repo, Link::Unsettled { sent, index });
            return Ok(None);
        }
        self.duties.hand_on(verdict, sent.others()?)?;
        Ok(Some(self.settle(opened, sent, index, repo, verdict)))
    }

    /// What becomes of an Unknown item by the verdict that a repository told: its transaction stands exactly where that commits.
    fn settle(
        &mut self,
        opened: &Opened,
        sent: Sent,
        index: u32,
        repo: u8,
        verdict: Verdict,
    ) -> Learnt
        ensures stands { is_committed result.settled.outcome ≡ verdict.commit }
        ensures tx { result.settled.ts ≡ sent.ts }
        ensures down { IsDownAt repo result.settled.outcome }
        ensures rest { self.new ≡ record self.old { held = self.new.held } }
        ensures held { self.new.held ≡ record self.old.held { floor = self.new.held.floor; learnt = self.new.held.learnt } }
        ensures index { result.settled.index ≡ index }
        ensures own { result.settled.outcome ≡ settled_as sent.ts verdict.commit repo sent.meaning }
        ensures rises { Rises self.old.held self.new.held }
    {
        let Sent { ts, meaning, .. } = sent;
        let rises = verdict.commit() && self.learn_commit(opened, ts, &meaning);
        let outcome = meaning.settled(ts, verdict.commit(), repo);
        Learnt {
            settled: Settled { index, ts, outcome },
            rises,
        }
    }

    /// Asks once about the Unknown item that a repository coordinates, if there is one.
    pub fn ask_last<Q: Port>(
        &mut self,
        port: &mut Q,
        opened: &Opened,
        repo: u8,
    ) -> Result<News, NoMemory>
        ensures rest { self.new ≡ record self.old { held = self.new.held } }
        ensures acts { ActsIf Q.shows (Q.view port.old) (Q.view port.new) }
        ensures shown { ShownIf Q.shows (Q.view port.old) (Q.view port.new) opened.now.repos result }
        ensures moves { OnOk result (SendsNothingIf Q.shows (Q.view port.old) (Q.view port.new) self.old.held self.new.held) }
        ensures cache { self.new.held.cache ≡ self.old.held.cache }
        ensures as_sent { IfOk result (NewsAsSent self.old.held.links.items) }
        ensures rises { Rises self.old.held self.new.held }
    {
        match self.take_unsettled(repo) {
            Some((sent, index)) => self.ask_of(port, opened, repo, sent, index),
            None => Ok(News::Nothing),
        }
    }

    /// Asks about an Unknown item, which stays so where no verdict is told.
    fn ask_of<Q: Port>(
        &mut self,
        port: &mut Q,
        opened: &Opened,
        repo: u8,
        sent: Sent,
        index: u32,
    ) -> Result<News, NoMemory>
        ensures rest { self.new ≡ record self.old { held = self.new.held } }
        ensures acts { ActsIf Q.shows (Q.view port.old) (Q.view port.new) }
        ensures shown { ShownIf Q.shows (Q.view port.old) (Q.view port.new) opened.now.repos result }
        ensures moves { (before : Held) → TakesUnsettled repo sent index before self.old.held → OnOk result (SendsNothingIf Q.shows (Q.view port.old) (Q.view port.new) before self.new.held) }
        ensures cache { self.new.held.cache ≡ self.old.held.cache }
        ensures as_sent { (before : Held) → TakesUnsettled repo sent index before self.old.held → IfOk result (NewsAsSent before.links.items) }
        ensures rises { Rises self.old.held self.new.held }
    {
        match port.ask(repo, sent.ts) {
            Ok(Asked::Settled(verdict)) => {
                let Learnt { settled, .. } = self.settle(opened, sent, index, repo, verdict);
                Ok(News::Settled { settled })
            }
            Err(Refusal::NoMemory) => Err(NoMemory),
            Ok(Asked::Undecided) | Err(_) => {
                self.held.set_link(repo, Link::Unsettled { sent, index });
                Ok(News::Nothing)
            }
        }
    }
}
