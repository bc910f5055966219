//! How a transaction is drawn, sent and decided.

ghost use Rattle.client_state.specs.declared.link.Link.{Link};
ghost use Rattle.client_state.specs.Settling.{NewsAsSent};
ghost use Rattle.client_items.specs.Meanings.{is_ended};
ghost use Rattle.client_state.specs.Participants.{sent_of};
ghost use Rattle.client_port.specs.Acting.{Refuses};
ghost use Rattle.client_port.specs.Views.{View};
ghost use Rattle.client_state.specs.Handing.{KeepsDuties};
ghost use Rattle.client_state.specs.Pending.{HasStopped, IsAsking, IsPreparing, IsWrittenIn, NonePending, Pending, pending_in};
ghost use Rattle.client_state.specs.Stepping.{AsksWhereStopped, DecidesAll, HoldsThere, Present, SendsAlone, SendsDrawn};
ghost use Rattle.client_state.specs.declared.phase.Phase.TheVariants as phase;
ghost use Rattle.client_state.specs.declared.transaction.Transaction.{Transaction};
ghost use Rattle.front_end.specs.Stepping.{ClientHands, IsOver, IsSentMore, KeepsAbort, SendsFrom, TriesFrom};
ghost use Rattle.client_state.specs.Writing.{HoldsWritten, WritesShares, WritesStay, WritesThere, unsent};
ghost use Rattle.client_state.specs.Written.{WhileUndecided, WrittenRefused};
ghost use Rattle.front_end.specs.Writing.{ClientWrites};
ghost use Rattle.client_state.specs.Learning.{Rises};
ghost use Rattle.client_state.specs.Calling.{is_session_of};
ghost use Rattle.client_state.specs.Links.{NoneAwaits};
ghost use Rattle.client_state.specs.Moving.{InSession, Learns, Loses, SendsNothingIf};
ghost use Rattle.client_state.specs.Sending.{AreApart, IsOfSession};
ghost use Rattle.front_end.specs.Showing.{NewsShown, ShownIf};
ghost use Rattle.client_port.specs.Acting.{ActsIf};
ghost use Rattle.client_items.specs.declared.news.News.TheVariants as news;
ghost use Rattle.session_outbox.specs.declared.answers.At.{At};
ghost use Rattle.std.specs.Prelude.{IfOk, OnOk, ℕ, ◌≡◌, None, Some, [], IsTrue, false, slice_get, true, List};

use crate::client::Client;
use client_items::{News, Opened};
use client_port::Port;
use client_state::{Drew, Phase, Sending, Sent, Transaction, has_stopped};
use repo_refusals::Refusal;
use session_outbox::At;
use thor_value::{NoMemory, Repos, Sequence, Ts, Who};

impl Client {
    /// Draws the transaction, or begins a session that it lacks at a participant.
    pub fn join_and_draw<Q: Port>(
        &mut self,
        port: &mut Q,
        opened: &Opened,
        transaction: Transaction,
    ) -> Result<News, NoMemory>
        ensures acts { ActsIf Q.shows (Q.view port.old) (Q.view port.new) }
        ensures shown { ShownIf Q.shows (Q.view port.old) (Q.view port.new) opened.now.repos result }
        ensures moves { OnOk result (SendsNothingIf Q.shows (Q.view port.old) (Q.view port.new) self.old.held self.new.held) }
        ensures free { pending_in self.new.phase ≡ NonePending }
        ensures ends { IfOk result (λ news. is_ended news ≡ false) }
        ensures hands { OnOk result (ClientHands Q.shows (Q.view port.old) (Q.view port.new) self.old self.new) }
        ensures as_sent { IfOk result (NewsAsSent self.old.held.links.items) }
        ensures writes { WritesShares transaction.shares.items self.old.held.cache.cache → ClientWrites self.new }
        ensures rises { Rises self.old.held self.new.held }
    {
        let apart = self.held.first_apart(&transaction.participants);
        let coordinator = transaction.coordinator();
        self.set_phase(Phase::Evaluated { transaction });
        match apart {
            Some(repo) => self.join_behind(port, opened, repo),
            None => self.draw(port, coordinator),
        }
    }

    /// Draws the evaluated transaction at its coordinator.
    fn draw<Q: Port>(&mut self, port: &mut Q, coordinator: u8) -> Result<News, NoMemory>
        ensures acts { ActsIf Q.shows (Q.view port.old) (Q.view port.new) }
        ensures shown { (repos : ℕ) → ShownIf Q.shows (Q.view port.old) (Q.view port.new) repos result }
        ensures moves { SendsNothingIf Q.shows (Q.view port.old) (Q.view port.new) self.old.held self.new.held }
        ensures free { pending_in self.old.phase ≡ NonePending → pending_in self.new.phase ≡ NonePending }
        ensures ends { IfOk result (λ news. is_ended news ≡ false) }
        ensures hands { OnOk result (ClientHands Q.shows (Q.view port.old) (Q.view port.new) self.old self.new) }
        ensures as_sent { IfOk result (NewsAsSent self.old.held.links.items) }
        ensures writes { ClientWrites self.old → ClientWrites self.new }
        ensures rises { Rises self.old.held self.new.held }
    {
        let Some(at) = self.held.at(coordinator) else {
            return Ok(News::Nothing);
        };
        match self.held.draw(port, at)? {
            Drew::Ts(ts) => {
                let phase = self.take_phase().drawn(ts, &self.held.links);
                self.set_phase(phase);
                Ok(News::Nothing)
            }
            Drew::Refused(came) => Ok(self.go_behind(came)),
        }
    }

    /// Sends a drawn transaction to its only participant, or to its coordinator. It was drawn there, and no two of its shares are of one
    /// repository; one of which that can't be told isn't sent.
    pub fn send<Q: Port>(
        &mut self,
        port: &mut Q,
        opened: &Opened,
        who: Who,
        ts: Ts,
        mut transaction: Transaction,
    ) -> Result<News, NoMemory>
        ensures acts { ActsIf Q.shows (Q.view port.old) (Q.view port.new) }
        ensures shown { ShownIf Q.shows (Q.view port.old) (Q.view port.new) opened.now.repos result }
        ensures moves { (item : Present) → item.who ≡ who → self.old.phase ≡ phase.Between → WritesShares transaction.shares.items self.old.held.cache.cache → NoneAwaits 8 self.old.held.links.items → IfOk result (SendsFrom Q.shows item (Q.view port.old) (Q.view port.new) (Some ts) self.old self.new) }
        ensures as_sent { (links : List Link) → IfOk result (NewsAsSent links) }
        ensures writes { unsent self.old.phase ≡ None → ClientWrites self.new }
        ensures rises { Rises self.old.held self.new.held }
    {
        self.held.names.spend();
        if !transaction.is_drawn_at(ts) {
            return Err(NoMemory);
        }
        if !transaction.has_shares_apart() {
            return Err(NoMemory);
        }
        match self.held.next_sending(who, ts, &mut transaction)? {
            Some(sending) => self.send_first(port, opened, ts, transaction, sending),
            None => Ok(News::Nothing),
        }
    }

    /// It goes out in the session that there is. Where its session is another one, the evaluation begins anew.
    fn send_first<Q: Port>(
        &mut self,
        port: &mut Q,
        opened: &Opened,
        ts: Ts,
        transaction: Transaction,
        sending: Sending,
    ) -> Result<News, NoMemory>
        ensures acts { ActsIf Q.shows (Q.view port.old) (Q.view port.new) }
        ensures shown { sending.request.tx ≡ ts → ShownIf Q.shows (Q.view port.old) (Q.view port.new) opened.now.repos result }
        ensures moves { (item : Present) → self.old.phase ≡ phase.Between → sending.request.tx ≡ ts → (drawn : SendsDrawn item self.old.held.links.items self.old.held.cache.cache sending transaction) → AreApart drawn.drawn.shares.items → (transaction.shares.items ≡ [] → WritesThere sending.at.repo sending.request.writes self.old.held.cache.cache) → IsOfSession self.old.held.links.items sending → NoneAwaits 8 self.old.held.links.items → IfOk result (SendsFrom Q.shows item (Q.view port.old) (Q.view port.new) (Some sending.request.tx) self.old self.new) }
        ensures as_sent { (links : List Link) → IfOk result (NewsAsSent links) }
        ensures writes { unsent self.old.phase ≡ None → ClientWrites self.new }
        ensures rises { Rises self.old.held self.new.held }
    {
        if !self.is_in_session(sending.at) {
            self.begin_anew();
            return Ok(News::Nothing);
        }
        self.send_in_session(port, opened, ts, transaction, sending)
    }

    /// Whether this is the session that there is at its repository.
    #[tactic(auto, using(client_state::proofs::Sessions::same_session, client_state::proofs::Sessions::session_is, client_state::proofs::Sessions::no_session_is))]
    fn is_in_session(&self, at: At) -> bool
        ensures session { result ≡ is_session_of at.session (slice_get self.now.held.links.items at.repo) }
        ensures joined { IsTrue result → InSession at self.now.held }
    {
        match self.held.at(at.repo) {
            Some(here) => here.session == at.session,
            None => false,
        }
    }

    /// Where nothing else is to be sent, it commits; else the coordinator prepares it.
    fn send_in_session<Q: Port>(
        &mut self,
        port: &mut Q,
        opened: &Opened,
        ts: Ts,
        transaction: Transaction,
        sending: Sending,
    ) -> Result<News, NoMemory>
        ensures acts { ActsIf Q.shows (Q.view port.old) (Q.view port.new) }
        ensures shown { sending.request.tx ≡ ts → ShownIf Q.shows (Q.view port.old) (Q.view port.new) opened.now.repos result }
        ensures moves { (item : Present) → self.old.phase ≡ phase.Between → sending.request.tx ≡ ts → InSession sending.at self.old.held → (drawn : SendsDrawn item self.old.held.links.items self.old.held.cache.cache sending transaction) → AreApart drawn.drawn.shares.items → (transaction.shares.items ≡ [] → WritesThere sending.at.repo sending.request.writes self.old.held.cache.cache) → IsOfSession self.old.held.links.items sending → NoneAwaits 8 self.old.held.links.items → IfOk result (SendsFrom Q.shows item (Q.view port.old) (Q.view port.new) (Some sending.request.tx) self.old self.new) }
        ensures as_sent { (links : List Link) → IfOk result (NewsAsSent links) }
        ensures writes { unsent self.old.phase ≡ None → ClientWrites self.new }
        ensures rises { Rises self.old.held self.new.held }
    {
        if transaction.shares.is_empty() {
            return self.commit_held(port, opened, transaction.sent(ts, sending.at), sending);
        }
        self.prepare_held(port, ts, transaction, sending)
    }

    /// The coordinator prepares it where the client has copies of all that it writes there and hasn't created. Where a page has come
    /// that lacks such an object, the evaluation begins anew.
    fn prepare_held<Q: Port>(
        &mut self,
        port: &mut Q,
        ts: Ts,
        transaction: Transaction,
        sending: Sending,
    ) -> Result<News, NoMemory>
        ensures acts { ActsIf Q.shows (Q.view port.old) (Q.view port.new) }
        ensures shown { (repos : ℕ) → ShownIf Q.shows (Q.view port.old) (Q.view port.new) repos result }
        ensures moves { (item : Present) → self.old.phase ≡ phase.Between → sending.request.tx ≡ ts → (drawn : SendsDrawn item self.old.held.links.items self.old.held.cache.cache sending transaction) → AreApart drawn.drawn.shares.items → IsOfSession self.old.held.links.items sending → NoneAwaits 8 self.old.held.links.items → IfOk result (SendsFrom Q.shows item (Q.view port.old) (Q.view port.new) (Some sending.request.tx) self.old self.new) }
        ensures as_sent { (links : List Link) → IfOk result (NewsAsSent links) }
        ensures writes { unsent self.old.phase ≡ None → ClientWrites self.new }
        ensures rises { Rises self.old.held self.new.held }
    {
        if !self.held.holds_written(&sending.request) {
            self.begin_anew();
            return Ok(News::Nothing);
        }
        self.prepare_first(port, ts, transaction, sending)
    }

    /// It commits where the client has copies of all that it writes and hasn't created. Where a page has come that lacks such
    /// an object, the evaluation begins anew.
    fn commit_held<Q: Port>(
        &mut self,
        port: &mut Q,
        opened: &Opened,
        sent: Sent,
        sending: Sending,
    ) -> Result<News, NoMemory>
        ensures acts { ActsIf Q.shows (Q.view port.old) (Q.view port.new) }
        ensures shown { sending.request.tx ≡ sent.ts → ShownIf Q.shows (Q.view port.old) (Q.view port.new) opened.now.repos result }
        ensures moves { (item : Present) (left : Transaction) → SendsAlone item self.old.held.links.items self.old.held.cache.cache sending left → sent ≡ sent_of sending.request.tx sending.at left → self.old.phase ≡ phase.Between → InSession sending.at self.old.held → WritesThere sending.at.repo sending.request.writes self.old.held.cache.cache → IsOfSession self.old.held.links.items sending → NoneAwaits 8 self.old.held.links.items → IfOk result (SendsFrom Q.shows item (Q.view port.old) (Q.view port.new) (Some sending.request.tx) self.old self.new) }
        ensures as_sent { (links : List Link) → IfOk result (NewsAsSent links) }
        ensures writes { unsent self.old.phase ≡ None → ClientWrites self.new }
        ensures rises { Rises self.old.held self.new.held }
    {
        if !self.held.holds_written(&sending.request) {
            self.begin_anew();
            return Ok(News::Nothing);
        }
        self.commit_one(port, opened, sent, sending)
    }

    fn commit_one<Q: Port>(
        &mut self,
        port: &mut Q,
        opened: &Opened,
        sent: Sent,
        sending: Sending,
    ) -> Result<News, NoMemory>
        ensures acts { ActsIf Q.shows (Q.view port.old) (Q.view port.new) }
        ensures shown { sending.request.tx ≡ sent.ts → ShownIf Q.shows (Q.view port.old) (Q.view port.new) opened.now.repos result }
        ensures moves { (item : Present) (left : Transaction) → SendsAlone item self.old.held.links.items self.old.held.cache.cache sending left → sent ≡ sent_of sending.request.tx sending.at left → self.old.phase ≡ phase.Between → InSession sending.at self.old.held → WritesThere sending.at.repo sending.request.writes self.old.held.cache.cache → HoldsWritten sending.request self.old.held.cache.cache → IsOfSession self.old.held.links.items sending → NoneAwaits 8 self.old.held.links.items → IfOk result (SendsFrom Q.shows item (Q.view port.old) (Q.view port.new) (Some sending.request.tx) self.old self.new) }
        ensures as_sent { (links : List Link) → IfOk result (NewsAsSent links) }
        ensures writes { unsent self.old.phase ≡ None → ClientWrites self.new }
        ensures rises { Rises self.old.held self.new.held }
    {
        let Sending { at, request } = sending;
        match port.commit_one(at, request) {
            Ok(_) => Ok(self.end_committed(opened, sent)),
            Err(refusal) => self.refuse_commit(at.repo, sent, refusal),
        }
    }

    /// A commit was refused. Where its call has stopped it may still come, and its verdict is asked for; else the try ends.
    fn refuse_commit(&mut self, repo: u8, sent: Sent, refusal: Refusal) -> Result<News, NoMemory>
        ensures shown { IfOk result (λ news. (old new : View) (repos : ℕ) → Refuses old new repo refusal → NewsShown old new repos news) }
        ensures learns { Learns refusal repo self.old.held self.new.held }
        ensures client { self.new.held.client ≡ self.old.held.client }
        ensures asks { OnOk result (AsksWhereStopped refusal sent (pending_in self.new.phase)) }
        ensures over { OnOk result (IsOver self.new.phase) }
        ensures abort { OnOk result (KeepsAbort self.old self.new) }
        ensures written { (at : At) → IsWrittenIn at self.old.held → HasStopped refusal → IsWrittenIn at self.new.held }
        ensures wrote { OnOk result (WhileUndecided (pending_in self.new.phase) (WritesStay self.old.held.cache.cache self.new.held.cache.cache)) }
        ensures ends { IfOk result (λ news. is_ended news ≡ false) }
        ensures duties { OnOk result (KeepsDuties self.old.duties self.new.duties) }
        ensures as_sent { (links : List Link) → IfOk result (NewsAsSent links) }
        ensures writes { unsent self.old.phase ≡ None → ClientWrites self.new }
        ensures rises { Rises self.old.held self.new.held }
    {
        if has_stopped(refusal) {
            self.begin_asking(sent);
            return Ok(News::Nothing);
        }
        self.end_refused(repo, refusal)
    }

    fn prepare_first<Q: Port>(
        &mut self,
        port: &mut Q,
        ts: Ts,
        transaction: Transaction,
        sending: Sending,
    ) -> Result<News, NoMemory>
        ensures acts { ActsIf Q.shows (Q.view port.old) (Q.view port.new) }
        ensures shown { (repos : ℕ) → ShownIf Q.shows (Q.view port.old) (Q.view port.new) repos result }
        ensures moves { (item : Present) → self.old.phase ≡ phase.Between → sending.request.tx ≡ ts → (drawn : SendsDrawn item self.old.held.links.items self.old.held.cache.cache sending transaction) → AreApart drawn.drawn.shares.items → HoldsWritten sending.request self.old.held.cache.cache → IsOfSession self.old.held.links.items sending → NoneAwaits 8 self.old.held.links.items → IfOk result (SendsFrom Q.shows item (Q.view port.old) (Q.view port.new) (Some sending.request.tx) self.old self.new) }
        ensures as_sent { (links : List Link) → IfOk result (NewsAsSent links) }
        ensures writes { unsent self.old.phase ≡ None → ClientWrites self.new }
        ensures rises { Rises self.old.held self.new.held }
    {
        let Sending { at, request } = sending;
        match port.prepare(at, request) {
            Ok(_) => {
                let prepared = Sequence::new(self.held.alloc);
                self.set_phase(Phase::Preparing {
                    ts,
                    transaction,
                    coordinator: at,
                    prepared,
                });
                Ok(News::Nothing)
            }
            Err(refusal) => self.end_refused(at.repo, refusal),
        }
    }

    /// Has the next participant prepare, or behind the last one the coordinator decide.
    pub fn prepare_or_decide<Q: Port>(
        &mut self,
        port: &mut Q,
        opened: &Opened,
        who: Who,
        ts: Ts,
        transaction: Transaction,
        coordinator: At,
        prepared: Repos,
    ) -> Result<News, NoMemory>
        ensures acts { ActsIf Q.shows (Q.view port.old) (Q.view port.new) }
        ensures shown { ShownIf Q.shows (Q.view port.old) (Q.view port.new) opened.now.repos result }
        ensures moves { (item : Present) → item.who ≡ who → self.old.phase ≡ phase.Between → NoneAwaits 8 self.old.held.links.items → IfOk result (TriesFrom Q.shows item (Q.view port.old) (Q.view port.new) (IsPreparing coordinator ts prepared transaction) self.old self.new) }
        ensures as_sent { (links : List Link) → IfOk result (NewsAsSent links) }
        ensures writes { unsent self.old.phase ≡ None → ClientWrites self.new }
        ensures rises { Rises self.old.held self.new.held }
    {
        if transaction.shares.is_empty() {
            return self.decide_prepared(port, opened, ts, transaction, coordinator, prepared);
        }
        self.prepare_next(port, who, ts, transaction, coordinator, prepared)
    }

    /// Has the coordinator decide where all participants have prepared the transaction. They have, since each of them had its share; a
    /// transaction of which that can't be told isn't decided.
    fn decide_prepared<Q: Port>(
        &mut self,
        port: &mut Q,
        opened: &Opened,
        ts: Ts,
        transaction: Transaction,
        coordinator: At,
        prepared: Repos,
    ) -> Result<News, NoMemory>
        ensures acts { ActsIf Q.shows (Q.view port.old) (Q.view port.new) }
        ensures shown { ShownIf Q.shows (Q.view port.old) (Q.view port.new) opened.now.repos result }
        ensures moves { (item : Present) → transaction.shares.items ≡ [] → self.old.phase ≡ phase.Between → NoneAwaits 8 self.old.held.links.items → IfOk result (TriesFrom Q.shows item (Q.view port.old) (Q.view port.new) (IsPreparing coordinator ts prepared transaction) self.old self.new) }
        ensures as_sent { (links : List Link) → IfOk result (NewsAsSent links) }
        ensures writes { unsent self.old.phase ≡ None → ClientWrites self.new }
        ensures rises { Rises self.old.held self.new.held }
    {
        if !transaction.is_prepared_by(coordinator.repo, &prepared) {
            return Err(NoMemory);
        }
        self.decide(port, opened, transaction.sent(ts, coordinator), coordinator)
    }

    fn prepare_next<Q: Port>(
        &mut self,
        port: &mut Q,
        who: Who,
        ts: Ts,
        mut transaction: Transaction,
        coordinator: At,
        prepared: Repos,
    ) -> Result<News, NoMemory>
        ensures acts { ActsIf Q.shows (Q.view port.old) (Q.view port.new) }
        ensures shown { (repos : ℕ) → ShownIf Q.shows (Q.view port.old) (Q.view port.new) repos result }
        ensures moves { (item : Present) → item.who ≡ who → NoneAwaits 8 self.old.held.links.items → IfOk result (TriesFrom Q.shows item (Q.view port.old) (Q.view port.new) (IsPreparing coordinator ts prepared transaction) self.old self.new) }
        ensures as_sent { (links : List Link) → IfOk result (NewsAsSent links) }
        ensures writes { ClientWrites self.new }
        ensures rises { Rises self.old.held self.new.held }
    {
        let sending = self.held.next_sending(who, ts, &mut transaction);
        self.set_phase(Phase::Preparing {
            ts,
            transaction,
            coordinator,
            prepared,
        });
        match sending? {
            Some(sending) => self.prepare_more(port, sending),
            None => Ok(News::Nothing),
        }
    }

    /// Has a participant prepare where the client has copies of all that it writes there and hasn't created, in the session that there
    /// is. It has them while it is in that session, since no page lacks an object that it had; else nothing is sent.
    fn prepare_more<Q: Port>(&mut self, port: &mut Q, sending: Sending) -> Result<News, NoMemory>
        ensures acts { ActsIf Q.shows (Q.view port.old) (Q.view port.new) }
        ensures shown { (repos : ℕ) → ShownIf Q.shows (Q.view port.old) (Q.view port.new) repos result }
        ensures moves { (item : Present) (a : Pending) → IsSentMore item self.old sending a → IsOfSession self.old.held.links.items sending → NoneAwaits 8 self.old.held.links.items → IfOk result (TriesFrom Q.shows item (Q.view port.old) (Q.view port.new) a self.old self.new) }
        ensures as_sent { (links : List Link) → IfOk result (NewsAsSent links) }
        ensures writes { unsent self.old.phase ≡ None → ClientWrites self.new }
        ensures rises { Rises self.old.held self.new.held }
    {
        if !self.holds_there(&sending) {
            return Err(NoMemory);
        }
        self.prepare(port, sending)
    }

    /// Whether the client has copies of all that a request writes and hasn't created, where it goes out in the session that there is.
    fn holds_there(&self, sending: &Sending) -> bool
        ensures { IsTrue result → HoldsThere sending.now self.now.held.links.items self.now.held.cache.cache }
    {
        if !self.is_in_session(sending.at) {
            return true;
        }
        self.held.holds_written(&sending.request)
    }

    /// Has a participant prepare. Where it refuses, the try ends, and its coordinator is to abort.
    fn prepare<Q: Port>(&mut self, port: &mut Q, sending: Sending) -> Result<News, NoMemory>
        ensures acts { ActsIf Q.shows (Q.view port.old) (Q.view port.new) }
        ensures shown { (repos : ℕ) → ShownIf Q.shows (Q.view port.old) (Q.view port.new) repos result }
        ensures moves { (item : Present) (a : Pending) → IsSentMore item self.old sending a → HoldsThere sending self.old.held.links.items self.old.held.cache.cache → IsOfSession self.old.held.links.items sending → NoneAwaits 8 self.old.held.links.items → IfOk result (TriesFrom Q.shows item (Q.view port.old) (Q.view port.new) a self.old self.new) }
        ensures as_sent { (links : List Link) → IfOk result (NewsAsSent links) }
        ensures writes { unsent self.old.phase ≡ None → ClientWrites self.new }
        ensures rises { Rises self.old.held self.new.held }
    {
        let Sending { at, request } = sending;
        match port.prepare(at, request) {
            Ok(_) => {
                self.phase.note_prepared(at.repo)?;
                Ok(News::Nothing)
            }
            Err(refusal) => self.end_refused(at.repo, refusal),
        }
    }

    /// Has the coordinator decide. Where it refuses, it is asked for the verdict.
    fn decide<Q: Port>(
        &mut self,
        port: &mut Q,
        opened: &Opened,
        sent: Sent,
        coordinator: At,
    ) -> Result<News, NoMemory>
        ensures acts { ActsIf Q.shows (Q.view port.old) (Q.view port.new) }
        ensures shown { ShownIf Q.shows (Q.view port.old) (Q.view port.new) opened.now.repos result }
        ensures moves { (item : Present) (a : Pending) (transaction : Transaction) → DecidesAll a coordinator sent.ts transaction → sent ≡ sent_of sent.ts coordinator transaction → self.old.phase ≡ phase.Between → NoneAwaits 8 self.old.held.links.items → IfOk result (TriesFrom Q.shows item (Q.view port.old) (Q.view port.new) a self.old self.new) }
        ensures as_sent { (links : List Link) → IfOk result (NewsAsSent links) }
        ensures writes { unsent self.old.phase ≡ None → ClientWrites self.new }
        ensures rises { Rises self.old.held self.new.held }
    {
        match port.decide(coordinator, sent.ts, true) {
            Ok(verdict) => self.learn_own(opened, sent, coordinator.repo, verdict),
            Err(refusal) => self.ask_behind(coordinator.repo, sent, refusal),
        }
    }

    /// The coordinator has refused to decide: it is asked for the verdict. A session that is gone is lost.
    fn ask_behind(&mut self, repo: u8, sent: Sent, refusal: Refusal) -> Result<News, NoMemory>
        ensures news { IfOk result (λ n. n ≡ news.Nothing) }
        ensures loses { Loses refusal repo self.old.held self.new.held }
        ensures client { self.new.held.client ≡ self.old.held.client }
        ensures asks { OnOk result (pending_in self.new.phase ≡ IsAsking sent 0) }
        ensures wrote { WrittenRefused refusal repo self.old.held.links.items self.old.held.cache.cache self.new.held.cache.cache }
        ensures duties { self.new.duties ≡ self.old.duties }
        ensures as_sent { (links : List Link) → IfOk result (NewsAsSent links) }
        ensures writes { unsent self.old.phase ≡ None → ClientWrites self.new }
        ensures rises { Rises self.old.held self.new.held }
    {
        if let Refusal::NoMemory = refusal {
            return Err(NoMemory);
        }
        let _ = self.held.lose_gone(repo, refusal);
        self.begin_asking(sent);
        Ok(News::Nothing)
    }

    fn begin_asking(&mut self, sent: Sent)
        ensures held { self.new.held ≡ self.old.held }
        ensures asks { pending_in self.new.phase ≡ IsAsking sent 0 }
        ensures duties { self.new.duties ≡ self.old.duties }
        ensures writes { ClientWrites self.new }
        ensures rises { Rises self.old.held self.new.held }
    {
        self.set_phase(Phase::Asking { sent, answers: 0 });
    }
}
