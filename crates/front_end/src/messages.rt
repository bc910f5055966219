//! What a client does with the messages of a repository.

ghost use Rattle.client_state.specs.declared.link.Link.{Link};
ghost use Rattle.client_state.specs.Settling.{NewsAsSent};
ghost use Rattle.client_items.specs.Meanings.{is_ended};
ghost use Rattle.client_state.specs.Handing.{KeepsDuties};
ghost use Rattle.client_state.specs.Pending.{NonePending, StaysPending, pending_in};
ghost use Rattle.client_state.specs.Reading.{ReadsNone};
ghost use Rattle.client_state.specs.Stepping.{Present};
ghost use Rattle.front_end.specs.Stepping.{ClientNotes, ClientSteps, IsStaleBy, SameVerdicts, news_in};
ghost use Rattle.front_end.specs.Writing.{ClientWrites};
ghost use Rattle.client_cache.specs.Copies.{changed};
ghost use Rattle.client_state.specs.Learning.{KeepsBounds, Rises};
ghost use Rattle.client_state.specs.Moving.{InSession, Loses};
ghost use Rattle.client_state.specs.Receiving.{EndsReceive, GaveUpIf, GivesUp, IsNotGone, ReceivesNone, TakesCopies};
ghost use Rattle.client_state.specs.Taking.{Without, WrittenWithout};
ghost use Rattle.client_state.specs.Writing.{WritesNone, WritesStay, has_sent_to};
ghost use Rattle.client_state.specs.Written.{WhileUndecided, WrittenRefused, WrittenTaken, is_sent_to};
ghost use Rattle.paused_eval.specs.Copies.{AreAmong};
ghost use Rattle.front_end.specs.Showing.{NewsShown, ShownIf, SomeShownIf};
ghost use Rattle.client_port.specs.Acting.{ActsIf, IsTaken, Refuses};
ghost use Rattle.client_port.specs.Views.{View};
ghost use Rattle.front_end.specs.Moving.{uncounted};
ghost use Rattle.session_outbox.specs.declared.message.Message.TheVariants as message;
ghost use Rattle.client_items.specs.declared.news.News.TheVariants as news;
ghost use Rattle.std.specs.Prelude.{IfOk, IsTrue, List, None, OnOk, false, not, true, ℕ, ◌≡◌, ◌≤◌};

use crate::client::Client;
use base_reasons::Reason;
use client_items::{News, Opened};
use client_port::Port;
use client_state::cause_of;
use page_format::{Page, PageImage};
use repo_refusals::Refusal;
use serial_model::Cause;
use session_outbox::{At, Message};
use thor_value::{NoMemory, Oref, Orefs};

/// Whether an object lies on a page.
fn is_on(oref: Oref, repo: u8, page: u32) -> bool
    ensures { IsTrue result → (oref.repo ≡ repo) × (oref.page ≡ page) }
{
    oref.repo == repo && oref.page == page
}

impl Client {
    /// Takes a message by a step; nothing where none waits. A repository that is down ends the try that
    /// runs or would begin.
    pub fn receive<Q: Port>(
        &mut self,
        port: &mut Q,
        opened: &Opened,
        at: At,
        left: bool,
    ) -> Result<Option<News>, NoMemory>
        ensures acts { ActsIf Q.shows (Q.view port.old) (Q.view port.new) }
        ensures shown { SomeShownIf Q.shows (Q.view port.old) (Q.view port.new) opened.now.repos result }
        ensures moves { (item : Present) → InSession at self.old.held → IfOk result (λ some. ClientSteps Q.shows item (Q.view port.old) (Q.view port.new) self.old self.new (news_in some)) }
        ensures ends { IfOk result (λ some. is_ended (news_in some) ≡ false) }
        ensures duties { OnOk result (KeepsDuties self.old.duties self.new.duties) }
        ensures none { IfOk result (λ some. some ≡ None → ReceivesNone Q.shows (Q.view port.old) (Q.view port.new) at self.old.held self.new.held) }
        ensures still { IfOk result (λ some. some ≡ None → self.new.phase ≡ self.old.phase) }
        ensures owes { IfOk result (λ some. some ≡ None → self.new.duties ≡ self.old.duties) }
        ensures gives_up { OnOk result (GaveUpIf Q.shows (Q.view port.old) (Q.view port.new) at.repo self.old.phase self.new.held.cache.cache) }
        ensures as_sent { (links : List Link) → IfOk result (λ some. NewsAsSent links (news_in some)) }
        ensures writes { ClientWrites self.old → ClientWrites self.new }
        ensures rises { Rises self.old.held self.new.held }
    {
        match self.held.receive(port, at) {
            Ok(Some(message)) => Ok(Some(self.take(opened, at.repo, message)?)),
            Ok(None) => Ok(None),
            Err(refusal) => Ok(Some(self.end_unless_gone(at.repo, refusal, left)?)),
        }
    }

    /// No message was taken: where the session is gone it is lost, else the try ends.
    fn end_unless_gone(&mut self, repo: u8, refusal: Refusal, left: bool) -> Result<News, NoMemory>
        ensures shown { IfOk result (λ news. (old new : View) (repos : ℕ) → Refuses old new repo refusal → NewsShown old new repos news) }
        ensures ends { OnOk result (EndsReceive refusal repo self.old.held self.new.held) }
        ensures news { IfOk result (λ news. is_ended news ≡ false) }
        ensures duties { OnOk result (KeepsDuties self.old.duties self.new.duties) }
        ensures notes { OnOk result (ClientNotes self.old self.new) }
        ensures stays { OnOk result (StaysPending (pending_in self.old.phase) (pending_in self.new.phase) self.old.held self.new.held) }
        ensures wrote { OnOk result (WhileUndecided (pending_in self.new.phase) (WrittenRefused refusal repo self.old.held.links.items self.old.held.cache.cache self.new.held.cache.cache)) }
        ensures as_sent { (links : List Link) → IfOk result (NewsAsSent links) }
        ensures writes { ClientWrites self.old → ClientWrites self.new }
        ensures rises { Rises self.old.held self.new.held }
    {
        if self.lose_session(repo, refusal) {
            return Ok(News::Nothing);
        }
        let cause = cause_of(refusal, repo)?;
        Ok(self.end_in_outage(repo, cause, left))
    }

    /// No message could be taken, and the try ends. Where no item is left, none is waited for.
    fn end_in_outage(&mut self, repo: u8, cause: Cause, left: bool) -> News
        ensures news { result ≡ news.TryEnded cause }
        ensures ends { (refusal : Refusal) → IsNotGone refusal → EndsReceive refusal repo self.old.held self.new.held }
        ensures free { pending_in self.new.phase ≡ NonePending }
        ensures duties { KeepsDuties self.old.duties self.new.duties }
        ensures notes { ClientNotes self.old self.new }
        ensures as_sent { (links : List Link) → NewsAsSent links result }
        ensures writes { ClientWrites self.new }
        ensures rises { Rises self.old.held self.new.held }
    {
        if left {
            return self.end_try(cause);
        }
        let news = self.end_try(cause);
        self.stop_waiting(repo);
        news
    }

    /// Takes a message by a delivery. A repository that is down changes nothing.
    pub fn receive_delivered<Q: Port>(
        &mut self,
        port: &mut Q,
        opened: &Opened,
        at: At,
    ) -> Result<News, NoMemory>
        ensures owed { OnOk result ((tries : ℕ) → uncounted tries self.new ≤ uncounted tries self.old) }
        ensures acts { ActsIf Q.shows (Q.view port.old) (Q.view port.new) }
        ensures shown { ShownIf Q.shows (Q.view port.old) (Q.view port.new) opened.now.repos result }
        ensures moves { (item : Present) → InSession at self.old.held → IfOk result (ClientSteps Q.shows item (Q.view port.old) (Q.view port.new) self.old self.new) }
        ensures gives_up { OnOk result (GaveUpIf Q.shows (Q.view port.old) (Q.view port.new) at.repo self.old.phase self.new.held.cache.cache) }
        ensures as_sent { (links : List Link) → IfOk result (NewsAsSent links) }
        ensures writes { ClientWrites self.old → ClientWrites self.new }
        ensures rises { Rises self.old.held self.new.held }
    {
        match self.held.receive(port, at) {
            Ok(Some(message)) => self.take(opened, at.repo, message),
            Ok(None) => Ok(News::Nothing),
            Err(refusal) => self.lose_delivered(at.repo, refusal),
        }
    }

    /// No message was delivered: a session that is gone is lost, and nothing else changes.
    fn lose_delivered(&mut self, repo: u8, refusal: Refusal) -> Result<News, NoMemory>
        ensures owed { (tries : ℕ) → uncounted tries self.new ≤ uncounted tries self.old }
        ensures news { IfOk result (λ n. n ≡ news.Nothing) }
        ensures duties { self.new.duties ≡ self.old.duties }
        ensures notes { ClientNotes self.old self.new }
        ensures loses { Loses refusal repo self.old.held self.new.held }
        ensures client { self.new.held.client ≡ self.old.held.client }
        ensures stays { StaysPending (pending_in self.old.phase) (pending_in self.new.phase) self.old.held self.new.held }
        ensures wrote { WhileUndecided (pending_in self.new.phase) (WrittenRefused refusal repo self.old.held.links.items self.old.held.cache.cache self.new.held.cache.cache) }
        ensures as_sent { (links : List Link) → IfOk result (NewsAsSent links) }
        ensures writes { ClientWrites self.old → ClientWrites self.new }
        ensures rises { Rises self.old.held self.new.held }
    {
        if self.lose_session(repo, refusal) {
            return Ok(News::Nothing);
        }
        match refusal {
            Refusal::NoMemory => Err(NoMemory),
            _ => Ok(News::Nothing),
        }
    }

    /// A session that was gone as a call was made is lost. A try that its coordinator has prepared goes on as it is; any
    /// other begins its evaluation anew. It answers whether the session was gone.
    pub fn lose_session(&mut self, repo: u8, refusal: Refusal) -> bool
        ensures owed { (tries : ℕ) → uncounted tries self.new ≤ uncounted tries self.old }
        ensures loses { Loses refusal repo self.old.held self.new.held }
        ensures client { self.new.held.client ≡ self.old.held.client }
        ensures stays { StaysPending (pending_in self.old.phase) (pending_in self.new.phase) self.old.held self.new.held }
        ensures wrote { WhileUndecided (pending_in self.new.phase) (WrittenRefused refusal repo self.old.held.links.items self.old.held.cache.cache self.new.held.cache.cache) }
        ensures rest { IsTrue (not result) → self.new.held ≡ self.old.held }
        ensures phase { IsTrue (not result) → self.new.phase ≡ self.old.phase }
        ensures duties { self.new.duties ≡ self.old.duties }
        ensures notes { ClientNotes self.old self.new }
        ensures gone { IsTrue (not result) → IsNotGone refusal }
        ensures writes { ClientWrites self.old → ClientWrites self.new }
        ensures rises { Rises self.old.held self.new.held }
    {
        if !self.held.lose_gone(repo, refusal) {
            return false;
        }
        if self.phase.runs_unprepared() {
            self.begin_anew();
        }
        true
    }

    fn take(&mut self, opened: &Opened, repo: u8, message: Message) -> Result<News, NoMemory>
        ensures owed { OnOk result ((tries : ℕ) → uncounted tries self.new ≤ uncounted tries self.old) }
        ensures shown { IfOk result (λ news. (old new : View) (repos : ℕ) → IsTaken old new repo message → NewsShown old new repos news) }
        ensures ends { IfOk result (λ news. is_ended news ≡ false) }
        ensures duties { OnOk result (KeepsDuties self.old.duties self.new.duties) }
        ensures notes { OnOk result (ClientNotes self.old self.new) }
        ensures takes { OnOk result (TakesCopies repo message self.old.held self.new.held) }
        ensures gives_up { OnOk result (GivesUp repo message self.old.phase self.new.held.cache.cache) }
        ensures stays { OnOk result (StaysPending (pending_in self.old.phase) (pending_in self.new.phase) self.old.held self.new.held) }
        ensures wrote { OnOk result (WhileUndecided (pending_in self.new.phase) (WrittenTaken (is_sent_to repo (pending_in self.old.phase)) message self.old.held.cache.cache self.new.held.cache.cache)) }
        ensures as_sent { (links : List Link) → IfOk result (NewsAsSent links) }
        ensures writes { ClientWrites self.old → ClientWrites self.new }
        ensures rises { Rises self.old.held self.new.held }
    {
        match message {
            Message::Page { page, bytes, .. } => self.take_page(repo, page, &bytes),
            Message::Grant { page, .. } => self.take_grant(repo, page),
            Message::Invalid { orefs, place } => Ok(self.take_invalid(repo, &orefs, place)),
            Message::Upgrade { number, .. } => Ok(self.take_upgrade(opened, number)),
        }
    }

    /// A page has come. Where it lacks the object that is needed next, the try ends.
    fn take_page(&mut self, repo: u8, page: u32, bytes: &PageImage) -> Result<News, NoMemory>
        ensures owed { OnOk result ((tries : ℕ) → uncounted tries self.new ≤ uncounted tries self.old) }
        ensures shown { IfOk result (λ news. (old new : View) (repos : ℕ) → (place : ℕ) → IsTaken old new repo (message.Page page bytes.now place) → NewsShown old new repos news) }
        ensures ends { IfOk result (λ news. is_ended news ≡ false) }
        ensures verdicts { SameVerdicts self.old self.new }
        ensures notes { OnOk result (ClientNotes self.old self.new) }
        ensures takes { (place : ℕ) → OnOk result (TakesCopies repo (message.Page page bytes.now place) self.old.held self.new.held) }
        ensures stays { OnOk result (StaysPending (pending_in self.old.phase) (pending_in self.new.phase) self.old.held self.new.held) }
        ensures wrote { OnOk result (WhileUndecided (pending_in self.new.phase) (WritesStay self.old.held.cache.cache self.new.held.cache.cache)) }
        ensures as_sent { (links : List Link) → IfOk result (NewsAsSent links) }
        ensures writes { ClientWrites self.old → ClientWrites self.new }
        ensures rises { Rises self.old.held self.new.held }
    {
        self.held.place(repo, page, bytes)?;
        match self.phase.awaited() {
            Some(oref) if is_on(oref, repo, page) && !self.held.holds(oref) => {
                Ok(self.end_try(Cause::Missing { oref }))
            }
            Some(_) | None => Ok(News::Nothing),
        }
    }

    /// An empty page has come, whose names may be given.
    fn take_grant(&mut self, repo: u8, page: u32) -> Result<News, NoMemory>
        ensures owed { OnOk result ((tries : ℕ) → uncounted tries self.new ≤ uncounted tries self.old) }
        ensures shown { IfOk result (λ news. (old new : View) (repos : ℕ) → NewsShown old new repos news) }
        ensures ends { IfOk result (λ news. is_ended news ≡ false) }
        ensures verdicts { SameVerdicts self.old self.new }
        ensures notes { OnOk result (ClientNotes self.old self.new) }
        ensures takes { (place : ℕ) → OnOk result (TakesCopies repo (message.Grant page place) self.old.held self.new.held) }
        ensures stays { OnOk result (StaysPending (pending_in self.old.phase) (pending_in self.new.phase) self.old.held self.new.held) }
        ensures wrote { OnOk result (WhileUndecided (pending_in self.new.phase) (WritesStay self.old.held.cache.cache self.new.held.cache.cache)) }
        ensures as_sent { (links : List Link) → IfOk result (NewsAsSent links) }
        ensures writes { ClientWrites self.old → ClientWrites self.new }
        ensures rises { Rises self.old.held self.new.held }
    {
        let bytes = PageImage::new(Page::empty(self.held.alloc, page)?);
        self.held.place(repo, page, &bytes)?;
        if self.held.names.has_none_of(repo, page) {
            self.held.names.grant(repo, page)?;
        }
        Ok(News::Nothing)
    }

    /// Objects were written by others. A try that has read one of them ends. Where its transaction was sent to their repository, what
    /// it has written of them is given up: others have finished it there, and written them behind it.
    fn take_invalid(&mut self, repo: u8, orefs: &Orefs, place: u64) -> News
        ensures owed { (tries : ℕ) → uncounted tries self.new ≤ uncounted tries self.old }
        ensures shown { (old new : View) (repos : ℕ) → (repo : ℕ) → IsTaken old new repo (message.Invalid orefs.now place) → NewsShown old new repos result }
        ensures ends { is_ended result ≡ false }
        ensures verdicts { SameVerdicts self.old self.new }
        ensures notes { ClientNotes self.old self.new }
        ensures unread { ReadsNone self.new.phase orefs.now }
        ensures read { IsStaleBy self.old.phase orefs.now place result }
        ensures takes { (repo : ℕ) → TakesCopies repo (message.Invalid orefs.now place) self.old.held self.new.held }
        ensures gives_up { GivesUp repo (message.Invalid orefs.now place) self.old.phase self.new.held.cache.cache }
        ensures stays { StaysPending (pending_in self.old.phase) (pending_in self.new.phase) self.old.held self.new.held }
        ensures wrote { WhileUndecided (pending_in self.new.phase) (WrittenTaken (is_sent_to repo (pending_in self.old.phase)) (message.Invalid orefs.now place) self.old.held.cache.cache self.new.held.cache.cache) }
        ensures as_sent { (links : List Link) → NewsAsSent links result }
        ensures writes { ClientWrites self.old → ClientWrites self.new }
        ensures rises { Rises self.old.held self.new.held }
    {
        self.drop_named(repo, orefs);
        match self.phase.first_read(orefs) {
            Some(oref) => self.end_try(Cause::Reason(Reason::Stale { oref, place })),
            None => News::Nothing,
        }
    }

    /// Drops the copies of objects of a repository, and what the try has written of them where its transaction was sent there.
    fn drop_named(&mut self, repo: u8, orefs: &Orefs)
        ensures copies { Without orefs.now self.old.held.cache.cache self.new.held.cache.cache }
        ensures fewer { AreAmong (changed self.old.held.cache.cache) (changed self.new.held.cache.cache) }
        ensures none { has_sent_to repo self.old.phase ≡ true → WritesNone orefs.now self.new.held.cache.cache }
        ensures sent { has_sent_to repo self.old.phase ≡ true → WrittenWithout orefs.now self.old.held.cache.cache self.new.held.cache.cache }
        ensures unsent { has_sent_to repo self.old.phase ≡ false → WritesStay self.old.held.cache.cache self.new.held.cache.cache }
        ensures links { self.new.held.links ≡ self.old.held.links }
        ensures client { self.new.held.client ≡ self.old.held.client }
        ensures bounds { KeepsBounds self.old.held self.new.held }
        ensures rest { self.new ≡ record self.old { held = self.new.held } }
        ensures writes { ClientWrites self.old → ClientWrites self.new }
    {
        self.held.drop_copies(orefs);
        if !self.phase.has_sent(repo) {
            return;
        }
        self.held.drop_written(orefs);
    }

    /// An upgrade was installed. Where it is the next one, a running try ends.
    fn take_upgrade(&mut self, opened: &Opened, number: u32) -> News
        ensures owed { (tries : ℕ) → uncounted tries self.new ≤ uncounted tries self.old }
        ensures shown { (old new : View) (repos : ℕ) → (repo place : ℕ) (text : List ℕ) → IsTaken old new repo (message.Upgrade number text place) → NewsShown old new repos result }
        ensures ends { is_ended result ≡ false }
        ensures verdicts { SameVerdicts self.old self.new }
        ensures notes { ClientNotes self.old self.new }
        ensures takes { (repo place : ℕ) (text : List ℕ) → TakesCopies repo (message.Upgrade number text place) self.old.held self.new.held }
        ensures stays { StaysPending (pending_in self.old.phase) (pending_in self.new.phase) self.old.held self.new.held }
        ensures wrote { WhileUndecided (pending_in self.new.phase) (WritesStay self.old.held.cache.cache self.new.held.cache.cache) }
        ensures as_sent { (links : List Link) → NewsAsSent links result }
        ensures writes { ClientWrites self.old → ClientWrites self.new }
        ensures rises { Rises self.old.held self.new.held }
    {
        if self.held.learn_next_epoch(opened, number) && self.phase.runs() {
            return self.end_try(Cause::Reason(Reason::Epoch { n: number }));
        }
        News::Nothing
    }
}
