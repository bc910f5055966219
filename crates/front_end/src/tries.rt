//! How a try goes on behind a call, begins anew, and ends.

ghost use Rattle.client_state.specs.declared.link.Link.{Link};
ghost use Rattle.client_state.specs.Settling.{CameAsSent, NewsAsSent, SettlesAsSent};
ghost use Rattle.client_items.specs.Meanings.{is_ended};
ghost use Rattle.client_state.specs.Handing.{KeepsDuties, helps_by};
ghost use Rattle.client_state.specs.Pending.{NonePending, StaysPending, abort_in, pending_in};
ghost use Rattle.front_end.specs.Stepping.{ClientNotes, KeepsDrawn, SameVerdicts};
ghost use Rattle.client_state.specs.Writing.{CameStays, PhaseWrites};
ghost use Rattle.client_cache.specs.Copies.{Contents, changed};
ghost use Rattle.front_end.specs.Writing.{ClientWrites};
ghost use Rattle.client_state.specs.Learning.{KeepsBounds, Rises, floor_learnt, links_learnt};
ghost use Rattle.client_state.specs.Moving.{HoldsLess, Learns, StopsWaiting};
ghost use Rattle.client_state.specs.Showing.{CameShown, IsLearnt};
ghost use Rattle.client_state.specs.declared.phase.Phase.TheVariants as phase;
ghost use Rattle.front_end.specs.Moving.{uncounted};
ghost use Rattle.front_end.specs.Showing.{NewsShown};
ghost use Rattle.client_items.specs.declared.news.News.TheVariants as news;
ghost use Rattle.client_port.specs.Acting.{Refuses};
ghost use Rattle.client_port.specs.Views.{View};
ghost use Rattle.std.specs.Prelude.{IfOk, IsSome, None, OnOk, false, ℕ, ◌≡◌, ◌≤◌, ◌⊎◌, List};
ghost use Rattle.thor_value.specs.declared.names.Oref.{Oref};

use crate::client::Client;
use base_reasons::Reason;
use client_items::{Learnt, News};
use client_state::{Came, Helping, Phase, cause_of};
use repo_refusals::Refusal;
use serial_model::Cause;
use std::mem;
use thor_value::NoMemory;

/// The transaction that stood against a request and is to be asked about, if there is one.
fn helping_behind(refusal: Refusal, refuser: u8) -> Option<Helping>
    ensures { helps_by result ≡ None }
{
    match refusal {
        Refusal::Reason(Reason::Earlier { tx, .. } | Reason::Blocked { tx }) => {
            Some(Helping::Ask { ts: tx, refuser })
        }
        _ => None,
    }
}

impl Client {
    /// Takes the phase out; no try runs then.
    pub fn take_phase(&mut self) -> Phase
        ensures phase { result ≡ self.old.phase }
        ensures rest { self.new ≡ record self.old { phase = phase.Between } }
    {
        mem::replace(&mut self.phase, Phase::Between)
    }

    /// Puts a phase in the place of the one before.
    pub fn set_phase(&mut self, phase: Phase)
        ensures { self.new ≡ record self.old { phase = phase } }
    {
        drop(mem::replace(&mut self.phase, phase));
    }

    /// Behind a call the try goes on as it is, begins anew, or ends.
    pub fn go_behind(&mut self, came: Came) -> News
        ensures shown { (old new : View) (repos : ℕ) → CameShown old new came → NewsShown old new repos result }
        ensures less { HoldsLess self.old.held self.new.held }
        ensures free { pending_in self.old.phase ≡ NonePending → pending_in self.new.phase ≡ NonePending }
        ensures ends { is_ended result ≡ false }
        ensures verdicts { SameVerdicts self.old self.new }
        ensures as_sent { (links : List Link) → CameAsSent links came → NewsAsSent links result }
        ensures writes { (before : Contents) → CameStays came before self.old.held.cache.cache → PhaseWrites self.old.phase before → ClientWrites self.new }
        ensures rises { Rises self.old.held self.new.held }
    {
        match came {
            Came::Well => News::Nothing,
            Came::Anew => {
                self.begin_anew();
                News::Nothing
            }
            Came::Refused(cause) => self.end_try(cause),
            Came::Learnt(learnt) => self.take_learnt(learnt),
        }
    }

    /// Behind a call by which a verdict was learnt late, the try goes on as it was, or its evaluation begins
    /// anew.
    fn take_learnt(&mut self, learnt: Learnt) -> News
        ensures shown { (old new : View) (repos : ℕ) → IsLearnt old new learnt.settled → NewsShown old new repos result }
        ensures less { HoldsLess self.old.held self.new.held }
        ensures free { pending_in self.old.phase ≡ NonePending → pending_in self.new.phase ≡ NonePending }
        ensures ends { is_ended result ≡ false }
        ensures duties { self.new.duties ≡ self.old.duties }
        ensures drawn { KeepsDrawn self.old self.new }
        ensures as_sent { (links : List Link) → SettlesAsSent links learnt.settled → NewsAsSent links result }
        ensures writes { ClientWrites self.old → ClientWrites self.new }
        ensures rises { Rises self.old.held self.new.held }
    {
        let Learnt { settled, rises } = learnt;
        if rises {
            self.begin_anew();
        }
        News::Settled { settled }
    }

    /// The evaluation begins anew in the same try.
    pub fn begin_anew(&mut self)
        ensures phase { self.new.phase ≡ phase.Beginning }
        ensures duties { self.new.duties ≡ self.old.duties }
        ensures less { HoldsLess self.old.held self.new.held }
        ensures writes { ClientWrites self.new }
        ensures rises { Rises self.old.held self.new.held }
    {
        self.held.undo();
        self.set_phase(Phase::Beginning);
    }

    /// The try that runs, or that would begin, ends. What its coordinator has prepared is to be
    /// aborted.
    pub fn end_try(&mut self, cause: Cause) -> News
        ensures news { result ≡ news.TryEnded cause }
        ensures none { (x : Oref) → changed self.new.held.cache.cache x ≡ None }
        ensures links { self.new.held.links ≡ self.old.held.links }
        ensures less { HoldsLess self.old.held self.new.held }
        ensures as_sent { (links : List Link) → NewsAsSent links result }
        ensures writes { ClientWrites self.new }
        ensures bounds { KeepsBounds self.old.held self.new.held }
        ensures phase { self.new.phase ≡ phase.Between }
        ensures verdicts { SameVerdicts self.old self.new }
        ensures abort { IsSome (abort_in self.old.phase) → self.new.duties.abort ≡ abort_in self.old.phase }
        ensures notes { ClientNotes self.old self.new }
        ensures left { (tries : ℕ) → uncounted tries self.new ≤ uncounted tries self.old }
    {
        self.end_phase();
        self.held.give_up();
        News::TryEnded { cause }
    }

    /// No try runs any more. What its coordinator has prepared is to be aborted.
    fn end_phase(&mut self)
        ensures held { self.new.held ≡ self.old.held }
        ensures phase { self.new.phase ≡ phase.Between }
        ensures verdicts { SameVerdicts self.old self.new }
        ensures abort { IsSome (abort_in self.old.phase) → self.new.duties.abort ≡ abort_in self.old.phase }
        ensures notes { ClientNotes self.old self.new }
        ensures left { (tries : ℕ) → uncounted tries self.new ≤ uncounted tries self.old }
    {
        match self.take_phase().into_abort() {
            Some(abort) => self.duties.note_abort(abort),
            None => {}
        }
    }

    /// A request was refused: the client learns from it, and the try ends.
    pub fn end_refused(&mut self, repo: u8, refusal: Refusal) -> Result<News, NoMemory>
        ensures phase { OnOk result (self.new.phase ≡ phase.Between) }
        ensures ends { IfOk result (λ news. is_ended news ≡ false) }
        ensures duties { OnOk result (KeepsDuties self.old.duties self.new.duties) }
        ensures notes { OnOk result (ClientNotes self.old self.new) }
        ensures shown { IfOk result (λ news. (old new : View) (repos : ℕ) → Refuses old new repo refusal → NewsShown old new repos news) }
        ensures links { OnOk result (self.new.held.links.items ≡ links_learnt refusal repo self.old.held.links.items) }
        ensures floor { OnOk result (self.new.held.floor ≡ floor_learnt refusal self.old.held.floor) }
        ensures learns { Learns refusal repo self.old.held self.new.held }
        ensures client { self.new.held.client ≡ self.old.held.client }
        ensures stays { StaysPending (pending_in self.old.phase) (pending_in self.new.phase) self.old.held self.new.held }
        ensures as_sent { (links : List Link) → IfOk result (NewsAsSent links) }
        ensures writes { ClientWrites self.old → ClientWrites self.new }
        ensures rises { Rises self.old.held self.new.held }
    {
        let cause = cause_of(refusal, repo)?;
        self.held.learn(repo, refusal);
        self.note_helping(helping_behind(refusal, repo));
        Ok(self.end_try(cause))
    }

    /// Another's transaction is to be helped on before the next try, where there is one.
    fn note_helping(&mut self, helping: Option<Helping>)
        ensures rest { self.new ≡ record self.old { duties = record self.old.duties { helping = self.new.duties.helping } } }
        ensures helping { (self.new.duties.helping ≡ self.old.duties.helping) ⊎ (self.new.duties.helping ≡ helping) }
    {
        if helping.is_some() {
            self.duties.helping = helping;
        }
    }

    /// What holds a next try back is given up, since none is left. The reply that is outstanding at a repository isn't waited for
    /// any more.
    pub fn stop_waiting(&mut self, repo: u8)
        ensures stops { StopsWaiting repo self.old.held self.new.held }
        ensures held { self.new.held ≡ record self.old.held { links = self.new.held.links } }
        ensures phase { self.new.phase ≡ self.old.phase }
        ensures duties { KeepsDuties self.old.duties self.new.duties }
        ensures abort { self.new.duties.abort ≡ self.old.duties.abort }
        ensures uncounted { (tries : ℕ) → uncounted tries self.new ≡ uncounted tries self.old }
        ensures writes { ClientWrites self.old → ClientWrites self.new }
        ensures rises { Rises self.old.held self.new.held }
    {
        self.held.stop_waiting(repo);
        self.duties.helping = None;
    }
}
