//! How a due object is brought to the client's epoch before the evaluation goes on.
//!
//! Lazy transforms are those of Boyapati and others (OOPSLA 2003).

ghost use Rattle.client_state.specs.declared.link.Link.{Link};
ghost use Rattle.client_state.specs.Settling.{NewsAsSent};
ghost use Rattle.client_items.specs.Meanings.{is_ended};
ghost use Rattle.client_state.specs.Drawing.{drawn_by, drawn_in};
ghost use Rattle.client_state.specs.Handing.{KeepsDuties};
ghost use Rattle.client_state.specs.Pending.{NonePending, pending_in};
ghost use Rattle.client_state.specs.Stepping.{Present, SendsTransform};
ghost use Rattle.client_state.specs.declared.phase.Phase.TheVariants as phase;
ghost use Rattle.front_end.specs.Stepping.{ClientHands, KeepsAbort, KeepsDrawn, SendsFrom};
ghost use Rattle.client_state.specs.Writing.{HoldsWritten, unsent};
ghost use Rattle.front_end.specs.Writing.{ClientWrites};
ghost use Rattle.client_state.specs.Learning.{Rises};
ghost use Rattle.client_state.specs.Links.{NoneAwaits, session_in};
ghost use Rattle.client_state.specs.Moving.{InSession, KeepsMade, Learns, SendsNothingIf};
ghost use Rattle.client_state.specs.Sending.{IsOfSession};
ghost use Rattle.front_end.specs.Showing.{NewsShown, ShownIf};
ghost use Rattle.client_port.specs.Acting.{ActsIf, Refuses};
ghost use Rattle.client_port.specs.Views.{View};
ghost use Rattle.std.specs.Prelude.{IfOk, OnOk, Some, [], false, slice_get, ℕ, ◌∷◌, ◌≡◌, None, List};

use crate::client::Client;
use client_items::{News, Opened};
use client_port::Port;
use client_state::{Becomes, Drew, Phase, Transform};
use lazy_transform::Wanted;
use log_entries::Request;
use paused_eval::Paused;
use repo_refusals::Refusal;
use session_outbox::At;
use thor_value::{NoMemory, Obj, Oref, Orefs, Ts};

impl Client {
    /// A transform begins. What the try has changed is given up, since its evaluation begins anew behind.
    pub fn begin_transform<Q: Port>(
        &mut self,
        port: &mut Q,
        opened: &Opened,
        oref: Oref,
        obj: Obj,
        owners: Orefs,
    ) -> Result<News, NoMemory>
        ensures acts { ActsIf Q.shows (Q.view port.old) (Q.view port.new) }
        ensures shown { ShownIf Q.shows (Q.view port.old) (Q.view port.new) opened.now.repos result }
        ensures moves { NoneAwaits 8 self.old.held.links.items → OnOk result (SendsNothingIf Q.shows (Q.view port.old) (Q.view port.new) self.old.held self.new.held) }
        ensures free { pending_in self.old.phase ≡ NonePending → pending_in self.new.phase ≡ NonePending }
        ensures ends { IfOk result (λ news. is_ended news ≡ false) }
        ensures hands { OnOk result (ClientHands Q.shows (Q.view port.old) (Q.view port.new) self.old self.new) }
        ensures as_sent { IfOk result (NewsAsSent self.old.held.links.items) }
        ensures writes { unsent self.old.phase ≡ None → ClientWrites self.new }
        ensures rises { Rises self.old.held self.new.held }
    {
        self.held.undo();
        self.held.cache.bring_forward(oref);
        let epoch = self.held.epoch(opened);
        let transform = Transform::begun(self.held.alloc, oref, obj, owners, epoch);
        self.collect(port, opened, transform)
    }

    /// The transform goes on: it collects its parts, or is committed.
    pub fn transform<Q: Port>(
        &mut self,
        port: &mut Q,
        opened: &Opened,
        run: Paused,
        transform: Transform,
    ) -> Result<News, NoMemory>
        ensures acts { ActsIf Q.shows (Q.view port.old) (Q.view port.new) }
        ensures shown { ShownIf Q.shows (Q.view port.old) (Q.view port.new) opened.now.repos result }
        ensures moves { (item : Present) → NoneAwaits 8 self.old.held.links.items → IfOk result (SendsFrom Q.shows item (Q.view port.old) (Q.view port.new) (drawn_by transform.stage) self.old self.new) }
        ensures as_sent { IfOk result (NewsAsSent self.old.held.links.items) }
        ensures writes { ClientWrites self.new }
        ensures rises { Rises self.old.held self.new.held }
    {
        let awaited = None;
        self.set_phase(Phase::Evaluating { run, awaited });
        match transform.into_drawn() {
            Ok((ts, becomes)) => self.commit_transform(port, ts, becomes),
            Err(transform) => self.collect(port, opened, transform),
        }
    }

    /// Looks at the parts that are held, and asks for the page of the first that isn't. Where all were
    /// looked at, the transform is drawn.
    fn collect<Q: Port>(
        &mut self,
        port: &mut Q,
        opened: &Opened,
        mut transform: Transform,
    ) -> Result<News, NoMemory>
        ensures acts { ActsIf Q.shows (Q.view port.old) (Q.view port.new) }
        ensures shown { ShownIf Q.shows (Q.view port.old) (Q.view port.new) opened.now.repos result }
        ensures moves { NoneAwaits 8 self.old.held.links.items → OnOk result (SendsNothingIf Q.shows (Q.view port.old) (Q.view port.new) self.old.held self.new.held) }
        ensures free { pending_in self.old.phase ≡ NonePending → pending_in self.new.phase ≡ NonePending }
        ensures ends { IfOk result (λ news. is_ended news ≡ false) }
        ensures hands { drawn_by transform.stage ≡ None → OnOk result (ClientHands Q.shows (Q.view port.old) (Q.view port.new) self.old self.new) }
        ensures as_sent { IfOk result (NewsAsSent self.old.held.links.items) }
        ensures writes { unsent self.old.phase ≡ None → ClientWrites self.new }
        ensures rises { Rises self.old.held self.new.held }
    {
        match self.held.collect(opened, &mut transform)? {
            Wanted::All(reads) => self.draw_transform(port, opened, transform, &reads),
            Wanted::Part(part) => {
                self.go_on_with(transform);
                self.fetch_needed(port, opened, part)
            }
        }
    }

    /// The try goes on with this transform.
    fn go_on_with(&mut self, transform: Transform)
        ensures held { self.new.held ≡ self.old.held }
        ensures duties { self.new.duties ≡ self.old.duties }
        ensures phase { unsent self.new.phase ≡ unsent self.old.phase }
        ensures pending { pending_in self.new.phase ≡ pending_in self.old.phase }
        ensures drawn { drawn_by transform.stage ≡ None → KeepsDrawn self.old self.new }
        ensures rises { Rises self.old.held self.new.held }
    {
        let phase = self.take_phase().transforming(transform);
        self.set_phase(phase);
    }

    /// Makes what the object becomes, and draws its transaction.
    fn draw_transform<Q: Port>(
        &mut self,
        port: &mut Q,
        opened: &Opened,
        transform: Transform,
        reads: &Orefs,
    ) -> Result<News, NoMemory>
        ensures acts { ActsIf Q.shows (Q.view port.old) (Q.view port.new) }
        ensures shown { ShownIf Q.shows (Q.view port.old) (Q.view port.new) opened.now.repos result }
        ensures moves { NoneAwaits 8 self.old.held.links.items → OnOk result (SendsNothingIf Q.shows (Q.view port.old) (Q.view port.new) self.old.held self.new.held) }
        ensures free { pending_in self.old.phase ≡ NonePending → pending_in self.new.phase ≡ NonePending }
        ensures ends { IfOk result (λ news. is_ended news ≡ false) }
        ensures hands { drawn_by transform.stage ≡ None → OnOk result (ClientHands Q.shows (Q.view port.old) (Q.view port.new) self.old self.new) }
        ensures as_sent { IfOk result (NewsAsSent self.old.held.links.items) }
        ensures writes { unsent self.old.phase ≡ None → ClientWrites self.new }
        ensures rises { Rises self.old.held self.new.held }
    {
        let repo = transform.oref.repo;
        match self.held.at(repo) {
            Some(at) => {
                let becomes = transform.becomes(self.held.alloc, &opened.schemas, reads);
                self.go_on_with(transform);
                self.draw_made(port, at, becomes?)
            }
            None => {
                self.go_on_with(transform);
                self.join_behind(port, opened, repo)
            }
        }
    }

    /// Draws the transaction of a transform.
    fn draw_made<Q: Port>(
        &mut self,
        port: &mut Q,
        at: At,
        becomes: Becomes,
    ) -> Result<News, NoMemory>
        ensures acts { ActsIf Q.shows (Q.view port.old) (Q.view port.new) }
        ensures shown { (repos : ℕ) → ShownIf Q.shows (Q.view port.old) (Q.view port.new) repos result }
        ensures moves { session_in at.repo (slice_get self.old.held.links.items at.repo) ≡ Some at → SendsNothingIf Q.shows (Q.view port.old) (Q.view port.new) self.old.held self.new.held }
        ensures free { pending_in self.old.phase ≡ NonePending → pending_in self.new.phase ≡ NonePending }
        ensures ends { IfOk result (λ news. is_ended news ≡ false) }
        ensures hands { OnOk result (ClientHands Q.shows (Q.view port.old) (Q.view port.new) self.old self.new) }
        ensures as_sent { IfOk result (NewsAsSent self.old.held.links.items) }
        ensures writes { unsent self.old.phase ≡ None → ClientWrites self.new }
        ensures rises { Rises self.old.held self.new.held }
    {
        match self.held.draw(port, at)? {
            Drew::Ts(ts) => {
                self.phase.draw_transform(ts, becomes);
                Ok(News::Nothing)
            }
            Drew::Refused(came) => Ok(self.go_behind(came)),
        }
    }

    fn commit_transform<Q: Port>(
        &mut self,
        port: &mut Q,
        ts: Ts,
        becomes: Becomes,
    ) -> Result<News, NoMemory>
        ensures acts { ActsIf Q.shows (Q.view port.old) (Q.view port.new) }
        ensures shown { (repos : ℕ) → ShownIf Q.shows (Q.view port.old) (Q.view port.new) repos result }
        ensures moves { (item : Present) → pending_in self.old.phase ≡ NonePending → NoneAwaits 8 self.old.held.links.items → IfOk result (SendsFrom Q.shows item (Q.view port.old) (Q.view port.new) (Some ts) self.old self.new) }
        ensures as_sent { (links : List Link) → IfOk result (NewsAsSent links) }
        ensures writes { unsent self.old.phase ≡ None → ClientWrites self.new }
        ensures rises { Rises self.old.held self.new.held }
    {
        let oref = becomes.oref;
        match self.held.at(oref.repo) {
            Some(at) => {
                let (request, made) = self.held.transform_request(at, ts, becomes)?;
                self.send_held(port, at, ts, request, oref, made)
            }
            None => {
                self.begin_anew();
                Ok(News::Nothing)
            }
        }
    }

    /// It is sent where the client still has a copy of the object; else the evaluation begins anew.
    fn send_held<Q: Port>(
        &mut self,
        port: &mut Q,
        at: At,
        ts: Ts,
        request: Request,
        oref: Oref,
        made: Obj,
    ) -> Result<News, NoMemory>
        ensures acts { ActsIf Q.shows (Q.view port.old) (Q.view port.new) }
        ensures shown { (repos : ℕ) → ShownIf Q.shows (Q.view port.old) (Q.view port.new) repos result }
        ensures moves { (item : Present) → pending_in self.old.phase ≡ NonePending → InSession at self.old.held → SendsTransform self.old.held.client self.old.held.links.items (record { at = at; request = request }) → IsOfSession self.old.held.links.items (record { at = at; request = request }) → request.writes ≡ (oref, made) ∷ [] → oref.repo ≡ at.repo → NoneAwaits 8 self.old.held.links.items → IfOk result (SendsFrom Q.shows item (Q.view port.old) (Q.view port.new) (Some request.tx) self.old self.new) }
        ensures as_sent { (links : List Link) → IfOk result (NewsAsSent links) }
        ensures writes { unsent self.old.phase ≡ None → ClientWrites self.new }
        ensures rises { Rises self.old.held self.new.held }
    {
        if !self.held.holds_written(&request) {
            self.begin_anew();
            return Ok(News::Nothing);
        }
        self.send_transform(port, at, ts, request, oref, made)
    }

    fn send_transform<Q: Port>(
        &mut self,
        port: &mut Q,
        at: At,
        ts: Ts,
        request: Request,
        oref: Oref,
        made: Obj,
    ) -> Result<News, NoMemory>
        ensures acts { ActsIf Q.shows (Q.view port.old) (Q.view port.new) }
        ensures shown { (repos : ℕ) → ShownIf Q.shows (Q.view port.old) (Q.view port.new) repos result }
        ensures moves { (item : Present) → pending_in self.old.phase ≡ NonePending → InSession at self.old.held → SendsTransform self.old.held.client self.old.held.links.items (record { at = at; request = request }) → IsOfSession self.old.held.links.items (record { at = at; request = request }) → request.writes ≡ (oref, made) ∷ [] → oref.repo ≡ at.repo → HoldsWritten request self.old.held.cache.cache → NoneAwaits 8 self.old.held.links.items → IfOk result (SendsFrom Q.shows item (Q.view port.old) (Q.view port.new) (Some request.tx) self.old self.new) }
        ensures as_sent { (links : List Link) → IfOk result (NewsAsSent links) }
        ensures writes { unsent self.old.phase ≡ None → ClientWrites self.new }
        ensures rises { Rises self.old.held self.new.held }
    {
        match port.commit_one(at, request) {
            Ok(_) => self.end_transform(ts, oref, made),
            Err(refusal) => self.refuse_transform(at, ts, refusal),
        }
    }

    /// The object is written. The evaluation begins anew.
    fn end_transform(&mut self, ts: Ts, oref: Oref, made: Obj) -> Result<News, NoMemory>
        ensures shown { IfOk result (λ news. (old new : View) (repos : ℕ) → NewsShown old new repos news) }
        ensures keeps { OnOk result (KeepsMade oref made self.old.held self.new.held) }
        ensures ends { IfOk result (λ news. is_ended news ≡ false) }
        ensures duties { self.new.duties ≡ self.old.duties }
        ensures free { pending_in self.old.phase ≡ NonePending → pending_in self.new.phase ≡ NonePending }
        ensures undrawn { OnOk result (drawn_in self.new.phase ≡ None) }
        ensures as_sent { (links : List Link) → IfOk result (NewsAsSent links) }
        ensures writes { unsent self.old.phase ≡ None → ClientWrites self.new }
        ensures rises { Rises self.old.held self.new.held }
    {
        self.held.raise_floor(ts);
        self.held.keep_made(oref, made)?;
        self.begin_anew();
        Ok(News::Nothing)
    }

    /// A refused transform is a refused try. One whose call stopped may still have been committed, and
    /// nobody asks for it.
    fn refuse_transform(&mut self, at: At, ts: Ts, refusal: Refusal) -> Result<News, NoMemory>
        ensures shown { IfOk result (λ news. (old new : View) (repos : ℕ) → Refuses old new at.repo refusal → NewsShown old new repos news) }
        ensures learns { Learns refusal at.repo self.old.held self.new.held }
        ensures ends { IfOk result (λ news. is_ended news ≡ false) }
        ensures duties { OnOk result (KeepsDuties self.old.duties self.new.duties) }
        ensures client { self.new.held.client ≡ self.old.held.client }
        ensures free { pending_in self.old.phase ≡ NonePending → pending_in self.new.phase ≡ NonePending }
        ensures over { OnOk result (self.new.phase ≡ phase.Between) }
        ensures abort { OnOk result (KeepsAbort self.old self.new) }
        ensures as_sent { (links : List Link) → IfOk result (NewsAsSent links) }
        ensures writes { unsent self.old.phase ≡ None → ClientWrites self.new }
        ensures rises { Rises self.old.held self.new.held }
    {
        self.count_if_stopped(ts, refusal);
        self.end_refused(at.repo, refusal)
    }

    /// The timestamp of a call that stopped is counted.
    fn count_if_stopped(&mut self, ts: Ts, refusal: Refusal)
        ensures phase { self.new.phase ≡ self.old.phase }
        ensures duties { self.new.duties ≡ self.old.duties }
        ensures rest { self.new.held ≡ record self.old.held { floor = self.new.held.floor } }
        ensures rises { Rises self.old.held self.new.held }
    {
        if let Refusal::Stopped { .. } = refusal {
            self.held.raise_floor(ts);
        }
    }
}
