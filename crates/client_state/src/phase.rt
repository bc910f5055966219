//! How far a try has come.

ghost use Rattle.client_state.specs.Drawing.{StaysDrawn, drawn_by, drawn_in};
ghost use Rattle.client_state.specs.Owing.{asking_in, calls_in, calls_of_abort};
ghost use Rattle.client_state.specs.Pending.{NonePending, abort_in, asked_at, noted, pending_in, prepared_at, runs_in};
ghost use Rattle.client_cache.specs.Copies.{Contents};
ghost use Rattle.client_state.specs.Reading.{ReadsNone, phase_reads};
ghost use Rattle.client_state.specs.Sending.{DrawsPhase};
ghost use Rattle.client_state.specs.Writing.{PhaseWrites, has_sent_to, unsent};
ghost use Rattle.client_state.specs.declared.phase.Phase.TheVariants as phase;
ghost use Rattle.std.specs.Prelude.{Contains, IfSome, IsTrue, None, OnOk, Some, not, true, ℕ, ◌≡◌, ◌≤◌, ◌⊎◌};

use crate::duties::Abort;
use crate::link::Link;
use crate::transaction::{Sent, Transaction};
use crate::transform::{Becomes, Stage, Transform};
use paused_eval::Paused;
use session_outbox::At;
use thor_value::{NoMemory, Oref, Orefs, Repos, Ts};

/// How far the try of the present item has come.
#[derive(Drop)]
pub enum Phase {
    /// No try runs.
    Between,
    /// A try runs, and has read nothing: its evaluation begins with the next step.
    Beginning,
    /// Its evaluation goes on. The page of `awaited` was asked for.
    Evaluating {
        run: Paused,
        awaited: Option<Oref>,
    },
    /// It brings a due object to the epoch.
    Transforming {
        run: Paused,
        transform: Transform,
    },
    /// Its evaluation has ended, and it is to be drawn.
    Evaluated {
        transaction: Transaction,
    },
    /// It is drawn, and sent to nobody.
    Drawn {
        ts: Ts,
        transaction: Transaction,
    },
    /// The coordinator has prepared it, and perhaps others.
    Preparing {
        ts: Ts,
        transaction: Transaction,
        /// The session by which the coordinator has prepared it.
        coordinator: At,
        /// The others that have prepared it, rising.
        prepared: Repos,
    },
    /// It was sent to be decided, and its verdict is asked for. No try runs.
    Asking {
        sent: Sent,
        /// How many answers had no verdict.
        answers: u32,
    },
}

/// An object whose page was asked for.
fn awaited_by(stage: &Stage) -> Option<Oref> {
    match stage {
        Stage::Collecting { awaited } => *awaited,
        Stage::Drawn { .. } => None,
    }
}

impl Phase {
    /// What its coordinator has prepared, where that is so: it is to be aborted.
    pub fn into_abort(self) -> Option<Abort>
        ensures calls { (tries : ℕ) → calls_of_abort result ≤ calls_in tries self }
        ensures abort { result ≡ abort_in self }
    {
        match self {
            Phase::Preparing {
                ts,
                transaction,
                coordinator,
                prepared,
            } => {
                drop(transaction);
                Some(Abort {
                    coordinator,
                    ts,
                    prepared,
                })
            }
            phase => {
                drop(phase);
                None
            }
        }
    }

    /// What was sent, and how many answers had no verdict, where its verdict is asked for.
    pub fn into_asking(self) -> Option<(Sent, u32)>
        ensures asked { result ≡ asking_in self }
        ensures calls { IfSome result (λ asking. (tries : ℕ) → calls_in tries self ≡ calls_in tries (phase.Asking asking.0 asking.1)) }
    {
        match self {
            Phase::Asking { sent, answers } => Some((sent, answers)),
            phase => {
                drop(phase);
                None
            }
        }
    }

    /// An evaluation brings a due object to the epoch. Any other phase stays.
    pub fn transforming(self, transform: Transform) -> Phase
        ensures shares { unsent result ≡ unsent self }
        ensures pending { pending_in result ≡ pending_in self }
        ensures stage { (drawn_in result ≡ drawn_by transform.stage) ⊎ (drawn_in result ≡ drawn_in self) }
    {
        match self {
            Phase::Evaluating { run, .. } => Phase::Transforming { run, transform },
            phase => {
                drop(transform);
                phase
            }
        }
    }

    /// An evaluated transaction is drawn, with the sessions that there are. Any other phase stays.
    pub fn drawn(self, ts: Ts, links: &[Link]) -> Phase
        ensures draws { DrawsPhase ts links.now self result }
        ensures pending { pending_in result ≡ pending_in self }
        ensures writes { (c : Contents) → PhaseWrites self c → PhaseWrites result c }
        ensures timestamp { (drawn_in result ≡ Some ts) ⊎ (drawn_in result ≡ drawn_in self) }
    {
        match self {
            Phase::Evaluated { mut transaction } => {
                transaction.carry_sessions(links);
                Phase::Drawn { ts, transaction }
            }
            phase => phase,
        }
    }

    /// The page of an object that is needed next is asked for.
    pub fn await_page(&mut self, oref: Oref)
        ensures shares { unsent self.new ≡ unsent self.old }
        ensures pending { pending_in self.new ≡ pending_in self.old }
        ensures drawn { StaysDrawn (drawn_in self.old) (drawn_in self.new) }
    {
        match self {
            Phase::Evaluating { awaited, .. } => {
                *awaited = Some(oref);
            }
            Phase::Transforming { transform, .. } => transform.await_page(oref),
            Phase::Between
            | Phase::Beginning
            | Phase::Evaluated { .. }
            | Phase::Drawn { .. }
            | Phase::Preparing { .. }
            | Phase::Asking { .. } => {}
        }
    }

    /// A transform is drawn.
    pub fn draw_transform(&mut self, ts: Ts, becomes: Becomes)
        ensures shares { unsent self.new ≡ unsent self.old }
        ensures pending { pending_in self.new ≡ pending_in self.old }
        ensures timestamp { (drawn_in self.new ≡ Some ts) ⊎ (drawn_in self.new ≡ drawn_in self.old) }
    {
        if let Phase::Transforming { transform, .. } = self {
            transform.draw(ts, becomes);
        }
    }

    /// A participant other than the coordinator has prepared the transaction.
    pub fn note_prepared(&mut self, repo: u8) -> Result<(), NoMemory>
        ensures shares { unsent self.new ≡ unsent self.old }
        ensures pending { OnOk result (pending_in self.new ≡ noted repo (pending_in self.old)) }
        ensures kept { prepared_at (pending_in self.new) ≡ prepared_at (pending_in self.old) }
        ensures asked { asked_at (pending_in self.new) ≡ asked_at (pending_in self.old) }
        ensures drawn { drawn_in self.new ≡ drawn_in self.old }
    {
        match self {
            Phase::Preparing { prepared, .. } => prepared.push(repo),
            Phase::Between
            | Phase::Beginning
            | Phase::Evaluating { .. }
            | Phase::Transforming { .. }
            | Phase::Evaluated { .. }
            | Phase::Drawn { .. }
            | Phase::Asking { .. } => Ok(()),
        }
    }

    /// Whether a try runs.
    pub fn runs(&self) -> bool
        ensures { result ≡ runs_in self.now }
    {
        match self {
            Phase::Between | Phase::Asking { .. } => false,
            Phase::Beginning
            | Phase::Evaluating { .. }
            | Phase::Transforming { .. }
            | Phase::Evaluated { .. }
            | Phase::Drawn { .. }
            | Phase::Preparing { .. } => true,
        }
    }

    /// Whether a try runs that its coordinator has not prepared.
    pub fn runs_unprepared(&self) -> bool
        ensures unsent { IsTrue (not result) → unsent self.now ≡ None }
        ensures free { IsTrue result → pending_in self.now ≡ NonePending }
    {
        match self {
            Phase::Between | Phase::Asking { .. } | Phase::Preparing { .. } => false,
            Phase::Beginning
            | Phase::Evaluating { .. }
            | Phase::Transforming { .. }
            | Phase::Evaluated { .. }
            | Phase::Drawn { .. } => true,
        }
    }

    /// Whether a transaction may have been sent to a repository to be committed or prepared, and the client knows no verdict: then
    /// others may finish it there. One whose verdict is asked for was sent to all its participants.
    pub fn has_sent(&self, repo: u8) -> bool
        ensures sent { result ≡ has_sent_to repo self.now }
        ensures unsent { IsTrue result → unsent self.now ≡ None }
    {
        match self {
            Phase::Asking { .. } => true,
            Phase::Preparing {
                coordinator,
                prepared,
                ..
            } => coordinator.repo == repo || prepared.as_slice().contains(&repo),
            Phase::Between
            | Phase::Beginning
            | Phase::Evaluating { .. }
            | Phase::Transforming { .. }
            | Phase::Evaluated { .. }
            | Phase::Drawn { .. } => false,
        }
    }

    /// The object that is needed next and whose page was asked for.
    pub fn awaited(&self) -> Option<Oref> {
        match self {
            Phase::Evaluating { awaited, .. } => *awaited,
            Phase::Transforming { transform, .. } => awaited_by(&transform.stage),
            Phase::Between
            | Phase::Beginning
            | Phase::Evaluated { .. }
            | Phase::Drawn { .. }
            | Phase::Preparing { .. }
            | Phase::Asking { .. } => None,
        }
    }

    /// Whether the running try has read an object, and its repository has not prepared it.
    pub fn reads(&self, oref: Oref) -> bool
        ensures { result ≡ phase_reads self.now oref }
    {
        match self {
            Phase::Evaluating { run, .. } => run.has_read(oref),
            Phase::Transforming { run, transform } => {
                run.has_read(oref) || transform.has_looked_at(oref)
            }
            Phase::Evaluated { transaction }
            | Phase::Drawn { transaction, .. }
            | Phase::Preparing { transaction, .. } => transaction.reads_unsent(oref),
            Phase::Between | Phase::Beginning | Phase::Asking { .. } => false,
        }
    }

    /// The first of some objects that the running try has read.
    pub fn first_read(&self, orefs: &Orefs) -> Option<Oref>
        ensures named { IfSome result (λ oref. Contains orefs.now oref) }
        ensures read { IfSome result (λ oref. phase_reads self.now oref ≡ true) }
        ensures none { result ≡ None → ReadsNone self.now orefs.now }
    {
        for oref in orefs.as_slice() {
            if self.reads(*oref) {
                return Some(*oref);
            }
        }
        None
    }
}
