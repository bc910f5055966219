//! The transactions against which requests are validated, entry by entry.

ghost use Rattle.log_entries.specs.declared.entry.Entry.TheVariants as entries;
ghost use Rattle.std.specs.Prelude.{IfOk, None, OnOk, Option, cond, nat_le, ◌≡◌};
ghost use Rattle.thor_value.specs.FiniteMap.{empty, insert, keep, len, remove};
ghost use Rattle.thor_value.specs.Names.{later_of};
ghost use Rattle.thor_value.specs.declared.names.Ts.{Ts};
ghost use Rattle.model_reading.specs.Opening.{base_of};
ghost use Rattle.model_reading.specs.Settling.{closed, slid_with};
ghost use Rattle.validation_queue.specs.Contents.{room_for};
ghost use Rattle.repo_refusals.specs.Window.{cleared, decide, enter, first_decided, leave, restarted, with_room, without};

use crate::names::{is_upgrade, later_of};
use crate::opening::Opening;
use crate::state::{Found, State};
use log_entries::{Entry, Request};
use std::alloc::Global;
use std::collections::BTreeMap;
use std::marker::Model;
use thor_value::{NoMemory, TryCopy, Ts};

/// How many transactions are remembered.
const ROOM: usize = 1_024;

/// A transaction, and whether it has committed.
#[derive(Drop)]
pub(crate) struct Member {
    decided: bool,
    request: Request,
}

impl Model for Member {
    ghost use Rattle.repo_refusals.specs.Window.{Member as AMember};

    ghost Value = { AMember };

    ghost view = { λ m. record { decided = m.decided; request = m.request } };
}

impl Member {
    fn of(request: &Request, decided: bool) -> Result<Member, NoMemory>
        ensures { IfOk result (λ member. member ≡ record { decided = decided; request = request.now }) }
    {
        Ok(Member {
            decided,
            request: request.copy()?,
        })
    }

    /// Whether it has committed.
    pub(crate) fn is_decided(&self) -> bool
        ensures { result ≡ self.now.decided }
    {
        self.decided
    }

    pub(crate) fn request(&self) -> &Request
        ensures { result.now ≡ self.now.request }
    {
        &self.request
    }
}

/// What is remembered.
#[derive(Drop)]
pub struct Window {
    threshold: Ts,
    members: BTreeMap<Ts, Member>,
}

impl Model for Window {
    ghost use Rattle.repo_refusals.specs.Window.{Window as AWindow};

    ghost Value = { AWindow };

    ghost view = { λ w. record { threshold = w.threshold; members = record { pairs = w.members.entries } } };
}

impl Window {
    /// Nothing is remembered above this timestamp.
    pub(crate) fn begin(alloc: Global, threshold: Ts) -> Result<Window, NoMemory>
        ensures { IfOk result (λ made. made ≡ record { threshold = threshold; members = empty }) }
    {
        Ok(Window {
            threshold,
            members: BTreeMap::new(alloc),
        })
    }

    pub(crate) fn threshold(&self) -> Ts
        ensures { result ≡ self.now.threshold }
    {
        self.threshold
    }

    pub(crate) fn members(&self) -> &BTreeMap<Ts, Member>
        ensures { result.now.entries ≡ self.now.members.pairs }
    {
        &self.members
    }

    /// Whether there is no room for one more.
    pub(crate) fn is_full(&self) -> bool
        ensures { result ≡ nat_le room_for (len self.now.members) }
    {
        self.members.len() >= ROOM
    }

    /// The least transaction that has committed.
    pub(crate) fn first_decided(&self) -> Option<Ts>
        ensures { result ≡ first_decided self.now.members.pairs }
    {
        for (tx, member) in &self.members {
            if member.is_decided() {
                return Some(*tx);
            }
        }
        None
    }

    /// The transaction that leaves where one more comes in.
    fn leaving(&self) -> Option<Ts>
        ensures { result ≡ cond (nat_le room_for (len self.now.members)) (first_decided self.now.members.pairs) None }
    {
        if self.is_full() {
            self.first_decided()
        } else {
            None
        }
    }

    /// The threshold rises to a transaction.
    fn raise(&mut self, tx: Ts)
        ensures { self.new ≡ record self.old { threshold = later_of self.old.threshold tx } }
    {
        self.threshold = later_of(self.threshold, tx);
    }

    /// The threshold rises to a transaction that leaves.
    fn drop_one(&mut self, leaving: Option<Ts>)
        ensures { self.new ≡ without self.old leaving }
    {
        if let Some(tx) = leaving {
            self.leave(tx);
            self.raise(tx);
        }
    }

    fn make_room(&mut self)
        ensures { self.new ≡ with_room self.old }
    {
        let leaving = self.leaving();
        self.drop_one(leaving);
    }

    fn put_member(&mut self, tx: Ts, member: Member) -> Result<(), NoMemory>
        ensures { OnOk result (self.new ≡ record self.old { members = insert self.old.members tx member }) }
    {
        self.members.insert(tx, member)?;
        Ok(())
    }

    /// Puts a transaction in.
    fn put(&mut self, tx: Ts, request: &Request, decided: bool) -> Result<(), NoMemory>
        ensures { OnOk result (self.new ≡ record self.old { members = insert self.old.members tx (record { decided = decided; request = request.now }) }) }
    {
        let member = Member::of(request, decided)?;
        self.put_member(tx, member)
    }

    /// A request comes in.
    fn enter(&mut self, request: &Request, decided: bool) -> Result<(), NoMemory>
        ensures { OnOk result (self.new ≡ enter self.old request.now decided) }
    {
        self.make_room();
        self.put(request.tx, request, decided)
    }

    /// An upgrade commits.
    fn clear(&mut self, tx: Ts)
        ensures { self.new ≡ cleared tx }
    {
        self.members.clear();
        self.threshold = tx;
    }

    /// A transaction commits.
    fn decide(&mut self, tx: Ts, request: &Request) -> Result<(), NoMemory>
        ensures { OnOk result (self.new ≡ decide self.old tx request.now) }
    {
        if is_upgrade(request) {
            self.clear(tx);
            return Ok(());
        }
        self.put(tx, request, true)
    }

    /// A transaction is aborted.
    fn leave(&mut self, tx: Ts)
        ensures { self.new ≡ leave self.old tx }
    {
        self.members.remove(&tx);
    }

    /// A transaction that was found undecided is decided.
    fn close(&mut self, tx: Ts, commit: bool, found: &Found) -> Result<(), NoMemory>
        ensures { OnOk result (self.new ≡ closed self.old tx commit found.now) }
    {
        match found {
            Some((_, request)) => {
                if commit {
                    return self.decide(tx, request);
                }
                self.leave(tx);
                Ok(())
            }
            None => Ok(()),
        }
    }

    /// A life begins: what is decided leaves.
    fn restart(&mut self, opening: &Opening, state: &State, life: u32)
        ensures { self.new ≡ slid_with (base_of opening.now) state.now self.old (entries.Life life) None }
    {
        self.members
            .retain(|tx, _| state.outlives(opening, *tx, life));
        self.threshold = state.top();
    }

    /// What is remembered behind one more entry, where this is the state before it, and what the entry decides.
    pub(crate) fn slide(
        &mut self,
        opening: &Opening,
        state: &State,
        entry: &Entry,
        found: &Found,
    ) -> Result<(), NoMemory>
        ensures { OnOk result (self.new ≡ slid_with (base_of opening.now) state.now self.old entry.now found.now) }
    {
        match entry {
            Entry::Life { life } => {
                self.restart(opening, state, *life);
                Ok(())
            }
            Entry::One { request } => self.enter(request, true),
            Entry::Prepared { request } => self.enter(request, false),
            Entry::Decided { tx, commit } | Entry::Finished { tx, commit } => {
                self.close(*tx, *commit, found)
            }
            Entry::Upgraded { request } => {
                self.clear(request.tx);
                Ok(())
            }
        }
    }
}
