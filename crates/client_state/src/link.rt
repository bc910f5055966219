//! What a client holds of one repository.

ghost use Rattle.client_state.specs.Learning.{is_session, without_session};
ghost use Rattle.client_state.specs.Links.{acknowledged, answered, is_behind, awaits_reply, is_behind_of, session_at, stopped, unsettled_time, upto_of, waiting};
ghost use Rattle.client_state.specs.declared.link.Link.TheVariants.{Apart};
ghost use Rattle.std.specs.Prelude.{None, ℕ, ◌≡◌};

use crate::transaction::Sent;
use session_outbox::At;
use std::mem;
use thor_value::Ts;

/// What a client waits for in a session.
#[derive(Clone, Copy)]
pub enum Waits {
    /// Nothing.
    Idle,
    /// A page, or a page of names, was asked for and has still to come.
    Reply,
    /// It was refused, and takes messages until those of this place are taken.
    Past { place: u64 },
    /// It was refused, and takes messages until its epoch is this.
    Epoch { n: u32 },
}

/// How a client stands with a repository.
#[derive(Drop)]
pub enum Link {
    /// It has no session there, and holds nothing of it.
    Apart,
    /// It has a session there.
    Joined {
        /// The session's number.
        session: u32,
        /// The messages below this place were taken.
        upto: u64,
        waits: Waits,
    },
    /// It has no session there, and an item whose transaction was sent there to be decided is Unknown.
    /// No session begins there before the verdict is learnt.
    Unsettled {
        /// What was sent.
        sent: Sent,
        /// The index of the item, from 1.
        index: u32,
    },
}

impl Waits {
    /// Whether a client of this epoch, which has taken the messages below `upto`, has still to take some.
    fn are_ahead_of(&self, epoch: u32, upto: u64) -> bool
        ensures { result ≡ is_behind_of epoch upto self.now }
    {
        match self {
            Waits::Past { place } => upto <= *place,
            Waits::Epoch { n } => epoch < *n,
            Waits::Idle | Waits::Reply => false,
        }
    }
}

impl Link {
    /// The session as a call names it, where there is one.
    pub fn at(&self, repo: u8) -> Option<At>
        ensures { result ≡ session_at repo self.now }
    {
        match self {
            Link::Joined { session, .. } => Some(At {
                repo,
                session: *session,
            }),
            Link::Apart | Link::Unsettled { .. } => None,
        }
    }

    /// How far messages were taken, where there is a session; else 0.
    pub fn upto(&self) -> u64
        ensures { result ≡ upto_of self.now }
    {
        match self {
            Link::Joined { upto, .. } => *upto,
            Link::Apart | Link::Unsettled { .. } => 0,
        }
    }

    /// Whether a reply is outstanding.
    pub fn awaits_reply(&self) -> bool
        ensures { result ≡ awaits_reply self.now }
    {
        match self {
            Link::Joined { waits, .. } => match waits {
                Waits::Reply => true,
                Waits::Idle | Waits::Past { .. } | Waits::Epoch { .. } => false,
            },
            Link::Apart | Link::Unsettled { .. } => false,
        }
    }

    /// Whether a client of this epoch is behind what it was refused by.
    pub fn is_behind(&self, epoch: u32) -> bool
        ensures { result ≡ is_behind epoch self.now }
    {
        match self {
            Link::Joined { upto, waits, .. } => waits.are_ahead_of(epoch, *upto),
            Link::Apart | Link::Unsettled { .. } => false,
        }
    }

    /// The time of a transaction whose verdict is to be learnt here; else 0.
    pub fn unsettled_time(&self) -> u64
        ensures { result ≡ unsettled_time self.now }
    {
        match self {
            Link::Unsettled { sent, .. } => sent.ts.time,
            Link::Apart | Link::Joined { .. } => 0,
        }
    }

    /// The transaction whose verdict is to be learnt here, if there is one.
    pub fn unsettled(&self) -> Option<Ts>
        ensures apart { result ≡ None → (repo : ℕ) → session_at repo self.now ≡ None → self.now ≡ Apart }
        ensures none { self.now ≡ Apart → result ≡ None }
    {
        match self {
            Link::Unsettled { sent, .. } => Some(sent.ts),
            Link::Apart | Link::Joined { .. } => None,
        }
    }

    /// Messages were taken up to a place.
    pub fn acknowledge(&mut self, place: u64)
        ensures { self.new ≡ acknowledged place self.old }
    {
        match self {
            Link::Joined { upto, .. } => {
                *upto = place;
            }
            Link::Apart | Link::Unsettled { .. } => {}
        }
    }

    /// A session has ended. It answers whether it is this one.
    pub fn end_session(&mut self, ended: u32) -> bool
        ensures link { self.new ≡ without_session ended self.old }
        ensures answer { result ≡ is_session ended self.old }
    {
        if !self.is_session(ended) {
            return false;
        }
        drop(mem::replace(self, Link::Apart));
        true
    }

    /// Whether it is a session of this number.
    pub fn is_session(&self, number: u32) -> bool
        ensures { result ≡ is_session number self.now }
    {
        match self {
            Link::Joined { session, .. } => *session == number,
            Link::Apart | Link::Unsettled { .. } => false,
        }
    }

    /// The outstanding reply has come, if there was one.
    pub fn answer(&mut self)
        ensures { self.new ≡ answered self.old }
    {
        if self.awaits_reply() {
            self.wait(Waits::Idle);
        }
    }

    /// Messages have to be taken no more.
    pub fn stop(&mut self)
        ensures { self.new ≡ stopped self.old }
    {
        if !self.awaits_reply() {
            self.wait(Waits::Idle);
        }
    }

    /// The client waits for this in the session.
    pub fn wait(&mut self, what: Waits)
        ensures { self.new ≡ waiting what self.old }
    {
        match self {
            Link::Joined { waits, .. } => {
                *waits = what;
            }
            Link::Apart | Link::Unsettled { .. } => {}
        }
    }
}
