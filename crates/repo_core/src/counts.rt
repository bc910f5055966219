//! How much a repository keeps in memory.

ghost use Rattle.cached_sets.specs.Noted.{places_of};
ghost use Rattle.session_outbox.specs.Outbox.{waiting};
ghost use Rattle.std.specs.Prelude.{length, ◌≡◌};
ghost use Rattle.thor_value.specs.FiniteMap.{len};

use crate::repo::Repo;
use disk_trait::Parts;

impl<P: Parts> Repo<P> {
    /// How many sessions are live.
    pub fn live_sessions(&self) -> usize
        ensures { result ≡ len self.now.memory.sessions.clients }
    {
        self.memory.sessions().live()
    }

    /// How many sessions were given up and haven't ended.
    pub fn given_up_sessions(&self) -> usize
        ensures { result ≡ len self.now.memory.sessions.retired }
    {
        self.memory.sessions().given_up()
    }

    /// The number of the session that began last, 0 before the first.
    pub fn last_session(&self) -> u32
        ensures { result ≡ self.now.memory.sessions.last }
    {
        self.memory.sessions().last()
    }

    /// How many messages wait for a session.
    pub fn waiting(&self, session: u32) -> usize
        ensures { result ≡ length (waiting self.now.memory.sessions.waiting session) }
    {
        self.memory.sessions().waiting(session)
    }

    /// Of how many commits a session was told that its client hasn't acknowledged.
    pub fn unacknowledged(&self, session: u32) -> usize
        ensures { result ≡ length (places_of self.now.memory.sessions.sets.noted session) }
    {
        self.memory.sessions().unacknowledged(session)
    }

    /// How many transactions are in the queue, against which requests are validated.
    pub fn queued(&self) -> usize
        ensures { result ≡ len self.now.memory.queue.members }
    {
        self.memory.queued()
    }

    /// How many transactions are open here or have a decision that is kept.
    pub fn open_or_kept(&self) -> usize
        ensures { result ≡ len self.now.held.table.transactions }
    {
        self.stable.held().table().len()
    }
}
