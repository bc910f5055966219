//! How many sessions there are, and how much is kept of each.

ghost use Rattle.cached_sets.specs.Noted.{places_of};
ghost use Rattle.session_outbox.specs.Outbox.{waiting};
ghost use Rattle.std.specs.Prelude.{length, ◌≡◌};
ghost use Rattle.thor_value.specs.FiniteMap.{len};

use crate::sessions::Sessions;

impl Sessions {
    /// How many sessions are live.
    pub fn live(&self) -> usize
        ensures { result ≡ len self.now.clients }
    {
        self.clients.len()
    }

    /// How many sessions were given up and haven't ended.
    pub fn given_up(&self) -> usize
        ensures { result ≡ len self.now.retired }
    {
        self.retired.len()
    }

    /// The number of the session that began last, 0 before the first.
    pub fn last(&self) -> u32
        ensures { result ≡ self.now.last }
    {
        self.last
    }

    /// How many messages wait for a session.
    pub fn waiting(&self, session: u32) -> usize
        ensures { result ≡ length (waiting self.now.waiting session) }
    {
        self.outbox.len(session)
    }

    /// Of how many commits a session was told that its client hasn't acknowledged.
    pub fn unacknowledged(&self, session: u32) -> usize
        ensures { result ≡ length (places_of self.now.sets.noted session) }
    {
        self.sets.unacknowledged(session)
    }
}
