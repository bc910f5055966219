//! What a repository shows to whoever tests a call before it is made.

ghost use Rattle.cached_sets.specs.Meaning.{has_page};
ghost use Rattle.std.specs.Prelude.{◌≡◌};
ghost use Rattle.thor_value.specs.FiniteMap.{get};
ghost use Rattle.two_phase.specs.Contents.{keeps};

use crate::repo::Repo;
use disk_trait::Parts;
use thor_value::Ts;

impl<P: Parts> Repo<P> {
    /// The number of its present life.
    pub fn life(&self) -> u32
        ensures { result ≡ self.now.held.life }
    {
        self.stable.held().life()
    }

    /// The number of the life in which it was opened.
    pub fn opened_in(&self) -> u32
        ensures { result ≡ self.now.opened_in }
    {
        self.opened_in
    }

    /// The page that is granted next: those below it were granted.
    pub fn next_grant(&self) -> u32
        ensures { result ≡ self.now.held.next_grant }
    {
        self.stable.held().next_grant()
    }

    /// The client of a session; `None` exactly where it isn't live.
    pub fn client_of(&self, session: u32) -> Option<u8>
        ensures { result ≡ get self.now.memory.sessions.clients session }
    {
        self.memory.sessions().client_of(session)
    }

    /// Whether the client of a session may have a page.
    pub fn has_page(&self, session: u32, page: u32) -> bool
        ensures { result ≡ has_page self.now.memory.sessions.sets session page }
    {
        self.memory.sessions().has_page(session, page)
    }

    /// Whether the decision to commit a transaction is kept.
    pub fn keeps(&self, tx: Ts) -> bool
        ensures { result ≡ keeps (get self.now.held.table.transactions tx) }
    {
        self.stable.held().table().keeps(tx)
    }
}
