ghost use Rattle.std.specs.Prelude.{◌≡◌, ◌+◌, ◌-◌, IfOk, OnOk, OnErr};
ghost use Rattle.std.specs.List.{fold};
ghost use Rattle.std.specs.Map.{keys_of};
ghost use Rattle.cached_sets.specs.Meaning.{has_page};
ghost use Rattle.cached_sets.specs.Sets as sets;
ghost use Rattle.session_outbox.specs.Messages.{first};
ghost use Rattle.session_outbox.specs.Outbox.{waiting};
ghost use Rattle.session_outbox.specs.declared.message.Message.TheVariants.{Grant, Page as APage};
ghost use Rattle.page_format.specs.Pages.{page_bytes};
ghost use Rattle.thor_value.specs.FiniteMap.{get};
ghost use Rattle.validation_queue.specs.Names.{Rises};
ghost use Rattle.repo_sessions.specs.Sessions.{KeepsNumbers, acknowledged, begun, ended, is_live, no_sessions, retire, sent, has_session, taken, without};

use cached_sets::Sets;
use page_format::{Page, PageImage};
use session_outbox::{Message, Outbox};
use std::alloc::Global;
use std::collections::BTreeMap;
use std::marker::Model;
use std::mem;
use thor_value::{NoMemory, Oref, Orefs, TryCopy};

/// The live sessions of a repository, each with what its client may have cached and what waits for it, and the
/// sessions that were given up and haven't ended. A client has one of these at most.
pub struct Sessions {
    pub(crate) alloc: Global,
    /// The client of each live session.
    pub(crate) clients: BTreeMap<u32, u8>,
    /// The session of each client that hasn't ended.
    pub(crate) live: BTreeMap<u8, u32>,
    /// The client of each session that was given up and hasn't ended.
    pub(crate) retired: BTreeMap<u32, u8>,
    /// The number of the session that began last, 0 before the first. Restarts don't change it.
    pub(crate) last: u32,
    pub(crate) sets: Sets,
    pub(crate) outbox: Outbox,
}

impl Drop for Sessions {
    fn drop(self) {
        let Sessions {
            alloc,
            clients,
            live,
            retired,
            last,
            sets,
            outbox,
        } = self;
        let _ = alloc;
        drop(clients);
        drop(live);
        drop(retired);
        let _ = last;
        drop(sets);
        drop(outbox);
    }
}

impl Model for Sessions {
    ghost use Rattle.repo_sessions.specs.Sessions.{Kept};

    ghost Value = { Kept };

    ghost view = { λ s. record { clients = record { pairs = s.clients.entries }; live = record { pairs = s.live.entries }; retired = record { pairs = s.retired.entries }; last = s.last; sets = s.sets; waiting = s.outbox } };
}

impl Sessions {
    /// No session has begun.
    pub fn new(alloc: Global) -> Result<Sessions, NoMemory>
        ensures { IfOk result (λ sessions. sessions ≡ no_sessions) }
    {
        Ok(Sessions {
            alloc,
            clients: BTreeMap::new(alloc),
            live: BTreeMap::new(alloc),
            retired: BTreeMap::new(alloc),
            last: 0,
            sets: Sets::new(alloc)?,
            outbox: Outbox::new(alloc)?,
        })
    }

    /// Whether a session is live.
    pub fn is_live(&self, session: u32) -> bool
        ensures { result ≡ is_live self.now session }
    {
        self.clients.contains_key(&session)
    }

    /// The client of a session; `None` exactly where it isn't live.
    pub fn client_of(&self, session: u32) -> Option<u8>
        ensures { result ≡ get self.now.clients session }
    {
        match self.clients.get(&session) {
            Some(client) => Some(*client),
            None => None,
        }
    }

    /// Whether the client of a session may have a page.
    pub fn has_page(&self, session: u32, page: u32) -> bool
        ensures { result ≡ has_page self.now.sets session page }
    {
        self.sets.has_page(session, page)
    }

    /// Whether a session hasn't ended: it is live, or was given up.
    pub fn has_session(&self, session: u32) -> bool
        ensures { result ≡ has_session self.now session }
    {
        self.is_live(session) || self.retired.contains_key(&session)
    }

    /// Begins a session of a client, and ends its older one. The answer is its number. Want of memory, too,
    /// where no number is left; after it the sessions are to end.
    pub fn begin(&mut self, client: u8) -> Result<u32, NoMemory>
        ensures number { IfOk result (λ session. session ≡ self.old.last + 1) }
        ensures begun { IfOk result (λ session. self.new ≡ begun self.old client session) }
        ensures last { OnErr result (self.new.last ≡ self.old.last) }
    {
        let Some(session) = self.last.checked_add(1) else {
            return Err(NoMemory);
        };
        self.clients.insert(session, client)?;
        let older = self.live.insert(client, session)?;
        self.end(older);
        self.last = session;
        Ok(session)
    }

    /// The number of the session that began last is given again: nobody was told of it. All sessions are to end
    /// then.
    pub fn give_back(&mut self)
        ensures { self.new ≡ record self.old { last = self.old.last - 1 } }
    {
        self.last = self.last.saturating_sub(1);
    }

    /// Ends a session, where there is one.
    fn end(&mut self, session: Option<u32>)
        ensures { self.new ≡ without self.old session }
    {
        if let Some(session) = session {
            self.clients.remove(&session);
            self.retired.remove(&session);
            self.sets.drop_session(session);
            self.outbox.drop_session(session);
        }
    }

    /// Gives a session up, whose client leaves too much unacknowledged: it is told nothing more, and nothing is kept of it
    /// but that it hasn't ended. After `NoMemory` all sessions are to end.
    fn retire(&mut self, session: u32) -> Result<(), NoMemory>
        ensures numbers { KeepsNumbers self.old self.new }
        ensures ok { OnOk result (self.new ≡ retire self.old session) }
    {
        self.sets.drop_session(session);
        self.outbox.drop_session(session);
        let Some(client) = self.clients.remove(&session) else {
            return Ok(());
        };
        self.retired.insert(session, client)?;
        Ok(())
    }

    /// Gives some sessions up. After `NoMemory` all sessions are to end.
    pub(crate) fn retire_all(&mut self, silent: Vec<u32>) -> Result<(), NoMemory>
        ensures numbers { KeepsNumbers self.old self.new }
        ensures ok { OnOk result (self.new ≡ fold retire self.old silent.items) }
    {
        for session in silent {
            self.retire(session)?;
        }
        Ok(())
    }

    /// Ends all sessions. Those that begin later have higher numbers. After `NoMemory` all is as it was.
    pub fn end_all(&mut self) -> Result<(), NoMemory>
        ensures ok { OnOk result (self.new ≡ ended self.old) }
        ensures err { OnErr result (self.new ≡ self.old) }
    {
        let mut sessions = Sessions::new(self.alloc)?;
        sessions.last = self.last;
        drop(mem::replace(self, sessions));
        Ok(())
    }

    /// A session's client knows what was written below a place.
    pub fn acknowledge(&mut self, session: u32, upto: u64)
        ensures { self.new ≡ acknowledged self.old session upto }
    {
        self.sets.acknowledge(session, upto);
    }

    /// Sends a page that a session's client asked for. After `NoMemory` the session may have the page cached
    /// and nothing is sent.
    pub fn send_page(&mut self, session: u32, page: &Page, place: u64) -> Result<(), NoMemory>
        ensures ok { OnOk result (self.new ≡ sent self.old session page.now.number (APage page.now.number (page_bytes page.now) place)) }
        ensures last { self.new.last ≡ self.old.last }
    {
        let bytes = PageImage::new(page.copy()?);
        let page = page.number();
        self.send(session, page, Message::Page { page, bytes, place })
    }

    /// Sends a page of names for new objects. After `NoMemory` the session may have the page cached and
    /// nothing is sent.
    pub fn send_grant(&mut self, session: u32, page: u32, place: u64) -> Result<(), NoMemory>
        ensures ok { OnOk result (self.new ≡ sent self.old session page (Grant page place)) }
        ensures last { self.new.last ≡ self.old.last }
    {
        self.send(session, page, Message::Grant { page, place })
    }

    /// Sends a message, whose page the session's client may have from now on.
    fn send(&mut self, session: u32, page: u32, message: Message) -> Result<(), NoMemory>
        ensures ok { OnOk result (self.new ≡ sent self.old session page message) }
        ensures last { self.new.last ≡ self.old.last }
    {
        self.sets.cache(session, page)?;
        self.outbox.push(session, message)
    }

    /// Takes the oldest message that waits for a session; `None` exactly where none does.
    pub fn take(&mut self, session: u32) -> Option<Message>
        ensures message { result ≡ first (waiting self.old.waiting session) }
        ensures rest { self.new ≡ taken self.old session }
    {
        self.outbox.take(session)
    }

    /// The least of the objects that a session's client read which another session has written since, at a
    /// place not below `upto`, with that place.
    pub fn stale(&self, session: u32, ros: &Orefs, upto: u64) -> Option<(Oref, u64)>
        requires { Rises ros.now }
        ensures { result ≡ sets.stale self.now.sets session ros.now upto }
    {
        self.sets.stale(session, ros, upto)
    }

    /// The next object of a session's invalid set behind one, names rising, with the place of its last write.
    pub fn invalid(&self, session: u32, after: Option<Oref>) -> Option<(Oref, u64)>
        ensures { result ≡ sets.invalid_after self.now.sets session after }
    {
        self.sets.invalid(session, after)
    }
}
