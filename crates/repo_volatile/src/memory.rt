ghost use Rattle.std.specs.Map.{keys_of};
ghost use Rattle.std.specs.Prelude.{◌≡◌, ◌+◌, ◌-◌, IfOk, None, OnErr, OnOk, false};
ghost use Rattle.repo_sessions.specs.Sessions.{acknowledged, begun as session_begun, no_sessions, sent, taken};
ghost use Rattle.session_outbox.specs.Messages.{first};
ghost use Rattle.session_outbox.specs.Outbox.{waiting};
ghost use Rattle.session_outbox.specs.declared.message.Message.TheVariants.{Grant, Page as APage};
ghost use Rattle.page_format.specs.Pages.{page_bytes};
ghost use Rattle.validation_queue.specs.Clashes.{clash};
ghost use Rattle.validation_queue.specs.Names.{IsInOrder};
ghost use Rattle.thor_value.specs.FiniteMap.{add, empty, has, len};
ghost use Rattle.validation_queue.specs.Contents.{cleared};
ghost use Rattle.repo_volatile.specs.Volatile.{Outlasts, begun, entered, is_upgrade_kind, knows, stands_at, transaction_of};

use log_entries::{Kind, Request};
use page_format::Page;
use repo_sessions::Sessions;
use session_outbox::Message;
use std::alloc::Global;
use std::collections::BTreeMap;
use std::marker::Model;
use thor_value::{NoMemory, Ts};
use validation_queue::Queue;

/// What of a repository a restart begins anew, and the transactions that came since its opening.
pub struct Memory {
    /// The transactions against which requests are validated.
    pub(crate) queue: Queue,
    pub(crate) sessions: Sessions,
    /// The transactions whose requests came since the opening, decided or not.
    pub(crate) requested: BTreeMap<Ts, ()>,
    /// The time that was drawn last; behind a restart the threshold's.
    pub(crate) drawn: u64,
}

impl Drop for Memory {
    fn drop(self) {
        let Memory {
            queue,
            sessions,
            requested,
            drawn,
        } = self;
        drop(queue);
        drop(sessions);
        drop(requested);
        let _ = drawn;
    }
}

impl Model for Memory {
    ghost use Rattle.repo_volatile.specs.Volatile.{Memory as AMemory};

    ghost Value = { AMemory };

    ghost view = { λ m. record { queue = m.queue; sessions = m.sessions; requested = record { pairs = m.requested.entries }; drawn = m.drawn } };
}

impl Memory {
    /// No transaction came above this threshold, and no session has begun.
    pub fn new(alloc: Global, threshold: Ts) -> Result<Memory, NoMemory>
        ensures queue { IfOk result (λ memory. memory.queue ≡ cleared threshold) }
        ensures requested { IfOk result (λ memory. memory.requested ≡ empty) }
        ensures drawn { IfOk result (λ memory. memory.drawn ≡ threshold.time) }
        ensures sessions { IfOk result (λ memory. memory.sessions ≡ no_sessions) }
    {
        Ok(Memory {
            queue: Queue::new(alloc, threshold)?,
            sessions: Sessions::new(alloc)?,
            requested: BTreeMap::new(alloc),
            drawn: threshold.time,
        })
    }

    /// The timestamp that a transaction has to be above.
    pub fn threshold(&self) -> Ts
        ensures { result ≡ self.now.queue.threshold }
    {
        self.queue.threshold()
    }

    /// How many transactions are in the queue.
    pub fn queued(&self) -> usize
        ensures { result ≡ len self.now.queue.members }
    {
        self.queue.len()
    }

    /// The sessions.
    pub fn sessions(&self) -> &Sessions
        ensures { result.now ≡ self.now.sessions }
    {
        &self.sessions
    }

    /// Begins a session of a client, and ends its older one. The answer is its number.
    #[tactic(auto, using(crate::proofs::Lasting::stayed))]
    pub fn begin_session(&mut self, client: u8) -> Result<u32, NoMemory>
        ensures number { IfOk result (λ session. session ≡ self.old.sessions.last + 1) }
        ensures begun { IfOk result (λ session. self.new ≡ record self.old { sessions = session_begun self.old.sessions client session }) }
        ensures err { OnErr result (Outlasts self.old self.new) }
    {
        self.sessions.begin(client)
    }

    /// The number of the session that began last is given again: nobody was told of it. All sessions are to end
    /// then.
    pub fn give_back_session(&mut self)
        ensures requested { self.new.requested ≡ self.old.requested }
        ensures last { self.new.sessions.last ≡ self.old.sessions.last - 1 }
    {
        self.sessions.give_back();
    }

    /// Sends a page that a session's client asked for; what was written below `upto` is known to it. After
    /// `NoMemory` the session may have the page cached and nothing is sent.
    #[tactic(auto, using(crate::proofs::Lasting::stayed))]
    pub fn send_page(
        &mut self,
        session: u32,
        page: &Page,
        upto: u64,
        place: u64,
    ) -> Result<(), NoMemory>
        ensures ok { OnOk result (self.new ≡ record self.old { sessions = acknowledged (sent self.old.sessions session page.now.number (APage page.now.number (page_bytes page.now) place)) session upto }) }
        ensures lasts { Outlasts self.old self.new }
    {
        self.sessions.send_page(session, page, place)?;
        self.sessions.acknowledge(session, upto);
        Ok(())
    }

    /// Sends a page of names for new objects. After `NoMemory` the session may have the page cached and nothing
    /// is sent.
    #[tactic(auto, using(crate::proofs::Lasting::stayed))]
    pub fn send_grant(&mut self, session: u32, page: u32, place: u64) -> Result<(), NoMemory>
        ensures ok { OnOk result (self.new ≡ record self.old { sessions = sent self.old.sessions session page (Grant page place) }) }
        ensures lasts { Outlasts self.old self.new }
    {
        self.sessions.send_grant(session, page, place)
    }

    /// Takes the oldest message that waits for a session; `None` exactly where none does.
    pub fn take(&mut self, session: u32) -> Option<Message>
        ensures message { result ≡ first (waiting self.old.sessions.waiting session) }
        ensures rest { self.new ≡ record self.old { sessions = taken self.old.sessions session } }
    {
        self.sessions.take(session)
    }

    /// The time that was drawn last; behind a restart the threshold's.
    pub fn drawn(&self) -> u64
        ensures { result ≡ self.now.drawn }
    {
        self.drawn
    }

    /// A time was drawn.
    pub fn set_drawn(&mut self, time: u64)
        ensures { self.new ≡ record self.old { drawn = time } }
    {
        self.drawn = time;
    }

    /// Whether a request of the transaction came since the opening.
    pub fn knows(&self, tx: Ts) -> bool
        ensures { result ≡ knows self.now tx }
    {
        self.requested.contains_key(&tx) || self.queue.has(tx)
    }

    /// An accepted request comes, of a transaction that isn't known. After `NoMemory` the transaction may count
    /// as one that came.
    pub fn enter(&mut self, request: &Request, decided: bool) -> Result<(), NoMemory>
        requires in_order { IsInOrder request.now.ros (keys_of request.now.writes) }
        requires accepted { clash self.old.queue (transaction_of request.now) ≡ None }
        requires new { has self.old.queue.members request.now.tx ≡ false }
        ensures ok { OnOk result (self.new ≡ entered self.old request.now decided) }
        ensures lasts { Outlasts self.old self.new }
    {
        self.count(request.tx)?;
        self.queue.add(
            request.tx,
            is_upgrade(request),
            &request.ros,
            &request.writes,
            decided,
        )?;
        self.sessions.acknowledge(request.session, request.upto);
        Ok(())
    }

    /// A transaction came, as a restart learns.
    pub fn note(&mut self, tx: Ts) -> Result<(), NoMemory>
        ensures requested { OnOk result (self.new.requested ≡ add self.old.requested tx) }
        ensures lasts { Outlasts self.old self.new }
        ensures sessions { self.new.sessions ≡ self.old.sessions }
        ensures queue { self.new.queue ≡ self.old.queue }
        ensures drawn { self.new.drawn ≡ self.old.drawn }
    {
        self.count(tx)
    }

    /// Counts a transaction as one that came. After `NoMemory` all is as it was.
    #[tactic(auto, using(crate::proofs::Lasting::counted, crate::proofs::Lasting::stayed))]
    fn count(&mut self, tx: Ts) -> Result<(), NoMemory>
        ensures ok { OnOk result (self.new ≡ record self.old { requested = add self.old.requested tx }) }
        ensures err { OnErr result (self.new ≡ self.old) }
        ensures lasts { Outlasts self.old self.new }
    {
        self.requested.insert(tx, ())?;
        Ok(())
    }

    /// The timestamp stands for all transactions that were in the queue.
    pub(crate) fn stand_at(&mut self, threshold: Ts)
        ensures { self.new ≡ stands_at self.old threshold }
    {
        self.queue.clear(threshold);
        self.drawn = threshold.time;
    }

    /// A life begins above this timestamp: all sessions end, and no transaction is in the queue. After `NoMemory`
    /// all is as it was.
    pub fn begin(&mut self, threshold: Ts) -> Result<(), NoMemory>
        ensures ok { OnOk result (self.new ≡ begun self.old threshold) }
        ensures err { OnErr result (self.new ≡ self.old) }
    {
        self.sessions.end_all()?;
        self.stand_at(threshold);
        Ok(())
    }
}

/// Whether a request is an upgrade's.
pub(crate) fn is_upgrade(request: &Request) -> bool
    ensures { result ≡ is_upgrade_kind request.now.kind }
{
    match &request.kind {
        Kind::App | Kind::Transform => false,
        Kind::Upgrade { .. } => true,
    }
}
