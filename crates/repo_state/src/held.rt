//! All that is kept in memory, in parts.

ghost use Rattle.std.specs.Prelude.{◌≡◌, ◌+◌, ◌<◌, IfOk, OnOk};
ghost use Rattle.log_entries.specs.RequestForm.{RequestFits};
ghost use Rattle.repo_state.specs.Entering.{CanMove, CanOpen, alone_in, can_enter, committed_in, decided_by, entered, finished_by, installed_in, kept_in, moved, prepared_in, reached};
ghost use Rattle.repo_state.specs.Said.{spelled};
ghost use Rattle.mob_buffer.specs.Buffer.{AreDistinct, AreOneRepo};
ghost use Rattle.page_format.specs.Sides.{SidesFit};
ghost use Rattle.commit_log.specs.Values.{writes_if};
ghost use Rattle.two_phase.specs.Contents.{open_at};
ghost use Rattle.two_phase.specs.Lists.{aborted_of, kept_decisions, open_requests};

use crate::spelling::copy_of;
use crate::writes::{are_of, later_of, page_behind};
use class_defs::Roots;
use log_codec::{Alones, Requests, State};
use log_entries::{Entry, Kind, Request};
use mob_flusher::ObjectStore;
use page_format::{Sides, StoreFormat};
use std::alloc::Global;
use thor_value::{NoMemory, Stamps, Text, Texts, TryCopy, Ts, Writes, both};
use two_phase::Table;

/// The classes, the roots and the upgrades of a state.
type Declared = (Text, Roots, Texts);

/// The sides in use and the buffered objects of a state.
type Stored = (Sides, Writes);

/// The open requests of a state, the decisions that are kept, and the last commits of clients alone.
type Standing = (Requests, Stamps, Alones);

/// What is kept in memory of a log's state, and the page that is granted next.
#[derive(Drop)]
pub struct Held {
    pub repo: u8,
    pub repos: u8,
    pub life: u32,
    pub count: u64,
    pub threshold: Ts,
    /// The log's next page.
    pub next_page: u32,
    /// The page that is granted next.
    pub next_grant: u32,
    pub classes: Text,
    pub roots: Roots,
    pub upgrades: Texts,
    pub table: Table,
    pub objects: ObjectStore,
}

impl Held {
    /// Whether an entry can come next.
    pub fn takes(&self, entry: &Entry) -> bool
        ensures { result ≡ can_enter self.now entry.now }
    {
        match entry {
            Entry::One { request } | Entry::Prepared { request } | Entry::Upgraded { request } => {
                are_of(self.repo, request.writes.as_slice())
            }
            Entry::Life { .. } | Entry::Decided { .. } | Entry::Finished { .. } => true,
        }
    }

    /// Moves by one entry.
    pub fn enter(&mut self, entry: &Entry) -> Result<(), NoMemory>
        requires { CanMove self.old entry.now }
        ensures { OnOk result (self.new ≡ entered self.old entry.now) }
    {
        self.move_by(entry)?;
        self.count_entry()
    }

    fn move_by(&mut self, entry: &Entry) -> Result<(), NoMemory>
        requires { CanMove self.old entry.now }
        ensures moved { OnOk result (self.new ≡ moved self.old entry.now) }
    {
        match entry {
            Entry::Life { life } => {
                self.begin_life(*life);
                Ok(())
            }
            Entry::One { request } | Entry::Upgraded { request } => self.commit_alone(request),
            Entry::Prepared { request } => self.prepare(request),
            Entry::Decided { tx, commit } => self.decide(*tx, *commit),
            Entry::Finished { tx, commit } => self.finish(*tx, *commit),
        }
    }

    fn count_entry(&mut self) -> Result<(), NoMemory>
        ensures { OnOk result (self.new ≡ record self.old { count = self.old.count + 1 }) }
    {
        let Some(count) = self.count.checked_add(1) else {
            return Err(NoMemory);
        };
        self.count = count;
        Ok(())
    }

    // A life begins: the open requests that this repository coordinates are aborted.
    fn begin_life(&mut self, life: u32)
        ensures { self.new ≡ record self.old { life = life; table = aborted_of self.old.table self.old.repo } }
    {
        self.life = life;
        self.table.abort_of(self.repo);
    }

    // A request commits that has no other participant.
    fn commit_alone(&mut self, request: &Request) -> Result<(), NoMemory>
        requires fits { RequestFits request.now }
        requires one_repo { AreOneRepo self.old.objects.mob.objects request.now.writes }
        ensures { OnOk result (self.new ≡ alone_in self.old request.now) }
    {
        self.reach_pages(request);
        self.commit(request)?;
        self.table.alone(request.who.client, request.tx)
    }

    // A request is prepared, in the place of what was known of its transaction.
    fn prepare(&mut self, request: &Request) -> Result<(), NoMemory>
        requires fits { RequestFits request.now }
        requires is_new { CanOpen self.old.table request.now }
        ensures { OnOk result (self.new ≡ prepared_in self.old request.now) }
    {
        self.reach_pages(request);
        let request = request.copy()?;
        self.table.forget(request.tx);
        drop(self.table.finish(request.tx));
        self.table.open(request)
    }

    // A transaction is decided here: where it commits, its request's writes count and the decision is kept.
    fn decide(&mut self, tx: Ts, commit: bool) -> Result<(), NoMemory>
        requires { AreOneRepo self.old.objects.mob.objects (writes_if commit (open_at self.old.table tx)) }
        ensures { OnOk result (self.new ≡ decided_by self.old tx commit (open_at self.old.table tx)) }
    {
        let request = self.table.decide(tx, commit);
        if !commit {
            return Ok(());
        }
        match &request {
            Some(request) => self.commit(request),
            None => self.keep(tx),
        }
    }

    // Keeps a decision to commit what isn't open.
    fn keep(&mut self, tx: Ts) -> Result<(), NoMemory>
        ensures { OnOk result (self.new ≡ record self.old { table = kept_in self.old.table tx }) }
    {
        if self.table.knows(tx) {
            return Ok(());
        }
        self.table.keep(tx)
    }

    // A transaction is finished as its coordinator decided: where it commits, its request's writes count.
    fn finish(&mut self, tx: Ts, commit: bool) -> Result<(), NoMemory>
        requires { AreOneRepo self.old.objects.mob.objects (writes_if commit (open_at self.old.table tx)) }
        ensures { OnOk result (self.new ≡ finished_by self.old tx commit (open_at self.old.table tx)) }
    {
        let request = self.table.finish(tx);
        if !commit {
            return Ok(());
        }
        match &request {
            Some(request) => self.commit(request),
            None => Ok(()),
        }
    }

    // A request's writes are buffered, and its transaction has committed.
    fn commit(&mut self, request: &Request) -> Result<(), NoMemory>
        requires { AreOneRepo self.old.objects.mob.objects request.now.writes }
        ensures { OnOk result (self.new ≡ committed_in self.old request.now) }
    {
        self.objects.load(&request.writes)?;
        match &request.kind {
            Kind::App | Kind::Transform => {
                self.threshold = later_of(self.threshold, request.tx);
                Ok(())
            }
            Kind::Upgrade { text } => {
                self.threshold = request.tx;
                self.upgrades.push(text.copy()?)
            }
        }
    }

    // The pages that a request writes are below the next page.
    fn reach_pages(&mut self, request: &Request)
        requires { RequestFits request.now }
        ensures { self.new ≡ reached self.old request.now }
    {
        self.next_page = page_behind(self.next_page, request.writes.as_slice());
        self.next_grant = self.next_grant.max(self.next_page);
    }

    /// A side of a page came into use.
    pub fn installed(&mut self, page: u32, side: u8) -> Result<(), NoMemory>
        requires { side < 2 }
        ensures { OnOk result (self.new ≡ installed_in self.old page side) }
    {
        self.objects.installed(page, side)
    }

    /// The whole state, as a checkpoint spells it: no page below the one that is granted next is granted again.
    pub fn state(&self, alloc: Global) -> Result<State, NoMemory>
        ensures spelled { IfOk result (λ state. state ≡ spelled self.now) }
        ensures distinct { OnOk result (AreDistinct self.now.objects.mob.objects) }
        ensures sides { OnOk result (SidesFit self.now.objects.pages.sides) }
    {
        let declared = self.declared()?;
        let (declared, stored) = both(declared, self.stored(alloc))?;
        let (held, standing) = both((declared, stored), self.standing(alloc))?;
        let ((classes, roots, upgrades), (installed, mob)) = held;
        let (prepared, kept, alone) = standing;
        Ok(State {
            format: StoreFormat::Two,
            repo: self.repo,
            repos: self.repos,
            life: self.life,
            count: self.count,
            threshold: self.threshold,
            next_page: self.next_grant,
            classes,
            roots,
            upgrades,
            installed,
            mob,
            prepared,
            kept,
            alone,
        })
    }

    fn declared(&self) -> Result<Declared, NoMemory>
        ensures { IfOk result (λ declared. declared ≡ (self.now.classes, self.now.roots, self.now.upgrades)) }
    {
        let classes = self.classes.copy()?;
        let (classes, roots) = both(classes, self.roots.copy())?;
        let ((classes, roots), upgrades) = both((classes, roots), self.upgrades.copy())?;
        Ok((classes, roots, upgrades))
    }

    fn stored(&self, alloc: Global) -> Result<Stored, NoMemory>
        ensures stored { IfOk result (λ stored. stored ≡ (self.now.objects.pages.sides, self.now.objects.mob.objects)) }
        ensures distinct { OnOk result (AreDistinct self.now.objects.mob.objects) }
        ensures sides { OnOk result (SidesFit self.now.objects.pages.sides) }
    {
        let sides = self.objects.pages().sides();
        let _ = sides.as_slice();
        both(sides.copy()?, copy_of(alloc, self.objects.mob()))
    }

    fn standing(&self, alloc: Global) -> Result<Standing, NoMemory>
        ensures { IfOk result (λ standing. standing ≡ (open_requests self.now.table, kept_decisions self.now.table, self.now.table.alone.pairs)) }
    {
        let prepared = self.table.open_requests(alloc)?;
        let (prepared, kept) = both(prepared, self.table.kept_decisions(alloc))?;
        let ((prepared, kept), alone) = both((prepared, kept), self.table.single_commits(alloc))?;
        Ok((prepared, kept, alone))
    }
}
