//! A session, item by item.

ghost use Rattle.spec_history.specs.History.{is_life};
ghost use Rattle.spec_history.specs.Requests.{written};
ghost use Rattle.spec_trace.specs.Session as session;
ghost use Rattle.spec_trace.specs.Session.{acked_by, begun, cache, invalid_of, lives_on, push, request_in, rested, session_ended, session_lives, told};
ghost use Rattle.spec_trace.specs.Trace.{E, M};
ghost use Rattle.std.specs.List.{filter};
ghost use Rattle.std.specs.Map.{keys_of};
ghost use Rattle.std.specs.Option.{option_copied};
ghost use Rattle.std.specs.Prelude.{IfOk, OnOk, [], cond, max, not, slice_get, ◌+◌, ◌++◌, ◌∷◌, ◌≡◌};
ghost use Rattle.thor_value.specs.FiniteMap.{get, has, keys};
ghost use Rattle.model_reading.specs.Notices.{notice_of, stage_of};
ghost use Rattle.model_reading.specs.Settling.{committed_by, marked, noted_with, passed, request_of, told_with};
ghost use Rattle.model_reading.specs.Tables.{pages_in};

use crate::names::{Objects, is_upgrade, written};
use crate::notice::{Notice, Says};
use crate::state::{Found, State};
use log_entries::{Entry, Request};
use spec_trace::Mark;
use std::alloc::Global;
use std::collections::BTreeMap;
use std::marker::Model;
use thor_value::{NoMemory, Orefs};

/// How far the life of a session has come. None is given up by a plain repository.
#[derive(Clone, Copy)]
pub(crate) enum Stage {
    Live,
    Ended,
}

/// Pages, each with the number of entries at its first fetch or grant.
type Pages = BTreeMap<u32, u64>;

/// A session.
#[derive(Drop)]
pub struct Session {
    client: u8,
    stage: Stage,
    began: u64,
    pages: Pages,
    acked: u64,
    sent: Vec<Notice>,
    taken: u64,
}

impl Model for Session {
    ghost use Rattle.spec_trace.specs.Session.{Session as ASession};
    ghost use Rattle.model_reading.specs.Notices.{stage_of};

    ghost Value = { ASession };

    ghost view = { λ v. record { client = v.client; stage = stage_of v.stage; began = v.began; pages = record { pairs = v.pages.entries }; acked = v.acked; sent = v.sent.items; taken = v.taken } };
}

impl Session {
    /// A new session of a client, at a place.
    pub(crate) fn begin(alloc: Global, client: u8, place: u64) -> Result<Session, NoMemory>
        ensures { IfOk result (λ made. made ≡ begun client place) }
    {
        Ok(Session {
            client,
            stage: Stage::Live,
            began: place,
            pages: BTreeMap::new(alloc),
            acked: 0,
            sent: Vec::new(alloc),
            taken: 0,
        })
    }

    /// Whether its repository has it.
    pub(crate) fn is_live(&self) -> bool
        ensures { result ≡ session_lives self.now }
    {
        match self.stage {
            Stage::Live => true,
            Stage::Ended => false,
        }
    }

    /// Whether it hasn't ended.
    pub(crate) fn is_unended(&self) -> bool
        ensures { result ≡ not (session_ended self.now) }
    {
        match self.stage {
            Stage::Live => true,
            Stage::Ended => false,
        }
    }

    pub(crate) fn client(&self) -> u8
        ensures { result ≡ self.now.client }
    {
        self.client
    }

    /// The places below this one are acknowledged.
    pub(crate) fn acked(&self) -> u64
        ensures { result ≡ self.now.acked }
    {
        self.acked
    }

    /// Where a page was first fetched or granted.
    pub(crate) fn first_at(&self, page: u32) -> Option<u64>
        ensures { result ≡ get self.now.pages page }
    {
        self.pages.get(&page).copied()
    }

    /// The message that waits first. Want of memory, too, where no index tells it.
    pub(crate) fn first_waiting(&self) -> Result<Option<&Notice>, NoMemory>
        ensures { IfOk result (λ first. option_copied first ≡ slice_get self.now.sent self.now.taken) }
    {
        match usize::try_from(self.taken) {
            Ok(taken) => Ok(self.sent.get(taken)),
            Err(_) => Err(NoMemory),
        }
    }

    // ---- one field behind an item

    fn set_stage(&mut self, lives: bool)
        ensures { self.new ≡ record self.old { stage = cond lives session.Live session.Ended } }
    {
        if lives {
            self.stage = Stage::Live;
        } else {
            self.stage = Stage::Ended;
        }
    }

    /// It may end, and else stays as it is.
    fn rest(&mut self, lives: bool)
        ensures { self.new ≡ record self.old { stage = cond lives self.old.stage session.Ended } }
    {
        if !lives {
            self.stage = Stage::Ended;
        }
    }

    fn acknowledge(&mut self, upto: u64)
        ensures { self.new ≡ record self.old { acked = max self.old.acked upto } }
    {
        self.acked = self.acked.max(upto);
    }

    fn push(&mut self, says: Says) -> Result<(), NoMemory>
        ensures { OnOk result (self.new ≡ record self.old { sent = self.old.sent ++ notice_of says ∷ [] }) }
    {
        self.sent.push(Notice::new(says))?;
        Ok(())
    }

    /// The client may have a page from now on.
    fn cache(&mut self, page: u32, place: u64) -> Result<(), NoMemory>
        ensures { OnOk result (self.new ≡ record self.old { pages = cache self.old.pages page place }) }
    {
        if !self.pages.contains_key(&page) {
            self.pages.insert(page, place)?;
        }
        Ok(())
    }

    fn count_taken(&mut self) -> Result<(), NoMemory>
        ensures { OnOk result (self.new ≡ record self.old { taken = self.old.taken + 1 }) }
    {
        if self.taken == u64::MAX {
            return Err(NoMemory);
        }
        self.taken += 1;
        Ok(())
    }

    // ---- marks

    /// A page was asked for, at a place.
    fn fetch(&mut self, page: u32, upto: u64, place: u64) -> Result<(), NoMemory>
        ensures { OnOk result (self.new ≡ record self.old { pages = cache self.old.pages page place; acked = max self.old.acked upto; sent = self.old.sent ++ session.Page page place ∷ [] }) }
    {
        self.cache(page, place)?;
        self.acknowledge(upto);
        self.push(Says::Page { page, place })
    }

    /// A page was granted, at a place.
    fn grant(&mut self, page: u32, place: u64) -> Result<(), NoMemory>
        ensures { OnOk result (self.new ≡ record self.old { pages = cache self.old.pages page place; sent = self.old.sent ++ session.Grant page place ∷ [] }) }
    {
        self.cache(page, place)?;
        self.push(Says::Grant { page, place })
    }

    /// The live session of this number behind a mark, at a place.
    fn live_behind_mark(&mut self, number: u32, place: u64, mark: &Mark) -> Result<(), NoMemory>
        ensures { OnOk result (self.new ≡ marked number place self.old mark.now) }
    {
        let lives = mark_lives_on(self.client, mark);
        self.set_stage(lives);
        match mark {
            Mark::Fetched {
                session,
                page,
                upto,
            } => {
                if *session == number {
                    return self.fetch(*page, *upto, place);
                }
                Ok(())
            }
            Mark::Granted { session, page } => {
                if *session == number {
                    return self.grant(*page, place);
                }
                Ok(())
            }
            Mark::Took { session, .. } => {
                if *session == number {
                    return self.count_taken();
                }
                Ok(())
            }
            Mark::Connected { .. }
            | Mark::Drew { .. }
            | Mark::Forgot { .. }
            | Mark::Refused { .. } => Ok(()),
        }
    }

    /// The session of this number behind a mark, at a place.
    pub(crate) fn meet_mark(&mut self, number: u32, place: u64, mark: &Mark) -> Result<(), NoMemory>
        ensures { OnOk result (self.new ≡ noted_with number place mark.now self.old) }
    {
        if self.is_live() {
            return self.live_behind_mark(number, place, mark);
        }
        let lives = mark_lives_on(self.client, mark);
        self.rest(lives);
        Ok(())
    }

    // ---- entries

    fn acknowledge_entry(&mut self, number: u32, entry: &Entry)
        ensures { self.new ≡ record self.old { acked = acked_by number self.old.acked (request_in entry.now) } }
    {
        match entry {
            Entry::One { request } | Entry::Prepared { request } | Entry::Upgraded { request } => {
                if request.session == number {
                    self.acknowledge(request.upto);
                }
            }
            Entry::Life { .. } | Entry::Decided { .. } | Entry::Finished { .. } => {}
        }
    }

    /// The session of this number is told of a commit.
    fn tell(
        &mut self,
        alloc: Global,
        number: u32,
        state: &State,
        request: &Request,
    ) -> Result<(), NoMemory>
        ensures { OnOk result (self.new ≡ record self.old { sent = push self.old.sent (told number state.now self.old.pages request.now) }) }
    {
        let place = state.count();
        if is_upgrade(request) {
            let before = state.epoch()?;
            return self.push_upgrade(before, place);
        }
        if request.session == number {
            return Ok(());
        }
        let names = self.names_for(alloc, request)?;
        self.push_invalid(names, place)
    }

    fn push_upgrade(&mut self, before: u32, place: u64) -> Result<(), NoMemory>
        ensures { OnOk result (self.new ≡ record self.old { sent = self.old.sent ++ session.Upgrade (before + 1) place ∷ [] }) }
    {
        if before == u32::MAX {
            return Err(NoMemory);
        }
        self.push(Says::Upgrade {
            number: before + 1,
            place,
        })
    }

    fn push_invalid(&mut self, names: Orefs, place: u64) -> Result<(), NoMemory>
        ensures { OnOk result (self.new ≡ record self.old { sent = push self.old.sent (invalid_of names place) }) }
    {
        if names.is_empty() {
            return Ok(());
        }
        self.push(Says::Invalid { names, place })
    }

    /// Of the objects that a request wrote, those on the session's pages, by their names.
    fn names_for(&self, alloc: Global, request: &Request) -> Result<Orefs, NoMemory>
        ensures { IfOk result (λ names. names ≡ filter (λ x. has self.now.pages x.page) (keys (written request.now))) }
    {
        let objects = written(alloc, request)?;
        names_on(alloc, &self.pages, &objects)
    }

    fn tell_where(
        &mut self,
        alloc: Global,
        number: u32,
        state: &State,
        committed: Option<&Request>,
    ) -> Result<(), NoMemory>
        ensures { OnOk result (self.new ≡ record self.old { sent = push self.old.sent (told_with number state.now self.old.pages (option_copied committed.entry)) }) }
    {
        match committed {
            Some(request) => self.tell(alloc, number, state, request),
            None => Ok(()),
        }
    }

    /// The live session of this number behind an entry, where this is the state before it, and what the entry decides.
    fn live_behind_entry(
        &mut self,
        alloc: Global,
        number: u32,
        state: &State,
        entry: &Entry,
        found: &Found,
    ) -> Result<(), NoMemory>
        ensures { OnOk result (self.new ≡ passed number state.now self.old entry.now found.now) }
    {
        self.set_stage(!is_life(entry));
        self.acknowledge_entry(number, entry);
        self.tell_where(alloc, number, state, committed_by(entry, found))
    }

    /// The session of this number behind an entry, where this is the state before it, and what the entry decides.
    pub(crate) fn meet_entry(
        &mut self,
        alloc: Global,
        number: u32,
        state: &State,
        entry: &Entry,
        found: &Found,
    ) -> Result<(), NoMemory>
        ensures { OnOk result (self.new ≡ cond (session_lives self.old) (passed number state.now self.old entry.now found.now) (rested self.old (E entry.now))) }
    {
        if self.is_live() {
            return self.live_behind_entry(alloc, number, state, entry, found);
        }
        self.rest(!is_life(entry));
        Ok(())
    }
}

/// Whether a client's session hasn't ended behind a mark.
fn mark_lives_on(client: u8, mark: &Mark) -> bool
    ensures { result ≡ lives_on client (M mark.now) }
{
    match mark {
        Mark::Connected { client: other, .. } => *other != client,
        Mark::Fetched { .. }
        | Mark::Granted { .. }
        | Mark::Took { .. }
        | Mark::Drew { .. }
        | Mark::Forgot { .. }
        | Mark::Refused { .. } => true,
    }
}

fn is_life(entry: &Entry) -> bool
    ensures { result ≡ is_life entry.now }
{
    match entry {
        Entry::Life { .. } => true,
        Entry::One { .. }
        | Entry::Prepared { .. }
        | Entry::Decided { .. }
        | Entry::Finished { .. }
        | Entry::Upgraded { .. } => false,
    }
}

/// The request of the commit that an entry is.
pub(crate) fn committed_by<'a>(entry: &'a Entry, found: &'a Found) -> Option<&'a Request>
    ensures { option_copied result ≡ committed_by entry.now found.now }
{
    match entry {
        Entry::One { request } | Entry::Upgraded { request } => Some(request),
        Entry::Decided { commit, .. } | Entry::Finished { commit, .. } => {
            request_of(*commit, found)
        }
        Entry::Life { .. } | Entry::Prepared { .. } => None,
    }
}

fn request_of(commit: bool, found: &Found) -> Option<&Request>
    ensures { option_copied result ≡ request_of commit found.now }
{
    match found {
        Some((_, request)) => {
            if commit {
                return Some(request);
            }
            None
        }
        None => None,
    }
}

/// Of some objects the names of those on some pages.
fn names_on(alloc: Global, pages: &Pages, objects: &Objects) -> Result<Orefs, NoMemory>
    ensures { IfOk result (λ names. names ≡ filter (λ x. has (pages_in pages.now) x.page) (keys_of objects.now.entries)) }
{
    let mut names = Orefs::new(alloc);
    for name in objects.keys() {
        if pages.contains_key(&name.page) {
            names.push(*name)?;
        }
    }
    Ok(names)
}
