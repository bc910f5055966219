//! What is read of a trace, item by item.

ghost use Rattle.spec_trace.specs.Calls.{connected_at, drawn_after, granted_at};
ghost use Rattle.spec_trace.specs.Trace.{E, M};
ghost use Rattle.std.specs.Option.{option_copied, option_map};
ghost use Rattle.std.specs.Prelude.{IfOk, OnOk, Some, max, ◌++◌, ◌≡◌};
ghost use Rattle.model_reading.specs.Items.{read, trace_of};
ghost use Rattle.model_reading.specs.Opening.{base_of};
ghost use Rattle.model_reading.specs.Reading.{Tells, begin, reading, step, step_marked, step_with};
ghost use Rattle.model_reading.specs.Settling.{commit_at, met_mark, met_with};

use crate::item::Item;
use crate::opening::Opening;
use crate::session::{Session, committed_by};
use crate::state::{Found, State};
use crate::window::Window;
use log_entries::{Entry, Request};
use spec_trace::Mark;
use std::alloc::Global;
use std::marker::Model;
use thor_value::{NoMemory, TryCopy, Ts};

/// A commit: its place, and its request.
pub(crate) type Commit = (u64, Request);

/// What was read of a trace, and of one session.
#[derive(Drop)]
pub struct Reading {
    pub(crate) state: State,
    pub(crate) window: Window,
    pub(crate) commits: Vec<Commit>,
    pub(crate) session: Option<Session>,
    pub(crate) last_session: u32,
    pub(crate) next_page: u64,
    pub(crate) drawn: u64,
}

impl Model for Reading {
    ghost use Rattle.model_reading.specs.Reading.{Reading as AReading};

    ghost Value = { AReading };

    ghost view = { λ r. record { state = r.state; window = r.window; commits = r.commits.items; session = r.session; last_session = r.last_session; next_page = r.next_page; drawn = r.drawn } };
}

impl Reading {
    /// What a trace comes to, beside its session of this number.
    pub fn of(
        alloc: Global,
        opening: &Opening,
        number: u32,
        items: &[Item],
    ) -> Result<Reading, NoMemory>
        ensures { IfOk result (Tells (base_of opening.now) number (trace_of items.now)) }
    {
        let read = Reading::fold(alloc, opening, number, items)?;
        Ok(read)
    }

    /// Goes over all items.
    fn fold(
        alloc: Global,
        opening: &Opening,
        number: u32,
        items: &[Item],
    ) -> Result<Reading, NoMemory>
        ensures { IfOk result (λ r. r ≡ reading (base_of opening.now) number (trace_of items.now)) }
    {
        let mut read = Reading::begin(alloc, opening)?;
        for item in items {
            read.pass(alloc, opening, number, item)?;
        }
        Ok(read)
    }

    fn begin(alloc: Global, opening: &Opening) -> Result<Reading, NoMemory>
        ensures { IfOk result (λ r. r ≡ begin (base_of opening.now)) }
    {
        let top = Ts {
            time: 0,
            repo: 0,
            life: 0,
        };
        Ok(Reading {
            state: State::begin(alloc, opening)?,
            window: Window::begin(alloc, top)?,
            commits: Vec::new(alloc),
            session: None,
            last_session: 0,
            next_page: u64::from(opening.next_page),
            drawn: 0,
        })
    }

    /// One more item comes.
    #[tactic(auto, using(crate::proofs::Settling::mark_is))]
    fn pass(
        &mut self,
        alloc: Global,
        opening: &Opening,
        number: u32,
        item: &Item,
    ) -> Result<(), NoMemory>
        ensures { OnOk result (self.new ≡ step (base_of opening.now) number self.old (read item.now)) }
    {
        match item {
            Item::Entry { entry } => self.pass_entry(alloc, opening, number, entry),
            Item::Mark { mark } => self.pass_mark(alloc, number, mark),
        }
    }

    #[tactic(auto, using(crate::proofs::Settling::entry_is))]
    fn pass_entry(
        &mut self,
        alloc: Global,
        opening: &Opening,
        number: u32,
        entry: &Entry,
    ) -> Result<(), NoMemory>
        ensures { OnOk result (self.new ≡ step (base_of opening.now) number self.old (E entry.now)) }
    {
        let found = self.state.found_by(opening, entry)?;
        self.pass_found(alloc, opening, number, entry, &found)
    }

    fn pass_found(
        &mut self,
        alloc: Global,
        opening: &Opening,
        number: u32,
        entry: &Entry,
        found: &Found,
    ) -> Result<(), NoMemory>
        ensures { OnOk result (self.new ≡ step_with (base_of opening.now) number self.old entry.now found.now) }
    {
        let place = self.state.count();
        meet_entry(&mut self.session, alloc, number, &self.state, entry, found)?;
        self.window.slide(opening, &self.state, entry, found)?;
        add_commit(&mut self.commits, place, committed_by(entry, found))?;
        self.drawn = drawn_behind(self.drawn, &self.state, entry);
        self.state.put(entry, found)
    }

    fn pass_mark(&mut self, alloc: Global, number: u32, mark: &Mark) -> Result<(), NoMemory>
        ensures { OnOk result (self.new ≡ step_marked number self.old mark.now) }
    {
        let place = self.state.count();
        meet_mark(&mut self.session, alloc, number, place, mark)?;
        self.note(mark);
        Ok(())
    }

    /// Takes the numbers that a mark tells.
    fn note(&mut self, mark: &Mark)
        ensures { self.new ≡ record self.old { last_session = max self.old.last_session (connected_at (M mark.now)); next_page = max self.old.next_page (granted_at (M mark.now)); drawn = drawn_after self.old.state self.old.drawn (M mark.now) } }
    {
        match mark {
            Mark::Connected { session, .. } => self.last_session = self.last_session.max(*session),
            Mark::Granted { page, .. } => {
                self.next_page = self.next_page.max(u64::from(*page) + 1);
            }
            Mark::Drew { ts, .. } => self.drawn = ts.time,
            Mark::Fetched { .. } | Mark::Took { .. } | Mark::Forgot { .. } | Mark::Refused { .. } =>
                {}
        }
    }
}

/// The session of this number behind an entry, where there is one.
fn meet_entry(
    session: &mut Option<Session>,
    alloc: Global,
    number: u32,
    state: &State,
    entry: &Entry,
    found: &Found,
) -> Result<(), NoMemory>
    ensures { OnOk result (session.new ≡ option_map (met_with number state.now entry.now found.now) session.old) }
{
    match session {
        Some(session) => session.meet_entry(alloc, number, state, entry, found),
        None => Ok(()),
    }
}

/// The session of this number behind a mark, where there is one, at a place.
fn meet_mark(
    session: &mut Option<Session>,
    alloc: Global,
    number: u32,
    place: u64,
    mark: &Mark,
) -> Result<(), NoMemory>
    ensures { OnOk result (session.new ≡ met_mark number place session.old mark.now) }
{
    if let Mark::Connected {
        session: begun,
        client,
    } = mark
    {
        if *begun == number {
            let made = Session::begin(alloc, *client, place)?;
            set_session(session, made);
            return Ok(());
        }
    }
    match session {
        Some(session) => session.meet_mark(number, place, mark),
        None => Ok(()),
    }
}

fn set_session(session: &mut Option<Session>, made: Session)
    ensures { session.new ≡ Some made }
{
    *session = Some(made);
}

/// Puts a commit behind others, where there is one.
fn add_commit(
    commits: &mut Vec<Commit>,
    place: u64,
    committed: Option<&Request>,
) -> Result<(), NoMemory>
    ensures { OnOk result (commits.new.items ≡ commits.old.items ++ commit_at place (option_copied committed.entry)) }
{
    if let Some(request) = committed {
        commits.push((place, request.copy()?))?;
    }
    Ok(())
}

/// The time that was drawn last, behind an entry.
fn drawn_behind(drawn: u64, state: &State, entry: &Entry) -> u64
    ensures { result ≡ drawn_after state.now drawn (E entry.now) }
{
    match entry {
        Entry::Life { .. } => state.top().time,
        Entry::One { .. }
        | Entry::Prepared { .. }
        | Entry::Decided { .. }
        | Entry::Finished { .. }
        | Entry::Upgraded { .. } => drawn,
    }
}
