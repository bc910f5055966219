//! The calls of a repository on the sets of its sessions.

ghost use Rattle.cached_sets.specs.Cost.{stale_steps, touch_steps};
ghost use Rattle.cached_sets.specs.Meaning.{has_page};
ghost use Rattle.cached_sets.specs.Noted.{is_silent, places_from, places_of};
ghost use Rattle.cached_sets.specs.Sets.{acknowledge, cache, drop_session, invalid_after, marked, no_sets, note, others, stale, told_of, touch, touches};
ghost use Rattle.cached_sets.specs.Invalid.{Invalids, set_of};
ghost use Rattle.cached_sets.specs.Undoing.{undo};
ghost use Rattle.link_table.specs.Pairs.{first, lefts, next, rights};
ghost use Rattle.std.specs.List.{IsDistinct, last_or};
ghost use Rattle.std.specs.Map.{keys_of};
ghost use Rattle.std.specs.Prelude.{IfOk, List, None, Ok, OnErr, OnOk, OnSome, [], length, map, nat_eq, ℕ, ◌*◌, ◌++◌, ◌+◌, ◌<◌, ◌∷◌, ◌≡◌, ◌≤◌};
ghost use Rattle.validation_queue.specs.Names.{Rises};

use crate::invalid_sets::InvalidSets;
use crate::marked::Marked;
use crate::noted_places::NotedPlaces;
use link_table::Links;
use std::alloc::Global;
use std::marker::{Brand, Model};
use std::sync::ledger::{Blank, Ledger};
use thor_value::{NoMemory, Oref, Orefs, StepCount, Writes};

/// How many marks of a commit have room at once.
const ROOM: usize = 16;

/// For each session the pages that its client may have, and its invalid set: the objects on those
/// pages that other sessions have written since, each with the place of its last such write (Adya and
/// others, SIGMOD 1995; Liskov and others, SIGMOD 1996).
///
/// An object comes into a set only where the page is cached before the write, so no place is kept with
/// a page.
///
/// Beside these stand the places at which each session was told what its client hasn't acknowledged.
#[derive(Drop)]
pub struct Sets {
    pages: Links,
    invalid: InvalidSets,
    noted: NotedPlaces,
    alloc: Global,
}

impl Model for Sets {
    ghost use Rattle.cached_sets.specs.Sets.{Sets as Kept};

    ghost Value = { Kept };

    ghost view = { λ s. record { cached = s.pages; invalid = s.invalid; noted = s.noted } };
}

impl Sets {
    /// No session has a page. It takes no memory.
    pub fn new(alloc: Global) -> Result<Sets, NoMemory>
        ensures { result ≡ Ok no_sets }
    {
        Ok(Sets {
            pages: Links::new(alloc)?,
            invalid: InvalidSets::new(alloc),
            noted: NotedPlaces::new(alloc),
            alloc,
        })
    }

    /// The client of a session may have a page from now on. After `NoMemory` the sets are as they were.
    pub fn cache(&mut self, session: u32, page: u32) -> Result<(), NoMemory>
        ensures ok { OnOk result (self.new ≡ cache self.old session page) }
        ensures err { OnErr result (self.new ≡ self.old) }
    {
        let is_new = self.invalid.open(session)?;
        match self.pages.link(session, page) {
            Ok(_) => Ok(()),
            Err(refused) => {
                if is_new {
                    self.invalid.close(session);
                }
                Err(refused)
            }
        }
    }

    /// Whether the client of a session may have a page.
    pub fn has_page(&self, session: u32, page: u32) -> bool
        ensures { result ≡ has_page self.now session page }
    {
        self.pages.is_linked(session, page)
    }

    /// A session has written some objects, in the commit at a place: each comes into the invalid set of
    /// every other session that has its page, with that place. After `NoMemory` the sets are as they
    /// were.
    ///
    /// It takes time for each such session and object, and none for the others: `touch_counted` says how
    /// many steps.
    pub fn touch(&mut self, writer: u32, writes: &Writes, place: u64) -> Result<(), NoMemory>
        ensures ok { OnOk result (self.new ≡ touch self.old writer (keys_of writes.now) place) }
        ensures err { OnErr result (self.new ≡ self.old) }
    {
        self.touch_uncounted::<Brand>(writer, writes, place, Blank::new(1))
    }

    fn touch_uncounted<L: Ledger>(
        &mut self,
        writer: u32,
        writes: &Writes,
        place: u64,
        ledger: Blank,
    ) -> Result<(), NoMemory>
        requires name { ledger.name ≡ L.name }
        requires parts { ledger.parts ≡ L.parts }
        requires some { 0 < ledger.parts }
        ensures ok { OnOk result (self.new ≡ touch self.old writer (keys_of writes.now) place) }
        ensures err { OnErr result (self.new ≡ self.old) }
    {
        let mut steps: StepCount<L> = StepCount::new(ledger);
        self.touch_counted(writer, writes, place, &mut steps)
    }

    /// `touch`, counted: one step for each written object, and one for each session that has its page.
    /// Each step takes time in proportion to the logarithm of how many sessions or invalid objects
    /// there are. Before it answers `NoMemory` it takes back what it has done, with at most as many
    /// steps again.
    pub fn touch_counted<L: Ledger>(
        &mut self,
        writer: u32,
        writes: &Writes,
        place: u64,
        steps: &mut StepCount<L>,
    ) -> Result<(), NoMemory>
        ensures ok { OnOk result (self.new ≡ touch self.old writer (keys_of writes.now) place) }
        ensures err { OnErr result (self.new ≡ self.old) }
        ensures cost { OnOk result (steps.new ≡ steps.old + touch_steps self.old.cached (keys_of writes.now)) }
        ensures err_cost { OnErr result (steps.new ≤ steps.old + 2 * touch_steps self.old.cached (keys_of writes.now)) }
    {
        drop(self.mark_writes(writer, writes, place, steps)?);
        Ok(())
    }

    /// `touch`, which answers the marks: for each written object one of each other session that has its page, in the
    /// order in which those took it in.
    pub fn touch_marking(
        &mut self,
        writer: u32,
        writes: &Writes,
        place: u64,
    ) -> Result<Vec<Marked>, NoMemory>
        ensures ok { OnOk result (self.new ≡ touch self.old writer (keys_of writes.now) place) }
        ensures marks { IfOk result (λ marks. map told_of marks.items ≡ touches self.old.cached writer (keys_of writes.now)) }
        ensures err { OnErr result (self.new ≡ self.old) }
    {
        self.mark_uncounted::<Brand>(writer, writes, place, Blank::new(1))
    }

    fn mark_uncounted<L: Ledger>(
        &mut self,
        writer: u32,
        writes: &Writes,
        place: u64,
        ledger: Blank,
    ) -> Result<Vec<Marked>, NoMemory>
        requires name { ledger.name ≡ L.name }
        requires parts { ledger.parts ≡ L.parts }
        requires some { 0 < ledger.parts }
        ensures ok { OnOk result (self.new ≡ touch self.old writer (keys_of writes.now) place) }
        ensures marks { IfOk result (λ marks. map told_of marks.items ≡ touches self.old.cached writer (keys_of writes.now)) }
        ensures err { OnErr result (self.new ≡ self.old) }
    {
        let mut steps: StepCount<L> = StepCount::new(ledger);
        self.mark_writes(writer, writes, place, &mut steps)
    }

    /// Marks the written objects, and counts as `touch_counted` does.
    #[tactic(auto, using(crate::proofs::Touching::none_more))]
    fn mark_writes<L: Ledger>(
        &mut self,
        writer: u32,
        writes: &Writes,
        place: u64,
        steps: &mut StepCount<L>,
    ) -> Result<Vec<Marked>, NoMemory>
        ensures ok { OnOk result (self.new ≡ touch self.old writer (keys_of writes.now) place) }
        ensures marks { IfOk result (λ marks. map told_of marks.items ≡ touches self.old.cached writer (keys_of writes.now)) }
        ensures err { OnErr result (self.new ≡ self.old) }
        ensures cost { OnOk result (steps.new ≡ steps.old + touch_steps self.old.cached (keys_of writes.now)) }
        ensures err_cost { OnErr result (steps.new ≤ steps.old + 2 * touch_steps self.old.cached (keys_of writes.now)) }
    {
        let mut done = Vec::with_capacity(self.alloc, ROOM)?;
        let mut sessions = Vec::new(self.alloc);
        for write in writes.as_slice() {
            steps.tick();
            let touched = mark_holders(
                &self.pages,
                &mut self.invalid,
                writer,
                write.0,
                place,
                &mut sessions,
                &mut done,
                steps,
            );
            if touched.is_err() {
                self.invalid.undo(done, steps);
                return Err(NoMemory);
            }
        }
        Ok(done)
    }

    /// No session stands twice among those whose clients may have a page.
    pub fn holders_are_apart(&self)
        ensures { (page : ℕ) → IsDistinct nat_eq (lefts self.now.cached page) }
    {
        self.pages.lefts_are_apart();
    }

    /// The next session behind one, in the order in which they took the page in, whose client may have a
    /// page; the first one behind `None`. It takes no memory.
    pub fn next_holder(&self, page: u32, after: Option<u32>) -> Option<u32>
        ensures value { result ≡ next (lefts self.now.cached page) after }
        ensures goes_on { (done rest : List ℕ) → lefts self.now.cached page ≡ done ++ rest → after ≡ last_or None done → result ≡ first rest }
        ensures distinct { IsDistinct nat_eq (lefts self.now.cached page) }
    {
        self.pages.next_left(page, after)
    }

    /// A session was told of a commit at a place, which its client hasn't acknowledged. The answer is whether it has
    /// more than 4,096 such places then. After `NoMemory` the sets are as they were.
    ///
    /// It takes time in proportion to the logarithm of how many sessions there are.
    pub fn note(&mut self, session: u32, place: u64) -> Result<bool, NoMemory>
        ensures answer { IfOk result (λ silent. silent ≡ is_silent self.new.noted session) }
        ensures ok { OnOk result (self.new ≡ note self.old session place) }
        ensures err { OnErr result (self.new ≡ self.old) }
    {
        self.noted.note(session, place)
    }

    /// Of how many commits a session was told that its client hasn't acknowledged.
    pub fn unacknowledged(&self, session: u32) -> usize
        ensures { result ≡ length (places_of self.now.noted session) }
    {
        self.noted.len(session)
    }

    /// The client of a session knows what was written below a place: those objects leave its invalid
    /// set. It looks once at each object of that set, and at no other, and takes no memory. The places at which it was
    /// told of them go, too: `acknowledge_counted` says how many steps.
    pub fn acknowledge(&mut self, session: u32, upto: u64)
        ensures { self.new ≡ acknowledge self.old session upto }
    {
        self.acknowledge_uncounted::<Brand>(session, upto, Blank::new(1));
    }

    fn acknowledge_uncounted<L: Ledger>(&mut self, session: u32, upto: u64, ledger: Blank)
        requires name { ledger.name ≡ L.name }
        requires parts { ledger.parts ≡ L.parts }
        requires some { 0 < ledger.parts }
        ensures { self.new ≡ acknowledge self.old session upto }
    {
        let mut steps: StepCount<L> = StepCount::new(ledger);
        self.acknowledge_counted(session, upto, &mut steps);
    }

    /// `acknowledge`, counted: one step for each place that goes, so that each place that was noted costs one at most,
    /// and none for the places that stay or are other sessions'.
    pub fn acknowledge_counted<L: Ledger>(
        &mut self,
        session: u32,
        upto: u64,
        steps: &mut StepCount<L>,
    )
        ensures rest { self.new ≡ acknowledge self.old session upto }
        ensures cost { steps.new + length (places_from upto (places_of self.old.noted session)) ≡ steps.old + length (places_of self.old.noted session) }
    {
        self.invalid.keep_from(session, upto);
        self.noted.keep_from(session, upto, steps);
    }

    /// The least of the names that a request read which its session's invalid set has at a place not
    /// below `upto`, with that place. It looks at the names or at the set, whichever are fewer, and takes
    /// no memory: `stale_counted` says how many steps.
    pub fn stale(&self, session: u32, ros: &Orefs, upto: u64) -> Option<(Oref, u64)>
        requires { Rises ros.now }
        ensures { result ≡ stale self.now session ros.now upto }
    {
        self.stale_uncounted::<Brand>(session, ros, upto, Blank::new(1))
    }

    fn stale_uncounted<L: Ledger>(
        &self,
        session: u32,
        ros: &Orefs,
        upto: u64,
        ledger: Blank,
    ) -> Option<(Oref, u64)>
        requires rises { Rises ros.now }
        requires name { ledger.name ≡ L.name }
        requires parts { ledger.parts ≡ L.parts }
        requires some { 0 < ledger.parts }
        ensures { result ≡ stale self.now session ros.now upto }
    {
        let mut steps: StepCount<L> = StepCount::new(ledger);
        self.stale_counted(session, ros, upto, &mut steps)
    }

    /// `stale`, counted: one step for each of the names, or for each object of the set, that it looks
    /// at: all of them where it finds none, and one at least where it finds one. Each step takes time in proportion to the logarithm of how many there are of the others.
    pub fn stale_counted<L: Ledger>(
        &self,
        session: u32,
        ros: &Orefs,
        upto: u64,
        steps: &mut StepCount<L>,
    ) -> Option<(Oref, u64)>
        requires { Rises ros.now }
        ensures value { result ≡ stale self.now session ros.now upto }
        ensures cost { steps.new ≤ steps.old + stale_steps (set_of self.now.invalid session) ros.now }
        ensures all { result ≡ None → steps.new ≡ steps.old + stale_steps (set_of self.now.invalid session) ros.now }
        ensures some { OnSome result (steps.old < steps.new) }
    {
        self.invalid
            .first_stale(session, ros.as_slice(), upto, steps)
    }

    /// The next object of a session's invalid set behind one, names rising, with its place; the first
    /// one behind `None`. It looks at no other, and takes no memory.
    pub fn invalid(&self, session: u32, after: Option<Oref>) -> Option<(Oref, u64)>
        ensures { result ≡ invalid_after self.now session after }
    {
        self.invalid.next(session, after)
    }

    /// A session ends: it has no page, no invalid set and no place. It takes no memory: `drop_counted` says how
    /// many steps.
    pub fn drop_session(&mut self, session: u32)
        ensures { self.new ≡ drop_session self.old session }
    {
        self.drop_uncounted::<Brand>(session, Blank::new(1));
    }

    fn drop_uncounted<L: Ledger>(&mut self, session: u32, ledger: Blank)
        requires name { ledger.name ≡ L.name }
        requires parts { ledger.parts ≡ L.parts }
        requires some { 0 < ledger.parts }
        ensures { self.new ≡ drop_session self.old session }
    {
        let mut steps: StepCount<L> = StepCount::new(ledger);
        self.drop_counted(session, &mut steps);
    }

    /// `drop_session`, counted: one step for each page that the session has. Its invalid set and its places go as a
    /// whole.
    pub fn drop_counted<L: Ledger>(&mut self, session: u32, steps: &mut StepCount<L>)
        ensures rest { self.new ≡ drop_session self.old session }
        ensures cost { steps.new ≡ steps.old + length (rights self.old.cached session) }
    {
        self.pages.unlink_left(session, steps);
        self.invalid.close(session);
        self.noted.close(session);
    }
}

/// Marks an object in the set of each session that has its page, but for the writer's. It counts a
/// step for each session that has the page; `done` gets one mark for each but the writer. `sessions` gets those that have it.
fn mark_holders<L: Ledger>(
    pages: &Links,
    invalid: &mut InvalidSets,
    writer: u32,
    oref: Oref,
    place: u64,
    sessions: &mut Vec<u32>,
    done: &mut Vec<Marked>,
    steps: &mut StepCount<L>,
) -> Result<(), NoMemory>
    ensures ok { OnOk result (invalid.new ≡ marked invalid.old (others writer oref (lefts pages.now oref.page)) place) }
    ensures told { OnOk result (map told_of done.new.items ≡ map told_of done.old.items ++ others writer oref (lefts pages.now oref.page)) }
    ensures undone { (N : Invalids) → undo invalid.old done.old.items ≡ N → undo invalid.new done.new.items ≡ N }
    ensures cost { OnOk result (steps.new ≡ steps.old + length (lefts pages.now oref.page)) }
    ensures bound { steps.new ≤ steps.old + length (lefts pages.now oref.page) }
    ensures marks { length done.new.items + steps.old ≤ length done.old.items + steps.new }
{
    sessions.clear();
    pages.put_lefts(oref.page, sessions)?;
    mark_each(
        sessions.as_slice(),
        invalid,
        writer,
        oref,
        place,
        done,
        steps,
    )
}

/// Marks an object in the set of each of some sessions, but for the writer's. It counts a step for each of them.
#[tactic(auto, using(crate::proofs::Touching::none_more))]
fn mark_each<L: Ledger>(
    sessions: &[u32],
    invalid: &mut InvalidSets,
    writer: u32,
    oref: Oref,
    place: u64,
    done: &mut Vec<Marked>,
    steps: &mut StepCount<L>,
) -> Result<(), NoMemory>
    ensures ok { OnOk result (invalid.new ≡ marked invalid.old (others writer oref sessions.now) place) }
    ensures told { OnOk result (map told_of done.new.items ≡ map told_of done.old.items ++ others writer oref sessions.now) }
    ensures undone { (N : Invalids) → undo invalid.old done.old.items ≡ N → undo invalid.new done.new.items ≡ N }
    ensures cost { OnOk result (steps.new ≡ steps.old + length sessions.now) }
    ensures bound { steps.new ≤ steps.old + length sessions.now }
    ensures marks { length done.new.items + steps.old ≤ length done.old.items + steps.new }
{
    for session in sessions {
        steps.tick();
        mark_other(invalid, writer, *session, oref, place, done)?;
    }
    Ok(())
}

/// Marks an object in the set of a session, but for the writer's.
#[tactic(auto, using(crate::proofs::Touching::alone, crate::proofs::Touching::none_of_own, crate::proofs::Touching::none_more))]
fn mark_other(
    invalid: &mut InvalidSets,
    writer: u32,
    session: u32,
    oref: Oref,
    place: u64,
    done: &mut Vec<Marked>,
) -> Result<(), NoMemory>
    ensures ok { OnOk result (invalid.new ≡ marked invalid.old (others writer oref (session ∷ [])) place) }
    ensures told { OnOk result (map told_of done.new.items ≡ map told_of done.old.items ++ others writer oref (session ∷ [])) }
    ensures undone { (N : Invalids) → undo invalid.old done.old.items ≡ N → undo invalid.new done.new.items ≡ N }
    ensures one { length done.new.items ≤ length done.old.items + 1 }
{
    if session == writer {
        return Ok(());
    }
    invalid.mark(session, oref, place, done)
}
