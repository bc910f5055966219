//! What the history of a repository comes to, entry by entry.

ghost use Rattle.spec_history.specs.History.{Open, commit, is_undecided, known_in, put, start};
ghost use Rattle.log_entries.specs.declared.entry.Entry.TheVariants as entries;
ghost use Rattle.spec_history.specs.Requests.{text_of};
ghost use Rattle.std.specs.List.{list_any};
ghost use Rattle.std.specs.Option.{option_map};
ghost use Rattle.std.specs.Prelude.{Bool, IfOk, OnOk, length, ◌++◌, ◌≡◌};
ghost use Rattle.thor_value.specs.FiniteMap.{add, has, insert, keep, overwrite, values};
ghost use Rattle.thor_value.specs.Names.{later_of, same_ts};
ghost use Rattle.thor_value.specs.declared.names.Ts.{Ts};
ghost use Rattle.model_reading.specs.Opening.{base_of};
ghost use Rattle.model_reading.specs.Settling.{aborted, changed, found_by, open_of, put_with, settled};
ghost use Rattle.model_reading.specs.Standings.{open_standing, stands_behind};

use crate::names::{Objects, later_of, overwrite};
use crate::opening::Opening;
use crate::standing::{Fate, Standing};
use log_entries::{Entry, Kind, Request};
use std::alloc::Global;
use std::collections::BTreeMap;
use std::marker::Model;
use thor_value::{NoMemory, Texts, TryCopy, Ts};

/// The place and the request of an undecided transaction.
pub type Found = Option<(u64, Request)>;

/// What a history comes to.
#[derive(Drop)]
pub struct State {
    life: u32,
    last_life: u64,
    count: u64,
    objects: Objects,
    known: BTreeMap<Ts, Standing>,
    top: Ts,
    texts: Texts,
    kept: BTreeMap<Ts, ()>,
    alone: BTreeMap<u8, Ts>,
}

impl Model for State {
    ghost use Rattle.spec_history.specs.History.{State as AState};
    ghost use Rattle.thor_value.specs.FiniteMap.{empty};

    ghost Value = { AState };

    ghost view = { λ s. record { life = s.life; last_life = s.last_life; length = s.count; objects = record { pairs = s.objects.entries }; known = record { pairs = s.known.entries }; top = s.top; texts = s.texts; kept = record { pairs = s.kept.entries }; alone = record { pairs = s.alone.entries }; left = empty } };
}

impl State {
    /// The state before the first entry.
    pub(crate) fn begin(alloc: Global, opening: &Opening) -> Result<State, NoMemory>
        ensures { IfOk result (λ made. made ≡ start (base_of opening.now)) }
    {
        let mut objects = BTreeMap::new(alloc);
        overwrite(&mut objects, opening.objects.as_slice())?;
        Ok(State {
            life: 0,
            last_life: 0,
            count: 0,
            objects,
            known: BTreeMap::new(alloc),
            top: Ts {
                time: 0,
                repo: 0,
                life: 0,
            },
            texts: Texts::new(alloc),
            kept: BTreeMap::new(alloc),
            alone: BTreeMap::new(alloc),
        })
    }

    /// The present life.
    pub(crate) fn life(&self) -> u32
        ensures { result ≡ self.now.life }
    {
        self.life
    }

    /// How many entries there are.
    pub(crate) fn count(&self) -> u64
        ensures { result ≡ self.now.length }
    {
        self.count
    }

    pub(crate) fn objects(&self) -> &Objects
        ensures { result.now.entries ≡ self.now.objects.pairs }
    {
        &self.objects
    }

    /// The greatest timestamp that committed.
    pub(crate) fn top(&self) -> Ts
        ensures { result ≡ self.now.top }
    {
        self.top
    }

    /// The texts of the installed upgrades.
    pub(crate) fn texts(&self) -> &Texts
        ensures { result.now ≡ self.now.texts }
    {
        &self.texts
    }

    /// The number of the epoch. Want of memory, too, where no number tells it.
    pub(crate) fn epoch(&self) -> Result<u32, NoMemory>
        ensures { IfOk result (λ epoch. epoch ≡ length self.now.texts) }
    {
        match u32::try_from(self.texts.len()) {
            Ok(epoch) => Ok(epoch),
            Err(_) => Err(NoMemory),
        }
    }

    /// Whether the decision to commit a transaction was made here.
    pub(crate) fn has_kept(&self, tx: Ts) -> bool
        ensures { result ≡ has self.now.kept tx }
    {
        self.kept.contains_key(&tx)
    }

    /// Whether it is the last one of a client that committed here alone.
    pub(crate) fn is_alone(&self, tx: Ts) -> bool
        ensures { result ≡ list_any (same_ts tx) (values self.now.alone) }
    {
        for last in self.alone.values() {
            if tx.cmp(last).is_eq() {
                return true;
            }
        }
        false
    }

    /// The transaction, where it is undecided in a life that began at this place.
    fn open_since(&self, repo: u8, last_life: u64, tx: Ts) -> Option<&Standing>
        ensures { option_map (λ o. (o.now.place, o.now.request)) result ≡ stands_behind repo last_life tx self.now }
    {
        match self.known.get(&tx) {
            Some(standing) => open_standing(repo, last_life, tx, standing),
            None => None,
        }
    }

    /// Whether a transaction is undecided.
    #[tactic(auto, using(crate::proofs::Settling::undecided_is, crate::proofs::Settling::stands_now))]
    pub(crate) fn is_undecided(&self, opening: &Opening, tx: Ts) -> bool
        ensures { result ≡ is_undecided (known_in (base_of opening.now) self.now tx) }
    {
        self.open_since(opening.repo, self.last_life, tx).is_some()
    }

    /// Whether a transaction stays undecided behind a Life that comes now.
    #[tactic(auto, using(crate::proofs::Settling::undecided_is, crate::proofs::Settling::stands_next))]
    pub(crate) fn outlives(&self, opening: &Opening, tx: Ts, life: u32) -> bool
        ensures { result ≡ is_undecided (known_in (base_of opening.now) (put (base_of opening.now) self.now (entries.Life life)) tx) }
    {
        self.open_since(opening.repo, self.count, tx).is_some()
    }

    /// The place and the request of a transaction, where it is undecided.
    #[tactic(auto, using(crate::proofs::Settling::stands_now))]
    pub(crate) fn open_request(&self, opening: &Opening, tx: Ts) -> Result<Found, NoMemory>
        ensures { IfOk result (λ found. found ≡ open_of (known_in (base_of opening.now) self.now tx)) }
    {
        match self.open_since(opening.repo, self.last_life, tx) {
            Some(standing) => Ok(Some((standing.place(), standing.request().copy()?))),
            None => Ok(None),
        }
    }

    /// What an entry decides.
    pub(crate) fn found_by(&self, opening: &Opening, entry: &Entry) -> Result<Found, NoMemory>
        ensures { IfOk result (λ found. found ≡ found_by (base_of opening.now) self.now entry.now) }
    {
        match entry {
            Entry::Decided { tx, .. } | Entry::Finished { tx, .. } => {
                self.open_request(opening, *tx)
            }
            Entry::Life { .. }
            | Entry::One { .. }
            | Entry::Prepared { .. }
            | Entry::Upgraded { .. } => Ok(None),
        }
    }

    /// The state behind one more entry, which decides what was found. Want of memory, too, where no number tells the count.
    pub(crate) fn put(&mut self, entry: &Entry, found: &Found) -> Result<(), NoMemory>
        ensures { OnOk result (self.new ≡ put_with self.old entry.now found.now) }
    {
        if self.count == u64::MAX {
            return Err(NoMemory);
        }
        let count = self.count + 1;
        self.change(entry, found)?;
        self.set_count(count);
        Ok(())
    }

    fn set_count(&mut self, count: u64)
        ensures { self.new ≡ record self.old { length = count } }
    {
        self.count = count;
    }

    fn change(&mut self, entry: &Entry, found: &Found) -> Result<(), NoMemory>
        ensures { OnOk result (self.new ≡ changed self.old entry.now found.now) }
    {
        match entry {
            Entry::Life { life } => {
                self.begin_life(*life);
                Ok(())
            }
            Entry::Prepared { request } => self.prepare(request),
            Entry::One { request } | Entry::Upgraded { request } => self.commit_alone(request),
            Entry::Decided { tx, commit } => self.decide(*tx, *commit, found),
            Entry::Finished { tx, commit } => self.finish(*tx, *commit, found),
        }
    }

    fn begin_life(&mut self, life: u32)
        ensures { self.new ≡ record self.old { life = life; last_life = self.old.length } }
    {
        self.life = life;
        self.last_life = self.count;
    }

    /// How a transaction stands from now on.
    fn stand(&mut self, tx: Ts, standing: Standing) -> Result<(), NoMemory>
        ensures { OnOk result (self.new ≡ record self.old { known = insert self.old.known tx standing }) }
    {
        self.known.insert(tx, standing)?;
        Ok(())
    }

    fn prepare(&mut self, request: &Request) -> Result<(), NoMemory>
        ensures { OnOk result (self.new ≡ record self.old { known = insert self.old.known request.now.tx (record { place = self.old.length; request = request.now; fate = Open }) }) }
    {
        let standing = Standing::new(self.count, request.copy()?, Fate::Open);
        self.stand(request.tx, standing)
    }

    /// A transaction, whose request stands at a place, commits.
    fn commit(&mut self, tx: Ts, place: u64, request: &Request) -> Result<(), NoMemory>
        ensures { OnOk result (self.new ≡ commit self.old tx place request.now) }
    {
        let at = self.count;
        let standing = Standing::new(place, request.copy()?, Fate::Committed { at });
        self.stand(tx, standing)?;
        self.write(request)?;
        self.add_text(&request.kind)
    }

    /// What a request wrote counts, and its timestamp.
    fn write(&mut self, request: &Request) -> Result<(), NoMemory>
        ensures { OnOk result (self.new ≡ record self.old { objects = overwrite self.old.objects request.now.writes; top = later_of self.old.top request.now.tx }) }
    {
        self.top = later_of(self.top, request.tx);
        overwrite(&mut self.objects, request.writes.as_slice())
    }

    fn add_text(&mut self, kind: &Kind) -> Result<(), NoMemory>
        ensures { OnOk result (self.new ≡ record self.old { texts = self.old.texts ++ text_of kind.now }) }
    {
        match kind {
            Kind::App | Kind::Transform => Ok(()),
            Kind::Upgrade { text } => self.texts.push(text.copy()?),
        }
    }

    fn commit_alone(&mut self, request: &Request) -> Result<(), NoMemory>
        ensures { OnOk result (self.new ≡ record (commit self.old request.now.tx self.old.length request.now) { alone = insert self.old.alone request.now.who.client request.now.tx }) }
    {
        let place = self.count;
        self.commit(request.tx, place, request)?;
        self.alone.insert(request.who.client, request.tx)?;
        Ok(())
    }

    fn abort(&mut self, tx: Ts, place: u64, request: &Request) -> Result<(), NoMemory>
        ensures { OnOk result (self.new ≡ aborted self.old tx (place, request.now)) }
    {
        let standing = Standing::new(place, request.copy()?, Fate::Aborted);
        self.stand(tx, standing)
    }

    /// An undecided transaction that was found commits or is aborted.
    fn settle(&mut self, tx: Ts, commit: bool, found: &Found) -> Result<(), NoMemory>
        ensures ok { OnOk result (self.new ≡ settled self.old tx commit found.now) }
        ensures kept { OnOk result (self.new.kept ≡ self.old.kept) }
        ensures left { OnOk result (self.new.left ≡ self.old.left) }
    {
        match found {
            Some((place, request)) => {
                if commit {
                    self.commit(tx, *place, request)
                } else {
                    self.abort(tx, *place, request)
                }
            }
            None => Ok(()),
        }
    }

    fn decide(&mut self, tx: Ts, commit: bool, found: &Found) -> Result<(), NoMemory>
        ensures { OnOk result (self.new ≡ changed self.old (entries.Decided tx commit) found.now) }
    {
        self.settle(tx, commit, found)?;
        if commit && found.is_some() {
            return self.keep(tx);
        }
        Ok(())
    }

    /// The decision to commit a transaction was made here.
    fn keep(&mut self, tx: Ts) -> Result<(), NoMemory>
        ensures { OnOk result (self.new ≡ record self.old { kept = add self.old.kept tx }) }
    {
        self.kept.insert(tx, ())?;
        Ok(())
    }

    fn finish(&mut self, tx: Ts, commit: bool, found: &Found) -> Result<(), NoMemory>
        ensures { OnOk result (self.new ≡ changed self.old (entries.Finished tx commit) found.now) }
    {
        self.settle(tx, commit, found)?;
        self.settle_left();
        Ok(())
    }

    /// An earlier run left nothing to be settled.
    fn settle_left(&mut self)
        ensures { (test : Ts → Bool) → self.new ≡ record self.old { left = keep self.old.left test } }
    {
        let count = self.count;
        self.count = count;
    }
}

/// A transaction, where it is undecided in a life that began at this place.
fn open_standing(repo: u8, last_life: u64, tx: Ts, standing: &Standing) -> Option<&Standing>
    ensures { option_map (λ o. (o.now.place, o.now.request)) result ≡ open_standing repo last_life tx standing.now }
{
    if tx.repo == repo && standing.place() < last_life {
        return None;
    }
    if standing.is_open() {
        return Some(standing);
    }
    None
}
