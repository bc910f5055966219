//! The names that a front end gives to new objects.

ghost use Rattle.std.specs.Prelude.{◌≡◌, ◌<◌, ◌==◌, ◌++◌, ◌∷◌, [], true, not, map, length, position, slice_get, slice_set, IfOk, IfSome, IsSomeAnd, OnOk, OnErr};
ghost use Rattle.std.specs.List.{filter, list_all};
ghost use Rattle.method_eval.specs.Names as spec;
ghost use Rattle.method_eval.specs.Names.{free, is_of_other, orefs, waiting};

use crate::held::Held;
use crate::marks::{Marks, hold_all, hold_page, spend_given};
use crate::objects::stand_in_name;
use class_defs::{NameSupply, STAND_IN_LIMIT};
use std::alloc::Global;
use std::collections::BTreeMap;
use std::marker::Model;
use thor_value::{NoMemory, Oref, Orefs};

/// The names that a front end gives to new objects. A repository grants it pages, and it gives their names one
/// after the other. Those that were given are taken back with `reset`, or spent for good with `spend`.
///
/// To give, take back, spend or drop names takes no memory.
#[derive(Drop)]
pub struct Names {
    /// The names that were granted and aren't spent, in the order of the grants.
    held: Vec<Held>,
    /// Which names are spent, with room for those that are held.
    marks: Marks,
    /// Which stand-in name comes next, counted from 0.
    stand_in: Option<u64>,
    /// The same at the last `spend`.
    kept_stand_in: Option<u64>,
}

impl Model for Names {
    ghost use Rattle.method_eval.specs.Marks.{AreMarked, marks_of, spent_in};
    ghost use Rattle.method_eval.specs.Names as spec;

    ghost Value = { spec.Names };

    ghost view = { λ n. record { held = n.held.items; spent = spent_in (marks_of n.marks); stand_in = n.stand_in; kept_stand_in = n.kept_stand_in } };

    ghost invariant = { λ n. AreMarked (marks_of n.marks) n.held.items };
}

/// The place of the first held name that waits in a repository.
fn place_in(held: &[Held], repo: u8) -> Option<usize>
    ensures place { result ≡ position (spec.waits_in repo) held.now }
    ensures within { IfSome result (λ place. place < length held.now) }
{
    held.iter()
        .position(|one| !one.given && one.oref.repo == repo)
}

/// Whether all held names are of other pages.
fn are_of_others(held: &[Held], repo: u8, page: u32) -> bool
    ensures { result ≡ list_all (is_of_other repo page) held.now }
{
    for one in held {
        if one.oref.repo == repo && one.oref.page == page {
            return false;
        }
    }
    true
}

/// Gives the held name at a place.
fn give_at(held: &mut Vec<Held>, place: usize) -> Oref
    requires { place < length held.old.items }
    ensures { IsSomeAnd (slice_get held.old.items place) (λ one. (result ≡ one.oref) × (held.new.items ≡ slice_set held.old.items place (record one { given = true }))) }
{
    let Held { oref, given: _ } = held[place];
    held[place] = Held { oref, given: true };
    oref
}

/// Takes the names that were given back.
fn take_back(held: &mut Vec<Held>)
    ensures { held.new.items ≡ map (λ h. free h.oref) held.old.items }
{
    for place in 0..held.len() {
        free_at(held, place);
    }
}

/// Takes the name at a place back.
fn free_at(held: &mut Vec<Held>, place: usize)
    requires { place < length held.old.items }
    ensures { IsSomeAnd (slice_get held.old.items place) (λ one. held.new.items ≡ slice_set held.old.items place (free one.oref)) }
{
    let Held { oref, given: _ } = held[place];
    held[place] = Held { oref, given: false };
}

/// Keeps the names that aren't given.
fn keep_waiting(held: &mut Vec<Held>)
    ensures { held.new.items ≡ waiting held.old.items }
{
    held.retain(|one| !one.given);
}

/// Keeps the names of other repositories.
fn keep_others(held: &mut Vec<Held>, repo: u8)
    ensures { held.new.items ≡ filter (λ h. not (h.oref.repo == repo)) held.old.items }
{
    held.retain(|one| one.oref.repo != repo);
}

fn waiting_names(alloc: Global, held: &[Held]) -> Result<Orefs, NoMemory>
    ensures { IfOk result (λ names. names ≡ orefs (waiting held.now)) }
{
    let mut names = Orefs::new(alloc);
    for one in held {
        push_waiting(&mut names, *one)?;
    }
    Ok(names)
}

fn push_waiting(names: &mut Orefs, one: Held) -> Result<(), NoMemory>
    ensures { OnOk result (names.new ≡ names.old ++ orefs (waiting (one ∷ []))) }
{
    if one.given {
        return Ok(());
    }
    names.push(one.oref)
}

impl Names {
    /// No names. It takes no memory.
    pub fn new(alloc: Global) -> Names
        ensures { result ≡ spec.none }
    {
        Names {
            held: Vec::new(alloc),
            marks: BTreeMap::new(alloc),
            stand_in: None,
            kept_stand_in: None,
        }
    }

    /// Listed names, each for a new object in its own repository.
    pub fn only_listed(alloc: Global, names: &Orefs) -> Result<Names, NoMemory>
        ensures { IfOk result (λ made. made ≡ spec.only_listed names.now) }
    {
        let mut made = Names::new(alloc);
        hold_all(&mut made.marks, &mut made.held, names.as_slice())?;
        Ok(made)
    }

    /// Listed names, each for a new object in its own repository, and behind them the stand-in names 255.0.0,
    /// 255.0.1 and so on for any: all names of repository 255, where no store has an object.
    pub fn listed(alloc: Global, names: &Orefs) -> Result<Names, NoMemory>
        ensures { IfOk result (λ made. made ≡ spec.listed names.now) }
    {
        let mut made = Names::only_listed(alloc, names)?;
        made.stand_in = Some(0);
        made.kept_stand_in = Some(0);
        Ok(made)
    }

    /// Whether it has no name of this page that isn't spent.
    pub fn has_none_of(&self, repo: u8, page: u32) -> bool
        ensures { result ≡ spec.has_none_of self.now repo page }
    {
        are_of_others(&self.held, repo, page)
    }

    /// A repository grants a page: its twelve names, but for those that are spent, come behind the others. The
    /// page wasn't granted since the repository's names were last dropped. After `NoMemory` it is as it was.
    pub fn grant(&mut self, repo: u8, page: u32) -> Result<(), NoMemory>
        requires { spec.has_none_of self.old repo page ≡ true }
        ensures ok { OnOk result (self.new ≡ spec.grant self.old repo page) }
        ensures err { OnErr result (self.new ≡ self.old) }
    {
        let before = self.held.len();
        let granted = hold_page(&mut self.marks, &mut self.held, repo, page);
        if granted.is_err() {
            self.held.truncate(before);
        }
        granted
    }

    /// Gives the next name of a repository; nothing where none is left.
    pub fn next(&mut self, repo: u8) -> Option<Oref>
        ensures { (result, self.new) ≡ spec.next repo self.old }
    {
        match place_in(&self.held, repo) {
            Some(place) => Some(give_at(&mut self.held, place)),
            None => self.next_stand_in(),
        }
    }

    fn next_stand_in(&mut self) -> Option<Oref>
        ensures { (result, self.new) ≡ spec.next_stand_in self.old self.old.stand_in }
    {
        match self.stand_in {
            Some(count) if count < STAND_IN_LIMIT => {
                self.stand_in = Some(count + 1);
                Some(stand_in_name(count))
            }
            _ => None,
        }
    }

    /// Takes back the names that were given since the last `spend`. They are given again, in the same order.
    pub fn reset(&mut self)
        ensures { self.new ≡ spec.reset self.old }
    {
        take_back(&mut self.held);
        self.stand_in = self.kept_stand_in;
    }

    /// Spends the names that were given: they are never given again.
    pub fn spend(&mut self)
        ensures { self.new ≡ spec.spend self.old }
    {
        spend_given(&mut self.marks, &self.held);
        keep_waiting(&mut self.held);
        self.kept_stand_in = self.stand_in;
    }

    /// Drops a repository's names, also those that were given. Which of them are spent is kept.
    pub fn drop_repo(&mut self, repo: u8)
        ensures { self.new ≡ spec.drop_repo self.old repo }
    {
        keep_others(&mut self.held, repo);
    }

    /// The names that an evaluation has at hand.
    pub fn supply(&self, alloc: Global) -> Result<NameSupply, NoMemory>
        ensures { IfOk result (λ supply. supply ≡ spec.supply self.now) }
    {
        Ok(NameSupply {
            waiting: waiting_names(alloc, &self.held)?,
            stand_in: self.stand_in,
        })
    }
}
