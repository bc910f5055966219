//! What a client holds of the repositories: sessions, copies of objects, names for new ones.

ghost use Rattle.client_state.specs.Calling.{CopiesLost, CopiesStay, is_session_of, upto_in};
ghost use Rattle.client_state.specs.Learning.{KeepsBounds, Rises, without_session};
ghost use Rattle.client_state.specs.Links.{CountsUnsettled, NoneAwaits, NoneIsBehind, at_repo, awaits_reply, is_behind, link_in, session_in, stopped, waiting};
ghost use Rattle.client_state.specs.Moving.{HoldsLess, InSession, IsApart, KeepsMade, KeepsTry, LeavesSome, StopsWaiting};
ghost use Rattle.client_state.specs.Pending.{IsWrittenIn};
ghost use Rattle.client_state.specs.Taking.{BringsPage};
ghost use Rattle.client_state.specs.Writing.{WritesStay};
ghost use Rattle.client_state.specs.Written.{PartsSome, WrittenLost};
ghost use Rattle.client_state.specs.declared.link.Link.{Link};
ghost use Rattle.client_state.specs.declared.link.Link.TheVariants.{Apart};
ghost use Rattle.client_cache.specs.Copies.{changed, kept, seen};
ghost use Rattle.client_cache.specs.Pages.{same_name};
ghost use Rattle.paused_eval.specs.Copies.{AreAmong};
ghost use Rattle.std.specs.Option.{option_map};
ghost use Rattle.std.specs.Prelude.{false, ◌≡◌, ◌<◌, ◌≤◌, IfSome, IsTrue, None, OnOk, Some, cond, max, nat_eq, not, slice_get, ℕ};
ghost use Rattle.session_outbox.specs.declared.answers.At.{At};
ghost use Rattle.thor_value.specs.declared.names.Oref.{Oref};

use crate::link::{Link, Waits};
use client_cache::Looked;
use client_items::Opened;
use page_format::PageImage;
use paused_eval::{Copies, GrantedNames};
use session_outbox::At;
use std::alloc::Global;
use std::mem;
use thor_value::{NoMemory, Obj, Oref, REPOSITORIES, Repos, SLOTS, TryCopy, Ts};

/// What a client holds of the repositories.
#[derive(Drop)]
pub struct Held {
    pub alloc: Global,
    pub client: u8,
    /// One for each repository that a store may have.
    pub links: Vec<Link>,
    pub cache: Copies,
    pub names: GrantedNames,
    /// The greatest epoch that the client has learnt of.
    pub learnt: u32,
    /// The times of its commits and transforms, of the thresholds that it was told, and of the
    /// refusals `TooOld` and `Later`, are at most this.
    pub floor: u64,
}

impl Held {
    /// Nothing is held. There is room for so many pages.
    pub fn new(alloc: Global, client: u8, pages: u32) -> Result<Held, NoMemory>
        requires { 0 < pages }
    {
        let mut links = Vec::with_capacity(alloc, usize::from(REPOSITORIES))?;
        for _ in 0..REPOSITORIES {
            links.push(Link::Apart)?;
        }
        Ok(Held {
            alloc,
            client,
            links,
            cache: Copies::new(alloc, pages)?,
            names: GrantedNames::new(alloc),
            learnt: 0,
            floor: 0,
        })
    }

    /// The client's epoch: how many upgrades it counts as installed.
    pub fn epoch(&self, opened: &Opened) -> u32
        ensures { result ≡ max opened.now.epoch self.now.learnt }
    {
        if self.learnt < opened.epoch {
            return opened.epoch;
        }
        self.learnt
    }

    /// The session at a repository, as a call names it, where there is one.
    pub fn at(&self, repo: u8) -> Option<At>
        ensures { result ≡ session_in repo (slice_get self.now.links.items repo) }
    {
        match self.links.get(usize::from(repo)) {
            Some(link) => link.at(repo),
            None => None,
        }
    }

    /// How far messages of a repository were taken, where there is a session; else 0.
    pub fn upto(&self, repo: u8) -> u64
        ensures { result ≡ upto_in (slice_get self.now.links.items repo) }
    {
        match self.links.get(usize::from(repo)) {
            Some(link) => link.upto(),
            None => 0,
        }
    }

    /// The transaction of an Unknown item that a repository coordinates, if there is one.
    pub fn unsettled(&self, repo: u8) -> Option<Ts>
        ensures apart { result ≡ None → session_in repo (slice_get self.now.links.items repo) ≡ None → IsApart repo self.now }
        ensures none { IsApart repo self.now → result ≡ None }
    {
        match self.links.get(usize::from(repo)) {
            Some(link) => link.unsettled(),
            None => None,
        }
    }

    /// The repository of which a reply is outstanding. There is one at most.
    pub fn awaited(&self) -> Option<At>
        ensures none { result ≡ None → NoneAwaits 8 self.now.links.items }
        ensures session { IfSome result (λ at. InSession at self.now) }
    {
        for repo in 0..REPOSITORIES {
            if let Some(at) = self.awaited_at(repo) {
                return Some(at);
            }
        }
        None
    }

    /// The session at a repository, where a reply of it is outstanding.
    #[tactic(auto, using(crate::proofs::Sessions::in_session, crate::proofs::Sessions::none_in_session))]
    fn awaited_at(&self, repo: u8) -> Option<At>
        ensures none { result ≡ None → (l : Link) → slice_get self.now.links.items repo ≡ Some l → awaits_reply l ≡ false }
        ensures session { IfSome result (λ at. InSession at self.now) }
    {
        match self.links.get(usize::from(repo)) {
            Some(link) if link.awaits_reply() => link.at(repo),
            Some(_) | None => None,
        }
    }

    /// The repository with which the client has to catch up. There is one at most.
    pub fn behind(&self, opened: &Opened) -> Option<At>
        ensures none { result ≡ None → NoneIsBehind 8 (max opened.now.epoch self.now.learnt) self.now.links.items }
        ensures session { IfSome result (λ at. InSession at self.now) }
    {
        let epoch = self.epoch(opened);
        for repo in 0..REPOSITORIES {
            if let Some(at) = self.behind_at(repo, epoch) {
                return Some(at);
            }
        }
        None
    }

    /// The session at a repository, where a client of this epoch is behind it.
    #[tactic(auto, using(crate::proofs::Sessions::in_session, crate::proofs::Sessions::none_in_session))]
    fn behind_at(&self, repo: u8, epoch: u32) -> Option<At>
        ensures none { result ≡ None → (l : Link) → slice_get self.now.links.items repo ≡ Some l → is_behind epoch l ≡ false }
        ensures session { IfSome result (λ at. InSession at self.now) }
    {
        match self.links.get(usize::from(repo)) {
            Some(link) if link.is_behind(epoch) => link.at(repo),
            Some(_) | None => None,
        }
    }

    /// The first of some repositories where there is no session.
    pub fn first_apart(&self, repos: &Repos) -> Option<u8>
        ensures { IfSome result (λ repo. session_in repo (slice_get self.now.links.items repo) ≡ None) }
    {
        for repo in repos.as_slice() {
            if self.at(*repo).is_none() {
                return Some(*repo);
            }
        }
        None
    }

    /// The client waits for this in its session at a repository.
    pub fn wait(&mut self, repo: u8, waits: Waits)
        ensures links { self.new.links.items ≡ at_repo self.old.links.items repo (waiting waits) }
        ensures rest { self.new ≡ record self.old { links = self.new.links } }
    {
        if let Some(link) = self.links.get_mut(usize::from(repo)) {
            link.wait(waits);
        }
    }

    /// Nothing is waited for in the session with a repository, and in no other one for messages that had to be taken.
    pub fn stop_waiting(&mut self, repo: u8)
        ensures stops { StopsWaiting repo self.old self.new }
        ensures rest { self.new ≡ record self.old { links = self.new.links } }
    {
        self.stop_all();
        self.wait(repo, Waits::Idle);
    }

    /// Messages have to be taken in no session any more.
    fn stop_all(&mut self)
        ensures links { (n : ℕ) → slice_get self.new.links.items n ≡ option_map stopped (slice_get self.old.links.items n) }
        ensures rest { self.new ≡ record self.old { links = self.new.links } }
    {
        for place in 0..self.links.len() {
            self.stop_at(place);
        }
    }

    /// The same at a place.
    fn stop_at(&mut self, place: usize)
        ensures links { self.new.links.items ≡ at_repo self.old.links.items place stopped }
        ensures rest { self.new ≡ record self.old { links = self.new.links } }
    {
        if let Some(link) = self.links.get_mut(place) {
            link.stop();
        }
    }

    /// Sets how the client stands with a repository.
    pub fn set_link(&mut self, repo: u8, link: Link)
        ensures links { self.new.links.items ≡ at_repo self.old.links.items repo (λ l. link) }
        ensures rest { self.new ≡ record self.old { links = self.new.links } }
    {
        if let Some(place) = self.links.get_mut(usize::from(repo)) {
            drop(mem::replace(place, link));
        }
    }

    /// Takes how the client stood with a repository; it is apart then.
    pub fn take_link(&mut self, repo: u8) -> Link
        ensures taken { result ≡ link_in (slice_get self.old.links.items repo) }
        ensures links { self.new.links.items ≡ at_repo self.old.links.items repo (λ l. Apart) }
        ensures rest { self.new ≡ record self.old { links = self.new.links } }
        ensures bounds { KeepsBounds self.old self.new }
    {
        match self.links.get_mut(usize::from(repo)) {
            Some(place) => mem::replace(place, Link::Apart),
            None => Link::Apart,
        }
    }

    /// Drops the session, the copies and the names of a repository, and what was waited for there. A
    /// verdict that is still to be learnt there stays so.
    pub fn leave(&mut self, repo: u8)
        ensures leaves { LeavesSome self.old self.new }
        ensures parts { PartsSome self.old self.new }
        ensures none { (x : Oref) → x.repo ≡ repo → kept self.new.cache.cache x ≡ None }
        ensures fewer { AreAmong (kept self.old.cache.cache) (kept self.new.cache.cache) }
        ensures client { self.new.client ≡ self.old.client }
        ensures bounds { KeepsBounds self.old self.new }
    {
        if self.at(repo).is_some() {
            self.set_link(repo, Link::Apart);
        }
        self.drop_held(repo);
    }

    /// The copies and the names of a repository are dropped.
    fn drop_held(&mut self, repo: u8)
        ensures copies { (x : Oref) → kept self.new.cache.cache x ≡ cond (nat_eq x.repo repo) None (kept self.old.cache.cache x) }
        ensures wrote { (x : Oref) → changed self.new.cache.cache x ≡ cond (nat_eq x.repo repo) None (changed self.old.cache.cache x) }
        ensures links { self.new.links ≡ self.old.links }
        ensures floor { self.new.floor ≡ self.old.floor }
        ensures client { self.new.client ≡ self.old.client }
        ensures bounds { KeepsBounds self.old self.new }
    {
        self.cache.drop_repo(repo);
        self.names.drop_repo(repo);
    }

    /// A session is gone. What was held by it is dropped.
    pub fn lose(&mut self, repo: u8, session: u32)
        ensures links { self.new.links.items ≡ at_repo self.old.links.items repo (without_session session) }
        ensures floor { self.new.floor ≡ self.old.floor }
        ensures copies { CopiesLost session repo self.old.links.items self.old.cache.cache self.new.cache.cache }
        ensures written { (at : At) → IsWrittenIn at self.old → IsWrittenIn at self.new }
        ensures wrote { WrittenLost session repo self.old.links.items self.old.cache.cache self.new.cache.cache }
        ensures client { self.new.client ≡ self.old.client }
        ensures bounds { KeepsBounds self.old self.new }
    {
        if self.end_session(repo, session) {
            self.drop_held(repo);
        }
    }

    /// A session ends, where it is the one at a repository. It answers whether it is.
    fn end_session(&mut self, repo: u8, session: u32) -> bool
        ensures answer { result ≡ is_session_of session (slice_get self.old.links.items repo) }
        ensures links { self.new.links.items ≡ at_repo self.old.links.items repo (without_session session) }
        ensures rest { self.new ≡ record self.old { links = self.new.links } }
    {
        match self.links.get_mut(usize::from(repo)) {
            Some(link) => link.end_session(session),
            None => false,
        }
    }

    /// The time of a transaction that stands, or a bound that was told, is counted.
    pub fn raise_floor(&mut self, ts: Ts)
        ensures { self.new ≡ record self.old { floor = max self.old.floor ts.time } }
    {
        if self.floor < ts.time {
            self.floor = ts.time;
        }
    }

    /// The time above which the next transaction is drawn. A transaction whose verdict isn't learnt
    /// counts.
    pub fn floor(&self) -> u64
        ensures least { self.now.floor ≤ result }
        ensures unsettled { CountsUnsettled self.now.links.items result }
    {
        let mut floor = self.floor;
        for link in &self.links {
            let time = link.unsettled_time();
            if floor < time {
                floor = time;
            }
        }
        floor
    }

    /// An upgrade of this number is learnt to be installed, where it is among those of the store and the
    /// script. It answers whether the epoch rises.
    pub fn learn_epoch(&mut self, opened: &Opened, number: u32) -> bool
        ensures rest { self.new ≡ record self.old { learnt = self.new.learnt } }
        ensures rises { Rises self.old self.new }
    {
        if number <= self.epoch(opened) || number as usize > opened.schemas.upgraded.len() {
            return false;
        }
        self.learnt = number;
        true
    }

    /// The same where the number is that of the next epoch alone.
    pub fn learn_next_epoch(&mut self, opened: &Opened, number: u32) -> bool
        ensures rest { self.new ≡ record self.old { learnt = self.new.learnt } }
        ensures rises { Rises self.old self.new }
    {
        if number != self.epoch(opened).saturating_add(1) {
            return false;
        }
        self.learn_epoch(opened, number)
    }

    /// Whether an object is held.
    #[tactic(auto, using(crate::proofs::Holding::not_seen, crate::proofs::Holding::no_page))]
    pub fn holds(&self, oref: Oref) -> bool
        ensures { IsTrue (not result) → kept self.now.cache.cache oref ≡ None }
    {
        match self.cache.look(oref) {
            Looked::Here(_) => true,
            Looked::NoPage | Looked::NoSlot => false,
        }
    }

    /// A copy of an object as it stands, where it is held.
    pub fn copy_of(&self, oref: Oref) -> Result<Option<Obj>, NoMemory> {
        match self.cache.look(oref) {
            Looked::Here(obj) => Ok(Some(obj.copy()?)),
            Looked::NoPage | Looked::NoSlot => Ok(None),
        }
    }

    /// Puts a page's objects in the place of the copies of it. Bytes that are no page of objects bring
    /// nothing.
    pub fn place(&mut self, repo: u8, page: u32, bytes: &PageImage) -> Result<(), NoMemory>
        ensures kept { OnOk result (BringsPage repo page bytes.now self.old.cache.cache self.new.cache.cache) }
        ensures writes { WritesStay self.old.cache.cache self.new.cache.cache }
        ensures rest { self.new ≡ record self.old { cache = self.new.cache } }
    {
        self.cache.place(page, repo, bytes)?;
        Ok(())
    }

    /// Keeps an object as it was made by a transform. What a try has changed is given up.
    pub fn keep_made(&mut self, oref: Oref, made: Obj) -> Result<(), NoMemory>
        ensures rest { self.new ≡ record self.old { cache = self.new.cache } }
        ensures keeps { OnOk result (KeepsMade oref made self.old self.new) }
    {
        self.cache.undo();
        self.note_made(oref, made)?;
        self.cache.settle();
        Ok(())
    }

    /// Notes an object as it was made, where it is named by a slot of a page; else its repository's copies are dropped.
    #[tactic(auto, using(crate::proofs::Keeping::made_seen, crate::proofs::Keeping::others_seen))]
    fn note_made(&mut self, oref: Oref, made: Obj) -> Result<(), NoMemory>
        ensures rest { self.new ≡ record self.old { cache = self.new.cache } }
        ensures notes { OnOk result (((x : Oref) → changed self.old.cache.cache x ≡ None) → AreAmong (λ x. cond (same_name oref x) (Some made) (kept self.old.cache.cache x)) (seen self.new.cache.cache)) }
    {
        if oref.slot < SLOTS {
            return self.cache.write(oref, made);
        }
        self.cache.drop_repo(oref.repo);
        Ok(())
    }

    /// What a try has changed is given up.
    pub fn undo(&mut self)
        ensures copies { CopiesStay self.old.cache.cache self.new.cache.cache }
        ensures none { (x : Oref) → changed self.new.cache.cache x ≡ None }
        ensures links { self.new.links ≡ self.old.links }
        ensures less { HoldsLess self.old self.new }
        ensures bounds { KeepsBounds self.old self.new }
    {
        self.cache.undo();
        self.names.reset();
    }

    /// What a try has changed is given up, and the try has ended.
    pub fn give_up(&mut self)
        ensures none { (x : Oref) → changed self.new.cache.cache x ≡ None }
        ensures links { self.new.links ≡ self.old.links }
        ensures less { HoldsLess self.old self.new }
        ensures bounds { KeepsBounds self.old self.new }
    {
        self.undo();
        self.cache.evict();
    }

    /// What a try has changed is kept, and the try has ended.
    pub fn keep(&mut self)
        ensures links { self.new.links ≡ self.old.links }
        ensures keeps { KeepsTry self.old self.new }
        ensures bounds { KeepsBounds self.old self.new }
    {
        self.cache.settle();
        self.cache.evict();
    }
}
