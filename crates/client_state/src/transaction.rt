//! A transaction that a try has made, and what is sent of it.

ghost use Rattle.client_items.specs.declared.meaning.Meaning.TheVariants as meanings;
ghost use Rattle.client_state.specs.Owing.{count_of};
ghost use Rattle.client_state.specs.Participants.{first_in, others_in, sent_of};
ghost use Rattle.client_state.specs.Reading.{share_reads, shares_have_read};
ghost use Rattle.client_state.specs.Sending.{AreApart, CarriesSessions, IsDrawnAt, IsFirstOfItsOwn, carried, carried_at};
ghost use Rattle.client_state.specs.Writing.{FirstOf, NoneOf, is_of, new_share, read_more_at, shares_write, with_read, with_write, written_at};
ghost use Rattle.paused_eval.specs.Copies.{last_of};
ghost use Rattle.std.specs.List.{list_all, list_any};
ghost use Rattle.std.specs.Ordering.{eq_by_cmp};
ghost use Rattle.std.specs.Prelude.{IfOk, IsTrue, MatchOption, None, OnOk, Some, [], cond, length, nat_eq, slice_get, ◌++◌, ◌-◌, ◌∷◌, ◌≡◌, ◌≤◌};
ghost use Rattle.thor_value.specs.Names.{oref_cmp, same_oref};
ghost use Rattle.thor_value.specs.declared.names.Oref.{Oref};

use crate::link::Link;
use client_items::Meaning;
use session_outbox::At;
use std::alloc::Global;
use thor_value::{Answer, NoMemory, Obj, Oref, OrefSet, Orefs, Repos, Sequence, Text, Ts, Writes};

/// What one participant is sent of a transaction.
#[derive(Drop)]
pub struct Share {
    pub repo: u8,
    /// The session there, and how far its messages were taken, as the transaction was drawn.
    pub session: u32,
    pub upto: u64,
    /// The objects there that it read or created, rising.
    pub ros: Orefs,
    /// The objects there that it wrote or created, rising.
    pub writes: Writes,
}

/// A transaction that a try has made.
#[derive(Drop)]
pub struct Transaction {
    pub meaning: Meaning,
    /// The epoch that its requests carry.
    pub epoch: u32,
    /// The names of the objects that it created, in the order in which it made them.
    pub fresh: Orefs,
    /// The participants, rising. The first one coordinates.
    pub participants: Repos,
    /// What is still to be sent, by participants rising.
    pub shares: Vec<Share>,
}

/// A transaction that was sent to be decided.
#[derive(Drop)]
pub struct Sent {
    pub ts: Ts,
    /// The session in which it was.
    pub at: At,
    pub meaning: Meaning,
    /// The participants, rising. The first one coordinates.
    pub participants: Repos,
}

impl Share {
    /// Nothing is sent yet.
    fn of(repo: u8, ros: Orefs, writes: Writes) -> Share
        ensures { result ≡ record { repo = repo; session = 0; upto = 0; ros = ros; writes = writes } }
    {
        Share {
            repo,
            session: 0,
            upto: 0,
            ros,
            writes,
        }
    }

    /// The session, as a call names it.
    pub fn at(&self) -> At
        ensures { result ≡ record { repo = self.now.repo; session = self.now.session } }
    {
        At {
            repo: self.repo,
            session: self.session,
        }
    }

    /// It carries the session that there is at its repository.
    fn carry(&mut self, links: &[Link])
        ensures { self.new ≡ carried links.now self.old }
    {
        match links.get(usize::from(self.repo)) {
            Some(Link::Joined { session, upto, .. }) => {
                self.session = *session;
                self.upto = *upto;
            }
            Some(Link::Apart | Link::Unsettled { .. }) | None => {}
        }
    }

    /// It reads one more object.
    fn read(&mut self, oref: Oref) -> Result<(), NoMemory>
        ensures { OnOk result (self.new ≡ with_read self.old oref) }
    {
        self.ros.push(oref)
    }

    /// It writes one more object.
    fn write(&mut self, oref: Oref, obj: Obj) -> Result<(), NoMemory>
        ensures { OnOk result (self.new ≡ with_write self.old oref obj) }
    {
        self.writes.push((oref, obj))
    }

    /// Whether it reads an object.
    fn reads(&self, oref: Oref) -> bool
        ensures { result ≡ share_reads oref self.now }
    {
        self.repo == oref.repo && self.has_read(oref)
    }

    /// Whether an object is among those that it reads.
    fn has_read(&self, oref: Oref) -> bool
        ensures { result ≡ list_any (same_oref oref) self.now.ros }
    {
        self.ros.as_slice().iter().any(|read| oref == *read)
    }
}

impl Transaction {
    /// The upgrade of a number, in which all repositories take part. It writes nothing.
    pub fn upgrade(number: u32, text: Text, repos: u8) -> Result<Transaction, NoMemory>
        ensures writes { IfOk result (λ made. (x : Oref) → shares_write made.shares.items x ≡ None) }
        ensures made { IfOk result (λ made. (made.meaning ≡ meanings.Upgrade number text) × (made.epoch ≡ number - 1) × (made.fresh ≡ [])) }
    {
        let alloc = text.allocator();
        let mut participants = Sequence::new(alloc);
        let mut shares = Vec::new(alloc);
        for repo in 0..repos {
            participants.push(repo)?;
            push_share(&mut shares, repo)?;
        }
        Ok(Transaction {
            meaning: Meaning::Upgrade { number, text },
            epoch: number.saturating_sub(1),
            fresh: Orefs::new(alloc),
            participants,
            shares,
        })
    }

    /// What an evaluation has made: names that were read, rising, and objects that were written, rising.
    pub fn evaluated(
        answer: Answer,
        epoch: u32,
        reads: Orefs,
        writes: Writes,
        fresh: Orefs,
    ) -> Result<Transaction, NoMemory>
        ensures writes { IfOk result (λ made. (x : Oref) → shares_write made.shares.items x ≡ last_of writes x) }
        ensures made { IfOk result (λ made. (made.meaning ≡ meanings.Ran answer) × (made.epoch ≡ epoch) × (made.fresh ≡ fresh)) }
    {
        let ros = read_or_created(reads, &fresh)?;
        let shares = shares_of(&ros, writes)?;
        let participants = repos_of(fresh.allocator(), shares.as_slice())?;
        Ok(Transaction {
            meaning: Meaning::Ran(answer),
            epoch,
            fresh,
            participants,
            shares,
        })
    }

    /// Whether it reads an object at a participant to which it isn't sent yet.
    pub fn reads_unsent(&self, oref: Oref) -> bool
        ensures { result ≡ shares_have_read self.now.shares.items oref }
    {
        self.shares.as_slice().iter().any(|share| share.reads(oref))
    }

    /// The repository that decides.
    pub fn coordinator(&self) -> u8
        ensures { result ≡ first_in self.now.participants }
    {
        first_of(&self.participants)
    }

    /// What is sent carries the sessions that there are at the participants.
    pub fn carry_sessions(&mut self, links: &[Link])
        ensures rest { self.new ≡ record self.old { shares = self.new.shares } }
        ensures carries { CarriesSessions links.now self.old.shares.items self.new.shares.items }
    {
        for place in 0..self.shares.len() {
            carry_session(&mut self.shares, place, links);
        }
    }

    /// Takes what is to be sent next.
    #[tactic(auto, using(crate::proofs::Carrying::first_share))]
    pub fn next_share(&mut self) -> Option<Share>
        ensures none { result ≡ None → self.new ≡ self.old }
        ensures first { MatchOption result (self.old.shares.items ≡ []) (λ share. self.old.shares.items ≡ share ∷ self.new.shares.items) }
        ensures rest { self.new ≡ record self.old { shares = self.new.shares } }
    {
        if self.shares.len() == 0 {
            return None;
        }
        Some(self.shares.remove(0))
    }

    /// The other participants than one, rising.
    pub fn others(&self, repo: u8) -> Result<Repos, NoMemory>
        ensures { IfOk result (λ others. others ≡ others_in self.now.participants repo) }
    {
        others_of(&self.participants, repo)
    }

    /// Whether all participants have prepared it: the coordinator, and behind it these in their order.
    #[tactic(auto, using(crate::proofs::Handing::all_prepared))]
    pub fn is_prepared_by(&self, coordinator: u8, others: &Repos) -> bool
        ensures { IsTrue result → self.now.participants ≡ coordinator ∷ others.now }
    {
        match self.participants.as_slice().split_first() {
            Some((first, behind)) => {
                if *first != coordinator {
                    return false;
                }
                behind == others.as_slice()
            }
            None => false,
        }
    }

    /// Whether its timestamp is of the participant that decides, to which its first share goes, and each of its shares goes to a
    /// participant.
    pub fn is_drawn_at(&self, ts: Ts) -> bool
        ensures { IsTrue result → IsDrawnAt ts self.now }
    {
        if self.coordinator() != ts.repo {
            return false;
        }
        if !is_share_of(self.shares.as_slice(), 0, ts.repo) {
            return false;
        }
        self.goes_to_participants()
    }

    /// Whether no two of the shares that are left are of one repository.
    pub fn has_shares_apart(&self) -> bool
        ensures { IsTrue result → AreApart self.now.shares.items }
    {
        are_apart(self.shares.as_slice())
    }

    /// Whether each share that is left goes to a participant.
    fn goes_to_participants(&self) -> bool
        ensures { result ≡ list_all (λ s. list_any (nat_eq s.repo) self.now.participants) self.now.shares.items }
    {
        self.shares
            .as_slice()
            .iter()
            .all(|share| self.takes_part(share.repo))
    }

    /// Whether a repository takes part.
    fn takes_part(&self, repo: u8) -> bool
        ensures { result ≡ list_any (nat_eq repo) self.now.participants }
    {
        self.participants
            .as_slice()
            .iter()
            .any(|participant| repo == *participant)
    }

    /// It is sent in a session to be decided under its name.
    pub fn sent(self, ts: Ts, at: At) -> Sent
        ensures ts { result.ts ≡ ts }
        ensures at { result.at ≡ at }
        ensures all { result ≡ sent_of ts at self }
    {
        let Transaction {
            meaning,
            participants,
            ..
        } = self;
        Sent {
            ts,
            at,
            meaning,
            participants,
        }
    }
}

impl Sent {
    /// The repository that decides.
    pub fn coordinator(&self) -> u8
        ensures { result ≡ first_in self.now.participants }
    {
        first_of(&self.participants)
    }

    /// The participants other than the coordinator, rising.
    #[tactic(auto, using(crate::proofs::Owing::counts_less))]
    pub fn others(&self) -> Result<Repos, NoMemory>
        ensures calls { IfOk result (λ others. count_of others ≤ count_of self.now.participants) }
        ensures all { IfOk result (λ others. others ≡ others_in self.now.participants (first_in self.now.participants)) }
    {
        others_of(&self.participants, self.coordinator())
    }
}

/// The share at a place carries the session that there is at its repository.
fn carry_session(shares: &mut Vec<Share>, place: usize, links: &[Link])
    ensures { shares.new.items ≡ carried_at links.now place shares.old.items }
{
    if let Some(share) = shares.get_mut(place) {
        share.carry(links);
    }
}

/// The first of the participants; repository 0 where none is named.
fn first_of(participants: &Repos) -> u8
    ensures { result ≡ first_in participants.now }
{
    match participants.get(0) {
        Some(repo) => *repo,
        None => 0,
    }
}

/// The repositories of some shares, in their order.
fn repos_of(alloc: Global, shares: &[Share]) -> Result<Repos, NoMemory> {
    let mut repos = Sequence::new(alloc);
    for share in shares {
        repos.push(share.repo)?;
    }
    Ok(repos)
}

/// The participants other than one.
fn others_of(participants: &Repos, repo: u8) -> Result<Repos, NoMemory>
    ensures count { IfOk result (λ others. length others ≤ length participants.now) }
    ensures all { IfOk result (λ others. others ≡ others_in participants.now repo) }
{
    let mut others = Sequence::new(participants.allocator());
    for other in participants.as_slice() {
        if *other != repo {
            others.push(*other)?;
        }
    }
    Ok(others)
}

/// All objects that were read or created, rising.
fn read_or_created(reads: Orefs, fresh: &Orefs) -> Result<Orefs, NoMemory> {
    if fresh.is_empty() {
        return Ok(reads);
    }
    let alloc = reads.allocator();
    let mut names = OrefSet::new(alloc);
    for oref in reads.as_slice() {
        names.insert(*oref)?;
    }
    for oref in fresh.as_slice() {
        names.insert(*oref)?;
    }
    Ok(names.into_names())
}

/// Parts what was read or created, and what was written, by repositories. Where nothing was, repository 0
/// alone takes part.
#[tactic(auto, using(crate::proofs::Sharing::keeps_up))]
fn shares_of(ros: &Orefs, writes: Writes) -> Result<Vec<Share>, NoMemory>
    ensures { IfOk result (λ shares. (x : Oref) → shares_write shares.items x ≡ last_of writes x) }
{
    let mut shares = shares_read(ros)?;
    for (oref, obj) in writes.into_vec() {
        push_write(&mut shares, oref, obj)?;
    }
    with_one(shares)
}

/// The shares of what was read or created.
fn shares_read(ros: &Orefs) -> Result<Vec<Share>, NoMemory>
    ensures { IfOk result (λ shares. (x : Oref) → shares_write shares.items x ≡ None) }
{
    let mut shares = Vec::new(ros.allocator());
    for oref in ros.as_slice() {
        push_read(&mut shares, *oref)?;
    }
    Ok(shares)
}

/// Where there are none, repository 0 takes part.
fn with_one(mut shares: Vec<Share>) -> Result<Vec<Share>, NoMemory>
    ensures { IfOk result (λ made. (x : Oref) → shares_write made.items x ≡ shares_write shares.items x) }
{
    if shares.is_empty() {
        push_share(&mut shares, 0)?;
    }
    Ok(shares)
}

/// A share comes behind the others that reads and writes nothing yet.
#[tactic(auto, using(crate::proofs::Sharing::pushed_writes))]
fn push_share(shares: &mut Vec<Share>, repo: u8) -> Result<(), NoMemory>
    ensures shares { OnOk result (shares.new.items ≡ shares.old.items ++ new_share repo ∷ []) }
    ensures writes { OnOk result ((x : Oref) → shares_write shares.new.items x ≡ shares_write shares.old.items x) }
{
    let alloc = *shares.allocator();
    shares.push(Share::of(repo, Orefs::new(alloc), Writes::new(alloc)))?;
    Ok(())
}

/// Whether the share at a place is the repository's.
fn is_share_of(shares: &[Share], place: usize, repo: u8) -> bool
    ensures { result ≡ is_of repo (slice_get shares.now place) }
{
    match shares.get(place) {
        Some(share) => share.repo == repo,
        None => false,
    }
}

/// Whether no two of some shares are of one repository.
#[tactic(auto, using(crate::proofs::Parting::one_more_first, crate::proofs::Parting::first_each))]
fn are_apart(shares: &[Share]) -> bool
    ensures { IsTrue result → AreApart shares.now }
{
    for place in 0..shares.len() {
        if !is_first_of_its_own(shares, place) {
            return false;
        }
    }
    true
}

/// Whether the share at a place, where there is one, is the first of its repository.
fn is_first_of_its_own(shares: &[Share], place: usize) -> bool
    ensures { IsTrue result → IsFirstOfItsOwn place shares.now (slice_get shares.now place) }
{
    match shares.get(place) {
        Some(share) => is_found_at(shares, place, share.repo),
        None => true,
    }
}

/// Whether the first share of a repository stands at a place.
fn is_found_at(shares: &[Share], place: usize, repo: u8) -> bool
    ensures { IsTrue result → FirstOf repo place shares.now }
{
    match found_place(shares, repo) {
        Some(found) => found == place,
        None => false,
    }
}

/// The place of the first share of a repository, where it has one.
#[tactic(auto, using(crate::proofs::Sharing::one_fewer_left, crate::proofs::Sharing::none_at_end))]
fn found_place(shares: &[Share], repo: u8) -> Option<usize>
    ensures { MatchOption result (NoneOf repo shares.now) (λ place. FirstOf repo place shares.now) }
{
    for place in 0..shares.len() {
        if is_share_of(shares, place, repo) {
            return Some(place);
        }
    }
    None
}

/// The share at a place writes one more object.
fn write_at(shares: &mut Vec<Share>, place: usize, oref: Oref, obj: Obj) -> Result<(), NoMemory>
    ensures { OnOk result (shares.new.items ≡ written_at place oref obj shares.old.items) }
{
    match shares.get_mut(place) {
        Some(share) => share.write(oref, obj),
        None => Ok(()),
    }
}

/// The place of a repository's share. Where it has none yet, one comes behind the others.
#[tactic(auto, using(crate::proofs::Sharing::pushed_first))]
fn place_of(shares: &mut Vec<Share>, repo: u8) -> Result<usize, NoMemory>
    ensures first { IfOk result (λ place. FirstOf repo place shares.new.items) }
    ensures writes { OnOk result ((x : Oref) → shares_write shares.new.items x ≡ shares_write shares.old.items x) }
{
    match found_place(shares.as_slice(), repo) {
        Some(place) => Ok(place),
        None => {
            let place = shares.len();
            push_share(shares, repo)?;
            Ok(place)
        }
    }
}

/// The share at a place reads one more object.
fn read_at(shares: &mut Vec<Share>, place: usize, oref: Oref) -> Result<(), NoMemory>
    ensures { OnOk result (shares.new.items ≡ read_more_at place oref shares.old.items) }
{
    match shares.get_mut(place) {
        Some(share) => share.read(oref),
        None => Ok(()),
    }
}

fn push_read(shares: &mut Vec<Share>, oref: Oref) -> Result<(), NoMemory>
    ensures { OnOk result ((x : Oref) → shares_write shares.new.items x ≡ shares_write shares.old.items x) }
{
    let place = place_of(shares, oref.repo)?;
    read_at(shares, place, oref)
}

fn push_write(shares: &mut Vec<Share>, oref: Oref, obj: Obj) -> Result<(), NoMemory>
    ensures { OnOk result ((x : Oref) → shares_write shares.new.items x ≡ cond (eq_by_cmp oref_cmp x oref) (Some obj) (shares_write shares.old.items x)) }
{
    let place = place_of(shares, oref.repo)?;
    write_at(shares, place, oref, obj)
}
