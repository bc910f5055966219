//! Sessions are told of commits.

ghost use Rattle.std.specs.Prelude.{◌++◌, ◌≡◌, IfOk, OnOk, map};
ghost use Rattle.std.specs.List.Sorted.{IsStrictlySortedBy};
ghost use Rattle.std.specs.Map.{keys_of};
ghost use Rattle.std.specs.Ordering.{nat_cmp};
ghost use Rattle.cached_sets.specs.Sets.{note as with_note, told_of};
ghost use Rattle.repo_sessions.specs.Noting.{AreNoted, if_silent, named, names_sent, noted, noted_all, upgrade_sent};
ghost use Rattle.repo_sessions.specs.Sessions.{KeepsNumbers, Kept};
ghost use Rattle.repo_sessions.specs.Telling.{Retires, UpgradeTold, WritesTold};
ghost use Rattle.thor_value.specs.FiniteMap.{empty};

use crate::sessions::Sessions;
use cached_sets::{Marked, Sets};
use session_outbox::{Message, Outbox};
use std::alloc::Global;
use std::collections::BTreeMap;
use thor_value::{NoMemory, Oref, Orefs, Text, TryCopy, Writes};

impl Sessions {
    /// A session has written objects, in the commit at a place: they come into the invalid set of each other
    /// session whose client may have copies of them, and each of these is sent their names. One whose client hasn't
    /// acknowledged more than 4,096 places of such news is given up. After `NoMemory` some of them may have been told.
    ///
    /// It takes time for each such session and object, and none for the other sessions; and what a session has once, as
    /// it is given up.
    pub fn tell_writes(&mut self, writer: u32, writes: &Writes, place: u64) -> Result<(), NoMemory>
        ensures numbers { KeepsNumbers self.old self.new }
        ensures news { OnOk result ((told : Kept) × WritesTold self.old told writer (keys_of writes.now) place × Retires self.old told self.new) }
    {
        let marks = self.sets.touch_marking(writer, writes, place)?;
        let holders = gathered(self.alloc, marks.as_slice())?;
        self.sets.holders_are_apart();
        let silent = note_all(self.alloc, &mut self.sets, &holders, place)?;
        send_names(&mut self.outbox, holders, place)?;
        self.retire_all(silent)
    }

    /// An upgrade has committed at a place: every live session is told. One whose client hasn't acknowledged more than
    /// 4,096 places of news is given up. After `NoMemory` some of them may have been told.
    pub fn tell_upgrade(&mut self, number: u32, text: &Text, place: u64) -> Result<(), NoMemory>
        ensures numbers { KeepsNumbers self.old self.new }
        ensures news { OnOk result ((told : Kept) × UpgradeTold self.old told number text.now place × Retires self.old told self.new) }
    {
        let silent = note_all(self.alloc, &mut self.sets, &self.clients, place)?;
        send_upgrade(&mut self.outbox, &self.clients, number, text, place)?;
        self.retire_all(silent)
    }
}

/// Notes a place of some sessions. The answer are those that have more places than they may then.
#[tactic(auto, using(std::proofs::Common::append_assoc, crate::proofs::Noted::none_more))]
fn note_all<V>(
    alloc: Global,
    sets: &mut Sets,
    sessions: &BTreeMap<u32, V>,
    place: u64,
) -> Result<Vec<u32>, NoMemory>
    ensures { IfOk result (λ silent. AreNoted sets.old sets.new (keys_of sessions.now.entries) place silent.items) }
{
    let mut silent = Vec::new(alloc);
    for session in sessions.keys() {
        note_place(sets, *session, place, &mut silent)?;
    }
    Ok(silent)
}

/// Notes a place of a session, and puts it behind the silent ones where it has more places than it may then.
#[tactic(auto, using(crate::proofs::Noted::none_more))]
fn note_place(
    sets: &mut Sets,
    session: u32,
    place: u64,
    silent: &mut Vec<u32>,
) -> Result<(), NoMemory>
    ensures sets { OnOk result (sets.new ≡ with_note sets.old session place) }
    ensures silent { OnOk result (silent.new.items ≡ silent.old.items ++ if_silent sets.new.noted session) }
{
    if sets.note(session, place)? {
        silent.push(session)?;
    }
    Ok(())
}

/// Sends sessions the names of what was written.
fn send_names(
    outbox: &mut Outbox,
    holders: BTreeMap<u32, Orefs>,
    place: u64,
) -> Result<(), NoMemory>
    ensures { OnOk result (outbox.new ≡ names_sent outbox.old holders.entries place) }
{
    for (session, orefs) in holders {
        outbox.push(session, Message::Invalid { orefs, place })?;
    }
    Ok(())
}

/// Sends sessions an upgrade.
fn send_upgrade(
    outbox: &mut Outbox,
    sessions: &BTreeMap<u32, u8>,
    number: u32,
    text: &Text,
    place: u64,
) -> Result<(), NoMemory>
    ensures order { IsStrictlySortedBy nat_cmp (keys_of sessions.now.entries) }
    ensures sent { OnOk result (outbox.new ≡ upgrade_sent outbox.old sessions.now.entries number text.now place) }
{
    for (session, _) in sessions.iter() {
        let message = Message::Upgrade {
            number,
            text: text.copy()?,
            place,
        };
        outbox.push(*session, message)?;
    }
    Ok(())
}

/// The sessions of some marks, each with the names of its marks.
fn gathered(alloc: Global, marks: &[Marked]) -> Result<BTreeMap<u32, Orefs>, NoMemory>
    ensures { IfOk result (λ held. named held.entries ≡ noted_all empty (map told_of marks.now)) }
{
    let mut holders = BTreeMap::new(alloc);
    for mark in marks {
        note(alloc, &mut holders, mark.session, mark.oref)?;
    }
    Ok(holders)
}

/// Puts a name behind those of a session.
fn note(
    alloc: Global,
    holders: &mut BTreeMap<u32, Orefs>,
    session: u32,
    oref: Oref,
) -> Result<(), NoMemory>
    ensures { OnOk result (named holders.new.entries ≡ noted (named holders.old.entries) session oref) }
{
    if let Some(orefs) = holders.get_mut(&session) {
        return orefs.push(oref);
    }
    let mut orefs = Orefs::new(alloc);
    orefs.push(oref)?;
    holders.insert(session, orefs)?;
    Ok(())
}
