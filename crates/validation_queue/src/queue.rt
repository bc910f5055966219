ghost use Rattle.std.specs.Prelude.{◌≡◌, ◌<◌, ◌≤◌, OnOk, OnErr, false, is_none};
ghost use Rattle.thor_value.specs.FiniteMap.{has, len};
ghost use Rattle.validation_queue.specs.Names.{IsInOrder, Rises};
ghost use Rattle.std.specs.Map.{keys_of};
ghost use Rattle.validation_queue.specs.Clashes.{answer, bar, clash, comes_earlier, comes_later, first_some, full};
ghost use Rattle.validation_queue.specs.Contents.{cleared, decide, enter, first_blocking, first_undecided, leaving, room_for, transaction, with_one};

use crate::clashes::{
    first_blocking, first_decided, first_earlier, first_later, first_undecided, greatest, is_before,
};
use crate::members::{Members, is_behind_all, member_of, raised, replace, stay_decided};
use base_reasons::Reason;
use std::alloc::Global;
use std::collections::BTreeMap;
use std::marker::Model;
use thor_value::{NoMemory, Obj, Oref, Orefs, Ts, Writes};

/// How many transactions a queue has room for.
const LIMIT: u32 = 1_024;

/// The transactions against which a repository validates a request (Adya and others, SIGMOD 1995):
/// the undecided ones, and those of the committed ones that fit. The threshold isn't below those
/// that have left.
pub struct Queue {
    threshold: Ts,
    members: Members,
    /// Where `true`, no transaction in the queue is undecided.
    all_decided: bool,
    alloc: Global,
}

impl Drop for Queue {
    fn drop(self) {
        let Queue {
            threshold,
            members,
            all_decided,
            alloc,
        } = self;
        let _ = threshold;
        drop(members);
        let _ = all_decided;
        let _ = alloc;
    }
}

impl Model for Queue {
    ghost use Rattle.validation_queue.specs.Contents.{Contents, IsKept, members_of};

    ghost Value = { Contents };

    ghost view = { λ q. record { threshold = q.threshold; members = members_of q.members } };

    ghost invariant = { λ q. IsKept q.all_decided q.members.entries };
}

impl Queue {
    /// The queue with this threshold and no transaction. It takes no memory.
    pub fn new(alloc: Global, threshold: Ts) -> Result<Queue, NoMemory>
        ensures { result ≡ Ok (cleared threshold) }
    {
        Ok(Queue {
            threshold,
            members: BTreeMap::new(alloc),
            all_decided: true,
            alloc,
        })
    }

    /// The timestamp that every transaction has to be above.
    pub fn threshold(&self) -> Ts
        ensures { result ≡ self.now.threshold }
    {
        self.threshold
    }

    /// Whether the transaction is in the queue.
    pub fn has(&self, tx: Ts) -> bool
        ensures { result ≡ has self.now.members tx }
    {
        self.members.contains_key(&tx)
    }

    /// How many transactions are in the queue: at most 1,024.
    pub fn len(&self) -> usize
        ensures value { result ≡ len self.now.members }
        ensures within { len self.now.members ≤ room_for }
    {
        self.members.len()
    }

    /// The least undecided transaction.
    pub fn undecided(&self) -> Option<Ts>
        ensures { result ≡ first_undecided self.now }
    {
        first_undecided(&self.members)
    }

    /// The least transaction that has to be decided before a request can be accepted: an undecided
    /// upgrade, and for an upgrade's request any undecided transaction.
    #[tactic(auto, using(crate::proofs::Decided::none_blocking))]
    pub fn blocking(&self, upgrade: bool) -> Option<Ts>
        ensures { result ≡ first_blocking self.now upgrade }
    {
        if self.all_decided {
            return None;
        }
        first_blocking(&self.members, upgrade)
    }

    /// Whether the request of a transaction can be accepted beside those in the queue, and what stands
    /// against it where it can't: `TooOld`, `Earlier`, `Later` or `Full`, the first of these that holds,
    /// each with the least transaction and then the least name.
    ///
    /// It looks at the transactions in the queue alone, of which there are at most 1,024, and takes no
    /// memory. Where all of them are decided and the transaction is above them, it looks at one.
    pub fn validate(
        &self,
        tx: Ts,
        upgrade: bool,
        ros: &Orefs,
        writes: &Writes,
    ) -> Result<(), Reason>
        requires { IsInOrder ros.now (keys_of writes.now) }
        ensures { result ≡ answer (clash self.now (transaction tx upgrade ros.now writes.now)) }
    {
        let threshold = self.bar(upgrade);
        if !is_before(threshold, tx) {
            return Err(Reason::TooOld { threshold });
        }
        if let Some(clash) = self.earlier(tx, ros.as_slice()) {
            return Err(clash);
        }
        if let Some(clash) = self.later(tx, ros.as_slice(), writes.as_slice()) {
            return Err(clash);
        }
        if self.has_room() {
            Ok(())
        } else {
            Err(Reason::Full { limit: LIMIT })
        }
    }

    /// The clash with the least undecided transaction that is earlier.
    #[tactic(auto, using(crate::proofs::Decided::none_earlier))]
    fn earlier(&self, tx: Ts, ros: &[Oref]) -> Option<Reason>
        requires { Rises ros.now }
        ensures { result ≡ first_some (comes_earlier tx ros.now) self.now.members.pairs }
    {
        if self.all_decided {
            return None;
        }
        first_earlier(&self.members, tx, ros)
    }

    /// The clash with the least transaction that is later.
    #[tactic(auto, using(crate::proofs::Behind::none_later))]
    fn later(&self, tx: Ts, ros: &[Oref], writes: &[(Oref, Obj)]) -> Option<Reason>
        requires { IsInOrder ros.now (keys_of writes.now) }
        ensures { result ≡ first_some (comes_later tx ros.now (keys_of writes.now)) self.now.members.pairs }
    {
        if is_behind_all(&self.members, tx) {
            return None;
        }
        first_later(&self.members, tx, ros, writes)
    }

    /// Puts a transaction that was found to be acceptable into the queue. Where there is no room, the
    /// decided transaction with the least timestamp leaves, and the threshold rises to it. After
    /// `NoMemory` the queue is as it was.
    pub fn add(
        &mut self,
        tx: Ts,
        upgrade: bool,
        ros: &Orefs,
        writes: &Writes,
        decided: bool,
    ) -> Result<(), NoMemory>
        requires in_order { IsInOrder ros.now (keys_of writes.now) }
        requires accepted { clash self.old (transaction tx upgrade ros.now writes.now) ≡ None }
        requires new { has self.old.members tx ≡ false }
        ensures ok { OnOk result (self.new ≡ enter self.old (transaction tx upgrade ros.now writes.now) decided) }
        ensures err { OnErr result (self.new ≡ self.old) }
        ensures within { len self.new.members ≤ room_for }
    {
        let leaving = self.leaving();
        let member = member_of(
            self.alloc,
            upgrade,
            ros.as_slice(),
            writes.as_slice(),
            decided,
        )?;
        replace(&mut self.members, leaving, tx, member)?;
        self.threshold = raised(self.threshold, leaving);
        self.all_decided = stay_decided(self.all_decided, decided);
        Ok(())
    }

    /// Puts an undecided transaction into the queue without validating it, as a restart does with those
    /// that it finds prepared. After `NoMemory` the queue is as it was.
    pub fn load(
        &mut self,
        tx: Ts,
        upgrade: bool,
        ros: &Orefs,
        writes: &Writes,
    ) -> Result<(), NoMemory>
        requires in_order { IsInOrder ros.now (keys_of writes.now) }
        requires new { has self.old.members tx ≡ false }
        requires room { len self.old.members < room_for }
        ensures ok { OnOk result (self.new ≡ with_one self.old (transaction tx upgrade ros.now writes.now) false) }
        ensures err { OnErr result (self.new ≡ self.old) }
    {
        let member = member_of(
            self.alloc,
            upgrade,
            ros.as_slice(),
            writes.as_slice(),
            false,
        )?;
        self.all_decided = false;
        replace(&mut self.members, None, tx, member)
    }

    /// A transaction in the queue has committed, or was aborted and leaves. Another's decision changes
    /// nothing. It takes no memory.
    pub fn decide(&mut self, tx: Ts, commit: bool)
        ensures { self.new ≡ decide self.old tx commit }
    {
        self.settle(tx, commit);
        self.look_for_undecided();
    }

    /// Does so, and doesn't look whether others are undecided.
    fn settle(&mut self, tx: Ts, commit: bool)
        ensures { self.new ≡ decide self.old tx commit }
    {
        self.all_decided = false;
        if commit {
            if let Some(member) = self.members.get_mut(&tx) {
                member.decided = true;
            }
        } else {
            self.members.remove(&tx);
        }
    }

    /// Looks whether a transaction is undecided.
    fn look_for_undecided(&mut self)
        ensures { self.new ≡ self.old }
    {
        self.all_decided = first_undecided(&self.members).is_none();
    }

    /// Takes all transactions out: the threshold stands for them, as after the commit of an upgrade. It
    /// takes no memory.
    pub fn clear(&mut self, threshold: Ts)
        ensures { self.new ≡ cleared threshold }
    {
        self.members.clear();
        self.all_decided = true;
        self.threshold = threshold;
    }

    /// The timestamp that a request has to be above.
    fn bar(&self, upgrade: bool) -> Ts
        ensures { result ≡ bar self.now upgrade }
    {
        if upgrade {
            greatest(&self.members, self.threshold)
        } else {
            self.threshold
        }
    }

    /// Whether one more can come in, by itself or for a decided one.
    fn has_room(&self) -> bool
        ensures { result ≡ is_none (full self.now) }
    {
        self.members.len() < LIMIT as usize || first_decided(&self.members).is_some()
    }

    /// The transaction that leaves where one more comes in.
    fn leaving(&self) -> Option<Ts>
        ensures { result ≡ leaving self.now }
    {
        if self.members.len() < LIMIT as usize {
            None
        } else {
            first_decided(&self.members)
        }
    }
}
