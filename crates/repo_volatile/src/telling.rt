//! What decisions do, and what an earlier life left.

ghost use Rattle.std.specs.Prelude.{◌≡◌, OnOk, cond, false, true};
ghost use Rattle.thor_value.specs.FiniteMap.{has};
ghost use Rattle.validation_queue.specs.Contents.{cleared, decide, with_one};
ghost use Rattle.repo_volatile.specs.Telling.{CommitTold};
ghost use Rattle.repo_volatile.specs.Volatile.{is_upgrade_kind, transaction_of};
ghost use Rattle.repo_sessions.specs.Sessions.{KeepsNumbers};

use crate::memory::{Memory, is_upgrade};
use log_entries::{Kind, Request};
use thor_value::{NoMemory, Ts};
use validation_queue::is_in_order;

/// How many transactions a queue has room for.
const ROOM: usize = 1_024;

impl Memory {
    /// Tells sessions of the commit of a request at a place, and gives those up whose clients leave too much
    /// unacknowledged. An upgrade, which gets this number, is a fence for all transactions.
    pub fn tell(&mut self, request: &Request, number: u32, place: u64) -> Result<(), NoMemory>
        ensures numbers { KeepsNumbers self.old.sessions self.new.sessions }
        ensures queue { self.new.queue ≡ cond (is_upgrade_kind request.now.kind) (cleared request.now.tx) self.old.queue }
        ensures requested { self.new.requested ≡ self.old.requested }
        ensures drawn { self.new.drawn ≡ self.old.drawn }
        ensures news { OnOk result (CommitTold self.old.sessions self.new.sessions request.now number place) }
    {
        match &request.kind {
            Kind::App | Kind::Transform => {
                self.sessions
                    .tell_writes(request.session, &request.writes, place)
            }
            Kind::Upgrade { text } => {
                self.queue.clear(request.tx);
                self.sessions.tell_upgrade(number, text, place)
            }
        }
    }

    /// A prepared transaction is decided. One that an earlier opening left is none of the queue's: where it
    /// commits, the threshold stands for it.
    pub fn decide(&mut self, tx: Ts, commit: bool)
        ensures member { has self.old.queue.members tx ≡ true → self.new ≡ record self.old { queue = decide self.old.queue tx commit } }
        ensures sessions { self.new.sessions ≡ self.old.sessions }
        ensures requested { self.new.requested ≡ self.old.requested }
    {
        if commit && !self.queue.has(tx) {
            self.stand_above(tx);
        }
        self.queue.decide(tx, commit);
    }

    /// Has the threshold stand for a transaction that commits, while no other is in the queue.
    fn stand_above(&mut self, tx: Ts)
        ensures sessions { self.new.sessions ≡ self.old.sessions }
        ensures requested { self.new.requested ≡ self.old.requested }
    {
        if self.queue.len() == 0 {
            let threshold = self.queue.threshold().max(tx);
            self.stand_at(threshold);
        }
    }

    /// Puts a request that stays undecided into the queue, where it came since the opening. Want of memory, too,
    /// where there is no room for it, which no history comes to.
    pub fn load(&mut self, request: &Request) -> Result<(), NoMemory>
        ensures loaded { OnOk result (self.new.queue ≡ cond (has self.old.requested request.now.tx) (with_one self.old.queue (transaction_of request.now) false) self.old.queue) }
        ensures new { OnOk result (has self.old.requested request.now.tx ≡ true → has self.old.queue.members request.now.tx ≡ false) }
        ensures sessions { self.new.sessions ≡ self.old.sessions }
        ensures requested { self.new.requested ≡ self.old.requested }
        ensures drawn { self.new.drawn ≡ self.old.drawn }
    {
        let tx = request.tx;
        if !self.requested.contains_key(&tx) {
            return Ok(());
        }
        if !is_in_order(&request.ros, &request.writes) {
            return Err(NoMemory);
        }
        if self.queue.has(tx) || self.queue.len() >= ROOM {
            return Err(NoMemory);
        }
        self.queue
            .load(tx, is_upgrade(request), &request.ros, &request.writes)
    }
}
