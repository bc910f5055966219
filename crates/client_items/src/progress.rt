//! How far a client has come in its items.

ghost use Rattle.client_items.specs.Courses.{Ends, Goes, IsInOrder, IsLateOutcome, Learns, who_behind, who_next};
ghost use Rattle.client_items.specs.Ending.{EndsAs, EndsBy, EndsIn, GoesBy, IsHeldSo, IsRefused, SettlesAs, ends_try};
ghost use Rattle.client_items.specs.Falling.{CountsDown, IsLeft, NeverRises};
ghost use Rattle.serial_model.specs.declared.outcomes.ItemOutcome.TheVariants as outcomes;
ghost use Rattle.std.specs.Prelude.{◌≡◌, ◌+◌, ◌<◌, ◌≤◌, ◌^◌, ◌⊎◌, [], IsSome, IsTrue, OnOk, length, not, true, ◌↔◌};

use crate::attempts::Attempts;
use crate::news::{Asked, News, Settled, Task};
use crate::opened::{Items, Opened};
use serial_model::{Cause, Ended, Ends, ItemOutcome, What};
use std::alloc::Global;
use std::marker::Model;
use thor_value::{NoMemory, Sequence, Ts, Who};

/// How far a client has come in its items, which contracts see as their number and how those ended that
/// have.
#[derive(Drop)]
pub struct Progress {
    client: u8,
    items: Items,
    ended: Ends,
    /// How many of the items that ended are upgrades.
    upgrades: u32,
}

impl Model for Progress {
    ghost use Rattle.client_items.specs.Courses.{Course, IsInOrder};
    ghost use Rattle.std.specs.Prelude.{length};

    ghost Value = { Course };

    ghost view = { λ p. record { client = p.client; count = length p.items; ended = p.ended } };

    ghost invariant = { λ p. IsInOrder (record { client = p.client; count = length p.items; ended = p.ended }) };
}

/// Whether an item is held as Unknown by this transaction.
fn is_unknown(outcome: &ItemOutcome, ts: Ts) -> bool
    ensures unknown { IsTrue result → outcome.now ≡ outcomes.Unknown ts }
    ensures other { outcome.now ≡ outcomes.Unknown ts → IsTrue result }
{
    match outcome {
        ItemOutcome::Unknown { tx } => *tx == ts,
        ItemOutcome::Done { .. }
        | ItemOutcome::Upgraded { .. }
        | ItemOutcome::Faulted { .. }
        | ItemOutcome::Refused { .. } => false,
    }
}

impl Progress {
    /// No item has begun.
    pub fn new(alloc: Global, client: u8, items: Items) -> Progress
        requires { length items < 2 ^ 32 }
        ensures { result ≡ record { client = client; count = length items; ended = [] } }
    {
        Progress {
            client,
            items,
            ended: Sequence::new(alloc),
            upgrades: 0,
        }
    }

    /// The present item, where one is left.
    pub fn item(&self) -> Option<&What>
        ensures { IsSome result ↔ (length self.now.ended < self.now.count) }
    {
        self.items.get(self.ended.len())
    }

    /// Whether no item is left.
    pub fn has_ended(&self) -> bool
        ensures ended { IsTrue result → length self.now.ended ≡ self.now.count }
        ensures left { IsTrue (not result) → IsLeft self.now }
    {
        self.ended.len() >= self.items.len()
    }

    /// Who the present item is, where one is left.
    fn who(&self) -> Who
        ensures left { length self.now.ended < self.now.count → result ≡ who_behind self.now.client (length self.now.ended) }
        ensures always { result ≡ who_next self.now }
    {
        let before = self.ended.len() as u32;
        Who {
            client: self.client,
            index: before.saturating_add(1),
        }
    }

    /// What the present item asks for, where one is left.
    fn asked(&self) -> Option<Asked<'_>> {
        match self.item() {
            Some(What::Tx(text)) => Some(Asked::Tx(text)),
            Some(What::Upgrade(upgrade)) => Some(Asked::Upgrade(upgrade)),
            None => None,
        }
    }

    /// What the client is to do, where an item has so many tries. The k-th upgrade of the script gets the
    /// number of the opened store's epoch plus k.
    pub fn task(&self, opened: &Opened, tries: u32) -> Task<'_>
        ensures tries { result.tries ≡ tries }
        ensures who { result.who ≡ who_next self.now }
    {
        Task {
            who: self.who(),
            what: self.asked(),
            number: opened.epoch.saturating_add(self.upgrades).saturating_add(1),
            tries,
        }
    }

    /// How the items ended so far, which is in their order.
    pub fn ended(&self) -> &[Ended]
        ensures value { result.now ≡ self.now.ended }
        ensures order { IsInOrder self.now }
    {
        self.ended.as_slice()
    }

    /// The outcomes.
    pub fn close(self) -> Ends
        ensures { result ≡ self.ended }
    {
        let Progress { items, ended, .. } = self;
        drop(items);
        ended
    }

    /// Takes down what a step has come to. After `NoMemory` nothing has ended.
    pub fn take_down(&mut self, attempts: &mut Attempts, news: News) -> Result<(), NoMemory>
        ensures goes { Goes self.old self.new }
        ensures each { attempts.new.each ≡ attempts.old.each }
        ensures left { OnOk result (NeverRises (record { course = self.old; attempts = attempts.old }) (record { course = self.new; attempts = attempts.new })) }
        ensures tried { ends_try news ≡ true → IsLeft self.old → OnOk result (CountsDown (record { course = self.old; attempts = attempts.old }) (record { course = self.new; attempts = attempts.new })) }
        ensures told { GoesBy attempts.old.each news self.old self.new }
        ensures ends { OnOk result (EndsBy attempts.old news self.old self.new) }
    {
        match news {
            News::Nothing => Ok(()),
            News::TryEnded { cause } => self.end_try(attempts, cause),
            News::Ended { outcome } => {
                let tries = attempts.tried.saturating_add(1);
                self.end_item(attempts, tries, outcome)
            }
            News::Settled { settled } => {
                self.settle(settled);
                Ok(())
            }
        }
    }

    /// A try of the present item has ended without a commit. Behind the last one the item is Refused.
    /// Nothing changes where no item is left.
    fn end_try(&mut self, attempts: &mut Attempts, cause: Cause) -> Result<(), NoMemory>
        ensures goes { Goes self.old self.new }
        ensures each { attempts.new.each ≡ attempts.old.each }
        ensures left { OnOk result (NeverRises (record { course = self.old; attempts = attempts.old }) (record { course = self.new; attempts = attempts.new })) }
        ensures tried { IsLeft self.old → OnOk result (CountsDown (record { course = self.old; attempts = attempts.old }) (record { course = self.new; attempts = attempts.new })) }
        ensures told { (self.new ≡ self.old) ⊎ IsRefused attempts.old.each cause self.old self.new }
        ensures last { OnOk result (attempts.old.each ≤ attempts.old.tried + 1 → IsLeft self.old → IsRefused attempts.old.each cause self.old self.new) }
    {
        if self.has_ended() {
            return Ok(());
        }
        self.end_left_try(attempts, cause)
    }

    /// A try has ended of an item that is left.
    fn end_left_try(&mut self, attempts: &mut Attempts, cause: Cause) -> Result<(), NoMemory>
        ensures goes { Goes self.old self.new }
        ensures each { attempts.new.each ≡ attempts.old.each }
        ensures tried { IsLeft self.old → OnOk result (CountsDown (record { course = self.old; attempts = attempts.old }) (record { course = self.new; attempts = attempts.new })) }
        ensures told { (self.new ≡ self.old) ⊎ IsRefused attempts.old.each cause self.old self.new }
        ensures last { OnOk result (attempts.old.each ≤ attempts.old.tried + 1 → IsLeft self.old → IsRefused attempts.old.each cause self.old self.new) }
    {
        if attempts.begin_next_try() {
            return Ok(());
        }
        let tries = attempts.tried;
        self.end_item(attempts, tries, ItemOutcome::Refused { cause })
    }

    /// The present item has ended, in the try with this number. Nothing ends where no item is left.
    fn end_item(
        &mut self,
        attempts: &mut Attempts,
        tries: u32,
        outcome: ItemOutcome,
    ) -> Result<(), NoMemory>
        ensures goes { (self.new ≡ self.old) ⊎ Ends self.old self.new }
        ensures each { attempts.new.each ≡ attempts.old.each }
        ensures left { OnOk result (((self.new ≡ self.old) × (attempts.new ≡ attempts.old)) ⊎ Ends self.old self.new) }
        ensures ended { IsLeft self.old → OnOk result (Ends self.old self.new) }
        ensures told { (self.new ≡ self.old) ⊎ EndsIn tries outcome self.old self.new }
        ensures left_ends { IsLeft self.old → OnOk result (EndsIn tries outcome self.old self.new) }
    {
        let who = self.who();
        let upgrades = match self.item() {
            Some(What::Upgrade(_)) => self.upgrades.saturating_add(1),
            Some(What::Tx(_)) => self.upgrades,
            None => return Ok(()),
        };
        self.ended.push(Ended {
            who,
            tries,
            outcome,
        })?;
        self.upgrades = upgrades;
        attempts.begin_next_item();
        Ok(())
    }

    /// An item that was Unknown has ended, in the try that was sent.
    fn settle(&mut self, settled: Settled)
        ensures goes { Learns self.old self.new }
        ensures told { (self.new ≡ self.old) ⊎ SettlesAs settled self.old self.new }
        ensures settles { IsHeldSo settled self.old → SettlesAs settled self.old self.new }
    {
        let Settled { index, ts, outcome } = settled;
        if index == 0 {
            return;
        }
        let place = (index - 1) as usize;
        let Some(was) = self.ended.get(place) else {
            return;
        };
        if is_unknown(&was.outcome, ts) {
            let ended = Ended {
                who: was.who,
                tries: was.tries,
                outcome,
            };
            self.ended.set(place, ended);
        }
    }
}
