ghost use Rattle.std.specs.Option.{option_copied};
ghost use Rattle.std.specs.Ordering.{nat_cmp};
ghost use Rattle.std.specs.Prelude.{◌≡◌, None, IfOk, OnErr, OnOk, cond, is_some, slice_get};
ghost use Rattle.thor_value.specs.FiniteMap.{get, has, insert, len};
ghost use Rattle.thor_value.specs.Names.{ts_cmp};
ghost use Rattle.two_phase.specs.Walks.{behind, bound_past, first_kept, first_open};
ghost use Rattle.two_phase.specs.Contents.{decided, finished, is_alone, keeping, keeps, nothing, open_at, standing, without};
ghost use Rattle.two_phase.specs.Lists.{aborted_of, kept_decisions, open_requests, stays_without};
ghost use Rattle.two_phase.specs.declared.transaction.Transaction.TheVariants.{Open};

use crate::standing::Standing;
use crate::transaction::Transaction;
use log_entries::Request;
use std::alloc::Global;
use std::collections::BTreeMap;
use std::marker::Model;
use std::ops::Bound;
use thor_value::{NoMemory, Sequence, Stamps, TryCopy, Ts};

/// The transactions in two phases that a repository knows of, as coordinator or as participant.
///
/// The memory for a decision is taken by `open`: `decide`, `finish`, `forget`, `ask` and the walks take none.
#[derive(Drop)]
pub struct Table {
    transactions: BTreeMap<Ts, Transaction>,
    alone: BTreeMap<u8, Ts>,
}

impl Model for Table {
    ghost use Rattle.two_phase.specs.Contents.{Contents};

    ghost Value = { Contents };

    ghost view = { λ t. record { transactions = record { pairs = t.transactions.entries }; alone = record { pairs = t.alone.entries } } };
}

impl Table {
    /// Knows of nothing.
    pub fn new(alloc: Global) -> Result<Table, NoMemory>
        ensures { IfOk result (λ table. table ≡ nothing) }
    {
        Ok(Table {
            transactions: BTreeMap::new(alloc),
            alone: BTreeMap::new(alloc),
        })
    }

    /// Takes in a request that was prepared. After `NoMemory` nothing has changed.
    pub fn open(&mut self, request: Request) -> Result<(), NoMemory>
        requires { get self.old.transactions request.tx ≡ None }
        ensures ok { OnOk result (self.new ≡ record self.old { transactions = insert self.old.transactions request.tx (Open request) }) }
        ensures err { OnErr result (self.new ≡ self.old) }
    {
        self.transactions
            .insert(request.tx, Transaction::Open(request))?;
        Ok(())
    }

    /// Decides a transaction that this repository coordinates, and hands back its request; nothing where it
    /// isn't open, and then nothing changes. A decision to commit is kept until it is forgotten.
    pub fn decide(&mut self, tx: Ts, commit: bool) -> Option<Request>
        ensures request { result ≡ open_at self.old tx }
        ensures table { self.new ≡ decided self.old tx commit (open_at self.old tx) }
    {
        if !self.is_open(tx) {
            return None;
        }
        if !commit {
            return self.close(tx);
        }
        // The key is there, so no memory is taken.
        match self.transactions.insert(tx, Transaction::Kept) {
            Ok(Some(transaction)) => transaction.into_request(),
            Ok(None) | Err(_) => unreachable!(),
        }
    }

    /// Finishes a transaction that its coordinator decided, either way, and hands back its request; nothing
    /// where it isn't open, and then nothing changes.
    pub fn finish(&mut self, tx: Ts) -> Option<Request>
        ensures request { result ≡ open_at self.old tx }
        ensures table { self.new ≡ finished self.old tx (open_at self.old tx) }
    {
        if !self.is_open(tx) {
            return None;
        }
        self.close(tx)
    }

    /// Forgets the decision to commit a transaction, where it is kept.
    pub fn forget(&mut self, tx: Ts)
        ensures { self.new ≡ cond (keeps (get self.old.transactions tx)) (without self.old tx) self.old }
    {
        if let Some(Transaction::Kept) = self.transactions.get(&tx) {
            drop(self.transactions.remove(&tx));
        }
    }

    /// How a transaction stands here.
    pub fn ask(&self, tx: Ts) -> Standing
        ensures { result ≡ standing self.now tx }
    {
        match self.transactions.get(&tx) {
            Some(Transaction::Open(_)) => Standing::Open,
            Some(Transaction::Kept) => Standing::Committed,
            None => {
                if self.is_alone(tx) {
                    Standing::Committed
                } else {
                    Standing::Aborted
                }
            }
        }
    }

    /// The request of a transaction that is prepared and undecided here.
    pub fn open_request(&self, tx: Ts) -> Option<&Request>
        ensures { option_copied result ≡ open_at self.now tx }
    {
        match self.transactions.get(&tx) {
            Some(Transaction::Open(request)) => Some(request),
            _ => None,
        }
    }

    /// Keeps the decision to commit a transaction, as a log tells it. After `NoMemory` nothing has changed.
    pub fn keep(&mut self, tx: Ts) -> Result<(), NoMemory>
        requires { get self.old.transactions tx ≡ None }
        ensures ok { OnOk result (self.new ≡ keeping self.old tx) }
        ensures err { OnErr result (self.new ≡ self.old) }
    {
        self.transactions.insert(tx, Transaction::Kept)?;
        Ok(())
    }

    /// Makes a transaction the last one of its client that committed here alone. After `NoMemory` nothing has
    /// changed.
    pub fn alone(&mut self, client: u8, tx: Ts) -> Result<(), NoMemory>
        ensures ok { OnOk result (self.new ≡ record self.old { alone = insert self.old.alone client tx }) }
        ensures err { OnErr result (self.new ≡ self.old) }
    {
        self.alone.insert(client, tx)?;
        Ok(())
    }

    /// How many transactions are open here or have a decision that is kept.
    pub fn len(&self) -> usize
        ensures { result ≡ len self.now.transactions }
    {
        self.transactions.len()
    }

    /// Whether a transaction is open here, or the decision to commit it is kept.
    pub fn knows(&self, tx: Ts) -> bool
        ensures { result ≡ has self.now.transactions tx }
    {
        self.transactions.contains_key(&tx)
    }

    /// Whether the decision to commit a transaction is kept here.
    pub fn keeps(&self, tx: Ts) -> bool
        ensures { result ≡ keeps (get self.now.transactions tx) }
    {
        matches!(self.transactions.get(&tx), Some(Transaction::Kept))
    }

    /// Drops the open requests of transactions that this repository coordinates. It takes no memory.
    pub fn abort_of(&mut self, repo: u8)
        ensures { self.new ≡ aborted_of self.old repo }
    {
        self.transactions
            .retain(|tx, transaction| stays_without(repo, *tx, transaction));
    }

    /// Copies of the open requests, by rising timestamp.
    pub fn open_requests(&self, alloc: Global) -> Result<Sequence<Request>, NoMemory>
        ensures { IfOk result (λ requests. requests ≡ open_requests self.now) }
    {
        let mut requests = Sequence::new(alloc);
        for (_, transaction) in self.transactions.iter() {
            if let Transaction::Open(request) = transaction {
                requests.push(request.copy()?)?;
            }
        }
        Ok(requests)
    }

    /// The transactions whose decision to commit is kept, rising.
    pub fn kept_decisions(&self, alloc: Global) -> Result<Stamps, NoMemory>
        ensures { IfOk result (λ kept. kept ≡ kept_decisions self.now) }
    {
        let mut kept = Stamps::new(alloc);
        for (tx, transaction) in self.transactions.iter() {
            if transaction.is_kept() {
                kept.push(*tx)?;
            }
        }
        Ok(kept)
    }

    /// The last transaction of each client that committed here alone, clients rising.
    pub fn single_commits(&self, alloc: Global) -> Result<Sequence<(u8, Ts)>, NoMemory>
        ensures { IfOk result (λ singles. singles ≡ self.now.alone.pairs) }
    {
        let mut singles = Sequence::new(alloc);
        for (client, tx) in self.alone.iter() {
            singles.push((*client, *tx))?;
        }
        Ok(singles)
    }

    fn is_open(&self, tx: Ts) -> bool
        ensures { result ≡ is_some (open_at self.now tx) }
    {
        matches!(self.transactions.get(&tx), Some(Transaction::Open(_)))
    }

    fn is_alone(&self, tx: Ts) -> bool
        ensures { result ≡ is_alone self.now tx }
    {
        for (_, last) in self.alone.iter() {
            if tx == *last {
                return true;
            }
        }
        false
    }

    // Takes out a transaction.
    fn take_out(&mut self, tx: Ts) -> Option<Transaction>
        ensures transaction { result ≡ get self.old.transactions tx }
        ensures table { self.new ≡ without self.old tx }
    {
        self.transactions.remove(&tx)
    }

    // Takes out a transaction, and hands back its request.
    fn close(&mut self, tx: Ts) -> Option<Request>
        ensures request { result ≡ open_at self.old tx }
        ensures table { self.new ≡ without self.old tx }
    {
        self.take_out(tx)?.into_request()
    }

    /// The open request with the least timestamp, or the least above one.
    #[tactic(auto, unfolding(crate::specs::Walks::first_open))]
    pub fn next_open(&self, after: Option<Ts>) -> Option<&Request>
        ensures { option_copied result ≡ first_open (behind ts_cmp after self.now.transactions.pairs) }
    {
        for (_, transaction) in self.transactions.range((past(after), Bound::Unbounded)) {
            if let Transaction::Open(request) = transaction {
                return Some(request);
            }
        }
        None
    }

    /// The least transaction whose decision to commit is kept, or the least above one.
    #[tactic(auto, unfolding(crate::specs::Walks::first_kept))]
    pub fn next_kept(&self, after: Option<Ts>) -> Option<Ts>
        ensures { result ≡ first_kept (behind ts_cmp after self.now.transactions.pairs) }
    {
        for (tx, transaction) in self.transactions.range((past(after), Bound::Unbounded)) {
            if let Transaction::Kept = transaction {
                return Some(*tx);
            }
        }
        None
    }

    /// The first client, or the first above one, that has a last transaction which committed here alone, with
    /// that transaction.
    pub fn next_alone(&self, after: Option<u8>) -> Option<(u8, Ts)>
        ensures { result ≡ slice_get (behind nat_cmp after self.now.alone.pairs) 0 }
    {
        match self.alone.range((past(after), Bound::Unbounded)).next() {
            Some((client, tx)) => Some((*client, *tx)),
            None => None,
        }
    }
}

// The bound behind a key; none at all where there is no key.
fn past<K>(after: Option<K>) -> Bound<K>
    ensures { result ≡ bound_past after }
{
    match after {
        Some(key) => Bound::Excluded(key),
        None => Bound::Unbounded,
    }
}

// Whether a transaction stays where the open ones that a repository coordinates go.
fn stays_without(repo: u8, tx: Ts, transaction: &Transaction) -> bool
    ensures { result ≡ stays_without repo (tx, transaction.now) }
{
    match transaction {
        Transaction::Open(_) => tx.repo != repo,
        Transaction::Kept => true,
    }
}
