//! What a repository shows.

ghost use Rattle.std.specs.Prelude.{◌≡◌, None, cond, false, nat_eq, true};
ghost use Rattle.std.specs.Option.{IfSome};
ghost use Rattle.cached_sets.specs.Sets as sets;
ghost use Rattle.disk_trait.specs.Fused.{fused_disks};
ghost use Rattle.repo_state.specs.Keeps.{TableFits};
ghost use Rattle.repo_sessions.specs.Sessions.{is_live};
ghost use Rattle.mob_buffer.specs.Buffer.{bytes_of};
ghost use Rattle.repo_core.specs.Behind.{AreOwn, IsLeastOfOthers, epoch_of, has_prepared};
ghost use Rattle.repo_core.specs.Shown.{WholeIfUp};
ghost use Rattle.repo_durable.specs.Saying.{ImagesSay};
ghost use Rattle.thor_value.specs.FiniteMap.{has};
ghost use Rattle.repo_volatile.specs.Volatile.{knows};

use crate::repo::Repo;
use disk_trait::{Fused, Parts};
use log_entries::Entry;
use repo_state::HeldState;
use spec_trace::KeptItem;
use thor_value::{Oref, Ts};
use two_phase::Table;

impl<P: Parts> Repo<P> {
    /// Its parts. Whether it is up or down, each image that a crash of their disks may leave says what it holds, or that with
    /// the entry that was being written; of one that is torn nothing is said.
    #[tactic(auto, using(repo_durable::proofs::Saying::images_of))]
    pub fn parts(&self) -> &Fused<P>
        ensures { self.now.is_torn ≡ false → ImagesSay (fused_disks P.disks result.now) self.now.held self.now.pending }
    {
        self.stable.parts()
    }

    /// Its number.
    pub fn number(&self) -> u8
        ensures { result ≡ self.now.held.repo }
    {
        self.stable.repo()
    }

    /// Whether it answers. One that is down does so behind a restart.
    #[tactic(auto, using(crate::proofs::Objects::shown_whole))]
    pub fn is_up(&self) -> bool
        ensures up { result ≡ self.now.is_up }
        ensures whole { WholeIfUp self.now }
    {
        self.stable.is_up()
    }

    /// Whether there was no memory for an entry that its log has. It is down then, and doesn't come up again.
    pub fn is_torn(&self) -> bool
        ensures { result ≡ self.now.is_torn }
    {
        self.stable.is_torn()
    }

    /// A law: one that is up isn't torn.
    pub fn up_is_whole(&self)
        ensures { WholeIfUp self.now }
    {
        let _ = self.is_up();
    }

    /// The entries of its history since it was opened.
    pub fn history(&self) -> &[Entry]
        ensures { result.now ≡ self.now.trace.history }
    {
        self.trace.history()
    }

    /// The items of its trace since it was opened, in order.
    pub fn marks(&self) -> &[KeptItem]
        ensures { result.now ≡ self.now.trace.marks }
    {
        self.trace.marks()
    }

    /// The timestamp that a transaction has to be above.
    pub fn threshold(&self) -> Ts
        ensures { result ≡ self.now.memory.queue.threshold }
    {
        self.memory.threshold()
    }

    /// How many upgrades it has installed. A count that would pass the greatest `u32` stays there.
    pub fn epoch(&self) -> u32
        ensures { result ≡ epoch_of self.now.held }
    {
        epoch_of(self.stable.held())
    }

    /// The next object of a session's invalid set behind one, names rising, with the place of its last write
    /// by another session.
    pub fn invalid(&self, session: u32, after: Option<Oref>) -> Option<(Oref, u64)>
        ensures { result ≡ sets.invalid_after self.now.memory.sessions.sets session after }
    {
        self.memory.sessions().invalid(session, after)
    }

    /// How many bytes the buffered objects have.
    pub fn mob_bytes(&self) -> u32
        ensures { result ≡ bytes_of self.now.held.objects.mob.objects }
    {
        self.stable.held().objects().mob().bytes()
    }

    /// Whether a request of the transaction came here since the opening, or a decision on it is kept.
    pub fn knows(&self, tx: Ts) -> bool
        ensures { result ≡ cond (knows self.now.memory tx) true (has self.now.held.table.transactions tx) }
    {
        self.memory.knows(tx) || self.stable.held().table().knows(tx)
    }

    /// Whether the transaction is prepared and undecided here, by a request of this session.
    pub fn has_prepared(&self, session: u32, tx: Ts) -> bool
        ensures { result ≡ has_prepared self.now.held session tx }
    {
        match self.stable.held().table().open_request(tx) {
            Some(request) => request.session == session,
            None => false,
        }
    }

    /// The transaction of another coordinator with the least timestamp that is prepared and undecided here. `None`, too,
    /// where the repository is down.
    #[tactic(auto, using(crate::proofs::Falls::keeps_up))]
    pub fn least_of_another(&self) -> Option<Ts>
        ensures other { IfSome result (λ tx. nat_eq tx.repo self.now.held.repo ≡ false) }
        ensures least { IfSome result (IsLeastOfOthers self.now.held.repo self.now.held.table) }
        ensures none { self.now.is_up ≡ true → result ≡ None → AreOwn self.now.held.repo self.now.held.table }
    {
        if !self.is_up() {
            return None;
        }
        least_of_others(self.stable.held().table(), self.number())
    }
}

/// Of the transactions of other coordinators than this repository, whose requests are open in a table, that with the
/// least timestamp.
fn least_of_others(table: &Table, repo: u8) -> Option<Ts>
    requires { TableFits repo table.now }
    ensures least { IfSome result (IsLeastOfOthers repo table.now) }
    ensures none { result ≡ None → AreOwn repo table.now }
{
    let mut after = None;
    while let Some(request) = table.next_open(after) {
        if request.tx.repo != repo {
            return Some(request.tx);
        }
        after = Some(request.tx);
    }
    None
}

/// How many upgrades are installed. A count that would pass the greatest `u32` stays there.
pub(crate) fn epoch_of(held: &HeldState) -> u32
    ensures { result ≡ epoch_of held.now }
{
    match u32::try_from(held.epoch()) {
        Ok(epoch) => epoch,
        Err(_) => u32::MAX,
    }
}
