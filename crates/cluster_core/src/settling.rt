//! Transactions that were left prepared are settled by their coordinators.

ghost use Rattle.cluster_port.specs.Counting.{FailedAt, HaveSameFaults};
ghost use Rattle.cluster_port.specs.Lent.{AreInPlace};
ghost use Rattle.repo_opening.specs.declared.unopened.Unopened.TheVariants.{Failed};
ghost use Rattle.repo_refusals.specs.declared.refusal.Refusal.TheVariants.{Stopped as IsStopped};
ghost use Rattle.std.specs.Prelude.{IsErrOf, OnOk, vec_len, ℕ, ◌≡◌};

use cluster_port::{Opening, Site, calls};
use disk_trait::Parts;
use repo_opening::{Unopened, number_at};
use repo_refusals::Refusal;
use session_outbox::Asked;
use thor_value::Ts;

/// The number of the disk of pages.
const PAGES: u8 = 2;

/// Settles every prepared transaction of every repository, rising, by its coordinator.
#[tactic(auto, using(cluster_port::proofs::Counting::same_none, cluster_port::proofs::Counting::same_then, cluster_port::proofs::Counting::failed_then))]
pub(crate) fn settle_all<P: Parts, O: Opening>(sites: &mut Vec<Site<P, O>>) -> Result<(), Unopened>
    requires { AreInPlace sites.old.items }
    ensures placed { AreInPlace sites.new.items }
    ensures count { vec_len sites.new ≡ vec_len sites.old }
    ensures failed { (r : ℕ) → IsErrOf result (Failed r) → FailedAt r sites.old.items sites.new.items }
    ensures steady { OnOk result (HaveSameFaults sites.old.items sites.new.items) }
{
    for place in 0..sites.len() {
        settle_one(sites, number_at(place)?)?;
    }
    Ok(())
}

/// Settles every prepared transaction of a repository, rising.
#[tactic(auto, using(cluster_port::proofs::Counting::same_none, cluster_port::proofs::Counting::same_then, cluster_port::proofs::Counting::failed_then))]
fn settle_one<P: Parts, O: Opening>(sites: &mut Vec<Site<P, O>>, repo: u8) -> Result<(), Unopened>
    requires { AreInPlace sites.old.items }
    ensures placed { AreInPlace sites.new.items }
    ensures count { vec_len sites.new ≡ vec_len sites.old }
    ensures failed { (r : ℕ) → IsErrOf result (Failed r) → FailedAt r sites.old.items sites.new.items }
    ensures steady { OnOk result (HaveSameFaults sites.old.items sites.new.items) }
{
    for _ in 0..u64::MAX {
        let Some(tx) = least(sites.as_slice(), repo) else {
            return Ok(());
        };
        if let Err(fault) = settle(sites, repo, tx) {
            return Err(unopened(repo, fault));
        }
    }
    Ok(())
}

/// What is told of a store of which a transaction at a repository couldn't be settled. The coordinator isn't down: it was opened.
fn unopened(repo: u8, refusal: Refusal) -> Unopened
    ensures { (r : ℕ) → result ≡ Failed r → (r ≡ repo) × ((n : ℕ) × (refusal ≡ IsStopped n)) }
{
    match refusal {
        Refusal::Stopped { repo: _ } => Unopened::Failed { repo },
        Refusal::Damaged { repo: _, place } => Unopened::Damaged {
            repo,
            disk: PAGES,
            place,
        },
        Refusal::NoMemory | Refusal::Down { repo: _ } | Refusal::Reason(_) => Unopened::NoMemory,
    }
}

/// The prepared transaction of another coordinator with the least timestamp.
pub(crate) fn least<P: Parts, O: Opening>(sites: &[Site<P, O>], repo: u8) -> Option<Ts> {
    match sites.get(usize::from(repo)) {
        Some(site) if site.repo().is_up() => site.repo().least_of_another(),
        Some(_) | None => None,
    }
}

/// Asks the coordinator of a transaction, and finishes it where there is a verdict.
#[tactic(auto, using(cluster_port::proofs::Counting::same_none, cluster_port::proofs::Counting::same_then, cluster_port::proofs::Counting::failed_then))]
pub(crate) fn settle<P: Parts, O: Opening>(
    sites: &mut Vec<Site<P, O>>,
    repo: u8,
    tx: Ts,
) -> Result<(), Refusal>
    requires { AreInPlace sites.old.items }
    ensures placed { AreInPlace sites.new.items }
    ensures count { vec_len sites.new ≡ vec_len sites.old }
    ensures stopped { (n : ℕ) → IsErrOf result (IsStopped n) → FailedAt repo sites.old.items sites.new.items }
    ensures steady { OnOk result (HaveSameFaults sites.old.items sites.new.items) }
{
    match calls::ask(sites, tx.repo, tx)? {
        Asked::Undecided => Ok(()),
        Asked::Settled(verdict) => {
            calls::finish(sites, repo, &verdict)?;
            Ok(())
        }
    }
}
