//! The members of a queue, and how one more comes in.

ghost use Rattle.std.specs.Prelude.{◌≡◌, ◌+◌, None, IfOk, IfSome, IsSome, OnErr, OnOk, cond, false, is_some, true};
ghost use Rattle.std.specs.BTreeMap.{btree_map_len};
ghost use Rattle.std.specs.Map.{keys_of};
ghost use Rattle.thor_value.specs.FiniteMap.{get, has, insert};
ghost use Rattle.validation_queue.specs.Clashes.{IsBehindAll};
ghost use Rattle.validation_queue.specs.Contents.{members_of, omit, raise};
ghost use Rattle.validation_queue.specs.Names.{Rises};

use crate::clashes::{is_before, later_of};
use crate::member::Member;
use crate::name_set::NameSet;
use std::alloc::Global;
use std::collections::BTreeMap;
use thor_value::{NoMemory, Obj, Oref, Ts};

/// The members of a queue, by their timestamps.
pub type Members = BTreeMap<Ts, Member>;

/// The member that a request makes.
pub fn member_of(
    alloc: Global,
    upgrade: bool,
    ros: &[Oref],
    writes: &[(Oref, Obj)],
    decided: bool,
) -> Result<Member, NoMemory>
    requires reads { Rises ros.now }
    requires writes { Rises (keys_of writes.now) }
    ensures { IfOk result (λ made. made ≡ record { decided = decided; upgrade = upgrade; read = ros.now; written = keys_of writes.now }) }
{
    Ok(Member {
        decided,
        upgrade,
        read: NameSet::of_names(alloc, ros)?,
        written: NameSet::of_writes(alloc, writes)?,
    })
}

/// A threshold that isn't below a transaction that leaves.
pub fn raised(threshold: Ts, leaving: Option<Ts>) -> Ts
    ensures { result ≡ raise threshold leaving }
{
    match leaving {
        Some(tx) => later_of(threshold, tx),
        None => threshold,
    }
}

/// Whether all are still decided where one more comes in.
pub fn stay_decided(all_decided: bool, decided: bool) -> bool
    ensures { result ≡ cond all_decided decided false }
{
    all_decided && decided
}

/// Whether the transaction is above every member. It looks at the greatest alone.
#[tactic(auto, using(crate::proofs::Behind::behind_all, crate::proofs::Behind::behind_none))]
pub fn is_behind_all(members: &Members, tx: Ts) -> bool
    ensures { result ≡ true → IsBehindAll tx members.now.entries }
{
    match members.last_key_value() {
        Some((last, _)) => is_before(*last, tx),
        None => true,
    }
}

/// Puts a new member in, and takes one out. After `NoMemory` the members are as they were.
pub fn replace(
    members: &mut Members,
    leaving: Option<Ts>,
    tx: Ts,
    member: Member,
) -> Result<(), NoMemory>
    requires new { has (members_of members.old) tx ≡ false }
    requires there { IfSome leaving (λ t. IsSome (get (members_of members.old) t)) }
    ensures ok { OnOk result (members_of members.new ≡ insert (omit (members_of members.old) leaving) tx member) }
    ensures err { OnErr result (members_of members.new ≡ members_of members.old) }
    ensures len { OnOk result (btree_map_len members.new + cond (is_some leaving) 1 0 ≡ btree_map_len members.old + 1) }
{
    members.insert(tx, member)?;
    if let Some(leaving) = leaving {
        members.remove(&leaving);
    }
    Ok(())
}
