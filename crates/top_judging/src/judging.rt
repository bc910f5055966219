//! Whether a script may be run on the store that was found.

ghost use Rattle.script_parse.specs.Script.{HasFew};
ghost use Rattle.serial_model.specs.Replays.{AreMade};
ghost use Rattle.std.specs.Prelude.{IfErr, IfOk, IfSome, List, None, length, ◌≡◌, ◌≤◌};
ghost use Rattle.store_opening.specs.Counts.{HasParts};
ghost use Rattle.store_opening.specs.Reading.{ReadAll};
ghost use Rattle.top_judging.specs.Stages.{IsJudged, RepliesRefused, RepliesRule, RepliesUnjudged};
ghost use Rattle.top_statement.specs.Opening.{IsAccepted, IsBase};
ghost use Rattle.top_statement.specs.Top.{BreaksUnder, IsOverFound, IsWithinLimits};

use crate::starting::base_of;
use class_defs::Schemas;
use disk_trait::Parts;
use script_check::{judge, last_schema, upgrade_count};
use script_parse::{Refusal, Script};
use serial_model::are_made;
use std::alloc::Global;
use store_opening::Found;
use thor_value::NoMemory;
use top_reply::Reply;
use top_words::Plan;

/// The most upgrades that a store may have, those of the script included.
pub(crate) const UPGRADE_LIMIT: usize = 1_000;

/// The greatest life of a repository as it is opened.
const LIFE_LIMIT: u32 = 4_290_000_000;

/// The greatest sequence of a log, and the most entries of a history, as a repository is opened.
const COUNT_LIMIT: u64 = 2_305_843_009_213_693_952;

/// The limit that the store that was found passes, with the upgrades of the script.
fn passed_limit<P: Parts>(script: &Script, found: &Found<P>) -> Option<u64>
    requires clients { length script.now.clients ≤ 64 }
    requires events { length script.now.events ≤ 1000000 }
    ensures passed { (given : List P) → HasParts P.disks given found.now → IfSome result (λ limit. IsOverFound (ReadAll P.disks given) script.now found.now.store limit) }
    ensures within { result ≡ None → IsWithinLimits script.now }
{
    let upgrades = upgrade_count(script.clients.as_slice());
    if UPGRADE_LIMIT < found.epoch().saturating_add(upgrades) {
        return Some(UPGRADE_LIMIT as u64);
    }
    if found.has_life_above(LIFE_LIMIT) {
        return Some(u64::from(LIFE_LIMIT));
    }
    if found.has_count_above(COUNT_LIMIT) {
        return Some(COUNT_LIMIT);
    }
    None
}

/// The reply to a script that breaks a rule.
fn refused(plan: &Plan, script: &Script, base: Schemas, refusal: Refusal) -> Result<Reply, NoMemory>
    requires within { IsWithinLimits script.now }
    requires breaks { BreaksUnder base plan.now.repos script.now refusal }
    ensures { IfOk result (RepliesRule plan.now script.now base) }
{
    drop(base);
    Ok(Reply::Refused { refusal })
}

/// Schemas that are as upgrades make them, where a script breaks no rule under them; else the reply.
fn judged_on(
    alloc: Global,
    plan: &Plan,
    script: &Script,
    base: Schemas,
) -> Result<Schemas, Result<Reply, NoMemory>>
    requires base { IsBase script.now.setup base }
    requires made { AreMade base }
    requires epochs { length base.upgraded ≤ 1000 }
    requires within { IsWithinLimits script.now }
    ensures base { IfOk result (λ judged. judged ≡ base) }
    ensures made { IfOk result AreMade }
    ensures accepted { IfOk result (λ judged. IsAccepted plan.now.repos script.now judged) }
    ensures reply { IfErr result (λ reply. IfOk reply (RepliesRule plan.now script.now base)) }
{
    match judge(alloc, last_schema(&base), script, plan.repos) {
        Ok(Some(broken)) => Err(refused(plan, script, base, broken)),
        Ok(None) => Ok(base),
        Err(NoMemory) => {
            drop(base);
            Err(Err(NoMemory))
        }
    }
}

/// The schemas of the store, where a script breaks no rule under them; else the reply.
pub(crate) fn judged(
    alloc: Global,
    plan: &Plan,
    script: &Script,
    base: Schemas,
) -> Result<Schemas, Result<Reply, NoMemory>>
    requires base { IsBase script.now.setup base }
    requires within { IsWithinLimits script.now }
    ensures base { IfOk result (λ judged. judged ≡ base) }
    ensures made { IfOk result AreMade }
    ensures accepted { IfOk result (λ judged. IsAccepted plan.now.repos script.now judged) }
    ensures reply { IfErr result (λ reply. IfOk reply (RepliesRule plan.now script.now base)) }
{
    if UPGRADE_LIMIT < base.upgraded.len() || !are_made(&base) {
        drop(base);
        return Err(Err(NoMemory));
    }
    judged_on(alloc, plan, script, base)
}

/// The schemas of the store that was found, where a script within the limits breaks no rule on it; else the reply.
fn base_within<P: Parts>(
    alloc: Global,
    plan: &Plan,
    script: &Script,
    found: &Found<P>,
) -> Result<Schemas, Result<Reply, NoMemory>>
    requires few { HasFew script.now.setup }
    requires within { IsWithinLimits script.now }
    ensures judged { IfOk result (IsJudged plan.now script.now found.now.store) }
    ensures reply { IfErr result (λ reply. IfOk reply (RepliesRefused plan.now script.now found.now.store)) }
{
    match base_of(alloc, &script.setup, found) {
        Ok(Some(base)) => judged(alloc, plan, script, base),
        Ok(None) => Err(Ok(Reply::Refused {
            refusal: Refusal::Setup,
        })),
        Err(NoMemory) => Err(Err(NoMemory)),
    }
}

/// The schemas of the store that was found, where the script breaks no rule on it; else the reply.
pub(crate) fn base_in<P: Parts>(
    alloc: Global,
    plan: &Plan,
    script: &Script,
    found: &Found<P>,
) -> Result<Schemas, Result<Reply, NoMemory>>
    requires few { HasFew script.now.setup }
    requires clients { length script.now.clients ≤ 64 }
    requires events { length script.now.events ≤ 1000000 }
    ensures judged { IfOk result (IsJudged plan.now script.now found.now.store) }
    ensures reply { (given : List P) → HasParts P.disks given found.now → IfErr result (λ reply. IfOk reply (RepliesUnjudged (ReadAll P.disks given) plan.now script.now found.now.store)) }
{
    match passed_limit(script, found) {
        Some(limit) => Err(Ok(Reply::Limit { limit })),
        None => base_within(alloc, plan, script, found),
    }
}
