//! The store that the parts hold, and whether a script may be run on it.

ghost use Rattle.repo_opening.specs.Same.{AreSame};
ghost use Rattle.script_parse.specs.Script.{HasFew};
ghost use Rattle.std.specs.Prelude.{IfErr, IfOk, List, Ok, length, vec_len, ℕ, ◌≡◌, ◌≤◌};
ghost use Rattle.store_opening.specs.Counts.{HasParts, parts_in};
ghost use Rattle.store_opening.specs.Failing.{AreCalled, FailsAt};
ghost use Rattle.store_opening.specs.Reading.{ReadAll};
ghost use Rattle.top_judging.specs.Stages.{IsJudged, RepliesUnjudged};
ghost use Rattle.top_reply.specs.declared.reply.Reply.TheVariants.{DiskFault};
ghost use Rattle.top_statement.specs.Opening.{IsStoredBy};
ghost use Rattle.top_statement.specs.Telling.{TellsNoRun};
ghost use Rattle.top_statement.specs.Top.{RepliesTo};

use crate::judging::base_in;
use crate::replies::unopened;
use class_defs::Schemas;
use disk_trait::Parts;
use script_parse::Script;
use std::alloc::Global;
use store_opening::{ClusterFault, Found};
use top_statement::{Answered, unplayed};
use top_words::Plan;

/// A store that was found, on which a script breaks no rule.
pub struct Judged<P: Parts> {
    /// The schemas of its epochs.
    pub base: Schemas,
    pub found: Found<P>,
}

/// A store that was found, where a script breaks no rule on it; else the reply, with the parts.
fn judged_on<P: Parts>(
    alloc: Global,
    plan: &Plan,
    script: &Script,
    found: Found<P>,
) -> Result<Judged<P>, Answered<P>>
    requires few { HasFew script.now.setup }
    requires clients { length script.now.clients ≤ 64 }
    requires events { length script.now.events ≤ 1000000 }
    ensures judged { IfOk result (λ j. IsJudged plan.now script.now j.found.store j.base) }
    ensures found { IfOk result (λ j. j.found ≡ found) }
    ensures reply { (given : List P) → HasParts P.disks given found → IfErr result (λ a. IfOk a.reply (RepliesUnjudged (ReadAll P.disks given) plan.now script.now found.store)) }
    ensures parts { IfErr result (λ a. vec_len a.parts ≡ parts_in found) }
    ensures same { (given : List P) → HasParts P.disks given found → IfErr result (λ a. AreSame P.disks given a.parts.items) }
    ensures never { (given : List P) (repo : ℕ) → HasParts P.disks given found → IfErr result (λ a. a.reply ≡ Ok (DiskFault repo) → ⊥) }
{
    match base_in(alloc, plan, script, &found) {
        Ok(base) => Ok(Judged { base, found }),
        Err(reply) => Err(unplayed(alloc, reply, found.into_parts())),
    }
}

/// The store that the parts hold, where a script breaks no rule on it. Else the reply, with the parts; their disks are
/// as they were.
pub fn find<P: Parts>(
    alloc: Global,
    plan: &Plan,
    script: &Script,
    parts: Vec<P>,
) -> Result<Judged<P>, Answered<P>>
    requires few { HasFew script.now.setup }
    requires clients { length script.now.clients ≤ 64 }
    requires events { length script.now.events ≤ 1000000 }
    ensures judged { IfOk result (λ j. IsJudged plan.now script.now j.found.store j.base) }
    ensures count { IfOk result (λ j. parts_in j.found ≡ vec_len parts) }
    ensures found { IfOk result (λ j. HasParts P.disks parts.items j.found) }
    ensures stored { IfOk result (λ j. IsStoredBy (ReadAll P.disks parts.items) j.found.store) }
    ensures reply { IfErr result (λ a. IfOk a.reply (RepliesTo (ReadAll P.disks parts.items) plan.now script.now)) }
    // No run is told then.
    ensures untold { IfErr result (λ a. TellsNoRun a.reply) }
    ensures parts { IfErr result (λ a. vec_len a.parts ≡ vec_len parts) }
    ensures same { IfErr result (λ a. AreSame P.disks parts.items a.parts.items) }
    // What came to the disks, and of which repository one failed.
    ensures called { IfOk result (λ j. AreCalled P.disks parts.items j.found.places.items) }
    ensures failed { (repo : ℕ) → IfErr result (λ a. a.reply ≡ Ok (DiskFault repo) → FailsAt P.disks parts.items a.parts.items repo) }
{
    match Found::read(alloc, parts, plan.mob) {
        Ok(found) => judged_on(alloc, plan, script, found),
        Err(ClusterFault { parts, why }) => Err(unplayed(alloc, unopened(why), parts)),
    }
}
