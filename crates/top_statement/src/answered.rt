//! What the program has to write, with the parts.

ghost use Rattle.repo_opening.specs.Same.{AreSame};
ghost use Rattle.std.specs.Prelude.{[], false, length, true, vec_len, ◌≡◌};

use disk_trait::Parts;
use repo_trace::Traces;
use std::alloc::Global;
use thor_value::NoMemory;
use top_reply::{Reply, Status};
use top_words::Plan;

/// The parts of a store, as they are handed in and come back.
#[derive(Drop)]
pub struct StoreParts<P> {
    /// Those of its repositories, in their order.
    pub repositories: Vec<P>,
}

/// What the program has to write, and what is left of the run.
#[derive(Drop)]
pub struct Answered<P> {
    /// What it has to write, where memory was there.
    pub reply: Result<Reply, NoMemory>,
    /// The parts of the repositories, in their order.
    pub parts: Vec<P>,
    /// What happened at each repository; nothing where no run was made.
    pub traces: Traces,
}

/// How the program ended.
#[derive(Drop)]
pub struct Outcome<P> {
    pub status: Status,
    /// What it had to write, where memory was there. Its text was written whole, but where the sink failed.
    pub reply: Result<Reply, NoMemory>,
    /// The parts that were handed in.
    pub parts: StoreParts<P>,
    /// What happened at each repository; nothing where no run was made.
    pub traces: Traces,
}

/// A reply to a script with which no run was made.
pub fn unplayed<P>(alloc: Global, reply: Result<Reply, NoMemory>, parts: Vec<P>) -> Answered<P>
    ensures reply { result.reply ≡ reply }
    ensures parts { result.parts ≡ parts }
    ensures traces { result.traces ≡ [] }
{
    Answered {
        reply,
        parts,
        traces: Traces::new(alloc),
    }
}

/// A reply with which no call on the parts was made.
#[tactic(auto, using(repo_opening::proofs::Syncing::same_all))]
pub fn untouched<P: Parts>(
    alloc: Global,
    reply: Result<Reply, NoMemory>,
    parts: Vec<P>,
) -> Answered<P>
    ensures reply { result.reply ≡ reply }
    ensures parts { vec_len result.parts ≡ vec_len parts }
    ensures same { AreSame P.disks parts.items result.parts.items }
    ensures traces { result.traces ≡ [] }
{
    unplayed(alloc, reply, parts)
}

/// Whether there are the parts of as many repositories as a plan asks for.
pub fn are_parts_of<P>(plan: &Plan, parts: &[P]) -> bool
    ensures same { result ≡ true → plan.now.repos ≡ length parts.now }
    ensures other { result ≡ false → (plan.now.repos ≡ length parts.now → ⊥) }
{
    usize::from(plan.repos) == parts.len()
}
