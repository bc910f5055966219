//! What is asked for a script's run on the store that was found.

ghost use Rattle.script_check.specs.Upgrading.{extended, upgrades_of};
ghost use Rattle.serial_model.specs.Replays.{AreMade};
ghost use Rattle.std.specs.Prelude.{IfErr, IfOk, List, Ok, vec_len, ◌≡◌, ℕ};
ghost use Rattle.top_reply.specs.declared.reply.Reply.TheVariants.{DiskFault};
ghost use Rattle.store_opening.specs.Counts.{parts_in};
ghost use Rattle.store_opening.specs.Reading.{IsStoredIn, ReadAll};
ghost use Rattle.thor_top.specs.Stages.{Awaits, Foretells, RepliesRun};
ghost use Rattle.thor_value.specs.FiniteMap.{IsSorted};
ghost use Rattle.top_judging.specs.Stages.{IsJudged, IsOpenedAs, RepliesUnsettled};
ghost use Rattle.top_statement.specs.Opening.{IsStore, IsStoredBy};
ghost use Rattle.top_statement.specs.Top.{running_of};

use crate::expected::Expected;
use class_defs::{Schemas, Setup};
use cluster_threads::{Plan as Run, Start};
use disk_trait::Parts;
use script_check::roots_of;
use script_parse::Script;
use std::alloc::Global;
use store_opening::Found;
use thor_value::{NoMemory, TryCopy, both};
use top_judging::{Judged, OpenedStore, opened_of};
use top_reply::{Form, Running};
use top_statement::{Answered, unplayed};
use top_words::{Command, Plan};

/// A store that was found for a script's run.
pub struct FoundRun<P: Parts> {
    pub found: Found<P>,
    /// What the run is asked for.
    pub run: Run,
    /// What the run is compared with before it is told.
    pub expected: Expected,
}

/// How a command performs a run, where it makes one.
fn running_of(command: Command) -> Running
    ensures { result ≡ running_of command }
{
    match command {
        Command::Run => Running::OnThreads,
        Command::Check | Command::Play | Command::Gen { n: _ } | Command::Audit => {
            Running::InTurn
        }
    }
}

/// With what a store is opened: with the setup of the script, where it has one.
fn start_of(alloc: Global, script: &Script, base: &Schemas) -> Result<Start, NoMemory>
    requires { AreMade base.now }
{
    match &script.setup {
        Some(_) => Ok(Start::Setup(Setup {
            schema: base.first.copy()?,
            roots: roots_of(alloc, &base.first)?,
        })),
        None => Ok(Start::Stored),
    }
}

/// What a run is asked for, by a plan and a script, where it begins with the schemas `base`. Its clients run on the schemas
/// `behind`.
fn run_of(
    alloc: Global,
    plan: &Plan,
    script: &Script,
    base: &Schemas,
    behind: &Schemas,
) -> Result<Run, NoMemory>
    requires { AreMade base.now }
    ensures { IfOk result (λ run. run.schemas ≡ behind.now) }
{
    Ok(Run {
        start: start_of(alloc, script, base)?,
        tries: u32::from(plan.tries),
        cache: plan.cache,
        schemas: behind.copy()?,
        clients: script.clients.copy()?.into_vec(),
    })
}

/// What a run takes: the store with which it begins, and what it is asked for.
fn prepared<P: Parts>(
    alloc: Global,
    plan: &Plan,
    script: &Script,
    base: &Schemas,
    found: &Found<P>,
) -> Result<(OpenedStore, Run), NoMemory>
    requires { IsJudged plan.now script.now found.now.store base.now }
    ensures schemas { IfOk result (λ made. made.0.schemas ≡ extended base.now (upgrades_of script.now.clients)) }
    ensures same { IfOk result (λ made. made.1.schemas ≡ made.0.schemas) }
    ensures store { IfOk result (λ made. IsStore script.now.setup base.now made.0.store) }
    ensures sorted { IfOk result (λ made. IsSorted made.0.store.objects) }
    ensures opened { (images : List (ℕ → List ℕ)) → IsStoredIn images found.now.store → IfOk result (λ made. IsOpenedAs images script.now.setup base.now made.0.store) }
{
    match opened_of(alloc, script, base, found)? {
        Some(opened) => {
            let run = run_of(alloc, plan, script, base, &opened.schemas);
            both(opened, run)
        }
        None => Err(NoMemory),
    }
}

/// What is asked for the run of a script that breaks no rule on the store that was found, to be told in a form. Else the
/// reply, with the parts.
pub(crate) fn run_on<P: Parts>(
    alloc: Global,
    plan: &Plan,
    form: Form,
    script: Script,
    judged: Judged<P>,
) -> Result<FoundRun<P>, Answered<P>>
    requires { IsJudged plan.now script judged.found.store judged.base }
    ensures foretells { (given : List P) → IsStoredBy (ReadAll P.disks given) judged.found.store → IfOk result (λ run. Foretells (RepliesRun (ReadAll P.disks given) (running_of plan.now.command) form plan.now.repos script) run.expected) }
    ensures awaits { (given : List P) → IsStoredBy (ReadAll P.disks given) judged.found.store → IfOk result (λ run. Awaits (ReadAll P.disks given) plan.now form script run.expected) }
    ensures found { IfOk result (λ run. run.found ≡ judged.found) }
    ensures reply { IfErr result (λ a. IfOk a.reply RepliesUnsettled) }
    ensures parts { IfErr result (λ a. vec_len a.parts ≡ parts_in judged.found) }
    ensures never { (repo : ℕ) → IfErr result (λ a. a.reply ≡ Ok (DiskFault repo) → ⊥) }
{
    let Judged { base, found } = judged;
    let prepared = prepared(alloc, plan, &script, &base, &found);
    drop(base);
    match prepared {
        Ok((opened, run)) => Ok(FoundRun {
            found,
            run,
            expected: Expected {
                running: running_of(plan.command),
                form,
                script,
                opened,
            },
        }),
        Err(NoMemory) => {
            drop(script);
            Err(unplayed(alloc, Err(NoMemory), found.into_parts()))
        }
    }
}
