//! How an entry is written: into the log, then into what is held in memory, then into the trace.

ghost use Rattle.std.specs.Prelude.{◌≡◌, IfErr, IfOk, IsErrOf, IsTrue, Ok, OnErr, OnOk, cond, false, length, nat_eq, true, ℕ, Some, []};
ghost use Rattle.log_entries.specs.declared.request.Request.{Request as ARequest};
ghost use Rattle.log_entries.specs.declared.entry.Entry.TheVariants.{Life as ALife, Prepared as Prepares};
ghost use Rattle.repo_state.specs.Entering.{can_enter, entered, loaded};
ghost use Rattle.repo_state.specs.Keeps.{Keeps, TableFits};
ghost use Rattle.repo_sessions.specs.Sessions.{ended, acknowledged};
ghost use Rattle.log_codec.specs.Grammar.{BodyFits};
ghost use Rattle.log_codec.specs.declared.body.Body.TheVariants.{Entry as AnEntry};
ghost use Rattle.repo_core.specs.Objects.{ObjectsTake};
ghost use Rattle.repo_core.specs.Behind.{Stands, is_marked};
ghost use Rattle.repo_core.specs.Calls.{CanWrite, Comes, ComesIn, IsTold};
ghost use Rattle.repo_core.specs.Moving.{Falls};
ghost use Rattle.repo_durable.specs.Kept.{IsKept, disks_of, held_of, is_fault, is_torn, is_up, repo_named};
ghost use Rattle.repo_durable.specs.Saying.{IsAhead, IsSaid};
ghost use Rattle.law_repo_memory.specs.Coming.{Becomes, BeginsLife, Moves, Reopens, alone_queue, decided_queue};
ghost use Rattle.thor_value.specs.FiniteMap.{add, has};
ghost use Rattle.thor_value.specs.declared.names.Ts.{Ts as ATs};
ghost use Rattle.repo_trace.specs.Recorded.{with_entry};
ghost use Rattle.two_phase.specs.Contents.{open_at};
ghost use Rattle.validation_queue.specs.Contents.{cleared, with_one};
ghost use Rattle.repo_volatile.specs.Volatile.{entered as entered_memory, transaction_of, Outlasts};
ghost use Rattle.repo_core.specs.Refusing.{GoesDown};
ghost use Rattle.repo_core.specs.Shown.{faults_of, ShowsPages};
ghost use Rattle.repo_core.specs.Telling.{Tells, next_epoch};
ghost use Rattle.repo_durable.specs.Failing.{HasFailed, NoFewer, is_stopped};
ghost use Rattle.repo_volatile.specs.Telling.{CommitTold, TellsDecided};
ghost use Rattle.law_repo_memory.specs.Running.{came_with};
ghost use Rattle.repo_refusals.specs.declared.refusal.Refusal.TheVariants.{Damaged as IsDamaged, NoMemory as IsNoMemory, Stopped as IsStopped};
ghost use Rattle.repo_durable.specs.Pages.{HasPages};

use crate::looks::epoch_of;
use crate::repo::Repo;
use disk_trait::Parts;
use log_entries::{Entry, Request};
use repo_durable::Stable;
use repo_refusals::Refusal;
use repo_state::HeldState;
use repo_trace::Recorder;
use repo_volatile::Memory;
use thor_value::{NoMemory, Ts};
use two_phase::Table;

impl<P: Parts> Repo<P> {
    /// Writes an entry. The answer is its place.
    ///
    /// After a refusal the repository is down, and the entry is pending if the log may have it.
    #[tactic(auto, using(crate::proofs::Readable::shown_has, crate::proofs::Falls::keeps_up, crate::proofs::Refused::falls_with, crate::proofs::Refused::falls_pending, crate::proofs::Refused::falls_behind, crate::proofs::Refused::moved_none, crate::proofs::Refused::lasts_same, crate::proofs::Failing::failed_between, crate::proofs::Failing::stopped_memory, crate::proofs::Failing::fewer_same, crate::proofs::Objects::objects_held))]
    pub(crate) fn write(&mut self, entry: Entry) -> Result<u64, Refusal>
        requires can { CanWrite self.old.held self.old.memory entry }
        requires up { self.old.is_up ≡ true }
        ensures stands { Stands true result self.new.is_up }
        ensures readable { ShowsPages self.old → ShowsPages self.new }
        ensures fault { IfErr result (λ r. (is_fault r ≡ true) × (is_marked r ≡ false)) }
        ensures place { IfOk result (λ place. place ≡ length self.old.trace.history) }
        ensures held { OnOk result (self.new.held ≡ entered self.old.held entry) }
        ensures limit { OnOk result (self.new.held.objects.mob.limit ≡ self.old.held.objects.mob.limit) }
        ensures ended { (n : ℕ) → entry ≡ ALife n → OnOk result (self.new.memory.sessions ≡ ended self.old.memory.sessions) }
        ensures memory { (q : ARequest) → entry ≡ Prepares q → OnOk result (self.new.memory ≡ entered_memory self.old.memory q false) }
        ensures moves { IsTold self.old.memory entry → OnOk result (Moves self.old.held self.old.memory entry self.new.memory) }
        ensures tells { OnOk result (Tells self.old.held self.old.memory.sessions (length self.old.trace.history) entry self.new.memory.sessions) }
        ensures trace { OnOk result (self.new.trace ≡ with_entry self.old.trace entry) }
        ensures refused { OnErr result (self.new.trace ≡ self.old.trace) }
        ensures left { OnErr result (GoesDown self.old self.new (Some entry)) }
        ensures names { IfErr result (λ r. repo_named self.old.held.repo r ≡ self.old.held.repo) }
        ensures damaged { (n place : ℕ) → IsErrOf result (IsDamaged n place) → ⊥ }
        ensures pages { self.new.pages ≡ self.old.pages }
        ensures objects { OnOk result (ObjectsTake (loaded self.old.held entry) self.old self.new) }
        ensures rested { OnErr result (ObjectsTake [] self.old self.new) }
        ensures stopped { (n : ℕ) → IsErrOf result (IsStopped n) → HasFailed (faults_of self.old) (faults_of self.new) }
        ensures counts { NoFewer (faults_of self.old) (faults_of self.new) }
        ensures steady { OnOk result (self.new.faults ≡ self.old.faults) }
        ensures quiet { IfErr result (λ r. is_stopped r ≡ false → self.new.faults ≡ self.old.faults) }
        ensures clock { self.new.clock ≡ self.old.clock }
        ensures opened { self.new.opened_in ≡ self.old.opened_in }
    {
        if self.trace.reserve().is_err() {
            self.stable.take_down();
            return Err(Refusal::NoMemory);
        }
        let entry = self.stable.append(entry)?;
        let told = tell(
            self.stable.held(),
            &mut self.memory,
            self.trace.place(),
            &entry,
        );
        record(&mut self.stable, &mut self.trace, entry, told)
    }
}

/// Takes an entry that the log has into what is held of the log's state, and into the trace, once the rest
/// of what is in memory has it. After `NoMemory` the repository is down: the entry is pending where it wasn't told.
#[tactic(auto, using(crate::proofs::Entered::falls_told, crate::proofs::Entered::falls_torn, repo_state::proofs::Limits::entered_limit))]
pub(crate) fn record<P: Parts>(
    stable: &mut Stable<P>,
    trace: &mut Recorder,
    entry: Entry,
    told: Result<(), NoMemory>,
) -> Result<u64, Refusal>
    requires fits { BodyFits (AnEntry entry) }
    requires takes { IsTrue (can_enter (held_of stable.old) entry) }
    requires up { is_up stable.old ≡ true }
    requires kept { IsKept P.disks stable.old }
    requires ahead { IsAhead P.disks stable.old entry }
    ensures kept { IsKept P.disks stable.new }
    ensures readable { HasPages P.disks stable.old → HasPages P.disks stable.new }
    ensures says { IsSaid P.disks stable.new }
    ensures stands { Stands true result (is_up stable.new) }
    ensures fault { IfErr result (λ r. (is_fault r ≡ true) × (is_marked r ≡ false)) }
    ensures told { OnOk result (told ≡ Ok tt) }
    ensures place { IfOk result (λ place. place ≡ length trace.old.history) }
    ensures held { OnOk result (held_of stable.new ≡ entered (held_of stable.old) entry) }
    ensures limit { OnOk result ((held_of stable.new).objects.mob.limit ≡ (held_of stable.old).objects.mob.limit) }
    ensures trace { OnOk result (trace.new ≡ with_entry trace.old entry) }
    ensures refused { OnErr result (trace.new ≡ trace.old) }
    ensures left { OnErr result (Falls stable.old stable.new entry) }
    ensures torn { told ≡ Ok tt → OnErr result (is_torn stable.new ≡ true) }
    ensures refusal { IfErr result (λ r. r ≡ IsNoMemory) }
    ensures pages { (disks_of P.disks stable.new).content 2 ≡ (disks_of P.disks stable.old).content 2 }
    ensures clock { (disks_of P.disks stable.new).clock ≡ (disks_of P.disks stable.old).clock }
    ensures faults { (d : ℕ) → (disks_of P.disks stable.new).faults d ≡ (disks_of P.disks stable.old).faults d }
{
    if told.is_err() {
        stable.pend(entry);
        return Err(Refusal::NoMemory);
    }
    let Ok(entry) = stable.enter(entry) else {
        return Err(Refusal::NoMemory);
    };
    match trace.put_entry(entry) {
        Ok(place) => Ok(place),
        Err(entry) => {
            stable.fail_with(entry);
            Err(Refusal::NoMemory)
        }
    }
}

/// Tells the queue and the sessions of an entry at a place, before it is entered. After `NoMemory` they begin anew with
/// the next life.
fn tell(held: &HeldState, memory: &mut Memory, place: u64, entry: &Entry) -> Result<(), NoMemory>
    requires comes { ComesIn memory.old entry.now }
    requires keeps { Keeps held.now }
    ensures ended { (n : ℕ) → entry.now ≡ ALife n → OnOk result (memory.new.sessions ≡ ended memory.old.sessions) }
    ensures prepared { (q : ARequest) → entry.now ≡ Prepares q → OnOk result (memory.new ≡ entered_memory memory.old q false) }
    ensures moves { IsTold memory.old entry.now → OnOk result (Moves held.now memory.old entry.now memory.new) }
    ensures tells { OnOk result (Tells held.now memory.old.sessions place entry.now memory.new.sessions) }
    ensures lasts { Outlasts memory.old memory.new }
{
    let number = next_number(held);
    match entry {
        Entry::Life { .. } => begin_life(held, memory),
        Entry::Prepared { request } => memory.enter(request, false),
        Entry::One { request } => tell_alone(memory, request, number, place),
        Entry::Upgraded { request } => tell_alone(memory, request, number, place),
        Entry::Decided { tx, commit } => tell_decision(held, memory, *tx, *commit, number, place),
        Entry::Finished { tx, commit } => tell_decision(held, memory, *tx, *commit, number, place),
    }
}

/// The number of the next upgrade. A count that would pass the greatest `u32` stays there.
fn next_number(held: &HeldState) -> u32
    ensures { result ≡ next_epoch held.now }
{
    epoch_of(held).saturating_add(1)
}

/// Tells of a request that commits here alone.
fn tell_alone(
    memory: &mut Memory,
    request: &Request,
    number: u32,
    place: u64,
) -> Result<(), NoMemory>
    requires { Comes memory.old request.now }
    ensures moves { OnOk result (Becomes memory.new (alone_queue memory.old.queue request.now) (add memory.old.requested request.now.tx) memory.old.drawn) }
    ensures news { OnOk result (CommitTold (acknowledged memory.old.sessions request.now.session request.now.upto) memory.new.sessions request.now number place) }
    ensures lasts { Outlasts memory.old memory.new }
{
    memory.enter(request, true)?;
    memory.tell(request, number, place)
}

/// Tells of the decision on a transaction that is open here.
fn tell_decision(
    held: &HeldState,
    memory: &mut Memory,
    tx: Ts,
    commit: bool,
    number: u32,
    place: u64,
) -> Result<(), NoMemory>
    ensures moves { has memory.old.queue.members tx ≡ true → OnOk result (Becomes memory.new (decided_queue memory.old.queue tx commit (open_at held.now.table tx)) memory.old.requested memory.old.drawn) }
    ensures news { OnOk result (TellsDecided memory.old.sessions memory.new.sessions number place commit (open_at held.now.table tx)) }
    ensures lasts { Outlasts memory.old memory.new }
{
    memory.decide(tx, commit);
    match held.table().open_request(tx) {
        Some(request) if commit => memory.tell(request, number, place),
        _ => Ok(()),
    }
}

/// Begins a life: the sessions end, and of the transactions that came since the opening those stand in the
/// queue that stay undecided. The life aborts those that this repository coordinates.
#[tactic(auto, using(repo_volatile::proofs::Lasting::stayed, repo_volatile::proofs::Lasting::lasts_itself))]
fn begin_life(held: &HeldState, memory: &mut Memory) -> Result<(), NoMemory>
    requires { Keeps held.now }
    ensures begins { OnOk result (BeginsLife held.now memory.old memory.new) }
    ensures ended { OnOk result (memory.new.sessions ≡ ended memory.old.sessions) }
    ensures lasts { Outlasts memory.old memory.new }
{
    memory.begin(held.threshold())?;
    load_open(memory, held.table(), held.repo())
}

/// Notes the transaction of a pending entry, which the disks have, before the next life.
#[tactic(auto, using(repo_volatile::proofs::Lasting::lasts_itself))]
pub(crate) fn note(memory: &mut Memory, entry: &Entry) -> Result<(), NoMemory>
    ensures sessions { memory.new.sessions ≡ memory.old.sessions }
    ensures requested { OnOk result (memory.new.requested ≡ came_with memory.old.requested entry.now) }
    ensures lasts { Outlasts memory.old memory.new }
{
    match entry {
        Entry::One { request } | Entry::Prepared { request } | Entry::Upgraded { request } => {
            memory.note(request.tx)
        }
        Entry::Life { .. } | Entry::Decided { .. } | Entry::Finished { .. } => Ok(()),
    }
}

/// Puts the open requests of transactions that another repository than this one coordinates into the queue.
fn load_open(memory: &mut Memory, table: &Table, repo: u8) -> Result<(), NoMemory>
    requires fits { TableFits repo table.now }
    requires empty { (t : ATs) × (memory.old.queue ≡ cleared t) }
    ensures sessions { memory.new.sessions ≡ memory.old.sessions }
    ensures reopens { OnOk result (Reopens repo table.now memory.old memory.new) }
    ensures requested { memory.new.requested ≡ memory.old.requested }
{
    let mut after = None;
    for _ in 0..u32::MAX {
        let Some(request) = table.next_open(after) else {
            return Ok(());
        };
        load_other(memory, request, repo)?;
        after = Some(request.tx);
    }
    Err(NoMemory)
}

/// Puts an open request into the queue, where another repository than this one coordinates its transaction.
fn load_other(memory: &mut Memory, request: &Request, repo: u8) -> Result<(), NoMemory>
    ensures sessions { memory.new.sessions ≡ memory.old.sessions }
    ensures own { nat_eq request.now.tx.repo repo ≡ true → memory.new ≡ memory.old }
    ensures other { nat_eq request.now.tx.repo repo ≡ false → OnOk result (memory.new.queue ≡ cond (has memory.old.requested request.now.tx) (with_one memory.old.queue (transaction_of request.now) false) memory.old.queue) }
    ensures requested { memory.new.requested ≡ memory.old.requested }
    ensures drawn { memory.new.drawn ≡ memory.old.drawn }
{
    if request.tx.repo == repo {
        return Ok(());
    }
    memory.load(request)
}
