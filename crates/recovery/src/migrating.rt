//! A repository of the older format is moved into the one that is written.

ghost use Rattle.commit_log.specs.Holds.{Holds, SaysEither};
ghost use Rattle.commit_log.specs.Recovered.{in_format, is_whole};
ghost use Rattle.commit_log.specs.Values.{migrated};
ghost use Rattle.disk_trait.specs.AllDisks.{GoesOn, LeavesAll, NoFault, ReadsAs, TellsAll};
ghost use Rattle.disk_trait.specs.Disks.{Disks, NoNewImage, Rose, WhereTold};
ghost use Rattle.log_codec.specs.Checkpoint.{StateFits};
ghost use Rattle.log_codec.specs.declared.state.State.{State as AState};
ghost use Rattle.mob_buffer.specs.Buffer.{AreDistinct, AreOf};
ghost use Rattle.page_format.specs.declared.format.StoreFormat.TheVariants.{One, Two};
ghost use Rattle.page_store.specs.Sides.{ReachesSides};
ghost use Rattle.page_store.specs.Store.{Agrees};
ghost use Rattle.recovery.specs.Found.{recorded};
ghost use Rattle.recovery.specs.Migrating.{Becomes, IsMigrated, PutsPage, SaysMigrated};
ghost use Rattle.recovery.specs.Faults.{log_fault, page_fault};
ghost use Rattle.recovery.specs.Paged.{AreObjectPages, AreOnPage, ArePaged, HasRoom, HasRoomForAll, HasSides, IsOnSide, Stays};
ghost use Rattle.recovery.specs.declared.fault.RecoverFault.TheVariants.{Damaged, Failed, NoMemory as OutOfMemory};
ghost use Rattle.repo_state.specs.Keeps.{IsUnread, Keeps};
ghost use Rattle.repo_state.specs.Said.{said, spelled};
ghost use Rattle.std.specs.Prelude.{IfOk, IsErrOf, IsTrue, List, OnOk, [], ◌+◌, ◌<◌, ◌^◌, ◌≡◌, ℕ};
ghost use Rattle.thor_value.specs.declared.names.Oref.{Oref as AnOref};
ghost use Rattle.thor_value.specs.declared.values.Obj.{Obj as AnObj};

use crate::fault::RecoverFault;
use crate::pages::read_objects;
use crate::recovered::Recovered;
use commit_log::CommitLog;
use disk_trait::{Disk, Parts};
use log_codec::State;
use log_frame::LogFault;
use page_format::{Sides, StoreFormat};
use page_store::StoreFault;
use repo_state::{HeldState, merged};
use std::alloc::Global;
use thor_value::{NoMemory, PAGES, REPOSITORIES, Writes, both};

/// The end of the counts of entries, and of sequences.
const END: u64 = 1 << 62;

/// Moves a repository of the older format into the one that is written, and leaves any other as it is.
///
/// The objects of its pages are read, a disk call for each installed page, pages rising. Then a checkpoint of the newer format is
/// written to the other log disk, which has no installed page and all objects in its buffer: those of the pages rising, each with
/// its newer value from the buffer, and behind them the other buffered ones in their order. Whether they pass the buffer's limit
/// isn't tested. From then on the disk of pages holds nothing that counts.
///
/// At each moment a crash leaves what was there, or that checkpoint: both say the same objects, and the same prepared requests,
/// decisions, threshold and upgrades. `Damaged` comes only where some disk doesn't tell its bytes. Want of memory, too, where
/// the log's sequence or the count of entries is the last one.
pub fn migrate<P: Parts>(
    alloc: Global,
    parts: &mut P,
    recovered: Recovered,
) -> Result<Recovered, RecoverFault>
    requires holds { Holds (P.disks parts.old) recovered.log (recorded recovered) }
    requires keeps { Keeps recovered.state }
    requires pages { (disk : List ℕ) → ReachesSides recovered.state.objects.pages.sides disk → Agrees recovered.state.objects.pages disk }
    requires sides { WhereTold (P.disks parts.old) 2 (HasSides recovered.format recovered.state.objects.pages.sides) }
    requires paged { WhereTold (P.disks parts.old) 2 (AreObjectPages recovered.format recovered.state.repo recovered.state.objects.pages.sides) }
    ensures goes { GoesOn (P.disks parts.old) (P.disks parts.new) }
    ensures any_moment { TellsAll (P.disks parts.old) → (images : ℕ → List ℕ) → ReadsAs (P.disks parts.old) images → LeavesAll (P.disks parts.old) (P.disks parts.new) (SaysMigrated (recorded recovered) (images 2)) }
    ensures format { IfOk result (λ r. r.format ≡ Two) }
    ensures holds { IfOk result (λ r. Holds (P.disks parts.new) r.log (said r.state)) }
    ensures keeps { IfOk result (λ r. Keeps r.state) }
    ensures pages { IfOk result (λ r. (disk : List ℕ) → ReachesSides r.state.objects.pages.sides disk → Agrees r.state.objects.pages disk) }
    ensures becomes { (images : ℕ → List ℕ) → ReadsAs (P.disks parts.old) images → IfOk result (λ r. Becomes recovered.format (recorded recovered) (images 2) (said r.state)) }
    ensures limit { IfOk result (λ r. r.state.objects.mob.limit ≡ recovered.state.objects.mob.limit) }
    ensures stays { IfOk result (λ r. r.state ≡ record recovered.state { objects = r.state.objects; next_page = r.state.next_page }) }
    ensures content { (P.disks parts.new).content 2 ≡ (P.disks parts.old).content 2 }
    ensures still { NoNewImage (P.disks parts.old) (P.disks parts.new) 2 }
    ensures clock { (P.disks parts.new).clock ≡ (P.disks parts.old).clock }
    ensures damaged { (d place : ℕ) → IsErrOf result (Damaged d place) → TellsAll (P.disks parts.old) → ⊥ }
    ensures failed { (d : ℕ) → IsErrOf result (Failed d) → Rose ((P.disks parts.old).faults d) ((P.disks parts.new).faults d) }
    ensures steady { OnOk result (NoFault (P.disks parts.old) (P.disks parts.new)) }
    ensures wanting { IsErrOf result OutOfMemory → NoFault (P.disks parts.old) (P.disks parts.new) }
{
    match recovered.format {
        StoreFormat::Two => Ok(recovered),
        StoreFormat::One => move_older(alloc, parts, recovered),
    }
}

/// Moves a repository of the older format.
fn move_older<P: Parts>(
    alloc: Global,
    parts: &mut P,
    recovered: Recovered,
) -> Result<Recovered, RecoverFault>
    requires older { recovered.format ≡ One }
    requires holds { Holds (P.disks parts.old) recovered.log (recorded recovered) }
    requires keeps { Keeps recovered.state }
    requires sides { WhereTold (P.disks parts.old) 2 (HasSides One recovered.state.objects.pages.sides) }
    requires paged { WhereTold (P.disks parts.old) 2 (AreObjectPages One recovered.state.repo recovered.state.objects.pages.sides) }
    ensures goes { GoesOn (P.disks parts.old) (P.disks parts.new) }
    ensures any_moment { TellsAll (P.disks parts.old) → (images : ℕ → List ℕ) → ReadsAs (P.disks parts.old) images → LeavesAll (P.disks parts.old) (P.disks parts.new) (SaysMigrated (recorded recovered) (images 2)) }
    ensures format { IfOk result (λ r. r.format ≡ Two) }
    ensures holds { IfOk result (λ r. Holds (P.disks parts.new) r.log (said r.state)) }
    ensures keeps { IfOk result (λ r. Keeps r.state) }
    ensures pages { IfOk result (λ r. (disk : List ℕ) → ReachesSides r.state.objects.pages.sides disk → Agrees r.state.objects.pages disk) }
    ensures becomes { (images : ℕ → List ℕ) → ReadsAs (P.disks parts.old) images → IfOk result (λ r. IsMigrated (recorded recovered) (images 2) (said r.state)) }
    ensures limit { IfOk result (λ r. r.state.objects.mob.limit ≡ recovered.state.objects.mob.limit) }
    ensures stays { IfOk result (λ r. r.state ≡ record recovered.state { objects = r.state.objects; next_page = r.state.next_page }) }
    ensures content { (P.disks parts.new).content 2 ≡ (P.disks parts.old).content 2 }
    ensures still { NoNewImage (P.disks parts.old) (P.disks parts.new) 2 }
    ensures clock { (P.disks parts.new).clock ≡ (P.disks parts.old).clock }
    ensures damaged { (d place : ℕ) → IsErrOf result (Damaged d place) → TellsAll (P.disks parts.old) → ⊥ }
    ensures failed { (d : ℕ) → IsErrOf result (Failed d) → Rose ((P.disks parts.old).faults d) ((P.disks parts.new).faults d) }
    ensures steady { OnOk result (NoFault (P.disks parts.old) (P.disks parts.new)) }
    ensures wanting { IsErrOf result OutOfMemory → NoFault (P.disks parts.old) (P.disks parts.new) }
{
    let Recovered {
        state: held,
        log,
        format: _,
        count: _,
        reopens,
    } = recovered;
    match moved_state(alloc, parts, &held) {
        Ok(state) => {
            let count = state.count;
            let (state, log) = begin_older(alloc, parts, held, log, state)?;
            Ok(Recovered {
                state,
                log,
                format: StoreFormat::Two,
                count,
                reopens,
            })
        }
        Err(fault) => {
            drop(held);
            drop(log);
            Err(fault)
        }
    }
}

/// A repository of the older format goes on with a state that was made of what is in memory, and with the log that begins with it.
fn begin_older<P: Parts>(
    alloc: Global,
    parts: &mut P,
    held: HeldState,
    log: CommitLog,
    state: State,
) -> Result<(HeldState, CommitLog), RecoverFault>
    requires fits { StateFits state }
    requires whole { IsTrue (is_whole state) }
    requires same { state ≡ record (spelled held) { installed = state.installed; mob = state.mob } }
    requires keeps { Keeps held }
    requires holds { (s : AState) × Holds (P.disks parts.old) log s }
    ensures goes { GoesOn (P.disks parts.old) (P.disks parts.new) }
    ensures any_moment { (s : AState) → Holds (P.disks parts.old) log s → TellsAll (P.disks parts.old) → LeavesAll (P.disks parts.old) (P.disks parts.new) (SaysEither s state) }
    ensures holds { IfOk result (λ begun. Holds (P.disks parts.new) begun.1 (said begun.0)) }
    ensures keeps { IfOk result (λ begun. Keeps begun.0) }
    ensures said { IfOk result (λ begun. said begun.0 ≡ state) }
    ensures unread { IfOk result (λ begun. IsUnread begun.0.objects.pages) }
    ensures limit { IfOk result (λ begun. begun.0.objects.mob.limit ≡ held.objects.mob.limit) }
    ensures stays { IfOk result (λ begun. begun.0 ≡ record held { objects = begun.0.objects; next_page = begun.0.next_page }) }
    ensures pages { (P.disks parts.new).content 2 ≡ (P.disks parts.old).content 2 }
    ensures still { NoNewImage (P.disks parts.old) (P.disks parts.new) 2 }
    ensures clock { (P.disks parts.new).clock ≡ (P.disks parts.old).clock }
    ensures damaged { (d place : ℕ) → IsErrOf result (Damaged d place) → ⊥ }
    ensures failed { (d : ℕ) → IsErrOf result (Failed d) → Rose ((P.disks parts.old).faults d) ((P.disks parts.new).faults d) }
    ensures steady { OnOk result (NoFault (P.disks parts.old) (P.disks parts.new)) }
    ensures wanting { IsErrOf result OutOfMemory → NoFault (P.disks parts.old) (P.disks parts.new) }
{
    let limit = held.objects().mob().limit();
    match begin(alloc, parts, log, state, limit) {
        Ok((moved, log)) => Ok((taken(held, moved), log)),
        Err(fault) => {
            drop(held);
            Err(fault)
        }
    }
}

/// A state with the objects of one that was made of its checkpoint.
fn taken(held: HeldState, moved: HeldState) -> HeldState
    requires { moved.repo ≡ held.repo }
    ensures keeps { Keeps moved → Keeps held → Keeps result }
    ensures held { result ≡ record held { objects = moved.objects; next_page = held.next_grant } }
{
    let mut held = held;
    held.take_moved(moved);
    held
}

/// The state in memory, with the log that begins with it.
fn begin<P: Parts>(
    alloc: Global,
    parts: &mut P,
    log: CommitLog,
    state: State,
    limit: u32,
) -> Result<(HeldState, CommitLog), RecoverFault>
    requires fits { StateFits state }
    requires whole { IsTrue (is_whole state) }
    requires format { state.format ≡ Two }
    requires holds { (s : AState) × Holds (P.disks parts.old) log s }
    ensures goes { GoesOn (P.disks parts.old) (P.disks parts.new) }
    ensures any_moment { (s : AState) → Holds (P.disks parts.old) log s → TellsAll (P.disks parts.old) → LeavesAll (P.disks parts.old) (P.disks parts.new) (SaysEither s state) }
    ensures holds { IfOk result (λ begun. Holds (P.disks parts.new) begun.1 state) }
    ensures keeps { IfOk result (λ begun. Keeps begun.0) }
    ensures said { IfOk result (λ begun. said begun.0 ≡ state) }
    ensures unread { IfOk result (λ begun. IsUnread begun.0.objects.pages) }
    ensures limit { IfOk result (λ begun. begun.0.objects.mob.limit ≡ limit) }
    ensures pages { (P.disks parts.new).content 2 ≡ (P.disks parts.old).content 2 }
    ensures still { NoNewImage (P.disks parts.old) (P.disks parts.new) 2 }
    ensures clock { (P.disks parts.new).clock ≡ (P.disks parts.old).clock }
    ensures damaged { (d place : ℕ) → IsErrOf result (Damaged d place) → ⊥ }
    ensures failed { (d : ℕ) → IsErrOf result (Failed d) → Rose ((P.disks parts.old).faults d) ((P.disks parts.new).faults d) }
    ensures steady { OnOk result (NoFault (P.disks parts.old) (P.disks parts.new)) }
    ensures wanting { IsErrOf result OutOfMemory → NoFault (P.disks parts.old) (P.disks parts.new) }
{
    match begin_log(parts, log, &state) {
        Ok(log) => {
            let (begun, held) = both(log, hold(alloc, state, limit))?;
            Ok((held, begun))
        }
        Err(fault) => {
            drop(state);
            Err(fault)
        }
    }
}

/// The state that is written: that in memory, with the objects of all installed pages in its buffer, and no page installed.
#[tactic(auto, using(crate::proofs::Moving::stays_none))]
fn moved_state<P: Parts>(
    alloc: Global,
    parts: &mut P,
    held: &HeldState,
) -> Result<State, RecoverFault>
    requires keeps { Keeps held.now }
    requires sides { WhereTold (P.disks parts.old) 2 (HasSides One held.now.objects.pages.sides) }
    requires paged { WhereTold (P.disks parts.old) 2 (AreObjectPages One held.now.repo held.now.objects.pages.sides) }
    ensures stays { Stays (P.disks parts.old) (P.disks parts.new) }
    ensures fits { IfOk result StateFits }
    ensures whole { IfOk result (λ state. IsTrue (is_whole state)) }
    ensures same { IfOk result (λ state. state ≡ record (spelled held.now) { installed = state.installed; mob = state.mob }) }
    ensures moved { (images : ℕ → List ℕ) → ReadsAs (P.disks parts.old) images → IfOk result (IsMigrated (in_format One (said held.now)) (images 2)) }
    ensures damaged { (d place : ℕ) → IsErrOf result (Damaged d place) → TellsAll (P.disks parts.old) → ⊥ }
    ensures failed { (d : ℕ) → IsErrOf result (Failed d) → (d ≡ 2) × Rose ((P.disks parts.old).faults 2) ((P.disks parts.new).faults 2) }
    ensures steady { OnOk result ((P.disks parts.new).faults 2 ≡ (P.disks parts.old).faults 2) }
    ensures wanting { IsErrOf result OutOfMemory → (P.disks parts.new).faults 2 ≡ (P.disks parts.old).faults 2 }
{
    let before = spell(held)?;
    match read_paged(alloc, parts, before.repo, &before.installed) {
        Ok(paged) => {
            let state = with_objects(alloc, before, paged)?;
            Ok(state)
        }
        Err(fault) => {
            drop(before);
            Err(fault)
        }
    }
}

/// The state in memory, as a checkpoint spells it. There is no memory for the last count of entries, nor for a repository that no
/// name has.
fn spell(held: &HeldState) -> Result<State, NoMemory>
    requires { Keeps held.now }
    ensures spelled { IfOk result (λ state. state ≡ spelled held.now) }
    ensures fits { IfOk result StateFits }
    ensures whole { IfOk result (λ state. IsTrue (is_whole state)) }
    ensures few { IfOk result (λ state. state.repo < 8) }
{
    if held.count() >= END {
        return Err(NoMemory);
    }
    let state = held.state()?;
    if state.repo >= REPOSITORIES {
        drop(state);
        return Err(NoMemory);
    }
    Ok(state)
}

/// The objects of all installed pages of a repository of the older format, pages and slots rising: a disk call for each.
#[tactic(auto, using(crate::proofs::Moving::stays_none))]
fn read_paged<P: Parts>(
    alloc: Global,
    parts: &mut P,
    repo: u8,
    installed: &Sides,
) -> Result<Writes, RecoverFault>
    requires { HasRoomForAll One (P.disks parts.old) installed.now }
    ensures stays { Stays (P.disks parts.old) (P.disks parts.new) }
    ensures paged { IfOk result (λ objects. WhereTold (P.disks parts.old) 2 (λ disk. ArePaged One repo disk installed.now objects)) }
    ensures own { repo < 8 → IfOk result (AreOf repo) }
    ensures distinct { IfOk result AreDistinct }
    ensures damaged { (d place : ℕ) → IsErrOf result (Damaged d place) → WhereTold (P.disks parts.old) 2 (λ disk. AreObjectPages One repo installed.now disk → ⊥) }
    ensures failed { (d : ℕ) → IsErrOf result (Failed d) → (d ≡ 2) × Rose ((P.disks parts.old).faults 2) ((P.disks parts.new).faults 2) }
    ensures steady { OnOk result ((P.disks parts.new).faults 2 ≡ (P.disks parts.old).faults 2) }
    ensures wanting { IsErrOf result OutOfMemory → (P.disks parts.new).faults 2 ≡ (P.disks parts.old).faults 2 }
{
    let mut paged = Writes::new(alloc);
    for page in installed.as_slice() {
        put_page(alloc, parts, repo, *page, &mut paged)?;
    }
    Ok(paged)
}

/// Puts the objects of one of them behind others.
fn put_page<P: Parts>(
    alloc: Global,
    parts: &mut P,
    repo: u8,
    installed: (u32, u8),
    paged: &mut Writes,
) -> Result<(), RecoverFault>
    requires { HasRoom One (P.disks parts.old) installed }
    ensures stays { Stays (P.disks parts.old) (P.disks parts.new) }
    ensures put { OnOk result (PutsPage repo (P.disks parts.old) installed paged.old paged.new) }
    ensures damaged { (d place : ℕ) → IsErrOf result (Damaged d place) → WhereTold (P.disks parts.old) 2 (λ disk. (objects : List (AnOref × AnObj)) → IsOnSide One repo disk installed objects → ⊥) }
    ensures failed { (d : ℕ) → IsErrOf result (Failed d) → (d ≡ 2) × Rose ((P.disks parts.old).faults 2) ((P.disks parts.new).faults 2) }
    ensures steady { OnOk result ((P.disks parts.new).faults 2 ≡ (P.disks parts.old).faults 2) }
    ensures wanting { IsErrOf result OutOfMemory → (P.disks parts.new).faults 2 ≡ (P.disks parts.old).faults 2 }
{
    let objects = read_page(alloc, parts, repo, installed)?;
    paged.append(objects)?;
    Ok(())
}

/// The objects of an installed page. There is no memory for a page that no name has.
#[tactic(auto, using(crate::proofs::Moving::stays_none))]
fn read_page<P: Parts>(
    alloc: Global,
    parts: &mut P,
    repo: u8,
    installed: (u32, u8),
) -> Result<Writes, RecoverFault>
    requires { HasRoom One (P.disks parts.old) installed }
    ensures stays { Stays (P.disks parts.old) (P.disks parts.new) }
    ensures small { OnOk result (installed.0 < 65536) }
    ensures page { IfOk result (AreOnPage repo installed.0) }
    ensures found { IfOk result (λ objects. WhereTold (P.disks parts.old) 2 (λ disk. IsOnSide One repo disk installed objects)) }
    ensures damaged { (d place : ℕ) → IsErrOf result (Damaged d place) → WhereTold (P.disks parts.old) 2 (λ disk. (objects : List (AnOref × AnObj)) → IsOnSide One repo disk installed objects → ⊥) }
    ensures failed { (d : ℕ) → IsErrOf result (Failed d) → (d ≡ 2) × Rose ((P.disks parts.old).faults 2) ((P.disks parts.new).faults 2) }
    ensures steady { OnOk result ((P.disks parts.new).faults 2 ≡ (P.disks parts.old).faults 2) }
    ensures wanting { IsErrOf result OutOfMemory → (P.disks parts.new).faults 2 ≡ (P.disks parts.old).faults 2 }
{
    if installed.0 >= PAGES {
        return Err(RecoverFault::NoMemory);
    }
    match read_objects(alloc, parts, StoreFormat::One, repo, installed) {
        Ok(objects) => Ok(objects),
        Err(fault) => Err(page_fault(fault)),
    }
}

/// A state with these objects of its pages below those of its buffer.
fn with_objects(alloc: Global, state: State, paged: Writes) -> Result<State, NoMemory>
    requires paged { AreOf state.repo paged }
    requires distinct { AreDistinct paged }
    requires buffer { AreOf state.repo state.mob }
    requires fits { StateFits state }
    requires whole { IsTrue (is_whole state) }
    ensures moved { IfOk result (λ moved. moved ≡ migrated paged state) }
    ensures fits { IfOk result StateFits }
    ensures whole { IfOk result (λ moved. IsTrue (is_whole moved)) }
{
    match merged(alloc, state.repo, paged, &state.mob) {
        Ok(objects) => Ok(on_no_page(alloc, state, objects)),
        Err(fault) => {
            drop(state);
            Err(fault)
        }
    }
}

/// A state with these objects in its buffer, and no page installed.
fn on_no_page(alloc: Global, state: State, objects: Writes) -> State
    ensures { result ≡ record state { format = Two; installed = []; mob = objects } }
{
    let State {
        format: _,
        repo,
        repos,
        life,
        count,
        threshold,
        next_page,
        classes,
        roots,
        upgrades,
        installed,
        mob,
        prepared,
        kept,
        alone,
    } = state;
    drop(installed);
    drop(mob);
    State {
        format: StoreFormat::Two,
        repo,
        repos,
        life,
        count,
        threshold,
        next_page,
        classes,
        roots,
        upgrades,
        installed: Sides::new(alloc),
        mob: objects,
        prepared,
        kept,
        alone,
    }
}

/// The log that begins with a state, on the other log disk.
fn begin_log<P: Parts>(
    parts: &mut P,
    log: CommitLog,
    state: &State,
) -> Result<CommitLog, RecoverFault>
    requires fits { StateFits state.now }
    requires whole { IsTrue (is_whole state.now) }
    requires holds { (s : AState) × Holds (P.disks parts.old) log s }
    ensures goes { GoesOn (P.disks parts.old) (P.disks parts.new) }
    ensures any_moment { (s : AState) → Holds (P.disks parts.old) log s → TellsAll (P.disks parts.old) → LeavesAll (P.disks parts.old) (P.disks parts.new) (SaysEither s state.now) }
    ensures done { IfOk result (λ begun. Holds (P.disks parts.new) begun state.now) }
    ensures pages { (P.disks parts.new).content 2 ≡ (P.disks parts.old).content 2 }
    ensures still { NoNewImage (P.disks parts.old) (P.disks parts.new) 2 }
    ensures clock { (P.disks parts.new).clock ≡ (P.disks parts.old).clock }
    ensures damaged { (d place : ℕ) → IsErrOf result (Damaged d place) → ⊥ }
    ensures failed { (d : ℕ) → IsErrOf result (Failed d) → Rose ((P.disks parts.old).faults d) ((P.disks parts.new).faults d) }
    ensures steady { OnOk result (NoFault (P.disks parts.old) (P.disks parts.new)) }
    ensures wanting { IsErrOf result OutOfMemory → NoFault (P.disks parts.old) (P.disks parts.new) }
{
    let mut log = log;
    if log.sequence() >= END - 1 {
        drop(log);
        return Err(RecoverFault::NoMemory);
    }
    let on = log.disk();
    let disk = 1 - on;
    match log.checkpoint(parts, state) {
        Ok(()) => Ok(log),
        Err(fault) => {
            drop(log);
            Err(log_fault(disk, fault))
        }
    }
}

/// A state in memory. It is one of a repository.
fn hold(alloc: Global, state: State, limit: u32) -> Result<HeldState, NoMemory>
    requires fits { StateFits state }
    requires whole { IsTrue (is_whole state) }
    requires format { state.format ≡ Two }
    ensures keeps { IfOk result Keeps }
    ensures said { IfOk result (λ held. said held ≡ state) }
    ensures unread { IfOk result (λ held. IsUnread held.objects.pages) }
    ensures limit { IfOk result (λ held. held.objects.mob.limit ≡ limit) }
{
    match HeldState::of(alloc, state, limit) {
        Ok(held) => Ok(held),
        Err(_) => Err(NoMemory),
    }
}

/// A fault of the disk of pages.
fn page_fault(fault: StoreFault) -> RecoverFault
    ensures { result ≡ page_fault fault }
{
    match fault {
        StoreFault::Failed => RecoverFault::Failed {
            disk: Disk::Pages.number(),
        },
        StoreFault::Damaged { place } => RecoverFault::Damaged {
            disk: Disk::Pages.number(),
            place,
        },
        StoreFault::NoMemory => RecoverFault::NoMemory,
    }
}

/// A fault of a log disk.
fn log_fault(disk: u8, fault: LogFault) -> RecoverFault
    ensures { result ≡ log_fault disk fault }
{
    match fault {
        LogFault::Failed => RecoverFault::Failed { disk },
        LogFault::Damaged { place } => RecoverFault::Damaged { disk, place },
        LogFault::NoMemory => RecoverFault::NoMemory,
    }
}
