ghost use Rattle.std.specs.Prelude.{◌≡◌, ◌+◌, ◌<◌, ◌≤◌, ◌^◌, Err, IfOk, IfSome, IsErrOf, IsTrue, List, None, Ok, OnOk, Some, [], cond, length, max, slice_get, ℕ};
ghost use Rattle.disk_trait.specs.Disks.{Disks, IsSettled, Leaves, NoNewImage, OnDisk, Rose, WhereTold};
ghost use Rattle.repo_state.specs.Entering.{can_enter, entered, installed_in};
ghost use Rattle.repo_state.specs.Keeps.{IsUnread, Keeps};
ghost use Rattle.repo_state.specs.Said.{said, spelled};
ghost use Rattle.repo_state.specs.Unfit.{IsUnfit};
ghost use Rattle.repo_state.specs.declared.fault.HoldFault.TheVariants.{Unfit};
ghost use Rattle.log_codec.specs.Checkpoint.{StateFits};
ghost use Rattle.log_codec.specs.Grammar.{BodyFits};
ghost use Rattle.log_codec.specs.declared.body.Body.TheVariants.{Entry as AnEntry, Installed};
ghost use Rattle.mob_flusher.specs.Images.{IsFlushed, ShowsImage};
ghost use Rattle.mob_flusher.specs.Map.{Has, SameMap};
ghost use Rattle.mob_flusher.specs.declared.store.Flushed.TheVariants.{Installed as AnInstall, Nothing};
ghost use Rattle.page_format.specs.declared.format.StoreFormat.TheVariants.{Two};
ghost use Rattle.page_store.specs.Objects.{HasObjects};
ghost use Rattle.page_store.specs.Sides.{KeepsSides};
ghost use Rattle.page_store.specs.Store.{Agrees, IsDamage};
ghost use Rattle.page_store.specs.declared.fault.StoreFault.TheVariants.{Damaged, Failed, NoMemory as OutOfMemory};
ghost use Rattle.commit_log.specs.Recovered.{after, in_format, is_whole};
ghost use Rattle.thor_value.specs.FiniteMap.{get};
ghost use Rattle.two_phase.specs.Contents.{keeps, without};

use crate::fault::HoldFault;
use crate::held::Held;
use crate::making::{objects_of, table_of};
use class_defs::Roots;
use disk_trait::Parts;
use log_codec::State;
use log_entries::Entry;
use mob_flusher::{Flushed, ObjectStore};
use page_format::Page;
use page_store::StoreFault;
use std::alloc::Global;
use std::marker::Model;
use thor_value::{NoMemory, Obj, Oref, Text, Texts, Ts};
use two_phase::Table;

/// What a repository keeps in memory of the state for which its log stands.
///
/// It moves by one entry, or by one installed page, as its log does. Beside the log's state it keeps the
/// page that is granted next, which no record tells: it is never below the log's next page.
pub struct HeldState {
    alloc: Global,
    held: Held,
}

impl Drop for HeldState {
    fn drop(self) {
        let HeldState { alloc, held } = self;
        let _ = alloc;
        drop(held);
    }
}

impl Model for HeldState {
    ghost use Rattle.repo_state.specs.declared.held.Held.{Held as AHeld};

    ghost Value = { AHeld };

    ghost view = { λ s. s.held };
}

impl HeldState {
    /// Takes a checkpoint's state in, with a buffer that is full at so many bytes. Objects and requests are
    /// moved. Of an older format it is taken as if it were of the one that is written: its pages are another's to read.
    /// `Unfit` only where no memory of a repository says the state: a name is of another repository, or a
    /// transaction is both prepared and decided.
    pub fn of(alloc: Global, state: State, mob_limit: u32) -> Result<HeldState, HoldFault>
        requires { StateFits state }
        ensures keeps { IfOk result Keeps }
        ensures said { IfOk result (λ held. said held ≡ in_format Two state) }
        ensures same { state.format ≡ Two → IfOk result (λ held. said held ≡ state) }
        ensures granted { IfOk result (λ held. held.next_grant ≡ state.next_page) }
        ensures unread { IfOk result (λ held. IsUnread held.objects.pages) }
        ensures limit { IfOk result (λ held. held.objects.mob.limit ≡ mob_limit) }
        ensures unfit { result ≡ Err Unfit → IsUnfit (in_format Two state) }
        ensures broken { result ≡ Err Unfit → IsTrue (is_whole state) → ⊥ }
    {
        let State {
            format: _,
            repo,
            repos,
            life,
            count,
            threshold,
            next_page,
            classes,
            roots,
            upgrades,
            installed,
            mob,
            prepared,
            kept,
            alone,
        } = state;
        let table = table_of(alloc, repo, prepared, kept, alone)?;
        let objects = objects_of(alloc, repo, &installed, mob, mob_limit)?;
        let held = Held {
            repo,
            repos,
            life,
            count,
            threshold,
            next_page,
            next_grant: next_page,
            classes,
            roots,
            upgrades,
            table,
            objects,
        };
        Ok(HeldState { alloc, held })
    }

    /// Whether an entry can come next: what it writes is of this repository.
    pub fn takes(&self, entry: &Entry) -> bool
        ensures { result ≡ can_enter self.now entry.now }
    {
        self.held.takes(entry)
    }

    /// Moves by one entry, as the log does. The entry is one that `takes` admits.
    ///
    /// After `NoMemory` it is no state of the log any more, and the log is read anew. Want of memory, too,
    /// where the count of entries would pass a `u64`.
    pub fn enter(&mut self, entry: &Entry) -> Result<(), NoMemory>
        requires fits { BodyFits (AnEntry entry.now) }
        requires keeps { Keeps self.old }
        requires takes { IsTrue (can_enter self.old entry.now) }
        ensures keeps { OnOk result (Keeps self.new) }
        ensures pages { OnOk result (self.new.objects.pages ≡ self.old.objects.pages) }
        ensures said { OnOk result (said self.new ≡ after (said self.old) (AnEntry entry.now)) }
        ensures held { OnOk result (self.new ≡ entered self.old entry.now) }
    {
        self.held.enter(entry)
    }

    /// A side of a page came into use, as a record of the log tells. The buffered objects of the page go.
    ///
    /// After `NoMemory` it is no state of the log any more.
    pub fn installed(&mut self, page: u32, side: u8) -> Result<(), NoMemory>
        requires { side < 2 }
        ensures keeps { Keeps self.old → OnOk result (Keeps self.new) }
        ensures unread { IsUnread self.old.objects.pages → OnOk result (IsUnread self.new.objects.pages) }
        ensures said { OnOk result (said self.new ≡ after (said self.old) (Installed page side)) }
        ensures held { OnOk result (self.new ≡ installed_in self.old page side) }
    {
        self.held.installed(page, side)
    }

    /// The side that the last flush wrote came into use, and its record stands in the log. It takes no
    /// memory.
    pub fn settle(&mut self, page: u32, side: u8)
        requires last { (repo : ℕ) × IsFlushed self.old.objects repo page side }
        ensures keeps { Keeps self.old → Keeps self.new }
        ensures said { said self.new ≡ after (said self.old) (Installed page side) }
        ensures held { self.new ≡ record self.old { objects = self.new.objects } }
        ensures limit { self.new.objects.mob.limit ≡ self.old.objects.mob.limit }
        ensures agrees { (disk : List ℕ) → Agrees self.old.objects.pages disk → Agrees self.new.objects.pages disk }
        ensures same_map { (disk : List ℕ) (repo : ℕ) → Agrees self.old.objects.pages disk → IsFlushed self.old.objects repo page side → SameMap disk self.old.objects disk self.new.objects repo }
    {
        self.held.objects.settle(page, side);
    }

    /// Takes the objects of a state that was recovered, as a restart does. All else stays.
    pub fn take_objects(&mut self, recovered: HeldState)
        requires { recovered.repo ≡ self.old.repo }
        ensures keeps { Keeps recovered → Keeps self.old → Keeps self.new }
        ensures held { self.new ≡ record self.old { objects = recovered.objects } }
    {
        self.held.objects = recovered.into_objects();
    }

    /// Takes the objects of a state that was made of a checkpoint of this one. As that checkpoint says, the log's next page is the
    /// one that is granted next. All else stays.
    pub fn take_moved(&mut self, moved: HeldState)
        requires { moved.repo ≡ self.old.repo }
        ensures keeps { Keeps moved → Keeps self.old → Keeps self.new }
        ensures held { self.new ≡ record self.old { objects = moved.objects; next_page = self.old.next_grant } }
    {
        self.take_objects(moved);
        self.held.next_page = self.held.next_grant;
    }

    /// The objects. All else is let go.
    fn into_objects(self) -> ObjectStore
        ensures { result ≡ self.objects }
    {
        let HeldState { alloc, held } = self;
        let _ = alloc;
        let Held { objects, .. } = held;
        objects
    }

    /// Forgets the decision to commit a transaction. No record tells it: the log keeps the decision until
    /// the next checkpoint.
    pub fn forget(&mut self, tx: Ts)
        ensures keeps { Keeps self.old → Keeps self.new }
        ensures held { self.new ≡ record self.old { table = cond (keeps (get self.old.table.transactions tx)) (without self.old.table tx) self.old.table } }
    {
        self.held.table.forget(tx);
    }

    /// The whole state, as a checkpoint spells it: the next page is the one that is granted next.
    pub fn state(&self) -> Result<State, NoMemory>
        ensures spelled { IfOk result (λ state. state ≡ spelled self.now) }
        ensures fits { Keeps self.now → self.now.count < 2 ^ 62 → IfOk result (λ state. StateFits state) }
        ensures whole { Keeps self.now → IfOk result (λ state. IsTrue (is_whole state)) }
    {
        self.held.state(self.alloc)
    }

    /// Grants no page below this one any more. A restart takes so over what was granted before it. The page
    /// is at most 65,536.
    pub fn grant_from(&mut self, page: u32)
        requires { page ≤ 65536 }
        ensures keeps { Keeps self.old → Keeps self.new }
        ensures held { self.new ≡ record self.old { next_grant = max self.old.next_grant page } }
    {
        self.held.next_grant = self.held.next_grant.max(page);
    }

    /// The page that is granted next; 65,536 where all were.
    pub fn next_grant(&self) -> u32
        ensures { result ≡ self.now.next_grant }
    {
        self.held.next_grant
    }

    /// The log's next page: it is above each page that a request has written.
    pub fn next_page(&self) -> u32
        ensures { result ≡ self.now.next_page }
    {
        self.held.next_page
    }

    /// The repository's number.
    pub fn repo(&self) -> u8
        ensures { result ≡ self.now.repo }
    {
        self.held.repo
    }

    /// How many repositories the store has.
    pub fn repos(&self) -> u8
        ensures { result ≡ self.now.repos }
    {
        self.held.repos
    }

    /// How often the repository was opened or restarted.
    pub fn life(&self) -> u32
        ensures { result ≡ self.now.life }
    {
        self.held.life
    }

    /// How many entries its history has, over all lives.
    pub fn count(&self) -> u64
        ensures { result ≡ self.now.count }
    {
        self.held.count
    }

    /// The greatest timestamp of a transaction that committed here, or that of the last upgrade, as records
    /// raise it.
    pub fn threshold(&self) -> Ts
        ensures { result ≡ self.now.threshold }
    {
        self.held.threshold
    }

    /// How many upgrades are installed.
    pub fn epoch(&self) -> usize
        ensures { result ≡ length self.now.upgrades }
    {
        self.held.upgrades.len()
    }

    /// The text of the classes at epoch 0.
    pub fn classes(&self) -> &Text
        ensures { result.now ≡ self.now.classes }
    {
        &self.held.classes
    }

    /// The roots, in the order of the setup.
    pub fn roots(&self) -> &Roots
        ensures { result.now ≡ self.now.roots }
    {
        &self.held.roots
    }

    /// The texts of the installed upgrades.
    pub fn upgrades(&self) -> &Texts
        ensures { result.now ≡ self.now.upgrades }
    {
        &self.held.upgrades
    }

    /// The transactions that are prepared, the decisions that are kept, and the last single commits.
    pub fn table(&self) -> &Table
        ensures { result.now ≡ self.now.table }
    {
        &self.held.table
    }

    /// The objects: a buffer over pages.
    pub fn objects(&self) -> &ObjectStore
        ensures { result.now ≡ self.now.objects }
    {
        &self.held.objects
    }

    /// The object of a name, as `ObjectStore::get`.
    pub fn get<P: Parts>(&mut self, parts: &mut P, oref: Oref) -> Result<Option<Obj>, StoreFault>
        requires agrees { WhereTold (P.disks parts.old) 2 (Agrees self.old.objects.pages) }
        ensures alone { OnDisk (P.disks parts.old) (P.disks parts.new) 2 }
        ensures content { (P.disks parts.new).content 2 ≡ (P.disks parts.old).content 2 }
        ensures answer { IfOk result (λ answer. WhereTold (P.disks parts.old) 2 (λ disk. Has disk self.old.objects oref answer)) }
        ensures held { self.new ≡ record self.old { objects = self.new.objects } }
        ensures said { said self.new ≡ said self.old }
        ensures keeps { Keeps self.old → Keeps self.new }
        ensures agrees { WhereTold (P.disks parts.new) 2 (Agrees self.new.objects.pages) }
        ensures damaged { (place : ℕ) → IsErrOf result (Damaged place) → IsDamage (P.disks parts.old) self.old.objects.pages.sides oref.page place }
        ensures failed { IsErrOf result Failed → Rose ((P.disks parts.old).faults 2) ((P.disks parts.new).faults 2) }
        ensures steady { OnOk result ((P.disks parts.new).faults 2 ≡ (P.disks parts.old).faults 2) }
        ensures wanting { IsErrOf result OutOfMemory → (P.disks parts.new).faults 2 ≡ (P.disks parts.old).faults 2 }
        ensures harmed { (place : ℕ) → IsErrOf result (Damaged place) → (P.disks parts.new).faults 2 ≡ (P.disks parts.old).faults 2 }
    {
        self.held.objects.get(parts, oref)
    }

    /// A page with all objects that the buffer has of it, as `ObjectStore::page_image`.
    pub fn page_image<P: Parts>(&mut self, parts: &mut P, page: u32) -> Result<Page, StoreFault>
        requires agrees { WhereTold (P.disks parts.old) 2 (Agrees self.old.objects.pages) }
        ensures alone { OnDisk (P.disks parts.old) (P.disks parts.new) 2 }
        ensures content { (P.disks parts.new).content 2 ≡ (P.disks parts.old).content 2 }
        ensures crash { NoNewImage (P.disks parts.old) (P.disks parts.new) 2 }
        ensures image { IfOk result (λ image. WhereTold (P.disks parts.old) 2 (λ disk. ShowsImage disk self.old.objects page image)) }
        ensures number { IfOk result (λ image. image.number ≡ page) }
        ensures objects { IfOk result HasObjects }
        ensures mob { self.new.objects.mob ≡ self.old.objects.mob }
        ensures held { self.new ≡ record self.old { objects = self.new.objects } }
        ensures said { said self.new ≡ said self.old }
        ensures keeps { Keeps self.old → Keeps self.new }
        ensures agrees { WhereTold (P.disks parts.new) 2 (Agrees self.new.objects.pages) }
        ensures damaged { (place : ℕ) → IsErrOf result (Damaged place) → IsDamage (P.disks parts.old) self.old.objects.pages.sides page place }
        ensures failed { IsErrOf result Failed → Rose ((P.disks parts.old).faults 2) ((P.disks parts.new).faults 2) }
        ensures steady { OnOk result ((P.disks parts.new).faults 2 ≡ (P.disks parts.old).faults 2) }
        ensures wanting { IsErrOf result OutOfMemory → (P.disks parts.new).faults 2 ≡ (P.disks parts.old).faults 2 }
        ensures harmed { (place : ℕ) → IsErrOf result (Damaged place) → (P.disks parts.new).faults 2 ≡ (P.disks parts.old).faults 2 }
    {
        self.held.objects.page_image(parts, page)
    }

    /// Writes the page of the oldest buffered object, as `ObjectStore::flush_one`. Once the log has its
    /// record, `settle` puts it in use.
    pub fn flush_one<P: Parts>(&mut self, parts: &mut P) -> Result<Flushed, StoreFault>
        requires settled { IsSettled (P.disks parts.old) 2 }
        requires agrees { WhereTold (P.disks parts.old) 2 (Agrees self.old.objects.pages) }
        ensures alone { OnDisk (P.disks parts.old) (P.disks parts.new) 2 }
        ensures any_moment { WhereTold (P.disks parts.old) 2 (λ disk. Leaves (P.disks parts.old) (P.disks parts.new) 2 (KeepsSides self.old.objects.pages.sides disk)) }
        ensures nothing { result ≡ Ok Nothing → self.old.objects.mob.objects ≡ [] }
        ensures empty { self.old.objects.mob.objects ≡ [] → result ≡ Ok Nothing }
        ensures flushed { (page side : ℕ) → result ≡ Ok (AnInstall page side) → (repo : ℕ) × IsFlushed self.new.objects repo page side }
        ensures oldest { (page side : ℕ) → result ≡ Ok (AnInstall page side) → IfSome (slice_get self.old.objects.mob.objects 0) (λ q. q.0.page ≡ page) }
        ensures mob { self.new.objects.mob ≡ self.old.objects.mob }
        ensures sides { self.new.objects.pages.sides ≡ self.old.objects.pages.sides }
        ensures held { self.new ≡ record self.old { objects = self.new.objects } }
        ensures said { said self.new ≡ said self.old }
        ensures keeps { Keeps self.old → Keeps self.new }
        ensures settled { OnOk result (IsSettled (P.disks parts.new) 2) }
        ensures agrees { OnOk result (WhereTold (P.disks parts.new) 2 (Agrees self.new.objects.pages)) }
        ensures same_map { OnOk result (WhereTold (P.disks parts.old) 2 (λ before. WhereTold (P.disks parts.new) 2 (λ after. (repo : ℕ) → SameMap before self.old.objects after self.new.objects repo))) }
        ensures damaged { (place : ℕ) → IsErrOf result (Damaged place) → IfSome (slice_get self.old.objects.mob.objects 0) (λ q. IsDamage (P.disks parts.old) self.old.objects.pages.sides q.0.page place) }
        ensures failed { IsErrOf result Failed → Rose ((P.disks parts.old).faults 2) ((P.disks parts.new).faults 2) }
        ensures steady { OnOk result ((P.disks parts.new).faults 2 ≡ (P.disks parts.old).faults 2) }
        ensures wanting { IsErrOf result OutOfMemory → (P.disks parts.new).faults 2 ≡ (P.disks parts.old).faults 2 }
        ensures harmed { (place : ℕ) → IsErrOf result (Damaged place) → (P.disks parts.new).faults 2 ≡ (P.disks parts.old).faults 2 }
        ensures content { (place : ℕ) → IsErrOf result (Damaged place) → (P.disks parts.new).content 2 ≡ (P.disks parts.old).content 2 }
    {
        self.held.objects.flush_one(parts)
    }
}
