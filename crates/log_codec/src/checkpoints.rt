//! Reading and spelling checkpoints.

ghost use Rattle.std.specs.Prelude.{◌≡◌, ◌++◌, ◌≤◌, ◌<◌, ◌^◌, ℕ, Some, None, OnOk, OnErr, IfOk, IsErrOf, Ok, Err, map, length, if◌then◌else◌};
ghost use Rattle.std.specs.Ordering.{nat_cmp};
ghost use Rattle.thor_value.specs.FiniteMap.{empty};
ghost use Rattle.thor_value.specs.Spelling.{TsFits};
ghost use Rattle.log_codec.specs.Checkpoint.{StateFits, alone_format, are_new, are_sides, client_of, count_format, head_format, kept_format, kept_state_format, mob_format, pages_format, prepared_format, root_format, sides_format, state_format, state_of, state_parts, texts_format, tx_of, version_format};
ghost use Rattle.std.specs.List.{AllByRecursion};
ghost use Rattle.log_codec.specs.Format.{Answered, Gives, IsSpelled, ◌then◌, list, u8_format, u32_format, value_of};
ghost use Rattle.log_codec.specs.Grammar.{rise, ts_format};
ghost use Rattle.thor_value.specs.Names.{ts_cmp};
ghost use Rattle.log_codec.specs.declared.fault.BodyFault.TheVariants.{NotOne};
ghost use Rattle.log_codec.specs.declared.state.State.{State as AState};

use crate::fault::BodyFault;
use crate::lists::put_several;
use crate::rising::rises;
use crate::spelled::Spelled;
use crate::state::{Alones, Requests, State};
use crate::wholes::{read_whole, short_text};
use class_defs::{Root, Roots};
use page_format::{Sides, StoreFormat};
use std::alloc::Global;
use thor_value::{
    NoMemory, Obj, Oref, OrefMap, PAGES, Sequence, Stamps, Text, Texts, Ts, Writes, both,
};

/// The end of the counts of entries.
const COUNT_END: u64 = 1 << 62;

impl Spelled for Root {
    ghost use Rattle.log_codec.specs.Checkpoint.{root_format};

    ghost format = { root_format };

    #[tactic(auto, unfolding(crate::specs::Checkpoint::root_format))]
    fn read(alloc: Global, bytes: &[u8]) -> Result<(Root, &[u8]), BodyFault> {
        let (name, rest) = Text::read(alloc, bytes)?;
        let (class, rest) = u16::read(alloc, rest)?;
        let (oref, rest) = Oref::read(alloc, rest)?;
        Ok((Root { name, class, oref }, rest))
    }

    #[tactic(auto, unfolding(crate::specs::Checkpoint::root_format), using(std::proofs::Common::append_assoc, crate::proofs::Grammars::any_bytes))]
    fn put(&self, out: &mut Text) -> Result<(), NoMemory> {
        self.name.put(out)?;
        self.class.put(out)?;
        self.oref.put(out)
    }
}

impl Spelled for StoreFormat {
    ghost use Rattle.log_codec.specs.Checkpoint.{version_format};

    ghost format = { version_format };

    #[tactic(auto, unfolding(crate::specs::Checkpoint::version_format))]
    fn read(alloc: Global, bytes: &[u8]) -> Result<(StoreFormat, &[u8]), BodyFault> {
        let (number, rest) = u8::read(alloc, bytes)?;
        match number {
            1 => Ok((StoreFormat::One, rest)),
            2 => Ok((StoreFormat::Two, rest)),
            _ => Err(BodyFault::NotOne),
        }
    }

    #[tactic(auto, unfolding(crate::specs::Checkpoint::version_format))]
    fn put(&self, out: &mut Text) -> Result<(), NoMemory> {
        match self {
            StoreFormat::One => out.push(1),
            StoreFormat::Two => out.push(2),
        }
    }
}

#[tactic(auto, unfolding(crate::specs::Checkpoint::count_format))]
fn read_count(alloc: Global, bytes: &[u8]) -> Result<(u64, &[u8]), BodyFault>
    ensures { Gives (λ x. (x.0, x.1.now)) result (count_format.reading bytes.now) }
{
    let (count, rest) = u64::read(alloc, bytes)?;
    if count < COUNT_END {
        Ok((count, rest))
    } else {
        Err(BodyFault::NotOne)
    }
}

#[tactic(auto, unfolding(crate::specs::Checkpoint::pages_format))]
fn read_pages(alloc: Global, bytes: &[u8]) -> Result<(u32, &[u8]), BodyFault>
    ensures { Gives (λ x. (x.0, x.1.now)) result (pages_format.reading bytes.now) }
{
    let (pages, rest) = u32::read(alloc, bytes)?;
    if pages <= PAGES {
        Ok((pages, rest))
    } else {
        Err(BodyFault::NotOne)
    }
}

/// The pages of a list, where these strictly rise and each side is 0 or 1.
fn sides_of(pairs: Sequence<(u32, u8)>) -> Option<Sides>
    requires { AllByRecursion (u32_format then u8_format).Fits pairs }
    ensures { result ≡ (if are_sides 0 pairs then Some pairs else None) }
{
    Sides::from_pairs(pairs)
}

#[tactic(auto, unfolding(crate::specs::Checkpoint::sides_format))]
fn read_sides(alloc: Global, bytes: &[u8]) -> Result<(Sides, &[u8]), BodyFault>
    ensures { Gives (λ x. (x.0, x.1.now)) result (sides_format.reading bytes.now) }
{
    let (pairs, rest) = Sequence::<(u32, u8)>::read(alloc, bytes)?;
    match sides_of(pairs) {
        Some(sides) => Ok((sides, rest)),
        None => Err(BodyFault::NotOne),
    }
}

/// Whether no name stands in the list twice.
fn are_new(alloc: Global, writes: &[(Oref, Obj)]) -> Result<bool, NoMemory>
    ensures { IfOk result (λ new. new ≡ are_new empty writes.now) }
{
    let mut seen = OrefMap::new(alloc);
    for write in writes {
        if seen.contains(write.0) {
            return Ok(false);
        }
        seen.insert(write.0, ())?;
    }
    Ok(true)
}

#[tactic(auto, unfolding(crate::specs::Checkpoint::mob_format))]
fn read_mob(alloc: Global, bytes: &[u8]) -> Result<(Writes, &[u8]), BodyFault>
    ensures { Gives (λ x. (x.0, x.1.now)) result (mob_format.reading bytes.now) }
{
    let (mob, rest) = Writes::read(alloc, bytes)?;
    if are_new(alloc, mob.as_slice())? {
        Ok((mob, rest))
    } else {
        Err(BodyFault::NotOne)
    }
}

/// The timestamps of requests, in their order.
fn stamps_of(alloc: Global, requests: &Requests) -> Result<Stamps, NoMemory>
    ensures { IfOk result (λ stamps. stamps ≡ map tx_of requests.now) }
{
    let mut stamps = Stamps::new(alloc);
    for request in requests.as_slice() {
        stamps.push(request.tx)?;
    }
    Ok(stamps)
}

/// Whether timestamps rise.
fn stamps_rise(stamps: &[Ts]) -> bool
    ensures { result ≡ rise ts_cmp stamps.now }
{
    rises(stamps)
}

#[tactic(auto, unfolding(crate::specs::Checkpoint::prepared_format))]
fn read_prepared(alloc: Global, bytes: &[u8]) -> Result<(Requests, &[u8]), BodyFault>
    ensures { Gives (λ x. (x.0, x.1.now)) result (prepared_format.reading bytes.now) }
{
    let (prepared, rest) = Requests::read(alloc, bytes)?;
    let stamps = stamps_of(alloc, &prepared)?;
    if stamps_rise(stamps.as_slice()) {
        Ok((prepared, rest))
    } else {
        Err(BodyFault::NotOne)
    }
}

#[tactic(auto, unfolding(crate::specs::Checkpoint::kept_format))]
fn read_kept(alloc: Global, bytes: &[u8]) -> Result<(Stamps, &[u8]), BodyFault>
    ensures { Gives (λ x. (x.0, x.1.now)) result (kept_format.reading bytes.now) }
{
    let (kept, rest) = Stamps::read(alloc, bytes)?;
    if stamps_rise(kept.as_slice()) {
        Ok((kept, rest))
    } else {
        Err(BodyFault::NotOne)
    }
}

/// The clients of a list, in its order.
fn clients_of(alloc: Global, alone: &Alones) -> Result<Sequence<u8>, NoMemory>
    ensures { IfOk result (λ clients. clients ≡ map client_of alone.now) }
{
    let clients: Vec<u8> = alone
        .as_slice()
        .iter()
        .map(|single| single.0)
        .collect(alloc)?;
    Ok(Sequence::from_vec(clients))
}

#[tactic(auto, unfolding(crate::specs::Checkpoint::alone_format))]
fn read_alone(alloc: Global, bytes: &[u8]) -> Result<(Alones, &[u8]), BodyFault>
    ensures { Gives (λ x. (x.0, x.1.now)) result (alone_format.reading bytes.now) }
{
    let (alone, rest) = Alones::read(alloc, bytes)?;
    let clients = clients_of(alloc, &alone)?;
    if rises(clients.as_slice()) {
        Ok((alone, rest))
    } else {
        Err(BodyFault::NotOne)
    }
}

/// How far a history has come: the count of its entries, the threshold and the next page.
type Reached = (u64, (Ts, u32));

fn read_reached(alloc: Global, bytes: &[u8]) -> Result<(Reached, &[u8]), BodyFault>
    ensures { Gives (λ x. (x.0, x.1.now)) result ((count_format then ts_format then pages_format).reading bytes.now) }
{
    let (count, rest) = read_count(alloc, bytes)?;
    let (threshold, rest) = Ts::read(alloc, rest)?;
    let (next_page, rest) = read_pages(alloc, rest)?;
    Ok(((count, (threshold, next_page)), rest))
}

/// The numbers of a state.
type Head = (StoreFormat, (u8, (u8, (u32, Reached))));

/// Reads the numbers of a state.
fn read_head(alloc: Global, bytes: &[u8]) -> Result<(Head, &[u8]), BodyFault>
    ensures { Gives (λ x. (x.0, x.1.now)) result (head_format.reading bytes.now) }
{
    let (format, rest) = StoreFormat::read(alloc, bytes)?;
    let (repo, rest) = u8::read(alloc, rest)?;
    let (repos, rest) = u8::read(alloc, rest)?;
    let (life, rest) = u32::read(alloc, rest)?;
    let (reached, rest) = read_reached(alloc, rest)?;
    Ok(((format, (repo, (repos, (life, reached)))), rest))
}

/// The prepared requests, the kept decisions and the last single commits.
type Transactions = (Requests, (Stamps, Alones));

fn read_transactions(alloc: Global, bytes: &[u8]) -> Result<(Transactions, &[u8]), BodyFault>
    ensures { Gives (λ x. (x.0, x.1.now)) result ((prepared_format then kept_format then alone_format).reading bytes.now) }
{
    let (prepared, rest) = read_prepared(alloc, bytes)?;
    let (prepared, (kept, rest)) = both(prepared, read_kept(alloc, rest))?;
    let ((prepared, kept), (alone, rest)) = both((prepared, kept), read_alone(alloc, rest))?;
    Ok(((prepared, (kept, alone)), rest))
}

/// The installed pages, the buffered objects and what is kept of transactions.
type Held = (Sides, (Writes, Transactions));

fn read_held(alloc: Global, bytes: &[u8]) -> Result<(Held, &[u8]), BodyFault>
    ensures { Gives (λ x. (x.0, x.1.now)) result (kept_state_format.reading bytes.now) }
{
    let (installed, rest) = read_sides(alloc, bytes)?;
    let (installed, (mob, rest)) = both(installed, read_mob(alloc, rest))?;
    let ((installed, mob), (transactions, rest)) = both(
        (installed, mob),
        read_transactions(alloc, rest),
    )?;
    Ok(((installed, (mob, transactions)), rest))
}

/// The text of the classes, the roots and the texts of the upgrades.
type Declared = (Text, (Roots, Texts));

/// The state of these parts.
fn state_of(head: Head, declared: Declared, held: Held) -> State
    ensures { result ≡ state_of (head, (declared, held)) }
{
    let (format, (repo, (repos, (life, (count, (threshold, next_page)))))) = head;
    let (classes, (roots, upgrades)) = declared;
    let (installed, (mob, (prepared, (kept, alone)))) = held;
    State {
        format,
        repo,
        repos,
        life,
        count,
        threshold,
        next_page,
        classes,
        roots,
        upgrades,
        installed,
        mob,
        prepared,
        kept,
        alone,
    }
}

impl Spelled for State {
    ghost use Rattle.log_codec.specs.Checkpoint.{state_format};

    ghost format = { state_format };

    #[tactic(auto, unfolding(crate::specs::Checkpoint::state_format))]
    fn read(alloc: Global, bytes: &[u8]) -> Result<(State, &[u8]), BodyFault> {
        let (head, rest) = read_head(alloc, bytes)?;
        let (declared, rest) = Declared::read(alloc, rest)?;
        let (declared, (held, rest)) = both(declared, read_held(alloc, rest))?;
        Ok((state_of(head, declared, held), rest))
    }

    #[tactic(auto, unfolding(crate::specs::Checkpoint::state_format), using(std::proofs::Common::append_assoc))]
    fn put(&self, out: &mut Text) -> Result<(), NoMemory> {
        put_numbers(self, out)?;
        put_place(self, out)?;
        put_texts(self, out)?;
        put_objects(self, out)?;
        put_transactions(self, out)
    }
}

/// Puts the format, the repository and its life.
#[tactic(auto, using(std::proofs::Common::append_assoc, crate::proofs::CheckpointLaws::version_fits))]
fn put_numbers(state: &State, out: &mut Text) -> Result<(), NoMemory>
    requires { StateFits state.now }
    ensures { OnOk result (out.new ≡ out.old ++ (version_format.spelling state.now.format ++ (u8_format.spelling state.now.repo ++ (u8_format.spelling state.now.repos ++ u32_format.spelling state.now.life)))) }
{
    state.format.put(out)?;
    state.repo.put(out)?;
    state.repos.put(out)?;
    state.life.put(out)
}

/// Puts the count of entries, the threshold and the next page.
#[tactic(auto, unfolding(crate::specs::Checkpoint::count_format, crate::specs::Checkpoint::pages_format), using(std::proofs::Common::append_assoc))]
fn put_place(state: &State, out: &mut Text) -> Result<(), NoMemory>
    requires { StateFits state.now }
    ensures { OnOk result (out.new ≡ out.old ++ (count_format.spelling state.now.count ++ (ts_format.spelling state.now.threshold ++ pages_format.spelling state.now.next_page))) }
{
    state.count.put(out)?;
    state.threshold.put(out)?;
    state.next_page.put(out)
}

/// Puts the classes, the roots and the upgrades.
#[tactic(auto, using(std::proofs::Common::append_assoc))]
fn put_texts(state: &State, out: &mut Text) -> Result<(), NoMemory>
    requires { StateFits state.now }
    ensures { OnOk result (out.new ≡ out.old ++ (list u8_format).spelling state.now.classes ++ ((list root_format).spelling state.now.roots ++ (list (list u8_format)).spelling state.now.upgrades)) }
{
    state.classes.put(out)?;
    state.roots.put(out)?;
    state.upgrades.put(out)
}

#[tactic(auto, unfolding(crate::specs::Checkpoint::sides_format), using(std::proofs::Common::append_assoc))]
fn put_sides(sides: &Sides, out: &mut Text) -> Result<(), NoMemory>
    ensures { OnOk result (out.new ≡ out.old ++ sides_format.spelling sides.now) }
{
    let pairs = sides.as_slice();
    let Ok(count) = u32::try_from(pairs.len()) else {
        return Err(NoMemory);
    };
    count.put(out)?;
    put_several(pairs, out)
}

/// Puts the installed pages and the buffered objects.
#[tactic(auto, unfolding(crate::specs::Checkpoint::mob_format), using(std::proofs::Common::append_assoc))]
fn put_objects(state: &State, out: &mut Text) -> Result<(), NoMemory>
    requires { StateFits state.now }
    ensures { OnOk result (out.new ≡ out.old ++ (sides_format.spelling state.now.installed ++ mob_format.spelling state.now.mob)) }
{
    put_sides(&state.installed, out)?;
    state.mob.put(out)
}

/// Puts the prepared requests, the kept decisions and the last single commits.
#[tactic(auto, unfolding(crate::specs::Checkpoint::prepared_format, crate::specs::Checkpoint::kept_format, crate::specs::Checkpoint::alone_format), using(std::proofs::Common::append_assoc))]
fn put_transactions(state: &State, out: &mut Text) -> Result<(), NoMemory>
    requires { StateFits state.now }
    ensures { OnOk result (out.new ≡ out.old ++ (prepared_format.spelling state.now.prepared ++ (kept_format.spelling state.now.kept ++ alone_format.spelling state.now.alone))) }
{
    state.prepared.put(out)?;
    state.kept.put(out)?;
    state.alone.put(out)
}

/// Reads a checkpoint. `NotOne` comes exactly where the bytes, from the first to the last, spell none; each
/// state has one spelling.
pub fn read_state(alloc: Global, bytes: &[u8]) -> Result<State, BodyFault>
    ensures found { IfOk result (λ state. IsSpelled state_format bytes.now state) }
    ensures only { (state : AState) → IsSpelled state_format bytes.now state → Answered result (Ok state) }
    ensures not_one { IsErrOf result NotOne → (state : AState) → ¬ IsSpelled state_format bytes.now state }
    ensures not_one_only { ((state : AState) → ¬ IsSpelled state_format bytes.now state) → Answered result (Err NotOne) }
    ensures exact { Gives (λ state. state) result (value_of state_format bytes.now) }
{
    read_whole::<State>(alloc, bytes)
}

/// Spells a checkpoint. Want of memory also where it is longer than a `u32` can tell.
pub fn spell_state(alloc: Global, state: &State) -> Result<Text, NoMemory>
    requires { StateFits state.now }
    ensures spelled { IfOk result (λ put. IsSpelled state_format put state.now) }
    ensures read { IfOk result (λ put. value_of state_format put ≡ Some state.now) }
    ensures short { IfOk result (λ put. length put < 2 ^ 32) }
{
    let mut text = Text::new(alloc);
    state.put(&mut text)?;
    short_text(text)
}

/// Puts the one spelling of a checkpoint behind the last byte. After `NoMemory` the text is as it was.
pub fn put_state(state: &State, out: &mut Text) -> Result<(), NoMemory>
    requires { StateFits state.now }
    ensures ok { OnOk result (out.new ≡ out.old ++ state_format.spelling state.now) }
    ensures err { OnErr result (out.new ≡ out.old) }
{
    let put = spell_state(out.allocator(), state)?;
    out.append(put)
}
