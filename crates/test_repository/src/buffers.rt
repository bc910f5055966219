//! The buffer of modified objects.

ghost use Rattle.std.specs.Prelude.{◌≡◌, IfOk};
ghost use Rattle.thor_value.specs.Spelling.{OrefFits};
ghost use Rattle.object_codec.specs.Spelling.{ObjFits};
ghost use Rattle.mob_buffer.specs.Buffer.{AreOf};

use mob_buffer::{Mob, MobFull};
use std::alloc::Global;
use thor_value::{NoMemory, Obj, Oref, Value, Values};

/// A page of repository 1, and a slot.
type At = (u32, u8);

/// What is done to a buffer, or seen of it. Each object has one number, and 16 bytes.
enum Step {
    /// An object is added; the limit where this would pass it.
    Add(At, i64, Option<u32>),
    Load(At, i64),
    Remove(u32),
    Bytes(u32),
    Number(At, Option<i64>),
    /// The next slot of a page that has an object behind one.
    Slot(u32, Option<u8>, Option<u8>),
    Oldest(Option<At>),
    /// All objects, in the order in which their names came in.
    All(&'static [(At, i64)]),
}

const STEPS: &[Step] = &[
    Step::Add((7, 3), 1, None),
    Step::Add((5, 0), 2, None),
    Step::Bytes(32),
    Step::Add((7, 0), 3, Some(32)),
    Step::Add((7, 3), 4, None),
    Step::Number((7, 3), Some(4)),
    Step::Load((7, 0), 5),
    Step::Bytes(48),
    Step::Number((7, 1), None),
    Step::All(&[((7, 3), 4), ((5, 0), 2), ((7, 0), 5)]),
    Step::Oldest(Some((7, 3))),
    Step::Slot(7, None, Some(0)),
    Step::Slot(7, Some(0), Some(3)),
    Step::Slot(7, Some(3), None),
    Step::Slot(7, Some(255), None),
    Step::Remove(7),
    Step::Oldest(Some((5, 0))),
    Step::Bytes(16),
    Step::Slot(7, None, None),
    Step::Remove(5),
    Step::Oldest(None),
];

fn name(at: At) -> Oref
    ensures repo { result.repo ≡ 1 }
    ensures fits { OrefFits result }
{
    let (page, slot) = at;
    Oref {
        repo: 1,
        page: page.min(65535),
        slot: slot.min(11),
    }
}

/// An object of one number: 16 bytes.
fn object(alloc: Global, number: i64) -> Result<Obj, NoMemory>
    ensures { IfOk result ObjFits }
{
    let mut fields = Values::new(alloc);
    fields.push(Value::Int(number))?;
    Ok(Obj {
        class: 0,
        ver: 0,
        fields,
    })
}

/// The limit that another object would pass, or nothing where it is added.
#[tactic(auto, using(mob_buffer::proofs::Sizes::of_put))]
fn add(alloc: Global, mob: &mut Mob, at: At, number: i64) -> Result<Option<u32>, NoMemory>
    requires { AreOf 1 mob.old.objects }
    ensures { AreOf 1 mob.new.objects }
{
    let object = object(alloc, number)?;
    match mob.add(name(at), object) {
        Ok(()) => Ok(None),
        Err(MobFull::Full { limit }) => Ok(Some(limit)),
        Err(MobFull::NoMemory) => Err(NoMemory),
    }
}

#[tactic(auto, using(mob_buffer::proofs::Sizes::of_put))]
fn load(alloc: Global, mob: &mut Mob, at: At, number: i64) -> Result<(), NoMemory>
    requires { AreOf 1 mob.old.objects }
    ensures { AreOf 1 mob.new.objects }
{
    let object = object(alloc, number)?;
    match mob.load(name(at), object) {
        Ok(()) => Ok(()),
        Err(refused) => Err(refused),
    }
}

#[tactic(auto, using(mob_buffer::proofs::Sizes::of_kept))]
fn remove(mob: &mut Mob, page: u32)
    requires { AreOf 1 mob.old.objects }
    ensures { AreOf 1 mob.new.objects }
{
    mob.remove_page(page);
}

/// The number of an object of one number.
fn number_of(object: Option<&Obj>) -> Option<i64> {
    match object?.fields.get(0) {
        Some(Value::Int(number)) => Some(*number),
        _ => None,
    }
}

/// Whether a buffer has these objects in this order, and no others.
fn has_all(mob: &Mob, wanted: &[(At, i64)]) -> bool {
    let mut rank = 0usize;
    for (oref, object) in mob.iter() {
        match wanted.get(rank) {
            Some((at, number)) if *oref == name(*at) && number_of(Some(object)) == Some(*number) =>
                {
                    rank = rank.saturating_add(1);
                }
            _ => return false,
        }
    }
    rank == wanted.len()
}

fn oldest(mob: &Mob) -> Option<At> {
    match mob.oldest() {
        Some(oref) => Some((oref.page, oref.slot)),
        None => None,
    }
}

/// Whether what a step sees is as it says.
fn is_seen(mob: &Mob, step: &Step) -> bool {
    match step {
        Step::Bytes(bytes) => mob.bytes() == *bytes,
        Step::Number(at, number) => number_of(mob.get(name(*at))) == *number,
        Step::Slot(page, after, next) => mob.of_page(*page, *after) == *next,
        Step::Oldest(first) => oldest(mob) == *first,
        Step::All(objects) => has_all(mob, objects),
        _ => true,
    }
}

/// Takes a step. The answer is whether it comes out as it says.
fn holds(alloc: Global, mob: &mut Mob, step: &Step) -> Result<bool, NoMemory>
    requires { AreOf 1 mob.old.objects }
    ensures { AreOf 1 mob.new.objects }
{
    match step {
        Step::Add(at, number, full) => {
            let answer = add(alloc, mob, *at, *number)?;
            Ok(answer == *full)
        }
        Step::Load(at, number) => {
            load(alloc, mob, *at, *number)?;
            Ok(true)
        }
        Step::Remove(page) => {
            remove(mob, *page);
            Ok(true)
        }
        _ => Ok(is_seen(mob, step)),
    }
}

/// How many steps come out as they say before one that doesn't.
fn walk(alloc: Global, mob: &mut Mob) -> Result<usize, NoMemory>
    requires { AreOf 1 mob.old.objects }
{
    let mut count = 0usize;
    for step in STEPS {
        if !holds(alloc, mob, step)? {
            return Ok(count);
        }
        count = count.saturating_add(1);
    }
    Ok(count)
}

/// The same in a buffer of 32 bytes.
fn held(alloc: Global) -> Result<usize, NoMemory> {
    let mut mob = Mob::new(alloc, 32)?;
    walk(alloc, &mut mob)
}

#[test]
fn a_third_object_of_16_bytes_passes_32(rt: HostRuntime) {
    assert!(rt; held(rt.alloc()) == Ok(STEPS.len()));
}
