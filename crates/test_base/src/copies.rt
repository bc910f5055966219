//! The copies that a client holds: what a try leaves of them, and which pages leave.

use client_cache::{Cache, Looked};
use page_format::{Page, PageImage};
use std::alloc::Global;
use thor_value::{NoMemory, Obj, Oref, Orefs, Value, Values};

/// A name: its repository, its page and its slot.
type At = (u8, u32, u8);

/// What is done to the copies of a client, or seen of them.
enum Step {
    /// A try writes a box with a number.
    Write(At, i64),
    Settle,
    Undo,
    /// The copy of an object is dropped.
    Invalidate(At),
    /// What the try has written of an object is given up.
    InvalidateWritten(At),
    /// Page 0 of a repository comes, without an object.
    Place(u8),
    /// Its bytes come as those of page 1, and bring nothing.
    PlaceOther(u8),
    /// The try settles, the page of an object is used, and pages leave.
    Evict(At),
    DropRepo(u8),
    /// The number in a box; nothing where the box isn't here.
    Number(At, Option<i64>),
    /// Whether the page of an object is here.
    Page(At, bool),
}

const TRIES: &[Step] = &[
    Step::Page((0, 0, 0), false),
    Step::Write((0, 0, 0), 5),
    Step::Write((0, 0, 1), 6),
    Step::Settle,
    Step::Write((0, 0, 0), 7),
    Step::Write((0, 0, 0), 8),
    Step::Write((0, 0, 2), 9),
    Step::Number((0, 0, 0), Some(8)),
    // A copy that is dropped in a try stays dropped behind it; what the try has written is there until then.
    Step::Invalidate((0, 0, 0)),
    Step::Number((0, 0, 0), Some(8)),
    Step::Undo,
    Step::Number((0, 0, 0), None),
    Step::Number((0, 0, 1), Some(6)),
    Step::Number((0, 0, 2), None),
    Step::Page((0, 0, 0), true),
    // A page that comes in a try stays behind it, without what the try has written.
    Step::Write((0, 0, 1), 7),
    Step::Place(0),
    Step::Number((0, 0, 1), Some(7)),
    Step::Undo,
    Step::Number((0, 0, 1), None),
    Step::Page((0, 0, 0), true),
    Step::PlaceOther(0),
    Step::Page((0, 1, 0), false),
    // What others have overwritten doesn't come back as a copy; what else the try has written does.
    Step::Write((0, 0, 3), 1),
    Step::Write((0, 0, 4), 2),
    Step::Write((0, 1, 0), 3),
    Step::InvalidateWritten((0, 0, 3)),
    Step::InvalidateWritten((0, 0, 5)),
    Step::InvalidateWritten((0, 1, 0)),
    Step::Number((0, 0, 3), None),
    Step::Settle,
    Step::Number((0, 0, 3), None),
    Step::Number((0, 0, 4), Some(2)),
    Step::Number((0, 1, 0), None),
    Step::Page((0, 1, 0), true),
    // The copy from before the try stays.
    Step::Write((0, 0, 4), 5),
    Step::InvalidateWritten((0, 0, 4)),
    Step::Settle,
    Step::Number((0, 0, 4), Some(2)),
];

const PAGES: &[Step] = &[
    Step::Write((0, 0, 0), 1),
    Step::Write((0, 1, 0), 2),
    Step::Write((1, 0, 0), 3),
    Step::Evict((0, 0, 11)),
    Step::Number((0, 0, 0), Some(1)),
    Step::Page((0, 1, 0), false),
    Step::Number((1, 0, 0), Some(3)),
    // A page that comes leaves what the try has written, and nothing else of what was there.
    Step::Write((1, 0, 4), 4),
    Step::Place(1),
    Step::Number((1, 0, 0), None),
    Step::Number((1, 0, 4), Some(4)),
    Step::DropRepo(1),
    Step::Page((1, 0, 0), false),
    Step::Page((0, 0, 0), true),
    // What the try has written in another repository is still given up.
    Step::Write((0, 0, 0), 9),
    Step::DropRepo(1),
    Step::Undo,
    Step::Number((0, 0, 0), Some(1)),
    // A write uses its page.
    Step::Write((0, 1, 0), 2),
    Step::Evict((0, 1, 0)),
    Step::Write((0, 0, 0), 5),
    Step::Write((0, 2, 0), 6),
    Step::Evict((0, 2, 0)),
    Step::Number((0, 0, 0), Some(5)),
    Step::Page((0, 1, 0), false),
];

fn name(at: At) -> Oref {
    let (repo, page, slot) = at;
    Oref { repo, page, slot }
}

/// The image of a page with no object.
fn empty_page(alloc: Global, page: u32) -> Result<PageImage, NoMemory> {
    Ok(PageImage::new(Page::empty(alloc, page)?))
}

fn box_of(alloc: Global, n: i64) -> Result<Obj, NoMemory> {
    let mut fields = Values::new(alloc);
    fields.push(Value::Int(n))?;
    Ok(Obj {
        class: 0,
        ver: 0,
        fields,
    })
}

fn write(alloc: Global, cache: &mut Cache, at: At, n: i64) -> Result<(), NoMemory> {
    let (repo, page, slot) = at;
    let slot = slot.min(11);
    cache.write(Oref { repo, page, slot }, box_of(alloc, n)?)
}

fn invalidate(alloc: Global, cache: &mut Cache, at: At) -> Result<(), NoMemory> {
    let orefs = Orefs::from_slice(alloc, &[name(at)])?;
    cache.invalidate(&orefs);
    Ok(())
}

fn invalidate_written(alloc: Global, cache: &mut Cache, at: At) -> Result<(), NoMemory> {
    let orefs = Orefs::from_slice(alloc, &[name(at)])?;
    cache.invalidate_written(&orefs);
    Ok(())
}

/// Places a page with no object. The answer is whether it was placed.
fn place(alloc: Global, cache: &mut Cache, repo: u8) -> Result<bool, NoMemory> {
    let bytes = empty_page(alloc, 0)?;
    cache.place(0, repo, &bytes)
}

/// Whether the bytes of page 0 bring nothing where page 1 is meant.
fn refuses(alloc: Global, cache: &mut Cache, repo: u8) -> Result<bool, NoMemory> {
    let bytes = empty_page(alloc, 0)?;
    Ok(!cache.place(1, repo, &bytes)?)
}

fn evict(cache: &mut Cache, at: At) {
    cache.settle();
    cache.bring_forward(name(at));
    cache.evict();
}

/// The number in a box; nothing where the box isn't here.
fn number(cache: &Cache, at: At) -> Option<i64> {
    match cache.look(name(at)) {
        Looked::Here(obj) => match obj.fields.get(0) {
            Some(Value::Int(n)) => Some(*n),
            _ => None,
        },
        Looked::NoPage | Looked::NoSlot => None,
    }
}

fn has_page(cache: &Cache, at: At) -> bool {
    !matches!(cache.look(name(at)), Looked::NoPage)
}

/// Takes a step. The answer is whether what is seen is as it says.
fn holds(alloc: Global, cache: &mut Cache, step: &Step) -> Result<bool, NoMemory> {
    match step {
        Step::Write(at, n) => write(alloc, cache, *at, *n)?,
        Step::Settle => cache.settle(),
        Step::Undo => cache.undo(),
        Step::Invalidate(at) => invalidate(alloc, cache, *at)?,
        Step::InvalidateWritten(at) => invalidate_written(alloc, cache, *at)?,
        Step::Place(repo) => return place(alloc, cache, *repo),
        Step::PlaceOther(repo) => return refuses(alloc, cache, *repo),
        Step::Evict(at) => evict(cache, *at),
        Step::DropRepo(repo) => cache.drop_repo(*repo),
        Step::Number(at, n) => return Ok(number(cache, *at) == *n),
        Step::Page(at, held) => return Ok(has_page(cache, *at) == *held),
    }
    Ok(true)
}

/// How many steps come out as they say before one that doesn't.
fn walk(alloc: Global, cache: &mut Cache, steps: &[Step]) -> Result<usize, NoMemory> {
    let mut count = 0usize;
    for step in steps {
        if !holds(alloc, cache, step)? {
            return Ok(count);
        }
        count = count.saturating_add(1);
    }
    Ok(count)
}

/// The same in a client that holds two pages.
fn held(alloc: Global, steps: &[Step]) -> Result<usize, NoMemory> {
    let mut cache = Cache::new(alloc, 2)?;
    walk(alloc, &mut cache, steps)
}

#[test]
fn tries_leave_copies_as_they_were(rt: HostRuntime) {
    assert!(rt; held(rt.alloc(), TRIES) == Ok(TRIES.len()));
}

#[test]
fn pages_used_least_recently_leave(rt: HostRuntime) {
    assert!(rt; held(rt.alloc(), PAGES) == Ok(PAGES.len()));
}
