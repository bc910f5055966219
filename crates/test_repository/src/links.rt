//! Pairs in lists.

use link_table::Links;
use std::alloc::Global;
use thor_value::NoMemory;

/// What is done to pairs, or seen of them.
enum Step {
    /// Two are linked; whether they weren't.
    Link(u32, u32, bool),
    /// Two are parted; whether they were linked.
    Unlink(u32, u32, bool),
    /// A left is parted from all its rights.
    Part(u32),
    First(Option<(u32, u32)>),
    /// The next left of a right behind one of its lefts.
    Left(u32, Option<u32>, Option<u32>),
    /// The next right of a left behind one of its rights.
    Right(u32, Option<u32>, Option<u32>),
    Linked(u32, u32, bool),
}

const STEPS: &[Step] = &[
    Step::First(None),
    Step::Link(1, 5, true),
    Step::Link(1, 7, true),
    Step::Link(2, 5, true),
    Step::Link(1, 5, false),
    Step::First(Some((1, 5))),
    Step::Left(5, None, Some(1)),
    Step::Left(5, Some(1), Some(2)),
    Step::Left(5, Some(2), None),
    Step::Right(1, Some(5), Some(7)),
    Step::Right(1, Some(6), None),
    Step::Linked(1, 7, true),
    Step::Part(1),
    Step::Left(5, None, Some(2)),
    Step::Left(7, None, None),
    Step::First(Some((2, 5))),
    Step::Link(1, 5, true),
    Step::Left(5, Some(2), Some(1)),
    Step::Unlink(2, 5, true),
    Step::Unlink(2, 5, false),
    Step::Left(5, None, Some(1)),
];

/// Takes a step. The answer is whether it comes out as it says.
fn holds(links: &mut Links, step: &Step) -> Result<bool, NoMemory> {
    match step {
        Step::Link(left, right, new) => Ok(links.link(*left, *right)? == *new),
        Step::Unlink(left, right, linked) => Ok(links.unlink(*left, *right) == *linked),
        Step::Part(left) => {
            links.part_left(*left);
            Ok(true)
        }
        Step::First(first) => Ok(links.first() == *first),
        Step::Left(right, after, left) => Ok(links.next_left(*right, *after) == *left),
        Step::Right(left, after, right) => Ok(links.next_right(*left, *after) == *right),
        Step::Linked(left, right, linked) => Ok(links.is_linked(*left, *right) == *linked),
    }
}

/// How many steps come out as they say before one that doesn't.
fn walk(links: &mut Links) -> Result<usize, NoMemory> {
    let mut count = 0usize;
    for step in STEPS {
        if !holds(links, step)? {
            return Ok(count);
        }
        count = count.saturating_add(1);
    }
    Ok(count)
}

fn held(alloc: Global) -> Result<usize, NoMemory> {
    let mut links = Links::new(alloc)?;
    walk(&mut links)
}

#[test]
fn pairs_are_walked_from_both_sides(rt: HostRuntime) {
    assert!(rt; held(rt.alloc()) == Ok(STEPS.len()));
}
