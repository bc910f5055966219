//! Names of a front end, in the order in which they are given.

use method_eval::Names;
use std::alloc::Global;
use thor_value::{NoMemory, Oref, Orefs};

/// What is done to names, or seen of them.
enum Step {
    /// A page is granted of which there is no name.
    Grant(u8, u32),
    /// Whether a page has none.
    HasNone(u8, u32, bool),
    /// A repository gives the names of a page from a slot on to behind another.
    Gives(u8, u32, u8, u8),
    /// What a repository gives.
    Next(u8, Option<Oref>),
    Reset,
    Spend,
    DropRepo(u8),
}

const TWELVE: &[Step] = &[
    Step::Next(3, None),
    Step::Grant(3, 7),
    Step::HasNone(3, 7, false),
    Step::HasNone(3, 8, true),
    Step::HasNone(2, 7, true),
    Step::Gives(3, 7, 0, 12),
    Step::Next(3, None),
];

const TAKEN_BACK: &[Step] = &[
    Step::Grant(0, 4),
    Step::Gives(0, 4, 0, 5),
    Step::Reset,
    Step::Gives(0, 4, 0, 6),
    Step::Spend,
    Step::Gives(0, 4, 6, 8),
    Step::Reset,
    Step::Gives(0, 4, 6, 12),
    Step::Next(0, None),
];

const AGAIN: &[Step] = &[
    Step::Grant(0, 4),
    Step::Gives(0, 4, 0, 3),
    Step::Spend,
    Step::Gives(0, 4, 3, 5),
    Step::DropRepo(0),
    Step::Next(0, None),
    Step::Spend,
    Step::Grant(0, 4),
    Step::Gives(0, 4, 3, 12),
    Step::Next(0, None),
];

const SEVERAL: &[Step] = &[
    Step::Grant(1, 0),
    Step::Grant(2, 9),
    Step::Grant(1, 5),
    Step::Gives(1, 0, 0, 12),
    Step::Gives(2, 9, 0, 1),
    Step::Gives(1, 5, 0, 1),
    Step::DropRepo(1),
    Step::Next(1, None),
    Step::Gives(2, 9, 1, 12),
    Step::Next(2, None),
];

const FIRST: Oref = Oref {
    repo: 1,
    page: 2,
    slot: 3,
};

const SECOND: Oref = Oref {
    repo: 0,
    page: 5,
    slot: 6,
};

const THIRD: Oref = Oref {
    repo: 1,
    page: 1,
    slot: 1,
};

const STAND_IN: Oref = Oref {
    repo: 255,
    page: 0,
    slot: 0,
};

const BEHIND_ALL: Oref = Oref {
    repo: 255,
    page: 1,
    slot: 0,
};

const LISTED: &[Step] = &[
    Step::Next(1, Some(FIRST)),
    Step::Next(1, Some(THIRD)),
    Step::Next(1, None),
];

const STAND_INS: &[Step] = &[
    Step::Next(1, Some(FIRST)),
    Step::Next(2, Some(STAND_IN)),
    Step::Next(1, Some(THIRD)),
    Step::Reset,
    Step::Next(0, Some(SECOND)),
];

/// Grants a page, and tells whether it had no name of it.
fn grant(names: &mut Names, repo: u8, page: u32) -> Result<bool, NoMemory> {
    if !names.has_none_of(repo, page) {
        return Ok(false);
    }
    names.grant(repo, page)?;
    Ok(true)
}

/// Whether a repository gives the names of a page from a slot on to behind another.
fn gives(names: &mut Names, repo: u8, page: u32, from: u8, to: u8) -> bool {
    for slot in from..to {
        if names.next(repo) != Some(Oref { repo, page, slot }) {
            return false;
        }
    }
    true
}

/// Takes a step. The answer is whether it comes out as it says.
fn holds(names: &mut Names, step: &Step) -> Result<bool, NoMemory> {
    match step {
        Step::Grant(repo, page) => return grant(names, *repo, *page),
        Step::HasNone(repo, page, none) => return Ok(names.has_none_of(*repo, *page) == *none),
        Step::Gives(repo, page, from, to) => return Ok(gives(names, *repo, *page, *from, *to)),
        Step::Next(repo, given) => return Ok(names.next(*repo) == *given),
        Step::Reset => names.reset(),
        Step::Spend => names.spend(),
        Step::DropRepo(repo) => names.drop_repo(*repo),
    }
    Ok(true)
}

/// Whether each step comes out as it says.
fn all_hold(names: &mut Names, steps: &[Step]) -> Result<bool, NoMemory> {
    for step in steps {
        if !holds(names, step)? {
            return Ok(false);
        }
    }
    Ok(true)
}

/// Whether each step comes out as it says with names of which none is granted yet.
fn from_none(alloc: Global, steps: &[Step]) -> Result<bool, NoMemory> {
    let mut names = Names::new(alloc);
    all_hold(&mut names, steps)
}

#[test]
fn a_page_gives_its_twelve_names_in_order(rt: HostRuntime) {
    assert!(rt; from_none(rt.alloc(), TWELVE) == Ok(true));
}

#[test]
fn names_that_are_taken_back_are_given_again(rt: HostRuntime) {
    assert!(rt; from_none(rt.alloc(), TAKEN_BACK) == Ok(true));
}

#[test]
fn a_page_that_comes_again_lacks_the_spent_names(rt: HostRuntime) {
    assert!(rt; from_none(rt.alloc(), AGAIN) == Ok(true));
}

#[test]
fn repositories_have_names_of_their_own(rt: HostRuntime) {
    assert!(rt; from_none(rt.alloc(), SEVERAL) == Ok(true));
}

fn listed(alloc: Global) -> Result<Orefs, NoMemory> {
    Orefs::from_slice(alloc, &[FIRST, SECOND, THIRD])
}

/// Whether each step comes out as it says where these names alone are given.
fn from_listed(alloc: Global, steps: &[Step]) -> Result<bool, NoMemory> {
    let mut names = Names::only_listed(alloc, &listed(alloc)?)?;
    all_hold(&mut names, steps)
}

#[test]
fn listed_names_are_given_and_no_others(rt: HostRuntime) {
    assert!(rt; from_listed(rt.alloc(), LISTED) == Ok(true));
}

/// Whether the stand-in names come, a page of them and one more.
fn stands_in(names: &mut Names) -> bool {
    for slot in 0..=255u8 {
        let wanted = Oref {
            repo: 255,
            page: 0,
            slot,
        };
        if names.next(0) != Some(wanted) {
            return false;
        }
    }
    names.next(0) == Some(BEHIND_ALL)
}

/// Whether they come behind these names.
fn stands_in_behind(alloc: Global) -> Result<bool, NoMemory> {
    let mut names = Names::listed(alloc, &listed(alloc)?)?;
    let first = all_hold(&mut names, STAND_INS);
    let then = stands_in(&mut names);
    Ok(first? && then)
}

#[test]
fn stand_in_names_come_behind_the_listed_ones(rt: HostRuntime) {
    assert!(rt; stands_in_behind(rt.alloc()) == Ok(true));
}
