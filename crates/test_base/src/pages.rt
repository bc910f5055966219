//! Pages of objects: their one spelling, how much they hold, and bytes that are none.

use page_format::{Damaged, Full, Page, Room, Sides};
use std::alloc::Global;
use std::test::Fail;
use thor_value::{NoMemory, Sequence, Text, TryCopy};

/// So many bytes that begin so and go on with zeros.
fn filled(alloc: Global, front: &[u8], count: usize) -> Result<Text, NoMemory> {
    let mut bytes = Text::from_slice(alloc, front)?;
    for _ in front.len()..count {
        bytes.push(0)?;
    }
    Ok(bytes)
}

/// What is put into a page with this number, how it is spelled, and what some slots have then.
type Row = (
    u32,
    &'static [(u8, &'static [u8])],
    &'static [u8],
    &'static [(u8, Option<&'static [u8]>)],
);

const PAGES: &[Row] = &[
    (3, &[], &[84, 80, 2, 0, 0, 0, 0, 3], &[(0, None)]),
    (
        0,
        &[(0, &[7, 8])],
        &[84, 80, 2, 1, 0, 0, 0, 0, 0, 0, 2, 7, 8],
        &[(0, Some(&[7, 8])), (1, None)],
    ),
    (
        258,
        &[(5, &[50]), (200, &[]), (2, &[20, 21]), (5, &[51, 52, 53])],
        &[
            84, 80, 2, 3, 0, 0, 1, 2, 2, 0, 2, 20, 21, 5, 0, 3, 51, 52, 53, 200, 0, 0,
        ],
        &[(5, Some(&[51, 52, 53])), (200, Some(&[])), (3, None)],
    ),
];

/// Puts objects into a page in turn, and tells whether all had room.
fn all_have_room(page: &mut Page, puts: &[(u8, &[u8])]) -> bool {
    let mut room = true;
    for (slot, object) in puts {
        room = room && page.put(*slot, object).is_ok();
    }
    room
}

/// Whether a page has these objects in these slots.
fn has_all(page: &Page, gets: &[(u8, Option<&[u8]>)]) -> bool {
    for (slot, object) in gets {
        if page.get(*slot) != *object {
            return false;
        }
    }
    true
}

/// The page of these objects, in the order in which they are put into it.
fn page_of(alloc: Global, number: u32, puts: &[(u8, &[u8])]) -> Result<Page, Fail> {
    let mut page = Page::empty(alloc, number)?;
    if !all_have_room(&mut page, puts) {
        return Err("they have room".into());
    }
    Ok(page)
}

/// Whether a page is spelled so, from a copy.
fn is_spelled(page: &Page, wanted: &Text) -> Result<bool, Fail> {
    Ok(page.copy()?.spell()?.as_slice() == wanted.as_slice())
}

#[test]
fn pages_are_spelled_and_read(rt: HostRuntime) -> Result<(), Fail> {
    for (number, puts, front, gets) in PAGES {
        let wanted = filled(rt.alloc(), front, 16384)?;
        assert!(rt; is_spelled(&page_of(rt.alloc(), *number, puts)?, &wanted)?);
        let read = Page::parse(rt.alloc(), wanted.as_slice())?;
        assert!(rt; read.number() == *number && has_all(&read, gets));
    }
    Ok(())
}

/// What is put into a page with so many objects without a byte in turn: how many bytes, and whether there is room.
const ROOMS: &[(usize, &[(u8, usize, bool)])] = &[
    (
        0,
        &[
            (4, 16374, false),
            (4, 16373, true),
            (5, 0, false),
            (4, 1, true),
            (5, 0, true),
        ],
    ),
    (255, &[(255, 0, false), (254, 1, true)]),
];

/// A page with so many objects without a byte.
fn with_empty(alloc: Global, count: usize) -> Result<Page, Fail> {
    let mut page = Page::empty(alloc, 1)?;
    for slot in 0..255u8 {
        if usize::from(slot) < count && page.put(slot, &[]).is_err() {
            return Err("there is room".into());
        }
    }
    Ok(page)
}

/// Whether an object of so many zeros has room, or not.
fn has_room(alloc: Global, page: &mut Page, slot: u8, bytes: usize) -> Result<bool, Fail> {
    let object = filled(alloc, &[], bytes)?;
    match page.put(slot, object.as_slice()) {
        Ok(()) => Ok(true),
        Err(Full::NoRoom) => Ok(false),
        Err(_) => Err("memory".into()),
    }
}

#[test]
fn page_is_full_at_16384_bytes_and_255_objects(rt: HostRuntime) -> Result<(), Fail> {
    for (count, puts) in ROOMS {
        let mut page = with_empty(rt.alloc(), *count)?;
        for (slot, bytes, room) in *puts {
            assert!(rt; has_room(rt.alloc(), &mut page, *slot, *bytes)? == *room);
        }
    }
    Ok(())
}

/// How bytes begin that no page has, and how many they are.
const NO_PAGES: &[(&[u8], usize)] = &[
    (&[84, 80, 2, 2, 0, 0, 0, 0, 5, 0, 0, 5, 0, 0], 16384),
    (&[84, 80, 2, 2, 0, 0, 0, 0, 5, 0, 0, 4, 0, 0], 16384),
    (&[84, 80, 2, 1, 0, 0, 0, 0, 5, 0, 1, 9, 1], 16384),
    (&[84, 80, 2, 1, 0, 0, 0, 0, 5, 63, 246], 16384),
    (&[84, 81, 1, 0, 0, 0, 0, 0], 16384),
    (&[84, 80, 1, 0, 0, 0, 0, 0], 16384),
    (&[84, 80, 3, 0, 0, 0, 0, 0], 16384),
    (&[83, 80, 1, 0, 0, 0, 0, 0], 16384),
    (&[84, 80, 2, 0, 0, 0, 0, 0], 16383),
    (&[84, 80, 2, 0, 0, 0, 0, 0], 16385),
];

#[test]
fn bytes_that_are_no_page_are_damaged(rt: HostRuntime) -> Result<(), Fail> {
    for (front, count) in NO_PAGES {
        let bytes = filled(rt.alloc(), front, *count)?;
        let read = Page::parse(rt.alloc(), bytes.as_slice());
        assert!(rt; matches!(read, Err(Damaged::NoPage)));
    }
    Ok(())
}

/// How a page of the older format begins, and how many bytes it has; then its number and what slot 5 has, where it is one.
const OLD_PAGES: &[(&[u8], usize, Option<(u32, Option<&[u8]>)>)] = &[
    (&[84, 80, 1, 0, 0, 0, 0, 3], 4096, Some((3, None))),
    (
        &[84, 80, 1, 1, 0, 0, 1, 2, 5, 0, 2, 20, 21],
        4096,
        Some((258, Some(&[20, 21]))),
    ),
    // One that is written now, one of its size, one that is cut, and one whose object passes its end.
    (&[84, 80, 2, 0, 0, 0, 0, 3], 4096, None),
    (&[84, 80, 1, 0, 0, 0, 0, 3], 16384, None),
    (&[84, 80, 1, 0, 0, 0, 0, 3], 4095, None),
    (&[84, 80, 1, 1, 0, 0, 0, 0, 5, 15, 246], 4096, None),
];

#[test]
fn pages_of_the_older_format_are_read(rt: HostRuntime) -> Result<(), Fail> {
    for (front, count, wanted) in OLD_PAGES {
        let bytes = filled(rt.alloc(), front, *count)?;
        let read = Page::parse_old(rt.alloc(), bytes.as_slice());
        match (read, wanted) {
            (Ok(page), Some((number, object))) => {
                assert!(rt; page.number() == *number && page.get(5) == *object);
            }
            (Err(Damaged::NoPage), None) => {}
            (_, _) => assert!(rt; false),
        }
    }
    Ok(())
}

/// Pages with their sides, and whether they rise and the sides are two.
const SIDES: &[(&[(u32, u8)], bool)] = &[
    (&[], true),
    (&[(0, 1)], true),
    (&[(3, 0), (7, 1), (u32::MAX, 0)], true),
    (&[(3, 0), (3, 1)], false),
    (&[(4, 0), (3, 1)], false),
    (&[(1, 2)], false),
];

/// The same pairs in a copy of the sides that are made of some; nothing where none are made.
fn copied(alloc: Global, pairs: &[(u32, u8)]) -> Result<Option<Sides>, NoMemory> {
    match Sides::from_pairs(Sequence::from_slice(alloc, pairs)?) {
        Some(sides) => Ok(Some(sides.copy()?)),
        None => Ok(None),
    }
}

/// Whether sides are made of these pairs as it is said, and have them.
fn are_made(alloc: Global, pairs: &[(u32, u8)], fits: bool) -> Result<bool, NoMemory> {
    match copied(alloc, pairs)? {
        Some(sides) => Ok(fits && sides.as_slice() == pairs),
        None => Ok(!fits),
    }
}

#[test]
fn pages_rise_with_their_sides(rt: HostRuntime) -> Result<(), Fail> {
    for (pairs, fits) in SIDES {
        assert!(rt; are_made(rt.alloc(), pairs, *fits)?);
    }
    Ok(())
}

/// Puts side 1 of a page in use, in room that is made before.
fn put(sides: &mut Sides, room: &mut Room, page: u32) -> Result<(), NoMemory> {
    room.grow(sides.as_slice().len() + 1)?;
    sides.put_within(room, page, 1);
    Ok(())
}

/// Sides of six pages, two of which are changed.
fn six(alloc: Global) -> Result<Sides, NoMemory> {
    let mut sides = Sides::new(alloc);
    let mut room = Room::new(alloc);
    for page in [9u32, 2, 5, 0, 7, 5] {
        put(&mut sides, &mut room, page)?;
    }
    sides.put(5, 0)?;
    sides.put(6, 0)?;
    Ok(sides)
}

const SIX: &[(u32, u8)] = &[(0, 1), (2, 1), (5, 0), (6, 0), (7, 1), (9, 1)];

#[test]
fn side_in_use_is_put_in_place(rt: HostRuntime) -> Result<(), Fail> {
    let sides = six(rt.alloc())?;
    assert!(rt; sides.as_slice() == SIX);
    for (page, side) in [(5, Some(0)), (9, Some(1)), (8, None)] {
        assert!(rt; sides.in_use(page) == side, "page {page}");
    }
    Ok(())
}
