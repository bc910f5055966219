//! Which side of each installed page is in use.

ghost use Rattle.std.specs.Prelude.{◌≡◌, ◌≤◌, ◌<◌, [], length, slice_set, Err, IfOk, IfErr, IfSome, IsSome, OnOk, OnErr, IsOk, IsTrue, ◌↔◌, ◌<◌};
ghost use Rattle.std.specs.List.{insert};
ghost use Rattle.std.specs.Ordering.{nat_cmp};
ghost use Rattle.std.specs.BTreeMap.{insert_entry, is_at};
ghost use Rattle.std.specs.Vec.{vec_capacity, vec_len};
ghost use Rattle.page_format.specs.Sides.{SidesFit, IsPlace, IsGap, side_in_use};

use std::alloc::{AllocFailed, Global};
use std::marker::Model;
use std::mem;
use thor_value::{NoMemory, Sequence, TryCopy};

/// The installed pages, strictly rising, each with the side of it that is in use, 0 or 1.
#[derive(Debug, Drop)]
pub struct Sides {
    pairs: Vec<(u32, u8)>,
}

impl Model for Sides {
    ghost use Rattle.std.specs.Prelude.{ℕ, List};
    ghost use Rattle.std.specs.Coded.{coded_list, coded×, coded_ℕ};
    ghost use Rattle.page_format.specs.Sides.{SidesFit};

    ghost Value = { List (ℕ × ℕ) };

    ghost coded = { coded_list (coded× coded_ℕ coded_ℕ) };

    ghost view = { λ s. s.pairs.items };

    ghost invariant = { λ s. SidesFit s.pairs.items };
}

/// Memory for a list of pages, so that putting a page into it takes none.
#[derive(Debug, Drop)]
pub struct Room {
    pairs: Vec<(u32, u8)>,
}

impl Model for Room {
    ghost use Rattle.std.specs.Prelude.{◌≡◌, ℕ, []};
    ghost use Rattle.std.specs.Vec.{vec_capacity};

    ghost Value = { ℕ };

    ghost view = { λ r. vec_capacity r.pairs };

    ghost invariant = { λ r. r.pairs.items ≡ [] };
}

impl Room {
    /// No room. It takes no memory.
    pub fn new(alloc: Global) -> Room {
        Room {
            pairs: Vec::new(alloc),
        }
    }

    /// Makes room for so many pages. After `NoMemory` it is as it was.
    pub fn grow(&mut self, count: usize) -> Result<(), NoMemory>
        ensures ok { OnOk result (count ≤ self.new) }
        ensures err { OnErr result (self.new ≡ self.old) }
    {
        self.pairs.reserve(count)?;
        Ok(())
    }
}

impl Sides {
    /// No page. It takes no memory.
    pub fn new(alloc: Global) -> Sides
        ensures { result ≡ [] }
    {
        Sides {
            pairs: Vec::new(alloc),
        }
    }

    /// The pages of a list, where these strictly rise and each side is 0 or 1.
    pub fn from_pairs(pairs: Sequence<(u32, u8)>) -> Option<Sides>
        ensures found { IfSome result (λ sides. sides ≡ pairs) }
        ensures fit { IsSome result ↔ SidesFit pairs }
    {
        if !are_sides(pairs.as_slice()) {
            return None;
        }
        Some(Sides {
            pairs: pairs.into_vec(),
        })
    }

    /// The pages with their sides, pages rising.
    pub fn as_slice(&self) -> &[(u32, u8)]
        ensures value { result.now ≡ self.now }
        ensures fit { SidesFit self.now }
    {
        self.pairs.as_slice()
    }

    /// The side of a page that is in use, where it is installed.
    pub fn in_use(&self, page: u32) -> Option<u8>
        ensures value { result ≡ side_in_use self.now page }
        ensures side { IfSome result (λ side. side < 2) }
    {
        match place(self.pairs.as_slice(), page) {
            Ok(at) => Some(self.pairs[at].1),
            Err(_) => None,
        }
    }

    /// Puts a side of a page in use. After `NoMemory` the list is as it was.
    pub fn put(&mut self, page: u32, side: u8) -> Result<(), NoMemory>
        requires { side < 2 }
        ensures ok { OnOk result (self.new ≡ insert_entry nat_cmp self.old page side) }
        ensures err { OnErr result (self.new ≡ self.old) }
    {
        put_pair(&mut self.pairs, page, side)?;
        Ok(())
    }

    /// Puts a side of a page in use. It takes no memory but that of the room.
    pub fn put_within(&mut self, room: &mut Room, page: u32, side: u8)
        requires side { side < 2 }
        requires room { length self.old < room.old }
        ensures { self.new ≡ insert_entry nat_cmp self.old page side }
    {
        if self.pairs.len() == self.pairs.capacity() {
            move_into(&mut self.pairs, &mut room.pairs);
        }
        let _ = put_pair(&mut self.pairs, page, side);
    }
}

impl TryCopy for Sides {
    fn copy(&self) -> Result<Sides, NoMemory> {
        let alloc = *self.pairs.allocator();
        Ok(Sides {
            pairs: Vec::from_slice(alloc, self.pairs.as_slice())?,
        })
    }
}

/// Whether the pages of a list strictly rise and each side is 0 or 1.
fn are_sides(pairs: &[(u32, u8)]) -> bool
    ensures { IsTrue result ↔ SidesFit pairs.now }
{
    let mut low = 0u64;
    for pair in pairs {
        let (page, side) = *pair;
        if u64::from(page) < low || side > 1 {
            return false;
        }
        low = u64::from(page) + 1;
    }
    true
}

/// The place of a page, or the one where it would stand.
fn place(pairs: &[(u32, u8)], page: u32) -> Result<usize, usize>
    requires { SidesFit pairs.now }
    ensures found { IfOk result (λ at. IsPlace pairs.now page at) }
    ensures absent { IfErr result (λ at. IsGap pairs.now page at) }
{
    pairs.binary_search_by_key(&page, |pair| pair.0)
}

/// Puts a side of a page in use. It takes no memory where there is room for one more.
fn put_pair(pairs: &mut Vec<(u32, u8)>, page: u32, side: u8) -> Result<(), AllocFailed<(u32, u8)>>
    requires fit { SidesFit pairs.old.items }
    requires side { side < 2 }
    ensures ok { OnOk result (pairs.new.items ≡ insert_entry nat_cmp pairs.old.items page side) }
    ensures fit { SidesFit pairs.new.items }
    ensures err { OnErr result (pairs.new.items ≡ pairs.old.items) }
    ensures succeeds { vec_len pairs.old < vec_capacity pairs.old → IsOk result }
{
    match place(pairs.as_slice(), page) {
        Ok(at) => {
            pairs[at] = (page, side);
            Ok(())
        }
        Err(at) => pairs.insert(at, (page, side)),
    }
}

/// Moves all pages into the empty room, which has place for one more.
fn move_into(pairs: &mut Vec<(u32, u8)>, room: &mut Vec<(u32, u8)>)
    requires empty { room.old.items ≡ [] }
    requires more { vec_len pairs.old < vec_capacity room.old }
    ensures items { pairs.new.items ≡ pairs.old.items }
    ensures more { vec_len pairs.new < vec_capacity pairs.new }
    ensures empty { room.new.items ≡ [] }
{
    let _ = room.append(pairs);
    mem::swap(room, pairs);
}
