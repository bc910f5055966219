//! The least name that two lists of names have, by one walk over both.

ghost use Rattle.std.specs.Prelude.{◌≡◌, IsTrue, None, find, map};
ghost use Rattle.thor_value.specs.declared.names.Oref.{Oref};
ghost use Rattle.validation_queue.specs.Names.{Rises, is_among};

use std::cmp::Ordering;
use thor_value::{Obj, Oref};

/// What goes by the name of an object.
pub trait Named {
    /// The name, as contracts see it.
    ghost name_of: { Self → Oref };

    /// The name.
    fn name(&self) -> Oref
        ensures { result ≡ name_of self.now };
}

impl Named for Oref {
    ghost name_of = { λ name. name };

    fn name(&self) -> Oref {
        *self
    }
}

impl Named for (Oref, Obj) {
    ghost name_of = { λ write. write.0 };

    fn name(&self) -> Oref {
        self.0
    }
}

/// Whether the things end before the names begin, by name.
fn end_before<N: Named>(things: &[N], names: &[Oref]) -> bool
    requires things { Rises (map N.name_of things.now) }
    requires names { Rises names.now }
    ensures { IsTrue result → find (is_among names.now) (map N.name_of things.now) ≡ None }
{
    match (things.split_last(), names.split_first()) {
        (Some((last, _)), Some((first, _))) => last.name().cmp(first).is_lt(),
        _ => false,
    }
}

/// Whether the things begin behind the names' end, by name.
fn begin_behind<N: Named>(things: &[N], names: &[Oref]) -> bool
    requires things { Rises (map N.name_of things.now) }
    requires names { Rises names.now }
    ensures { IsTrue result → find (is_among names.now) (map N.name_of things.now) ≡ None }
{
    match (things.split_first(), names.split_last()) {
        (Some((first, _)), Some((last, _))) => last.cmp(&first.name()).is_lt(),
        _ => false,
    }
}

/// The least of the names of some things that is one of the names, all of which rise.
#[tactic(auto, using(crate::proofs::Walking::walk_out, crate::proofs::Walking::walk_less, crate::proofs::Walking::walk_equal, crate::proofs::Walking::walk_greater, crate::proofs::Walking::walk_end))]
pub fn first_common<N: Named>(things: &[N], names: &[Oref]) -> Option<Oref>
    requires things { Rises (map N.name_of things.now) }
    requires names { Rises names.now }
    ensures { result ≡ find (is_among names.now) (map N.name_of things.now) }
{
    if end_before(things, names) || begin_behind(things, names) {
        return None;
    }
    let mut left = things;
    let mut right = names;
    while let Some((thing, things)) = left.split_first() {
        match right.split_first() {
            None => return None,
            Some((other, names)) => match thing.name().cmp(other) {
                Ordering::Less => left = things,
                Ordering::Equal => return Some(*other),
                Ordering::Greater => right = names,
            },
        }
    }
    None
}
