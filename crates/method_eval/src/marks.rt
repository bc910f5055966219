//! A mark for each name that was granted, which tells whether the name is spent.

ghost use Rattle.std.specs.Prelude.{◌≡◌, List, true, false, not, ◌++◌, ◌∷◌, [], take, length, map, OnOk, OnErr};
ghost use Rattle.std.specs.List.{filter, fold};
ghost use Rattle.thor_value.specs.FiniteMap.{IsSorted, has, insert};
ghost use Rattle.method_eval.specs.declared.held.Held.{Held};
ghost use Rattle.method_eval.specs.Marks.{AreMarked, marks_of, spent_in};
ghost use Rattle.method_eval.specs.Names.{free, page_names, spend_one};

use crate::held::Held;
use std::collections::BTreeMap;
use thor_value::{NoMemory, Oref};

/// The marks, by their names.
pub type Marks = BTreeMap<Oref, bool>;

/// Whether a name is spent.
pub fn is_spent(marks: &Marks, oref: Oref) -> bool
    requires { IsSorted (marks_of marks.now) }
    ensures { result ≡ has (spent_in (marks_of marks.now)) oref }
{
    match marks.get(&oref) {
        Some(spent) => *spent,
        None => false,
    }
}

/// Makes room for the mark of a name.
fn make_room(marks: &mut Marks, oref: Oref) -> Result<(), NoMemory>
    requires { IsSorted (marks_of marks.old) }
    ensures room { OnOk result (has (marks_of marks.new) oref ≡ true) }
    ensures marked { (all : List Held) → AreMarked (marks_of marks.old) all → AreMarked (marks_of marks.new) all }
    ensures spent { spent_in (marks_of marks.new) ≡ spent_in (marks_of marks.old) }
{
    if marks.contains_key(&oref) {
        return Ok(());
    }
    marks.insert(oref, false)?;
    Ok(())
}

/// Puts a name behind the held ones, with room for its mark. After `NoMemory` the held names are as they were.
fn hold(marks: &mut Marks, held: &mut Vec<Held>, oref: Oref) -> Result<(), NoMemory>
    requires { AreMarked (marks_of marks.old) held.old.items }
    ensures ok { OnOk result (held.new.items ≡ held.old.items ++ free oref ∷ []) }
    ensures err { OnErr result (held.new.items ≡ held.old.items) }
    ensures marked { AreMarked (marks_of marks.new) held.new.items }
    ensures spent { spent_in (marks_of marks.new) ≡ spent_in (marks_of marks.old) }
{
    make_room(marks, oref)?;
    held.push(Held { oref, given: false })?;
    Ok(())
}

/// The same unless the name is spent.
fn hold_unspent(marks: &mut Marks, held: &mut Vec<Held>, oref: Oref) -> Result<(), NoMemory>
    requires { AreMarked (marks_of marks.old) held.old.items }
    ensures ok { OnOk result (held.new.items ≡ held.old.items ++ map free (filter (λ x. not (has (spent_in (marks_of marks.old)) x)) (oref ∷ []))) }
    ensures err { OnErr result (held.new.items ≡ held.old.items) }
    ensures marked { AreMarked (marks_of marks.new) held.new.items }
    ensures spent { spent_in (marks_of marks.new) ≡ spent_in (marks_of marks.old) }
{
    if is_spent(marks, oref) {
        return Ok(());
    }
    hold(marks, held, oref)
}

/// Puts the names of a page behind the held ones, those aside that are spent. After `NoMemory` some of them may be there.
pub fn hold_page(
    marks: &mut Marks,
    held: &mut Vec<Held>,
    repo: u8,
    page: u32,
) -> Result<(), NoMemory>
    requires { AreMarked (marks_of marks.old) held.old.items }
    ensures ok { OnOk result (held.new.items ≡ held.old.items ++ map free (filter (λ x. not (has (spent_in (marks_of marks.old)) x)) (page_names repo page))) }
    ensures err { OnErr result (take (length held.old.items) held.new.items ≡ held.old.items) }
    ensures marked { AreMarked (marks_of marks.new) held.new.items }
    ensures spent { spent_in (marks_of marks.new) ≡ spent_in (marks_of marks.old) }
{
    for slot in 0..12u8 {
        hold_unspent(marks, held, Oref { repo, page, slot })?;
    }
    Ok(())
}

/// Puts names behind the held ones. After `NoMemory` some of them may be there.
pub fn hold_all(marks: &mut Marks, held: &mut Vec<Held>, names: &[Oref]) -> Result<(), NoMemory>
    requires { AreMarked (marks_of marks.old) held.old.items }
    ensures ok { OnOk result (held.new.items ≡ held.old.items ++ map free names.now) }
    ensures marked { AreMarked (marks_of marks.new) held.new.items }
    ensures spent { spent_in (marks_of marks.new) ≡ spent_in (marks_of marks.old) }
{
    for name in names {
        hold(marks, held, *name)?;
    }
    Ok(())
}

/// Marks a held name as spent, where it was given. There is room for the mark.
fn spend_one(marks: &mut Marks, held: Held)
    requires { AreMarked (marks_of marks.old) (held ∷ []) }
    ensures spent { spent_in (marks_of marks.new) ≡ spend_one (spent_in (marks_of marks.old)) held }
    ensures marked { (all : List Held) → AreMarked (marks_of marks.old) all → AreMarked (marks_of marks.new) all }
{
    if held.given {
        let _ = marks.insert(held.oref, true);
    }
}

/// Marks the held names that were given as spent.
pub fn spend_given(marks: &mut Marks, held: &[Held])
    requires { AreMarked (marks_of marks.old) held.now }
    ensures spent { spent_in (marks_of marks.new) ≡ fold spend_one (spent_in (marks_of marks.old)) held.now }
    ensures marked { AreMarked (marks_of marks.new) held.now }
{
    for one in held {
        spend_one(marks, *one);
    }
}
