ghost use Rattle.std.specs.Prelude.{◌≡◌, ◌<◌, ◌+◌, List, length, drop};
ghost use Rattle.std.specs.List.{list_any};
ghost use Rattle.std.proofs.Common.{get_or};
ghost use Rattle.thor_value.specs.Names.{same_oref};
ghost use Rattle.thor_value.specs.declared.names.Oref.{Oref};
ghost use Rattle.class_defs.specs.declared.store.Root.{Root};
ghost use Rattle.serial_model.specs.History.{are_fresh, is_new};
ghost use Rattle.serial_model.specs.Whole.{plain};

use method_eval::View;
use thor_value::{Oref, Orefs};

fn same_oref(first: Oref, second: Oref) -> bool
    ensures { result ≡ same_oref first second }
{
    first.cmp(&second).is_eq()
}

fn is_among(oref: Oref, names: &[Oref]) -> bool
    ensures { result ≡ list_any (same_oref oref) names.now }
{
    for name in names {
        if same_oref(oref, *name) {
            return true;
        }
    }
    false
}

/// Whether a name is neither in the store that a view has nor among others.
#[tactic(auto, using(crate::proofs::WholeStore::has_bare))]
fn is_new(view: &View, name: Oref, others: &[Oref]) -> bool
    ensures { (roots : List Root) → result ≡ is_new (plain roots view.now) name others.now }
{
    !view.objects.contains(name) && !is_among(name, others)
}

/// Whether the name at a place is new among those from there on.
fn is_new_at(view: &View, names: &[Oref], place: usize) -> bool
    requires { place < length names.now }
    ensures { (roots : List Root) (d : Oref) → result ≡ is_new (plain roots view.now) (get_or names.now place d) (drop (place + 1) names.now) }
{
    is_new(view, names[place], names.split_at(place + 1).1)
}

/// Whether no name stands twice and none is in the store that a view has.
pub fn are_fresh(view: &View, names: &Orefs) -> bool
    ensures { (roots : List Root) → result ≡ are_fresh (plain roots view.now) names.now }
{
    let names = names.as_slice();
    for place in 0..names.len() {
        if !is_new_at(view, names, place) {
            return false;
        }
    }
    true
}
