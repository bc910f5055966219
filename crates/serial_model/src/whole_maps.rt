ghost use Rattle.std.specs.Prelude.{◌≡◌, ◌++◌, IfOk, OnOk};
ghost use Rattle.std.specs.List.Sorted.{IsStrictlySortedBy};
ghost use Rattle.std.specs.Map.{keys_of};
ghost use Rattle.thor_value.specs.FiniteMap.{IsSorted, get, overwrite};
ghost use Rattle.thor_value.specs.Names.{oref_cmp};
ghost use Rattle.serial_model.specs.Whole.{found};

use std::alloc::Global;
use thor_value::{NoMemory, Oref, OrefMap, Sequence, TryCopy, names_are_ordered};

/// Puts written objects in the places of those before.
pub fn overwrite<T: Drop>(
    objects: &mut OrefMap<T>,
    writes: Sequence<(Oref, T)>,
) -> Result<(), NoMemory>
    ensures { OnOk result (objects.new ≡ overwrite objects.old writes) }
{
    for (oref, object) in writes.into_vec() {
        objects.insert(oref, object)?;
    }
    Ok(())
}

/// The map with pairs whose names rise.
pub fn map_of<T: Drop>(alloc: Global, pairs: Sequence<(Oref, T)>) -> Result<OrefMap<T>, NoMemory>
    requires { IsStrictlySortedBy oref_cmp (keys_of pairs) }
    ensures { IfOk result (λ objects. objects.pairs ≡ pairs) }
{
    names_are_ordered();
    let mut objects = OrefMap::new(alloc);
    overwrite(&mut objects, pairs)?;
    Ok(objects)
}

/// Puts a name with what is found at it behind pairs.
fn push_found<T: TryCopy + Drop>(
    objects: &OrefMap<T>,
    name: Oref,
    pairs: &mut Sequence<(Oref, T)>,
) -> Result<(), NoMemory>
    ensures { OnOk result (pairs.new ≡ pairs.old ++ found name (get objects.now name)) }
{
    match objects.get(name) {
        Some(value) => pairs.push((name, value.copy()?)),
        None => Ok(()),
    }
}

/// A copy of the pairs of a map, names rising.
pub fn pairs_of<T: TryCopy + Drop>(
    alloc: Global,
    objects: &OrefMap<T>,
) -> Result<Sequence<(Oref, T)>, NoMemory>
    requires { IsSorted objects.now }
    ensures { IfOk result (λ pairs. pairs ≡ objects.now.pairs) }
{
    names_are_ordered();
    let mut pairs = Sequence::new(alloc);
    let names = objects.names(alloc)?;
    for name in names.as_slice() {
        push_found(objects, *name, &mut pairs)?;
    }
    Ok(pairs)
}
