ghost use Rattle.std.specs.Prelude.{◌≡◌, IfOk, map, List};
ghost use Rattle.thor_value.specs.FiniteMap.{IsSorted};
ghost use Rattle.class_defs.specs.declared.store.Root.{Root};
ghost use Rattle.method_eval.specs.Answers.{stored_at};
ghost use Rattle.serial_model.specs.Whole.{IsOfItsEpoch, bare_objects, bare_pair, plain};

use crate::whole_maps::{map_of, pairs_of};
use class_defs::{Object, Plain, Roots};
use method_eval::{Names, View};
use std::alloc::Global;
use thor_value::{NoMemory, Obj, Oref, OrefMap, Sequence, TryCopy};

/// Objects as they are stored at an epoch.
fn stored_at(
    alloc: Global,
    epoch: u32,
    pairs: Sequence<(Oref, Object)>,
) -> Result<Sequence<(Oref, Obj)>, NoMemory>
    ensures { IfOk result (λ stored. stored ≡ stored_at epoch pairs) }
{
    let mut stored = Sequence::new(alloc);
    for (oref, object) in pairs.into_vec() {
        let Object { class, fields } = object;
        let ver = epoch;
        stored.push((oref, Obj { class, ver, fields }))?;
    }
    Ok(stored)
}

/// Objects without their versions.
fn bare_pairs(
    alloc: Global,
    pairs: Sequence<(Oref, Obj)>,
) -> Result<Sequence<(Oref, Object)>, NoMemory>
    ensures { IfOk result (λ bare. bare ≡ map bare_pair pairs) }
{
    let mut bare = Sequence::new(alloc);
    for (oref, object) in pairs.into_vec() {
        let Obj {
            class,
            ver: _,
            fields,
        } = object;
        bare.push((oref, Object { class, fields }))?;
    }
    Ok(bare)
}

/// A view that has a whole store at hand, each object written at the store's epoch, and no names.
pub fn view_of(alloc: Global, store: &Plain) -> Result<View, NoMemory>
    requires { IsSorted store.now.objects }
    ensures store { IfOk result (λ view. plain store.now.roots view ≡ store.now) }
    ensures versions { IfOk result IsOfItsEpoch }
{
    let pairs = pairs_of(alloc, &store.objects)?;
    let stored = stored_at(alloc, store.epoch, pairs)?;
    Ok(View {
        objects: map_of(alloc, stored)?,
        names: Names::new(alloc),
        epoch: store.epoch,
    })
}

/// The store that a view has at hand.
pub fn plain_of(
    alloc: Global,
    objects: OrefMap<Obj>,
    epoch: u32,
    roots: &Roots,
) -> Result<Plain, NoMemory>
    requires { IsSorted (bare_objects objects) }
    ensures { IfOk result (λ store. store ≡ record { objects = bare_objects objects; epoch = epoch; roots = roots.now }) }
{
    let bare = bare_pairs(alloc, objects.into_pairs(alloc)?)?;
    Ok(Plain {
        objects: map_of(alloc, bare)?,
        epoch,
        roots: roots.copy()?,
    })
}
