ghost use Rattle.std.specs.Prelude.{◌≡◌, ◌+◌, ◌≤◌, ◌<◌, ◌^◌, IfOk, length, map};
ghost use Rattle.thor_value.specs.FiniteMap.{IsSorted, get};
ghost use Rattle.class_defs.specs.Upgrades.{up};
ghost use Rattle.serial_model.specs.Upgrading.{transformed_pair};

use crate::whole_maps::{map_of, pairs_of};
use class_defs::{Classes, Object, Plain, PlainObjects, Upgrade};
use lang_upgrade_eval::{transformed, upgrade_of};
use std::alloc::Global;
use thor_value::{NoMemory, Oref, Sequence, TryCopy};

/// All objects behind an upgrade, with their names.
fn transformed_pairs(
    alloc: Global,
    old: &Classes,
    new: &Classes,
    upgrade: &Upgrade,
    objects: &PlainObjects,
    pairs: Sequence<(Oref, Object)>,
) -> Result<Sequence<(Oref, Object)>, NoMemory>
    ensures { IfOk result (λ made. made ≡ map (transformed_pair old.now new.now upgrade.now (get objects.now)) pairs) }
{
    let mut made = Sequence::new(alloc);
    for (oref, object) in pairs.into_vec() {
        let said = upgrade_of(old, upgrade, object.class);
        made.push((oref, transformed(alloc, old, new, objects, object, said)?))?;
    }
    Ok(made)
}

/// The eager upgrade of a store, from the classes of one epoch to those of the next.
///
/// A plain program that transforms every object at once, for what installs upgrades lazily to be compared with.
#[tactic(auto, unfolding(class_defs::specs::Upgrades::up))]
pub fn upgrade_store(
    alloc: Global,
    old: &Classes,
    new: &Classes,
    upgrade: &Upgrade,
    store: &Plain,
) -> Result<Plain, NoMemory>
    requires few { length new.now ≤ 65536 }
    requires sorted { IsSorted store.now.objects }
    requires room { store.now.epoch + 1 < 2 ^ 32 }
    ensures { IfOk result (λ upgraded. upgraded ≡ up old.now new.now upgrade.now store.now) }
{
    let pairs = pairs_of(alloc, &store.objects)?;
    let made = transformed_pairs(alloc, old, new, upgrade, &store.objects, pairs)?;
    Ok(Plain {
        objects: map_of(alloc, made)?,
        epoch: store.epoch + 1,
        roots: store.roots.copy()?,
    })
}
