//! What upgrades leave as it is. Each law is a function with an empty body, whose clauses are proved once for all callers.

ghost use Rattle.std.specs.Prelude.{◌≡◌, ◌<◌, ◌+◌, ℕ, List, Some, None, false, option_map};
ghost use Rattle.thor_value.specs.FiniteMap.{IsSorted, get, keys};
ghost use Rattle.thor_value.specs.declared.names.Oref.{Oref};
ghost use Rattle.thor_value.specs.declared.values.Obj.{Obj};
ghost use Rattle.class_defs.specs.Eager.{eager};
ghost use Rattle.class_defs.specs.Epochs.{next_of};
ghost use Rattle.class_defs.specs.Levels.{is_due, level};
ghost use Rattle.class_defs.specs.Stored.{Stored, bare, each_value};
ghost use Rattle.class_defs.specs.Upgrades.{transformed, up, upgrade_of};
ghost use Rattle.class_defs.specs.declared.classes.Class.{Class};
ghost use Rattle.class_defs.specs.declared.store.Object.{Object};
ghost use Rattle.class_defs.specs.declared.store.Plain.{Plain};
ghost use Rattle.class_defs.specs.declared.store.Schemas.{Schemas};
ghost use Rattle.class_defs.specs.declared.upgrades.Upgrade.{Upgrade};

/// An eager upgrade transforms each object by itself, over the store as it was. It leaves the objects of classes that it
/// doesn't name, makes no object and removes none, leaves the roots, and raises the epoch by one.
pub fn upgrades_leave_other_classes()
    ensures others { (old : List Class) → (new : List Class) → (u : Upgrade) → (store : Plain) → (x : Oref) → (v : Object)
        → get store.objects x ≡ Some v → upgrade_of old u v.class ≡ None → get (up old new u store).objects x ≡ Some v }
    ensures objects { (old : List Class) → (new : List Class) → (u : Upgrade) → (store : Plain) → (x : Oref)
        → get (up old new u store).objects x
        ≡ option_map (λ v. transformed old new (get store.objects) v (upgrade_of old u v.class)) (get store.objects x) }
    ensures names { (old : List Class) → (new : List Class) → (u : Upgrade) → (store : Plain)
        → keys (up old new u store).objects ≡ keys store.objects }
    ensures epoch { (old : List Class) → (new : List Class) → (u : Upgrade) → (store : Plain)
        → (up old new u store).epoch ≡ store.epoch + 1 }
    ensures roots { (old : List Class) → (new : List Class) → (u : Upgrade) → (store : Plain)
        → (up old new u store).roots ≡ store.roots }
{}

/// Where no upgrade up to the epoch names its class, the level of an object is the epoch. A map in which nothing is due
/// stands for its objects as they are stored.
pub fn nothing_due()
    ensures level { (s : Schemas) → (e : ℕ) → (o : Obj)
        → ((k : ℕ) → k < e → next_of s k o.class ≡ None) → level s e o ≡ e }
    ensures eager { (s : Schemas) → (L : Stored)
        → IsSorted L.objects → ((x : Oref) → (o : Obj) → get L.objects x ≡ Some o → is_due s L.epoch o ≡ false)
        → eager s L ≡ record { objects = each_value bare L.objects; epoch = L.epoch; roots = L.roots } }
{}
