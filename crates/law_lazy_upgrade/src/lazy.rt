//! That lazy upgrades are unseen: what a stored map stands for, and what leaves it as it is. Each law is a function with
//! an empty body, whose clauses are proved once for all callers.

ghost use Rattle.std.specs.Prelude.{◌≡◌, ◌≤◌, ◌+◌, ℕ, suc, Some, false, nat_lt, option_map};
ghost use Rattle.thor_value.specs.FiniteMap.{IsSorted, get, insert};
ghost use Rattle.thor_value.specs.declared.names.Oref.{Oref};
ghost use Rattle.thor_value.specs.declared.values.Obj.{Obj};
ghost use Rattle.class_defs.specs.Eager.{brought, eager, value};
ghost use Rattle.class_defs.specs.Epochs.{classes_of, upgrade_to};
ghost use Rattle.class_defs.specs.KeptOwnership.{AllKeepClasses};
ghost use Rattle.class_defs.specs.Levels.{is_due, lags, last_naming, level};
ghost use Rattle.class_defs.specs.Ownership.{IsAbove};
ghost use Rattle.class_defs.specs.Stored.{Objects, Stored, all_written, bare};
ghost use Rattle.class_defs.specs.Upgrades.{up};
ghost use Rattle.class_defs.specs.WellOwned.{IsWellOwned};
ghost use Rattle.class_defs.specs.declared.store.Plain.{Plain};
ghost use Rattle.class_defs.specs.declared.store.Schemas.{Schemas};
ghost use Rattle.class_defs.specs.declared.upgrades.Upgrade.{Upgrade};

/// Up to its level the value of an object is what is stored, and no other object is looked at: it is the same over
/// every map. It is due exactly where an upgrade up to the map's epoch changes it, which is where the last one that
/// names its class comes behind its last write.
pub fn undue_objects_stay()
    ensures level { (s : Schemas) → (m : Objects) → (e k : ℕ) → (o : Obj)
        → k ≤ level s e o → value s m k o ≡ bare o }
    ensures undue { (s : Schemas) → (m : Objects) → (e : ℕ) → (o : Obj)
        → is_due s e o ≡ false → value s m e o ≡ bare o }
    ensures eager { (s : Schemas) → (L : Stored) → (x : Oref) → (o : Obj)
        → get L.objects x ≡ Some o → is_due s L.epoch o ≡ false → get (eager s L).objects x ≡ Some (bare o) }
    ensures alone { (s : Schemas) → (m : Objects) → (n : Objects) → (e k : ℕ) → (o : Obj)
        → k ≤ level s e o → value s m k o ≡ value s n k o }
    ensures due { (s : Schemas) → (e : ℕ) → (o : Obj) → is_due s e o ≡ lags s o e }
    ensures last { (s : Schemas) → (e : ℕ) → (o : Obj) → is_due s e o ≡ nat_lt o.ver (last_naming s o.class e) }
{}

/// What a stored map stands for has the objects of the map, each with its value in the map's epoch.
pub fn eager_objects()
    ensures { (s : Schemas) → (L : Stored) → (x : Oref)
        → get (eager s L).objects x ≡ option_map (value s L.objects L.epoch) (get L.objects x) }
{}

/// A store all of whose objects were written in its epoch stands for itself.
pub fn written_stores_stand()
    ensures { (s : Schemas) → (store : Plain) → eager s (all_written store) ≡ store }
{}

/// An upgrade that is installed changes no stored object and raises the epoch by one. What the map stands for is
/// then behind the eager upgrade of what it stood for.
pub fn upgrade_moves_up()
    ensures { (s : Schemas) → (L : Stored) → (u : Upgrade)
        → IsSorted L.objects → ((x : Oref) → (o : Obj) → get L.objects x ≡ Some o → o.ver ≤ L.epoch)
        → upgrade_to s (L.epoch + 1) ≡ Some u
        → eager s (record L { epoch = L.epoch + 1 }) ≡ up (classes_of s L.epoch) (classes_of s (L.epoch + 1)) u (eager s L) }
{}

/// In a well owned map the value of an object depends on it and on what it owns, directly or further down, alone: it
/// is the same over every map that has the same objects there.
pub fn values_are_local()
    ensures { (s : Schemas) → (L : Stored) → (m : Objects) → (x : Oref) → (o : Obj) → (k : ℕ)
        → AllKeepClasses s L.epoch → IsWellOwned s L
        → get L.objects x ≡ Some o → k ≤ L.epoch
        → ((n : ℕ) → (z : Oref) → IsAbove s L.objects n x z → get L.objects z ≡ get m z)
        → value s L.objects k o ≡ value s m k o }
{}

/// An object of a well owned map none of whose owners is due can be brought to the map's epoch, and what the map
/// stands for is as it was.
pub fn transforms_are_unseen()
    ensures { (s : Schemas) → (L : Stored) → (x : Oref) → (o : Obj)
        → AllKeepClasses s L.epoch → IsWellOwned s L → IsSorted L.objects
        → get L.objects x ≡ Some o
        → ((n : ℕ) → (a : Oref) → (p : Obj) → IsAbove s L.objects (suc n) a x → get L.objects a ≡ Some p
        → is_due s L.epoch p ≡ false)
        → eager s (record L { objects = insert L.objects x (brought s L o) }) ≡ eager s L }
{}
