//! That a well owned map stays well owned where objects are brought and upgrades are installed. Each law is a function
//! with an empty body, whose clauses are proved once for all callers.

ghost use Rattle.std.specs.Prelude.{◌≡◌, ◌≤◌, ◌+◌, ℕ, suc, Some, false, IsSomeAnd};
ghost use Rattle.thor_value.specs.FiniteMap.{get, insert};
ghost use Rattle.thor_value.specs.declared.names.Oref.{Oref};
ghost use Rattle.thor_value.specs.declared.values.Obj.{Obj};
ghost use Rattle.class_defs.specs.Eager.{brought, eager, value};
ghost use Rattle.class_defs.specs.Epochs.{classes_of};
ghost use Rattle.class_defs.specs.KeptOwnership.{AllKeepClasses};
ghost use Rattle.class_defs.specs.Levels.{is_due, level};
ghost use Rattle.class_defs.specs.Ownership.{IsAbove, IsPart, Owns, Refers};
ghost use Rattle.class_defs.specs.Stored.{Objects, Stored, all_written, bare};
ghost use Rattle.class_defs.specs.WellOwned.{AreOfTheirClasses, IsWellOwned};
ghost use Rattle.class_defs.specs.declared.store.Schemas.{Schemas};

/// In a well owned map what is owned is a part, and lies in its owner's repository. Going up from it one meets one owner
/// at most at each distance.
pub fn owners_are_alone()
    ensures one { (s : Schemas) → (L : Stored) → (n : ℕ) → (a b z : Oref)
        → IsWellOwned s L → IsAbove s L.objects n a z → IsAbove s L.objects n b z → a ≡ b }
    ensures near { (s : Schemas) → (L : Stored) → (n : ℕ) → (a z : Oref)
        → IsWellOwned s L → IsAbove s L.objects n a z → a.repo ≡ z.repo }
    ensures parts { (s : Schemas) → (L : Stored) → (a : Oref) → (i : ℕ) → (z : Oref)
        → IsWellOwned s L → Owns s L.objects a i z → IsSomeAnd (get L.objects z) (λ o. IsPart s o.class) }
{}

/// Upgrades drop references or keep them: each one in the value of an object is one of the stored object, in a field
/// declared to be of the same class.
pub fn references_shrink()
    ensures { (s : Schemas) → (m : Objects) → (e k : ℕ) → (o : Obj) → (i d : ℕ) → (z : Oref)
        → AllKeepClasses s e → o.ver ≤ k → k ≤ e → Refers (classes_of s k) (value s m k o) i d z
        → (h : ℕ) × Refers (classes_of s o.ver) (bare o) h d z }
{}

/// What a well owned map stands for is well owned, and its owners are owners in the map.
pub fn eager_stays_owned()
    ensures owned { (s : Schemas) → (L : Stored)
        → AllKeepClasses s L.epoch → IsWellOwned s L → IsWellOwned s (all_written (eager s L)) }
    ensures owners { (s : Schemas) → (L : Stored) → (a : Oref) → (i : ℕ) → (z : Oref)
        → AllKeepClasses s L.epoch → IsWellOwned s L
        → Owns s (all_written (eager s L)).objects a i z → (h : ℕ) × Owns s L.objects a h z }
    ensures kinds { (s : Schemas) → (L : Stored)
        → AllKeepClasses s L.epoch → IsWellOwned s L → AreOfTheirClasses s L → AreOfTheirClasses s (all_written (eager s L)) }
{}

/// A map stays well owned where an object none of whose owners is due is brought to the map's epoch.
pub fn transforms_stay_owned()
    ensures owned { (s : Schemas) → (L : Stored) → (x : Oref) → (o : Obj)
        → AllKeepClasses s L.epoch → IsWellOwned s L → get L.objects x ≡ Some o
        → ((n : ℕ) → (a : Oref) → (p : Obj) → IsAbove s L.objects (suc n) a x → get L.objects a ≡ Some p
        → is_due s L.epoch p ≡ false)
        → IsWellOwned s (record L { objects = insert L.objects x (brought s L o) }) }
    ensures kinds { (s : Schemas) → (L : Stored) → (x : Oref) → (o : Obj)
        → AllKeepClasses s L.epoch → IsWellOwned s L → get L.objects x ≡ Some o
        → AreOfTheirClasses s L → AreOfTheirClasses s (record L { objects = insert L.objects x (brought s L o) }) }
{}

/// A map stays well owned where an upgrade is installed, since levels don't fall.
pub fn upgrades_stay_owned()
    ensures levels { (s : Schemas) → (e : ℕ) → (o : Obj) → level s e o ≤ level s (e + 1) o }
    ensures owned { (s : Schemas) → (L : Stored) → IsWellOwned s L → IsWellOwned s (record L { epoch = L.epoch + 1 }) }
    ensures kinds { (s : Schemas) → (L : Stored) → AreOfTheirClasses s L → AreOfTheirClasses s (record L { epoch = L.epoch + 1 }) }
{}
