//! What the values of brought objects rest on. The law is a function with an empty body, whose clauses are proved once
//! for all callers.

ghost use Rattle.std.specs.Prelude.{◌≡◌, ℕ};
ghost use Rattle.thor_value.specs.FiniteMap.{get};
ghost use Rattle.thor_value.specs.declared.values.Obj.{Obj};
ghost use Rattle.class_defs.specs.Eager.{value};
ghost use Rattle.class_defs.specs.Stored.{Objects};
ghost use Rattle.class_defs.specs.declared.store.Schemas.{Schemas};
ghost use Rattle.lazy_transform.specs.Reads.{SameOn, reads};

/// The value of an object in an epoch rests on the object and on those that are read for it alone: over another map that
/// has the same at their names, also where neither has one of them, it is the same, and the same is read.
pub fn values_rest_on_what_is_read()
    ensures value { (s : Schemas) → (m : Objects) → (n : Objects) → (k : ℕ) → (o : Obj)
        → SameOn (reads s m k o) (get m) (get n) → value s n k o ≡ value s m k o }
    ensures reads { (s : Schemas) → (m : Objects) → (n : Objects) → (k : ℕ) → (o : Obj)
        → SameOn (reads s m k o) (get m) (get n) → reads s n k o ≡ reads s m k o }
{}
