//! That checked transactions keep ownership. Each law is a function with an empty body, whose clauses are proved once for
//! all callers.

ghost use Rattle.class_defs.specs.Eager.{eager};
ghost use Rattle.class_defs.specs.Epochs.{schema_at};
ghost use Rattle.class_defs.specs.KeptOwnership.{AllKeepClasses};
ghost use Rattle.class_defs.specs.Ownership.{IsAbove};
ghost use Rattle.class_defs.specs.Run.{Ran, run};
ghost use Rattle.class_defs.specs.SchemaRules.{schema_rules};
ghost use Rattle.class_defs.specs.Stored.{Stored, bare};
ghost use Rattle.class_defs.specs.Touched.{on_store};
ghost use Rattle.class_defs.specs.declared.statements.Stmt.{Stmt};
ghost use Rattle.class_defs.specs.declared.store.Plain.{Plain};
ghost use Rattle.class_defs.specs.declared.store.Schema.{Schema};
ghost use Rattle.class_defs.specs.declared.store.Schemas.{Schemas};
ghost use Rattle.law_type_soundness.specs.Fits.{StoreFits};
ghost use Rattle.law_ownership.specs.Checked.{AreItsWrites, CheckedRun, RootsStand, TouchedUndue};
ghost use Rattle.std.specs.List.{Contains};
ghost use Rattle.std.specs.Prelude.{List, Some, [], option_map, ℕ, ◌≡◌};
ghost use Rattle.law_lazy_history.specs.Standing.{MapFits, WritesApart};
ghost use Rattle.thor_value.specs.FiniteMap.{IsSorted, get, overwrite};
ghost use Rattle.thor_value.specs.declared.names.Oref.{Oref};
ghost use Rattle.thor_value.specs.declared.values.Obj.{Obj};

/// A run of a checked transaction on what a stored map stands for touches each owner, direct or further up, of what it
/// touched; and where it touched nothing due, its writes leave a map that fits.
pub fn checked_transactions_keep_ownership()
    ensures owners { (s : Schemas) → (N : Stored) → (schema : Schema) → (repos : ℕ) → (tx : List Stmt) → (names : List Oref) → (r : Ran)
        → CheckedRun s N schema repos tx names r → (n : ℕ) → (a : Oref) → (x : Oref)
        → Contains r.touched x → IsAbove s N.objects n a x → Contains r.touched a }
    ensures fits { (s : Schemas) → (N : Stored) → (schema : Schema) → (repos : ℕ) → (tx : List Stmt) → (names : List Oref) → (r : Ran) → (ws : List (Oref × Obj))
        → CheckedRun s N schema repos tx names r → TouchedUndue s N r → AreItsWrites N r ws
        → MapFits s (record N { objects = overwrite N.objects ws }) }
{}

/// What a map that fits stands for is a store that fits the schema of its epoch, where that breaks no rule and its roots
/// are there: so checked code runs on it without a fault of its own (`law_type_soundness`).
pub fn maps_that_fit_stand_for_stores_that_fit()
    ensures { (s : Schemas) → (N : Stored) → (schema : Schema) → (repos : ℕ)
        → schema_at s N.epoch ≡ Some schema → schema_rules schema repos ≡ [] → AllKeepClasses s N.epoch → MapFits s N → RootsStand schema N.roots
        → StoreFits schema (eager s N) }
{}

/// A run of a checked transaction that touches nothing due commutes with what the map stands for. It runs in the same
/// way on every store that has what is stored at the names that it touched. Of what is due it wrote nothing, nor of
/// what that owns, so the map with its writes stands for the store behind it.
pub fn run_commutes()
    ensures stored { (s : Schemas) → (N : Stored) → (schema : Schema) → (repos : ℕ) → (tx : List Stmt) → (names : List Oref) → (r : Ran)
        → CheckedRun s N schema repos tx names r → TouchedUndue s N r
        → (M : Plain) → ((x : Oref) → Contains r.touched x → get M.objects x ≡ option_map bare (get N.objects x))
        → run schema tx M names ≡ Some (on_store M r) }
    ensures apart { (s : Schemas) → (N : Stored) → (schema : Schema) → (repos : ℕ) → (tx : List Stmt) → (names : List Oref) → (r : Ran) → (ws : List (Oref × Obj))
        → CheckedRun s N schema repos tx names r → TouchedUndue s N r → AreItsWrites N r ws → WritesApart s N ws }
    ensures behind { (s : Schemas) → (N : Stored) → (schema : Schema) → (repos : ℕ) → (tx : List Stmt) → (names : List Oref) → (r : Ran) → (ws : List (Oref × Obj))
        → CheckedRun s N schema repos tx names r → TouchedUndue s N r → AreItsWrites N r ws → IsSorted N.objects
        → eager s (record N { objects = overwrite N.objects ws }) ≡ r.store }
{}
