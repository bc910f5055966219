//! What checked code does with parts. Each law is a function with an empty body, whose clauses are proved once for all
//! callers.

ghost use Rattle.class_defs.specs.Run.{Ran, run};
ghost use Rattle.class_defs.specs.SchemaRules.{item_rules, schema_rules};
ghost use Rattle.class_defs.specs.declared.statements.Stmt.{Stmt};
ghost use Rattle.class_defs.specs.declared.store.Plain.{Plain};
ghost use Rattle.class_defs.specs.declared.store.Schema.{Schema};
ghost use Rattle.law_type_soundness.specs.Fits.{Fresh, StoreFits};
ghost use Rattle.law_encapsulation.specs.Owning.{KeepsParts};
ghost use Rattle.std.specs.Prelude.{List, Some, [], ℕ, ◌≡◌};
ghost use Rattle.thor_value.specs.declared.names.Oref.{Oref};

/// A run of checked code on a store that fits reaches a part through its owner alone, and gives an owned field nothing
/// but a new part.
pub fn checked_runs_keep_parts()
    ensures { (schema : Schema) → (repos : ℕ) → (tx : List Stmt) → (store : Plain) → (names : List Oref)
        → (r : Ran)
        → schema_rules schema repos ≡ [] → item_rules schema repos tx ≡ []
        → StoreFits schema store → Fresh store names
        → run schema tx store names ≡ Some r → KeepsParts schema store r }
{}
