ghost use Rattle.std.specs.Prelude.{◌≡◌, ℕ, []};
ghost use Rattle.class_defs.specs.SchemaRules.{schema_rules};
ghost use Rattle.class_defs.specs.Stored.{all_written};
ghost use Rattle.class_defs.specs.WellOwned.{AreOfTheirClasses, IsWellOwned};
ghost use Rattle.class_defs.specs.declared.declarations.Declarations.{Declarations};
ghost use Rattle.class_defs.specs.declared.store.Schemas.{Schemas};
ghost use Rattle.law_type_soundness.specs.Fits.{StoreFits};
ghost use Rattle.script_check.specs.Opened.{opened, schema_of};

/// The store that a script opens with fits its schema: each object has a class that is there and the fields of that, and
/// each root names an object of its class.
pub fn opened_stores_fit()
    ensures { (setup : Declarations) → (repos : ℕ) → schema_rules (schema_of setup) repos ≡ []
        → StoreFits (schema_of setup) (opened (schema_of setup)) }
{}

/// As a stored map, in which all is written in the first epoch, that store is well owned under the schemas that begin with
/// its own, and each object is of its class: whatever upgrades come.
pub fn opened_stores_are_well_owned()
    ensures { (setup : Declarations) → (repos : ℕ) → (s : Schemas) → schema_rules (schema_of setup) repos ≡ [] → s.first ≡ schema_of setup
        → IsWellOwned s (all_written (opened (schema_of setup))) × AreOfTheirClasses s (all_written (opened (schema_of setup))) }
{}
