//! How what fits name by name joins with what is well owned. A law is a function with an empty body, whose clauses are proved
//! once for all callers.

ghost use Rattle.class_defs.specs.Stored.{Stored};
ghost use Rattle.class_defs.specs.WellOwned.{AreOfTheirClasses, IsWellOwned};
ghost use Rattle.class_defs.specs.declared.store.Schemas.{Schemas};
ghost use Rattle.store_check.specs.Fits.{IsFitName};
ghost use Rattle.thor_value.specs.declared.names.Oref.{Oref};

/// A stored map whose names all fit is well owned and its objects are of their classes; and of such a map all names fit.
pub fn maps_fit_by_names()
    ensures whole { (s : Schemas) → (L : Stored) → ((x : Oref) → IsFitName s L x) → IsWellOwned s L × AreOfTheirClasses s L }
    ensures each { (s : Schemas) → (L : Stored) → IsWellOwned s L → AreOfTheirClasses s L → (x : Oref) → IsFitName s L x }
{}
